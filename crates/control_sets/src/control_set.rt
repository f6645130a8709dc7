/// The control bytes of host lanes 1 to 8, in this order, as a Staged Control Set or the Active Control Set has them
/// (OIF-CMIS-05.0, "Staged Control Set 0" and "Active Control Set").
pub type ControlSet = [u8; 8];
