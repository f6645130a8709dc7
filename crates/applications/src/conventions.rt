/// What is taken for granted when a host reads what a module advertises.
#[derive(Clone, Copy, Debug, PartialEq, Eq)]
pub struct Conventions {
    /// The module pairs an Application's first host lanes with its first media lanes in their order. No register says so.
    pub paired: bool,
    /// A lane count of 0 is the one that the interface ID implies, as far as that is known; else it stays 0.
    pub counts_by_id: bool,
    /// What the Active Control Set has of each host lane is read too, so that a data path that is active may weigh more.
    pub now: bool,
}
