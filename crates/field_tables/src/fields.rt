//! The enumeration of each standard's fields, by the standard's name.
pub use crate::table::cmis::CmisField as Cmis;
pub use crate::table::sff8472::Sff8472Field as Sff8472;
pub use crate::table::sff8636::Sff8636Field as Sff8636;
