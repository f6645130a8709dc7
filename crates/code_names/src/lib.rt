//! The names of the codes by which a module says what it is: tables of SFF-8024, CMIS, SFF-8636 and SFF-8472.
//! Facts alone; what isn't known for sure is left out, and `Name::Unlisted` says so.
#![tactic(auto)]

mod laws;
mod media_interfaces;
mod names;
mod row;
mod table;
mod tables;

pub use laws::each_code_has_one_row;
pub use media_interfaces::media_interface_name;
pub use names::name_of;
pub use row::Name;
pub use table::Table;
