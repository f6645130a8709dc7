//! All that a module says of itself: a table of facts for each family, and what a module's memory makes of it.
#![tactic(auto)]

mod apps;
mod details;
mod facts;
mod item;
mod measured;
mod power_class;
mod read_rows;
mod tables;

pub use details::{cmis_details, lacks_diagnostics, qsfp_details, sfp_details};
