//! How many lanes an interface has, by its ID: a column of SFF-8024's tables of host and media interfaces.
//! Facts alone; a count that isn't known for sure is left out, and so is one above eight.
#![tactic(auto)]

mod by_id;
mod laws;
mod row;
mod tables;

pub use by_id::{host_lanes_by_id, media_lanes_by_id};
pub use laws::{each_count_is_of_lanes, each_id_has_one_count};
