//! Optical power in decibels: from tenths of a microwatt, as modules give it, to dBm with two decimals.
//! Exact: nothing is computed in floating point.
#![tactic(auto)]

mod dbm;
mod levels;
mod thresholds;

pub use dbm::Dbm;
pub use levels::level;
