//! A port as plain numbers, for a caller that keeps it in memory of another language: from a port its numbers, and from them the port.
#![tactic(auto)]

mod known;
mod numbers;
mod outcome;
mod place;
mod restoring;
mod saving;
mod work;

pub use known::take_known;
pub use numbers::{
    SavedCodes, SavedFlags, SavedGoal, SavedLanes, SavedLeft, SavedPort, SavedTimes, SavedWork,
};
pub use outcome::{SavedOutcome, outcome_of};
pub use place::place_of;
pub use restoring::{put_lanes, request_in, restore};
pub use saving::{numbers_of_lanes, save};
