//! A link test by its side, lanes, pattern and loopback, what it shows of each lane, and what a module can do; and the test as plain
//! numbers, for a caller that keeps it in memory of another language.
#![tactic(auto)]

mod changes;
mod controls;
mod ending;
mod link_capabilities;
mod link_plan;
mod link_results;
mod lists;
mod numbers;
mod restoring;
mod saving;
mod selections;
mod turning;

pub use changes::{SavedChanges, changes_of};
pub use ending::{SavedTestEnd, ending_of};
pub use link_capabilities::LinkCapabilities;
pub use link_plan::{LinkPlan, test_plan};
pub use link_results::{LinkLane, LinkResults, results_of};
pub use numbers::{SavedChange, SavedSwitch, SavedTest, SavedTestPlan};
pub use restoring::restore;
pub use saving::save;
pub use turning::{MAX_STEPS, begin, stop_saved, take_saved, wait_saved};
