//! Changes of lanes and of their settings as plain numbers, for a caller that keeps them in memory of another language.
#![tactic(auto)]

mod ending;
mod numbers;
mod restoring;
mod saving;
pub mod settings;
mod turning;

pub use ending::{SavedLaneEnd, ending_of};
pub use numbers::{SavedChanging, SavedLaneChange};
pub use restoring::{CHANGE, restore};
pub use saving::save;
pub use turning::{MAX_STEPS, begin, take_saved, wait_saved};
