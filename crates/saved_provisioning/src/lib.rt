//! Provisioning with settings as plain numbers, for a caller that keeps it in memory of another language.
#![tactic(auto)]

mod numbers;
mod restoring;
mod saving;
mod tasks;
mod turning;
mod used_lanes;

pub use numbers::{SavedExplicit, SavedExplicitFault, SavedStage};
pub use restoring::{PROVISIONING, restore};
pub use turning::{begin, take_saved, wait_saved};
