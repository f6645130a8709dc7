//! A reading of a module's statistics (VDM) as plain numbers, for a caller that keeps them in memory of another language, beside the
//! pages that it has read.
#![tactic(auto)]

mod ending;
mod numbers;
mod restoring;
mod saving;
mod turning;

pub use ending::{SavedVdmEnd, ending_of};
pub use numbers::{MAX_HALVES, MAX_LISTED, SavedVdm};
pub use restoring::{READING, restore};
pub use saving::save;
pub use turning::{begin, page_given, take_saved, wait_saved};
