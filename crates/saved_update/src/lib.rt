//! An update of a module's firmware as plain numbers, for a caller that keeps it in memory of another language; and single commands, of
//! which one asks what the module's banks hold.
#![tactic(auto)]

mod banks;
mod delivery;
mod numbers;
mod progress;
mod restoring;
mod saving;
mod turning;
mod work;

pub use banks::{BankState, Banks};
pub use numbers::{SavedDelivery, SavedDurations, SavedStage, SavedUpdate};
pub use progress::{Progress, SavedEnding, ending_of, progress_of};
pub use restoring::{UPDATE, restore};
pub use saving::save;
pub use turning::{take_saved, wait_saved};
pub use work::{Ending, Question, Work};
