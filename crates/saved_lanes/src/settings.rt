//! A change of signal integrity settings as plain numbers, and the settings and limits of a module.

mod ending;
mod numbers;
mod restoring;
mod saving;
mod targets;
mod turning;

pub use ending::{SavedSettingsEnd, ending_of};
pub use numbers::{SavedLimits, SavedSettings, SavedSettingsChange, SavedTargets};
pub use restoring::{SETTINGS_CHANGE, restore};
pub use saving::save;
pub use targets::{SettingsRefusal, change_of, limits_of, targets_of};
pub use turning::{begin, take_saved, wait_saved};
