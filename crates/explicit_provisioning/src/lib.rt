//! Provisioning with signal integrity settings of the host's own: staged and read back first, applied with the control bytes of a plan
//! under explicit control, and read from the active set last.
#![tactic(auto)]

mod comparing;
mod control;
mod fault;
mod following;
pub mod laws;
mod procedures;
mod staging;
mod tasks;

pub use comparing::{ComparingSettings, ComparingStage};
pub use control::{explicit_bytes, explicit_lanes};
pub use fault::{ExplicitFailure, ExplicitFault};
pub use following::{Leads, Sequel, Then};
pub use procedures::{
    ExplicitEnd, ExplicitTasks, WatchfulTasks, answer_watched, change_for, explicit_tasks,
    fault_of, provision_settings_on, watchful_tasks,
};
pub use staging::{StagingSettings, StagingStage};
