//! The control bytes of a control set: those of a plan, the host paths that they tell, and the procedures that make them
//! active on a bus.
#![tactic(auto)]

mod control_byte;
mod control_set;
mod durations;
mod fault;
mod host_path;
pub mod laws;
mod plan_bytes;
mod procedures;

pub use control_byte::ControlByte;
pub use control_set::ControlSet;
pub use durations::{longest_duration, patience_for, pause_for};
pub use fault::{ControlFault, ProvisionFault};
pub use host_path::{HostPath, agree, control_at, paths_of};
pub use plan_bytes::{bytes_of, lanes_of, lanes_outside};
pub use procedures::{
    Activated, MAX_STEPS, PatientFault, PatientPower, PatientProcedure, Power, PowerChange,
    PowerStage, Procedure, Provisioned, SavedFault, SavedProcedure, TaskList, WatchfulProcedure,
    Work, activate, activate_on, answer_in_time, answer_of, change_power, change_power_on,
    is_apply, numbers_of_selected, provision, provision_keeping, provision_on,
};
