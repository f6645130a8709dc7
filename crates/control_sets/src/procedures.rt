//! Procedures on a bus: provisioning and activation.

mod judgement;
mod patient;
mod power;
mod procedure;
mod runner;
mod saved_fault;
mod task;

pub use patient::{PatientFault, activate_on, answer_in_time, change_power_on, provision_on};
pub use power::{PatientPower, Power, PowerChange, PowerStage, answer_of, change_power};
pub use procedure::{
    MAX_STEPS, PatientProcedure, Procedure, SavedProcedure, TaskList, WatchfulProcedure, Work,
    numbers_of_selected,
};
pub use runner::{Activated, Provisioned, activate, provision, provision_keeping};
pub use saved_fault::SavedFault;
pub use task::is_apply;
