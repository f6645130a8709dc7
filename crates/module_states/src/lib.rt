//! The module state machine of CMIS (OIF-CMIS-05.0, section 6.3.2 Module State Machine): the states
//! and their codes, what asks for low power, and the transitions.
#![tactic(auto)]

pub mod laws;
mod machine;
mod state;

pub use machine::{ModuleInputs, low_power, next};
pub use state::{ModuleCodeFault, ModuleState, state_of};
