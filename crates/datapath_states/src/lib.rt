//! The data path state machine of CMIS (OIF-CMIS-05.0, section 6.3.3 Data Path State Machine) as one
//! lane sees it: the states and the configuration statuses with their codes, how the codes of several
//! lanes stand in bytes, and the transitions.
#![tactic(auto)]

mod fault;
pub mod laws;
mod machine;
mod nibbles;
mod state;
mod status;

pub use fault::PathCodeFault;
pub use machine::{PathInputs, next};
pub use nibbles::lanes;
pub use state::{PathState, state_of};
pub use status::{ConfigStatus, status_of};
