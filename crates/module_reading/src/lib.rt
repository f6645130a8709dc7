//! How a module's memory is read: which operation comes next, and what a reply makes of it.
#![tactic(auto)]

mod asked;
mod halves;
pub mod laws;
mod region;
mod request;

pub use halves::{Halves, PatientReading, Reading};
pub use request::Request;
