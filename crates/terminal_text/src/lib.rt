//! How a report looks on a terminal: which of its lines are beyond a limit, and in which color.
#![tactic(auto)]

mod alert;
mod amount;
pub mod laws;
mod painted;
mod words;

pub use painted::colored;
