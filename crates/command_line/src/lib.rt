//! The commands of the command line: what each reads, what it answers to its words and its input, and how a run ends.
#![tactic(auto)]

pub mod choice;
mod command_output;
mod commands;
mod failure;
mod fault;
mod input;
pub mod laws;
mod output;
mod parts;
mod program;
mod remark;
mod reported_fault;
mod screen;
mod status;

pub use fault::Fault;
pub use input::{CountedReader, MAX_READS, read_input};
pub use output::{OutputFault, StoppingWriter};
pub use program::run;
pub use screen::allows_colors;
pub use status::Status;
