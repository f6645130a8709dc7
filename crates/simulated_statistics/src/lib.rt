//! A simulated module that freezes its statistics (VDM, pages 20h to 2Fh) when it is asked to, and answers all else as its image has it.
#![tactic(auto)]

pub mod laws;
mod module;
mod request;

pub use module::FreezingModule;
pub use request::Request;
