//! That a simulated module reaches each state in time, and takes the control bytes of a plan.
#![tactic(auto)]

pub mod laws;
