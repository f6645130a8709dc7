//! A port at work on a simulated module: what holds of both together.
#![tactic(auto)]

pub mod laws;
