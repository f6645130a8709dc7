//! What holds of firmware updates over all histories and for all modules that meet named premises, and that these can be met.
#![tactic(auto)]

pub mod bus_laws;
pub mod laws;
