//! A simulated module whose firmware is updated over its command data block: what it does at the bus, and that the laws of updates hold
//! for it, event by event.
#![tactic(auto)]

mod banks;
mod bus;
mod chance;
pub mod laws;
mod module;

pub use banks::{Banks, MAX_IMAGE, MEMORY, Receiving, Slot};
pub use bus::{MAX_CHANCES, SimulatedBus};
pub use chance::{Before, Chance, Fate};
pub use module::SimulatedModule;
