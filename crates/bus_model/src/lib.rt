//! What a module's two-wire bus carries.
#![tactic(auto)]

mod bus;
mod device;
mod exchange;
mod fault;
pub mod laws;
mod operation;
mod script;
mod script_bus;

pub use bus::{Bus, BusFault};
pub use device::{Dev, Device};
pub use fault::ScriptFault;
pub use operation::{MAX_FETCH, MAX_STORE, Op, Reply, Step};
pub use script::{Directive, MAX_DIRECTIVES, Script};
pub use script_bus::ScriptBus;
