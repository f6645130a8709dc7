//! A simulated CMIS module: it runs its state machines by ticks, applies what is staged, and refuses what the standard
//! refuses.
#![tactic(auto)]

mod apply;
mod delays;
mod device;
mod down;
mod fault;
mod fetch;
mod fixed;
mod lane;
pub mod laws;
mod module;
mod moving;
mod own_adverts;
mod registers;
mod saved;
mod start;
mod store;
mod tick;

pub use delays::{Delays, MAX_DELAY};
pub use fault::SimFault;
pub use lane::Lane;
pub use module::SimModule;
pub use moving::Moving;
pub use own_adverts::own_advert;
pub use saved::{SavedLane, SavedModule};
