//! Messages of a module's command data block (CDB), and how one is carried out on a bus: conversations on page 9Fh.
#![tactic(auto)]

mod advertised;
mod attempt;
mod delivery;
mod judgement;
pub mod laws;
mod message;
mod operations;
mod outcome;

pub use advertised::Advertised;
pub use attempt::{Attempt, PAGE, Phase, Timing};
pub use delivery::{Delivery, MAX_STEPS, pause_for};
pub use judgement::Judgement;
pub use message::{MAX_BODY, Message};
pub use outcome::Outcome;
