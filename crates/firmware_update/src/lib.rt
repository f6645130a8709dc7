//! Updates of a module's firmware over its command data block (CDB): what is sent in which order, and what is known then.
#![tactic(auto)]

mod bank;
mod command;
mod durations;
mod exchange;
mod judgement;
mod known;
mod replies;
mod runner;
mod session;
mod update;

pub use bank::Bank;
pub use command::{Command, MAX_BLOCK, block_length, password_message};
pub use durations::Durations;
pub use exchange::Exchange;
pub use judgement::Judgement;
pub use known::Known;
pub use replies::{is_committed, is_invalid, runs, runs_alone};
pub use runner::{UpdateRun, run_update};
pub use session::{DELAY, Session};
pub use update::{Cause, Closing, MAX_TRIES, Stage, Update, UpdateNext};
