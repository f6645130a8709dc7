//! The manager of one port of a machine: it keeps the module in the port as it is wanted, while modules are plugged, pulled, fail
//! and restart. It is plain data without a bus and without a clock: it is given what happened and when, and answers what is to be
//! made, or until when nothing is.
#![tactic(auto)]

mod change;
mod codes;
mod deciding;
mod flags;
mod job;
mod lane_flags;
mod lanes;
pub mod laws;
mod look;
mod patient;
mod port;
mod request;
mod silence;
mod times;
mod turn;

pub use change::{Change, Effect, Hindrance, Permission, judge};
pub use codes::LaneCodes;
pub use deciding::{Decision, Goal, LeftBecause, Wanted, decide};
pub use flags::{FlagKeeper, Flags};
pub use job::{Beginning, Job, ReadingJob, WatchingJob};
pub use lane_flags::LaneFlags;
pub use look::{Look, LookStage};
pub use port::{Outcome, Outstanding, Port, Rest, Stage};
pub use request::Request;
pub use silence::{Presence, Silence};
pub use times::Times;
pub use turn::{Course, Note, PortFault, ProcedureFault};
