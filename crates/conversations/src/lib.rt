//! Conversations with a bus: which operation comes next, how long to wait before it, and what a reply makes of it. Whoever has
//! a bus of any kind drives one: ask for `next`, make that operation or wait so long, tell what came of it, and so on until
//! the end.
#![tactic(auto)]

mod conversation;
mod event;
mod in_pieces;
pub mod laws;
mod next;
mod on_page;
mod pausing;
mod runner;
mod timed_bus;
mod watching;
mod within;

pub use conversation::{Conversation, try_take};
pub use event::Event;
pub use in_pieces::InPieces;
pub use next::{Next, can_have};
pub use on_page::{NeedsPages, OnPage};
pub use pausing::{Patience, Pausing, Timed};
pub use runner::run;
pub use timed_bus::TimedBus;
pub use watching::{Look, Watched, Watching};
pub use within::{Spent, Within};
