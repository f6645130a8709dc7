//! How a module's statistics (VDM, pages 20h to 2Fh) are read over a bus that may refuse anything: they are frozen, read and
//! released, and the end tells how far that went.
#![tactic(auto)]

mod conversation;
mod end;
pub mod laws;
mod reading;
mod turns;

pub use end::{Release, Statistics, VdmEnd};
pub use reading::{MOST_POLLS, MOST_RETRIES, VdmReading, VdmRequest, VdmStage, groups_page};
