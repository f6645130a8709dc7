//! Plans of data paths for a module's lanes, and certificates that no plan weighs more.
#![tactic(auto)]

mod certificate;
mod checker;
mod fault;
mod flaws;
mod kept;
mod kept_text;
pub mod laws;
mod line;
mod moves;
mod path;
mod plan;
mod retained;
mod stage;
mod state;
mod verdict;

pub use certificate::{
    Certificate, ENTRY_LINE, Entries, Entry, HEAD, LARGE_POTENTIAL, end_line, entry_line, head_of,
};
pub use checker::check;
pub use fault::{CertificateFault, KeptFault};
pub use kept::{is_among, is_eligible_as, may_stay_free};
pub use kept_text::kept_of;
pub use moves::{MAX_MOVES, Move, put_moves};
pub use path::Path;
pub use plan::{MAX_PATHS, Plan, admissible, kept_fault, weight_of};
pub use retained::FollowedMoves;
pub use state::{Decision, HOST_LANES, STATES, State};
pub use verdict::{Reason, Verdict};
