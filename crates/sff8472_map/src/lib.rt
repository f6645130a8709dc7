//! What the memory of an SFF-8472 module says: who made it, what it measures, and which limits are passed.
#![tactic(auto)]

mod flags;
mod identity;
mod monitors;
mod refusal;
mod thresholds;

pub use field_tables::{PerLimit, SffFault};
pub use flags::Flags;
pub use identity::Identity;
pub use monitors::Monitors;
pub use refusal::{flags_refusal, measured_refusal, module_refusal};
pub use thresholds::Thresholds;
