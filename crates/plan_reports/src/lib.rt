//! What the program reports of a plan, a verdict, a procedure and its steps on a bus, and a fault, as text and as JSON.
#![tactic(auto)]

mod json_fault;
mod json_plan;
mod json_procedure;
mod json_verdict;
pub mod laws;
mod plan;
mod shown_plan;
mod trace;

pub use json_fault::fault_json;
pub use json_plan::plan_json;
pub use json_procedure::{Outcome, procedure_json};
pub use json_verdict::{bad_json, good_json};
pub use plan::plan_text;
pub use trace::trace_text;
