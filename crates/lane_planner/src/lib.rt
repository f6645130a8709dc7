//! The first of the plans of data paths that weigh most, with a certificate that none weighs more.
#![tactic(auto)]

mod choices;
mod first;
mod gains;
pub mod laws;
mod marks;
mod planner;
mod problem;
mod reached;
mod solution;
mod table;
mod written;

pub use first::first_best;
pub use marks::Marks;
pub use planner::{first_plan, plan, plan_keeping};
pub use problem::Problem;
pub use solution::Solution;
pub use table::Table;
pub use written::{certificate_text, put_certificate};
