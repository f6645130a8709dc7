//! What a module measures, and all that it says of itself, as text and as JSON, and how its memory is read for that.
#![tactic(auto)]

mod amount_text;
pub mod detail_laws;
mod detail_report;
mod fetching;
pub mod laws;
mod listed_instances;
mod observation_json;
mod observation_text;
mod own_halves;
mod report;

pub use amount_text::{ShownAmount, shown_as};
pub use detail_report::{details, details_json};
pub use fetching::fetch_observables;
pub use listed_instances::{Seen, all_listed};
pub use report::{observables, observables_json};
