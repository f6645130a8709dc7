//! What the reports of a module say and what it lists itself (VDM), as metrics in Prometheus' text format.
#![tactic(auto)]

mod amounts;
mod answer;
mod base_unit;
mod exposition;
mod flag_metrics;
mod label_fault;
mod labels;
pub mod laws;
mod metric;
mod module_metrics;
mod name;
mod number;
mod scale;
mod scaled;
mod state_metrics;
mod vdm_metrics;
mod vdm_name;

pub use answer::{Answer, fault_metrics, metrics};
pub use label_fault::LabelFault;
pub use labels::Labels;
