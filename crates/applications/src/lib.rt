//! The Applications that a CMIS module advertises: what it can do on which lanes. Weights say how much each is wanted.
#![tactic(auto)]

mod active;
mod advert;
mod app;
mod conventions;
mod counts;
mod descriptors;
mod fault;
mod refusal;
mod weights;

pub use active::ActiveSet;
pub use advert::Advert;
pub use app::{App, MAX_APPS};
pub use conventions::Conventions;
pub use descriptors::apps_in;
pub use fault::AdvertFault;
pub use field_tables::LaneSet;
pub use refusal::{is_read_revision, page_refusal};
pub use weights::{
    AppWeights, WeightLinesFault, WeightTable, Weights, WeightsFault, read_weight_lines,
};
