//! The drawing of a plan: a picture of its lanes, the Applications that it uses, and why no plan weighs more.
#![tactic(auto)]

mod choices;
mod columns;
mod drawn;
mod elements;
pub mod laws;
mod owners;
mod picture;
mod row;
mod svg;
mod used_apps;
mod why;

pub use drawn::{Drawing, draw};
