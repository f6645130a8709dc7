//! What C calls for reports as texts, which takes memory: all that a module has about itself, and its metrics.
#![tactic(auto)]

mod answer;
mod fault;
mod report_texts;
