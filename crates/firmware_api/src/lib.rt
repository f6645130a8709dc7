//! What C calls: what a module is, measures and warns of, its Applications, a plan of its lanes, the check of a
//! certificate, the longest that its states last, conversations with it that are told what the caller's bus answered, the
//! manager of a port, updates of a module's firmware, changes of single lanes and of their settings, provisioning with settings, tests
//! of links, readings of statistics, and simulated modules.
#![tactic(auto)]

mod advertisement;
mod bank_counts;
mod certificate;
mod checking;
mod code_texts;
mod conversation;
mod durations;
mod explicit;
mod flags;
mod further_banks;
mod half;
mod identity;
mod judging;
mod kept;
mod lanes;
pub mod laws;
mod link_tests;
mod measured_values;
mod monitors;
mod observable_numbers;
mod operation;
mod patience;
mod planning;
mod port;
mod read_module;
mod settings;
mod shown_texts;
mod simulated;
mod status;
mod texts;
mod update;
mod vdm;
mod weights;
