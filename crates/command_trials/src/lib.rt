//! Tests over the public calls of reports, metrics and the command line. No program uses this crate.
#![tactic(auto)]

#[cfg(test)]
mod tests;
