//! Tests over the public calls of the crates below reports. No program uses this crate.
#![tactic(auto)]

#[cfg(test)]
mod tests;
