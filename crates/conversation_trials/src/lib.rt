//! Tests of conversations about lanes, statistics and firmware. No program uses this crate.
#![tactic(auto)]

#[cfg(test)]
mod tests;
