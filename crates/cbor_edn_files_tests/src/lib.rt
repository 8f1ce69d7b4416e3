//! Tests of files that are replaced, over files in memory of which each call fails in turn.
#![tactic(auto)]

pub mod memory;
#[cfg(test)]
mod turns;
