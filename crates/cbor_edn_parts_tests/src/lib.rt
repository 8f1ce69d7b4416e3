//! Tests of the leaves of a tree: spaces, numbers, indicators, literals and dots.
#![tactic(auto)]

#[cfg(test)]
mod leaves;
