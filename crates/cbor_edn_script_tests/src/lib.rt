//! Tests of lists of edits: texts before and after, and scripts that are made at random.
#![tactic(auto)]

#[cfg(test)]
mod common;
#[cfg(test)]
mod random;
#[cfg(test)]
mod rows;
