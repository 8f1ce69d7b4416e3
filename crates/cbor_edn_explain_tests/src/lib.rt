//! Texts that are no EDN, and what is told of each.
#![tactic(auto)]

#[cfg(test)]
mod rows;
pub mod shown;
