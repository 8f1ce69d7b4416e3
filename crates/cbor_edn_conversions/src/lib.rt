//! What conversions answer and leave, and the laws that prettified and resolved items mean the same.
#![tactic(auto)]

pub mod addresses;
pub mod bignums;
pub mod indicators;
pub mod laws;
pub mod tables;
