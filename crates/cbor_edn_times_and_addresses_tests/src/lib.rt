//! Tests of the texts of literals with a prefix: times and IP addresses.
//!
//! Each table names its source. A test goes on after the first row that fails, and tells all that do.
#![tactic(auto)]

#[cfg(test)]
mod addresses;
#[cfg(test)]
mod times;
