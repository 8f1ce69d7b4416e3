//! Tests of what is found at fault in an input, and where.
#![tactic(auto)]

#[cfg(test)]
mod places;
#[cfg(test)]
mod told;
