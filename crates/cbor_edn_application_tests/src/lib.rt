//! Tests of literals and annotations: texts before and after, and functions that are called alone.
#![tactic(auto)]

#[cfg(test)]
mod alone;
#[cfg(test)]
mod claims;
#[cfg(test)]
mod common;
#[cfg(test)]
mod cose;
#[cfg(test)]
mod embedded;
#[cfg(test)]
mod standalone;
#[cfg(test)]
mod visited;
#[cfg(test)]
mod whole;
