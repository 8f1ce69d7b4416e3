//! Tests of texts and bytes through their public calls: rows, limits and refusals.
#![tactic(auto)]

#[cfg(test)]
mod common;
#[cfg(test)]
mod decoding;
#[cfg(test)]
mod limits;
#[cfg(test)]
mod refusals;
#[cfg(test)]
mod rows;
#[cfg(test)]
mod standard;
#[cfg(test)]
mod strings;
#[cfg(test)]
mod words;
