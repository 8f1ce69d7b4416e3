//! Tests of what lends parts of a tree: paths, iterators and visits.
#![tactic(auto)]

#[cfg(test)]
mod common;
#[cfg(test)]
mod deepest;
#[cfg(test)]
mod lent_items;
#[cfg(test)]
mod paths;
#[cfg(test)]
mod sought;
#[cfg(test)]
mod visits;
