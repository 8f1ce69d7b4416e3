//! Tests of trees through their public calls: constructors, accessors, contents of tags, copies, spaces and comments.
#![tactic(auto)]

#[cfg(test)]
mod accessors;
#[cfg(test)]
mod comments;
#[cfg(test)]
mod common;
#[cfg(test)]
mod constructors;
#[cfg(test)]
mod contents;
#[cfg(test)]
mod deepest;
#[cfg(test)]
mod embedded;
#[cfg(test)]
mod indicators;
#[cfg(test)]
mod policies;
#[cfg(test)]
mod trees;
