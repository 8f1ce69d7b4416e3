//! The first item of a sequence that has no encoding: its path, and where it begins in the text.
#![tactic(auto)]

mod guess;
pub mod laws;
pub mod offset;
pub mod path;
