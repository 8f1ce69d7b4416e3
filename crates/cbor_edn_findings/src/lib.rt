//! What is at fault in an input, where, and the lines that tell so.
#![tactic(auto)]

pub mod bytes;
pub mod finding;
mod location;
pub mod places;
pub mod shown;
