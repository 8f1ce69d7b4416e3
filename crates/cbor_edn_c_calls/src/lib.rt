//! What a caller that is not Rattle asks for by numbers, what is written into its room, and what it is told. It knows no tree.
#![tactic(auto)]

pub mod buffer;
pub mod flags;
pub mod message;
pub mod place;
pub mod report;
pub mod status;
