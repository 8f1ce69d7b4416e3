//! What was expected where a text is no EDN: which kind of fault it is, and where. It knows no tree.
#![tactic(auto)]

mod advice;
pub mod explain;
pub mod finding;
mod gap;
mod lines;
mod number;
pub mod state;
mod table;
mod token;
pub mod told;
mod word;
