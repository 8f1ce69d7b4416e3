//! Lists of edits of a sequence.
#![tactic(auto)]

pub mod laws;
mod script;

pub use script::{Edit, ScriptError, run};
