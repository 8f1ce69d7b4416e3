//! Paths by which people name one item of a text, as `.server{4}[0]`: their grammar, a reader, a printer, and where they lead.
#![tactic(auto)]

pub mod laws;
mod place;
pub mod print;
pub mod read;
pub mod step;
