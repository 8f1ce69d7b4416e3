//! What items, their texts and their values are, and the code that knows no tree: keywords, heads, what stands at a place of a
//! text, widths.
#![tactic(auto)]

pub mod cbor;
pub mod laws;
pub mod layout;
pub mod text;
pub mod visit;
