//! Trees of CBOR's Extended Diagnostic Notation (EDN): read from text, printed, compared and copied, encoded as CBOR and
//! decoded from it.
#![tactic(auto)]

pub mod access;
pub mod cbor;
pub mod laws;
pub mod layout;
mod text;
pub mod tree;
pub mod visit;
