//! The parts of the text of CBOR's Extended Diagnostic Notation (EDN): spaces, numbers and strings, each in a module of its own, over a
//! base that reads them and refuses what is none.
#![tactic(auto)]

pub mod base;
pub mod laws;
pub mod number;
pub mod space;
pub mod string;
