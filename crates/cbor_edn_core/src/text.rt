//! Texts: read and printed.

mod grammar;
mod parse;
mod serialize;
