//! The text of the items that bytes encode, printed while they are read: no tree of them all is made.
#![tactic(auto)]

mod columns;
mod print;
mod strings;
mod tags;

pub use print::print_cbor;
pub use tags::has_tag_of;
