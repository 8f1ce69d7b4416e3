//! The spaces of trees: delimiter policies, comments, and encoding indicators that are removed.

mod indicators;
mod lay;
mod policy;
pub(crate) mod print;
mod room;
mod strings;

pub use print::print_item;
