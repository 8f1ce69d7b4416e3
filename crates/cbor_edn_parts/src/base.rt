//! What leaves of all kinds stand on: the text that is read and the count of its reads, kinds of bytes, scans, the texts of leaves,
//! refusals and their places, and encoding indicators.

pub mod buffer;
pub mod bytes;
pub mod error;
pub mod indicator;
pub mod input;
pub(crate) mod leaf_text;
pub mod location;
pub mod looks;
pub mod nesting;
pub mod row;
pub(crate) mod scan;
