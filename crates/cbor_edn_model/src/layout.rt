//! What stands beside items: widths.

pub mod width;
