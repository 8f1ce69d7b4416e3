//! How deep what a visit enters may nest.

pub mod depth;
