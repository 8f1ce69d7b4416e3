//! CBOR: heads and integers, what is encoded and what is decoded without a tree.

pub mod decode;
pub mod encode;
pub mod heads;
