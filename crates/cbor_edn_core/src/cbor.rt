//! CBOR: what items mean, and items from their encoding.

pub mod decode;
pub(crate) mod encode;
