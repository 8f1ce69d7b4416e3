//! What texts are made of: keywords, labels, the heads of lists, and what stands at a place.

pub mod keyword;
pub mod list_head;
pub mod lookahead;
pub mod opener;
pub mod write;
