//! From text to trees, in one pass.
//!
//! Each function reads at a place of the text, and answers what it read with the place behind it. A rule is decided
//! by one byte or two. Spaces are scanned once: to see whether a plus sign joins another piece to a string, the space behind
//! a piece is read, and `ItemEnd` hands it on to where it is used. Each function equals a rule of the plain reader on lists
//! (`specs/internal/Reading.antt` of the model), and all that is said of the grammar is said of that reader.

mod entries;
mod items;
mod lists;
mod maps;
mod sequences;
mod strings;

pub(crate) use sequences::{sequence, standalone};
