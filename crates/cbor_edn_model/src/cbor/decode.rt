//! Why bytes are refused, and what is read of a head alone.
ghost use Rattle.std.specs.Prelude.{◌≡◌, ◌↔◌, IsTrue};

use thiserror::Error;

pub mod float;
pub mod head;

/// Why bytes are refused: told of the first head in byte order, and there the first of these that holds. What is not well-formed is so by
/// RFC 8949, section 3 and appendix F.
#[derive(Clone, Copy, Debug, PartialEq, Eq, Error)]
pub enum CborError {
    /// The bytes end where an item or a break must stand.
    #[error("Expected item, out of data")]
    OutOfData,
    /// A head whose first byte is reserved: its low five bits are 28, 29 or 30.
    #[error("Reserved header byte")]
    Reserved,
    /// The bytes end inside the argument of a head.
    #[error("Missing argument bytes")]
    MissingArgument,
    /// What stands in a string of indefinite length is no string of its kind.
    #[error("Indefinite length strings can only contain matching items")]
    OtherChunk,
    /// A chunk in a string of indefinite length is of indefinite length itself.
    #[error("Indefinite length strings can only contain definite lengths")]
    OpenChunk,
    /// An integer or a tag has a head of indefinite length.
    #[error("Integer/Tag with indefinite length encoding is not well-formed")]
    OpenNumber,
    /// A break where no list or string of indefinite length may end.
    #[error("Break code only expected at end of indefinite length items")]
    MisplacedBreak,
    /// A simple value below 32 in two bytes.
    #[error("Invalid simple value")]
    InvalidSimple,
    /// A finite floating-point number, or a NaN with a sign or a payload: well-formed, and out of the scope of this crate.
    #[error("Float value out of scope")]
    FloatOutOfScope,
    /// The bytes end inside a string whose length is announced. No memory is taken by what is announced.
    #[error("Announced bytes unavailable")]
    MissingBytes,
    /// The bytes of a text string, or of a chunk of one, are not UTF-8.
    #[error("Text string must be valid UTF-8")]
    InvalidUtf8,
    /// Bytes stand behind the one item that is asked for.
    #[error("Data after item")]
    DataAfter,
    /// Arrays, maps, tags and `simple(..)` nest deeper than the limit of the call.
    #[error("Nested too deeply")]
    TooDeep,
}

impl CborError {
    /// Whether the bytes were refused for their nesting alone, as far as they were read: with a higher limit they may be accepted.
    pub fn too_deep(&self) -> bool
        ensures { IsTrue result ↔ (self.now ≡ CborError.TooDeep) }
    {
        *self == CborError::TooDeep
    }
}
