//! Refusals and their messages.
ghost use Rattle.std.specs.Prelude.{◌≡◌, ◌↔◌, IsTrue};
ghost use Rattle.cbor_edn_parts.specs.base.Errors.{error_kind, error_offset, error_line, error_column};

use std::alloc::{AllocError, AllocFailed};
use std::num::TryFromIntError;
use thiserror::Error;

/// What stops a call that takes memory: memory ran out, or the call has an answer of its own. `?` makes it of an `AllocError`.
#[derive(Debug, Drop)]
pub enum Fault<E> {
    /// Memory ran out. What is left then, the documentation of the call says.
    Memory(AllocError),
    /// The call's own refusal, as a [`ParseError`] of `parse`.
    Told(E),
}

impl<E> From<AllocError> for Fault<E> {
    ghost use Rattle.cbor_edn_parts.specs.declared.base.error.Fault.TheVariants.{Memory};

    ghost from_gives = { λ refused e. e ≡ Memory refused };

    fn from(refused: AllocError) -> Fault<E> {
        Fault::Memory(refused)
    }
}

impl<T: Drop, E> From<AllocFailed<T>> for Fault<E> {
    ghost use Rattle.std.specs.Prelude.{alloc_error};
    ghost use Rattle.cbor_edn_parts.specs.declared.base.error.Fault.TheVariants.{Memory};

    ghost from_gives = { λ _ e. e ≡ Memory alloc_error };

    fn from(_refused: AllocFailed<T>) -> Fault<E> {
        Fault::Memory(AllocError)
    }
}

/// What a callback answers in place of its result: a comment all the same, or want of memory, which ends a visit.
#[derive(Debug, Drop, Error)]
pub enum CallbackError {
    /// The text of a comment, which the visit puts in front of the space that follows the item.
    #[error("{0}")]
    Comment(String),
    /// Memory ran out: the visit ends here, and answers so.
    #[error("{0}")]
    Memory(AllocError),
}

impl From<AllocError> for CallbackError {
    ghost use Rattle.cbor_edn_parts.specs.declared.base.error.CallbackError.TheVariants.{Memory};

    ghost from_gives = { λ refused e. e ≡ Memory refused };

    fn from(refused: AllocError) -> CallbackError {
        CallbackError::Memory(refused)
    }
}

/// Why a text is refused. The message of a [`ParseError`] begins with its message.
#[derive(Clone, Copy, Debug, PartialEq, Eq, Error)]
pub enum ParseErrorKind {
    /// The text is none of the grammar.
    #[error("Invalid EDN")]
    Invalid,
    /// The text nests deeper than the limit of the call, as far as it was read.
    #[error("EDN nested too deeply")]
    TooDeep,
}

/// Where a reader of a text stopped, in bytes, and why.
#[derive(Clone, Copy, Debug, PartialEq, Eq)]
pub struct Refusal {
    /// Why the text is refused.
    pub kind: ParseErrorKind,
    /// The place in bytes, from 0.
    pub offset: usize,
}

impl Refusal {
    /// The refusal of a text that is none of the grammar, at a place in bytes.
    pub fn invalid(offset: usize) -> Refusal
        ensures { result ≡ record { kind = ParseErrorKind.Invalid; offset = offset } }
    {
        Refusal {
            kind: ParseErrorKind::Invalid,
            offset,
        }
    }

    /// The refusal of a text that nests deeper than the limit, at a place in bytes.
    pub fn too_deep(offset: usize) -> Refusal
        ensures { result ≡ record { kind = ParseErrorKind.TooDeep; offset = offset } }
    {
        Refusal {
            kind: ParseErrorKind::TooDeep,
            offset,
        }
    }
}

impl From<Refusal> for Fault<Refusal> {
    ghost use Rattle.cbor_edn_parts.specs.declared.base.error.Fault.TheVariants.{Told};

    ghost from_gives = { λ r e. e ≡ Told r };

    fn from(refusal: Refusal) -> Fault<Refusal> {
        Fault::Told(refusal)
    }
}

/// Where and why a text is not accepted as EDN. Its message is such as `Invalid EDN in line 1 column 4 (byte 3)`.
#[derive(Clone, Copy, Debug, PartialEq, Eq, Error)]
#[error("{kind} in line {line} column {column} (byte {offset})")]
pub struct ParseError {
    kind: ParseErrorKind,
    offset: usize,
    line: usize,
    column: usize,
}

impl ParseError {
    /// A refusal at a place: the offset in bytes from 0, the line from 1, the column in characters from 1. Nothing tests that they are of
    /// one place.
    pub fn new(kind: ParseErrorKind, offset: usize, line: usize, column: usize) -> ParseError
        ensures kind { error_kind result ≡ kind }
        ensures offset { error_offset result ≡ offset }
        ensures line { error_line result ≡ line }
        ensures column { error_column result ≡ column }
    {
        ParseError {
            kind,
            offset,
            line,
            column,
        }
    }

    /// Whether the text was refused for its nesting alone, as far as it was read: with a higher limit it may be accepted.
    pub fn too_deep(&self) -> bool
        ensures { IsTrue result ↔ (error_kind self.now ≡ ParseErrorKind.TooDeep) }
    {
        self.kind == ParseErrorKind::TooDeep
    }

    /// The place in bytes, from 0: where a character begins, or the length of the text.
    pub fn offset(&self) -> usize
        ensures { result ≡ error_offset self.now }
    {
        self.offset
    }

    /// The line of the place, from 1: one more than the line feeds before the place.
    pub fn line(&self) -> usize
        ensures { result ≡ error_line self.now }
    {
        self.line
    }

    /// The column of the place in characters, from 1: one more than the characters since the last line feed before the place.
    pub fn column(&self) -> usize
        ensures { result ≡ error_column self.now }
    {
        self.column
    }
}

/// Why items have no encoding, or no literal can be made of a prefix and a text.
#[derive(Clone, Copy, Debug, PartialEq, Eq, Error)]
pub enum InconsistentEdn {
    /// A number that CBOR does not have, or not in the scope of this crate: with a point or an exponent, or an integer whose magnitude is
    /// 2^128 or more.
    #[error("Number has no encoding")]
    NumberWithoutEncoding,
    /// An encoding indicator that does not fit the argument of its number, string, tag or list, as in `256_0`. A bignum takes none.
    #[error("Encoding indicator does not fit")]
    IndicatorDoesNotFit,
    /// `simple(..)` over anything but an integer literal of 0 to 23 or 32 to 255 with the shortest head (RFC 8949, section 3.3).
    #[error("Invalid simple value")]
    InvalidSimple,
    /// An encoding indicator on one of several pieces that plus signs join, as in `'a'_0 + 'b'`.
    #[error("Encoding indicators present on string expressed in multiple EDN chunks")]
    IndicatorOnPiece,
    /// An ellipsis, or a literal with a prefix that stands for no bytes: another one than `h`, `b64`, `b32` and `h32`.
    #[error("Unsupported application oriented literal or ellipsis")]
    UnsupportedLiteral,
    /// A literal whose text is not one of its prefix, as `h'0'`, or as `b64'A'` by RFC 4648.
    #[error("String content can not be decoded")]
    UndecodableContent,
    /// Joined pieces of a text string whose bytes are not UTF-8, as `"a" + h'ff'`.
    #[error("Concatenated text string is not valid UTF-8")]
    InvalidUtf8,
    /// A string of indefinite length with byte strings and text strings in it, as `(_ "a", 'b')` (RFC 8949, section 3.2.3).
    #[error("Chunk of another kind in indefinite length string")]
    OtherChunk,
    /// The prefix of a literal that is to be made, where it is none of the grammar: a letter, then letters and digits, all letters in one
    /// case.
    #[error("Identifier is not a valid application string identifier")]
    InvalidIdentifier,
    /// A number too large for its type, which `?` makes of a `TryFromIntError`.
    #[error("Numeric range exceeded")]
    NumericRangeExceeded,
}

impl From<TryFromIntError> for InconsistentEdn {
    ghost use Rattle.cbor_edn_parts.specs.declared.base.error.InconsistentEdn.TheVariants.{NumericRangeExceeded};

    ghost from_gives = { λ _ e. e ≡ NumericRangeExceeded };

    fn from(_: TryFromIntError) -> InconsistentEdn {
        InconsistentEdn::NumericRangeExceeded
    }
}
