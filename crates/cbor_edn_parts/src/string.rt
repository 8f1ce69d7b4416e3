//! Literals: quoted texts, with or without a prefix, and dots.
ghost use Rattle.std.specs.Prelude.{◌≡◌, ◌++◌, ◌==◌, IsTrue, IfOk, OnOk, Some, None, [], length, if◌then◌else◌};
ghost use Rattle.cbor_edn_parts.specs.base.Buffer.{buffer_bytes};
ghost use Rattle.cbor_edn_parts.specs.base.LeafTexts.{leaf_bytes};
ghost use Rattle.cbor_edn_parts.specs.internal.Ended.{Steps};
ghost use Rattle.cbor_edn_parts.specs.string.Literal.{letter_escape};
ghost use Rattle.cbor_edn_parts.specs.internal.LiteralTokens as tokens;
ghost use Rattle.cbor_edn_parts.specs.internal.LiteralTokens.{is_literal, is_ellipsis, quote_byte};
ghost use Rattle.cbor_edn_parts.specs.internal.StateLaws.{literal_stays, literal_inside, ellipsis_stays, ellipsis_inside};

use crate::base::buffer::TextBuffer;
use crate::base::leaf_text::LeafText;
use crate::base::scan::State;
pub use read::{ellipsis_at, literal_at};
use std::alloc::AllocError;

mod application;
mod base;
mod content;
mod digits;
mod hexadecimal;
mod read;
mod write;

/// A quoted text as it is written, with or without a prefix, as `"\n"`, `'a'` or `h'00'`.
#[derive(Debug, PartialEq, Drop)]
pub struct Literal<'a> {
    text: LeafText<'a>,
    pub ghost spelled: { IsTrue (is_literal (leaf_bytes text)) },
}

/// Dots, three or more, in place of what is left out.
#[derive(Debug, PartialEq, Drop)]
pub struct Ellipsis<'a> {
    text: LeafText<'a>,
    pub ghost spelled: { IsTrue (is_ellipsis (leaf_bytes text)) },
}

/// The kind of a CBOR string.
#[derive(Clone, Copy, Debug, PartialEq, Eq)]
pub enum StringKind {
    /// A byte string, major type 2.
    Bytes,
    /// A text string, major type 3, whose bytes are UTF-8.
    Text,
}

/// What a text is quoted with.
#[derive(Clone, Copy, Debug, PartialEq)]
pub enum Quote {
    /// `'`, in literals of bytes and behind a prefix.
    Single,
    /// `"`, in literals of text.
    Double,
}

/// Where a scan stands between two quotes. Numbers are those of the hexadecimal digits so far.
#[derive(Clone, Copy, Debug, PartialEq)]
pub enum QuotedState {
    /// Between two characters.
    Between,
    Backslash,
    /// Behind `\u` and so many digits.
    Unit(u8, u32),
    /// Behind a high surrogate.
    High(u32),
    HighBackslash(u32),
    /// Behind a high surrogate, `\u` and so many digits.
    LowUnit(u32, u8, u32),
    /// Behind `\u{`.
    Brace,
    Braced(u32),
}

/// Where a scan of a literal stands.
#[derive(Clone, Copy, Debug, PartialEq)]
pub enum LiteralState {
    Start,
    /// In a prefix of small letters, and of large ones.
    Lower,
    Upper,
    Inside(Quote, QuotedState),
    Closed,
}

/// How many dots a scan has seen.
#[derive(Clone, Copy, Debug, PartialEq)]
pub enum EllipsisState {
    None,
    One,
    Two,
    Enough,
}

/// What a byte between two quotes ends.
#[derive(Clone, Copy, Debug, PartialEq)]
pub(crate) enum Ended {
    Nothing,
    Byte(u8),
    Character(char),
}

impl<'a> Literal<'a> {
    ghost use Rattle.cbor_edn_parts.specs.Leaves.{literal_bytes};

    /// The text as it is written, with prefix, quotes and escapes.
    #[inline]
    pub fn as_str(&self) -> &str
        ensures { result.now ≡ literal_bytes self.now }
    {
        self.text.as_str()
    }

    /// Writes the text at the end of another. Fails where memory runs out.
    #[inline(always)]
    pub fn print(&self, out: &mut TextBuffer) -> Result<(), AllocError>
        ensures { OnOk result (buffer_bytes out.new ≡ buffer_bytes out.old ++ literal_bytes self.now) }
    {
        out.push_leaf(&self.text)
    }

    /// Its length in bytes.
    pub fn len(&self) -> usize
        ensures { result ≡ length (literal_bytes self.now) }
    {
        self.text.len()
    }

    /// A copy of the text. Fails where memory runs out, which a text that is borrowed or of at most 22 bytes doesn't need.
    pub fn clone(&self) -> Result<Literal<'a>, AllocError>
        ensures { IfOk result (λ t. literal_bytes t ≡ literal_bytes self.now) }
    {
        let text = self.text.clone()?;
        Ok(Literal { text })
    }
}

impl<'a> Ellipsis<'a> {
    ghost use Rattle.cbor_edn_parts.specs.Leaves.{ellipsis_bytes};

    /// The dots as they are written.
    #[inline]
    pub fn as_str(&self) -> &str
        ensures { result.now ≡ ellipsis_bytes self.now }
    {
        self.text.as_str()
    }

    /// Its length in bytes.
    pub fn len(&self) -> usize
        ensures { result ≡ length (ellipsis_bytes self.now) }
    {
        self.text.len()
    }

    /// A copy of the text. Fails where memory runs out, which a text that is borrowed or of at most 22 bytes doesn't need.
    pub fn clone(&self) -> Result<Ellipsis<'a>, AllocError>
        ensures { IfOk result (λ t. ellipsis_bytes t ≡ ellipsis_bytes self.now) }
    {
        let text = self.text.clone()?;
        Ok(Ellipsis { text })
    }
}

impl Quote {
    fn byte(self) -> u8
        ensures { result ≡ quote_byte self }
    {
        match self {
            Quote::Single => b'\'',
            Quote::Double => b'"',
        }
    }

    /// Whether a byte between two characters stands for itself. Of LF, which does too, this answers no.
    fn is_plain(self, byte: u8) -> bool
        ensures { result ≡ tokens.is_plain self byte }
    {
        byte > b'\\' || byte >= b' ' && byte != b'\\' && byte != self.byte()
    }
}

impl QuotedState {
    /// The state behind one more byte, and what ends there.
    pub(crate) fn step(self, quote: u8, byte: u8) -> Option<(QuotedState, Ended)>
        ensures { Steps result (tokens.quoted_step quote byte self) }
    {
        match self {
            QuotedState::Between => raw(byte),
            QuotedState::Backslash => escape(quote, byte),
            QuotedState::Unit(0, _) if byte == b'{' => Some((QuotedState::Brace, Ended::Nothing)),
            QuotedState::Unit(digits, number) => {
                let number = digits::with_digit(number, byte)?;
                if digits < 3 {
                    Some((QuotedState::Unit(digits + 1, number), Ended::Nothing))
                } else if digits::is_high(number) {
                    Some((QuotedState::High(number), Ended::Nothing))
                } else {
                    whole(number)
                }
            }
            QuotedState::High(high) => state_behind(byte, b'\\', QuotedState::HighBackslash(high)),
            QuotedState::HighBackslash(high) => state_behind(
                byte,
                b'u',
                QuotedState::LowUnit(high, 0, 0),
            ),
            QuotedState::LowUnit(high, digits, number) => {
                let number = digits::with_digit(number, byte)?;
                if digits < 3 {
                    Some((
                        QuotedState::LowUnit(high, digits + 1, number),
                        Ended::Nothing,
                    ))
                } else {
                    whole(digits::of_pair(high, number)?)
                }
            }
            QuotedState::Brace => {
                let number = digits::with_digit(0, byte)?;
                Some((QuotedState::Braced(number), Ended::Nothing))
            }
            QuotedState::Braced(number) if byte == b'}' => whole(number),
            QuotedState::Braced(number) => {
                let number = digits::with_digit(number, byte)?;
                Some((QuotedState::Braced(number), Ended::Nothing))
            }
        }
    }
}

/// The state behind this byte, where the wanted one stands.
fn state_behind(byte: u8, wanted: u8, next: QuotedState) -> Option<(QuotedState, Ended)>
    ensures { Steps result (if byte == wanted then Some (next, []) else None) }
{
    if byte == wanted {
        Some((next, Ended::Nothing))
    } else {
        None
    }
}

/// A character that ends a part, where the number is that of one.
fn whole(number: u32) -> Option<(QuotedState, Ended)>
    ensures { Steps result (tokens.whole number) }
{
    let character = char::from_u32(number)?;
    Some((QuotedState::Between, Ended::Character(character)))
}

/// A byte between two characters.
fn raw(byte: u8) -> Option<(QuotedState, Ended)>
    ensures { Steps result (tokens.raw_step byte) }
{
    match byte {
        b'\\' => Some((QuotedState::Backslash, Ended::Nothing)),
        b'\r' => Some((QuotedState::Between, Ended::Nothing)),
        b'\n' | 32..=255 => Some((QuotedState::Between, Ended::Byte(byte))),
        _ => None,
    }
}

/// The byte behind a backslash.
fn escape(quote: u8, byte: u8) -> Option<(QuotedState, Ended)>
    ensures { Steps result (tokens.escape_step quote byte) }
{
    if byte == b'u' {
        return Some((QuotedState::Unit(0, 0), Ended::Nothing));
    }
    if byte == quote {
        return Some((QuotedState::Between, Ended::Byte(byte)));
    }
    let escaped = by_letter(byte)?;
    Some((QuotedState::Between, Ended::Byte(escaped)))
}

/// The character that a letter behind a backslash stands for.
fn by_letter(letter: u8) -> Option<u8>
    ensures { result ≡ letter_escape letter }
{
    match letter {
        b'b' => Some(8),
        b'f' => Some(12),
        b'n' => Some(b'\n'),
        b'r' => Some(b'\r'),
        b't' => Some(b'\t'),
        b'/' | b'\\' => Some(letter),
        _ => None,
    }
}

impl State for LiteralState {
    ghost automaton = { tokens.literal };

    fn step(self, byte: u8) -> Option<LiteralState> {
        match (self, byte) {
            (LiteralState::Start, b'"') => Some(LiteralState::Inside(
                Quote::Double,
                QuotedState::Between,
            )),
            (LiteralState::Start | LiteralState::Lower | LiteralState::Upper, b'\'') => {
                Some(LiteralState::Inside(Quote::Single, QuotedState::Between))
            }
            (LiteralState::Start, b'a'..=b'z') => Some(LiteralState::Lower),
            (LiteralState::Start, b'A'..=b'Z') => Some(LiteralState::Upper),
            (LiteralState::Lower, b'a'..=b'z' | b'0'..=b'9') => Some(LiteralState::Lower),
            (LiteralState::Upper, b'A'..=b'Z' | b'0'..=b'9') => Some(LiteralState::Upper),
            (LiteralState::Inside(quote, part), _) => between(quote, part, byte),
            _ => None,
        }
    }

    fn is_kept_by(self, byte: u8) -> bool {
        match self {
            LiteralState::Inside(quote, QuotedState::Between) => quote.is_plain(byte),
            _ => false,
        }
    }

    fn is_final(self) -> bool {
        matches!(self, LiteralState::Closed)
    }

    ghost stays = { literal_stays };

    ghost inside = { literal_inside };
}

/// The state behind a byte that stands behind the first quote.
fn between(quote: Quote, part: QuotedState, byte: u8) -> Option<LiteralState>
    ensures { result ≡ tokens.literal_step byte (LiteralState.Inside quote part) }
{
    if part == QuotedState::Between && byte == quote.byte() {
        return Some(LiteralState::Closed);
    }
    let (part, _) = part.step(quote.byte(), byte)?;
    Some(LiteralState::Inside(quote, part))
}

impl State for EllipsisState {
    ghost automaton = { tokens.ellipsis };

    fn step(self, byte: u8) -> Option<EllipsisState> {
        if byte != b'.' {
            return None;
        }
        match self {
            EllipsisState::None => Some(EllipsisState::One),
            EllipsisState::One => Some(EllipsisState::Two),
            EllipsisState::Two | EllipsisState::Enough => Some(EllipsisState::Enough),
        }
    }

    fn is_final(self) -> bool {
        matches!(self, EllipsisState::Enough)
    }

    ghost stays = { ellipsis_stays };

    ghost inside = { ellipsis_inside };
}
