//! The literals of decoded strings.
ghost use Rattle.std.specs.Prelude.{◌≡◌, ◌≤◌, ◌↔◌, ◌∷◌, ◌++◌, [], length, All, IsTrue, IfOk, OnOk, encode_utf8, string_bytes};
ghost use Rattle.hex.specs.Hex.{encode_lower};
ghost use Rattle.cbor_edn_parts.specs.string.Contents.{hex_literal, text_literal, empty_literal, escaped, all_escaped};
ghost use Rattle.cbor_edn_parts.specs.base.LeafTexts.{leaf_bytes};
ghost use Rattle.cbor_edn_parts.specs.Leaves.{literal_bytes};

use super::{Literal, StringKind};
use crate::base::leaf_text::LeafText;
use std::alloc::{AllocError, Global};
use std::fmt::Write;
use std::str;

/// How many hexadecimal digits are written without memory of their own.
const DIGITS: usize = 64;

impl<'a> Literal<'a> {
    /// Bytes as `h'..'` with digits in lower case. Fails where memory runs out.
    pub fn hex(alloc: Global, bytes: &[u8]) -> Result<Literal<'a>, AllocError>
        ensures { IfOk result (λ t. literal_bytes t ≡ hex_literal bytes.now) }
    {
        let text = hex_text(alloc, bytes)?;
        Ok(Literal { text })
    }

    /// A text between double quotes: line feeds and what is from U+0020 upward as they are, but for `"`, `\` and `'`. Fails
    /// where memory runs out.
    pub fn text(alloc: Global, text: &str) -> Result<Literal<'a>, AllocError>
        ensures { IfOk result (λ t. literal_bytes t ≡ text_literal text.now) }
    {
        let text = double_quoted(alloc, text)?;
        Ok(Literal { text })
    }

    /// The literal of an empty string: `''` or `""`.
    pub fn empty(kind: StringKind) -> Literal<'a>
        ensures { literal_bytes result ≡ empty_literal kind }
    {
        let text = match kind {
            StringKind::Bytes => LeafText::Borrowed("''"),
            StringKind::Text => LeafText::Borrowed("\"\""),
        };
        Literal { text }
    }
}

fn hex_text<'a>(alloc: Global, bytes: &[u8]) -> Result<LeafText<'a>, AllocError>
    ensures { IfOk result (λ t. leaf_bytes t ≡ hex_literal bytes.now) }
{
    if bytes.len() <= DIGITS / 2 {
        let mut room = [0; DIGITS];
        return LeafText::enclosed(alloc, "h'", few_digits(bytes, &mut room), "'");
    }
    let digits = hex::encode(alloc, bytes)?;
    LeafText::enclosed(alloc, "h'", digits.as_str(), "'")
}

/// The hexadecimal digits of a few bytes, written into the room.
fn few_digits<'b>(bytes: &[u8], room: &'b mut [u8; DIGITS]) -> &'b str
    requires { length bytes.now ≤ 32 }
    ensures { result.now ≡ encode_lower bytes.now }
{
    let digits = &mut room[..2 * bytes.len()];
    let _ = hex::encode_to_slice(bytes, digits);
    str::from_utf8(digits).unwrap()
}

fn double_quoted<'a>(alloc: Global, text: &str) -> Result<LeafText<'a>, AllocError>
    ensures { IfOk result (λ t. leaf_bytes t ≡ text_literal text.now) }
{
    if is_plain(text) {
        return LeafText::enclosed(alloc, "\"", text, "\"");
    }
    let mut literal = String::with_capacity(alloc, text.len())?;
    literal.push('"')?;
    print_between(&mut literal, text)?;
    literal.push('"')?;
    LeafText::own(alloc, literal)
}

/// Appends a text as it stands between double quotes. What stands for itself up to a character that doesn't is appended at once.
fn print_between(literal: &mut String, text: &str) -> Result<(), AllocError>
    ensures { OnOk result (string_bytes literal.new ≡ string_bytes literal.old ++ all_escaped text.now) }
{
    let mut from = 0;
    'bytes: for (at, &byte) in text.as_bytes().iter().enumerate() {
        if !stands_for_itself(byte) {
            literal.push_str(&text[from..at])?;
            print_escaped(literal, char::from(byte))?;
            from = at + 1;
        }
    }
    literal.push_str(&text[from..])
}

/// Whether each byte of a text stands for itself between double quotes.
pub(super) fn is_plain(text: &str) -> bool
    ensures { IsTrue result ↔ All (λ c. escaped c ≡ c ∷ []) text.now }
{
    for byte in text.as_bytes() {
        if !stands_for_itself(*byte) {
            return false;
        }
    }
    true
}

fn stands_for_itself(byte: u8) -> bool
    ensures { IsTrue result ↔ escaped byte ≡ byte ∷ [] }
{
    byte > b'\\'
        || (byte >= b' ' || byte == b'\n') && byte != b'"' && byte != b'\'' && byte != b'\\'
}

/// Appends a character as it stands between double quotes.
pub(super) fn print_escaped(text: &mut String, character: char) -> Result<(), AllocError>
    ensures { OnOk result (string_bytes text.new ≡ string_bytes text.old ++ all_escaped (encode_utf8 character)) }
{
    match character {
        '"' => text.push_str("\\\""),
        '\\' => text.push_str("\\\\"),
        '\r' => text.push_str("\\r"),
        '\t' => text.push_str("\\t"),
        '\u{8}' => text.push_str("\\b"),
        '\u{c}' => text.push_str("\\f"),
        '\'' => text.push_str("\\u{27}"),
        '\n' => text.push('\n'),
        _ if character < ' ' => write!(text, "\\u{{{:x}}}", u32::from(character)),
        _ => text.push(character),
    }
}
