//! What numbers, literals and empty lists encode.
ghost use Rattle.std.specs.Prelude.{◌≡◌, ◌<◌, ◌++◌};
ghost use Rattle.cbor_edn_parts.specs.internal.ContentReading.{literal_content};
ghost use Rattle.cbor_edn_parts.specs.Leaves.{literal_bytes, number_bytes};
ghost use Rattle.cbor_edn_model.specs.tree.Items as nodes;
ghost use Rattle.cbor_edn_model.specs.cbor.Meaning as meaning;
ghost use Rattle.cbor_edn_model.specs.cbor.Meaning.{means, length_of};
ghost use Rattle.cbor_edn_model.specs.cbor.Value.{encoding};
ghost use Rattle.cbor_edn_model.specs.internal.Encoding.{Encodes, Gathers, list_head, list_end};

use crate::cbor::heads::{
    encode_integer, encode_list_end, encode_list_head, encode_small_integer, length_of,
};
use cbor_edn_parts::base::error::{Fault, InconsistentEdn};
use cbor_edn_parts::base::indicator::Indicator;
use cbor_edn_parts::number::{Integer, Number};
use cbor_edn_parts::string::{Literal, StringKind};

/// The simple value of an integer literal: 0 to 23 or 32 to 255, with no indicator or that of the shortest head. None for anything else.
#[tactic(auto, using(cbor_edn_parts::proofs::lemmas::number::NumberParts::integer_reads))]
pub fn simple_of(number: &Number<'_>, indicator: Option<Indicator>) -> Option<u8>
    ensures { result ≡ meaning.simple_of (number_bytes number.now) indicator }
{
    match number.integer()? {
        Integer::Positive(n @ (0..=23 | 32..=255)) if is_shortest(indicator, n as u8) => {
            Some(n as u8)
        }
        _ => None,
    }
}

/// Whether the indicator, if there is one, is that of the shortest head: `_i` below 24, else `_0`.
pub fn is_shortest(indicator: Option<Indicator>, number: u8) -> bool
    ensures { result ≡ meaning.is_shortest indicator number }
{
    match indicator {
        None => true,
        Some(Indicator::Immediate) => number < 24,
        Some(Indicator::One) => number >= 24,
        Some(_) => false,
    }
}

/// Writes the encoding of an integer literal. Fails with `NumberWithoutEncoding` for other numbers and for integers whose magnitude is
/// 2^128 or more, with `IndicatorDoesNotFit`, and where memory runs out.
pub fn encode_number(
    out: &mut Vec<u8>,
    number: &Number<'_>,
    indicator: Option<Indicator>,
) -> Result<(), Fault<InconsistentEdn>>
    ensures { Encodes encoding (means (nodes.Number (number_bytes number.now) indicator)) out.old.items out.new.items result }
{
    match number.small_integer() {
        Some(small) => encode_small_integer(out, small, indicator),
        None => encode_any_number(out, number, indicator),
    }
}

/// Writes the encoding of any integer literal, in 128 bits, which takes longer.
fn encode_any_number(
    out: &mut Vec<u8>,
    number: &Number<'_>,
    indicator: Option<Indicator>,
) -> Result<(), Fault<InconsistentEdn>>
    ensures { Encodes encoding (means (nodes.Number (number_bytes number.now) indicator)) out.old.items out.new.items result }
{
    match number.integer() {
        None => Err(Fault::Told(InconsistentEdn::NumberWithoutEncoding)),
        Some(integer) => encode_integer(out, integer, indicator),
    }
}

/// Writes a list without entries, of major type 4 or 5: `[]` becomes `80`, and `[_]` becomes `9fff`. It fails as [`length_of`] does, and
/// where memory runs out.
pub fn encode_empty(
    out: &mut Vec<u8>,
    major: u8,
    indicator: Option<Indicator>,
) -> Result<(), Fault<InconsistentEdn>>
    requires { major < 8 }
    ensures { Encodes (λ w. list_head major w 0 ++ list_end w) (length_of indicator 0) out.old.items out.new.items result }
{
    let width = length_of(indicator, 0)?;
    encode_list_head(out, major, width, 0)?;
    encode_list_end(out, width)?;
    Ok(())
}

/// Writes the bytes that a literal stands for, without a head, and answers their kind. Unless they stand there as they are, they take
/// memory on the way. Fails as [`Literal::content`] does.
#[tactic(auto, using(cbor_edn_parts::proofs::lemmas::string::ContentTexts::content_reads))]
pub fn encode_literal(
    out: &mut Vec<u8>,
    literal: &Literal<'_>,
) -> Result<StringKind, Fault<InconsistentEdn>>
    ensures { Gathers (literal_content (literal_bytes literal.now)) out.old.items out.new.items result }
{
    match literal.plain_content() {
        Some((kind, text)) => {
            out.extend_from_slice(text.as_bytes())?;
            Ok(kind)
        }
        None => encode_decoded(out, literal),
    }
}

/// Writes the bytes that any literal stands for, which take memory of their own on the way.
#[tactic(auto, using(cbor_edn_parts::proofs::lemmas::string::ContentTexts::content_reads))]
fn encode_decoded(
    out: &mut Vec<u8>,
    literal: &Literal<'_>,
) -> Result<StringKind, Fault<InconsistentEdn>>
    ensures { Gathers (literal_content (literal_bytes literal.now)) out.old.items out.new.items result }
{
    let (kind, bytes) = literal.content(*out.allocator())?;
    out.extend_from_slice(&bytes)?;
    Ok(kind)
}
