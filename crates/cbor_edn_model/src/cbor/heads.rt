//! CBOR: the heads of data items, and integers.
ghost use Rattle.std.specs.Prelude.{◌≡◌, ◌<◌, ◌++◌, true, OnOk, IfOk, nat_lt};
ghost use Rattle.cbor_edn_parts.specs.Leaves as leaves;
ghost use Rattle.cbor_edn_model.specs.cbor.Value as values;
ghost use Rattle.cbor_edn_model.specs.cbor.Value.{head, ArgumentFits, LengthFits, chunk_encoding, encoding, limit_of};
ghost use Rattle.cbor_edn_model.specs.cbor.Meaning as meaning;
ghost use Rattle.cbor_edn_model.specs.cbor.Meaning.{shortest, means_integer, tagged_bytes, magnitude_bytes};
ghost use Rattle.cbor_edn_model.specs.internal.Encoding.{Encodes, Finds, list_head, list_end};

use crate::text::keyword::{NamedSimple, NonFinite};
use cbor_edn_parts::base::error::{Fault, InconsistentEdn};
use cbor_edn_parts::base::indicator::Indicator;
use cbor_edn_parts::number::{Integer, SmallInteger};
use cbor_edn_parts::string::StringKind;
use std::alloc::AllocError;

/// Where the argument of a head stands (RFC 8949, section 3).
#[derive(Clone, Copy, Debug, PartialEq, Eq)]
pub enum Width {
    /// In the first byte: below 24.
    Immediate,
    /// In one byte more.
    One,
    /// In two bytes more.
    Two,
    /// In four bytes more.
    Four,
    /// In eight bytes more.
    Eight,
}

impl Width {
    /// Whether the argument fits.
    fn fits(self, argument: u64) -> bool
        ensures { result ≡ nat_lt argument (limit_of self) }
    {
        match self {
            Width::Immediate => argument < 24,
            Width::One => argument < 0x100,
            Width::Two => argument < 0x1_0000,
            Width::Four => argument < 0x1_0000_0000,
            Width::Eight => true,
        }
    }
}

/// The shortest width that the argument fits.
pub fn shortest_width(argument: u64) -> Width
    ensures { result ≡ shortest argument }
{
    match argument {
        0..=23 => Width::Immediate,
        24..=0xff => Width::One,
        0x100..=0xffff => Width::Two,
        0x1_0000..=0xffff_ffff => Width::Four,
        _ => Width::Eight,
    }
}

/// Writes a head at the end: the major type and the argument, the high byte first (RFC 8949, section 3). Fails where memory runs out, and
/// a part of it may stand then.
#[tactic(auto, unfolding(crate::specs::cbor::Value::head))]
pub fn encode_head(
    out: &mut Vec<u8>,
    major: u8,
    width: Width,
    argument: u64,
) -> Result<(), AllocError>
    requires major { major < 8 }
    requires fits { ArgumentFits width argument }
    ensures { OnOk result (out.new.items ≡ out.old.items ++ head major width argument) }
{
    match width {
        Width::Immediate => out.push(32 * major + argument as u8)?,
        Width::One => out.extend_from_slice(&[32 * major + 24, argument as u8])?,
        Width::Two => {
            let [a, b] = (argument as u16).to_be_bytes();
            out.extend_from_slice(&[32 * major + 25, a, b])?;
        }
        Width::Four => {
            let [a, b, c, d] = (argument as u32).to_be_bytes();
            out.extend_from_slice(&[32 * major + 26, a, b, c, d])?;
        }
        Width::Eight => {
            out.push(32 * major + 27)?;
            out.extend_from_slice(&argument.to_be_bytes())?;
        }
    }
    Ok(())
}

/// Writes a head at the end, as the indicator says. Fails with `IndicatorDoesNotFit` where the argument does not fit, and where memory
/// runs out.
pub fn encode_indicated_head(
    out: &mut Vec<u8>,
    major: u8,
    indicator: Option<Indicator>,
    argument: u64,
) -> Result<(), Fault<InconsistentEdn>>
    requires { major < 8 }
    ensures { Encodes (λ w. head major w argument) (meaning.width_of indicator argument) out.old.items out.new.items result }
{
    let width = width_of(indicator, argument)?;
    encode_head(out, major, width, argument)?;
    Ok(())
}

/// The width that the indicator names, or without one the shortest. Fails with `IndicatorDoesNotFit` where the argument does not fit,
/// and for `_`.
pub fn width_of(
    indicator: Option<Indicator>,
    argument: u64,
) -> Result<Width, Fault<InconsistentEdn>>
    ensures { Finds (meaning.width_of indicator argument) result }
{
    match indicator {
        None => fitting(shortest_width(argument), argument),
        Some(Indicator::Indefinite) => Err(Fault::Told(InconsistentEdn::IndicatorDoesNotFit)),
        Some(Indicator::Immediate) => fitting(Width::Immediate, argument),
        Some(Indicator::One) => fitting(Width::One, argument),
        Some(Indicator::Two) => fitting(Width::Two, argument),
        Some(Indicator::Four) => fitting(Width::Four, argument),
        Some(Indicator::Eight) => fitting(Width::Eight, argument),
    }
}

fn fitting(width: Width, argument: u64) -> Result<Width, Fault<InconsistentEdn>>
    ensures { Finds (meaning.fitting width argument) result }
{
    if width.fits(argument) {
        Ok(width)
    } else {
        Err(Fault::Told(InconsistentEdn::IndicatorDoesNotFit))
    }
}

/// The width of the length of a list of so many entries, or none for indefinite length. Fails with `IndicatorDoesNotFit` where the length
/// does not fit.
pub fn length_of(
    indicator: Option<Indicator>,
    count: u64,
) -> Result<Option<Width>, Fault<InconsistentEdn>>
    ensures { Finds (meaning.length_of indicator count) result }
{
    if indicator == Some(Indicator::Indefinite) {
        return Ok(None);
    }
    let width = width_of(indicator, count)?;
    Ok(Some(width))
}

/// Writes what stands before the entries of a list: a head with their count, or for indefinite length one byte without a count. Fails
/// where memory runs out.
pub fn encode_list_head(
    out: &mut Vec<u8>,
    major: u8,
    width: Option<Width>,
    count: u64,
) -> Result<(), AllocError>
    requires major { major < 8 }
    requires fits { LengthFits width count }
    ensures { OnOk result (out.new.items ≡ out.old.items ++ list_head major width count) }
{
    match width {
        Some(width) => encode_head(out, major, width, count),
        None => {
            out.push(32 * major + 31)?;
            Ok(())
        }
    }
}

/// Writes what stands behind the entries of a list: the break byte `ff` behind one of indefinite length, else nothing. Fails where memory
/// runs out.
pub fn encode_list_end(out: &mut Vec<u8>, width: Option<Width>) -> Result<(), AllocError>
    ensures { OnOk result (out.new.items ≡ out.old.items ++ list_end width) }
{
    if width.is_none() {
        out.push(0xff)?;
    }
    Ok(())
}

/// Writes a string at the end. An empty one whose indicator is `_` has no chunks: `''_` becomes `5fff`. Fails with
/// `IndicatorDoesNotFit`, with `InvalidUtf8` for text that is none, and where memory runs out.
pub fn encode_string(
    out: &mut Vec<u8>,
    kind: StringKind,
    indicator: Option<Indicator>,
    content: &[u8],
) -> Result<(), Fault<InconsistentEdn>>
    ensures { Encodes encoding (meaning.string_of (kind, content.now) indicator) out.old.items out.new.items result }
{
    if !is_content(kind, content) {
        return Err(Fault::Told(InconsistentEdn::InvalidUtf8));
    }
    encode_valid_string(out, kind, indicator, content)
}

/// Writes a string at the end, as [`encode_string`] does, whose content is a text: it is not tested again. Fails with
/// `IndicatorDoesNotFit`, and where memory runs out.
pub fn encode_text(
    out: &mut Vec<u8>,
    kind: StringKind,
    indicator: Option<Indicator>,
    content: &str,
) -> Result<(), Fault<InconsistentEdn>>
    ensures { Encodes encoding (meaning.string_of (kind, content.now) indicator) out.old.items out.new.items result }
{
    encode_valid_string(out, kind, indicator, content.as_bytes())
}

#[inline(always)]
fn encode_valid_string(
    out: &mut Vec<u8>,
    kind: StringKind,
    indicator: Option<Indicator>,
    content: &[u8],
) -> Result<(), Fault<InconsistentEdn>>
    requires { values.is_content kind content.now ≡ true }
    ensures { Encodes encoding (meaning.string_of (kind, content.now) indicator) out.old.items out.new.items result }
{
    if content.is_empty() && indicator == Some(Indicator::Indefinite) {
        encode_list_head(out, string_major(kind), None, 0)?;
        encode_list_end(out, None)?;
        return Ok(());
    }
    encode_valid_chunk(out, kind, indicator, content)
}

/// Writes a string of definite length. Fails with `InvalidUtf8` where it is a text and its bytes are not UTF-8, with
/// `IndicatorDoesNotFit` where its length does not fit, and where memory runs out.
pub fn encode_chunk(
    out: &mut Vec<u8>,
    kind: StringKind,
    indicator: Option<Indicator>,
    content: &[u8],
) -> Result<(), Fault<InconsistentEdn>>
    ensures { Encodes (λ p. chunk_encoding p.0 p.1) (meaning.chunk_of (kind, content.now) indicator) out.old.items out.new.items result }
{
    if !is_content(kind, content) {
        return Err(Fault::Told(InconsistentEdn::InvalidUtf8));
    }
    encode_valid_chunk(out, kind, indicator, content)
}

#[inline(always)]
fn encode_valid_chunk(
    out: &mut Vec<u8>,
    kind: StringKind,
    indicator: Option<Indicator>,
    content: &[u8],
) -> Result<(), Fault<InconsistentEdn>>
    requires { values.is_content kind content.now ≡ true }
    ensures { Encodes (λ p. chunk_encoding p.0 p.1) (meaning.chunk_of (kind, content.now) indicator) out.old.items out.new.items result }
{
    encode_indicated_head(out, string_major(kind), indicator, content.len() as u64)?;
    out.extend_from_slice(content)?;
    Ok(())
}

/// Writes a floating-point number that is not finite, in two bytes without an indicator: `Infinity` becomes `f97c00`. Fails with
/// `IndicatorDoesNotFit` for others than `_1`, `_2` and `_3`, and where memory runs out.
pub fn encode_float(
    out: &mut Vec<u8>,
    float: NonFinite,
    indicator: Option<Indicator>,
) -> Result<(), Fault<InconsistentEdn>>
    ensures { Encodes encoding (meaning.means_float indicator float) out.old.items out.new.items result }
{
    let width = float_width(indicator)?;
    encode_head(out, 7, width, float_bits(width, float))?;
    Ok(())
}

fn float_width(indicator: Option<Indicator>) -> Result<Width, Fault<InconsistentEdn>>
    ensures value { Finds (meaning.float_width indicator) result }
    ensures wide { IfOk result values.IsFloatWidth }
{
    match indicator {
        None | Some(Indicator::Two) => Ok(Width::Two),
        Some(Indicator::Four) => Ok(Width::Four),
        Some(Indicator::Eight) => Ok(Width::Eight),
        Some(_) => Err(Fault::Told(InconsistentEdn::IndicatorDoesNotFit)),
    }
}

/// The bits of a floating-point number in two, four or eight bytes (IEEE 754), and 0 for other widths. NaN is the one without sign and
/// payload.
pub fn float_bits(width: Width, float: NonFinite) -> u64
    ensures bits { result ≡ values.float_bits width float }
    ensures fits { values.IsFloatWidth width → ArgumentFits width result }
{
    match (width, float) {
        (Width::Two, NonFinite::Infinity) => 0x7c00,
        (Width::Two, NonFinite::NegativeInfinity) => 0xfc00,
        (Width::Two, NonFinite::NaN) => 0x7e00,
        (Width::Four, NonFinite::Infinity) => 0x7f80_0000,
        (Width::Four, NonFinite::NegativeInfinity) => 0xff80_0000,
        (Width::Four, NonFinite::NaN) => 0x7fc0_0000,
        (Width::Eight, NonFinite::Infinity) => 0x7ff0_0000_0000_0000,
        (Width::Eight, NonFinite::NegativeInfinity) => 0xfff0_0000_0000_0000,
        (Width::Eight, NonFinite::NaN) => 0x7ff8_0000_0000_0000,
        _ => 0,
    }
}

/// Writes a simple value, in one byte below 24, else in two. Fails where memory runs out.
pub fn encode_simple(out: &mut Vec<u8>, number: u8) -> Result<(), AllocError>
    ensures { OnOk result (out.new.items ≡ out.old.items ++ encoding (values.simple number)) }
{
    let width = if number < 24 {
        Width::Immediate
    } else {
        Width::One
    };
    encode_head(out, 7, width, u64::from(number))
}

/// The number of a simple value that has a name: 20 to 23 (RFC 8949, section 3.3).
pub fn named_number(name: NamedSimple) -> u8
    ensures { result ≡ meaning.named_number name }
{
    match name {
        NamedSimple::False => 20,
        NamedSimple::True => 21,
        NamedSimple::Null => 22,
        NamedSimple::Undefined => 23,
    }
}

fn is_content(kind: StringKind, content: &[u8]) -> bool
    ensures { result ≡ values.is_content kind content.now }
{
    match kind {
        StringKind::Bytes => true,
        StringKind::Text => std::str::from_utf8(content).is_ok(),
    }
}

/// The major type of a string: 2 of bytes, 3 of text.
pub fn string_major(kind: StringKind) -> u8
    ensures major { result ≡ values.string_major kind }
    ensures small { result < 8 }
{
    match kind {
        StringKind::Bytes => 2,
        StringKind::Text => 3,
    }
}

/// Whether both kinds are bytes, or both are text.
pub fn same_kind(kind: StringKind, other: StringKind) -> bool
    ensures { result ≡ meaning.same_kind kind other }
{
    kind == other
}

/// Writes an integer at the end, with a head as the indicator says, or as a bignum (RFC 8949, section 3.4.3). It has no encoding where
/// its magnitude is 2^128 or more, and from 2^64 on and below -2^64 none with an indicator.
pub fn encode_integer(
    out: &mut Vec<u8>,
    number: Integer,
    indicator: Option<Indicator>,
) -> Result<(), Fault<InconsistentEdn>>
    ensures { Encodes encoding (means_integer indicator (leaves.integer number)) out.old.items out.new.items result }
{
    match number {
        Integer::Positive(n) => match u64::try_from(n) {
            Ok(argument) => encode_indicated_head(out, 0, indicator, argument),
            Err(_) => encode_bignum(out, 2, n, indicator),
        },
        Integer::Negative(n) => match u64::try_from(n) {
            Ok(argument) => encode_indicated_head(out, 1, indicator, argument),
            Err(_) if n == u128::MAX => Err(Fault::Told(InconsistentEdn::NumberWithoutEncoding)),
            Err(_) => encode_bignum(out, 3, n, indicator),
        },
    }
}

/// Writes an integer that a head holds at the end, with a head as the indicator says. Fails as [`encode_indicated_head`] does.
pub fn encode_small_integer(
    out: &mut Vec<u8>,
    number: SmallInteger,
    indicator: Option<Indicator>,
) -> Result<(), Fault<InconsistentEdn>>
    ensures { Encodes encoding (means_integer indicator (leaves.small_integer number)) out.old.items out.new.items result }
{
    match number {
        SmallInteger::Positive(n) => encode_indicated_head(out, 0, indicator, n),
        SmallInteger::Negative(n) => encode_indicated_head(out, 1, indicator, n),
    }
}

/// Writes a tag over the bytes of a number. It takes no indicator.
#[tactic(auto, unfolding(crate::specs::cbor::Meaning::magnitude_bytes))]
fn encode_bignum(
    out: &mut Vec<u8>,
    tag: u8,
    number: u128,
    indicator: Option<Indicator>,
) -> Result<(), Fault<InconsistentEdn>>
    requires { tag < 24 }
    ensures { Encodes encoding (meaning.no_indicator indicator (tagged_bytes tag (magnitude_bytes number))) out.old.items out.new.items result }
{
    match indicator {
        Some(_) => Err(Fault::Told(InconsistentEdn::IndicatorDoesNotFit)),
        None => {
            let bytes = number.to_be_bytes();
            encode_tagged(out, tag, without_zeros(&bytes))?;
            Ok(())
        }
    }
}

#[tactic(auto, using(crate::proofs::lemmas::cbor::Meanings::shortest_fits))]
fn encode_tagged(out: &mut Vec<u8>, tag: u8, bytes: &[u8]) -> Result<(), AllocError>
    requires { tag < 24 }
    ensures { OnOk result (out.new.items ≡ out.old.items ++ encoding (tagged_bytes tag bytes.now)) }
{
    let length = bytes.len() as u64;
    encode_head(out, 6, Width::Immediate, u64::from(tag))?;
    encode_head(out, 2, shortest_width(length), length)?;
    out.extend_from_slice(bytes)?;
    Ok(())
}

/// The bytes without the zeros that they begin with.
fn without_zeros(bytes: &[u8]) -> &[u8]
    ensures { result.now ≡ meaning.without_zeros bytes.now }
{
    match bytes {
        [0, rest @ ..] => without_zeros(rest),
        _ => bytes,
    }
}
