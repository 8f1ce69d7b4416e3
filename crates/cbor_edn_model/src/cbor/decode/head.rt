//! Heads, what ends a row of entries, and the indicators that heads are shown with.
ghost use Rattle.std.specs.Prelude.{◌≡◌, ◌<◌, ◌≤◌, length, take, drop, option_map, IfSome, IfOk, IfErr};
ghost use Rattle.cbor_edn_parts.specs.declared.base.error.Fault.TheVariants.{Told};
ghost use Rattle.cbor_edn_model.specs.declared.cbor.decode.CborError.TheVariants.{MissingArgument};
ghost use Rattle.cbor_edn_model.specs.cbor.Decoded as decoded;
ghost use Rattle.cbor_edn_model.specs.internal.CborReading as reading;
ghost use Rattle.cbor_edn_model.specs.internal.CborReading.{DecoderGives, head_at, argument_indicator};

use super::CborError;
use crate::cbor::heads::Width;
use cbor_edn_parts::base::error::Fault;
use cbor_edn_parts::base::indicator::Indicator;

/// The argument of a head and the bytes that it takes, or none for indefinite length and for a break.
pub type Argument = Option<(Width, u64)>;

/// A head: the major type, 0 to 7, and the argument (RFC 8949, section 3).
pub type Head = (u8, Argument);

/// The head at the front, and the bytes behind it. Fails with `OutOfData` where there are no bytes, with `MissingArgument` where they end
/// inside the argument, and with `Reserved`.
#[tactic(auto, unfolding(crate::specs::internal::CborReading::head_at))]
pub fn head_of(bytes: &[u8]) -> Result<(Head, &[u8]), Fault<CborError>>
    ensures value { DecoderGives (λ x. (x.0, x.1.now)) result (head_at bytes.now) }
    ensures shorter { IfOk result (λ x. length x.1.now < length bytes.now) }
{
    let [first, rest @ ..] = bytes else {
        return Err(Fault::Told(CborError::OutOfData));
    };
    let major = *first / 32;
    let info = *first % 32;
    match info {
        0..=23 => Ok(((major, Some((Width::Immediate, u64::from(info)))), rest)),
        24 => {
            let (argument, rest) = argument_bytes(rest)?;
            let n = u8::from_be_bytes(argument);
            Ok(((major, Some((Width::One, u64::from(n)))), rest))
        }
        25 => {
            let (argument, rest) = argument_bytes(rest)?;
            let n = u16::from_be_bytes(argument);
            Ok(((major, Some((Width::Two, u64::from(n)))), rest))
        }
        26 => {
            let (argument, rest) = argument_bytes(rest)?;
            let n = u32::from_be_bytes(argument);
            Ok(((major, Some((Width::Four, u64::from(n)))), rest))
        }
        27 => {
            let (argument, rest) = argument_bytes(rest)?;
            let n = u64::from_be_bytes(argument);
            Ok(((major, Some((Width::Eight, n))), rest))
        }
        31 => Ok(((major, None), rest)),
        _ => Err(Fault::Told(CborError::Reserved)),
    }
}

/// The bytes of an argument, and those behind it. Fails with `MissingArgument` where they end inside it.
fn argument_bytes<const N: usize>(bytes: &[u8]) -> Result<([u8; N], &[u8]), Fault<CborError>>
    ensures found { IfOk result (λ x. (N ≤ length bytes.now) × (x.0 ≡ take N bytes.now) × (x.1.now ≡ drop N bytes.now)) }
    ensures missing { IfErr result (λ e. (length bytes.now < N) × (e ≡ Told MissingArgument)) }
{
    match bytes.split_first_chunk() {
        Some((front, rest)) => Ok((*front, rest)),
        None => Err(Fault::Told(CborError::MissingArgument)),
    }
}

/// What ends a row of entries.
#[derive(Clone, Copy, Debug, PartialEq)]
pub enum Stop {
    /// The byte that ends a list of indefinite length.
    Break,
    /// The end of the bytes, which ends a sequence.
    EndOfData,
}

/// The bytes behind the end of a row, where that end stands at the front, else none.
pub fn past_stop(stop: Stop, bytes: &[u8]) -> Option<&[u8]>
    ensures value { option_map (λ x. x.now) result ≡ reading.past_stop stop bytes.now }
    ensures shorter { IfSome result (λ x. length x.now ≤ length bytes.now) }
{
    match (stop, bytes) {
        (Stop::Break, [255, after @ ..]) => Some(after),
        (Stop::EndOfData, []) => Some(bytes),
        _ => None,
    }
}

/// The indicator that a head is shown with: `_` for indefinite length, and none where no narrower head would do.
pub fn indicator_of(argument: Argument) -> Option<Indicator>
    ensures { result ≡ argument_indicator argument }
{
    match argument {
        None => Some(Indicator::Indefinite),
        Some((Width::Immediate, _)) => None,
        Some((Width::One, n)) => if_below(24, n, Indicator::One),
        Some((Width::Two, n)) => if_below(0x100, n, Indicator::Two),
        Some((Width::Four, n)) => if_below(0x1_0000, n, Indicator::Four),
        Some((Width::Eight, n)) => if_below(0x1_0000_0000, n, Indicator::Eight),
    }
}

fn if_below(limit: u64, n: u64, indicator: Indicator) -> Option<Indicator>
    ensures { result ≡ decoded.if_below limit n indicator }
{
    if n < limit { Some(indicator) } else { None }
}
