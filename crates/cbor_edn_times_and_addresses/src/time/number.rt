//! Times that are written as numbers.
ghost use Rattle.std.specs.Prelude.{◌≡◌, ◌≢◌, ◌<◌, ◌≤◌, ◌^◌, ◌+◌, ◌*◌, ◌↔◌, min, ℕ, ℤ, pos, neg_ℤ, ◌+ℤ◌, ◌*ℤ◌, length, if◌then◌else◌, slice_index, IsTrue, IfOk, IfSome, IsNone};
ghost use Rattle.std.specs.Str.Parse.{AllDigits};
ghost use Rattle.cbor_edn_times_and_addresses.specs.Time.{number, IsTimeStamp};
ghost use Rattle.cbor_edn_parts.specs.number.Number.{MinusSign};
ghost use Rattle.cbor_edn_parts.specs.internal.NumberReading.{sign_of, without_sign};
ghost use Rattle.cbor_edn_times_and_addresses.specs.TimeDecimal.{HasDecimal, IsOutOfRange};
ghost use Rattle.cbor_edn_times_and_addresses.specs.internal.DecimalReading.{most_seconds, IsUnsigned, IsFirstPoint};

use super::Instant;
use super::read::read_nanoseconds;

/// Why a number is no time.
#[derive(Clone, Copy, Debug, PartialEq, Eq)]
pub enum NotTime {
    /// It is no decimal with a point and at most nine digits behind it.
    Unreadable,
    /// Its seconds are not in the years 0000 to 9999.
    OutOfRange,
}

/// The instant of a decimal of seconds, as `-14159023.5`, `1.` or `.5`. It has a point, at most nine digits behind that, and no exponent.
/// Fails with [`NotTime`].
pub fn read_decimal(text: &[u8]) -> Result<Instant, NotTime>
    ensures ok { IfOk result (λ i. HasDecimal text.now i.seconds i.nanoseconds × IsTimeStamp i.seconds) }
    ensures unreadable { result ≡ Err NotTime.Unreadable → (s : ℤ) (n : ℕ) → ¬ HasDecimal text.now s n }
    ensures out_of_range { result ≡ Err NotTime.OutOfRange → IsOutOfRange text.now }
{
    let (is_negative, digits) = split_sign(text);
    let Some((seconds, nanoseconds)) = read_unsigned(digits) else {
        return Err(NotTime::Unreadable);
    };
    let instant = floored(is_negative, seconds, nanoseconds);
    if !is_time_stamp(instant.seconds) {
        return Err(NotTime::OutOfRange);
    }
    Ok(instant)
}

/// The instant of whole seconds since 1970, or none where they are not in the years 0000 to 9999: below -62167219200 or above
/// 253402300799.
pub fn read_integer(seconds: i128) -> Option<Instant>
    ensures some { IfSome result (λ i. (i.seconds ≡ seconds) × (i.nanoseconds ≡ 0) × IsTimeStamp seconds) }
    ensures none { IsNone result → ¬ IsTimeStamp seconds }
{
    let seconds = i64::try_from(seconds).ok()?;
    if !is_time_stamp(seconds) {
        return None;
    }
    Some(Instant {
        seconds,
        nanoseconds: 0,
    })
}

fn is_time_stamp(seconds: i64) -> bool
    ensures { IsTrue result ↔ IsTimeStamp seconds }
{
    -62_167_219_200 <= seconds && seconds <= 253_402_300_799
}

/// Whether a minus sign stands in front, and the text behind the sign, if any.
fn split_sign(text: &[u8]) -> (bool, &[u8])
    ensures sign { IsTrue result.0 ↔ (sign_of text.now ≡ MinusSign) }
    ensures rest { result.1.now ≡ without_sign text.now }
{
    match text {
        [b'-', rest @ ..] => (true, rest),
        [b'+', rest @ ..] => (false, rest),
        _ => (false, text),
    }
}

/// The seconds and nanoseconds of a decimal without a sign.
fn read_unsigned(text: &[u8]) -> Option<(u64, u32)>
    ensures some { IfSome result (λ r. IsUnsigned text.now r.0 r.1) }
    ensures none { IsNone result → (w f : ℕ) → ¬ IsUnsigned text.now w f }
    ensures seconds { IfSome result (λ r. r.0 ≤ 1_000_000_000_000) }
    ensures nanoseconds { IfSome result (λ r. r.1 < 1_000_000_000) }
{
    let point = first_point(text)?;
    let fraction = &text[point + 1..];
    if text.len() == 1 || fraction.len() > 9 {
        return None;
    }
    let seconds = read_seconds(&text[..point])?;
    let nanoseconds = read_nanoseconds(fraction)?;
    Some((seconds, nanoseconds))
}

fn first_point(text: &[u8]) -> Option<usize>
    ensures some { IfSome result (IsFirstPoint text.now) }
    ensures none { IsNone result → (k : ℕ) → k < length text.now → slice_index text.now k ≢ 46 }
{
    for (i, byte) in text.iter().enumerate() {
        if *byte == b'.' {
            return Some(i);
        }
    }
    None
}

/// The number that digits write, or the most that is counted.
fn read_seconds(digits: &[u8]) -> Option<u64>
    ensures some { IfSome result (λ n. AllDigits 10 digits.now × (n ≡ min (number digits.now) most_seconds)) }
    ensures none { IsNone result → ¬ AllDigits 10 digits.now }
{
    let mut value: u64 = 0;
    for byte in digits {
        if !byte.is_ascii_digit() {
            return None;
        }
        value = (value * 10 + u64::from(*byte - b'0')).min(1_000_000_000_000);
    }
    Some(value)
}

/// The instant of so many seconds and nanoseconds, before 1970 if they are negative.
fn floored(is_negative: bool, seconds: u64, nanoseconds: u32) -> Instant
    requires seconds { seconds ≤ 1_000_000_000_000 }
    requires nanoseconds { nanoseconds < 1_000_000_000 }
    ensures { let z = pos (seconds * 1_000_000_000 + nanoseconds) in
        result.seconds *ℤ pos 1_000_000_000 +ℤ pos result.nanoseconds ≡ (if is_negative then neg_ℤ z else z) }
{
    let whole = seconds as i64;
    if !is_negative {
        return Instant {
            seconds: whole,
            nanoseconds,
        };
    }
    if nanoseconds == 0 {
        return Instant {
            seconds: -whole,
            nanoseconds: 0,
        };
    }
    Instant {
        seconds: -whole - 1,
        nanoseconds: 1_000_000_000 - nanoseconds,
    }
}
