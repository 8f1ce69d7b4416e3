//! Time texts.
ghost use Rattle.std.specs.Prelude.{◌≡◌, ◌≤◌, ◌<◌, ◌^◌, ◌+◌, ◌-◌, ◌*◌, ◌+ℤ◌, ◌-ℤ◌, ◌*ℤ◌, pos, ℕ, ℤ, length, IfSome, IsNone};
ghost use Rattle.std.specs.Str.Parse.{AllDigits};
ghost use Rattle.cbor_edn_times_and_addresses.specs.Time.{number, nanoseconds_of, IsDay, IsDate, IsHourMinute, IsClock, IsFraction, IsOffset, HasInstant};
ghost use Rattle.cbor_edn_times_and_addresses.specs.internal.TimeReading.{IsTail, offset_length};

use super::Instant;
use jiff_core::civil::Date;

/// The instant of a time text of RFC 3339, section 5.6, as `2023-11-14T22:13:20Z`. None for other texts, for leap seconds, and for a
/// fraction of more than nine digits.
pub fn read_time(text: &[u8]) -> Option<Instant>
    ensures some { IfSome result (λ i. HasInstant text.now i.seconds i.nanoseconds) }
    ensures none { IsNone result → (s : ℤ) (n : ℕ) → ¬ HasInstant text.now s n }
{
    if text.len() < 20 || !matches!(text[10], b'T' | b't') {
        return None;
    }
    let day_number = read_date(&text[..10])?;
    let clock = read_clock(&text[11..19])?;
    let (nanoseconds, ahead) = read_tail(&text[19..])?;
    Some(Instant {
        seconds: seconds_of(day_number, clock, ahead),
        nanoseconds,
    })
}

fn seconds_of(day_number: i32, clock: u32, ahead: i32) -> i64
    ensures { result ≡ day_number *ℤ pos 86_400 +ℤ pos clock -ℤ ahead }
{
    i64::from(day_number) * 86_400 + i64::from(clock) - i64::from(ahead)
}

/// The nanoseconds of the fraction, and by how many seconds the clock is ahead.
fn read_tail(text: &[u8]) -> Option<(u32, i32)>
    ensures some { IfSome result (λ r. IsTail text.now r.0 r.1) }
    ensures none { IsNone result → (n : ℕ) (z : ℤ) → ¬ IsTail text.now n z }
    ensures bound { IfSome result (λ r. r.0 < 1_000_000_000) }
{
    let cut = text.len().checked_sub(offset_len(text))?;
    let nanoseconds = read_fraction(&text[..cut])?;
    let ahead = read_offset(&text[cut..])?;
    Some((nanoseconds, ahead))
}

/// The length of the offset at the end of a time text, if there is one.
#[tactic(auto, unfolding(crate::specs::internal::TimeReading::offset_length))]
fn offset_len(text: &[u8]) -> usize
    ensures { result ≡ offset_length text.now }
{
    match text {
        [.., b'Z' | b'z'] => 1,
        _ => 6,
    }
}

fn read_date(text: &[u8]) -> Option<i32>
    ensures some { IfSome result (IsDate text.now) }
    ensures none { IsNone result → (z : ℤ) → ¬ IsDate text.now z }
{
    if text.len() != 10 || text[4] != b'-' || text[7] != b'-' {
        return None;
    }
    let year = read_digits(&text[..4])?;
    let month = read_digits(&text[5..7])?;
    let day = read_digits(&text[8..])?;
    read_day(year, month, day)
}

/// The day number of a day of the calendar, if there is such a day.
fn read_day(year: u32, month: u32, day: u32) -> Option<i32>
    requires year { year < 10_000 }
    requires month { month < 100 }
    requires day { day < 100 }
    ensures some { IfSome result (IsDay year month day) }
    ensures none { IsNone result → (z : ℤ) → ¬ IsDay year month day z }
{
    match Date::new(year as i16, month as i8, day as i8) {
        Ok(date) => Some(date.to_unix_epoch_day()),
        Err(_) => None,
    }
}

fn read_clock(text: &[u8]) -> Option<u32>
    ensures some { IfSome result (IsClock text.now) }
    ensures none { IsNone result → (n : ℕ) → ¬ IsClock text.now n }
{
    if text.len() != 8 || text[5] != b':' {
        return None;
    }
    let minutes = read_hour_minute(&text[..5])?;
    let second = read_digits(&text[6..])?;
    if second >= 60 {
        return None;
    }
    Some(60 * minutes + second)
}

fn read_hour_minute(text: &[u8]) -> Option<u32>
    ensures some { IfSome result (IsHourMinute text.now) }
    ensures none { IsNone result → (n : ℕ) → ¬ IsHourMinute text.now n }
    ensures bound { IfSome result (λ n. n < 1440) }
{
    if text.len() != 5 || text[2] != b':' {
        return None;
    }
    let hour = read_digits(&text[..2])?;
    let minute = read_digits(&text[3..])?;
    if hour >= 24 || minute >= 60 {
        return None;
    }
    Some(60 * hour + minute)
}

/// The nanoseconds of a point and what is behind it.
fn read_fraction(text: &[u8]) -> Option<u32>
    ensures some { IfSome result (IsFraction text.now) }
    ensures none { IsNone result → (n : ℕ) → ¬ IsFraction text.now n }
    ensures bound { IfSome result (λ n. n < 1_000_000_000) }
{
    match text {
        [] => Some(0),
        [b'.', digits @ ..] if 1 <= digits.len() && digits.len() <= 9 => read_nanoseconds(digits),
        _ => None,
    }
}

/// The nanoseconds of the digits behind a point.
pub(super) fn read_nanoseconds(digits: &[u8]) -> Option<u32>
    requires { length digits.now ≤ 9 }
    ensures some { IfSome result (λ n. AllDigits 10 digits.now × (n ≡ nanoseconds_of digits.now)) }
    ensures none { IsNone result → ¬ AllDigits 10 digits.now }
    ensures bound { IfSome result (λ n. n < 1_000_000_000) }
{
    let number = read_digits(digits)?;
    Some(number * 10u32.pow(9 - digits.len() as u32))
}

/// By how many seconds the clock is ahead.
fn read_offset(text: &[u8]) -> Option<i32>
    ensures some { IfSome result (IsOffset text.now) }
    ensures none { IsNone result → (z : ℤ) → ¬ IsOffset text.now z }
{
    let [sign, clock @ ..] = text else {
        return None;
    };
    match sign {
        b'Z' | b'z' if clock.is_empty() => Some(0),
        b'+' => Some(60 * read_hour_minute(clock)? as i32),
        b'-' => Some(-(60 * read_hour_minute(clock)? as i32)),
        _ => None,
    }
}

/// The number that at most nine digits write.
fn read_digits(digits: &[u8]) -> Option<u32>
    requires { length digits.now ≤ 9 }
    ensures some { IfSome result (λ n. AllDigits 10 digits.now × (n ≡ number digits.now)) }
    ensures none { IsNone result → ¬ AllDigits 10 digits.now }
    ensures bound { IfSome result (λ n. n < 10 ^ length digits.now) }
{
    let mut value: u32 = 0;
    for byte in digits {
        if !byte.is_ascii_digit() {
            return None;
        }
        value = value * 10 + u32::from(*byte - b'0');
    }
    Some(value)
}
