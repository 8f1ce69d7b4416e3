//! Instants printed as times.
ghost use Rattle.std.specs.Prelude.{◌≡◌, ◌<◌, ◌≤◌, ◌^◌, ◌+◌, ◌∷◌, [], ◌++◌, pos, ◌+ℤ◌, ◌*ℤ◌, ◌≤ℤ◌, unsigned_abs, IfOk, OnOk, string_bytes};
ghost use Rattle.jiff_core.specs.Date.{epoch_day};
ghost use Rattle.cbor_edn_times_and_addresses.specs.Time.{IsTimeStamp, IsPrinted};
ghost use Rattle.cbor_edn_times_and_addresses.specs.internal.TimeWriting.{padded, pairs, date_text, clock_text, fraction_text};

use super::Instant;
use jiff_core::civil::Date;
use std::alloc::{AllocError, Global};

/// The instant as a time of RFC 3339, section 5.6, as `1969-12-31T23:59:58.500+00:00`: always in UTC, with a fraction of 3, 6 or 9 digits
/// where there is one. Fails where memory runs out.
pub fn printed_time(alloc: Global, instant: Instant) -> Result<String, AllocError>
    requires { IsTimeStamp instant.seconds }
    ensures { IfOk result (λ t. IsPrinted (string_bytes t) instant.seconds instant.nanoseconds) }
{
    let (date, clock) = split(instant.seconds);
    let mut text = String::with_capacity(alloc, LONGEST)?;
    push_date(&mut text, date)?;
    text.push('T')?;
    push_clock(&mut text, clock)?;
    push_fraction(&mut text, instant.nanoseconds)?;
    text.push_str("+00:00")?;
    Ok(text)
}

/// How long a time is at most: one with a fraction of nine digits.
const LONGEST: usize = 35;

/// The seconds from the first date of `Date` to 1970.
const SECONDS_BEFORE: i64 = 377_705_116_800;

/// The day of a second, and the second of that day.
fn split(seconds: i64) -> (Date, u32)
    requires { IsTimeStamp seconds }
    ensures seconds { seconds ≡ epoch_day result.0 *ℤ pos 86_400 +ℤ pos result.1 }
    ensures year { pos 0 ≤ℤ result.0.year }
    ensures clock { result.1 < 86_400 }
{
    let since_first = (seconds + SECONDS_BEFORE) as u64;
    let date = Date::from_days_since_min((since_first / 86_400) as u32);
    (date, (since_first % 86_400) as u32)
}

fn push_date(text: &mut String, date: Date) -> Result<(), AllocError>
    requires { pos 0 ≤ℤ date.year }
    ensures { OnOk result (string_bytes text.new
        ≡ string_bytes text.old ++ date_text (unsigned_abs date.year) date.month date.day) }
{
    push_year(text, date.year as u32)?;
    text.push('-')?;
    push_pair(text, u32::from(date.month))?;
    text.push('-')?;
    push_pair(text, u32::from(date.day))
}

fn push_year(text: &mut String, year: u32) -> Result<(), AllocError>
    ensures { OnOk result (string_bytes text.new ≡ string_bytes text.old ++ padded 4 year) }
{
    push_pair(text, year / 100)?;
    push_pair(text, year)
}

fn push_clock(text: &mut String, seconds: u32) -> Result<(), AllocError>
    ensures { OnOk result (string_bytes text.new ≡ string_bytes text.old ++ clock_text seconds) }
{
    let minutes = seconds / 60;
    push_pair(text, minutes / 60)?;
    text.push(':')?;
    push_pair(text, minutes % 60)?;
    text.push(':')?;
    push_pair(text, seconds % 60)
}

fn push_fraction(text: &mut String, nanoseconds: u32) -> Result<(), AllocError>
    ensures { OnOk result (string_bytes text.new ≡ string_bytes text.old ++ fraction_text nanoseconds) }
{
    if nanoseconds == 0 {
        return Ok(());
    }
    text.push('.')?;
    if nanoseconds % 1_000_000 == 0 {
        push_digits(text, nanoseconds / 1_000_000, 3)
    } else if nanoseconds % 1_000 == 0 {
        push_digits(text, nanoseconds / 1_000, 6)
    } else {
        push_digits(text, nanoseconds, 9)
    }
}

/// Appends the last two digits of a number.
fn push_pair(text: &mut String, number: u32) -> Result<(), AllocError>
    ensures { OnOk result (string_bytes text.new ≡ string_bytes text.old ++ padded 2 number) }
{
    let at = 2 * (number % 100) as usize;
    text.push_str(&pairs()[at..at + 2])
}

/// The numbers below 100, in two digits each.
#[inline(always)]
fn pairs() -> &'static str
    ensures { result.now ≡ pairs }
{
    "0001020304050607080910111213141516171819202122232425262728293031323334353637383940414243444546474849\
     5051525354555657585960616263646566676869707172737475767778798081828384858687888990919293949596979899"
}

/// Appends so many digits of a number, its last ones.
pub(super) fn push_digits(text: &mut String, number: u32, places: u8) -> Result<(), AllocError>
    ensures { OnOk result (string_bytes text.new ≡ string_bytes text.old ++ padded places number) }
{
    if places == 0 {
        return Ok(());
    }
    push_digits(text, number / 10, places - 1)?;
    text.push(char::from(b'0' + (number % 10) as u8))
}
