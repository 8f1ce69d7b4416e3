//! Decimals of instants.
ghost use Rattle.std.specs.Prelude.{◌≡◌, ◌≢◌, ◌<◌, ◌≤◌, ◌^◌, ◌+◌, ◌-◌, ◌*◌, ◌%◌, pos, neg_ℤ, ◌+ℤ◌, ◌*ℤ◌, ◌≤ℤ◌, ◌<ℤ◌, unsigned_abs, length, if◌then◌else◌, IfOk, OnOk, string_bytes};
ghost use Rattle.cbor_edn_times_and_addresses.specs.TimeDecimal.{IsNumberOf};
ghost use Rattle.cbor_edn_times_and_addresses.specs.internal.TimeWriting.{GetsFraction};

use super::Instant;
use super::print::push_digits;
use std::alloc::{AllocError, Global};

/// The number of seconds that stands for an instant, as `951778800` or `-0.25`: exact, without needless zeros. Fails where memory runs
/// out.
pub fn number_text(alloc: Global, instant: Instant) -> Result<String, AllocError>
    ensures { IfOk result (λ t. IsNumberOf (string_bytes t) instant.seconds instant.nanoseconds) }
{
    let Instant {
        seconds,
        nanoseconds,
    } = instant;
    if nanoseconds == 0 {
        return format!(in alloc; "{seconds}");
    }
    if seconds < 0 {
        let whole = (seconds + 1).unsigned_abs();
        let text = format!(in alloc; "-{whole}.")?;
        return with_fraction(text, 1_000_000_000 - nanoseconds);
    }
    let whole = seconds.unsigned_abs();
    let text = format!(in alloc; "{whole}.")?;
    with_fraction(text, nanoseconds)
}

fn with_fraction(mut text: String, nanoseconds: u32) -> Result<String, AllocError>
    requires some { 0 < nanoseconds }
    requires nanoseconds { nanoseconds < 1_000_000_000 }
    ensures { IfOk result (λ t. GetsFraction (string_bytes text) (string_bytes t) nanoseconds) }
{
    let (number, places) = without_zeros(nanoseconds);
    push_digits(&mut text, number, places)?;
    Ok(text)
}

/// The number without the zeros at its end, and how many of nine digits are left.
fn without_zeros(nanoseconds: u32) -> (u32, u8)
    requires some { 0 < nanoseconds }
    requires nanoseconds { nanoseconds < 1_000_000_000 }
    ensures value { nanoseconds ≡ result.0 * 10 ^ (9 - result.1) }
    ensures places { result.1 ≤ 9 }
    ensures number { result.0 < 10 ^ result.1 }
    ensures digit { result.0 % 10 ≢ 0 }
{
    let mut number = nanoseconds;
    let mut places = 9;
    while number % 10 == 0 {
        number /= 10;
        places -= 1;
    }
    (number, places)
}
