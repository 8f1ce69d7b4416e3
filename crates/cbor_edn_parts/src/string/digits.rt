//! Numbers by hexadecimal digits, and surrogates.
ghost use Rattle.std.specs.Prelude.{◌≡◌, ◌&&◌, if◌then◌else◌, Some, None};
ghost use Rattle.std.specs.Char.Utf16.{is_high_surrogate, is_low_surrogate, surrogate_pair_char};
ghost use Rattle.cbor_edn_parts.specs.internal.LiteralTokens as tokens;

/// The number with one digit more. A number that is greater than all characters is followed no further.
pub(super) fn with_digit(number: u32, digit: u8) -> Option<u32>
    ensures { result ≡ tokens.with_digit number digit }
{
    let digit = char::from(digit).to_digit(16)?;
    if number <= 0x10_FFFF {
        Some(16 * number + digit)
    } else {
        None
    }
}

pub(super) fn is_high(unit: u32) -> bool
    ensures { result ≡ is_high_surrogate unit }
{
    (0xD800..0xDC00).contains(&unit)
}

/// The number of the character of two surrogates.
pub(super) fn of_pair(high: u32, low: u32) -> Option<u32>
    ensures { result ≡ (if is_high_surrogate high && is_low_surrogate low then Some (surrogate_pair_char high low) else None) }
{
    if is_high(high) && (0xDC00..0xE000).contains(&low) {
        Some(0x1_0000 + (high - 0xD800) * 0x400 + (low - 0xDC00))
    } else {
        None
    }
}
