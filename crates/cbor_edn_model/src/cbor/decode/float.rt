//! Floating-point numbers from the bits of a head.
ghost use Rattle.std.specs.Prelude.{◌≡◌};
ghost use Rattle.cbor_edn_model.specs.internal.CborReading as reading;
ghost use Rattle.cbor_edn_model.specs.cbor.Decoded as decoded;

use crate::cbor::heads::{Width, float_bits};
use crate::text::keyword::NonFinite;
use cbor_edn_parts::base::indicator::Indicator;

/// The number with these bits in two, four or eight bytes: an infinity, or the NaN without sign and payload. None for any other.
pub fn non_finite(width: Width, bits: u64) -> Option<NonFinite>
    ensures { result ≡ reading.float_of width bits }
{
    if bits == float_bits(width, NonFinite::Infinity) {
        Some(NonFinite::Infinity)
    } else if bits == float_bits(width, NonFinite::NegativeInfinity) {
        Some(NonFinite::NegativeInfinity)
    } else if bits == float_bits(width, NonFinite::NaN) {
        Some(NonFinite::NaN)
    } else {
        None
    }
}

/// The indicator of a floating-point number of two, four or eight bytes, which is always printed: `_1`, `_2` or `_3`.
pub fn float_indicator(width: Width) -> Option<Indicator>
    ensures { result ≡ decoded.float_indicator width }
{
    match width {
        Width::Two => Some(Indicator::Two),
        Width::Four => Some(Indicator::Four),
        Width::Eight => Some(Indicator::Eight),
        Width::Immediate | Width::One => None,
    }
}
