//! Whether an encoding indicator may go.
ghost use Rattle.std.specs.Prelude.{◌≡◌};
ghost use Rattle.cbor_edn_conversions.specs.Conversions.{is_shortest};

use cbor_edn_parts::base::indicator::Indicator;

/// Whether there is no indicator, or the one of the shortest head of this argument, as `_0` of 52. Such a one may go: the encoding stays
/// the same.
pub fn is_shortest(indicator: Option<Indicator>, argument: u64) -> bool
    ensures { result ≡ is_shortest indicator argument }
{
    match indicator {
        None => true,
        Some(Indicator::Indefinite) => false,
        Some(Indicator::Immediate) => argument < 24,
        Some(Indicator::One) => 24 <= argument && argument < 1 << 8,
        Some(Indicator::Two) => 1 << 8 <= argument && argument < 1 << 16,
        Some(Indicator::Four) => 1 << 16 <= argument && argument < 1 << 32,
        Some(Indicator::Eight) => 1 << 32 <= argument,
    }
}
