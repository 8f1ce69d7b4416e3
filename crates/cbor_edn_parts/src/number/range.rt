//! Integers of a number within a range.
ghost use Rattle.std.specs.Prelude.{◌≡◌, ◌≤◌, ◌↔◌, ℤ, FitsSigned, IfSome, IsNone, IsTrue, nat_lt};
ghost use Rattle.std.specs.Char.{digit_value};
ghost use Rattle.std.specs.List.{list_all};
ghost use Rattle.std.specs.Int.{w128};
ghost use Rattle.cbor_edn_parts.specs.number.Number.{HasInteger, IsInteger};
ghost use Rattle.cbor_edn_parts.specs.internal.NumberReading as reading;
ghost use Rattle.cbor_edn_parts.specs.Leaves.{number_bytes, integer};

use super::{Integer, Number, split_base, split_sign};

impl Integer {
    /// The integer, or none where it is not in the range of `i128`.
    pub fn to_i128(self) -> Option<i128>
        ensures some { IfSome result (λ z. z ≡ integer self) }
        ensures none { IsNone result → (z : ℤ) → FitsSigned w128 z → z ≡ integer self → ⊥ }
    {
        match self {
            Integer::Positive(n) => i128::try_from(n).ok(),
            Integer::Negative(n) => {
                let n = i128::try_from(n).ok()?;
                Some(-1 - n)
            }
        }
    }
}

impl Number<'_> {
    /// The integer of an integer literal, or none where it is not in the range of `i128`. A text with a point or an exponent is
    /// no integer literal, and has none.
    pub fn to_i128(&self) -> Option<i128>
        ensures some { IfSome result (λ z. HasInteger (number_bytes self.now) z) }
        ensures none { IsNone result → (z : ℤ) → FitsSigned w128 z → HasInteger (number_bytes self.now) z → ⊥ }
    {
        self.integer()?.to_i128()
    }

    /// Whether the text is an integer literal, of any size: it has neither a point nor an exponent.
    pub fn is_integer(&self) -> bool
        ensures { IsTrue result ↔ IsInteger (number_bytes self.now) }
    {
        let (_, unsigned) = split_sign(self.as_str());
        let (radix, digits) = split_base(unsigned);
        is_numeral(radix, digits.as_bytes())
    }
}

/// Whether these are digits of the base, at least one.
fn is_numeral(radix: u32, digits: &[u8]) -> bool
    requires lower { 2 ≤ radix }
    requires upper { radix ≤ 36 }
    ensures { result ≡ reading.is_numeral radix digits.now }
{
    !digits.is_empty() && are_digits(radix, digits)
}

fn are_digits(radix: u32, digits: &[u8]) -> bool
    requires lower { 2 ≤ radix }
    requires upper { radix ≤ 36 }
    ensures { result ≡ list_all (λ c. nat_lt (digit_value c) radix) digits.now }
{
    digits.iter().all(|byte| char::from(*byte).is_digit(radix))
}
