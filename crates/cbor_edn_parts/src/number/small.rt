//! Integers that are computed in 64 bits.
ghost use Rattle.std.specs.Prelude.{◌≡◌, ◌<◌, ◌≤◌, ◌^◌, length, pos, neg_ℤ, unsigned_abs, if◌then◌else◌, IfSome, IsNone};
ghost use Rattle.std.specs.Fmt.{signed_decimal};
ghost use Rattle.cbor_edn_parts.specs.base.LeafTexts.{leaf_bytes};
ghost use Rattle.cbor_edn_parts.specs.number.Number.{HasInteger, IsInteger, Decimal};
ghost use Rattle.cbor_edn_parts.specs.Leaves.{number_bytes, small_integer};

use super::{Number, small_decimal, split_sign};
use crate::base::leaf_text::LeafText;

/// The integer -2^64, the only one here whose magnitude takes more than 64 bits.
const LEAST: &str = "-18446744073709551616";

/// An integer from -2^64 to 2^64 - 1: one that a head of CBOR holds.
#[derive(Clone, Copy)]
pub enum SmallInteger {
    /// The integer itself.
    Positive(u64),
    /// `Negative(n)` is -1 - n.
    Negative(u64),
}

impl SmallInteger {
    fn signed(is_negative: bool, magnitude: u64) -> SmallInteger
        ensures { small_integer result ≡ (if is_negative then neg_ℤ (pos magnitude) else pos magnitude) }
    {
        if is_negative && magnitude > 0 {
            SmallInteger::Negative(magnitude - 1)
        } else {
            SmallInteger::Positive(magnitude)
        }
    }

    pub(super) fn decimal<'a>(self) -> LeafText<'a>
        ensures text { leaf_bytes result ≡ signed_decimal (small_integer self) }
        ensures bound { unsigned_abs (small_integer self) ≤ 2 ^ 64 }
    {
        let mut digits = itoa::Buffer::new();
        match self {
            SmallInteger::Positive(n) => LeafText::short("", digits.format(n)),
            SmallInteger::Negative(n) => match n.checked_add(1) {
                Some(magnitude) => LeafText::short("-", digits.format(magnitude)),
                None => LeafText::Borrowed(LEAST),
            },
        }
    }
}

impl Number<'_> {
    /// The integer of a decimal literal of at most 19 digits. Of any other text it answers none: [`Number::integer`] answers the
    /// same integer, and that of every other literal, and takes longer.
    #[inline]
    pub fn small_integer(&self) -> Option<SmallInteger>
        ensures some { IfSome result (λ i. HasInteger (number_bytes self.now) (small_integer i)) }
        ensures none { IsNone result → (l : IsInteger (number_bytes self.now)) → l.base ≡ Decimal → 19 < length l.digits }
    {
        let (is_negative, digits) = split_sign(self.as_str());
        let magnitude = small_decimal(digits.as_bytes())?;
        Some(SmallInteger::signed(is_negative, magnitude))
    }
}
