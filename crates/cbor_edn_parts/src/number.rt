//! Numbers.
ghost use Rattle.std.specs.Prelude.{◌≡◌, ◌++◌, ◌<◌, ◌≤◌, ◌^◌, ◌↔◌, length, ℤ, pos, neg_ℤ, if◌then◌else◌, IsTrue, IfOk, OnOk, IfSome, IsNone, drop, true, unsigned_abs};
ghost use Rattle.cbor_edn_parts.specs.base.Buffer.{buffer_bytes};
ghost use Rattle.cbor_edn_parts.specs.base.LeafTexts.{leaf_bytes};
ghost use Rattle.std.specs.Str.Parse.{IsNumeral, ParsesUnsigned, digits_value};
ghost use Rattle.cbor_edn_parts.specs.number.Number.{MinusSign, radix, HasInteger};
ghost use Rattle.cbor_edn_parts.specs.internal.NumberReading.{prefix_length, sign_of, without_sign, named_base};
ghost use Rattle.cbor_edn_parts.specs.internal.NumberTokens as tokens;
ghost use Rattle.cbor_edn_parts.specs.internal.NumberTokens.{is_number};
ghost use Rattle.cbor_edn_parts.specs.internal.StateLaws.{number_stays, number_inside};

use crate::base::buffer::TextBuffer;
use crate::base::bytes::Kind;
use crate::base::leaf_text::LeafText;
use crate::base::scan::State;
pub use small::SmallInteger;
pub use start::{NumberStart, number_start};
use std::alloc::AllocError;
use std::num::ParseIntError;

mod range;
mod small;
mod start;
mod write;

/// A number as it is written, as `-0x1F`, `07`, `0b101`, `1.5e3` or `0x.8p1`.
#[derive(Debug, PartialEq, Drop)]
pub struct Number<'a> {
    text: LeafText<'a>,
    pub ghost spelled: { IsTrue (is_number (leaf_bytes text)) },
}

/// Where a scan of a number stands.
#[derive(Clone, Copy, Debug, PartialEq)]
pub enum NumberState {
    Start,
    Signed,
    AfterZero,
    DecimalDigits,
    /// Behind a point with no digit in front.
    Point,
    /// Behind a point with digits in front, or behind the digits that follow a point.
    Fraction,
    Exponent,
    ExponentSigned,
    ExponentDigits,
    AfterX,
    HexadecimalDigits,
    HexadecimalPoint,
    HexadecimalFraction,
    BinaryExponent,
    BinaryExponentSigned,
    BinaryExponentDigits,
    AfterO,
    OctalDigits,
    AfterB,
    BinaryDigits,
}

/// An integer in the range of a literal whose magnitude takes 128 bits.
#[derive(Clone, Copy, Debug, PartialEq, Eq)]
pub enum Integer {
    /// The integer itself.
    Positive(u128),
    /// `Negative(n)` is -1 - n.
    Negative(u128),
}

impl Integer {
    ghost use Rattle.cbor_edn_parts.specs.Leaves.{integer, HasMagnitude};

    fn signed(is_negative: bool, magnitude: u128) -> Integer
        ensures value { integer result ≡ (if is_negative then neg_ℤ (pos magnitude) else pos magnitude) }
        ensures bound { HasMagnitude result }
    {
        if is_negative && magnitude > 0 {
            Integer::Negative(magnitude - 1)
        } else {
            Integer::Positive(magnitude)
        }
    }
}

/// The state behind one more byte, by what the byte is.
impl NumberState {
    fn digit(self) -> Option<NumberState>
        ensures { result ≡ tokens.digit_step self }
    {
        match self {
            NumberState::Start
            | NumberState::Signed
            | NumberState::AfterZero
            | NumberState::DecimalDigits => { Some(NumberState::DecimalDigits) }
            NumberState::Point | NumberState::Fraction => Some(NumberState::Fraction),
            NumberState::Exponent | NumberState::ExponentSigned | NumberState::ExponentDigits => {
                Some(NumberState::ExponentDigits)
            }
            NumberState::BinaryExponent
            | NumberState::BinaryExponentSigned
            | NumberState::BinaryExponentDigits => Some(NumberState::BinaryExponentDigits),
            _ => self.letter(),
        }
    }

    fn octal_digit(self) -> Option<NumberState>
        ensures { result ≡ tokens.octal_step self }
    {
        match self {
            NumberState::AfterO | NumberState::OctalDigits => Some(NumberState::OctalDigits),
            _ => self.digit(),
        }
    }

    fn binary_digit(self) -> Option<NumberState>
        ensures { result ≡ tokens.binary_step self }
    {
        match self {
            NumberState::AfterB | NumberState::BinaryDigits => Some(NumberState::BinaryDigits),
            _ => self.octal_digit(),
        }
    }

    fn zero(self) -> Option<NumberState>
        ensures { result ≡ tokens.zero_step self }
    {
        match self {
            NumberState::Start | NumberState::Signed => Some(NumberState::AfterZero),
            _ => self.binary_digit(),
        }
    }

    /// A letter that is a hexadecimal digit.
    fn letter(self) -> Option<NumberState>
        ensures { result ≡ tokens.letter_step self }
    {
        match self {
            NumberState::AfterX | NumberState::HexadecimalDigits => Some(
                NumberState::HexadecimalDigits,
            ),
            NumberState::HexadecimalPoint | NumberState::HexadecimalFraction => {
                Some(NumberState::HexadecimalFraction)
            }
            _ => None,
        }
    }

    fn sign(self) -> Option<NumberState>
        ensures { result ≡ tokens.sign_step self }
    {
        match self {
            NumberState::Start => Some(NumberState::Signed),
            NumberState::Exponent => Some(NumberState::ExponentSigned),
            NumberState::BinaryExponent => Some(NumberState::BinaryExponentSigned),
            _ => None,
        }
    }

    fn point(self) -> Option<NumberState>
        ensures { result ≡ tokens.point_step self }
    {
        match self {
            NumberState::Start | NumberState::Signed => Some(NumberState::Point),
            NumberState::AfterZero | NumberState::DecimalDigits => Some(NumberState::Fraction),
            NumberState::AfterX => Some(NumberState::HexadecimalPoint),
            NumberState::HexadecimalDigits => Some(NumberState::HexadecimalFraction),
            _ => None,
        }
    }

    fn b(self) -> Option<NumberState>
        ensures { result ≡ tokens.b_step self }
    {
        match self {
            NumberState::AfterZero => Some(NumberState::AfterB),
            _ => self.letter(),
        }
    }

    fn e(self) -> Option<NumberState>
        ensures { result ≡ tokens.e_step self }
    {
        match self {
            NumberState::AfterZero | NumberState::DecimalDigits | NumberState::Fraction => {
                Some(NumberState::Exponent)
            }
            _ => self.letter(),
        }
    }

    fn o(self) -> Option<NumberState>
        ensures { result ≡ tokens.o_step self }
    {
        match self {
            NumberState::AfterZero => Some(NumberState::AfterO),
            _ => None,
        }
    }

    fn p(self) -> Option<NumberState>
        ensures { result ≡ tokens.p_step self }
    {
        match self {
            NumberState::HexadecimalDigits | NumberState::HexadecimalFraction => {
                Some(NumberState::BinaryExponent)
            }
            _ => None,
        }
    }

    fn x(self) -> Option<NumberState>
        ensures { result ≡ tokens.x_step self }
    {
        match self {
            NumberState::AfterZero => Some(NumberState::AfterX),
            _ => None,
        }
    }
}

impl State for NumberState {
    ghost automaton = { tokens.number };

    fn step(self, byte: u8) -> Option<NumberState> {
        let kind = Kind::of(byte);
        // the first byte of most numbers
        if let (NumberState::Start, Kind::One | Kind::TwoToSeven | Kind::EightOrNine) = (
            self, kind,
        ) {
            return Some(NumberState::DecimalDigits);
        }
        match kind {
            Kind::Plus | Kind::Minus => self.sign(),
            Kind::Zero => self.zero(),
            Kind::One => self.binary_digit(),
            Kind::TwoToSeven => self.octal_digit(),
            Kind::EightOrNine => self.digit(),
            Kind::Dot => self.point(),
            Kind::B => self.b(),
            Kind::E => self.e(),
            Kind::HexLetter => self.letter(),
            Kind::O => self.o(),
            Kind::P => self.p(),
            Kind::X => self.x(),
            _ => None,
        }
    }

    #[inline(always)]
    fn is_kept_by(self, byte: u8) -> bool {
        matches!(
            (self, Kind::of(byte)),
            (
                NumberState::DecimalDigits,
                Kind::Zero | Kind::One | Kind::TwoToSeven | Kind::EightOrNine
            )
        )
    }

    fn is_final(self) -> bool {
        matches!(
            self,
            NumberState::AfterZero
                | NumberState::DecimalDigits
                | NumberState::Fraction
                | NumberState::ExponentDigits
                | NumberState::HexadecimalDigits
                | NumberState::BinaryExponentDigits
                | NumberState::OctalDigits
                | NumberState::BinaryDigits
        )
    }

    ghost stays = { number_stays };

    ghost inside = { number_inside };
}

impl<'a> Number<'a> {
    ghost use Rattle.cbor_edn_parts.specs.Leaves.{number_bytes, integer, HasMagnitude};

    /// The text as it is written, without an encoding indicator.
    #[inline]
    pub fn as_str(&self) -> &str
        ensures { result.now ≡ number_bytes self.now }
    {
        self.text.as_str()
    }

    /// Writes the text at the end of another. Fails where memory runs out.
    #[inline(always)]
    pub fn print(&self, out: &mut TextBuffer) -> Result<(), AllocError>
        ensures { OnOk result (buffer_bytes out.new ≡ buffer_bytes out.old ++ number_bytes self.now) }
    {
        out.push_leaf(&self.text)
    }

    /// Its length in bytes.
    pub fn len(&self) -> usize
        ensures { result ≡ length (number_bytes self.now) }
    {
        self.text.len()
    }

    /// A copy of the text. Fails where memory runs out, which a text that is borrowed or of at most 22 bytes doesn't need.
    pub fn clone(&self) -> Result<Number<'a>, AllocError>
        ensures { IfOk result (λ t. number_bytes t ≡ number_bytes self.now) }
    {
        let text = self.text.clone()?;
        Ok(Number { text })
    }

    /// The integer of an integer literal, or none where the magnitude is 2^128 or more. A text with a point or an
    /// exponent is no integer literal, and has none.
    pub fn integer(&self) -> Option<Integer>
        ensures some { IfSome result (λ i. HasInteger (number_bytes self.now) (integer i)) }
        ensures none { IsNone result → (z : ℤ) → HasInteger (number_bytes self.now) z → 2 ^ 128 ≤ unsigned_abs z }
        ensures bound { IfSome result HasMagnitude }
    {
        let (is_negative, unsigned) = split_sign(self.as_str());
        let (radix, digits) = split_base(unsigned);
        match parse_digits(digits, radix) {
            Ok(magnitude) => Some(Integer::signed(is_negative, magnitude)),
            Err(_) => None,
        }
    }
}

/// As `u128::from_str_radix`, in 64 bits where they hold the number: digit by digit, 128 bits take several times as long. A decimal
/// number has a loop of its own, which takes a quarter of the instructions of that for any radix.
fn parse_digits(digits: &str, radix: u32) -> Result<u128, ParseIntError>
    requires lower_bound { 2 ≤ radix }
    requires upper_bound { radix ≤ 36 }
    ensures value { ParsesUnsigned 128 radix digits.now result }
{
    if radix == 10 {
        if let Some(magnitude) = small_decimal(digits.as_bytes()) {
            return Ok(u128::from(magnitude));
        }
    }
    match u64::from_str_radix(digits, radix) {
        Ok(magnitude) => Ok(u128::from(magnitude)),
        Err(_) => u128::from_str_radix(digits, radix),
    }
}

/// The number that decimal digits write, or none where another byte stands among them or there are more than 19 of them: so many fit
/// into 64 bits.
fn small_decimal(digits: &[u8]) -> Option<u64>
    ensures some { IfSome result (λ n. IsNumeral 10 digits.now × (n ≡ digits_value 10 digits.now)) }
    ensures none { IsNone result → IsNumeral 10 digits.now → 19 < length digits.now }
{
    if digits.is_empty() || digits.len() > 19 {
        return None;
    }
    let mut number: u64 = 0;
    for byte in digits {
        if !byte.is_ascii_digit() {
            return None;
        }
        number = number * 10 + u64::from(*byte - b'0');
    }
    Some(number)
}

/// Whether a minus sign stands in front, and the text behind the sign, if any.
fn split_sign(text: &str) -> (bool, &str)
    ensures sign { sign_of text.now ≡ MinusSign ↔ IsTrue result.0 }
    ensures rest { result.1.now ≡ without_sign text.now }
{
    match text.as_bytes() {
        [b'-', ..] => (true, &text[1..]),
        [b'+', ..] => (false, &text[1..]),
        _ => (false, text),
    }
}

/// The base that a text without a sign names, and what is behind the prefix.
fn split_base(text: &str) -> (u32, &str)
    ensures base { result.0 ≡ radix (named_base text.now) }
    ensures digits { result.1.now ≡ drop (prefix_length (named_base text.now)) text.now }
{
    match text.as_bytes() {
        [b'0', b'x' | b'X', ..] => (16, &text[2..]),
        [b'0', b'o' | b'O', ..] => (8, &text[2..]),
        [b'0', b'b' | b'B', ..] => (2, &text[2..]),
        _ => (10, text),
    }
}
