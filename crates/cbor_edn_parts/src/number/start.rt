//! The beginning of the number at a place of a text, which most numbers are all of.
ghost use Rattle.std.specs.Prelude.{◌≡◌, ◌≤◌, ◌+◌, ℕ, true, IsTrue, IfOk, IfSome, IsNone, Some, drop};
ghost use Rattle.std.specs.Str.{IsCharBoundary};
ghost use Rattle.cbor_edn_parts.specs.base.Bytes.{Follow};
ghost use Rattle.cbor_edn_parts.specs.Leaves.{number_bytes, BorrowsNumber};
ghost use Rattle.cbor_edn_parts.specs.internal.Lex.{token};
ghost use Rattle.cbor_edn_parts.specs.internal.NumberStarts.{IsStart, IsPastDigits, follows_at};
ghost use Rattle.cbor_edn_parts.specs.internal.NumberTokens as tokens;
ghost use Rattle.cbor_edn_parts.specs.internal.Scans.{IsRead, Comes, Scans, ScanLands, Costs};
ghost use Rattle.cbor_edn_parts.specs.internal.Input.{text_bytes};

use super::{Number, NumberState};
use crate::base::bytes::Kind;
use crate::base::error::Refusal;
use crate::base::input::Input;
use crate::base::leaf_text::LeafText;
use crate::base::looks::Looks;
use crate::base::scan::{State, token_end};

/// How far the scan of a number has come: behind a sign and a zero or other decimal digits, where these stand there.
#[derive(Clone, Copy)]
pub struct NumberStart {
    state: NumberState,
    /// The place of the byte in front of which the scan stands.
    pub at: usize,
    next: Option<u8>,
}

/// The beginning of the number at a place.
#[inline(always)]
pub fn number_start(text: &Input<'_>, from: usize, looks: &mut Looks) -> NumberStart
    requires { IsCharBoundary (text_bytes text.now) from }
    ensures start { IsStart (text_bytes text.now) from result }
    ensures sign { result.next ≡ Some 45 → result.state ≡ NumberState.Start → ⊥ }
    ensures digits { IsPastDigits result }
    ensures cost { looks.new.count + from ≡ looks.old.count + result.at + 1 }
{
    match text.byte(from, looks) {
        Some(b'-') => {
            let next = text.byte(from + 1, looks);
            unsigned_start(NumberState::Signed, text, from + 1, next, looks)
        }
        first => unsigned_start(NumberState::Start, text, from, first, looks),
    }
}

/// How a number begins behind its sign, or where it has none.
#[inline(always)]
fn unsigned_start(
    state: NumberState,
    text: &Input<'_>,
    from: usize,
    first: Option<u8>,
    looks: &mut Looks,
) -> NumberStart
    requires zero { tokens.number.step 48 state ≡ Some NumberState.AfterZero }
    requires digits { (c : ℕ) → 49 ≤ c → c ≤ 57 → tokens.number.step c state ≡ Some NumberState.DecimalDigits }
    requires begins { IsRead (text_bytes text.now) from first }
    ensures first { result.state ≡ NumberState.Start → (state ≡ NumberState.Start) × (result.next ≡ first) }
    ensures comes { Comes tokens.number (text_bytes text.now) state from result.state result.at }
    ensures read { IsRead (text_bytes text.now) result.at result.next }
    ensures digits { IsPastDigits result }
    ensures cost { looks.new.count + from ≡ looks.old.count + result.at }
{
    if is_leading_digit(first) {
        return behind_digits(text, from + 1, looks);
    }
    if is_zero(first) {
        let at = from + 1;
        let next = text.byte(at, looks);
        return NumberStart {
            state: NumberState::AfterZero,
            at,
            next,
        };
    }
    NumberStart {
        state,
        at: from,
        next: first,
    }
}

/// Where a scan stands behind decimal digits, the first of which is read.
#[inline(always)]
fn behind_digits(text: &Input<'_>, from: usize, looks: &mut Looks) -> NumberStart
    requires { IsCharBoundary (text_bytes text.now) from }
    ensures state { result.state ≡ NumberState.DecimalDigits }
    ensures comes { Comes tokens.number (text_bytes text.now) NumberState.DecimalDigits from result.state result.at }
    ensures read { IsRead (text_bytes text.now) result.at result.next }
    ensures digits { IsPastDigits result }
    ensures cost { looks.new.count + from ≡ looks.old.count + result.at + 1 }
{
    let mut at = from;
    let mut next = text.byte(at, looks);
    'digits: while is_digit(next) {
        at += 1;
        next = text.byte(at, looks);
    }
    NumberStart {
        state: NumberState::DecimalDigits,
        at,
        next,
    }
}

/// Whether a byte is a decimal digit.
fn is_digit(byte: Option<u8>) -> bool
    ensures digit { IsTrue result → (c : ℕ) × (byte ≡ Some c) × (48 ≤ c) × (c ≤ 57) }
    ensures other { (c : ℕ) → byte ≡ Some c → 48 ≤ c → c ≤ 57 → IsTrue result }
{
    matches!(byte, Some(b'0'..=b'9'))
}

/// Whether a byte is a decimal digit but zero.
fn is_leading_digit(byte: Option<u8>) -> bool
    ensures digit { IsTrue result → (c : ℕ) × (byte ≡ Some c) × (49 ≤ c) × (c ≤ 57) }
    ensures other { (c : ℕ) → byte ≡ Some c → 49 ≤ c → c ≤ 57 → IsTrue result }
{
    matches!(byte, Some(b'1'..=b'9'))
}

fn is_zero(byte: Option<u8>) -> bool
    ensures zero { IsTrue result → byte ≡ Some 48 }
    ensures other { byte ≡ Some 48 → IsTrue result }
{
    matches!(byte, Some(b'0'))
}

/// Whether nothing is there, or a byte that may stand behind an item.
#[inline(always)]
fn may_follow(byte: Option<u8>) -> bool
    ensures { result ≡ follows_at byte }
{
    match byte {
        Some(byte) => matches!(
            Kind::of(byte),
            Kind::Blank
                | Kind::Tab
                | Kind::Lf
                | Kind::Slash
                | Kind::Hash
                | Kind::Comma
                | Kind::Colon
                | Kind::Plus
                | Kind::Close
        ),
        None => true,
    }
}

impl NumberStart {
    /// The whole number, where it may end there and nothing follows, or what may stand behind an item. So it has no encoding indicator,
    /// and is no tag's.
    #[inline(always)]
    pub fn plain<'a>(self, text: &Input<'a>, from: usize) -> Option<Number<'a>>
        requires begins { IsCharBoundary (text_bytes text.now) from }
        requires start { IsStart (text_bytes text.now) from self }
        ensures some { IfSome result (λ n. token tokens.number (drop from (text_bytes text.now)) ≡ Some (number_bytes n, drop self.at (text_bytes text.now))) }
        ensures follow { IfSome result (λ _. Follow (drop self.at (text_bytes text.now))) }
        ensures borrowed { IfSome result BorrowsNumber }
        ensures none { IsNone result → tokens.number_final self.state ≡ true → Follow (drop self.at (text_bytes text.now)) → ⊥ }
    {
        if !self.state.is_final() {
            return None;
        }
        if !may_follow(self.next) {
            return None;
        }
        let text = LeafText::Borrowed(text.slice(from, self.at));
        Some(Number { text })
    }

    /// The longest number, and the place behind it. Refused as invalid where none stands there, at the byte that leads no further.
    pub fn number<'a>(
        self,
        text: &Input<'a>,
        from: usize,
        looks: &mut Looks,
    ) -> Result<(Number<'a>, usize), Refusal>
        requires begins { IsCharBoundary (text_bytes text.now) from }
        requires start { IsStart (text_bytes text.now) from self }
        ensures value { Scans number_bytes (text_bytes text.now) result (token tokens.number (drop from (text_bytes text.now))) }
        ensures borrowed { IfOk result (λ p. BorrowsNumber p.0) }
        ensures place { ScanLands (text_bytes text.now) from result }
        ensures cost { Costs 1 0 0 (text_bytes text.now) self.at looks.old.count looks.new.count result }
    {
        let (_, to) = token_end(self.state, text, self.at, self.next, looks)?;
        let text = LeafText::Borrowed(text.slice(from, to));
        Ok((Number { text }, to))
    }
}
