//! The literal and the dots at a place of a text.
ghost use Rattle.std.specs.Prelude.{◌≡◌, ◌+◌, ◌<◌, IsTrue, IfOk, IfSome, Some, drop, false};
ghost use Rattle.std.specs.Str.{IsCharBoundary};
ghost use Rattle.cbor_edn_parts.specs.internal.Lex.{token};
ghost use Rattle.cbor_edn_parts.specs.Leaves.{literal_bytes, ellipsis_bytes, BorrowsLiteral, BorrowsEllipsis};
ghost use Rattle.cbor_edn_parts.specs.internal.LiteralTokens as tokens;
ghost use Rattle.cbor_edn_parts.specs.internal.PlainTexts.{in_text, is_plain_at};
ghost use Rattle.cbor_edn_parts.specs.internal.Scans.{IsRead, Comes, Scans, ScanLands, Costs};
ghost use Rattle.cbor_edn_parts.specs.internal.Input.{text_bytes};

use super::{Ellipsis, EllipsisState, Literal, LiteralState, Quote, QuotedState};
use crate::base::error::Refusal;
use crate::base::input::Input;
use crate::base::leaf_text::LeafText;
use crate::base::looks::Looks;
use crate::base::scan::{scan, token_end};

/// The literal at a place, and the place behind it. Refused as invalid where none stands there, at the byte that leads no further.
#[inline(always)]
pub fn literal_at<'a>(
    text: &Input<'a>,
    from: usize,
    looks: &mut Looks,
) -> Result<(Literal<'a>, usize), Refusal>
    requires { IsCharBoundary (text_bytes text.now) from }
    ensures value { Scans literal_bytes (text_bytes text.now) result (token tokens.literal (drop from (text_bytes text.now))) }
    ensures borrowed { IfOk result (λ p. BorrowsLiteral p.0) }
    ensures place { ScanLands (text_bytes text.now) from result }
    ensures cost { Costs 1 1 1 (text_bytes text.now) from looks.old.count looks.new.count result }
{
    let first = text.byte(from, looks);
    if !is_double_quote(first) {
        return literal_behind(LiteralState::Start, text, from, from, first, looks);
    }
    let (next, at) = plain_end(text, from + 1, looks);
    if !is_double_quote(next) {
        let state = LiteralState::Inside(Quote::Double, QuotedState::Between);
        return literal_behind(state, text, from, at, next, looks);
    }
    let to = at + 1;
    let text = LeafText::Borrowed(text.slice(from, to));
    Ok((Literal { text }, to))
}

/// The literal whose scan has come so far, and the place behind it.
#[inline(never)]
fn literal_behind<'a>(
    state: LiteralState,
    text: &Input<'a>,
    from: usize,
    at: usize,
    next: Option<u8>,
    looks: &mut Looks,
) -> Result<(Literal<'a>, usize), Refusal>
    requires begins { IsCharBoundary (text_bytes text.now) from }
    requires comes { Comes tokens.literal (text_bytes text.now) LiteralState.Start from state at }
    requires read { IsRead (text_bytes text.now) at next }
    ensures value { Scans literal_bytes (text_bytes text.now) result (token tokens.literal (drop from (text_bytes text.now))) }
    ensures borrowed { IfOk result (λ p. BorrowsLiteral p.0) }
    ensures place { ScanLands (text_bytes text.now) from result }
    ensures cost { Costs 1 0 0 (text_bytes text.now) at looks.old.count looks.new.count result }
{
    let (_, to) = token_end(state, text, at, next, looks)?;
    let text = LeafText::Borrowed(text.slice(from, to));
    Ok((Literal { text }, to))
}

/// The first byte of a text between double quotes that does not stand for itself, and its place.
#[inline(always)]
fn plain_end(text: &Input<'_>, from: usize, looks: &mut Looks) -> (Option<u8>, usize)
    requires { IsCharBoundary (text_bytes text.now) from }
    ensures comes { Comes tokens.literal (text_bytes text.now) in_text from in_text result.1 }
    ensures read { IsRead (text_bytes text.now) result.1 result.0 }
    ensures other { is_plain_at result.0 ≡ false }
    ensures cost { looks.new.count + from ≡ looks.old.count + result.1 + 1 }
{
    let mut at = from;
    let mut next = text.byte(at, looks);
    'plain: while is_plain(next) {
        at += 1;
        next = text.byte(at, looks);
    }
    (next, at)
}

fn is_double_quote(byte: Option<u8>) -> bool
    ensures quote { IsTrue result → byte ≡ Some 34 }
    ensures other { byte ≡ Some 34 → IsTrue result }
{
    matches!(byte, Some(b'"'))
}

/// Whether a byte between double quotes stands for itself.
fn is_plain(byte: Option<u8>) -> bool
    ensures plain { result ≡ is_plain_at byte }
    ensures byte { IfSome byte (λ c. c < 256) }
{
    match byte {
        Some(byte) => Quote::Double.is_plain(byte),
        None => false,
    }
}

/// The dots at a place, all that stand there, and the place behind them. Refused as invalid where fewer than three stand there.
pub fn ellipsis_at<'a>(
    text: &Input<'a>,
    from: usize,
    looks: &mut Looks,
) -> Result<(Ellipsis<'a>, usize), Refusal>
    requires { IsCharBoundary (text_bytes text.now) from }
    ensures value { Scans ellipsis_bytes (text_bytes text.now) result (token tokens.ellipsis (drop from (text_bytes text.now))) }
    ensures borrowed { IfOk result (λ p. BorrowsEllipsis p.0) }
    ensures place { ScanLands (text_bytes text.now) from result }
    ensures cost { Costs 1 1 1 (text_bytes text.now) from looks.old.count looks.new.count result }
{
    let (text, to) = scan(EllipsisState::None, text, from, looks)?;
    let text = LeafText::Borrowed(text);
    Ok((Ellipsis { text }, to))
}
