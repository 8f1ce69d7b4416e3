//! Space texts at a place of a text.
ghost use Rattle.std.specs.Prelude.{◌≡◌, ◌+◌, ◌<◌, ◌≤◌, IfOk, IfSome, None, drop, false};
ghost use Rattle.std.specs.Str.{IsCharBoundary};
ghost use Rattle.cbor_edn_parts.specs.internal.Lex.{token};
ghost use Rattle.cbor_edn_parts.specs.Leaves.{space_bytes, list_end_bytes, BorrowsSpace, BorrowsListEnd};
ghost use Rattle.cbor_edn_parts.specs.internal.Ends.{IsEnd, reached};
ghost use Rattle.cbor_edn_parts.specs.internal.Blanks.{is_blank_at, begins_comment_at};
ghost use Rattle.cbor_edn_parts.specs.internal.Scans.{IsRead, Comes, Ends, Scans, ScanLands, Costs};
ghost use Rattle.cbor_edn_parts.specs.internal.SpaceTokens as tokens;
ghost use Rattle.cbor_edn_parts.specs.internal.Input.{text_bytes};

use super::comments::is_blank;
use super::{ListEnd, Space, SpaceState};
use crate::base::error::Refusal;
use crate::base::input::Input;
use crate::base::leaf_text::LeafText;
use crate::base::looks::Looks;
use crate::base::scan::token_end;

/// The optional space at a place, and the place behind it.
#[inline(always)]
pub fn space_at<'a>(
    text: &Input<'a>,
    from: usize,
    looks: &mut Looks,
) -> Result<(Space<'a>, usize), Refusal>
    requires { IsCharBoundary (text_bytes text.now) from }
    ensures value { Scans space_bytes (text_bytes text.now) result (token tokens.space (drop from (text_bytes text.now))) }
    ensures borrowed { IfOk result (λ p. BorrowsSpace p.0) }
    ensures place { ScanLands (text_bytes text.now) from result }
    ensures cost { Costs 1 1 1 (text_bytes text.now) from looks.old.count looks.new.count result }
{
    let (_, to) = space_end(text, from, looks)?;
    let text = LeafText::Borrowed(text.slice(from, to));
    Ok((Space { text }, to))
}

/// The byte behind the optional space at a place, and the place of that byte. Most space has no comment.
#[inline(always)]
fn space_end(
    text: &Input<'_>,
    from: usize,
    looks: &mut Looks,
) -> Result<(Option<u8>, usize), Refusal>
    requires { IsCharBoundary (text_bytes text.now) from }
    ensures value { Ends (text_bytes text.now) from result (token tokens.space (drop from (text_bytes text.now))) }
    ensures place { ScanLands (text_bytes text.now) from result }
    ensures cost { Costs 1 1 1 (text_bytes text.now) from looks.old.count looks.new.count result }
    ensures behind { IfOk result (λ p. looks.old.count + p.1 + 1 ≤ looks.new.count + from) }
{
    let (next, at) = blanks(text, from, looks);
    if is_comment_there(next) {
        return comments_end(text, at, next, looks);
    }
    Ok((next, at))
}

/// The byte behind comments and blanks, from a place whose byte is read, and the place of that byte.
#[inline(never)]
fn comments_end(
    text: &Input<'_>,
    from: usize,
    first: Option<u8>,
    looks: &mut Looks,
) -> Result<(Option<u8>, usize), Refusal>
    requires { IsRead (text_bytes text.now) from first }
    ensures value { Ends (text_bytes text.now) from result (token tokens.space (drop from (text_bytes text.now))) }
    ensures place { ScanLands (text_bytes text.now) from result }
    ensures cost { Costs 1 0 0 (text_bytes text.now) from looks.old.count looks.new.count result }
{
    token_end(SpaceState::Between, text, from, first, looks)
}

/// The first byte at a place that is no blank, and its place.
#[inline(always)]
fn blanks(text: &Input<'_>, from: usize, looks: &mut Looks) -> (Option<u8>, usize)
    requires { IsCharBoundary (text_bytes text.now) from }
    ensures comes { Comes tokens.space (text_bytes text.now) SpaceState.Between from SpaceState.Between result.1 }
    ensures read { IsRead (text_bytes text.now) result.1 result.0 }
    ensures other { is_blank_at result.0 ≡ false }
    ensures cost { looks.new.count + from ≡ looks.old.count + result.1 + 1 }
{
    let mut at = from;
    let mut next = text.byte(at, looks);
    'blanks: while is_blank_there(next) {
        at += 1;
        next = text.byte(at, looks);
    }
    (next, at)
}

fn is_blank_there(byte: Option<u8>) -> bool
    ensures blank { result ≡ is_blank_at byte }
    ensures byte { IfSome byte (λ c. c < 256) }
{
    match byte {
        Some(byte) => is_blank(byte),
        None => false,
    }
}

fn is_comment_there(byte: Option<u8>) -> bool
    ensures { result ≡ begins_comment_at byte }
{
    matches!(byte, Some(b'/' | b'#'))
}

/// Where an item ends, and where the space behind it does, if that is read.
#[derive(Clone, Copy)]
pub struct ItemEnd {
    /// The place behind the item, in bytes.
    pub at: usize,
    /// The place behind the optional space that follows the item, in bytes, if it is known.
    pub space: Option<usize>,
}

impl ItemEnd {
    /// The end of an item behind which no space is read.
    pub fn bare(at: usize) -> ItemEnd
        ensures { result ≡ record { at = at; space = None } }
    {
        ItemEnd { at, space: None }
    }
}

/// The byte behind the optional space that follows an item, and the place of that byte. Space that is read is not read again.
#[inline(always)]
fn end_of_space(
    text: &Input<'_>,
    end: ItemEnd,
    looks: &mut Looks,
) -> Result<(Option<u8>, usize), Refusal>
    requires { IsEnd (text_bytes text.now) end }
    ensures value { Ends (text_bytes text.now) end.at result (token tokens.space (drop end.at (text_bytes text.now))) }
    ensures order { IfOk result (λ p. end.at ≤ p.1) }
    ensures place { ScanLands (text_bytes text.now) (reached end) result }
    ensures cost { Costs 1 1 1 (text_bytes text.now) (reached end) looks.old.count looks.new.count result }
    ensures behind { IfOk result (λ p. looks.old.count + p.1 + 1 ≤ looks.new.count + reached end) }
{
    match end.space {
        None => space_end(text, end.at, looks),
        Some(at) => Ok((text.byte(at, looks), at)),
    }
}

/// The optional space behind an item, and the place behind it.
#[inline(always)]
pub fn space_behind<'a>(
    text: &Input<'a>,
    end: ItemEnd,
    looks: &mut Looks,
) -> Result<(Space<'a>, usize), Refusal>
    requires { IsEnd (text_bytes text.now) end }
    ensures value { Scans space_bytes (text_bytes text.now) result (token tokens.space (drop end.at (text_bytes text.now))) }
    ensures borrowed { IfOk result (λ p. BorrowsSpace p.0) }
    ensures place { ScanLands (text_bytes text.now) (reached end) result }
    ensures cost { Costs 1 1 1 (text_bytes text.now) (reached end) looks.old.count looks.new.count result }
{
    let (_, to) = end_of_space(text, end, looks)?;
    let text = LeafText::Borrowed(text.slice(end.at, to));
    Ok((Space { text }, to))
}

/// The space with at most one comma behind an item, and the place behind it.
#[inline(always)]
pub fn separator_behind<'a>(
    text: &Input<'a>,
    end: ItemEnd,
    looks: &mut Looks,
) -> Result<(ListEnd<'a>, usize), Refusal>
    requires { IsEnd (text_bytes text.now) end }
    ensures value { Scans list_end_bytes (text_bytes text.now) result (token tokens.separator (drop end.at (text_bytes text.now))) }
    ensures borrowed { IfOk result (λ p. BorrowsListEnd p.0) }
    ensures place { ScanLands (text_bytes text.now) (reached end) result }
    ensures cost { Costs 1 2 2 (text_bytes text.now) (reached end) looks.old.count looks.new.count result }
{
    let (next, at) = end_of_space(text, end, looks)?;
    let to = match next {
        Some(b',') => space_end(text, at + 1, looks)?.1,
        _ => at,
    };
    let text = LeafText::Borrowed(text.slice(end.at, to));
    Ok((ListEnd { text }, to))
}
