//! Strings of pieces, and those of indefinite length.
ghost use Rattle.std.specs.Prelude.{◌≡◌, ◌≤◌, ◌+◌, ◌∷◌, ◌<◌, None, true, drop, OnOk, IfOk, IfErr};
ghost use Rattle.std.specs.Str.{IsCharBoundary};
ghost use Rattle.cbor_edn_parts.specs.internal.Scans.{Costs};
ghost use Rattle.cbor_edn_parts.specs.internal.Input.{text_bytes};
ghost use Rattle.cbor_edn_core.specs.tree.Borrowed.{BorrowsItem, BorrowsPiece, BorrowsString, BorrowsStream, BorrowsStrings};
ghost use Rattle.cbor_edn_model.specs.tree.Items.{Strings as Chunks};
ghost use Rattle.cbor_edn_model.specs.internal.LookCosts.{a_byte, extra, refused_extra, list_extra, refused_stream_extra};
ghost use Rattle.cbor_edn_core.specs.internal.ParserResults.{Reads, Lands, ReadsEnd, LandsEnd, CostsEnd, CostsEndAhead, CostsAhead, IsUnclosed};
ghost use Rattle.cbor_edn_model.specs.internal.BytesAt.{IsByteAt};
ghost use Rattle.cbor_edn_model.specs.internal.Reading.{reads, stream_item, starts_string, keyword_at};
ghost use Rattle.cbor_edn_model.specs.tree.Trees.{OneItem, OnePiece, OneString, Rest};
ghost use Rattle.cbor_edn_core.specs.tree.View.{item_tree, view_piece, view_string, view_stream, view_strings};
ghost use Rattle.cbor_edn_model.specs.tree.TreeLeaves.{texts};

use super::entries::{push_entry, with_separator};
use super::sequences::sequence;
use crate::tree::{CborString, Item, Piece, Stream, Strings};
use cbor_edn_model::text::lookahead::{closes, is_at, joins};
use cbor_edn_parts::base::error::{Fault, ParseErrorKind, Refusal};
use cbor_edn_parts::base::indicator::indicator_at;
use cbor_edn_parts::base::input::Input;
use cbor_edn_parts::base::looks::Looks;
use cbor_edn_parts::base::row::append;
use cbor_edn_parts::space::{ItemEnd, space_at};
use cbor_edn_parts::string::{ellipsis_at, literal_at};
use std::alloc::Global;

/// A string of indefinite length with its parentheses.
#[cycle(item)]
#[inline(never)]
pub(super) fn stream_item<'a>(
    alloc: Global,
    text: &Input<'a>,
    from: usize,
    limit: usize,
    looks: &mut Looks,
) -> Result<(Item<'a>, ItemEnd), Fault<Refusal>>
    requires begins { IsCharBoundary (text_bytes text.now) from }
    requires opens { IsByteAt (text_bytes text.now) from 40 }
    ensures value { ReadsEnd item_tree (text_bytes text.now) result (reads limit OneItem (drop from (text_bytes text.now))) }
    ensures borrowed { IfOk result (λ p. BorrowsItem p.0) }
    ensures place { LandsEnd (text_bytes text.now) from result }
    ensures cost { CostsEnd a_byte list_extra refused_stream_extra (text_bytes text.now) (from + 1) looks.old.count looks.new.count result }
{
    let (stream, to) = stream(alloc, text, from + 1, limit, looks)?;
    let item = Item::stream(alloc, stream)?;
    Ok((item, ItemEnd::bare(to)))
}

/// A string.
#[cycle(item)]
#[inline(never)]
pub(super) fn string_item<'a>(
    alloc: Global,
    text: &Input<'a>,
    from: usize,
    limit: usize,
    looks: &mut Looks,
) -> Result<(Item<'a>, ItemEnd), Fault<Refusal>>
    requires begins { IsCharBoundary (text_bytes text.now) from }
    requires opens { (keyword_at (drop from (text_bytes text.now)) ≡ None) × (starts_string (drop from (text_bytes text.now)) ≡ true) }
    ensures value { ReadsEnd item_tree (text_bytes text.now) result (reads limit OneItem (drop from (text_bytes text.now))) }
    ensures borrowed { IfOk result (λ p. BorrowsItem p.0) }
    ensures place { LandsEnd (text_bytes text.now) from result }
    ensures cost { CostsEndAhead a_byte (extra OneString) (refused_extra OneString) (text_bytes text.now) from looks.old.count looks.new.count result }
{
    let (string, end) = string(alloc, text, from, limit, looks)?;
    let item = Item::string(alloc, string)?;
    Ok((item, end))
}

/// Strings, one or more, each with the space behind it.
#[cycle(item)]
fn strings<'a>(
    alloc: Global,
    text: &Input<'a>,
    from: usize,
    limit: usize,
    looks: &mut Looks,
) -> Result<(Strings<'a>, usize), Fault<Refusal>>
    requires { IsCharBoundary (text_bytes text.now) from }
    ensures value { Reads (view_strings texts) (text_bytes text.now) result (reads limit (Rest Chunks) (drop from (text_bytes text.now))) }
    ensures borrowed { IfOk result (λ p. BorrowsStrings p.0) }
    ensures place { Lands (text_bytes text.now) from result }
    ensures cost { Costs a_byte (extra (Rest Chunks)) (refused_extra (Rest Chunks)) (text_bytes text.now) from looks.old.count looks.new.count result }
{
    let mut row = Vec::new(alloc);
    let mut at = from;
    'strings: loop {
        let read = string(alloc, text, at, limit, looks)?;
        let (string, list_end, next) = with_separator(text, read, looks)?;
        if closes(text, next, looks) {
            let last = string;
            return Ok((
                Strings {
                    row,
                    last,
                    end: list_end,
                },
                next,
            ));
        }
        push_entry(&mut row, string, list_end, next)?;
        at = next;
    }
}

/// What stands behind the parenthesis that opens a string of indefinite length, to the one that closes it.
#[cycle(item)]
fn stream<'a>(
    alloc: Global,
    text: &Input<'a>,
    from: usize,
    limit: usize,
    looks: &mut Looks,
) -> Result<(Stream<'a>, usize), Fault<Refusal>>
    requires { IsCharBoundary (text_bytes text.now) from }
    ensures value { Reads (view_stream texts) (text_bytes text.now) result (stream_item reads limit (drop from (text_bytes text.now))) }
    ensures borrowed { IfOk result (λ p. BorrowsStream p.0) }
    ensures place { Lands (text_bytes text.now) from result }
    ensures cost { Costs a_byte list_extra refused_stream_extra (text_bytes text.now) from looks.old.count looks.new.count result }
{
    if !is_at(text, from, b'_', looks) {
        return Err(Fault::Told(Refusal::invalid(from)));
    }
    let (space, at) = space_at(text, from + 1, looks)?;
    let Some(space) = space.into_mandatory() else {
        return Err(Fault::Told(Refusal::invalid(at)));
    };
    let (strings, to) = strings(alloc, text, at, limit, looks)?;
    if !is_at(text, to, b')', looks) {
        return Err(Fault::Told(Refusal::invalid(to)));
    }
    Ok((Stream { space, strings }, to + 1))
}

/// Pieces, one or more, joined by plus signs. The space behind the last one is read.
#[cycle(item)]
#[inline(always)]
fn string<'a>(
    alloc: Global,
    text: &Input<'a>,
    from: usize,
    limit: usize,
    looks: &mut Looks,
) -> Result<(CborString<'a>, ItemEnd), Fault<Refusal>>
    requires { IsCharBoundary (text_bytes text.now) from }
    ensures value { ReadsEnd (view_string texts) (text_bytes text.now) result (reads limit OneString (drop from (text_bytes text.now))) }
    ensures borrowed { IfOk result (λ p. BorrowsString p.0) }
    ensures place { LandsEnd (text_bytes text.now) from result }
    ensures cost { CostsEndAhead a_byte (extra OneString) (refused_extra OneString) (text_bytes text.now) from looks.old.count looks.new.count result }
{
    let mut row = Vec::new(alloc);
    let mut at = from;
    'pieces: loop {
        let (piece, behind) = piece(alloc, text, at, limit, looks)?;
        let (before, to) = space_at(text, behind, looks)?;
        if !joins(text, to, looks) {
            let end = ItemEnd {
                at: behind,
                space: Some(to),
            };
            return Ok((CborString { row, last: piece }, end));
        }
        let (after, next) = space_at(text, to + 1, looks)?;
        append(&mut row, (piece, before, after))?;
        at = next;
    }
}

/// A piece of a string.
#[cycle(item)]
#[inline(always)]
fn piece<'a>(
    alloc: Global,
    text: &Input<'a>,
    from: usize,
    limit: usize,
    looks: &mut Looks,
) -> Result<(Piece<'a>, usize), Fault<Refusal>>
    requires { IsCharBoundary (text_bytes text.now) from }
    ensures value { Reads (view_piece texts) (text_bytes text.now) result (reads limit OnePiece (drop from (text_bytes text.now))) }
    ensures borrowed { IfOk result (λ p. BorrowsPiece p.0) }
    ensures place { Lands (text_bytes text.now) from result }
    ensures cost { CostsAhead a_byte (extra OnePiece) (refused_extra OnePiece) (text_bytes text.now) from looks.old.count looks.new.count result }
{
    if is_at(text, from, b'<', looks) {
        return embedded_piece(alloc, text, from, limit, looks);
    }
    if is_at(text, from, b'.', looks) {
        let (ellipsis, to) = ellipsis_at(text, from, looks)?;
        return Ok((Piece::Ellipsis(ellipsis), to));
    }
    let (literal, at) = literal_at(text, from, looks)?;
    let (indicator, to) = indicator_at(text, at, looks);
    Ok((Piece::Literal(indicator, literal), to))
}

/// A sequence between `<<` and `>>`, and its indicator.
#[cycle(item)]
#[inline(never)]
fn embedded_piece<'a>(
    alloc: Global,
    text: &Input<'a>,
    from: usize,
    limit: usize,
    looks: &mut Looks,
) -> Result<(Piece<'a>, usize), Fault<Refusal>>
    requires begins { IsCharBoundary (text_bytes text.now) from }
    requires opens { IsByteAt (text_bytes text.now) from 60 }
    ensures value { Reads (view_piece texts) (text_bytes text.now) result (reads limit OnePiece (drop from (text_bytes text.now))) }
    ensures borrowed { IfOk result (λ p. BorrowsPiece p.0) }
    ensures place { Lands (text_bytes text.now) from result }
    ensures cost { Costs a_byte (extra OnePiece) (refused_extra OnePiece) (text_bytes text.now) (from + 1) looks.old.count looks.new.count result }
{
    if !is_at(text, from + 1, b'<', looks) {
        return Err(Fault::Told(Refusal::invalid(from + 1)));
    }
    if limit == 0 {
        return Err(Fault::Told(Refusal::too_deep(from)));
    }
    let (sequence, at) = sequence(alloc, text, from + 2, limit - 1, looks)?;
    let at = embedded_end(text, at, looks)?;
    let (indicator, to) = indicator_at(text, at, looks);
    let sequence = Box::new(alloc, sequence)?;
    Ok((Piece::Embedded(indicator, sequence), to))
}

/// The place behind `>>`.
fn embedded_end(text: &Input<'_>, at: usize, looks: &mut Looks) -> Result<usize, Refusal>
    requires { IsCharBoundary (text_bytes text.now) at }
    ensures yes { IfOk result (λ to. (to ≡ at + 2) × (drop at (text_bytes text.now) ≡ 62 ∷ 62 ∷ drop to (text_bytes text.now)) × IsCharBoundary (text_bytes text.now) to) }
    ensures no { IfErr result (λ r. (r.kind ≡ ParseErrorKind.Invalid) × IsCharBoundary (text_bytes text.now) r.offset × IsUnclosed (drop at (text_bytes text.now))) }
    ensures count { (looks.old.count < looks.new.count) × (looks.new.count ≤ looks.old.count + 2) }
    ensures least { OnOk result (looks.new.count ≡ looks.old.count + 2) }
{
    if !is_at(text, at, b'>', looks) {
        return Err(Refusal::invalid(at));
    }
    if !is_at(text, at + 1, b'>', looks) {
        return Err(Refusal::invalid(at + 1));
    }
    Ok(at + 2)
}
