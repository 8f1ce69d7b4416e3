//! Maps, and rows of pairs.
ghost use Rattle.std.specs.Prelude.{◌+◌, drop, IfOk};
ghost use Rattle.std.specs.Str.{IsCharBoundary};
ghost use Rattle.cbor_edn_parts.specs.internal.Scans.{Costs};
ghost use Rattle.cbor_edn_parts.specs.Leaves.{space_bytes, BorrowsSpace};
ghost use Rattle.cbor_edn_parts.specs.internal.Input.{text_bytes};
ghost use Rattle.cbor_edn_core.specs.tree.Borrowed.{BorrowsItem, BorrowsPair, BorrowsPairList, BorrowsPairs};
ghost use Rattle.cbor_edn_model.specs.tree.Items.{Pairs as Keyed, Map as Brace};
ghost use Rattle.cbor_edn_model.specs.internal.LookCosts.{a_byte, extra, refused_extra, list_extra, value_extra, refused_value_extra};
ghost use Rattle.cbor_edn_core.specs.internal.ParserResults.{Reads, Lands, ReadsEnd, LandsEnd, CostsEnd, behind_colon};
ghost use Rattle.cbor_edn_model.specs.internal.BytesAt.{IsByteAt};
ghost use Rattle.cbor_edn_model.specs.internal.Reading.{reads};
ghost use Rattle.cbor_edn_model.specs.tree.Trees.{OneItem, OneEntry, Inside, Rest};
ghost use Rattle.cbor_edn_core.specs.tree.View.{item_tree, view_pair, view_pair_list, view_pairs};
ghost use Rattle.cbor_edn_model.specs.tree.TreeLeaves.{texts};

use super::entries::{Behind, behind_entry};
use super::items::item;
use crate::tree::{Item, Pair, PairList, Pairs};
use cbor_edn_model::text::lookahead::{closes, is_at, list_head_and_space};
use cbor_edn_parts::base::error::{Fault, Refusal};
use cbor_edn_parts::base::indicator::indicator_at;
use cbor_edn_parts::base::input::Input;
use cbor_edn_parts::base::looks::Looks;
use cbor_edn_parts::base::row::drop_out_of_line;
use cbor_edn_parts::space::{ItemEnd, Space, space_at, space_behind};
use std::alloc::Global;

/// A map with its braces.
#[cycle(item)]
#[inline(never)]
pub(super) fn map_item<'a>(
    alloc: Global,
    text: &Input<'a>,
    from: usize,
    limit: usize,
    looks: &mut Looks,
) -> Result<(Item<'a>, ItemEnd), Fault<Refusal>>
    requires begins { IsCharBoundary (text_bytes text.now) from }
    requires opens { IsByteAt (text_bytes text.now) from 123 }
    ensures value { ReadsEnd item_tree (text_bytes text.now) result (reads limit OneItem (drop from (text_bytes text.now))) }
    ensures borrowed { IfOk result (λ p. BorrowsItem p.0) }
    ensures place { LandsEnd (text_bytes text.now) from result }
    ensures cost { CostsEnd a_byte list_extra (refused_extra (Inside Brace)) (text_bytes text.now) (from + 1) looks.old.count looks.new.count result }
{
    if limit == 0 {
        return Err(Fault::Told(Refusal::too_deep(from)));
    }
    let (list, to) = map(alloc, text, from + 1, limit - 1, looks)?;
    if !is_at(text, to, b'}', looks) {
        return Err(Fault::Told(Refusal::invalid(to)));
    }
    let item = Item::map(alloc, list)?;
    Ok((item, ItemEnd::bare(to + 1)))
}

/// What stands between the braces of a map.
#[cycle(item)]
fn map<'a>(
    alloc: Global,
    text: &Input<'a>,
    from: usize,
    limit: usize,
    looks: &mut Looks,
) -> Result<(PairList<'a>, usize), Fault<Refusal>>
    requires { IsCharBoundary (text_bytes text.now) from }
    ensures value { Reads (view_pair_list texts) (text_bytes text.now) result (reads limit (Inside Brace) (drop from (text_bytes text.now))) }
    ensures borrowed { IfOk result (λ p. BorrowsPairList p.0) }
    ensures place { Lands (text_bytes text.now) from result }
    ensures cost { Costs a_byte (extra (Inside Brace)) (refused_extra (Inside Brace)) (text_bytes text.now) from looks.old.count looks.new.count result }
{
    let (indicator, at) = indicator_at(text, from, looks);
    let (space, at) = space_at(text, at, looks)?;
    if closes(text, at, looks) {
        return Ok((PairList::Absent { indicator, space }, at));
    }
    let Some((head, space)) = list_head_and_space(indicator, space) else {
        return Err(Fault::Told(Refusal::invalid(at)));
    };
    let (pairs, to) = pairs(alloc, text, at, limit, looks)?;
    Ok((PairList::Present { head, space, pairs }, to))
}

/// Pairs, one or more, each with the space behind it.
#[cycle(item)]
fn pairs<'a>(
    alloc: Global,
    text: &Input<'a>,
    from: usize,
    limit: usize,
    looks: &mut Looks,
) -> Result<(Pairs<'a>, usize), Fault<Refusal>>
    requires { IsCharBoundary (text_bytes text.now) from }
    ensures value { Reads (view_pairs texts) (text_bytes text.now) result (reads limit (Rest Keyed) (drop from (text_bytes text.now))) }
    ensures borrowed { IfOk result (λ p. BorrowsPairs p.0) }
    ensures place { Lands (text_bytes text.now) from result }
    ensures cost { Costs a_byte (extra (Rest Keyed)) (refused_extra (Rest Keyed)) (text_bytes text.now) from looks.old.count looks.new.count result }
{
    let mut row = Vec::new(alloc);
    let mut at = from;
    'pairs: loop {
        let (pair, end) = pair(alloc, text, at, limit, looks)?;
        let behind = match behind_entry(text, end, &mut row, looks) {
            Ok(behind) => behind,
            Err(fault) => {
                drop_out_of_line(pair);
                return Err(fault);
            }
        };
        match behind {
            Behind::Last(list_end, next) => {
                let last = pair;
                return Ok((
                    Pairs {
                        row,
                        last,
                        end: list_end,
                    },
                    next,
                ));
            }
            Behind::More(separator, next) => {
                row.push_reserved((pair, separator));
                at = next;
            }
        }
    }
}

/// A key, a colon and a value.
#[cycle(item)]
fn pair<'a>(
    alloc: Global,
    text: &Input<'a>,
    from: usize,
    limit: usize,
    looks: &mut Looks,
) -> Result<(Pair<'a>, ItemEnd), Fault<Refusal>>
    requires { IsCharBoundary (text_bytes text.now) from }
    ensures value { ReadsEnd (view_pair texts) (text_bytes text.now) result (reads limit (OneEntry Keyed) (drop from (text_bytes text.now))) }
    ensures borrowed { IfOk result (λ p. BorrowsPair p.0) }
    ensures place { LandsEnd (text_bytes text.now) from result }
    ensures cost { CostsEnd a_byte (extra (OneEntry Keyed)) (refused_extra (OneEntry Keyed)) (text_bytes text.now) from looks.old.count looks.new.count result }
{
    let (key, end) = item(alloc, text, from, limit, looks)?;
    let (before_colon, at) = space_behind(text, end, looks)?;
    if !is_at(text, at, b':', looks) {
        return Err(Fault::Told(Refusal::invalid(at)));
    }
    pair_of_key(alloc, text, at + 1, limit, key, before_colon, looks)
}

/// The pair of a key, with the value behind the colon.
#[cycle(item)]
fn pair_of_key<'a>(
    alloc: Global,
    text: &Input<'a>,
    from: usize,
    limit: usize,
    key: Item<'a>,
    before_colon: Space<'a>,
    looks: &mut Looks,
) -> Result<(Pair<'a>, ItemEnd), Fault<Refusal>>
    requires { IsCharBoundary (text_bytes text.now) from }
    ensures value { ReadsEnd (view_pair texts) (text_bytes text.now) result (behind_colon limit (item_tree key.entry) (space_bytes before_colon.entry) (drop from (text_bytes text.now))) }
    ensures borrowed { BorrowsItem key.entry → BorrowsSpace before_colon.entry → IfOk result (λ p. BorrowsPair p.0) }
    ensures place { LandsEnd (text_bytes text.now) from result }
    ensures cost { CostsEnd a_byte value_extra refused_value_extra (text_bytes text.now) from looks.old.count looks.new.count result }
{
    let (after_colon, at) = space_at(text, from, looks)?;
    let (value, end) = item(alloc, text, at, limit, looks)?;
    Ok((
        Pair {
            key,
            before_colon,
            after_colon,
            value,
        },
        end,
    ))
}
