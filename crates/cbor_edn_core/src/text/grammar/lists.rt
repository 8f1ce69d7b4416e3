//! Arrays, and rows of items.
ghost use Rattle.std.specs.Prelude.{◌+◌, drop, IfOk};
ghost use Rattle.std.specs.Str.{IsCharBoundary};
ghost use Rattle.cbor_edn_parts.specs.internal.Scans.{Costs};
ghost use Rattle.cbor_edn_parts.specs.internal.Input.{text_bytes};
ghost use Rattle.cbor_edn_core.specs.tree.Borrowed.{BorrowsItem, BorrowsList, BorrowsItems};
ghost use Rattle.cbor_edn_model.specs.tree.Items.{Elements, Array as Bracket};
ghost use Rattle.cbor_edn_model.specs.internal.LookCosts.{a_byte, extra, refused_extra, list_extra};
ghost use Rattle.cbor_edn_core.specs.internal.ParserResults.{Reads, Lands, ReadsEnd, LandsEnd, CostsEnd};
ghost use Rattle.cbor_edn_model.specs.internal.BytesAt.{IsByteAt};
ghost use Rattle.cbor_edn_model.specs.internal.Reading.{reads};
ghost use Rattle.cbor_edn_model.specs.tree.Trees.{OneItem, Inside, Rest};
ghost use Rattle.cbor_edn_core.specs.tree.View.{item_tree, view_list, view_items};
ghost use Rattle.cbor_edn_model.specs.tree.TreeLeaves.{texts};

use super::entries::{Behind, behind_entry};
use super::items::item;
use crate::tree::{Item, ItemList, Items};
use cbor_edn_model::text::lookahead::{closes, is_at, list_head_and_space};
use cbor_edn_parts::base::error::{Fault, Refusal};
use cbor_edn_parts::base::indicator::indicator_at;
use cbor_edn_parts::base::input::Input;
use cbor_edn_parts::base::looks::Looks;
use cbor_edn_parts::base::row::drop_out_of_line;
use cbor_edn_parts::space::{ItemEnd, space_at};
use std::alloc::Global;

/// An array with its brackets.
#[cycle(item)]
#[inline(never)]
pub(super) fn array_item<'a>(
    alloc: Global,
    text: &Input<'a>,
    from: usize,
    limit: usize,
    looks: &mut Looks,
) -> Result<(Item<'a>, ItemEnd), Fault<Refusal>>
    requires begins { IsCharBoundary (text_bytes text.now) from }
    requires opens { IsByteAt (text_bytes text.now) from 91 }
    ensures value { ReadsEnd item_tree (text_bytes text.now) result (reads limit OneItem (drop from (text_bytes text.now))) }
    ensures borrowed { IfOk result (λ p. BorrowsItem p.0) }
    ensures place { LandsEnd (text_bytes text.now) from result }
    ensures cost { CostsEnd a_byte list_extra (refused_extra (Inside Bracket)) (text_bytes text.now) (from + 1) looks.old.count looks.new.count result }
{
    if limit == 0 {
        return Err(Fault::Told(Refusal::too_deep(from)));
    }
    let (list, to) = array(alloc, text, from + 1, limit - 1, looks)?;
    if !is_at(text, to, b']', looks) {
        return Err(Fault::Told(Refusal::invalid(to)));
    }
    let item = Item::array(alloc, list)?;
    Ok((item, ItemEnd::bare(to + 1)))
}

/// What stands between the brackets of an array.
#[cycle(item)]
fn array<'a>(
    alloc: Global,
    text: &Input<'a>,
    from: usize,
    limit: usize,
    looks: &mut Looks,
) -> Result<(ItemList<'a>, usize), Fault<Refusal>>
    requires { IsCharBoundary (text_bytes text.now) from }
    ensures value { Reads (view_list texts) (text_bytes text.now) result (reads limit (Inside Bracket) (drop from (text_bytes text.now))) }
    ensures borrowed { IfOk result (λ p. BorrowsList p.0) }
    ensures place { Lands (text_bytes text.now) from result }
    ensures cost { Costs a_byte (extra (Inside Bracket)) (refused_extra (Inside Bracket)) (text_bytes text.now) from looks.old.count looks.new.count result }
{
    let (indicator, at) = indicator_at(text, from, looks);
    let (space, at) = space_at(text, at, looks)?;
    if closes(text, at, looks) {
        return Ok((ItemList::Absent { indicator, space }, at));
    }
    let Some((head, space)) = list_head_and_space(indicator, space) else {
        return Err(Fault::Told(Refusal::invalid(at)));
    };
    let (items, to) = items(alloc, text, at, limit, looks)?;
    Ok((ItemList::Present { head, space, items }, to))
}

/// Items, one or more, each with the space behind it.
#[cycle(item)]
#[inline(always)]
pub(super) fn items<'a>(
    alloc: Global,
    text: &Input<'a>,
    from: usize,
    limit: usize,
    looks: &mut Looks,
) -> Result<(Items<'a>, usize), Fault<Refusal>>
    requires { IsCharBoundary (text_bytes text.now) from }
    ensures value { Reads (view_items texts) (text_bytes text.now) result (reads limit (Rest Elements) (drop from (text_bytes text.now))) }
    ensures borrowed { IfOk result (λ p. BorrowsItems p.0) }
    ensures place { Lands (text_bytes text.now) from result }
    ensures cost { Costs a_byte (extra (Rest Elements)) (refused_extra (Rest Elements)) (text_bytes text.now) from looks.old.count looks.new.count result }
{
    let mut row = Vec::new(alloc);
    let mut at = from;
    'items: loop {
        let (item, end) = item(alloc, text, at, limit, looks)?;
        let behind = match behind_entry(text, end, &mut row, looks) {
            Ok(behind) => behind,
            Err(fault) => {
                drop_out_of_line(item);
                return Err(fault);
            }
        };
        match behind {
            Behind::Last(list_end, next) => {
                let last = item;
                return Ok((
                    Items {
                        row,
                        last,
                        end: list_end,
                    },
                    next,
                ));
            }
            Behind::More(separator, next) => {
                row.push_reserved((item, separator));
                at = next;
            }
        }
    }
}
