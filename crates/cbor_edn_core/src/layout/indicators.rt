//! Removal of encoding indicators.
ghost use Rattle.std.specs.Prelude.{◌≡◌, map, IfErr, OnOk};
ghost use Rattle.cbor_edn_model.specs.layout.Bare as bare;
ghost use Rattle.cbor_edn_model.specs.layout.Bare.{without_indicators};
ghost use Rattle.cbor_edn_model.specs.layout.Fewer.{Fewer};
ghost use Rattle.cbor_edn_model.specs.tree.Trees as definition;
ghost use Rattle.cbor_edn_model.specs.tree.Trees.{items};
ghost use Rattle.cbor_edn_core.specs.tree.View.{view_list, view_items, seen, view_pair_list, view_pairs, view_pair, seen_pair, view_string, view_piece, seen_piece, view_stream, view_strings, seen_string, item_tree, standalone_tree, sequence_tree};
ghost use Rattle.cbor_edn_model.specs.tree.TreeLeaves.{texts};
ghost use Rattle.cbor_edn_model.specs.internal.LayoutRows.{entry_without_indicators, piece_without_indicators};
ghost use Rattle.cbor_edn_model.specs.internal.IndicatorRemoval.{FewerInside, FewerEntries, headless, opener_gone};

use crate::tree::{
    CborString, InnerItem, Item, ItemList, Items, Pair, PairList, Pairs, Piece, Sequence,
    StandaloneItem, Stream, Strings,
};
use cbor_edn_model::text::list_head::ListHead;
use cbor_edn_parts::space::{Separator, Space};
use std::alloc::{AllocError, Global};

impl<'a> Item<'a> {
    /// Takes every encoding indicator away but those inside embedded sequences; `(_` of a stream stays. Where the item meant a
    /// value, it means one that is the same but for its heads, and these are the shortest (`laws::bare_items`). Fails where
    /// memory runs out; some indicators may be gone then.
    pub fn discard_encoding_indicators(&mut self, alloc: Global) -> Result<(), AllocError>
        ensures without_indicators { OnOk result (item_tree self.new ≡ without_indicators (item_tree self.old)) }
        ensures fewer { Fewer (items (item_tree self.old)) (items (item_tree self.new)) }
    {
        remove_item_indicators(self, alloc)
    }
}

impl<'a> Sequence<'a> {
    /// Takes every encoding indicator of the items away but those inside embedded sequences; `(_` of a stream stays. Where the items
    /// meant values, they mean ones that are the same but for their heads (`laws::bare_items`). Fails where memory runs out; some
    /// indicators may be gone then.
    pub fn discard_encoding_indicators(&mut self, alloc: Global) -> Result<(), AllocError>
        ensures without_indicators { OnOk result (sequence_tree self.new ≡ without_indicators (sequence_tree self.old)) }
        ensures fewer { Fewer (items (sequence_tree self.old)) (items (sequence_tree self.new)) }
    {
        remove_sequence_indicators(self, alloc)
    }
}

/// Takes the indicator of a tag away.
fn remove_opener_indicators(item: &mut Item<'_>)
    ensures { item_tree item.new ≡ opener_gone (item_tree item.old) }
{
    if let InnerItem::Enclosed(opener, _) = &mut item.inner {
        *opener = opener.without_indicator();
    }
}

/// Takes the indicator of a piece away.
#[tactic(auto, unfolding(cbor_edn_model::specs::layout::Bare::without_indicators))]
fn remove_piece_indicators(piece: &mut Piece<'_>)
    ensures { view_piece texts piece.new ≡ without_indicators (view_piece texts piece.old) }
{
    match piece {
        Piece::Literal(indicator, _) => *indicator = None,
        Piece::Ellipsis(_) => {}
        Piece::Embedded(indicator, _) => *indicator = None,
    }
}

fn remove_string_indicators(string: &mut CborString<'_>)
    ensures { view_string texts string.new ≡ without_indicators (view_string texts string.old) }
{
    remove_piece_row_indicators(&mut string.row);
    remove_piece_indicators(&mut string.last);
}

fn remove_piece_row_indicators<'a>(row: &mut Vec<(Piece<'a>, Space<'a>, Space<'a>)>)
    ensures { map (seen_piece texts) row.new.items ≡ map piece_without_indicators (map (seen_piece texts) row.old.items) }
{
    for (piece, _, _) in row.iter_mut() {
        remove_piece_indicators(piece);
    }
}

#[tactic(auto, using(crate::proofs::lemmas::Rules::remove_stream_indicators), unfolding(cbor_edn_model::specs::layout::Bare::without_indicators))]
fn remove_stream_indicators(stream: &mut Stream<'_>)
    ensures { view_stream texts stream.new ≡ without_indicators (view_stream texts stream.old) }
{
    remove_strings_indicators(&mut stream.strings);
}

fn remove_strings_indicators(strings: &mut Strings<'_>)
    ensures { view_strings texts strings.new ≡ without_indicators (view_strings texts strings.old) }
{
    remove_string_row_indicators(&mut strings.row);
    remove_string_indicators(&mut strings.last);
}

fn remove_string_row_indicators<'a>(row: &mut Vec<(CborString<'a>, Separator<'a>)>)
    ensures { map (seen_string texts) row.new.items ≡ map entry_without_indicators (map (seen_string texts) row.old.items) }
{
    for (string, _) in row.iter_mut() {
        remove_string_indicators(string);
    }
}

/// Takes the indicator of a list away, and moves the space behind it.
fn remove_head_indicators<'a>(list: &mut ItemList<'a>, alloc: Global) -> Result<(), AllocError>
    ensures gone { OnOk result (view_list texts list.new ≡ headless (view_list texts list.old)) }
    ensures out_of_memory { IfErr result (λ _. view_list texts list.new ≡ view_list texts list.old) }
{
    let moved = match &*list {
        ItemList::Present { head, space, .. } => head.moved_space(space, alloc)?,
        ItemList::Absent { .. } => None,
    };
    match list {
        ItemList::Present { space, .. } => {
            if let Some(moved) = moved {
                *space = moved;
            }
        }
        ItemList::Absent { indicator, .. } => *indicator = None,
    }
    if let ItemList::Present { head, .. } = list {
        *head = ListHead::none();
    }
    Ok(())
}

/// Takes the indicator of a list away, and moves the space behind it.
fn remove_pair_head_indicators<'a>(list: &mut PairList<'a>, alloc: Global) -> Result<(), AllocError>
    ensures gone { OnOk result (view_pair_list texts list.new ≡ headless (view_pair_list texts list.old)) }
    ensures out_of_memory { IfErr result (λ _. view_pair_list texts list.new ≡ view_pair_list texts list.old) }
{
    let moved = match &*list {
        PairList::Present { head, space, .. } => head.moved_space(space, alloc)?,
        PairList::Absent { .. } => None,
    };
    match list {
        PairList::Present { space, .. } => {
            if let Some(moved) = moved {
                *space = moved;
            }
        }
        PairList::Absent { indicator, .. } => *indicator = None,
    }
    if let PairList::Present { head, .. } = list {
        *head = ListHead::none();
    }
    Ok(())
}

#[cycle(remove_indicators)]
#[tactic(auto, using(crate::proofs::lemmas::layout::ViewsWithoutIndicators::list_fewer), unfolding(cbor_edn_model::specs::layout::Bare::without_indicators))]
fn remove_item_indicators(item: &mut Item<'_>, alloc: Global) -> Result<(), AllocError>
    ensures without_indicators { OnOk result (item_tree item.new ≡ without_indicators (item_tree item.old)) }
    ensures fewer { Fewer (items (item_tree item.old)) (items (item_tree item.new)) }
{
    match &mut item.inner {
        InnerItem::Number(indicator, _) => {
            *indicator = None;
            Ok(())
        }
        InnerItem::NonFinite(indicator, _) => {
            *indicator = None;
            Ok(())
        }
        InnerItem::Named(_) => Ok(()),
        InnerItem::Enclosed(_, content) => {
            let result = remove_standalone_indicators(content, alloc);
            remove_opener_indicators(item);
            result
        }
        InnerItem::Array(list) => remove_list_indicators(list, alloc),
        InnerItem::Map(list) => remove_pair_list_indicators(list, alloc),
        InnerItem::Literal(indicator, _) => {
            *indicator = None;
            Ok(())
        }
        InnerItem::String(string) => {
            remove_string_indicators(string);
            Ok(())
        }
        InnerItem::Stream(stream) => {
            remove_stream_indicators(stream);
            Ok(())
        }
    }
}

#[cycle(remove_indicators)]
#[tactic(auto, using(crate::proofs::lemmas::layout::ViewsWithoutIndicators::standalone_fewer), unfolding(cbor_edn_model::specs::layout::Bare::without_indicators))]
fn remove_standalone_indicators(
    content: &mut StandaloneItem<'_>,
    alloc: Global,
) -> Result<(), AllocError>
    ensures without_indicators { OnOk result (standalone_tree content.new ≡ without_indicators (standalone_tree content.old)) }
    ensures fewer { Fewer (items (standalone_tree content.old)) (items (standalone_tree content.new)) }
{
    remove_item_indicators(&mut content.item, alloc)
}

#[cycle(remove_indicators)]
#[tactic(auto, using(crate::proofs::lemmas::Rules::remove_list_indicators), unfolding(cbor_edn_model::specs::layout::Bare::without_indicators))]
fn remove_list_indicators(list: &mut ItemList<'_>, alloc: Global) -> Result<(), AllocError>
    ensures without_indicators { OnOk result (view_list texts list.new ≡ without_indicators (view_list texts list.old)) }
    ensures fewer { FewerInside (view_list texts list.old) (view_list texts list.new) }
{
    match list {
        ItemList::Present { items, .. } => remove_items_indicators(items, alloc)?,
        ItemList::Absent { .. } => {}
    }
    remove_head_indicators(list, alloc)
}

#[cycle(remove_indicators)]
fn remove_items_indicators(items: &mut Items<'_>, alloc: Global) -> Result<(), AllocError>
    ensures without_indicators { OnOk result (view_items texts items.new ≡ without_indicators (view_items texts items.old)) }
    ensures fewer { Fewer (definition.items (view_items texts items.old)) (definition.items (view_items texts items.new)) }
{
    remove_row_indicators(&mut items.row, alloc)?;
    remove_item_indicators(&mut items.last, alloc)
}

#[cycle(remove_indicators)]
fn remove_row_indicators<'a>(
    row: &mut Vec<(Item<'a>, Separator<'a>)>,
    alloc: Global,
) -> Result<(), AllocError>
    ensures without_indicators { OnOk result (map (seen texts) row.new.items ≡ map entry_without_indicators (map (seen texts) row.old.items)) }
    ensures fewer { FewerEntries (map (seen texts) row.old.items) (map (seen texts) row.new.items) }
{
    for (item, _) in row.iter_mut() {
        remove_item_indicators(item, alloc)?;
    }
    Ok(())
}

#[cycle(remove_indicators)]
#[tactic(auto, using(crate::proofs::lemmas::Rules::remove_list_indicators), unfolding(cbor_edn_model::specs::layout::Bare::without_indicators))]
fn remove_pair_list_indicators(list: &mut PairList<'_>, alloc: Global) -> Result<(), AllocError>
    ensures without_indicators { OnOk result (view_pair_list texts list.new ≡ without_indicators (view_pair_list texts list.old)) }
    ensures fewer { FewerInside (view_pair_list texts list.old) (view_pair_list texts list.new) }
{
    match list {
        PairList::Present { pairs, .. } => remove_pairs_indicators(pairs, alloc)?,
        PairList::Absent { .. } => {}
    }
    remove_pair_head_indicators(list, alloc)
}

#[cycle(remove_indicators)]
fn remove_pairs_indicators(pairs: &mut Pairs<'_>, alloc: Global) -> Result<(), AllocError>
    ensures without_indicators { OnOk result (view_pairs texts pairs.new ≡ without_indicators (view_pairs texts pairs.old)) }
    ensures fewer { Fewer (items (view_pairs texts pairs.old)) (items (view_pairs texts pairs.new)) }
{
    remove_pair_row_indicators(&mut pairs.row, alloc)?;
    remove_pair_indicators(&mut pairs.last, alloc)
}

#[cycle(remove_indicators)]
fn remove_pair_row_indicators<'a>(
    row: &mut Vec<(Pair<'a>, Separator<'a>)>,
    alloc: Global,
) -> Result<(), AllocError>
    ensures without_indicators { OnOk result (map (seen_pair texts) row.new.items ≡ map entry_without_indicators (map (seen_pair texts) row.old.items)) }
    ensures fewer { FewerEntries (map (seen_pair texts) row.old.items) (map (seen_pair texts) row.new.items) }
{
    for (pair, _) in row.iter_mut() {
        remove_pair_indicators(pair, alloc)?;
    }
    Ok(())
}

#[cycle(remove_indicators)]
#[tactic(auto, using(crate::proofs::lemmas::Rules::remove_pair_indicators), unfolding(cbor_edn_model::specs::layout::Bare::without_indicators))]
fn remove_pair_indicators(pair: &mut Pair<'_>, alloc: Global) -> Result<(), AllocError>
    ensures without_indicators { OnOk result (view_pair texts pair.new ≡ without_indicators (view_pair texts pair.old)) }
    ensures fewer { Fewer (items (view_pair texts pair.old)) (items (view_pair texts pair.new)) }
{
    remove_item_indicators(&mut pair.key, alloc)?;
    remove_item_indicators(&mut pair.value, alloc)
}

#[tactic(auto, using(crate::proofs::lemmas::Rules::remove_sequence_indicators), unfolding(cbor_edn_model::specs::layout::Bare::without_indicators))]
fn remove_sequence_indicators(sequence: &mut Sequence<'_>, alloc: Global) -> Result<(), AllocError>
    ensures without_indicators { OnOk result (sequence_tree sequence.new ≡ without_indicators (sequence_tree sequence.old)) }
    ensures fewer { Fewer (items (sequence_tree sequence.old)) (items (sequence_tree sequence.new)) }
{
    match &mut sequence.items {
        None => Ok(()),
        Some(items) => remove_items_indicators(items, alloc),
    }
}
