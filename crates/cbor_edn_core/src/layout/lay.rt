//! Trees laid out in place. Each item is asked whether it fits on its line before any space of it changes.
ghost use Rattle.std.specs.Prelude.{◌≡◌, map, IsOk, OnOk};
ghost use Rattle.cbor_edn_parts.specs.space.LayoutColumns.{least};
ghost use Rattle.cbor_edn_model.specs.layout.Layout.{laid};
ghost use Rattle.cbor_edn_model.specs.tree.Trees as definition;
ghost use Rattle.cbor_edn_model.specs.tree.Trees.{items};
ghost use Rattle.cbor_edn_core.specs.tree.View.{view_list, view_items, seen, view_pair_list, view_pairs, view_pair, seen_pair, item_tree, standalone_tree, sequence_tree};
ghost use Rattle.cbor_edn_model.specs.tree.TreeLeaves.{texts};
ghost use Rattle.cbor_edn_model.specs.internal.Laying.{opened};
ghost use Rattle.cbor_edn_model.specs.internal.LayoutRows.{laid_entry, entry_items};

use super::room::layout_of_parts;
use super::strings::{lay_boxed_string, lay_stream};
use crate::tree::{
    InnerItem, Item, ItemList, Items, Pair, PairList, Pairs, Sequence, StandaloneItem,
};
use cbor_edn_parts::space::Separator;
use cbor_edn_parts::space::layout::{Layout, Slot, lay_end, lay_separator, lay_space};
use std::alloc::{AllocError, Global};

#[cycle(lay)]
#[tactic(auto, using(crate::proofs::lemmas::Rules::lay_item), unfolding(cbor_edn_model::specs::layout::Layout::laid, cbor_edn_model::specs::tree::Trees::items))]
pub(super) fn lay_item(item: &mut Item<'_>, alloc: Global, layout: Layout) -> Result<(), AllocError>
    ensures laid { OnOk result (item_tree item.new ≡ laid layout (item_tree item.old)) }
    ensures items { items (item_tree item.new) ≡ items (item_tree item.old) }
    ensures least { layout ≡ least → IsOk result }
{
    let parts = layout_of_parts(layout, item);
    match &mut item.inner {
        InnerItem::Number(_, _)
        | InnerItem::NonFinite(_, _)
        | InnerItem::Named(_)
        | InnerItem::Literal(_, _) => Ok(()),
        InnerItem::Enclosed(_, content) => lay_standalone(content, alloc, parts),
        InnerItem::Array(list) => lay_list(list, alloc, parts),
        InnerItem::Map(list) => lay_pair_list(list, alloc, parts),
        InnerItem::String(string) => lay_boxed_string(string, alloc, parts),
        InnerItem::Stream(stream) => lay_stream(stream, alloc, parts),
    }
}

#[cycle(lay)]
#[tactic(auto, unfolding(cbor_edn_model::specs::layout::Layout::laid, cbor_edn_model::specs::tree::Trees::items))]
pub(super) fn lay_standalone(
    content: &mut StandaloneItem<'_>,
    alloc: Global,
    layout: Layout,
) -> Result<(), AllocError>
    ensures laid { OnOk result (standalone_tree content.new ≡ laid layout (standalone_tree content.old)) }
    ensures items { items (standalone_tree content.new) ≡ items (standalone_tree content.old) }
    ensures least { layout ≡ least → IsOk result }
{
    lay_item(&mut content.item, alloc, layout)?;
    lay_space(&mut content.before, alloc, layout, Slot::Elsewhere)?;
    lay_space(&mut content.after, alloc, layout, Slot::Elsewhere)
}

#[tactic(auto, using(crate::proofs::lemmas::Rules::lay_sequence), unfolding(cbor_edn_model::specs::layout::Layout::laid, cbor_edn_model::specs::tree::Trees::items))]
pub(super) fn lay_sequence(
    sequence: &mut Sequence<'_>,
    alloc: Global,
    layout: Layout,
) -> Result<(), AllocError>
    ensures laid { OnOk result (sequence_tree sequence.new ≡ laid layout (sequence_tree sequence.old)) }
    ensures items { items (sequence_tree sequence.new) ≡ items (sequence_tree sequence.old) }
    ensures least { layout ≡ least → IsOk result }
{
    match &mut sequence.items {
        None => {}
        Some(items) => lay_items(items, alloc, layout)?,
    }
    lay_space(&mut sequence.before, alloc, layout, Slot::Elsewhere)
}

/// Lays out the spaces in front of the entries of a list.
#[tactic(auto, unfolding(cbor_edn_model::specs::tree::Trees::items))]
fn lay_opening<'a>(list: &mut ItemList<'a>, alloc: Global, layout: Layout) -> Result<(), AllocError>
    ensures laid { OnOk result (view_list texts list.new ≡ opened layout (view_list texts list.old)) }
    ensures items { items (view_list texts list.new) ≡ items (view_list texts list.old) }
    ensures least { layout ≡ least → IsOk result }
{
    if let ItemList::Present { head, .. } = list {
        head.lay(alloc, layout)?;
    }
    match list {
        ItemList::Present { space, .. } => lay_space(space, alloc, layout, Slot::First),
        ItemList::Absent { space, .. } => lay_space(space, alloc, layout, Slot::Elsewhere),
    }
}

/// Lays out the spaces in front of the entries of a map.
#[tactic(auto, unfolding(cbor_edn_model::specs::tree::Trees::items))]
fn lay_pair_opening<'a>(
    list: &mut PairList<'a>,
    alloc: Global,
    layout: Layout,
) -> Result<(), AllocError>
    ensures laid { OnOk result (view_pair_list texts list.new ≡ opened layout (view_pair_list texts list.old)) }
    ensures items { items (view_pair_list texts list.new) ≡ items (view_pair_list texts list.old) }
    ensures least { layout ≡ least → IsOk result }
{
    if let PairList::Present { head, .. } = list {
        head.lay(alloc, layout)?;
    }
    match list {
        PairList::Present { space, .. } => lay_space(space, alloc, layout, Slot::First),
        PairList::Absent { space, .. } => lay_space(space, alloc, layout, Slot::Elsewhere),
    }
}

#[cycle(lay)]
#[tactic(auto, unfolding(cbor_edn_model::specs::layout::Layout::laid, cbor_edn_model::specs::tree::Trees::items))]
fn lay_list(list: &mut ItemList<'_>, alloc: Global, layout: Layout) -> Result<(), AllocError>
    ensures laid { OnOk result (view_list texts list.new ≡ laid layout (view_list texts list.old)) }
    ensures items { items (view_list texts list.new) ≡ items (view_list texts list.old) }
    ensures least { layout ≡ least → IsOk result }
{
    match list {
        ItemList::Present { items, .. } => lay_items(items, alloc, layout)?,
        ItemList::Absent { .. } => {}
    }
    lay_opening(list, alloc, layout)
}

#[cycle(lay)]
fn lay_items(items: &mut Items<'_>, alloc: Global, layout: Layout) -> Result<(), AllocError>
    ensures laid { OnOk result (view_items texts items.new ≡ laid layout (view_items texts items.old)) }
    ensures items { definition.items (view_items texts items.new) ≡ definition.items (view_items texts items.old) }
    ensures least { layout ≡ least → IsOk result }
{
    lay_row(&mut items.row, alloc, layout)?;
    lay_item(&mut items.last, alloc, layout)?;
    lay_end(&mut items.end, alloc, layout)
}

#[cycle(lay)]
fn lay_row<'a>(
    row: &mut Vec<(Item<'a>, Separator<'a>)>,
    alloc: Global,
    layout: Layout,
) -> Result<(), AllocError>
    ensures laid { OnOk result (map (seen texts) row.new.items ≡ map (laid_entry layout) (map (seen texts) row.old.items)) }
    ensures items { map entry_items (map (seen texts) row.new.items) ≡ map entry_items (map (seen texts) row.old.items) }
    ensures least { layout ≡ least → IsOk result }
{
    for entry in row.iter_mut() {
        lay_item(&mut entry.0, alloc, layout)?;
        lay_separator(&mut entry.1, alloc, layout)?;
    }
    Ok(())
}

#[cycle(lay)]
#[tactic(auto, unfolding(cbor_edn_model::specs::layout::Layout::laid, cbor_edn_model::specs::tree::Trees::items))]
fn lay_pair_list(list: &mut PairList<'_>, alloc: Global, layout: Layout) -> Result<(), AllocError>
    ensures laid { OnOk result (view_pair_list texts list.new ≡ laid layout (view_pair_list texts list.old)) }
    ensures items { items (view_pair_list texts list.new) ≡ items (view_pair_list texts list.old) }
    ensures least { layout ≡ least → IsOk result }
{
    match list {
        PairList::Present { pairs, .. } => lay_pairs(pairs, alloc, layout)?,
        PairList::Absent { .. } => {}
    }
    lay_pair_opening(list, alloc, layout)
}

#[cycle(lay)]
fn lay_pairs(pairs: &mut Pairs<'_>, alloc: Global, layout: Layout) -> Result<(), AllocError>
    ensures laid { OnOk result (view_pairs texts pairs.new ≡ laid layout (view_pairs texts pairs.old)) }
    ensures items { items (view_pairs texts pairs.new) ≡ items (view_pairs texts pairs.old) }
    ensures least { layout ≡ least → IsOk result }
{
    lay_pair_row(&mut pairs.row, alloc, layout)?;
    lay_pair(&mut pairs.last, alloc, layout)?;
    lay_end(&mut pairs.end, alloc, layout)
}

#[cycle(lay)]
fn lay_pair_row<'a>(
    row: &mut Vec<(Pair<'a>, Separator<'a>)>,
    alloc: Global,
    layout: Layout,
) -> Result<(), AllocError>
    ensures laid { OnOk result (map (seen_pair texts) row.new.items ≡ map (laid_entry layout) (map (seen_pair texts) row.old.items)) }
    ensures items { map entry_items (map (seen_pair texts) row.new.items) ≡ map entry_items (map (seen_pair texts) row.old.items) }
    ensures least { layout ≡ least → IsOk result }
{
    for entry in row.iter_mut() {
        lay_pair(&mut entry.0, alloc, layout)?;
        lay_separator(&mut entry.1, alloc, layout)?;
    }
    Ok(())
}

#[cycle(lay)]
#[tactic(auto, unfolding(cbor_edn_model::specs::layout::Layout::laid, cbor_edn_model::specs::tree::Trees::items))]
fn lay_pair(pair: &mut Pair<'_>, alloc: Global, layout: Layout) -> Result<(), AllocError>
    ensures laid { OnOk result (view_pair texts pair.new ≡ laid layout (view_pair texts pair.old)) }
    ensures items { items (view_pair texts pair.new) ≡ items (view_pair texts pair.old) }
    ensures least { layout ≡ least → IsOk result }
{
    lay_item(&mut pair.key, alloc, layout)?;
    lay_item(&mut pair.value, alloc, layout)?;
    lay_space(&mut pair.before_colon, alloc, layout, Slot::Elsewhere)?;
    lay_space(&mut pair.after_colon, alloc, layout, Slot::AfterColon)
}
