//! Strings laid out in place. No string in them has a test of its own, so none is asked whether it fits.
ghost use Rattle.std.specs.Prelude.{◌≡◌, map, IsOk, OnOk};
ghost use Rattle.cbor_edn_parts.specs.space.LayoutColumns.{least};
ghost use Rattle.cbor_edn_model.specs.layout.Layout.{in_chunk, laid, First};
ghost use Rattle.cbor_edn_model.specs.tree.Trees.{items};
ghost use Rattle.cbor_edn_core.specs.tree.View.{view_string, seen_piece, view_stream, view_strings, seen_string};
ghost use Rattle.cbor_edn_model.specs.tree.TreeLeaves.{texts};
ghost use Rattle.cbor_edn_model.specs.internal.Laying.{laid_stream};
ghost use Rattle.cbor_edn_model.specs.internal.LayoutRows.{laid_entry, entry_items, laid_piece, piece_items};

use crate::tree::{CborString, Piece, Stream, Strings};
use cbor_edn_parts::space::layout::{
    Layout, Slot, lay_end, lay_mandatory, lay_separator, lay_space,
};
use cbor_edn_parts::space::{Separator, Space};
use std::alloc::{AllocError, Global};

pub(super) fn lay_boxed_string(
    string: &mut Box<CborString<'_>>,
    alloc: Global,
    layout: Layout,
) -> Result<(), AllocError>
    ensures laid { OnOk result (view_string texts string.new.value ≡ laid layout (view_string texts string.old.value)) }
    ensures items { items (view_string texts string.new.value) ≡ items (view_string texts string.old.value) }
    ensures least { layout ≡ least → IsOk result }
{
    lay_string(string, alloc, layout)
}

fn lay_string(string: &mut CborString<'_>, alloc: Global, layout: Layout) -> Result<(), AllocError>
    ensures laid { OnOk result (view_string texts string.new ≡ laid layout (view_string texts string.old)) }
    ensures items { items (view_string texts string.new) ≡ items (view_string texts string.old) }
    ensures least { layout ≡ least → IsOk result }
{
    lay_piece_row(&mut string.row, alloc, layout)
}

fn lay_piece_row<'a>(
    row: &mut Vec<(Piece<'a>, Space<'a>, Space<'a>)>,
    alloc: Global,
    layout: Layout,
) -> Result<(), AllocError>
    ensures laid { OnOk result (map (seen_piece texts) row.new.items ≡ map (laid_piece layout) (map (seen_piece texts) row.old.items)) }
    ensures items { map piece_items (map (seen_piece texts) row.new.items) ≡ map piece_items (map (seen_piece texts) row.old.items) }
    ensures least { layout ≡ least → IsOk result }
{
    for entry in row.iter_mut() {
        lay_space(&mut entry.1, alloc, layout, Slot::BeforePlus)?;
        lay_space(&mut entry.2, alloc, layout, Slot::AfterPlus)?;
    }
    Ok(())
}

#[tactic(auto, using(crate::proofs::lemmas::Rules::remove_stream_indicators), unfolding(cbor_edn_model::specs::tree::Trees::items))]
pub(super) fn lay_stream(
    stream: &mut Stream<'_>,
    alloc: Global,
    layout: Layout,
) -> Result<(), AllocError>
    ensures laid { OnOk result (view_stream texts stream.new ≡ laid_stream layout (view_stream texts stream.old)) }
    ensures items { items (view_stream texts stream.new) ≡ items (view_stream texts stream.old) }
    ensures least { layout ≡ least → IsOk result }
{
    lay_strings(&mut stream.strings, alloc, layout)?;
    lay_mandatory(&mut stream.space, alloc, layout, Slot::First)
}

fn lay_strings(strings: &mut Strings<'_>, alloc: Global, layout: Layout) -> Result<(), AllocError>
    ensures laid { OnOk result (view_strings texts strings.new ≡ laid layout (view_strings texts strings.old)) }
    ensures items { items (view_strings texts strings.new) ≡ items (view_strings texts strings.old) }
    ensures least { layout ≡ least → IsOk result }
{
    lay_string_row(&mut strings.row, alloc, layout)?;
    lay_string(&mut strings.last, alloc, layout.in_chunk())?;
    lay_end(&mut strings.end, alloc, layout)
}

fn lay_string_row<'a>(
    row: &mut Vec<(CborString<'a>, Separator<'a>)>,
    alloc: Global,
    layout: Layout,
) -> Result<(), AllocError>
    ensures laid { OnOk result (map (seen_string texts) row.new.items ≡ map (laid_entry layout) (map (seen_string texts) row.old.items)) }
    ensures items { map entry_items (map (seen_string texts) row.new.items) ≡ map entry_items (map (seen_string texts) row.old.items) }
    ensures least { layout ≡ least → IsOk result }
{
    for entry in row.iter_mut() {
        lay_string(&mut entry.0, alloc, layout.in_chunk())?;
        lay_separator(&mut entry.1, alloc, layout)?;
    }
    Ok(())
}
