//! The text of a tree with its spaces, or with those of a layout, which the tree itself does not get.
ghost use Rattle.std.specs.Prelude.{◌≡◌, ◌++◌, map, OnOk};
ghost use Rattle.cbor_edn_parts.specs.base.Buffer.{buffer_bytes};
ghost use Rattle.cbor_edn_parts.specs.Leaves.{number_bytes, literal_bytes};
ghost use Rattle.cbor_edn_model.specs.layout.Layout.{laid};
ghost use Rattle.cbor_edn_model.specs.tree.Rows.{entries_text, pieces_text};
ghost use Rattle.cbor_edn_model.specs.tree.TreeLeaves.{texts};
ghost use Rattle.cbor_edn_model.specs.tree.Trees.{NumberTree, LiteralTree, text};
ghost use Rattle.cbor_edn_model.specs.internal.Laying.{laid_stream};
ghost use Rattle.cbor_edn_model.specs.internal.LayoutRows.{laid_entry, laid_piece};
ghost use Rattle.cbor_edn_core.specs.tree.View.{view_list, view_items, seen, view_pair_list, view_pairs, view_pair, seen_pair, view_string, view_piece, seen_piece, view_stream, view_strings, seen_string, item_tree, standalone_tree, sequence_tree};

use super::room::layout_of_parts;
use crate::tree::{
    CborString, Indicator, InnerItem, Item, ItemList, Items, Pair, PairList, Pairs, Piece,
    Sequence, StandaloneItem, Stream, Strings,
};
use cbor_edn_model::text::write::{print_indicator, print_opener};
use cbor_edn_parts::base::buffer::TextBuffer;
use cbor_edn_parts::number::Number;
use cbor_edn_parts::space::layout::{
    Layout, Slot, print_end, print_mandatory, print_separator, print_space,
};
use cbor_edn_parts::space::{Separator, Space};
use cbor_edn_parts::string::Literal;
use std::alloc::AllocError;

#[cycle(print)]
#[tactic(auto, using(crate::proofs::lemmas::Rules::print_sequence))]
pub(crate) fn print_sequence(
    out: &mut TextBuffer,
    sequence: &Sequence<'_>,
    layout: &Layout,
) -> Result<(), AllocError>
    ensures { OnOk result (buffer_bytes out.new ≡ buffer_bytes out.old ++ text (laid layout.now (sequence_tree sequence.now))) }
{
    print_space(out, &sequence.before, *layout, Slot::Elsewhere)?;
    match &sequence.items {
        None => Ok(()),
        Some(items) => print_items(out, items, layout),
    }
}

#[cycle(print)]
#[tactic(auto, using(cbor_edn_model::proofs::lemmas::layout::LaidTexts::text_laid_standalone, std::proofs::Common::append_assoc))]
pub(crate) fn print_standalone(
    out: &mut TextBuffer,
    item: &StandaloneItem<'_>,
    layout: &Layout,
) -> Result<(), AllocError>
    ensures { OnOk result (buffer_bytes out.new ≡ buffer_bytes out.old ++ text (laid layout.now (standalone_tree item.now))) }
{
    print_space(out, &item.before, *layout, Slot::Elsewhere)?;
    print_item(out, &item.item, layout)?;
    print_space(out, &item.after, *layout, Slot::Elsewhere)
}

/// Writes a number with its indicator.
#[inline]
#[tactic(auto, using(cbor_edn_model::proofs::lemmas::text::Texts::text_number, std::proofs::Common::append_assoc))]
fn print_number(
    out: &mut TextBuffer,
    number: &Number<'_>,
    indicator: Option<Indicator>,
) -> Result<(), AllocError>
    ensures { OnOk result (buffer_bytes out.new ≡ buffer_bytes out.old ++ text (NumberTree (number_bytes number.now) indicator)) }
{
    number.print(out)?;
    print_indicator(out, indicator)
}

/// Writes a literal with its indicator.
#[inline]
#[tactic(auto, using(cbor_edn_model::proofs::lemmas::text::Texts::text_literal, std::proofs::Common::append_assoc))]
fn print_literal(
    out: &mut TextBuffer,
    literal: &Literal<'_>,
    indicator: Option<Indicator>,
) -> Result<(), AllocError>
    ensures { OnOk result (buffer_bytes out.new ≡ buffer_bytes out.old ++ text (LiteralTree (literal_bytes literal.now) indicator)) }
{
    literal.print(out)?;
    print_indicator(out, indicator)
}

#[cycle(print)]
#[tactic(auto, using(crate::proofs::lemmas::Rules::print_item))]
pub fn print_item(out: &mut TextBuffer, item: &Item<'_>, layout: &Layout) -> Result<(), AllocError>
    ensures { OnOk result (buffer_bytes out.new ≡ buffer_bytes out.old ++ text (laid layout.now (item_tree item.now))) }
{
    match &item.inner {
        InnerItem::Number(indicator, number) => print_number(out, number, *indicator),
        InnerItem::NonFinite(indicator, float) => {
            out.push_str(float.as_str())?;
            print_indicator(out, *indicator)
        }
        InnerItem::Named(name) => out.push_str(name.as_str()),
        InnerItem::Enclosed(opener, content) => {
            let parts = layout_of_parts(*layout, item);
            print_opener(out, opener.kind)?;
            out.push_str("(")?;
            print_standalone(out, content, &parts)?;
            out.push_str(")")
        }
        InnerItem::Array(list) => {
            let parts = layout_of_parts(*layout, item);
            out.push_str("[")?;
            print_list(out, list, &parts)?;
            out.push_str("]")
        }
        InnerItem::Map(list) => {
            let parts = layout_of_parts(*layout, item);
            out.push_str("{")?;
            print_pair_list(out, list, &parts)?;
            out.push_str("}")
        }
        InnerItem::Literal(indicator, literal) => print_literal(out, literal, *indicator),
        InnerItem::String(string) => {
            let parts = layout_of_parts(*layout, item);
            print_string(out, string, &parts)
        }
        InnerItem::Stream(stream) => {
            let parts = layout_of_parts(*layout, item);
            print_stream(out, stream, &parts)
        }
    }
}

#[cycle(print)]
#[tactic(auto, using(cbor_edn_model::proofs::lemmas::layout::LaidTexts::text_laid_pieces, std::proofs::Common::append_assoc))]
fn print_string(
    out: &mut TextBuffer,
    string: &CborString<'_>,
    layout: &Layout,
) -> Result<(), AllocError>
    ensures { OnOk result (buffer_bytes out.new ≡ buffer_bytes out.old ++ text (laid layout.now (view_string texts string.now))) }
{
    print_piece_row(out, &string.row, layout)?;
    print_piece(out, &string.last)
}

#[cycle(print)]
fn print_piece_row(
    out: &mut TextBuffer,
    row: &[(Piece<'_>, Space<'_>, Space<'_>)],
    layout: &Layout,
) -> Result<(), AllocError>
    ensures { OnOk result (buffer_bytes out.new ≡ buffer_bytes out.old ++ pieces_text (map (laid_piece layout.now) (map (seen_piece texts) row.now))) }
{
    for (piece, before, after) in row {
        print_piece(out, piece)?;
        print_space(out, before, *layout, Slot::BeforePlus)?;
        out.push_str("+")?;
        print_space(out, after, *layout, Slot::AfterPlus)?;
    }
    Ok(())
}

/// Writes a piece. What it embeds keeps its spaces.
#[cycle(print)]
#[tactic(auto, using(crate::proofs::lemmas::Rules::print_piece))]
fn print_piece(out: &mut TextBuffer, piece: &Piece<'_>) -> Result<(), AllocError>
    ensures { OnOk result (buffer_bytes out.new ≡ buffer_bytes out.old ++ text (view_piece texts piece.now)) }
{
    match piece {
        Piece::Literal(indicator, literal) => print_literal(out, literal, *indicator),
        Piece::Ellipsis(ellipsis) => out.push_str(ellipsis.as_str()),
        Piece::Embedded(indicator, sequence) => {
            out.push_str("<<")?;
            print_sequence(out, sequence, &Layout::Kept)?;
            out.push_str(">>")?;
            print_indicator(out, *indicator)
        }
    }
}

#[cycle(print)]
#[tactic(auto, using(crate::proofs::lemmas::Rules::print_stream))]
fn print_stream(
    out: &mut TextBuffer,
    stream: &Stream<'_>,
    layout: &Layout,
) -> Result<(), AllocError>
    ensures { OnOk result (buffer_bytes out.new ≡ buffer_bytes out.old ++ text (laid_stream layout.now (view_stream texts stream.now))) }
{
    out.push_str("(_")?;
    print_mandatory(out, &stream.space, *layout, Slot::First)?;
    print_strings(out, &stream.strings, layout)?;
    out.push_str(")")
}

#[cycle(print)]
#[tactic(auto, using(crate::proofs::lemmas::Rules::print_strings))]
fn print_strings(
    out: &mut TextBuffer,
    strings: &Strings<'_>,
    layout: &Layout,
) -> Result<(), AllocError>
    ensures { OnOk result (buffer_bytes out.new ≡ buffer_bytes out.old ++ text (laid layout.now (view_strings texts strings.now))) }
{
    print_string_row(out, &strings.row, layout)?;
    print_string(out, &strings.last, &layout.in_chunk())?;
    print_end(out, &strings.end, *layout)
}

#[cycle(print)]
#[tactic(auto, unfolding(cbor_edn_model::specs::layout::Layout::laid, cbor_edn_model::specs::tree::Trees::onto))]
fn print_string_row(
    out: &mut TextBuffer,
    row: &[(CborString<'_>, Separator<'_>)],
    layout: &Layout,
) -> Result<(), AllocError>
    ensures { OnOk result (buffer_bytes out.new ≡ buffer_bytes out.old ++ entries_text (map (laid_entry layout.now) (map (seen_string texts) row.now))) }
{
    for (string, separator) in row {
        print_string(out, string, &layout.in_chunk())?;
        print_separator(out, separator, *layout)?;
    }
    Ok(())
}

/// As [`print_item`], without its call where the item is a number or a literal, as most are.
#[inline(always)]
#[cycle(print)]
#[tactic(auto, using(crate::proofs::lemmas::Rules::print_at_once))]
fn print_at_once(out: &mut TextBuffer, item: &Item<'_>, layout: &Layout) -> Result<(), AllocError>
    ensures { OnOk result (buffer_bytes out.new ≡ buffer_bytes out.old ++ text (laid layout.now (item_tree item.now))) }
{
    match &item.inner {
        InnerItem::Number(indicator, number) => print_number(out, number, *indicator),
        InnerItem::Literal(indicator, literal) => print_literal(out, literal, *indicator),
        _ => print_item(out, item, layout),
    }
}

#[cycle(print)]
#[tactic(auto, using(crate::proofs::lemmas::Rules::print_list))]
fn print_list(out: &mut TextBuffer, list: &ItemList<'_>, layout: &Layout) -> Result<(), AllocError>
    ensures { OnOk result (buffer_bytes out.new ≡ buffer_bytes out.old ++ text (laid layout.now (view_list texts list.now))) }
{
    match list {
        ItemList::Present { head, space, items } => {
            head.print(out, *layout)?;
            print_space(out, space, *layout, Slot::First)?;
            print_items(out, items, layout)
        }
        ItemList::Absent { indicator, space } => {
            print_indicator(out, *indicator)?;
            print_space(out, space, *layout, Slot::Elsewhere)
        }
    }
}

#[cycle(print)]
#[tactic(auto, using(crate::proofs::lemmas::Rules::print_items))]
fn print_items(out: &mut TextBuffer, items: &Items<'_>, layout: &Layout) -> Result<(), AllocError>
    ensures { OnOk result (buffer_bytes out.new ≡ buffer_bytes out.old ++ text (laid layout.now (view_items texts items.now))) }
{
    print_row(out, &items.row, layout)?;
    print_item(out, &items.last, layout)?;
    print_end(out, &items.end, *layout)
}

#[cycle(print)]
#[tactic(auto, unfolding(cbor_edn_model::specs::layout::Layout::laid, cbor_edn_model::specs::tree::Trees::onto))]
fn print_row(
    out: &mut TextBuffer,
    row: &[(Item<'_>, Separator<'_>)],
    layout: &Layout,
) -> Result<(), AllocError>
    ensures { OnOk result (buffer_bytes out.new ≡ buffer_bytes out.old ++ entries_text (map (laid_entry layout.now) (map (seen texts) row.now))) }
{
    for (item, separator) in row {
        print_at_once(out, item, layout)?;
        print_separator(out, separator, *layout)?;
    }
    Ok(())
}

#[cycle(print)]
#[tactic(auto, using(crate::proofs::lemmas::Rules::print_list))]
fn print_pair_list(
    out: &mut TextBuffer,
    list: &PairList<'_>,
    layout: &Layout,
) -> Result<(), AllocError>
    ensures { OnOk result (buffer_bytes out.new ≡ buffer_bytes out.old ++ text (laid layout.now (view_pair_list texts list.now))) }
{
    match list {
        PairList::Present { head, space, pairs } => {
            head.print(out, *layout)?;
            print_space(out, space, *layout, Slot::First)?;
            print_pairs(out, pairs, layout)
        }
        PairList::Absent { indicator, space } => {
            print_indicator(out, *indicator)?;
            print_space(out, space, *layout, Slot::Elsewhere)
        }
    }
}

#[cycle(print)]
#[tactic(auto, using(crate::proofs::lemmas::Rules::print_pairs))]
fn print_pairs(out: &mut TextBuffer, pairs: &Pairs<'_>, layout: &Layout) -> Result<(), AllocError>
    ensures { OnOk result (buffer_bytes out.new ≡ buffer_bytes out.old ++ text (laid layout.now (view_pairs texts pairs.now))) }
{
    print_pair_row(out, &pairs.row, layout)?;
    print_pair(out, &pairs.last, layout)?;
    print_end(out, &pairs.end, *layout)
}

#[cycle(print)]
fn print_pair_row(
    out: &mut TextBuffer,
    row: &[(Pair<'_>, Separator<'_>)],
    layout: &Layout,
) -> Result<(), AllocError>
    ensures { OnOk result (buffer_bytes out.new ≡ buffer_bytes out.old ++ entries_text (map (laid_entry layout.now) (map (seen_pair texts) row.now))) }
{
    for (pair, separator) in row {
        print_pair(out, pair, layout)?;
        print_separator(out, separator, *layout)?;
    }
    Ok(())
}

#[cycle(print)]
#[tactic(auto, using(cbor_edn_model::proofs::lemmas::layout::LaidTexts::text_laid_pair, std::proofs::Common::append_assoc))]
fn print_pair(out: &mut TextBuffer, pair: &Pair<'_>, layout: &Layout) -> Result<(), AllocError>
    ensures { OnOk result (buffer_bytes out.new ≡ buffer_bytes out.old ++ text (laid layout.now (view_pair texts pair.now))) }
{
    print_at_once(out, &pair.key, layout)?;
    print_space(out, &pair.before_colon, *layout, Slot::Elsewhere)?;
    out.push_str(":")?;
    print_space(out, &pair.after_colon, *layout, Slot::AfterColon)?;
    print_at_once(out, &pair.value, layout)
}
