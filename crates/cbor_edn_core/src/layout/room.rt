//! Whether items fit on a single line, told from no more of them than would fit. Each `room_behind_..` answers the room that is left
//! behind a part of an item, or none where the part is wider than the room.
ghost use Rattle.std.specs.Prelude.{◌≡◌, ◌<◌, ◌-◌, ◌^◌, ℕ, map};
ghost use Rattle.cbor_edn_parts.specs.space.LayoutColumns.{of_parts};
ghost use Rattle.cbor_edn_parts.specs.declared.space.layout.Layout.TheVariants.{Lines};
ghost use Rattle.cbor_edn_model.specs.tree.TreeLeaves.{texts};
ghost use Rattle.cbor_edn_model.specs.internal.Widths.{Leaves, width, measured, entries_width, pieces_width};
ghost use Rattle.cbor_edn_core.specs.tree.View.{view_list, view_items, seen, view_pair_list, view_pairs, view_pair, seen_pair, view_string, view_piece, seen_piece, view_stream, view_strings, seen_string, item_tree, standalone_tree, sequence_tree};

use crate::tree::{
    CborString, InnerItem, Item, ItemList, Items, Pair, PairList, Pairs, Piece, Sequence,
    StandaloneItem, Stream, Strings,
};
use cbor_edn_model::layout::width::{
    Spaces, indicator_len, list_end_len, mandatory_len, opener_len, room_behind, separator_len,
    space_len,
};
use cbor_edn_parts::space::layout::Layout;
use cbor_edn_parts::space::policy::Spacing;
use cbor_edn_parts::space::{Separator, Space};

/// The layout of the parts of an item.
pub(super) fn layout_of_parts(layout: Layout, item: &Item<'_>) -> Layout
    ensures { result ≡ of_parts layout (measured (item_tree item.now)) }
{
    match layout {
        Layout::Kept | Layout::Inline(_) => layout,
        Layout::Lines { base, width, .. } => layout.of_parts(line_width(base, width, item)),
    }
}

/// How wide an item is on a single line, if it fits on one that is less than `width` bytes wide and begins with `base` spaces; else the
/// greatest number.
fn line_width(base: usize, width: usize, item: &Item<'_>) -> usize
    ensures { (end level : ℕ) → of_parts (Lines base end level width) result ≡ of_parts (Lines base end level width) (measured (item_tree item.now)) }
{
    if base >= width {
        return usize::MAX;
    }
    let room = width - base - 1;
    match room_behind_item(room, Spaces::By(Spacing::OneLine), item) {
        Some(left) => room - left,
        None => usize::MAX,
    }
}

#[cycle(room)]
#[tactic(auto, using(crate::proofs::lemmas::tree::Views::view_sequence_is), unfolding(cbor_edn_model::specs::internal::Widths::width))]
fn room_behind_sequence(room: usize, spaces: Spaces, sequence: &Sequence<'_>) -> Option<usize>
    requires { room < 2 ^ 64 - 1 }
    ensures { Leaves room (width spaces (sequence_tree sequence.now)) result }
{
    let room = room_behind(room, space_len(spaces, &sequence.before))?;
    match &sequence.items {
        None => Some(room),
        Some(items) => room_behind_items(room, spaces, items),
    }
}

#[cycle(room)]
#[tactic(auto, unfolding(cbor_edn_model::specs::internal::Widths::width))]
fn room_behind_standalone(room: usize, spaces: Spaces, item: &StandaloneItem<'_>) -> Option<usize>
    requires { room < 2 ^ 64 - 1 }
    ensures { Leaves room (width spaces (standalone_tree item.now)) result }
{
    let room = room_behind(room, space_len(spaces, &item.before))?;
    let room = room_behind_item(room, spaces, &item.item)?;
    room_behind(room, space_len(spaces, &item.after))
}

#[cycle(room)]
#[tactic(auto, using(crate::proofs::lemmas::tree::Views::strings_are), unfolding(cbor_edn_model::specs::internal::Widths::width))]
fn room_behind_item(room: usize, spaces: Spaces, item: &Item<'_>) -> Option<usize>
    requires { room < 2 ^ 64 - 1 }
    ensures { Leaves room (width spaces (item_tree item.now)) result }
{
    match &item.inner {
        InnerItem::Number(indicator, number) => {
            let room = room_behind(room, number.len())?;
            room_behind(room, indicator_len(*indicator))
        }
        InnerItem::NonFinite(indicator, float) => {
            let room = room_behind(room, float.as_str().len())?;
            room_behind(room, indicator_len(*indicator))
        }
        InnerItem::Named(name) => room_behind(room, name.as_str().len()),
        InnerItem::Enclosed(opener, content) => {
            let room = room_behind(room, opener_len(opener.kind))?;
            let room = room_behind(room, 2)?;
            room_behind_standalone(room, spaces, content)
        }
        InnerItem::Array(list) => {
            let room = room_behind(room, 2)?;
            room_behind_list(room, spaces, list)
        }
        InnerItem::Map(list) => {
            let room = room_behind(room, 2)?;
            room_behind_pair_list(room, spaces, list)
        }
        InnerItem::Literal(indicator, literal) => {
            let room = room_behind(room, literal.len())?;
            room_behind(room, indicator_len(*indicator))
        }
        InnerItem::String(string) => room_behind_string(room, spaces, string),
        InnerItem::Stream(stream) => room_behind_stream(room, spaces, stream),
    }
}

#[cycle(room)]
#[tactic(auto, using(cbor_edn_model::proofs::lemmas::layout::MeasuredWidths::width_pieces), unfolding(cbor_edn_model::specs::internal::Widths::width))]
fn room_behind_string(room: usize, spaces: Spaces, string: &CborString<'_>) -> Option<usize>
    requires { room < 2 ^ 64 - 1 }
    ensures { Leaves room (width spaces (view_string texts string.now)) result }
{
    let room = room_behind_piece_row(room, spaces, &string.row)?;
    room_behind_piece(room, spaces, &string.last)
}

#[cycle(room)]
fn room_behind_piece_row(
    room: usize,
    spaces: Spaces,
    row: &[(Piece<'_>, Space<'_>, Space<'_>)],
) -> Option<usize>
    requires { room < 2 ^ 64 - 1 }
    ensures { Leaves room (pieces_width spaces (map (seen_piece texts) row.now)) result }
{
    let mut room = room;
    for (piece, before, after) in row {
        room = room_behind_piece(room, spaces, piece)?;
        room = room_behind(room, space_len(spaces.wide(), before))?;
        room = room_behind(room, 1)?;
        room = room_behind(room, space_len(spaces.wide(), after))?;
    }
    Some(room)
}

#[cycle(room)]
#[tactic(auto, unfolding(cbor_edn_model::specs::internal::Widths::width))]
fn room_behind_piece(room: usize, spaces: Spaces, piece: &Piece<'_>) -> Option<usize>
    requires { room < 2 ^ 64 - 1 }
    ensures { Leaves room (width spaces (view_piece texts piece.now)) result }
{
    match piece {
        Piece::Literal(indicator, literal) => {
            let room = room_behind(room, literal.len())?;
            room_behind(room, indicator_len(*indicator))
        }
        Piece::Ellipsis(ellipsis) => room_behind(room, ellipsis.len()),
        Piece::Embedded(indicator, sequence) => {
            let room = room_behind(room, 4)?;
            let room = room_behind(room, indicator_len(*indicator))?;
            room_behind_sequence(room, Spaces::Kept, sequence)
        }
    }
}

#[cycle(room)]
#[tactic(auto, using(crate::proofs::lemmas::tree::Views::view_stream_is), unfolding(cbor_edn_model::specs::internal::Widths::width))]
fn room_behind_stream(room: usize, spaces: Spaces, stream: &Stream<'_>) -> Option<usize>
    requires { room < 2 ^ 64 - 1 }
    ensures { Leaves room (width spaces (view_stream texts stream.now)) result }
{
    let room = room_behind(room, 3)?;
    let room = room_behind(room, mandatory_len(spaces, &stream.space))?;
    room_behind_strings(room, spaces, &stream.strings)
}

#[cycle(room)]
#[tactic(auto, using(crate::proofs::lemmas::Rules::room_behind_strings), unfolding(cbor_edn_model::specs::internal::Widths::width))]
fn room_behind_strings(room: usize, spaces: Spaces, strings: &Strings<'_>) -> Option<usize>
    requires { room < 2 ^ 64 - 1 }
    ensures { Leaves room (width spaces (view_strings texts strings.now)) result }
{
    let room = room_behind_string_row(room, spaces, &strings.row)?;
    let room = room_behind_string(room, spaces.in_stream(), &strings.last)?;
    room_behind(room, list_end_len(spaces, &strings.end))
}

#[cycle(room)]
#[tactic(auto, unfolding(cbor_edn_model::specs::internal::Widths::width))]
fn room_behind_string_row(
    room: usize,
    spaces: Spaces,
    row: &[(CborString<'_>, Separator<'_>)],
) -> Option<usize>
    requires { room < 2 ^ 64 - 1 }
    ensures { Leaves room (entries_width spaces (map (seen_string texts) row.now)) result }
{
    let mut room = room;
    for (string, separator) in row {
        room = room_behind_string(room, spaces.in_stream(), string)?;
        room = room_behind(room, separator_len(spaces, separator))?;
    }
    Some(room)
}

#[cycle(room)]
#[tactic(auto, unfolding(cbor_edn_model::specs::internal::Widths::width))]
fn room_behind_list(room: usize, spaces: Spaces, list: &ItemList<'_>) -> Option<usize>
    requires { room < 2 ^ 64 - 1 }
    ensures { Leaves room (width spaces (view_list texts list.now)) result }
{
    match list {
        ItemList::Present { head, space, items } => {
            let room = room_behind(room, head.len(spaces))?;
            let room = room_behind(room, space_len(spaces, space))?;
            room_behind_items(room, spaces, items)
        }
        ItemList::Absent { indicator, space } => {
            let room = room_behind(room, indicator_len(*indicator))?;
            room_behind(room, space_len(spaces, space))
        }
    }
}

#[cycle(room)]
#[tactic(auto, using(crate::proofs::lemmas::Rules::room_behind_items), unfolding(cbor_edn_model::specs::internal::Widths::width))]
fn room_behind_items(room: usize, spaces: Spaces, items: &Items<'_>) -> Option<usize>
    requires { room < 2 ^ 64 - 1 }
    ensures { Leaves room (width spaces (view_items texts items.now)) result }
{
    let room = room_behind_row(room, spaces, &items.row)?;
    let room = room_behind_item(room, spaces, &items.last)?;
    room_behind(room, list_end_len(spaces, &items.end))
}

#[cycle(room)]
#[tactic(auto, unfolding(cbor_edn_model::specs::internal::Widths::width))]
fn room_behind_row(room: usize, spaces: Spaces, row: &[(Item<'_>, Separator<'_>)]) -> Option<usize>
    requires { room < 2 ^ 64 - 1 }
    ensures { Leaves room (entries_width spaces (map (seen texts) row.now)) result }
{
    let mut room = room;
    for (item, separator) in row {
        room = room_behind_item(room, spaces, item)?;
        room = room_behind(room, separator_len(spaces, separator))?;
    }
    Some(room)
}

#[cycle(room)]
#[tactic(auto, unfolding(cbor_edn_model::specs::internal::Widths::width))]
fn room_behind_pair_list(room: usize, spaces: Spaces, list: &PairList<'_>) -> Option<usize>
    requires { room < 2 ^ 64 - 1 }
    ensures { Leaves room (width spaces (view_pair_list texts list.now)) result }
{
    match list {
        PairList::Present { head, space, pairs } => {
            let room = room_behind(room, head.len(spaces))?;
            let room = room_behind(room, space_len(spaces, space))?;
            room_behind_pairs(room, spaces, pairs)
        }
        PairList::Absent { indicator, space } => {
            let room = room_behind(room, indicator_len(*indicator))?;
            room_behind(room, space_len(spaces, space))
        }
    }
}

#[cycle(room)]
#[tactic(auto, using(crate::proofs::lemmas::Rules::room_behind_pairs), unfolding(cbor_edn_model::specs::internal::Widths::width))]
fn room_behind_pairs(room: usize, spaces: Spaces, pairs: &Pairs<'_>) -> Option<usize>
    requires { room < 2 ^ 64 - 1 }
    ensures { Leaves room (width spaces (view_pairs texts pairs.now)) result }
{
    let room = room_behind_pair_row(room, spaces, &pairs.row)?;
    let room = room_behind_pair(room, spaces, &pairs.last)?;
    room_behind(room, list_end_len(spaces, &pairs.end))
}

#[cycle(room)]
fn room_behind_pair_row(
    room: usize,
    spaces: Spaces,
    row: &[(Pair<'_>, Separator<'_>)],
) -> Option<usize>
    requires { room < 2 ^ 64 - 1 }
    ensures { Leaves room (entries_width spaces (map (seen_pair texts) row.now)) result }
{
    let mut room = room;
    for (pair, separator) in row {
        room = room_behind_pair(room, spaces, pair)?;
        room = room_behind(room, separator_len(spaces, separator))?;
    }
    Some(room)
}

#[inline(always)]
#[cycle(room)]
#[tactic(auto, unfolding(cbor_edn_model::specs::internal::Widths::width))]
fn room_behind_pair(room: usize, spaces: Spaces, pair: &Pair<'_>) -> Option<usize>
    requires { room < 2 ^ 64 - 1 }
    ensures { Leaves room (width spaces (view_pair texts pair.now)) result }
{
    let room = room_behind_item(room, spaces, &pair.key)?;
    let room = room_behind(room, space_len(spaces, &pair.before_colon))?;
    let room = room_behind(room, 1)?;
    let room = room_behind(room, space_len(spaces.wide(), &pair.after_colon))?;
    room_behind_item(room, spaces, &pair.value)
}
