//! How deep items nest, counted bottom up.
ghost use Rattle.std.specs.Prelude.{◌≡◌, map};
ghost use Rattle.cbor_edn_model.specs.visit.Depth.{depth};
ghost use Rattle.cbor_edn_model.specs.tree.Trees.{tree_nesting};
ghost use Rattle.cbor_edn_model.specs.tree.TreeLeaves.{texts};
ghost use Rattle.cbor_edn_core.specs.tree.Nestings.{nesting_by, entries_nesting, pieces_nesting};
ghost use Rattle.cbor_edn_model.specs.internal.Widths.{capped};
ghost use Rattle.cbor_edn_core.specs.tree.View.{item_tree, standalone_tree, sequence_tree, seen, seen_pair, seen_piece, seen_string, view_items, view_list, view_pair, view_pair_list, view_pairs, view_piece, view_stream, view_string, view_strings};

use crate::tree::{
    CborString, InnerItem, Item, ItemList, Items, OpenerKind, Pair, PairList, Pairs, Piece,
    Sequence, StandaloneItem, Stream, Strings,
};
use cbor_edn_model::visit::depth::depth_of_embedded;
use cbor_edn_parts::space::{Separator, Space};

impl Item<'_> {
    /// How deep arrays, maps, tags, `simple(..)` and embedded sequences nest in the item, which is the least limit at which its text is
    /// read; the greatest number where it is more.
    #[tactic(auto, using(crate::proofs::lemmas::tree::Nestings::nesting_read))]
    pub fn nesting(&self) -> usize
        ensures { result ≡ capped (tree_nesting (item_tree self.now)) }
    {
        item_nesting(self, Levels::Read)
    }
}

impl Sequence<'_> {
    /// How deep the sequence nests: as its deepest item does.
    #[tactic(auto, using(crate::proofs::lemmas::tree::Nestings::nesting_read))]
    pub fn nesting(&self) -> usize
        ensures { result ≡ capped (tree_nesting (sequence_tree self.now)) }
    {
        sequence_nesting(self, Levels::Read)
    }
}

/// How deep the item nests as visits count it, or the greatest number where it is more.
#[tactic(auto, using(crate::proofs::lemmas::tree::Nestings::nesting_visited))]
pub(crate) fn item_depth(item: &Item<'_>) -> usize
    ensures { result ≡ capped (depth (item_tree item.now)) }
{
    item_nesting(item, Levels::Visited)
}

/// What is a level. Arrays, maps, tags and embedded sequences always are.
#[derive(Clone, Copy)]
enum Levels {
    /// No more, and nothing counts in `simple(..)`, which no visit enters.
    Visited,
    /// `simple(..)` too.
    Read,
}

/// How deep the item nests by the levels that count, or the greatest number where it is more.
#[cycle(nesting)]
#[tactic(auto, using(crate::proofs::lemmas::tree::Views::strings_are))]
fn item_nesting(item: &Item<'_>, levels: Levels) -> usize
    ensures { result ≡ capped (nesting_by levels (item_tree item.now)) }
{
    match &item.inner {
        InnerItem::Number(..)
        | InnerItem::NonFinite(..)
        | InnerItem::Named(_)
        | InnerItem::Literal(..) => 0,
        InnerItem::Enclosed(opener, content) => match (opener.kind, levels) {
            (OpenerKind::Simple, Levels::Visited) => 0,
            (OpenerKind::Simple, Levels::Read) | (OpenerKind::Tag(..), _) => {
                standalone_nesting(content, levels).saturating_add(1)
            }
        },
        InnerItem::Array(list) => list_nesting(list, levels).saturating_add(1),
        InnerItem::Map(list) => pair_list_nesting(list, levels).saturating_add(1),
        InnerItem::String(string) => string_nesting(string, levels),
        InnerItem::Stream(stream) => stream_nesting(stream, levels),
    }
}

#[cycle(nesting)]
fn standalone_nesting(item: &StandaloneItem<'_>, levels: Levels) -> usize
    ensures { result ≡ capped (nesting_by levels (standalone_tree item.now)) }
{
    item_nesting(&item.item, levels)
}

#[cycle(nesting)]
#[tactic(auto, using(crate::proofs::lemmas::tree::Views::view_sequence_is))]
fn sequence_nesting(sequence: &Sequence<'_>, levels: Levels) -> usize
    ensures { result ≡ capped (nesting_by levels (sequence_tree sequence.now)) }
{
    match &sequence.items {
        None => 0,
        Some(items) => items_nesting(items, levels),
    }
}

#[cycle(nesting)]
fn list_nesting(list: &ItemList<'_>, levels: Levels) -> usize
    ensures { result ≡ capped (nesting_by levels (view_list texts list.now)) }
{
    match list {
        ItemList::Present { items, .. } => items_nesting(items, levels),
        ItemList::Absent { .. } => 0,
    }
}

#[cycle(nesting)]
#[tactic(auto, using(crate::proofs::lemmas::tree::Views::view_items_is, crate::proofs::lemmas::tree::Nestings::nesting_entries))]
fn items_nesting(items: &Items<'_>, levels: Levels) -> usize
    ensures { result ≡ capped (nesting_by levels (view_items texts items.now)) }
{
    row_nesting(&items.row, levels).max(item_nesting(&items.last, levels))
}

#[cycle(nesting)]
fn row_nesting(row: &[(Item<'_>, Separator<'_>)], levels: Levels) -> usize
    ensures { result ≡ capped (entries_nesting levels (map (seen texts) row.now)) }
{
    let mut deepest = 0;
    for at in (0..row.len()).rev() {
        deepest = item_nesting(&row[at].0, levels).max(deepest);
    }
    deepest
}

#[cycle(nesting)]
fn pair_list_nesting(list: &PairList<'_>, levels: Levels) -> usize
    ensures { result ≡ capped (nesting_by levels (view_pair_list texts list.now)) }
{
    match list {
        PairList::Present { pairs, .. } => pairs_nesting(pairs, levels),
        PairList::Absent { .. } => 0,
    }
}

#[cycle(nesting)]
#[tactic(auto, using(crate::proofs::lemmas::tree::Views::view_pairs_is, crate::proofs::lemmas::tree::Nestings::nesting_entries))]
fn pairs_nesting(pairs: &Pairs<'_>, levels: Levels) -> usize
    ensures { result ≡ capped (nesting_by levels (view_pairs texts pairs.now)) }
{
    pair_row_nesting(&pairs.row, levels).max(pair_nesting(&pairs.last, levels))
}

#[cycle(nesting)]
fn pair_row_nesting(row: &[(Pair<'_>, Separator<'_>)], levels: Levels) -> usize
    ensures { result ≡ capped (entries_nesting levels (map (seen_pair texts) row.now)) }
{
    let mut deepest = 0;
    for at in (0..row.len()).rev() {
        deepest = pair_nesting(&row[at].0, levels).max(deepest);
    }
    deepest
}

#[cycle(nesting)]
fn pair_nesting(pair: &Pair<'_>, levels: Levels) -> usize
    ensures { result ≡ capped (nesting_by levels (view_pair texts pair.now)) }
{
    item_nesting(&pair.key, levels).max(item_nesting(&pair.value, levels))
}

#[cycle(nesting)]
#[tactic(auto, using(crate::proofs::lemmas::tree::Nestings::nesting_pieces))]
fn string_nesting(string: &CborString<'_>, levels: Levels) -> usize
    ensures { result ≡ capped (nesting_by levels (view_string texts string.now)) }
{
    piece_row_nesting(&string.row, levels).max(piece_nesting(&string.last, levels))
}

#[cycle(nesting)]
fn piece_row_nesting(row: &[(Piece<'_>, Space<'_>, Space<'_>)], levels: Levels) -> usize
    ensures { result ≡ capped (pieces_nesting levels (map (seen_piece texts) row.now)) }
{
    let mut deepest = 0;
    for at in (0..row.len()).rev() {
        deepest = piece_nesting(&row[at].0, levels).max(deepest);
    }
    deepest
}

#[cycle(nesting)]
fn piece_nesting(piece: &Piece<'_>, levels: Levels) -> usize
    ensures { result ≡ capped (nesting_by levels (view_piece texts piece.now)) }
{
    match piece {
        Piece::Literal(..) | Piece::Ellipsis(_) => 0,
        Piece::Embedded(_, sequence) => depth_of_embedded(sequence_nesting(sequence, levels)),
    }
}

#[cycle(nesting)]
#[tactic(auto, using(crate::proofs::lemmas::tree::Views::view_stream_is))]
fn stream_nesting(stream: &Stream<'_>, levels: Levels) -> usize
    ensures { result ≡ capped (nesting_by levels (view_stream texts stream.now)) }
{
    strings_nesting(&stream.strings, levels)
}

#[cycle(nesting)]
#[tactic(auto, using(crate::proofs::lemmas::tree::Views::view_strings_is, crate::proofs::lemmas::tree::Nestings::nesting_entries))]
fn strings_nesting(strings: &Strings<'_>, levels: Levels) -> usize
    ensures { result ≡ capped (nesting_by levels (view_strings texts strings.now)) }
{
    string_row_nesting(&strings.row, levels).max(string_nesting(&strings.last, levels))
}

#[cycle(nesting)]
fn string_row_nesting(row: &[(CborString<'_>, Separator<'_>)], levels: Levels) -> usize
    ensures { result ≡ capped (entries_nesting levels (map (seen_string texts) row.now)) }
{
    let mut deepest = 0;
    for at in (0..row.len()).rev() {
        deepest = string_nesting(&row[at].0, levels).max(deepest);
    }
    deepest
}
