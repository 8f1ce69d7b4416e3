//! Whether a tag stands in a tree.
ghost use Rattle.std.specs.Prelude.{◌≡◌, map};
ghost use Rattle.cbor_edn_model.specs.visit.Tagged.{has_tag};
ghost use Rattle.cbor_edn_model.specs.tree.TreeLeaves.{texts};
ghost use Rattle.cbor_edn_model.specs.internal.TaggedRows.{entries_have_tag, pieces_have_tag};
ghost use Rattle.cbor_edn_core.specs.tree.View.{item_tree, sequence_tree, seen, seen_pair, seen_piece, seen_string, view_items, view_list, view_pair, view_pair_list, view_pairs, view_piece, view_stream, view_string, view_strings};

use crate::tree::{
    CborString, InnerItem, Item, ItemList, Items, OpenerKind, Pair, PairList, Pairs, Piece,
    Sequence, Stream, Strings,
};
use cbor_edn_parts::space::{Separator, Space};

#[cycle(tagged)]
#[tactic(auto, using(crate::proofs::lemmas::tree::Views::strings_are), unfolding(cbor_edn_model::specs::visit::Tagged::has_tag))]
#[inline(always)]
pub fn item_has_tag(item: &Item<'_>) -> bool
    ensures { result ≡ has_tag (item_tree item.now) }
{
    match &item.inner {
        InnerItem::Number(..)
        | InnerItem::NonFinite(..)
        | InnerItem::Named(_)
        | InnerItem::Literal(..) => false,
        _ => inner_has_tag(item),
    }
}

#[cycle(tagged)]
#[tactic(auto, using(crate::proofs::lemmas::tree::Views::strings_are), unfolding(cbor_edn_model::specs::visit::Tagged::has_tag))]
fn inner_has_tag(item: &Item<'_>) -> bool
    ensures { result ≡ has_tag (item_tree item.now) }
{
    match &item.inner {
        InnerItem::Number(..)
        | InnerItem::NonFinite(..)
        | InnerItem::Named(_)
        | InnerItem::Literal(..) => false,
        InnerItem::Enclosed(opener, _) => match opener.kind {
            OpenerKind::Tag(..) => true,
            OpenerKind::Simple => false,
        },
        InnerItem::Array(list) => list_has_tag(list),
        InnerItem::Map(list) => pair_list_has_tag(list),
        InnerItem::String(string) => string_has_tag(string),
        InnerItem::Stream(stream) => stream_has_tag(stream),
    }
}

/// Whether a tag stands in the items of a sequence.
#[cycle(tagged)]
#[tactic(auto, using(crate::proofs::lemmas::tree::Views::view_sequence_is), unfolding(cbor_edn_model::specs::visit::Tagged::has_tag))]
pub(super) fn sequence_has_tag(sequence: &Sequence<'_>) -> bool
    ensures { result ≡ has_tag (sequence_tree sequence.now) }
{
    match &sequence.items {
        None => false,
        Some(items) => items_have_tag(items),
    }
}

#[cycle(tagged)]
#[tactic(auto, unfolding(cbor_edn_model::specs::visit::Tagged::has_tag))]
fn list_has_tag(list: &ItemList<'_>) -> bool
    ensures { result ≡ has_tag (view_list texts list.now) }
{
    match list {
        ItemList::Present { items, .. } => items_have_tag(items),
        ItemList::Absent { .. } => false,
    }
}

#[cycle(tagged)]
#[tactic(auto, using(crate::proofs::lemmas::Rules::items_have_tag), unfolding(cbor_edn_model::specs::visit::Tagged::has_tag))]
fn items_have_tag(items: &Items<'_>) -> bool
    ensures { result ≡ has_tag (view_items texts items.now) }
{
    row_has_tag(&items.row) || item_has_tag(&items.last)
}

#[cycle(tagged)]
#[tactic(auto, unfolding(cbor_edn_model::specs::visit::Tagged::has_tag))]
fn row_has_tag(row: &[(Item<'_>, Separator<'_>)]) -> bool
    ensures { result ≡ entries_have_tag (map (seen texts) row.now) }
{
    let mut found = false;
    for at in (0..row.len()).rev() {
        found = item_has_tag(&row[at].0) || found;
    }
    found
}

#[cycle(tagged)]
#[tactic(auto, unfolding(cbor_edn_model::specs::visit::Tagged::has_tag))]
fn pair_list_has_tag(list: &PairList<'_>) -> bool
    ensures { result ≡ has_tag (view_pair_list texts list.now) }
{
    match list {
        PairList::Present { pairs, .. } => pairs_have_tag(pairs),
        PairList::Absent { .. } => false,
    }
}

#[cycle(tagged)]
#[tactic(auto, using(crate::proofs::lemmas::Rules::pairs_have_tag), unfolding(cbor_edn_model::specs::visit::Tagged::has_tag))]
fn pairs_have_tag(pairs: &Pairs<'_>) -> bool
    ensures { result ≡ has_tag (view_pairs texts pairs.now) }
{
    pair_row_has_tag(&pairs.row) || pair_has_tag(&pairs.last)
}

#[cycle(tagged)]
#[tactic(auto, unfolding(cbor_edn_model::specs::visit::Tagged::has_tag))]
fn pair_row_has_tag(row: &[(Pair<'_>, Separator<'_>)]) -> bool
    ensures { result ≡ entries_have_tag (map (seen_pair texts) row.now) }
{
    let mut found = false;
    for at in (0..row.len()).rev() {
        found = pair_has_tag(&row[at].0) || found;
    }
    found
}

#[cycle(tagged)]
#[tactic(auto, unfolding(cbor_edn_model::specs::visit::Tagged::has_tag))]
fn pair_has_tag(pair: &Pair<'_>) -> bool
    ensures { result ≡ has_tag (view_pair texts pair.now) }
{
    item_has_tag(&pair.key) || item_has_tag(&pair.value)
}

#[cycle(tagged)]
#[tactic(auto, using(cbor_edn_model::proofs::lemmas::visit::Untagged::has_tag_pieces), unfolding(cbor_edn_model::specs::visit::Tagged::has_tag))]
fn string_has_tag(string: &CborString<'_>) -> bool
    ensures { result ≡ has_tag (view_string texts string.now) }
{
    piece_row_has_tag(&string.row) || piece_has_tag(&string.last)
}

#[cycle(tagged)]
#[tactic(auto, unfolding(cbor_edn_model::specs::visit::Tagged::has_tag))]
fn piece_row_has_tag(row: &[(Piece<'_>, Space<'_>, Space<'_>)]) -> bool
    ensures { result ≡ pieces_have_tag (map (seen_piece texts) row.now) }
{
    let mut found = false;
    for at in (0..row.len()).rev() {
        found = piece_has_tag(&row[at].0) || found;
    }
    found
}

#[cycle(tagged)]
#[tactic(auto, unfolding(cbor_edn_model::specs::visit::Tagged::has_tag))]
fn piece_has_tag(piece: &Piece<'_>) -> bool
    ensures { result ≡ has_tag (view_piece texts piece.now) }
{
    match piece {
        Piece::Literal(..) | Piece::Ellipsis(_) => false,
        Piece::Embedded(_, sequence) => sequence_has_tag(sequence),
    }
}

#[cycle(tagged)]
#[tactic(auto, using(crate::proofs::lemmas::tree::Views::view_stream_is), unfolding(cbor_edn_model::specs::visit::Tagged::has_tag))]
fn stream_has_tag(stream: &Stream<'_>) -> bool
    ensures { result ≡ has_tag (view_stream texts stream.now) }
{
    strings_have_tag(&stream.strings)
}

#[cycle(tagged)]
#[tactic(auto, using(crate::proofs::lemmas::Rules::strings_have_tag), unfolding(cbor_edn_model::specs::visit::Tagged::has_tag))]
fn strings_have_tag(strings: &Strings<'_>) -> bool
    ensures { result ≡ has_tag (view_strings texts strings.now) }
{
    string_row_has_tag(&strings.row) || string_has_tag(&strings.last)
}

#[cycle(tagged)]
#[tactic(auto, unfolding(cbor_edn_model::specs::visit::Tagged::has_tag))]
fn string_row_has_tag(row: &[(CborString<'_>, Separator<'_>)]) -> bool
    ensures { result ≡ entries_have_tag (map (seen_string texts) row.now) }
{
    let mut found = false;
    for at in (0..row.len()).rev() {
        found = string_has_tag(&row[at].0) || found;
    }
    found
}
