//! Whether two trees are written the same, spaces included.
ghost use Rattle.std.specs.Prelude.{◌≡◌, ◌↔◌, IsTrue, map};
ghost use Rattle.cbor_edn_model.specs.internal.Same.{same_tree, same_entries, same_pieces, same_laws};
ghost use Rattle.cbor_edn_core.specs.tree.View.{view_list, view_items, seen, view_pair_list, view_pairs, view_pair, seen_pair, view_string, view_piece, seen_piece, view_stream, view_strings, seen_string, item_tree, standalone_tree, sequence_tree};
ghost use Rattle.cbor_edn_model.specs.tree.TreeLeaves.{texts};
ghost use Rattle.cbor_edn_model.specs.tree.Trees.{LastPieceTree, LiteralTree};
ghost use Rattle.cbor_edn_parts.specs.Leaves.{literal_bytes};

use crate::access::application::has_several_pieces;
use crate::tree::{
    CborString, Indicator, InnerItem, Item, ItemList, Items, Pair, PairList, Pairs, Piece,
    Sequence, StandaloneItem, Stream, Strings,
};
use cbor_edn_model::text::keyword::NonFinite;
use cbor_edn_parts::space::{Separator, Space};
use cbor_edn_parts::string::Literal;

impl PartialEq for Item<'_> {
    ghost eq = { λ a b. same_tree (item_tree a) (item_tree b) };

    ghost laws = { same_laws item_tree };

    fn eq(&self, other: &Self) -> bool {
        same_item(self, other)
    }
}

impl PartialEq for StandaloneItem<'_> {
    ghost eq = { λ a b. same_tree (standalone_tree a) (standalone_tree b) };

    ghost laws = { same_laws standalone_tree };

    fn eq(&self, other: &Self) -> bool {
        same_standalone(self, other)
    }
}

impl PartialEq for Sequence<'_> {
    ghost eq = { λ a b. same_tree (sequence_tree a) (sequence_tree b) };

    ghost laws = { same_laws sequence_tree };

    fn eq(&self, other: &Self) -> bool {
        same_sequence(self, other)
    }
}

#[cycle(same)]
fn same_item(a: &Item<'_>, b: &Item<'_>) -> bool
    ensures { result ≡ same_tree (item_tree a.now) (item_tree b.now) }
{
    match (&a.inner, &b.inner) {
        (InnerItem::Number(i, x), InnerItem::Number(j, y)) => *x == *y && *i == *j,
        (InnerItem::NonFinite(i, x), InnerItem::NonFinite(j, y)) => *x == *y && *i == *j,
        (InnerItem::Named(x), InnerItem::Named(y)) => *x == *y,
        (InnerItem::Enclosed(m, x), InnerItem::Enclosed(n, y)) => {
            m.kind == n.kind && same_standalone(x, y)
        }
        (InnerItem::Array(x), InnerItem::Array(y)) => same_list(x, y),
        (InnerItem::Map(x), InnerItem::Map(y)) => same_pair_list(x, y),
        (InnerItem::Literal(i, x), InnerItem::Literal(j, y)) => *x == *y && *i == *j,
        (InnerItem::Literal(i, x), InnerItem::String(y)) => is_literal(y, *i, x),
        (InnerItem::String(x), InnerItem::Literal(j, y)) => is_literal(x, *j, y),
        (InnerItem::String(x), InnerItem::String(y)) => same_string(x, y),
        (InnerItem::Stream(x), InnerItem::Stream(y)) => same_stream(x, y),
        _ => false,
    }
}

/// Whether the string is this literal alone.
fn is_literal(string: &CborString<'_>, indicator: Option<Indicator>, literal: &Literal<'_>) -> bool
    ensures { result ≡ same_tree (view_string texts string.now) (LastPieceTree (LiteralTree (literal_bytes literal.now) indicator)) }
{
    if has_several_pieces(string) {
        return false;
    }
    is_literal_piece(&string.last, indicator, literal)
}

fn is_literal_piece(piece: &Piece<'_>, indicator: Option<Indicator>, literal: &Literal<'_>) -> bool
    ensures { result ≡ same_tree (view_piece texts piece.now) (LiteralTree (literal_bytes literal.now) indicator) }
{
    match piece {
        Piece::Literal(i, l) => *l == *literal && *i == indicator,
        Piece::Ellipsis(_) | Piece::Embedded(..) => false,
    }
}

#[cycle(same)]
fn same_standalone(a: &StandaloneItem<'_>, b: &StandaloneItem<'_>) -> bool
    ensures { result ≡ same_tree (standalone_tree a.now) (standalone_tree b.now) }
{
    a.before == b.before && same_item(&a.item, &b.item) && a.after == b.after
}

#[cycle(same)]
#[tactic(auto, using(cbor_edn_model::proofs::lemmas::tree::EqualRows::same_strings))]
fn same_string(a: &CborString<'_>, b: &CborString<'_>) -> bool
    ensures { result ≡ same_tree (view_string texts a.now) (view_string texts b.now) }
{
    same_piece_row(&a.row, &b.row) && same_piece(&a.last, &b.last)
}

#[cycle(same)]
#[tactic(auto, using(cbor_edn_model::proofs::lemmas::tree::EqualRows::pieces_as_long))]
fn same_piece_row(
    a: &[(Piece<'_>, Space<'_>, Space<'_>)],
    b: &[(Piece<'_>, Space<'_>, Space<'_>)],
) -> bool
    ensures { result ≡ same_pieces (map (seen_piece texts) a.now) (map (seen_piece texts) b.now) }
{
    if a.len() != b.len() {
        return false;
    }
    for i in 0..a.len() {
        let (x, s, t) = &a[i];
        let (y, u, v) = &b[i];
        if !(same_piece(x, y) && *s == *u && *t == *v) {
            return false;
        }
    }
    true
}

#[cycle(same)]
fn same_piece(a: &Piece<'_>, b: &Piece<'_>) -> bool
    ensures { result ≡ same_tree (view_piece texts a.now) (view_piece texts b.now) }
{
    match (a, b) {
        (Piece::Literal(i, x), Piece::Literal(j, y)) => *x == *y && *i == *j,
        (Piece::Ellipsis(x), Piece::Ellipsis(y)) => *x == *y,
        (Piece::Embedded(i, x), Piece::Embedded(j, y)) => same_sequence(x, y) && *i == *j,
        _ => false,
    }
}

#[cycle(same)]
#[tactic(auto, using(crate::proofs::lemmas::tree::Views::view_sequence_is))]
fn same_sequence(a: &Sequence<'_>, b: &Sequence<'_>) -> bool
    ensures { result ≡ same_tree (sequence_tree a.now) (sequence_tree b.now) }
{
    match (&a.items, &b.items) {
        (None, None) => a.before == b.before,
        (Some(x), Some(y)) => a.before == b.before && same_items(x, y),
        _ => false,
    }
}

#[cycle(same)]
#[tactic(auto, using(crate::proofs::lemmas::tree::Views::view_stream_is))]
fn same_stream(a: &Stream<'_>, b: &Stream<'_>) -> bool
    ensures { result ≡ same_tree (view_stream texts a.now) (view_stream texts b.now) }
{
    a.space == b.space && same_strings(&a.strings, &b.strings)
}

#[cycle(same)]
#[tactic(auto, using(crate::proofs::lemmas::tree::Views::view_strings_is, cbor_edn_model::proofs::lemmas::tree::EqualRows::same_lists))]
fn same_strings(a: &Strings<'_>, b: &Strings<'_>) -> bool
    ensures { result ≡ same_tree (view_strings texts a.now) (view_strings texts b.now) }
{
    same_string_row(&a.row, &b.row) && same_string(&a.last, &b.last) && a.end == b.end
}

#[cycle(same)]
#[tactic(auto, using(cbor_edn_model::proofs::lemmas::tree::EqualRows::rows_as_long))]
fn same_string_row(
    a: &[(CborString<'_>, Separator<'_>)],
    b: &[(CborString<'_>, Separator<'_>)],
) -> bool
    ensures { result ≡ same_entries (map (seen_string texts) a.now) (map (seen_string texts) b.now) }
{
    if a.len() != b.len() {
        return false;
    }
    for i in 0..a.len() {
        let (x, s) = &a[i];
        let (y, t) = &b[i];
        if !(same_string(x, y) && *s == *t) {
            return false;
        }
    }
    true
}

#[cycle(same)]
fn same_list(a: &ItemList<'_>, b: &ItemList<'_>) -> bool
    ensures { result ≡ same_tree (view_list texts a.now) (view_list texts b.now) }
{
    match (a, b) {
        (
            ItemList::Present {
                head: h,
                space: s,
                items: x,
            },
            ItemList::Present {
                head: g,
                space: t,
                items: y,
            },
        ) => { h.is_same(g) && *s == *t && same_items(x, y) }
        (
            ItemList::Absent {
                indicator: i,
                space: s,
            },
            ItemList::Absent {
                indicator: j,
                space: t,
            },
        ) => { *i == *j && *s == *t }
        _ => false,
    }
}

#[cycle(same)]
#[tactic(auto, using(crate::proofs::lemmas::tree::Views::view_items_is, cbor_edn_model::proofs::lemmas::tree::EqualRows::same_lists))]
fn same_items(a: &Items<'_>, b: &Items<'_>) -> bool
    ensures { result ≡ same_tree (view_items texts a.now) (view_items texts b.now) }
{
    same_row(&a.row, &b.row) && same_item(&a.last, &b.last) && a.end == b.end
}

#[cycle(same)]
#[tactic(auto, using(cbor_edn_model::proofs::lemmas::tree::EqualRows::rows_as_long))]
fn same_row(a: &[(Item<'_>, Separator<'_>)], b: &[(Item<'_>, Separator<'_>)]) -> bool
    ensures { result ≡ same_entries (map (seen texts) a.now) (map (seen texts) b.now) }
{
    if a.len() != b.len() {
        return false;
    }
    for i in 0..a.len() {
        let (x, s) = &a[i];
        let (y, t) = &b[i];
        if !(same_item(x, y) && *s == *t) {
            return false;
        }
    }
    true
}

#[cycle(same)]
fn same_pair_list(a: &PairList<'_>, b: &PairList<'_>) -> bool
    ensures { result ≡ same_tree (view_pair_list texts a.now) (view_pair_list texts b.now) }
{
    match (a, b) {
        (
            PairList::Present {
                head: h,
                space: s,
                pairs: x,
            },
            PairList::Present {
                head: g,
                space: t,
                pairs: y,
            },
        ) => { h.is_same(g) && *s == *t && same_pairs(x, y) }
        (
            PairList::Absent {
                indicator: i,
                space: s,
            },
            PairList::Absent {
                indicator: j,
                space: t,
            },
        ) => { *i == *j && *s == *t }
        _ => false,
    }
}

#[cycle(same)]
#[tactic(auto, using(crate::proofs::lemmas::tree::Views::view_pairs_is, cbor_edn_model::proofs::lemmas::tree::EqualRows::same_lists))]
fn same_pairs(a: &Pairs<'_>, b: &Pairs<'_>) -> bool
    ensures { result ≡ same_tree (view_pairs texts a.now) (view_pairs texts b.now) }
{
    same_pair_row(&a.row, &b.row) && same_pair(&a.last, &b.last) && a.end == b.end
}

#[cycle(same)]
#[tactic(auto, using(cbor_edn_model::proofs::lemmas::tree::EqualRows::rows_as_long))]
fn same_pair_row(a: &[(Pair<'_>, Separator<'_>)], b: &[(Pair<'_>, Separator<'_>)]) -> bool
    ensures { result ≡ same_entries (map (seen_pair texts) a.now) (map (seen_pair texts) b.now) }
{
    if a.len() != b.len() {
        return false;
    }
    for i in 0..a.len() {
        let (x, s) = &a[i];
        let (y, t) = &b[i];
        if !(same_pair(x, y) && *s == *t) {
            return false;
        }
    }
    true
}

#[cycle(same)]
fn same_pair(a: &Pair<'_>, b: &Pair<'_>) -> bool
    ensures { result ≡ same_tree (view_pair texts a.now) (view_pair texts b.now) }
{
    same_item(&a.key, &b.key)
        && a.before_colon == b.before_colon
        && a.after_colon == b.after_colon
        && same_item(&a.value, &b.value)
}

impl<'a> Item<'a> {
    /// Whether two items are written the same, the spaces in them included, as `==` tests: not `1` and `0x1`, nor `[1]` and `[ 1]`.
    #[tactic(auto, using(cbor_edn_model::specs::internal::Same::same_are, cbor_edn_model::specs::internal::Same::same_if))]
    pub fn is_same(&self, other: &Item<'a>) -> bool
        ensures { IsTrue result ↔ (item_tree self.now ≡ item_tree other.now) }
    {
        *self == *other
    }
}

impl<'a> StandaloneItem<'a> {
    /// Whether two items are written the same, the spaces round them included, as `==` tests.
    pub fn is_same(&self, other: &StandaloneItem<'a>) -> bool
        ensures { IsTrue result ↔ (standalone_tree self.now ≡ standalone_tree other.now) }
    {
        *self == *other
    }
}

impl<'a> Sequence<'a> {
    /// Whether two sequences are written the same, all spaces included, as `==` tests.
    #[tactic(auto, using(cbor_edn_model::specs::internal::Same::same_are, cbor_edn_model::specs::internal::Same::same_if))]
    pub fn is_same(&self, other: &Sequence<'a>) -> bool
        ensures { IsTrue result ↔ (sequence_tree self.now ≡ sequence_tree other.now) }
    {
        *self == *other
    }
}
