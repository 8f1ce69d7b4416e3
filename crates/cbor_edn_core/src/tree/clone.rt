//! Copies of trees. Memory comes from the allocator of what is copied.
ghost use Rattle.std.specs.Prelude.{◌≡◌, ◌∷◌, ◌++◌, [], map, IfOk, OnOk};
ghost use Rattle.cbor_edn_parts.specs.Leaves.{space_bytes, separator_bytes, list_end_bytes, number_bytes, literal_bytes, ellipsis_bytes};
ghost use Rattle.cbor_edn_core.specs.declared.tree.ItemsOf.{out-ItemsOf};
ghost use Rattle.cbor_edn_core.specs.declared.tree.SequenceOf.{out-SequenceOf};
ghost use Rattle.cbor_edn_core.specs.declared.tree.StreamOf.{out-StreamOf};
ghost use Rattle.cbor_edn_core.specs.declared.tree.StringsOf.{out-StringsOf};
ghost use Rattle.cbor_edn_core.specs.tree.View.{pair_row_onto, view_some, view_list, view_items, seen, view_pair_list, view_pair, seen_pair, view_string, view_piece, seen_piece, view_stream, seen_string, item_tree, standalone_tree, sequence_tree};
ghost use Rattle.cbor_edn_model.specs.tree.Items.{Array, Map};
ghost use Rattle.cbor_edn_model.specs.tree.TreeLeaves.{texts};
ghost use Rattle.cbor_edn_model.specs.tree.Trees.{NumberTree, EnclosedTree, ListTree, FullTree, EmptyTree, StringTree, ChunkTree, LastPieceTree, LiteralTree, EllipsisTree, EmbeddedTree, SequenceTree, NothingTree, ElementTree, LastTree};
ghost use Rattle.cbor_edn_model.specs.text.ListHeads.{view_list_head};

use crate::tree::{
    CborString, Indicator, InnerItem, Item, ItemList, ItemOf, Items, Opener, Pair, PairList, Pairs,
    Piece, Sequence, SequenceOf, StandaloneItem, StandaloneItemOf, Stream, Strings,
};
use cbor_edn_model::text::list_head::ListHead;
use cbor_edn_parts::number::Number;
use cbor_edn_parts::space::copy::clone_spaces;
use cbor_edn_parts::space::{ListEnd, Separator, Space};
use cbor_edn_parts::string::{Ellipsis, Literal};
use std::alloc::{AllocError, Global};

impl<'a> Item<'a> {
    /// A copy of the item, with the spaces in it. What is borrowed from a text is borrowed by the copy too. Fails where memory runs out.
    pub fn clone(&self) -> Result<Item<'a>, AllocError>
        ensures { IfOk result (λ t. item_tree t ≡ item_tree self.now) }
    {
        clone_item(self)
    }
}

impl<'a> StandaloneItem<'a> {
    /// A copy of the item, with the spaces round it. What is borrowed from a text is borrowed by the copy too. Fails where memory runs
    /// out.
    pub fn clone(&self) -> Result<StandaloneItem<'a>, AllocError>
        ensures { IfOk result (λ t. standalone_tree t ≡ standalone_tree self.now) }
    {
        clone_standalone(self)
    }
}

impl<'a> Sequence<'a> {
    /// A copy of the items, with the spaces round them. What is borrowed from a text is borrowed by the copy too. Fails where memory runs
    /// out.
    pub fn clone(&self) -> Result<Sequence<'a>, AllocError>
        ensures { IfOk result (λ t. sequence_tree t ≡ sequence_tree self.now) }
    {
        clone_sequence(self)
    }
}

// A copy nests as deep as its tree. So a function that recurs holds copies of what nests alone, and hands them to one out of
// line, which copies the leaves round them. The last copy is handed over as it came: looking into it, and dropping those before
// it where it failed, would take stack in the function that recurs.

#[cycle(copy)]
#[tactic(auto, using(crate::proofs::lemmas::tree::Views::view_string_is))]
fn clone_item<'a>(item: &Item<'a>) -> Result<Item<'a>, AllocError>
    ensures { IfOk result (λ t. item_tree t ≡ item_tree item.now) }
{
    match &item.inner {
        InnerItem::Number(indicator, number) => clone_number(number, *indicator),
        InnerItem::NonFinite(indicator, float) => Ok(ItemOf {
            inner: InnerItem::NonFinite(*indicator, *float),
        }),
        InnerItem::Named(name) => Ok(ItemOf {
            inner: InnerItem::Named(*name),
        }),
        InnerItem::Enclosed(opener, content) => {
            clone_enclosed(*Box::allocator(content), *opener, content)
        }
        InnerItem::Array(list) => clone_array(*Box::allocator(list), list),
        InnerItem::Map(list) => clone_map(*Box::allocator(list), list),
        InnerItem::Literal(indicator, literal) => clone_lone_literal(literal, *indicator),
        InnerItem::String(string) => clone_joined(*Box::allocator(string), string),
        InnerItem::Stream(stream) => clone_stream(*Box::allocator(stream), stream),
    }
}

#[inline(never)]
fn clone_number<'a>(
    number: &Number<'a>,
    indicator: Option<Indicator>,
) -> Result<Item<'a>, AllocError>
    ensures { IfOk result (λ t. item_tree t ≡ NumberTree (number_bytes number.now) indicator) }
{
    let number = number.clone()?;
    Ok(ItemOf {
        inner: InnerItem::Number(indicator, number),
    })
}

#[inline(never)]
fn clone_lone_literal<'a>(
    literal: &Literal<'a>,
    indicator: Option<Indicator>,
) -> Result<Item<'a>, AllocError>
    ensures { IfOk result (λ t. item_tree t ≡ StringTree (LastPieceTree (LiteralTree (literal_bytes literal.now) indicator))) }
{
    let literal = literal.clone()?;
    Ok(Item::literal(indicator, literal))
}

#[cycle(copy)]
#[inline(never)]
fn clone_enclosed<'a>(
    alloc: Global,
    opener: Opener,
    content: &StandaloneItem<'a>,
) -> Result<Item<'a>, AllocError>
    ensures { IfOk result (λ t. item_tree t ≡ EnclosedTree opener.kind (standalone_tree content.now)) }
{
    let copy = clone_standalone(content)?;
    Item::enclosed(alloc, opener, copy)
}

#[cycle(copy)]
#[inline(never)]
fn clone_standalone<'a>(content: &StandaloneItem<'a>) -> Result<StandaloneItem<'a>, AllocError>
    ensures { IfOk result (λ t. standalone_tree t ≡ standalone_tree content.now) }
{
    let (before, after) = clone_spaces(&content.before, &content.after)?;
    let item = clone_item(&content.item)?;
    Ok(StandaloneItemOf {
        before,
        item,
        after,
    })
}

#[cycle(copy)]
#[inline(never)]
fn clone_array<'a>(alloc: Global, list: &ItemList<'a>) -> Result<Item<'a>, AllocError>
    ensures { IfOk result (λ t. item_tree t ≡ ListTree Array (view_list texts list.now)) }
{
    match list {
        ItemList::Present { head, space, items } => {
            let items = clone_items(items)?;
            make_array(alloc, head, space, items)
        }
        ItemList::Absent { indicator, space } => make_empty_array(alloc, *indicator, space),
    }
}

#[inline(never)]
fn make_array<'a>(
    alloc: Global,
    head: &ListHead<'a>,
    space: &Space<'a>,
    items: Items<'a>,
) -> Result<Item<'a>, AllocError>
    ensures { IfOk result (λ t. item_tree t ≡ ListTree Array (FullTree (view_list_head texts head.now) (space_bytes space.now) (view_items texts items.entry))) }
{
    let head = head.clone()?;
    let space = space.clone()?;
    Item::array(alloc, ItemList::Present { head, space, items })
}

#[inline(never)]
fn make_empty_array<'a>(
    alloc: Global,
    indicator: Option<Indicator>,
    space: &Space<'a>,
) -> Result<Item<'a>, AllocError>
    ensures { IfOk result (λ t. item_tree t ≡ ListTree Array (EmptyTree indicator (space_bytes space.now))) }
{
    let space = space.clone()?;
    Item::array(alloc, ItemList::Absent { indicator, space })
}

#[cycle(copy)]
#[inline(never)]
#[tactic(auto, using(crate::proofs::lemmas::tree::Views::view_pairs_is))]
fn clone_map<'a>(alloc: Global, list: &PairList<'a>) -> Result<Item<'a>, AllocError>
    ensures { IfOk result (λ t. item_tree t ≡ ListTree Map (view_pair_list texts list.now)) }
{
    match list {
        PairList::Present { head, space, pairs } => {
            let row = clone_pair_row(&pairs.row)?;
            let last = clone_pair(&pairs.last)?;
            make_map(alloc, head, space, row, last, &pairs.end)
        }
        PairList::Absent { indicator, space } => make_empty_map(alloc, *indicator, space),
    }
}

#[inline(never)]
#[tactic(auto, using(crate::proofs::lemmas::tree::Views::view_pairs_made))]
fn make_map<'a>(
    alloc: Global,
    head: &ListHead<'a>,
    space: &Space<'a>,
    row: Vec<(Pair<'a>, Separator<'a>)>,
    last: Pair<'a>,
    end: &ListEnd<'a>,
) -> Result<Item<'a>, AllocError>
    ensures { IfOk result (λ t. item_tree t ≡ ListTree Map (FullTree (view_list_head texts head.now) (space_bytes space.now) (pair_row_onto texts row.entry.items (LastTree (view_pair texts last.entry) (list_end_bytes end.now))))) }
{
    let head = head.clone()?;
    let space = space.clone()?;
    let end = end.clone()?;
    let pairs = Pairs { row, last, end };
    Item::map(alloc, PairList::Present { head, space, pairs })
}

#[inline(never)]
fn make_empty_map<'a>(
    alloc: Global,
    indicator: Option<Indicator>,
    space: &Space<'a>,
) -> Result<Item<'a>, AllocError>
    ensures { IfOk result (λ t. item_tree t ≡ ListTree Map (EmptyTree indicator (space_bytes space.now))) }
{
    let space = space.clone()?;
    Item::map(alloc, PairList::Absent { indicator, space })
}

#[cycle(copy)]
#[inline(never)]
#[tactic(auto, using(crate::proofs::lemmas::tree::Views::view_string_is))]
fn clone_joined<'a>(alloc: Global, string: &CborString<'a>) -> Result<Item<'a>, AllocError>
    ensures { IfOk result (λ t. item_tree t ≡ StringTree (view_string texts string.now)) }
{
    let copy = clone_string(string)?;
    Item::string(alloc, copy)
}

#[cycle(copy)]
#[inline(never)]
fn clone_string<'a>(string: &CborString<'a>) -> Result<CborString<'a>, AllocError>
    ensures { IfOk result (λ t. view_string texts t ≡ view_string texts string.now) }
{
    let row = clone_piece_row(&string.row)?;
    make_string(string, row, clone_piece(&string.last))
}

#[inline(never)]
fn make_string<'a>(
    string: &CborString<'a>,
    row: Vec<(Piece<'a>, Space<'a>, Space<'a>)>,
    last: Result<Piece<'a>, AllocError>,
) -> Result<CborString<'a>, AllocError>
    requires row { map (seen_piece texts) row.items ≡ map (seen_piece texts) string.now.row.items }
    requires last { IfOk last (λ t. view_piece texts t ≡ view_piece texts string.now.last) }
    ensures { IfOk result (λ t. view_string texts t ≡ view_string texts string.now) }
{
    let last = last?;
    Ok(CborString { row, last })
}

#[cycle(copy)]
#[inline(never)]
fn clone_piece_row<'a>(
    row: &Vec<(Piece<'a>, Space<'a>, Space<'a>)>,
) -> Result<Vec<(Piece<'a>, Space<'a>, Space<'a>)>, AllocError>
    ensures { IfOk result (λ t. map (seen_piece texts) t.items ≡ map (seen_piece texts) row.now.items) }
{
    let mut copy = Vec::new(*row.allocator());
    for (piece, before, after) in row {
        let piece = clone_piece(piece)?;
        push_piece(&mut copy, piece, before, after)?;
    }
    Ok(copy)
}

#[inline(never)]
fn push_piece<'a>(
    row: &mut Vec<(Piece<'a>, Space<'a>, Space<'a>)>,
    piece: Piece<'a>,
    before: &Space<'a>,
    after: &Space<'a>,
) -> Result<(), AllocError>
    ensures { OnOk result (map (seen_piece texts) row.new.items ≡ map (seen_piece texts) row.old.items ++ (view_piece texts piece.entry, space_bytes before.now, space_bytes after.now) ∷ []) }
{
    let (before, after) = clone_spaces(before, after)?;
    row.push((piece, before, after))?;
    Ok(())
}

#[cycle(copy)]
#[inline(never)]
fn clone_piece<'a>(piece: &Piece<'a>) -> Result<Piece<'a>, AllocError>
    ensures { IfOk result (λ t. view_piece texts t ≡ view_piece texts piece.now) }
{
    match piece {
        Piece::Literal(indicator, literal) => clone_literal(literal, *indicator),
        Piece::Ellipsis(ellipsis) => clone_ellipsis(ellipsis),
        Piece::Embedded(indicator, sequence) => {
            clone_embedded(*Box::allocator(sequence), sequence, *indicator)
        }
    }
}

#[inline(never)]
fn clone_literal<'a>(
    literal: &Literal<'a>,
    indicator: Option<Indicator>,
) -> Result<Piece<'a>, AllocError>
    ensures { IfOk result (λ t. view_piece texts t ≡ LiteralTree (literal_bytes literal.now) indicator) }
{
    let literal = literal.clone()?;
    Ok(Piece::Literal(indicator, literal))
}

#[inline(never)]
fn clone_ellipsis<'a>(ellipsis: &Ellipsis<'a>) -> Result<Piece<'a>, AllocError>
    ensures { IfOk result (λ t. view_piece texts t ≡ EllipsisTree (ellipsis_bytes ellipsis.now)) }
{
    let ellipsis = ellipsis.clone()?;
    Ok(Piece::Ellipsis(ellipsis))
}

#[cycle(copy)]
#[inline(never)]
#[tactic(auto, using(crate::proofs::lemmas::tree::Views::view_sequence_is))]
fn clone_embedded<'a>(
    alloc: Global,
    sequence: &Sequence<'a>,
    indicator: Option<Indicator>,
) -> Result<Piece<'a>, AllocError>
    ensures { IfOk result (λ t. view_piece texts t ≡ EmbeddedTree (sequence_tree sequence.now) indicator) }
{
    match &sequence.items {
        Some(items) => make_embedded(alloc, sequence, clone_items(items), indicator),
        None => make_empty_embedded(alloc, &sequence.before, indicator),
    }
}

#[inline(never)]
fn make_embedded<'a>(
    alloc: Global,
    sequence: &Sequence<'a>,
    items: Result<Items<'a>, AllocError>,
    indicator: Option<Indicator>,
) -> Result<Piece<'a>, AllocError>
    requires items { IfOk items (λ t. SequenceTree (space_bytes (out-SequenceOf _ _ _ _ _ _ _ sequence.now).before) (view_items texts t) ≡ sequence_tree sequence.now) }
    ensures { IfOk result (λ t. view_piece texts t ≡ EmbeddedTree (sequence_tree sequence.now) indicator) }
{
    let items = items?;
    let sequence = make_sequence(&sequence.before, Some(items))?;
    let sequence = Box::new(alloc, sequence)?;
    Ok(Piece::Embedded(indicator, sequence))
}

#[inline(never)]
fn make_empty_embedded<'a>(
    alloc: Global,
    before: &Space<'a>,
    indicator: Option<Indicator>,
) -> Result<Piece<'a>, AllocError>
    ensures { IfOk result (λ t. view_piece texts t ≡ EmbeddedTree (NothingTree (space_bytes before.now)) indicator) }
{
    let sequence = make_sequence(before, None)?;
    let sequence = Box::new(alloc, sequence)?;
    Ok(Piece::Embedded(indicator, sequence))
}

#[tactic(auto, using(crate::proofs::lemmas::tree::Views::view_sequence_is))]
fn clone_sequence<'a>(sequence: &Sequence<'a>) -> Result<Sequence<'a>, AllocError>
    ensures { IfOk result (λ t. sequence_tree t ≡ sequence_tree sequence.now) }
{
    let items = match &sequence.items {
        None => None,
        Some(items) => Some(clone_items(items)?),
    };
    make_sequence(&sequence.before, items)
}

#[tactic(auto, using(crate::proofs::lemmas::tree::Views::view_sequence_made))]
fn make_sequence<'a>(
    before: &Space<'a>,
    items: Option<Items<'a>>,
) -> Result<Sequence<'a>, AllocError>
    ensures { IfOk result (λ t. sequence_tree t ≡ view_some texts (space_bytes before.now) items.entry) }
{
    let before = before.clone()?;
    Ok(SequenceOf { before, items })
}

#[cycle(copy)]
#[inline(never)]
fn clone_stream<'a>(alloc: Global, stream: &Stream<'a>) -> Result<Item<'a>, AllocError>
    ensures { IfOk result (λ t. item_tree t ≡ view_stream texts stream.now) }
{
    let row = clone_string_row(&stream.strings.row)?;
    make_stream(alloc, stream, row, clone_string(&stream.strings.last))
}

#[inline(never)]
#[tactic(auto, using(crate::proofs::lemmas::Rules::make_stream))]
fn make_stream<'a>(
    alloc: Global,
    stream: &Stream<'a>,
    row: Vec<(CborString<'a>, Separator<'a>)>,
    last: Result<CborString<'a>, AllocError>,
) -> Result<Item<'a>, AllocError>
    requires row { map (seen_string texts) row.items ≡ map (seen_string texts) (out-StringsOf _ _ _ _ _ _ _ (out-StreamOf _ _ _ _ _ _ _ stream.now).strings).row.items }
    requires last { IfOk last (λ t. view_string texts t ≡ view_string texts (out-StringsOf _ _ _ _ _ _ _ (out-StreamOf _ _ _ _ _ _ _ stream.now).strings).last) }
    ensures { IfOk result (λ t. item_tree t ≡ view_stream texts stream.now) }
{
    let last = last?;
    let space = stream.space.clone()?;
    let end = stream.strings.end.clone()?;
    let strings = Strings { row, last, end };
    Item::stream(alloc, Stream { space, strings })
}

#[cycle(copy)]
#[inline(never)]
fn clone_string_row<'a>(
    row: &Vec<(CborString<'a>, Separator<'a>)>,
) -> Result<Vec<(CborString<'a>, Separator<'a>)>, AllocError>
    ensures { IfOk result (λ t. map (seen_string texts) t.items ≡ map (seen_string texts) row.now.items) }
{
    let mut copy = Vec::new(*row.allocator());
    for (string, separator) in row {
        let string = clone_string(string)?;
        push_string(&mut copy, string, separator)?;
    }
    Ok(copy)
}

#[inline(never)]
fn push_string<'a>(
    row: &mut Vec<(CborString<'a>, Separator<'a>)>,
    string: CborString<'a>,
    separator: &Separator<'a>,
) -> Result<(), AllocError>
    ensures { OnOk result (map (seen_string texts) row.new.items ≡ map (seen_string texts) row.old.items ++ (ChunkTree (view_string texts string.entry), separator_bytes separator.now) ∷ []) }
{
    let separator = separator.clone()?;
    row.push((string, separator))?;
    Ok(())
}

#[cycle(copy)]
#[inline(never)]
fn clone_items<'a>(items: &Items<'a>) -> Result<Items<'a>, AllocError>
    ensures { IfOk result (λ t. view_items texts t ≡ view_items texts items.now) }
{
    let row = clone_row(&items.row)?;
    make_items(items, row, clone_item(&items.last))
}

#[inline(never)]
#[tactic(auto, using(crate::proofs::lemmas::tree::Views::view_items_is, crate::proofs::lemmas::tree::Views::view_items_made))]
fn make_items<'a>(
    items: &Items<'a>,
    row: Vec<(Item<'a>, Separator<'a>)>,
    last: Result<Item<'a>, AllocError>,
) -> Result<Items<'a>, AllocError>
    requires row { map (seen texts) row.items ≡ map (seen texts) (out-ItemsOf _ _ _ _ _ _ _ items.now).row.items }
    requires last { IfOk last (λ t. item_tree t ≡ item_tree (out-ItemsOf _ _ _ _ _ _ _ items.now).last) }
    ensures { IfOk result (λ t. view_items texts t ≡ view_items texts items.now) }
{
    let last = last?;
    let end = items.end.clone()?;
    Ok(Items { row, last, end })
}

#[cycle(copy)]
#[inline(never)]
fn clone_row<'a>(
    row: &Vec<(Item<'a>, Separator<'a>)>,
) -> Result<Vec<(Item<'a>, Separator<'a>)>, AllocError>
    ensures { IfOk result (λ t. map (seen texts) t.items ≡ map (seen texts) row.now.items) }
{
    let mut copy = Vec::new(*row.allocator());
    for (item, separator) in row {
        let item = clone_item(item)?;
        push_item(&mut copy, item, separator)?;
    }
    Ok(copy)
}

#[inline(never)]
fn push_item<'a>(
    row: &mut Vec<(Item<'a>, Separator<'a>)>,
    item: Item<'a>,
    separator: &Separator<'a>,
) -> Result<(), AllocError>
    ensures { OnOk result (map (seen texts) row.new.items ≡ map (seen texts) row.old.items ++ (ElementTree (item_tree item.entry), separator_bytes separator.now) ∷ []) }
{
    let separator = separator.clone()?;
    row.push((item, separator))?;
    Ok(())
}

#[cycle(copy)]
#[inline(never)]
fn clone_pair_row<'a>(
    row: &Vec<(Pair<'a>, Separator<'a>)>,
) -> Result<Vec<(Pair<'a>, Separator<'a>)>, AllocError>
    ensures { IfOk result (λ t. map (seen_pair texts) t.items ≡ map (seen_pair texts) row.now.items) }
{
    let mut copy = Vec::new(*row.allocator());
    for (pair, separator) in row {
        let pair = clone_pair(pair)?;
        push_pair(&mut copy, pair, separator)?;
    }
    Ok(copy)
}

#[inline(never)]
fn push_pair<'a>(
    row: &mut Vec<(Pair<'a>, Separator<'a>)>,
    pair: Pair<'a>,
    separator: &Separator<'a>,
) -> Result<(), AllocError>
    ensures { OnOk result (map (seen_pair texts) row.new.items ≡ map (seen_pair texts) row.old.items ++ (view_pair texts pair.entry, separator_bytes separator.now) ∷ []) }
{
    let separator = separator.clone()?;
    row.push((pair, separator))?;
    Ok(())
}

#[cycle(copy)]
#[inline(never)]
fn clone_pair<'a>(pair: &Pair<'a>) -> Result<Pair<'a>, AllocError>
    ensures { IfOk result (λ t. view_pair texts t ≡ view_pair texts pair.now) }
{
    let key = clone_item(&pair.key)?;
    make_pair(pair, key, clone_item(&pair.value))
}

#[inline(never)]
fn make_pair<'a>(
    pair: &Pair<'a>,
    key: Item<'a>,
    value: Result<Item<'a>, AllocError>,
) -> Result<Pair<'a>, AllocError>
    requires key { item_tree key ≡ item_tree pair.now.key }
    requires value { IfOk value (λ t. item_tree t ≡ item_tree pair.now.value) }
    ensures { IfOk result (λ t. view_pair texts t ≡ view_pair texts pair.now) }
{
    let value = value?;
    let (before_colon, after_colon) = clone_spaces(&pair.before_colon, &pair.after_colon)?;
    Ok(Pair {
        key,
        before_colon,
        after_colon,
        value,
    })
}
