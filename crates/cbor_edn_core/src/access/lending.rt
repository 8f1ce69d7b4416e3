//! Iterators that lend the parts of items.
use crate::tree::{Item, Items, Pair, Pairs, Sequence};
use cbor_edn_parts::space::Separator;
use std::slice::IterMut;

/// The items of an array that are left to lend, in text order, as [`Item::get_array_items_mut`] answers them.
#[derive(Drop)]
pub struct ArrayItemsMut<'t, 'a> {
    row: Option<IterMut<'t, (Item<'a>, Separator<'a>)>>,
    last: Option<&'t mut Item<'a>>,
}

impl<'t, 'a> ArrayItemsMut<'t, 'a> {
    ghost use Rattle.std.specs.Prelude.{◌≡◌, [], map};
    ghost use Rattle.cbor_edn_model.specs.access.Accessed.{entries, element};
    ghost use Rattle.cbor_edn_model.specs.tree.TreeLeaves.{texts};
    ghost use Rattle.cbor_edn_core.specs.access.IteratedMut.{items_to_lend};
    ghost use Rattle.cbor_edn_core.specs.tree.View.{item_tree, view_items};

    pub(super) fn new(items: &'t mut Items<'a>) -> ArrayItemsMut<'t, 'a>
        ensures { map item_tree (items_to_lend result) ≡ map element (entries (view_items texts items.old)) }
    {
        let row = Some(items.row.iter_mut());
        let last = Some(&mut items.last);
        ArrayItemsMut { row, last }
    }

    pub(super) fn empty() -> ArrayItemsMut<'t, 'a>
        ensures { items_to_lend result ≡ [] }
    {
        ArrayItemsMut {
            row: None,
            last: None,
        }
    }
}

impl<'t, 'a> Iterator for ArrayItemsMut<'t, 'a> {
    type Item = &'t mut Item<'a>;

    ghost use Rattle.std.specs.Iterator.{YieldsFirstMut, item_count};
    ghost use Rattle.cbor_edn_core.specs.access.IteratedMut.{items_to_lend};

    ghost next_gives = { YieldsFirstMut items_to_lend };

    ghost remaining = { item_count items_to_lend };

    fn next(&mut self) -> Option<&'t mut Item<'a>> {
        if let Some(row) = &mut self.row {
            if let Some((item, _)) = row.next() {
                return Some(item);
            }
        }
        self.last.take()
    }
}

/// The keys of a map that are left to lend, with their values, in text order, as [`Item::get_map_items_mut`] answers them.
#[derive(Drop)]
pub struct MapItemsMut<'t, 'a> {
    row: Option<IterMut<'t, (Pair<'a>, Separator<'a>)>>,
    last: Option<&'t mut Pair<'a>>,
}

impl<'t, 'a> MapItemsMut<'t, 'a> {
    ghost use Rattle.std.specs.Prelude.{◌≡◌, [], map};
    ghost use Rattle.cbor_edn_model.specs.access.Accessed.{entries, key_and_value};
    ghost use Rattle.cbor_edn_model.specs.tree.TreeLeaves.{texts};
    ghost use Rattle.cbor_edn_core.specs.access.Iterated.{both_trees};
    ghost use Rattle.cbor_edn_core.specs.access.IteratedMut.{pairs_to_lend};
    ghost use Rattle.cbor_edn_core.specs.tree.View.{view_pairs};

    pub(super) fn new(pairs: &'t mut Pairs<'a>) -> MapItemsMut<'t, 'a>
        ensures { map both_trees (pairs_to_lend result) ≡ map key_and_value (entries (view_pairs texts pairs.old)) }
    {
        let row = Some(pairs.row.iter_mut());
        let last = Some(&mut pairs.last);
        MapItemsMut { row, last }
    }

    pub(super) fn empty() -> MapItemsMut<'t, 'a>
        ensures { pairs_to_lend result ≡ [] }
    {
        MapItemsMut {
            row: None,
            last: None,
        }
    }
}

impl<'t, 'a> Iterator for MapItemsMut<'t, 'a> {
    type Item = (&'t mut Item<'a>, &'t mut Item<'a>);

    ghost use Rattle.std.specs.Iterator.{YieldsFirstBy, item_count};
    ghost use Rattle.cbor_edn_core.specs.access.IteratedMut.{pairs_to_lend};

    ghost next_gives = { YieldsFirstBy (λ p. (p.0.now, p.1.now)) pairs_to_lend };

    ghost remaining = { item_count pairs_to_lend };

    fn next(&mut self) -> Option<(&'t mut Item<'a>, &'t mut Item<'a>)> {
        if let Some(row) = &mut self.row {
            if let Some((pair, _)) = row.next() {
                return Some((&mut pair.key, &mut pair.value));
            }
        }
        let last = self.last.take()?;
        Some((&mut last.key, &mut last.value))
    }
}

/// The items of a sequence that are left to lend, in text order, as `Sequence::get_items_mut` answers them.
#[derive(Drop)]
pub struct SequenceItemsMut<'t, 'a> {
    items: ArrayItemsMut<'t, 'a>,
}

impl<'t, 'a> SequenceItemsMut<'t, 'a> {
    ghost use Rattle.std.specs.Prelude.{◌≡◌, map};
    ghost use Rattle.cbor_edn_model.specs.access.Paths.{items_in};
    ghost use Rattle.cbor_edn_core.specs.access.IteratedMut.{sequence_items_to_lend};
    ghost use Rattle.cbor_edn_core.specs.tree.View.{item_tree, sequence_tree};

    pub(super) fn new(sequence: &'t mut Sequence<'a>) -> SequenceItemsMut<'t, 'a>
        ensures { map item_tree (sequence_items_to_lend result) ≡ items_in (sequence_tree sequence.old) }
    {
        match &mut sequence.items {
            Some(items) => SequenceItemsMut {
                items: ArrayItemsMut::new(items),
            },
            None => SequenceItemsMut {
                items: ArrayItemsMut::empty(),
            },
        }
    }
}

impl<'t, 'a> Iterator for SequenceItemsMut<'t, 'a> {
    type Item = &'t mut Item<'a>;

    ghost use Rattle.std.specs.Iterator.{YieldsFirstMut, item_count};
    ghost use Rattle.cbor_edn_core.specs.access.IteratedMut.{sequence_items_to_lend};

    ghost next_gives = { YieldsFirstMut sequence_items_to_lend };

    ghost remaining = { item_count sequence_items_to_lend };

    fn next(&mut self) -> Option<&'t mut Item<'a>> {
        self.items.next()
    }
}
