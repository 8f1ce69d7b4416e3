//! Iterators over the parts of items.
use crate::tree::{Item, Items, Pair, Pairs};
use cbor_edn_parts::space::Separator;
use std::slice::Iter;

/// The items of an array that are left, in text order, as [`Item::get_array_items`] answers them.
#[derive(Drop)]
pub struct ArrayItems<'t, 'a> {
    row: Option<Iter<'t, (Item<'a>, Separator<'a>)>>,
    last: Option<&'t Item<'a>>,
}

/// The keys of a map that are left, with their values, in text order, as [`Item::get_map_items`] answers them.
#[derive(Drop)]
pub struct MapItems<'t, 'a> {
    row: Option<Iter<'t, (Pair<'a>, Separator<'a>)>>,
    last: Option<&'t Pair<'a>>,
}

impl<'t, 'a> ArrayItems<'t, 'a> {
    ghost use Rattle.std.specs.Prelude.{◌≡◌, [], map};
    ghost use Rattle.cbor_edn_model.specs.access.Accessed.{entries, element};
    ghost use Rattle.cbor_edn_model.specs.tree.TreeLeaves.{texts};
    ghost use Rattle.cbor_edn_core.specs.access.Iterated.{items_left};
    ghost use Rattle.cbor_edn_core.specs.tree.View.{item_tree, view_items};

    pub(super) fn new(items: &'t Items<'a>) -> ArrayItems<'t, 'a>
        ensures { map item_tree (items_left result) ≡ map element (entries (view_items texts items.now)) }
    {
        let row = Some(items.row.iter());
        let last = Some(&items.last);
        ArrayItems { row, last }
    }

    pub(super) fn empty() -> ArrayItems<'t, 'a>
        ensures { items_left result ≡ [] }
    {
        ArrayItems {
            row: None,
            last: None,
        }
    }
}

impl<'t, 'a> MapItems<'t, 'a> {
    ghost use Rattle.std.specs.Prelude.{◌≡◌, [], map};
    ghost use Rattle.cbor_edn_model.specs.access.Accessed.{entries, key_and_value};
    ghost use Rattle.cbor_edn_model.specs.tree.TreeLeaves.{texts};
    ghost use Rattle.cbor_edn_core.specs.access.Iterated.{pairs_left, both_trees};
    ghost use Rattle.cbor_edn_core.specs.tree.View.{view_pairs};

    pub(super) fn new(pairs: &'t Pairs<'a>) -> MapItems<'t, 'a>
        ensures { map both_trees (pairs_left result) ≡ map key_and_value (entries (view_pairs texts pairs.now)) }
    {
        let row = Some(pairs.row.iter());
        let last = Some(&pairs.last);
        MapItems { row, last }
    }

    pub(super) fn empty() -> MapItems<'t, 'a>
        ensures { pairs_left result ≡ [] }
    {
        MapItems {
            row: None,
            last: None,
        }
    }
}

impl<'t, 'a> Iterator for ArrayItems<'t, 'a> {
    type Item = &'t Item<'a>;

    ghost use Rattle.std.specs.Iterator.{YieldsFirstRef, item_count};
    ghost use Rattle.cbor_edn_core.specs.access.Iterated.{items_left};

    ghost next_gives = { YieldsFirstRef items_left };

    ghost remaining = { item_count items_left };

    fn next(&mut self) -> Option<&'t Item<'a>> {
        if let Some(row) = &mut self.row {
            if let Some((item, _)) = row.next() {
                return Some(item);
            }
        }
        let last = self.last?;
        self.last = None;
        Some(last)
    }
}

impl<'t, 'a> Iterator for MapItems<'t, 'a> {
    type Item = (&'t Item<'a>, &'t Item<'a>);

    ghost use Rattle.std.specs.Iterator.{YieldsFirstBy, item_count};
    ghost use Rattle.cbor_edn_core.specs.access.Iterated.{pairs_left};

    ghost next_gives = { YieldsFirstBy (λ p. (p.0.now, p.1.now)) pairs_left };

    ghost remaining = { item_count pairs_left };

    fn next(&mut self) -> Option<(&'t Item<'a>, &'t Item<'a>)> {
        if let Some(row) = &mut self.row {
            if let Some((pair, _)) = row.next() {
                return Some((&pair.key, &pair.value));
            }
        }
        let last = self.last?;
        self.last = None;
        Some((&last.key, &last.value))
    }
}
