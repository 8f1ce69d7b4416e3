//! Items and sequences of what iterators give: a `Vec` ends, as each of these calls asks.
ghost use Rattle.std.specs.Prelude.{◌≡◌, map, IfOk};
ghost use Rattle.cbor_edn.specs.Constructed.{comma_inside, comma_sequence};
ghost use Rattle.cbor_edn.specs.Items.{Array, Map};
ghost use Rattle.cbor_edn.specs.Trees.{ListTree};
ghost use Rattle.cbor_edn.specs.Made.{element_tree, pair_tree};
ghost use Rattle.cbor_edn.specs.View.{item_tree, sequence_tree};

use cbor_edn::{Item, Sequence};
use std::alloc::{AllocError, Global};

/// The array of some items, as of rows that were gathered. Fails where memory runs out.
pub fn gathered<'a>(alloc: Global, items: Vec<Item<'a>>) -> Result<Item<'a>, AllocError>
    ensures { IfOk result (λ t. item_tree t ≡ ListTree Array (comma_inside (map element_tree items.entry.items))) }
{
    Item::new_array(alloc, items)
}

/// The map of some keys with their values, as of a table. Fails where memory runs out.
pub fn tabled<'a>(alloc: Global, entries: Vec<(Item<'a>, Item<'a>)>) -> Result<Item<'a>, AllocError>
    ensures { IfOk result (λ t. item_tree t ≡ ListTree Map (comma_inside (map pair_tree entries.entry.items))) }
{
    Item::new_map(alloc, entries)
}

/// The sequence of some items, as of records that go into one file. Fails where memory runs out.
pub fn in_sequence<'a>(alloc: Global, items: Vec<Item<'a>>) -> Result<Sequence<'a>, AllocError>
    ensures { IfOk result (λ t. sequence_tree t ≡ comma_sequence (map element_tree items.entry.items)) }
{
    Sequence::new(alloc, items)
}
