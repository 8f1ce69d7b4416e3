//! Where an item begins in the text of a sequence.
ghost use Rattle.std.specs.Prelude.{◌≡◌, IfOk, string_bytes};
ghost use Rattle.cbor_edn_model.specs.access.Paths.{with_at_sequence};
ghost use Rattle.cbor_edn_model.specs.tree.Trees.{text};
ghost use Rattle.cbor_edn_core.specs.tree.View.{item_tree, sequence_tree};
ghost use Rattle.cbor_edn_places.specs.Between.{IsOffset};
ghost use Rattle.cbor_edn_places.specs.internal.Common.{common};

use cbor_edn_core::tree::{Item, Sequence};
use std::alloc::{AllocError, Global};

/// How many bytes two texts have in common at their fronts.
fn common_length(one: &[u8], other: &[u8]) -> usize
    ensures { result ≡ common one.now other.now }
{
    for (at, byte) in one.iter().enumerate() {
        if at >= other.len() {
            return at;
        }
        if other[at] != *byte {
            return at;
        }
    }
    one.len()
}

fn replace_at<'a>(sequence: &mut Sequence<'a>, path: &[usize], item: Item<'a>)
    ensures { sequence_tree sequence.new ≡ with_at_sequence path.now (item_tree item.entry) (sequence_tree sequence.old) }
{
    if let Some(place) = sequence.at_mut(path) {
        *place = item;
    }
}

/// The text of a sequence with another item where a path leads.
fn text_with<'a>(
    alloc: Global,
    sequence: &Sequence<'a>,
    path: &[usize],
    item: Item<'a>,
) -> Result<String, AllocError>
    ensures { IfOk result (λ s. string_bytes s ≡ text (with_at_sequence path.now (item_tree item.entry) (sequence_tree sequence.now))) }
{
    let mut copy = Box::new(alloc, sequence.clone()?)?;
    replace_at(&mut copy, path, item);
    copy.serialize(alloc)
}

/// Where the item to which a path leads begins in the text of a sequence, in bytes. With two items in its place that begin otherwise, the
/// texts agree up to there.
pub fn offset_of(
    alloc: Global,
    sequence: &Sequence<'_>,
    path: &[usize],
) -> Result<usize, AllocError>
    ensures { IfOk result (IsOffset (sequence_tree sequence.now) path.now) }
{
    let number = text_with(alloc, sequence, path, Item::new_integer_decimal(alloc, 0)?)?;
    let string = text_with(alloc, sequence, path, Item::new_text(alloc, "")?)?;
    Ok(common_length(number.as_bytes(), string.as_bytes()))
}
