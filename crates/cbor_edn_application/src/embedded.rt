//! Byte strings that hold CBOR, shown as embedded sequences.
ghost use Rattle.std.specs.Prelude.{◌≡◌, ◌-◌, ◌||◌, ℕ, ⊤, Some, IfOk, is_some, option_map};
ghost use Rattle.cbor_edn_core.specs.visit.Callbacks.{ending};
ghost use Rattle.cbor_edn_core.specs.visit.Sought.{sought_answer};
ghost use Rattle.cbor_edn_core.specs.tree.View.{item_tree, sequence_tree};
ghost use Rattle.cbor_edn_model.specs.access.Accessed.{array_items, item_bytes, map_items};
ghost use Rattle.cbor_edn_model.specs.internal.Widths.{capped};
ghost use Rattle.cbor_edn_model.specs.visit.Seeking.{CallArguments, IsApplication};
ghost use Rattle.cbor_edn_conversions.specs.EmbeddedItems.{begins_structure, decoded_item, is_structure, show_embedded, structure_of};
ghost use Rattle.cbor_edn_application.specs.Acts.{ActsBy, IsVisited};

use crate::same::are_bytes;
use cbor_edn_core::tree::{Item, Sequence};
use cbor_edn_parts::base::error::{CallbackError, Fault};
use std::alloc::{AllocError, Global};

/// Puts an embedded sequence in the place of a literal with a prefix whose bytes encode exactly one array, map or tag:
/// `<<{1: -7}>>` for `h'a10126'`, with the literal's encoding indicator and the spaces of a single line. The literals in what is shown are
/// shown too, to `levels` levels in all. The new item nests at most `limit` deep. Anything else stays, without a comment, and so does the
/// item where memory runs out. The stack has to hold the levels that nest.
#[cycle(show)]
pub fn show_embedded(
    alloc: Global,
    levels: usize,
    limit: usize,
    item: &mut Item<'_>,
) -> Result<(), CallbackError>
    ensures { (a : CallArguments) → IsApplication (item_tree item.old) a → ActsBy (show_embedded levels limit) a (item_tree item.old) (sought_answer result) (item_tree item.new) }
{
    if levels == 0 || limit == 0 {
        return Ok(());
    }
    let Some(indicator) = item.get_literal_indicator() else {
        return Ok(());
    };
    let Some(structure) = structure_in(alloc, limit - 1, item)? else {
        return Ok(());
    };
    let room = room_beside(limit - 1, structure.nesting());
    let mut content = Sequence::of_item(alloc, structure);
    show_inside(alloc, levels - 1, room, &mut content)?;
    *item = content.embedded(alloc, indicator)?;
    Ok(())
}

/// What items that nest so deep leave of a limit.
pub(crate) fn room_beside(limit: usize, nesting: usize) -> usize
    ensures { (n : ℕ) → nesting ≡ capped n → result ≡ limit - n }
{
    limit.saturating_sub(nesting)
}

/// Shows each literal of a sequence so.
#[cycle(show)]
pub(crate) fn show_inside(
    alloc: Global,
    levels: usize,
    limit: usize,
    sequence: &mut Sequence<'_>,
) -> Result<(), AllocError>
    ensures { IsVisited IsApplication (show_embedded levels limit) (sequence_tree sequence.old) (ending result) (sequence_tree sequence.new) }
{
    sequence.visit_application_items(
        alloc,
        &mut |item|
            requires { ⊤ }
            ensures { (a : CallArguments) → IsApplication (item_tree item.old) a → ActsBy (show_embedded levels limit) a (item_tree item.old) (sought_answer result) (item_tree item.new) }
        { show_embedded(alloc, levels, limit, item) },
    )
}

/// The array, the map or the tag that the bytes of a string encode, nested no deeper than the limit.
fn structure_in<'a>(
    alloc: Global,
    limit: usize,
    item: &Item<'a>,
) -> Result<Option<Item<'a>>, AllocError>
    ensures { IfOk result (λ o. option_map item_tree o ≡ structure_of limit (item_bytes (item_tree item.now))) }
{
    let bytes = match item.get_bytes(alloc) {
        Ok(bytes) => bytes,
        Err(Fault::Told(_)) => return Ok(None),
        Err(Fault::Memory(refused)) => return Err(refused),
    };
    decoded_structure(alloc, limit, &bytes)
}

/// The array, the map or the tag that bytes encode, nested no deeper than the limit. Bytes that can't begin a structure are not decoded.
fn decoded_structure<'a>(
    alloc: Global,
    limit: usize,
    bytes: &[u8],
) -> Result<Option<Item<'a>>, AllocError>
    ensures { IfOk result (λ o. option_map item_tree o ≡ structure_of limit (Some bytes.now)) }
{
    are_bytes(bytes);
    if !begins_structure(bytes) {
        return Ok(None);
    }
    let Some(decoded) = decoded_item(alloc, limit, bytes)? else {
        return Ok(None);
    };
    if is_structure(&decoded) {
        Ok(Some(decoded))
    } else {
        Ok(None)
    }
}

/// Whether the first byte is of an array, a map or a tag: of major type 4, 5 or 6 (RFC 8949, section 3.1).
fn begins_structure(bytes: &[u8]) -> bool
    ensures { result ≡ begins_structure bytes.now }
{
    match bytes.split_first() {
        Some((first, _)) => 0x80 <= *first && *first < 0xe0,
        None => false,
    }
}

/// The item that bytes encode, nested no deeper than the limit.
fn decoded_item<'a>(
    alloc: Global,
    limit: usize,
    bytes: &[u8],
) -> Result<Option<Item<'a>>, AllocError>
    ensures { IfOk result (λ o. option_map item_tree o ≡ decoded_item limit bytes.now) }
{
    are_bytes(bytes);
    match Item::from_cbor_within(alloc, bytes, limit) {
        Ok(decoded) => Ok(Some(decoded)),
        Err(Fault::Told(_)) => Ok(None),
        Err(Fault::Memory(refused)) => Err(refused),
    }
}

/// Whether the item is an array, a map or a tag.
pub(crate) fn is_structure(item: &Item<'_>) -> bool
    ensures { result ≡ is_structure (item_tree item.now) }
{
    let tag = item.get_tag_head().is_some();
    let array = is_array(item);
    let map = is_map(item);
    any_of(tag, array, map)
}

fn any_of(one: bool, other: bool, third: bool) -> bool
    ensures { result ≡ (one || other) || third }
{
    if one || other {
        return true;
    }
    third
}

pub(crate) fn is_array(item: &Item<'_>) -> bool
    ensures { result ≡ is_some (array_items (item_tree item.now)) }
{
    match item.get_array_items() {
        Ok(_) => true,
        Err(_) => false,
    }
}

fn is_map(item: &Item<'_>) -> bool
    ensures { result ≡ is_some (map_items (item_tree item.now)) }
{
    match item.get_map_items() {
        Ok(_) => true,
        Err(_) => false,
    }
}
