//! The path of the first item that has no encoding.
ghost use Rattle.std.specs.Prelude.{◌≡◌, [], false, IfOk, IfSome, OnOk, option_map, unwrap_or};
ghost use Rattle.std.specs.Bool.{OnTrue};
ghost use Rattle.std.specs.Option.{is_some};
ghost use Rattle.cbor_edn_model.specs.access.Accessed.{array_items, map_items, tag_number};
ghost use Rattle.cbor_edn_model.specs.access.Paths.{at_sequence};
ghost use Rattle.cbor_edn_model.specs.cbor.Meaning.{means};
ghost use Rattle.cbor_edn_model.specs.tree.Trees.{items};
ghost use Rattle.cbor_edn_core.specs.tree.View.{item_tree, sequence_tree};
ghost use Rattle.cbor_edn_places.specs.Places.{is_structure, IsCut, IsFound};
ghost use Rattle.cbor_edn_places.specs.internal.Levels.{IsFoundOf, IsFoundAt, IsFirstBeside, IsFirstOf, is_open_at, places_behind, IsLeft, NoneBefore, AreFrontValued, IsEntered, IsOwn, IsReasonIn, IsReasonOf};

use crate::guess::guessed;
use cbor_edn_core::tree::{Item, Sequence};
use cbor_edn_parts::base::error::{Fault, InconsistentEdn};
use std::alloc::{AllocError, Global};
use std::mem;

/// In a string, how many embedded items are looked at: to count to an item there takes time, so where there are more, the string itself is
/// the place.
pub const MOST_EMBEDDED: usize = 64;

/// What is found where a path leads.
#[derive(Clone, Copy, Debug)]
pub(crate) enum Found {
    // It leads to no item.
    Nowhere,
    // It leads to an item that means a value.
    Valued,
    // It leads to an item that means none.
    Valueless(InconsistentEdn),
}

pub(crate) fn found_of(alloc: Global, item: &Item<'_>) -> Result<Found, AllocError>
    ensures { IfOk result (IsFoundOf (means (items (item_tree item.now)))) }
{
    match item.to_cbor(alloc) {
        Ok(_) => Ok(Found::Valued),
        Err(Fault::Told(fault)) => Ok(Found::Valueless(fault)),
        Err(Fault::Memory(refused)) => Err(refused),
    }
}

/// Whether the item where a path leads means a value. The sequence stays as it is.
fn found_at(alloc: Global, sequence: &mut Sequence<'_>, path: &[usize]) -> Result<Found, AllocError>
    ensures same { sequence_tree sequence.new ≡ sequence_tree sequence.old }
    ensures found { IfOk result (IsFoundAt path.now (sequence_tree sequence.old)) }
{
    match sequence.at_mut(path) {
        Some(item) => found_of(alloc, item),
        None => Ok(Found::Nowhere),
    }
}

/// Which of the items behind a path is the first that means no value, and why. The sequence and the path stay as they are.
fn first_beside(
    alloc: Global,
    sequence: &mut Sequence<'_>,
    path: &mut Vec<usize>,
) -> Result<Option<(usize, InconsistentEdn)>, AllocError>
    ensures same { sequence_tree sequence.new ≡ sequence_tree sequence.old }
    ensures path { OnOk result (path.new.items ≡ path.old.items) }
    ensures found { IfOk result (IsFirstBeside path.old.items (sequence_tree sequence.old)) }
{
    for number in 0..usize::MAX {
        path.push(number)?;
        let found = found_at(alloc, sequence, path)?;
        let _ = path.pop();
        match found {
            Found::Nowhere => return Ok(None),
            Found::Valued => {}
            Found::Valueless(fault) => return Ok(Some((number, fault))),
        }
    }
    // No sequence in memory has so many items.
    Err(AllocError)
}

/// Whether each of so many of the items behind a path means a value. The sequence and the path stay as they are.
fn are_valued(
    alloc: Global,
    sequence: &mut Sequence<'_>,
    path: &mut Vec<usize>,
    count: usize,
) -> Result<bool, AllocError>
    ensures same { sequence_tree sequence.new ≡ sequence_tree sequence.old }
    ensures path { OnOk result (path.new.items ≡ path.old.items) }
    ensures valued { IfOk result (λ b. OnTrue b (NoneBefore (sequence_tree sequence.old) path.old.items count)) }
{
    for number in 0..count {
        path.push(number)?;
        let found = found_at(alloc, sequence, path)?;
        let _ = path.pop();
        let Found::Valued = found else {
            return Ok(false);
        };
    }
    Ok(true)
}

fn is_array(item: &Item<'_>) -> bool
    ensures { result ≡ is_some (array_items (item_tree item.now)) }
{
    match item.get_array_items() {
        Ok(_) => true,
        Err(_) => false,
    }
}

fn is_map(item: &Item<'_>) -> bool
    ensures { result ≡ is_some (map_items (item_tree item.now)) }
{
    match item.get_map_items() {
        Ok(_) => true,
        Err(_) => false,
    }
}

fn is_tag(item: &Item<'_>) -> bool
    ensures { result ≡ is_some (tag_number (item_tree item.now)) }
{
    match item.get_tag() {
        Ok(_) => true,
        Err(_) => false,
    }
}

pub(crate) fn is_structure(item: &Item<'_>) -> bool
    ensures { result ≡ is_structure (item_tree item.now) }
{
    is_array(item) || is_map(item) || is_tag(item)
}

/// Whether the item where a path leads is an array, a map or a tag; none where it leads to no item. The sequence stays as it is.
fn structure_at(sequence: &mut Sequence<'_>, path: &[usize]) -> Option<bool>
    ensures same { sequence_tree sequence.new ≡ sequence_tree sequence.old }
    ensures value { result ≡ option_map is_structure (at_sequence path.now (sequence_tree sequence.old)) }
{
    match sequence.at_mut(path) {
        Some(item) => Some(is_structure(item)),
        None => None,
    }
}

fn is_structure_at(sequence: &mut Sequence<'_>, path: &[usize]) -> bool
    ensures same { sequence_tree sequence.new ≡ sequence_tree sequence.old }
    ensures value { result ≡ unwrap_or (option_map is_structure (at_sequence path.now (sequence_tree sequence.old))) false }
{
    structure_at(sequence, path).unwrap_or(false)
}

/// Whether a path leads to an item. The sequence stays as it is.
fn leads(sequence: &mut Sequence<'_>, path: &[usize]) -> bool
    ensures same { sequence_tree sequence.new ≡ sequence_tree sequence.old }
    ensures value { result ≡ is_some (at_sequence path.now (sequence_tree sequence.old)) }
{
    structure_at(sequence, path).is_some()
}

/// Whether the items behind a path are places of their own. The sequence and the path stay as they are.
fn is_open(sequence: &mut Sequence<'_>, path: &mut Vec<usize>) -> Result<bool, AllocError>
    ensures same { sequence_tree sequence.new ≡ sequence_tree sequence.old }
    ensures path { OnOk result (path.new.items ≡ path.old.items) }
    ensures open { IfOk result (λ b. b ≡ is_open_at path.old.items (sequence_tree sequence.old)) }
{
    if path.is_empty() || is_structure_at(sequence, path) {
        return Ok(true);
    }
    path.push(MOST_EMBEDDED)?;
    let more = leads(sequence, path);
    let _ = path.pop();
    Ok(!more)
}

/// Which of the places behind a path is the first that means no value, and why. The sequence and the path stay as they are.
fn first_of(
    alloc: Global,
    sequence: &mut Sequence<'_>,
    path: &mut Vec<usize>,
) -> Result<Option<(usize, InconsistentEdn)>, AllocError>
    ensures same { sequence_tree sequence.new ≡ sequence_tree sequence.old }
    ensures path { OnOk result (path.new.items ≡ path.old.items) }
    ensures found { IfOk result (IsFirstOf (places_behind path.old.items (sequence_tree sequence.old))) }
{
    if is_open(sequence, path)? {
        first_beside(alloc, sequence, path)
    } else {
        Ok(None)
    }
}

/// Leaves of a sequence the item alone where a path leads.
fn leave(alloc: Global, sequence: &mut Sequence<'_>, path: &[usize]) -> Result<(), AllocError>
    ensures { OnOk result (IsLeft path.now (sequence_tree sequence.old) (sequence_tree sequence.new)) }
{
    let other = Item::new_integer_decimal(alloc, 0)?;
    if let Some(place) = sequence.at_mut(path) {
        let item = mem::replace(place, other);
        *sequence = Sequence::of_item(alloc, item);
    }
    Ok(())
}

/// A path with a reason, where there is one.
fn with_reason(
    path: Vec<usize>,
    reason: Option<InconsistentEdn>,
) -> Option<(Vec<usize>, InconsistentEdn)>
    ensures { result ≡ option_map (λ e. (path, e)) reason }
{
    match reason {
        Some(fault) => Some((path, fault)),
        None => None,
    }
}

/// The same as [`first_valueless`], by looking for the first item that means no value among the items, and then in it: so what stands in
/// front there is encoded again at each level. Of the sequence nothing is left that is of use.
fn search(
    alloc: Global,
    sequence: &mut Sequence<'_>,
) -> Result<Option<(Vec<usize>, InconsistentEdn)>, AllocError>
    ensures { IfOk result (IsFound (sequence_tree sequence.old)) }
{
    let mut path = Vec::new(alloc);
    let mut place = Vec::new(alloc);
    let mut reason = None;
    'levels: for _ in 0..usize::MAX {
        let Some((number, fault)) = first_of(alloc, sequence, &mut place)? else {
            return Ok(with_reason(path, reason));
        };
        path.push(number)?;
        place.push(number)?;
        reason = Some(fault);
        leave(alloc, sequence, &place)?;
        place.clear();
        place.push(0)?;
    }
    // No item in memory nests so deep.
    Err(AllocError)
}

/// Whether the items behind a path are places, and so many of them mean a value each. The sequence and the path stay as they are.
fn are_front_valued(
    alloc: Global,
    sequence: &mut Sequence<'_>,
    path: &mut Vec<usize>,
    count: usize,
) -> Result<bool, AllocError>
    ensures same { sequence_tree sequence.new ≡ sequence_tree sequence.old }
    ensures path { OnOk result (path.new.items ≡ path.old.items) }
    ensures valued { IfOk result (λ b. OnTrue b (AreFrontValued path.old.items count (sequence_tree sequence.old))) }
{
    if is_open(sequence, path)? {
        are_valued(alloc, sequence, path, count)
    } else {
        Ok(false)
    }
}

/// Leaves the place alone that stands at a number behind a path, and says whether it is one and each in front of it means a value.
fn enter(
    alloc: Global,
    sequence: &mut Sequence<'_>,
    path: &mut Vec<usize>,
    number: usize,
) -> Result<bool, AllocError>
    ensures { IfOk result (λ b. OnTrue b (IsEntered path.old.items number (sequence_tree sequence.old) (sequence_tree sequence.new))) }
{
    if !are_front_valued(alloc, sequence, path, number)? {
        return Ok(false);
    }
    path.push(number)?;
    if !leads(sequence, path) {
        return Ok(false);
    }
    leave(alloc, sequence, path)?;
    Ok(true)
}

/// Why the item where a path leads means no value, where each place in it means one. The sequence stays as it is.
fn own_reason(
    alloc: Global,
    sequence: &mut Sequence<'_>,
    path: &mut Vec<usize>,
) -> Result<Option<InconsistentEdn>, AllocError>
    ensures { IfOk result (λ r. IfSome r (λ e. IsOwn path.old.items (sequence_tree sequence.old))) }
{
    if first_of(alloc, sequence, path)?.is_some() {
        return Ok(None);
    }
    match found_at(alloc, sequence, path)? {
        Found::Valueless(fault) => Ok(Some(fault)),
        Found::Nowhere | Found::Valued => Ok(None),
    }
}

/// Why the item means no value to which a path leads in the one item of a sequence, where it is the first such item. Each item in front of
/// it is encoded once. Of the sequence nothing is left that is of use.
fn reason_in(
    alloc: Global,
    sequence: &mut Sequence<'_>,
    path: &[usize],
) -> Result<Option<InconsistentEdn>, AllocError>
    ensures { IfOk result (λ r. IfSome r (λ e. IsReasonIn path.now (sequence_tree sequence.old))) }
{
    let mut place = Vec::new(alloc);
    place.push(0)?;
    if path.is_empty() {
        return own_reason(alloc, sequence, &mut place);
    }
    if enter(alloc, sequence, &mut place, path[0])? {
        reason_in(alloc, sequence, &path[1..])
    } else {
        Ok(None)
    }
}

/// The same in a copy of a sequence.
fn reason_of(
    alloc: Global,
    sequence: &Sequence<'_>,
    path: &[usize],
) -> Result<Option<InconsistentEdn>, AllocError>
    ensures { IfOk result (λ r. IfSome r (λ e. IsReasonOf path.now (sequence_tree sequence.now))) }
{
    if path.is_empty() {
        return Ok(None);
    }
    let mut copy = Box::new(alloc, sequence.clone()?)?;
    let mut place = Vec::new(alloc);
    if enter(alloc, &mut copy, &mut place, path[0])? {
        reason_in(alloc, &mut copy, &path[1..])
    } else {
        Ok(None)
    }
}

/// The path of the first item that means no value while each place in it means one, and why: none where all items mean values. Such an item
/// is looked for among the items, and then in the first that means no value. Nothing may be used of what is left of the sequence. Takes
/// time in the size of the text, but where a string means no value for the bytes that it embeds, as `<<"..">>_i`: there in the size times
/// the depth.
pub fn first_valueless(
    alloc: Global,
    sequence: &mut Sequence<'_>,
) -> Result<Option<(Vec<usize>, InconsistentEdn)>, AllocError>
    ensures { IfOk result (IsFound (sequence_tree sequence.old)) }
{
    let path = guessed(alloc, sequence)?;
    match reason_of(alloc, sequence, &path)? {
        Some(reason) => Ok(Some((path, reason))),
        None => search(alloc, sequence),
    }
}

/// Cuts numbers from the end of a path until it leads to an item, and says whether it does: an item that was resolved may have parts where
/// its literal has none. Without such a front nothing is left of the path. The sequence stays as it is.
pub fn cut_to_item(sequence: &mut Sequence<'_>, path: &mut Vec<usize>) -> bool
    ensures same { sequence_tree sequence.new ≡ sequence_tree sequence.old }
    ensures cut { IsCut (sequence_tree sequence.old) path.old.items path.new.items }
    ensures leads { result ≡ is_some (at_sequence path.new.items (sequence_tree sequence.old)) }
    ensures all { result ≡ false → path.new.items ≡ [] }
{
    'numbers: while !path.is_empty() {
        if leads(sequence, path) {
            return true;
        }
        path.truncate(path.len() - 1);
    }
    false
}
