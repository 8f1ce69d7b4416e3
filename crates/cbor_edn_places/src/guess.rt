//! What seems to be the path of the first item that has no encoding.
use crate::path::{Found, MOST_EMBEDDED, found_of, is_structure};
use cbor_edn_core::tree::{Item, Sequence};
use std::alloc::{AllocError, Global};

fn has_part(item: &mut Item<'_>, number: usize) -> bool {
    match item.at_mut(&[number]) {
        Some(_part) => true,
        None => false,
    }
}

fn is_open(item: &mut Item<'_>) -> bool {
    is_structure(item) || !has_part(item, MOST_EMBEDDED)
}

/// The path in an item of what seems to be the first item that means no value: one that means none once there are numbers in the place of
/// the structures and strings in it, which have been looked at before. So each item is encoded twice at most. Only of strings it depends
/// on the parts whether they mean a value, and one of these may be passed over, or be named though it means one. Of the item nothing is
/// left that is of use.
fn guess(
    alloc: Global,
    item: &mut Item<'_>,
    levels: usize,
) -> Result<Option<Vec<usize>>, AllocError> {
    if levels == 0 {
        return Ok(None);
    }
    if is_open(item) {
        for number in 0..usize::MAX {
            let Some(part) = item.at_mut(&[number]) else {
                break;
            };
            if let Some(mut path) = guess(alloc, part, levels - 1)? {
                path.insert(0, number)?;
                return Ok(Some(path));
            }
            if has_part(part, 0) {
                *part = Item::new_integer_decimal(alloc, 0)?;
            }
        }
    }
    match found_of(alloc, item)? {
        Found::Valueless(_) => Ok(Some(Vec::new(alloc))),
        Found::Nowhere | Found::Valued => Ok(None),
    }
}

/// The path in a sequence of what seems to be the first item that means no value; the empty one where each seems to mean one.
pub(crate) fn guessed(alloc: Global, sequence: &Sequence<'_>) -> Result<Vec<usize>, AllocError> {
    let mut copy = Box::new(alloc, sequence.clone()?)?;
    for number in 0..usize::MAX {
        let Some(item) = copy.at_mut(&[number]) else {
            break;
        };
        if let Some(mut path) = guess(alloc, item, usize::MAX)? {
            path.insert(0, number)?;
            return Ok(path);
        }
    }
    Ok(Vec::new(alloc))
}
