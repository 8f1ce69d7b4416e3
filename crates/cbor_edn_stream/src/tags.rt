//! Tags among bytes.
ghost use Rattle.std.specs.Prelude.{◌≡◌, ◌<◌, ◌≤◌, true, false, length, IfOk, IfSome};
ghost use Rattle.std.specs.List.{list_all, list_any};
ghost use Rattle.cbor_edn_model.specs.cbor.Value.{Values, EncAll};
ghost use Rattle.cbor_edn_stream.specs.Tags.{values_have_tag};
ghost use Rattle.cbor_edn_stream.specs.Heads as heads;
ghost use Rattle.cbor_edn_stream.specs.Heads.{IsBehindOther};

use cbor_edn_model::cbor::decode::head::{Argument, head_of};
use cbor_edn_model::cbor::heads::Width;
use cbor_edn_parts::base::error::Fault;
use std::alloc::AllocError;

/// The major type of tags (RFC 8949, section 3.1).
const TAG: u8 = 6;

/// Whether a tag of one of the numbers stands in the items that bytes encode, at any depth. Of bytes that encode no items it says nothing.
///
/// It goes from head to head. It fails for want of memory alone, as all that reads heads does, and asks for none.
pub fn has_tag_of(numbers: &[u64], bytes: &[u8]) -> Result<bool, AllocError>
    ensures { IfOk result (λ has. (vs : Values) → EncAll bytes.now vs → has ≡ values_have_tag numbers.now vs) }
{
    if !may_have_tag_of(numbers, bytes) {
        return Ok(false);
    }
    let mut rest = bytes;
    'heads: loop {
        rest = match behind_short(rest) {
            Some(behind) => behind,
            None => {
                let ((major, argument), behind) = match head_of(rest) {
                    Ok(read) => read,
                    Err(Fault::Told(_)) => return Ok(false),
                    Err(Fault::Memory(e)) => return Err(e),
                };
                if is_head_of(numbers, major, argument) {
                    return Ok(true);
                }
                behind_content(major, argument, behind)
            }
        };
    }
}

/// Whether a byte may begin the head of a tag of one of the numbers. Where none does, none stands in the bytes, whatever their heads are.
/// A long string at the front is not read: one step over heads passes it.
fn may_have_tag_of(numbers: &[u64], bytes: &[u8]) -> bool
    ensures { result ≡ false → (list_all heads.is_sought numbers.now ≡ true) × (list_any heads.begins_tag bytes.now ≡ false) }
{
    match bytes {
        [0x58..=0x5b | 0x78..=0x7b, ..] => true,
        _ => !are_sought(numbers) || has_tag_byte(bytes),
    }
}

/// Whether the bytes that begin the heads of tags of these numbers are among those that are sought.
fn are_sought(numbers: &[u64]) -> bool
    ensures { result ≡ list_all heads.is_sought numbers.now }
{
    numbers.iter().all(|number| *number < 4 || 23 < *number)
}

/// Whether a byte begins the head of a tag of a number up to 3, or from 24 on.
fn has_tag_byte(bytes: &[u8]) -> bool
    ensures { result ≡ list_any heads.begins_tag bytes.now }
{
    let mut rest = bytes;
    'fronts: loop {
        if rest.is_empty() {
            return false;
        }
        let (front, behind) = rest.split_at(rest.len().min(1024));
        if has_tag_byte_in_front(front) {
            return true;
        }
        rest = behind;
    }
}

/// [`has_tag_byte`] of few bytes, without a branch for each.
fn has_tag_byte_in_front(bytes: &[u8]) -> bool
    ensures { result ≡ list_any heads.begins_tag bytes.now }
{
    bytes.iter().fold(false, |found, byte| {
        let count = *byte % 32;
        found | ((*byte / 32 == TAG) & ((count < 4) | ((23 < count) & (count < 28))))
    })
}

/// What stands behind a head of one byte that is no tag's, and behind the bytes of a string; none where another head stands.
#[inline(always)]
fn behind_short(bytes: &[u8]) -> Option<&[u8]>
    ensures value { IfSome result (λ r. IsBehindOther bytes.now r.now) }
    ensures shorter { IfSome result (λ r. length r.now < length bytes.now) }
{
    let Some((first, behind)) = bytes.split_first() else {
        return None;
    };
    let major = *first / 32;
    let count = *first % 32;
    if major == TAG || count >= 24 {
        return None;
    }
    let argument = Some((Width::Immediate, u64::from(count)));
    Some(behind_content(major, argument, behind))
}

/// Whether a head is that of a tag of one of the numbers.
#[inline(always)]
fn is_head_of(numbers: &[u64], major: u8, argument: Argument) -> bool
    ensures { result ≡ heads.is_head_of numbers.now major argument }
{
    match argument {
        Some((_, number)) => major == TAG && numbers.contains(&number),
        None => false,
    }
}

/// What stands behind a head, and behind the bytes of a string of definite length.
#[inline(always)]
pub(crate) fn behind_content(major: u8, argument: Argument, bytes: &[u8]) -> &[u8]
    ensures value { result.now ≡ heads.behind_content major argument bytes.now }
    ensures shorter { length result.now ≤ length bytes.now }
{
    match argument {
        Some((_, count)) if major == 2 || major == 3 => {
            let (_, behind) = bytes.split_at(bytes.len().min(count as usize));
            behind
        }
        _ => bytes,
    }
}
