//! Where in its input a run is refused: a second pass over what it refused. Where that gets no memory, no place is told.
ghost use Rattle.std.specs.Prelude.{IfNone, IfOk, IfSome};
ghost use Rattle.cbor_edn_findings.specs.WithoutEncoding.{NoneWithout};
ghost use Rattle.cbor_edn_c.specs.Places.{IsByteOfFault, IsBytePlace, IsPlace, IsPlaceAt, IsTextPlace};

use cbor_edn::engine::{Options, RunError};
use cbor_edn_c_calls::place::Place;
use cbor_edn_command::hexadecimal;
use cbor_edn_findings::bytes::offset_of_fault;
use cbor_edn_findings::places::{first_in_text, located};
use cbor_edn_parts::base::error::InconsistentEdn;
use std::alloc::{AllocError, Global};
use std::str::from_utf8;

/// A fault and its place.
#[derive(Drop)]
pub(crate) struct Told {
    pub(crate) fault: RunError,
    pub(crate) place: Place,
}

/// The place at an offset of a text.
fn place_at(text: &str, offset: usize) -> Place
    ensures { IsPlaceAt text.now offset result }
{
    match located(text, offset) {
        Some(place) => Place::of_text(&place),
        None => Place::Nowhere,
    }
}

/// The place of the first item that has no encoding, and why it has none.
fn first_without(
    alloc: Global,
    options: &Options,
    input: &[u8],
) -> Result<Option<(Place, InconsistentEdn)>, AllocError>
    ensures some { IfOk result (λ found. IfSome found (λ p. IsTextPlace options.now input.now p.0)) }
    ensures none { IfOk result (λ found. IfNone found (NoneWithout options.now input.now)) }
{
    let Ok(text) = from_utf8(input) else {
        return Ok(None);
    };
    let Some((offset, reason)) = first_in_text(alloc, options, text)? else {
        return Ok(None);
    };
    Ok(Some((place_at(text, offset), reason)))
}

/// Of a text that has no encoding: the fault is that of the item at the place.
fn told_of_text(alloc: Global, options: &Options, input: &[u8], reason: InconsistentEdn) -> Told
    ensures { IsTextPlace options.now input.now result.place }
{
    let (place, reason) = match first_without(alloc, options, input) {
        Ok(Some(found)) => found,
        Ok(None) => (Place::Nowhere, reason),
        Err(_) => (Place::NotFound, reason),
    };
    Told {
        fault: RunError::Inconsistent(reason),
        place,
    }
}

/// The byte at which CBOR is refused, of the bytes that digits stand for where they are asked for.
fn offset_in(alloc: Global, options: &Options, input: &[u8]) -> Option<usize>
    ensures { IfSome result (IsByteOfFault options.now input.now) }
{
    if options.hex {
        let bytes = hexadecimal::decoded(alloc, input).ok()?;
        offset_of_fault(alloc, &bytes, options.limit).ok()
    } else {
        offset_of_fault(alloc, input, options.limit).ok()
    }
}

fn place_in_bytes(alloc: Global, options: &Options, input: &[u8]) -> Place
    ensures { IsBytePlace options.now input.now result }
{
    match offset_in(alloc, options, input) {
        Some(offset) => Place::InBytes { offset },
        None => Place::NotFound,
    }
}

/// The fault of a run that is refused, with its place.
pub(crate) fn told_of(alloc: Global, options: &Options, input: &[u8], fault: RunError) -> Told
    ensures { IsPlace options.now input.now fault result.place }
{
    let place = match &fault {
        RunError::Inconsistent(reason) => return told_of_text(alloc, options, input, *reason),
        RunError::Parse(error) => Place::of_text(error),
        RunError::Cbor(_) => place_in_bytes(alloc, options, input),
        _ => Place::Nowhere,
    };
    Told { fault, place }
}
