//! What the calls of `free` are made on. It is made while memory is there.
use crate::answers::begun;
use crate::free::{Group, Row};
use crate::trees::{sequence_of, standalone_of};
use cbor_edn_core::tree::{Item, Sequence, StandaloneItem};
use cbor_edn_expect::memory::{Failure, boxed};
use cbor_edn_parts::base::buffer::TextBuffer;
use cbor_edn_parts::base::error::{Fault, ParseError};
use std::alloc::{AllocFailed, Global};

const PARTS: &str = "[-8_1, true, 'a', 4_0( 5 ), {2: 3}, [0x1f]]";

/// The items of `PARTS` but for the last.
const OTHER: &str = "[-8_1, true, 'a', 4_0( 5 ), {2: 3}, [0x1e]]";

const LENT: &str = "[{2: 3}, 4(5)]";

const SPACED: &str = " [ 1 / a comment of some length / , 2 ] ";

/// Trees of one text, and of another one.
#[derive(Drop)]
pub(crate) struct Compared<'a> {
    pub(crate) alone: Box<StandaloneItem<'a>>,
    pub(crate) same_alone: Box<StandaloneItem<'a>>,
    pub(crate) other_alone: Box<StandaloneItem<'a>>,
    pub(crate) sequence: Box<Sequence<'a>>,
    pub(crate) same_sequence: Box<Sequence<'a>>,
    pub(crate) other_sequence: Box<Sequence<'a>>,
}

fn trees_to_compare<'a>(alloc: Global) -> Result<Box<Compared<'a>>, Failure> {
    let compared = Compared {
        alone: standalone_of(alloc, PARTS)?,
        same_alone: standalone_of(alloc, PARTS)?,
        other_alone: standalone_of(alloc, OTHER)?,
        sequence: sequence_of(alloc, PARTS)?,
        same_sequence: sequence_of(alloc, PARTS)?,
        other_sequence: sequence_of(alloc, OTHER)?,
    };
    match Box::new(alloc, compared) {
        Ok(compared) => Ok(compared),
        Err(AllocFailed { .. }) => Err(Failure::Refused),
    }
}

/// What the calls of a row are made on. It is made before the first of them.
#[derive(Drop)]
pub(crate) enum Ready<'a> {
    Parts(Box<StandaloneItem<'a>>),
    Loans(Box<Sequence<'a>>),
    Comparisons(Box<Compared<'a>>),
    Discarding(Box<StandaloneItem<'a>>, Box<Sequence<'a>>),
    Mismatches(Box<StandaloneItem<'a>>),
    FromItem(Box<Item<'a>>, Box<Item<'a>>),
    Refusals(ParseError),
    Made,
    Buffers(TextBuffer, TextBuffer),
    Conversions,
    Control,
}

/// Makes what the calls of a row are made on.
pub(crate) fn prepared<'a>(alloc: Global, row: &Row) -> Result<Ready<'a>, Failure> {
    match row.1 {
        Group::Parts => Ok(Ready::Parts(standalone_of(alloc, PARTS)?)),
        Group::Loans => Ok(Ready::Loans(sequence_of(alloc, LENT)?)),
        Group::Comparisons => Ok(Ready::Comparisons(trees_to_compare(alloc)?)),
        Group::Discarding => {
            let alone = standalone_of(alloc, SPACED)?;
            Ok(Ready::Discarding(alone, sequence_of(alloc, SPACED)?))
        }
        Group::Mismatches => Ok(Ready::Mismatches(standalone_of(alloc, "0")?)),
        Group::FromItem => {
            let item = boxed(alloc, Item::new_integer_decimal(alloc, 5))?;
            let other = boxed(alloc, Item::new_integer_decimal(alloc, 5))?;
            Ok(Ready::FromItem(item, other))
        }
        Group::Refusals => Ok(Ready::Refusals(refusal(alloc)?)),
        Group::Made => Ok(Ready::Made),
        Group::Buffers => Ok(Ready::Buffers(begun(alloc)?, begun(alloc)?)),
        Group::Conversions => Ok(Ready::Conversions),
        Group::Control => Ok(Ready::Control),
    }
}

fn refusal(alloc: Global) -> Result<ParseError, Failure> {
    match Sequence::parse(alloc, "1\n,,").err() {
        Some(Fault::Told(refused)) => Ok(refused),
        Some(Fault::Memory(_)) => Err(Failure::Refused),
        None => Err(Failure::Wrong),
    }
}
