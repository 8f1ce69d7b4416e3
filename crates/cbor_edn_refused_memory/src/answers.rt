//! Calls that answer a tree, a text or bytes, with what they must answer.
use crate::trees::{sequence_of, standalone_of};
use cbor_edn_application::{IpVersion, dt_item_to_aol, ip_item_to_aol};
use cbor_edn_core::tree::{Indicator, Item, Sequence, StandaloneItem};
use cbor_edn_expect::memory::{Failure, boxed};
use cbor_edn_parts::base::buffer::TextBuffer;
use cbor_edn_parts::base::error::Fault;
use cbor_edn_parts::base::looks::Looks;
use cbor_edn_parts::space::policy::DelimiterPolicy;
use std::alloc::{AllocError, Global};
use std::fmt::Display;

#[derive(Clone, Copy)]
pub(crate) enum Call {
    /// These answer a tree, whose text is compared.
    Item(ItemBy),
    Standalone(StandaloneBy),
    Sequence(SequenceBy),
    Bytes(BytesBy),
    /// These answer a text by a policy.
    LaidOut(LaidOutBy),
    /// The outline of `Debug`, of an item, of one with its spaces and of a sequence.
    Debug,
    /// Calls that must be refused with a message, which is compared.
    Refused(RefusedBy),
}

#[derive(Clone, Copy)]
pub(crate) enum ItemBy {
    Decimal(i128),
    Hexadecimal(u64),
    Number(&'static str),
    BytesHex(&'static [u8]),
    Text(&'static str),
    Literal(&'static str, &'static str),
    Array(&'static [i128]),
    Map(&'static [(i128, i128)]),
    Tagged(i128, u64),
    StandaloneTagged(&'static str, u64),
    Decoded(&'static [u8]),
    DecodedWithin(&'static [u8], usize),
    /// The item that the bytes begin with: `REST` stands behind it.
    Beginning(&'static [u8]),
    BeginningWithin(&'static [u8], usize),
    Copy(&'static str),
    /// A sequence in `<<..>>_0`.
    Embedded(&'static str),
    TimeLiteral(&'static str),
    AddressLiteral(&'static str),
}

#[derive(Clone, Copy)]
pub(crate) enum StandaloneBy {
    Parsed(&'static str),
    ParsedWithin(&'static str, usize),
    ParsedCounted(&'static str),
    Decoded(&'static [u8]),
    DecodedWithin(&'static [u8], usize),
    Beginning(&'static [u8]),
    BeginningWithin(&'static [u8], usize),
    Copy(&'static str),
    WithComment(&'static str, &'static str),
    ItemWithComment(i128, &'static str),
}

#[derive(Clone, Copy)]
pub(crate) enum SequenceBy {
    Parsed(&'static str),
    ParsedWithin(&'static str, usize),
    ParsedCounted(&'static str),
    Decoded(&'static [u8]),
    DecodedWithin(&'static [u8], usize),
    Copy(&'static str),
    CopyOfDecoded(&'static [u8]),
    Made(&'static [i128]),
}

#[derive(Clone, Copy)]
pub(crate) enum BytesBy {
    OfItem(&'static str),
    OfStandalone(&'static str),
    OfSequence(&'static str),
    Recoded(&'static [u8]),
    Content(&'static str),
    Literal(&'static str),
    /// These print at the end of another text.
    Printed(&'static str),
    PrintedLaidOut(&'static str, DelimiterPolicy),
}

#[derive(Clone, Copy)]
pub(crate) enum LaidOutBy {
    Item(&'static str, DelimiterPolicy),
    Standalone(&'static str, DelimiterPolicy),
    Sequence(&'static str, DelimiterPolicy),
}

#[derive(Clone, Copy)]
pub(crate) enum RefusedBy {
    Parse(&'static str),
    ParseStandalone(&'static str),
    FromCbor(&'static [u8]),
    ItemFromCbor(&'static [u8]),
    ToCbor(&'static str),
    Content(&'static str),
    Literal(&'static str),
    Prefix(&'static str),
}

const REST: &[u8] = b"\x02\x03";

/// A call's name, the call and what it must answer.
pub(crate) type Row = (&'static str, Call, &'static [u8]);

/// Makes the call of a row.
pub(crate) fn answered(alloc: Global, row: &Row) -> Result<bool, Failure> {
    match row.1 {
        Call::Item(call) => is_text(item_text(alloc, call), row.2),
        Call::Standalone(call) => is_text(standalone_text(alloc, call), row.2),
        Call::Sequence(call) => is_text(sequence_text(alloc, call), row.2),
        Call::Bytes(call) => are_bytes(bytes_by(alloc, call), row.2),
        Call::LaidOut(call) => is_text(laid_out_by(alloc, call), row.2),
        Call::Debug => is_text(outlines(alloc), row.2),
        Call::Refused(call) => is_text(refused_by(alloc, call), row.2),
    }
}

fn is_text(answer: Result<String, Failure>, wanted: &[u8]) -> Result<bool, Failure> {
    Ok(answer?.as_bytes() == wanted)
}

fn are_bytes(answer: Result<Vec<u8>, Failure>, wanted: &[u8]) -> Result<bool, Failure> {
    Ok(answer?.as_slice() == wanted)
}

fn item_text(alloc: Global, call: ItemBy) -> Result<String, Failure> {
    Ok(item_by(alloc, call)?.serialize(alloc)?)
}

fn standalone_text(alloc: Global, call: StandaloneBy) -> Result<String, Failure> {
    Ok(standalone_by(alloc, call)?.serialize(alloc)?)
}

fn sequence_text(alloc: Global, call: SequenceBy) -> Result<String, Failure> {
    Ok(sequence_by(alloc, call)?.serialize(alloc)?)
}

fn item_by<'a>(alloc: Global, call: ItemBy) -> Result<Box<Item<'a>>, Failure> {
    match call {
        ItemBy::Decimal(integer) => decimal(alloc, integer),
        ItemBy::Hexadecimal(integer) => boxed(alloc, Item::new_integer_hex(alloc, integer)),
        ItemBy::Number(text) => some_of(alloc, Item::new_number(alloc, text)),
        ItemBy::BytesHex(bytes) => boxed(alloc, Item::new_bytes_hex(alloc, bytes)),
        ItemBy::Text(text) => boxed(alloc, Item::new_text(alloc, text)),
        ItemBy::Literal(prefix, text) => {
            boxed(alloc, Item::new_application_literal(alloc, prefix, text))
        }
        ItemBy::Array(integers) => boxed(
            alloc,
            Item::new_array(alloc, integers_of(alloc, integers)?),
        ),
        ItemBy::Map(entries) => boxed(alloc, Item::new_map(alloc, entries_of(alloc, entries)?)),
        ItemBy::Tagged(integer, number) => tagged(alloc, integer, number),
        ItemBy::StandaloneTagged(text, number) => standalone_tagged(alloc, text, number),
        ItemBy::Decoded(bytes) => boxed(alloc, Item::from_cbor(alloc, bytes)),
        ItemBy::DecodedWithin(bytes, limit) => {
            boxed(alloc, Item::from_cbor_within(alloc, bytes, limit))
        }
        ItemBy::Beginning(bytes) => beginning(alloc, Item::from_cbor_with_rest(alloc, bytes)),
        ItemBy::BeginningWithin(bytes, limit) => {
            beginning(alloc, Item::from_cbor_with_rest_within(alloc, bytes, limit))
        }
        ItemBy::Copy(text) => copy_of_item(alloc, standalone_of(alloc, text)?.item()),
        ItemBy::Embedded(text) => boxed(
            alloc,
            Sequence::parse(alloc, text)?.embedded(alloc, Some(Indicator::One)),
        ),
        ItemBy::TimeLiteral(text) => {
            boxed(
                alloc,
                dt_item_to_aol(alloc, standalone_of(alloc, text)?.item(), false),
            )
        }
        ItemBy::AddressLiteral(text) => boxed(
            alloc,
            ip_item_to_aol(
                alloc,
                standalone_of(alloc, text)?.item(),
                IpVersion::V4,
                true,
            ),
        ),
    }
}

fn decimal<'a>(alloc: Global, integer: i128) -> Result<Box<Item<'a>>, Failure> {
    boxed(alloc, Item::new_integer_decimal(alloc, integer))
}

/// The tree that an answer has.
fn some_of<T: Drop>(
    alloc: Global,
    answer: Result<Option<T>, AllocError>,
) -> Result<Box<T>, Failure> {
    match answer? {
        Some(tree) => Ok(Box::new(alloc, tree)?),
        None => Err(Failure::Wrong),
    }
}

/// The tree of an answer that tells what stands behind it too.
fn beginning<T: Drop, E: Into<Failure>>(
    alloc: Global,
    answer: Result<(T, &[u8]), E>,
) -> Result<Box<T>, Failure> {
    match answer {
        Ok((tree, rest)) => {
            if rest == REST {
                Ok(Box::new(alloc, tree)?)
            } else {
                Err(Failure::Wrong)
            }
        }
        Err(error) => Err(error.into()),
    }
}

fn integers_of<'a>(alloc: Global, integers: &[i128]) -> Result<Vec<Item<'a>>, AllocError> {
    let mut items: Vec<Item<'a>> = Vec::new(alloc);
    for &integer in integers {
        items.push(Item::new_integer_decimal(alloc, integer)?)?;
    }
    Ok(items)
}

fn entries_of<'a>(
    alloc: Global,
    entries: &[(i128, i128)],
) -> Result<Vec<(Item<'a>, Item<'a>)>, AllocError> {
    let mut items: Vec<(Item<'a>, Item<'a>)> = Vec::new(alloc);
    for &(key, value) in entries {
        let key = Item::new_integer_decimal(alloc, key)?;
        items.push((key, Item::new_integer_decimal(alloc, value)?))?;
    }
    Ok(items)
}

fn tagged<'a>(alloc: Global, integer: i128, number: u64) -> Result<Box<Item<'a>>, Failure> {
    boxed(
        alloc,
        Item::new_integer_decimal(alloc, integer)?.tagged(alloc, number),
    )
}

fn standalone_tagged<'a>(
    alloc: Global,
    text: &'a str,
    number: u64,
) -> Result<Box<Item<'a>>, Failure> {
    boxed(
        alloc,
        StandaloneItem::parse(alloc, text)?.tagged(alloc, number),
    )
}

fn copy_of_item<'a>(alloc: Global, item: &Item<'a>) -> Result<Box<Item<'a>>, Failure> {
    let copy = boxed(alloc, item.clone())?;
    if *copy == *item {
        Ok(copy)
    } else {
        Err(Failure::Wrong)
    }
}

fn standalone_by<'a>(
    alloc: Global,
    call: StandaloneBy,
) -> Result<Box<StandaloneItem<'a>>, Failure> {
    match call {
        StandaloneBy::Parsed(text) => standalone_of(alloc, text),
        StandaloneBy::ParsedWithin(text, limit) => {
            boxed(alloc, StandaloneItem::parse_within(alloc, text, limit))
        }
        StandaloneBy::ParsedCounted(text) => {
            boxed(
                alloc,
                StandaloneItem::parse_counted(alloc, text, &mut Looks::new()),
            )
        }
        StandaloneBy::Decoded(bytes) => boxed(alloc, StandaloneItem::from_cbor(alloc, bytes)),
        StandaloneBy::DecodedWithin(bytes, limit) => {
            boxed(alloc, StandaloneItem::from_cbor_within(alloc, bytes, limit))
        }
        StandaloneBy::Beginning(bytes) => {
            beginning(alloc, StandaloneItem::from_cbor_with_rest(alloc, bytes))
        }
        StandaloneBy::BeginningWithin(bytes, limit) => beginning(
            alloc,
            StandaloneItem::from_cbor_with_rest_within(alloc, bytes, limit),
        ),
        StandaloneBy::Copy(text) => {
            let item = standalone_of(alloc, text)?;
            copy_of_standalone(alloc, &item)
        }
        StandaloneBy::WithComment(text, comment) => boxed(
            alloc,
            StandaloneItem::parse(alloc, text)?.with_comment(alloc, comment),
        ),
        StandaloneBy::ItemWithComment(integer, comment) => boxed(
            alloc,
            Item::new_integer_decimal(alloc, integer)?.with_comment(alloc, comment),
        ),
    }
}

fn copy_of_standalone<'a>(
    alloc: Global,
    item: &StandaloneItem<'a>,
) -> Result<Box<StandaloneItem<'a>>, Failure> {
    let copy = boxed(alloc, item.clone())?;
    if *copy == *item {
        Ok(copy)
    } else {
        Err(Failure::Wrong)
    }
}

fn sequence_by<'a>(alloc: Global, call: SequenceBy) -> Result<Box<Sequence<'a>>, Failure> {
    match call {
        SequenceBy::Parsed(text) => sequence_of(alloc, text),
        SequenceBy::ParsedWithin(text, limit) => {
            boxed(alloc, Sequence::parse_within(alloc, text, limit))
        }
        SequenceBy::ParsedCounted(text) => {
            boxed(
                alloc,
                Sequence::parse_counted(alloc, text, &mut Looks::new()),
            )
        }
        SequenceBy::Decoded(bytes) => decoded(alloc, bytes),
        SequenceBy::DecodedWithin(bytes, limit) => {
            boxed(alloc, Sequence::from_cbor_within(alloc, bytes, limit))
        }
        SequenceBy::Copy(text) => {
            let sequence = sequence_of(alloc, text)?;
            copy_of_sequence(alloc, &sequence)
        }
        SequenceBy::CopyOfDecoded(bytes) => {
            let sequence: Box<Sequence<'a>> = decoded(alloc, bytes)?;
            copy_of_sequence(alloc, &sequence)
        }
        SequenceBy::Made(integers) => made(alloc, integers),
    }
}

fn made<'a>(alloc: Global, integers: &[i128]) -> Result<Box<Sequence<'a>>, Failure> {
    let items: Vec<Item<'a>> = integers_of(alloc, integers)?;
    boxed(alloc, Sequence::new(alloc, items))
}

fn decoded<'a>(alloc: Global, bytes: &[u8]) -> Result<Box<Sequence<'a>>, Failure> {
    boxed(alloc, Sequence::from_cbor(alloc, bytes))
}

fn copy_of_sequence<'a>(
    alloc: Global,
    sequence: &Sequence<'a>,
) -> Result<Box<Sequence<'a>>, Failure> {
    let copy = boxed(alloc, sequence.clone())?;
    if *copy == *sequence {
        Ok(copy)
    } else {
        Err(Failure::Wrong)
    }
}

fn bytes_by(alloc: Global, call: BytesBy) -> Result<Vec<u8>, Failure> {
    match call {
        BytesBy::OfItem(text) => Ok(standalone_of(alloc, text)?.item().to_cbor(alloc)?),
        BytesBy::OfStandalone(text) => Ok(standalone_of(alloc, text)?.to_cbor(alloc)?),
        BytesBy::OfSequence(text) => Ok(sequence_of(alloc, text)?.to_cbor(alloc)?),
        BytesBy::Recoded(bytes) => Ok(decoded(alloc, bytes)?.to_cbor(alloc)?),
        BytesBy::Content(text) => Ok(standalone_of(alloc, text)?.item().get_bytes(alloc)?),
        BytesBy::Literal(text) => literal_of(alloc, standalone_of(alloc, text)?.item()),
        BytesBy::Printed(text) => printed(alloc, text),
        BytesBy::PrintedLaidOut(text, policy) => printed_laid_out(alloc, text, policy),
    }
}

fn printed(alloc: Global, text: &'static str) -> Result<Vec<u8>, Failure> {
    let mut out = begun(alloc)?;
    sequence_of(alloc, text)?.print(&mut out)?;
    Ok(out.into_bytes())
}

fn printed_laid_out(
    alloc: Global,
    text: &'static str,
    policy: DelimiterPolicy,
) -> Result<Vec<u8>, Failure> {
    let mut out = begun(alloc)?;
    sequence_of(alloc, text)?.print_laid_out(&mut out, policy)?;
    Ok(out.into_bytes())
}

/// A text that others are printed behind.
pub(crate) fn begun(alloc: Global) -> Result<TextBuffer, Failure> {
    let mut out = TextBuffer::new(alloc);
    out.push_str("0,")?;
    Ok(out)
}

fn laid_out_by(alloc: Global, call: LaidOutBy) -> Result<String, Failure> {
    match call {
        LaidOutBy::Item(text, policy) => {
            let item = standalone_of(alloc, text)?;
            Ok(item.item().serialize_laid_out(alloc, policy)?)
        }
        LaidOutBy::Standalone(text, policy) => {
            let item = standalone_of(alloc, text)?;
            Ok(item.serialize_laid_out(alloc, policy)?)
        }
        LaidOutBy::Sequence(text, policy) => {
            let sequence = sequence_of(alloc, text)?;
            Ok(sequence.serialize_laid_out(alloc, policy)?)
        }
    }
}

/// The prefix of a literal, and its text behind a space.
fn literal_of(alloc: Global, item: &Item<'_>) -> Result<Vec<u8>, Failure> {
    let (prefix, text) = item.get_application_literal(alloc)?;
    Ok(format!(in alloc; "{prefix} {text}")?.into_bytes())
}

fn outlines(alloc: Global) -> Result<String, Failure> {
    let item = standalone_of(alloc, "{1: 2}")?;
    let sequence = sequence_of(alloc, "1.50, [2], h'00'")?;
    outlines_of(alloc, &item, &sequence)
}

fn outlines_of(
    alloc: Global,
    item: &StandaloneItem<'_>,
    sequence: &Sequence<'_>,
) -> Result<String, Failure> {
    let inner = item.item();
    Ok(format!(in alloc; "{inner:?} {item:?} {sequence:?}")?)
}

fn refused_by(alloc: Global, call: RefusedBy) -> Result<String, Failure> {
    match call {
        RefusedBy::Parse(text) => words(alloc, Sequence::parse(alloc, text)),
        RefusedBy::ParseStandalone(text) => words(alloc, StandaloneItem::parse(alloc, text)),
        RefusedBy::FromCbor(bytes) => {
            let answer: Result<Sequence<'_>, _> = Sequence::from_cbor(alloc, bytes);
            words(alloc, answer)
        }
        RefusedBy::ItemFromCbor(bytes) => {
            let answer: Result<Item<'_>, _> = Item::from_cbor(alloc, bytes);
            words(alloc, answer)
        }
        RefusedBy::ToCbor(text) => words(alloc, sequence_of(alloc, text)?.to_cbor(alloc)),
        RefusedBy::Content(text) => words(
            alloc,
            standalone_of(alloc, text)?.item().get_bytes(alloc),
        ),
        RefusedBy::Literal(text) => words(
            alloc,
            standalone_of(alloc, text)?
                .item()
                .get_application_literal(alloc),
        ),
        RefusedBy::Prefix(prefix) => {
            let answer: Result<Item<'_>, _> = Item::new_application_literal(alloc, prefix, "");
            words(alloc, answer)
        }
    }
}

/// The message of a refusal that is not for memory.
fn words<T: Drop, E: Display + Drop>(
    alloc: Global,
    answer: Result<T, Fault<E>>,
) -> Result<String, Failure> {
    match answer {
        Ok(_) => Err(Failure::Wrong),
        Err(Fault::Memory(_)) => Err(Failure::Refused),
        Err(Fault::Told(refused)) => Ok(format!(in alloc; "{refused}")?),
    }
}
