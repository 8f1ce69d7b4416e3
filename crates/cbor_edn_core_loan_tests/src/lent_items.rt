//! Items that are lent one after the other.
use crate::common::sequence_of;
use cbor_edn_core::access::TypeMismatch;
use cbor_edn_core::tree::{Item, Sequence};
use cbor_edn_expect::failures::Failures;
use std::alloc::{AllocError, Global};
use std::mem::swap;
use std::test::Fail;

/// Puts copies of an item in place of all items of an array but the first.
fn overwrite_array<'a>(array: &mut Item<'a>, new: &Item<'a>) -> Result<(), Fail> {
    let mut items = array.get_array_items_mut()?;
    let _ = items.next();
    for item in items {
        *item = new.clone()?;
    }
    Ok(())
}

/// Puts copies of an item in place of all items of a sequence but the first.
fn overwrite_sequence<'a>(sequence: &mut Sequence<'a>, new: &Item<'a>) -> Result<(), Fail> {
    let mut items = sequence.get_items_mut();
    let _ = items.next();
    for item in items {
        *item = new.clone()?;
    }
    Ok(())
}

/// What lends its items: an array that is the first item of a text, or the text's sequence.
#[derive(Clone, Copy)]
enum Lender {
    Array,
    Sequence,
}

fn overwrite<'a>(
    sequence: &mut Sequence<'a>,
    lender: Lender,
    new: Option<&mut Item<'a>>,
) -> Result<(), Fail> {
    let new = new.ok_or("no item to put")?;
    match lender {
        Lender::Array => overwrite_array(sequence.at_mut(&[0]).ok_or("no array")?, new),
        Lender::Sequence => overwrite_sequence(sequence, new),
    }
}

/// The text of a sequence after that, with the item in `[+1]`.
fn text_after<'a>(
    alloc: Global,
    sequence: &mut Sequence<'a>,
    lender: Lender,
) -> Result<String, Fail> {
    match Sequence::parse(alloc, "[+1]") {
        Ok(mut new) => overwrite(sequence, lender, new.at_mut(&[0, 0]))?,
        Err(refused) => return Err(refused.into()),
    }
    Ok(sequence.serialize(alloc)?)
}

fn overwritten(alloc: Global, text: &str, lender: Lender) -> Result<String, Fail> {
    let mut sequence = sequence_of(alloc, text)?;
    text_after(alloc, &mut sequence, lender)
}

/// Texts whose items but the first are overwritten: by hand from the grammar in `docs/SUPPORTED.md`, what is not lent as it was.
const OVERWRITTEN: &[(Lender, &str, &str)] = &[
    (Lender::Array, "[\"a\" 1]", "[\"a\" +1]"),
    (
        Lender::Array,
        "[_ 1 , {} /c/ [2] ,] 3",
        "[_ 1 , +1 /c/ +1 ,] 3",
    ),
    (Lender::Array, "[ /c/ \"a\" , 1]", "[ /c/ \"a\" , +1]"),
    (Lender::Array, "[[1, 2]]", "[[1, 2]]"),
    (Lender::Array, "[ /c/ ]", "[ /c/ ]"),
    (Lender::Array, "[_ ]", "[_ ]"),
    (Lender::Sequence, "1 , <<2>> /c/ [3] ,", "1 , +1 /c/ +1 ,"),
    (Lender::Sequence, " [1, 2] ", " [1, 2] "),
    (Lender::Sequence, " /c/ ", " /c/ "),
];

#[test]
fn items_are_lent_in_turn(rt: HostRuntime) -> Result<(), Fail> {
    let alloc = rt.alloc();
    let mut failures = Failures::new(alloc);
    for &(lender, text, wanted) in OVERWRITTEN {
        failures.told(alloc, text, overwritten(alloc, text, lender), wanted)?;
    }
    failures.end()
}

/// Exchanges each key of a map and its value.
fn exchange(map: &mut Item<'_>) -> Result<(), TypeMismatch> {
    for (key, value) in map.get_map_items_mut()? {
        swap(key, value);
    }
    Ok(())
}

fn text_exchanged(alloc: Global, map: Option<&mut Item<'_>>) -> Result<String, Fail> {
    let Some(map) = map else {
        return Ok(String::new(alloc));
    };
    exchange(map)?;
    Ok(map.serialize(alloc)?)
}

fn exchanged(alloc: Global, text: &str) -> Result<String, Fail> {
    let mut sequence = sequence_of(alloc, text)?;
    text_exchanged(alloc, sequence.at_mut(&[0]))
}

/// Maps whose keys and values change places: by hand, with heads, spaces and separators as they were.
const EXCHANGED: &[(&str, &str)] = &[
    (
        "{_ 1: 2 , \"a\" :[3] /c/ {}:4,}",
        "{_ 2: 1 , [3] :\"a\" /c/ 4:{},}",
    ),
    ("{1 : 2}", "{2 : 1}"),
    ("{ /c/ 1: 2}", "{ /c/ 2: 1}"),
    ("{ /c/ }", "{ /c/ }"),
    ("{_ }", "{_ }"),
];

#[test]
fn pairs_are_lent_in_turn(rt: HostRuntime) -> Result<(), Fail> {
    let alloc = rt.alloc();
    let mut failures = Failures::new(alloc);
    for &(text, wanted) in EXCHANGED {
        failures.told(alloc, text, exchanged(alloc, text), wanted)?;
    }
    failures.end()
}

/// What an item is told where it lends no items as an array and as a map, and its text afterwards.
fn unlent_in(alloc: Global, item: Option<&mut Item<'_>>) -> Result<String, Fail> {
    let Some(item) = item else {
        return Ok(String::new(alloc));
    };
    let no_array = words(alloc, item.get_array_items_mut().err())?;
    let no_map = words(alloc, item.get_map_items_mut().err())?;
    let text = item.serialize(alloc)?;
    Ok(format!(in alloc; "{no_array};{no_map};{text}")?)
}

/// The message of a refusal, and the empty text of none.
fn words(alloc: Global, refused: Option<TypeMismatch>) -> Result<String, AllocError> {
    match refused {
        Some(refused) => refused.to_string(alloc),
        None => Ok(String::new(alloc)),
    }
}

fn unlent(alloc: Global, text: &str) -> Result<String, Fail> {
    let mut sequence = sequence_of(alloc, text)?;
    unlent_in(alloc, sequence.at_mut(&[0]))
}

/// Texts of each form of item, by the docstrings of `get_array_items_mut` and `get_map_items_mut`.
const UNLENT: &[(&str, &str)] = &[
    ("[1]", ";Expected map;[1]"),
    ("[ ]", ";Expected map;[ ]"),
    ("{1: 2}", "Expected array;;{1: 2}"),
    ("{ }", "Expected array;;{ }"),
    ("1_1", "Expected array;Expected map;1_1"),
    ("-Infinity", "Expected array;Expected map;-Infinity"),
    ("null", "Expected array;Expected map;null"),
    ("1([2])", "Expected array;Expected map;1([2])"),
    ("simple(1)", "Expected array;Expected map;simple(1)"),
    ("\"a\" + 'b'", "Expected array;Expected map;\"a\" + 'b'"),
    ("<<[1]>>", "Expected array;Expected map;<<[1]>>"),
    ("(_ <<1>>)", "Expected array;Expected map;(_ <<1>>)"),
];

#[test]
fn other_items_lend_none(rt: HostRuntime) -> Result<(), Fail> {
    let alloc = rt.alloc();
    let mut failures = Failures::new(alloc);
    for &(text, wanted) in UNLENT {
        failures.told(alloc, text, unlent(alloc, text), wanted)?;
    }
    failures.end()
}
