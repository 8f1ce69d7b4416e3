//! The callers of `cbor_edn_examples`, each where it answers and where it does not.
use cbor_edn::engine::StdSink;
use cbor_edn::{Fault, Item, Sequence, StandaloneItem, TypeMismatch};
use cbor_edn_examples::devices::ended;
use cbor_edn_examples::made::{gathered, in_sequence, tabled};
use cbor_edn_examples::visits::{
    in_seconds, opened, with_integers, with_times, with_times_tagged, without_times,
};
use cbor_edn_examples::{
    encoded_again, inspected, prettified_and_resolved, replaced, retagged, shipped, shown,
};
use cbor_edn_expect::{boxed, expect, expect_row, name_of};
use std::alloc::Global;
use std::test::Fail;

const TEXT: &str = "[1, 0x1f, 'a' + b64'Yg'] # a comment\n";

const BYTES: &[u8] = b"\x83\x01\x18\x1f\x42ab";

fn ships(alloc: Global, text: &str, wanted: &[u8]) -> Result<bool, Fail> {
    let bytes = shipped(alloc, text)?;
    Ok(bytes.as_slice() == wanted)
}

fn shows(alloc: Global, bytes: &[u8], wanted: &str) -> Result<bool, Fail> {
    let text = shown(alloc, bytes)?;
    Ok(text.as_str() == wanted)
}

/// A time, an address and a bignum by RFC 8949, section 3.4, and RFC 9164.
const TAGS: &str = "[1(42), 52(h'c0000201'), 2(h'010000000000000000')]";

const TAGS_BYTES: &[u8] =
    b"\x83\xc1\x18\x2a\xd8\x34\x44\xc0\x00\x02\x01\xc2\x49\x01\x00\x00\x00\x00\x00\x00\x00\x00";

fn encodes_again(alloc: Global, text: &str, wanted: &[u8]) -> Result<bool, Fail> {
    let mut item = boxed(alloc, StandaloneItem::parse(alloc, text))?;
    let bytes = encoded_again(alloc, &mut item)?;
    Ok(bytes.as_slice() == wanted)
}

#[test]
fn callers_answer(rt: HostRuntime) -> Result<(), Fail> {
    let alloc = rt.alloc();
    expect("bytes", ships(alloc, TEXT, BYTES)?)?;
    expect("a text", shows(alloc, BYTES, "[1, 31, h'6162']\n")?)?;
    expect("the same bytes", encodes_again(alloc, TAGS, TAGS_BYTES)?)
}

#[test]
fn callers_refuse(rt: HostRuntime) -> Result<(), Fail> {
    let alloc = rt.alloc();
    expect("no text", shipped(alloc, "[1").is_err())?;
    expect("no encoding", shipped(alloc, "1.5").is_err())?;
    expect("no item", shown(alloc, b"\x82\x01").is_err())
}

/// The callers that change a sequence.
#[derive(Clone, Copy)]
enum OfSequence {
    WithTimes,
    WithIntegers,
    WithoutTimes,
    Opened,
    PrettifiedAndResolved,
    Replaced,
}

fn changed_sequence(alloc: Global, caller: OfSequence, text: &str) -> Result<String, Fail> {
    let mut sequence = boxed(alloc, Sequence::parse(alloc, text))?;
    match caller {
        OfSequence::WithTimes => with_times(alloc, &mut sequence)?,
        OfSequence::WithIntegers => with_integers(alloc, &mut sequence)?,
        OfSequence::WithoutTimes => without_times(alloc, &mut sequence)?,
        OfSequence::Opened => opened(alloc, 512, &mut sequence)?,
        OfSequence::PrettifiedAndResolved => prettified_and_resolved(alloc, &mut sequence)?,
        OfSequence::Replaced => replace_second(alloc, &mut sequence)?,
    }
    Ok(sequence.serialize(alloc)?)
}

fn replace_second(alloc: Global, sequence: &mut Sequence<'_>) -> Result<(), Fail> {
    let item = Item::new_integer_decimal(alloc, 7)?;
    expect("a place", replaced(sequence, &[0, 1], item).is_some())
}

/// The callers that change an item.
#[derive(Clone, Copy)]
enum OfItem {
    InSeconds,
    WithTimesTagged,
    Retagged,
}

/// The text of the changed item, or the name of the refusal.
fn changed_item(alloc: Global, caller: OfItem, text: &str) -> Result<String, Fail> {
    let mut alone = boxed(alloc, StandaloneItem::parse(alloc, text))?;
    if let Some(item) = alone.at_mut(&[]) {
        if let Err(fault) = change_item(alloc, caller, item) {
            return name_of(alloc, fault);
        }
    }
    Ok(alone.serialize(alloc)?)
}

fn change_item(
    alloc: Global,
    caller: OfItem,
    item: &mut Item<'_>,
) -> Result<(), Fault<TypeMismatch>> {
    match caller {
        OfItem::InSeconds => in_seconds(alloc, item),
        OfItem::WithTimesTagged => with_times_tagged(alloc, item),
        OfItem::Retagged => {
            let content = StandaloneItem::from(Item::new_integer_decimal(alloc, 7)?);
            retagged(item, content).map_err(Fault::Told)
        }
    }
}

/// By hand, from the docstrings of the calls: 1700000000 is 2023-11-14 at 22:13:20, and 81 01 the encoding of `[1]`.
const SEQUENCES: &[(OfSequence, &str, &str)] = &[
    (
        OfSequence::WithTimes,
        "[1(1700000000)]",
        "[DT'2023-11-14T22:13:20+00:00']",
    ),
    (
        OfSequence::WithIntegers,
        "[2(h'010000000000000000')]",
        "[18446744073709551616]",
    ),
    (
        OfSequence::WithoutTimes,
        "dt'2023-11-14T22:13:20Z'",
        "1700000000",
    ),
    (OfSequence::Opened, "h'8101', 2", "<<[1]>>, 2"),
    (
        OfSequence::PrettifiedAndResolved,
        "1(1700000000)",
        "1(1700000000)",
    ),
    (OfSequence::Replaced, "[1, 2]", "[1, 7]"),
];

const ITEMS: &[(OfItem, &str, &str)] = &[
    (OfItem::InSeconds, "[1, 2]", "[1/ seconds /, 2/ seconds /]"),
    (
        OfItem::WithTimesTagged,
        "{'at': 5, 'to': 6}",
        "{'at': 1(5), 'to': 1(6)}",
    ),
    (OfItem::Retagged, "1( 2 )", "1(7)"),
    (OfItem::InSeconds, "{}", "Array"),
    (OfItem::WithTimesTagged, "[]", "Map"),
    (OfItem::Retagged, "1", "TaggedItem"),
];

#[test]
fn callers_change_sequences(rt: HostRuntime) -> Result<(), Fail> {
    let alloc = rt.alloc();
    for &(caller, text, wanted) in SEQUENCES {
        let told = changed_sequence(alloc, caller, text)?;
        expect_row(alloc, text, told.as_str(), wanted)?;
    }
    Ok(())
}

#[test]
fn callers_change_items(rt: HostRuntime) -> Result<(), Fail> {
    let alloc = rt.alloc();
    for &(caller, text, wanted) in ITEMS {
        let told = changed_item(alloc, caller, text)?;
        expect_row(alloc, text, told.as_str(), wanted)?;
    }
    Ok(())
}

fn one_and_two<'a>(alloc: Global) -> Result<Vec<Item<'a>>, Fail> {
    let mut items: Vec<Item<'a>> = Vec::new(alloc);
    items.push(Item::new_integer_decimal(alloc, 1)?)?;
    items.push(Item::new_integer_decimal(alloc, 2)?)?;
    Ok(items)
}

fn one_to_two<'a>(alloc: Global) -> Result<Vec<(Item<'a>, Item<'a>)>, Fail> {
    let mut entries: Vec<(Item<'a>, Item<'a>)> = Vec::new(alloc);
    let key = Item::new_integer_decimal(alloc, 1)?;
    entries.push((key, Item::new_integer_decimal(alloc, 2)?))?;
    Ok(entries)
}

#[test]
fn callers_make(rt: HostRuntime) -> Result<(), Fail> {
    let alloc = rt.alloc();
    let array = boxed(alloc, gathered(alloc, one_and_two(alloc)?))?;
    expect_row(alloc, "an array", array.serialize(alloc)?.as_str(), "[1,2]")?;
    let map = boxed(alloc, tabled(alloc, one_to_two(alloc)?))?;
    expect_row(alloc, "a map", map.serialize(alloc)?.as_str(), "{1:2}")?;
    let sequence = boxed(alloc, in_sequence(alloc, one_and_two(alloc)?))?;
    expect_row(
        alloc,
        "a sequence",
        sequence.serialize(alloc)?.as_str(),
        "1,2",
    )
}

/// A claims set with an expiry, by RFC 8392.
#[test]
fn callers_inspect(rt: HostRuntime) -> Result<(), Fail> {
    let alloc = rt.alloc();
    let text = inspected(alloc, b"\xa1\x04\x1a\x65\x53\xf1\x00")?;
    expect_row(
        alloc,
        "a claims set",
        text.as_str(),
        "{4/ exp /: dt'2023-11-14T22:13:20+00:00'}",
    )
}

#[test]
fn callers_give_bytes(rt: HostRuntime) -> Result<(), Fail> {
    let mut sink = StdSink::new(Vec::new(rt.alloc()));
    let taken = ended(&mut sink, b'\n')?;
    let bytes = sink.into_inner();
    expect(
        "one byte",
        taken == 1 && bytes.as_slice() == b"\n".as_slice(),
    )
}
