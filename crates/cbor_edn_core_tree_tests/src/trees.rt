//! Copies and comparisons of trees, and trees that are made of others.
use crate::common::{Made, make, sequence_of, standalone_of};
use cbor_edn_core::tree::{Item, Sequence, StandaloneItem};
use cbor_edn_expect::failures::Failures;
use cbor_edn_expect::{boxed, expect, expect_text, expect_told};
use cbor_edn_parts::base::buffer::TextBuffer;
use cbor_edn_parts::space::policy::DelimiterPolicy;
use std::alloc::Global;
use std::test::Fail;

fn is_copied(sequence: &Sequence<'_>, alloc: Global, text: &str) -> Result<bool, Fail> {
    let copy = boxed(alloc, sequence.clone())?;
    is_copy(sequence, &copy, alloc, text)
}

fn is_copy<'a>(
    sequence: &Sequence<'a>,
    copy: &Sequence<'a>,
    alloc: Global,
    text: &str,
) -> Result<bool, Fail> {
    let printed = copy.serialize(alloc)?;
    Ok(*copy == *sequence && copy.is_same(sequence) && printed.as_str() == text)
}

/// Whether a text's sequence equals its copy, which prints the text.
pub(crate) fn is_own_copy(alloc: Global, text: &str) -> Result<bool, Fail> {
    let sequence = sequence_of(alloc, text)?;
    is_copied(&sequence, alloc, text)
}

fn is_copy_alone<'a>(
    item: &StandaloneItem<'a>,
    copy: &StandaloneItem<'a>,
    alloc: Global,
    text: &str,
) -> Result<bool, Fail> {
    let printed = copy.serialize(alloc)?;
    Ok(*copy == *item && copy.is_same(item) && printed.as_str() == text)
}

fn is_copied_alone(item: &StandaloneItem<'_>, alloc: Global, text: &str) -> Result<bool, Fail> {
    let copy = boxed(alloc, item.clone())?;
    is_copy_alone(item, &copy, alloc, text)
}

/// Whether a text's standalone item equals its copy, which prints the text.
fn is_own_copy_alone(alloc: Global, text: &str) -> Result<bool, Fail> {
    let item = standalone_of(alloc, text)?;
    is_copied_alone(&item, alloc, text)
}

#[test]
fn copies_texts(rt: HostRuntime) -> Result<(), Fail> {
    let alloc = rt.alloc();
    let text = " [_ 1, /c/ 2_1 ,] {3 /e/ :4} # d\n";
    expect(text, is_own_copy(alloc, text)?)?;
    let text = " {_0 1 : /c/ [(_ 'a', <<2>>)] ,} ";
    expect(text, is_own_copy_alone(alloc, text)?)
}

fn prints_behind(sequence: &Sequence<'_>, alloc: Global) -> Result<TextBuffer, Fail> {
    let mut out = TextBuffer::new(alloc);
    out.push_str("0,")?;
    sequence.print(&mut out)?;
    out.push_str(";")?;
    sequence.print_laid_out(&mut out, DelimiterPolicy::DiscardAll)?;
    Ok(out)
}

#[test]
fn prints_behind_a_text(rt: HostRuntime) -> Result<(), Fail> {
    let alloc = rt.alloc();
    let sequence = sequence_of(alloc, "[ 1 , 'a' ] /c/ 2 ")?;
    let printed = prints_behind(&sequence, alloc)?.into_string();
    expect_text(alloc, printed.as_str(), "0,[ 1 , 'a' ] /c/ 2 ;[1,'a'],2")?;
    let decoded: Sequence<'_> = Sequence::from_cbor(alloc, b"\x82\x19\x01\0\x61a\x20")?;
    let printed = prints_behind(&decoded, alloc)?.into_bytes();
    let wanted = b"0,[256, \"a\"], -1;[256,\"a\"],-1".as_slice();
    expect("printed, decoded", printed.as_slice() == wanted)
}

/// An item of every form that is decoded.
const MIXED: &[u8] =
    b"\xbf\x01\x82\x5f\x41a\xff\x61b\x58\x00\x20\xc1\xf8\x63\x82\xf4\xf9\x7c\x00\xff";

const MIXED_TEXT: &str = "{_ 1: [(_ h'61'), \"b\"], h''_0: -1, 1(simple(99)): [false, Infinity_1]}";

fn is_copied_item(item: &Item<'_>, alloc: Global, text: &str) -> Result<bool, Fail> {
    let copy = boxed(alloc, item.clone())?;
    is_copy_of_item(item, &copy, alloc, text)
}

fn is_copy_of_item<'a>(
    item: &Item<'a>,
    copy: &Item<'a>,
    alloc: Global,
    text: &str,
) -> Result<bool, Fail> {
    let printed = copy.serialize(alloc)?;
    Ok(copy.is_same(item) && printed.as_str() == text)
}

/// Whether the item that bytes encode equals its copy, which prints the text.
fn is_own_copy_of_item(alloc: Global, bytes: &[u8], text: &str) -> Result<bool, Fail> {
    let item = make(alloc, Made::Decoded(bytes))?;
    is_copied_item(&item, alloc, text)
}

#[test]
fn copies_items(rt: HostRuntime) -> Result<(), Fail> {
    expect(
        MIXED_TEXT,
        is_own_copy_of_item(rt.alloc(), MIXED, MIXED_TEXT)?,
    )
}

fn is_decoded<'a>(item: &Item<'a>, alloc: Global, bytes: &[u8]) -> Result<bool, Fail> {
    let other: Box<Item<'a>> = make(alloc, Made::Decoded(bytes))?;
    Ok(*item == *other)
}

fn are_equal_items(alloc: Global, one: &[u8], other: &[u8]) -> Result<bool, Fail> {
    let one = make(alloc, Made::Decoded(one))?;
    is_decoded(&one, alloc, other)
}

/// Bytes of RFC 8949, section 3, and whether their items are equal: only where the bytes are the same.
const COMPARED: &[(&[u8], &[u8], bool)] = &[
    (MIXED, MIXED, true),
    (MIXED, b"\xa0", false),
    (b"\x41a", b"\x61a", false),
    (b"\x01", b"\x18\x01", false),
];

#[test]
fn compares_items(rt: HostRuntime) -> Result<(), Fail> {
    let alloc = rt.alloc();
    let mut failures = Failures::new(alloc);
    for &(one, other, are_equal) in COMPARED {
        see_compared(&mut failures, alloc, one, other, are_equal)?;
    }
    failures.end()
}

fn see_compared(
    failures: &mut Failures,
    alloc: Global,
    one: &[u8],
    other: &[u8],
    are_equal: bool,
) -> Result<(), Fail> {
    let row = format!(in alloc; "{one:?} and {other:?}")?;
    let is_wanted = are_equal_items(alloc, one, other)? == are_equal;
    Ok(failures.holds(alloc, row.as_str(), is_wanted)?)
}

fn printed_alone(alloc: Global, bytes: &[u8]) -> Result<String, Fail> {
    let item = StandaloneItem::from(Item::from_cbor(alloc, bytes)?);
    Ok(item.serialize(alloc)?)
}

#[test]
fn a_standalone_item_has_no_space_at_first(rt: HostRuntime) -> Result<(), Fail> {
    let alloc = rt.alloc();
    expect_told(alloc, printed_alone(alloc, b"\x82\x02\x03"), "[2, 3]")
}

fn shown(alloc: Global, text: &str) -> Result<String, Fail> {
    let tree = sequence_of(alloc, text)?;
    Ok(format!(in alloc; "{tree:?}")?)
}

/// What `{:?}` prints of a standalone item, and of the item in it.
fn shown_alone(alloc: Global, text: &str) -> Result<String, Fail> {
    let alone = standalone_of(alloc, text)?;
    let item = alone.item();
    Ok(format!(in alloc; "{alone:?} {item:?}")?)
}

/// Texts, and the outlines of their trees, as `docs/DECISIONS.md` says what `Debug` shows.
const OUTLINES: &[(&str, &str)] = &[
    (" ", ""),
    ("12_1", "12"),
    ("NaN_1, true", "NaN, true"),
    ("[1], {2: 3}, 1(2)", "[..], {..}, (..)"),
    ("h'00'_0, 'a' + 'b'", "h'00', .. + .."),
    ("<<1>>, ..., (_ 'a')", "<<..>>, ..., (_ ..)"),
];

#[test]
fn shows_numbers_words_literals_and_forms(rt: HostRuntime) -> Result<(), Fail> {
    let alloc = rt.alloc();
    let mut failures = Failures::new(alloc);
    for &(text, outline) in OUTLINES {
        failures.told(alloc, text, shown(alloc, text), outline)?;
    }
    failures.end()
}

#[test]
fn shows_standalone_items(rt: HostRuntime) -> Result<(), Fail> {
    let alloc = rt.alloc();
    expect_told(alloc, shown_alone(alloc, " 1_1 "), "1 1")?;
    expect_told(alloc, shown_alone(alloc, "[1] "), "[..] [..]")
}

/// A list keeps its items side by side, so that each byte of an item counts.
#[test]
fn items_are_small(_rt: HostRuntime) -> Result<(), Fail> {
    expect("bytes", std::mem::size_of::<Item<'static>>() <= 32)
}

fn is_parsed<'a>(sequence: &Sequence<'a>, alloc: Global, text: &'a str) -> Result<bool, Fail> {
    let other = sequence_of(alloc, text)?;
    Ok(*sequence == *other)
}

/// Whether the trees of two texts are equal.
fn are_equal<'a>(alloc: Global, one: &'a str, other: &'a str) -> Result<bool, Fail> {
    let one = sequence_of(alloc, one)?;
    is_parsed(&one, alloc, other)
}

/// Texts of the grammar in `docs/SUPPORTED.md`; all differ, and so do their trees.
const APART: &[&str] = &[
    "[1,2]",
    "[1 2]",
    "[ 1,2]",
    "[1,2 ]",
    " [1,2]",
    "[1,2] ",
    "[1,2,]",
    "[01,2]",
    "[1]",
    "[]",
    "1,2",
    "",
    "[_ 1,2]",
    "[_1 1,2]",
    "[_i 1,2]",
    "1_1,2",
    "1_2,2",
    "{1:2}",
    "{1: 2}",
    "{1 :2}",
    "{2:1}",
    "{_ 1:2}",
    "{}",
    "{ }",
    "{_}",
    "{_1}",
    "'a'",
    "\"a\"",
    "'a'_0",
    "'a'+'b'",
    "'a' +'b'",
    "'a'+ 'b'",
    "<<>>",
    "<< >>",
    "<<1>>",
    "<<1>>_1",
    "(_ 'a')",
    "(_  'a')",
    "(_ 'a','b')",
    "...",
    "....",
    "h'a'",
];

#[test]
fn spaces_tell_trees_apart(rt: HostRuntime) -> Result<(), Fail> {
    let alloc = rt.alloc();
    let mut failures = Failures::new(alloc);
    for (i, &one) in APART.iter().enumerate() {
        for (j, &other) in APART.iter().enumerate() {
            see_apart(&mut failures, alloc, one, other, i == j)?;
        }
    }
    failures.end()
}

fn see_apart(
    failures: &mut Failures,
    alloc: Global,
    one: &str,
    other: &str,
    is_same: bool,
) -> Result<(), Fail> {
    let row = format!(in alloc; "{one:?} and {other:?}")?;
    let is_wanted = are_equal(alloc, one, other)? == is_same;
    Ok(failures.holds(alloc, row.as_str(), is_wanted)?)
}
