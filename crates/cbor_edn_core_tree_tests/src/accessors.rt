//! Parts of items.
use crate::common::{Made, make, standalone_of, tag_of};
use cbor_edn_core::access::TypeMismatch;
use cbor_edn_core::tree::Item;
use cbor_edn_expect::failures::Failures;
use cbor_edn_expect::{expect, expect_text, expect_told};
use cbor_edn_parts::base::error::Fault;
use std::alloc::Global;
use std::test::Fail;

fn integer(alloc: Global, made: Made<'_>) -> Result<Result<i128, TypeMismatch>, Fail> {
    let item = make(alloc, made)?;
    Ok(item.get_integer())
}

/// Items, and their integers or the refusal, by the docstring of `get_integer`.
const INTEGERS: &[(Made<'static>, Result<i128, TypeMismatch>)] = &[
    (Made::Decimal(i128::MIN), Ok(i128::MIN)),
    (Made::Hex(255), Ok(255)),
    (Made::Decoded(b"\x18\x0a"), Ok(10)),
    (Made::Text("1"), Err(TypeMismatch::Integer)),
];

#[test]
fn integers_are_answered(rt: HostRuntime) -> Result<(), Fail> {
    let alloc = rt.alloc();
    let mut failures = Failures::new(alloc);
    for &(made, wanted) in INTEGERS {
        see_integer(&mut failures, alloc, made, wanted)?;
    }
    failures.end()
}

fn see_integer(
    failures: &mut Failures,
    alloc: Global,
    made: Made<'_>,
    wanted: Result<i128, TypeMismatch>,
) -> Result<(), Fail> {
    let row = format!(in alloc; "{wanted:?}")?;
    let is_wanted = integer(alloc, made)? == wanted;
    Ok(failures.holds(alloc, row.as_str(), is_wanted)?)
}

/// The number of a tag, and the text of what stands between its parentheses.
fn number_and_content(item: &Item<'_>, alloc: Global) -> Result<(u64, String), Fail> {
    let number = item.get_tag()?;
    let content = item.get_tagged()?.serialize(alloc)?;
    Ok((number, content))
}

fn tag_and_content(alloc: Global, number: u64, text: &str) -> Result<(u64, String), Fail> {
    let item = tag_of(alloc, number, text)?;
    number_and_content(&item, alloc)
}

fn tag(alloc: Global, made: Made<'_>) -> Result<Result<u64, TypeMismatch>, Fail> {
    let item = make(alloc, made)?;
    Ok(item.get_tag())
}

#[test]
fn tags_are_answered(rt: HostRuntime) -> Result<(), Fail> {
    let alloc = rt.alloc();
    let (number, content) = tag_and_content(alloc, 1, " 2 ")?;
    expect("number of the tag", number == 1)?;
    expect_text(alloc, content.as_str(), " 2 ")?;
    let no_tag = tag(alloc, Made::Decimal(7))?;
    expect("no tag", no_tag == Err(TypeMismatch::TaggedItem))
}

/// What an item is: the keyword of a named simple value, a number, a tag's head, a string of plain pieces, or nothing of these.
fn told_of(item: &Item<'_>, alloc: Global) -> Result<String, Fail> {
    if let Some(named) = item.get_named() {
        return Ok(String::from_str(alloc, named.as_str())?);
    }
    if let Some((number, indicator)) = item.get_number() {
        return Ok(format!(in alloc; "number {number} {indicator:?}")?);
    }
    if let Some((tag, indicator)) = item.get_tag_head() {
        return Ok(format!(in alloc; "tag {tag} {indicator:?}")?);
    }
    let is_plain = item.is_plain_string();
    Ok(format!(in alloc; "plain string: {is_plain}")?)
}

fn told(alloc: Global, text: &str) -> Result<String, Fail> {
    let item = standalone_of(alloc, text)?;
    told_of(item.item(), alloc)
}

/// Texts, and what their items are by the docstrings of `get_named`, `get_number`, `get_tag_head` and `is_plain_string`.
const TOLD: &[(&str, &str)] = &[
    ("false", "false"),
    (" true ", "true"),
    ("null", "null"),
    ("undefined", "undefined"),
    ("0x1f_1", "number 0x1f Some(Two)"),
    ("-1.50", "number -1.50 None"),
    ("7_0( 1 )", "tag 7 Some(One)"),
    ("18446744073709551615(1)", "tag 18446744073709551615 None"),
    ("h'01' + 'a'", "plain string: true"),
    ("\"a\"", "plain string: true"),
    ("h'01'_0", "plain string: false"),
    ("<<1>>", "plain string: false"),
    ("...", "plain string: false"),
    ("(_ 'a')", "plain string: false"),
    ("simple(21)", "plain string: false"),
    ("NaN", "plain string: false"),
    ("[1]", "plain string: false"),
];

#[test]
fn forms_are_answered(rt: HostRuntime) -> Result<(), Fail> {
    let alloc = rt.alloc();
    let mut failures = Failures::new(alloc);
    for &(text, wanted) in TOLD {
        failures.told(alloc, text, told(alloc, text), wanted)?;
    }
    failures.end()
}

/// Appends the text of an item and a semicolon.
fn push_text(texts: &mut String, item: &Item<'_>, alloc: Global) -> Result<(), Fail> {
    let text = item.serialize(alloc)?;
    texts.push_str(text.as_str())?;
    texts.push(';')?;
    Ok(())
}

fn array_items(alloc: Global, made: Made<'_>) -> Result<String, Fail> {
    let array = make(alloc, made)?;
    let mut texts = String::new(alloc);
    for item in array.get_array_items()? {
        push_text(&mut texts, item, alloc)?;
    }
    Ok(texts)
}

#[test]
fn items_of_arrays_are_answered(rt: HostRuntime) -> Result<(), Fail> {
    let alloc = rt.alloc();
    expect_told(alloc, array_items(alloc, Made::Array(&[1, 2])), "1;2;")?;
    expect_told(alloc, array_items(alloc, Made::Array(&[])), "")
}

fn map_items(alloc: Global, made: Made<'_>) -> Result<String, Fail> {
    let map = make(alloc, made)?;
    let mut texts = String::new(alloc);
    for (key, value) in map.get_map_items()? {
        push_text(&mut texts, key, alloc)?;
        push_text(&mut texts, value, alloc)?;
    }
    Ok(texts)
}

#[test]
fn items_of_maps_are_answered(rt: HostRuntime) -> Result<(), Fail> {
    let alloc = rt.alloc();
    let told = map_items(alloc, Made::Map(&[(1, 2), (3, 4)]));
    expect_told(alloc, told, "1;2;3;4;")?;
    expect_told(alloc, map_items(alloc, Made::Map(&[])), "")
}

fn bytes_of(alloc: Global, made: Made<'_>) -> Result<Option<Vec<u8>>, Fail> {
    let item = make(alloc, made)?;
    match item.get_bytes(alloc) {
        Ok(bytes) => Ok(Some(bytes)),
        Err(Fault::Told(TypeMismatch::Bytes)) => Ok(None),
        Err(refused) => Err(Fail::from(refused)),
    }
}

/// Items, and the bytes that they have by the docstring of `get_bytes`; those of `b64` by RFC 4648.
const BYTES: &[(&str, Made<'static>, &[u8])] = &[
    ("a byte string", Made::Decoded(b"\x43abc"), b"abc"),
    ("two chunks", Made::Decoded(b"\x5f\x41a\x42bc\xff"), b"abc"),
    ("a literal", Made::Literal("b64", "Yg=="), b"b"),
];

#[test]
fn bytes_are_answered(rt: HostRuntime) -> Result<(), Fail> {
    let alloc = rt.alloc();
    let mut failures = Failures::new(alloc);
    for &(name, made, wanted) in BYTES {
        failures.held(alloc, name, has_bytes(alloc, made, wanted))?;
    }
    failures.end()
}

fn has_bytes(alloc: Global, made: Made<'_>, wanted: &[u8]) -> Result<bool, Fail> {
    match bytes_of(alloc, made)? {
        Some(bytes) => Ok(bytes.as_slice() == wanted),
        None => Ok(false),
    }
}

/// Items that have no bytes by the same docstring.
const NO_BYTES: &[(&str, Made<'static>)] = &[
    ("a text", Made::Decoded(b"\x61a")),
    (
        "a string of indefinite length of texts",
        Made::Decoded(b"\x7f\x61a\xff"),
    ),
    ("an array of a byte string", Made::Decoded(b"\x81\x41a")),
    (
        "a literal that stands for no bytes",
        Made::Literal("h", "0"),
    ),
    (
        "a literal of a prefix that has no meaning here",
        Made::Literal("dt", "2024"),
    ),
];

#[test]
fn other_items_have_no_bytes(rt: HostRuntime) -> Result<(), Fail> {
    let alloc = rt.alloc();
    let mut failures = Failures::new(alloc);
    for &(name, made) in NO_BYTES {
        failures.held(alloc, name, has_no_bytes(alloc, made))?;
    }
    failures.end()
}

fn has_no_bytes(alloc: Global, made: Made<'_>) -> Result<bool, Fail> {
    Ok(bytes_of(alloc, made)?.is_none())
}

fn parts_of(alloc: Global, made: Made<'_>) -> Result<String, Fail> {
    let item = make(alloc, made)?;
    match item.get_application_literal(alloc) {
        Ok((prefix, text)) => Ok(format!(in alloc; "{prefix} {text}")?),
        Err(Fault::Told(mismatch)) => Ok(format!(in alloc; "{mismatch}")?),
        Err(Fault::Memory(refused)) => Err(Fail::from(refused)),
    }
}

/// Items, and their prefix and content, or the message of the refusal, by the docstring of `get_application_literal`.
const PARTS: &[(&str, Made<'static>, &str)] = &[
    ("b64", Made::Literal("b64", "a'b"), "b64 a'b"),
    (
        "DT1",
        Made::Literal("DT1", "\u{e4}\"\\\n"),
        "DT1 \u{e4}\"\\\n",
    ),
    ("h", Made::Literal("h", ""), "h "),
    ("a byte string", Made::Decoded(b"\x41\0"), "h 00"),
    (
        "a text",
        Made::Decoded(b"\x61x"),
        "Expected application-oriented literal",
    ),
    (
        "an array",
        Made::Decoded(b"\x80"),
        "Expected application-oriented literal",
    ),
];

#[test]
fn application_literals_are_answered(rt: HostRuntime) -> Result<(), Fail> {
    let alloc = rt.alloc();
    let mut failures = Failures::new(alloc);
    for &(name, made, wanted) in PARTS {
        failures.told(alloc, name, parts_of(alloc, made), wanted)?;
    }
    failures.end()
}

/// What an item is told to be no array, and no map, with.
fn mismatches(
    alloc: Global,
    made: Made<'_>,
) -> Result<(Option<TypeMismatch>, Option<TypeMismatch>), Fail> {
    let item = make(alloc, made)?;
    let no_array = item.get_array_items().err();
    let no_map = item.get_map_items().err();
    Ok((no_array, no_map))
}

#[test]
fn numbers_have_no_items(rt: HostRuntime) -> Result<(), Fail> {
    let (no_array, no_map) = mismatches(rt.alloc(), Made::Decimal(1))?;
    expect("no array", no_array == Some(TypeMismatch::Array))?;
    expect("no map", no_map == Some(TypeMismatch::Map))
}

/// Refusals, and the messages for them, which are this project's choice.
const WORDS: &[(TypeMismatch, &str)] = &[
    (
        TypeMismatch::ApplicationLiteral,
        "Expected application-oriented literal",
    ),
    (
        TypeMismatch::SingleApplicationLiteral,
        "Expected single application-oriented literal",
    ),
    (TypeMismatch::Bytes, "Expected byte literal"),
    (TypeMismatch::TaggedItem, "Expected tagged item"),
    (TypeMismatch::Integer, "Expected integer"),
    (
        TypeMismatch::IntegerInRange,
        "Expected integer in i128 range",
    ),
    (TypeMismatch::Array, "Expected array"),
    (TypeMismatch::Map, "Expected map"),
];

#[test]
fn mismatches_have_words(rt: HostRuntime) -> Result<(), Fail> {
    let alloc = rt.alloc();
    let mut failures = Failures::new(alloc);
    for &(mismatch, wanted) in WORDS {
        let words = format!(in alloc; "{mismatch}")?;
        failures.row(alloc, wanted, words.as_str(), wanted)?;
    }
    failures.end()
}
