//! Items where paths lead, and what they answer of a text's items.
use crate::common::{sequence_of, standalone_of};
use cbor_edn_core::access::TypeMismatch;
use cbor_edn_core::tree::{Item, Sequence};
use cbor_edn_expect::failures::Failures;
use cbor_edn_parts::base::error::Fault;
use std::alloc::Global;
use std::test::Fail;

/// The text of an item, and the empty text of none.
fn text_of(alloc: Global, found: Option<&mut Item<'_>>) -> Result<String, Fail> {
    match found {
        Some(item) => Ok(item.serialize(alloc)?),
        None => Ok(String::new(alloc)),
    }
}

fn text_at(alloc: Global, text: &str, path: &[usize]) -> Result<String, Fail> {
    let mut sequence = sequence_of(alloc, text)?;
    text_of(alloc, sequence.at_mut(path))
}

fn text_in_item(alloc: Global, text: &str, path: &[usize]) -> Result<String, Fail> {
    let mut item = standalone_of(alloc, text)?;
    text_of(alloc, item.at_mut(path))
}

/// Texts, paths, and the texts of the items where they lead, or the empty text of none, by the docstring of `at_mut`.
const REACHED: &[(&str, &[usize], &str)] = &[
    ("1, [2]", &[1, 0], "2"),
    ("1, [2]", &[], ""),
    ("1, [2]", &[1], "[2]"),
    ("1, [2]", &[2], ""),
    ("{1: 2, 3: [4 /c/]}", &[0, 0], "1"),
    ("{1: 2, 3: [4 /c/]}", &[0, 1], "2"),
    ("{1: 2, 3: [4 /c/]}", &[0, 2], "3"),
    ("{1: 2, 3: [4 /c/]}", &[0, 3], "[4 /c/]"),
    ("{1: 2, 3: [4 /c/]}", &[0, 3, 0], "4"),
    ("{1: 2, 3: [4 /c/]}", &[0, 4], ""),
    ("1( 2 )", &[0, 0], "2"),
    ("1( 2 )", &[0, 1], ""),
    ("simple(32)", &[0, 0], ""),
    ("[<<1, 2>> + 'x' + <<3>>]", &[0, 0, 0], "1"),
    ("[<<1, 2>> + 'x' + <<3>>]", &[0, 0, 2], "3"),
    ("[<<1, 2>> + 'x' + <<3>>]", &[0, 0, 3], ""),
    ("(_ <<1>>, 'x' + <<2, [3]>>)", &[0, 1], "2"),
    ("(_ <<1>>, 'x' + <<2, [3]>>)", &[0, 2, 0], "3"),
    ("(_ <<1>>, 'x' + <<2, [3]>>)", &[0, 3], ""),
];

#[test]
fn paths_lead_to_items(rt: HostRuntime) -> Result<(), Fail> {
    let alloc = rt.alloc();
    let mut failures = Failures::new(alloc);
    for &(text, path, wanted) in REACHED {
        let row = format!(in alloc; "{path:?} of {text}")?;
        failures.told(alloc, row.as_str(), text_at(alloc, text, path), wanted)?;
    }
    failures.end()
}

/// Paths from one standalone item, by the same docstring.
const REACHED_IN_ITEM: &[(&[usize], &str)] = &[(&[], "[0, {1: 2}]"), (&[1, 1], "2"), (&[1, 2], "")];

#[test]
fn paths_lead_from_an_item(rt: HostRuntime) -> Result<(), Fail> {
    let alloc = rt.alloc();
    let mut failures = Failures::new(alloc);
    for &(path, wanted) in REACHED_IN_ITEM {
        let row = format!(in alloc; "{path:?}")?;
        let told = text_in_item(alloc, " [0, {1: 2}] ", path);
        failures.told(alloc, row.as_str(), told, wanted)?;
    }
    failures.end()
}

/// Puts a copy of an item where a path leads.
fn put<'a>(
    sequence: &mut Sequence<'a>,
    path: &[usize],
    new: Option<&mut Item<'a>>,
) -> Result<(), Fail> {
    let new = new.ok_or("no item to put")?;
    if let Some(place) = sequence.at_mut(path) {
        *place = new.clone()?;
    }
    Ok(())
}

/// Puts the first item of a text where a path leads.
fn put_text<'a>(
    alloc: Global,
    sequence: &mut Sequence<'a>,
    path: &[usize],
    new: &'a str,
) -> Result<(), Fail> {
    let mut new = sequence_of(alloc, new)?;
    put(sequence, path, new.at_mut(&[0]))
}

/// The text of a sequence with the first item of another text where a path leads.
fn text_with<'a>(
    alloc: Global,
    sequence: &mut Sequence<'a>,
    path: &[usize],
    new: &'a str,
) -> Result<String, Fail> {
    put_text(alloc, sequence, path, new)?;
    Ok(sequence.serialize(alloc)?)
}

fn replaced(alloc: Global, text: &str, path: &[usize], new: &str) -> Result<String, Fail> {
    let mut sequence = sequence_of(alloc, text)?;
    text_with(alloc, &mut sequence, path, new)
}

/// Texts, paths, the texts of items that are put there, and the texts then: by hand, with all else as it was.
const REPLACED: &[(&str, &[usize], &str, &str)] = &[
    ("[\"a\" 1]", &[0, 1], "+1", "[\"a\" +1]"),
    ("[1 2]", &[0, 1], "(_ 'x')", "[1 (_ 'x')]"),
    ("[... 1]", &[0, 1], ".5", "[... .5]"),
    ("[1 2]", &[0, 2], "9", "[1 2]"),
    ("{1: 2 , 3 :4}", &[0, 2], "[]", "{1: 2 , [] :4}"),
    ("1( 2 )", &[0, 0], "{}", "1( {} )"),
    (
        "[<<1, 2>> + 'x' + <<3>>]",
        &[0, 0, 2],
        "9",
        "[<<1, 2>> + 'x' + <<9>>]",
    ),
    (
        "(_ <<1>> , 'x' + <<2 3>>)",
        &[0, 2],
        "9",
        "(_ <<1>> , 'x' + <<2 9>>)",
    ),
];

#[test]
fn items_are_replaced(rt: HostRuntime) -> Result<(), Fail> {
    let alloc = rt.alloc();
    let mut failures = Failures::new(alloc);
    for &(text, path, new, wanted) in REPLACED {
        let row = format!(in alloc; "{new} at {path:?} of {text}")?;
        let told = replaced(alloc, text, path, new);
        failures.told(alloc, row.as_str(), told, wanted)?;
    }
    failures.end()
}

/// The integer of an item, and none of no item.
fn integer_in(found: Option<&mut Item<'_>>) -> Result<i128, TypeMismatch> {
    match found {
        Some(item) => item.get_integer(),
        None => Err(TypeMismatch::Integer),
    }
}

fn integer_of(alloc: Global, text: &str) -> Result<Result<i128, TypeMismatch>, Fail> {
    let mut sequence = sequence_of(alloc, text)?;
    Ok(integer_in(sequence.at_mut(&[0])))
}

/// Numbers, and the integers of these, by the docstring of `get_integer`.
const INTEGERS: &[(&str, Result<i128, TypeMismatch>)] = &[
    ("-0x80000000000000000000000000000000", Ok(i128::MIN)),
    (
        "0x80000000000000000000000000000000",
        Err(TypeMismatch::IntegerInRange),
    ),
    ("+0b11_1", Ok(3)),
    ("1.0", Err(TypeMismatch::Integer)),
];

#[test]
fn integers_of_texts_are_answered(rt: HostRuntime) -> Result<(), Fail> {
    let alloc = rt.alloc();
    let mut failures = Failures::new(alloc);
    for &(text, wanted) in INTEGERS {
        let is_wanted = integer_of(alloc, text)? == wanted;
        failures.holds(alloc, text, is_wanted)?;
    }
    failures.end()
}

/// The bytes of an item, and none of no item.
fn bytes_in(alloc: Global, found: Option<&mut Item<'_>>) -> Result<Vec<u8>, Fail> {
    match found {
        Some(item) => Ok(item.get_bytes(alloc)?),
        None => Ok(Vec::new(alloc)),
    }
}

fn bytes_of(alloc: Global, text: &str) -> Result<Vec<u8>, Fail> {
    let mut sequence = sequence_of(alloc, text)?;
    bytes_in(alloc, sequence.at_mut(&[0]))
}

/// Strings, and the bytes of these, by the docstring of `get_bytes`.
const BYTES: &[(&str, &[u8])] = &[
    ("(_ 'a', h'62' + 'c')", b"abc"),
    ("<<1, 2>>_1 + 'x'", b"\x01\x02x"),
];

#[test]
fn bytes_of_texts_are_answered(rt: HostRuntime) -> Result<(), Fail> {
    let alloc = rt.alloc();
    let mut failures = Failures::new(alloc);
    for &(text, wanted) in BYTES {
        let is_wanted = bytes_of(alloc, text)?.as_slice() == wanted;
        failures.holds(alloc, text, is_wanted)?;
    }
    failures.end()
}

/// The prefix and the text of an item with an equals sign between them, or the message of its refusal.
fn literal_in(alloc: Global, found: Option<&mut Item<'_>>) -> Result<String, Fail> {
    let Some(item) = found else {
        return Ok(String::new(alloc));
    };
    match item.get_application_literal(alloc) {
        Ok((prefix, value)) => Ok(format!(in alloc; "{prefix}={value}")?),
        Err(Fault::Told(refused)) => Ok(refused.to_string(alloc)?),
        Err(Fault::Memory(refused)) => Err(refused.into()),
    }
}

fn literal_of(alloc: Global, text: &str) -> Result<String, Fail> {
    let mut sequence = sequence_of(alloc, text)?;
    literal_in(alloc, sequence.at_mut(&[0]))
}

/// Strings, and the prefix and the text of these, or the message of the refusal, by the docstring of `get_application_literal`.
const LITERALS: &[(&str, &str)] = &[
    ("ip'x'_0", "ip=x"),
    ("h'00'", "h=00"),
    ("b64'a\\'b'", "b64=a'b"),
    ("'x'", "Expected application-oriented literal"),
    (
        "h'00' + h'01'",
        "Expected single application-oriented literal",
    ),
    (
        "'a' + ip'x'",
        "Expected single application-oriented literal",
    ),
    (
        "ip'x' + 'a'",
        "Expected single application-oriented literal",
    ),
    ("(_ ip'x')", "Expected application-oriented literal"),
];

#[test]
fn literals_of_texts_are_answered(rt: HostRuntime) -> Result<(), Fail> {
    let alloc = rt.alloc();
    let mut failures = Failures::new(alloc);
    for &(text, wanted) in LITERALS {
        failures.told(alloc, text, literal_of(alloc, text), wanted)?;
    }
    failures.end()
}
