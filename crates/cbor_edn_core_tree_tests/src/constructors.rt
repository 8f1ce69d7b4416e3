//! Items and sequences that are made from values.
use crate::common::{Made, all_written, list, make, tag_of};
use cbor_edn_core::tree::{Item, Sequence};
use cbor_edn_expect::failures::Failures;
use cbor_edn_expect::{boxed, expect_told};
use cbor_edn_parts::base::error::{Fault, InconsistentEdn};
use std::alloc::Global;
use std::test::Fail;

/// By the docstrings of `new_integer_decimal` and `new_integer_hex`.
#[test]
fn numbers_are_written(rt: HostRuntime) -> Result<(), Fail> {
    all_written(
        rt.alloc(),
        &[
            (Made::Decimal(-5), "-5"),
            (Made::Decimal(0), "0"),
            (
                Made::Decimal(i128::MAX),
                "170141183460469231731687303715884105727",
            ),
            (
                Made::Decimal(i128::MIN),
                "-170141183460469231731687303715884105728",
            ),
            (Made::Hex(0), "0x0"),
            (Made::Hex(255), "0xff"),
            (Made::Hex(u64::MAX), "0xffffffffffffffff"),
        ],
    )
}

/// By the docstrings of `new_bytes_hex` and `new_text`.
#[test]
fn strings_are_written(rt: HostRuntime) -> Result<(), Fail> {
    all_written(
        rt.alloc(),
        &[
            (Made::Bytes(b"\x00\xff"), "h'00ff'"),
            (
                Made::Text("Hello \"World\"\0"),
                "\"Hello \\\"World\\\"\\u{0}\"",
            ),
            (Made::Text("it's"), "\"it\\u{27}s\""),
        ],
    )
}

/// By the docstring of `new_array`.
#[test]
fn arrays_are_written(rt: HostRuntime) -> Result<(), Fail> {
    all_written(
        rt.alloc(),
        &[(Made::Array(&[1, 2]), "[1,2]"), (Made::Array(&[]), "[]")],
    )
}

/// By the docstring of `new_map`.
#[test]
fn maps_are_written(rt: HostRuntime) -> Result<(), Fail> {
    all_written(
        rt.alloc(),
        &[
            (Made::Map(&[(1, 2), (3, 4)]), "{1:2,3:4}"),
            (Made::Map(&[]), "{}"),
        ],
    )
}

fn literal(alloc: Global, prefix: &str, text: &str) -> Result<String, Fail> {
    match Item::new_application_literal(alloc, prefix, text) {
        Ok(item) => Ok(item.serialize(alloc)?),
        Err(Fault::Told(InconsistentEdn::InvalidIdentifier)) => {
            Ok(String::from_str(alloc, "no prefix")?)
        }
        Err(Fault::Told(_)) => Ok(String::from_str(alloc, "another refusal")?),
        Err(Fault::Memory(refused)) => Err(Fail::from(refused)),
    }
}

/// Prefixes, contents, and the literals of them: the prefixes by the grammar in `docs/SUPPORTED.md`, the texts by
/// `docs/DECISIONS.md`.
const LITERALS: &[(&str, &str, &str)] = &[
    ("b64", "a'b", "b64'a\\'b'"),
    ("true", "x", "true'x'"),
    ("DT", "\"\\\n", "DT'\\u{22}\\\\\n'"),
    ("Ab", "x", "no prefix"),
    ("", "x", "no prefix"),
    ("0a", "x", "no prefix"),
];

#[test]
fn literals_are_written_behind_prefixes_alone(rt: HostRuntime) -> Result<(), Fail> {
    let alloc = rt.alloc();
    let mut failures = Failures::new(alloc);
    for &(prefix, text, wanted) in LITERALS {
        failures.told(alloc, prefix, literal(alloc, prefix, text), wanted)?;
    }
    failures.end()
}

fn tagged_text(alloc: Global, text: &str, number: u64) -> Result<String, Fail> {
    let item = tag_of(alloc, number, text)?;
    Ok(item.serialize(alloc)?)
}

#[test]
fn tags_keep_spaces(rt: HostRuntime) -> Result<(), Fail> {
    let alloc = rt.alloc();
    expect_told(alloc, tagged_text(alloc, " 2 ", 1), "1( 2 )")
}

fn array_in_tag(alloc: Global, numbers: &[i128], number: u64) -> Result<String, Fail> {
    let array: Item<'_> = Item::new_array(alloc, list(alloc, numbers)?)?;
    let item = boxed(alloc, array.tagged(alloc, number))?;
    Ok(item.serialize(alloc)?)
}

/// The same in the item's place.
fn put_into_tag(alloc: Global, made: Made<'_>, number: u64) -> Result<String, Fail> {
    let mut item = make(alloc, made)?;
    item.put_into_tag(alloc, number)?;
    Ok(item.serialize(alloc)?)
}

#[test]
fn tags_of_arrays_are_written(rt: HostRuntime) -> Result<(), Fail> {
    let alloc = rt.alloc();
    expect_told(alloc, array_in_tag(alloc, &[1, 2], 24), "24([1,2])")?;
    let told = put_into_tag(alloc, Made::Array(&[1, 2]), 24);
    expect_told(alloc, told, "24([1,2])")
}

/// The number that is written so, or the empty text where it is none.
fn number(alloc: Global, text: &str) -> Result<String, Fail> {
    match Item::new_number(alloc, text)? {
        Some(item) => Ok(item.serialize(alloc)?),
        None => Ok(String::new(alloc)),
    }
}

/// Numbers of the grammar in `docs/SUPPORTED.md`.
const NUMBERS: &[&str] = &["1.5", "-0X1.fP-10", "0b101", "+007", "1e1"];

/// Texts that are no numbers of it.
const NO_NUMBERS: &[&str] = &["", "1_1", "NaN", "0b2", "1 ", "0x", "--1"];

#[test]
fn numbers_are_written_as_told(rt: HostRuntime) -> Result<(), Fail> {
    let alloc = rt.alloc();
    let mut failures = Failures::new(alloc);
    for &text in NUMBERS {
        failures.told(alloc, text, number(alloc, text), text)?;
    }
    for &text in NO_NUMBERS {
        failures.told(alloc, text, number(alloc, text), "")?;
    }
    failures.end()
}

fn sequence(alloc: Global, numbers: &[i128]) -> Result<String, Fail> {
    let items: Vec<Item<'_>> = list(alloc, numbers)?;
    let sequence = boxed(alloc, Sequence::new(alloc, items))?;
    Ok(sequence.serialize(alloc)?)
}

#[test]
fn sequences_are_written(rt: HostRuntime) -> Result<(), Fail> {
    let alloc = rt.alloc();
    expect_told(alloc, sequence(alloc, &[1, 2]), "1,2")?;
    expect_told(alloc, sequence(alloc, &[]), "")
}

fn reversed(alloc: Global, numbers: &[i128]) -> Result<String, Fail> {
    let items: Vec<Item<'_>> = list(alloc, numbers)?;
    let array = boxed(alloc, Item::new_array(alloc, items.into_iter().rev()))?;
    Ok(array.serialize(alloc)?)
}

#[test]
fn arrays_take_iterators(rt: HostRuntime) -> Result<(), Fail> {
    let alloc = rt.alloc();
    expect_told(alloc, reversed(alloc, &[1, 2, 3]), "[3,2,1]")
}
