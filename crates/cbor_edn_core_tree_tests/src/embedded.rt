//! Embedded sequences that are made, the indicators of literals, and how deep items nest.
use crate::common::sequence_of;
use cbor_edn_core::tree::{Indicator, Item, Sequence};
use cbor_edn_expect::failures::Failures;
use std::alloc::Global;
use std::test::Fail;

/// What counts by `docs/SUPPORTED.md`, "Strings, lists and tags".
const NESTINGS: &[(&str, usize)] = &[
    ("", 0),
    ("1, \"a\", h'00'_0", 0),
    ("[]", 1),
    ("[[1], {}], 1", 2),
    ("{1: [2], [3]: 4}", 2),
    ("1(simple(32))", 2),
    ("<<[1]>>", 2),
    ("\"a\" + <<1>>", 1),
    ("(_ <<{1: 2}>>)", 2),
];

fn nesting_of(item: &Item<'_>) -> usize {
    item.nesting()
}

/// That of the sequence, and that of its first item, if there is one.
fn nestings(alloc: Global, text: &str) -> Result<(usize, Option<usize>), Fail> {
    let mut sequence = sequence_of(alloc, text)?;
    let whole = sequence.nesting();
    let first = match sequence.at_mut(&[0]) {
        Some(item) => Some(nesting_of(item)),
        None => None,
    };
    Ok((whole, first))
}

#[test]
fn nesting(rt: HostRuntime) -> Result<(), Fail> {
    let alloc = rt.alloc();
    let mut failures = Failures::new(alloc);
    for &(text, wanted) in NESTINGS {
        let (whole, first) = nestings(alloc, text)?;
        let holds = whole == wanted && first.unwrap_or(wanted) <= whole;
        failures.row(alloc, text, if holds { "held" } else { "other" }, "held")?;
    }
    let (_, first) = nestings(alloc, "[1], [[2]]")?;
    failures.row(
        alloc,
        "the first item alone",
        if first == Some(1) { "held" } else { "other" },
        "held",
    )?;
    failures.end()
}

/// The indicator of an item that is one literal, and none of others.
const INDICATORS: &[(&str, Option<Option<Indicator>>)] = &[
    ("h'01'_0", Some(Some(Indicator::One))),
    ("\"a\"", Some(None)),
    ("b64'AQ=='_i", Some(Some(Indicator::Immediate))),
    ("\"a\" + \"b\"", None),
    ("<<1>>", None),
    ("(_ \"a\")", None),
    ("...", None),
    ("1_0", None),
];

fn indicator_of(item: &Item<'_>) -> Option<Option<Indicator>> {
    item.get_literal_indicator()
}

fn literal_indicator(alloc: Global, text: &str) -> Result<Option<Option<Indicator>>, Fail> {
    let mut sequence = sequence_of(alloc, text)?;
    match sequence.at_mut(&[0]) {
        Some(item) => Ok(indicator_of(item)),
        None => Err(Fail::new("no item")),
    }
}

#[test]
fn indicators_of_literals(rt: HostRuntime) -> Result<(), Fail> {
    let alloc = rt.alloc();
    let mut failures = Failures::new(alloc);
    for &(text, wanted) in INDICATORS {
        let holds = literal_indicator(alloc, text)? == wanted;
        failures.row(alloc, text, if holds { "held" } else { "other" }, "held")?;
    }
    failures.end()
}

fn embedded(alloc: Global, text: &str, indicator: Option<Indicator>) -> Result<String, Fail> {
    let item = Box::new(
        alloc,
        Sequence::parse(alloc, text)?.embedded(alloc, indicator)?,
    )?;
    Ok(item.serialize(alloc)?)
}

fn embedded_alone(alloc: Global, number: i128) -> Result<String, Fail> {
    let item = Item::new_integer_decimal(alloc, number)?;
    let item = Box::new(alloc, Sequence::of_item(alloc, item).embedded(alloc, None)?)?;
    Ok(item.serialize(alloc)?)
}

/// The spaces of the sequence stand inside.
#[test]
fn sequences_are_embedded(rt: HostRuntime) -> Result<(), Fail> {
    let alloc = rt.alloc();
    let mut failures = Failures::new(alloc);
    let spaced = embedded(alloc, " 1, [2] /c/ ", Some(Indicator::Two))?;
    failures.row(alloc, "a sequence", spaced.as_str(), "<< 1, [2] /c/ >>_1")?;
    let empty = embedded(alloc, "", None)?;
    failures.row(alloc, "an empty one", empty.as_str(), "<<>>")?;
    let alone = embedded_alone(alloc, 5)?;
    failures.row(alloc, "an item", alone.as_str(), "<<5>>")?;
    failures.end()
}
