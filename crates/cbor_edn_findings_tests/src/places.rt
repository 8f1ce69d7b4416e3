//! The first item of a text that has no encoding: its path, and where it begins.
use cbor_edn_core::tree::Sequence;
use cbor_edn_expect::boxed;
use cbor_edn_expect::failures::Failures;
use cbor_edn_places::offset::offset_of;
use cbor_edn_places::path::{cut_to_item, first_valueless};
use std::alloc::Global;
use std::test::Fail;

/// The path in a text of the first item without an encoding, and where it begins.
fn told(alloc: Global, text: &str) -> Result<String, Fail> {
    let sequence = boxed(alloc, Sequence::parse(alloc, text))?;
    let mut copy = boxed(alloc, sequence.clone())?;
    match first_valueless(alloc, &mut copy)? {
        Some((path, _)) => {
            let offset = offset_of(alloc, &sequence, &path)?;
            Ok(format!(in alloc; "{path:?} {offset}")?)
        }
        None => Ok(String::from_str(alloc, "none")?),
    }
}

/// Texts, and paths with offsets that were counted by hand.
const PLACES: &[(&str, &str)] = &[
    ("1, [2, {3: 'a'}]", "none"),
    ("1.5", "[0] 0"),
    ("/ c / 1, [2, 1.5]", "[1, 1] 13"),
    ("[1.5], 1.5", "[0, 0] 1"),
    ("{1: 2, 3: 1.5}", "[0, 3] 10"),
    ("1([1.5])", "[0, 0, 0] 3"),
    ("simple(1.5)", "[0] 0"),
    ("<<1, <<1.5>>>>", "[0, 1, 0] 7"),
    ("'a' + h'0'", "[0] 0"),
    ("(_ <<1>>, <<1.5>>)", "[0, 1] 12"),
    ("{1.5: 2, 3: 1.5}", "[0, 0] 1"),
    ("[1, [_i 2, 3], 1.5]", "[0, 2] 15"),
    ("[1, [_3 2, [3, 4_]], 1.5]", "[0, 1, 1, 1] 15"),
    ("[[1, 2], {_ 3: 4_i, 5: 24_i}]", "[0, 1, 3] 23"),
    // an own fault of a string, for the bytes that it embeds: too long for its indicator, and no UTF-8 behind a text
    (
        "[<<1, 2>>_i, <<'123456789012345678901234'>>_i, 1.5]",
        "[0, 1] 13",
    ),
    (
        "[\"\" + <<1>>, \"\" + <<-1>>, [\"\" + <<[]>>]]",
        "[0, 2, 0] 27",
    ),
    ("['a' + <<[]>>, \"\" + h'c3' + <<[]>>, 1.5]", "[0, 2] 36"),
];

#[test]
fn places(rt: HostRuntime) -> Result<(), Fail> {
    let alloc = rt.alloc();
    let mut failures = Failures::new(alloc);
    for (text, wanted) in PLACES {
        failures.told(alloc, text, told(alloc, text), wanted)?;
    }
    failures.end()
}

/// A string of so many embedded items, of which the last has no encoding.
fn embedded(alloc: Global, count: usize) -> Result<String, Fail> {
    let mut text = String::new(alloc);
    for _ in 1..count {
        text.push_str("<<1>> + ")?;
    }
    text.push_str("<<1.5>>")?;
    told(alloc, &text)
}

#[test]
fn long_strings(rt: HostRuntime) -> Result<(), Fail> {
    let alloc = rt.alloc();
    let mut failures = Failures::new(alloc);
    failures.told(alloc, "64", embedded(alloc, 64), "[0, 63] 506")?;
    failures.told(alloc, "65", embedded(alloc, 65), "[0] 0")?;
    failures.told(alloc, "20000", embedded(alloc, 20000), "[0] 0")?;
    failures.end()
}

#[test]
fn paths_are_cut(rt: HostRuntime) -> Result<(), Fail> {
    let alloc = rt.alloc();
    let mut sequence = boxed(alloc, Sequence::parse(alloc, "[dt'1970-01-01T00:00:00Z']"))?;
    let mut path = Vec::from_slice(alloc, &[0, 0, 0])?;
    let leads = cut_to_item(&mut sequence, &mut path);
    let mut failures = Failures::new(alloc);
    failures.holds(alloc, "it leads to an item", leads)?;
    failures.holds(alloc, "[0, 0]", path.as_slice() == [0, 0].as_slice())?;
    failures.end()
}
