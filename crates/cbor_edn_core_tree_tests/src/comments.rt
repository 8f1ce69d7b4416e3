//! Comments in front of items.
use crate::common::edited;
use cbor_edn_core::tree::{Item, StandaloneItem};
use cbor_edn_expect::failures::Failures;
use cbor_edn_expect::{boxed, expect_told};
use std::alloc::Global;
use std::test::Fail;

fn with(alloc: Global, text: &str, comment: &str) -> Result<String, Fail> {
    let item = boxed(
        alloc,
        StandaloneItem::parse(alloc, text)?.with_comment(alloc, comment),
    )?;
    Ok(item.serialize(alloc)?)
}

fn with_decoded(alloc: Global, bytes: &[u8], comment: &str) -> Result<String, Fail> {
    let item: Item<'_> = Item::from_cbor(alloc, bytes)?;
    let item = boxed(alloc, item.with_comment(alloc, comment))?;
    Ok(item.serialize(alloc)?)
}

/// Texts, comments, and the texts behind these comments, by the docstring of `with_comment`.
const COMMENTED: &[(&str, &str, &str)] = &[
    ("0", "a/b\nc", "# a/b\n# c\n0"),
    ("0", "\u{1}", "/   /0"),
    ("0", "a\tb\n", "/ a\tb\n /0"),
    ("0", "", "/  /0"),
    (" # old\n 1 /kept/", "new", "/ new /1 /kept/"),
];

#[test]
fn comments_stand_in_front(rt: HostRuntime) -> Result<(), Fail> {
    let alloc = rt.alloc();
    let mut failures = Failures::new(alloc);
    for &(text, comment, wanted) in COMMENTED {
        let told = edited(alloc, text, Some(comment), &[]);
        failures.told(alloc, comment, told, wanted)?;
        failures.told(alloc, comment, with(alloc, text, comment), wanted)?;
    }
    failures.end()
}

#[test]
fn comments_stand_in_front_of_decoded_items(rt: HostRuntime) -> Result<(), Fail> {
    let alloc = rt.alloc();
    expect_told(alloc, with_decoded(alloc, b"\x01", "one"), "/ one /1")
}
