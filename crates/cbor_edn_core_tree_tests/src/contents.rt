//! The contents of tags, lent to be changed.
use crate::common::{Made, make, tag_of};
use cbor_edn_core::access::TypeMismatch;
use cbor_edn_core::tree::{Item, StandaloneItem};
use cbor_edn_expect::{boxed, expect, expect_told};
use std::alloc::Global;
use std::test::Fail;

fn overwrite<'a>(item: &mut Item<'a>, alloc: Global, content: &'a str) -> Result<String, Fail> {
    let mut content = boxed(alloc, StandaloneItem::parse(alloc, content))?;
    std::mem::swap(item.get_tagged_mut()?, &mut *content);
    Ok(item.serialize(alloc)?)
}

/// The text of a tag whose content is overwritten.
fn overwritten<'a>(alloc: Global, text: &'a str, content: &'a str) -> Result<String, Fail> {
    let mut item = tag_of(alloc, 1, text)?;
    overwrite(&mut item, alloc, content)
}

#[test]
fn tags_lend_their_content(rt: HostRuntime) -> Result<(), Fail> {
    let alloc = rt.alloc();
    expect_told(alloc, overwritten(alloc, " 2 ", "[3] "), "1([3] )")?;
    expect_told(alloc, overwritten(alloc, "2", " 1(2)"), "1( 1(2))")
}

/// The text of an item that is no tag, after its content was asked for.
fn unlent(alloc: Global, made: Made<'_>) -> Result<String, Fail> {
    let mut item = make(alloc, made)?;
    let refused = item.get_tagged_mut().err();
    expect("no tag", refused == Some(TypeMismatch::TaggedItem))?;
    Ok(item.serialize(alloc)?)
}

#[test]
fn others_lend_no_content(rt: HostRuntime) -> Result<(), Fail> {
    let alloc = rt.alloc();
    expect_told(alloc, unlent(alloc, Made::Decimal(7)), "7")?;
    let told = unlent(alloc, Made::Decoded(b"\xf8\x20"));
    expect_told(alloc, told, "simple(32)")
}
