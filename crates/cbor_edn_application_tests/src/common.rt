//! Items and sequences of texts. Trees stand in boxes: a proof writes out what a function holds, and of a box only that it is one.
use cbor_edn_core::tree::{Sequence, StandaloneItem};
use cbor_edn_expect::boxed;
use std::alloc::Global;
use std::test::Fail;

pub(crate) fn sequence_of<'a>(alloc: Global, text: &'a str) -> Result<Box<Sequence<'a>>, Fail> {
    boxed(alloc, Sequence::parse(alloc, text))
}

pub(crate) fn standalone_of<'a>(
    alloc: Global,
    text: &'a str,
) -> Result<Box<StandaloneItem<'a>>, Fail> {
    boxed(alloc, StandaloneItem::parse(alloc, text))
}
