//! Edits as tables hold them, and sequences whose texts are read again.
use cbor_edn_core::tree::{Item, Sequence, StandaloneItem};
use cbor_edn_expect::failures::Failures;
use cbor_edn_expect::{boxed, digits_of, name_of};
use cbor_edn_parts::space::policy::DelimiterPolicy;
use cbor_edn_script::Edit;
use std::alloc::Global;
use std::test::Fail;

/// An edit as a table holds it: the item that is put somewhere is that of a text.
#[derive(Clone, Copy, Debug)]
pub(crate) enum Step<'p> {
    Delimit(DelimiterPolicy),
    Discard,
    Replace(&'p [usize], &'static str),
    TagAt(&'p [usize], u64),
    CommentTags(&'static str),
    Prettify,
    Resolve,
    To999,
}

/// Puts one more edit behind the others.
pub(crate) fn push_edit(
    alloc: Global,
    edits: &mut Vec<Edit<'_>>,
    step: Step<'_>,
) -> Result<(), Fail> {
    edits.push(edit_of(alloc, step)?)?;
    Ok(())
}

fn edit_of<'a>(alloc: Global, step: Step<'_>) -> Result<Edit<'a>, Fail> {
    match step {
        Step::Delimit(policy) => Ok(Edit::Delimit(policy)),
        Step::Discard => Ok(Edit::Discard),
        Step::Replace(path, text) => replacement(alloc, path, text),
        Step::TagAt(path, number) => Ok(Edit::TagAt(path.to_vec(alloc)?, number)),
        Step::CommentTags(comment) => Ok(Edit::CommentTags(String::from_str(alloc, comment)?)),
        Step::Prettify => Ok(Edit::Prettify),
        Step::Resolve => Ok(Edit::Resolve),
        Step::To999 => Ok(Edit::To999),
    }
}

fn replacement<'a>(alloc: Global, path: &[usize], text: &'a str) -> Result<Edit<'a>, Fail> {
    Ok(Edit::Replace(path.to_vec(alloc)?, item_of(alloc, text)?))
}

fn item_of<'a>(alloc: Global, text: &'a str) -> Result<Item<'a>, Fail> {
    let item = boxed(alloc, StandaloneItem::parse(alloc, text))?;
    Ok(item.item().clone()?)
}

/// Trees stand in boxes: a proof writes out what a function holds, and of a box only that it is one.
pub(crate) fn sequence_of<'a>(alloc: Global, text: &'a str) -> Result<Box<Sequence<'a>>, Fail> {
    boxed(alloc, Sequence::parse(alloc, text))
}

/// The bytes that a sequence means, in digits, or the name of the refusal.
pub(crate) fn encoding(alloc: Global, sequence: &Sequence<'_>) -> Result<String, Fail> {
    digits_of(alloc, sequence.to_cbor(alloc))
}

/// Adds the row where the printed text of a sequence is read as other items, or as items with another encoding. Leaves the sequence
/// without its spaces: by what is printed then, items are compared.
pub(crate) fn see_read_back(
    failures: &mut Failures,
    alloc: Global,
    row: &str,
    sequence: &mut Sequence<'_>,
) -> Result<(), Fail> {
    let text = sequence.serialize(alloc)?;
    let bytes = encoding(alloc, sequence)?;
    let items = text_of_items(alloc, sequence)?;
    let again = bytes_and_items(alloc, text.as_str())?;
    failures.row(alloc, row, again.0.as_str(), bytes.as_str())?;
    failures.row(alloc, row, again.1.as_str(), items.as_str())?;
    Ok(())
}

/// The bytes that a text means, in digits, and the text of its items with the least spaces; or the name of the refusal.
fn bytes_and_items(alloc: Global, text: &str) -> Result<(String, String), Fail> {
    match Sequence::parse(alloc, text) {
        Ok(sequence) => {
            let mut sequence = Box::new(alloc, sequence)?;
            let bytes = encoding(alloc, &sequence)?;
            Ok((bytes, text_of_items(alloc, &mut sequence)?))
        }
        Err(fault) => Ok((name_of(alloc, fault)?, String::new(alloc))),
    }
}

/// The text of the items with the least spaces.
fn text_of_items(alloc: Global, sequence: &mut Sequence<'_>) -> Result<String, Fail> {
    sequence.set_delimiters(alloc, DelimiterPolicy::DiscardAll)?;
    Ok(sequence.serialize(alloc)?)
}
