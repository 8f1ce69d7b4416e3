//! How the tests make items, and how they compare texts.
use cbor_edn_core::tree::{Item, Sequence, StandaloneItem};
use cbor_edn_expect::failures::Failures;
use cbor_edn_expect::{boxed, expect};
use cbor_edn_parts::space::policy::DelimiterPolicy;
use std::alloc::Global;
use std::test::Fail;

/// What an item is made of: a value, the numbers of a list, or the bytes that encode it.
#[derive(Clone, Copy)]
pub(crate) enum Made<'m> {
    Decimal(i128),
    Hex(u64),
    Bytes(&'m [u8]),
    Text(&'m str),
    Literal(&'m str, &'m str),
    Array(&'m [i128]),
    Map(&'m [(i128, i128)]),
    Decoded(&'m [u8]),
}

// Tests hold trees in boxes: a proof writes out what a function holds, and of a box only that it is one.

/// The tree of a text.
pub(crate) fn sequence_of<'a>(alloc: Global, text: &'a str) -> Result<Box<Sequence<'a>>, Fail> {
    boxed(alloc, Sequence::parse(alloc, text))
}

/// The tree of a standalone item's text.
pub(crate) fn standalone_of<'a>(
    alloc: Global,
    text: &'a str,
) -> Result<Box<StandaloneItem<'a>>, Fail> {
    boxed(alloc, StandaloneItem::parse(alloc, text))
}

/// An item that is made by the constructor of its kind.
pub(crate) fn make<'a>(alloc: Global, made: Made<'_>) -> Result<Box<Item<'a>>, Fail> {
    match made {
        Made::Decimal(integer) => boxed(alloc, Item::new_integer_decimal(alloc, integer)),
        Made::Hex(integer) => boxed(alloc, Item::new_integer_hex(alloc, integer)),
        Made::Bytes(bytes) => boxed(alloc, Item::new_bytes_hex(alloc, bytes)),
        Made::Text(text) => boxed(alloc, Item::new_text(alloc, text)),
        Made::Literal(prefix, text) => {
            boxed(alloc, Item::new_application_literal(alloc, prefix, text))
        }
        Made::Array(numbers) => array_of(alloc, numbers),
        Made::Map(numbers) => map_of(alloc, numbers),
        Made::Decoded(bytes) => decoded(alloc, bytes),
    }
}

pub(crate) fn array_of<'a>(alloc: Global, numbers: &[i128]) -> Result<Box<Item<'a>>, Fail> {
    let items: Vec<Item<'a>> = list(alloc, numbers)?;
    boxed(alloc, Item::new_array(alloc, items))
}

fn map_of<'a>(alloc: Global, numbers: &[(i128, i128)]) -> Result<Box<Item<'a>>, Fail> {
    let entries: Vec<(Item<'a>, Item<'a>)> = pairs(alloc, numbers)?;
    boxed(alloc, Item::new_map(alloc, entries))
}

fn decoded<'a>(alloc: Global, bytes: &[u8]) -> Result<Box<Item<'a>>, Fail> {
    boxed(alloc, Item::from_cbor(alloc, bytes))
}

pub(crate) fn list<'a>(alloc: Global, numbers: &[i128]) -> Result<Vec<Item<'a>>, Fail> {
    let mut items: Vec<Item<'a>> = Vec::new(alloc);
    for &number in numbers {
        items.push(Item::new_integer_decimal(alloc, number)?)?;
    }
    Ok(items)
}

fn pair<'a>(alloc: Global, key: i128, value: i128) -> Result<(Item<'a>, Item<'a>), Fail> {
    let key = Item::new_integer_decimal(alloc, key)?;
    let value = Item::new_integer_decimal(alloc, value)?;
    Ok((key, value))
}

fn pairs<'a>(alloc: Global, numbers: &[(i128, i128)]) -> Result<Vec<(Item<'a>, Item<'a>)>, Fail> {
    let mut pairs: Vec<(Item<'a>, Item<'a>)> = Vec::new(alloc);
    for &(key, value) in numbers {
        pairs.push(pair(alloc, key, value)?)?;
    }
    Ok(pairs)
}

/// Each item is written so.
pub(crate) fn all_written(alloc: Global, rows: &[(Made<'_>, &str)]) -> Result<(), Fail> {
    let mut failures = Failures::new(alloc);
    for &(made, wanted) in rows {
        failures.told(alloc, wanted, text_of(alloc, made), wanted)?;
    }
    failures.end()
}

fn text_of(alloc: Global, made: Made<'_>) -> Result<String, Fail> {
    let item = make(alloc, made)?;
    Ok(item.serialize(alloc)?)
}

/// The item that is a tag round what a text says.
pub(crate) fn tag_of<'a>(alloc: Global, number: u64, text: &'a str) -> Result<Box<Item<'a>>, Fail> {
    boxed(
        alloc,
        StandaloneItem::parse(alloc, text)?.tagged(alloc, number),
    )
}

/// The five policies, the indented one as it is by default.
pub(crate) const POLICIES: &[DelimiterPolicy] = &[
    DelimiterPolicy::DiscardAll,
    DelimiterPolicy::DiscardAllButComments,
    DelimiterPolicy::SingleLineRegularSpacing,
    DelimiterPolicy::IndentedRegularSpacing {
        base_indent: 0,
        indent_level: 4,
        max_width: 80,
    },
    DelimiterPolicy::SingleSpace,
];

/// The text of a standalone item that got a comment, if any, and then the spaces of each policy.
pub(crate) fn edited(
    alloc: Global,
    text: &str,
    comment: Option<&str>,
    policies: &[DelimiterPolicy],
) -> Result<String, Fail> {
    let mut item = standalone_of(alloc, text)?;
    edit_alone(&mut item, alloc, comment, policies)
}

fn edit_alone(
    item: &mut StandaloneItem<'_>,
    alloc: Global,
    comment: Option<&str>,
    policies: &[DelimiterPolicy],
) -> Result<String, Fail> {
    if let Some(comment) = comment {
        item.set_comment(alloc, comment)?;
    }
    for &policy in policies {
        lay_out_alone(item, alloc, policy)?;
    }
    Ok(item.serialize(alloc)?)
}

fn lay_out_alone(
    item: &mut StandaloneItem<'_>,
    alloc: Global,
    policy: DelimiterPolicy,
) -> Result<(), Fail> {
    let laid_out = item.serialize_laid_out(alloc, policy)?;
    item.set_delimiters(alloc, policy)?;
    expect("text as laid out", item.serialize(alloc)? == laid_out)
}

/// What is done to a sequence or an item: its indicators go, it gets the spaces of a policy, or there is no memory for these.
#[derive(Clone, Copy)]
pub(crate) enum Edit {
    Bare,
    LaidOut(DelimiterPolicy),
    Refused(DelimiterPolicy),
}

/// The text of a sequence after that.
pub(crate) fn edited_sequence(alloc: Global, text: &str, edit: Edit) -> Result<String, Fail> {
    let mut sequence = sequence_of(alloc, text)?;
    edit_sequence(&mut sequence, alloc, edit)
}

fn edit_sequence(sequence: &mut Sequence<'_>, alloc: Global, edit: Edit) -> Result<String, Fail> {
    match edit {
        Edit::Bare => sequence.discard_encoding_indicators(alloc)?,
        Edit::LaidOut(policy) => lay_out(sequence, alloc, policy)?,
        Edit::Refused(policy) => {
            let is_refused = sequence.set_delimiters(alloc, policy).is_err();
            expect("no memory for spaces", is_refused)?;
        }
    }
    Ok(sequence.serialize(alloc)?)
}

fn lay_out(
    sequence: &mut Sequence<'_>,
    alloc: Global,
    policy: DelimiterPolicy,
) -> Result<(), Fail> {
    let laid_out = sequence.serialize_laid_out(alloc, policy)?;
    sequence.set_delimiters(alloc, policy)?;
    expect("text as laid out", sequence.serialize(alloc)? == laid_out)
}

/// A text's items without spaces and comments between them.
pub(crate) fn bare(alloc: Global, text: &str) -> Result<String, Fail> {
    edited_sequence(alloc, text, Edit::LaidOut(DelimiterPolicy::DiscardAll))
}

/// The text of an item after that.
pub(crate) fn edited_item(alloc: Global, made: Made<'_>, edit: Edit) -> Result<String, Fail> {
    let mut item = make(alloc, made)?;
    edit_item(&mut item, alloc, edit)
}

fn edit_item(item: &mut Item<'_>, alloc: Global, edit: Edit) -> Result<String, Fail> {
    match edit {
        Edit::Bare => item.discard_encoding_indicators(alloc)?,
        Edit::LaidOut(policy) => lay_out_item(item, alloc, policy)?,
        Edit::Refused(policy) => {
            let is_refused = item.set_delimiters(alloc, policy).is_err();
            expect("no memory for spaces", is_refused)?;
        }
    }
    Ok(item.serialize(alloc)?)
}

fn lay_out_item(item: &mut Item<'_>, alloc: Global, policy: DelimiterPolicy) -> Result<(), Fail> {
    let laid_out = item.serialize_laid_out(alloc, policy)?;
    item.set_delimiters(alloc, policy)?;
    expect("text as laid out", item.serialize(alloc)? == laid_out)
}
