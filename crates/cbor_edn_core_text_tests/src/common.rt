//! What the tests compare: texts, bytes in hexadecimal digits, and the names of refusals.
use cbor_edn_core::cbor::decode::CborError;
use cbor_edn_core::tree::{Item, Sequence, StandaloneItem};
use cbor_edn_expect::failures::Failures;
use cbor_edn_expect::{digits_of, expect_row, name_of};
use cbor_edn_parts::base::error::{Fault, ParseError};
use std::alloc::Global;
use std::test::Fail;

/// Each text means the bytes, given in digits, or is refused with the name; and each is printed as itself.
pub(crate) fn all_mean(alloc: Global, rows: &[(&str, &str)]) -> Result<(), Fail> {
    let mut failures = Failures::new(alloc);
    for &(text, wanted) in rows {
        failures.told(alloc, text, encoded(alloc, text), wanted)?;
        failures.told(alloc, text, printed(alloc, text), text)?;
    }
    failures.end()
}

/// Each is no text of items.
pub(crate) fn all_unparsed(alloc: Global, texts: &[&str]) -> Result<(), Fail> {
    let mut failures = Failures::new(alloc);
    for &text in texts {
        failures.told(alloc, text, encoded(alloc, text), "parse")?;
    }
    failures.end()
}

/// A text is accepted, and printed as itself.
pub(crate) fn expect_itself(alloc: Global, text: &str) -> Result<(), Fail> {
    expect_row(alloc, text, printed(alloc, text)?.as_str(), text)
}

/// A text as it is printed, or `parse` where it is refused.
fn printed(alloc: Global, text: &str) -> Result<String, Fail> {
    match Sequence::parse(alloc, text) {
        Ok(sequence) => Ok(sequence.serialize(alloc)?),
        Err(fault) => unparsed(alloc, fault),
    }
}

/// The bytes of a text's items in lower case digits, or the name of the refusal: `parse` where the text is refused.
pub(crate) fn encoded(alloc: Global, text: &str) -> Result<String, Fail> {
    match Sequence::parse(alloc, text) {
        Ok(sequence) => digits_of(alloc, sequence.to_cbor(alloc)),
        Err(fault) => unparsed(alloc, fault),
    }
}

/// The bytes of a standalone item's text in lower case digits, or the name of the refusal: `parse` where the text is refused.
pub(crate) fn encoded_alone(alloc: Global, text: &str) -> Result<String, Fail> {
    match StandaloneItem::parse(alloc, text) {
        Ok(item) => digits_of(alloc, item.to_cbor(alloc)),
        Err(fault) => unparsed(alloc, fault),
    }
}

/// The text of the items that bytes, given in digits, encode, or the name of the refusal.
pub(crate) fn decoded(alloc: Global, digits: &str) -> Result<String, Fail> {
    let bytes = hex::decode(alloc, digits)?;
    decoded_sequence(alloc, bytes.as_slice())
}

fn decoded_sequence(alloc: Global, bytes: &[u8]) -> Result<String, Fail> {
    match Sequence::from_cbor(alloc, bytes) {
        Ok(sequence) => Ok(sequence.serialize(alloc)?),
        Err(fault) => name_of(alloc, fault),
    }
}

/// The text of the one item that bytes encode, which may nest so deep, or the name of the refusal.
pub(crate) fn decoded_item(alloc: Global, bytes: &[u8], limit: usize) -> Result<String, Fail> {
    match Item::from_cbor_within(alloc, bytes, limit) {
        Ok(item) => Ok(item.serialize(alloc)?),
        Err(fault) => name_of(alloc, fault),
    }
}

/// Why bytes are no item, or nothing where they are one.
pub(crate) fn cbor_error(alloc: Global, bytes: &[u8]) -> Result<Option<CborError>, Fail> {
    match Item::from_cbor(alloc, bytes) {
        Ok(_) => Ok(None),
        Err(Fault::Told(refused)) => Ok(Some(refused)),
        Err(Fault::Memory(refused)) => Err(Fail::from(refused)),
    }
}

/// A text means the bytes, given in digits, is what they are decoded as, and prints itself.
pub(crate) fn stand_for_each_other(
    failures: &mut Failures,
    alloc: Global,
    text: &str,
    digits: &str,
) -> Result<(), Fail> {
    failures.told(alloc, text, encoded(alloc, text), digits)?;
    failures.told(alloc, digits, decoded(alloc, digits), text)?;
    failures.told(alloc, text, printed(alloc, text), text)
}

/// Each text and its bytes stand for each other.
pub(crate) fn all_stand_for_each_other(alloc: Global, rows: &[(&str, &str)]) -> Result<(), Fail> {
    let mut failures = Failures::new(alloc);
    for &(text, digits) in rows {
        stand_for_each_other(&mut failures, alloc, text, digits)?;
    }
    failures.end()
}

/// Why a text is refused whose items may nest so deep, or nothing where it is accepted.
pub(crate) fn refusal(alloc: Global, text: &str, limit: usize) -> Result<Option<ParseError>, Fail> {
    match Sequence::parse_within(alloc, text, limit) {
        Ok(_) => Ok(None),
        Err(Fault::Told(refused)) => Ok(Some(refused)),
        Err(Fault::Memory(refused)) => Err(Fail::from(refused)),
    }
}

fn unparsed(alloc: Global, fault: Fault<ParseError>) -> Result<String, Fail> {
    match fault {
        Fault::Told(_) => Ok(String::from_str(alloc, "parse")?),
        Fault::Memory(refused) => Err(Fail::from(refused)),
    }
}

/// So many times the one text, then so many times the other.
pub(crate) fn repeated(
    alloc: Global,
    count: usize,
    first: &str,
    last: &str,
) -> Result<String, Fail> {
    let mut text = String::new(alloc);
    for _ in 0..count {
        text.push_str(first)?;
    }
    for _ in 0..count {
        text.push_str(last)?;
    }
    Ok(text)
}
