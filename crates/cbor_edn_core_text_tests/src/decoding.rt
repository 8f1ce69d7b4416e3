//! Bytes, the texts that they are decoded as, and the same bytes back; and bytes that are refused.
use crate::common::{cbor_error, decoded, decoded_item, repeated, stand_for_each_other};
use cbor_edn_core::cbor::decode::CborError;
use cbor_edn_core::tree::{Item, NESTING_LIMIT, Sequence, StandaloneItem};
use cbor_edn_expect::failures::Failures;
use cbor_edn_expect::{digits_of, expect_row, expect_told, name_of};
use std::alloc::Global;
use std::test::Fail;

/// Bytes of RFC 8949, section 3, given in digits, and the text that they are decoded as, by the tables of `docs/SUPPORTED.md` and,
/// between quotes, by `docs/DECISIONS.md`.
const ROWS: &[(&str, &str)] = &[
    ("", ""),
    ("8301181f80", "[1, 31, []]"),
    ("00012f", "0, 1, -16"),
    ("1900ff", "255_1"),
    ("3800", "-1_0"),
    ("9900020102", "[_1 1, 2]"),
    ("b8010102", "{_0 1: 2}"),
    ("b800", "{_0}"),
    ("bf0102ff", "{_ 1: 2}"),
    (
        "9818000000000000000000000000000000000000000000000000",
        "[0, 0, 0, 0, 0, 0, 0, 0, 0, 0, 0, 0, 0, 0, 0, 0, 0, 0, 0, 0, 0, 0, 0, 0]",
    ),
    ("9f820102ff", "[_ [1, 2]]"),
    ("190001", "1_1"),
    ("010203", "1, 2, 3"),
    ("9b000000000000000103", "[_3 3]"),
    ("bf01a0ff", "{_ 1: {}}"),
    ("a201020380", "{1: 2, 3: []}"),
    // strings
    ("44deadbeef", "h'deadbeef'"),
    ("4200ff", "h'00ff'"),
    ("580161", "h'61'_0"),
    ("5f4161ff", "(_ h'61')"),
    ("5f40ff", "(_ h'')"),
    ("5fff", "''_"),
    ("7fff", "\"\"_"),
    ("780161", "\"a\"_0"),
    ("64f09f9880", "\"\u{1f600}\""),
    // a text as it is written anew
    ("6948690a220d095c2708", "\"Hi\n\\\"\\r\\t\\\\\\u{27}\\b\""),
    (
        "6e48656c6c6f2022576f726c642200",
        "\"Hello \\\"World\\\"\\u{0}\"",
    ),
    ("6469742773", "\"it\\u{27}s\""),
    ("615c", "\"\\\\\""),
    ("6508090a0c0d", "\"\\b\\t\n\\f\\r\""),
    ("640b101f20", "\"\\u{b}\\u{10}\\u{1f} \""),
    ("677fc3bcf09f9880", "\"\u{7f}\u{fc}\u{1f600}\""),
    // tags and keywords
    ("d80100", "1_0(0)"),
    ("c2420100", "2(h'0100')"),
    ("c24101", "2(h'01')"),
    ("d80281c100", "2_0([1(0)])"),
    ("c2c102", "2(1(2))"),
    ("d818f6", "24(null)"),
    ("da00000018f6", "24_2(null)"),
    ("e0", "simple(0)"),
    ("f3", "simple(19)"),
    ("f820", "simple(32)"),
    ("82f4f7", "[false, undefined]"),
    ("f4f5f6f7", "false, true, null, undefined"),
];

#[test]
fn decodes_rows(rt: HostRuntime) -> Result<(), Fail> {
    let alloc = rt.alloc();
    let mut failures = Failures::new(alloc);
    for &(digits, text) in ROWS {
        stand_for_each_other(&mut failures, alloc, text, digits)?;
    }
    failures.end()
}

/// Bytes that encode no items by RFC 8949, section 3 and appendix F, or are out of scope by `docs/SUPPORTED.md`, and the name of
/// the refusal.
const REFUSED: &[(&str, &str)] = &[
    ("82", "OutOfData"),
    ("8201", "OutOfData"),
    ("9f", "OutOfData"),
    ("5f", "OutOfData"),
    ("c1", "OutOfData"),
    ("b80101", "OutOfData"),
    // a count takes no memory before its items are read
    ("9bffffffffffffffff", "OutOfData"),
    ("9bffffffffffffffff00", "OutOfData"),
    ("bbffffffffffffffff", "OutOfData"),
    ("1c", "Reserved"),
    ("fc", "Reserved"),
    ("18", "MissingArgument"),
    ("1900", "MissingArgument"),
    ("1901", "MissingArgument"),
    ("f97c", "MissingArgument"),
    ("5f6161ff", "OtherChunk"),
    ("5f7f", "OtherChunk"),
    ("5f5f4161ffff", "OpenChunk"),
    ("1f", "OpenNumber"),
    ("3f", "OpenNumber"),
    ("df", "OpenNumber"),
    ("df00", "OpenNumber"),
    ("ff", "MisplacedBreak"),
    ("a1ff", "MisplacedBreak"),
    ("bf01ff", "MisplacedBreak"),
    ("9f8201ff", "MisplacedBreak"),
    ("c1ff", "MisplacedBreak"),
    ("f800", "InvalidSimple"),
    ("f818", "InvalidSimple"),
    ("f81f", "InvalidSimple"),
    ("f93c00", "FloatOutOfScope"),
    ("f97c01", "FloatOutOfScope"),
    ("f97e01", "FloatOutOfScope"),
    ("fa7f800001", "FloatOutOfScope"),
    ("fb0000000000000000", "FloatOutOfScope"),
    ("fb7ff8000000000001", "FloatOutOfScope"),
    ("5b7fffffffffffffff", "MissingBytes"),
    ("5bffffffffffffffff00", "MissingBytes"),
    ("61ff", "InvalidUtf8"),
    // a character does not go over from one string to the next
    ("7f61c361a9ff", "InvalidUtf8"),
];

/// The text of the one item that bytes, given in digits, encode, which may nest so deep, or the name of the refusal.
fn item_of(alloc: Global, digits: &str, limit: usize) -> Result<String, Fail> {
    let bytes = hex::decode(alloc, digits)?;
    decoded_item(alloc, bytes.as_slice(), limit)
}

#[test]
fn refuses_bytes(rt: HostRuntime) -> Result<(), Fail> {
    let alloc = rt.alloc();
    let mut failures = Failures::new(alloc);
    for &(digits, name) in REFUSED {
        failures.told(alloc, digits, decoded(alloc, digits), name)?;
        failures.told(alloc, digits, item_of(alloc, digits, NESTING_LIMIT), name)?;
    }
    failures.end()
}

/// Bytes, given in digits, that are not one item of RFC 8949, section 3, and the name of the refusal.
const NOT_ONE: &[(&str, &str)] = &[
    ("", "OutOfData"),
    ("0000", "DataAfter"),
    ("010203", "DataAfter"),
];

#[test]
fn refuses_other_than_one_item(rt: HostRuntime) -> Result<(), Fail> {
    let alloc = rt.alloc();
    let mut failures = Failures::new(alloc);
    for &(digits, name) in NOT_ONE {
        failures.told(alloc, digits, item_of(alloc, digits, NESTING_LIMIT), name)?;
    }
    failures.end()
}

/// Bytes of RFC 8949, section 3, no beginning of which is an item, and the text of the item that they encode, or the name of the refusal.
const WHOLE: &[(&str, &str)] = &[
    ("9f8201ff", "MisplacedBreak"),
    ("9f820102ff", "[_ [1, 2]]"),
    ("3bffffffffffffffff", "-18446744073709551616"),
    ("c349010000000000000000", "3(h'010000000000000000')"),
    (
        "c250ffffffffffffffffffffffffffffffff",
        "2(h'ffffffffffffffffffffffffffffffff')",
    ),
    (
        "5f4668656c6c6f2045776f726c64ff",
        "(_ h'68656c6c6f20', h'776f726c64')",
    ),
    ("9f03ff", "[_ 3]"),
    ("9b000000000000000103", "[_3 3]"),
    ("5b000000000000000568656c6c6f", "h'68656c6c6f'_3"),
    ("43019fff", "h'019fff'"),
    ("f97e00", "NaN_1"),
    ("f8ff", "simple(255)"),
    ("d8184100", "24(h'00')"),
];

/// Whether bytes are refused for want of more, and for nothing else.
fn is_cut(alloc: Global, bytes: &[u8]) -> Result<bool, Fail> {
    Ok(matches!(
        cbor_error(alloc, bytes)?,
        Some(CborError::OutOfData | CborError::MissingArgument | CborError::MissingBytes)
    ))
}

/// The first length at which a beginning of what is given in digits is not refused for want of more, or all of it.
fn first_uncut(alloc: Global, digits: &str) -> Result<usize, Fail> {
    let bytes = hex::decode(alloc, digits)?;
    for length in 0..bytes.len() {
        if !is_cut(alloc, &bytes.as_slice()[..length])? {
            return Ok(length);
        }
    }
    Ok(bytes.len())
}

#[test]
fn refuses_beginnings(rt: HostRuntime) -> Result<(), Fail> {
    let alloc = rt.alloc();
    let mut failures = Failures::new(alloc);
    for &(digits, text) in WHOLE {
        failures.told(alloc, digits, item_of(alloc, digits, NESTING_LIMIT), text)?;
        failures.held(alloc, digits, is_cut_before_its_end(alloc, digits))?;
    }
    failures.end()
}

/// Whether each beginning of what is given in digits is refused for want of more.
fn is_cut_before_its_end(alloc: Global, digits: &str) -> Result<bool, Fail> {
    Ok(first_uncut(alloc, digits)? == digits.len() / 2)
}

/// Bytes, how deep their item nests, and its text, by `docs/SUPPORTED.md`. Simple values that have names do not nest.
const NESTED: &[(&str, usize, &str)] = &[
    ("f5", 0, "true"),
    ("80", 1, "[]"),
    ("c100", 1, "1(0)"),
    ("c102", 1, "1(2)"),
    ("f0", 1, "simple(16)"),
    ("f820", 1, "simple(32)"),
    ("81f4", 1, "[false]"),
    ("81f97e00", 1, "[NaN_1]"),
    ("a101a0", 2, "{1: {}}"),
    ("81e4", 2, "[simple(4)]"),
    ("81f820", 2, "[simple(32)]"),
    ("c1c102", 2, "1(1(2))"),
];

#[test]
fn counts_what_nests(rt: HostRuntime) -> Result<(), Fail> {
    let alloc = rt.alloc();
    let mut failures = Failures::new(alloc);
    for &(digits, depth, text) in NESTED {
        for limit in 0..3 {
            let wanted = if limit < depth { "TooDeep" } else { text };
            see_item(&mut failures, alloc, digits, limit, wanted)?;
        }
    }
    failures.end()
}

fn see_item(
    failures: &mut Failures,
    alloc: Global,
    digits: &str,
    limit: usize,
    wanted: &str,
) -> Result<(), Fail> {
    let row = format!(in alloc; "{digits} at {limit}")?;
    failures.told(alloc, row.as_str(), item_of(alloc, digits, limit), wanted)
}

/// Arrays of one entry, so many, the innermost of them empty.
fn nested(alloc: Global, depth: usize) -> Result<Vec<u8>, Fail> {
    let mut bytes = Vec::new(alloc);
    for _ in 1..depth {
        bytes.push(0x81)?;
    }
    bytes.push(0x80)?;
    Ok(bytes)
}

#[test]
fn accepts_the_deepest(rt: HostRuntime) -> Result<(), Fail> {
    let alloc = rt.alloc();
    let bytes = nested(alloc, NESTING_LIMIT)?;
    let text = repeated(alloc, NESTING_LIMIT, "[", "]")?;
    let told = decoded_item(alloc, bytes.as_slice(), NESTING_LIMIT)?;
    expect_row(alloc, "the deepest", told.as_str(), text.as_str())
}

/// Depths above the limit of `docs/SUPPORTED.md`.
const DEEPER: &[usize] = &[NESTING_LIMIT + 1, 100_001];

#[test]
fn refuses_what_is_deeper(rt: HostRuntime) -> Result<(), Fail> {
    let alloc = rt.alloc();
    let mut failures = Failures::new(alloc);
    for &depth in DEEPER {
        let row = format!(in alloc; "{depth} arrays")?;
        failures.told(alloc, row.as_str(), deep_item(alloc, depth), "TooDeep")?;
    }
    failures.end()
}

fn deep_item(alloc: Global, depth: usize) -> Result<String, Fail> {
    let bytes = nested(alloc, depth)?;
    decoded_item(alloc, bytes.as_slice(), NESTING_LIMIT)
}

/// The text of the item that bytes begin with, which may nest so deep or has no limit of its own, and the bytes behind it; or the
/// name of the refusal and all the bytes.
fn first_item(alloc: Global, bytes: &[u8], limit: Option<usize>) -> Result<(String, &[u8]), Fail> {
    let answer = match limit {
        Some(limit) => Item::from_cbor_with_rest_within(alloc, bytes, limit),
        None => Item::from_cbor_with_rest(alloc, bytes),
    };
    match answer {
        Ok((item, rest)) => Ok((item.serialize(alloc)?, rest)),
        Err(fault) => Ok((name_of(alloc, fault)?, bytes)),
    }
}

/// `first_item`, of a standalone item.
fn first_standalone(
    alloc: Global,
    bytes: &[u8],
    limit: Option<usize>,
) -> Result<(String, &[u8]), Fail> {
    let answer = match limit {
        Some(limit) => StandaloneItem::from_cbor_with_rest_within(alloc, bytes, limit),
        None => StandaloneItem::from_cbor_with_rest(alloc, bytes),
    };
    match answer {
        Ok((item, rest)) => Ok((item.serialize(alloc)?, rest)),
        Err(fault) => Ok((name_of(alloc, fault)?, bytes)),
    }
}

fn see_first(
    failures: &mut Failures,
    alloc: Global,
    row: &str,
    told: Result<(String, &[u8]), Fail>,
    wanted: (&str, &[u8]),
) -> Result<(), Fail> {
    let (text, rest) = told?;
    failures.row(alloc, row, text.as_str(), wanted.0)?;
    failures.holds(alloc, row, rest == wanted.1)?;
    Ok(())
}

/// Bytes of RFC 8949, section 3, how deep the item may nest that they begin with, its text, and the rest; or the name of the refusal,
/// and all bytes.
const BEGUN: &[(&[u8], Option<usize>, &str, &[u8])] = &[
    (b"\x01\x02\x03", None, "1", b"\x02\x03"),
    (b"\x01\x02\x03", Some(0), "1", b"\x02\x03"),
    (b"\x80\x02", None, "[]", b"\x02"),
    (b"\x80\x02", Some(1), "[]", b"\x02"),
    (b"\x80\x02", Some(0), "TooDeep", b"\x80\x02"),
    (b"\x82\x02", None, "OutOfData", b"\x82\x02"),
];

#[test]
fn answers_the_rest(rt: HostRuntime) -> Result<(), Fail> {
    let alloc = rt.alloc();
    let mut failures = Failures::new(alloc);
    for &(bytes, limit, text, rest) in BEGUN {
        let row = format!(in alloc; "{bytes:?} within {limit:?}")?;
        let told = first_item(alloc, bytes, limit);
        see_first(&mut failures, alloc, row.as_str(), told, (text, rest))?;
        let told = first_standalone(alloc, bytes, limit);
        see_first(&mut failures, alloc, row.as_str(), told, (text, rest))?;
    }
    failures.end()
}

/// The bytes of the item that bytes encode, which may nest so deep, or the name of the refusal.
fn item_again(alloc: Global, bytes: &[u8], limit: usize) -> Result<String, Fail> {
    match Item::from_cbor_within(alloc, bytes, limit) {
        Ok(item) => digits_of(alloc, item.to_cbor(alloc)),
        Err(fault) => name_of(alloc, fault),
    }
}

/// `item_again`, of a standalone item.
fn standalone_again(alloc: Global, bytes: &[u8], limit: usize) -> Result<String, Fail> {
    match StandaloneItem::from_cbor_within(alloc, bytes, limit) {
        Ok(item) => digits_of(alloc, item.to_cbor(alloc)),
        Err(fault) => name_of(alloc, fault),
    }
}

/// `standalone_again`, without a limit of its own.
fn unlimited_again(alloc: Global, bytes: &[u8]) -> Result<String, Fail> {
    match StandaloneItem::from_cbor(alloc, bytes) {
        Ok(item) => digits_of(alloc, item.to_cbor(alloc)),
        Err(fault) => name_of(alloc, fault),
    }
}

/// `item_again`, of a sequence.
fn sequence_again(alloc: Global, bytes: &[u8], limit: usize) -> Result<String, Fail> {
    match Sequence::from_cbor_within(alloc, bytes, limit) {
        Ok(sequence) => digits_of(alloc, sequence.to_cbor(alloc)),
        Err(fault) => name_of(alloc, fault),
    }
}

/// Bytes of RFC 8949, section 3, how deep their item may nest, and the same bytes or the name of the refusal.
const AGAIN: &[(&[u8], usize, &str)] = &[
    (
        b"\x9f\x19\x00\xff\xb8\x02\x01\x38\x00\x03\x80\xff",
        3,
        "9f1900ffb8020138000380ff",
    ),
    (
        b"\x9f\x19\x00\xff\xb8\x02\x01\x38\x00\x03\x80\xff",
        2,
        "TooDeep",
    ),
    (b"\x9f\x01", 1, "OutOfData"),
];

#[test]
fn encodes_items_again(rt: HostRuntime) -> Result<(), Fail> {
    let alloc = rt.alloc();
    let mut failures = Failures::new(alloc);
    for &(bytes, limit, wanted) in AGAIN {
        see_again(&mut failures, alloc, bytes, limit, wanted)?;
    }
    failures.end()
}

fn see_again(
    failures: &mut Failures,
    alloc: Global,
    bytes: &[u8],
    limit: usize,
    wanted: &str,
) -> Result<(), Fail> {
    let row = format!(in alloc; "{bytes:?} within {limit}")?;
    let row = row.as_str();
    failures.told(alloc, row, item_again(alloc, bytes, limit), wanted)?;
    failures.told(alloc, row, standalone_again(alloc, bytes, limit), wanted)?;
    failures.told(alloc, row, sequence_again(alloc, bytes, limit), wanted)
}

#[test]
fn encodes_standalone_items_and_sequences_again(rt: HostRuntime) -> Result<(), Fail> {
    let alloc = rt.alloc();
    let told = unlimited_again(alloc, b"\x82\x01\x81\x80");
    expect_told(alloc, told, "82018180")?;
    let told = sequence_again(alloc, b"\x80\x81\x80", 2);
    expect_told(alloc, told, "808180")
}
