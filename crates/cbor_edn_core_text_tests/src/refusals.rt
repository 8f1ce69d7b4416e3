//! The messages and the locations of refusals.
use crate::common::{cbor_error, encoded, refusal};
use cbor_edn_core::cbor::decode::CborError;
use cbor_edn_expect::failures::Failures;
use cbor_edn_expect::{expect, expect_row};
use cbor_edn_parts::base::error::{InconsistentEdn, ParseError, ParseErrorKind};
use std::alloc::Global;
use std::test::Fail;

/// Where a text is refused: the byte, the line and the column.
type Place = (usize, usize, usize);

fn see_refusal(
    failures: &mut Failures,
    alloc: Global,
    refused: &ParseError,
    place: Place,
    is_deep: bool,
    words: &str,
) -> Result<(), Fail> {
    let told: Place = (refused.offset(), refused.line(), refused.column());
    failures.holds(alloc, words, told == place)?;
    failures.holds(alloc, words, refused.too_deep() == is_deep)?;
    failures.row(alloc, words, refused.to_string(alloc)?.as_str(), words)?;
    Ok(())
}

/// Texts whose items may nest so deep, and where and why they are refused: the locations by `docs/DECISIONS.md`, the messages are
/// this project's choice.
const PLACES: &[(&str, usize, Place, bool, &str)] = &[
    // two lines, and a character of two bytes in front of the fault
    (
        "[1,\n/\u{e9}/ =]",
        9,
        (9, 2, 5),
        false,
        "Invalid EDN in line 2 column 5 (byte 9)",
    ),
    (
        "[[]]",
        1,
        (1, 1, 2),
        true,
        "EDN nested too deeply in line 1 column 2 (byte 1)",
    ),
];

#[test]
fn names_its_place(rt: HostRuntime) -> Result<(), Fail> {
    let alloc = rt.alloc();
    let mut failures = Failures::new(alloc);
    for &(text, limit, place, is_deep, words) in PLACES {
        match refusal(alloc, text, limit)? {
            Some(refused) => {
                see_refusal(&mut failures, alloc, &refused, place, is_deep, words)?;
            }
            None => failures.row(alloc, text, "accepted", words)?,
        }
    }
    failures.end()
}

#[test]
fn words_of_parse_errors(rt: HostRuntime) -> Result<(), Fail> {
    let alloc = rt.alloc();
    let mut failures = Failures::new(alloc);
    let invalid = ParseError::new(ParseErrorKind::Invalid, 7, 2, 3);
    see_refusal(
        &mut failures,
        alloc,
        &invalid,
        (7, 2, 3),
        false,
        "Invalid EDN in line 2 column 3 (byte 7)",
    )?;
    let deep = ParseError::new(ParseErrorKind::TooDeep, 0, 1, 1);
    see_refusal(
        &mut failures,
        alloc,
        &deep,
        (0, 1, 1),
        true,
        "EDN nested too deeply in line 1 column 1 (byte 0)",
    )?;
    failures.end()
}

/// Texts of the grammar in `docs/SUPPORTED.md`, why they mean nothing by it, and the messages for that ("What refusals say").
const INCONSISTENT: &[(&str, InconsistentEdn, &str)] = &[
    (
        "1.0",
        InconsistentEdn::NumberWithoutEncoding,
        "Number has no encoding",
    ),
    (
        "24_i",
        InconsistentEdn::IndicatorDoesNotFit,
        "Encoding indicator does not fit",
    ),
    (
        "simple(24)",
        InconsistentEdn::InvalidSimple,
        "Invalid simple value",
    ),
    (
        "'a'_0 + 'b'",
        InconsistentEdn::IndicatorOnPiece,
        "Encoding indicators present on string expressed in multiple EDN chunks",
    ),
    (
        "e'x'",
        InconsistentEdn::UnsupportedLiteral,
        "Unsupported application oriented literal or ellipsis",
    ),
    (
        "b64'A'",
        InconsistentEdn::UndecodableContent,
        "String content can not be decoded",
    ),
    (
        "\"\" + h'ff'",
        InconsistentEdn::InvalidUtf8,
        "Concatenated text string is not valid UTF-8",
    ),
    (
        "(_ \"a\", 'b')",
        InconsistentEdn::OtherChunk,
        "Chunk of another kind in indefinite length string",
    ),
];

/// Refusals of other calls, and the messages for them, by the same section.
const UNTOLD: &[(InconsistentEdn, &str)] = &[
    (
        InconsistentEdn::InvalidIdentifier,
        "Identifier is not a valid application string identifier",
    ),
    (
        InconsistentEdn::NumericRangeExceeded,
        "Numeric range exceeded",
    ),
];

fn see_words(
    failures: &mut Failures,
    alloc: Global,
    refused: InconsistentEdn,
    words: &str,
) -> Result<(), Fail> {
    failures.row(alloc, words, refused.to_string(alloc)?.as_str(), words)?;
    Ok(())
}

fn see_inconsistent(
    failures: &mut Failures,
    alloc: Global,
    text: &str,
    refused: InconsistentEdn,
) -> Result<(), Fail> {
    let name = format!(in alloc; "{refused:?}")?;
    failures.told(alloc, text, encoded(alloc, text), name.as_str())
}

#[test]
fn words_of_inconsistencies(rt: HostRuntime) -> Result<(), Fail> {
    let alloc = rt.alloc();
    let mut failures = Failures::new(alloc);
    for &(text, refused, words) in INCONSISTENT {
        see_inconsistent(&mut failures, alloc, text, refused)?;
        see_words(&mut failures, alloc, refused, words)?;
    }
    for &(refused, words) in UNTOLD {
        see_words(&mut failures, alloc, refused, words)?;
    }
    failures.end()
}

#[test]
fn words_of_numbers_out_of_range(rt: HostRuntime) -> Result<(), Fail> {
    let alloc = rt.alloc();
    let Err(error) = u8::try_from(256_u16) else {
        return Err(Fail::new("256 in a byte"));
    };
    let words = InconsistentEdn::from(error).to_string(alloc)?;
    expect_row(alloc, "256", words.as_str(), "Numeric range exceeded")
}

/// Bytes, given in digits, why they are no item by RFC 8949, section 3 and appendix F, or out of scope by `docs/SUPPORTED.md`, and
/// the messages for that, which are this project's choice.
const CBOR_ERRORS: &[(&str, CborError, &str)] = &[
    // a count takes no memory before its items are read
    (
        "9bffffffffffffffff00",
        CborError::OutOfData,
        "Expected item, out of data",
    ),
    (
        "bbffffffffffffffff",
        CborError::OutOfData,
        "Expected item, out of data",
    ),
    ("1c", CborError::Reserved, "Reserved header byte"),
    ("1901", CborError::MissingArgument, "Missing argument bytes"),
    (
        "5f6161ff",
        CborError::OtherChunk,
        "Indefinite length strings can only contain matching items",
    ),
    (
        "5f5f4161ffff",
        CborError::OpenChunk,
        "Indefinite length strings can only contain definite lengths",
    ),
    (
        "df",
        CborError::OpenNumber,
        "Integer/Tag with indefinite length encoding is not well-formed",
    ),
    (
        "a1ff",
        CborError::MisplacedBreak,
        "Break code only expected at end of indefinite length items",
    ),
    (
        "bf01ff",
        CborError::MisplacedBreak,
        "Break code only expected at end of indefinite length items",
    ),
    (
        "c1ff",
        CborError::MisplacedBreak,
        "Break code only expected at end of indefinite length items",
    ),
    ("f81f", CborError::InvalidSimple, "Invalid simple value"),
    (
        "f97c01",
        CborError::FloatOutOfScope,
        "Float value out of scope",
    ),
    (
        "5b7fffffffffffffff",
        CborError::MissingBytes,
        "Announced bytes unavailable",
    ),
    (
        "5bffffffffffffffff00",
        CborError::MissingBytes,
        "Announced bytes unavailable",
    ),
    (
        "7f61c361a9ff",
        CborError::InvalidUtf8,
        "Text string must be valid UTF-8",
    ),
    ("010203", CborError::DataAfter, "Data after item"),
];

/// Why bytes, given in digits, are no item, or nothing where they are one.
fn error_of(alloc: Global, digits: &str) -> Result<Option<CborError>, Fail> {
    let bytes = hex::decode(alloc, digits)?;
    cbor_error(alloc, bytes.as_slice())
}

#[test]
fn words_of_cbor_errors(rt: HostRuntime) -> Result<(), Fail> {
    let alloc = rt.alloc();
    let mut failures = Failures::new(alloc);
    for &(digits, refused, words) in CBOR_ERRORS {
        failures.held(alloc, digits, is_refused(alloc, digits, refused))?;
        see_words_of_cbor(&mut failures, alloc, digits, refused, words)?;
    }
    failures.end()
}

fn is_refused(alloc: Global, digits: &str, refused: CborError) -> Result<bool, Fail> {
    Ok(error_of(alloc, digits)? == Some(refused))
}

fn see_words_of_cbor(
    failures: &mut Failures,
    alloc: Global,
    digits: &str,
    refused: CborError,
    words: &str,
) -> Result<(), Fail> {
    failures.holds(alloc, digits, !refused.too_deep())?;
    failures.row(alloc, digits, refused.to_string(alloc)?.as_str(), words)?;
    Ok(())
}

#[test]
fn words_of_nesting_too_deep(rt: HostRuntime) -> Result<(), Fail> {
    let alloc = rt.alloc();
    expect("too deep", CborError::TooDeep.too_deep())?;
    let words = CborError::TooDeep.to_string(alloc)?;
    expect_row(alloc, "too deep", words.as_str(), "Nested too deeply")
}
