//! Byte strings that are shown as embedded sequences.
use crate::common::sequence_of;
use cbor_edn_application::visits::show_embedded;
use cbor_edn_core::tree::Sequence;
use cbor_edn_expect::boxed;
use cbor_edn_expect::failures::Failures;
use std::alloc::Global;
use std::test::Fail;

/// The bytes of a row, as hexadecimal digits; to how many levels, and within which limit; the text.
type Row = (&'static str, usize, usize, &'static str);

const SIGNATURE: &str =
    "8eb33e4ca31d1c465ab05aac34cc6b23d58fef5c083106c4d25a91aef0b0117e2af9a291aa32e14ab834dc56ed2a223444547e01f11d3b0916e5a4c345cacb36";

/// RFC 9052, appendix C.2.1, without its signature, which `signed` adds; a CWT of RFC 8392; the rest by the rules of RFC 8949 and by
/// `docs/SUPPORTED.md`.
const ROWS: &[Row] = &[
    (
        "d28443a10126a047a1041a6553f1004100",
        8,
        512,
        "18([<<{1: -7}>>, {}, <<{4: 1700000000}>>, h'00'])",
    ),
    ("428201", 8, 512, "h'8201'"),
    ("458143814107", 8, 512, "<<[<<[h'07']>>]>>"),
    ("458143814107", 1, 512, "<<[h'814107']>>"),
    ("458143814107", 0, 512, "h'8143814107'"),
    ("81428101", 8, 3, "[<<[1]>>]"),
    ("81428101", 8, 2, "[h'8101']"),
    ("458143814107", 8, 4, "<<[<<[h'07']>>]>>"),
    ("458143814107", 8, 3, "<<[h'814107']>>"),
    ("44a1180120", 8, 512, "<<{1_0: -1}>>"),
    ("5804a1180120", 8, 512, "<<{1_0: -1}>>_0"),
    ("449f0102ff", 8, 512, "<<[_ 1, 2]>>"),
    ("5f42a1014126ff", 8, 512, "(_ h'a101', h'26')"),
    ("40", 8, 512, "h''"),
    ("5fff", 8, 512, "''_"),
    ("4101", 8, 512, "h'01'"),
    ("426161", 8, 512, "h'6161'"),
    ("41f6", 8, 512, "h'f6'"),
    ("43c1182a", 8, 512, "<<1(42)>>"),
    ("4481f93e00", 8, 512, "h'81f93e00'"),
    ("43810102", 8, 512, "h'810102'"),
    ("41a0", 8, 512, "<<{}>>"),
];

fn shown(alloc: Global, bytes: &[u8], levels: usize, limit: usize) -> Result<String, Fail> {
    let mut sequence = boxed(alloc, Sequence::from_cbor(alloc, bytes))?;
    show_embedded(alloc, levels, limit, &mut sequence)?;
    Ok(sequence.serialize(alloc)?)
}

fn read_back(alloc: Global, text: &str, limit: usize) -> Result<Vec<u8>, Fail> {
    let sequence = boxed(alloc, Sequence::parse_within(alloc, text, limit))?;
    Ok(sequence.to_cbor(alloc)?)
}

fn hold(alloc: Global, failures: &mut Failures, row: Row) -> Result<(), Fail> {
    let (digits, levels, limit, wanted) = row;
    let name = format!(in alloc; "{digits}, {levels} levels within {limit}")?;
    let bytes = hex::decode(alloc, digits)?;
    let told = shown(alloc, &bytes, levels, limit)?;
    failures.row(alloc, name.as_str(), told.as_str(), wanted)?;
    let back = read_back(alloc, &told, limit)?;
    failures.holds(alloc, name.as_str(), back == bytes)?;
    Ok(())
}

#[test]
fn rows(rt: HostRuntime) -> Result<(), Fail> {
    let alloc = rt.alloc();
    let mut failures = Failures::new(alloc);
    for row in ROWS {
        hold(alloc, &mut failures, *row)?;
    }
    failures.end()
}

/// RFC 9052, appendix C.2.1: a signature over the content 'This is the content.', by the key 11.
#[test]
fn signed(rt: HostRuntime) -> Result<(), Fail> {
    let alloc = rt.alloc();
    let digits = format!(in alloc;
        "d28443a10126a10442313154546869732069732074686520636f6e74656e742e5840{SIGNATURE}"
    )?;
    let wanted = format!(in alloc;
        "18([<<{{1: -7}}>>, {{4: h'3131'}}, h'546869732069732074686520636f6e74656e742e', h'{SIGNATURE}'])"
    )?;
    let bytes = hex::decode(alloc, digits.as_str())?;
    let told = shown(alloc, &bytes, 8, 512)?;
    let mut failures = Failures::new(alloc);
    failures.row(alloc, "RFC 9052, C.2.1", told.as_str(), wanted.as_str())?;
    failures.end()
}

/// Texts before and after: any of the four prefixes, and what stays.
const TEXTS: &[(&str, &str)] = &[
    ("b64'oQEm'", "<<{1: -7}>>"),
    ("h'a1 /alg/ 01 26'_0", "<<{1: -7}>>_0"),
    ("[ h'8101' /c/, 1]", "[ <<[1]>> /c/, 1]"),
    ("{h'8101': h'a0'}", "{<<[1]>>: <<{}>>}"),
    ("<<h'8101', 2>>", "<<<<[1]>>, 2>>"),
    ("h'81' + h'01'", "h'81' + h'01'"),
    ("(_ h'8101')", "(_ h'8101')"),
    ("'\\u{81}'", "'\\u{81}'"),
    ("dt'1970-01-01T00:00:42Z'", "dt'1970-01-01T00:00:42Z'"),
    ("h'8'", "h'8'"),
    ("h'a10126'_i", "<<{1: -7}>>_i"),
];

fn shown_text(alloc: Global, text: &str) -> Result<String, Fail> {
    let mut sequence = sequence_of(alloc, text)?;
    show_embedded(alloc, 8, 512, &mut sequence)?;
    Ok(sequence.serialize(alloc)?)
}

#[test]
fn texts(rt: HostRuntime) -> Result<(), Fail> {
    let alloc = rt.alloc();
    let mut failures = Failures::new(alloc);
    for &(text, wanted) in TEXTS {
        let told = shown_text(alloc, text)?;
        failures.row(alloc, text, told.as_str(), wanted)?;
    }
    failures.end()
}
