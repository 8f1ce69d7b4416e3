//! Single items that are visited with each function, as callers do it: their texts before and after.
use crate::common::standalone_of;
use cbor_edn_application::{
    any_aol_to_tag999, comment_lang_tag, dt_aol_to_item, dt_tag_to_aol, ip_aol_to_item,
    ip_tag_to_aol, tag23_to_edn_integer,
};
use cbor_edn_core::tree::{Item, StandaloneItem};
use cbor_edn_expect::failures::Failures;
use cbor_edn_parts::base::error::CallbackError;
use std::alloc::{AllocError, Global};
use std::test::Fail;

/// The function that a visit calls, by the name that the library gives it.
#[derive(Clone, Copy, Debug)]
enum Function {
    IpTagToAol,
    DtTagToAol,
    Tag23ToEdnInteger,
    CommentLangTag,
    IpAolToItem,
    DtAolToItem,
    AnyAolToTag999,
}

fn at_tag(alloc: Global, by: Function, tag: u64, item: &mut Item<'_>) -> Result<(), CallbackError> {
    match by {
        Function::IpTagToAol => ip_tag_to_aol(alloc, tag, item),
        Function::DtTagToAol => dt_tag_to_aol(alloc, tag, item),
        Function::Tag23ToEdnInteger => tag23_to_edn_integer(alloc, tag, item),
        Function::CommentLangTag => comment_lang_tag(alloc, tag, item),
        _ => Ok(()),
    }
}

fn at_literal(
    alloc: Global,
    by: Function,
    prefix: String,
    text: String,
    item: &mut Item<'_>,
) -> Result<(), CallbackError> {
    match by {
        Function::IpAolToItem => ip_aol_to_item(alloc, prefix, text, item),
        Function::DtAolToItem => dt_aol_to_item(alloc, prefix, text, item),
        Function::AnyAolToTag999 => any_aol_to_tag999(alloc, prefix, text, item),
        _ => Ok(()),
    }
}

fn visit(alloc: Global, by: Function, item: &mut StandaloneItem<'_>) -> Result<(), AllocError> {
    item.visit_tag(alloc, &mut |tag, item| at_tag(alloc, by, tag, item))?;
    item.visit_application_literals(
        alloc,
        &mut |prefix, text, item| { at_literal(alloc, by, prefix, text, item) },
    )
}

fn visited(alloc: Global, by: Function, text: &str) -> Result<String, Fail> {
    let mut item = standalone_of(alloc, text)?;
    visit(alloc, by, &mut item)?;
    Ok(item.serialize(alloc)?)
}

/// RFC 9164, section 3 (addresses), RFC 8949, section 3.4.2 (times, whose literals have texts by RFC 3339) and section 3.4.3 (bignums),
/// RFC 9290, appendix A (directions). The comments and tag 999 are those of `docs/SUPPORTED.md`.
const ROWS: &[(Function, &str, &str)] = &[
    (
        Function::IpTagToAol,
        "54(h'00000000000000000000ffffc0000201')",
        "IP'::ffff:192.0.2.1'",
    ),
    (Function::IpTagToAol, "54([0, h''])", "IP'::/0'"),
    (
        Function::IpTagToAol,
        "52([24, h'c00002'])",
        "IP'192.0.2.0/24'",
    ),
    (
        Function::IpTagToAol,
        "52_1(h'c0000201')",
        "52_1(h'c0000201')/ Conversion would change the encoding /",
    ),
    (
        Function::IpTagToAol,
        "52(h'c000')",
        "52(h'c000')/ Data too short for address type /",
    ),
    (
        Function::IpTagToAol,
        "52([h'c000022a',24])",
        "52([ip'192.0.2.42',24])",
    ),
    (
        Function::IpAolToItem,
        "IP'192.0.2.1/24'",
        "IP'192.0.2.1/24'/ No bits must be set in the address outside the prefix length /",
    ),
    (
        Function::IpAolToItem,
        "ip'10.0.0.0/256'",
        "ip'10.0.0.0/256'/ Prefix is not a (short) number /",
    ),
    (Function::IpAolToItem, "IP'0.0.0.0/0'", "52([0, h''])"),
    (
        Function::IpAolToItem,
        "[ip'2001:db8::1234', IP'127.0.0.0/8']",
        "[h'20010db8000000000000000000001234', 52([8, h'7f'])]",
    ),
    (
        Function::DtTagToAol,
        "1(253402300799)",
        "DT'9999-12-31T23:59:59+00:00'",
    ),
    (
        Function::DtTagToAol,
        "1(-62167219201)",
        "1(-62167219201)/ Value out of range for time stamps /",
    ),
    (
        Function::DtTagToAol,
        "{/now/0: 1(42)}",
        "{/now/0: DT'1970-01-01T00:00:42+00:00'}",
    ),
    (
        Function::DtTagToAol,
        "1(-1.5)",
        "DT'1969-12-31T23:59:58.500+00:00'",
    ),
    (
        Function::DtTagToAol,
        "1(\"x\")",
        "1(\"x\")/ Numeric value expected for dt'' literal /",
    ),
    (
        Function::DtAolToItem,
        "dt'2000-02-29T00:00:00+01:00'",
        "951778800",
    ),
    (
        Function::DtAolToItem,
        "dt'1969-12-31T23:59:59.75Z'",
        "-0.25",
    ),
    (
        Function::DtAolToItem,
        "dt'2001-02-29T00:00:00Z'",
        "dt'2001-02-29T00:00:00Z'/ DateTime parsing failed /",
    ),
    (Function::DtAolToItem, "[dt'1970-01-01T00:00:23Z']", "[23]"),
    (
        Function::DtAolToItem,
        "dt'1969-07-21T02:56:16.5Z'",
        "-14159023.5",
    ),
    (
        Function::Tag23ToEdnInteger,
        "3(h'010000000000000000')",
        "-18446744073709551617",
    ),
    (Function::Tag23ToEdnInteger, "2(h'ff')", "2(h'ff')"),
    (
        Function::Tag23ToEdnInteger,
        "2(h'00010000000000000000')",
        "2(h'00010000000000000000')",
    ),
    (
        Function::CommentLangTag,
        "38([\"he\", \"x\", true])",
        "38([\"he\", \"x\", true/ Right-to-left /])",
    ),
    (
        Function::AnyAolToTag999,
        "foo'bar'",
        "999([\"foo\", \"bar\"])",
    ),
];

#[test]
fn visits_of_one_item(rt: HostRuntime) -> Result<(), Fail> {
    let alloc = rt.alloc();
    let mut failures = Failures::new(alloc);
    for &(by, text, wanted) in ROWS {
        let row = format!(in alloc; "{by:?} {text}")?;
        let told = visited(alloc, by, text)?;
        failures.row(alloc, row.as_str(), told.as_str(), wanted)?;
    }
    failures.end()
}
