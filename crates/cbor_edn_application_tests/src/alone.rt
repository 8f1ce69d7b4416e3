//! Functions that are called alone, at one item.
use crate::common::standalone_of;
use cbor_edn_application::{
    CcsHandler, CnfHandler, IpVersion, OscHandler, all_aol_to_item, all_tag_prettify,
    annotate_message, any_aol_to_tag999, comment_ccs, comment_cose, comment_lang_tag,
    dt_aol_to_item, dt_item_to_aol, dt_tag_to_aol, ip_aol_to_item, ip_item_to_aol, ip_tag_to_aol,
    tag23_to_edn_integer,
};
use cbor_edn_core::tree::Item;
use cbor_edn_core::visit::MapValueHandler;
use cbor_edn_expect::failures::Failures;
use cbor_edn_expect::{expect, expect_text};
use cbor_edn_parts::base::error::{CallbackError, Fault};
use std::alloc::Global;
use std::test::Fail;

/// The text of an answer, or the message of its refusal.
fn text_of(alloc: Global, answer: Result<Item<'_>, Fault<&'static str>>) -> Result<String, Fail> {
    match answer {
        Ok(item) => Ok(item.serialize(alloc)?),
        Err(Fault::Told(words)) => Ok(String::from_str(alloc, words)?),
        Err(Fault::Memory(refused)) => Err(Fail::from(refused)),
    }
}

fn time_of(alloc: Global, text: &str, wrap: bool) -> Result<String, Fail> {
    let item = standalone_of(alloc, text)?;
    text_of(alloc, dt_item_to_aol(alloc, item.item(), wrap))
}

fn address_of(alloc: Global, text: &str, version: IpVersion, wrap: bool) -> Result<String, Fail> {
    let item = standalone_of(alloc, text)?;
    text_of(alloc, ip_item_to_aol(alloc, item.item(), version, wrap))
}

/// Numbers, whether the literal stands for their tag too, and the literal or the message of the refusal: RFC 8949, section 3.4.2, printed
/// as `docs/SUPPORTED.md` says. What is refused has a head that no literal brings back, or is no number.
const TIMES: &[(&str, bool, &str)] = &[
    ("42", false, "dt'1970-01-01T00:00:42+00:00'"),
    ("42", true, "DT'1970-01-01T00:00:42+00:00'"),
    (".5", false, "dt'1970-01-01T00:00:00.500+00:00'"),
    ("1.", false, "dt'1970-01-01T00:00:01+00:00'"),
    ("-25_0", false, "dt'1969-12-31T23:59:35+00:00'"),
    ("42_1", false, "Conversion would change the encoding"),
    ("1(42)", false, "Numeric value expected for dt'' literal"),
];

#[test]
fn times(rt: HostRuntime) -> Result<(), Fail> {
    let alloc = rt.alloc();
    let mut failures = Failures::new(alloc);
    for &(text, wrap, wanted) in TIMES {
        let row = format!(in alloc; "{text}, in its tag: {wrap}")?;
        let told = time_of(alloc, text, wrap)?;
        failures.row(alloc, row.as_str(), told.as_str(), wanted)?;
    }
    failures.end()
}

/// RFC 9164, section 3; `docs/DECISIONS.md` for an array that begins with an address; bytes that are too few for one.
const ADDRESSES: &[(&str, IpVersion, bool, &str)] = &[
    ("h'c0000201'", IpVersion::V4, false, "ip'192.0.2.1'"),
    ("h'c0000201'", IpVersion::V4, true, "IP'192.0.2.1'"),
    ("[8, h'7f']", IpVersion::V4, false, "ip'127.0.0.0/8'"),
    (
        "[h'c000022a', \"eth0\"]",
        IpVersion::V4,
        true,
        "52([ip'192.0.2.42', \"eth0\"])",
    ),
    (
        "[h'c000022a', \"eth0\"]",
        IpVersion::V4,
        false,
        "[ip'192.0.2.42', \"eth0\"]",
    ),
    (
        "h'c0000201'",
        IpVersion::V6,
        false,
        "Data too short for address type",
    ),
];

#[test]
fn addresses(rt: HostRuntime) -> Result<(), Fail> {
    let alloc = rt.alloc();
    let mut failures = Failures::new(alloc);
    for &(text, version, wrap, wanted) in ADDRESSES {
        let row = format!(in alloc; "{text}, {version:?}, in its tag: {wrap}")?;
        let told = address_of(alloc, text, version, wrap)?;
        failures.row(alloc, row.as_str(), told.as_str(), wanted)?;
    }
    failures.end()
}

/// A function of a visit, with the number, or the prefix and the text, that it is called with.
#[derive(Clone, Copy)]
enum Call {
    /// Those of times and of addresses, told what the item is not.
    Others,
    Prettify(u64),
    Bignum(u64),
    Language(u64),
    Message(u64),
    Claims(u64),
    Resolve(&'static str, &'static str),
    Address(&'static str, &'static str),
    Tag999(&'static str, &'static str),
}

fn told_another(alloc: Global, item: &mut Item<'_>) -> Result<(), CallbackError> {
    dt_tag_to_aol(alloc, 1, item)?;
    ip_tag_to_aol(alloc, 54, item)?;
    let prefix = String::from_str(alloc, "ip")?;
    let text = String::from_str(alloc, "1970-01-01T00:00:00Z")?;
    dt_aol_to_item(alloc, prefix, text, item)
}

fn call_at(alloc: Global, call: Call, item: &mut Item<'_>) -> Result<(), CallbackError> {
    match call {
        Call::Others => told_another(alloc, item),
        Call::Prettify(tag) => all_tag_prettify(alloc, tag, item),
        Call::Bignum(tag) => tag23_to_edn_integer(alloc, tag, item),
        Call::Language(tag) => comment_lang_tag(alloc, tag, item),
        Call::Message(tag) => comment_cose(alloc, tag, item),
        Call::Claims(tag) => annotate_message(alloc, tag, item),
        Call::Resolve(prefix, told) => all_aol_to_item(
            alloc,
            String::from_str(alloc, prefix)?,
            String::from_str(alloc, told)?,
            item,
        ),
        Call::Address(prefix, told) => ip_aol_to_item(
            alloc,
            String::from_str(alloc, prefix)?,
            String::from_str(alloc, told)?,
            item,
        ),
        Call::Tag999(prefix, told) => any_aol_to_tag999(
            alloc,
            String::from_str(alloc, prefix)?,
            String::from_str(alloc, told)?,
            item,
        ),
    }
}

/// Fails where there is no item.
fn call_on(
    alloc: Global,
    call: Call,
    item: Option<&mut Item<'_>>,
) -> Result<Result<(), CallbackError>, Fail> {
    match item {
        Some(item) => Ok(call_at(alloc, call, item)),
        None => Err(Fail::new("no item")),
    }
}

/// The text of an item behind a call, or the comment that the call answers.
fn called(alloc: Global, text: &str, call: Call) -> Result<String, Fail> {
    let mut item = standalone_of(alloc, text)?;
    match call_on(alloc, call, item.at_mut(&[]))? {
        Ok(()) => Ok(item.serialize(alloc)?),
        Err(CallbackError::Comment(comment)) => Ok(comment),
        Err(CallbackError::Memory(refused)) => Err(Fail::from(refused)),
    }
}

/// A function that is called with another number than the item's, or another prefix than its own, changes nothing: of tags the rule stands
/// in `docs/DECISIONS.md`.
const OTHER: &[&str] = &[
    "52(h'c0000201')",
    "[1(0)]",
    "42",
    "dt'1970-01-01T00:00:00Z'",
];

#[test]
fn others(rt: HostRuntime) -> Result<(), Fail> {
    let alloc = rt.alloc();
    let mut failures = Failures::new(alloc);
    for &text in OTHER {
        let told = called(alloc, text, Call::Others)?;
        failures.row(alloc, text, told.as_str(), text)?;
    }
    failures.end()
}

/// RFC 8949, sections 3.4.2 and 3.4.3; RFC 9290, appendix A; RFC 9052, section 2; RFC 8392, section 3; RFC 3339, section 5.6; RFC 9164,
/// section 3; tag 999 by the repository's `README.md`.
const CALLS: &[(&str, Call, &str)] = &[
    ("1(42)", Call::Prettify(1), "DT'1970-01-01T00:00:42+00:00'"),
    (
        "2(h'010000000000000000')",
        Call::Bignum(2),
        "18446744073709551616",
    ),
    (
        "38([\"he\", \"x\", true])",
        Call::Language(38),
        "38([\"he\", \"x\", true/ Right-to-left /])",
    ),
    ("18([1])", Call::Message(18), "COSE_Sign1"),
    ("18([1])", Call::Message(17), "18([1])"),
    (
        "17([1, 2, <<{4: 42}>>])",
        Call::Claims(17),
        "17([1, 2, <<{4/ exp /: dt'1970-01-01T00:00:42+00:00'}>>])",
    ),
    (
        "17([1, 2, <<{4: 42}>>])",
        Call::Claims(18),
        "17([1, 2, <<{4: 42}>>])",
    ),
    (
        "dt'1970-01-01T00:00:23Z'",
        Call::Resolve("dt", "1970-01-01T00:00:23Z"),
        "23",
    ),
    (
        "ip'192.0.2.42'",
        Call::Address("ip", "192.0.2.42"),
        "h'c000022a'",
    ),
    (
        "foo'bar'",
        Call::Tag999("foo", "bar"),
        "999([\"foo\", \"bar\"])",
    ),
];

#[test]
fn calls(rt: HostRuntime) -> Result<(), Fail> {
    let alloc = rt.alloc();
    let mut failures = Failures::new(alloc);
    for &(text, call, wanted) in CALLS {
        let told = called(alloc, text, call)?;
        failures.row(alloc, text, told.as_str(), wanted)?;
    }
    failures.end()
}

/// A comment of a callback prints as its text.
#[test]
fn comment_of_a_callback(rt: HostRuntime) -> Result<(), Fail> {
    let alloc = rt.alloc();
    let comment = CallbackError::Comment(String::from_str(alloc, "t")?);
    expect_text(alloc, comment.to_string(alloc)?.as_str(), "t")
}

/// The key of an expiration time is answered its name, and its value is a time.
#[test]
fn key_of_a_claim(rt: HostRuntime) -> Result<(), Fail> {
    let alloc = rt.alloc();
    let mut key = standalone_of(alloc, "4")?;
    let Some(place) = key.at_mut(&[]) else {
        return Err(Fail::new("no key"));
    };
    let (name, handler) = comment_ccs(alloc, place)?;
    expect(
        "name",
        matches!(&name, Some(name) if name.as_str() == "exp"),
    )?;
    expect("handler", matches!(&handler, Some(CcsHandler::Timestamp)))
}

/// A handler of a value.
#[derive(Clone, Copy, Debug)]
enum Handler {
    Claim(CcsHandler),
    Confirmation(CnfHandler),
    Parameter(OscHandler),
}

fn handle(
    alloc: Global,
    by: Handler,
    value: &mut Item<'_>,
) -> Result<Option<String>, CallbackError> {
    match by {
        Handler::Claim(handler) => handler.handle(alloc, value),
        Handler::Confirmation(handler) => handler.handle(alloc, value),
        Handler::Parameter(handler) => handler.handle(alloc, value),
    }
}

/// The comment that a handler answers, or nothing. Fails where there is no value, and where the handler fails.
fn answer_of(
    alloc: Global,
    by: Handler,
    value: Option<&mut Item<'_>>,
) -> Result<Option<String>, Fail> {
    let Some(value) = value else {
        return Err(Fail::new("no value"));
    };
    match handle(alloc, by, value) {
        Ok(comment) => Ok(comment),
        Err(CallbackError::Comment(comment)) => Err(Fail::new(comment)),
        Err(CallbackError::Memory(refused)) => Err(Fail::from(refused)),
    }
}

/// The text of a value behind its handler, and the comment that this answers.
fn handled(alloc: Global, text: &str, by: Handler) -> Result<String, Fail> {
    let mut value = standalone_of(alloc, text)?;
    let comment = answer_of(alloc, by, value.at_mut(&[]))?;
    let mut told = value.serialize(alloc)?;
    if let Some(comment) = comment {
        told.push_str(" ")?;
        told.push_str(comment.as_str())?;
    }
    Ok(told)
}

/// RFC 8392, section 3 (times), RFC 8747, section 3.1, and RFC 9203, section 3.2.1, with names of the IANA registries.
const HANDLED: &[(&str, Handler, &str)] = &[
    (
        "42",
        Handler::Claim(CcsHandler::Timestamp),
        "dt'1970-01-01T00:00:42+00:00'",
    ),
    (
        "{3: h'01', 4: {4: 10}}",
        Handler::Claim(CcsHandler::Cnf),
        "{3/ kid /: h'01', 4/ osc /: {4/ alg /: 10/ AES-CCM-16-64-128 /}}",
    ),
    (
        "{0: h'01', 5: h'02'}",
        Handler::Confirmation(CnfHandler::Osc),
        "{0/ id /: h'01', 5/ salt /: h'02'}",
    ),
    (
        "10",
        Handler::Parameter(OscHandler::Algorithm),
        "10 AES-CCM-16-64-128",
    ),
    ("9", Handler::Parameter(OscHandler::Algorithm), "9"),
];

#[test]
fn handlers(rt: HostRuntime) -> Result<(), Fail> {
    let alloc = rt.alloc();
    let mut failures = Failures::new(alloc);
    for &(text, by, wanted) in HANDLED {
        let row = format!(in alloc; "{by:?} at {text}")?;
        let told = handled(alloc, text, by)?;
        failures.row(alloc, row.as_str(), told.as_str(), wanted)?;
    }
    failures.end()
}
