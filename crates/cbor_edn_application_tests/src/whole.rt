//! Whole visits of a sequence, each once, and how rows are held against them.
use crate::common::sequence_of;
use cbor_edn_application::visits::{
    annotate_claims_sets, comment_languages, comment_tags, prettify, prettify_addresses,
    prettify_bignums, prettify_times, resolve, resolve_addresses, resolve_times, to_999,
};
use cbor_edn_core::tree::Sequence;
use cbor_edn_expect::failures::Failures;
use std::alloc::{AllocError, Global};
use std::test::Fail;

#[derive(Clone, Copy, Debug)]
pub(crate) enum Visit {
    Prettify,
    PrettifyAddresses,
    PrettifyTimes,
    PrettifyBignums,
    Resolve,
    ResolveAddresses,
    ResolveTimes,
    To999,
    CommentTags,
    CommentLanguages,
    AnnotateClaimsSets,
}

fn apply(alloc: Global, sequence: &mut Sequence<'_>, by: Visit) -> Result<(), AllocError> {
    match by {
        Visit::Prettify => prettify(alloc, sequence),
        Visit::PrettifyAddresses => prettify_addresses(alloc, sequence),
        Visit::PrettifyTimes => prettify_times(alloc, sequence),
        Visit::PrettifyBignums => prettify_bignums(alloc, sequence),
        Visit::Resolve => resolve(alloc, sequence),
        Visit::ResolveAddresses => resolve_addresses(alloc, sequence),
        Visit::ResolveTimes => resolve_times(alloc, sequence),
        Visit::To999 => to_999(alloc, sequence),
        Visit::CommentTags => comment_tags(alloc, sequence, "t"),
        Visit::CommentLanguages => comment_languages(alloc, sequence),
        Visit::AnnotateClaimsSets => annotate_claims_sets(alloc, sequence),
    }
}

fn visited(alloc: Global, text: &str, by: Visit) -> Result<String, Fail> {
    let mut sequence = sequence_of(alloc, text)?;
    apply(alloc, &mut sequence, by)?;
    Ok(sequence.serialize(alloc)?)
}

pub(crate) fn expect_rows(alloc: Global, rows: &[(Visit, &str, &str)]) -> Result<(), Fail> {
    let mut failures = Failures::new(alloc);
    for &(by, text, wanted) in rows {
        let row = format!(in alloc; "{by:?} {text}")?;
        let told = visited(alloc, text, by)?;
        failures.row(alloc, row.as_str(), told.as_str(), wanted)?;
    }
    failures.end()
}

const TAGS: &str = "1(42), 52(h'c0000201'), 2(h'010000000000000000')";

const LITERALS: &str = "dt'1970-01-01T00:00:42Z', [<<ip'192.0.2.1'>>]";

/// The same rules as those of the rows of `visited.rt` and `claims.rt`; which items are claims sets, by the repository's `README.md`.
const ROWS: &[(Visit, &str, &str)] = &[
    (
        Visit::Prettify,
        TAGS,
        "DT'1970-01-01T00:00:42+00:00', IP'192.0.2.1', 18446744073709551616",
    ),
    (
        Visit::PrettifyAddresses,
        TAGS,
        "1(42), IP'192.0.2.1', 2(h'010000000000000000')",
    ),
    (
        Visit::PrettifyTimes,
        TAGS,
        "DT'1970-01-01T00:00:42+00:00', 52(h'c0000201'), 2(h'010000000000000000')",
    ),
    (
        Visit::PrettifyBignums,
        TAGS,
        "1(42), 52(h'c0000201'), 18446744073709551616",
    ),
    (Visit::Resolve, LITERALS, "42, [<<h'c0000201'>>]"),
    (
        Visit::ResolveAddresses,
        LITERALS,
        "dt'1970-01-01T00:00:42Z', [<<h'c0000201'>>]",
    ),
    (Visit::ResolveTimes, LITERALS, "42, [<<ip'192.0.2.1'>>]"),
    (
        Visit::To999,
        "foo'bar', h'00'",
        "999([\"foo\", \"bar\"]), h'00'",
    ),
    (Visit::CommentTags, "1(2(3))", "1(2(3)/ t /)/ t /"),
    (
        Visit::CommentLanguages,
        "38([\"he\", \"x\", true])",
        "38([\"he\", \"x\", true/ Right-to-left /])",
    ),
    // each item that is a map, and no map inside another item
    (Visit::AnnotateClaimsSets, "", ""),
    (
        Visit::AnnotateClaimsSets,
        "{1: \"a\"} , [{4: 0}], 24({1: 2}), {1: {4: 0}, 4: 0}",
        "{1/ iss /: \"a\"} , [{4: 0}], 24({1: 2}), {1/ iss /: {4: 0}, 4/ exp /: dt'1970-01-01T00:00:00+00:00'}",
    ),
];

#[test]
fn whole_visits(rt: HostRuntime) -> Result<(), Fail> {
    expect_rows(rt.alloc(), ROWS)
}
