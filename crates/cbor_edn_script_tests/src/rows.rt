//! Sequences after lists of edits: their texts, and the bytes that they mean then.
use crate::common::Step::{
    self, CommentTags, Delimit, Discard, Prettify, Replace, Resolve, TagAt, To999,
};
use crate::common::{encoding, push_edit, see_read_back, sequence_of};
use cbor_edn_core::tree::Sequence;
use cbor_edn_expect::expect_text;
use cbor_edn_expect::failures::Failures;
use cbor_edn_parts::space::policy::DelimiterPolicy;
use cbor_edn_script::{Edit, ScriptError, run};
use std::alloc::Global;
use std::test::Fail;

fn edits_of<'a>(alloc: Global, steps: &[Step<'_>]) -> Result<Vec<Edit<'a>>, Fail> {
    let mut edits: Vec<Edit<'a>> = Vec::new(alloc);
    for &step in steps {
        push_edit(alloc, &mut edits, step)?;
    }
    Ok(edits)
}

/// The sequence of a text behind the edits.
fn edited<'a>(alloc: Global, text: &'a str, steps: &[Step<'_>]) -> Result<Box<Sequence<'a>>, Fail> {
    let mut sequence = sequence_of(alloc, text)?;
    run(alloc, &mut sequence, edits_of(alloc, steps)?)?;
    Ok(sequence)
}

/// Holds the text of a sequence and its bytes against the wanted ones.
fn see_left(
    failures: &mut Failures,
    alloc: Global,
    row: &str,
    sequence: &Sequence<'_>,
    wanted: &str,
    bytes: &str,
) -> Result<(), Fail> {
    let told = sequence.serialize(alloc)?;
    failures.row(alloc, row, told.as_str(), wanted)?;
    let told = encoding(alloc, sequence)?;
    failures.row(alloc, row, told.as_str(), bytes)?;
    Ok(())
}

fn expect_rows(alloc: Global, rows: &[(&str, &[Step<'_>], &str, &str)]) -> Result<(), Fail> {
    let mut failures = Failures::new(alloc);
    for &(text, steps, wanted, bytes) in rows {
        let row = format!(in alloc; "{text} by {steps:?}")?;
        let mut sequence = edited(alloc, text, steps)?;
        see_left(&mut failures, alloc, row.as_str(), &sequence, wanted, bytes)?;
        see_read_back(&mut failures, alloc, row.as_str(), &mut sequence)?;
    }
    failures.end()
}

/// Items that are put where paths lead: their own spaces come with them, and the spaces round them stay. Texts by the words of `Edit`;
/// here and below, bytes by hand, by RFC 8949.
const REPLACED: &[(&str, &[Step<'static>], &str, &str)] = &[
    (
        "[\"a\" 1]",
        &[Replace(&[0, 1], "+1")],
        "[\"a\" +1]",
        "82616101",
    ),
    (
        "[1 2]",
        &[Replace(&[0, 1], "(_ 'x')")],
        "[1 (_ 'x')]",
        "82015f4178ff",
    ),
    (
        "[... 1]",
        &[Replace(&[0, 1], ".5"), Delimit(DelimiterPolicy::DiscardAll)],
        "[...,.5]",
        "UnsupportedLiteral",
    ),
    (
        "[<<1, 2>> + 'x' + <<3>>]",
        &[Replace(&[0, 0, 2], "9")],
        "[<<1, 2>> + 'x' + <<9>>]",
        "814401027809",
    ),
    (
        "{ 1 : 2 ,3:4 } /c/ , 5",
        &[Replace(&[0, 2], "[ 6 ,]"), Replace(&[0, 2, 0], "7")],
        "{ 1 : 2 ,[ 7 ,]:4 } /c/ , 5",
        "a2010281070405",
    ),
    ("simple( 1 )", &[Replace(&[0, 0], "2")], "simple( 1 )", "e1"),
    ("", &[Replace(&[0], "2")], "", ""),
];

/// Tags that are put round items, and paths that lead nowhere. Texts by the words of `Edit`.
const TAGGED: &[(&str, &[Step<'static>], &str, &str)] = &[
    ("[1 2]", &[TagAt(&[0, 1], 24)], "[1 24(2)]", "8201d81802"),
    (
        "[1 2]",
        &[TagAt(&[], 24), Replace(&[0, 2], "9")],
        "[1 2]",
        "820102",
    ),
    (
        "1(0), /c/ [_ 2] /d/",
        &[Discard, TagAt(&[1], 24), TagAt(&[1, 0], 9)],
        "1(0), /c/ 24(9([2])) /d/",
        "c100d818c98102",
    ),
    (
        "(_ <<1>>, <<2 3>>)",
        &[TagAt(&[0, 2], 18446744073709551615)],
        "(_ <<1>>, <<2 18446744073709551615(3)>>)",
        "5f41014b02dbffffffffffffffff03ff",
    ),
];

/// Comments and conversions, which enter embedded sequences, and policies and removal of indicators, which do not, as
/// `docs/DECISIONS.md` says. Literals by `docs/SUPPORTED.md`, tags 999 by the repository's `README.md`.
const VISITED: &[(&str, &[Step<'static>], &str, &str)] = &[
    (
        "1(0), [_ 2]",
        &[CommentTags("t"), Prettify, Discard],
        "DT'1970-01-01T00:00:00+00:00'/ t /, [2]",
        "UnsupportedLiteral",
    ),
    (
        "1(0), [_ 2]",
        &[CommentTags("t"), Prettify, Discard, Resolve],
        "1(0)/ t /, [2]",
        "c1008102",
    ),
    ("<<1(2)>>", &[CommentTags("t")], "<<1(2)/ t />>", "42c102"),
    (
        "<<1(2)>>",
        &[CommentTags("t"), Delimit(DelimiterPolicy::DiscardAll)],
        "<<1(2)/ t />>",
        "42c102",
    ),
    (
        "<<ip'192.0.2.1'>>",
        &[Resolve],
        "<<h'c0000201'>>",
        "4544c0000201",
    ),
    (
        "<<foo'x'>>",
        &[To999],
        "<<999([\"foo\", \"x\"])>>",
        "4ad903e78263666f6f6178",
    ),
    (
        "foo'x'_0 , 2(h'010000000000000000')",
        &[To999, CommentTags("a/b"), Prettify],
        "999([\"foo\", \"x\"])# a/b\n , 18446744073709551616# a/b\n",
        "d903e78263666f6f6178c249010000000000000000",
    ),
    (
        "1([2(h'01' /c/), 52([ 24 , h'c00002'])])",
        &[Prettify, TagAt(&[0, 0, 1], 1), Resolve],
        "1([2(h'01' /c/), 1(52([24, h'c00002']))])/ Numeric value expected for dt'' literal /",
        "c182c24101c1d83482181843c00002",
    ),
    (
        "{_1 /c/ 1: 2_0}, <<[_ 1_0]>>_1",
        &[
            Discard,
            Delimit(DelimiterPolicy::SingleLineRegularSpacing),
            Delimit(DelimiterPolicy::SingleSpace),
        ],
        " { /c/1 : 2 } ,<<[_ 1_0]>> ",
        "a10102449f1801ff",
    ),
];

/// A refusal says how many edits were done.
#[test]
fn words_of_a_refusal(rt: HostRuntime) -> Result<(), Fail> {
    let alloc = rt.alloc();
    let refused = ScriptError { done: 2 };
    let words = refused.to_string(alloc)?;
    expect_text(alloc, words.as_str(), "Out of memory after 2 edits")
}

#[test]
fn replaces(rt: HostRuntime) -> Result<(), Fail> {
    expect_rows(rt.alloc(), REPLACED)
}

#[test]
fn tags(rt: HostRuntime) -> Result<(), Fail> {
    expect_rows(rt.alloc(), TAGGED)
}

#[test]
fn visits(rt: HostRuntime) -> Result<(), Fail> {
    expect_rows(rt.alloc(), VISITED)
}
