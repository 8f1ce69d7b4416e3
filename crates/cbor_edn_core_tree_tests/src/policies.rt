//! Spaces by delimiter policies.
use crate::common::{Edit, Made, POLICIES, bare, edited, edited_item, edited_sequence};
use cbor_edn_expect::expect_told;
use cbor_edn_expect::failures::Failures;
use cbor_edn_parts::space::policy::DelimiterPolicy;
use std::alloc::Global;
use std::test::Fail;

fn indented(base_indent: usize, indent_level: usize, max_width: usize) -> DelimiterPolicy {
    DelimiterPolicy::IndentedRegularSpacing {
        base_indent,
        indent_level,
        max_width,
    }
}

/// The text of a standalone item after a policy is the wanted one, and so it is after the same once more.
fn see_laid_out(
    failures: &mut Failures,
    alloc: Global,
    text: &str,
    policy: DelimiterPolicy,
    wanted: &str,
) -> Result<(), Fail> {
    let row = format!(in alloc; "{text} by {policy:?}")?;
    let once = edited(alloc, text, None, &[policy]);
    failures.told(alloc, row.as_str(), once, wanted)?;
    let twice = edited(alloc, text, None, &[policy, policy]);
    failures.told(alloc, row.as_str(), twice, wanted)
}

const SPACED: &str = " [ 1 , 2 /c/ , ] ";

/// Texts, a policy, and the texts by it: by hand from the table of `parts/specs/Spacing.antt`.
const LAID_OUT: &[(&str, DelimiterPolicy, &str)] = &[
    (SPACED, DelimiterPolicy::DiscardAll, "[1,2]"),
    (SPACED, DelimiterPolicy::DiscardAllButComments, "[1,2/c/]"),
    (
        SPACED,
        DelimiterPolicy::SingleLineRegularSpacing,
        "[1, 2/c/]",
    ),
    (SPACED, DelimiterPolicy::SingleSpace, " [ 1 ,2 /c/] "),
    ("1 # c\n", DelimiterPolicy::DiscardAll, "1"),
    ("\r/c/\r0", DelimiterPolicy::DiscardAllButComments, "/c/0"),
];

#[test]
fn items_are_laid_out(rt: HostRuntime) -> Result<(), Fail> {
    let alloc = rt.alloc();
    let mut failures = Failures::new(alloc);
    for &(text, policy, wanted) in LAID_OUT {
        see_laid_out(&mut failures, alloc, text, policy, wanted)?;
    }
    failures.end()
}

/// Texts, an indent, a level and a width, and the texts by these: by hand from the same table and `parts/specs/LayoutColumns.antt`.
const INDENTED: &[(&str, (usize, usize, usize), &str)] = &[
    (SPACED, (0, 2, 10), "[1, 2/c/]"),
    (SPACED, (0, 2, 9), "[\n  1,\n  2\n/c/]"),
    ("'a'+'b'", (0, 4, 0), "'a'\n    +'b'"),
    ("(_ 'a', 'b')", (0, 4, 0), "(_\n    'a',\n    'b'\n)"),
    ("[_ 1]", (0, 4, 0), "[_ \n    1\n]"),
    ("{1:2}", (0, 4, 0), "{\n    1:2\n}"),
];

#[test]
fn items_are_indented(rt: HostRuntime) -> Result<(), Fail> {
    let alloc = rt.alloc();
    let mut failures = Failures::new(alloc);
    for &(text, (base, level, width), wanted) in INDENTED {
        let policy = indented(base, level, width);
        see_laid_out(&mut failures, alloc, text, policy, wanted)?;
    }
    failures.end()
}

/// Texts, and the texts on a single line, by the same two.
const REGULAR: &[(&str, &str)] = &[
    ("1 # c\n", "1# c\n"),
    ("{1:2}", "{1: 2}"),
    (
        "{ / x / 1: 4, / y / 2: 3_i, / and diagonal is 5 / }",
        "{/ x /1: 4, / y /2: 3_i/ and diagonal is 5 /}",
    ),
    ("'a'+'b'", "'a' + 'b'"),
    ("(_ 'a'+'b')", "(_ 'a'+'b')"),
];

#[test]
fn lines_are_regular(rt: HostRuntime) -> Result<(), Fail> {
    let alloc = rt.alloc();
    let mut failures = Failures::new(alloc);
    let policy = DelimiterPolicy::SingleLineRegularSpacing;
    for &(text, wanted) in REGULAR {
        see_laid_out(&mut failures, alloc, text, policy, wanted)?;
    }
    failures.end()
}

#[test]
fn sequences_are_laid_out(rt: HostRuntime) -> Result<(), Fail> {
    let alloc = rt.alloc();
    let lines = indented(2, 4, 80);
    let told = edited_sequence(alloc, " 1 2", Edit::LaidOut(lines));
    expect_told(alloc, told, "1,\n  2\n  ")?;
    let told = edited_sequence(alloc, " ", Edit::LaidOut(DelimiterPolicy::DiscardAll));
    expect_told(alloc, told, "")?;
    let told = edited_sequence(alloc, " ", Edit::LaidOut(lines));
    expect_told(alloc, told, "")
}

/// Bytes, an indent, a level and a width, and the text of the item by these: by hand from the same two.
const DECODED_INDENTED: &[(&[u8], (usize, usize, usize), &str)] = &[
    (b"\x82\x01\x02", (0, 4, 0), "[\n    1,\n    2\n]"),
    (
        b"\xc1\x82\x01\x02",
        (0, 4, 0),
        "1([\n        1,\n        2\n    ])",
    ),
    (b"\x01", (usize::MAX, 4, 80), "1"),
];

/// Bytes, a policy, and the text of the item by it: by hand from the same two.
const DECODED: &[(&[u8], DelimiterPolicy, &str)] = &[
    (b"\x82\x01\x02", DelimiterPolicy::SingleSpace, "[ 1 ,2 ]"),
    (
        b"\x82\x01\xa1\x02\x03",
        DelimiterPolicy::SingleLineRegularSpacing,
        "[1, {2: 3}]",
    ),
];

#[test]
fn decoded_items_are_laid_out(rt: HostRuntime) -> Result<(), Fail> {
    let alloc = rt.alloc();
    let mut failures = Failures::new(alloc);
    for &(bytes, policy, wanted) in DECODED {
        see_decoded(&mut failures, alloc, bytes, policy, wanted)?;
    }
    for &(bytes, (base, level, width), wanted) in DECODED_INDENTED {
        let policy = indented(base, level, width);
        see_decoded(&mut failures, alloc, bytes, policy, wanted)?;
    }
    failures.end()
}

fn see_decoded(
    failures: &mut Failures,
    alloc: Global,
    bytes: &[u8],
    policy: DelimiterPolicy,
    wanted: &str,
) -> Result<(), Fail> {
    let row = format!(in alloc; "{bytes:?} by {policy:?}")?;
    let told = edited_item(alloc, Made::Decoded(bytes), Edit::LaidOut(policy));
    failures.told(alloc, row.as_str(), told, wanted)
}

/// Texts, an indent, a level and a width of lines that no machine has memory for, and the texts' items, which stay by
/// `docs/DECISIONS.md`.
const ENDLESS: &[(&str, (usize, usize, usize), &str)] = &[
    ("[[1]]", (0, usize::MAX, 0), "[[1]]"),
    ("[1]", (usize::MAX, 4, 80), "[1]"),
    ("1, 2", (usize::MAX, 4, 80), "1,2"),
];

/// Bytes of one item, with `ENDLESS`' columns.
const DECODED_ENDLESS: &[(&[u8], (usize, usize, usize), &str)] = &[
    (b"\x81\x01", (usize::MAX, 4, 80), "[1]"),
    (b"\x81\x81\x01", (0, usize::MAX, 0), "[[1]]"),
    (b"\xa1\x01\x80", (usize::MAX, usize::MAX, 0), "{1:[]}"),
];

#[test]
fn greatest_indents_are_refused(rt: HostRuntime) -> Result<(), Fail> {
    let alloc = rt.alloc();
    let mut failures = Failures::new(alloc);
    for &(text, (base, level, width), items) in ENDLESS {
        let told = items_left(alloc, text, indented(base, level, width));
        failures.told(alloc, text, told, items)?;
    }
    for &(bytes, (base, level, width), items) in DECODED_ENDLESS {
        let told = decoded_items_left(alloc, bytes, indented(base, level, width));
        failures.told(alloc, items, told, items)?;
    }
    failures.end()
}

/// The items of a text for whose spaces there was no memory.
fn items_left(alloc: Global, text: &str, policy: DelimiterPolicy) -> Result<String, Fail> {
    let left = edited_sequence(alloc, text, Edit::Refused(policy))?;
    bare(alloc, left.as_str())
}

fn decoded_items_left(
    alloc: Global,
    bytes: &[u8],
    policy: DelimiterPolicy,
) -> Result<String, Fail> {
    let left = edited_item(alloc, Made::Decoded(bytes), Edit::Refused(policy))?;
    bare(alloc, left.as_str())
}

/// The characters that may need care in a comment: those below U+0020, and the slash.
const CHARACTERS: &str =
    "\0\u{1}\u{2}\u{3}\u{4}\u{5}\u{6}\u{7}\u{8}\t\n\u{b}\u{c}\r\u{e}\u{f}\u{10}\u{11}\u{12}\u{13}\u{14}\u{15}\u{16}\u{17}\u{18}\u{19}\u{1a}\u{1b}\u{1c}\u{1d}\u{1e}\u{1f}/";

/// Each of them, and none, stays a comment under the policy.
fn see_comments_stay(
    failures: &mut Failures,
    alloc: Global,
    policy: DelimiterPolicy,
) -> Result<(), Fail> {
    for at in 0..=CHARACTERS.len() {
        let comment = CHARACTERS
            .get(at..(at + 1).min(CHARACTERS.len()))
            .unwrap_or("");
        see_comment_stays(failures, alloc, comment, policy)?;
    }
    Ok(())
}

fn see_comment_stays(
    failures: &mut Failures,
    alloc: Global,
    comment: &str,
    policy: DelimiterPolicy,
) -> Result<(), Fail> {
    let row = format!(in alloc; "{comment} by {policy:?}")?;
    failures.told(
        alloc,
        row.as_str(),
        items_behind(alloc, comment, policy),
        "0",
    )
}

/// The items of a text of one behind a comment and the spaces of a policy.
fn items_behind(alloc: Global, comment: &str, policy: DelimiterPolicy) -> Result<String, Fail> {
    let text = edited(alloc, "0", Some(comment), &[policy])?;
    bare(alloc, text.as_str())
}

#[test]
fn comments_stay_comments(rt: HostRuntime) -> Result<(), Fail> {
    let alloc = rt.alloc();
    let mut failures = Failures::new(alloc);
    for &policy in POLICIES {
        see_comments_stay(&mut failures, alloc, policy)?;
    }
    failures.end()
}
