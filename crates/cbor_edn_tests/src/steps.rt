//! What the options make of items: each alone, two together in the order of their steps, and literals through both readings.
use crate::commands::{FROM_HEX, TO_DIAG, TO_HEX, served};
use cbor_edn::file_options::CheckOptions;
use cbor_edn::{NESTING_LIMIT, Sequence, option_steps};
use cbor_edn_expect::boxed;
use cbor_edn_expect::failures::Failures;
use std::alloc::Global;
use std::test::Fail;

/// What a run writes, with its status in front where that is not 0.
fn written<'a>(alloc: Global, words: &'a [&'a str], input: &str) -> Result<String, Fail> {
    let (status, written, _) = served(alloc, words, input.as_bytes())?;
    let text = String::from_utf8(written).map_err(|_| Fail::new("what was written is no text"))?;
    if status == 0 {
        Ok(text)
    } else {
        Ok(format!(in alloc; "status {status}: {text}")?)
    }
}

/// Each row has flags, an input, and what a command with these flags writes for it.
fn expect_rows<'a>(
    alloc: Global,
    command: &[&'a str],
    rows: &[(&[&'a str], &str, &str)],
) -> Result<(), Fail> {
    let mut failures = Failures::new(alloc);
    for &(flags, input, wanted) in rows {
        let mut words = Vec::new(alloc);
        words.extend_from_slice(command)?;
        words.extend_from_slice(flags)?;
        let told = written(alloc, &words, input)?;
        let row = format!(in alloc; "{flags:?} {input}")?;
        failures.row(alloc, row.as_str(), told.as_str(), wanted)?;
    }
    failures.end()
}

/// What a text is printed as by words behind the command: each option alone, and each two together. By docs/SUPPORTED.md, the rules of
/// conversions and comments, and those of the policy that indents.
const REPRINTED: &[(&[&str], &str, &str)] = &[
    // each option alone
    (
        &[],
        "[1(0), ip'::1', 2(h'010000000000000000'), foo'x' /c/], {4:0}",
        "[1(0), ip'::1', 18446744073709551616, foo'x'/c/],\n{4: 0}\n",
    ),
    (
        &["--no-bignum-from-tags"],
        "[1(0), ip'::1', 2(h'010000000000000000'), foo'x' /c/], {4:0}",
        "[1(0), ip'::1', 2(h'010000000000000000'), foo'x'/c/],\n{4: 0}\n",
    ),
    (
        &["--annotate-tags"],
        "[1(0), ip'::1', 2(h'010000000000000000'), foo'x' /c/], {4:0}",
        "[DT'1970-01-01T00:00:00+00:00', ip'::1', 18446744073709551616, foo'x'/c/],\n{4: 0}\n",
    ),
    (
        &["--aol-to-item"],
        "[1(0), ip'::1', 2(h'010000000000000000'), foo'x' /c/], {4:0}",
        "[1(0), h'00000000000000000000000000000001', 18446744073709551616, foo'x'/c/],\n{4: 0}\n",
    ),
    (
        &["--apply-999"],
        "[1(0), ip'::1', 2(h'010000000000000000'), foo'x' /c/], {4:0}",
        "[1(0), 999([\"ip\", \"::1\"]), 18446744073709551616, 999([\"foo\", \"x\"])/c/],\n{4: 0}\n",
    ),
    (
        &["--annotate", "ccs"],
        "[1(0), ip'::1', 2(h'010000000000000000'), foo'x' /c/], {4:0}",
        "[1(0), ip'::1', 18446744073709551616, foo'x'/c/],\n{4/ exp /: dt'1970-01-01T00:00:00+00:00'}\n",
    ),
    (
        &["--remove-comments"],
        "[1(0), ip'::1', 2(h'010000000000000000'), foo'x' /c/], {4:0}",
        "[1(0), ip'::1', 18446744073709551616, foo'x'],\n{4: 0}\n",
    ),
    (
        &["--preserve-space"],
        "[1(0), ip'::1', 2(h'010000000000000000'), foo'x' /c/], {4:0}",
        "[1(0), ip'::1', 18446744073709551616, foo'x' /c/], {4:0}",
    ),
    (
        &["--annotate", "ccs"],
        "{4: 1700000000}",
        "{4/ exp /: dt'2023-11-14T22:13:20+00:00'}\n",
    ),
    // literals are resolved behind the tags' annotation
    (&["--annotate-tags", "--aol-to-item"], "1(0)", "1(0)\n"),
    // what the tags became are literals for the steps behind: for tags 999, and for claims, whose times are numbers
    (
        &["--annotate-tags", "--apply-999"],
        "1(0)",
        "999([\"DT\", \"1970-01-01T00:00:00+00:00\"])\n",
    ),
    (
        &["--annotate-tags", "--annotate", "ccs"],
        "{4: 1(0)}",
        "{\n    4/ exp /:DT'1970-01-01T00:00:00+00:00'\n/ Numeric value expected for dt'' literal /}\n",
    ),
    // bignums are no tags of times and addresses
    (
        &["--annotate-tags", "--no-bignum-from-tags"],
        "[1(0), 2(h'010000000000000000')]",
        "[DT'1970-01-01T00:00:00+00:00', 2(h'010000000000000000')]\n",
    ),
    // comments go behind the tags' annotation, and in front of the claims'
    (
        &["--annotate-tags"],
        "52(h'c000')",
        "52(h'c000')\n/ Data too short for address type /",
    ),
    (
        &["--annotate-tags", "--remove-comments"],
        "52(h'c000')",
        "52(h'c000')\n",
    ),
    (
        &["--annotate-tags", "--preserve-space"],
        "52(h'c000')",
        "52(h'c000')/ Data too short for address type /",
    ),
    (
        &["--aol-to-item", "--remove-comments"],
        "dt'x'",
        "dt'x'\n/ DateTime parsing failed /",
    ),
    (
        &["--aol-to-item", "--preserve-space"],
        "dt'x'",
        "dt'x'/ DateTime parsing failed /",
    ),
    (
        &["--annotate", "ccs", "--remove-comments"],
        "{/a/4: 0}",
        "{4/ exp /: dt'1970-01-01T00:00:00+00:00'}\n",
    ),
    // claims come behind the literals, so their times stay literals
    (
        &["--annotate", "ccs", "--aol-to-item"],
        "{4: dt'1970-01-01T00:00:00Z'}",
        "{4/ exp /: dt'1970-01-01T00:00:00+00:00'}\n",
    ),
    // bignums come behind the claims, for which they are no numbers
    (
        &["--annotate", "ccs"],
        "{4: 2(h'010000000000000000')}",
        "{4/ exp /: 18446744073709551616/ Numeric value expected for dt'' literal /}\n",
    ),
    (
        &["--annotate", "ccs", "--no-bignum-from-tags"],
        "{4: 2(h'010000000000000000')}",
        "{4/ exp /: 2(h'010000000000000000')/ Numeric value expected for dt'' literal /}\n",
    ),
    // tags 999 come behind the claims, and behind the literals
    (
        &["--annotate", "ccs", "--apply-999"],
        "{4: 0}",
        "{4/ exp /: 999([\"dt\", \"1970-01-01T00:00:00+00:00\"])}\n",
    ),
    (
        &["--aol-to-item", "--apply-999"],
        "[ip'192.0.2.1', foo'x']",
        "[h'c0000201', 999([\"foo\", \"x\"])]\n",
    ),
    // bignums beside the steps of literals, and beside those of spaces
    (
        &["--aol-to-item", "--no-bignum-from-tags"],
        "[ip'::1', 2(h'010000000000000000')]",
        "[h'00000000000000000000000000000001', 2(h'010000000000000000')]\n",
    ),
    (
        &["--apply-999", "--no-bignum-from-tags"],
        "[foo'x', 2(h'010000000000000000')]",
        "[999([\"foo\", \"x\"]), 2(h'010000000000000000')]\n",
    ),
    (
        &["--no-bignum-from-tags", "--preserve-space"],
        "2(h'010000000000000000') /c/",
        "2(h'010000000000000000') /c/",
    ),
    (
        &["--no-bignum-from-tags", "--remove-comments"],
        "2(h'010000000000000000') /c/",
        "2(h'010000000000000000')\n",
    ),
    // tags 999 beside the steps of spaces, and these two
    (
        &["--apply-999", "--preserve-space"],
        "foo'x' /c/",
        "999([\"foo\", \"x\"]) /c/",
    ),
    (
        &["--apply-999", "--remove-comments"],
        "foo'x' /c/",
        "999([\"foo\", \"x\"])\n",
    ),
    (
        &["--preserve-space", "--remove-comments"],
        " [1 /c/ 2]\n",
        "[1,2]",
    ),
    // only items of the sequence are claims sets, and all that are maps
    (
        &["--annotate", "ccs"],
        "[{4: 0}], {1: \"a\"}, 24({1: 2}), {1: {4: 0}}",
        "[{4: 0}],\n{1/ iss /: \"a\"},\n24({1: 2}),\n{1/ iss /: {4: 0}}\n",
    ),
    (
        &["--annotate=ccs", "--preserve-space"],
        "{8:{4:{3:-17}}}",
        "{8/ cnf /:{4/ osc /:{3/ hkdf /:-17# SHA-512/256\n}}}",
    ),
    // directions of texts
    (
        &["--annotate-tags"],
        "38([\"he\", \"x\", true])",
        "38([\"he\", \"x\", true/ Right-to-left /])\n",
    ),
    // addresses, both ways
    (&["--aol-to-item"], "IP'0.0.0.0/0'", "52([0, h''])\n"),
    (
        &["--aol-to-item"],
        "[ip'2001:db8::1234', IP'127.0.0.0/8']",
        "[h'20010db8000000000000000000001234', 52([8, h'7f'])]\n",
    ),
    (
        &[],
        "[1, 2, 'x', ip'2001:db1::/64']\n",
        "[1, 2, 'x', ip'2001:db1::/64']\n",
    ),
];

/// What bytes, as digits, are shown as: each option alone, and each two together. By RFC 8949, section 3, docs/SUPPORTED.md and the rules
/// of conversions and comments.
const SHOWN: &[(&[&str], &str, &str)] = &[
    (&[], "c249010000000000000000", "18446744073709551616\n"),
    (
        &["--no-bignum-from-tags"],
        "c249010000000000000000",
        "2(h'010000000000000000')\n",
    ),
    (&[], "c11a6553f100", "DT'2023-11-14T22:13:20+00:00'\n"),
    (&["--no-annotate-tags"], "c11a6553f100", "1(1700000000)\n"),
    (&["--aol-to-item"], "c11a6553f100", "1(1700000000)\n"),
    (&[], "d83444c0000201", "IP'192.0.2.1'\n"),
    (
        &["--annotate", "ccs"],
        "a1041a6553f100",
        "{4/ exp /: dt'2023-11-14T22:13:20+00:00'}\n",
    ),
    (&[], "a1041a6553f100", "{4: 1700000000}\n"),
    // two options, of a time in a tag, a bignum, and a claims set
    (
        &["--no-annotate-tags", "--aol-to-item"],
        "82c100c249010000000000000000a10400",
        "[1(0), 18446744073709551616],\n{4: 0}\n",
    ),
    (
        &["--no-annotate-tags", "--no-bignum-from-tags"],
        "82c100c249010000000000000000a10400",
        "[1(0), 2(h'010000000000000000')],\n{4: 0}\n",
    ),
    (
        &["--no-annotate-tags", "--annotate", "ccs"],
        "82c100c249010000000000000000a10400",
        "[1(0), 18446744073709551616],\n{4/ exp /: dt'1970-01-01T00:00:00+00:00'}\n",
    ),
    (
        &["--aol-to-item", "--no-bignum-from-tags"],
        "82c100c249010000000000000000a10400",
        "[1(0), 2(h'010000000000000000')],\n{4: 0}\n",
    ),
    (
        &["--aol-to-item", "--annotate", "ccs"],
        "82c100c249010000000000000000a10400",
        "[1(0), 18446744073709551616],\n{4/ exp /: dt'1970-01-01T00:00:00+00:00'}\n",
    ),
    (
        &["--no-bignum-from-tags", "--annotate", "ccs"],
        "82c100c249010000000000000000a10400",
        "[DT'1970-01-01T00:00:00+00:00', 2(h'010000000000000000')],\n{4/ exp /: dt'1970-01-01T00:00:00+00:00'}\n",
    ),
];

/// What a text is encoded as, in digits: each option alone, and the two together. By RFC 8949, section 3, docs/SUPPORTED.md and the rules
/// of conversions.
const ENCODED: &[(&[&str], &str, &str)] = &[
    (&[], "<<ip'192.0.2.1'>>", "4544c0000201\n"),
    (&["--apply-999"], "<<foo'x'>>", "4ad903e78263666f6f6178\n"),
    (
        &[],
        "[DT'1970-01-01T00:00:00Z', dt'2000-02-29T00:00:00+01:00']",
        "82c1001a38bafdf0\n",
    ),
    (&["--annotate-tags"], "1(0)", "c100\n"),
    // an instant without a fraction becomes an integer, by way of its literal
    (&["--annotate-tags"], "1(1.0)", "c101\n"),
    (&[], "1(1.0)", "status 1: "),
    (
        &["--annotate-tags", "--apply-999"],
        "[1(0), foo'x']",
        "82c100d903e78263666f6f6178\n",
    ),
    // an address becomes bytes, and no tag 999
    (&["--apply-999"], "ip'192.0.2.1'", "44c0000201\n"),
    (&[], "2(h'010000000000000000')", "c249010000000000000000\n"),
];

#[test]
fn reprinted(rt: HostRuntime) -> Result<(), Fail> {
    expect_rows(rt.alloc(), TO_DIAG, REPRINTED)
}

#[test]
fn shown(rt: HostRuntime) -> Result<(), Fail> {
    expect_rows(rt.alloc(), FROM_HEX, SHOWN)
}

#[test]
fn encoded(rt: HostRuntime) -> Result<(), Fail> {
    expect_rows(rt.alloc(), TO_HEX, ENCODED)
}

/// All steps but the last, which would set the spaces.
#[test]
fn taken(rt: HostRuntime) -> Result<(), Fail> {
    let alloc = rt.alloc();
    let check = CheckOptions {
        apply_999: true,
        cbor: false,
        limit: NESTING_LIMIT,
    };
    let text = "[dt'1970-01-01T00:00:42Z' /c/ , foo'x']";
    let mut sequence = boxed(alloc, Sequence::parse(alloc, text))?;
    option_steps::take(alloc, &check.steps(false), &mut sequence)?;
    let left = sequence.serialize(alloc)?;
    let mut failures = Failures::new(alloc);
    failures.row(
        alloc,
        text,
        left.as_str(),
        "[42 /c/ , 999([\"foo\", \"x\"])]",
    )?;
    failures.end()
}

/// Bytes, as digits, that come back from their text. By RFC 8949, section 3, each is well-formed, and docs/SUPPORTED.md has a text for it.
const RETURNED: &[&str] = &[
    "82616101",
    "5f4668656c6c6f2045776f726c64ff",
    "9818000000000000000000000000000000000000000000000000",
    "9f820102ff",
    "5fff",
    "43019fff",
    "f8ff",
    "f4",
    "e4",
    "fb7ff8000000000000",
    "1bffffffffffffffff",
    "3bffffffffffffffff",
    "c249010000000000000000",
    "c349010000000000000000",
    "c250ffffffffffffffffffffffffffffffff",
    "64f09f9880",
    "42ffef",
    "42ff00",
    "4112",
    "190001",
    "00",
    "9f03ff",
    "9b000000000000000103",
    "5b000000000000000568656c6c6f",
    "010203",
    "c11a6553f100",
    "8301181f80",
    "2f",
    "05",
    "01",
    "181f",
    "1818",
    "0102",
    "820102",
    "a10102",
    "bf0102ff",
    "b90000",
    "8101",
    "980101",
    "990000",
    "9f9fffff",
    "2e",
    "1b0000000000000001",
    "00012f",
    "1900ff",
    "3800",
    "9900020102",
    "b8010102",
    "9fff",
    "626162",
    "426162",
    "62c3a9",
    "580161",
    "43016161",
    "420102",
    "4166",
    "40",
    "7f6161ff",
    "7fff",
    "6141",
    "4110",
    "5f4161ff",
    "5f40ff",
    "c102",
    "d80102",
    "dbffffffffffffffff01",
    "f0",
    "f820",
    "f97e00",
    "f97c00",
    "f9fc00",
    "faff800000",
    "fa7f800000",
    "fb7ff0000000000000",
    "d80100",
    "c2420100",
    "e0",
    "83010203",
    "44c0000201",
    "d83444c0000201",
    "4544c0000201",
    "4ad903e78263666f6f6178",
];

#[test]
fn returned(rt: HostRuntime) -> Result<(), Fail> {
    let alloc = rt.alloc();
    let mut failures = Failures::new(alloc);
    for &digits in RETURNED {
        let shown = written(alloc, FROM_HEX, digits)?;
        let encoded = written(alloc, TO_HEX, shown.as_str())?;
        let line = format!(in alloc; "{digits}\n")?;
        failures.row(alloc, digits, encoded.as_str(), line.as_str())?;
    }
    failures.end()
}
