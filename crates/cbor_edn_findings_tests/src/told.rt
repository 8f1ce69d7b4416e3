//! The lines that tell of what is at fault in an input. Places of texts were counted by hand; those of bytes are of the heads that RFC 8949
//! and its appendix F refuse.
use cbor_edn::NESTING_LIMIT;
use cbor_edn::engine::{Command, Options};
use cbor_edn_expect::failures::Failures;
use cbor_edn_findings::finding::in_input;
use cbor_edn_findings::shown::lines;
use std::alloc::{AllocError, Global};
use std::test::Fail;

fn options(command: Command, apply_999: bool) -> Options {
    Options {
        command,
        hex: false,
        annotate_tags: false,
        apply_999,
        aol_to_item: true,
        bignum_from_tags: false,
        annotate_ccs: false,
        remove_comments: false,
        preserve_space: false,
        limit: NESTING_LIMIT,
    }
}

/// What is told of an input of a file `f`.
fn told(alloc: Global, options: &Options, input: &[u8]) -> Result<String, AllocError> {
    match in_input(alloc, options, input)? {
        Some(finding) => lines(alloc, "f", input, &finding),
        None => Ok(String::new(alloc)),
    }
}

const TEXTS: &[(&str, &str)] = &[
    ("[1, 2]\n", ""),
    ("", ""),
    ("[\n  1,\n  2,, 3]", "f:3:5: Invalid EDN\n  2,, 3]\n    ^\n"),
    (
        "\"\t\" \"\u{1b}\"",
        "f:1:2: Invalid EDN\n\" \" \"<U+001B>\"\n ^\n",
    ),
    // what turns text, in front of the place
    (
        "[\"\u{61c}\u{ad}\", 1.5]",
        "f:1:8: Number has no encoding\n[\"<U+061C><U+00AD>\", 1.5]\n                     ^\n",
    ),
    (
        "{1: dt'1970-01-01T00:00:23Z',\n 2: [3, <<4, 1.5>>]}\n",
        "f:2:14: Number has no encoding\n 2: [3, <<4, 1.5>>]}\n             ^\n",
    ),
    (
        "foo'bar'",
        "f:1:1: Unsupported application oriented literal or ellipsis\nfoo'bar'\n^\n",
    ),
    (
        "['\u{fc}', 1.5]",
        "f:1:7: Number has no encoding\n['\u{fc}', 1.5]\n      ^\n",
    ),
];

#[test]
fn texts(rt: HostRuntime) -> Result<(), Fail> {
    let alloc = rt.alloc();
    let mut failures = Failures::new(alloc);
    let options = options(Command::Diag2Cbor, false);
    for (text, wanted) in TEXTS {
        let answer = told(alloc, &options, text.as_bytes())?;
        failures.row(alloc, text, &answer, wanted)?;
    }
    failures.end()
}

#[test]
fn literals_in_tags(rt: HostRuntime) -> Result<(), Fail> {
    let alloc = rt.alloc();
    let mut failures = Failures::new(alloc);
    let answer = told(alloc, &options(Command::Diag2Cbor, true), b"foo'bar'")?;
    failures.row(alloc, "foo'bar'", &answer, "")?;
    let answer = told(alloc, &options(Command::Diag2Cbor, false), b"a\xff")?;
    failures.row(alloc, "a ff", &answer, "f:1:2: Not UTF-8\na\n ^\n")?;
    failures.end()
}

/// Bytes in digits, and what is told of them: RFC 8949, section 3 and appendix F. The byte is that of the head that is refused.
const BYTES: &[(&str, &str)] = &[
    ("8201", "f: Expected item, out of data (byte 2)\n"),
    ("820102", ""),
    ("636162", "f: Announced bytes unavailable (byte 0)\n"),
    (
        "01820162fffe",
        "f: Text string must be valid UTF-8 (byte 3)\n",
    ),
    ("811c", "f: Reserved header byte (byte 1)\n"),
    ("19ff", "f: Missing argument bytes (byte 0)\n"),
    ("0182f818", "f: Invalid simple value (byte 2)\n"),
    ("a101f93c00", "f: Float value out of scope (byte 2)\n"),
    (
        "df",
        "f: Integer/Tag with indefinite length encoding is not well-formed (byte 0)\n",
    ),
    (
        "80a0f6c100ff",
        "f: Break code only expected at end of indefinite length items (byte 5)\n",
    ),
    (
        "bf00ff",
        "f: Break code only expected at end of indefinite length items (byte 2)\n",
    ),
    (
        "9fbf0001ff81a00100ffff",
        "f: Break code only expected at end of indefinite length items (byte 10)\n",
    ),
    (
        "5f414061ffff",
        "f: Indefinite length strings can only contain matching items (byte 3)\n",
    ),
    (
        "5f41005f",
        "f: Indefinite length strings can only contain definite lengths (byte 3)\n",
    ),
    (
        "7f62c3bc61ffff",
        "f: Text string must be valid UTF-8 (byte 4)\n",
    ),
    ("9f01", "f: Expected item, out of data (byte 2)\n"),
];

#[test]
fn bytes(rt: HostRuntime) -> Result<(), Fail> {
    let alloc = rt.alloc();
    let mut failures = Failures::new(alloc);
    let options = options(Command::Cbor2Diag, false);
    for (digits, wanted) in BYTES {
        let input = hex::decode(alloc, digits)?;
        let answer = told(alloc, &options, &input)?;
        failures.row(alloc, digits, &answer, wanted)?;
    }
    failures.end()
}
