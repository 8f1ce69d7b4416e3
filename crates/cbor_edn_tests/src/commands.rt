//! The three commands, as their words ask for them: outputs, fault lines, limits and statuses.
use cbor_edn::engine::{StdSink, StdSource, serve};
use cbor_edn::words::options;
use cbor_edn_expect::expect;
use cbor_edn_expect::failures::Failures;
use std::alloc::Global;
use std::test::Fail;

/// What a run by these words answers: its status, what it writes and what it tells. Where the words are no run, the status that they
/// have, and nothing else.
pub(crate) fn served<'a>(
    alloc: Global,
    words: &'a [&'a str],
    input: &[u8],
) -> Result<(u8, Vec<u8>, Vec<u8>), Fail> {
    let mut sink = StdSink::new(Vec::new(alloc));
    let mut errors = StdSink::new(Vec::new(alloc));
    let status = match options(alloc, words) {
        Ok((options, _, _)) => serve(
            alloc,
            &options,
            &mut StdSource::new(input),
            &mut sink,
            &mut errors,
        ),
        Err(error) => u8::try_from(error.exit_code()).unwrap_or(u8::MAX),
    };
    Ok((status, sink.into_inner(), errors.into_inner()))
}

/// Whether a run ends well and writes this.
fn writes<'a>(
    alloc: Global,
    words: &'a [&'a str],
    input: &str,
    output: &[u8],
) -> Result<bool, Fail> {
    let (status, written, told) = served(alloc, words, input.as_bytes())?;
    Ok(status == 0 && written.as_slice() == output && told.is_empty())
}

/// Whether a run ends with a fault that has this line, and writes nothing.
fn tells<'a>(alloc: Global, words: &'a [&'a str], input: &[u8], line: &str) -> Result<bool, Fail> {
    let (status, written, told) = served(alloc, words, input)?;
    Ok(status == 1 && written.is_empty() && told.as_slice() == line.as_bytes())
}

const TO_CBOR: &[&str] = &["cbor-edn", "diag2cbor"];

pub(crate) const TO_HEX: &[&str] = &["cbor-edn", "diag2cbor", "-o", "hex"];

const FROM_CBOR: &[&str] = &["cbor-edn", "cbor2diag"];

pub(crate) const FROM_HEX: &[&str] = &["cbor-edn", "cbor2diag", "-i", "hex"];

pub(crate) const TO_DIAG: &[&str] = &["cbor-edn", "diag2diag"];

/// Words, an input, and what a run writes that ends well.
type Written = (&'static [&'static str], &'static str, &'static [u8]);

fn all_write(alloc: Global, rows: &[Written]) -> Result<(), Fail> {
    let mut failures = Failures::new(alloc);
    for &(words, input, output) in rows {
        failures.held(alloc, input, writes(alloc, words, input, output))?;
    }
    failures.end()
}

/// Words, an input, and the line of the fault.
type Told = (&'static [&'static str], &'static [u8], &'static str);

fn all_tell(alloc: Global, rows: &[Told]) -> Result<(), Fail> {
    let mut failures = Failures::new(alloc);
    for &(words, input, line) in rows {
        failures.held(alloc, line, tells(alloc, words, input, line))?;
    }
    failures.end()
}

#[test]
fn encodes(rt: HostRuntime) -> Result<(), Fail> {
    all_write(
        rt.alloc(),
        &[
            (TO_CBOR, "[1, 0x1f, []]\n", b"\x83\x01\x18\x1f\x80"),
            (TO_HEX, "", b""),
            (TO_HEX, "[_ 3]", b"9f03ff\n"),
            (
                &["cbor-edn", "diag2cbor", "--output-format", "hex"],
                "[_ 3]",
                b"9f03ff\n",
            ),
            (
                &["cbor-edn", "diag2cbor", "--output-format=binary"],
                "[_ 3]",
                b"\x9f\x03\xff",
            ),
            (
                &["cbor-edn", "diag2cbor", "-oauto"],
                "[_ 3]",
                b"\x9f\x03\xff",
            ),
        ],
    )
}

/// A line has 64 digits: 31 bytes and their head of two make one that is full, and one more byte.
#[test]
fn encodes_in_lines(rt: HostRuntime) -> Result<(), Fail> {
    all_write(
        rt.alloc(),
        &[
            (
                TO_HEX,
                "'aaaaaaaaaaaaaaaaaaaaaaaaaaaaaaa'",
                b"581f616161616161616161616161616161616161616161616161616161616161\n61\n",
            ),
            (
                TO_HEX,
                "'aaaaaaaaaaaaaaaaaaaaaaaaaaaaaa'",
                b"581e616161616161616161616161616161616161616161616161616161616161\n",
            ),
        ],
    )
}

#[test]
fn decodes(rt: HostRuntime) -> Result<(), Fail> {
    all_write(
        rt.alloc(),
        &[
            (FROM_HEX, "83 0102\n03", b"[1, 2, 3]\n"),
            (FROM_HEX, "9F\t03\r\n fF", b"[_ 3]\n"),
            (FROM_CBOR, "\x01\x02", b"1,\n2\n"),
            (FROM_CBOR, "", b""),
            (FROM_HEX, " \n", b""),
        ],
    )
}

/// Bytes that are no text in UTF-8, and what they are shown as, by docs/SUPPORTED.md ("Times and addresses").
const SHOWN_BYTES: &[(&[u8], &str)] = &[
    (
        b"\xc2\x49\x01\x00\x00\x00\x00\x00\x00\x00\x00",
        "18446744073709551616\n",
    ),
    (
        b"\xc1\x1a\x65\x53\xf1\x00",
        "DT'2023-11-14T22:13:20+00:00'\n",
    ),
];

#[test]
fn decodes_bytes(rt: HostRuntime) -> Result<(), Fail> {
    let alloc = rt.alloc();
    let mut failures = Failures::new(alloc);
    for &(bytes, wanted) in SHOWN_BYTES {
        let (status, written, told) = served(alloc, FROM_CBOR, bytes)?;
        let holds = status == 0 && written.as_slice() == wanted.as_bytes() && told.is_empty();
        failures.holds(alloc, wanted, holds)?;
    }
    failures.end()
}

#[test]
fn sets_spaces(rt: HostRuntime) -> Result<(), Fail> {
    all_write(
        rt.alloc(),
        &[
            (
                TO_DIAG,
                "[1, 2, 'x', ip'2001:db1::/64']\n",
                b"[1, 2, 'x', ip'2001:db1::/64']\n",
            ),
            (
                &["cbor-edn", "diag2diag", "--remove-comments"],
                "[1 /c/, 2]\n",
                b"[1, 2]\n",
            ),
            (
                &["cbor-edn", "diag2diag", "--preserve-space"],
                "[1,2]\n",
                b"[1,2]\n",
            ),
            (
                &[
                    "cbor-edn",
                    "diag2diag",
                    "--preserve-space",
                    "--remove-comments",
                ],
                " [1 /c/ 2]\n",
                b"[1,2]",
            ),
        ],
    )
}

#[test]
fn tells_faults(rt: HostRuntime) -> Result<(), Fail> {
    all_tell(
        rt.alloc(),
        &[
            (
                TO_CBOR,
                b"1.0",
                "cbor-edn: Error encoding output data: Number has no encoding\n",
            ),
            (TO_DIAG, b"\xff", "cbor-edn: Error processing input file\n"),
            (
                TO_DIAG,
                b"[,]",
                "cbor-edn: Error parsing input data: Invalid EDN in line 1 column 2 (byte 1)\n",
            ),
            (
                FROM_CBOR,
                b"\x19\x01",
                "cbor-edn: Error decoding input data: Missing argument bytes\n",
            ),
        ],
    )
}

/// No pairs of hexadecimal digits (`specs/Hexadecimal.antt` of `cbor_edn_command`): an odd count of them, and a letter that is none.
const NO_DIGITS: &[&str] = &["123", "1g"];

#[test]
fn tells_digits(rt: HostRuntime) -> Result<(), Fail> {
    let alloc = rt.alloc();
    let line = "cbor-edn: Error decoding hexadecimal input\n";
    let mut failures = Failures::new(alloc);
    for &digits in NO_DIGITS {
        let told = tells(alloc, FROM_HEX, digits.as_bytes(), line)?;
        failures.holds(alloc, digits, told)?;
    }
    failures.end()
}

/// The line of a text whose first opening past the limit is so many bytes behind its beginning.
fn deep_text(alloc: Global, at: usize) -> Result<String, Fail> {
    let words = "cbor-edn: Error parsing input data: EDN nested too deeply in line 1 column";
    let column = at.saturating_add(1);
    Ok(format!(in alloc; "{words} {column} (byte {at})\n")?)
}

/// Whether a run tells that a text nests too deeply, and where.
fn tells_depth<'a>(
    alloc: Global,
    words: &'a [&'a str],
    input: &str,
    at: usize,
) -> Result<bool, Fail> {
    let line = deep_text(alloc, at)?;
    tells(alloc, words, input.as_bytes(), line.as_str())
}

const DEEP_BYTES: &str = "cbor-edn: Error decoding input data: Nested too deeply\n";

fn arrays(alloc: Global, depth: usize) -> Result<String, Fail> {
    let mut text = "[".repeat(alloc, depth)?;
    text.push_str("]".repeat(alloc, depth)?.as_str())?;
    Ok(text)
}

/// Arrays of one entry, each on a line of its own, and the empty one inside.
fn indented_arrays(alloc: Global, depth: usize) -> Result<String, Fail> {
    let mut text = String::new(alloc);
    for level in 1..depth {
        let indent = "    ".repeat(alloc, level)?;
        text.push_str("[\n")?;
        text.push_str(indent.as_str())?;
    }
    text.push_str("[]\n")?;
    for level in (1..depth).rev() {
        let indent = "    ".repeat(alloc, level - 1)?;
        text.push_str(indent.as_str())?;
        text.push_str("]\n")?;
    }
    Ok(text)
}

const ONE: &[&str] = &["cbor-edn", "diag2diag", "--max-nesting", "1"];

/// Texts, and where they nest deeper than one level.
const DEEP_TEXTS: &[(&str, usize)] = &[("[[]]", 1), ("[simple(20)]", 7), ("<<[1]>>", 2)];

#[test]
fn limits_texts(rt: HostRuntime) -> Result<(), Fail> {
    let alloc = rt.alloc();
    let mut failures = Failures::new(alloc);
    for &(text, at) in DEEP_TEXTS {
        failures.held(alloc, text, tells_depth(alloc, ONE, text, at))?;
    }
    failures.end()
}

fn shows_the_deepest_text(alloc: Global) -> Result<bool, Fail> {
    let nested = arrays(alloc, 512)?;
    let shown = indented_arrays(alloc, 512)?;
    writes(alloc, TO_DIAG, &nested, shown.as_bytes())
}

fn tells_of_deeper_text(alloc: Global) -> Result<bool, Fail> {
    let deeper = arrays(alloc, 513)?;
    tells_depth(alloc, TO_CBOR, &deeper, 512)
}

fn tells_of_open_text(alloc: Global) -> Result<bool, Fail> {
    let open = "[".repeat(alloc, 100_000)?;
    tells_depth(alloc, TO_DIAG, &open, 512)
}

#[test]
fn limits_texts_to_512(rt: HostRuntime) -> Result<(), Fail> {
    let alloc = rt.alloc();
    expect("512 arrays", shows_the_deepest_text(alloc)?)?;
    expect("513 arrays", tells_of_deeper_text(alloc)?)?;
    expect("100,000 open arrays", tells_of_open_text(alloc)?)
}

const ONE_HEX: &[&str] = &[
    "cbor-edn",
    "cbor2diag",
    "--input-format",
    "hex",
    "--max-nesting",
    "1",
];

const NONE_HEX: &[&str] = &["cbor-edn", "cbor2diag", "--max-nesting", "0", "-i", "hex"];

#[test]
fn takes_what_nests_as_deep_as_it_may(rt: HostRuntime) -> Result<(), Fail> {
    all_write(
        rt.alloc(),
        &[
            (
                &["cbor-edn", "diag2cbor", "--max-nesting=2"],
                "[[]]",
                b"\x81\x80",
            ),
            (ONE_HEX, "81f4", b"[false]\n"),
            (NONE_HEX, "01", b"1\n"),
        ],
    )
}

#[test]
fn limits_bytes(rt: HostRuntime) -> Result<(), Fail> {
    all_tell(
        rt.alloc(),
        &[
            (ONE_HEX, b"81e4", DEEP_BYTES),
            (NONE_HEX, b"80", DEEP_BYTES),
        ],
    )
}

/// The digits of arrays of one entry, so many, and the empty one inside.
fn array_digits(alloc: Global, around: usize) -> Result<String, Fail> {
    let nested = "81".repeat(alloc, around)?;
    Ok(format!(in alloc; "{nested}80")?)
}

fn shows_the_deepest_bytes(alloc: Global) -> Result<bool, Fail> {
    let nested = array_digits(alloc, 511)?;
    let shown = indented_arrays(alloc, 512)?;
    writes(alloc, FROM_HEX, &nested, shown.as_bytes())
}

fn tells_of_deeper_bytes(alloc: Global) -> Result<bool, Fail> {
    let deeper = array_digits(alloc, 512)?;
    tells(alloc, FROM_HEX, deeper.as_bytes(), DEEP_BYTES)
}

fn tells_of_open_bytes(alloc: Global) -> Result<bool, Fail> {
    let open = "81".repeat(alloc, 100_000)?;
    tells(alloc, FROM_HEX, open.as_bytes(), DEEP_BYTES)
}

#[test]
fn limits_bytes_to_512(rt: HostRuntime) -> Result<(), Fail> {
    let alloc = rt.alloc();
    expect("512 arrays", shows_the_deepest_bytes(alloc)?)?;
    expect("513 arrays", tells_of_deeper_bytes(alloc)?)?;
    expect("100,000 open arrays", tells_of_open_bytes(alloc)?)
}
