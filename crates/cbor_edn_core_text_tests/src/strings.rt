//! Texts of strings, and the bytes that they mean.
use crate::common::{all_mean, all_unparsed, encoded, expect_itself, repeated};
use cbor_edn_expect::{expect, expect_row};
use std::test::Fail;

/// Texts of the grammar in `docs/SUPPORTED.md`, and the bytes of RFC 8949, section 3, that they mean; what `b64`, `b32` and `h32` stand
/// for by RFC 4648.
const ENCODED: &[(&str, &str)] = &[
    ("\"a\" + 'b'", "626162"),
    ("'a' + \"b\"", "426162"),
    ("\"\" + h'c3a9'", "62c3a9"),
    ("\"a\" /c/ , 'b'", "61614162"),
    ("'a'_0", "580161"),
    ("'hello'_3", "5b000000000000000568656c6c6f"),
    ("<<1, \"a\">>", "43016161"),
    ("<<1, [_ ]>>", "43019fff"),
    ("(_ \"a\")", "7f6161ff"),
    (
        "(_ 'hello'+' ', 'world', )",
        "5f4668656c6c6f2045776f726c64ff",
    ),
    ("<<>>_", "5fff"),
    ("[\"a\" +1]", "82616101"),
    ("[\"a\"/c/+1]", "82616101"),
    ("\"\u{7f}\"", "617f"),
    ("'\u{7f}'", "417f"),
    // single quotes
    ("''", "40"),
    ("'a'", "4161"),
    ("'\"'", "4122"),
    ("'\\''", "4127"),
    // double quotes
    ("\"'\"", "6127"),
    ("\"\\\"\"", "6122"),
    ("\"\\n\\/\\\\\"", "630a2f5c"),
    ("\"\\\"\\\\\\/\\b\\f\\n\\r\\t\"", "68225c2f080c0a0d09"),
    ("\"a\rb\"", "626162"),
    ("\"a\r\nb\"", "63610a62"),
    ("\"\r\n\"", "610a"),
    ("\"\u{e9}\u{1f600}\"", "66c3a9f09f9880"),
    ("\"\\u0041\"", "6141"),
    ("\"\\u00fc\"", "62c3bc"),
    ("\"\\u{0000041}\"", "6141"),
    ("\"\\u{000041}\"", "6141"),
    ("\"\\ud83d\\ude00\"", "64f09f9880"),
    ("\"\\uD83D\\uDE00\"", "64f09f9880"),
    ("\"\\u{1F600}\"", "64f09f9880"),
    ("\"\\u{10FFFF}\"", "64f48fbfbf"),
    // prefixes
    ("h'00'", "4100"),
    ("h'0aF9'", "420af9"),
    ("h'01 /c/ 02 # rest'", "420102"),
    ("h'01 # c\n 02'", "420102"),
    ("h'1 2'", "4112"),
    ("h'\\u{31}0'", "4110"),
    ("b64'AA'", "4100"),
    ("b64'Zg'", "4166"),
    ("b64''", "40"),
    ("b64'_-8'", "42ffef"),
    ("b64'/+8='", "42ffef"),
    ("b32''", "40"),
    ("b32'MY'", "4166"),
    ("b32'74Aa=='", "42ff00"),
    ("h32''", "40"),
    ("h32'CO'", "4166"),
    ("h32'Vs00='", "42ff00"),
];

#[test]
fn encodes_strings(rt: HostRuntime) -> Result<(), Fail> {
    all_mean(rt.alloc(), ENCODED)
}

/// Texts of the grammar in `docs/SUPPORTED.md` that mean nothing by it, and the name of the refusal; which of several is told
/// by `docs/DECISIONS.md`.
const REFUSED: &[(&str, &str)] = &[
    ("'a'_0 + 'b'", "IndicatorOnPiece"),
    ("e'x'", "UnsupportedLiteral"),
    ("true'x'", "UnsupportedLiteral"),
    ("DT'x'", "UnsupportedLiteral"),
    ("b''", "UnsupportedLiteral"),
    ("B64''", "UnsupportedLiteral"),
    ("h3''", "UnsupportedLiteral"),
    ("H'00'", "UnsupportedLiteral"),
    ("...", "UnsupportedLiteral"),
    (".....", "UnsupportedLiteral"),
    // the pieces of a string before its embedded items
    ("<<1.0>> + e'x'", "UnsupportedLiteral"),
    ("h'0' + e'x'", "UnsupportedLiteral"),
    ("<<1.0>> + h'0'", "UndecodableContent"),
    ("<<1.0>>", "NumberWithoutEncoding"),
    ("h'0'", "UndecodableContent"),
    ("h'0'_0", "UndecodableContent"),
    ("h'0 # rest'", "UndecodableContent"),
    ("h'01 /c'", "UndecodableContent"),
    ("h'...'", "UndecodableContent"),
    ("b64'Zh'", "UndecodableContent"),
    ("b64'Z g'", "UndecodableContent"),
    ("b64'A'", "UndecodableContent"),
    ("b64'AB'", "UndecodableContent"),
    ("b32'M1'", "UndecodableContent"),
    ("h32'CW'", "UndecodableContent"),
    ("\"\" + h'ff'", "InvalidUtf8"),
    ("'a'_", "IndicatorDoesNotFit"),
    ("(_ ''_)", "IndicatorDoesNotFit"),
    ("(_ \"a\", 'b')", "OtherChunk"),
    // the stream before its strings
    ("(_ \"a\", h'0')", "OtherChunk"),
    ("(_ \"a\", <<1.0>>)", "OtherChunk"),
    // of a stream first what has no kind, wherever it stands
    ("(_ e'', \"\")", "UnsupportedLiteral"),
    ("(_ \"a\", ...)", "UnsupportedLiteral"),
    ("(_ \"a\" + e'x', 'b')", "UnsupportedLiteral"),
    ("(_ h'0', e'x')", "UnsupportedLiteral"),
    // but what stands in an embedded sequence is not the stream's own
    ("(_ \"a\", <<e'x'>>)", "OtherChunk"),
];

#[test]
fn refuses_strings_without_encoding(rt: HostRuntime) -> Result<(), Fail> {
    all_mean(rt.alloc(), REFUSED)
}

/// Texts that the grammar in `docs/SUPPORTED.md` does not have.
#[test]
fn refuses_texts_of_strings(rt: HostRuntime) -> Result<(), Fail> {
    all_unparsed(
        rt.alloc(),
        &[
            "(_)",
            "..",
            "...x",
            "1....",
            "....5",
            "\"",
            "\"a",
            "\"a\"b",
            "h",
            "h\"00\"",
            "hH'0'",
            "Ab'x'",
            "1'a'",
            "\"\\q\"",
            "\"\\a\"",
            "\"\\'\"",
            "'\\\"'",
            "\"\\u12\"",
            "\"\\ud800\"",
            "\"\\uD83D\"",
            "\"\\uDE00\"",
            "\"\\ude00\"",
            "\"\\ud83dx\"",
            "\"\\uD83D\\u0041\"",
            "\"\\u{}\"",
            "\"\\u{d800}\"",
            "\"\\u{D83D}\"",
            "\"\\u{110000}\"",
            "\"\t\"",
            "[\"a\"+1]",
            "\"a\" +",
            "\"a\" + .5",
        ],
    )
}

#[test]
fn nests_embedded_sequences(rt: HostRuntime) -> Result<(), Fail> {
    let alloc = rt.alloc();
    let text = repeated(alloc, 64, "<<", ">>")?;
    let digits = encoded(alloc, text.as_str())?;
    expect("length of 64 strings", digits.len() == 208)?;
    expect(
        "first of 64 strings",
        digits.as_str().starts_with("58665864"),
    )?;
    expect_itself(alloc, text.as_str())
}

#[test]
fn refuses_unended_embedded_sequences(rt: HostRuntime) -> Result<(), Fail> {
    let alloc = rt.alloc();
    let open = repeated(alloc, 63, "<<", ">>")?;
    let unended = format!(in alloc; "<<{open}>")?;
    expect_row(
        alloc,
        unended.as_str(),
        encoded(alloc, unended.as_str())?.as_str(),
        "parse",
    )
}

#[test]
fn reads_many_strings(rt: HostRuntime) -> Result<(), Fail> {
    let alloc = rt.alloc();
    let text = repeated(alloc, 4096, "'a'/c/", "")?;
    let digits = encoded(alloc, text.as_str())?;
    expect("4096 strings", digits.len() == 16_384)
}
