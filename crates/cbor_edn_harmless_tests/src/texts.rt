//! Texts of items without what acts on a terminal.
use cbor_edn_expect::failures::Failures;
use cbor_edn_harmless::harmless;
use std::test::Fail;

/// Texts of items, and what is written: `\u{..}` by the draft's grammar of texts, which a comment only tells.
const TEXTS: &[(&str, &str)] = &[
    ("", ""),
    ("[1,\n 'ü', \"❤\u{fe0f}\"]", "[1,\n 'ü', \"❤\u{fe0f}\"]"),
    ("\"a\u{202e}b\"", r#""a\u{202e}b""#),
    ("'\u{7f}\u{85}'", r"'\u{7f}\u{85}'"),
    (
        "dt'\u{e0041}' \"\u{2028}\n\"",
        "dt'\\u{e0041}' \"\\u{2028}\n\"",
    ),
    // a raw CR stands for nothing, and behind an escape as well
    ("\"a\rb\\\"\r\\\\\" \r'\r'", "\"ab\\\"\\\\\"  ''"),
    // blanks and comments, with quotes in them
    ("[1\t,\r2]", "[1 , 2]"),
    ("/ it's\u{ad} \r/'\r'", "/ it's\\u{ad}  /''"),
    (
        "1 # \"\u{61c}\t\r\n/\"/'\u{9b}'",
        "1 # \"\\u{61c}  \n/\"/'\\u{9b}'",
    ),
    (
        "(_ '\u{feff}', \"'\u{200b}\")",
        "(_ '\\u{feff}', \"'\\u{200b}\")",
    ),
];

#[test]
fn texts(rt: HostRuntime) -> Result<(), Fail> {
    let alloc = rt.alloc();
    let mut failures = Failures::new(alloc);
    for (text, wanted) in TEXTS {
        let written = harmless(alloc, String::from_str(alloc, text)?)?;
        failures.row(alloc, text, &written, wanted)?;
    }
    failures.end()
}
