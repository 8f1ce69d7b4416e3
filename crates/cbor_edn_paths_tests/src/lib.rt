//! Tests of paths: how they are read and printed, and in which column a text that is none is at fault.
//!
//! The rows are written by hand from the grammar in `../cbor_edn_paths/specs/Spelling.antt`. A test goes on after the first row that fails,
//! and tells all that do.
#![tactic(auto)]

use cbor_edn_expect::failures::Failures;
use cbor_edn_parts::base::error::Fault;
use cbor_edn_paths::print::print;
use cbor_edn_paths::read::read;
use cbor_edn_paths::step::{Key, Path, Step};
use std::alloc::{AllocError, Global};
use std::test::Fail;

/// A key in words.
fn key_in_words(alloc: Global, key: Key<'_>) -> Result<String, AllocError> {
    match key {
        Key::Name(text) => format!(in alloc; "name {text}"),
        Key::Quoted(text) => format!(in alloc; "quoted {text}"),
        Key::Braced(text) => format!(in alloc; "braced {text}"),
    }
}

/// A step in words.
fn in_words(alloc: Global, step: Step<'_>) -> Result<String, AllocError> {
    match step {
        Step::Value(key, None) => key_in_words(alloc, key),
        Step::Value(key, Some(number)) => {
            let key = key_in_words(alloc, key)?;
            format!(in alloc; "{key} number {number}")
        }
        Step::Element(number) => format!(in alloc; "element {number}"),
        Step::PastLast => String::from_str(alloc, "past the last"),
        Step::Content(None) => String::from_str(alloc, "content"),
        Step::Content(Some(number)) => format!(in alloc; "content of {number}"),
        Step::Embedded(number) => format!(in alloc; "embedded {number}"),
    }
}

/// What a text is read as, or the column of its fault.
fn told(alloc: Global, text: &str) -> Result<String, Fail> {
    let path = match read(alloc, text) {
        Ok(path) => path,
        Err(Fault::Told(fault)) => return Ok(format!(in alloc; "column {}", fault.column)?),
        Err(Fault::Memory(refused)) => return Err(refused.into()),
    };
    let mut words = String::new(alloc);
    if let Some(number) = path.start {
        words.push_str(format!(in alloc; "from {number}; ")?.as_str())?;
    }
    for step in &path.steps {
        words.push_str(in_words(alloc, *step)?.as_str())?;
        words.push_str("; ")?;
    }
    Ok(words)
}

/// What is printed of what a text is read as.
fn printed_again(alloc: Global, text: &str) -> Result<String, Fail> {
    match read(alloc, text) {
        Ok(path) => Ok(print(alloc, &path)?),
        Err(_) => Ok(String::from_str(alloc, "no path")?),
    }
}

/// Texts, and the steps that they are read as.
const PATHS: &[(&str, &str)] = &[
    (".", ""),
    (".server.port", "name server; name port; "),
    (".4", "name 4; "),
    (".a-b_C9", "name a-b_C9; "),
    (".gr\u{f6}\u{df}e", "name gr\u{f6}\u{df}e; "),
    (".\"a b\"", "quoted a b; "),
    (".\"a.b\".c", "quoted a.b; name c; "),
    (".\"\"", "quoted ; "),
    (".\"a\\\"b\"", "quoted a\\\"b; "),
    (".\"\\\\\".c", "quoted \\\\; name c; "),
    ("{4}", "braced 4; "),
    ("{-1}{0x10}", "braced -1; braced 0x10; "),
    ("{h'01'}", "braced h'01'; "),
    ("{[ 1,2 ]}", "braced [ 1,2 ]; "),
    ("{\"}\"}", "braced \"}\"; "),
    ("{'}\\'}'}", "braced '}\\'}'; "),
    ("{{1: {}}}[0]", "braced {1: {}}; element 0; "),
    ("{ /}/ 4 }", "braced  /}/ 4 ; "),
    ("{# }\n4}", "braced # }\n4; "),
    ("{\"/\"}.a", "braced \"/\"; name a; "),
    ("[1][0]", "element 1; element 0; "),
    ("[18446744073709551615]", "element 18446744073709551615; "),
    ("[+]", "past the last; "),
    ("()[0]", "content; element 0; "),
    (
        "(18)[0]<0>{1}",
        "content of 18; element 0; embedded 0; braced 1; ",
    ),
    ("<2>", "embedded 2; "),
    ("@0", "from 0; "),
    ("@2.a", "from 2; name a; "),
    ("@10[0]", "from 10; element 0; "),
    ("{1}~1", "braced 1 number 1; "),
    (".a~0.b", "name a number 0; name b; "),
    (".\"a\"~12{1}", "quoted a number 12; braced 1; "),
];

/// Texts that are no paths, and the column in which their longest front that begins a path ends.
const FAULTS: &[(&str, usize)] = &[
    ("", 1),
    ("a", 1),
    (" .a", 1),
    ("/a", 1),
    ("$.a", 1),
    ("~1", 1),
    ("\u{f6}", 1),
    ("..", 2),
    (".a.", 4),
    (".a..b", 4),
    (".a b", 3),
    (".\"a", 4),
    (".\"a\\\"", 6),
    (".\"a\"b", 5),
    ("{4", 3),
    ("{4} ", 4),
    ("{\"}", 4),
    ("{{1: 2}", 8),
    ("{/}", 4),
    ("}", 1),
    ("[", 2),
    ("[]", 2),
    ("[1", 3),
    ("[-1]", 2),
    (".a[01]", 5),
    ("[0:1]", 3),
    ("[1)", 3),
    ("[+", 3),
    ("[+1]", 3),
    ("[18446744073709551616]", 21),
    ("[99999999999999999999999]", 21),
    ("(", 2),
    ("(18", 4),
    ("(x)", 2),
    ("(+)", 2),
    ("<>", 2),
    ("<+>", 2),
    ("<0)", 3),
    ("@", 2),
    ("@a", 2),
    ("@01", 3),
    ("@1.", 4),
    ("@1@2", 3),
    (".a@1", 3),
    ("{1}~", 5),
    ("{1}~x", 5),
    ("{1}~01", 6),
    (".a~1~2", 5),
    ("[0]~1", 4),
    (".~1", 2),
    (".gr\u{f6}\u{df}e[x", 8),
    ("{\"\u{1f600}\"}x", 6),
];

#[test]
fn paths_are_read(rt: HostRuntime) -> Result<(), Fail> {
    let alloc = rt.alloc();
    let mut failures = Failures::new(alloc);
    for (text, wanted) in PATHS {
        failures.told(alloc, text, told(alloc, text), wanted)?;
    }
    failures.end()
}

#[test]
fn paths_are_printed(rt: HostRuntime) -> Result<(), Fail> {
    let alloc = rt.alloc();
    let mut failures = Failures::new(alloc);
    for (text, _) in PATHS {
        failures.told(alloc, text, printed_again(alloc, text), text)?;
    }
    failures.end()
}

#[test]
fn faults_have_columns(rt: HostRuntime) -> Result<(), Fail> {
    let alloc = rt.alloc();
    let mut failures = Failures::new(alloc);
    for (text, column) in FAULTS {
        let wanted = format!(in alloc; "column {column}")?;
        failures.told(alloc, text, told(alloc, text), wanted.as_str())?;
    }
    failures.end()
}

#[test]
fn a_path_is_made_by_its_parts(rt: HostRuntime) -> Result<(), Fail> {
    let alloc = rt.alloc();
    let mut steps = Vec::new(alloc);
    steps.push(Step::Value(Key::Name("a"), Some(1)))?;
    steps.push(Step::Value(Key::Quoted("b c"), None))?;
    steps.push(Step::Value(Key::Braced("4"), None))?;
    steps.push(Step::Content(Some(18)))?;
    steps.push(Step::Content(None))?;
    steps.push(Step::Embedded(0))?;
    steps.push(Step::Element(7))?;
    steps.push(Step::PastLast)?;
    let path = Path {
        start: Some(3),
        steps,
    };
    cbor_edn_expect::expect_text(
        alloc,
        print(alloc, &path)?.as_str(),
        "@3.a~1.\"b c\"{4}(18)()<0>[7][+]",
    )
}
