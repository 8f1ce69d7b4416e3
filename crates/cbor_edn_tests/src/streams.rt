//! Bytes that are printed while they are read: what fits on a line of 79 bytes, and what has lines of its own.
use crate::commands::served;
use cbor_edn_expect::failures::Failures;
use std::alloc::Global;
use std::test::Fail;

/// A text with a part that stands in it so many times: what stands in front, the part, how often, and what stands behind.
type Repeated = (&'static str, &'static str, usize, &'static str);

fn written(alloc: Global, row: Repeated) -> Result<String, Fail> {
    let (front, part, count, behind) = row;
    let mut text = String::from_str(alloc, front)?;
    for _ in 0..count {
        text.push_str(part)?;
    }
    text.push_str(behind)?;
    Ok(text)
}

const FROM_HEX: &[&str] = &["cbor-edn", "cbor2diag", "-i", "hex"];

/// Digits of CBOR, and the text with its line feed. By the table of `docs/SUPPORTED.md`: an item of less than 80 bytes behind its
/// indentation stands on a line, another one has a line for each part.
const PRINTED: &[(Repeated, Repeated)] = &[
    // 79 bytes, and 80
    (("81784b", "61", 75, ""), ("[\"", "a", 75, "\"]\n")),
    (("81784c", "61", 76, ""), ("[\n    \"", "a", 76, "\"\n]\n")),
    (("a1017848", "61", 72, ""), ("{1: \"", "a", 72, "\"}\n")),
    (
        ("a1017849", "61", 73, ""),
        ("{\n    1:\"", "a", 73, "\"\n}\n"),
    ),
    (("9f7849", "61", 73, "ff"), ("[_ \"", "a", 73, "\"]\n")),
    (
        ("9f784a", "61", 74, "ff"),
        ("[_ \n    \"", "a", 74, "\"\n]\n"),
    ),
    // many short items: 78 bytes, and 81
    (("981a", "01", 26, ""), ("[1", ", 1", 25, "]\n")),
    (
        ("981b", "01", 27, ""),
        ("[\n    1", ",\n    1", 26, "\n]\n"),
    ),
    (
        ("bf", "0120", 200, "ff"),
        ("{_ \n    1:-1", ",\n    1:-1", 199, "\n}\n"),
    ),
    // behind four spaces 75 bytes fit, and 76 do not
    (
        ("82817847", "61", 71, "00"),
        ("[\n    [\"", "a", 71, "\"],\n    0\n]\n"),
    ),
    (
        ("82817848", "61", 72, "00"),
        ("[\n    [\n        \"", "a", 72, "\"\n    ],\n    0\n]\n"),
    ),
    // heads of nine bytes
    (
        ("8f", "1b0000000000000001", 15, ""),
        ("[1_3", ", 1_3", 14, "]\n"),
    ),
    (
        ("90", "1b0000000000000001", 16, ""),
        ("[\n    1_3", ",\n    1_3", 15, "\n]\n"),
    ),
    // strings that are longer than all that is read for a line
    (
        ("815903e8", "61", 1000, ""),
        ("[\n    h'", "61", 1000, "'\n]\n"),
    ),
    (
        ("5f", "4161", 300, "ff"),
        ("(_\n    h'61'", ",\n    h'61'", 299, "\n)\n"),
    ),
    // strings of indefinite length: 79 bytes, and 80
    (("7f7849", "61", 73, "ff"), ("(_ \"", "a", 73, "\")\n")),
    (
        ("7f784a", "61", 74, "ff"),
        ("(_\n    \"", "a", 74, "\"\n)\n"),
    ),
    (
        ("7f782561", "22", 36, "ff"),
        ("(_ \"a", "\\\"", 36, "\")\n"),
    ),
    (
        ("7f78266161", "22", 36, "ff"),
        ("(_\n    \"aa", "\\\"", 36, "\"\n)\n"),
    ),
    (("5f", "4161", 11, "ff"), ("(_ h'61'", ", h'61'", 10, ")\n")),
    (
        ("5f", "4161", 12, "ff"),
        ("(_\n    h'61'", ",\n    h'61'", 11, "\n)\n"),
    ),
    // 77 bytes of empty strings, and 82
    (("5f", "40", 15, "ff"), ("(_ h''", ", h''", 14, ")\n")),
    (
        ("5f", "40", 16, "ff"),
        ("(_\n    h''", ",\n    h''", 15, "\n)\n"),
    ),
    // heads of nine bytes: 74 bytes, and 83
    (
        ("5f", "5b000000000000000161", 8, "ff"),
        ("(_ h'61'_3", ", h'61'_3", 7, ")\n"),
    ),
    (
        ("5f", "5b000000000000000161", 9, "ff"),
        ("(_\n    h'61'_3", ",\n    h'61'_3", 8, "\n)\n"),
    ),
    (
        ("5f5903e8", "61", 1000, "ff"),
        ("(_\n    h'", "61", 1000, "'\n)\n"),
    ),
    // in lists and tags
    (
        ("9f7f", "6161", 300, "ffff"),
        (
            "[_ \n    (_\n        \"a\"",
            ",\n        \"a\"",
            299,
            "\n    )\n]\n",
        ),
    ),
    (
        ("a25fff015f", "4161", 300, "ff00"),
        (
            "{\n    ''_:1,\n    (_\n        h'61'",
            ",\n        h'61'",
            299,
            "\n    ):0\n}\n",
        ),
    ),
    (
        ("d25f", "4161", 12, "ff"),
        ("18((_\n        h'61'", ",\n        h'61'", 11, "\n    ))\n"),
    ),
    // behind four spaces 75 bytes fit, and 76 do not
    (
        ("827f7845", "61", 69, "ff00"),
        ("[\n    (_ \"", "a", 69, "\"),\n    0\n]\n"),
    ),
    (
        ("827f7846", "61", 70, "ff00"),
        ("[\n    (_\n        \"", "a", 70, "\"\n    ),\n    0\n]\n"),
    ),
    // what is short behind what is long
    (
        ("84784c", "61", 76, "5fff7fff5f42616240ff"),
        (
            "[\n    \"",
            "a",
            76,
            "\",\n    ''_,\n    \"\"_,\n    (_ h'6162', h'')\n]\n",
        ),
    ),
    (
        ("82784c", "61", 76, "80"),
        ("[\n    \"", "a", 76, "\",\n    []\n]\n"),
    ),
    (
        ("82784c", "61", 76, "9fff"),
        ("[\n    \"", "a", 76, "\",\n    [_]\n]\n"),
    ),
    (
        ("82784c", "61", 76, "b80102f6"),
        ("[\n    \"", "a", 76, "\",\n    {_0 2: null}\n]\n"),
    ),
    // items without a list, and none
    (("", "00", 3, ""), ("0", ",\n0", 2, "\n")),
    (("", "", 0, ""), ("", "", 0, "")),
    // tags that no step changes, on a line and on lines: what stands in one is indented one level more
    (("d29818", "01", 24, ""), ("18([1", ", 1", 23, "])\n")),
    (
        ("d2981b", "01", 27, ""),
        ("18([\n        1", ",\n        1", 26, "\n    ])\n"),
    ),
    (
        ("d83dd2981b", "01", 27, ""),
        (
            "61(18([\n            1",
            ",\n            1",
            26,
            "\n        ]))\n",
        ),
    ),
    (
        ("d818bf", "0120", 200, "ff"),
        ("24({_ \n        1:-1", ",\n        1:-1", 199, "\n    })\n"),
    ),
    // 81 bytes, of which those in parentheses fit behind four spaces
    (("d903e89819", "01", 25, ""), ("1000([1", ", 1", 24, "])\n")),
    // behind what is long
    (
        ("82784c", "61", 76, "d2a0"),
        ("[\n    \"", "a", 76, "\",\n    18({})\n]\n"),
    ),
    // a tag that a step changes stands behind what can be printed at once, and in another
    (
        ("d2981b", "01", 26, "c100"),
        (
            "18([\n        1",
            ",\n        1",
            25,
            ",\n        DT'1970-01-01T00:00:00+00:00'\n    ])\n",
        ),
    ),
    (
        ("981b", "01", 26, "c100"),
        (
            "[\n    1",
            ",\n    1",
            25,
            ",\n    DT'1970-01-01T00:00:00+00:00'\n]\n",
        ),
    ),
    // more elements than are changed together, and one that is longer than they are
    (
        ("", "c100", 2100, ""),
        (
            "DT'1970-01-01T00:00:00+00:00'",
            ",\nDT'1970-01-01T00:00:00+00:00'",
            2099,
            "\n",
        ),
    ),
    (
        ("", "820102c249010000000000000000", 300, "f6"),
        ("", "[1, 2],\n18446744073709551616,\n", 300, "null\n"),
    ),
    (
        (
            "c249010000000000000000591388",
            "00",
            5000,
            "c249010000000000000000",
        ),
        (
            "18446744073709551616,\nh'",
            "00",
            5000,
            "',\n18446744073709551616\n",
        ),
    ),
    // arrays of as many elements as a line has columns: between others, and with more elements than are changed together
    (
        ("019850", "c100", 80, "c249010000000000000000"),
        (
            "1,\n[\n    DT'1970-01-01T00:00:00+00:00'",
            ",\n    DT'1970-01-01T00:00:00+00:00'",
            79,
            "\n],\n18446744073709551616\n",
        ),
    ),
    (
        ("9a00001004", "c100", 4100, ""),
        (
            "[_2 \n    DT'1970-01-01T00:00:00+00:00'",
            ",\n    DT'1970-01-01T00:00:00+00:00'",
            4099,
            "\n]\n",
        ),
    ),
    // comments of the steps, which the last element has behind its line
    (
        ("9907d0", "d826a0", 2000, ""),
        (
            "[\n    38({})/ Expected array /",
            ",\n    38({})/ Expected array /",
            1998,
            ",\n    38({})\n/ Expected array /]\n",
        ),
    ),
    // elements that have lines of their own, behind which the next begin
    (
        ("9850", "82c1008180", 80, ""),
        (
            "[\n    [DT'1970-01-01T00:00:00+00:00', [[]]]",
            ",\n    [DT'1970-01-01T00:00:00+00:00', [[]]]",
            79,
            "\n]\n",
        ),
    ),
    (
        ("9850", "83c100c100c100", 80, ""),
        (
            "[\n    [\n        DT'1970-01-01T00:00:00+00:00',\n        DT'1970-01-01T00:00:00+00:00',\n        DT'1970-01-01T00:00:00+00:00'\n    ]",
            ",\n    [\n        DT'1970-01-01T00:00:00+00:00',\n        DT'1970-01-01T00:00:00+00:00',\n        DT'1970-01-01T00:00:00+00:00'\n    ]",
            79,
            "\n]\n",
        ),
    ),
];

/// Digits of CBOR, and the fault that stands behind what could be printed.
const REFUSED: &[(Repeated, &str)] = &[
    (("9864", "01", 99, ""), "Expected item, out of data"),
    (("9f", "01", 99, ""), "Expected item, out of data"),
    (("9f", "01", 99, "1c"), "Reserved header byte"),
    (("9864", "01", 99, "1901"), "Missing argument bytes"),
    (
        ("9864", "01", 99, "ff"),
        "Break code only expected at end of indefinite length items",
    ),
    (
        ("bf", "01", 99, "ff"),
        "Break code only expected at end of indefinite length items",
    ),
    (("9864", "01", 99, "427a"), "Announced bytes unavailable"),
    (
        ("9864", "01", 99, "61ff"),
        "Text string must be valid UTF-8",
    ),
    (("9864", "01", 99, "f97c01"), "Float value out of scope"),
    (
        ("9864", "01", 99, "df"),
        "Integer/Tag with indefinite length encoding is not well-formed",
    ),
    (("d29864", "01", 99, ""), "Expected item, out of data"),
    // behind strings of a string of indefinite length
    (
        ("5f", "4161", 300, "6161ff"),
        "Indefinite length strings can only contain matching items",
    ),
    (
        ("817f", "6161", 300, "4161ff"),
        "Indefinite length strings can only contain matching items",
    ),
    (
        ("5f", "4161", 300, "7fffff"),
        "Indefinite length strings can only contain matching items",
    ),
    (
        ("7f", "6161", 300, "7fffff"),
        "Indefinite length strings can only contain definite lengths",
    ),
    (("5f", "4161", 300, ""), "Expected item, out of data"),
    (("9f5f", "4161", 300, "ff"), "Expected item, out of data"),
    (("5f", "4161", 300, "5c"), "Reserved header byte"),
    (("5f", "4161", 300, "5901"), "Missing argument bytes"),
    (("5f", "4161", 300, "427a"), "Announced bytes unavailable"),
    (
        ("7f", "6161", 300, "61ffff"),
        "Text string must be valid UTF-8",
    ),
    (
        ("5f", "4161", 300, "ffff"),
        "Break code only expected at end of indefinite length items",
    ),
    // behind elements that are changed together, and in the first of the next
    (
        ("", "c100", 2048, "ff"),
        "Break code only expected at end of indefinite length items",
    ),
    (("", "c100", 2049, "c1"), "Expected item, out of data"),
    // in long arrays of such elements
    (
        ("9a00001004", "c100", 4099, ""),
        "Expected item, out of data",
    ),
    (
        ("9a00001004", "c100", 4096, ""),
        "Expected item, out of data",
    ),
    (
        ("9a00001004", "c100", 4099, "ff"),
        "Break code only expected at end of indefinite length items",
    ),
    (("9850", "c100", 79, "c1"), "Expected item, out of data"),
];

fn prints(alloc: Global, digits: Repeated, text: Repeated) -> Result<bool, Fail> {
    let input = written(alloc, digits)?;
    let wanted = written(alloc, text)?;
    let (status, output, told) = served(alloc, FROM_HEX, input.as_bytes())?;
    Ok(status == 0 && output.as_slice() == wanted.as_bytes() && told.is_empty())
}

fn refuses(alloc: Global, digits: Repeated, fault: &str) -> Result<bool, Fail> {
    let input = written(alloc, digits)?;
    let line = format!(in alloc; "cbor-edn: Error decoding input data: {fault}\n")?;
    let (status, output, told) = served(alloc, FROM_HEX, input.as_bytes())?;
    Ok(status == 1 && output.is_empty() && told.as_slice() == line.as_bytes())
}

#[test]
fn long_lists_have_lines(rt: HostRuntime) -> Result<(), Fail> {
    let alloc = rt.alloc();
    let mut failures = Failures::new(alloc);
    for &(digits, text) in PRINTED {
        let name = written(alloc, digits)?;
        failures.held(alloc, name.as_str(), prints(alloc, digits, text))?;
    }
    failures.end()
}

#[test]
fn faults_behind_long_lists(rt: HostRuntime) -> Result<(), Fail> {
    let alloc = rt.alloc();
    let mut failures = Failures::new(alloc);
    for &(digits, fault) in REFUSED {
        let name = written(alloc, digits)?;
        failures.held(alloc, name.as_str(), refuses(alloc, digits, fault))?;
    }
    failures.end()
}
