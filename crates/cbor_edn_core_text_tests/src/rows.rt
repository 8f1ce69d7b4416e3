//! Texts of numbers, arrays and maps, and the bytes that they mean.
use crate::common::{all_mean, all_unparsed, encoded_alone};
use cbor_edn_expect::failures::Failures;
use std::test::Fail;

/// Texts of the grammar in `docs/SUPPORTED.md`, and the bytes of RFC 8949, section 3, that they mean.
const ENCODED: &[(&str, &str)] = &[
    ("[1, 0x1f, []]", "8301181f80"),
    ("-0x10", "2f"),
    ("+5", "05"),
    ("01", "01"),
    ("0x1F", "181f"),
    ("0X1f", "181f"),
    ("-0", "00"),
    ("1/c/2", "0102"),
    ("1 2,", "0102"),
    ("[1 # c\n,2]", "820102"),
    ("[1,2,]", "820102"),
    ("1 # c\n", "01"),
    ("/\u{7f}\u{e9}/1", "01"),
    ("/\u{7f}/1 # \u{7f}\n", "01"),
    ("[\t0x0A\r\n]", "810a"),
    ("-0XfF", "38fe"),
    // maps and indicators
    ("{1:2}", "a10102"),
    ("{_1}", "b90000"),
    ("[_i 1]", "8101"),
    ("[_0 1]", "980101"),
    ("[_1]", "990000"),
    ("[_ [_ ]]", "9f9fffff"),
    ("[_ 3]", "9f03ff"),
    ("1_3", "1b0000000000000001"),
    ("10_i", "0a"),
    ("10_0", "180a"),
    ("10_1", "19000a"),
    ("10_2", "1a0000000a"),
    ("10_3", "1b000000000000000a"),
    ("24_1", "190018"),
    ("{/k/ 1 /c/ : # d\n 2 , 3:[{_ }],}", "a201020381bfff"),
    ("[{1: 2} {3: 4}]", "82a10102a10304"),
    // every base, and bignums
    ("0b101", "05"),
    ("-0o17", "2e"),
    ("-0B1", "20"),
    ("+0O7", "07"),
    ("0B11 0O7", "0307"),
    ("18446744073709551616", "c249010000000000000000"),
    ("0x10000000000000000", "c249010000000000000000"),
    ("-0x10000000000000000", "3bffffffffffffffff"),
    ("-18446744073709551617", "c349010000000000000000"),
    (
        "0xffffffffffffffffffffffffffffffff",
        "c250ffffffffffffffffffffffffffffffff",
    ),
    (
        "340282366920938463463374607431768211455",
        "c250ffffffffffffffffffffffffffffffff",
    ),
    (
        "0b11111111111111111111111111111111111111111111111111111111111111111111111111111111111111111111111111111111111111111111111111111111",
        "c250ffffffffffffffffffffffffffffffff",
    ),
    (
        "-0xffffffffffffffffffffffffffffffff",
        "c350fffffffffffffffffffffffffffffffe",
    ),
];

#[test]
fn encodes_rows(rt: HostRuntime) -> Result<(), Fail> {
    all_mean(rt.alloc(), ENCODED)
}

/// Texts of standalone items, and their encodings or the name of the refusal.
const ALONE: &[(&str, &str)] = &[
    (" [1, 0x1f, []] # c\n", "8301181f80"),
    ("", "parse"),
    ("1 2", "parse"),
    ("1.0", "NumberWithoutEncoding"),
];

#[test]
fn encodes_standalone_items(rt: HostRuntime) -> Result<(), Fail> {
    let alloc = rt.alloc();
    let mut failures = Failures::new(alloc);
    for &(text, wanted) in ALONE {
        failures.told(alloc, text, encoded_alone(alloc, text), wanted)?;
    }
    failures.end()
}

/// Texts of the grammar in `docs/SUPPORTED.md` that mean nothing by it, and the name of the refusal.
const REFUSED: &[(&str, &str)] = &[
    (
        "340282366920938463463374607431768211456",
        "NumberWithoutEncoding",
    ),
    (
        "-340282366920938463463374607431768211456",
        "NumberWithoutEncoding",
    ),
    (
        "340282366920938463463374607431768211456_3",
        "NumberWithoutEncoding",
    ),
    (
        "0b111111111111111111111111111111111111111111111111111111111111111111111111111111111111111111111111111111111111111111111111111111111",
        "NumberWithoutEncoding",
    ),
    ("1e1", "NumberWithoutEncoding"),
    ("1.0", "NumberWithoutEncoding"),
    ("1.5", "NumberWithoutEncoding"),
    ("1.5_i", "NumberWithoutEncoding"),
    ("1.", "NumberWithoutEncoding"),
    (".5", "NumberWithoutEncoding"),
    ("+00.50E+07", "NumberWithoutEncoding"),
    ("0e0", "NumberWithoutEncoding"),
    ("0x.8p1", "NumberWithoutEncoding"),
    ("-0X1.fP-10", "NumberWithoutEncoding"),
    ("0x1e.p0", "NumberWithoutEncoding"),
    ("1_", "IndicatorDoesNotFit"),
    ("24_i", "IndicatorDoesNotFit"),
    ("256_0", "IndicatorDoesNotFit"),
    ("65536_1", "IndicatorDoesNotFit"),
    ("-4294967297_2", "IndicatorDoesNotFit"),
    ("18446744073709551616_3", "IndicatorDoesNotFit"),
    ("-18446744073709551617_3", "IndicatorDoesNotFit"),
    ("[1, 0x100000000_2]", "IndicatorDoesNotFit"),
    ("{1.5: 2}", "NumberWithoutEncoding"),
    ("{1: [2_]}", "IndicatorDoesNotFit"),
    // of the first item in the text
    ("[24_i, 1.5]", "IndicatorDoesNotFit"),
    ("{1.5: 24_i}", "NumberWithoutEncoding"),
];

#[test]
fn refuses_what_means_nothing(rt: HostRuntime) -> Result<(), Fail> {
    all_mean(rt.alloc(), REFUSED)
}

/// Texts that the grammar in `docs/SUPPORTED.md` does not have.
#[test]
fn refuses_texts(rt: HostRuntime) -> Result<(), Fail> {
    all_unparsed(
        rt.alloc(),
        &[
            "[,]",
            "[1,,2]",
            ",1",
            "0x",
            "1 # c",
            "/",
            "#",
            "\u{a0}1",
            "\u{feff}1",
            "\u{0}1",
            "\u{0}",
            "\u{a0}",
            "\u{feff}",
            "1\u{0}",
            "1\u{a0}2",
            "1\u{feff}2",
            "[1",
            "1]",
            "]",
            "[1}",
            "1x",
            "--1",
            "+",
            "-",
            "0x1g",
            "[1 2",
            "12[",
            "[][]",
            "/\u{1}/1",
            "1 2,,",
            "{1}",
            "{1:2 3:}",
            "{1:2,,3:4}",
            "{1 2}",
            "{:1}",
            "{1:2]",
            "[1:2]",
            "[_11]",
            "[_1 1 _]",
            "[_1,]",
            "{_/",
            "1_4",
            "1_33",
            "1__",
            "1 _0",
            "0b",
            "0b2",
            "0b1.",
            "0b1b1",
            "0o8",
            "0o1e1",
            "1e",
            "1e+",
            "e1",
            ".",
            "1.5.",
            "1e1.",
            "0x.8",
            "0x1.",
            "0x1.8",
            "0xp1",
            "0x1p",
            "0x1pa",
            "_",
            "((",
        ],
    )
}
