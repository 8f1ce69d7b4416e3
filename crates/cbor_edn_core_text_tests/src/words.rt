//! Texts of tags, simple values and the numbers that are not finite, and the bytes that they mean.
use crate::common::{all_mean, all_unparsed};
use std::test::Fail;

/// Texts of the grammar in `docs/SUPPORTED.md`, and the bytes of RFC 8949, section 3, that they mean.
const ENCODED: &[(&str, &str)] = &[
    ("1(2)", "c102"),
    ("1_0(2)", "d80102"),
    ("1_3( 2 )", "db000000000000000102"),
    ("18446744073709551615(1)", "dbffffffffffffffff01"),
    ("simple(0x10)", "f0"),
    ("simple(255_0)", "f8ff"),
    ("simple(4)", "e4"),
    ("simple( /c/ 4_i )", "e4"),
    ("simple(20)", "f4"),
    ("simple(23)", "f7"),
    ("NaN", "f97e00"),
    ("Infinity", "f97c00"),
    ("-Infinity", "f9fc00"),
    ("[true false,null/c/undefined]", "84f5f4f6f7"),
    ("{-Infinity:true}", "a1f9fc00f5"),
    ("[1(2) -1]", "82c10220"),
    ("1(2(3))", "c1c203"),
    ("'true' + '('", "457472756528"),
];

#[test]
fn encodes_words(rt: HostRuntime) -> Result<(), Fail> {
    all_mean(rt.alloc(), ENCODED)
}

/// Texts of the grammar in `docs/SUPPORTED.md` that mean nothing by it, and the name of the refusal; which of several is told
/// by `docs/DECISIONS.md`.
const REFUSED: &[(&str, &str)] = &[
    ("simple(24)", "InvalidSimple"),
    ("simple(31)", "InvalidSimple"),
    ("simple(256)", "InvalidSimple"),
    ("simple(4_0)", "InvalidSimple"),
    ("simple(32_1)", "InvalidSimple"),
    ("simple(-1)", "InvalidSimple"),
    ("simple(1.0)", "InvalidSimple"),
    ("simple(true)", "InvalidSimple"),
    ("simple([24_i])", "InvalidSimple"),
    ("NaN_i", "IndicatorDoesNotFit"),
    ("NaN_", "IndicatorDoesNotFit"),
    ("NaN_0", "IndicatorDoesNotFit"),
    ("Infinity_0", "IndicatorDoesNotFit"),
    ("1_(2)", "IndicatorDoesNotFit"),
    ("256_0(2)", "IndicatorDoesNotFit"),
    ("24_i(1.0)", "IndicatorDoesNotFit"),
    ("1(24_i)", "IndicatorDoesNotFit"),
    ("1(1.0)", "NumberWithoutEncoding"),
    ("[simple(24), 1.0]", "InvalidSimple"),
];

#[test]
fn refuses_words_without_encoding(rt: HostRuntime) -> Result<(), Fail> {
    all_mean(rt.alloc(), REFUSED)
}

/// Texts that the grammar in `docs/SUPPORTED.md` does not have.
#[test]
fn refuses_texts_of_words(rt: HostRuntime) -> Result<(), Fail> {
    all_unparsed(
        rt.alloc(),
        &[
            "18446744073709551616(1)",
            "100000000000000000000(1)",
            "01(2)",
            "00(2)",
            "1 (2)",
            "+1(2)",
            "-1(2)",
            "0x1(2)",
            "1.(2)",
            "1e1(2)",
            "1()",
            "1(2",
            "1(2,)",
            "1(2 3)",
            "true_",
            "true1",
            "True",
            "TRUE",
            "nul",
            "nulll",
            "undefined'",
            "+Infinity",
            "- Infinity",
            "-infinity",
            "Infinit",
            "NaN()",
            "Nan",
            "simple",
            "simple ()",
            "simple()",
            "simple(1,)",
            "simple_0(1)",
            "true(1)",
            "[true\"a\"]",
            "truefalse",
        ],
    )
}
