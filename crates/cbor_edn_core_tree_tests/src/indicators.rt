//! Removal of encoding indicators.
use crate::common::{Edit, Made, edited_item, edited_sequence};
use cbor_edn_expect::expect_told;
use cbor_edn_expect::failures::Failures;
use std::test::Fail;

/// Texts, and the texts without indicators: by hand from the docstring of `discard_encoding_indicators`, with the spaces by
/// `docs/DECISIONS.md`.
const BARE: &[(&str, &str)] = &[
    ("[_ 3]", "[3]"),
    ("[_  1_1]", "[  1]"),
    ("(_ 'x'_0)", "(_ 'x')"),
    ("{_1 /c/ 1: 2}", "{ /c/ 1: 2}"),
    ("1_0, NaN_3, 1_2(2_0)", "1, NaN, 1(2)"),
    ("'a'_1 + \"b\"_0", "'a' + \"b\""),
    // what is embedded keeps its own
    ("<<1_1, [_ 2]>>_0", "<<1_1, [_ 2]>>"),
];

#[test]
fn indicators_go(rt: HostRuntime) -> Result<(), Fail> {
    let alloc = rt.alloc();
    let mut failures = Failures::new(alloc);
    for &(text, wanted) in BARE {
        failures.told(
            alloc,
            text,
            edited_sequence(alloc, text, Edit::Bare),
            wanted,
        )?;
    }
    failures.end()
}

#[test]
fn indicators_of_decoded_items_go(rt: HostRuntime) -> Result<(), Fail> {
    let alloc = rt.alloc();
    let told = edited_item(alloc, Made::Decoded(b"\x9f\x03\xff"), Edit::Bare);
    expect_told(alloc, told, "[3]")
}
