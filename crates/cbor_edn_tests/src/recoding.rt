//! Bytes that are decoded and encoded again.
use cbor_edn::DelimiterPolicy;
use cbor_edn::laws::recode::{item, recoded, recoded_by_text};
use cbor_edn_expect::digits_of;
use cbor_edn_expect::failures::Failures;
use std::alloc::Global;
use std::test::Fail;

/// Bytes in digits, and the same digits or the name of the refusal: an array of two items of RFC 8949, appendix A, and a beginning of it.
const ROWS: &[(&str, &str)] = &[
    // a tagged integer and NaN
    ("82c11a514b67b0f97e00", "82c11a514b67b0f97e00"),
    // the second item is cut off
    ("82c11a514b67b0", "OutOfData"),
];

fn see_recoded(
    failures: &mut Failures,
    alloc: Global,
    digits: &str,
    wanted: &str,
) -> Result<(), Fail> {
    let bytes = hex::decode(alloc, digits)?;
    let told = digits_of(alloc, recoded(alloc, bytes.as_slice()))?;
    failures.row(alloc, digits, told.as_str(), wanted)?;
    Ok(())
}

/// By way of a text, of a sequence and of an item.
fn see_recoded_by_text(
    failures: &mut Failures,
    alloc: Global,
    digits: &str,
    policies: &[DelimiterPolicy],
    wanted: &str,
) -> Result<(), Fail> {
    let row = format!(in alloc; "{digits} by {policies:?}")?;
    let bytes = hex::decode(alloc, digits)?;
    let told = digits_of(alloc, recoded_by_text(alloc, bytes.as_slice(), policies))?;
    failures.row(alloc, row.as_str(), told.as_str(), wanted)?;
    let told = item::recoded_by_text(alloc, bytes.as_slice(), policies);
    let told = digits_of(alloc, told)?;
    failures.row(alloc, row.as_str(), told.as_str(), wanted)?;
    Ok(())
}

#[test]
fn recodes_bytes(rt: HostRuntime) -> Result<(), Fail> {
    let alloc = rt.alloc();
    let mut failures = Failures::new(alloc);
    let policies = [DelimiterPolicy::indented(), DelimiterPolicy::SingleSpace];
    for &(digits, wanted) in ROWS {
        see_recoded(&mut failures, alloc, digits, wanted)?;
        for policies in [policies.as_slice(), &[]] {
            see_recoded_by_text(&mut failures, alloc, digits, policies, wanted)?;
        }
    }
    failures.end()
}
