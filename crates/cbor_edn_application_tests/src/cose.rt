//! Comments in COSE messages.
use crate::common::sequence_of;
use cbor_edn_application::visits::{
    annotate_claims_sets, annotate_messages, comment_claims_keys, comment_cose, show_embedded,
};
use cbor_edn_expect::failures::Failures;
use std::alloc::Global;
use std::test::Fail;

/// Before and after. The names of messages, parts and header parameters, and the order of the parts, are those of RFC 9052 (sections 2,
/// 3.1, 4.1, 4.2, 5.1, 5.2, 6.1 and 6.2), RFC 8152 (section 3.1, for label 7) and RFC 9360 (section 2), those of algorithms of RFC 9053.
const ROWS: &[(&str, &str)] = &[
    (
        "18([h'a10126', {4: '11'}, h'', h'00'])",
        "18([<<{1/ alg /: -7/ ES256 /}>>/ protected /, {4/ kid /: '11'}/ unprotected /, h''/ payload /, h'00'/ signature /])/ COSE_Sign1 /",
    ),
    (
        "16([h'a1010a', {5: h'00', 6: h'', 99: 1}, null])",
        "16([<<{1/ alg /: 10/ AES-CCM-16-64-128 /}>>/ protected /, {5/ IV /: h'00', 6/ Partial IV /: h'', 99: 1}/ unprotected /, null/ ciphertext /])/ COSE_Encrypt0 /",
    ),
    (
        "17([h'', {1: 5}, 'a', h'00'])",
        "17([h''/ protected /, {1/ alg /: 5# HMAC 256/256\n}/ unprotected /, 'a'/ payload /, h'00'/ tag /])/ COSE_Mac0 /",
    ),
    (
        "98([h'', {}, 'a', [[h'a10126', {4: '11'}, h'00'], [h'a1013823', {}, h'01']]])",
        "98([h''/ protected /, {}/ unprotected /, 'a'/ payload /, [[<<{1/ alg /: -7/ ES256 /}>>/ protected /, {4/ kid /: '11'}/ unprotected /, h'00'/ signature /], [<<{1/ alg /: -36/ ES512 /}>>/ protected /, {}/ unprotected /, h'01'/ signature /]]/ signatures /])/ COSE_Sign /",
    ),
    (
        "96([h'', {}, null, [[h'', {1: -6}, h'', [[h'', {1: -5}, h'']]]]])",
        "96([h''/ protected /, {}/ unprotected /, null/ ciphertext /, [[h''/ protected /, {1/ alg /: -6/ direct /}/ unprotected /, h''/ ciphertext /, [[h''/ protected /, {1/ alg /: -5/ A256KW /}/ unprotected /, h''/ ciphertext /]]/ recipients /]]/ recipients /])/ COSE_Encrypt /",
    ),
    (
        "97([h'', {2: [1], 3: 0}, 'a', h'00', [[h'', {33: h'01', 34: [-16, h'02']}, h'']], 6])",
        "97([h''/ protected /, {2/ crit /: [1], 3/ content type /: 0}/ unprotected /, 'a'/ payload /, h'00'/ tag /, [[h''/ protected /, {33/ x5chain /: h'01', 34/ x5t /: [-16, h'02']}/ unprotected /, h''/ ciphertext /]]/ recipients /, 6])/ COSE_Mac /",
    ),
    (
        "16([h'', {7: 1, 32: 2, 35: 3, 36: 4, 1: -99}, null])",
        "16([h''/ protected /, {7/ counter signature /: 1, 32/ x5bag /: 2, 35/ x5u /: 3, 36: 4, 1/ alg /: -99}/ unprotected /, null/ ciphertext /])/ COSE_Encrypt0 /",
    ),
    ("18(1)", "18(1)/ COSE_Sign1 /"),
    ("18([])", "18([])/ COSE_Sign1 /"),
    ("18({1: 2})", "18({1: 2})/ COSE_Sign1 /"),
    ("19([h'a10126', {4: '11'}])", "19([<<{1: -7}>>, {4: '11'}])"),
    (
        "61(18([h'', {}, h'd28440a04100', h'00']))",
        "61(18([h''/ protected /, {}/ unprotected /, h'd28440a04100'/ payload /, h'00'/ signature /])/ COSE_Sign1 /)",
    ),
    (
        "18([h'', {}, h'd28340a0f6', h'00'])",
        "18([h''/ protected /, {}/ unprotected /, <<18([h''/ protected /, {}/ unprotected /, null/ payload /])/ COSE_Sign1 />>/ payload /, h'00'/ signature /])/ COSE_Sign1 /",
    ),
    (
        "18([[{1: 1}], [{1: 1}]])",
        "18([[{1: 1}]/ protected /, [{1: 1}]/ unprotected /])/ COSE_Sign1 /",
    ),
    (
        "18([{1: 1}, h'a10101'])",
        "18([{1: 1}/ protected /, <<{1: 1}>>/ unprotected /])/ COSE_Sign1 /",
    ),
];

fn commented(alloc: Global, text: &str) -> Result<String, Fail> {
    let mut sequence = sequence_of(alloc, text)?;
    show_embedded(alloc, 8, 512, &mut sequence)?;
    comment_cose(alloc, &mut sequence)?;
    Ok(sequence.serialize(alloc)?)
}

#[test]
fn rows(rt: HostRuntime) -> Result<(), Fail> {
    let alloc = rt.alloc();
    let mut failures = Failures::new(alloc);
    for &(text, wanted) in ROWS {
        let told = commented(alloc, text)?;
        failures.row(alloc, text, told.as_str(), wanted)?;
    }
    failures.end()
}

/// Keys and claims, as `show` asks for them. RFC 8747, sections 3.1 to 3.3, RFC 9052, section 7.1, and RFC 9053, sections 7.1 to 7.3, for
/// the names of keys; RFC 8392, sections 3 and 7, for claims and where they stand.
const CLAIMS: &[(&str, &str)] = &[
    (
        "{8: {1: {1: 2, -1: 1, -2: h'00', -3: h'01', 2: '11'}}}",
        "{8/ cnf /: {1/ COSE_Key /: {1/ kty /: 2/ EC2 /, -1/ crv /: 1/ P-256 /, -2/ x /: h'00', -3/ y /: h'01', 2/ kid /: '11'}}}",
    ),
    (
        "{8: {1: {-1: 6, -2: h'00', -4: h'01', 1: 1, 3: -8, 4: [1]}}}",
        "{8/ cnf /: {1/ COSE_Key /: {-1/ crv /: 6/ Ed25519 /, -2/ x /: h'00', -4/ d /: h'01', 1/ kty /: 1/ OKP /, 3/ alg /: -8/ EdDSA /, 4/ key_ops /: [1]}}}",
    ),
    (
        "{8: {1: {1: 4, -1: h'00', 5: h'01', 6: 7}}}",
        "{8/ cnf /: {1/ COSE_Key /: {1/ kty /: 4/ Symmetric /, -1/ k /: h'00', 5/ Base IV /: h'01', 6: 7}}}",
    ),
    (
        "{8: {1: {1: 3, -1: 1}}, 1: {1: {1: 2}}}",
        "{8/ cnf /: {1/ COSE_Key /: {1/ kty /: 3, -1: 1}}, 1/ iss /: {1: {1: 2}}}",
    ),
    (
        "{8: {2: 16([h'', {}, h'']), 3: h'05'}}, [{8: {1: {1: 2}}}]",
        "{8/ cnf /: {2/ Encrypted_COSE_Key /: 16([h'', {}, h'']), 3/ kid /: h'05'}}, [{8: {1: {1: 2}}}]",
    ),
    (
        "{8: 5}, {8: {1: 7}}",
        "{8/ cnf /: 5/ Expected map /}, {8/ cnf /: {1/ COSE_Key /: 7}}",
    ),
    (
        "18([h'', {}, h'a1041a6553f100', h''])",
        "18([h'', {}, <<{4/ exp /: dt'2023-11-14T22:13:20+00:00'}>>, h''])",
    ),
    (
        "61(98([h'', {}, h'a108a101a10104', []]))",
        "61(98([h'', {}, <<{8/ cnf /: {1/ COSE_Key /: {1/ kty /: 4/ Symmetric /}}}>>, []]))",
    ),
    ("17([h'', {}, {4: 1}, h''])", "17([h'', {}, {4: 1}, h''])"),
    ("16([h'', {}, h'a10401'])", "16([h'', {}, <<{4: 1}>>])"),
    ("19([h'', {}, h'a10401'])", "19([h'', {}, <<{4: 1}>>])"),
    ("18({1: 2, h'a10401': 3})", "18({1: 2, <<{4: 1}>>: 3})"),
    (
        "97([h'', {}, h'820401', 'a'])",
        "97([h'', {}, <<[4, 1]>>, 'a'])",
    ),
];

fn annotated(alloc: Global, text: &str) -> Result<String, Fail> {
    let mut sequence = sequence_of(alloc, text)?;
    show_embedded(alloc, 8, 512, &mut sequence)?;
    annotate_claims_sets(alloc, &mut sequence)?;
    comment_claims_keys(alloc, &mut sequence)?;
    annotate_messages(alloc, &mut sequence)?;
    Ok(sequence.serialize(alloc)?)
}

#[test]
fn claims(rt: HostRuntime) -> Result<(), Fail> {
    let alloc = rt.alloc();
    let mut failures = Failures::new(alloc);
    for &(text, wanted) in CLAIMS {
        let told = annotated(alloc, text)?;
        failures.row(alloc, text, told.as_str(), wanted)?;
    }
    failures.end()
}
