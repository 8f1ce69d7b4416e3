//! Comments at the keys of claims sets.
use crate::common::standalone_of;
use cbor_edn_application::visits::annotate_claims;
use cbor_edn_core::tree::Item;
use cbor_edn_expect::failures::Failures;
use cbor_edn_parts::base::error::Fault;
use std::alloc::Global;
use std::test::Fail;

/// False where the item is no map.
fn annotate(alloc: Global, item: Option<&mut Item<'_>>) -> Result<bool, Fail> {
    let Some(item) = item else {
        return Err(Fail::new("no item"));
    };
    match annotate_claims(alloc, item) {
        Ok(()) => Ok(true),
        Err(Fault::Told(_)) => Ok(false),
        Err(Fault::Memory(refused)) => Err(Fail::from(refused)),
    }
}

fn annotated(alloc: Global, text: &str) -> Result<String, Fail> {
    let mut item = standalone_of(alloc, text)?;
    if annotate(alloc, item.at_mut(&[]))? {
        Ok(item.serialize(alloc)?)
    } else {
        Ok(String::from_str(alloc, "no map")?)
    }
}

/// RFC 8392, section 3 and appendix A.1, RFC 8747, section 3.1, and RFC 9203, section 3.2.1, with names of the IANA registries.
const ROWS: &[(&str, &str)] = &[
    ("{1: 2}", "{1/ iss /: 2}"),
    ("[{1: 2}]", "no map"),
    ("3", "no map"),
    (
        "{4: 1700000000}",
        "{4/ exp /: dt'2023-11-14T22:13:20+00:00'}",
    ),
    (
        "{8:{4:{3:-17}}}",
        "{8/ cnf /:{4/ osc /:{3/ hkdf /:-17# SHA-512/256\n}}}",
    ),
    (
        "{1: \"coap://as.example.com\", 2: \"erikw\", 3: \"coap://light.example.com\", 4: 1444064944, 5: 1443944944, 6: 1443944944, 7: h'0b71'}",
        "{1/ iss /: \"coap://as.example.com\", 2/ sub /: \"erikw\", 3/ aud /: \"coap://light.example.com\", 4/ exp /: dt'2015-10-05T17:09:04+00:00', 5/ nbf /: dt'2015-10-04T07:49:04+00:00', 6/ iat /: dt'2015-10-04T07:49:04+00:00', 7/ jti /: h'0b71'}",
    ),
    (
        "{9: 1, 38: 2, 39: 3, 40 : [], \"a\": 1, 10: {1: 2}, 8: 1}",
        "{9/ scope /: 1, 38/ ace_profile /: 2, 39/ cnonce /: 3, 40/ exi / : [], \"a\": 1, 10: {1: 2}, 8/ cnf /: 1/ Expected map /}",
    ),
    (
        "{4: \"x\", 0x5_1: 1.5, 6: 1e3 , 170141183460469231731687303715884105728: 0}",
        "{4/ exp /: \"x\"/ Numeric value expected for dt'' literal /, 0x5_1/ nbf /: dt'1970-01-01T00:00:01.500+00:00', 6/ iat /: 1e3/ Number not readable as a time / , 170141183460469231731687303715884105728: 0}",
    ),
    (
        "{8:{3:h'',4:{'a':1,170141183460469231731687303715884105728:1,4:0,4:24,9:1,0:1,1:1,2:1,5:1,6:1}}}",
        "{8/ cnf /:{3/ kid /:h'',4/ osc /:{'a'/ Expected integer /:1,170141183460469231731687303715884105728/ Expected integer in i128 range /:1,4/ alg /:0/ Reserved /,4/ alg /:24# ChaCha20/Poly1305\n,9:1,0/ id /:1,1/ version /:1,2/ ms /:1,5/ salt /:1,6/ contextId /:1}}}",
    ),
];

#[test]
fn claims(rt: HostRuntime) -> Result<(), Fail> {
    let alloc = rt.alloc();
    let mut failures = Failures::new(alloc);
    for &(text, wanted) in ROWS {
        let told = annotated(alloc, text)?;
        failures.row(alloc, text, told.as_str(), wanted)?;
    }
    failures.end()
}

/// The names of algorithms in the registry of COSE, each at the number that it has there.
const ALGORITHMS: &[(&str, &str)] = &[
    ("-18", "SHAKE128"),
    ("-16", "SHA-256"),
    ("-15", "SHA-256/64"),
    ("-14", "SHA-1"),
    ("-13", "direct+HKDF-AES-256"),
    ("-12", "direct+HKDF-AES-128"),
    ("-11", "direct+HKDF-SHA-512"),
    ("-10", "direct+HKDF-SHA-256"),
    ("-9", "Unassigned"),
    ("-8", "EdDSA"),
    ("-7", "ES256"),
    ("-6", "direct"),
    ("-5", "A256KW"),
    ("-4", "A192KW"),
    ("-3", "A128KW"),
    ("1", "A128GCM"),
    ("2", "A192GCM"),
    ("3", "A256GCM"),
    ("4", "HMAC 256/64"),
    ("5", "HMAC 256/256"),
    ("6", "HMAC 384/384"),
    ("7", "HMAC 512/512"),
    ("10", "AES-CCM-16-64-128"),
    ("11", "AES-CCM-16-64-256"),
    ("12", "AES-CCM-64-64-128"),
    ("13", "AES-CCM-64-64-256"),
    ("14", "AES-MAC 128/64"),
    ("15", "AES-MAC 256/64"),
];

/// What a comment of this text is written as: behind `#` where it has a slash.
fn noted(alloc: Global, name: &str) -> Result<String, Fail> {
    if name.contains('/') {
        Ok(format!(in alloc; "# {name}\n")?)
    } else {
        Ok(format!(in alloc; "/ {name} /")?)
    }
}

fn see_algorithm(
    failures: &mut Failures,
    alloc: Global,
    number: &str,
    name: &str,
) -> Result<(), Fail> {
    let text = format!(in alloc; "{{8:{{4:{{4:{number}}}}}}}")?;
    let comment = noted(alloc, name)?;
    let wanted = format!(in alloc; "{{8/ cnf /:{{4/ osc /:{{4/ alg /:{number}{comment}}}}}}}")?;
    let told = annotated(alloc, text.as_str())?;
    failures.row(alloc, text.as_str(), told.as_str(), wanted.as_str())?;
    Ok(())
}

#[test]
fn algorithms(rt: HostRuntime) -> Result<(), Fail> {
    let alloc = rt.alloc();
    let mut failures = Failures::new(alloc);
    for &(number, name) in ALGORITHMS {
        see_algorithm(&mut failures, alloc, number, name)?;
    }
    failures.end()
}
