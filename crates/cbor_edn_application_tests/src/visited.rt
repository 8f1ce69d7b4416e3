//! Sequences that are visited with each function: their texts before and after.
use crate::whole::Visit::{
    self, CommentLanguages, Prettify, PrettifyAddresses, PrettifyBignums, PrettifyTimes, Resolve,
    ResolveAddresses, ResolveTimes, To999,
};
use crate::whole::expect_rows;
use std::test::Fail;

/// RFC 3339, section 5.6, and RFC 8949, section 3.4.2, with the seconds that Python's `datetime` gives; the vectors of upstream's tests.
const TIMES: &[(Visit, &str, &str)] = &[
    (ResolveTimes, "dt'1969-07-21T02:56:16Z'", "-14159024"),
    (ResolveTimes, "dt'1969-07-21T02:56:16.5Z'", "-14159023.5"),
    (ResolveTimes, "DT'1969-07-21T02:56:16Z'", "1(-14159024)"),
    (ResolveTimes, "dt'2000-02-29T00:00:00+01:00'", "951778800"),
    (ResolveTimes, "dt'1969-12-31T23:59:59.75Z'", "-0.25"),
    (ResolveTimes, "[dt'1970-01-01T00:00:23Z']", "[23]"),
    (
        ResolveTimes,
        "{/a/dt'1970-01-01t00:00:00z'_1 : [DT'9999-12-31T23:59:59-00:00']}",
        "{/a/0 : [1(253402300799)]}",
    ),
    (
        ResolveTimes,
        "dt'2001-02-29T00:00:00Z'",
        "dt'2001-02-29T00:00:00Z'/ DateTime parsing failed /",
    ),
    (ResolveTimes, "ip'192.0.2.1'", "ip'192.0.2.1'"),
    (
        PrettifyTimes,
        "{/now/0: 1(42)}",
        "{/now/0: DT'1970-01-01T00:00:42+00:00'}",
    ),
    (
        PrettifyTimes,
        "{/now/0: 1(1.5)}",
        "{/now/0: DT'1970-01-01T00:00:01.500+00:00'}",
    ),
    (
        PrettifyTimes,
        "1(-1.5)",
        "DT'1969-12-31T23:59:58.500+00:00'",
    ),
    (
        PrettifyTimes,
        "1_i( 0x2a /c/)",
        "DT'1970-01-01T00:00:42+00:00'",
    ),
    (
        PrettifyTimes,
        "1(253402300799)",
        "DT'9999-12-31T23:59:59+00:00'",
    ),
    (
        PrettifyTimes,
        "1(-62167219201)",
        "1(-62167219201)/ Value out of range for time stamps /",
    ),
    (
        PrettifyTimes,
        "1(0x1000000000000000000000000000000000000000000000000)",
        "1(0x1000000000000000000000000000000000000000000000000)/ Value out of range for time stamps /",
    ),
    (
        PrettifyTimes,
        "1(\"x\")",
        "1(\"x\")/ Numeric value expected for dt'' literal /",
    ),
    (
        PrettifyTimes,
        "1(NaN)",
        "1(NaN)/ Numeric value expected for dt'' literal /",
    ),
    (
        PrettifyTimes,
        "1(1e3)",
        "1(1e3)/ Number not readable as a time /",
    ),
    (
        PrettifyTimes,
        "1(1.5_1)",
        "1(1.5_1)/ Number not readable as a time /",
    ),
    (
        PrettifyTimes,
        "1_0(42)",
        "1_0(42)/ Conversion would change the encoding /",
    ),
    (
        PrettifyTimes,
        "1(42_1)",
        "1(42_1)/ Conversion would change the encoding /",
    ),
    (PrettifyTimes, "0(42)", "0(42)"),
];

/// RFC 9164, section 3, and upstream's vectors; RFC 4291 for the address of IPv4 in one of IPv6.
const ADDRESSES: &[(Visit, &str, &str)] = &[
    (ResolveAddresses, "ip'192.0.2.42'", "h'c000022a'"),
    (ResolveAddresses, "IP'192.0.2.42'", "52(h'c000022a')"),
    (ResolveAddresses, "IP'192.0.2.0/24'", "52([24, h'c00002'])"),
    (
        ResolveAddresses,
        "ip'2001:db8::42'",
        "h'20010db8000000000000000000000042'",
    ),
    (
        ResolveAddresses,
        "IP'2001:db8::42'",
        "54(h'20010db8000000000000000000000042')",
    ),
    (
        ResolveAddresses,
        "IP'2001:db8::/64'",
        "54([64, h'20010db8'])",
    ),
    (
        ResolveAddresses,
        "52([ip'192.0.2.42',24])",
        "52([h'c000022a',24])",
    ),
    (ResolveAddresses, "IP'0.0.0.0/0'", "52([0, h''])"),
    (
        ResolveAddresses,
        "[ip'2001:db8::1234', IP'127.0.0.0/8']",
        "[h'20010db8000000000000000000001234', 52([8, h'7f'])]",
    ),
    (ResolveAddresses, "ip'192.0.2.1'_0", "h'c0000201'"),
    (
        ResolveAddresses,
        "IP'192.0.2.1/24'",
        "IP'192.0.2.1/24'/ No bits must be set in the address outside the prefix length /",
    ),
    (
        ResolveAddresses,
        "ip'10.0.0.0/256'",
        "ip'10.0.0.0/256'/ Prefix is not a (short) number /",
    ),
    (
        ResolveAddresses,
        "ip'10.0.0.0/8/8'",
        "ip'10.0.0.0/8/8'/ Prefix is not a (short) number /",
    ),
    (
        ResolveAddresses,
        "ip'10.0.0'",
        "ip'10.0.0'/ No recognized address format /",
    ),
    (
        ResolveAddresses,
        "ip'10.0.0.0/33'",
        "ip'10.0.0.0/33'/ Prefix exceeds address size /",
    ),
    (PrettifyAddresses, "52(h'c000022a')", "IP'192.0.2.42'"),
    (PrettifyAddresses, "52([24,h'c00002'])", "IP'192.0.2.0/24'"),
    (
        PrettifyAddresses,
        "54(h'20010db8000000000000000000000042')",
        "IP'2001:db8::42'",
    ),
    (
        PrettifyAddresses,
        "54([64,h'20010db8'])",
        "IP'2001:db8::/64'",
    ),
    (
        PrettifyAddresses,
        "52([h'c000022a',24])",
        "52([ip'192.0.2.42',24])",
    ),
    (
        PrettifyAddresses,
        "52([_ h'c000022a', 24])",
        "52([_ ip'192.0.2.42', 24])",
    ),
    (
        PrettifyAddresses,
        "54(h'00000000000000000000ffffc0000201')",
        "IP'::ffff:192.0.2.1'",
    ),
    (PrettifyAddresses, "54([0, h''])", "IP'::/0'"),
    (PrettifyAddresses, "52(<<1,2,3,4>>)", "IP'1.2.3.4'"),
    (
        PrettifyAddresses,
        "52_1(h'c0000201')",
        "52_1(h'c0000201')/ Conversion would change the encoding /",
    ),
    (
        PrettifyAddresses,
        "52_1(1)",
        "52_1(1)/ Unexpected type for this tag /",
    ),
    (
        PrettifyAddresses,
        "52(h'c000')",
        "52(h'c000')/ Data too short for address type /",
    ),
    (
        PrettifyAddresses,
        "52(h'c000020100')",
        "52(h'c000020100')/ Data too long for address type /",
    ),
    (
        PrettifyAddresses,
        "52([])",
        "52([])/ Array too short for IP tag /",
    ),
    (
        PrettifyAddresses,
        "52([24])",
        "52([24])/ Array too short for IP tag /",
    ),
    (
        PrettifyAddresses,
        "52([24, h'c00002', 1])",
        "52([24, h'c00002', 1])/ Address with prefix and zone identifier is inexpressible in IP'' literal /",
    ),
    (
        PrettifyAddresses,
        "52([\"a\", h'c00002'])",
        "52([\"a\", h'c00002'])/ Address with prefix is inexpressible in IP'' literal /",
    ),
    (
        PrettifyAddresses,
        "52([24, 1])",
        "52([24, 1])/ Second element after an integer must be a byte string /",
    ),
    (
        PrettifyAddresses,
        "52([33, h'c00002'])",
        "52([33, h'c00002'])/ Prefix exceeds address size /",
    ),
    (
        PrettifyAddresses,
        "52([24, h'c0000200'])",
        "52([24, h'c0000200'])/ Conversion would change the encoding /",
    ),
    (
        PrettifyAddresses,
        "52(54(h'c0000201'))",
        "52(54(h'c0000201')/ Data too short for address type /)/ Unexpected type for this tag /",
    ),
];

/// RFC 8949, section 3.4.3 and appendix A.
const BIGNUMS: &[(Visit, &str, &str)] = &[
    (
        PrettifyBignums,
        "[2(h'010000000000000000'), 3(h'010000000000000000')]",
        "[18446744073709551616, -18446744073709551617]",
    ),
    (
        PrettifyBignums,
        "2(h'01' + '' + h'0000000000000000')",
        "18446744073709551616",
    ),
    (PrettifyBignums, "2(h'ff')", "2(h'ff')"),
    (
        PrettifyBignums,
        "2(h'00010000000000000000')",
        "2(h'00010000000000000000')",
    ),
    (
        PrettifyBignums,
        "[2_i(h'010000000000000000'), 2(h'010000000000000000'_0), 2(<<0>> + h'01'), 2(1), 4(h'01')]",
        "[2_i(h'010000000000000000'), 2(h'010000000000000000'_0), 2(<<0>> + h'01'), 2(1), 4(h'01')]",
    ),
    (
        PrettifyBignums,
        "3(h'ffffffffffffffffffffffffffffffff')",
        "3(h'ffffffffffffffffffffffffffffffff')",
    ),
    (
        PrettifyBignums,
        "2(h'ffffffffffffffffffffffffffffffff')",
        "340282366920938463463374607431768211455",
    ),
];

/// All at once; tag 999 for what no function knows; directions of tag 38 (RFC 9290, appendix A).
const OTHERS: &[(Visit, &str, &str)] = &[
    (
        Prettify,
        "[1(42), 52(h'c0000201'), 2(h'010000000000000000'), <<1(0)>>, 38([1])]",
        "[DT'1970-01-01T00:00:42+00:00', IP'192.0.2.1', 18446744073709551616, <<DT'1970-01-01T00:00:00+00:00'>>, 38([1])]",
    ),
    (
        Prettify,
        "[1(1(0)), 52(h'00')]",
        "[1(DT'1970-01-01T00:00:00+00:00')/ Numeric value expected for dt'' literal /, 52(h'00')/ Data too short for address type /]",
    ),
    (
        Resolve,
        "[dt'1970-01-01T00:00:23Z', IP'127.0.0.0/8', <<ip'192.0.2.1'>>, foo'x', h'00']",
        "[23, 52([8, h'7f']), <<h'c0000201'>>, foo'x', h'00']",
    ),
    (To999, "foo'bar'", "999([\"foo\", \"bar\"])"),
    (
        To999,
        "[h'00', foo'bar'_0 , b32'', b64'', h32'', \"a\", <<ip'x'>>]",
        "[h'00', 999([\"foo\", \"bar\"]) , b32'', b64'', h32'', \"a\", <<999([\"ip\", \"x\"])>>]",
    ),
    (
        CommentLanguages,
        "38([\"he\", \"x\", true])",
        "38([\"he\", \"x\", true/ Right-to-left /])",
    ),
    (
        CommentLanguages,
        "[38([\"en\", \"Hello\"]), 38([\"he\", 'x', false , true]), 38([1,2,null]), 38([1,2,3]), 37(0)]",
        "[38([\"en\", \"Hello\"]), 38([\"he\", 'x', false/ Left-to-right / , true]), 38([1,2,null/ Automatic direction /]), 38([1,2,3]), 37(0)]",
    ),
    (CommentLanguages, "38({})", "38({})/ Expected array /"),
];

#[test]
fn times(rt: HostRuntime) -> Result<(), Fail> {
    expect_rows(rt.alloc(), TIMES)
}

#[test]
fn addresses(rt: HostRuntime) -> Result<(), Fail> {
    expect_rows(rt.alloc(), ADDRESSES)
}

#[test]
fn bignums(rt: HostRuntime) -> Result<(), Fail> {
    expect_rows(rt.alloc(), BIGNUMS)
}

#[test]
fn others(rt: HostRuntime) -> Result<(), Fail> {
    expect_rows(rt.alloc(), OTHERS)
}
