//! Address texts, what they are refused with, and the bytes of addresses.
use cbor_edn_expect::failures::Failures;
use cbor_edn_times_and_addresses::address::{
    IpVersion, filled_address, print_address, read_address, shown_bytes,
};
use std::alloc::Global;
use std::test::Fail;

/// What a text is read as, printed, or the words of its refusal.
fn told(alloc: Global, text: &str) -> Result<String, Fail> {
    match read_address(text) {
        Ok((address, length)) => Ok(print_address(alloc, &address, length)?),
        Err(refused) => Ok(String::from_str(alloc, refused.as_str())?),
    }
}

/// RFC 4291, sections 2.2 and 2.3; RFC 5952, sections 1 to 5; RFC 9164, section 3; RFC 6052, section 2.4; others by the grammar of RFC
/// 4291, as Python's `ipaddress` prints them.
const ADDRESSES: &[(&str, &str)] = &[
    // RFC 4291
    (
        "ABCD:EF01:2345:6789:ABCD:EF01:2345:6789",
        "abcd:ef01:2345:6789:abcd:ef01:2345:6789",
    ),
    ("2001:DB8:0:0:8:800:200C:417A", "2001:db8::8:800:200c:417a"),
    ("FF01:0:0:0:0:0:0:101", "ff01::101"),
    ("0:0:0:0:0:0:0:1", "::1"),
    ("0:0:0:0:0:0:0:0", "::"),
    ("0:0:0:0:0:0:13.1.68.3", "::d01:4403"),
    ("0:0:0:0:0:FFFF:129.144.52.38", "::ffff:129.144.52.38"),
    (
        "2001:0DB8:0000:CD30:0000:0000:0000:0000/60",
        "2001:db8:0:cd30::/60",
    ),
    ("2001:0DB8::CD30:0:0:0:0/60", "2001:db8:0:cd30::/60"),
    ("2001:0DB8:0:CD30::/60", "2001:db8:0:cd30::/60"),
    // RFC 5952
    ("2001:db8:0:0:1:0:0:1", "2001:db8::1:0:0:1"),
    ("2001:0db8:0:0:1:0:0:1", "2001:db8::1:0:0:1"),
    ("2001:db8::0:1:0:0:1", "2001:db8::1:0:0:1"),
    ("2001:0db8::0001", "2001:db8::1"),
    ("2001:db8:0:0:0:0:2:1", "2001:db8::2:1"),
    ("2001:db8::1:1:1:1:1", "2001:db8:0:1:1:1:1:1"),
    ("2001:0:0:1:0:0:0:1", "2001:0:0:1::1"),
    (
        "2001:db8:aaaa:bbbb:cccc:dddd:eeee:AAAA",
        "2001:db8:aaaa:bbbb:cccc:dddd:eeee:aaaa",
    ),
    ("0:0:0:0:0:ffff:c000:0201", "::ffff:192.0.2.1"),
    // RFC 9164, RFC 6052
    ("192.0.2.1", "192.0.2.1"),
    ("192.0.2.0/24", "192.0.2.0/24"),
    (
        "2001:db8:1234:deed:beef:cafe:face:feed",
        "2001:db8:1234:deed:beef:cafe:face:feed",
    ),
    ("2001:db8:1234::/48", "2001:db8:1234::/48"),
    ("64:ff9b::192.0.2.33", "64:ff9b::c000:221"),
    // others
    ("0.0.0.0", "0.0.0.0"),
    ("255.255.255.255/32", "255.255.255.255/32"),
    ("1::", "1::"),
    ("1:2:3:4:5:6:7::", "1:2:3:4:5:6:7:0"),
    ("1::2:3:4:5:6:7", "1:0:2:3:4:5:6:7"),
    ("1:2:3:4:5:6:1.2.3.4", "1:2:3:4:5:6:102:304"),
    ("1:0:0:2:0:0:3:4", "1::2:0:0:3:4"),
    ("0:0:1:0:0:1:0:0", "::1:0:0:1:0:0"),
    ("10.0.0.0/008", "10.0.0.0/8"),
    ("::/0", "::/0"),
    ("::1/128", "::1/128"),
];

/// Texts that the grammar of RFC 4291 or that of four decimals refuses.
const UNKNOWN_FORMATS: &[&str] = &[
    "",
    "/8",
    "1::2::3",
    ":::",
    ":1::",
    "1:2:3",
    "1:2:3:4:5:6:7:8:9",
    "1:2:3:4:5:6:7::8",
    "1:2:3:4:5:6:7:1.2.3.4",
    "12345::",
    "::1.2.3",
    "1.2.3.4::",
    "::g",
    "[::]",
    "::1%1",
    " ::",
    "01.2.3.4",
    "256.1.1.1",
    "1.2.3",
    "1.2.3.4.5",
    // RFC 4291, section 2.3: no legal text of a prefix
    "2001:0DB8:0:CD3/60",
    // the format is told before the length
    "10.0.0/33",
];

/// Prefix lengths that are no 1 to 3 digits up to 255, told before the address is looked at.
const NO_LENGTHS: &[&str] = &[
    "10.0.0.0/256",
    "10.0.0.0/999",
    "10.0.0.0/8/8",
    "10.0.0.0/",
    "10.0.0.0/+8",
    "10.0.0.0/-8",
    "10.0.0.0/0008",
    "10.0.0.0/8 ",
    "10.0.0.0/0x8",
    "10.0.0.0/٨",
    "x/y",
];

const TOO_LARGE: &[&str] = &["10.0.0.0/33", "10.0.0.1/255", "::/129", "::1/200"];

/// The last two are RFC 4291's, section 2.3: addresses, but no texts of the prefix 2001:0DB8:0000:CD30::/60.
const BITS_OUTSIDE: &[&str] = &[
    "192.0.2.1/24",
    "192.0.2.128/24",
    "128.0.0.0/0",
    "::1/127",
    "2001:0DB8::CD30/60",
    "2001:0DB8::CD3/60",
];

fn see_refused(
    failures: &mut Failures,
    alloc: Global,
    texts: &[&str],
    words: &str,
) -> Result<(), Fail> {
    for text in texts {
        failures.row(alloc, text, told(alloc, text)?.as_str(), words)?;
    }
    Ok(())
}

#[test]
fn texts(rt: HostRuntime) -> Result<(), Fail> {
    let alloc = rt.alloc();
    let mut failures = Failures::new(alloc);
    for (text, wanted) in ADDRESSES {
        failures.row(alloc, text, told(alloc, text)?.as_str(), wanted)?;
    }
    see_refused(
        &mut failures,
        alloc,
        UNKNOWN_FORMATS,
        "No recognized address format",
    )?;
    see_refused(
        &mut failures,
        alloc,
        NO_LENGTHS,
        "Prefix is not a (short) number",
    )?;
    see_refused(
        &mut failures,
        alloc,
        TOO_LARGE,
        "Prefix exceeds address size",
    )?;
    see_refused(
        &mut failures,
        alloc,
        BITS_OUTSIDE,
        "No bits must be set in the address outside the prefix length",
    )?;
    failures.end()
}

/// RFC 9164, section 3, as bytes of an item: the bytes and the prefix length beside them, the text of their address, and the bytes that it
/// has again.
const BYTES: &[(IpVersion, &[u8], Option<u8>, &str, &str)] = &[
    (
        IpVersion::V4,
        &[192, 0, 2, 1],
        None,
        "192.0.2.1",
        "[192, 0, 2, 1]",
    ),
    (
        IpVersion::V4,
        &[192, 0, 2],
        Some(24),
        "192.0.2.0/24",
        "[192, 0, 2]",
    ),
    (
        IpVersion::V4,
        &[192, 0, 2, 0],
        Some(24),
        "192.0.2.0/24",
        "[192, 0, 2]",
    ),
    (
        IpVersion::V4,
        &[192, 0, 2, 0],
        None,
        "192.0.2.0",
        "[192, 0, 2, 0]",
    ),
    (
        IpVersion::V6,
        &[0x20, 0x01, 0x0d, 0xb8, 0x12, 0x34],
        Some(48),
        "2001:db8:1234::/48",
        "[32, 1, 13, 184, 18, 52]",
    ),
    (IpVersion::V6, &[], Some(0), "::/0", "[]"),
    (
        IpVersion::V6,
        &[0, 0, 0, 0, 0, 0, 0, 0, 0, 0, 255, 255, 192, 0, 2, 1],
        None,
        "::ffff:192.0.2.1",
        "[0, 0, 0, 0, 0, 0, 0, 0, 0, 0, 255, 255, 192, 0, 2, 1]",
    ),
];

#[test]
fn bytes(rt: HostRuntime) -> Result<(), Fail> {
    let alloc = rt.alloc();
    let mut failures = Failures::new(alloc);
    for (version, bytes, prefix_length, text, again) in BYTES {
        if bytes.len() > 4 && (*version == IpVersion::V4 || bytes.len() > 16) {
            return Err(Fail::new("a row with too many bytes"));
        }
        let address = filled_address(*version, bytes);
        let printed = print_address(alloc, &address, *prefix_length)?;
        failures.row(alloc, text, printed.as_str(), text)?;
        let shown = shown_bytes(alloc, &address, *prefix_length)?;
        failures.row(alloc, text, format!(in alloc; "{shown:?}")?.as_str(), again)?;
    }
    failures.end()
}
