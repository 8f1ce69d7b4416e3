//! Time texts, the numbers of their instants, and numbers printed as times.
ghost use Rattle.std.specs.Prelude.{IfOk};
ghost use Rattle.cbor_edn_times_and_addresses.specs.Time.{IsTimeStamp};

use cbor_edn_expect::failures::Failures;
use cbor_edn_times_and_addresses::time::{
    Instant, NotTime, number_text, printed_time, read_decimal, read_integer, read_time,
};
use std::alloc::Global;
use std::test::Fail;

/// What is told of a text that is no time.
const NO_TIME: &str = "no time";

const UNREADABLE: &str = "unreadable";

const OUT_OF_RANGE: &str = "out of range";

/// The number that the instant of a time text is written as.
fn number_of_time(alloc: Global, text: &str) -> Result<String, Fail> {
    match read_time(text.as_bytes()) {
        Some(instant) => Ok(number_text(alloc, instant)?),
        None => Ok(String::from_str(alloc, NO_TIME)?),
    }
}

/// The time that a number is printed as.
fn time_of_number(alloc: Global, number: &str) -> Result<String, Fail> {
    match instant_of_number(number) {
        Ok(instant) => Ok(printed_time(alloc, instant)?),
        Err(NotTime::Unreadable) => Ok(String::from_str(alloc, UNREADABLE)?),
        Err(NotTime::OutOfRange) => Ok(String::from_str(alloc, OUT_OF_RANGE)?),
    }
}

fn instant_of_number(number: &str) -> Result<Instant, NotTime>
    ensures { IfOk result (λ i. IsTimeStamp i.seconds) }
{
    match number.parse::<i128>() {
        Ok(seconds) => match read_integer(seconds) {
            Some(instant) => Ok(instant),
            None => Err(NotTime::OutOfRange),
        },
        Err(_) => read_decimal(number.as_bytes()),
    }
}

/// RFC 3339, section 5.8, but for its leap seconds, with the seconds that Python's `datetime` counts; RFC 8949, section 3.4.2;
/// the examples of `dt` in draft-ietf-cbor-edn-literals; days of the calendar, by Python's `datetime`.
const TIMES: &[(&str, &str)] = &[
    ("1985-04-12T23:20:50.52Z", "482196050.52"),
    ("1996-12-19T16:39:57-08:00", "851042397"),
    ("1996-12-20T00:39:57Z", "851042397"),
    ("1937-01-01T12:00:27.87+00:20", "-1041337172.13"),
    ("2013-03-21T20:04:00Z", "1363896240"),
    ("2013-03-21T20:04:00.5Z", "1363896240.5"),
    ("1969-07-21T02:56:16Z", "-14159024"),
    ("1969-07-21T02:56:16.5Z", "-14159023.5"),
    ("1969-12-31T23:59:59.75Z", "-0.25"),
    ("1969-12-31T23:59:59.0Z", "-1"),
    ("1970-01-01T00:00:23Z", "23"),
    ("1970-01-01t00:00:23z", "23"),
    ("1970-01-01T00:00:00.000000001Z", "0.000000001"),
    ("1970-01-01T00:00:00.100000000Z", "0.1"),
    ("2000-02-29T00:00:00+01:00", "951778800"),
    ("2038-01-19T03:14:08Z", "2147483648"),
    ("1901-12-13T20:45:52-00:00", "-2147483648"),
    ("1600-02-29T12:00:00Z", "-11670955200"),
    ("1900-02-28T23:59:59Z", "-2203891201"),
    ("1900-03-01T00:00:00Z", "-2203891200"),
    ("2100-03-01T00:00:00Z", "4107542400"),
    ("0004-02-29T00:00:00Z", "-62035891200"),
    ("0001-01-01T00:00:00Z", "-62135596800"),
    ("0000-01-01T00:00:00Z", "-62167219200"),
    ("0000-01-01T00:00:00+23:59", "-62167305540"),
    ("9999-12-31T23:59:59Z", "253402300799"),
    ("9999-12-31T23:59:59-23:59", "253402387139"),
];

/// Texts that RFC 3339 refuses, or that this project does: leap seconds, more than nine digits, a letter but T.
const NO_TIMES: &[&str] = &[
    "",
    "1970-01-01",
    "1970-01-01T00:00:00",
    "1970-01-01T00:00Z",
    "1970-01-01 00:00:00Z",
    "1990-12-31T23:59:60Z",
    "1990-12-31T15:59:60-08:00",
    "1970-01-01T00:60:00Z",
    "1970-01-01T24:00:00Z",
    "1970-01-01T00:00:00.Z",
    "1970-01-01T00:00:00,5Z",
    "1970-01-01T00:00:00.1234567890Z",
    "1970-01-01T00:00:00+24:00",
    "1970-01-01T00:00:00+00:60",
    "1970-01-01T00:00:00+0100",
    "1970-01-01T00:00:00+01",
    "1970-01-01T00:00:00ZZ",
    "1970-01-01T00:00:00Z ",
    " 1970-01-01T00:00:00Z",
    "1970-1-01T00:00:00Z",
    "10000-01-01T00:00:00Z",
    "-001-01-01T00:00:00Z",
    "2001-02-29T00:00:00Z",
    "1900-02-29T00:00:00Z",
    "2100-02-29T00:00:00Z",
    "1970-04-31T00:00:00Z",
    "1970-00-01T00:00:00Z",
    "1970-13-01T00:00:00Z",
    "1970-01-00T00:00:00Z",
];

/// Examples of the Rust crate's documents and tests, whose `chrono` prints them so; RFC 8949, section 3.4.2; the ends of the years 0000 and
/// 9999 and other days, by Python's `datetime`; decimals that round down, and number texts that are no such decimals.
const NUMBERS: &[(&str, &str)] = &[
    ("42", "1970-01-01T00:00:42+00:00"),
    ("-1.5", "1969-12-31T23:59:58.500+00:00"),
    ("1.5", "1970-01-01T00:00:01.500+00:00"),
    ("1700000000", "2023-11-14T22:13:20+00:00"),
    ("1363896240.5", "2013-03-21T20:04:00.500+00:00"),
    ("951782400", "2000-02-29T00:00:00+00:00"),
    ("-2203891200", "1900-03-01T00:00:00+00:00"),
    ("0.000001", "1970-01-01T00:00:00.000001+00:00"),
    ("0.00000012", "1970-01-01T00:00:00.000000120+00:00"),
    ("1.", "1970-01-01T00:00:01+00:00"),
    (".5", "1970-01-01T00:00:00.500+00:00"),
    ("+1.0", "1970-01-01T00:00:01+00:00"),
    ("-.0", "1970-01-01T00:00:00+00:00"),
    (
        "0000000000000000000000000000001.5",
        "1970-01-01T00:00:01.500+00:00",
    ),
    ("-62167219200", "0000-01-01T00:00:00+00:00"),
    ("-62167219200.0", "0000-01-01T00:00:00+00:00"),
    ("253402300799", "9999-12-31T23:59:59+00:00"),
    (
        "253402300799.999999999",
        "9999-12-31T23:59:59.999999999+00:00",
    ),
    ("-62167219201", OUT_OF_RANGE),
    ("-62167219200.000000001", OUT_OF_RANGE),
    ("253402300800", OUT_OF_RANGE),
    ("253402300800.0", OUT_OF_RANGE),
    ("18446744073709551616", OUT_OF_RANGE),
    ("1000000000000000000000000000000000000000.0", OUT_OF_RANGE),
    ("1.0000000000", UNREADABLE),
    ("", UNREADABLE),
    (".", UNREADABLE),
    ("-.", UNREADABLE),
    ("1e3", UNREADABLE),
    ("1.5e3", UNREADABLE),
    ("1.5_1", UNREADABLE),
    ("--1.", UNREADABLE),
    ("0x1.8", UNREADABLE),
];

#[test]
fn times(rt: HostRuntime) -> Result<(), Fail> {
    let alloc = rt.alloc();
    let mut failures = Failures::new(alloc);
    for (text, wanted) in TIMES {
        failures.row(alloc, text, number_of_time(alloc, text)?.as_str(), wanted)?;
    }
    for text in NO_TIMES {
        failures.row(alloc, text, number_of_time(alloc, text)?.as_str(), NO_TIME)?;
    }
    failures.end()
}

#[test]
fn numbers(rt: HostRuntime) -> Result<(), Fail> {
    let alloc = rt.alloc();
    let mut failures = Failures::new(alloc);
    for (number, wanted) in NUMBERS {
        failures.row(
            alloc,
            number,
            time_of_number(alloc, number)?.as_str(),
            wanted,
        )?;
    }
    failures.end()
}
