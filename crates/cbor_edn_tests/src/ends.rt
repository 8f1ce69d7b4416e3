//! What faults are made of, and what they become as ends of a run.
use cbor_edn::engine::{DeviceFault, RunError};
use cbor_edn::{CborError, Fault, InconsistentEdn, ParseError};
use cbor_edn_expect::expect;
use cbor_edn_expect::failures::Failures;
use cbor_edn_parts::base::error::ParseErrorKind;
use std::alloc::{AllocError, AllocFailed};
use std::test::Fail;

/// What a fault is of: nothing but memory, a text, bytes, the items of a text, or a source.
#[derive(Clone, Copy, Debug)]
enum Cause {
    Memory,
    Text,
    Bytes,
    Items,
    Source,
}

fn fault_of<E: Drop>(told: E, is_told: bool) -> Fault<E> {
    if is_told {
        Fault::Told(told)
    } else {
        Fault::Memory(AllocError)
    }
}

/// The end of a run by a fault that the call tells, or by want of memory.
fn end_of(cause: Cause, is_told: bool) -> RunError {
    match cause {
        Cause::Memory => RunError::from(AllocError),
        Cause::Text => {
            let refused = ParseError::new(ParseErrorKind::Invalid, 7, 2, 3);
            let fault: Fault<ParseError> = fault_of(refused, is_told);
            RunError::from(fault)
        }
        Cause::Bytes => {
            let fault: Fault<CborError> = fault_of(CborError::MissingArgument, is_told);
            RunError::from(fault)
        }
        Cause::Items => {
            let refused = InconsistentEdn::NumberWithoutEncoding;
            let fault: Fault<InconsistentEdn> = fault_of(refused, is_told);
            RunError::from(fault)
        }
        Cause::Source => {
            let fault: Fault<DeviceFault> = fault_of(DeviceFault, is_told);
            RunError::from(fault)
        }
    }
}

/// A fault, whether it is told, and the message of the end that it becomes, by `docs/SUPPORTED.md` ("What refusals say").
const ENDS: &[(Cause, bool, &str)] = &[
    (Cause::Memory, false, "Out of memory"),
    (
        Cause::Text,
        true,
        "Error parsing input data: Invalid EDN in line 2 column 3 (byte 7)",
    ),
    (Cause::Text, false, "Out of memory"),
    (
        Cause::Bytes,
        true,
        "Error decoding input data: Missing argument bytes",
    ),
    (Cause::Bytes, false, "Out of memory"),
    (
        Cause::Items,
        true,
        "Error encoding output data: Number has no encoding",
    ),
    (Cause::Items, false, "Out of memory"),
    (Cause::Source, true, "Error reading input"),
    (Cause::Source, false, "Out of memory"),
];

#[test]
fn ends_of_runs(rt: HostRuntime) -> Result<(), Fail> {
    let alloc = rt.alloc();
    let mut failures = Failures::new(alloc);
    for &(cause, is_told, words) in ENDS {
        let row = format!(in alloc; "{cause:?}, told: {is_told}")?;
        let end = end_of(cause, is_told).to_string(alloc)?;
        failures.row(alloc, row.as_str(), end.as_str(), words)?;
    }
    failures.end()
}

/// A block that is refused, with the value that it was for.
#[test]
fn refused_block() -> Result<(), Fail> {
    let fault: Fault<ParseError> = Fault::from(AllocFailed { value: true });
    expect("want of memory", matches!(&fault, Fault::Memory(_)))
}
