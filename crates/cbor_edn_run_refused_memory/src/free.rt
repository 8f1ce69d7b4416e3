//! Calls that take no memory: each is done while every request for memory is refused.
use crate::runs::roomy_sink;
use cbor_edn::engine::{Command, DeviceFault, RunError};
use cbor_edn::file_options::{CheckOptions, FormatOptions, ShowOptions};
use cbor_edn::file_words::is_file_command;
use cbor_edn::{CborError, Fault, InconsistentEdn, NESTING_LIMIT, ParseError};
use cbor_edn_expect::memory::Failure;
use std::alloc::{AllocError, Global};

#[derive(Clone, Copy)]
pub(crate) enum Group {
    Ends,
    Files,
    /// A call that takes memory, by which it is seen that requests are refused.
    Control,
}

/// A name, and a group of calls.
pub(crate) type Row = (&'static str, Group);

/// Ends of runs by the words of `RunError`.
pub(crate) const FREE: &[Row] = &[
    ("From<..> for RunError", Group::Ends),
    ("commands for files", Group::Files),
    ("a call that takes memory", Group::Control),
];

/// Makes the calls of a row.
pub(crate) fn called(alloc: Global, row: &Row) -> Result<bool, Failure> {
    match row.1 {
        Group::Ends => Ok(is_memory() && is_text() && is_cbor() && is_inconsistent() && is_read()),
        Group::Files => Ok(is_file_command("fmt") && is_shown() && is_formatted() && is_checked()),
        Group::Control => control(alloc),
    }
}

fn is_memory() -> bool {
    let end = RunError::from(AllocError);
    matches!(&end, RunError::Memory(_))
}

fn is_text() -> bool {
    let fault: Fault<ParseError> = Fault::Memory(AllocError);
    let end = RunError::from(fault);
    matches!(&end, RunError::Memory(_))
}

fn is_cbor() -> bool {
    let fault: Fault<CborError> = Fault::Told(CborError::TooDeep);
    let end = RunError::from(fault);
    matches!(&end, RunError::Cbor(CborError::TooDeep))
}

fn is_inconsistent() -> bool {
    let fault: Fault<InconsistentEdn> = Fault::Told(InconsistentEdn::InvalidSimple);
    let end = RunError::from(fault);
    matches!(&end, RunError::Inconsistent(InconsistentEdn::InvalidSimple))
}

fn is_read() -> bool {
    let fault: Fault<DeviceFault> = Fault::Told(DeviceFault);
    let end = RunError::from(fault);
    matches!(&end, RunError::Read)
}

fn is_shown() -> bool {
    let options = ShowOptions {
        hex: true,
        levels: 8,
        names: true,
        bignum_from_tags: false,
        annotate_ccs: true,
        limit: NESTING_LIMIT,
    };
    let steps = options.steps();
    steps.command == Command::Cbor2Diag && steps.hex && steps.annotate_ccs
}

fn is_formatted() -> bool {
    let options = FormatOptions {
        only_lists: false,
        remove_comments: true,
        force: false,
        limit: 3,
    };
    let steps = options.steps();
    steps.command == Command::Diag2Diag && steps.remove_comments && steps.limit == 3
}

fn is_checked() -> bool {
    let options = CheckOptions {
        apply_999: true,
        cbor: false,
        limit: 3,
    };
    let steps = options.steps(false);
    steps.command == Command::Diag2Cbor && steps.apply_999 && steps.aol_to_item
}

fn control(alloc: Global) -> Result<bool, Failure> {
    let sink = roomy_sink(alloc)?;
    let written = sink.into_inner();
    Ok(written.is_empty())
}
