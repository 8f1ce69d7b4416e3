//! What is told of files, on standard error. No name and no input acts on a terminal by it.

use cbor_edn::engine::{Options, RunError};
use cbor_edn_findings::finding::{Finding, of_run};
use cbor_edn_findings::shown::lines;
use cbor_edn_terminal::shown;
use std::io::{self, ErrorKind};

/// What standard input is called where it is spoken of.
const STANDARD_INPUT: &str = "<stdin>";

/// What was told.
#[derive(Debug, Drop)]
pub(crate) enum Told {
    /// A file is at fault, or would change.
    OfFile,
    /// Standard output takes no more.
    OfOutput,
}

/// What a file is called where it is spoken of.
pub(super) fn spoken(name: &str) -> &str {
    if name == "-" { STANDARD_INPUT } else { name }
}

/// Tells of a file by some words.
pub(super) fn tell(rt: &HostRuntime, name: &str, words: &str) -> Told {
    match shown(rt.alloc(), spoken(name)) {
        Ok(name) => {
            let _ = eprintln!(rt; "cbor-edn: {name}: {words}");
        }
        Err(_) => {
            let _ = eprintln!(rt; "cbor-edn: Out of memory");
        }
    }
    Told::OfFile
}

/// Tells that standard output took not all.
pub(super) fn tell_lost(rt: &HostRuntime, error: &io::Error) -> Told {
    let _ = tell_error(rt, "<stdout>", error);
    Told::OfOutput
}

/// Tells of a call that failed.
pub(super) fn tell_error(rt: &HostRuntime, name: &str, error: &io::Error) -> Told {
    if error.kind() == ErrorKind::OutOfMemory {
        return tell_no_memory(rt, name);
    }
    match error.to_string(rt.alloc()) {
        Ok(words) => tell(rt, name, &words),
        Err(_) => tell_no_memory(rt, name),
    }
}

/// Tells that memory ran out.
pub(super) fn tell_no_memory(rt: &HostRuntime, name: &str) -> Told {
    tell(rt, name, "Out of memory")
}

/// Tells of an input that a run of these options refused, with the place.
pub(super) fn tell_refused(
    rt: &HostRuntime,
    name: &str,
    options: &Options,
    input: &[u8],
    fault: RunError,
) -> Told {
    match of_run(rt.alloc(), options, input, fault) {
        Ok(finding) => tell_finding(rt, name, input, &finding),
        Err(_) => tell_no_memory(rt, name),
    }
}

/// Tells of what was found in an input.
pub(super) fn tell_finding(rt: &HostRuntime, name: &str, input: &[u8], finding: &Finding) -> Told {
    match lines(rt.alloc(), spoken(name), input, finding) {
        Ok(lines) => {
            let _ = eprint!(rt; "{lines}");
            Told::OfFile
        }
        Err(_) => tell_no_memory(rt, name),
    }
}
