//! `show`: CBOR to standard output.

use super::bytes_of;
use super::told::{Told, spoken, tell_lost, tell_no_memory, tell_refused};
use cbor_edn::show::{ShowOptions, behind_name, shown};
use std::io::Write;

/// Writes what is shown of a file, behind a comment with its name where there are several: all of it, or nothing where the file is at
/// fault.
pub(super) fn show_file(
    rt: &HostRuntime,
    options: &ShowOptions,
    name: &str,
    several: bool,
) -> Result<(), Told> {
    let bytes = bytes_of(rt, name)?;
    let text = match shown(rt.alloc(), options, &bytes) {
        Ok(text) => text,
        Err(fault) => return Err(tell_refused(rt, name, &options.steps(), &bytes, fault)),
    };
    if !several {
        return write(rt, &text);
    }
    match behind_name(rt.alloc(), spoken(name), &text) {
        Ok(text) => write(rt, &text),
        Err(_) => Err(tell_no_memory(rt, name)),
    }
}

/// Writes to standard output.
pub(super) fn write(rt: &HostRuntime, text: &[u8]) -> Result<(), Told> {
    rt.stdout()
        .write_all(text)
        .map_err(|error| tell_lost(rt, &error))
}
