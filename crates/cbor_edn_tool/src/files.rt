//! The commands for files: each file is read whole, and one at fault does not keep the others from being looked at. Behind a failed
//! standard output none is.

mod check;
mod format;
mod show;
mod told;
pub(crate) mod whole;

use crate::FAULT;
use cbor_edn::file_options::FileCommand;
use cbor_edn::file_words::file_command;
use std::fs;
use std::io::{self, Read};
use told::Told;

/// The exit status of a command for files, if its words are one: else they say why not.
pub(crate) fn serve(rt: &HostRuntime, words: &[&str]) -> Result<u8, clap::Error> {
    let (command, names) = file_command(rt.alloc(), words)?;
    let several = names.len() > 1;
    let mut status = 0;
    for name in &names {
        let fared = match command {
            FileCommand::Show(options) => show::show_file(rt, &options, name, several),
            FileCommand::Format(options) => format::format_file(rt, &options, name),
            FileCommand::Check(options) => check::check_file(rt, &options, name),
        };
        match fared {
            Ok(()) => {}
            Err(Told::OfFile) => status = FAULT,
            Err(Told::OfOutput) => return Ok(FAULT),
        }
    }
    Ok(status)
}

/// All bytes of a file, or of standard input.
fn bytes_of(rt: &HostRuntime, name: &str) -> Result<Vec<u8>, Told> {
    if name == "-" {
        standard_input(rt).map_err(|error| told::tell_error(rt, name, &error))
    } else {
        bytes_behind(rt, name, name)
    }
}

/// All bytes of a file, which is told by another name.
fn bytes_behind(rt: &HostRuntime, name: &str, target: &str) -> Result<Vec<u8>, Told> {
    fs::read(rt, target).map_err(|error| told::tell_error(rt, name, &error))
}

fn standard_input(rt: &HostRuntime) -> io::Result<Vec<u8>> {
    let mut bytes = Vec::new(rt.alloc());
    rt.stdin().read_to_end(&mut bytes)?;
    Ok(bytes)
}
