//! The program `cbor-edn`: EDN into CBOR and back, from file to file.
#![tactic(auto)]

mod files;

use cbor_edn::engine::{Options, RunError, Source, StdSink, StdSource, run, serve};
use cbor_edn::file_words::is_file_command;
use cbor_edn::words::{Conversion, conversion_of};
use cbor_edn_terminal::shown_lines;
use files::whole::put_output;
use std::env;
use std::fs::{self, File, Metadata, OpenFile, OpenOptions};
use std::io::{self, ErrorKind};
use std::os::unix::fs::MetadataExt;
use std::process::ExitCode;

/// The exit status of a fault.
const FAULT: u8 = 1;

/// The exit status of words that are no command line.
const MISUSE: u8 = 2;

const OUT_OF_MEMORY: &str = "Out of memory";

/// Why nothing is done with a file that is emptied before it is read.
const SAME_FILE: &str = "Input and output are the same file";

/// Tells of a fault.
fn fault(rt: &HostRuntime, words: &str) -> u8 {
    let _ = eprintln!(rt; "cbor-edn: {words}");
    FAULT
}

/// Where a caller closed a standard stream, the next file that is opened takes its place. This one is to take it: what is written there
/// is lost, and a read fails.
fn in_place_of_stream(rt: &HostRuntime) -> Option<File> {
    let mut options = OpenOptions::new();
    options.write(true);
    options.open(rt, "/dev/null").ok()
}

/// A run whose output takes the place of the file of this name.
fn serve_over<R: Source>(rt: &HostRuntime, options: &Options, source: &mut R, output: &str) -> u8 {
    let mut sink = StdSink::new(Vec::new(rt.alloc()));
    match run(rt.alloc(), options, source, &mut sink) {
        Ok(()) => match put_output(rt, output, &sink.into_inner()) {
            Ok(()) => 0,
            Err(_) => FAULT,
        },
        // no other write to memory fails
        Err(RunError::Write) => fault(rt, OUT_OF_MEMORY),
        Err(refused) => match refused.to_string(rt.alloc()) {
            Ok(words) => fault(rt, &words),
            Err(_) => fault(rt, OUT_OF_MEMORY),
        },
    }
}

/// A run to the output of this name, which is created or emptied first, unless it is replaced.
fn serve_to<R: Source>(rt: &HostRuntime, to_do: &Conversion<'_>, source: &mut R) -> u8 {
    let options = &to_do.options;
    let mut errors = StdSink::new(rt.stderr());
    if to_do.output == "-" {
        let mut sink = StdSink::new(rt.stdout());
        return serve(rt.alloc(), options, source, &mut sink, &mut errors);
    }
    // else a fault would be told into the output
    let _streams = [
        in_place_of_stream(rt),
        in_place_of_stream(rt),
        in_place_of_stream(rt),
    ];
    if to_do.replaces {
        return serve_over(rt, options, source, to_do.output);
    }
    match File::create(rt, to_do.output) {
        Ok(file) => serve(
            rt.alloc(),
            options,
            source,
            &mut StdSink::new(file),
            &mut errors,
        ),
        Err(_) => fault(rt, "Error opening output"),
    }
}

/// Whether a run would empty its input: a plain file that its output is too, whatever both are called.
fn empties_input(rt: &HostRuntime, to_do: &Conversion<'_>, input: io::Result<Metadata>) -> bool {
    if to_do.output == "-" || to_do.replaces {
        return false;
    }
    let (Ok(input), Ok(output)) = (input, fs::metadata(rt, to_do.output)) else {
        return false;
    };
    input.is_file() && input.dev() == output.dev() && input.ino() == output.ino()
}

/// A run between two files, of which `-` names a standard stream.
fn serve_files(rt: &HostRuntime, to_do: &Conversion<'_>) -> u8 {
    if to_do.input == "-" {
        if empties_input(rt, to_do, fs::metadata(rt, "/dev/stdin")) {
            return fault(rt, SAME_FILE);
        }
        return serve_to(rt, to_do, &mut StdSource::new(rt.stdin()));
    }
    match File::open(rt, to_do.input) {
        Ok(file) if empties_input(rt, to_do, file.metadata()) => fault(rt, SAME_FILE),
        Ok(file) => serve_to(rt, to_do, &mut StdSource::new(file)),
        Err(_) => fault(rt, "Error opening input"),
    }
}

/// Shows why the words are no run: a fault of theirs, help or the version, or that memory ran out before one of them was told.
fn shown(rt: &HostRuntime, error: &clap::Error) -> u8 {
    if error.kind() == clap::error::ErrorKind::OutOfMemory {
        return fault(rt, OUT_OF_MEMORY);
    }
    let status = u8::try_from(error.exit_code()).unwrap_or(MISUSE);
    if status != 0 {
        return misused(rt, error, status);
    }
    match error.print(rt) {
        Ok(()) => status,
        Err(_) => fault(rt, "Error writing output"),
    }
}

/// Tells of words that are no command line. They may stand in the message, and act on no terminal.
fn misused(rt: &HostRuntime, error: &clap::Error, status: u8) -> u8 {
    let Ok(message) = error.to_string(rt.alloc()) else {
        return fault(rt, OUT_OF_MEMORY);
    };
    match shown_lines(rt.alloc(), &message) {
        Ok(message) => {
            let _ = eprint!(rt; "{message}");
            status
        }
        Err(_) => fault(rt, OUT_OF_MEMORY),
    }
}

/// A command for files. What is written goes to no file, where a caller closed a standard stream.
fn serve_command_for_files(rt: &HostRuntime, words: &[&str]) -> u8 {
    let _streams = [
        in_place_of_stream(rt),
        in_place_of_stream(rt),
        in_place_of_stream(rt),
    ];
    match files::serve(rt, words) {
        Ok(status) => status,
        Err(error) => shown(rt, &error),
    }
}

/// The exit status. Fails where the words can't be read.
fn called(rt: &HostRuntime) -> io::Result<u8> {
    let alloc = rt.alloc();
    let owned: Vec<String> = env::args(rt)?.collect(alloc)?;
    let words: Vec<&str> = owned.iter().map(|word| word.as_str()).collect(alloc)?;
    if words.len() > 1 && is_file_command(words[1]) {
        return Ok(serve_command_for_files(rt, words.as_slice()));
    }
    Ok(match conversion_of(alloc, words.as_slice()) {
        Ok(to_do) => serve_files(rt, &to_do),
        Err(error) => shown(rt, &error),
    })
}

fn main(rt: HostRuntime) -> ExitCode {
    ExitCode::from(match called(&rt) {
        Ok(status) => status,
        Err(error) if error.kind() == ErrorKind::OutOfMemory => fault(&rt, OUT_OF_MEMORY),
        Err(_) => {
            fault(&rt, "Error reading the command line: it is not UTF-8");
            MISUSE
        }
    })
}
