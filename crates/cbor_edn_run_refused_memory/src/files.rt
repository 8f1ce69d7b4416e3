//! What the commands for files make of one input, and their words.
use cbor_edn::NESTING_LIMIT;
use cbor_edn::engine::RunError;
use cbor_edn::file_options::{FileCommand, FormatOptions, ShowOptions};
use cbor_edn::file_words::file_command;
use cbor_edn::format::formatted;
use cbor_edn::show::{behind_name, shown};
use cbor_edn_expect::memory::Failure;
use clap::error::ErrorKind;
use std::alloc::Global;

/// A call.
#[derive(Clone, Copy)]
pub(crate) enum Call {
    Show,
    ShowDigits,
    ShowActing,
    Name,
    Format,
    Read,
    Refuse,
}

/// Each call by its name.
pub(crate) const CALLS: &[(&str, Call)] = &[
    ("show::shown", Call::Show),
    ("show::shown, digits", Call::ShowDigits),
    ("show::shown, what acts on a terminal", Call::ShowActing),
    ("show::behind_name", Call::Name),
    ("format::formatted", Call::Format),
    ("file_words::file_command", Call::Read),
    ("file_words::file_command, refused", Call::Refuse),
];

/// Makes a call.
pub(crate) fn called(alloc: Global, call: Call) -> Result<bool, Failure> {
    match call {
        Call::Show => show(alloc),
        Call::ShowDigits => show_digits(alloc),
        Call::ShowActing => show_acting(alloc),
        Call::Name => name(alloc),
        Call::Format => format(alloc),
        Call::Read => read(alloc),
        Call::Refuse => refuse(alloc),
    }
}

const SHOW: ShowOptions = ShowOptions {
    hex: false,
    levels: 8,
    names: true,
    bignum_from_tags: true,
    annotate_ccs: true,
    limit: NESTING_LIMIT,
};

fn is_written(answer: Result<Vec<u8>, RunError>, wanted: &[u8]) -> Result<bool, Failure> {
    match answer {
        Ok(bytes) => Ok(bytes.as_slice() == wanted),
        Err(RunError::Memory(_)) => Err(Failure::Refused),
        Err(_) => Ok(false),
    }
}

/// A message of COSE by RFC 9052 with claims and a key in it, a time and a bignum, and a claims set.
fn show(alloc: Global) -> Result<bool, Failure> {
    let bytes =
        b"\xd2\x84\x43\xa1\x01\x26\xa0\x49\xa2\x04\0\x08\xa1\x01\xa1\x01\x02\x40\x82\xc1\0\xc2\x49\x01\0\0\0\0\0\0\0\0\xa1\x04\0";
    let text = b"18([
        <<{1/ alg /: -7/ ES256 /}>>/ protected /,
        {}/ unprotected /,
        <<{4/ exp /: dt'1970-01-01T00:00:00+00:00', 8/ cnf /: {1/ COSE_Key /: {1/ kty /: 2/ EC2 /}}}>>/ payload /,
        h''
    / signature /])/ COSE_Sign1 /,
[DT'1970-01-01T00:00:00+00:00', 18446744073709551616],
{4/ exp /: dt'1970-01-01T00:00:00+00:00'}
";
    is_written(shown(alloc, &SHOW, bytes), text)
}

fn show_digits(alloc: Global) -> Result<bool, Failure> {
    let options = ShowOptions { hex: true, ..SHOW };
    is_written(shown(alloc, &options, b"43 a1 01 26"), b"<<{1: -7}>>\n")
}

/// U+202E in a text.
fn show_acting(alloc: Global) -> Result<bool, Failure> {
    is_written(shown(alloc, &SHOW, b"\x63\xe2\x80\xae"), b"\"\\u{202e}\"\n")
}

fn name(alloc: Global) -> Result<bool, Failure> {
    let text = behind_name(alloc, "d/\u{1b}", b"1")?;
    Ok(text.as_slice() == b"# d/<U+001B>\n1\n".as_slice())
}

fn format(alloc: Global) -> Result<bool, Failure> {
    let options = FormatOptions {
        only_lists: false,
        remove_comments: false,
        force: false,
        limit: NESTING_LIMIT,
    };
    is_written(
        formatted(alloc, &options, b"[1 /one/,2] /c/"),
        b"[1/one/, 2]\n/c/\n",
    )
}

fn read(alloc: Global) -> Result<bool, Failure> {
    let words = ["cbor-edn", "show", "-i", "hex", "--levels", "3", "a", "b"];
    match file_command(alloc, words.as_slice()) {
        Ok((FileCommand::Show(options), names)) => {
            Ok(options.hex && options.levels == 3 && names.as_slice() == ["a", "b"].as_slice())
        }
        Ok(_) => Ok(false),
        Err(error) if error.kind() == ErrorKind::OutOfMemory => Err(Failure::Refused),
        Err(_) => Ok(false),
    }
}

/// Words with a flag of another command.
const REFUSED: &[&str] = &["cbor-edn", "fmt", "--levels", "3"];

fn refuse(alloc: Global) -> Result<bool, Failure> {
    match file_command(alloc, REFUSED) {
        Ok((_command, _names)) => Ok(false),
        Err(error) => match error.kind() {
            ErrorKind::OutOfMemory => Err(Failure::Refused),
            kind => Ok(kind == ErrorKind::UnknownArgument),
        },
    }
}
