//! The words of a command line.
ghost use Rattle.std.specs.Prelude.{◌≡◌, ◌⊎◌, Bool, IfErr, IfOk, List, Some, codes, map, option_map};
ghost use Rattle.clap.specs.Words.{Row, Text, first_of, found_of, rows_of, subcommand_rows_of};
ghost use Rattle.clap.specs.Values.{kind_of};
ghost use Rattle.cbor_edn_command.specs.CommandLine as line;

use crate::options::{Command, Options};
use crate::program::program;
use cbor_edn_parts::base::nesting::NESTING_LIMIT;
use clap::error::ErrorKind;
use clap::{ArgMatches, Error};
use std::alloc::{AllocError, Global};

/// The names of files, as the usage of a conversion has them.
const FILES: &str = "[INPUT] [OUTPUT]";

const TWO_OUTPUTS: &str = "the argument '--output <FILE>' cannot be used with '[OUTPUT]'";

/// A run by the words of a command line. `-` names the standard streams, also where a name is left out.
#[derive(Clone, Copy, Debug, PartialEq, Eq)]
pub struct Conversion<'a> {
    /// What it is to do.
    pub options: Options,
    /// The name of its input.
    pub input: &'a str,
    /// The name of its output.
    pub output: &'a str,
    /// The output takes the place of the file of this name, which has what it had until then. Else the file is emptied first.
    pub replaces: bool,
}

/// What a run is to do by the words of a command line, of which the first is the program's name, and the names of its input and its
/// output, as [`conversion_of`] says them.
pub fn options<'a>(
    alloc: Global,
    words: &'a [&'a str],
) -> Result<(Options, &'a str, &'a str), Error>
    ensures ok { IfOk result (λ r. (replaces : Bool) × line.IsReadFrom (map (λ w. w.now) words.entry.now) r.0 r.1.now r.2.now replaces) }
    ensures refused { IfErr result (line.IsRefusedAs (map (λ w. w.now) words.entry.now)) }
{
    match conversion_of(alloc, words) {
        Ok(run) => Ok((run.options, run.input, run.output)),
        Err(error) => Err(error),
    }
}

/// The run that the words of a command line ask for, of which the first is the program's name. The error is a fault of the words, or the
/// help or the version that they ask for, with the text to show.
pub fn conversion_of<'a>(alloc: Global, words: &'a [&'a str]) -> Result<Conversion<'a>, Error>
    ensures ok { IfOk result (λ r. line.IsReadFrom (map (λ w. w.now) words.entry.now) r.options r.input.now r.output.now r.replaces) }
    ensures refused { IfErr result (line.IsRefusedAs (map (λ w. w.now) words.entry.now)) }
{
    let mut program = program(alloc)?;
    let matches = program.try_get_matches_from_mut(words)?;
    read_off(alloc, &mut program, &matches)
}

/// The run that what `clap` has found asks for.
fn read_off<'a>(
    alloc: Global,
    program: &mut clap::Command<'_>,
    matches: &ArgMatches<'a>,
) -> Result<Conversion<'a>, Error>
    ensures ok { IfOk result (λ r. (f : Text × List Row) × (subcommand_rows_of matches.now ≡ Some f) × line.IsReadOff f r.options r.input.now r.output.now r.replaces) }
    ensures refused { IfErr result (λ e. (kind_of e ≡ ErrorKind.OutOfMemory) ⊎ line.IsMisread (subcommand_rows_of matches.now) (kind_of e)) }
{
    let Some((name, found)) = matches.subcommand() else {
        return Err(program.error(ErrorKind::MissingSubcommand, "a command is wanted")?);
    };
    let Some(command) = command_named(name) else {
        return Err(program.error(ErrorKind::InvalidSubcommand, "no such command")?);
    };
    let limit = match limit_of(found) {
        Ok(limit) => limit,
        Err(word) => return Err(no_number(alloc, name, FILES, "max-nesting", word)?),
    };
    let Some((output, replaces)) = output_of(found) else {
        return Err(misuse(alloc, name, FILES, ErrorKind::ArgumentConflict, TWO_OUTPUTS)?);
    };
    Ok(Conversion {
        options: options_of(command, found, limit),
        input: file_of(found, "input"),
        output,
        replaces,
    })
}

fn command_named(name: &str) -> Option<Command>
    ensures { result ≡ line.command_named name.now }
{
    match name {
        "diag2cbor" => Some(Command::Diag2Cbor),
        "cbor2diag" => Some(Command::Cbor2Diag),
        "diag2diag" => Some(Command::Diag2Diag),
        _ => None,
    }
}

/// The options of a command by its flags. What no flag of the command sets is off, but for literals that are to be encoded.
fn options_of(command: Command, found: &ArgMatches<'_>, limit: usize) -> Options
    ensures given { (result.command ≡ command) × (result.limit ≡ limit) }
    ensures flags { line.AreSet (rows_of (found_of found.now)) result }
{
    let off = Options {
        command,
        hex: false,
        annotate_tags: false,
        apply_999: false,
        aol_to_item: false,
        bignum_from_tags: false,
        annotate_ccs: false,
        remove_comments: false,
        preserve_space: false,
        limit,
    };
    match command {
        Command::Diag2Cbor => Options {
            hex: is_value(found, "format", "hex"),
            annotate_tags: is_given(found, "annotate-tags"),
            apply_999: is_given(found, "apply-999"),
            aol_to_item: true,
            ..off
        },
        Command::Cbor2Diag => Options {
            hex: is_value(found, "format", "hex"),
            annotate_tags: !is_given(found, "no-annotate-tags"),
            aol_to_item: is_given(found, "aol-to-item"),
            bignum_from_tags: !is_given(found, "no-bignum-from-tags"),
            annotate_ccs: is_value(found, "annotate", "ccs"),
            ..off
        },
        Command::Diag2Diag => Options {
            annotate_tags: is_given(found, "annotate-tags"),
            apply_999: is_given(found, "apply-999"),
            aol_to_item: is_given(found, "aol-to-item"),
            bignum_from_tags: !is_given(found, "no-bignum-from-tags"),
            annotate_ccs: is_value(found, "annotate", "ccs"),
            remove_comments: is_given(found, "remove-comments"),
            preserve_space: is_given(found, "preserve-space"),
            ..off
        },
    }
}

/// Whether a flag is given.
pub(crate) fn is_given(found: &ArgMatches<'_>, flag: &str) -> bool
    ensures { line.IsFlag flag.now (rows_of (found_of found.now)) result }
{
    found.get_flag(flag)
}

/// Whether a flag has this value.
pub(crate) fn is_value(found: &ArgMatches<'_>, flag: &str, value: &str) -> bool
    ensures { result ≡ line.is_value flag.now value.now (rows_of (found_of found.now)) }
{
    match found.get_str(flag) {
        Some(name) => name == value,
        None => false,
    }
}

/// The number that a flag asks for, or the word that is not of digits alone: the kit's parsers of numbers take a plus sign. A number that
/// is too high `clap` has refused.
pub(crate) fn number_of<'a>(
    found: &ArgMatches<'a>,
    flag: &str,
    default: usize,
    most: usize,
) -> Result<usize, &'a str>
    ensures ok { IfOk result (line.IsNumber default most (first_of flag.now
        (rows_of (found_of found.now)))) }
    ensures refused { IfErr result (λ _. line.IsNoNumber default most (first_of flag.now
        (rows_of (found_of found.now)))) }
{
    let Some(word) = found.get_str(flag) else {
        return Ok(default);
    };
    match word.parse() {
        Ok(number) if number <= most && !word.starts_with('+') => Ok(number),
        _ => Err(word),
    }
}

/// How deep items may nest, or the word that is no number.
pub(crate) fn limit_of<'a>(found: &ArgMatches<'a>) -> Result<usize, &'a str>
    ensures ok { IfOk result (line.IsLimit (first_of (codes "max-nesting")
        (rows_of (found_of found.now)))) }
    ensures refused { IfErr result (λ _. line.IsNoLimit (first_of (codes "max-nesting")
        (rows_of (found_of found.now)))) }
{
    number_of(found, "max-nesting", NESTING_LIMIT, NESTING_LIMIT)
}

/// A fault in the words of a command that `clap` has taken, as it tells those that it finds: with the command's usage.
pub(crate) fn misuse(
    alloc: Global,
    command: &str,
    files: &str,
    kind: ErrorKind,
    fault: &str,
) -> Result<Error, AllocError>
    ensures { IfOk result (λ e. kind_of e ≡ kind) }
{
    let usage = format!(in alloc; "cbor-edn {command} [OPTIONS] {files}")?;
    let mut command = clap::Command::new(alloc, "cbor-edn").override_usage(usage.as_str());
    command.error(kind, fault)
}

/// The fault of a word that is no number.
pub(crate) fn no_number(
    alloc: Global,
    command: &str,
    files: &str,
    flag: &str,
    word: &str,
) -> Result<Error, AllocError>
    ensures { IfOk result (λ e. kind_of e ≡ ErrorKind.ValueValidation) }
{
    let fault = format!(in alloc;
        "invalid value '{word}' for '--{flag} <N>': invalid digit found in string"
    )?;
    misuse(
        alloc,
        command,
        files,
        ErrorKind::ValueValidation,
        fault.as_str(),
    )
}

/// The name of a file, or `-`.
fn file_of<'a>(found: &ArgMatches<'a>, id: &str) -> &'a str
    ensures { result.now ≡ line.file_of id.now (rows_of (found_of found.now)) }
{
    match found.get_str(id) {
        Some(name) => name,
        None => "-",
    }
}

/// The name of the output, and whether its file is replaced. None where there are two outputs.
fn output_of<'a>(found: &ArgMatches<'a>) -> Option<(&'a str, bool)>
    ensures { option_map (λ r. (r.0.now, r.1)) result ≡ line.output_by (rows_of (found_of found.now)) }
{
    match (found.get_str("replaced"), found.get_str("output")) {
        (None, None) => Some(("-", false)),
        (None, Some(name)) => Some((name, false)),
        (Some(name), None) => Some((name, true)),
        (Some(_), Some(_)) => None,
    }
}
