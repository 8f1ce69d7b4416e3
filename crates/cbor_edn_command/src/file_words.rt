//! The words of a command line that names a command for files: `show`, `fmt` and `check`.
ghost use Rattle.std.specs.Prelude.{◌≡◌, ◌⊎◌, IfErr, IfOk, List, Some, map};
ghost use Rattle.clap.specs.Values.{kind_of};
ghost use Rattle.clap.specs.Words.{Row, Text, found_of, rows_of, subcommand_rows_of};
ghost use Rattle.cbor_edn_command.specs.FileCommandLine as line;
ghost use Rattle.cbor_edn_command.specs.FileCommandLineSteps.{AreMisread, IsMisreadAs, kind_of_misread};

use crate::file_options::{
    CheckOptions, DEFAULT_LEVELS, FileCommand, FormatOptions, MOST_LEVELS, ShowOptions,
};
use crate::program::program;
use crate::words::{is_given, is_value, limit_of, no_number, number_of};
use clap::error::ErrorKind;
use clap::{ArgMatches, Error};
use std::alloc::{AllocError, Global};

/// The names of files, as the usage of a command for files has them.
const FILES: &str = "[FILE]...";

/// Whether a word names a command for files. A command line with any other word is read by [`crate::words::options`].
pub fn is_file_command(word: &str) -> bool
    ensures { result ≡ line.is_file_command word.now }
{
    word == "show" || word == "fmt" || word == "check"
}

/// What is to be done by the words of a command line, of which the first is the program's name and the second names a command for files,
/// and the names of the files. `-` stands for standard input, also where no file is named. The error is a fault of the words, or the help
/// that they ask for, with the text to show.
pub fn file_command<'a>(
    alloc: Global,
    words: &'a [&'a str],
) -> Result<(FileCommand, Vec<&'a str>), Error>
    ensures ok { IfOk result (λ r. line.IsFileCommandOf (map (λ w. w.now) words.entry.now) r.0 (map (λ w. w.now) r.1.items)) }
    ensures refused { IfErr result (line.IsRefusedAs (map (λ w. w.now) words.entry.now)) }
{
    let mut program = program(alloc)?;
    let matches = program.try_get_matches_from_mut(words)?;
    read_off(alloc, &mut program, &matches)
}

/// What is to be done by what `clap` has found, and the names of the files.
fn read_off<'a>(
    alloc: Global,
    program: &mut clap::Command<'_>,
    matches: &ArgMatches<'a>,
) -> Result<(FileCommand, Vec<&'a str>), Error>
    ensures ok { IfOk result (λ r. (f : Text × List Row) × (subcommand_rows_of matches.now ≡ Some f)
        × line.IsCommand f r.0 × (map (λ w. w.now) r.1.items ≡ line.files_of f.1)) }
    ensures refused { IfErr result (λ e. (kind_of e ≡ ErrorKind.OutOfMemory) ⊎ line.IsMisread (subcommand_rows_of matches.now) (kind_of e)) }
{
    let Some((name, found)) = matches.subcommand() else {
        return Err(program.error(ErrorKind::MissingSubcommand, "a command is wanted")?);
    };
    match command_of(name, found) {
        Ok(command) => Ok((command, files_of(alloc, found)?)),
        Err(misread) => Err(fault_of(alloc, program, name, misread)?),
    }
}

/// The fault of a command line that `clap` has taken and that names no command, as `clap` tells those that it finds.
fn fault_of(
    alloc: Global,
    program: &mut clap::Command<'_>,
    name: &str,
    misread: Misread<'_>,
) -> Result<Error, AllocError>
    ensures { IfOk result (λ e. kind_of e ≡ kind_of_misread misread.entry) }
{
    match misread {
        Misread::Name => program.error(ErrorKind::InvalidSubcommand, "no such command"),
        Misread::Limit(word) => no_number(alloc, name, FILES, "max-nesting", word),
        Misread::Levels(word) => no_number(alloc, name, FILES, "levels", word),
    }
}

/// What `clap` has taken and is no command.
enum Misread<'a> {
    Name,
    Limit(&'a str),
    Levels(&'a str),
}

fn command_of<'a>(name: &str, found: &ArgMatches<'a>) -> Result<FileCommand, Misread<'a>>
    ensures ok { IfOk result (line.IsCommand (name.now, rows_of (found_of found.now))) }
    ensures refused { IfErr result (IsMisreadAs (name.now, rows_of (found_of found.now))) }
{
    if name == "show" {
        Ok(FileCommand::Show(show_of(found)?))
    } else if name == "fmt" {
        Ok(FileCommand::Format(format_of(found)?))
    } else if name == "check" {
        Ok(FileCommand::Check(check_of(found)?))
    } else {
        Err(Misread::Name)
    }
}

fn show_of<'a>(found: &ArgMatches<'a>) -> Result<ShowOptions, Misread<'a>>
    ensures ok { IfOk result (line.IsShow (rows_of (found_of found.now))) }
    ensures refused { IfErr result (AreMisread (rows_of (found_of found.now))) }
{
    let limit = limit_of(found).map_err(Misread::Limit)?;
    let levels = levels_of(found)?;
    Ok(ShowOptions {
        hex: is_value(found, "format", "hex"),
        levels,
        names: !is_given(found, "no-names"),
        bignum_from_tags: !is_given(found, "no-bignum-from-tags"),
        annotate_ccs: is_value(found, "annotate", "ccs"),
        limit,
    })
}

/// How many levels of embedded CBOR are to be shown.
fn levels_of<'a>(found: &ArgMatches<'a>) -> Result<usize, Misread<'a>>
    ensures ok { IfOk result (line.AreLevels (rows_of (found_of found.now))) }
    ensures refused { IfErr result (AreMisread (rows_of (found_of found.now))) }
{
    match number_of(found, "levels", DEFAULT_LEVELS, MOST_LEVELS) {
        Ok(_) if is_given(found, "no-embedded") => Ok(0),
        Ok(levels) => Ok(levels),
        Err(word) => Err(Misread::Levels(word)),
    }
}

fn format_of<'a>(found: &ArgMatches<'a>) -> Result<FormatOptions, Misread<'a>>
    ensures ok { IfOk result (line.IsFormat (rows_of (found_of found.now))) }
    ensures refused { IfErr result (AreMisread (rows_of (found_of found.now))) }
{
    let limit = limit_of(found).map_err(Misread::Limit)?;
    Ok(FormatOptions {
        only_lists: is_given(found, "list"),
        remove_comments: is_given(found, "remove-comments"),
        force: is_given(found, "force"),
        limit,
    })
}

fn check_of<'a>(found: &ArgMatches<'a>) -> Result<CheckOptions, Misread<'a>>
    ensures ok { IfOk result (line.IsCheck (rows_of (found_of found.now))) }
    ensures refused { IfErr result (AreMisread (rows_of (found_of found.now))) }
{
    let limit = limit_of(found).map_err(Misread::Limit)?;
    Ok(CheckOptions {
        apply_999: is_given(found, "apply-999"),
        cbor: is_given(found, "cbor"),
        limit,
    })
}

/// The names of the files, or `-`.
fn files_of<'a>(alloc: Global, found: &ArgMatches<'a>) -> Result<Vec<&'a str>, AllocError>
    ensures { IfOk result (λ v. map (λ w. w.now) v.items ≡ line.files_of (rows_of (found_of found.now))) }
{
    let mut names = Vec::new(alloc);
    let Some(given) = found.get_strs("files") else {
        names.push("-")?;
        return Ok(names);
    };
    names.extend_from_slice(given)?;
    Ok(names)
}
