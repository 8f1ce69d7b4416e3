//! The words that the program's command line may have, as `clap` is told of them, and help.
ghost use Rattle.std.specs.Prelude.{IfOk, codes, [], ◌∷◌};
ghost use Rattle.clap.specs.Words.{new_app};
ghost use Rattle.cbor_edn_command.specs.ProgramWords as line;
ghost use Rattle.cbor_edn_command.specs.CommandLineSteps.{GrowsBy, IsArgOf, IsCommandOf, IsProgram};

use clap::builder::ValueParser;
use clap::{Arg, ArgAction};
use std::alloc::{AllocError, Global};

static FORMATS: [&str; 3] = ["hex", "binary", "auto"];

static ANNOTATIONS: [&str; 1] = ["ccs"];

const ABOUT: &str = "Turns the Extended Diagnostic Notation (EDN) of CBOR into CBOR and back";

const EXAMPLES: &str = "\
The commands with a 2 take [INPUT] [OUTPUT], and empty OUTPUT first; the others
take [FILE].. Names that are left out or - are standard input and output.
Exit status: 0 done, 1 a fault of input, file or device, 2 of the command line.

Examples:
  echo '[1, 0x1f, []]' | cbor-edn diag2cbor -o hex    # 8301181f80
  echo '83 01 18 1f 80' | cbor-edn cbor2diag -i hex   # [1, 31, []]";

const ENCODING: &str = "\
Literals of times and addresses are encoded as what they stand for.

Example:
  echo \"ip'192.0.2.1', 0x1f\" | cbor-edn diag2cbor -o hex   # 44c0000201181f";

const DECODING: &str = "\
Example:
  echo c100 | cbor-edn cbor2diag -i hex   # DT'1970-01-01T00:00:00+00:00'";

const EDITING: &str = "\
Example:
  echo '{4: 1700000000}' | cbor-edn diag2diag --annotate ccs
  # {4/ exp /: dt'2023-11-14T22:13:20+00:00'}";

const SHOWING: &str = "\
Of more than one FILE, each stands behind a comment with its name.
Exit status: 0 done, 1 a fault of a file or device, 2 of the command line.

Example:
  echo 43a10126 | cbor-edn show -i hex   # <<{1: -7}>>";

const LAYING_OUT: &str = "\
Each FILE gets the spaces that diag2diag gives it, at once and whole: a draft
beside it takes its place, without access lists and extended attributes. A FILE
at fault, or laid out already, stays as it is. Standard input is laid out to
standard output.
Exit status: 0 done, 1 a FILE is at fault or listed, 2 the command line is.

Example:
  echo '[1 /one/,2]' | cbor-edn fmt   # [1/one/, 2]";

const CHECKING: &str = "\
A fault is told behind the FILE's name, and behind line and column where these
are known. All is well where nothing is told.
Exit status: 0 all is well, 1 a FILE is at fault, 2 the command line is.

Example:
  echo '[1, 2' | cbor-edn check 2>&1 | head -n 1   # <stdin>:2:1: Invalid EDN";

/// The command line of the program.
pub(crate) fn program<'a>(alloc: Global) -> Result<clap::Command<'a>, AllocError>
    ensures { IfOk result IsProgram }
{
    let formats = ValueParser::Names(&FORMATS);
    let annotations = ValueParser::Names(&ANNOTATIONS);
    new_program(alloc)
        .subcommand(diag2cbor(alloc, formats)?)?
        .subcommand(cbor2diag(alloc, formats, annotations)?)?
        .subcommand(diag2diag(alloc, annotations)?)?
        .subcommand(show(alloc, formats, annotations)?)?
        .subcommand(fmt(alloc)?)?
        .subcommand(check(alloc)?)
}

/// A program of which a command is wanted.
fn new_program<'a>(alloc: Global) -> clap::Command<'a>
    ensures { IsCommandOf (line.wants_command (new_app (codes "cbor-edn"))) result }
{
    clap::Command::new(alloc, "cbor-edn")
        .version("0.1.0")
        .about(ABOUT)
        .subcommand_required(true)
        .after_help(EXAMPLES)
}

/// A command without arguments. Its help ends with the last text.
fn new_command<'a>(alloc: Global, name: &'a str, about: &'a str, end: &'a str) -> clap::Command<'a>
    ensures { IsCommandOf (new_app name.entry.now) result }
{
    clap::Command::new(alloc, name).about(about).after_help(end)
}

fn diag2cbor<'a>(alloc: Global, formats: ValueParser<'a>) -> Result<clap::Command<'a>, AllocError>
    ensures { IfOk result (IsCommandOf (line.diag2cbor formats.entry)) }
{
    let about = "Encodes items in EDN as CBOR";
    let command = new_command(alloc, "diag2cbor", about, ENCODING).arg(format(
        alloc,
        'o',
        "output-format",
        formats,
    ))?;
    with_common(alloc, with_edn_input(alloc, command)?)
}

fn cbor2diag<'a>(
    alloc: Global,
    formats: ValueParser<'a>,
    annotations: ValueParser<'a>,
) -> Result<clap::Command<'a>, AllocError>
    ensures { IfOk result (IsCommandOf (line.cbor2diag formats.entry annotations.entry)) }
{
    let left = "Leave tags of times and addresses as they are";
    let about = "Decodes CBOR into items in EDN";
    let command = new_command(alloc, "cbor2diag", about, DECODING)
        .arg(format(alloc, 'i', "input-format", formats))?
        .arg(flag(alloc, "no-annotate-tags", left))?;
    with_common(alloc, with_edn_output(alloc, command, annotations)?)
}

fn diag2diag<'a>(
    alloc: Global,
    annotations: ValueParser<'a>,
) -> Result<clap::Command<'a>, AllocError>
    ensures { IfOk result (IsCommandOf (line.diag2diag annotations.entry)) }
{
    let command = new_command(alloc, "diag2diag", "Lays out items in EDN anew", EDITING);
    let command = with_edn_output(alloc, with_edn_input(alloc, command)?, annotations)?
        .arg(flag(alloc, "preserve-space", "Leave spaces as they are"))?
        .arg(flag(alloc, "remove-comments", "Leave comments out"))?;
    with_common(alloc, command)
}

/// A flag without a value.
fn flag<'a>(alloc: Global, name: &'a str, help: &'a str) -> Arg<'a>
    ensures { IsArgOf (line.flag name.entry.now) result }
{
    Arg::new(alloc, name)
        .long(name)
        .action(ArgAction::SetTrue)
        .help(help)
}

fn format<'a>(alloc: Global, short: char, long: &'a str, names: ValueParser<'a>) -> Arg<'a>
    ensures { IsArgOf (line.format short long.entry.now names.entry) result }
{
    Arg::new(alloc, "format")
        .short(short)
        .long(long)
        .value_name("FORMAT")
        .value_parser(names)
        .hide_possible_values(true)
        .help("hex, binary or auto (binary) [default: auto]")
}

fn annotate<'a>(alloc: Global, names: ValueParser<'a>) -> Arg<'a>
    ensures { IsArgOf (line.annotate names.entry) result }
{
    Arg::new(alloc, "annotate")
        .long("annotate")
        .value_name("KIND")
        .value_parser(names)
        .hide_possible_values(true)
        .help("Comment maps of this kind: ccs (CWT claims)")
}

fn max_nesting<'a>(alloc: Global) -> Arg<'a>
    ensures { IsArgOf line.max_nesting result }
{
    Arg::new(alloc, "max-nesting")
        .long("max-nesting")
        .value_name("N")
        .value_parser(ValueParser::Unsigned(0, 512))
        .help("How deep items may nest, 0 to 512 [default: 512]")
}

fn replaced<'a>(alloc: Global) -> Arg<'a>
    ensures { IsArgOf line.replaced result }
{
    Arg::new(alloc, "replaced")
        .short('O')
        .long("output")
        .value_name("FILE")
        .help("Replace FILE by the output, all at once")
}

fn file<'a>(alloc: Global, id: &'a str, name: &'a str, help: &'a str) -> Arg<'a>
    ensures { IsArgOf (line.file id.entry.now) result }
{
    Arg::new(alloc, id).value_name(name).help(help)
}

/// A command with what those that read EDN take.
fn with_edn_input<'a>(
    alloc: Global,
    command: clap::Command<'a>,
) -> Result<clap::Command<'a>, AllocError>
    ensures { IfOk result (GrowsBy line.edn_input command.entry) }
{
    let tags = "Turn tags of times and addresses into literals";
    let others = "Turn literals that are left into tag 999";
    command
        .arg(flag(alloc, "annotate-tags", tags))?
        .arg(flag(alloc, "apply-999", others))
}

/// A command with what those that write EDN take.
fn with_edn_output<'a>(
    alloc: Global,
    command: clap::Command<'a>,
    annotations: ValueParser<'a>,
) -> Result<clap::Command<'a>, AllocError>
    ensures { IfOk result (GrowsBy (line.edn_output annotations.entry) command.entry) }
{
    let literals = "Turn dt'..' and ip'..' into what they stand for";
    let bignums = "Leave bignums in tags 2 and 3";
    command
        .arg(flag(alloc, "aol-to-item", literals))?
        .arg(flag(alloc, "no-bignum-from-tags", bignums))?
        .arg(annotate(alloc, annotations))
}

/// A command with what all commands take.
fn with_common<'a>(
    alloc: Global,
    command: clap::Command<'a>,
) -> Result<clap::Command<'a>, AllocError>
    ensures { IfOk result (GrowsBy line.common command.entry) }
{
    command
        .arg(max_nesting(alloc))?
        .arg(replaced(alloc))?
        .arg(file(alloc, "input", "INPUT", "The one file to read, or -"))?
        .arg(file(
            alloc,
            "output",
            "OUTPUT",
            "A second name: the file to write, emptied first, or -",
        ))
}

fn show<'a>(
    alloc: Global,
    formats: ValueParser<'a>,
    annotations: ValueParser<'a>,
) -> Result<clap::Command<'a>, AllocError>
    ensures { IfOk result (IsCommandOf (line.show formats.entry annotations.entry)) }
{
    let about = "Decodes CBOR, also in its byte strings, into items in EDN";
    let command = new_command(alloc, "show", about, SHOWING)
        .arg(format(alloc, 'i', "input-format", formats))?
        .arg(levels(alloc))?;
    let command = with_steps_left_out(alloc, command)?.arg(annotate(alloc, annotations))?;
    with_files(alloc, command)
}

/// A command with the flags that leave out a step which `show` takes by default.
fn with_steps_left_out<'a>(
    alloc: Global,
    command: clap::Command<'a>,
) -> Result<clap::Command<'a>, AllocError>
    ensures { IfOk result (GrowsBy line.steps_left_out command.entry) }
{
    let embedded = "Leave byte strings that hold CBOR as they are";
    let bignums = "Leave bignums in tags 2 and 3";
    command
        .arg(flag(alloc, "no-embedded", embedded))?
        .arg(flag(alloc, "no-names", "Leave names of COSE out"))?
        .arg(flag(alloc, "no-bignum-from-tags", bignums))
}

fn fmt<'a>(alloc: Global) -> Result<clap::Command<'a>, AllocError>
    ensures { IfOk result (IsCommandOf line.fmt) }
{
    let forced = "Take each FILE for EDN, those in .cbor too";
    let command = new_command(alloc, "fmt", "Lays out files of EDN in place", LAYING_OUT)
        .arg(only_lists(alloc))?
        .arg(flag(alloc, "remove-comments", "Leave comments out"))?
        .arg(flag(alloc, "force", forced))?;
    with_files(alloc, command)
}

fn check<'a>(alloc: Global) -> Result<clap::Command<'a>, AllocError>
    ensures { IfOk result (IsCommandOf line.check) }
{
    let others = "Turn literals that are left into tag 999";
    let about = "Tells whether files are EDN that has an encoding, or CBOR";
    let command = new_command(alloc, "check", about, CHECKING)
        .arg(flag(alloc, "apply-999", others))?
        .arg(flag(
            alloc,
            "cbor",
            "Take each FILE for CBOR, not those in .cbor alone",
        ))?;
    with_files(alloc, command)
}

/// A command with what all of these take.
fn with_files<'a>(
    alloc: Global,
    command: clap::Command<'a>,
) -> Result<clap::Command<'a>, AllocError>
    ensures { IfOk result (GrowsBy (line.max_nesting ∷ line.files ∷ []) command.entry) }
{
    command.arg(max_nesting(alloc))?.arg(files(alloc))
}

fn levels<'a>(alloc: Global) -> Arg<'a>
    ensures { IsArgOf line.levels result }
{
    Arg::new(alloc, "levels")
        .long("levels")
        .value_name("N")
        .value_parser(ValueParser::Unsigned(0, 255))
        .help("Levels of embedded CBOR, 0 to 255 [default: 8]")
}

fn only_lists<'a>(alloc: Global) -> Arg<'a>
    ensures { IsArgOf line.only_lists result }
{
    Arg::new(alloc, "list")
        .long("check")
        .action(ArgAction::SetTrue)
        .help("List files that would change (status 1), write nothing")
}

fn files<'a>(alloc: Global) -> Arg<'a>
    ensures { IsArgOf line.files result }
{
    Arg::new(alloc, "files")
        .value_name("FILE")
        .action(ArgAction::Append)
        .help("The files, or - for standard input, as where none is named")
}
