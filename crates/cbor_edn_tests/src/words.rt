//! The words of a command line: the options that they ask for, the names of files, which words are refused, and help.
use cbor_edn::NESTING_LIMIT;
use cbor_edn::engine::{Command, Options};
use cbor_edn::words::{conversion_of, options};
use cbor_edn_expect::failures::Failures;
use std::alloc::Global;
use std::test::Fail;

/// Words behind the program's name, and the options that are on in such a run, by the table of flags of the repository's `README.md`; long
/// names of formats by the program's help.
const ASKED: &[(&[&str], &[&str])] = &[
    (&["diag2cbor"], &["aol_to_item"]),
    (&["diag2cbor", "-o", "hex"], &["hex", "aol_to_item"]),
    (
        &["diag2cbor", "--output-format=hex"],
        &["hex", "aol_to_item"],
    ),
    (&["diag2cbor", "-o", "binary"], &["aol_to_item"]),
    (&["diag2cbor", "-oauto"], &["aol_to_item"]),
    (
        &["diag2cbor", "--annotate-tags"],
        &["annotate_tags", "aol_to_item"],
    ),
    (&["diag2cbor", "--apply-999"], &["apply_999", "aol_to_item"]),
    (&["cbor2diag"], &["annotate_tags", "bignum_from_tags"]),
    (
        &["cbor2diag", "-ihex"],
        &["hex", "annotate_tags", "bignum_from_tags"],
    ),
    (
        &["cbor2diag", "--input-format", "hex"],
        &["hex", "annotate_tags", "bignum_from_tags"],
    ),
    (
        &["cbor2diag", "--input-format", "auto"],
        &["annotate_tags", "bignum_from_tags"],
    ),
    (&["cbor2diag", "--no-annotate-tags"], &["bignum_from_tags"]),
    (
        &["cbor2diag", "--aol-to-item"],
        &["annotate_tags", "aol_to_item", "bignum_from_tags"],
    ),
    (&["cbor2diag", "--no-bignum-from-tags"], &["annotate_tags"]),
    (
        &["cbor2diag", "--no-bignum-from-tags", "--no-annotate-tags"],
        &[],
    ),
    (
        &["cbor2diag", "--annotate", "ccs"],
        &["annotate_tags", "bignum_from_tags", "annotate_ccs"],
    ),
    (
        &["cbor2diag", "--annotate=ccs"],
        &["annotate_tags", "bignum_from_tags", "annotate_ccs"],
    ),
    (&["diag2diag"], &["bignum_from_tags"]),
    (
        &["diag2diag", "--annotate-tags"],
        &["annotate_tags", "bignum_from_tags"],
    ),
    (
        &["diag2diag", "--apply-999"],
        &["apply_999", "bignum_from_tags"],
    ),
    (
        &["diag2diag", "--aol-to-item"],
        &["aol_to_item", "bignum_from_tags"],
    ),
    (&["diag2diag", "--no-bignum-from-tags"], &[]),
    (
        &["diag2diag", "--annotate", "ccs"],
        &["bignum_from_tags", "annotate_ccs"],
    ),
    (
        &["diag2diag", "--remove-comments"],
        &["bignum_from_tags", "remove_comments"],
    ),
    (
        &["diag2diag", "--preserve-space"],
        &["bignum_from_tags", "preserve_space"],
    ),
    (
        &[
            "diag2diag",
            "--apply-999",
            "in",
            "--preserve-space",
            "--annotate",
            "ccs",
            "out",
        ],
        &[
            "apply_999",
            "bignum_from_tags",
            "annotate_ccs",
            "preserve_space",
        ],
    ),
];

/// How deep items may nest by some words: 512 without the flag, by the same table.
const LIMITS: &[(&[&str], usize)] = &[
    (&["diag2cbor"], NESTING_LIMIT),
    (&["diag2cbor", "--max-nesting", "0"], 0),
    (&["cbor2diag", "--max-nesting=512"], 512),
    (&["diag2diag", "--max-nesting", "7"], 7),
    (&["diag2diag", "--max-nesting=007"], 7),
];

/// The options in the order of `Options`.
const OPTIONS: [&str; 8] = [
    "hex",
    "annotate_tags",
    "apply_999",
    "aol_to_item",
    "bignum_from_tags",
    "annotate_ccs",
    "remove_comments",
    "preserve_space",
];

const COMMANDS: [&str; 3] = ["diag2cbor", "cbor2diag", "diag2diag"];

/// The words of each flag, and which of these commands have it, by the same table; the last three are no flags.
const FLAGS: &[(&[&str], [bool; 3])] = &[
    (&["-o", "hex"], [true, false, false]),
    (&["--output-format", "hex"], [true, false, false]),
    (&["-i", "hex"], [false, true, false]),
    (&["--input-format", "hex"], [false, true, false]),
    (&["--annotate-tags"], [true, false, true]),
    (&["--no-annotate-tags"], [false, true, false]),
    (&["--apply-999"], [true, false, true]),
    (&["--aol-to-item"], [false, true, true]),
    (&["--no-bignum-from-tags"], [false, true, true]),
    (&["--annotate", "ccs"], [false, true, true]),
    (&["--preserve-space"], [false, false, true]),
    (&["--remove-comments"], [false, false, true]),
    (&["--max-nesting", "8"], [true, true, true]),
    (&["-O", "out"], [true, true, true]),
    (&["--output", "out"], [true, true, true]),
    (&["--no-aol-to-item"], [false, false, false]),
    (&["--bignum-from-tags"], [false, false, false]),
    (&["--hex"], [false, false, false]),
];

/// The options of a run, where the words are one.
fn asked<'a>(alloc: Global, words: &'a [&'a str]) -> Option<Options> {
    match options(alloc, words) {
        Ok((options, _, _)) => Some(options),
        Err(_) => None,
    }
}

/// The status of words that are no run.
fn refused<'a>(alloc: Global, words: &'a [&'a str]) -> Option<i32> {
    match options(alloc, words) {
        Ok(_) => None,
        Err(error) => Some(error.exit_code()),
    }
}

fn program_and<'a>(alloc: Global, words: &[&'a str]) -> Result<Vec<&'a str>, Fail> {
    let mut all = Vec::new(alloc);
    all.push("cbor-edn")?;
    all.extend_from_slice(words)?;
    Ok(all)
}

fn name_of(command: Command) -> &'static str {
    match command {
        Command::Diag2Cbor => "diag2cbor",
        Command::Cbor2Diag => "cbor2diag",
        Command::Diag2Diag => "diag2diag",
    }
}

/// The names of the options that are on.
fn on(alloc: Global, options: &Options) -> Result<Vec<&'static str>, Fail> {
    let all = [
        options.hex,
        options.annotate_tags,
        options.apply_999,
        options.aol_to_item,
        options.bignum_from_tags,
        options.annotate_ccs,
        options.remove_comments,
        options.preserve_space,
    ];
    let mut names = Vec::new(alloc);
    for (name, is_on) in OPTIONS.iter().zip(&all) {
        if *is_on {
            names.push(*name)?;
        }
    }
    Ok(names)
}

/// A command's name, and names of options.
fn shown(alloc: Global, command: &str, options: &[&str]) -> Result<String, Fail> {
    Ok(format!(in alloc; "{command} {options:?}")?)
}

/// What words ask for.
fn asked_for(alloc: Global, words: &[&str]) -> Result<String, Fail> {
    let all = program_and(alloc, words)?;
    match asked(alloc, all.as_slice()) {
        Some(options) => {
            let names = on(alloc, &options)?;
            shown(alloc, name_of(options.command), names.as_slice())
        }
        None => Ok(String::from_str(alloc, "no run")?),
    }
}

#[test]
fn sets_options(rt: HostRuntime) -> Result<(), Fail> {
    let alloc = rt.alloc();
    let mut failures = Failures::new(alloc);
    for &(words, wanted) in ASKED {
        let row = format!(in alloc; "{words:?}")?;
        let told = asked_for(alloc, words)?;
        let command = words.first().copied().unwrap_or("");
        let wanted = shown(alloc, command, wanted)?;
        failures.row(alloc, row.as_str(), told.as_str(), wanted.as_str())?;
    }
    failures.end()
}

fn limit_of(alloc: Global, words: &[&str]) -> Result<Option<usize>, Fail> {
    let all = program_and(alloc, words)?;
    match asked(alloc, all.as_slice()) {
        Some(options) => Ok(Some(options.limit)),
        None => Ok(None),
    }
}

#[test]
fn sets_limits(rt: HostRuntime) -> Result<(), Fail> {
    let alloc = rt.alloc();
    let mut failures = Failures::new(alloc);
    for &(words, wanted) in LIMITS {
        let row = format!(in alloc; "{words:?}")?;
        let limit = limit_of(alloc, words)?;
        failures.holds(alloc, row.as_str(), limit == Some(wanted))?;
    }
    failures.end()
}

/// The status of a command with a flag that stands there so often, where these words are no run.
fn refused_with<'a>(
    alloc: Global,
    command: &'a str,
    flag: &[&'a str],
    times: usize,
) -> Result<Option<i32>, Fail> {
    let mut all = program_and(alloc, &[command])?;
    for _ in 0..times {
        all.extend_from_slice(flag)?;
    }
    Ok(refused(alloc, all.as_slice()))
}

fn see_flag(
    failures: &mut Failures,
    alloc: Global,
    command: &'static str,
    flag: &[&'static str],
    has: bool,
) -> Result<(), Fail> {
    let once = if has { None } else { Some(2) };
    for (times, wanted) in [(1, once), (2, Some(2))] {
        let row = format!(in alloc; "{command}, {flag:?}, times: {times}")?;
        let status = refused_with(alloc, command, flag, times)?;
        failures.holds(alloc, row.as_str(), status == wanted)?;
    }
    Ok(())
}

/// A flag is taken by the commands that have it, once.
#[test]
fn takes_flags(rt: HostRuntime) -> Result<(), Fail> {
    let alloc = rt.alloc();
    let mut failures = Failures::new(alloc);
    for &(flag, has) in FLAGS {
        for (&command, &has) in COMMANDS.iter().zip(&has) {
            see_flag(&mut failures, alloc, command, flag, has)?;
        }
    }
    failures.end()
}

/// Words, the names of the input and the output, and whether the output's file is replaced, by the repository's `README.md`.
const NAMES: &[(&[&str], &str, &str, bool)] = &[
    (&["cbor-edn", "diag2cbor", "a", "b"], "a", "b", false),
    (&["cbor-edn", "diag2cbor", "a"], "a", "-", false),
    (&["cbor-edn", "diag2diag"], "-", "-", false),
    (&["cbor-edn", "cbor2diag", "-", "b"], "-", "b", false),
    (&["cbor-edn", "cbor2diag", "--", "-i"], "-i", "-", false),
    (&["cbor-edn", "diag2cbor", "a", "-O", "b"], "a", "b", true),
    (&["cbor-edn", "cbor2diag", "--output=b"], "-", "b", true),
    (&["cbor-edn", "diag2diag", "-Ob", "-"], "-", "b", true),
    (&["cbor-edn", "diag2diag", "a", "-O", "a"], "a", "a", true),
    (&["cbor-edn", "diag2diag", "--output", "-"], "-", "-", true),
];

/// The names and whether the file is replaced. Of these `options` tells the same names.
fn names_of<'a>(alloc: Global, words: &'a [&'a str]) -> (&'a str, &'a str, bool) {
    match (conversion_of(alloc, words), options(alloc, words)) {
        (Ok(run), Ok((set, input, output)))
            if (run.options, run.input, run.output) == (set, input, output) => {
            (run.input, run.output, run.replaces)
        }
        _ => ("", "", false),
    }
}

#[test]
fn names_of_files(rt: HostRuntime) -> Result<(), Fail> {
    let alloc = rt.alloc();
    let mut failures = Failures::new(alloc);
    for &(words, input, output, replaces) in NAMES {
        let row = format!(in alloc; "{words:?}")?;
        let is_named = names_of(alloc, words) == (input, output, replaces);
        failures.holds(alloc, row.as_str(), is_named)?;
    }
    failures.end()
}

/// Words that the usage and the flags of the repository's `README.md` don't have: they have the status of a command line at fault.
const NO_RUNS: &[&[&str]] = &[
    &["cbor-edn"],
    &["cbor-edn", "diag2json"],
    &["cbor-edn", "diag2cbor", "-o"],
    &["cbor-edn", "diag2cbor", "-o", "octal"],
    &["cbor-edn", "cbor2diag", "--annotate"],
    &["cbor-edn", "cbor2diag", "--annotate", "cwt"],
    &["cbor-edn", "diag2diag", "--annotate", "CCS"],
    &["cbor-edn", "diag2diag", "--annotate=ccs,ccs"],
    &["cbor-edn", "diag2diag", "--annotate-tags=true"],
    &["cbor-edn", "cbor2diag", "--max-nesting", "513"],
    &["cbor-edn", "cbor2diag", "--max-nesting", "x"],
    &["cbor-edn", "cbor2diag", "--max-nesting=-1"],
    &["cbor-edn", "diag2diag", "--max-nesting", "+5"],
    &["cbor-edn", "diag2cbor", "--max-nesting=+0"],
    &["cbor-edn", "cbor2diag", "--max-nesting", ""],
    &["cbor-edn", "cbor2diag", "a", "b", "c"],
    &["cbor-edn", "cbor2diag", "a", "b", "-O", "c"],
    &["cbor-edn", "cbor2diag", "a", "-O"],
    &["cbor-edn", "cbor2diag", "a", "-O", "-b"],
    &["cbor-edn", "show", "a", "-O", "b"],
    &["cbor-edn", "show", "a"],
    &["cbor-edn", "help", "diag2json"],
];

#[test]
fn refuses_words(rt: HostRuntime) -> Result<(), Fail> {
    let alloc = rt.alloc();
    let mut failures = Failures::new(alloc);
    for &words in NO_RUNS {
        let row = format!(in alloc; "{words:?}")?;
        failures.holds(alloc, row.as_str(), refused(alloc, words) == Some(2))?;
    }
    failures.end()
}

#[test]
fn shows_version(rt: HostRuntime) {
    assert_eq!(rt; refused(rt.alloc(), &["cbor-edn", "--version"]), Some(0));
}

/// Words that ask for help: of the program, and of each of its commands.
const HELP: &[&[&str]] = &[
    &["cbor-edn", "--help"],
    &["cbor-edn", "help"],
    &["cbor-edn", "help", "cbor2diag"],
    &["cbor-edn", "help", "fmt"],
    &["cbor-edn", "diag2cbor", "--help"],
    &["cbor-edn", "cbor2diag", "--help"],
    &["cbor-edn", "diag2diag", "--help"],
];

/// What is wrong with help: it has an example, and fits on a screen of 24 lines with 80 columns.
fn fault_of(help: &str) -> &'static str {
    if !help.contains("Example") {
        "no example"
    } else if help.lines().count() > 24 {
        "too many lines"
    } else if help.lines().any(|line| line.chars().count() > 80) {
        "too long a line"
    } else {
        "none"
    }
}

fn fault_of_help<'a>(alloc: Global, words: &'a [&'a str]) -> Result<&'static str, Fail> {
    match options(alloc, words) {
        Ok(_) => Ok("a run"),
        Err(error) => {
            let help = format!(in alloc; "{error}")?;
            if error.exit_code() == 0 {
                Ok(fault_of(help.as_str()))
            } else {
                Ok("another status")
            }
        }
    }
}

#[test]
fn shows_help(rt: HostRuntime) -> Result<(), Fail> {
    let alloc = rt.alloc();
    let mut failures = Failures::new(alloc);
    for &words in HELP {
        let row = format!(in alloc; "{words:?}")?;
        failures.row(alloc, row.as_str(), fault_of_help(alloc, words)?, "none")?;
    }
    failures.end()
}
