//! The words of the commands for files: what they ask for, the names of files, which words are refused, and help.
use cbor_edn::NESTING_LIMIT;
use cbor_edn::file_options::{
    CheckOptions, DEFAULT_LEVELS, FileCommand, FormatOptions, ShowOptions,
};
use cbor_edn::file_words::{file_command, is_file_command};
use cbor_edn_expect::failures::Failures;
use std::alloc::Global;
use std::test::Fail;

const SHOW: ShowOptions = ShowOptions {
    hex: false,
    levels: DEFAULT_LEVELS,
    names: true,
    bignum_from_tags: true,
    annotate_ccs: false,
    limit: NESTING_LIMIT,
};

const FORMAT: FormatOptions = FormatOptions {
    only_lists: false,
    remove_comments: false,
    force: false,
    limit: NESTING_LIMIT,
};

const CHECK: CheckOptions = CheckOptions {
    apply_999: false,
    cbor: false,
    limit: NESTING_LIMIT,
};

/// Words, by the repository's `README.md` and by help, and what they ask for.
const ASKED: &[(&[&str], FileCommand, &[&str])] = &[
    (&["cbor-edn", "show"], FileCommand::Show(SHOW), &["-"]),
    (
        &["cbor-edn", "show", "a", "-", "b"],
        FileCommand::Show(SHOW),
        &["a", "-", "b"],
    ),
    (
        &[
            "cbor-edn",
            "show",
            "-i",
            "hex",
            "--levels",
            "3",
            "--no-names",
            "--no-bignum-from-tags",
            "--annotate",
            "ccs",
            "a",
        ],
        FileCommand::Show(ShowOptions {
            hex: true,
            levels: 3,
            names: false,
            bignum_from_tags: false,
            annotate_ccs: true,
            limit: NESTING_LIMIT,
        }),
        &["a"],
    ),
    (
        &[
            "cbor-edn",
            "show",
            "--levels=255",
            "--max-nesting=0",
            "--",
            "--levels",
        ],
        FileCommand::Show(ShowOptions {
            levels: 255,
            limit: 0,
            ..SHOW
        }),
        &["--levels"],
    ),
    (
        &["cbor-edn", "show", "--no-embedded", "--levels", "3"],
        FileCommand::Show(ShowOptions { levels: 0, ..SHOW }),
        &["-"],
    ),
    (&["cbor-edn", "fmt"], FileCommand::Format(FORMAT), &["-"]),
    (
        &[
            "cbor-edn",
            "fmt",
            "--check",
            "--remove-comments",
            "--max-nesting",
            "9",
            "a",
            "b",
        ],
        FileCommand::Format(FormatOptions {
            only_lists: true,
            remove_comments: true,
            force: false,
            limit: 9,
        }),
        &["a", "b"],
    ),
    (
        &["cbor-edn", "fmt", "a.cbor", "--force"],
        FileCommand::Format(FormatOptions {
            force: true,
            ..FORMAT
        }),
        &["a.cbor"],
    ),
    (&["cbor-edn", "check"], FileCommand::Check(CHECK), &["-"]),
    (
        &["cbor-edn", "check", "--apply-999", "--cbor", "a"],
        FileCommand::Check(CheckOptions {
            apply_999: true,
            cbor: true,
            limit: NESTING_LIMIT,
        }),
        &["a"],
    ),
];

fn asks_for<'a>(
    alloc: Global,
    words: &'a [&'a str],
    command: FileCommand,
    names: &'a [&'a str],
) -> bool {
    match file_command(alloc, words) {
        Ok((asked, files)) => asked == command && files.as_slice() == names,
        Err(_) => false,
    }
}

#[test]
fn reads_words(rt: HostRuntime) -> Result<(), Fail> {
    let alloc = rt.alloc();
    let mut failures = Failures::new(alloc);
    for &(words, command, names) in ASKED {
        let row = format!(in alloc; "{words:?}")?;
        failures.holds(alloc, row.as_str(), asks_for(alloc, words, command, names))?;
    }
    failures.end()
}

#[test]
fn knows_commands(rt: HostRuntime) {
    assert!(rt; is_file_command("show"));
    assert!(rt; is_file_command("fmt"));
    assert!(rt; is_file_command("check"));
    assert!(rt; !is_file_command("format"));
    assert!(rt; !is_file_command(""));
    assert!(rt; !is_file_command("diag2diag"));
}

/// The exit status that goes with words that are no command, or ask for help.
fn refused<'a>(alloc: Global, words: &'a [&'a str]) -> Option<i32> {
    match file_command(alloc, words) {
        Ok(_) => None,
        Err(error) => Some(error.exit_code()),
    }
}

const NO_COMMANDS: &[&[&str]] = &[
    &["cbor-edn"],
    &["cbor-edn", "diag2diag"],
    &["cbor-edn", "show", "--levels", "256"],
    &["cbor-edn", "show", "--levels", "+3"],
    &["cbor-edn", "show", "--levels"],
    &["cbor-edn", "show", "--max-nesting", "513"],
    &["cbor-edn", "show", "-i", "json"],
    &["cbor-edn", "show", "--check"],
    &["cbor-edn", "fmt", "--annotate-tags"],
    &["cbor-edn", "fmt", "--max-nesting", "+1"],
    &["cbor-edn", "check", "--remove-comments"],
    &["cbor-edn", "check", "--force"],
    &["cbor-edn", "show", "-O", "a"],
];

#[test]
fn refuses_words(rt: HostRuntime) -> Result<(), Fail> {
    let alloc = rt.alloc();
    let mut failures = Failures::new(alloc);
    for &words in NO_COMMANDS {
        let row = format!(in alloc; "{words:?}")?;
        failures.holds(alloc, row.as_str(), refused(alloc, words) == Some(2))?;
    }
    failures.end()
}

#[test]
fn shows_help(rt: HostRuntime) {
    let alloc = rt.alloc();
    assert_eq!(rt; refused(alloc, &["cbor-edn", "show", "--help"]), Some(0));
    assert_eq!(rt; refused(alloc, &["cbor-edn", "fmt", "--help"]), Some(0));
    assert_eq!(rt; refused(alloc, &["cbor-edn", "check", "--help"]), Some(0));
}
