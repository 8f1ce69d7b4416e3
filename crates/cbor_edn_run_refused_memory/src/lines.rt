//! Command lines.
use cbor_edn::NESTING_LIMIT;
use cbor_edn::engine::{Command, Options};
use cbor_edn::words::{conversion_of, options};
use cbor_edn_expect::memory::Failure;
use clap::error::ErrorKind;
use std::alloc::Global;

/// A name, words, and the options that they ask for, or why they are refused.
pub(crate) type Line = (
    &'static str,
    &'static [&'static str],
    Result<Options, ErrorKind>,
);

/// By the flags of the repository's `README.md`.
pub(crate) const LINES: &[Line] = &[
    (
        "words::options, diag2cbor",
        &[
            "cbor-edn",
            "diag2cbor",
            "-o",
            "hex",
            "--annotate-tags",
            "--apply-999",
            "in",
            "out",
        ],
        Ok(Options {
            command: Command::Diag2Cbor,
            hex: true,
            annotate_tags: true,
            apply_999: true,
            aol_to_item: true,
            bignum_from_tags: false,
            annotate_ccs: false,
            remove_comments: false,
            preserve_space: false,
            limit: NESTING_LIMIT,
        }),
    ),
    (
        "words::options, cbor2diag",
        &[
            "cbor-edn",
            "cbor2diag",
            "-i",
            "hex",
            "--no-annotate-tags",
            "--aol-to-item",
            "--annotate",
            "ccs",
            "--no-bignum-from-tags",
            "in",
            "out",
        ],
        Ok(Options {
            command: Command::Cbor2Diag,
            hex: true,
            annotate_tags: false,
            apply_999: false,
            aol_to_item: true,
            bignum_from_tags: false,
            annotate_ccs: true,
            remove_comments: false,
            preserve_space: false,
            limit: NESTING_LIMIT,
        }),
    ),
    (
        "words::options, diag2diag",
        &[
            "cbor-edn",
            "diag2diag",
            "--max-nesting",
            "3",
            "--remove-comments",
            "--preserve-space",
            "in",
            "out",
        ],
        Ok(Options {
            command: Command::Diag2Diag,
            hex: false,
            annotate_tags: false,
            apply_999: false,
            aol_to_item: false,
            bignum_from_tags: true,
            annotate_ccs: false,
            remove_comments: true,
            preserve_space: true,
            limit: 3,
        }),
    ),
    (
        "words::options, refused",
        &["cbor-edn", "diag2cbor", "--preserve-space"],
        Err(ErrorKind::UnknownArgument),
    ),
];

/// Reads a command line.
pub(crate) fn read(alloc: Global, line: &Line) -> Result<bool, Failure> {
    match (options(alloc, line.1), &line.2) {
        (Ok((read, input, output)), Ok(wanted)) => {
            Ok(read == *wanted && (input, output) == ("in", "out"))
        }
        (Err(error), wanted) => refused(error.kind(), wanted),
        (Ok(_), Err(_)) => Ok(false),
    }
}

/// A name, words with the file of an output that is replaced, and why they are refused, if they are.
pub(crate) type Replacing = (&'static str, &'static [&'static str], Option<ErrorKind>);

/// By the manual page, `packaging/cbor-edn.1`.
pub(crate) const REPLACING: &[Replacing] = &[
    (
        "words::conversion_of",
        &["cbor-edn", "diag2diag", "in", "-O", "out"],
        None,
    ),
    (
        "words::conversion_of, two outputs",
        &["cbor-edn", "diag2diag", "in", "out", "-O", "out"],
        Some(ErrorKind::ArgumentConflict),
    ),
];

/// Reads a command line with such a file.
pub(crate) fn read_replacing(alloc: Global, line: &Replacing) -> Result<bool, Failure> {
    match conversion_of(alloc, line.1) {
        Ok(run) => {
            let is_read = run.replaces && (run.input, run.output) == ("in", "out");
            Ok(is_read && line.2.is_none())
        }
        Err(error) => match error.kind() {
            ErrorKind::OutOfMemory => Err(Failure::Refused),
            kind => Ok(line.2 == Some(kind)),
        },
    }
}

fn refused(kind: ErrorKind, wanted: &Result<Options, ErrorKind>) -> Result<bool, Failure> {
    match wanted {
        Err(wanted) if kind == *wanted => Ok(true),
        _ if kind == ErrorKind::OutOfMemory => Err(Failure::Refused),
        _ => Ok(false),
    }
}
