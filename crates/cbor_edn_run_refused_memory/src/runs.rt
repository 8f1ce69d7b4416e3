//! Runs, and bytes that are decoded and encoded again.
use cbor_edn::engine::{Command, Options, RunError, StdSink, StdSource, converted, run};
use cbor_edn::laws::recode::{item, recoded, recoded_by_text};
use cbor_edn::{DelimiterPolicy, NESTING_LIMIT, Sequence, option_steps};
use cbor_edn_expect::memory::{Failure, boxed};
use std::alloc::Global;

/// A run with every option but these.
pub(crate) struct Case {
    pub(crate) name: &'static str,
    command: Command,
    hex: bool,
    preserve_space: bool,
    input: &'static [u8],
    output: &'static [u8],
}

const TEXT: &[u8] =
    b"[1, 0x10000000000000000, {_ 3: []}, 'a' + <<\"b\">>, (_ h'63', b64'Zg'), 1(simple(32)), DT'1970-01-01T00:00:00Z', foo'x'], {4: 0}";

const BYTES: &[u8] =
    b"\x88\x01\xc2\x49\x01\0\0\0\0\0\0\0\0\xbf\x03\x80\xff\x43aab\x5f\x41c\x41f\xff\xc1\xf8\x20\xc1\x00\xd9\x03\xe7\x82\x63foo\x61x\xa1\x04\xd9\x03\xe7\x82\x62dt\x78\x191970-01-01T00:00:00+00:00";

const BYTES_IN_DIGITS: &[u8] =
    b"8801c249010000000000000000bf0380ff436161625f41634166ffc1f820c100\nd903e78263666f6f6178a104d903e7826264747819313937302d30312d303154\n30303a30303a30302b30303a3030\n";

const ENCODED: &[u8] =
    b"\x9f\x01\xa1\x02\x38\x03\x61\x61\x5f\x41\x62\xff\xc2\x49\x01\0\0\0\0\0\0\0\0\xd8\x34\x44\xc0\0\x02\x01\xff\xa1\x04\0";

/// The same in hexadecimal digits, and what they are shown as.
const DIGITS: &[u8] =
    b"9f 01 a1 02 38 03 61 61 5f 41 62 ff c2 49 010000000000000000 d8 34 44 c0000201 ff a1 04 00";

const SHOWN: &[u8] =
    b"[_ 1, {2: -4_0}, \"a\", (_ h'62'), 18446744073709551616, 52(h'c0000201')],\n{4/ exp /: 999([\"dt\", \"1970-01-01T00:00:00+00:00\"])}\n";

const SHOWN_WITHOUT_SPACE: &[u8] =
    b"[_ 1,{2:-4_0},\"a\",(_ h'62'),18446744073709551616,52(h'c0000201')],{4/ exp /:999([\"dt\", \"1970-01-01T00:00:00+00:00\"])}";

/// A text before and after.
const SPACED: &[u8] = b"[dt'1970-01-01T00:00:00Z', 2(h'010000000000000000') /c/, foo'x'], {4:0}";

const LAID_OUT: &[u8] =
    b"[0, 18446744073709551616, 999([\"foo\", \"x\"])],\n{4/ exp /: 999([\"dt\", \"1970-01-01T00:00:00+00:00\"])}\n";

/// The same where spaces are left as the removal of comments left them.
const NOT_LAID_OUT: &[u8] =
    b"[0,18446744073709551616,999([\"foo\", \"x\"])],{4/ exp /:999([\"dt\", \"1970-01-01T00:00:00+00:00\"])}";

/// Bytes by RFC 8949, texts by `docs/SUPPORTED.md`, and the order of the options' steps by the words of `Options`.
pub(crate) const RUNS: &[Case] = &[
    Case {
        name: "engine::run, diag2cbor",
        command: Command::Diag2Cbor,
        hex: false,
        preserve_space: false,
        input: TEXT,
        output: BYTES,
    },
    Case {
        name: "engine::run, diag2cbor with all options",
        command: Command::Diag2Cbor,
        hex: true,
        preserve_space: true,
        input: TEXT,
        output: BYTES_IN_DIGITS,
    },
    Case {
        name: "engine::run, cbor2diag",
        command: Command::Cbor2Diag,
        hex: false,
        preserve_space: false,
        input: ENCODED,
        output: SHOWN,
    },
    Case {
        name: "engine::run, cbor2diag from digits",
        command: Command::Cbor2Diag,
        hex: true,
        preserve_space: false,
        input: DIGITS,
        output: SHOWN,
    },
    Case {
        name: "engine::run, cbor2diag with all options",
        command: Command::Cbor2Diag,
        hex: true,
        preserve_space: true,
        input: DIGITS,
        output: SHOWN_WITHOUT_SPACE,
    },
    Case {
        name: "engine::run, diag2diag",
        command: Command::Diag2Diag,
        hex: false,
        preserve_space: false,
        input: SPACED,
        output: LAID_OUT,
    },
    Case {
        name: "engine::run, diag2diag with all options",
        command: Command::Diag2Diag,
        hex: true,
        preserve_space: true,
        input: SPACED,
        output: NOT_LAID_OUT,
    },
];

/// Runs in memory, by the same rules.
pub(crate) const CONVERTED: &[Case] = &[Case {
    name: "engine::converted",
    command: Command::Cbor2Diag,
    hex: true,
    preserve_space: false,
    input: DIGITS,
    output: SHOWN,
}];

/// Every option but these.
pub(crate) fn options_of(command: Command, hex: bool, preserve_space: bool) -> Options {
    Options {
        command,
        hex,
        annotate_tags: true,
        apply_999: true,
        aol_to_item: true,
        bignum_from_tags: true,
        annotate_ccs: true,
        remove_comments: true,
        preserve_space,
        limit: NESTING_LIMIT,
    }
}

/// More than any output here, so that a sink asks for no memory when it is written to.
const ROOM: usize = 1024;

pub(crate) fn roomy_sink(alloc: Global) -> Result<StdSink<Vec<u8>>, Failure> {
    Ok(StdSink::new(Vec::with_capacity(alloc, ROOM)?))
}

/// Makes a run. Where memory was refused nothing may have been written.
pub(crate) fn run_once(alloc: Global, row: &Case) -> Result<bool, Failure> {
    let mut sink = roomy_sink(alloc)?;
    let result = run(
        alloc,
        &options_of(row.command, row.hex, row.preserve_space),
        &mut StdSource::new(row.input),
        &mut sink,
    );
    let written = sink.into_inner();
    match result {
        Ok(()) => Ok(written.as_slice() == row.output),
        Err(RunError::Memory(_)) if written.is_empty() => Err(Failure::Refused),
        Err(_) => Ok(false),
    }
}

/// Makes a run in memory.
pub(crate) fn converted_once(alloc: Global, row: &Case) -> Result<bool, Failure> {
    let options = options_of(row.command, row.hex, row.preserve_space);
    match converted(alloc, &options, row.input) {
        Ok(output) => Ok(output.as_slice() == row.output),
        Err(RunError::Memory(_)) => Err(Failure::Refused),
        Err(_) => Ok(false),
    }
}

/// A string of 4 KB between two tags: its name, whether spaces are preserved, and what stands between elements and behind them.
pub(crate) type Apart = (&'static str, bool, &'static str, &'static str);

/// Runs in memory that change elements of a sequence apart, with every option, by the same rules.
pub(crate) const APART: &[Apart] = &[
    ("engine::converted, elements apart", false, ",\n", "\n"),
    (
        "engine::converted, elements apart without space",
        true,
        ",",
        "",
    ),
];

const BIGNUM: &str = "c249010000000000000000";

const INTEGER: &str = "18446744073709551616";

/// An array of as many bignums as a line has columns, by the default options: its elements are changed in an array of their own.
pub(crate) fn converted_long_array(alloc: Global) -> Result<bool, Failure> {
    let digits = BIGNUM.repeat(alloc, 80)?;
    let lines = ",\n    18446744073709551616".repeat(alloc, 79)?;
    let input = format!(in alloc; "9850{digits}")?;
    let shown = format!(in alloc; "[\n    {INTEGER}{lines}\n]\n")?;
    writes(
        alloc,
        &default_options(true),
        input.as_bytes(),
        shown.as_bytes(),
    )
}

/// The options that `cbor2diag` has without flags.
fn default_options(hex: bool) -> Options {
    Options {
        command: Command::Cbor2Diag,
        hex,
        annotate_tags: true,
        apply_999: false,
        aol_to_item: false,
        bignum_from_tags: true,
        annotate_ccs: false,
        remove_comments: false,
        preserve_space: false,
        limit: NESTING_LIMIT,
    }
}

/// Whether a run in memory writes this.
fn writes(alloc: Global, options: &Options, input: &[u8], wanted: &[u8]) -> Result<bool, Failure> {
    match converted(alloc, options, input) {
        Ok(output) => Ok(output.as_slice() == wanted),
        Err(RunError::Memory(_)) => Err(Failure::Refused),
        Err(_) => Ok(false),
    }
}

pub(crate) fn converted_apart(alloc: Global, row: &Apart) -> Result<bool, Failure> {
    let (_, preserve_space, between, behind) = *row;
    let zeros = "00".repeat(alloc, 4096)?;
    let input = format!(in alloc; "{BIGNUM}591000{zeros}{BIGNUM}")?;
    let shown = format!(in alloc; "{INTEGER}{between}h'{zeros}'{between}{INTEGER}{behind}")?;
    let options = options_of(Command::Cbor2Diag, true, preserve_space);
    writes(alloc, &options, input.as_bytes(), shown.as_bytes())
}

/// Bytes and their text.
pub(crate) type Printed = (&'static str, &'static [u8], &'static [u8]);

/// Bytes that no step changes, which are printed while they are read, by the same rules: strings that fit on no line, and empty ones.
pub(crate) const PRINTED: &[Printed] = &[(
    "engine::converted, printed at once",
    b"\x82\x5f\x58\x24aaaaaaaaaaaaaaaaaaaaaaaaaaaaaaaaaaaa\x41b\xff\xa1\x7f\xff\x7f\x61c\x78\x48dddddddddddddddddddddddddddddddddddddddddddddddddddddddddddddddddddddddd\xff",
    b"[\n    (_\n        h'616161616161616161616161616161616161616161616161616161616161616161616161',\n        h'62'\n    ),\n    {\n        \"\"_:(_\n            \"c\",\n            \"dddddddddddddddddddddddddddddddddddddddddddddddddddddddddddddddddddddddd\"\n        )\n    }\n]\n",
)];

pub(crate) fn printed_once(alloc: Global, row: &Printed) -> Result<bool, Failure> {
    writes(alloc, &default_options(false), row.1, row.2)
}

/// A text before and after all steps but the last, which would set the spaces, with every option.
pub(crate) const TAKEN: &[(&str, &str, &str)] = &[(
    "option_steps::take",
    "[dt'1970-01-01T00:00:00Z', 2(h'010000000000000000') /c/, foo'x'], {4:0}",
    "[0,18446744073709551616,999([\"foo\", \"x\"])],{4/ exp /:999([\"dt\", \"1970-01-01T00:00:00+00:00\"])}",
)];

pub(crate) fn steps_taken(
    alloc: Global,
    row: &(&'static str, &'static str, &'static str),
) -> Result<bool, Failure> {
    let options = options_of(Command::Diag2Diag, false, false);
    let mut sequence = boxed(alloc, Sequence::parse(alloc, row.1))?;
    option_steps::take(alloc, &options, &mut sequence)?;
    let left = sequence.serialize(alloc)?;
    Ok(left.as_str() == row.2)
}

#[derive(Clone, Copy)]
pub(crate) enum Recoding {
    Direct,
    ByText,
    ItemByText,
}

/// Bytes that must come back: encodings by RFC 8949.
pub(crate) const THERE_AND_BACK: &[(&str, Recoding, &[u8])] = &[
    ("recode::recoded", Recoding::Direct, BYTES),
    ("recode::recoded_by_text", Recoding::ByText, BYTES),
    (
        "recode::item::recoded_by_text",
        Recoding::ItemByText,
        b"\x9f\x01\x5f\x41c\xff\xc1\x18\x00\xff",
    ),
];

const POLICIES: &[DelimiterPolicy] = &[
    DelimiterPolicy::IndentedRegularSpacing {
        base_indent: 0,
        indent_level: 2,
        max_width: 9,
    },
    DelimiterPolicy::SingleSpace,
    DelimiterPolicy::DiscardAllButComments,
    DelimiterPolicy::SingleLineRegularSpacing,
    DelimiterPolicy::DiscardAll,
];

/// Decodes bytes and encodes them again.
pub(crate) fn recoded_bytes(
    alloc: Global,
    row: &(&'static str, Recoding, &'static [u8]),
) -> Result<bool, Failure> {
    let bytes = match row.1 {
        Recoding::Direct => recoded(alloc, row.2)?,
        Recoding::ByText => recoded_by_text(alloc, row.2, POLICIES)?,
        Recoding::ItemByText => item::recoded_by_text(alloc, row.2, POLICIES)?,
    };
    Ok(bytes.as_slice() == row.2)
}
