//! Runs over devices that fail, or that move few bytes at a time.
use crate::devices::{Failure, SlowReader, SlowSink, SlowSource, SlowWriter};
use cbor_edn::engine::{Command, Options, RunError, StdSink, StdSource, converted, run, serve};
use cbor_edn::{CborError, InconsistentEdn, NESTING_LIMIT, ParseError};
use cbor_edn_expect::failures::Failures;
use cbor_edn_parts::base::error::ParseErrorKind;
use std::alloc::{AllocError, Global};
use std::test::Fail;

/// A command with all options on, or with none.
fn options_of(command: Command, are_on: bool) -> Options {
    Options {
        command,
        hex: are_on,
        annotate_tags: are_on,
        apply_999: are_on,
        aol_to_item: are_on,
        bignum_from_tags: are_on,
        annotate_ccs: are_on,
        remove_comments: are_on,
        preserve_space: are_on,
        limit: NESTING_LIMIT,
    }
}

const TEXT: &[u8] = b"[1, 0x1f, []]\n";

const BYTES: &[u8] = b"\x83\x01\x18\x1f\x80";

/// Something to do for each option.
const RICH: &[u8] = b"{4: 0} /c/, 2(h'010000000000000000'), [1(0), ip'192.0.2.1', foo'x']\n";

const RICH_DIGITS: &[u8] = b"a104d903e7826264747819313937302d30312d30315430303a30303a30302b30\n\
303a3030c24901000000000000000083c10044c0000201d903e78263666f6f61\n\
78\n";

const RICH_TEXT: &[u8] =
    b"{4/ exp /:999([\"dt\", \"1970-01-01T00:00:00+00:00\"])},18446744073709551616,[1(0),h'c0000201',999([\"foo\", \"x\"])]";

const DIGITS: &[u8] = b"c2 49 010000000000000000 a1 04 00";

const DIGITS_TEXT: &[u8] =
    b"18446744073709551616,{4/ exp /:999([\"dt\", \"1970-01-01T00:00:00+00:00\"])}";

/// A command, whether all options are on or none is, what is read and what is written.
type Row = (Command, bool, &'static [u8], &'static [u8]);

/// Each command, with no option on and with all. Outputs by hand: bytes by RFC 8949, texts by `docs/SUPPORTED.md`, and the order of the
/// options' steps by the words of `Options`.
const RUNS: &[Row] = &[
    (Command::Diag2Cbor, false, TEXT, BYTES),
    (Command::Diag2Cbor, true, RICH, RICH_DIGITS),
    (Command::Cbor2Diag, false, BYTES, b"[1, 31, []]\n"),
    (Command::Cbor2Diag, true, DIGITS, DIGITS_TEXT),
    (Command::Diag2Diag, false, b"[1,0x1f , []]", TEXT),
    (Command::Diag2Diag, true, RICH, RICH_TEXT),
];

fn name_of(alloc: Global, row: &Row) -> Result<String, Fail> {
    let &(command, are_on, _, _) = row;
    Ok(format!(in alloc; "{command:?}, options on: {are_on}")?)
}

fn is_converted(alloc: Global, row: &Row) -> bool {
    let &(command, are_on, input, output) = row;
    match converted(alloc, &options_of(command, are_on), input) {
        Ok(bytes) => bytes.as_slice() == output,
        Err(_) => false,
    }
}

#[test]
fn converted_in_memory(rt: HostRuntime) -> Result<(), Fail> {
    let alloc = rt.alloc();
    let mut failures = Failures::new(alloc);
    for row in RUNS {
        let name = name_of(alloc, row)?;
        failures.holds(alloc, name.as_str(), is_converted(alloc, row))?;
    }
    failures.end()
}

/// More calls than a run of these makes of a device.
const CALLS: usize = 200;

/// How many bytes a call of a source gives, so that a run makes some.
const STEP: usize = 4;

/// How many calls of a source are made: the last one tells the end.
fn reads_of(input: &[u8]) -> usize {
    input.len().div_ceil(STEP).saturating_add(1)
}

/// A device that fails at one call: a source, a sink that takes a byte a call, or a reader or writer of std. Of these an interrupted call
/// is a failed one, and so is a call of a writer that takes no byte.
#[derive(Clone, Copy, Debug)]
enum Device {
    Source,
    Sink,
    Reader(Failure),
    Writer(Failure),
}

const READ: &[Device] = &[
    Device::Source,
    Device::Reader(Failure::Broken),
    Device::Reader(Failure::Interrupted),
];

const WRITTEN: &[Device] = &[
    Device::Sink,
    Device::Writer(Failure::Broken),
    Device::Writer(Failure::Interrupted),
    Device::Writer(Failure::TakesNone),
];

/// Whether a run is done, and whether what came of it is right. Where a read failed that is told, nothing is written, and the call is not
/// repeated. A run without a failed call has read a few bytes a call and the end, and writes all.
fn by_source(alloc: Global, row: &Row, call: usize) -> (bool, bool) {
    let &(command, are_on, input, output) = row;
    let mut source = SlowSource::new(input, STEP, Some(call));
    let mut sink = SlowSink::new(alloc, 1, None);
    match run(alloc, &options_of(command, are_on), &mut source, &mut sink) {
        Err(RunError::Read) => (
            false,
            sink.calls == 0 && source.calls == call.saturating_add(1),
        ),
        Ok(()) => (
            true,
            call == reads_of(input) && sink.taken.as_slice() == output,
        ),
        Err(_) => (true, false),
    }
}

/// `by_source`, where a reader of std is what is read.
fn by_reader(
    alloc: Global,
    options: &Options,
    input: &[u8],
    output: &[u8],
    failure: Failure,
    call: usize,
) -> (bool, bool) {
    let mut reader = SlowReader::new(input, STEP, failure, call);
    let mut sink = StdSink::new(Vec::new(alloc));
    let result = run(alloc, options, &mut StdSource::new(&mut reader), &mut sink);
    let written = sink.into_inner();
    match result {
        Err(RunError::Read) => (
            false,
            written.is_empty() && reader.calls == call.saturating_add(1),
        ),
        Ok(()) => (
            true,
            call == reads_of(input) && written.as_slice() == output,
        ),
        Err(_) => (true, false),
    }
}

/// Whether what was taken is a beginning of the output, a byte a call, and the failed call is not repeated.
fn is_begun(output: &[u8], taken: &[u8], calls: usize, call: usize) -> bool {
    taken.len() == call && output.starts_with(taken) && calls == call.saturating_add(1)
}

/// `by_source`, where the sink's call fails: what it took is a beginning of the output.
fn by_sink(alloc: Global, row: &Row, call: usize) -> (bool, bool) {
    let &(command, are_on, input, output) = row;
    let mut source = SlowSource::new(input, STEP, None);
    let mut sink = SlowSink::new(alloc, 1, Some(call));
    match run(alloc, &options_of(command, are_on), &mut source, &mut sink) {
        Err(RunError::Write) => (
            false,
            is_begun(output, sink.taken.as_slice(), sink.calls, call),
        ),
        Ok(()) => (
            true,
            call == output.len() && sink.taken.as_slice() == output,
        ),
        Err(_) => (true, false),
    }
}

/// `by_sink`, where a writer of std is written to.
fn by_writer(alloc: Global, row: &Row, failure: Failure, call: usize) -> (bool, bool) {
    let &(command, are_on, input, output) = row;
    let mut writer = SlowWriter::new(alloc, failure, call);
    let result = run(
        alloc,
        &options_of(command, are_on),
        &mut StdSource::new(input),
        &mut StdSink::new(&mut writer),
    );
    match result {
        Err(RunError::Write) => (
            false,
            is_begun(output, writer.taken.as_slice(), writer.calls, call),
        ),
        Ok(()) => (
            true,
            call == output.len() && writer.taken.as_slice() == output,
        ),
        Err(_) => (true, false),
    }
}

fn by_device(alloc: Global, row: &Row, device: Device, call: usize) -> (bool, bool) {
    match device {
        Device::Source => by_source(alloc, row, call),
        Device::Sink => by_sink(alloc, row, call),
        Device::Reader(failure) => {
            let &(command, are_on, input, output) = row;
            by_reader(
                alloc,
                &options_of(command, are_on),
                input,
                output,
                failure,
                call,
            )
        }
        Device::Writer(failure) => by_writer(alloc, row, failure, call),
    }
}

/// Each call fails in turn, up to the first run that is done.
fn see_faults(
    failures: &mut Failures,
    alloc: Global,
    row: &Row,
    device: Device,
) -> Result<(), Fail> {
    let name = name_of(alloc, row)?;
    for call in 0..CALLS {
        let fault = format!(in alloc; "{name}, {device:?}, call {call}")?;
        let (is_done, is_right) = by_device(alloc, row, device, call);
        failures.holds(alloc, fault.as_str(), is_right)?;
        if is_done {
            return Ok(());
        }
    }
    let fault = format!(in alloc; "{name}, {device:?}, an end")?;
    failures.holds(alloc, fault.as_str(), false)?;
    Ok(())
}

fn expect_faults(alloc: Global, devices: &[Device]) -> Result<(), Fail> {
    let mut failures = Failures::new(alloc);
    for row in RUNS {
        for &device in devices {
            see_faults(&mut failures, alloc, row, device)?;
        }
    }
    failures.end()
}

#[test]
fn failed_reads(rt: HostRuntime) -> Result<(), Fail> {
    expect_faults(rt.alloc(), READ)
}

#[test]
fn failed_writes(rt: HostRuntime) -> Result<(), Fail> {
    expect_faults(rt.alloc(), WRITTEN)
}

fn is_run(alloc: Global, row: &Row, read: usize, write: usize) -> bool {
    let &(command, are_on, input, output) = row;
    let mut source = SlowSource::new(input, read, None);
    let mut sink = SlowSink::new(alloc, write, None);
    let result = run(alloc, &options_of(command, are_on), &mut source, &mut sink);
    result.is_ok() && sink.taken.as_slice() == output
}

#[test]
fn few_bytes_a_call(rt: HostRuntime) -> Result<(), Fail> {
    let alloc = rt.alloc();
    let mut failures = Failures::new(alloc);
    for row in RUNS {
        let name = name_of(alloc, row)?;
        for (read, write) in [(1, 1), (3, 2), (64, 64)] {
            let bytes = format!(in alloc; "{name}, by {read} and {write}")?;
            failures.holds(alloc, bytes.as_str(), is_run(alloc, row, read, write))?;
        }
    }
    failures.end()
}

/// Inputs that no run takes, with no option on and with all, and the message of the fault: bytes that are no UTF-8, digits that
/// `docs/DECISIONS.md` says are a fault, and bytes that RFC 8949 says are not well-formed.
const UNTAKEN: &[(Command, &[bool], &[u8], &str)] = &[
    (
        Command::Diag2Diag,
        &[false, true],
        b"\xff",
        "Error processing input file",
    ),
    (
        Command::Diag2Cbor,
        &[false, true],
        b"'\xc3'",
        "Error processing input file",
    ),
    (
        Command::Cbor2Diag,
        &[true],
        b"123",
        "Error decoding hexadecimal input",
    ),
    (
        Command::Cbor2Diag,
        &[true],
        b"1g",
        "Error decoding hexadecimal input",
    ),
    (
        Command::Cbor2Diag,
        &[false],
        b"1g",
        "Error decoding input data: Announced bytes unavailable",
    ),
];

/// The message of a run's fault, where nothing is written.
fn untaken(alloc: Global, options: &Options, input: &[u8]) -> Result<String, Fail> {
    let mut sink = SlowSink::new(alloc, 1, None);
    let result = run(alloc, options, &mut StdSource::new(input), &mut sink);
    if sink.calls > 0 {
        return Ok(String::from_str(alloc, "something is written")?);
    }
    match result {
        Ok(()) => Ok(String::new(alloc)),
        Err(fault) => Ok(fault.to_string(alloc)?),
    }
}

#[test]
fn untaken_inputs(rt: HostRuntime) -> Result<(), Fail> {
    let alloc = rt.alloc();
    let mut failures = Failures::new(alloc);
    for &(command, ways, input, words) in UNTAKEN {
        for &are_on in ways {
            let row = format!(in alloc; "{command:?}, options on: {are_on}, {input:?}")?;
            let told = untaken(alloc, &options_of(command, are_on), input)?;
            failures.row(alloc, row.as_str(), told.as_str(), words)?;
        }
    }
    failures.end()
}

/// At which call devices fail that move four bytes a call: the source, the sink, and the sink of faults.
type Faults = (Option<usize>, Option<usize>, Option<usize>);

/// What a run of `diag2cbor` with no option on answers by such devices.
fn served_by(alloc: Global, text: &[u8], faults: Faults) -> Result<String, Fail> {
    let mut source = SlowSource::new(text, STEP, faults.0);
    let mut sink = SlowSink::new(alloc, STEP, faults.1);
    let mut errors = SlowSink::new(alloc, STEP, faults.2);
    let status = serve(
        alloc,
        &options_of(Command::Diag2Cbor, false),
        &mut source,
        &mut sink,
        &mut errors,
    );
    answer_of(
        alloc,
        status,
        sink.taken.as_slice(),
        errors.taken.as_slice(),
    )
}

/// A status, what is written, in digits, and what is told.
fn answer_of(alloc: Global, status: u8, written: &[u8], told: &[u8]) -> Result<String, Fail> {
    let digits = hex::encode(alloc, written)?;
    let line = match str::from_utf8(told) {
        Ok(line) => line,
        Err(_) => "no text",
    };
    Ok(format!(in alloc; "status {status}, written {digits}, told {line}")?)
}

/// Texts, the status of a run, what it writes and what it tells: bytes by RFC 8949, statuses by the repository's `README.md`, and the
/// messages of the faults, with the first byte that no text goes on with.
const SERVED: &[(&[u8], u8, &[u8], &str)] = &[
    (TEXT, 0, BYTES, ""),
    (b"1 2,", 0, b"\x01\x02", ""),
    (b"", 0, b"", ""),
    (
        b"/\xff/ 1",
        1,
        b"",
        "cbor-edn: Error processing input file\n",
    ),
    (
        b"[1,\n,2]",
        1,
        b"",
        "cbor-edn: Error parsing input data: Invalid EDN in line 2 column 1 (byte 4)\n",
    ),
    (
        b"340282366920938463463374607431768211456",
        1,
        b"",
        "cbor-edn: Error encoding output data: Number has no encoding\n",
    ),
];

#[test]
fn served(rt: HostRuntime) -> Result<(), Fail> {
    let alloc = rt.alloc();
    let mut failures = Failures::new(alloc);
    for &(text, status, bytes, line) in SERVED {
        let row = format!(in alloc; "{text:?}")?;
        let told = served_by(alloc, text, (None, None, None))?;
        let wanted = answer_of(alloc, status, bytes, line.as_bytes())?;
        failures.row(alloc, row.as_str(), told.as_str(), wanted.as_str())?;
    }
    failures.end()
}

/// At which call the source or the sink fails, and the message of the fault.
const FAULTY: &[(Option<usize>, Option<usize>, &str)] = &[
    (Some(0), None, "cbor-edn: Error reading input\n"),
    (None, Some(0), "cbor-edn: Error writing output\n"),
];

/// At which call the sink of faults fails, and how many bytes it has taken then.
const TOLD: &[(Option<usize>, usize)] = &[(None, usize::MAX), (Some(0), 0), (Some(2), 2 * STEP)];

fn beginning(line: &str, length: usize) -> &[u8] {
    let bytes = line.as_bytes();
    &bytes[..length.min(bytes.len())]
}

#[test]
fn served_by_failing_devices(rt: HostRuntime) -> Result<(), Fail> {
    let alloc = rt.alloc();
    let mut failures = Failures::new(alloc);
    for &(read, write, line) in FAULTY {
        for &(tell, length) in TOLD {
            let row = format!(in alloc; "calls {read:?}, {write:?} and {tell:?}")?;
            let told = served_by(alloc, TEXT, (read, write, tell))?;
            let wanted = answer_of(alloc, 1, b"", beginning(line, length))?;
            failures.row(alloc, row.as_str(), told.as_str(), wanted.as_str())?;
        }
    }
    failures.end()
}

/// Each fault of a run, and its message by `docs/SUPPORTED.md` ("What refusals say").
#[test]
fn words_of_faults(rt: HostRuntime) -> Result<(), Fail> {
    let alloc = rt.alloc();
    let mut failures = Failures::new(alloc);
    for (fault, words) in [
        (RunError::Read, "Error reading input"),
        (RunError::NotUtf8, "Error processing input file"),
        (
            RunError::Parse(ParseError::new(ParseErrorKind::Invalid, 7, 2, 3)),
            "Error parsing input data: Invalid EDN in line 2 column 3 (byte 7)",
        ),
        (
            RunError::Cbor(CborError::MissingArgument),
            "Error decoding input data: Missing argument bytes",
        ),
        (RunError::Hex, "Error decoding hexadecimal input"),
        (
            RunError::Inconsistent(InconsistentEdn::NumberWithoutEncoding),
            "Error encoding output data: Number has no encoding",
        ),
        (RunError::Write, "Error writing output"),
        (RunError::Memory(AllocError), "Out of memory"),
    ] {
        failures.row(alloc, words, fault.to_string(alloc)?.as_str(), words)?;
    }
    failures.end()
}
