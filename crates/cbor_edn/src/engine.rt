//! A whole run: from a reader, through a tree of items, to a writer.
ghost use Rattle.std.specs.Prelude.{◌≡◌, ◌+◌, Result, IfOk, IfErr, IfSome, string_bytes};
ghost use Rattle.std.specs.Io.KnownBytes.{IsAtEnd, Keeps};
ghost use Rattle.cbor_edn_model.specs.tree.Trees.{Tree, Seq};
ghost use Rattle.cbor_edn_core.specs.tree.View.{sequence_tree};
ghost use Rattle.cbor_edn_command.specs.Devices.{FailsAtMostOnce};
ghost use Rattle.cbor_edn.specs.Runs.{IsOutput, IsRefused, Wrote, HasReadAll, EndsReading, EndsWriting, IsFaultLine, IsReported, IsReportedWhole, read_faults, write_faults, status, told_as};
ghost use Rattle.cbor_edn.specs.Runs.{IsReadAs, IsUnread, IsPrintedAs};
ghost use Rattle.cbor_edn.specs.RunSteps.{StepsGive};
ghost use Rattle.cbor_edn.specs.OptionSteps.{IsEncoded, IsUnencoded, IsDiagnosed, IsUndiagnosed, IsReprinted};
ghost use Rattle.cbor_edn.specs.declared.engine.RunError.{RunError};
ghost use Rattle.cbor_edn.specs.declared.engine.RunError.TheVariants.{Memory, Parse, Cbor, Inconsistent, Hex, Read};

use crate::boxed::boxed;
use crate::{elements, option_steps};
pub use cbor_edn_command::count::Count;
pub use cbor_edn_command::devices::{DeviceFault, Sink, Source, StdSink, StdSource};
use cbor_edn_command::hexadecimal::{self, NotHex};
pub use cbor_edn_command::options::{Command, Options};
use cbor_edn_command::transfer::{read_all, write_all};
use cbor_edn_core::cbor::decode::CborError;
use cbor_edn_core::tree::Sequence;
use cbor_edn_parts::base::buffer::TextBuffer;
use cbor_edn_parts::base::error::{Fault, InconsistentEdn, ParseError};
use cbor_edn_stream::{has_tag_of, print_cbor};
use simdutf8::basic::from_utf8;
use std::alloc::{AllocError, Global};
use thiserror::Error;

/// Why a run did not end well. Only at `Write` may anything have been written.
#[derive(Debug, Drop, Error)]
pub enum RunError {
    /// The source failed.
    #[error("Error reading input")]
    Read,
    /// The input is no UTF-8.
    #[error("Error processing input file")]
    NotUtf8,
    /// The input is no sequence in EDN, or nests too deep.
    #[error("Error parsing input data: {0}")]
    Parse(ParseError),
    /// The input's bytes are no encodings, or nest too deep.
    #[error("Error decoding input data: {0}")]
    Cbor(CborError),
    /// The input has a character that is no hexadecimal digit and no space, or an odd number of digits.
    #[error("Error decoding hexadecimal input")]
    Hex,
    /// The input's items have no encoding.
    #[error("Error encoding output data: {0}")]
    Inconsistent(InconsistentEdn),
    /// The sink failed. It took a beginning of the output.
    #[error("Error writing output")]
    Write,
    /// Memory ran out.
    #[error("Out of memory")]
    Memory(AllocError),
}

impl From<AllocError> for RunError {
    ghost from_gives = { λ refused e. e ≡ Memory refused };

    fn from(refused: AllocError) -> RunError {
        RunError::Memory(refused)
    }
}

impl<E: StepRefusal> From<Fault<E>> for RunError {
    ghost from_gives = { λ fault e. e ≡ told_as E.error_of fault };

    fn from(fault: Fault<E>) -> RunError {
        match fault {
            Fault::Memory(refused) => RunError::Memory(refused),
            Fault::Told(refusal) => refusal.into_error(),
        }
    }
}

/// What a step of a run refuses with, which is an error of the run.
trait StepRefusal: Sized {
    ghost error_of: { Self → RunError };

    fn into_error(self) -> RunError
        ensures { result ≡ error_of self };
}

impl StepRefusal for ParseError {
    ghost error_of = { Parse };

    fn into_error(self) -> RunError {
        RunError::Parse(self)
    }
}

impl StepRefusal for CborError {
    ghost error_of = { Cbor };

    fn into_error(self) -> RunError {
        RunError::Cbor(self)
    }
}

impl StepRefusal for InconsistentEdn {
    ghost error_of = { Inconsistent };

    fn into_error(self) -> RunError {
        RunError::Inconsistent(self)
    }
}

impl StepRefusal for NotHex {
    ghost error_of = { λ _. Hex };

    fn into_error(self) -> RunError {
        RunError::Hex
    }
}

// Of a source: a sink that fails answers no `Fault`.
impl StepRefusal for DeviceFault {
    ghost error_of = { λ _. Read };

    fn into_error(self) -> RunError {
        RunError::Read
    }
}

/// The items of a text.
fn parsed<'a>(alloc: Global, limit: usize, input: &'a [u8]) -> Result<Box<Sequence<'a>>, RunError>
    ensures ok { IfOk result (λ s. IsReadAs limit input.now (sequence_tree s.value)) }
    ensures err { IfErr result (IsUnread limit input.now) }
{
    let Ok(text) = from_utf8(input) else {
        return Err(RunError::NotUtf8);
    };
    Ok(boxed(alloc, Sequence::parse_within(alloc, text, limit))?)
}

/// The encodings of what the items of a text mean after the steps. The last step sets spaces, which have no part in it.
fn to_cbor(alloc: Global, options: &Options, input: &[u8]) -> Result<Vec<u8>, RunError>
    ensures ok { IfOk result (λ bytes. IsEncoded options.now input.now bytes.items) }
    ensures err { IfErr result (IsUnencoded options.now input.now) }
{
    let mut sequence = parsed(alloc, options.limit, input)?;
    option_steps::take(alloc, options, &mut sequence)?;
    match sequence.to_cbor(alloc) {
        Ok(bytes) => Ok(bytes),
        Err(fault) => Err(RunError::from(fault)),
    }
}

/// The text of items after the steps.
pub(crate) fn printed(
    alloc: Global,
    options: &Options,
    sequence: &mut Sequence<'_>,
) -> Result<Vec<u8>, AllocError>
    ensures { IfOk result (λ out. (v : Tree Seq) × StepsGive options.now (sequence_tree sequence.old) v × IsPrintedAs v out.items) }
{
    option_steps::take(alloc, options, sequence)?;
    option_steps::spaced_text(alloc, options, sequence)
}

/// The text of the items that bytes encode, printed while they are read. None where a step is asked for that may change other items than
/// tags, or where a tag stands in them that a step may change.
fn streamed(alloc: Global, options: &Options, bytes: &[u8]) -> Result<Option<Vec<u8>>, RunError>
    ensures ok { IfOk result (λ text. IfSome text (λ out. IsDiagnosed options.now bytes.now out.items)) }
    ensures err { IfErr result (IsUndiagnosed options.now bytes.now) }
{
    if option_steps::change_untagged(options) {
        return Ok(None);
    }
    let changed = has_tag_of(option_steps::changed_tags(options), bytes)?;
    if changed {
        return Ok(None);
    }
    let mut out = TextBuffer::new(alloc);
    print_cbor(alloc, &mut out, bytes, options.limit)?;
    Ok(Some(out.into_bytes()))
}

/// The text of the items that bytes encode.
fn diagnosed(alloc: Global, options: &Options, bytes: &[u8]) -> Result<Vec<u8>, RunError>
    ensures ok { IfOk result (λ out. IsDiagnosed options.now bytes.now out.items) }
    ensures err { IfErr result (IsUndiagnosed options.now bytes.now) }
{
    if let Some(out) = streamed(alloc, options, bytes)? {
        return Ok(out);
    }
    Ok(elements::changed(alloc, options, bytes)?)
}

/// The text of the items of a text.
fn reprinted(alloc: Global, options: &Options, input: &[u8]) -> Result<Vec<u8>, RunError>
    ensures ok { IfOk result (λ out. IsReprinted options.now input.now out.items) }
    ensures err { IfErr result (IsUnread options.now.limit input.now) }
{
    let mut sequence = parsed(alloc, options.limit, input)?;
    Ok(printed(alloc, options, &mut sequence)?)
}

/// A run in memory: all that it writes for an input, which is a text in UTF-8 for `Diag2Cbor` and `Diag2Diag`, CBOR for `Cbor2Diag`, or
/// digits of CBOR where `hex` is set there. Fails with `NotUtf8` or `Parse` where the input is a text, with `Cbor` or `Hex` where it is
/// none, with `Inconsistent` where its items have no encoding, and with `Memory`. `Read` and `Write` never come.
pub fn converted(alloc: Global, options: &Options, input: &[u8]) -> Result<Vec<u8>, RunError>
    ensures ok { IfOk result (λ out. IsOutput options.now input.now out.items) }
    ensures err { IfErr result (IsRefused options.now input.now) }
{
    match options.command {
        Command::Diag2Cbor => {
            let bytes = to_cbor(alloc, options, input)?;
            if options.hex {
                Ok(hexadecimal::to_lines(alloc, &bytes)?)
            } else {
                Ok(bytes)
            }
        }
        Command::Cbor2Diag => {
            if options.hex {
                let bytes = hexadecimal::decoded(alloc, input)?;
                diagnosed(alloc, options, &bytes)
            } else {
                diagnosed(alloc, options, input)
            }
        }
        Command::Diag2Diag => reprinted(alloc, options, input),
    }
}

/// Reads the source to its end, and writes what its input turns into.
///
/// Nothing is written unless all before succeeded. A call of a device that failed is not repeated: `Read` and `Write`
/// come exactly there. `Memory` comes where memory runs out, and nothing was written then.
pub fn run<R: Source, W: Sink>(
    alloc: Global,
    options: &Options,
    source: &mut R,
    sink: &mut W,
) -> Result<(), RunError>
    ensures writes { Wrote options.now result (R.remaining source.old) (W.contents sink.old) (W.contents sink.new) }
    ensures end { HasReadAll result → IsAtEnd (R.remaining source.new) }
    ensures read { R.failures source.new ≡ R.failures source.old + read_faults result }
    ensures write { W.failures sink.new ≡ W.failures sink.old + write_faults result }
    ensures last_read { EndsReading result (R.since source.new) }
    ensures last_write { EndsWriting result (W.since sink.new) }
{
    let input = read_all(alloc, source)?;
    let out = converted(alloc, options, &input)?;
    match write_all(sink, &out) {
        Ok(()) => Ok(()),
        Err(DeviceFault) => Err(RunError::Write),
    }
}

/// The line that tells of a fault, as far as there is memory. What `thiserror` writes is not known to proofs, so the words are
/// looked at: they are one line.
fn fault_line(alloc: Global, fault: &RunError) -> Option<String>
    ensures { IfSome result (λ line. IsFaultLine (string_bytes line)) }
{
    let words = fault.to_string(alloc).ok()?;
    if words.is_empty() || words.as_bytes().contains(&b'\n') {
        return None;
    }
    format!(in alloc; "cbor-edn: {words}\n").ok()
}

/// Tells of a fault, as far as there is memory and the sink takes it.
fn tell<E: Sink>(alloc: Global, fault: &RunError, errors: &mut E)
    ensures reported { IsReported (E.contents errors.old) (E.contents errors.new) }
    ensures whole { E.failures errors.new ≡ E.failures errors.old → IsReportedWhole (E.contents errors.old) (E.contents errors.new) }
    ensures counted { FailsAtMostOnce (E.failures errors.old) (E.failures errors.new) (E.since errors.new) }
{
    if let Some(line) = fault_line(alloc, fault) {
        let _ = write_all(errors, line.as_bytes());
    }
}

/// A run as a program does it: its exit status is 0 where all was written, and 1 at a fault.
///
/// A fault is told to the last sink, as a line of `cbor-edn: ` and its message. That sink takes the whole line, nothing where
/// memory for it runs out, or a beginning where the sink fails.
pub fn serve<R: Source, W: Sink, E: Sink>(
    alloc: Global,
    options: &Options,
    source: &mut R,
    sink: &mut W,
    errors: &mut E,
) -> u8
    ensures ran { (r : Result (Unit {0}) RunError) × (result ≡ status r)
        × Wrote options.now r (R.remaining source.old) (W.contents sink.old) (W.contents sink.new)
        × (HasReadAll r → IsAtEnd (R.remaining source.new))
        × (R.failures source.new ≡ R.failures source.old + read_faults r)
        × (W.failures sink.new ≡ W.failures sink.old + write_faults r)
        × EndsReading r (R.since source.new)
        × EndsWriting r (W.since sink.new) }
    ensures quiet { result ≡ 0 → Keeps (E.contents errors.old) (E.contents errors.new) × (E.failures errors.new ≡ E.failures errors.old) }
    ensures reported { result ≡ 1 → IsReported (E.contents errors.old) (E.contents errors.new) × FailsAtMostOnce (E.failures errors.old) (E.failures errors.new) (E.since errors.new) }
    ensures whole { result ≡ 1 → E.failures errors.new ≡ E.failures errors.old → IsReportedWhole (E.contents errors.old) (E.contents errors.new) }
{
    match run(alloc, options, source, sink) {
        Ok(()) => 0,
        Err(fault) => {
            tell(alloc, &fault, errors);
            1
        }
    }
}
