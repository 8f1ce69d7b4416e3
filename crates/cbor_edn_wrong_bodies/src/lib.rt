//! Runs of the commands, under their own clauses. Bodies that these clauses refuse stand in `wrong/`: a check here is that of a small
//! crate, and what a clause refuses here it refuses where the call is written.
#![tactic(auto)]

ghost use Rattle.std.specs.Prelude.{◌≡◌, ◌+◌, Result, IfOk, IfErr};
ghost use Rattle.std.specs.Io.KnownBytes.{IsAtEnd, Keeps};
ghost use Rattle.cbor_edn_command.specs.Devices.{FailsAtMostOnce};
ghost use Rattle.cbor_edn.specs.Runs.{IsOutput, IsRefused, Wrote, HasReadAll, EndsReading, EndsWriting, IsReported, IsReportedWhole, read_faults, write_faults, status};
ghost use Rattle.cbor_edn.specs.Format.{IsFormatted, IsUnformatted};
ghost use Rattle.cbor_edn.specs.Show.{IsShown, IsUnshown};
ghost use Rattle.cbor_edn.specs.declared.engine.RunError.{RunError};

use cbor_edn::engine::{self, Options, RunError, Sink, Source};
use cbor_edn::file_options::{FormatOptions, ShowOptions};
use cbor_edn::{format, show};
use std::alloc::Global;

/// `engine::converted`.
pub fn converted(alloc: Global, options: &Options, input: &[u8]) -> Result<Vec<u8>, RunError>
    ensures ok { IfOk result (λ out. IsOutput options.now input.now out.items) }
    ensures err { IfErr result (IsRefused options.now input.now) }
{
    engine::converted(alloc, options, input)
}

/// `engine::run`.
pub fn run<R: Source, W: Sink>(
    alloc: Global,
    options: &Options,
    source: &mut R,
    sink: &mut W,
) -> Result<(), RunError>
    ensures writes { Wrote options.now result (R.remaining source.old) (W.contents sink.old) (W.contents sink.new) }
    ensures end { HasReadAll result → IsAtEnd (R.remaining source.new) }
    ensures read { R.failures source.new ≡ R.failures source.old + read_faults result }
    ensures write { W.failures sink.new ≡ W.failures sink.old + write_faults result }
    ensures last_read { EndsReading result (R.since source.new) }
    ensures last_write { EndsWriting result (W.since sink.new) }
{
    engine::run(alloc, options, source, sink)
}

/// `engine::serve`.
pub fn serve<R: Source, W: Sink, E: Sink>(
    alloc: Global,
    options: &Options,
    source: &mut R,
    sink: &mut W,
    errors: &mut E,
) -> u8
    ensures ran { (r : Result (Unit {0}) RunError) × (result ≡ status r)
        × Wrote options.now r (R.remaining source.old) (W.contents sink.old) (W.contents sink.new)
        × (HasReadAll r → IsAtEnd (R.remaining source.new))
        × (R.failures source.new ≡ R.failures source.old + read_faults r)
        × (W.failures sink.new ≡ W.failures sink.old + write_faults r)
        × EndsReading r (R.since source.new)
        × EndsWriting r (W.since sink.new) }
    ensures quiet { result ≡ 0 → Keeps (E.contents errors.old) (E.contents errors.new) × (E.failures errors.new ≡ E.failures errors.old) }
    ensures reported { result ≡ 1 → IsReported (E.contents errors.old) (E.contents errors.new) × FailsAtMostOnce (E.failures errors.old) (E.failures errors.new) (E.since errors.new) }
    ensures whole { result ≡ 1 → E.failures errors.new ≡ E.failures errors.old → IsReportedWhole (E.contents errors.old) (E.contents errors.new) }
{
    engine::serve(alloc, options, source, sink, errors)
}

/// `show::shown`.
pub fn shown(alloc: Global, options: &ShowOptions, input: &[u8]) -> Result<Vec<u8>, RunError>
    ensures ok { IfOk result (λ out. IsShown options.now input.now out.items) }
    ensures err { IfErr result (IsUnshown options.now input.now) }
{
    show::shown(alloc, options, input)
}

/// `format::formatted`.
pub fn formatted(alloc: Global, options: &FormatOptions, input: &[u8]) -> Result<Vec<u8>, RunError>
    ensures ok { IfOk result (λ out. IsFormatted options.now input.now out.items) }
    ensures err { IfErr result (IsUnformatted options.now input.now) }
{
    format::formatted(alloc, options, input)
}
