//! All the bytes of a source, and bytes that a sink takes all, in turns. A call that failed is not repeated.
ghost use Rattle.std.specs.Prelude.{◌≡◌, ◌+◌, IfOk, IfErr, OnOk, is_err, if◌then◌else◌};
ghost use Rattle.std.specs.Io.KnownBytes.{IsAtEnd, Appends, Consumes};
ghost use Rattle.cbor_edn_parts.specs.base.Refusals.{IfTold};
ghost use Rattle.cbor_edn_command.specs.Devices.{AppendsBeginning, told_faults};

use crate::devices::{DeviceFault, Sink, Source};
use cbor_edn_parts::base::error::Fault;
use std::alloc::Global;

/// All that the source has left, up to its end, in turns of at most 4,096 bytes. Fails at the first call that fails, and where memory
/// runs out; what was read by then is lost.
pub fn read_all<R: Source>(alloc: Global, source: &mut R) -> Result<Vec<u8>, Fault<DeviceFault>>
    ensures bytes { IfOk result (λ v. Consumes (R.remaining source.old) (R.remaining source.new) v.items) }
    ensures end { OnOk result (IsAtEnd (R.remaining source.new)) }
    ensures counted { R.failures source.new ≡ R.failures source.old + told_faults result }
    ensures last { IfTold result (λ _. R.since source.new ≡ 0) }
{
    let mut all = Vec::new(alloc);
    let mut buffer = [0u8; 4096];
    'turns: loop {
        match source.read(&mut buffer) {
            Ok(0) => return Ok(all),
            Ok(n) => all.extend_from_slice(&buffer[..n])?,
            Err(fault) => return Err(Fault::Told(fault)),
        }
    }
}

/// Writes all the bytes, in as many turns as the sink wants. Fails at the first call that fails: the sink took a beginning then.
pub fn write_all<W: Sink>(sink: &mut W, bytes: &[u8]) -> Result<(), DeviceFault>
    ensures ok { OnOk result (Appends (W.contents sink.old) (W.contents sink.new) bytes.now) }
    ensures err { IfErr result (λ _. AppendsBeginning (W.contents sink.old) (W.contents sink.new) bytes.now) }
    ensures counted { W.failures sink.new ≡ W.failures sink.old + (if is_err result then 1 else 0) }
    ensures last { IfErr result (λ _. W.since sink.new ≡ 0) }
{
    let mut rest = bytes;
    'turns: while !rest.is_empty() {
        match sink.write(rest) {
            Ok(n) => rest = rest.split_at(n).1,
            Err(fault) => return Err(fault),
        }
    }
    Ok(())
}
