//! Runs over devices, and what a device of a caller is given.
ghost use Rattle.std.specs.Prelude.{◌≡◌, ◌∷◌, [], IfOk};
ghost use Rattle.std.specs.Io.KnownBytes.{WriteAppends};

use cbor_edn::engine::{DeviceFault, Sink};

/// Gives one byte to a sink, as the end of a record. The sink takes it, or fails.
pub fn ended<W: Sink>(sink: &mut W, byte: u8) -> Result<usize, DeviceFault>
    ensures one { IfOk result (λ n. n ≡ 1) }
    ensures bytes { WriteAppends (W.contents sink.old) (W.contents sink.new) result (byte ∷ []) }
{
    sink.write(&[byte])
}
