//! Which fault a refused run has, as a call tells it.
ghost use Rattle.std.specs.Prelude.{◌≡◌};
ghost use Rattle.cbor_edn_c.specs.Calls.{call_fault};

use cbor_edn::CborError;
use cbor_edn::engine::RunError;
use cbor_edn_c_calls::status::CallFault;

pub(crate) fn call_fault(fault: &RunError) -> CallFault
    ensures { result ≡ call_fault fault.now }
{
    match fault {
        RunError::NotUtf8 => CallFault::NotUtf8,
        RunError::Parse(error) => CallFault::of_text(error),
        RunError::Cbor(CborError::TooDeep) => CallFault::TooDeep,
        RunError::Cbor(_) => CallFault::InvalidCbor,
        RunError::Hex => CallFault::InvalidHex,
        RunError::Inconsistent(_) => CallFault::NoEncoding,
        // No call in memory has a device that fails.
        RunError::Read | RunError::Write | RunError::Memory(_) => CallFault::OutOfMemory,
    }
}
