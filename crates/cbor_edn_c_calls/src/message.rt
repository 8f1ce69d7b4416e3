//! What is told of a fault.
ghost use Rattle.std.specs.Prelude.{◌≡◌, length};
ghost use Rattle.cbor_edn_c_calls.specs.Reports.{TellsPlace};
ghost use Rattle.cbor_edn_c_calls.specs.Buffers.{IsPutFront};

use crate::buffer::put_front;
use crate::place::Place;
use crate::report::Report;

/// Writes as much of a fault's message as fits, and tells its length and the place of the fault.
pub fn put_message(place: Place, text: &[u8], message: &mut [u8]) -> Report
    ensures place { TellsPlace place result }
    ensures output { result.output_len ≡ 0 }
    ensures length { result.message_len ≡ length text.now }
    ensures message { IsPutFront text.now message.old message.new }
{
    put_front(text, message);
    Report::of_fault(place, text.len())
}
