//! What a call tells beside its status.
ghost use Rattle.std.specs.Prelude.{◌≡◌};
ghost use Rattle.cbor_edn_c_calls.specs.Reports.{TellsOutput, TellsPlace};

use crate::place::Place;

/// The offset where a fault has a place that was not found, since memory ran out.
pub const NO_OFFSET: usize = usize::MAX;

/// What a call tells beside its status. The type of C has the same fields in the same order.
#[repr(C)]
#[derive(Drop)]
pub struct Report {
    /// How long the output is, in bytes, where there is one: also where there was no room for it. Else 0.
    pub output_len: usize,
    /// How long the message of a fault is, in bytes, else 0. As much of it as fits was written.
    pub message_len: usize,
    /// The place of a fault, in bytes from 0: of a text, or of CBOR. It is [`NO_OFFSET`] where memory for it ran out, and else 0.
    pub offset: usize,
    /// Its line in a text, from 1, else 0.
    pub line: usize,
    /// Its column in a text, in characters from 1, else 0.
    pub column: usize,
}

impl Report {
    /// The report of an output of so many bytes, and of no fault.
    pub fn of_output(output_len: usize) -> Report
        ensures { TellsOutput output_len result }
    {
        Report {
            output_len,
            message_len: 0,
            offset: 0,
            line: 0,
            column: 0,
        }
    }

    /// The report of a fault at a place, with a message of so many bytes.
    pub fn of_fault(place: Place, message_len: usize) -> Report
        ensures output { result.output_len ≡ 0 }
        ensures length { result.message_len ≡ message_len }
        ensures place { TellsPlace place result }
    {
        let (offset, line, column) = match place {
            Place::Nowhere => (0, 0, 0),
            Place::NotFound => (NO_OFFSET, 0, 0),
            Place::InText {
                offset,
                line,
                column,
            } => (offset, line, column),
            Place::InBytes { offset } => (offset, 0, 0),
        };
        Report {
            output_len: 0,
            message_len,
            offset,
            line,
            column,
        }
    }
}
