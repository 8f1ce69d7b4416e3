//! Reads a path.
ghost use Rattle.std.specs.Prelude.{◌≡◌, ◌+◌, ◌≤◌, length, take, count_by, IfOk};
ghost use Rattle.cbor_edn_parts.specs.base.Location as location;
ghost use Rattle.cbor_edn_parts.specs.base.Refusals.{IfTold};
ghost use Rattle.cbor_edn_paths.specs.Answers.{IsFaultColumn};
ghost use Rattle.cbor_edn_paths.specs.Spelling.{Spells};
ghost use Rattle.cbor_edn_paths.specs.Views.{path_of};
ghost use Rattle.cbor_edn_paths.specs.internal.Places as places;
ghost use Rattle.cbor_edn_paths.specs.internal.Moves.{outcome_of};

use crate::place::{Outcome, Place};
use crate::step::Path;
use cbor_edn_parts::base::error::Fault;
use std::alloc::{AllocError, Global};

/// Where a text is no path.
#[derive(Clone, Copy)]
pub struct PathFault {
    /// The character that leads no further, or the place behind the text where it ends too early: in characters, from 1.
    pub column: usize,
}

/// The path that a text is. It is refused at the first character with which no path goes on, and fails where memory runs out. Keys in
/// quotes and braces are lent as they are written: what they mean, and whether they are EDN, tells who parses them.
pub fn read<'a>(alloc: Global, text: &'a str) -> Result<Path<'a>, Fault<PathFault>>
    ensures spelled { IfOk result (λ p. Spells text.now (path_of p)) }
    ensures refused { IfTold result (λ e. IsFaultColumn text.now e.column) }
{
    let mut path = Path {
        start: None,
        steps: Vec::new(alloc),
    };
    let mut place = Place::Start;
    let bytes = text.as_bytes();
    'bytes: for (at, byte) in bytes.iter().enumerate() {
        let Some((outcome, next)) = place.next(text, at, *byte) else {
            return Err(fault_at(text, at));
        };
        path = with_outcome(path, outcome)?;
        place = next;
    }
    match place.end(text) {
        Some(outcome) => Ok(with_outcome(path, outcome)?),
        None => Err(fault_at(text, text.len())),
    }
}

/// The path behind what ended.
fn with_outcome<'a>(path: Path<'a>, outcome: Outcome<'a>) -> Result<Path<'a>, AllocError>
    ensures { IfOk result (λ p. path_of p ≡ places.with_outcome (outcome_of outcome.entry) (path_of path.entry)) }
{
    let Path { start, mut steps } = path;
    match outcome {
        Outcome::Nothing => Ok(Path { start, steps }),
        Outcome::Begun(number) => Ok(Path {
            start: Some(number),
            steps,
        }),
        Outcome::Ended(step) => {
            steps.push(step)?;
            Ok(Path { start, steps })
        }
    }
}

fn fault_at(text: &str, at: usize) -> Fault<PathFault>
    requires { at ≤ length text.now }
    ensures { result ≡ Fault.Told (record { column = 1 + count_by location.is_start (take at text.now) }) }
{
    let starts = text.as_bytes()[..at]
        .iter()
        .filter(|byte| is_start(**byte))
        .count();
    Fault::Told(PathFault { column: 1 + starts })
}

/// Whether a character begins with the byte.
fn is_start(byte: u8) -> bool
    ensures { result ≡ location.is_start byte }
{
    byte < 128 || 192 <= byte
}
