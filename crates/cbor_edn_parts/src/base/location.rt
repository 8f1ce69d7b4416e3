//! Where a refusal is, by lines and columns.
ghost use Rattle.std.specs.Prelude.{◌≡◌, ◌+◌, ◌-◌, ◌^◌, ◌<◌, IfSome};
ghost use Rattle.std.specs.Str.{IsCharBoundary};
ghost use Rattle.cbor_edn_parts.specs.base.Errors.{error_kind, error_offset, error_line, error_column};
ghost use Rattle.cbor_edn_parts.specs.base.Location.{IsLocation, location_behind};
ghost use Rattle.cbor_edn_parts.specs.internal.Input.{text_bytes};

use crate::base::error::{ParseError, Refusal};
use crate::base::input::Input;
use crate::base::looks::Looks;

/// The refusal with its line and column, for which the text in front of its place is read again.
pub fn with_location(text: &Input<'_>, refusal: Refusal, looks: &mut Looks) -> ParseError
    requires { IsCharBoundary (text_bytes text.now) refusal.offset }
    ensures kind { error_kind result ≡ refusal.kind }
    ensures place { IsLocation (text_bytes text.now) (error_offset result) (error_line result) (error_column result) }
    ensures cost { looks.new.count ≡ looks.old.count + refusal.offset }
{
    let mut line = 1;
    let mut column = 1;
    'bytes: for at in 0..refusal.offset {
        (line, column) = location_after(text.byte(at, looks), line, column);
    }
    ParseError::new(refusal.kind, refusal.offset, line, column)
}

/// The line and the column behind a byte.
fn location_after(byte: Option<u8>, line: usize, column: usize) -> (usize, usize)
    requires lines { line < 2 ^ 64 - 1 }
    requires columns { column < 2 ^ 64 - 1 }
    ensures { IfSome byte (λ c. (result.0, result.1) ≡ location_behind c line column) }
{
    match byte {
        Some(b'\n') => (line + 1, 1),
        Some(c) if c < 128 || 192 <= c => (line, column + 1),
        _ => (line, column),
    }
}
