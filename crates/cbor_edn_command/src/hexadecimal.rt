//! Streams of hexadecimal digits.
ghost use Rattle.std.specs.Prelude.{◌≡◌, IfOk, IsErr, Ok, not, filter};
ghost use Rattle.cbor_edn_parts.specs.base.Refusals.{IfTold};
ghost use Rattle.cbor_edn_command.specs.Hexadecimal.{hex_bytes, hex_lines, is_blank as is_blank_of};

use cbor_edn_parts::base::error::Fault;
use hex::FromHexError;
use std::alloc::{AllocError, Global};

/// An input that has a character which is no digit and no space, or an odd number of digits.
#[derive(Debug, Clone, Copy, PartialEq, Eq)]
pub struct NotHex;

/// How many digits a line has.
const LINE: usize = 64;

/// Whether the byte may stand between digits without meaning.
fn is_blank(byte: u8) -> bool
    ensures { result ≡ is_blank_of byte }
{
    matches!(byte, b'\t' | b'\n' | b'\r' | b' ')
}

/// The text without what stands between digits.
fn without_blanks(alloc: Global, input: &[u8]) -> Result<Vec<u8>, AllocError>
    ensures { IfOk result (λ v. v.items ≡ filter (λ b. not (is_blank_of b)) input.now) }
{
    let mut digits = Vec::new(alloc);
    for byte in input {
        if !is_blank(*byte) {
            digits.push(*byte)?;
        }
    }
    Ok(digits)
}

/// The bytes of a text of hexadecimal digits in either case, with spaces, tabs, LF and CR anywhere: `c1 00` becomes two bytes. Fails
/// where another character stands there or the digits are odd in number, and where memory runs out.
pub fn decoded(alloc: Global, input: &[u8]) -> Result<Vec<u8>, Fault<NotHex>>
    ensures ok { IfOk result (λ v. hex_bytes input.now ≡ Ok v.items) }
    ensures refused { IfTold result (λ _. IsErr (hex_bytes input.now)) }
{
    let digits = without_blanks(alloc, input)?;
    match hex::decode(alloc, digits.as_slice()) {
        Ok(bytes) => Ok(bytes),
        Err(FromHexError::OutOfMemory) => Err(Fault::Memory(AllocError)),
        Err(_) => Err(Fault::Told(NotHex)),
    }
}

/// The hexadecimal digits of some bytes, in lower case, in lines of at most 64 digits, each with LF at its end. Fails where memory runs
/// out.
pub fn to_lines(alloc: Global, bytes: &[u8]) -> Result<Vec<u8>, AllocError>
    ensures { IfOk result (λ v. v.items ≡ hex_lines bytes.now) }
{
    let digits = hex::encode(alloc, bytes)?;
    let mut lines = Vec::new(alloc);
    let mut rest = digits.as_bytes();
    'lines: while !rest.is_empty() {
        let (line, behind) = rest.split_at(rest.len().min(LINE));
        lines.extend_from_slice(line)?;
        lines.push(b'\n')?;
        rest = behind;
    }
    Ok(lines)
}
