//! Strings, printed while they are read.
//!
//! A string of indefinite length is printed string by string: how wide it is on a line, its heads and its texts tell.
ghost use Rattle.std.specs.Prelude.{◌≡◌, ◌++◌, ◌<◌, ◌≤◌, suc, length, IfOk, OnOk, Some, None};
ghost use Rattle.cbor_edn_parts.specs.base.Buffer.{buffer_bytes};
ghost use Rattle.cbor_edn_parts.specs.string.Contents.{kind_literal};
ghost use Rattle.cbor_edn_parts.specs.Leaves.{literal_bytes};
ghost use Rattle.cbor_edn_model.specs.tree.Trees.{text};
ghost use Rattle.cbor_edn_model.specs.internal.CborReading as reading;
ghost use Rattle.cbor_edn_model.specs.internal.CborReading.{trees, string_by, string_at, shown, DecoderGives, until, row_of, chunked_tree};
ghost use Rattle.cbor_edn_stream.specs.Printed.{Prints, Writes, WritesAnyhow, WritesRow, chunk_entry};

use crate::columns::layout_of_chunks;
use cbor_edn_model::cbor::decode::CborError;
use cbor_edn_model::cbor::decode::head::{Stop, head_of, indicator_of, past_stop};
use cbor_edn_model::cbor::heads::{Width, string_major};
use cbor_edn_model::text::write::print_indicator;
use cbor_edn_parts::base::buffer::TextBuffer;
use cbor_edn_parts::base::error::Fault;
use cbor_edn_parts::base::indicator::Indicator;
use cbor_edn_parts::space::layout::{Layout, Slot, print_end, print_mandatory, print_separator};
use cbor_edn_parts::space::{ListEnd, MandatorySpace, Separator};
use cbor_edn_parts::string::{Literal, StringKind};
use std::alloc::{AllocError, Global};

/// Writes a string of definite length with the indicator of its head, and answers the bytes behind it.
#[inline(never)]
pub fn print_string<'b>(
    alloc: Global,
    out: &mut TextBuffer,
    kind: StringKind,
    width: Width,
    count: u64,
    bytes: &'b [u8],
) -> Result<&'b [u8], Fault<CborError>>
    ensures value { Prints WritesAnyhow (λ r. r.now) (buffer_bytes out.old) (buffer_bytes out.new) result (string_by trees kind (Some (width, count)) bytes.now) }
    ensures shorter { IfOk result (λ r. length r.now ≤ length bytes.now) }
{
    let (literal, rest) = read_literal(alloc, kind, count, bytes)?;
    literal.print(out)?;
    print_indicator(out, indicator_of(Some((width, count))))?;
    Ok(rest)
}

/// The literal of so many bytes, and the bytes behind them.
fn read_literal<'a, 'b>(
    alloc: Global,
    kind: StringKind,
    count: u64,
    bytes: &'b [u8],
) -> Result<(Literal<'a>, &'b [u8]), Fault<CborError>>
    ensures value { DecoderGives (λ x. (literal_bytes x.0, x.1.now)) result (shown (kind_literal kind) (string_at kind count bytes.now)) }
    ensures shorter { IfOk result (λ x. length x.1.now ≤ length bytes.now) }
{
    if (bytes.len() as u64) < count {
        return Err(Fault::Told(CborError::MissingBytes));
    }
    let (front, rest) = bytes.split_at(count as usize);
    let literal = match kind {
        StringKind::Bytes => Literal::hex(alloc, front)?,
        StringKind::Text => match std::str::from_utf8(front) {
            Ok(text) => Literal::text(alloc, text)?,
            Err(_) => return Err(Fault::Told(CborError::InvalidUtf8)),
        },
    };
    Ok((literal, rest))
}

/// Writes a string of indefinite length behind its head, and answers the bytes behind it.
#[inline(never)]
pub fn print_stream<'b>(
    alloc: Global,
    out: &mut TextBuffer,
    layout: Layout,
    kind: StringKind,
    bytes: &'b [u8],
) -> Result<&'b [u8], Fault<CborError>>
    ensures value { Prints (λ t. Writes layout t) (λ r. r.now) (buffer_bytes out.old) (buffer_bytes out.new) result (string_by trees kind None bytes.now) }
    ensures shorter { IfOk result (λ r. length r.now ≤ length bytes.now) }
{
    if let Some(rest) = past_stop(Stop::Break, bytes) {
        print_empty(out, kind)?;
        return Ok(rest);
    }
    let parts = layout_of_chunks(layout, kind, bytes)?;
    out.push_str("(_")?;
    print_mandatory(out, &MandatorySpace::single(), parts, Slot::First)?;
    let rest = print_chunks(alloc, out, parts, kind, bytes)?;
    out.push_str(")")?;
    Ok(rest)
}

/// Writes a string of indefinite length without strings: `''_`.
#[tactic(auto, using(cbor_edn_model::proofs::lemmas::text::Texts::text_string, cbor_edn_model::proofs::lemmas::text::Texts::text_last_piece, cbor_edn_model::proofs::lemmas::text::Texts::text_literal, std::proofs::Common::append_assoc))]
fn print_empty(out: &mut TextBuffer, kind: StringKind) -> Result<(), AllocError>
    ensures { OnOk result (buffer_bytes out.new ≡ buffer_bytes out.old ++ text (chunked_tree kind None)) }
{
    Literal::empty(kind).print(out)?;
    print_indicator(out, Some(Indicator::Indefinite))
}

/// Writes the strings up to a break, which does not stand at the front, the separators between them, and the end of their list.
fn print_chunks<'b>(
    alloc: Global,
    out: &mut TextBuffer,
    layout: Layout,
    kind: StringKind,
    bytes: &'b [u8],
) -> Result<&'b [u8], Fault<CborError>>
    requires { reading.past_stop Stop.Break bytes.now ≡ None }
    ensures value { Prints (λ es. WritesRow layout (row_of es)) (λ r. r.now) (buffer_bytes out.old) (buffer_bytes out.new) result (until Stop.Break (chunk_entry kind) (suc (length bytes.now)) bytes.now) }
    ensures shorter { IfOk result (λ r. length r.now ≤ length bytes.now) }
{
    let mut rest = bytes;
    'chunks: loop {
        let after = print_chunk(alloc, out, kind, rest)?;
        match past_stop(Stop::Break, after) {
            Some(behind) => {
                print_end(out, &ListEnd::empty(), layout)?;
                return Ok(behind);
            }
            None => {
                print_separator(out, &Separator::comma_space(), layout)?;
                rest = after;
            }
        }
    }
}

/// Writes one of the strings that a string of indefinite length consists of.
fn print_chunk<'b>(
    alloc: Global,
    out: &mut TextBuffer,
    kind: StringKind,
    bytes: &'b [u8],
) -> Result<&'b [u8], Fault<CborError>>
    ensures value { Prints WritesAnyhow (λ r. r.now) (buffer_bytes out.old) (buffer_bytes out.new) result (chunk_entry kind bytes.now) }
    ensures shorter { IfOk result (λ r. length r.now < length bytes.now) }
{
    let ((major, argument), rest) = head_of(bytes)?;
    if major != string_major(kind) {
        return Err(Fault::Told(CborError::OtherChunk));
    }
    match argument {
        Some((width, count)) => print_string(alloc, out, kind, width, count, rest),
        None => Err(Fault::Told(CborError::OpenChunk)),
    }
}
