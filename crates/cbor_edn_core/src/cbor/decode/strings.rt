//! Strings from their encoding.
ghost use Rattle.std.specs.Prelude.{◌≡◌, ◌<◌, ◌≤◌, suc, length, map, option_map, IfOk};
ghost use Rattle.cbor_edn_parts.specs.string.Contents.{kind_literal};
ghost use Rattle.cbor_edn_parts.specs.Leaves.{literal_bytes};
ghost use Rattle.cbor_edn_core.specs.tree.View.{view_string, view_strings, item_tree};
ghost use Rattle.cbor_edn_model.specs.tree.TreeLeaves.{texts};
ghost use Rattle.cbor_edn_model.specs.internal.CborReading.{DecoderGives, trees, until, string_at, chunk_at, string_by, definite_tree, chunked_tree, shown};
ghost use Rattle.cbor_edn_core.specs.internal.RowBuilder.{grown};

use super::CborError;
use super::finish::finish_strings;
use super::row_builder::RowBuilder;
use crate::tree::{CborString, Item, Piece, Stream, Strings};
use cbor_edn_model::cbor::decode::head::{Argument, Stop, head_of, indicator_of, past_stop};
use cbor_edn_model::cbor::heads::{Width, string_major};
use cbor_edn_parts::base::error::Fault;
use cbor_edn_parts::base::indicator::Indicator;
use cbor_edn_parts::space::MandatorySpace;
use cbor_edn_parts::string::{Literal, StringKind};
use std::alloc::{AllocError, Global};

/// The literal of so many bytes.
fn decode_literal<'a, 'b>(
    alloc: Global,
    kind: StringKind,
    count: u64,
    bytes: &'b [u8],
) -> Result<(Literal<'a>, &'b [u8]), Fault<CborError>>
    ensures value { DecoderGives (λ x. (literal_bytes x.0, x.1.now)) result (shown (kind_literal kind) (string_at kind count bytes.now)) }
    ensures shorter { IfOk result (λ x. length x.1.now ≤ length bytes.now) }
    ensures counted { IfOk result (λ x. count ≤ length bytes.now) }
{
    if (bytes.len() as u64) < count {
        return Err(Fault::Told(CborError::MissingBytes));
    }
    let (front, rest) = bytes.split_at(count as usize);
    let literal = match kind {
        StringKind::Bytes => Literal::hex(alloc, front)?,
        StringKind::Text => match std::str::from_utf8(front) {
            Ok(text) => Literal::text(alloc, text)?,
            Err(_) => return Err(Fault::Told(CborError::InvalidUtf8)),
        },
    };
    Ok((literal, rest))
}

/// The string behind a head with an argument.
fn definite<'a, 'b>(
    alloc: Global,
    kind: StringKind,
    width: Width,
    count: u64,
    bytes: &'b [u8],
) -> Result<(CborString<'a>, &'b [u8]), Fault<CborError>>
    ensures value { DecoderGives (λ x. (view_string texts x.0, x.1.now)) result (shown (λ bs. definite_tree kind (width, bs)) (string_at kind count bytes.now)) }
    ensures shorter { IfOk result (λ x. length x.1.now ≤ length bytes.now) }
{
    let (literal, rest) = decode_literal(alloc, kind, count, bytes)?;
    let last = Piece::Literal(indicator_of(Some((width, count))), literal);
    let row = Vec::new(alloc);
    Ok((CborString { row, last }, rest))
}

/// One of the strings that a string of indefinite length consists of.
fn decode_chunk<'a, 'b>(
    alloc: Global,
    kind: StringKind,
    bytes: &'b [u8],
) -> Result<(CborString<'a>, &'b [u8]), Fault<CborError>>
    ensures value { DecoderGives (λ x. (view_string texts x.0, x.1.now)) result (shown (definite_tree kind) (chunk_at kind bytes.now)) }
    ensures shorter { IfOk result (λ x. length x.1.now < length bytes.now) }
{
    let ((major, argument), rest) = head_of(bytes)?;
    if major != string_major(kind) {
        return Err(Fault::Told(CborError::OtherChunk));
    }
    match argument {
        Some((width, count)) => definite(alloc, kind, width, count, rest),
        None => Err(Fault::Told(CborError::OpenChunk)),
    }
}

fn decode_chunks_until<'a, 'b>(
    alloc: Global,
    kind: StringKind,
    bytes: &'b [u8],
) -> Result<(RowBuilder<'a, CborString<'a>>, &'b [u8]), Fault<CborError>>
    ensures value { DecoderGives (λ x. (map (view_string texts) (grown x.0), x.1.now)) result (until Stop.Break (λ bs. shown (definite_tree kind) (chunk_at kind bs)) (suc (length bytes.now)) bytes.now) }
    ensures shorter { IfOk result (λ x. length x.1.now ≤ length bytes.now) }
{
    let mut found: RowBuilder<'a, CborString<'a>> = RowBuilder::new(alloc);
    let mut rest = bytes;
    'turns: loop {
        match past_stop(Stop::Break, rest) {
            Some(after) => return Ok((found, after)),
            None => {
                let (string, after) = decode_chunk(alloc, kind, rest)?;
                found.push(string)?;
                rest = after;
            }
        }
    }
}

/// A string of indefinite length: `(_ h'61')`, and `''_` without strings.
fn indefinite_string<'a>(
    alloc: Global,
    kind: StringKind,
    strings: Option<Strings<'a>>,
) -> Result<Item<'a>, AllocError>
    ensures { IfOk result (λ t. item_tree t ≡ chunked_tree kind (option_map (view_strings texts) strings.entry)) }
{
    match strings {
        Some(strings) => Item::stream(
            alloc,
            Stream {
                space: MandatorySpace::single(),
                strings,
            },
        ),
        None => Ok(Item::literal(Some(Indicator::Indefinite), Literal::empty(kind))),
    }
}

/// The string behind a head.
#[inline(never)]
pub(super) fn decode_string<'a, 'b>(
    alloc: Global,
    kind: StringKind,
    argument: Argument,
    bytes: &'b [u8],
) -> Result<(Item<'a>, &'b [u8]), Fault<CborError>>
    ensures value { DecoderGives (λ x. (item_tree x.0, x.1.now)) result (string_by trees kind argument bytes.now) }
    ensures shorter { IfOk result (λ x. length x.1.now ≤ length bytes.now) }
{
    match argument {
        Some((width, count)) => {
            let (literal, rest) = decode_literal(alloc, kind, count, bytes)?;
            Ok((Item::literal(indicator_of(argument), literal), rest))
        }
        None => {
            let (found, rest) = decode_chunks_until(alloc, kind, bytes)?;
            let strings = finish_strings(found);
            let item = indefinite_string(alloc, kind, strings)?;
            Ok((item, rest))
        }
    }
}
