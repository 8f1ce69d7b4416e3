//! The CBOR that items mean.
ghost use Rattle.std.specs.Prelude.{◌≡◌, ◌<◌, map, IfOk, Some};
ghost use Rattle.cbor_edn_model.specs.tree.Items as nodes;
ghost use Rattle.cbor_edn_model.specs.tree.Trees as trees;
ghost use Rattle.cbor_edn_core.specs.tree.View.{view_list, view_items, view_pair_list, view_pairs, view_pair, view_piece, view_string, view_strings, seen, seen_pair, seen_piece, seen_string, item_tree, standalone_tree, sequence_tree};
ghost use Rattle.cbor_edn_model.specs.tree.TreeLeaves.{texts};
ghost use Rattle.cbor_edn_model.specs.cbor.Value.{AreBytes, Value, Values, encoding, encodings, pair_encodings, Enc, EncAll};
ghost use Rattle.cbor_edn_model.specs.cbor.Meaning as meaning;
ghost use Rattle.cbor_edn_model.specs.cbor.Meaning.{NoEncoding, means, length_of};
ghost use Rattle.cbor_edn_parts.specs.Leaves.{literal_bytes};
ghost use Rattle.cbor_edn_parts.specs.base.Refusals.{IfTold};
ghost use Rattle.cbor_edn_model.specs.internal.Encoding as calls;
ghost use Rattle.cbor_edn_model.specs.internal.Encoding.{Encodes, Finds, Gathers, entry_encoding, string_encodings, row_items, list_head};

use crate::tree::{
    CborString, InnerItem, Item, ItemList, Items, OpenerKind, Pair, PairList, Pairs, Piece,
    Sequence, StandaloneItem, Strings,
};
use cbor_edn_model::cbor::encode::{encode_empty, encode_literal, encode_number, simple_of};
use cbor_edn_model::cbor::heads::{
    encode_chunk, encode_float, encode_indicated_head, encode_list_end, encode_list_head,
    encode_simple, encode_string, encode_text, length_of, named_number, same_kind, string_major,
};
use cbor_edn_parts::base::error::{Fault, InconsistentEdn};
use cbor_edn_parts::base::indicator::Indicator;
use cbor_edn_parts::number::Number;
use cbor_edn_parts::space::{Separator, Space};
use cbor_edn_parts::string::{Literal, StringKind};
use std::alloc::Global;

impl Item<'_> {
    /// The encoding of the value that the item means: `[1, "a"]` becomes `82016161`. Fails where it means none, and where memory runs
    /// out. The bytes of an embedded sequence are copied once for each level that it nests in.
    #[tactic(auto, unfolding(cbor_edn_model::specs::tree::Trees::items))]
    pub fn to_cbor(&self, alloc: Global) -> Result<Vec<u8>, Fault<InconsistentEdn>>
        ensures bytes { IfOk result (λ b. (v : Value) × (means (trees.items (item_tree self.now)) ≡ Some v) × Enc b.items v) }
        ensures refused { IfTold result (NoEncoding (means (trees.items (item_tree self.now)))) }
    {
        let mut out = Vec::new(alloc);
        encode_item(&mut out, self)?;
        are_bytes(&out);
        Ok(out)
    }
}

impl StandaloneItem<'_> {
    /// The encoding of the value that the item between the spaces means: ` 24 / a /` becomes `1818`. Fails where it means none, and where
    /// memory runs out. The bytes of an embedded sequence are copied once for each level that it nests in.
    #[tactic(auto, unfolding(cbor_edn_model::specs::tree::Trees::items))]
    pub fn to_cbor(&self, alloc: Global) -> Result<Vec<u8>, Fault<InconsistentEdn>>
        ensures bytes { IfOk result (λ b. (v : Value) × (means (trees.items (standalone_tree self.now)) ≡ Some v) × Enc b.items v) }
        ensures refused { IfTold result (NoEncoding (means (trees.items (standalone_tree self.now)))) }
    {
        let mut out = Vec::new(alloc);
        encode_item(&mut out, &self.item)?;
        are_bytes(&out);
        Ok(out)
    }
}

impl Sequence<'_> {
    /// The encodings of the values that the items mean, one behind the other (RFC 8742): `1, 2` becomes `0102`. Fails where an item means
    /// none, and where memory runs out. The bytes of an embedded sequence are copied once for each level that it nests in.
    #[tactic(auto, unfolding(cbor_edn_model::specs::tree::Trees::items))]
    pub fn to_cbor(&self, alloc: Global) -> Result<Vec<u8>, Fault<InconsistentEdn>>
        ensures bytes { IfOk result (λ b. (v : Values) × (means (trees.items (sequence_tree self.now)) ≡ Some v) × EncAll b.items v) }
        ensures refused { IfTold result (NoEncoding (means (trees.items (sequence_tree self.now)))) }
    {
        let mut out = Vec::new(alloc);
        encode_sequence(&mut out, self)?;
        are_bytes(&out);
        Ok(out)
    }
}

/// Nothing: the clause is what the type says, for the proof of a caller that hands its vector on.
fn are_bytes(bytes: &[u8])
    ensures { AreBytes bytes.now }
{
    let _ = bytes;
}

#[cycle(encode)]
#[tactic(auto, unfolding(cbor_edn_model::specs::tree::Trees::items))]
fn encode_item(out: &mut Vec<u8>, item: &Item<'_>) -> Result<(), Fault<InconsistentEdn>>
    ensures { Encodes encoding (means (trees.items (item_tree item.now))) out.old.items out.new.items result }
{
    match &item.inner {
        InnerItem::Number(indicator, number) => encode_number(out, number, *indicator),
        InnerItem::NonFinite(indicator, float) => encode_float(out, *float, *indicator),
        InnerItem::Named(name) => Ok(encode_simple(out, named_number(*name))?),
        InnerItem::Enclosed(opener, content) => encode_enclosed(out, opener.kind, content),
        InnerItem::Array(list) => encode_array(out, list),
        InnerItem::Map(list) => encode_map(out, list),
        InnerItem::Literal(indicator, literal) => encode_lone_literal(out, *indicator, literal),
        InnerItem::String(string) => encode_pieces(out, string),
        InnerItem::Stream(stream) => encode_stream(out, &stream.strings),
    }
}

#[cycle(encode)]
#[tactic(auto, unfolding(cbor_edn_model::specs::tree::Trees::items))]
fn encode_enclosed(
    out: &mut Vec<u8>,
    opener: OpenerKind,
    content: &StandaloneItem<'_>,
) -> Result<(), Fault<InconsistentEdn>>
    ensures { Encodes encoding (means (trees.labelled opener (trees.items (standalone_tree content.now)))) out.old.items out.new.items result }
{
    match opener {
        OpenerKind::Tag(indicator, number) => {
            encode_indicated_head(out, 6, indicator, number)?;
            encode_item(out, &content.item)
        }
        OpenerKind::Simple => encode_numeric(out, &content.item),
    }
}

/// Writes the simple value whose number an item is. Fails where the item is no such number.
#[tactic(auto, unfolding(cbor_edn_model::specs::tree::Trees::items))]
fn encode_numeric(out: &mut Vec<u8>, item: &Item<'_>) -> Result<(), Fault<InconsistentEdn>>
    ensures { Encodes encoding (meaning.means_simple (trees.items (item_tree item.now))) out.old.items out.new.items result }
{
    let simple = match &item.inner {
        InnerItem::Number(indicator, number) => simple_of(number, *indicator),
        _ => None,
    };
    match simple {
        Some(number) => Ok(encode_simple(out, number)?),
        None => Err(Fault::Told(InconsistentEdn::InvalidSimple)),
    }
}

#[cycle(encode)]
fn encode_array(out: &mut Vec<u8>, list: &ItemList<'_>) -> Result<(), Fault<InconsistentEdn>>
    ensures { let l = trees.items (view_list texts list.now) in Encodes encoding (means (nodes.Listed nodes.Array l.0 l.1)) out.old.items out.new.items result }
{
    match list {
        ItemList::Absent { indicator, .. } => encode_empty(out, 4, *indicator),
        ItemList::Present { head, items, .. } => {
            let count = items.row.len() as u64 + 1;
            let width = length_of(head.indicator(), count)?;
            encode_list_head(out, 4, width, count)?;
            encode_items(out, items)?;
            encode_list_end(out, width)?;
            Ok(())
        }
    }
}

#[cycle(encode)]
fn encode_items(out: &mut Vec<u8>, items: &Items<'_>) -> Result<(), Fault<InconsistentEdn>>
    ensures { Encodes encodings (means (trees.items (view_items texts items.now))) out.old.items out.new.items result }
{
    encode_row(out, &items.row)?;
    encode_item(out, &items.last)
}

#[cycle(encode)]
fn encode_row(
    out: &mut Vec<u8>,
    row: &[(Item<'_>, Separator<'_>)],
) -> Result<(), Fault<InconsistentEdn>>
    ensures { Encodes encodings (means (row_items (map (seen texts) row.now))) out.old.items out.new.items result }
{
    for (item, _) in row {
        encode_item(out, item)?;
    }
    Ok(())
}

#[cycle(encode)]
fn encode_map(out: &mut Vec<u8>, list: &PairList<'_>) -> Result<(), Fault<InconsistentEdn>>
    ensures { let l = trees.items (view_pair_list texts list.now) in Encodes encoding (means (nodes.Listed nodes.Map l.0 l.1)) out.old.items out.new.items result }
{
    match list {
        PairList::Absent { indicator, .. } => encode_empty(out, 5, *indicator),
        PairList::Present { head, pairs, .. } => {
            let count = pairs.row.len() as u64 + 1;
            let width = length_of(head.indicator(), count)?;
            encode_list_head(out, 5, width, count)?;
            encode_pairs(out, pairs)?;
            encode_list_end(out, width)?;
            Ok(())
        }
    }
}

#[cycle(encode)]
fn encode_pairs(out: &mut Vec<u8>, pairs: &Pairs<'_>) -> Result<(), Fault<InconsistentEdn>>
    ensures { Encodes pair_encodings (means (trees.items (view_pairs texts pairs.now))) out.old.items out.new.items result }
{
    encode_pair_row(out, &pairs.row)?;
    encode_pair(out, &pairs.last)
}

#[cycle(encode)]
fn encode_pair_row(
    out: &mut Vec<u8>,
    row: &[(Pair<'_>, Separator<'_>)],
) -> Result<(), Fault<InconsistentEdn>>
    ensures { Encodes pair_encodings (means (row_items (map (seen_pair texts) row.now))) out.old.items out.new.items result }
{
    for (pair, _) in row {
        encode_pair(out, pair)?;
    }
    Ok(())
}

#[cycle(encode)]
fn encode_pair(out: &mut Vec<u8>, pair: &Pair<'_>) -> Result<(), Fault<InconsistentEdn>>
    ensures { Encodes (entry_encoding nodes.Pairs) (means (trees.items (view_pair texts pair.now))) out.old.items out.new.items result }
{
    encode_item(out, &pair.key)?;
    encode_item(out, &pair.value)
}

#[cycle(encode)]
#[tactic(auto, unfolding(cbor_edn_model::specs::tree::Trees::items))]
fn encode_sequence(out: &mut Vec<u8>, sequence: &Sequence<'_>) -> Result<(), Fault<InconsistentEdn>>
    ensures { Encodes encodings (means (trees.items (sequence_tree sequence.now))) out.old.items out.new.items result }
{
    match &sequence.items {
        Some(items) => encode_items(out, items),
        None => Ok(()),
    }
}

/// Writes a string by itself.
#[cycle(encode)]
fn encode_pieces(out: &mut Vec<u8>, string: &CborString<'_>) -> Result<(), Fault<InconsistentEdn>>
    ensures { Encodes encoding (means (nodes.String (trees.items (view_string texts string.now)))) out.old.items out.new.items result }
{
    let indicator = string_indicator(string)?;
    let (kind, bytes) = content_of(*out.allocator(), string)?;
    encode_string(out, kind, indicator, &bytes)
}

/// Writes a string that is one literal.
fn encode_lone_literal(
    out: &mut Vec<u8>,
    indicator: Option<Indicator>,
    literal: &Literal<'_>,
) -> Result<(), Fault<InconsistentEdn>>
    ensures { Encodes encoding (means (nodes.String (nodes.LastPiece (nodes.Literal (literal_bytes literal.now) indicator)))) out.old.items out.new.items result }
{
    match literal.plain_content() {
        Some((kind, text)) => encode_text(out, kind, indicator, text),
        None => {
            let (kind, bytes) = literal.content(*out.allocator())?;
            encode_string(out, kind, indicator, &bytes)
        }
    }
}

/// Writes one of the strings of a stream.
#[cycle(encode)]
fn encode_stream_chunk(
    out: &mut Vec<u8>,
    string: &CborString<'_>,
) -> Result<(), Fault<InconsistentEdn>>
    ensures { Encodes (entry_encoding nodes.Strings) (means (nodes.Chunk (trees.items (view_string texts string.now)))) out.old.items out.new.items result }
{
    let indicator = string_indicator(string)?;
    let (kind, bytes) = content_of(*out.allocator(), string)?;
    encode_chunk(out, kind, indicator, &bytes)
}

/// The indicators of the pieces as one. Fails where one of several pieces has one.
fn string_indicator(string: &CborString<'_>) -> Result<Option<Indicator>, Fault<InconsistentEdn>>
    ensures { Finds (meaning.pieces_indicator (trees.items (view_string texts string.now))) result }
{
    let indicator = piece_indicator(&string.last);
    if string.row.is_empty() {
        Ok(indicator)
    } else if indicator.is_none() && have_no_indicators(&string.row) {
        Ok(None)
    } else {
        Err(Fault::Told(InconsistentEdn::IndicatorOnPiece))
    }
}

#[tactic(auto, unfolding(cbor_edn_model::specs::tree::Trees::items))]
fn piece_indicator(piece: &Piece<'_>) -> Option<Indicator>
    ensures { result ≡ meaning.piece_indicator (trees.items (view_piece texts piece.now)) }
{
    match piece {
        Piece::Literal(indicator, _) | Piece::Embedded(indicator, _) => *indicator,
        Piece::Ellipsis(_) => None,
    }
}

fn have_no_indicators(row: &[(Piece<'_>, Space<'_>, Space<'_>)]) -> bool
    ensures { result ≡ calls.no_indicators (map (seen_piece texts) row.now) }
{
    for (piece, _, _) in row {
        if piece_indicator(piece).is_some() {
            return false;
        }
    }
    true
}

/// The kind and the bytes of a string.
#[cycle(encode)]
fn content_of(
    alloc: Global,
    string: &CborString<'_>,
) -> Result<(StringKind, Vec<u8>), Fault<InconsistentEdn>>
    ensures content { IfOk result (λ p. means (trees.items (view_string texts string.now)) ≡ Some (p.0, p.1.items)) }
    ensures none { IfTold result (NoEncoding (means (trees.items (view_string texts string.now)))) }
{
    let mut bytes = Vec::new(alloc);
    match gather(&mut bytes, string) {
        Ok(kind) => Ok((kind, bytes)),
        Err(Fault::Told(refused)) => Err(first_fault(alloc, string, refused)),
        Err(Fault::Memory(refused)) => Err(Fault::Memory(refused)),
    }
}

/// Writes the bytes of the pieces, and answers the kind of the first.
#[cycle(encode)]
fn gather(out: &mut Vec<u8>, string: &CborString<'_>) -> Result<StringKind, Fault<InconsistentEdn>>
    ensures { Gathers (means (trees.items (view_string texts string.now))) out.old.items out.new.items result }
{
    let mut kind: Option<StringKind> = None;
    for (piece, _, _) in &string.row {
        let next = encode_piece(out, piece)?;
        kind = Some(kind.unwrap_or(next));
    }
    let last = encode_piece(out, &string.last)?;
    Ok(kind.unwrap_or(last))
}

/// Writes the bytes of a piece, and answers its kind.
#[cycle(encode)]
pub(crate) fn encode_piece(
    out: &mut Vec<u8>,
    piece: &Piece<'_>,
) -> Result<StringKind, Fault<InconsistentEdn>>
    ensures { Gathers (means (trees.items (view_piece texts piece.now))) out.old.items out.new.items result }
{
    match piece {
        Piece::Literal(_, literal) => encode_literal(out, literal),
        Piece::Ellipsis(_) => Err(Fault::Told(InconsistentEdn::UnsupportedLiteral)),
        Piece::Embedded(_, sequence) => {
            encode_sequence(out, sequence)?;
            Ok(StringKind::Bytes)
        }
    }
}

/// What is told of a string without a content: first of pieces that no content is known of, then of the other literals, and then
/// what stopped its gathering.
fn first_fault(
    alloc: Global,
    string: &CborString<'_>,
    refused: InconsistentEdn,
) -> Fault<InconsistentEdn> {
    if has_unsupported(string) {
        return Fault::Told(InconsistentEdn::UnsupportedLiteral);
    }
    match check_literals(alloc, string) {
        Ok(()) => Fault::Told(refused),
        Err(fault) => fault,
    }
}

fn has_unsupported(string: &CborString<'_>) -> bool {
    for (piece, _, _) in &string.row {
        if is_unsupported(piece) {
            return true;
        }
    }
    is_unsupported(&string.last)
}

fn is_unsupported(piece: &Piece<'_>) -> bool {
    match piece {
        Piece::Literal(_, literal) => !literal.is_supported(),
        Piece::Ellipsis(_) => true,
        Piece::Embedded(..) => false,
    }
}

/// Fails where a literal has no content.
fn check_literals(alloc: Global, string: &CborString<'_>) -> Result<(), Fault<InconsistentEdn>> {
    for (piece, _, _) in &string.row {
        check_literal(alloc, piece)?;
    }
    check_literal(alloc, &string.last)
}

fn check_literal(alloc: Global, piece: &Piece<'_>) -> Result<(), Fault<InconsistentEdn>> {
    if let Piece::Literal(_, literal) = piece {
        let _ = literal.content(alloc)?;
    }
    Ok(())
}

#[cycle(encode)]
fn encode_stream(out: &mut Vec<u8>, strings: &Strings<'_>) -> Result<(), Fault<InconsistentEdn>>
    ensures { Encodes encoding (means (nodes.Stream (trees.items (view_strings texts strings.now)))) out.old.items out.new.items result }
{
    match encode_chunks(out, strings) {
        Err(Fault::Told(refused)) => Err(Fault::Told(first_of_stream(strings, refused))),
        answer => answer,
    }
}

/// What is told of a stream without a meaning: first of pieces that no content is known of, since these have no kind either, and
/// then what stopped its writing.
fn first_of_stream(strings: &Strings<'_>, refused: InconsistentEdn) -> InconsistentEdn {
    if have_unsupported(strings) {
        InconsistentEdn::UnsupportedLiteral
    } else {
        refused
    }
}

fn have_unsupported(strings: &Strings<'_>) -> bool {
    for (string, _) in &strings.row {
        if has_unsupported(string) {
            return true;
        }
    }
    has_unsupported(&strings.last)
}

/// Writes the strings of a stream between its head and its end.
#[cycle(encode)]
fn encode_chunks(out: &mut Vec<u8>, strings: &Strings<'_>) -> Result<(), Fault<InconsistentEdn>>
    ensures { Encodes encoding (means (nodes.Stream (trees.items (view_strings texts strings.now)))) out.old.items out.new.items result }
{
    let major = string_major(stream_kind(strings)?);
    encode_list_head(out, major, None, 0)?;
    encode_stream_chunks(out, strings)?;
    encode_list_end(out, None)?;
    Ok(())
}

#[cycle(encode)]
fn encode_stream_chunks(
    out: &mut Vec<u8>,
    strings: &Strings<'_>,
) -> Result<(), Fault<InconsistentEdn>>
    ensures { Encodes string_encodings (means (trees.items (view_strings texts strings.now))) out.old.items out.new.items result }
{
    encode_stream_chunk_row(out, &strings.row)?;
    encode_stream_chunk(out, &strings.last)
}

#[cycle(encode)]
fn encode_stream_chunk_row(
    out: &mut Vec<u8>,
    row: &[(CborString<'_>, Separator<'_>)],
) -> Result<(), Fault<InconsistentEdn>>
    ensures { Encodes string_encodings (means (row_items (map (seen_string texts) row.now))) out.old.items out.new.items result }
{
    for (string, _) in row {
        encode_stream_chunk(out, string)?;
    }
    Ok(())
}

/// The kind of the strings of a stream, by their forms. Fails where they are of both kinds.
fn stream_kind(strings: &Strings<'_>) -> Result<StringKind, Fault<InconsistentEdn>>
    ensures { Finds (calls.stream_kind (trees.items (view_strings texts strings.now))) result }
{
    let kind = first_kind(strings);
    if are_of_kind(kind, &strings.row) && same_kind(kind, form_kind(&strings.last)) {
        Ok(kind)
    } else {
        Err(Fault::Told(InconsistentEdn::OtherChunk))
    }
}

fn first_kind(strings: &Strings<'_>) -> StringKind
    ensures { result ≡ calls.first_kind (trees.items (view_strings texts strings.now)) }
{
    match strings.row.as_slice() {
        [(string, _), ..] => form_kind(string),
        [] => form_kind(&strings.last),
    }
}

fn are_of_kind(kind: StringKind, row: &[(CborString<'_>, Separator<'_>)]) -> bool
    ensures { result ≡ calls.kinds_are kind (row_items (map (seen_string texts) row.now)) }
{
    for (string, _) in row {
        if !same_kind(kind, form_kind(string)) {
            return false;
        }
    }
    true
}

/// The kind of a string by the form of its first piece.
fn form_kind(string: &CborString<'_>) -> StringKind
    ensures { result ≡ calls.form_kind (trees.items (view_string texts string.now)) }
{
    match string.row.as_slice() {
        [(piece, _, _), ..] => piece_kind(piece),
        [] => piece_kind(&string.last),
    }
}

#[tactic(auto, unfolding(cbor_edn_model::specs::tree::Trees::items))]
fn piece_kind(piece: &Piece<'_>) -> StringKind
    ensures { result ≡ calls.piece_kind (trees.items (view_piece texts piece.now)) }
{
    match piece {
        Piece::Literal(_, literal) => literal.kind(),
        Piece::Ellipsis(_) | Piece::Embedded(..) => StringKind::Bytes,
    }
}
