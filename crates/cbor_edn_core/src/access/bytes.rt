//! The bytes of strings.
ghost use Rattle.std.specs.Prelude.{◌≡◌, IfOk, Some, None};
ghost use Rattle.std.specs.List.{list_all};
ghost use Rattle.cbor_edn_parts.specs.base.Refusals.{IfTold};
ghost use Rattle.cbor_edn_parts.specs.Leaves.{literal_bytes};
ghost use Rattle.cbor_edn_parts.specs.internal.ContentReading.{literal_content};
ghost use Rattle.cbor_edn_model.specs.access.Accessed.{only_bytes, item_bytes, piece_bytes, pieces_bytes, strings_bytes, pieces, is_plain_piece, is_plain_string};
ghost use Rattle.cbor_edn_model.specs.tree.TreeLeaves.{texts};
ghost use Rattle.cbor_edn_model.specs.internal.Adding.{Adds};
ghost use Rattle.cbor_edn_core.specs.tree.View.{item_tree, view_piece, view_string, view_strings};

use super::TypeMismatch;
use crate::cbor::encode::encode_piece;
use crate::tree::{CborString, InnerItem, Item, Piece, Strings};
use cbor_edn_model::cbor::encode::encode_literal;
use cbor_edn_parts::base::error::Fault;
use cbor_edn_parts::string::{Literal, StringKind};
use std::alloc::Global;

impl Item<'_> {
    /// The bytes of a string, of definite length or not, whatever the encoding indicators in it: what its pieces mean, one behind
    /// the other. Fails with `Bytes` where the item is no string or a piece means no bytes, and where memory runs out.
    pub fn get_bytes(&self, alloc: Global) -> Result<Vec<u8>, Fault<TypeMismatch>>
        ensures found { IfOk result (λ b. item_bytes (item_tree self.now) ≡ Some b.items) }
        ensures refused { IfTold result (λ e. (e ≡ TypeMismatch.Bytes) × (item_bytes (item_tree self.now) ≡ None)) }
    {
        let mut bytes = Vec::new(alloc);
        add_item(&mut bytes, self)?;
        Ok(bytes)
    }
}

impl Item<'_> {
    /// Whether the item is a string whose pieces are all quoted and have no encoding indicator, as `h'01' + 'a'` and neither
    /// `h'01'_0` nor `<<1>>`.
    #[tactic(auto, using(crate::proofs::lemmas::tree::Views::strings_are))]
    pub fn is_plain_string(&self) -> bool
        ensures { result ≡ is_plain_string (item_tree self.now) }
    {
        match &self.inner {
            InnerItem::Literal(indicator, _) => indicator.is_none(),
            InnerItem::String(string) => has_plain_pieces(string),
            InnerItem::Number(..)
            | InnerItem::NonFinite(..)
            | InnerItem::Named(_)
            | InnerItem::Enclosed(..)
            | InnerItem::Array(_)
            | InnerItem::Map(_)
            | InnerItem::Stream(_) => false,
        }
    }
}

fn has_plain_pieces(string: &CborString<'_>) -> bool
    ensures { result ≡ list_all is_plain_piece (pieces (view_string texts string.now)) }
{
    for (piece, _, _) in &string.row {
        if !is_plain_piece(piece) {
            return false;
        }
    }
    is_plain_piece(&string.last)
}

fn is_plain_piece(piece: &Piece<'_>) -> bool
    ensures { result ≡ is_plain_piece (view_piece texts piece.now) }
{
    matches!(piece, Piece::Literal(None, _))
}

fn add_item(out: &mut Vec<u8>, item: &Item<'_>) -> Result<(), Fault<TypeMismatch>>
    ensures { Adds TypeMismatch.Bytes (item_bytes (item_tree item.now)) out.old.items out.new.items result }
{
    match &item.inner {
        InnerItem::Literal(_, literal) => add_literal(out, literal),
        InnerItem::String(string) => add_string(out, string),
        InnerItem::Stream(stream) => add_strings(out, &stream.strings),
        InnerItem::Number(..)
        | InnerItem::NonFinite(..)
        | InnerItem::Named(_)
        | InnerItem::Enclosed(..)
        | InnerItem::Array(_)
        | InnerItem::Map(_) => Err(Fault::Told(TypeMismatch::Bytes)),
    }
}

fn add_strings(out: &mut Vec<u8>, strings: &Strings<'_>) -> Result<(), Fault<TypeMismatch>>
    ensures { Adds TypeMismatch.Bytes (strings_bytes (view_strings texts strings.now)) out.old.items out.new.items result }
{
    for (string, _) in &strings.row {
        add_string(out, string)?;
    }
    add_string(out, &strings.last)
}

fn add_string(out: &mut Vec<u8>, string: &CborString<'_>) -> Result<(), Fault<TypeMismatch>>
    ensures { Adds TypeMismatch.Bytes (pieces_bytes (view_string texts string.now)) out.old.items out.new.items result }
{
    for (piece, _, _) in &string.row {
        add_piece(out, piece)?;
    }
    add_piece(out, &string.last)
}

fn add_piece(out: &mut Vec<u8>, piece: &Piece<'_>) -> Result<(), Fault<TypeMismatch>>
    ensures { Adds TypeMismatch.Bytes (piece_bytes (view_piece texts piece.now)) out.old.items out.new.items result }
{
    match encode_piece(out, piece) {
        Ok(StringKind::Bytes) => Ok(()),
        Ok(StringKind::Text) | Err(Fault::Told(_)) => Err(Fault::Told(TypeMismatch::Bytes)),
        Err(Fault::Memory(refused)) => Err(Fault::Memory(refused)),
    }
}

fn add_literal(out: &mut Vec<u8>, literal: &Literal<'_>) -> Result<(), Fault<TypeMismatch>>
    ensures { Adds TypeMismatch.Bytes (only_bytes (literal_content (literal_bytes literal.now))) out.old.items out.new.items result }
{
    match encode_literal(out, literal) {
        Ok(StringKind::Bytes) => Ok(()),
        Ok(StringKind::Text) | Err(Fault::Told(_)) => Err(Fault::Told(TypeMismatch::Bytes)),
        Err(Fault::Memory(refused)) => Err(Fault::Memory(refused)),
    }
}
