//! Literals of a prefix and a text.
ghost use Rattle.std.specs.Prelude.{◌≡◌, ◌↔◌, ℕ, List, None, true, false, IfOk, IfSome, IfNone, OnErr, string_bytes};
ghost use Rattle.cbor_edn_parts.specs.Leaves.{literal_bytes};
ghost use Rattle.cbor_edn_parts.specs.string.Literal.{IsLiteral, Prefixed};
ghost use Rattle.cbor_edn_parts.specs.base.Refusals.{IfTold, OnMemory};
ghost use Rattle.cbor_edn_model.specs.access.Accessed.{IsApplicationItem, IsApplicationPiece, are_several, string_tree};
ghost use Rattle.cbor_edn_model.specs.tree.TreeLeaves.{texts};
ghost use Rattle.cbor_edn_core.specs.access.Mismatch.{literal_mismatch};
ghost use Rattle.cbor_edn_core.specs.tree.View.{item_tree, view_piece, view_string};

use super::TypeMismatch;
use crate::tree::{CborString, InnerItem, Item, Piece};
use cbor_edn_parts::base::error::Fault;
use cbor_edn_parts::string::Literal;
use std::alloc::{AllocError, Global};

impl<'a> Item<'a> {
    /// The prefix of a string that is one literal with a prefix, whatever its encoding indicator, as `b64` of `b64'Yg'`: none of any
    /// other item. It is lent, and takes no memory.
    pub fn application_prefix(&self) -> Option<&str>
        ensures found { IfSome result (λ p. (v : List ℕ) × IsApplicationItem (item_tree self.now) p.now v) }
        ensures none { IfNone result ((p v : List ℕ) → IsApplicationItem (item_tree self.now) p v → ⊥) }
    {
        lone_literal(self)?.application_prefix()
    }

    /// The prefix and the text of a string that is one literal with a prefix, whatever its encoding indicator, as `b64` and `Yg`
    /// of `b64'Yg'`. Fails with `SingleApplicationLiteral` where the item is a string of several pieces, with
    /// `ApplicationLiteral` where it is anything else, and where memory runs out, which only such a literal takes.
    pub fn get_application_literal(
        &self,
        alloc: Global,
    ) -> Result<(String, String), Fault<TypeMismatch>>
        ensures found { IfOk result (λ p. IsApplicationItem (item_tree self.now) (string_bytes p.0) (string_bytes p.1)) }
        ensures refused { IfTold result (λ e. (e ≡ literal_mismatch (string_tree (item_tree self.now))) × ((p v : List ℕ) → IsApplicationItem (item_tree self.now) p v → ⊥)) }
        ensures out_of_memory { OnMemory result ((p v : List ℕ) × IsApplicationItem (item_tree self.now) p v) }
    {
        match &self.inner {
            InnerItem::Literal(_, literal) => literal
                .application_parts(alloc)?
                .ok_or(Fault::Told(TypeMismatch::ApplicationLiteral)),
            InnerItem::String(string) => {
                if has_several_pieces(string) {
                    return Err(Fault::Told(TypeMismatch::SingleApplicationLiteral));
                }
                prefix_and_text_of(alloc, &string.last)?.ok_or(Fault::Told(
                    TypeMismatch::ApplicationLiteral,
                ))
            }
            InnerItem::Number(..)
            | InnerItem::NonFinite(..)
            | InnerItem::Named(_)
            | InnerItem::Enclosed(..)
            | InnerItem::Array(_)
            | InnerItem::Map(_)
            | InnerItem::Stream(_) => Err(Fault::Told(TypeMismatch::ApplicationLiteral)),
        }
    }
}

/// Whether the item may be a literal with a prefix, by its form and its first byte: a test that takes less than
/// [`Item::application_prefix`].
#[inline]
#[tactic(auto, using(crate::proofs::lemmas::tree::Views::view_stream_is))]
pub(crate) fn may_have_prefix(item: &Item<'_>) -> bool
    ensures { result ≡ false → (p v : List ℕ) → IsApplicationItem (item_tree item.now) p v → ⊥ }
{
    match &item.inner {
        InnerItem::Literal(_, literal) => !begins_with_quote(literal),
        InnerItem::String(_) => true,
        InnerItem::Number(..)
        | InnerItem::NonFinite(..)
        | InnerItem::Named(_)
        | InnerItem::Enclosed(..)
        | InnerItem::Array(_)
        | InnerItem::Map(_)
        | InnerItem::Stream(_) => false,
    }
}

fn begins_with_quote(literal: &Literal<'_>) -> bool
    ensures { result ≡ true → (p v : List ℕ) → IsLiteral (Prefixed p) v (literal_bytes literal.now) → ⊥ }
{
    matches!(literal.as_str().as_bytes(), [b'\'' | b'"', ..])
}

/// The literal that an item is alone.
#[tactic(auto, using(crate::proofs::lemmas::tree::Views::view_stream_is))]
fn lone_literal<'i, 'a>(item: &'i Item<'a>) -> Option<&'i Literal<'a>>
    ensures literal { IfSome result (λ l. (p v : List ℕ) → IsApplicationItem (item_tree item.now) p v ↔ IsLiteral (Prefixed p) v (literal_bytes l.now)) }
    ensures other { IfNone result ((p v : List ℕ) → IsApplicationItem (item_tree item.now) p v → ⊥) }
{
    match &item.inner {
        InnerItem::Literal(_, literal) => Some(literal),
        InnerItem::String(string) => {
            if has_several_pieces(string) {
                return None;
            }
            piece_literal(&string.last)
        }
        InnerItem::Number(..)
        | InnerItem::NonFinite(..)
        | InnerItem::Named(_)
        | InnerItem::Enclosed(..)
        | InnerItem::Array(_)
        | InnerItem::Map(_)
        | InnerItem::Stream(_) => None,
    }
}

/// The literal that a piece is.
fn piece_literal<'p, 'a>(piece: &'p Piece<'a>) -> Option<&'p Literal<'a>>
    ensures literal { IfSome result (λ l. (p v : List ℕ) → IsApplicationPiece (view_piece texts piece.now) p v ↔ IsLiteral (Prefixed p) v (literal_bytes l.now)) }
    ensures other { IfNone result ((p v : List ℕ) → IsApplicationPiece (view_piece texts piece.now) p v → ⊥) }
{
    match piece {
        Piece::Literal(_, literal) => Some(literal),
        Piece::Ellipsis(_) | Piece::Embedded(..) => None,
    }
}

pub(crate) fn has_several_pieces(string: &CborString<'_>) -> bool
    ensures { result ≡ are_several (view_string texts string.now) }
{
    !string.row.is_empty()
}

/// The prefix and the text of a piece that is a literal with a prefix.
fn prefix_and_text_of(
    alloc: Global,
    piece: &Piece<'_>,
) -> Result<Option<(String, String)>, AllocError>
    ensures found { IfOk result (λ o. IfSome o (λ p. IsApplicationPiece (view_piece texts piece.now) (string_bytes p.0) (string_bytes p.1))) }
    ensures none { IfOk result (λ o. o ≡ None → (p v : List ℕ) → IsApplicationPiece (view_piece texts piece.now) p v → ⊥) }
    ensures prefixed { OnErr result ((p v : List ℕ) × IsApplicationPiece (view_piece texts piece.now) p v) }
{
    match piece {
        Piece::Literal(_, literal) => literal.application_parts(alloc),
        Piece::Ellipsis(_) | Piece::Embedded(..) => Ok(None),
    }
}
