//! Embedded sequences that are made, and the encoding indicator that they take over from a literal.
ghost use Rattle.std.specs.Prelude.{◌≡◌, [], IfOk};
ghost use Rattle.cbor_edn_model.specs.tree.Trees.{ElementTree, LastTree, SequenceTree, StringTree, LastPieceTree, EmbeddedTree};
ghost use Rattle.cbor_edn_core.specs.tree.Embedding.{embedded_tree, piece_indicator, lone_indicator, literal_indicator};
ghost use Rattle.cbor_edn_core.specs.tree.View.{item_tree, sequence_tree, view_piece, view_string};
ghost use Rattle.cbor_edn_model.specs.tree.TreeLeaves.{texts};

use crate::access::application::has_several_pieces;
use crate::tree::{CborString, Indicator, InnerItem, Item, ItemsOf, Piece, Sequence, SequenceOf};
use cbor_edn_parts::space::{ListEnd, Space};
use std::alloc::{AllocError, Global};

impl<'a> Sequence<'a> {
    /// The sequence of one item, without space.
    #[tactic(auto, using(crate::proofs::lemmas::tree::Views::view_sequence_made, crate::proofs::lemmas::tree::Views::view_items_made))]
    pub fn of_item(alloc: Global, item: Item<'a>) -> Sequence<'a>
        ensures { sequence_tree result ≡ SequenceTree [] (LastTree (ElementTree (item_tree item.entry)) []) }
    {
        SequenceOf {
            before: Space::empty(),
            items: Some(ItemsOf {
                row: Vec::new(alloc),
                last: item,
                end: ListEnd::empty(),
            }),
        }
    }

    /// The sequence as a string, embedded with this encoding indicator, as `<<1, 2>>_0`: its spaces stand inside. Fails where memory runs
    /// out; the sequence is dropped then.
    pub fn embedded(
        self,
        alloc: Global,
        indicator: Option<Indicator>,
    ) -> Result<Item<'a>, AllocError>
        ensures { IfOk result (λ t. item_tree t ≡ embedded_tree (sequence_tree self.entry) indicator) }
    {
        let piece = embedded_piece(alloc, self, indicator)?;
        string_of(alloc, piece)
    }
}

fn embedded_piece<'a>(
    alloc: Global,
    sequence: Sequence<'a>,
    indicator: Option<Indicator>,
) -> Result<Piece<'a>, AllocError>
    ensures { IfOk result (λ t. view_piece texts t ≡ EmbeddedTree (sequence_tree sequence.entry) indicator) }
{
    let sequence = Box::new(alloc, sequence)?;
    Ok(Piece::Embedded(indicator, sequence))
}

/// The string of one piece.
fn string_of<'a>(alloc: Global, piece: Piece<'a>) -> Result<Item<'a>, AllocError>
    ensures { IfOk result (λ t. item_tree t ≡ StringTree (LastPieceTree (view_piece texts piece.entry))) }
{
    let string = CborString {
        row: Vec::new(alloc),
        last: piece,
    };
    Item::string(alloc, string)
}

impl Item<'_> {
    /// The encoding indicator of a string that is one literal, as `_0` of `h'01'_0` and no indicator of `"a"`: none for any other item.
    #[tactic(auto, using(crate::proofs::lemmas::tree::Views::strings_are))]
    pub fn get_literal_indicator(&self) -> Option<Option<Indicator>>
        ensures { result ≡ literal_indicator (item_tree self.now) }
    {
        match &self.inner {
            InnerItem::Literal(indicator, _) => Some(*indicator),
            InnerItem::String(string) => lone_indicator(string),
            InnerItem::Number(..)
            | InnerItem::NonFinite(..)
            | InnerItem::Named(_)
            | InnerItem::Enclosed(..)
            | InnerItem::Array(_)
            | InnerItem::Map(_)
            | InnerItem::Stream(_) => None,
        }
    }
}

fn lone_indicator(string: &CborString<'_>) -> Option<Option<Indicator>>
    ensures { result ≡ lone_indicator (view_string texts string.now) }
{
    if has_several_pieces(string) {
        return None;
    }
    piece_indicator(&string.last)
}

fn piece_indicator(piece: &Piece<'_>) -> Option<Option<Indicator>>
    ensures { result ≡ piece_indicator (view_piece texts piece.now) }
{
    match piece {
        Piece::Literal(indicator, _) => Some(*indicator),
        Piece::Ellipsis(_) | Piece::Embedded(..) => None,
    }
}
