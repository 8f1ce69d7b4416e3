//! Items of other trees.
ghost use Rattle.std.specs.Prelude.{◌≡◌, IfOk, []};
ghost use Rattle.cbor_edn_core.specs.tree.Borrowed.{BorrowsItem, BorrowsList, BorrowsPairList, BorrowsStandalone, BorrowsStream, BorrowsString};
ghost use Rattle.cbor_edn_model.specs.tree.Items.{Array, Map};
ghost use Rattle.cbor_edn_model.specs.tree.Trees.{EnclosedTree, ListTree, StringTree, LastPieceTree, LiteralTree, StandaloneTree};
ghost use Rattle.cbor_edn_parts.specs.Leaves.{BorrowsLiteral, literal_bytes};
ghost use Rattle.cbor_edn_core.specs.tree.View.{view_list, view_pair_list, view_string, view_stream, item_tree, standalone_tree};
ghost use Rattle.cbor_edn_model.specs.tree.TreeLeaves.{texts};

use crate::tree::{
    CborString, Indicator, InnerItem, Item, ItemList, ItemOf, Opener, PairList, Piece,
    StandaloneItem, StandaloneItemOf, Stream,
};
use cbor_edn_parts::space::Space;
use cbor_edn_parts::string::Literal;
use std::alloc::{AllocError, Global};

// Items whose parts stand behind a pointer, and strings that are one literal. What answers a `Result` fails where memory runs out.
impl<'a> Item<'a> {
    pub(crate) fn enclosed(
        alloc: Global,
        opener: Opener,
        content: StandaloneItem<'a>,
    ) -> Result<Item<'a>, AllocError>
        ensures view { IfOk result (λ t. item_tree t ≡ EnclosedTree opener.kind (standalone_tree content.entry)) }
        ensures borrowed { BorrowsStandalone content.entry → IfOk result BorrowsItem }
    {
        let content = Box::new(alloc, content)?;
        Ok(ItemOf {
            inner: InnerItem::Enclosed(opener, content),
        })
    }

    pub(crate) fn array(alloc: Global, list: ItemList<'a>) -> Result<Item<'a>, AllocError>
        ensures view { IfOk result (λ t. item_tree t ≡ ListTree Array (view_list texts list.entry)) }
        ensures borrowed { BorrowsList list.entry → IfOk result BorrowsItem }
    {
        let list = Box::new(alloc, list)?;
        Ok(ItemOf {
            inner: InnerItem::Array(list),
        })
    }

    pub(crate) fn map(alloc: Global, list: PairList<'a>) -> Result<Item<'a>, AllocError>
        ensures view { IfOk result (λ t. item_tree t ≡ ListTree Map (view_pair_list texts list.entry)) }
        ensures borrowed { BorrowsPairList list.entry → IfOk result BorrowsItem }
    {
        let list = Box::new(alloc, list)?;
        Ok(ItemOf {
            inner: InnerItem::Map(list),
        })
    }

    /// A string of any pieces.
    #[inline(always)]
    pub(crate) fn string(alloc: Global, string: CborString<'a>) -> Result<Item<'a>, AllocError>
        ensures view { IfOk result (λ t. item_tree t ≡ StringTree (view_string texts string.entry)) }
        ensures borrowed { BorrowsString string.entry → IfOk result BorrowsItem }
    {
        let CborString { row, last } = string;
        match last {
            Piece::Literal(indicator, literal) if row.is_empty() => {
                Ok(Item::literal(indicator, literal))
            }
            last => Item::joined(alloc, CborString { row, last }),
        }
    }

    /// A string that is one literal.
    pub(crate) fn literal(indicator: Option<Indicator>, literal: Literal<'a>) -> Item<'a>
        ensures view { item_tree result ≡ StringTree (LastPieceTree (LiteralTree (literal_bytes literal.entry) indicator)) }
        ensures borrowed { BorrowsLiteral literal.entry → BorrowsItem result }
    {
        ItemOf {
            inner: InnerItem::Literal(indicator, literal),
        }
    }

    #[inline(never)]
    #[tactic(auto, using(crate::proofs::lemmas::tree::Views::view_string_is, crate::proofs::lemmas::text::Borrows::borrows_string_made))]
    fn joined(alloc: Global, string: CborString<'a>) -> Result<Item<'a>, AllocError>
        ensures view { IfOk result (λ t. item_tree t ≡ StringTree (view_string texts string.entry)) }
        ensures borrowed { BorrowsString string.entry → IfOk result BorrowsItem }
    {
        let string = Box::new(alloc, string)?;
        Ok(ItemOf {
            inner: InnerItem::String(string),
        })
    }

    pub(crate) fn stream(alloc: Global, stream: Stream<'a>) -> Result<Item<'a>, AllocError>
        ensures view { IfOk result (λ t. item_tree t ≡ view_stream texts stream.entry) }
        ensures borrowed { BorrowsStream stream.entry → IfOk result BorrowsItem }
    {
        let stream = Box::new(alloc, stream)?;
        Ok(ItemOf {
            inner: InnerItem::Stream(stream),
        })
    }
}

impl<'a> From<Item<'a>> for StandaloneItem<'a> {
    ghost from_gives = { λ item t. standalone_tree t ≡ StandaloneTree [] (item_tree item) [] };

    fn from(item: Item<'a>) -> StandaloneItem<'a> {
        StandaloneItemOf {
            before: Space::empty(),
            item,
            after: Space::empty(),
        }
    }
}
