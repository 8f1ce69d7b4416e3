//! Items and sequences that are made from values: no space, `,` between two entries, and no encoding indicator.
ghost use Rattle.std.specs.Prelude.{◌≡◌, ◌∷◌, [], map, option_map, IfOk, IfErr, IfSome, OnOk, None};
ghost use Rattle.std.specs.Fmt.{signed_decimal};
ghost use Rattle.cbor_edn_parts.specs.string.Contents.{hex_literal, text_literal};
ghost use Rattle.cbor_edn_parts.specs.Leaves.{separator_bytes};
ghost use Rattle.cbor_edn_parts.specs.string.Literal.{IsPrefix};
ghost use Rattle.cbor_edn_parts.specs.number.Number.{IsNumber};
ghost use Rattle.cbor_edn_parts.specs.base.Refusals.{IfTold};
ghost use Rattle.cbor_edn_parts.specs.Written.{hexadecimal_text, application_literal};
ghost use Rattle.cbor_edn_model.specs.tree.Constructed.{literal_tree, tagged_tree, comma_row, comma_inside, comma_sequence};
ghost use Rattle.cbor_edn_core.specs.tree.Constructed.{element_tree, pair_tree, Ends, OfAll};
ghost use Rattle.cbor_edn_model.specs.cbor.Decoded.{alone};
ghost use Rattle.cbor_edn_model.specs.tree.Items.{Array, Map};
ghost use Rattle.cbor_edn_model.specs.tree.Trees.{NumberTree, ListTree};
ghost use Rattle.cbor_edn_core.specs.tree.View.{view_items, view_pair, view_pairs, item_tree, standalone_tree, sequence_tree};
ghost use Rattle.cbor_edn_model.specs.tree.TreeLeaves.{texts};

use crate::tree::{
    InnerItem, Item, ItemList, ItemOf, Items, Opener, Pair, PairList, Pairs, Sequence, SequenceOf,
    StandaloneItem,
};
use cbor_edn_model::text::keyword::NamedSimple;
use cbor_edn_model::text::list_head::ListHead;
use cbor_edn_parts::base::error::{Fault, InconsistentEdn};
use cbor_edn_parts::number::Number;
use cbor_edn_parts::space::{ListEnd, Separator, Space};
use cbor_edn_parts::string::Literal;
use std::alloc::{AllocError, Global};

impl<'a> Item<'a> {
    /// An integer in decimal, as `-5`. Fails where memory runs out.
    pub fn new_integer_decimal(alloc: Global, integer: i128) -> Result<Item<'a>, AllocError>
        ensures { IfOk result (λ t. item_tree t ≡ NumberTree (signed_decimal integer) None) }
    {
        let number = Number::signed(alloc, integer)?;
        Ok(ItemOf {
            inner: InnerItem::Number(None, number),
        })
    }

    /// An integer behind `0x`, in lower case without leading zeros, as `0x1f`. Fails where memory runs out.
    pub fn new_integer_hex(alloc: Global, integer: u64) -> Result<Item<'a>, AllocError>
        ensures { IfOk result (λ t. item_tree t ≡ NumberTree (hexadecimal_text integer) None) }
    {
        let number = Number::hexadecimal(alloc, integer)?;
        Ok(ItemOf {
            inner: InnerItem::Number(None, number),
        })
    }

    /// A number as it is written, as `1.5` or `0b101`, or none where the text is no number of the grammar. Fails where memory runs
    /// out.
    pub fn new_number(alloc: Global, text: &str) -> Result<Option<Item<'a>>, AllocError>
        ensures some { IfOk result (λ o. IfSome o (λ t. item_tree t ≡ NumberTree text.now None)) }
        ensures none { IfOk result (λ o. o ≡ None → IsNumber text.now → ⊥) }
    {
        match Number::written(alloc, text)? {
            Some(number) => Ok(Some(ItemOf {
                inner: InnerItem::Number(None, number),
            })),
            None => Ok(None),
        }
    }

    /// A byte string as `h'..'` with digits in lower case. Fails where memory runs out.
    pub fn new_bytes_hex(alloc: Global, bytes: &[u8]) -> Result<Item<'a>, AllocError>
        ensures { IfOk result (λ t. item_tree t ≡ literal_tree (hex_literal bytes.now)) }
    {
        let literal = Literal::hex(alloc, bytes)?;
        Ok(Item::literal(None, literal))
    }

    /// A text string between double quotes: line feeds and what is from U+0020 upward as they are, but for `"`, `\` and `'`.
    /// Fails where memory runs out.
    pub fn new_text(alloc: Global, text: &str) -> Result<Item<'a>, AllocError>
        ensures { IfOk result (λ t. item_tree t ≡ literal_tree (text_literal text.now)) }
    {
        let literal = Literal::text(alloc, text)?;
        Ok(Item::literal(None, literal))
    }

    /// A literal of a prefix and a text between single quotes, as `b64'Yg'`. Fails with `InvalidIdentifier` where the prefix is
    /// none of the grammar, and where memory runs out.
    pub fn new_application_literal(
        alloc: Global,
        prefix: &str,
        text: &str,
    ) -> Result<Item<'a>, Fault<InconsistentEdn>>
        ensures item { IfOk result (λ t. item_tree t ≡ literal_tree (application_literal prefix.now text.now)) }
        ensures prefix { IfOk result (λ _. IsPrefix prefix.now) }
        ensures refused { IfTold result (λ _. IsPrefix prefix.now → ⊥) }
    {
        let literal = Literal::application(alloc, prefix, text)?;
        Ok(Item::literal(None, literal))
    }

    /// Puts the item into a tag of this number, in its place, as [`Item::tagged`] does. Fails where memory runs out: the item is as
    /// before then.
    pub fn put_into_tag(&mut self, alloc: Global, number: u64) -> Result<(), AllocError>
        ensures tagged { OnOk result (item_tree self.new ≡ tagged_tree number (alone (item_tree self.old))) }
        ensures out_of_memory { IfErr result (λ _. item_tree self.new ≡ item_tree self.old) }
    {
        let content: StandaloneItem<'a> = StandaloneItem::from(placeholder());
        let mut content = Box::new(alloc, content)?;
        content.item = std::mem::replace(self, placeholder());
        self.inner = InnerItem::Enclosed(Opener::tag(number, None), content);
        Ok(())
    }

    /// The item in a tag of this number, without an encoding indicator and without space, as `1(2)`. Fails where memory runs
    /// out; the item is dropped then.
    pub fn tagged(self, alloc: Global, number: u64) -> Result<Item<'a>, AllocError>
        ensures { IfOk result (λ t. item_tree t ≡ tagged_tree number (alone (item_tree self.entry))) }
    {
        StandaloneItem::from(self).tagged(alloc, number)
    }
}

impl<'a> StandaloneItem<'a> {
    /// The item in a tag of this number, without an encoding indicator: its spaces stand inside the parentheses, as in
    /// `1( 2 )`. Fails where memory runs out; the item is dropped then.
    pub fn tagged(self, alloc: Global, number: u64) -> Result<Item<'a>, AllocError>
        ensures { IfOk result (λ t. item_tree t ≡ tagged_tree number (standalone_tree self.entry)) }
    {
        Item::enclosed(alloc, Opener::tag(number, None), self)
    }
}

impl<'a> Item<'a> {
    /// An array of these items, with `,` between two and no space, as `[1,2]`. Fails where memory runs out; the items are
    /// dropped then.
    pub fn new_array<U: IntoIterator<Item = Item<'a>>>(
        alloc: Global,
        items: U,
    ) -> Result<Item<'a>, AllocError>
        requires { Ends U.into_iter_gives U.IntoIter.can_next U.IntoIter.remaining items }
        ensures { IfOk result (λ t. OfAll U.into_iter_gives U.IntoIter.next_gives items (λ xs. item_tree t ≡ ListTree Array (comma_inside (map element_tree xs)))) }
    {
        let items = Vec::from_iter(alloc, items)?;
        Item::array_of(alloc, items)
    }

    fn array_of(alloc: Global, items: Vec<Item<'a>>) -> Result<Item<'a>, AllocError>
        ensures { IfOk result (λ t. item_tree t ≡ ListTree Array (comma_inside (map element_tree items.entry.items))) }
    {
        let list = match comma_items(alloc, items)? {
            None => ItemList::Absent {
                indicator: None,
                space: Space::empty(),
            },
            Some(items) => ItemList::Present {
                head: ListHead::none(),
                space: Space::empty(),
                items,
            },
        };
        Item::array(alloc, list)
    }

    /// A map of these keys, each with its value, with `,` between two entries and no space, as `{1:2,3:4}`. Fails where memory
    /// runs out; the entries are dropped then.
    pub fn new_map<U: IntoIterator<Item = (Item<'a>, Item<'a>)>>(
        alloc: Global,
        entries: U,
    ) -> Result<Item<'a>, AllocError>
        requires { Ends U.into_iter_gives U.IntoIter.can_next U.IntoIter.remaining entries }
        ensures { IfOk result (λ t. OfAll U.into_iter_gives U.IntoIter.next_gives entries (λ xs. item_tree t ≡ ListTree Map (comma_inside (map pair_tree xs)))) }
    {
        let entries = Vec::from_iter(alloc, entries)?;
        Item::map_of(alloc, entries)
    }

    fn map_of(alloc: Global, entries: Vec<(Item<'a>, Item<'a>)>) -> Result<Item<'a>, AllocError>
        ensures { IfOk result (λ t. item_tree t ≡ ListTree Map (comma_inside (map pair_tree entries.entry.items))) }
    {
        let list = match comma_pairs(alloc, entries)? {
            None => PairList::Absent {
                indicator: None,
                space: Space::empty(),
            },
            Some(pairs) => PairList::Present {
                head: ListHead::none(),
                space: Space::empty(),
                pairs,
            },
        };
        Item::map(alloc, list)
    }
}

impl<'a> Sequence<'a> {
    /// A sequence of these items, with `,` between two and no space, as `1,2`. Fails where memory runs out; the items are
    /// dropped then.
    pub fn new<U: IntoIterator<Item = Item<'a>>>(
        alloc: Global,
        items: U,
    ) -> Result<Sequence<'a>, AllocError>
        requires { Ends U.into_iter_gives U.IntoIter.can_next U.IntoIter.remaining items }
        ensures { IfOk result (λ t. OfAll U.into_iter_gives U.IntoIter.next_gives items (λ xs. sequence_tree t ≡ comma_sequence (map element_tree xs))) }
    {
        let items = Vec::from_iter(alloc, items)?;
        Sequence::of(alloc, items)
    }

    #[tactic(auto, using(crate::proofs::lemmas::tree::Views::view_sequence_made))]
    fn of(alloc: Global, items: Vec<Item<'a>>) -> Result<Sequence<'a>, AllocError>
        ensures { IfOk result (λ t. sequence_tree t ≡ comma_sequence (map element_tree items.entry.items)) }
    {
        let items = comma_items(alloc, items)?;
        Ok(SequenceOf {
            before: Space::empty(),
            items,
        })
    }
}

/// An item that takes no memory.
fn placeholder<'a>() -> Item<'a> {
    ItemOf {
        inner: InnerItem::Named(NamedSimple::Null),
    }
}

/// The items with commas between them, or none where there are none. Fails where memory runs out; the items are dropped then.
fn comma_items<'a>(alloc: Global, items: Vec<Item<'a>>) -> Result<Option<Items<'a>>, AllocError>
    ensures { IfOk result (λ o. option_map (view_items texts) o ≡ comma_row (map element_tree items.entry.items)) }
{
    let mut items = items;
    let Some(last) = items.pop() else {
        return Ok(None);
    };
    let row = with_commas(alloc, items)?;
    Ok(Some(Items {
        row,
        last,
        end: ListEnd::empty(),
    }))
}

/// The pairs with commas between them, or none where there are none. Fails where memory runs out; the entries are dropped then.
fn comma_pairs<'a>(
    alloc: Global,
    entries: Vec<(Item<'a>, Item<'a>)>,
) -> Result<Option<Pairs<'a>>, AllocError>
    ensures { IfOk result (λ o. option_map (view_pairs texts) o ≡ comma_row (map pair_tree entries.entry.items)) }
{
    let mut pairs = bare_pairs(alloc, entries)?;
    let Some(last) = pairs.pop() else {
        return Ok(None);
    };
    let row = with_commas(alloc, pairs)?;
    Ok(Some(Pairs {
        row,
        last,
        end: ListEnd::empty(),
    }))
}

/// The entries without space round their colons. Fails where memory runs out; the entries are dropped then.
fn bare_pairs<'a>(
    alloc: Global,
    entries: Vec<(Item<'a>, Item<'a>)>,
) -> Result<Vec<Pair<'a>>, AllocError>
    ensures { IfOk result (λ pairs. map (view_pair texts) pairs.items ≡ map pair_tree entries.entry.items) }
{
    let mut pairs = Vec::new(alloc);
    for entry in entries {
        let (key, value) = entry;
        pairs.push(Pair {
            key,
            before_colon: Space::empty(),
            after_colon: Space::empty(),
            value,
        })?;
    }
    Ok(pairs)
}

/// The entries, each with a comma behind it. Fails where memory runs out; the entries are dropped then.
fn with_commas<'a, T: Drop>(
    alloc: Global,
    entries: Vec<T>,
) -> Result<Vec<(T, Separator<'a>)>, AllocError>
    ensures entries { IfOk result (λ row. map (λ p. p.0) row.items ≡ entries.items) }
    ensures commas { IfOk result (λ row. map (λ p. separator_bytes p.1) row.items ≡ map (λ _. 44 ∷ []) row.items) }
{
    let mut row = Vec::new(alloc);
    for entry in entries {
        row.push((entry, Separator::comma()))?;
    }
    Ok(row)
}
