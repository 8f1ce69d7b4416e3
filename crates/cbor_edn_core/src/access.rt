//! Parts of items.
ghost use Rattle.std.specs.Prelude.{◌≡◌, ℤ, FitsSigned, IfOk, IfErr, Some, None, map, option_map};
ghost use Rattle.std.specs.Int.{w128};
ghost use Rattle.cbor_edn_parts.specs.Leaves.{number_bytes};
ghost use Rattle.cbor_edn_parts.specs.number.Number.{IsInteger};
ghost use Rattle.cbor_edn_model.specs.access.Accessed.{tag_number, tag_head, tag_content, named_keyword, number_and_indicator, inner_item, number_text, IsIntegerItem, IsIntegerLiteral, array_items, map_items, element, key_and_value, entries_inside};
ghost use Rattle.cbor_edn_model.specs.tree.TreeLeaves.{texts};
ghost use Rattle.cbor_edn_core.specs.access.Mismatch.{IsIntegerMismatch};
ghost use Rattle.cbor_edn_model.specs.access.Paths.{items_in};
ghost use Rattle.cbor_edn_core.specs.access.Iterated.{items_left, pairs_left, both_trees};
ghost use Rattle.cbor_edn_core.specs.access.IteratedMut.{items_to_lend, pairs_to_lend, sequence_items_to_lend};
ghost use Rattle.cbor_edn_core.specs.tree.View.{item_tree, sequence_tree, standalone_tree, view_list, view_pair_list};

use crate::tree::{
    Indicator, InnerItem, Item, ItemList, OpenerKind, PairList, Sequence, StandaloneItem,
};
use cbor_edn_model::text::keyword::NamedSimple;
use cbor_edn_parts::number::Number;
pub use iterators::{ArrayItems, MapItems};
pub use lending::{ArrayItemsMut, MapItemsMut, SequenceItemsMut};
use thiserror::Error;

pub(crate) mod application;
mod bytes;
mod iterators;
mod lend;
mod lending;
mod path;

/// What an item was expected to be, and is not. The item is unchanged then.
#[derive(Clone, Copy, Debug, PartialEq, Eq, Error)]
pub enum TypeMismatch {
    /// A string that is one literal with a prefix, as `dt'..'`.
    #[error("Expected application-oriented literal")]
    ApplicationLiteral,
    /// One literal with a prefix, where the item is a string of several pieces, as `h'00' + h'01'`.
    #[error("Expected single application-oriented literal")]
    SingleApplicationLiteral,
    /// A string each piece of which means bytes.
    #[error("Expected byte literal")]
    Bytes,
    /// A tag.
    #[error("Expected tagged item")]
    TaggedItem,
    /// An integer literal.
    #[error("Expected integer")]
    Integer,
    /// An integer in the range of `i128`: the item is an integer literal beyond it.
    #[error("Expected integer in i128 range")]
    IntegerInRange,
    /// An array.
    #[error("Expected array")]
    Array,
    /// A map.
    #[error("Expected map")]
    Map,
}

impl<'a> Item<'a> {
    /// The number of a tag, as 1 of `1(2)`. Fails with `TaggedItem` where the item is none.
    pub fn get_tag(&self) -> Result<u64, TypeMismatch>
        ensures found { IfOk result (λ n. tag_number (item_tree self.now) ≡ Some n) }
        ensures refused { IfErr result (λ e. (e ≡ TypeMismatch.TaggedItem) × (tag_number (item_tree self.now) ≡ None)) }
    {
        match tag_of(self) {
            Some((number, _)) => Ok(number),
            None => Err(TypeMismatch::TaggedItem),
        }
    }

    /// The number of a tag and its encoding indicator, as 1 and `_0` of `1_0(2)`, or none where the item is no tag.
    #[tactic(auto, using(crate::proofs::lemmas::tree::Views::strings_are))]
    pub fn get_tag_head(&self) -> Option<(u64, Option<Indicator>)>
        ensures { result ≡ tag_head (item_tree self.now) }
    {
        match &self.inner {
            InnerItem::Enclosed(opener, _) => match opener.kind {
                OpenerKind::Tag(indicator, number) => Some((number, indicator)),
                OpenerKind::Simple => None,
            },
            InnerItem::Number(..)
            | InnerItem::NonFinite(..)
            | InnerItem::Named(_)
            | InnerItem::Array(_)
            | InnerItem::Map(_)
            | InnerItem::Literal(..)
            | InnerItem::String(_)
            | InnerItem::Stream(_) => None,
        }
    }

    /// What stands between the parentheses of a tag, the spaces there included. Fails with `TaggedItem` where the item is none.
    pub fn get_tagged(&self) -> Result<&StandaloneItem<'a>, TypeMismatch>
        ensures found { IfOk result (λ w. tag_content (item_tree self.now) ≡ Some (standalone_tree w.now)) }
        ensures refused { IfErr result (λ e. (e ≡ TypeMismatch.TaggedItem) × (tag_content (item_tree self.now) ≡ None)) }
    {
        match tag_of(self) {
            Some((_, content)) => Ok(content),
            None => Err(TypeMismatch::TaggedItem),
        }
    }

    /// The keyword of a simple value that has a name, as `true`, or none where the item is anything else, `simple(21)` too.
    #[tactic(auto, using(crate::proofs::lemmas::tree::Views::strings_are))]
    pub fn get_named(&self) -> Option<NamedSimple>
        ensures { result ≡ named_keyword (item_tree self.now) }
    {
        match &self.inner {
            InnerItem::Named(name) => Some(*name),
            InnerItem::Number(..)
            | InnerItem::NonFinite(..)
            | InnerItem::Enclosed(..)
            | InnerItem::Array(_)
            | InnerItem::Map(_)
            | InnerItem::Literal(..)
            | InnerItem::String(_)
            | InnerItem::Stream(_) => None,
        }
    }

    /// The text of a number and its encoding indicator, as `0x1f` and `_1` of `0x1f_1`, or none where the item is no number. The
    /// keywords `Infinity`, `-Infinity` and `NaN` are none.
    #[tactic(auto, using(crate::proofs::lemmas::tree::Views::strings_are))]
    pub fn get_number(&self) -> Option<(&str, Option<Indicator>)>
        ensures { option_map (λ p. (p.0.now, p.1)) result ≡ number_and_indicator (item_tree self.now) }
    {
        match &self.inner {
            InnerItem::Number(indicator, number) => Some((number.as_str(), *indicator)),
            InnerItem::NonFinite(..)
            | InnerItem::Named(_)
            | InnerItem::Enclosed(..)
            | InnerItem::Array(_)
            | InnerItem::Map(_)
            | InnerItem::Literal(..)
            | InnerItem::String(_)
            | InnerItem::Stream(_) => None,
        }
    }

    /// The integer of an integer literal, whatever its encoding indicator. Fails with `Integer` where the item is none, and with
    /// `IntegerInRange` where its integer is not in the range of `i128`.
    pub fn get_integer(&self) -> Result<i128, TypeMismatch>
        ensures found { IfOk result (λ z. IsIntegerItem (item_tree self.now) z) }
        ensures refused { IfErr result (λ _. (z : ℤ) → FitsSigned w128 z → IsIntegerItem (item_tree self.now) z → ⊥) }
        ensures words { IfErr result (IsIntegerMismatch (IsIntegerLiteral (item_tree self.now))) }
    {
        match number_of(self) {
            Some(number) => match number.to_i128() {
                Some(integer) => Ok(integer),
                None => Err(mismatch_of(number)),
            },
            None => Err(TypeMismatch::Integer),
        }
    }

    /// The items of an array, in text order. It takes no memory, and fails with `Array` where the item is none.
    pub fn get_array_items(&self) -> Result<ArrayItems<'_, 'a>, TypeMismatch>
        ensures found { IfOk result (λ it. array_items (item_tree self.now) ≡ Some (map item_tree (items_left it))) }
        ensures refused { IfErr result (λ e. (e ≡ TypeMismatch.Array) × (array_items (item_tree self.now) ≡ None)) }
    {
        match list_of(self) {
            Some(ItemList::Present { items, .. }) => Ok(ArrayItems::new(items)),
            Some(ItemList::Absent { .. }) => Ok(ArrayItems::empty()),
            None => Err(TypeMismatch::Array),
        }
    }

    /// The items of an array, lent in text order, each to be changed or replaced. It takes no memory, and fails with `Array` where the
    /// item is none.
    pub fn get_array_items_mut(&mut self) -> Result<ArrayItemsMut<'_, 'a>, TypeMismatch>
        ensures found { IfOk result (λ it. array_items (item_tree self.old) ≡ Some (map item_tree (items_to_lend it))) }
        ensures refused { IfErr result (λ e. (e ≡ TypeMismatch.Array) × (array_items (item_tree self.old) ≡ None)) }
    {
        match list_to_lend(self) {
            Some(ItemList::Present { items, .. }) => Ok(ArrayItemsMut::new(items)),
            Some(ItemList::Absent { .. }) => Ok(ArrayItemsMut::empty()),
            None => Err(TypeMismatch::Array),
        }
    }

    /// The keys of a map with their values, in text order, also keys that come twice. It takes no memory, and fails with `Map` where the
    /// item is none.
    pub fn get_map_items(&self) -> Result<MapItems<'_, 'a>, TypeMismatch>
        ensures found { IfOk result (λ it. map_items (item_tree self.now) ≡ Some (map both_trees (pairs_left it))) }
        ensures refused { IfErr result (λ e. (e ≡ TypeMismatch.Map) × (map_items (item_tree self.now) ≡ None)) }
    {
        match pair_list_of(self) {
            Some(PairList::Present { pairs, .. }) => Ok(MapItems::new(pairs)),
            Some(PairList::Absent { .. }) => Ok(MapItems::empty()),
            None => Err(TypeMismatch::Map),
        }
    }

    /// The keys of a map with their values, lent in text order, each to be changed or replaced. It takes no memory, and fails with `Map`
    /// where the item is none.
    pub fn get_map_items_mut(&mut self) -> Result<MapItemsMut<'_, 'a>, TypeMismatch>
        ensures found { IfOk result (λ it. map_items (item_tree self.old) ≡ Some (map both_trees (pairs_to_lend it))) }
        ensures refused { IfErr result (λ e. (e ≡ TypeMismatch.Map) × (map_items (item_tree self.old) ≡ None)) }
    {
        match pair_list_to_lend(self) {
            Some(PairList::Present { pairs, .. }) => Ok(MapItemsMut::new(pairs)),
            Some(PairList::Absent { .. }) => Ok(MapItemsMut::empty()),
            None => Err(TypeMismatch::Map),
        }
    }
}

impl<'a> StandaloneItem<'a> {
    /// The item between the spaces, without them.
    pub fn item(&self) -> &Item<'a>
        ensures { item_tree result.now ≡ inner_item (standalone_tree self.now) }
    {
        &self.item
    }
}

impl<'a> Sequence<'a> {
    /// The items of a sequence, lent in text order, each to be changed or replaced. It takes no memory.
    pub fn get_items_mut(&mut self) -> SequenceItemsMut<'_, 'a>
        ensures { map item_tree (sequence_items_to_lend result) ≡ items_in (sequence_tree self.old) }
    {
        SequenceItemsMut::new(self)
    }
}

/// The number of a tag, and what stands between its parentheses.
#[tactic(auto, using(crate::proofs::lemmas::tree::Views::strings_are))]
fn tag_of<'t, 'a>(item: &'t Item<'a>) -> Option<(u64, &'t StandaloneItem<'a>)>
    ensures number { option_map (λ p. p.0) result ≡ tag_number (item_tree item.now) }
    ensures content { option_map (λ p. standalone_tree p.1.now) result ≡ tag_content (item_tree item.now) }
{
    match &item.inner {
        InnerItem::Enclosed(opener, content) => match opener.kind {
            OpenerKind::Tag(_, number) => Some((number, content)),
            OpenerKind::Simple => None,
        },
        InnerItem::Number(..)
        | InnerItem::NonFinite(..)
        | InnerItem::Named(_)
        | InnerItem::Array(_)
        | InnerItem::Map(_)
        | InnerItem::Literal(..)
        | InnerItem::String(_)
        | InnerItem::Stream(_) => None,
    }
}

#[tactic(auto, using(crate::proofs::lemmas::tree::Views::strings_are))]
fn number_of<'t, 'a>(item: &'t Item<'a>) -> Option<&'t Number<'a>>
    ensures { option_map (λ n. number_bytes n.now) result ≡ number_text (item_tree item.now) }
{
    match &item.inner {
        InnerItem::Number(_, number) => Some(number),
        InnerItem::NonFinite(..)
        | InnerItem::Named(_)
        | InnerItem::Enclosed(..)
        | InnerItem::Array(_)
        | InnerItem::Map(_)
        | InnerItem::Literal(..)
        | InnerItem::String(_)
        | InnerItem::Stream(_) => None,
    }
}

#[tactic(auto, using(crate::proofs::lemmas::tree::Views::strings_are))]
fn list_of<'t, 'a>(item: &'t Item<'a>) -> Option<&'t ItemList<'a>>
    ensures { option_map (λ l. map element (entries_inside (view_list texts l.now))) result ≡ array_items (item_tree item.now) }
{
    match &item.inner {
        InnerItem::Array(list) => Some(list),
        InnerItem::Number(..)
        | InnerItem::NonFinite(..)
        | InnerItem::Named(_)
        | InnerItem::Enclosed(..)
        | InnerItem::Map(_)
        | InnerItem::Literal(..)
        | InnerItem::String(_)
        | InnerItem::Stream(_) => None,
    }
}

#[tactic(auto, using(crate::proofs::lemmas::tree::Views::strings_are))]
fn pair_list_of<'t, 'a>(item: &'t Item<'a>) -> Option<&'t PairList<'a>>
    ensures { option_map (λ l. map key_and_value (entries_inside (view_pair_list texts l.now))) result ≡ map_items (item_tree item.now) }
{
    match &item.inner {
        InnerItem::Map(list) => Some(list),
        InnerItem::Number(..)
        | InnerItem::NonFinite(..)
        | InnerItem::Named(_)
        | InnerItem::Enclosed(..)
        | InnerItem::Array(_)
        | InnerItem::Literal(..)
        | InnerItem::String(_)
        | InnerItem::Stream(_) => None,
    }
}

#[tactic(auto, using(crate::proofs::lemmas::tree::Views::strings_are))]
fn list_to_lend<'t, 'a>(item: &'t mut Item<'a>) -> Option<&'t mut ItemList<'a>>
    ensures { option_map (λ l. map element (entries_inside (view_list texts l.now))) result ≡ array_items (item_tree item.old) }
{
    match &mut item.inner {
        InnerItem::Array(list) => Some(list),
        InnerItem::Number(..)
        | InnerItem::NonFinite(..)
        | InnerItem::Named(_)
        | InnerItem::Enclosed(..)
        | InnerItem::Map(_)
        | InnerItem::Literal(..)
        | InnerItem::String(_)
        | InnerItem::Stream(_) => None,
    }
}

#[tactic(auto, using(crate::proofs::lemmas::tree::Views::strings_are))]
fn pair_list_to_lend<'t, 'a>(item: &'t mut Item<'a>) -> Option<&'t mut PairList<'a>>
    ensures { option_map (λ l. map key_and_value (entries_inside (view_pair_list texts l.now))) result ≡ map_items (item_tree item.old) }
{
    match &mut item.inner {
        InnerItem::Map(list) => Some(list),
        InnerItem::Number(..)
        | InnerItem::NonFinite(..)
        | InnerItem::Named(_)
        | InnerItem::Enclosed(..)
        | InnerItem::Array(_)
        | InnerItem::Literal(..)
        | InnerItem::String(_)
        | InnerItem::Stream(_) => None,
    }
}

/// What is told of a number that is no integer of `i128`.
fn mismatch_of(number: &Number<'_>) -> TypeMismatch
    ensures { IsIntegerMismatch (IsInteger (number_bytes number.now)) result }
{
    if number.is_integer() {
        TypeMismatch::IntegerInRange
    } else {
        TypeMismatch::Integer
    }
}
