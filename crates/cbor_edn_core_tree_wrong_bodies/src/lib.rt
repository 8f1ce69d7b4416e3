//! Public calls on the parts of trees, under their own clauses. Bodies that these clauses refuse stand in `wrong/`: a check here is that
//! of a small crate, and what a clause refuses here it refuses where the call is written.
#![tactic(auto)]

ghost use Rattle.std.specs.Prelude.{◌≡◌, [], ℕ, ℤ, FitsSigned, option_map, map, List, Some, None, IfOk, IfErr, IfSome, OnOk};
ghost use Rattle.std.specs.Int.{w128};
ghost use Rattle.std.specs.String.{string_bytes};
ghost use Rattle.cbor_edn_core.specs.visit.Callbacks.{IsCall, IsKeyCall, IfVisited, ending};
ghost use Rattle.cbor_edn_model.specs.tree.Constructed.{tagged_tree, comma_inside, comma_sequence};
ghost use Rattle.cbor_edn_core.specs.tree.Constructed.{element_tree, pair_tree, Ends, OfAll};
ghost use Rattle.cbor_edn_core.specs.access.Iterated.{items_left, pairs_left, both_trees};
ghost use Rattle.cbor_edn_core.specs.access.IteratedMut.{items_to_lend, pairs_to_lend, sequence_items_to_lend};
ghost use Rattle.cbor_edn_core.specs.access.Lent.{with_tag_content};
ghost use Rattle.cbor_edn_core.specs.access.Mismatch.{IsIntegerMismatch, literal_mismatch};
ghost use Rattle.cbor_edn_core.specs.visit.Sought.{IsTagCall, IsLiteralCall, LeavesNoneDeeper, MayVisitTags, MayVisitLiterals};
ghost use Rattle.cbor_edn_core.specs.tree.View.{item_tree, sequence_tree, standalone_tree};
ghost use Rattle.cbor_edn_model.specs.access.Accessed.{IsApplicationItem, IsIntegerItem, IsIntegerLiteral, array_items, item_bytes, map_items, string_tree, tag_content, tag_head, tag_number};
ghost use Rattle.cbor_edn_model.specs.layout.Commented.{commented};
ghost use Rattle.cbor_edn_model.specs.cbor.Decoded.{alone};
ghost use Rattle.cbor_edn_model.specs.tree.Items.{Array, Map};
ghost use Rattle.cbor_edn_model.specs.access.Paths.{at_sequence, items_in};
ghost use Rattle.cbor_edn_model.specs.visit.Tagged.{has_tag};
ghost use Rattle.cbor_edn_model.specs.visit.Seeking.{SoughtCall, VisitParts, IsTag, IsApplication};
ghost use Rattle.cbor_edn_model.specs.internal.Widths.{capped};
ghost use Rattle.cbor_edn_core.specs.tree.Embedding.{embedded_tree, literal_indicator};
ghost use Rattle.cbor_edn_model.specs.tree.Trees.{ElementTree, LastTree, ListTree, NumberTree, SequenceTree, text, tree_nesting};
ghost use Rattle.cbor_edn_model.specs.visit.Visits.{Call, KeyCall, Chain, VisitArray, VisitMap};
ghost use Rattle.cbor_edn_parts.specs.number.Number.{IsNumber};
ghost use Rattle.cbor_edn_parts.specs.base.Refusals.{IfTold, OnMemory};
ghost use Rattle.cbor_edn_core_tree_wrong_bodies.specs.Callable.{AlwaysCallable};

use cbor_edn_core::access::{
    ArrayItems, ArrayItemsMut, MapItems, MapItemsMut, SequenceItemsMut, TypeMismatch,
};
use cbor_edn_core::tree::{Indicator, Item, Sequence, StandaloneItem};
use cbor_edn_core::visit::MapValueHandler;
use cbor_edn_parts::base::error::{CallbackError, Fault};
use std::alloc::{AllocError, Global};

/// `Item::get_tag`.
pub fn get_tag(item: &Item<'_>) -> Result<u64, TypeMismatch>
    ensures found { IfOk result (λ n. tag_number (item_tree item.now) ≡ Some n) }
    ensures refused { IfErr result (λ e. (e ≡ TypeMismatch.TaggedItem) × (tag_number (item_tree item.now) ≡ None)) }
{
    item.get_tag()
}

/// `Item::get_tag_head`.
pub fn get_tag_head(item: &Item<'_>) -> Option<(u64, Option<Indicator>)>
    ensures { result ≡ tag_head (item_tree item.now) }
{
    item.get_tag_head()
}

/// `Item::get_tagged`.
pub fn get_tagged<'t, 'a>(item: &'t Item<'a>) -> Result<&'t StandaloneItem<'a>, TypeMismatch>
    ensures found { IfOk result (λ w. tag_content (item_tree item.now) ≡ Some (standalone_tree w.now)) }
    ensures refused { IfErr result (λ e. (e ≡ TypeMismatch.TaggedItem) × (tag_content (item_tree item.now) ≡ None)) }
{
    item.get_tagged()
}

/// `Item::get_tagged_mut`, for a comment in front of what it lends.
pub fn set_comment_in_tag(
    item: &mut Item<'_>,
    alloc: Global,
    comment: &str,
) -> Result<(), Fault<TypeMismatch>>
    ensures commented { OnOk result (Some (item_tree item.new) ≡ option_map (λ w. with_tag_content (commented comment.now w) (item_tree item.old)) (tag_content (item_tree item.old))) }
    ensures refused { IfTold result (λ e. (e ≡ TypeMismatch.TaggedItem) × (tag_content (item_tree item.old) ≡ None)) }
{
    match item.get_tagged_mut() {
        Ok(content) => Ok(content.set_comment(alloc, comment)?),
        Err(mismatch) => Err(Fault::Told(mismatch)),
    }
}

/// `Item::get_integer`.
pub fn get_integer(item: &Item<'_>) -> Result<i128, TypeMismatch>
    ensures found { IfOk result (λ z. IsIntegerItem (item_tree item.now) z) }
    ensures refused { IfErr result (λ _. (z : ℤ) → FitsSigned w128 z → IsIntegerItem (item_tree item.now) z → ⊥) }
    ensures words { IfErr result (IsIntegerMismatch (IsIntegerLiteral (item_tree item.now))) }
{
    item.get_integer()
}

/// `Item::get_array_items`.
pub fn get_array_items<'t, 'a>(item: &'t Item<'a>) -> Result<ArrayItems<'t, 'a>, TypeMismatch>
    ensures found { IfOk result (λ it. array_items (item_tree item.now) ≡ Some (map item_tree (items_left it))) }
    ensures refused { IfErr result (λ e. (e ≡ TypeMismatch.Array) × (array_items (item_tree item.now) ≡ None)) }
{
    item.get_array_items()
}

/// `Item::get_map_items`.
pub fn get_map_items<'t, 'a>(item: &'t Item<'a>) -> Result<MapItems<'t, 'a>, TypeMismatch>
    ensures found { IfOk result (λ it. map_items (item_tree item.now) ≡ Some (map both_trees (pairs_left it))) }
    ensures refused { IfErr result (λ e. (e ≡ TypeMismatch.Map) × (map_items (item_tree item.now) ≡ None)) }
{
    item.get_map_items()
}

/// `Item::get_array_items_mut`.
pub fn get_array_items_mut<'t, 'a>(
    item: &'t mut Item<'a>,
) -> Result<ArrayItemsMut<'t, 'a>, TypeMismatch>
    ensures found { IfOk result (λ it. array_items (item_tree item.old) ≡ Some (map item_tree (items_to_lend it))) }
    ensures refused { IfErr result (λ e. (e ≡ TypeMismatch.Array) × (array_items (item_tree item.old) ≡ None)) }
{
    item.get_array_items_mut()
}

/// `Item::get_map_items_mut`.
pub fn get_map_items_mut<'t, 'a>(
    item: &'t mut Item<'a>,
) -> Result<MapItemsMut<'t, 'a>, TypeMismatch>
    ensures found { IfOk result (λ it. map_items (item_tree item.old) ≡ Some (map both_trees (pairs_to_lend it))) }
    ensures refused { IfErr result (λ e. (e ≡ TypeMismatch.Map) × (map_items (item_tree item.old) ≡ None)) }
{
    item.get_map_items_mut()
}

/// `Sequence::get_items_mut`.
pub fn get_items_mut<'t, 'a>(sequence: &'t mut Sequence<'a>) -> SequenceItemsMut<'t, 'a>
    ensures { map item_tree (sequence_items_to_lend result) ≡ items_in (sequence_tree sequence.old) }
{
    sequence.get_items_mut()
}

/// `Item::get_bytes`.
pub fn get_bytes(item: &Item<'_>, alloc: Global) -> Result<Vec<u8>, Fault<TypeMismatch>>
    ensures found { IfOk result (λ b. item_bytes (item_tree item.now) ≡ Some b.items) }
    ensures refused { IfTold result (λ e. (e ≡ TypeMismatch.Bytes) × (item_bytes (item_tree item.now) ≡ None)) }
{
    item.get_bytes(alloc)
}

/// `Item::get_application_literal`.
pub fn get_application_literal(
    item: &Item<'_>,
    alloc: Global,
) -> Result<(String, String), Fault<TypeMismatch>>
    ensures found { IfOk result (λ p. IsApplicationItem (item_tree item.now) (string_bytes p.0) (string_bytes p.1)) }
    ensures refused { IfTold result (λ e. (e ≡ literal_mismatch (string_tree (item_tree item.now))) × ((p v : List ℕ) → IsApplicationItem (item_tree item.now) p v → ⊥)) }
    ensures out_of_memory { OnMemory result ((p v : List ℕ) × IsApplicationItem (item_tree item.now) p v) }
{
    item.get_application_literal(alloc)
}

/// The text of the item that `Sequence::at_mut` lends.
pub fn text_at(
    sequence: &mut Sequence<'_>,
    alloc: Global,
    path: &[usize],
) -> Result<Option<String>, AllocError>
    ensures { IfOk result (λ t. option_map string_bytes t ≡ option_map text (at_sequence path.now (sequence_tree sequence.old))) }
{
    match sequence.at_mut(path) {
        Some(item) => Ok(Some(item.serialize(alloc)?)),
        None => Ok(None),
    }
}

/// `StandaloneItem::tagged`.
pub fn tagged<'a>(
    item: StandaloneItem<'a>,
    alloc: Global,
    number: u64,
) -> Result<Item<'a>, AllocError>
    ensures { IfOk result (λ t. item_tree t ≡ tagged_tree number (standalone_tree item.entry)) }
{
    item.tagged(alloc, number)
}

/// `Item::put_into_tag`.
pub fn put_into_tag(item: &mut Item<'_>, alloc: Global, number: u64) -> Result<(), AllocError>
    ensures tagged { OnOk result (item_tree item.new ≡ tagged_tree number (alone (item_tree item.old))) }
    ensures out_of_memory { IfErr result (λ _. item_tree item.new ≡ item_tree item.old) }
{
    item.put_into_tag(alloc, number)
}

/// `Item::new_number`.
pub fn new_number<'a>(alloc: Global, text: &str) -> Result<Option<Item<'a>>, AllocError>
    ensures some { IfOk result (λ o. IfSome o (λ t. item_tree t ≡ NumberTree text.now None)) }
    ensures none { IfOk result (λ o. o ≡ None → IsNumber text.now → ⊥) }
{
    Item::new_number(alloc, text)
}

/// `Item::new_array`.
pub fn new_array<'a, U: IntoIterator<Item = Item<'a>>>(
    alloc: Global,
    items: U,
) -> Result<Item<'a>, AllocError>
    requires { Ends U.into_iter_gives U.IntoIter.can_next U.IntoIter.remaining items }
    ensures { IfOk result (λ t. OfAll U.into_iter_gives U.IntoIter.next_gives items (λ xs. item_tree t ≡ ListTree Array (comma_inside (map element_tree xs)))) }
{
    Item::new_array(alloc, items)
}

/// `Item::new_map`.
pub fn new_map<'a, U: IntoIterator<Item = (Item<'a>, Item<'a>)>>(
    alloc: Global,
    entries: U,
) -> Result<Item<'a>, AllocError>
    requires { Ends U.into_iter_gives U.IntoIter.can_next U.IntoIter.remaining entries }
    ensures { IfOk result (λ t. OfAll U.into_iter_gives U.IntoIter.next_gives entries (λ xs. item_tree t ≡ ListTree Map (comma_inside (map pair_tree xs)))) }
{
    Item::new_map(alloc, entries)
}

/// `Sequence::new`.
pub fn new_sequence<'a, U: IntoIterator<Item = Item<'a>>>(
    alloc: Global,
    items: U,
) -> Result<Sequence<'a>, AllocError>
    requires { Ends U.into_iter_gives U.IntoIter.can_next U.IntoIter.remaining items }
    ensures { IfOk result (λ t. OfAll U.into_iter_gives U.IntoIter.next_gives items (λ xs. sequence_tree t ≡ comma_sequence (map element_tree xs))) }
{
    Sequence::new(alloc, items)
}

/// `Item::visit_array_elements`, of a callback that may always be called, also by a body that calls it once too often.
#[tactic(auto, using(crate::proofs::Visited::may_visit))]
pub fn visit_array_elements<'a, F: FnMut(&mut Item<'a>) -> Result<Option<String>, CallbackError>>(
    item: &mut Item<'a>,
    alloc: Global,
    f: &mut F,
) -> Result<(), Fault<TypeMismatch>>
    requires callable { AlwaysCallable F.FnMut }
    ensures visited { IfVisited result (λ r. (cs : List Call) × Chain (IsCall item_tree F.FnMut) f.old cs f.new × VisitArray (item_tree item.old) cs (item_tree item.new) r) }
    ensures refused { IfTold result (λ e. (e ≡ TypeMismatch.Array) × (array_items (item_tree item.old) ≡ None) × (item.new ≡ item.old) × (f.new ≡ f.old)) }
{
    item.visit_array_elements(alloc, f)
}

/// `Item::visit_map_elements`, of such a callback.
#[tactic(auto, using(crate::proofs::Visited::may_visit))]
pub fn visit_map_elements<
    'a,
    H: MapValueHandler<'a>,
    F: FnMut(&mut Item<'a>) -> Result<(Option<String>, Option<H>), CallbackError>,
>(item: &mut Item<'a>, alloc: Global, f: &mut F) -> Result<(), Fault<TypeMismatch>>
    requires callable { AlwaysCallable F.FnMut }
    ensures visited { IfVisited result (λ r. (cs : List KeyCall) × Chain (IsKeyCall item_tree F.FnMut H.handles) f.old cs f.new × VisitMap (item_tree item.old) cs (item_tree item.new) r) }
    ensures refused { IfTold result (λ e. (e ≡ TypeMismatch.Map) × (map_items (item_tree item.old) ≡ None) × (item.new ≡ item.old) × (f.new ≡ f.old)) }
{
    item.visit_map_elements(alloc, f)
}

/// `StandaloneItem::visit_tag`.
#[tactic(auto, using(cbor_edn_core::proofs::lemmas::visit::SoughtChains::tags_after))]
pub fn visit_tag<'a, F: FnMut(u64, &mut Item<'a>) -> Result<(), CallbackError>>(
    item: &mut StandaloneItem<'a>,
    alloc: Global,
    f: &mut F,
) -> Result<(), AllocError>
    requires callable { MayVisitTags item_tree F.FnMut f.old }
    ensures visited { (cs : List SoughtCall) × Chain (IsTagCall item_tree F.FnMut) f.old cs f.new × VisitParts IsTag _ (standalone_tree item.old) cs (standalone_tree item.new) (ending result) }
{
    item.visit_tag(alloc, f)
}

/// `Sequence::visit_tag_no_deeper`.
#[tactic(auto, using(cbor_edn_core::proofs::lemmas::visit::SoughtChains::tags_after))]
pub fn visit_tag_no_deeper<'a, F: FnMut(u64, &mut Item<'a>) -> Result<(), CallbackError>>(
    sequence: &mut Sequence<'a>,
    alloc: Global,
    f: &mut F,
) -> Result<(), AllocError>
    requires callable { MayVisitTags item_tree F.FnMut f.old }
    requires no_deeper { LeavesNoneDeeper item_tree F.FnMut }
    ensures visited { (cs : List SoughtCall) × Chain (IsTagCall item_tree F.FnMut) f.old cs f.new × VisitParts IsTag _ (sequence_tree sequence.old) cs (sequence_tree sequence.new) (ending result) }
{
    sequence.visit_tag_no_deeper(alloc, f)
}

/// `Sequence::has_tag`.
pub fn has_tag(sequence: &Sequence<'_>) -> bool
    ensures { result ≡ has_tag (sequence_tree sequence.now) }
{
    sequence.has_tag()
}

/// `Sequence::visit_application_literals`.
pub fn visit_application_literals<
    'a,
    F: FnMut(String, String, &mut Item<'a>) -> Result<(), CallbackError>,
>(sequence: &mut Sequence<'a>, alloc: Global, f: &mut F) -> Result<(), AllocError>
    requires callable { MayVisitLiterals item_tree F.FnMut f.old }
    ensures visited { (cs : List SoughtCall) × Chain (IsLiteralCall item_tree F.FnMut) f.old cs f.new × VisitParts IsApplication _ (sequence_tree sequence.old) cs (sequence_tree sequence.new) (ending result) }
{
    sequence.visit_application_literals(alloc, f)
}

/// `Sequence::of_item`.
pub fn of_item<'a>(alloc: Global, item: Item<'a>) -> Sequence<'a>
    ensures { sequence_tree result ≡ SequenceTree [] (LastTree (ElementTree (item_tree item.entry)) []) }
{
    Sequence::of_item(alloc, item)
}

/// `Sequence::embedded`.
pub fn embedded<'a>(
    sequence: Sequence<'a>,
    alloc: Global,
    indicator: Option<Indicator>,
) -> Result<Item<'a>, AllocError>
    ensures { IfOk result (λ t. item_tree t ≡ embedded_tree (sequence_tree sequence.entry) indicator) }
{
    sequence.embedded(alloc, indicator)
}

/// `Item::get_literal_indicator`.
pub fn get_literal_indicator(item: &Item<'_>) -> Option<Option<Indicator>>
    ensures { result ≡ literal_indicator (item_tree item.now) }
{
    item.get_literal_indicator()
}

/// `Item::nesting`.
pub fn item_nesting(item: &Item<'_>) -> usize
    ensures { result ≡ capped (tree_nesting (item_tree item.now)) }
{
    item.nesting()
}

/// `Sequence::nesting`.
pub fn sequence_nesting(sequence: &Sequence<'_>) -> usize
    ensures { result ≡ capped (tree_nesting (sequence_tree sequence.now)) }
{
    sequence.nesting()
}
