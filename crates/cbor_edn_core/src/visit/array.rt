//! The visit of the elements of an array.
ghost use Rattle.std.specs.Prelude.{◌≡◌, List, None, All, map};
ghost use Rattle.std.specs.List.{Contains};
ghost use Rattle.cbor_edn_parts.specs.base.Refusals.{IfTold};
ghost use Rattle.cbor_edn_model.specs.access.Accessed.{array_items, element, entries, entries_inside};
ghost use Rattle.cbor_edn_model.specs.tree.TreeLeaves.{texts};
ghost use Rattle.cbor_edn_model.specs.tree.Trees.{ElementTree};
ghost use Rattle.cbor_edn_model.specs.visit.Visits.{Call, Chain, VisitArray, VisitElement, VisitEntries, VisitInside, elements_of};
ghost use Rattle.cbor_edn_model.specs.internal.Visiting.{VisitFront};
ghost use Rattle.cbor_edn_core.specs.visit.Callbacks.{IsCall, MayCall, MayVisit, answer_of, ending, IfVisited};
ghost use Rattle.cbor_edn_core.specs.tree.View.{item_tree, row_item, seen, view_items, view_list};

use super::put_answer;
use crate::access::TypeMismatch;
use crate::tree::{InnerItem, Item, ItemList, Items};
use cbor_edn_parts::base::error::{CallbackError, Fault};
use cbor_edn_parts::space::{Separator, TakesComment};
use std::alloc::{AllocError, Global};

/// The call at an element.
fn call<'a, F: FnMut(&mut Item<'a>) -> Result<Option<String>, CallbackError>>(
    item: &mut Item<'a>,
    f: &mut F,
) -> Result<Option<String>, CallbackError>
    requires callable { MayCall item_tree F.FnMut f.old (item_tree item.old) }
    ensures called { IsCall item_tree F.FnMut f.old (record { before = item_tree item.old; answer = answer_of result; after = item_tree item.new }) f.new }
{
    f(item)
}

/// The call at an element, with its comment.
fn visit_element<
    'a,
    X: TakesComment,
    F: FnMut(&mut Item<'a>) -> Result<Option<String>, CallbackError>,
>(item: &mut Item<'a>, space: &mut X, alloc: Global, f: &mut F) -> Result<(), AllocError>
    requires callable { MayCall item_tree F.FnMut f.old (item_tree item.old) }
    ensures visited { (c : Call) × IsCall item_tree F.FnMut f.old c f.new
        × VisitElement (ElementTree (item_tree item.old)) (X.bytes space.old) c (ElementTree (item_tree item.new)) (X.bytes space.new) (ending result) }
{
    let answer = call(item, f);
    put_answer(answer, space, alloc)
}

/// The calls at the elements of a row.
fn visit_row<'a, F: FnMut(&mut Item<'a>) -> Result<Option<String>, CallbackError>>(
    row: &mut Vec<(Item<'a>, Separator<'a>)>,
    alloc: Global,
    f: &mut F,
) -> Result<(), AllocError>
    requires callable { MayVisit item_tree F.FnMut (IsCall item_tree F.FnMut) (λ c. c.before) (map row_item row.old.items) f.old }
    ensures visited { (cs : List Call) × Chain (IsCall item_tree F.FnMut) f.old cs f.new × All (λ c. Contains (map row_item row.old.items) c.before) cs
        × VisitFront VisitElement (map (seen texts) row.old.items) cs (map (seen texts) row.new.items) (ending result) }
{
    for (item, space) in row.iter_mut() {
        visit_element(item, space, alloc, f)?;
    }
    Ok(())
}

/// The calls at all elements.
fn visit_items<'a, F: FnMut(&mut Item<'a>) -> Result<Option<String>, CallbackError>>(
    items: &mut Items<'a>,
    alloc: Global,
    f: &mut F,
) -> Result<(), AllocError>
    requires callable { MayVisit item_tree F.FnMut (IsCall item_tree F.FnMut) (λ c. c.before) (map element (entries (view_items texts items.old))) f.old }
    ensures visited { (cs : List Call) × Chain (IsCall item_tree F.FnMut) f.old cs f.new
        × VisitEntries VisitElement (view_items texts items.old) cs (view_items texts items.new) (ending result) }
{
    visit_row(&mut items.row, alloc, f)?;
    visit_element(&mut items.last, &mut items.end, alloc, f)
}

/// The calls at what stands between the brackets.
fn visit_list<'a, F: FnMut(&mut Item<'a>) -> Result<Option<String>, CallbackError>>(
    list: &mut ItemList<'a>,
    alloc: Global,
    f: &mut F,
) -> Result<(), AllocError>
    requires callable { MayVisit item_tree F.FnMut (IsCall item_tree F.FnMut) (λ c. c.before) (map element (entries_inside (view_list texts list.old))) f.old }
    ensures visited { (cs : List Call) × Chain (IsCall item_tree F.FnMut) f.old cs f.new
        × VisitInside VisitElement (view_list texts list.old) cs (view_list texts list.new) (ending result) }
{
    match list {
        ItemList::Present { items, .. } => visit_items(items, alloc, f),
        ItemList::Absent { .. } => Ok(()),
    }
}

impl<'a> Item<'a> {
    /// Calls `f` at each element of an array in text order, and enters none. A text in its answer, also one in
    /// `CallbackError::Comment`, becomes a comment in front of the space that follows the element; no other space changes. Fails
    /// with `Array` before any call where the item is none, and at the first answer `CallbackError::Memory`, or where memory runs
    /// out for a comment: the calls up to there are made then.
    pub fn visit_array_elements<F: FnMut(&mut Item<'a>) -> Result<Option<String>, CallbackError>>(
        &mut self,
        alloc: Global,
        f: &mut F,
    ) -> Result<(), Fault<TypeMismatch>>
        requires callable { MayVisit item_tree F.FnMut (IsCall item_tree F.FnMut) (λ c. c.before) (elements_of (item_tree self.old)) f.old }
        ensures visited { IfVisited result (λ r. (cs : List Call) × Chain (IsCall item_tree F.FnMut) f.old cs f.new × VisitArray (item_tree self.old) cs (item_tree self.new) r) }
        ensures refused { IfTold result (λ e. (e ≡ TypeMismatch.Array) × (array_items (item_tree self.old) ≡ None) × (self.new ≡ self.old) × (f.new ≡ f.old)) }
    {
        let InnerItem::Array(list) = &mut self.inner else {
            return Err(Fault::Told(TypeMismatch::Array));
        };
        match visit_list(list, alloc, f) {
            Ok(()) => Ok(()),
            Err(refused) => Err(Fault::Memory(refused)),
        }
    }
}
