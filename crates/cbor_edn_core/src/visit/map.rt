//! The visit of the keys of a map, and of the values that have a handler.
ghost use Rattle.std.specs.Prelude.{◌≡◌, List, None, All, map, Option, Result};
ghost use Rattle.std.specs.Fn.{CalledAtMut};
ghost use Rattle.std.specs.List.{Contains};
ghost use Rattle.std.specs.declared.string.String.{String};
ghost use Rattle.std.specs.declared.alloc.Global.{Global};
ghost use Rattle.cbor_edn_parts.specs.declared.base.error.CallbackError.{CallbackError};
ghost use Rattle.cbor_edn_parts.specs.base.Refusals.{IfTold};
ghost use Rattle.cbor_edn_model.specs.access.Accessed.{map_items, key, entries, entries_inside};
ghost use Rattle.cbor_edn_model.specs.tree.TreeLeaves.{texts};
ghost use Rattle.cbor_edn_model.specs.visit.Visits.{KeyCall, Chain, VisitMap, VisitPair, VisitEntries, VisitInside, keys_of};
ghost use Rattle.cbor_edn_model.specs.internal.Visiting.{VisitFront};
ghost use Rattle.cbor_edn_core.specs.visit.Callbacks.{IsKeyCall, MayCall, MayVisit, answer_of, key_answer, handler_of, ending, IfVisited};
ghost use Rattle.cbor_edn_core.specs.tree.View.{Item, item_tree, row_key, seen_pair, view_pair, view_pairs, view_pair_list};

use super::put_answer;
use crate::access::TypeMismatch;
use crate::tree::{InnerItem, Item, Pair, PairList, Pairs};
use cbor_edn_parts::base::error::{CallbackError, Fault};
use cbor_edn_parts::space::{Separator, TakesComment};
use std::alloc::{AllocError, Global};

/// What a visit of a map does with the value of a key, once: it is in the answer at that key, and spent on the value.
pub trait MapValueHandler<'a>: Drop {
    // what it may answer at an item, and leave of it
    ghost handles: { Self → Item → Result (Option (String Global)) CallbackError → Item → Type 0 };

    /// Changes the value. A text in the answer, also one in `CallbackError::Comment`, becomes a comment behind the value;
    /// `CallbackError::Memory` ends the visit.
    fn handle(self, alloc: Global, value: &mut Item<'a>) -> Result<Option<String>, CallbackError>
        ensures { handles self value.old result value.new };
}

/// The call at a key.
fn call<
    'a,
    H: MapValueHandler<'a>,
    F: FnMut(&mut Item<'a>) -> Result<(Option<String>, Option<H>), CallbackError>,
>(item: &mut Item<'a>, f: &mut F) -> Result<(Option<String>, Option<H>), CallbackError>
    requires callable { MayCall item_tree F.FnMut f.old (item_tree item.old) }
    ensures called { CalledAtMut F.FnMut f.old item.old result f.new item.new }
{
    f(item)
}

/// The answer at a key, and its handler apart.
fn answer_and_handler<H: Drop>(
    told: Result<(Option<String>, Option<H>), CallbackError>,
) -> (Result<Option<String>, CallbackError>, Option<H>)
    ensures answer { answer_of result.0 ≡ key_answer told }
    ensures handler { result.1 ≡ handler_of told }
{
    match told {
        Ok((comment, handler)) => (Ok(comment), handler),
        Err(error) => (Err(error), None),
    }
}

/// The call at a key with its comment, and then that of its handler at the value.
fn visit_pair<
    'a,
    X: TakesComment,
    H: MapValueHandler<'a>,
    F: FnMut(&mut Item<'a>) -> Result<(Option<String>, Option<H>), CallbackError>,
>(pair: &mut Pair<'a>, space: &mut X, alloc: Global, f: &mut F) -> Result<(), AllocError>
    requires callable { MayCall item_tree F.FnMut f.old (item_tree pair.old.key) }
    ensures visited { (c : KeyCall) × IsKeyCall item_tree F.FnMut H.handles f.old c f.new
        × VisitPair (view_pair texts pair.old) (X.bytes space.old) c (view_pair texts pair.new) (X.bytes space.new) (ending result) }
{
    let told = call(&mut pair.key, f);
    let parts = answer_and_handler(told);
    put_answer(parts.0, &mut pair.before_colon, alloc)?;
    match parts.1 {
        None => Ok(()),
        Some(handler) => {
            let answer = handler.handle(alloc, &mut pair.value);
            put_answer(answer, space, alloc)
        }
    }
}

/// The calls at the keys of a row.
fn visit_row<
    'a,
    H: MapValueHandler<'a>,
    F: FnMut(&mut Item<'a>) -> Result<(Option<String>, Option<H>), CallbackError>,
>(row: &mut Vec<(Pair<'a>, Separator<'a>)>, alloc: Global, f: &mut F) -> Result<(), AllocError>
    requires callable { MayVisit item_tree F.FnMut (IsKeyCall item_tree F.FnMut H.handles) (λ c. c.at_key.before) (map row_key row.old.items) f.old }
    ensures visited { (cs : List KeyCall) × Chain (IsKeyCall item_tree F.FnMut H.handles) f.old cs f.new × All (λ c. Contains (map row_key row.old.items) c.at_key.before) cs
        × VisitFront VisitPair (map (seen_pair texts) row.old.items) cs (map (seen_pair texts) row.new.items) (ending result) }
{
    for (pair, space) in row.iter_mut() {
        visit_pair(pair, space, alloc, f)?;
    }
    Ok(())
}

/// The calls at all keys.
fn visit_pairs<
    'a,
    H: MapValueHandler<'a>,
    F: FnMut(&mut Item<'a>) -> Result<(Option<String>, Option<H>), CallbackError>,
>(pairs: &mut Pairs<'a>, alloc: Global, f: &mut F) -> Result<(), AllocError>
    requires callable { MayVisit item_tree F.FnMut (IsKeyCall item_tree F.FnMut H.handles) (λ c. c.at_key.before) (map key (entries (view_pairs texts pairs.old))) f.old }
    ensures visited { (cs : List KeyCall) × Chain (IsKeyCall item_tree F.FnMut H.handles) f.old cs f.new
        × VisitEntries VisitPair (view_pairs texts pairs.old) cs (view_pairs texts pairs.new) (ending result) }
{
    visit_row(&mut pairs.row, alloc, f)?;
    visit_pair(&mut pairs.last, &mut pairs.end, alloc, f)
}

/// The calls at what stands between the braces.
fn visit_list<
    'a,
    H: MapValueHandler<'a>,
    F: FnMut(&mut Item<'a>) -> Result<(Option<String>, Option<H>), CallbackError>,
>(list: &mut PairList<'a>, alloc: Global, f: &mut F) -> Result<(), AllocError>
    requires callable { MayVisit item_tree F.FnMut (IsKeyCall item_tree F.FnMut H.handles) (λ c. c.at_key.before) (map key (entries_inside (view_pair_list texts list.old))) f.old }
    ensures visited { (cs : List KeyCall) × Chain (IsKeyCall item_tree F.FnMut H.handles) f.old cs f.new
        × VisitInside VisitPair (view_pair_list texts list.old) cs (view_pair_list texts list.new) (ending result) }
{
    match list {
        PairList::Present { pairs, .. } => visit_pairs(pairs, alloc, f),
        PairList::Absent { .. } => Ok(()),
    }
}

impl<'a> Item<'a> {
    /// Calls `f` at each key of a map in text order. A handler in its answer is spent on the key's value before the next key; other
    /// values are passed over. A text in an answer, also one in `CallbackError::Comment`, becomes a comment: a key's in front of the
    /// space before the colon, a handler's in front of the space behind the value. Fails with `Map` before any call where the item is
    /// none, and at the first want of memory: the calls up to there are made then.
    pub fn visit_map_elements<
        H: MapValueHandler<'a>,
        F: FnMut(&mut Item<'a>) -> Result<(Option<String>, Option<H>), CallbackError>,
    >(&mut self, alloc: Global, f: &mut F) -> Result<(), Fault<TypeMismatch>>
        requires callable { MayVisit item_tree F.FnMut (IsKeyCall item_tree F.FnMut H.handles) (λ c. c.at_key.before) (keys_of (item_tree self.old)) f.old }
        ensures visited { IfVisited result (λ r. (cs : List KeyCall) × Chain (IsKeyCall item_tree F.FnMut H.handles) f.old cs f.new × VisitMap (item_tree self.old) cs (item_tree self.new) r) }
        ensures refused { IfTold result (λ e. (e ≡ TypeMismatch.Map) × (map_items (item_tree self.old) ≡ None) × (self.new ≡ self.old) × (f.new ≡ f.old)) }
    {
        let InnerItem::Map(list) = &mut self.inner else {
            return Err(Fault::Told(TypeMismatch::Map));
        };
        match visit_list(list, alloc, f) {
            Ok(()) => Ok(()),
            Err(refused) => Err(Fault::Memory(refused)),
        }
    }
}
