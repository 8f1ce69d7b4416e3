//! What the visits of tags and of application literals look for, and their calls.
ghost use Rattle.std.specs.Prelude.{◌≡◌, ◌<◌, ◌-◌, ◌^◌, IfOk, List, Some};
ghost use Rattle.std.specs.String.{string_bytes};
ghost use Rattle.cbor_edn_model.specs.access.Accessed.{IsApplicationItem, tag_number};
ghost use Rattle.cbor_edn_model.specs.internal.Reaching.{Ends, Reaches};
ghost use Rattle.cbor_edn_model.specs.tree.TreeLeaves.{Ghosts, texts};
ghost use Rattle.cbor_edn_model.specs.tree.Trees.{Tree, OneItem};
ghost use Rattle.cbor_edn_model.specs.visit.Depth.{depth};
ghost use Rattle.cbor_edn_model.specs.visit.Seeking.{CallArguments, SoughtCall, IsTag, IsApplication, number as tag_arguments, prefix_and_text};
ghost use Rattle.cbor_edn_model.specs.visit.Visits.{Chain};
ghost use Rattle.cbor_edn_core.specs.tree.View.{item_tree, view_item};
ghost use Rattle.cbor_edn_core.specs.visit.Callbacks.{answer_of};
ghost use Rattle.cbor_edn_core.specs.visit.Sought.{IsTagCall, IsLiteralCall, IsItemCall, LeavesNoneDeeper, MayVisitTags, MayVisitLiterals, MayVisitItems, sought_answer};

use super::put_answer;
use crate::access::application::may_have_prefix;
use crate::tree::nesting::item_depth;
use crate::tree::{Item, ItemOf};
use cbor_edn_parts::base::error::{CallbackError, Fault};
use cbor_edn_parts::number::Number;
use cbor_edn_parts::space::{ListEnd, MandatorySpace, Separator, Space, TakesComment};
use cbor_edn_parts::string::{Ellipsis, Literal};
use std::alloc::{AllocError, Global};

/// What a visit looks for, over any leaves: the call at an item that is sought, with its comment in the space that follows,
/// and whether the item is entered then.
pub(super) trait Seek<F, O: Drop, M: Drop, C: Drop, E: Drop, N: Drop, L: Drop, D: Drop> {
    ghost leaves: { Ghosts O M C E N L D };

    ghost sought: { Tree OneItem → CallArguments → Type 0 };

    ghost calls: { F → SoughtCall → F → Type 0 };

    ghost ready: { F → Type 0 };

    fn call_at_spaced(
        item: &mut ItemOf<O, M, C, E, N, L, D>,
        space: &mut O,
        alloc: Global,
        f: &mut F,
    ) -> Result<bool, AllocError>
        requires callable { ready f.old }
        ensures callable_after { ready f.new }
        ensures reached { (cs : List SoughtCall) × Chain calls f.old cs f.new × Reaches sought (view_item leaves item.old) (leaves.space space.old) cs (view_item leaves item.new) (leaves.space space.new) result };

    fn call_at_separated(
        item: &mut ItemOf<O, M, C, E, N, L, D>,
        separator: &mut C,
        alloc: Global,
        f: &mut F,
    ) -> Result<bool, AllocError>
        requires callable { ready f.old }
        ensures callable_after { ready f.new }
        ensures reached { (cs : List SoughtCall) × Chain calls f.old cs f.new × Reaches sought (view_item leaves item.old) (leaves.separator separator.old) cs (view_item leaves item.new) (leaves.separator separator.new) result };

    fn call_at_last(
        item: &mut ItemOf<O, M, C, E, N, L, D>,
        end: &mut E,
        alloc: Global,
        f: &mut F,
    ) -> Result<bool, AllocError>
        requires callable { ready f.old }
        ensures callable_after { ready f.new }
        ensures reached { (cs : List SoughtCall) × Chain calls f.old cs f.new × Reaches sought (view_item leaves item.old) (leaves.end end.old) cs (view_item leaves item.new) (leaves.end end.new) result };
}

/// The same over the leaves of a text, with the comment in a space of any kind.
pub(super) trait SeekText<'a, F> {
    ghost sought: { Tree OneItem → CallArguments → Type 0 };

    ghost calls: { F → SoughtCall → F → Type 0 };

    ghost ready: { F → Type 0 };

    fn call_at<X: TakesComment>(
        item: &mut Item<'a>,
        space: &mut X,
        alloc: Global,
        f: &mut F,
    ) -> Result<bool, AllocError>
        requires callable { ready f.old }
        ensures callable_after { ready f.new }
        ensures reached { (cs : List SoughtCall) × Chain calls f.old cs f.new × Reaches sought (item_tree item.old) (X.bytes space.old) cs (item_tree item.new) (X.bytes space.new) result };
}

impl<'a, F, K: SeekText<'a, F>> Seek<
    F,
    Space<'a>,
    MandatorySpace<'a>,
    Separator<'a>,
    ListEnd<'a>,
    Number<'a>,
    Literal<'a>,
    Ellipsis<'a>,
> for K {
    ghost leaves = { texts };

    ghost sought = { K.SeekText.sought };

    ghost calls = { K.SeekText.calls };

    ghost ready = { K.SeekText.ready };

    #[inline]
    fn call_at_spaced(
        item: &mut Item<'a>,
        space: &mut Space<'a>,
        alloc: Global,
        f: &mut F,
    ) -> Result<bool, AllocError> {
        K::call_at(item, space, alloc, f)
    }

    #[inline]
    fn call_at_separated(
        item: &mut Item<'a>,
        separator: &mut Separator<'a>,
        alloc: Global,
        f: &mut F,
    ) -> Result<bool, AllocError> {
        K::call_at(item, separator, alloc, f)
    }

    #[inline]
    fn call_at_last(
        item: &mut Item<'a>,
        end: &mut ListEnd<'a>,
        alloc: Global,
        f: &mut F,
    ) -> Result<bool, AllocError> {
        K::call_at(item, end, alloc, f)
    }
}

/// How an item is seen.
trait Seen {
    ghost tree: { Self → Tree OneItem };
}

impl<'a> Seen for Item<'a> {
    ghost tree = { item_tree };
}

/// The call at a tag.
fn call_tag<T: Seen, F: FnMut(u64, &mut T) -> Result<(), CallbackError>>(
    tag: u64,
    item: &mut T,
    f: &mut F,
) -> Result<(), CallbackError>
    requires callable { MayVisitTags T.tree F.FnMut f.old }
    requires is_tag { tag_number (T.tree item.old) ≡ Some tag }
    ensures called { IsTagCall T.tree F.FnMut f.old (record { arguments = tag_arguments tag; before = T.tree item.old; answer = sought_answer result; after = T.tree item.new }) f.new }
{
    f(tag, item)
}

/// The call at a literal.
fn call_literal<T: Seen, F: FnMut(String, String, &mut T) -> Result<(), CallbackError>>(
    prefix: String,
    text: String,
    item: &mut T,
    f: &mut F,
) -> Result<(), CallbackError>
    requires callable { MayVisitLiterals T.tree F.FnMut f.old }
    requires is_literal { IsApplicationItem (T.tree item.old) (string_bytes prefix) (string_bytes text) }
    ensures called { IsLiteralCall T.tree F.FnMut f.old (record { arguments = prefix_and_text (string_bytes prefix) (string_bytes text); before = T.tree item.old; answer = sought_answer result; after = T.tree item.new }) f.new }
{
    f(prefix, text, item)
}

/// The call at a literal that is not told its prefix and its text.
fn call_item<T: Seen, F: FnMut(&mut T) -> Result<(), CallbackError>>(
    item: &mut T,
    f: &mut F,
) -> Result<(), CallbackError>
    requires callable { MayVisitItems T.tree F.FnMut f.old }
    requires is_literal { (a : CallArguments) × IsApplication (T.tree item.old) a }
    ensures called { (a : CallArguments) → IsApplication (T.tree item.old) a → IsItemCall T.tree F.FnMut f.old (record { arguments = a; before = T.tree item.old; answer = sought_answer result; after = T.tree item.new }) f.new }
{
    f(item)
}

/// The answer as one at an element, which may have a comment.
fn element_answer(answer: Result<(), CallbackError>) -> Result<Option<String>, CallbackError>
    ensures { answer_of result ≡ sought_answer answer }
{
    match answer {
        Ok(()) => Ok(None),
        Err(e) => Err(e),
    }
}

/// How deep an item nests before its call. One that nests deeper than can be counted is refused as if memory were.
fn depth_before(item: &Item<'_>) -> Result<usize, AllocError>
    ensures { IfOk result (λ n. (n ≡ depth (item_tree item.now)) × (n < 2 ^ 64 - 1)) }
{
    let before = item_depth(item);
    if before == usize::MAX {
        return Err(AllocError);
    }
    Ok(before)
}

/// The comment that a call asks for, and whether what it left is entered: where it nests no deeper than before.
fn end<X: TakesComment>(
    answer: Result<(), CallbackError>,
    before: usize,
    item: &Item<'_>,
    space: &mut X,
    alloc: Global,
) -> Result<bool, AllocError>
    requires counted { before < 2 ^ 64 - 1 }
    ensures { Ends before (sought_answer answer) (item_tree item.now) (X.bytes space.old) (X.bytes space.new) result }
{
    put_answer(element_answer(answer), space, alloc)?;
    Ok(item_depth(item) <= before)
}

/// The visit of tags.
pub(super) struct Tags;

impl<'a, F: FnMut(u64, &mut Item<'a>) -> Result<(), CallbackError>> SeekText<'a, F> for Tags {
    ghost sought = { IsTag };

    ghost calls = { IsTagCall item_tree F.FnMut };

    ghost ready = { MayVisitTags item_tree F.FnMut };

    /// What is no tag, as most items, is passed over at once.
    #[inline]
    fn call_at<X: TakesComment>(
        item: &mut Item<'a>,
        space: &mut X,
        alloc: Global,
        f: &mut F,
    ) -> Result<bool, AllocError> {
        let Ok(tag) = item.get_tag() else {
            return Ok(true);
        };
        call_at_numbered(tag, item, space, alloc, f)
    }
}

/// The call at a tag of this number.
#[inline(never)]
fn call_at_numbered<'a, X: TakesComment, F: FnMut(u64, &mut Item<'a>) -> Result<(), CallbackError>>(
    tag: u64,
    item: &mut Item<'a>,
    space: &mut X,
    alloc: Global,
    f: &mut F,
) -> Result<bool, AllocError>
    requires callable { MayVisitTags item_tree F.FnMut f.old }
    requires is_tag { tag_number (item_tree item.old) ≡ Some tag }
    ensures callable_after { MayVisitTags item_tree F.FnMut f.new }
    ensures reached { (cs : List SoughtCall) × Chain (IsTagCall item_tree F.FnMut) f.old cs f.new × Reaches IsTag (item_tree item.old) (X.bytes space.old) cs (item_tree item.new) (X.bytes space.new) result }
{
    let before = depth_before(item)?;
    let answer = call_tag(tag, item, f);
    end(answer, before, item, space, alloc)
}

/// The visit of tags by calls that leave none that nests deeper: nothing is counted.
pub(super) struct TagsNoDeeper;

impl<'a, F: FnMut(u64, &mut Item<'a>) -> Result<(), CallbackError>> SeekText<'a, F>
    for TagsNoDeeper {
    ghost sought = { IsTag };

    ghost calls = { IsTagCall item_tree F.FnMut };

    ghost ready = { λ f. MayVisitTags item_tree F.FnMut f × LeavesNoneDeeper item_tree F.FnMut };

    #[inline]
    fn call_at<X: TakesComment>(
        item: &mut Item<'a>,
        space: &mut X,
        alloc: Global,
        f: &mut F,
    ) -> Result<bool, AllocError> {
        let Ok(tag) = item.get_tag() else {
            return Ok(true);
        };
        let answer = call_tag(tag, item, f);
        put_answer(element_answer(answer), space, alloc)?;
        Ok(true)
    }
}

/// The visit of strings that are one literal with a prefix.
pub(super) struct Literals;

impl<'a, F: FnMut(String, String, &mut Item<'a>) -> Result<(), CallbackError>> SeekText<'a, F>
    for Literals {
    ghost sought = { IsApplication };

    ghost calls = { IsLiteralCall item_tree F.FnMut };

    ghost ready = { MayVisitLiterals item_tree F.FnMut };

    /// What has no prefix, as most items, is passed over at once.
    #[inline]
    fn call_at<X: TakesComment>(
        item: &mut Item<'a>,
        space: &mut X,
        alloc: Global,
        f: &mut F,
    ) -> Result<bool, AllocError> {
        if !may_have_prefix(item) {
            return Ok(true);
        }
        call_at_application(item, space, alloc, f)
    }
}

/// The call where an item is a literal, which its pieces tell.
#[inline(never)]
fn call_at_application<
    'a,
    X: TakesComment,
    F: FnMut(String, String, &mut Item<'a>) -> Result<(), CallbackError>,
>(item: &mut Item<'a>, space: &mut X, alloc: Global, f: &mut F) -> Result<bool, AllocError>
    requires callable { MayVisitLiterals item_tree F.FnMut f.old }
    ensures callable_after { MayVisitLiterals item_tree F.FnMut f.new }
    ensures reached { (cs : List SoughtCall) × Chain (IsLiteralCall item_tree F.FnMut) f.old cs f.new × Reaches IsApplication (item_tree item.old) (X.bytes space.old) cs (item_tree item.new) (X.bytes space.new) result }
{
    let (prefix, text) = match item.get_application_literal(alloc) {
        Ok(literal) => literal,
        Err(Fault::Told(_)) => return Ok(true),
        Err(Fault::Memory(refused)) => return Err(refused),
    };
    let before = depth_before(item)?;
    let answer = call_literal(prefix, text, item, f);
    end(answer, before, item, space, alloc)
}

/// The same visit, whose calls get the item alone.
pub(super) struct ApplicationItems;

impl<'a, F: FnMut(&mut Item<'a>) -> Result<(), CallbackError>> SeekText<'a, F>
    for ApplicationItems {
    ghost sought = { IsApplication };

    ghost calls = { IsItemCall item_tree F.FnMut };

    ghost ready = { MayVisitItems item_tree F.FnMut };

    #[inline]
    fn call_at<X: TakesComment>(
        item: &mut Item<'a>,
        space: &mut X,
        alloc: Global,
        f: &mut F,
    ) -> Result<bool, AllocError> {
        if !may_have_prefix(item) {
            return Ok(true);
        }
        call_at_application_item(item, space, alloc, f)
    }
}

#[inline(never)]
fn call_at_application_item<
    'a,
    X: TakesComment,
    F: FnMut(&mut Item<'a>) -> Result<(), CallbackError>,
>(item: &mut Item<'a>, space: &mut X, alloc: Global, f: &mut F) -> Result<bool, AllocError>
    requires callable { MayVisitItems item_tree F.FnMut f.old }
    ensures callable_after { MayVisitItems item_tree F.FnMut f.new }
    ensures reached { (cs : List SoughtCall) × Chain (IsItemCall item_tree F.FnMut) f.old cs f.new × Reaches IsApplication (item_tree item.old) (X.bytes space.old) cs (item_tree item.new) (X.bytes space.new) result }
{
    let Some(_) = item.application_prefix() else {
        return Ok(true);
    };
    let before = depth_before(item)?;
    let answer = call_item(item, f);
    end(answer, before, item, space, alloc)
}
