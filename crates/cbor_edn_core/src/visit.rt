//! Visits: callbacks at parts of items.
ghost use Rattle.std.specs.Prelude.{◌≡◌, ◌≢◌, OnOk, OnErr, Option, Result, List, None};
ghost use Rattle.cbor_edn_core.specs.visit.Callbacks.{answer_of, ending};
ghost use Rattle.cbor_edn_core.specs.visit.Sought.{IsTagCall, IsLiteralCall, IsItemCall, LeavesNoneDeeper, MayVisitTags, MayVisitLiterals, MayVisitItems};
ghost use Rattle.cbor_edn_core.specs.tree.View.{item_tree, standalone_tree, sequence_tree};
ghost use Rattle.cbor_edn_model.specs.visit.Tagged.{has_tag};
ghost use Rattle.cbor_edn_model.specs.visit.Seeking.{SoughtCall, VisitParts, IsTag, IsApplication};
ghost use Rattle.cbor_edn_model.specs.visit.Visits.{no_memory, fine, answered, Chain};

mod array;
mod map;
mod seek;
mod tagged;
mod walk;

use crate::tree::{Item, Sequence, StandaloneItem};
use cbor_edn_parts::base::error::CallbackError;
use cbor_edn_parts::number::Number;
use cbor_edn_parts::space::{ListEnd, MandatorySpace, Separator, Space, TakesComment};
use cbor_edn_parts::string::{Ellipsis, Literal};
pub use map::MapValueHandler;
use seek::{ApplicationItems, Literals, Tags, TagsNoDeeper};
use std::alloc::{AllocError, Global};
pub use tagged::item_has_tag;
use tagged::sequence_has_tag;
use walk::Walk;

/// The walk over trees of a text.
type TextWalk<'a, F, K> = Walk<
    Space<'a>,
    MandatorySpace<'a>,
    Separator<'a>,
    ListEnd<'a>,
    Number<'a>,
    Literal<'a>,
    Ellipsis<'a>,
    F,
    K,
>;

/// Puts the comment that an answer asks for into the space that follows its item.
fn put_answer<X: TakesComment>(
    answer: Result<Option<String>, CallbackError>,
    space: &mut X,
    alloc: Global,
) -> Result<(), AllocError>
    ensures had_memory { OnOk result (answer_of answer ≢ no_memory) }
    ensures put { OnOk result (X.bytes space.new ≡ answered (answer_of answer) (X.bytes space.old)) }
    ensures had_comment { OnErr result (answer_of answer ≢ fine) }
    ensures out_of_memory { OnErr result (X.bytes space.new ≡ X.bytes space.old) }
{
    match answer {
        Ok(Some(comment)) | Err(CallbackError::Comment(comment)) => {
            space.put_comment(alloc, &comment)
        }
        Ok(None) => Ok(()),
        Err(CallbackError::Memory(e)) => Err(e),
    }
}

impl<'a> StandaloneItem<'a> {
    /// Calls `f` at each tag, with its number, in text order and the outer ones first. A text in the answer `CallbackError::Comment`
    /// becomes a comment in front of the space that follows the tag. What a call left is entered where it nests no deeper than the tag
    /// did; embedded sequences are entered too, `simple(..)` is not. Fails at the first answer `CallbackError::Memory`, or where memory
    /// runs out: the calls up to there are made then.
    pub fn visit_tag<F: FnMut(u64, &mut Item<'a>) -> Result<(), CallbackError>>(
        &mut self,
        alloc: Global,
        f: &mut F,
    ) -> Result<(), AllocError>
        requires callable { MayVisitTags item_tree F.FnMut f.old }
        ensures visited { (cs : List SoughtCall) × Chain (IsTagCall item_tree F.FnMut) f.old cs f.new × VisitParts IsTag _ (standalone_tree self.old) cs (standalone_tree self.new) (ending result) }
    {
        TextWalk::<F, Tags>::visit_standalone(self, alloc, f)
    }

    /// Calls `f` at each string that is one literal with a prefix, as `dt'..'`, with the prefix and the text, which take memory. Order,
    /// comments, what is entered and what fails are as in [`StandaloneItem::visit_tag`].
    pub fn visit_application_literals<
        F: FnMut(String, String, &mut Item<'a>) -> Result<(), CallbackError>,
    >(&mut self, alloc: Global, f: &mut F) -> Result<(), AllocError>
        requires callable { MayVisitLiterals item_tree F.FnMut f.old }
        ensures visited { (cs : List SoughtCall) × Chain (IsLiteralCall item_tree F.FnMut) f.old cs f.new × VisitParts IsApplication _ (standalone_tree self.old) cs (standalone_tree self.new) (ending result) }
    {
        TextWalk::<F, Literals>::visit_standalone(self, alloc, f)
    }
}

impl<'a> Sequence<'a> {
    /// Calls `f` at each tag of all items, with its number, in text order and the outer ones first. Comments, what is entered and what
    /// fails are as in [`StandaloneItem::visit_tag`]. Time grows with the size of the items times how deep tags nest.
    pub fn visit_tag<F: FnMut(u64, &mut Item<'a>) -> Result<(), CallbackError>>(
        &mut self,
        alloc: Global,
        f: &mut F,
    ) -> Result<(), AllocError>
        requires callable { MayVisitTags item_tree F.FnMut f.old }
        ensures visited { (cs : List SoughtCall) × Chain (IsTagCall item_tree F.FnMut) f.old cs f.new × VisitParts IsTag _ (sequence_tree self.old) cs (sequence_tree self.new) (ending result) }
    {
        TextWalk::<F, Tags>::visit_sequence(self, alloc, f)
    }

    /// The same for an `f` that never leaves an item that nests deeper than the tag did, as [`Sequence::visit_tag`] finds by a count
    /// before each call and behind it. Nothing is counted here: time grows with the size of the items.
    pub fn visit_tag_no_deeper<F: FnMut(u64, &mut Item<'a>) -> Result<(), CallbackError>>(
        &mut self,
        alloc: Global,
        f: &mut F,
    ) -> Result<(), AllocError>
        requires callable { MayVisitTags item_tree F.FnMut f.old }
        requires no_deeper { LeavesNoneDeeper item_tree F.FnMut }
        ensures visited { (cs : List SoughtCall) × Chain (IsTagCall item_tree F.FnMut) f.old cs f.new × VisitParts IsTag _ (sequence_tree self.old) cs (sequence_tree self.new) (ending result) }
    {
        TextWalk::<F, TagsNoDeeper>::visit_sequence(self, alloc, f)
    }

    /// Whether a tag stands in the items, at any depth and in embedded sequences too, but not in `simple(..)`.
    pub fn has_tag(&self) -> bool
        ensures { result ≡ has_tag (sequence_tree self.now) }
    {
        sequence_has_tag(self)
    }

    /// Calls `f` at each string of all items that is one literal with a prefix, with the prefix and the text, which take memory. Order,
    /// comments, what is entered and what fails are as in [`Sequence::visit_tag`].
    pub fn visit_application_literals<
        F: FnMut(String, String, &mut Item<'a>) -> Result<(), CallbackError>,
    >(&mut self, alloc: Global, f: &mut F) -> Result<(), AllocError>
        requires callable { MayVisitLiterals item_tree F.FnMut f.old }
        ensures visited { (cs : List SoughtCall) × Chain (IsLiteralCall item_tree F.FnMut) f.old cs f.new × VisitParts IsApplication _ (sequence_tree self.old) cs (sequence_tree self.new) (ending result) }
    {
        TextWalk::<F, Literals>::visit_sequence(self, alloc, f)
    }

    /// Calls `f` at each string of all items that is one literal with a prefix, with the item alone: no prefix and no text is made for a
    /// call, and [`Item::application_prefix`] tells the prefix without memory. Order, comments, what is entered and what fails are as in
    /// [`Sequence::visit_tag`].
    pub fn visit_application_items<F: FnMut(&mut Item<'a>) -> Result<(), CallbackError>>(
        &mut self,
        alloc: Global,
        f: &mut F,
    ) -> Result<(), AllocError>
        requires callable { MayVisitItems item_tree F.FnMut f.old }
        ensures visited { (cs : List SoughtCall) × Chain (IsItemCall item_tree F.FnMut) f.old cs f.new × VisitParts IsApplication _ (sequence_tree self.old) cs (sequence_tree self.new) (ending result) }
    {
        TextWalk::<F, ApplicationItems>::visit_sequence(self, alloc, f)
    }
}
