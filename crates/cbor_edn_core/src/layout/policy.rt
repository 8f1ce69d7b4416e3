//! Delimiter policies, and comments in front of items.
ghost use Rattle.std.specs.Prelude.{◌≡◌, ◌++◌, IfOk, IfErr, IsOk, OnOk};
ghost use Rattle.std.specs.String.{string_bytes};
ghost use Rattle.cbor_edn_parts.specs.base.Buffer.{buffer_bytes};
ghost use Rattle.cbor_edn_parts.specs.declared.space.policy.DelimiterPolicy.TheVariants as policies;
ghost use Rattle.cbor_edn_parts.specs.space.LayoutColumns.{least};
ghost use Rattle.cbor_edn_model.specs.layout.Commented.{commented};
ghost use Rattle.cbor_edn_model.specs.cbor.Decoded.{alone};
ghost use Rattle.cbor_edn_model.specs.layout.Layout.{laid_out};
ghost use Rattle.cbor_edn_model.specs.tree.Trees.{items, text};
ghost use Rattle.cbor_edn_core.specs.tree.View.{item_tree, standalone_tree, sequence_tree};

use super::lay::{lay_item, lay_sequence, lay_standalone};
use super::print::{print_item, print_sequence, print_standalone};
use crate::tree::{Item, Sequence, StandaloneItem};
use cbor_edn_parts::base::buffer::TextBuffer;
use cbor_edn_parts::space::Space;
use cbor_edn_parts::space::layout::Layout;
use cbor_edn_parts::space::policy::DelimiterPolicy;
use std::alloc::{AllocError, Global};

impl<'a> Item<'a> {
    /// Gives the item the spaces of a policy: each space text is a column of the policy's table, cut from the text that stood there;
    /// embedded sequences stay. Fails where memory runs out: the items are the same then, and some spaces may be those of the policy
    /// already. `DiscardAll` takes no memory. The indented policy measures each item, but no more of it than `max_width` allows: where this
    /// is very wide, a byte is measured as often as items nest round it.
    pub fn set_delimiters(
        &mut self,
        alloc: Global,
        policy: DelimiterPolicy,
    ) -> Result<(), AllocError>
        ensures laid { OnOk result (item_tree self.new ≡ laid_out policy (item_tree self.old)) }
        ensures items { items (item_tree self.new) ≡ items (item_tree self.old) }
        ensures discarded { policy ≡ policies.DiscardAll → IsOk result }
    {
        lay_item(self, alloc, Layout::of(policy))
    }

    /// The text that the item has under a policy, as [`Item::set_delimiters`] and [`Item::serialize`] give it, without a change of the
    /// item. Fails where memory runs out: beside the text it takes memory for one comment at a time.
    pub fn serialize_laid_out(
        &self,
        alloc: Global,
        policy: DelimiterPolicy,
    ) -> Result<String, AllocError>
        ensures { IfOk result (λ s. string_bytes s ≡ text (laid_out policy (item_tree self.now))) }
    {
        let mut out = TextBuffer::new(alloc);
        print_item(&mut out, self, &Layout::of(policy))?;
        Ok(out.into_string())
    }

    /// The item with a comment in front of it: `/ a /1`, or lines behind `#` where the comment has a slash itself. Control characters but
    /// tabs and line ends become spaces. Fails where memory runs out; the item is dropped then.
    pub fn with_comment(
        self,
        alloc: Global,
        comment: &str,
    ) -> Result<StandaloneItem<'a>, AllocError>
        ensures { IfOk result (λ t. standalone_tree t ≡ commented comment.now (alone (item_tree self.entry))) }
    {
        StandaloneItem::from(self).with_comment(alloc, comment)
    }
}

impl<'a> StandaloneItem<'a> {
    /// Gives the item, and the spaces round it, those of a policy: each space text is a column of the policy's table, cut from the text
    /// that stood there; embedded sequences stay. Fails where memory runs out: the items are the same then, and some spaces may be those
    /// of the policy already. `DiscardAll` takes no memory. The indented policy measures each item, but no more of it than `max_width`
    /// allows: where this is very wide, a byte is measured as often as items nest round it.
    pub fn set_delimiters(
        &mut self,
        alloc: Global,
        policy: DelimiterPolicy,
    ) -> Result<(), AllocError>
        ensures laid { OnOk result (standalone_tree self.new ≡ laid_out policy (standalone_tree self.old)) }
        ensures items { items (standalone_tree self.new) ≡ items (standalone_tree self.old) }
        ensures discarded { policy ≡ policies.DiscardAll → IsOk result }
    {
        lay_standalone(self, alloc, Layout::of(policy))
    }

    /// The text that the item, with the spaces round it, has under a policy, as [`StandaloneItem::set_delimiters`] and
    /// [`StandaloneItem::serialize`] give it, without a change of the item. Fails where memory runs out: beside the text it takes memory
    /// for one comment at a time.
    pub fn serialize_laid_out(
        &self,
        alloc: Global,
        policy: DelimiterPolicy,
    ) -> Result<String, AllocError>
        ensures { IfOk result (λ s. string_bytes s ≡ text (laid_out policy (standalone_tree self.now))) }
    {
        let mut out = TextBuffer::new(alloc);
        print_standalone(&mut out, self, &Layout::of(policy))?;
        Ok(out.into_string())
    }

    /// The item with a comment in place of all space in front of it: `/ comment /`, or lines behind `#` where the comment
    /// has a slash itself. Control characters but tabs and line ends become spaces. Fails where memory runs out; the item
    /// is dropped then.
    pub fn with_comment(
        mut self,
        alloc: Global,
        comment: &str,
    ) -> Result<StandaloneItem<'a>, AllocError>
        ensures { IfOk result (λ t. standalone_tree t ≡ commented comment.now (standalone_tree self.entry)) }
    {
        self.set_comment(alloc, comment)?;
        Ok(self)
    }

    /// Puts a comment in place of all space in front of the item, written as by [`StandaloneItem::with_comment`]. Fails where memory runs
    /// out, and leaves the item as it was then.
    pub fn set_comment(&mut self, alloc: Global, comment: &str) -> Result<(), AllocError>
        ensures commented { OnOk result (standalone_tree self.new ≡ commented comment.now (standalone_tree self.old)) }
        ensures out_of_memory { IfErr result (λ _. standalone_tree self.new ≡ standalone_tree self.old) }
    {
        self.before = Space::note(alloc, comment)?;
        Ok(())
    }
}

impl<'a> Sequence<'a> {
    /// Gives the sequence the spaces of a policy, between its items and in them; embedded sequences stay. Under the indented policy each
    /// item begins a line. Fails where memory runs out: the items are the same then, and some spaces may be those of the policy already.
    /// `DiscardAll` takes no memory. The indented policy measures each item, but no more of it than `max_width` allows: where this is very
    /// wide, a byte is measured as often as items nest round it.
    pub fn set_delimiters(
        &mut self,
        alloc: Global,
        policy: DelimiterPolicy,
    ) -> Result<(), AllocError>
        ensures laid { OnOk result (sequence_tree self.new ≡ laid_out policy (sequence_tree self.old)) }
        ensures items { items (sequence_tree self.new) ≡ items (sequence_tree self.old) }
        ensures discarded { policy ≡ policies.DiscardAll → IsOk result }
    {
        lay_sequence(self, alloc, Layout::of(policy))
    }

    /// The text that the sequence has under a policy, as [`Sequence::set_delimiters`] and [`Sequence::serialize`] give it, without a change
    /// of the sequence. Fails where memory runs out: beside the text it takes memory for one comment at a time.
    pub fn serialize_laid_out(
        &self,
        alloc: Global,
        policy: DelimiterPolicy,
    ) -> Result<String, AllocError>
        ensures { IfOk result (λ s. string_bytes s ≡ text (laid_out policy (sequence_tree self.now))) }
    {
        let mut out = TextBuffer::new(alloc);
        self.print_laid_out(&mut out, policy)?;
        Ok(out.into_string())
    }

    /// Writes the text that [`Sequence::serialize_laid_out`] gives at the end of another, which is quicker: the text is not tested. Fails
    /// where memory runs out, and a part of it may stand there then.
    pub fn print_laid_out(
        &self,
        out: &mut TextBuffer,
        policy: DelimiterPolicy,
    ) -> Result<(), AllocError>
        ensures { OnOk result (buffer_bytes out.new ≡ buffer_bytes out.old ++ text (laid_out policy (sequence_tree self.now))) }
    {
        print_sequence(out, self, &Layout::of(policy))
    }
}
