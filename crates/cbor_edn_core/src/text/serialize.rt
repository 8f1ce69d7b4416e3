//! The text of a tree.
ghost use Rattle.std.specs.Prelude.{◌≡◌, ◌++◌, OnOk, IfOk};
ghost use Rattle.std.specs.String.{string_bytes};
ghost use Rattle.cbor_edn_parts.specs.base.Buffer.{buffer_bytes};
ghost use Rattle.cbor_edn_model.specs.tree.Trees.{text, items};
ghost use Rattle.cbor_edn_model.specs.text.Spelling.{Spells, SpellsSequence, SpellsOne};
ghost use Rattle.cbor_edn_core.specs.tree.View.{item_tree, standalone_tree, sequence_tree};

use crate::layout::print::{print_item, print_sequence, print_standalone};
use crate::tree::{Item, Sequence, StandaloneItem};
use cbor_edn_parts::base::buffer::TextBuffer;
use cbor_edn_parts::space::layout::Layout;
use std::alloc::{AllocError, Global};

impl Item<'_> {
    /// The text of the item, without space round it: that which was read, where nothing was changed. Fails where memory runs out.
    #[tactic(auto, using(cbor_edn_model::proofs::lemmas::layout::LaidTrees::laid_kept))]
    pub fn serialize(&self, alloc: Global) -> Result<String, AllocError>
        ensures text { IfOk result (λ s. string_bytes s ≡ text (item_tree self.now)) }
        ensures spells { IfOk result (λ s. Spells (items (item_tree self.now)) (string_bytes s)) }
    {
        let mut out = TextBuffer::new(alloc);
        print_item(&mut out, self, &Layout::Kept)?;
        Ok(out.into_string())
    }
}

impl StandaloneItem<'_> {
    /// The text of the item, with the spaces round it: that which was read, where nothing was changed. Fails where memory runs out.
    #[tactic(auto, using(cbor_edn_model::proofs::lemmas::layout::LaidTrees::laid_kept))]
    pub fn serialize(&self, alloc: Global) -> Result<String, AllocError>
        ensures text { IfOk result (λ s. string_bytes s ≡ text (standalone_tree self.now)) }
        ensures spells { IfOk result (λ s. SpellsOne (items (standalone_tree self.now)) (string_bytes s)) }
    {
        let mut out = TextBuffer::new(alloc);
        print_standalone(&mut out, self, &Layout::Kept)?;
        Ok(out.into_string())
    }
}

impl Sequence<'_> {
    /// The text of the items, with the spaces round them: that which was read, where nothing was changed. Fails where memory runs out.
    pub fn serialize(&self, alloc: Global) -> Result<String, AllocError>
        ensures text { IfOk result (λ s. string_bytes s ≡ text (sequence_tree self.now)) }
        ensures spells { IfOk result (λ s. SpellsSequence (items (sequence_tree self.now)) (string_bytes s)) }
    {
        let mut out = TextBuffer::new(alloc);
        self.print(&mut out)?;
        Ok(out.into_string())
    }

    /// Writes the text that [`Sequence::serialize`] gives at the end of another, which is quicker: the text is not tested. Fails where
    /// memory runs out, and a part of it may stand there then.
    #[tactic(auto, using(cbor_edn_model::proofs::lemmas::layout::LaidTrees::laid_kept))]
    pub fn print(&self, out: &mut TextBuffer) -> Result<(), AllocError>
        ensures { OnOk result (buffer_bytes out.new ≡ buffer_bytes out.old ++ text (sequence_tree self.now)) }
    {
        print_sequence(out, self, &Layout::Kept)
    }
}
