//! Laws of trees: each function's contract is one, and its body does nothing.
ghost use Rattle.cbor_edn_model.specs.text.Spelling.{Spells, SpellsOne, SpellsSequence};
ghost use Rattle.cbor_edn_model.specs.tree.Trees.{items, text};
ghost use Rattle.cbor_edn_core.specs.tree.View.{item_tree, standalone_tree, sequence_tree};

use crate::tree::{Item, Sequence, StandaloneItem};

/// However an item was made, its text spells it: known without memory, which printing takes.
#[tactic(auto, using(crate::proofs::lemmas::text::Printable::item_spelled))]
pub fn item_spells(item: &Item<'_>)
    ensures { Spells (items (item_tree item.now)) (text (item_tree item.now)) }
{
    let _ = item;
}

/// However an item with spaces round it was made, its text spells the item: known without memory, which printing takes.
#[tactic(auto, using(crate::proofs::lemmas::text::Printable::standalone_spelled))]
pub fn standalone_spells(item: &StandaloneItem<'_>)
    ensures { SpellsOne (items (standalone_tree item.now)) (text (standalone_tree item.now)) }
{
    let _ = item;
}

/// However a sequence was made, its text spells its items: known without memory, which printing takes.
#[tactic(auto, using(crate::proofs::lemmas::text::Printable::sequence_spelled))]
pub fn sequence_spells(sequence: &Sequence<'_>)
    ensures { SpellsSequence (items (sequence_tree sequence.now)) (text (sequence_tree sequence.now)) }
{
    let _ = sequence;
}
