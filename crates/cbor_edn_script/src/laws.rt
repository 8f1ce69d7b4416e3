//! Laws of edits and of what they leave. Each function's contract is one, and its body does nothing.
ghost use Rattle.cbor_edn_core.specs.tree.View.{item_tree, sequence_tree, standalone_tree};
ghost use Rattle.cbor_edn_script.specs.EditedItems.{EditsItems, BegunEditsItems, EditedOnce, ItemsEditedOnce};
ghost use Rattle.cbor_edn_script.specs.ReadingBack.{ReadsBackItem, ReadsBackSequence, ReadsBackStandalone};

use cbor_edn_core::tree::{Item, Sequence, StandaloneItem};

/// What edits leave of a tree is what they leave of its items.
pub fn edits_items()
    ensures done { EditsItems }
    ensures begun { BegunEditsItems }
{}

/// A list of edits has one result.
pub fn edited_once()
    ensures trees { EditedOnce }
    ensures items { ItemsEditedOnce }
{}

/// Whatever edits were made, and whatever became of memory meanwhile: the text of a sequence spells the items that stand, and is read back
/// as them. The parser that is handed a limit which holds their nesting does not refuse it.
pub fn sequence_reads_back(sequence: &Sequence<'_>)
    ensures { ReadsBackSequence (sequence_tree sequence.now) }
{
    let _ = sequence;
}

/// However it was made or edited: the text of an item with the spaces round it spells the item, and is read back as it. The parser that
/// is handed a limit which holds its nesting does not refuse it.
pub fn standalone_reads_back(item: &StandaloneItem<'_>)
    ensures { ReadsBackStandalone (standalone_tree item.now) }
{
    let _ = item;
}

/// However it was made or edited: the text of an item alone spells the item, and is read back as it, as a standalone one. The parser that
/// is handed a limit which holds its nesting does not refuse it.
pub fn item_reads_back(item: &Item<'_>)
    ensures { ReadsBackItem (item_tree item.now) }
{
    let _ = item;
}
