//! Lists of edits, under their own clauses. Bodies that these clauses refuse stand in `wrong/`: a check here is that of a small crate,
//! and what a clause refuses here it refuses where the call is written.
#![tactic(auto)]

ghost use Rattle.std.specs.Prelude.{IfErr, OnOk};
ghost use Rattle.cbor_edn_model.specs.tree.Trees.{items};
ghost use Rattle.cbor_edn_core.specs.tree.View.{sequence_tree};
ghost use Rattle.cbor_edn_script.specs.EditedItems.{Edited};
ghost use Rattle.cbor_edn_script.specs.Edits.{AreEdited, AreBegun};
ghost use Rattle.cbor_edn_script.specs.ReadingBack.{ReadsBackSequence};

use cbor_edn_core::tree::Sequence;
use cbor_edn_script::{Edit, ScriptError};
use std::alloc::Global;

/// `run`.
pub fn run<'a>(
    alloc: Global,
    sequence: &mut Sequence<'a>,
    edits: Vec<Edit<'a>>,
) -> Result<(), ScriptError>
    ensures edited { OnOk result (AreEdited edits.entry.items (sequence_tree sequence.old) (sequence_tree sequence.new)) }
    ensures items { OnOk result (Edited edits.entry.items (items (sequence_tree sequence.old)) (items (sequence_tree sequence.new))) }
    ensures out_of_memory { IfErr result (λ e. AreBegun edits.entry.items e.done (sequence_tree sequence.old) (sequence_tree sequence.new)) }
    ensures read_back { ReadsBackSequence (sequence_tree sequence.new) }
{
    cbor_edn_script::run(alloc, sequence, edits)
}
