//! Edits, and lists of them.
ghost use Rattle.std.specs.Prelude.{◌≡◌, IfErr, OnOk, OnErr};
ghost use Rattle.cbor_edn_core.specs.tree.View.{item_tree, sequence_tree};
ghost use Rattle.cbor_edn_model.specs.access.Paths.{with_at_sequence};
ghost use Rattle.cbor_edn_model.specs.tree.Trees.{items};
ghost use Rattle.cbor_edn_script.specs.EditedItems.{Edited};
ghost use Rattle.cbor_edn_script.specs.Edits.{tagged_at, IsEdited, IsBegun, AreEdited, AreBegun};
ghost use Rattle.cbor_edn_script.specs.ReadingBack.{ReadsBackSequence};

use cbor_edn_application::visits::{comment_tags, prettify, resolve, to_999};
use cbor_edn_core::tree::{Item, Sequence};
use cbor_edn_parts::space::policy::DelimiterPolicy;
use std::alloc::{AllocError, Global};
use thiserror::Error;

/// One edit of a sequence. Paths lead to items as those of [`Sequence::at_mut`] do.
#[derive(Drop)]
pub enum Edit<'a> {
    /// Gives the items the spaces of a policy.
    Delimit(DelimiterPolicy),
    /// Takes all encoding indicators away but those inside embedded sequences.
    Discard,
    /// Puts the item, with its own spaces, where the path leads. Nothing changes where it leads nowhere.
    Replace(Vec<usize>, Item<'a>),
    /// Puts the item where the path leads into a tag of this number. Nothing changes where it leads nowhere.
    TagAt(Vec<usize>, u64),
    /// Puts the comment behind each tag, also in embedded sequences.
    CommentTags(String),
    /// Puts time and address literals in the place of tags 1, 52 and 54, and integers in that of bignums.
    Prettify,
    /// Puts what they stand for in the place of time and address literals.
    Resolve,
    /// Puts tags 999 in the place of literals whose prefix means no bytes: `999(["foo", "bar"])` for `foo'bar'`.
    To999,
}

/// Why a list of edits was not done to its end: memory was refused.
#[derive(Clone, Copy, Debug, PartialEq, Eq, Error)]
#[error("Out of memory after {done} edits")]
pub struct ScriptError {
    /// How many edits were done before the one that was refused.
    pub done: usize,
}

/// Does the edits, one behind the other. Fails where memory is refused, with the number of edits that are done by then; the next one
/// stands as its own call leaves it. Whatever it answers, the text of the sequence is read back as the items that stand.
pub fn run<'a>(
    alloc: Global,
    sequence: &mut Sequence<'a>,
    edits: Vec<Edit<'a>>,
) -> Result<(), ScriptError>
    ensures edited { OnOk result (AreEdited edits.entry.items (sequence_tree sequence.old) (sequence_tree sequence.new)) }
    ensures items { OnOk result (Edited edits.entry.items (items (sequence_tree sequence.old)) (items (sequence_tree sequence.new))) }
    ensures out_of_memory { IfErr result (λ e. AreBegun edits.entry.items e.done (sequence_tree sequence.old) (sequence_tree sequence.new)) }
    ensures read_back { ReadsBackSequence (sequence_tree sequence.new) }
{
    let mut done: usize = 0;
    for edit in edits {
        match edit.apply(alloc, sequence) {
            Ok(()) => done += 1,
            Err(_) => return Err(ScriptError { done }),
        }
    }
    Ok(())
}

impl<'a> Edit<'a> {
    /// Does the edit.
    fn apply(self, alloc: Global, sequence: &mut Sequence<'a>) -> Result<(), AllocError>
        ensures edited { OnOk result (IsEdited self.entry (sequence_tree sequence.old) (sequence_tree sequence.new)) }
        ensures begun { OnErr result (IsBegun self.entry (sequence_tree sequence.old) (sequence_tree sequence.new)) }
    {
        match self {
            Edit::Delimit(policy) => sequence.set_delimiters(alloc, policy),
            Edit::Discard => sequence.discard_encoding_indicators(alloc),
            Edit::Replace(path, item) => {
                replace_at(sequence, &path, item);
                Ok(())
            }
            Edit::TagAt(path, number) => tag_at(alloc, sequence, &path, number),
            Edit::CommentTags(comment) => comment_tags(alloc, sequence, comment.as_str()),
            Edit::Prettify => prettify(alloc, sequence),
            Edit::Resolve => resolve(alloc, sequence),
            Edit::To999 => to_999(alloc, sequence),
        }
    }
}

/// Puts another item where a path leads.
fn replace_at<'a>(sequence: &mut Sequence<'a>, path: &[usize], item: Item<'a>)
    ensures { sequence_tree sequence.new ≡ with_at_sequence path.now (item_tree item.entry) (sequence_tree sequence.old) }
{
    if let Some(place) = sequence.at_mut(path) {
        *place = item;
    }
}

/// Puts the item where a path leads into a tag. Fails where memory is refused, and leaves the sequence as it was then.
fn tag_at<'a>(
    alloc: Global,
    sequence: &mut Sequence<'a>,
    path: &[usize],
    number: u64,
) -> Result<(), AllocError>
    ensures tagged { OnOk result (sequence_tree sequence.new ≡ tagged_at path.now number (sequence_tree sequence.old)) }
    ensures out_of_memory { OnErr result (sequence_tree sequence.new ≡ sequence_tree sequence.old) }
{
    match sequence.at_mut(path) {
        Some(item) => item.put_into_tag(alloc, number),
        None => Ok(()),
    }
}
