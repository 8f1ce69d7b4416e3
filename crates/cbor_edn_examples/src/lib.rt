//! Uses of `cbor_edn`, as a caller writes them: each contract follows from those of the calls alone.
#![tactic(auto)]

ghost use Rattle.std.specs.Prelude.{◌≡◌, ◌≤◌, Some, None, IsNone, IfOk, IsErr, OnOk};
ghost use Rattle.std.specs.Option.{OnSome};
ghost use Rattle.std.specs.String.{string_bytes};
ghost use Rattle.cbor_edn.specs.Decoded.{items_of, IsDecodedSequence};
ghost use Rattle.cbor_edn.specs.Items.{Items, nesting};
ghost use Rattle.cbor_edn.specs.Lent.{with_tag_content};
ghost use Rattle.cbor_edn.specs.Meaning.{means};
ghost use Rattle.cbor_edn.specs.Paths.{at_sequence, with_at_sequence};
ghost use Rattle.cbor_edn.specs.Seeking.{IsTag, IsApplication};
ghost use Rattle.cbor_edn.specs.Spelling.{SpellsSequence};
ghost use Rattle.cbor_edn.specs.Trees.{Tree, Seq, items, text};
ghost use Rattle.cbor_edn.specs.Value.{Value, Values, ValuesFit, Enc, EncAll};
ghost use Rattle.cbor_edn.specs.Visits.{whole};
ghost use Rattle.cbor_edn.specs.Refusals.{IfTold};
ghost use Rattle.cbor_edn.specs.Callbacks.{ending};
ghost use Rattle.cbor_edn.specs.View.{item_tree, sequence_tree, standalone_tree};
ghost use Rattle.cbor_edn.specs.All.{resolve_all, pretty_all};
ghost use Rattle.cbor_edn.specs.Acts.{IsVisited};
ghost use Rattle.cbor_edn.specs.Sequences.{with_claims_sets};

pub mod devices;
pub mod made;
pub mod visits;

use cbor_edn::application::laws::calls_resolve_again;
use cbor_edn::application::visits::{annotate_claims_sets, prettify, resolve};
use cbor_edn::application::{all_aol_to_item, all_tag_prettify};
use cbor_edn::engine::RunError;
use cbor_edn::{
    DelimiterPolicy, Fault, InconsistentEdn, Item, Sequence, StandaloneItem, TypeMismatch,
};
use std::alloc::{AllocError, Global};

/// The CBOR that a text means, as for a commented configuration that ships as CBOR. Fails where the text is no EDN, nests too
/// deep or means nothing, and where memory runs out.
pub fn shipped(alloc: Global, text: &str) -> Result<Vec<u8>, RunError>
    ensures { IfOk result (λ b. (x : Items) × (vs : Values) × SpellsSequence x text.now × (nesting x ≤ 512) × (means x ≡ Some vs) × EncAll b.items vs) }
{
    let sequence = Sequence::parse(alloc, text)?;
    Ok(sequence.to_cbor(alloc)?)
}

/// The indented text of what bytes encode, as for a token or a signed object that is looked into. Fails where they encode
/// nothing that can be shown or nests too deep, and where memory runs out.
pub fn shown(alloc: Global, bytes: &[u8]) -> Result<String, RunError>
    ensures { IfOk result (λ s. (vs : Values) × EncAll bytes.now vs × SpellsSequence (items_of vs) (string_bytes s)) }
{
    let mut sequence: Sequence<'_> = Sequence::from_cbor(alloc, bytes)?;
    sequence.set_delimiters(alloc, DelimiterPolicy::indented())?;
    Ok(sequence.serialize(alloc)?)
}

/// Puts another content into a tag, as for a token that is wrapped anew. Fails where the item is no tag; it stays then.
pub fn retagged<'a>(item: &mut Item<'a>, content: StandaloneItem<'a>) -> Result<(), TypeMismatch>
    ensures replaced { IfOk result (λ _. item_tree item.new ≡ with_tag_content (standalone_tree content.entry) (item_tree item.old)) }
    ensures refused { IsErr result → item.new ≡ item.old }
{
    *item.get_tagged_mut()? = content;
    Ok(())
}

/// Puts another item where a path leads, as for one value of a configuration. None where the path leads nowhere; the sequence
/// stays then.
pub fn replaced<'a>(sequence: &mut Sequence<'a>, path: &[usize], item: Item<'a>) -> Option<()>
    ensures placed { OnSome result (sequence_tree sequence.new ≡ with_at_sequence path.now (item_tree item.entry) (sequence_tree sequence.old)) }
    ensures nowhere { IsNone result → (at_sequence path.now (sequence_tree sequence.old) ≡ None) × (sequence_tree sequence.new ≡ sequence_tree sequence.old) }
{
    match sequence.at_mut(path) {
        Some(place) => {
            *place = item;
            Some(())
        }
        None => None,
    }
}

/// Shows times, addresses and bignums as people read them, works on the text in between, say, and puts back what they stand for. Where the
/// items were decoded, they mean what they meant. Fails where memory runs out.
pub fn prettified_and_resolved(alloc: Global, sequence: &mut Sequence<'_>) -> Result<(), AllocError>
    ensures visits { OnOk result ((pretty : Tree Seq) × IsVisited IsTag pretty_all (sequence_tree sequence.old) whole pretty × IsVisited IsApplication resolve_all pretty whole (sequence_tree sequence.new)) }
    ensures meant { OnOk result ((vs : Values) → ValuesFit vs → items (sequence_tree sequence.old) ≡ items_of vs → means (items (sequence_tree sequence.new)) ≡ Some vs) }
{
    prettify(alloc, sequence)?;
    resolve(alloc, sequence)?;
    calls_resolve_again();
    Ok(())
}

/// Shows the times, addresses and bignums of one item as people read them, by a visit of its tags. Fails where memory runs out; the calls
/// up to there are made then.
pub fn prettified(alloc: Global, item: &mut StandaloneItem<'_>) -> Result<(), AllocError>
    ensures { IsVisited IsTag pretty_all (standalone_tree item.old) (ending result) (standalone_tree item.new) }
{
    item.visit_tag(alloc, &mut |tag, item| all_tag_prettify(alloc, tag, item))
}

/// Puts back what the time and address literals of one item stand for, by a visit of its literals. Fails where memory runs out; the calls
/// up to there are made then.
pub fn resolved(alloc: Global, item: &mut StandaloneItem<'_>) -> Result<(), AllocError>
    ensures { IsVisited IsApplication resolve_all (standalone_tree item.old) (ending result) (standalone_tree item.new) }
{
    item.visit_application_literals(
        alloc,
        &mut |prefix, text, item| { all_aol_to_item(alloc, prefix, text, item) },
    )
}

/// The CBOR of an item that is shown as people read it and then put back: what `to_cbor` of the item answers without that. Fails where the
/// item meant nothing and still means nothing, and where memory runs out.
pub fn encoded_again(
    alloc: Global,
    item: &mut StandaloneItem<'_>,
) -> Result<Vec<u8>, Fault<InconsistentEdn>>
    ensures bytes { IfOk result (λ b. (v : Value) → means (items (standalone_tree item.old)) ≡ Some v → Enc b.items v) }
    ensures refused { IfTold result (λ _. means (items (standalone_tree item.old)) ≡ None) }
{
    prettified(alloc, item)?;
    resolved(alloc, item)?;
    calls_resolve_again();
    item.to_cbor(alloc)
}

/// The text of a token's claims with the names of their keys, and with its times as literals. Fails where the bytes encode nothing that can
/// be shown or nest too deep, and where memory runs out.
pub fn inspected(alloc: Global, bytes: &[u8]) -> Result<String, RunError>
    ensures { IfOk result (λ s. (w : Tree Seq) × IsDecodedSequence 512 bytes.now w × (string_bytes s ≡ text (with_claims_sets w))) }
{
    let mut sequence: Sequence<'_> = Sequence::from_cbor(alloc, bytes)?;
    annotate_claims_sets(alloc, &mut sequence)?;
    Ok(sequence.serialize(alloc)?)
}
