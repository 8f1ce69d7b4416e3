//! Public calls that read and write whole texts, under their own clauses. Bodies that these clauses refuse stand in `wrong/`: a check
//! here is that of a small crate, and what a clause refuses here it refuses where the call is written.
#![tactic(auto)]

ghost use Rattle.std.specs.Prelude.{◌≡◌, ◌≤◌, ◌+◌, ◌*◌, ◌≢◌, length, IfOk, IsOk, OnOk};
ghost use Rattle.std.specs.String.{string_bytes};
ghost use Rattle.cbor_edn_model.specs.text.Parsing.{Unparsed};
ghost use Rattle.cbor_edn_core.specs.text.Parsing.{ParsedSequence};
ghost use Rattle.cbor_edn_core.specs.tree.View.{item_tree, sequence_tree, standalone_tree};
ghost use Rattle.cbor_edn_model.specs.layout.Bare.{without_indicators};
ghost use Rattle.cbor_edn_model.specs.layout.Commented.{commented};
ghost use Rattle.cbor_edn_model.specs.cbor.Decoded.{alone, IsDecodedSequence, IsTooDeepSequence, NoSequence};
ghost use Rattle.cbor_edn_model.specs.layout.Fewer.{Fewer};
ghost use Rattle.cbor_edn_model.specs.layout.Layout.{laid_out};
ghost use Rattle.cbor_edn_model.specs.text.Spelling.{SpellsSequence};
ghost use Rattle.cbor_edn_model.specs.tree.Trees.{items, text};
ghost use Rattle.cbor_edn_parts.specs.base.Refusals.{IfTold};

use cbor_edn_core::cbor::decode::CborError;
use cbor_edn_core::tree::{Item, NESTING_LIMIT, Sequence, StandaloneItem};
use cbor_edn_parts::base::error::{Fault, ParseError};
use cbor_edn_parts::base::looks::Looks;
use cbor_edn_parts::space::policy::DelimiterPolicy;
use std::alloc::{AllocError, Global};

/// `Sequence::parse_within`.
pub fn parse_within<'a>(
    alloc: Global,
    input: &'a str,
    limit: usize,
) -> Result<Sequence<'a>, Fault<ParseError>>
    ensures parsed { IfOk result (ParsedSequence limit input.now) }
    ensures refused { IfTold result (Unparsed SpellsSequence limit input.now) }
{
    Sequence::parse_within(alloc, input, limit)
}

/// `Sequence::parse_counted`.
pub fn parse_counted<'a>(
    alloc: Global,
    input: &'a str,
    looks: &mut Looks,
) -> Result<Sequence<'a>, Fault<ParseError>>
    ensures parsed { IfOk result (ParsedSequence NESTING_LIMIT input.now) }
    ensures refused { IfTold result (Unparsed SpellsSequence NESTING_LIMIT input.now) }
    ensures most { looks.new.count ≤ looks.old.count + 16 * length input.now + 16 }
    ensures least { OnOk result (looks.old.count + length input.now ≤ looks.new.count) }
    ensures no_fewer { looks.old.count ≤ looks.new.count }
{
    Sequence::parse_counted(alloc, input, looks)
}

/// `Sequence::from_cbor_within`.
pub fn from_cbor_within<'a>(
    alloc: Global,
    bytes: &[u8],
    limit: usize,
) -> Result<Sequence<'a>, Fault<CborError>>
    ensures accepted { IfOk result (λ t. IsDecodedSequence limit bytes.now (sequence_tree t)) }
    ensures refused { IfTold result (λ e. e ≢ CborError.TooDeep → NoSequence bytes.now) }
    ensures too_deep { IfTold result (λ e. e ≡ CborError.TooDeep → IsTooDeepSequence limit bytes.now) }
{
    Sequence::from_cbor_within(alloc, bytes, limit)
}

/// `Sequence::discard_encoding_indicators`.
pub fn discard_encoding_indicators(
    sequence: &mut Sequence<'_>,
    alloc: Global,
) -> Result<(), AllocError>
    ensures without_indicators { OnOk result (sequence_tree sequence.new ≡ without_indicators (sequence_tree sequence.old)) }
    ensures fewer { Fewer (items (sequence_tree sequence.old)) (items (sequence_tree sequence.new)) }
{
    sequence.discard_encoding_indicators(alloc)
}

/// `StandaloneItem::set_comment`.
pub fn set_comment(
    item: &mut StandaloneItem<'_>,
    alloc: Global,
    comment: &str,
) -> Result<(), AllocError>
    ensures commented { OnOk result (standalone_tree item.new ≡ commented comment.now (standalone_tree item.old)) }
{
    item.set_comment(alloc, comment)
}

/// `Sequence::serialize_laid_out`.
pub fn serialize_laid_out(
    sequence: &Sequence<'_>,
    alloc: Global,
    policy: DelimiterPolicy,
) -> Result<String, AllocError>
    ensures { IfOk result (λ s. string_bytes s ≡ text (laid_out policy (sequence_tree sequence.now))) }
{
    sequence.serialize_laid_out(alloc, policy)
}

/// `Sequence::set_delimiters`.
pub fn set_delimiters(
    sequence: &mut Sequence<'_>,
    alloc: Global,
    policy: DelimiterPolicy,
) -> Result<(), AllocError>
    ensures laid { OnOk result (sequence_tree sequence.new ≡ laid_out policy (sequence_tree sequence.old)) }
    ensures items { items (sequence_tree sequence.new) ≡ items (sequence_tree sequence.old) }
    ensures discarded { policy ≡ DelimiterPolicy.DiscardAll → IsOk result }
{
    sequence.set_delimiters(alloc, policy)
}

/// `Item::with_comment`.
pub fn with_comment<'a>(
    item: Item<'a>,
    alloc: Global,
    comment: &str,
) -> Result<StandaloneItem<'a>, AllocError>
    ensures { IfOk result (λ t. standalone_tree t ≡ commented comment.now (alone (item_tree item.entry))) }
{
    item.with_comment(alloc, comment)
}
