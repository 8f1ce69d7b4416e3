//! Bytes that are decoded and encoded again, which gives the same bytes.
ghost use Rattle.std.specs.Prelude.{◌≡◌, ◌≢◌, ℕ, List, Some, IfOk};
ghost use Rattle.std.specs.String.{string_bytes};
ghost use Rattle.cbor_edn_parts.specs.base.Refusals.{IfTold};
ghost use Rattle.cbor_edn_model.specs.tree.Trees.{items};
ghost use Rattle.cbor_edn_core.specs.tree.View.{sequence_tree};
ghost use Rattle.cbor_edn_model.specs.text.Spelling.{SpellsSequence};
ghost use Rattle.cbor_edn_model.specs.cbor.Value.{Values, EncAll};
ghost use Rattle.cbor_edn_model.specs.cbor.Meaning.{means};
ghost use Rattle.cbor_edn_model.specs.cbor.Decoded.{NoSequence, IsTooDeepSequence};
ghost use Rattle.cbor_edn.specs.Recoding.{IsTextOfItems};

use crate::boxed::boxed;
use cbor_edn_core::cbor::decode::CborError;
use cbor_edn_core::tree::{NESTING_LIMIT, Sequence};
use cbor_edn_parts::base::error::Fault;
use cbor_edn_parts::space::policy::DelimiterPolicy;
use std::alloc::{AllocError, Global};

pub mod item;

/// The bytes that the items of an encoding are encoded as: those that were given. Fails as `Sequence::from_cbor` does, and where memory
/// runs out.
pub fn recoded(alloc: Global, bytes: &[u8]) -> Result<Vec<u8>, Fault<CborError>>
    ensures same { IfOk result (λ b. b.items ≡ bytes.now) }
    ensures refused { IfTold result (λ e. e ≢ CborError.TooDeep → NoSequence bytes.now) }
    ensures too_deep { IfTold result (λ e. e ≡ CborError.TooDeep → IsTooDeepSequence NESTING_LIMIT bytes.now) }
{
    let sequence: Box<Sequence<'_>> = boxed(alloc, Sequence::from_cbor(alloc, bytes))?;
    Ok(to_cbor(alloc, &sequence)?)
}

/// The bytes that the items of an encoding are encoded as by way of their text, which has the spaces of each policy in turn and is parsed
/// again: those that were given. Fails as `Sequence::from_cbor` does, and where memory runs out.
pub fn recoded_by_text(
    alloc: Global,
    bytes: &[u8],
    policies: &[DelimiterPolicy],
) -> Result<Vec<u8>, Fault<CborError>>
    ensures same { IfOk result (λ b. b.items ≡ bytes.now) }
    ensures refused { IfTold result (λ e. e ≢ CborError.TooDeep → NoSequence bytes.now) }
    ensures too_deep { IfTold result (λ e. e ≡ CborError.TooDeep → IsTooDeepSequence NESTING_LIMIT bytes.now) }
{
    let text = decoded_text(alloc, bytes, policies)?;
    Ok(read_and_encoded(alloc, text.as_str())?)
}

/// The encodings of items that mean something.
fn to_cbor(alloc: Global, sequence: &Sequence<'_>) -> Result<Vec<u8>, AllocError>
    requires { (vs : Values) × (means (items (sequence_tree sequence.now)) ≡ Some vs) }
    ensures { IfOk result (λ b. (vs : Values) × (means (items (sequence_tree sequence.now)) ≡ Some vs) × EncAll b.items vs) }
{
    match sequence.to_cbor(alloc) {
        Ok(bytes) => Ok(bytes),
        Err(Fault::Memory(refused)) => Err(refused),
        Err(Fault::Told(_)) => unreachable!(),
    }
}

/// The text of the items that the bytes encode, after the policies.
fn decoded_text(
    alloc: Global,
    bytes: &[u8],
    policies: &[DelimiterPolicy],
) -> Result<String, Fault<CborError>>
    ensures text { IfOk result (λ t. IsTextOfItems NESTING_LIMIT bytes.now (string_bytes t)) }
    ensures refused { IfTold result (λ e. e ≢ CborError.TooDeep → NoSequence bytes.now) }
    ensures too_deep { IfTold result (λ e. e ≡ CborError.TooDeep → IsTooDeepSequence NESTING_LIMIT bytes.now) }
{
    let mut sequence: Box<Sequence<'_>> = boxed(alloc, Sequence::from_cbor(alloc, bytes))?;
    Ok(laid_out_text(alloc, &mut sequence, policies)?)
}

/// The text after each policy in turn.
fn laid_out_text(
    alloc: Global,
    sequence: &mut Sequence<'_>,
    policies: &[DelimiterPolicy],
) -> Result<String, AllocError>
    ensures { IfOk result (λ t. SpellsSequence (items (sequence_tree sequence.old)) (string_bytes t)) }
{
    for policy in policies {
        sequence.set_delimiters(alloc, *policy)?;
    }
    sequence.serialize(alloc)
}

/// The bytes that a text is of.
fn read_and_encoded(alloc: Global, text: &str) -> Result<Vec<u8>, AllocError>
    requires { (bytes : List ℕ) × IsTextOfItems NESTING_LIMIT bytes text.now }
    ensures { IfOk result (λ b. IsTextOfItems NESTING_LIMIT b.items text.now) }
{
    match boxed(alloc, Sequence::parse(alloc, text)) {
        Ok(sequence) => to_cbor(alloc, &sequence),
        Err(Fault::Memory(refused)) => Err(refused),
        Err(Fault::Told(_)) => unreachable!(),
    }
}
