//! Bytes that encode one item: decoded and encoded again, which gives the same bytes.
ghost use Rattle.std.specs.Prelude.{◌≡◌, ◌≢◌, ℕ, List, Some, IfOk};
ghost use Rattle.std.specs.String.{string_bytes};
ghost use Rattle.cbor_edn_parts.specs.base.Refusals.{IfTold};
ghost use Rattle.cbor_edn_model.specs.tree.Trees.{items};
ghost use Rattle.cbor_edn_core.specs.tree.View.{standalone_tree};
ghost use Rattle.cbor_edn_model.specs.text.Spelling.{SpellsOne};
ghost use Rattle.cbor_edn_model.specs.cbor.Value.{Value, Enc};
ghost use Rattle.cbor_edn_model.specs.cbor.Meaning.{means};
ghost use Rattle.cbor_edn_model.specs.cbor.Decoded.{NoneIs, IsTooDeepEncoding};
ghost use Rattle.cbor_edn.specs.Recoding.{IsTextOfItem};

use crate::boxed::boxed;
use cbor_edn_core::cbor::decode::CborError;
use cbor_edn_core::tree::{NESTING_LIMIT, StandaloneItem};
use cbor_edn_parts::base::error::Fault;
use cbor_edn_parts::space::policy::DelimiterPolicy;
use std::alloc::{AllocError, Global};

/// The bytes that the item of an encoding is encoded as by way of its text, which has the spaces of each policy in turn and is parsed
/// again: those that were given. Fails as `StandaloneItem::from_cbor` does, and where memory runs out.
pub fn recoded_by_text(
    alloc: Global,
    bytes: &[u8],
    policies: &[DelimiterPolicy],
) -> Result<Vec<u8>, Fault<CborError>>
    ensures same { IfOk result (λ b. b.items ≡ bytes.now) }
    ensures refused { IfTold result (λ e. e ≢ CborError.TooDeep → NoneIs (Enc bytes.now)) }
    ensures too_deep { IfTold result (λ e. e ≡ CborError.TooDeep → IsTooDeepEncoding NESTING_LIMIT bytes.now (Enc bytes.now)) }
{
    let text = decoded_text(alloc, bytes, policies)?;
    Ok(read_and_encoded(alloc, text.as_str())?)
}

/// The encoding of an item that means something.
fn to_cbor(alloc: Global, item: &StandaloneItem<'_>) -> Result<Vec<u8>, AllocError>
    requires { (v : Value) × (means (items (standalone_tree item.now)) ≡ Some v) }
    ensures { IfOk result (λ b. (v : Value) × (means (items (standalone_tree item.now)) ≡ Some v) × Enc b.items v) }
{
    match item.to_cbor(alloc) {
        Ok(bytes) => Ok(bytes),
        Err(Fault::Memory(refused)) => Err(refused),
        Err(Fault::Told(_)) => unreachable!(),
    }
}

/// The text of the item that the bytes encode, after the policies.
fn decoded_text(
    alloc: Global,
    bytes: &[u8],
    policies: &[DelimiterPolicy],
) -> Result<String, Fault<CborError>>
    ensures text { IfOk result (λ t. IsTextOfItem NESTING_LIMIT bytes.now (string_bytes t)) }
    ensures refused { IfTold result (λ e. e ≢ CborError.TooDeep → NoneIs (Enc bytes.now)) }
    ensures too_deep { IfTold result (λ e. e ≡ CborError.TooDeep → IsTooDeepEncoding NESTING_LIMIT bytes.now (Enc bytes.now)) }
{
    let mut item: Box<StandaloneItem<'_>> = boxed(alloc, StandaloneItem::from_cbor(alloc, bytes))?;
    Ok(laid_out_text(alloc, &mut item, policies)?)
}

/// The text after each policy in turn.
fn laid_out_text(
    alloc: Global,
    item: &mut StandaloneItem<'_>,
    policies: &[DelimiterPolicy],
) -> Result<String, AllocError>
    ensures { IfOk result (λ t. SpellsOne (items (standalone_tree item.old)) (string_bytes t)) }
{
    for policy in policies {
        item.set_delimiters(alloc, *policy)?;
    }
    item.serialize(alloc)
}

/// The bytes that a text is of.
fn read_and_encoded(alloc: Global, text: &str) -> Result<Vec<u8>, AllocError>
    requires { (bytes : List ℕ) × IsTextOfItem NESTING_LIMIT bytes text.now }
    ensures { IfOk result (λ b. IsTextOfItem NESTING_LIMIT b.items text.now) }
{
    match boxed(alloc, StandaloneItem::parse(alloc, text)) {
        Ok(item) => to_cbor(alloc, &item),
        Err(Fault::Memory(refused)) => Err(refused),
        Err(Fault::Told(_)) => unreachable!(),
    }
}
