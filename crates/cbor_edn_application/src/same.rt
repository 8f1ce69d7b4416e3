//! Comparison of items by their encodings.
ghost use Rattle.std.specs.Prelude.{◌≡◌, IfOk, option_map};
ghost use Rattle.cbor_edn_conversions.specs.Conversions.{item_encoding, mean_the_same};
ghost use Rattle.cbor_edn_model.specs.cbor.Value.{AreBytes};
ghost use Rattle.cbor_edn_core.specs.tree.View.{item_tree};

use cbor_edn_core::tree::Item;
use cbor_edn_parts::base::error::Fault;
use std::alloc::{AllocError, Global};

/// Whether both items mean something, and have the same encoding. Fails where memory runs out.
pub(crate) fn mean_the_same(
    alloc: Global,
    one: &Item<'_>,
    other: &Item<'_>,
) -> Result<bool, AllocError>
    ensures { IfOk result (λ b. b ≡ mean_the_same (item_tree one.now) (item_tree other.now)) }
{
    let Some(bytes) = encoding(alloc, one)? else {
        return Ok(false);
    };
    let Some(other_bytes) = encoding(alloc, other)? else {
        return Ok(false);
    };
    Ok(bytes == other_bytes)
}

/// The encoding of an item, or none where it means nothing.
pub(crate) fn encoding(alloc: Global, item: &Item<'_>) -> Result<Option<Vec<u8>>, AllocError>
    ensures { IfOk result (λ o. option_map (λ v. v.items) o ≡ item_encoding (item_tree item.now)) }
{
    match item.to_cbor(alloc) {
        Ok(bytes) => {
            are_bytes(&bytes);
            Ok(Some(bytes))
        }
        Err(Fault::Told(_)) => Ok(None),
        Err(Fault::Memory(refused)) => Err(refused),
    }
}

/// Nothing: the clause is what the type says, as the law of encodings asks for it.
pub(crate) fn are_bytes(bytes: &[u8])
    ensures { AreBytes bytes.now }
{
    let _ = bytes;
}
