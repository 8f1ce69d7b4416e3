//! The names of keys in the claims sets of a sequence.
ghost use Rattle.std.specs.Prelude.{◌≡◌, IfOk, OnOk};
ghost use Rattle.cbor_edn_core.specs.tree.View.{sequence_tree};
ghost use Rattle.cbor_edn_model.specs.tree.Trees.{items};
ghost use Rattle.cbor_edn_conversions.specs.CoseKeys.{with_key_names};
ghost use Rattle.cbor_edn_application.specs.Sequences.{with_each, IsChangedAt};

use crate::cose::comment_keys;
use cbor_edn_core::tree::Sequence;
use std::alloc::{AllocError, Global};

/// Puts the names of COSE keys (RFC 9052, section 7.1; RFC 9053, section 7) into the claim `cnf` of each item of a sequence that is a map:
/// `{8: {1/ COSE_Key /: {1/ kty /: 2/ EC2 /, -1/ crv /: 1/ P-256 /}}}`. Other items are passed over. Fails where memory runs out; some of
/// the comments are there then.
pub fn comment_claims_keys(alloc: Global, sequence: &mut Sequence<'_>) -> Result<(), AllocError>
    ensures keys { OnOk result (sequence_tree sequence.new ≡ with_each with_key_names (sequence_tree sequence.old)) }
    ensures items { items (sequence_tree sequence.new) ≡ items (sequence_tree sequence.old) }
{
    for index in 0..usize::MAX {
        if !comment_at(alloc, sequence, index)? {
            return Ok(());
        }
    }
    // No sequence in memory has so many items.
    Err(AllocError)
}

/// Puts the names into the claim `cnf` of the map at an index. Another item is passed over. False where none is there.
fn comment_at(alloc: Global, sequence: &mut Sequence<'_>, index: usize) -> Result<bool, AllocError>
    ensures keys { IfOk result (λ there. IsChangedAt with_key_names index there (sequence_tree sequence.old) (sequence_tree sequence.new)) }
    ensures items { items (sequence_tree sequence.new) ≡ items (sequence_tree sequence.old) }
{
    match sequence.at_mut(&[index]) {
        Some(item) => {
            comment_keys(alloc, item)?;
            Ok(true)
        }
        None => Ok(false),
    }
}
