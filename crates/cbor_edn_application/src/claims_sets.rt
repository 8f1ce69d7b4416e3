//! Claims sets among the items of a sequence.
ghost use Rattle.std.specs.Prelude.{◌≡◌, IfOk, IfErr, OnOk};
ghost use Rattle.cbor_edn_core.specs.tree.View.{item_tree, sequence_tree};
ghost use Rattle.cbor_edn_parts.specs.declared.base.error.Fault.TheVariants.{Memory, Told};
ghost use Rattle.cbor_edn_core.specs.declared.access.TypeMismatch.{TypeMismatch};
ghost use Rattle.cbor_edn_model.specs.visit.Visits.{cut};
ghost use Rattle.cbor_edn_conversions.specs.Claims.{claim_key, with_claims};
ghost use Rattle.cbor_edn_application.specs.Handlers.{AreKeysVisited};
ghost use Rattle.cbor_edn_application.specs.Sequences.{with_claims_sets, AreClaimsBegun, IsAnnotatedAt, IsBegunAt};

use crate::visits::annotate_claims;
use cbor_edn_core::access::TypeMismatch;
use cbor_edn_core::tree::{Item, Sequence};
use cbor_edn_parts::base::error::Fault;
use std::alloc::{AllocError, Global};

/// Puts the comments of a claims set (RFC 8392) into each item of a sequence that is a map, and literals in the place of its times. Other
/// items are passed over, with maps in them too. Fails where memory runs out; what is annotated by then stays.
pub fn annotate_claims_sets(alloc: Global, sequence: &mut Sequence<'_>) -> Result<(), AllocError>
    ensures annotated { OnOk result (sequence_tree sequence.new ≡ with_claims_sets (sequence_tree sequence.old)) }
    ensures out_of_memory { IfErr result (λ _. AreClaimsBegun (sequence_tree sequence.old) (sequence_tree sequence.new)) }
{
    for index in 0..usize::MAX {
        if !annotate_at(alloc, sequence, index)? {
            return Ok(());
        }
    }
    // No sequence in memory has so many items.
    Err(AllocError)
}

/// Annotates the claims set at an index. Another item is passed over. False where none is there.
fn annotate_at(alloc: Global, sequence: &mut Sequence<'_>, index: usize) -> Result<bool, AllocError>
    ensures annotated { IfOk result (λ there. IsAnnotatedAt index there (sequence_tree sequence.old) (sequence_tree sequence.new)) }
    ensures out_of_memory { IfErr result (λ _. IsBegunAt index (sequence_tree sequence.old) (sequence_tree sequence.new)) }
{
    match sequence.at_mut(&[index]) {
        Some(item) => {
            annotate_map(alloc, item)?;
            Ok(true)
        }
        None => Ok(false),
    }
}

/// Annotates a claims set. An item that is no map stays.
fn annotate_map(alloc: Global, item: &mut Item<'_>) -> Result<(), AllocError>
    ensures annotated { OnOk result (item_tree item.new ≡ (with_claims (item_tree item.old)).1) }
    ensures out_of_memory { IfErr result (λ _. AreKeysVisited claim_key (item_tree item.old) cut (item_tree item.new)) }
{
    match annotate_claims(alloc, item) {
        Ok(()) => Ok(()),
        Err(fault) => passed_over(fault),
    }
}

/// An item of another type is no error.
fn passed_over(fault: Fault<TypeMismatch>) -> Result<(), AllocError>
    ensures told { OnOk result ((e : TypeMismatch) × (fault ≡ Told e)) }
    ensures out_of_memory { IfErr result (λ r. fault ≡ Memory r) }
{
    match fault {
        Fault::Memory(refused) => Err(refused),
        Fault::Told(_) => Ok(()),
    }
}
