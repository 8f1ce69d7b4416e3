//! Trees in boxes: a proof writes out what a function holds, and of a box only that it is one.
ghost use Rattle.std.specs.Prelude.{◌≡◌, IfOk, Ok, Err};
ghost use Rattle.cbor_edn_parts.specs.base.Refusals.{IfTold};
ghost use Rattle.cbor_edn_parts.specs.declared.base.error.Fault.TheVariants.{Told};

use cbor_edn_parts::base::error::Fault;
use std::alloc::Global;

/// The value of an answer in a box. Fails as the answer does, and where memory runs out.
pub(crate) fn boxed<T: Drop, E: Drop>(
    alloc: Global,
    answer: Result<T, Fault<E>>,
) -> Result<Box<T>, Fault<E>>
    ensures ok { IfOk result (λ b. answer ≡ Ok b.value) }
    ensures told { IfTold result (λ e. answer ≡ Err (Told e)) }
{
    Ok(Box::new(alloc, answer?)?)
}
