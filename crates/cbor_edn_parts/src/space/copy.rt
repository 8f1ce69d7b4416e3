//! Copies of spaces.
ghost use Rattle.std.specs.Prelude.{◌≡◌, IfOk};
ghost use Rattle.cbor_edn_parts.specs.Leaves.{space_bytes};

use crate::space::Space;
use std::alloc::AllocError;

/// Copies of the space before and the space after an item. Fails where memory runs out.
pub fn clone_spaces<'a>(
    before: &Space<'a>,
    after: &Space<'a>,
) -> Result<(Space<'a>, Space<'a>), AllocError>
    ensures { IfOk result (λ p. (space_bytes p.0 ≡ space_bytes before.now) × (space_bytes p.1 ≡ space_bytes after.now)) }
{
    let before = before.clone()?;
    let after = after.clone()?;
    Ok((before, after))
}
