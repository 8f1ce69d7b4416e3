//! How deep an embedded sequence nests.
ghost use Rattle.std.specs.Prelude.{◌≡◌};
ghost use Rattle.cbor_edn_model.specs.visit.Depth.{embedded_depth};
ghost use Rattle.cbor_edn_model.specs.internal.Widths.{capped};

/// How deep a piece `<<..>>` nests whose items nest so deep, or the greatest number where it is more. A visit enters what a call
/// left only where it nests no deeper than what was there: without this level a call could put a string round itself without end.
pub fn depth_of_embedded(items: usize) -> usize
    ensures { result ≡ capped (embedded_depth items) }
{
    items.saturating_add(1)
}
