//! Rows that grow at their end.
ghost use Rattle.std.specs.Prelude.{◌≡◌, ◌++◌, ◌∷◌, [], map, OnOk, None};
ghost use Rattle.cbor_edn_parts.specs.Leaves.{separator_bytes};

use cbor_edn_parts::base::row::append;
use cbor_edn_parts::space::Separator;
use std::alloc::{AllocError, Global};

/// Entries that are read one behind the other.
#[derive(Drop)]
pub(crate) struct RowBuilder<'a, T: Drop> {
    pub(super) row: Vec<(T, Separator<'a>)>,
    pub(super) last: Option<T>,
    pub ghost commas: { map (λ p. separator_bytes p.1) row.items ≡ map (λ _. 44 ∷ 32 ∷ []) row.items },
    pub ghost started: { last ≡ None → row.items ≡ [] },
}

impl<'a, T: Drop> RowBuilder<'a, T> {
    ghost use Rattle.cbor_edn_core.specs.internal.RowBuilder.{grown};

    /// No entries.
    pub(super) fn new(alloc: Global) -> RowBuilder<'a, T>
        ensures { grown result ≡ [] }
    {
        RowBuilder {
            row: Vec::new(alloc),
            last: None,
        }
    }

    /// One entry more. Fails where memory runs out, and then has it none the less.
    #[inline(never)]
    pub(super) fn push(&mut self, entry: T) -> Result<(), AllocError>
        ensures { OnOk result (grown self.new ≡ grown self.old ++ entry ∷ []) }
    {
        match std::mem::replace(&mut self.last, Some(entry)) {
            None => Ok(()),
            Some(last) => append(&mut self.row, (last, Separator::comma_space())),
        }
    }
}
