//! The integers of items.
ghost use Rattle.std.specs.Prelude.{◌≡◌};
ghost use Rattle.cbor_edn_core.specs.tree.View.{item_tree};
ghost use Rattle.cbor_edn_conversions.specs.Integers.{item_integer};

use cbor_edn_core::tree::Item;

/// The integer of an integer literal, where it is one of `i128`.
pub(crate) fn integer_of(item: &Item<'_>) -> Option<i128>
    ensures { result ≡ item_integer (item_tree item.now) }
{
    match item.get_integer() {
        Ok(integer) => Some(integer),
        Err(_) => None,
    }
}
