//! Rows that were read, with their ends.
ghost use Rattle.std.specs.Prelude.{◌≡◌, map, option_map};
ghost use Rattle.cbor_edn_core.specs.tree.View.{item_tree, view_items, view_pair, view_pairs, view_string, view_strings};
ghost use Rattle.cbor_edn_model.specs.tree.TreeLeaves.{texts};
ghost use Rattle.cbor_edn_model.specs.internal.CborReading.{row_of, element_row, string_row};
ghost use Rattle.cbor_edn_core.specs.internal.RowBuilder.{grown};

use super::row_builder::RowBuilder;
use crate::tree::{CborString, Item, Items, Pair, Pairs, Strings};
use cbor_edn_parts::space::ListEnd;

pub(super) fn finish_items<'a>(found: RowBuilder<'a, Item<'a>>) -> Option<Items<'a>>
    ensures { option_map (view_items texts) result ≡ element_row (map item_tree (grown found.entry)) }
{
    let row = found.row;
    let last = found.last;
    let Some(last) = last else {
        return None;
    };
    Some(Items {
        row,
        last,
        end: ListEnd::empty(),
    })
}

pub(super) fn finish_pairs<'a>(found: RowBuilder<'a, Pair<'a>>) -> Option<Pairs<'a>>
    ensures { option_map (view_pairs texts) result ≡ row_of (map (view_pair texts) (grown found.entry)) }
{
    let row = found.row;
    let last = found.last;
    let Some(last) = last else {
        return None;
    };
    Some(Pairs {
        row,
        last,
        end: ListEnd::empty(),
    })
}

pub(super) fn finish_strings<'a>(found: RowBuilder<'a, CborString<'a>>) -> Option<Strings<'a>>
    ensures { option_map (view_strings texts) result ≡ string_row (map (view_string texts) (grown found.entry)) }
{
    let row = found.row;
    let last = found.last;
    let Some(last) = last else {
        return None;
    };
    Some(Strings {
        row,
        last,
        end: ListEnd::empty(),
    })
}
