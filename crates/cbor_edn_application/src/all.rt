//! All conversions in one function: at most one of them does something, by the prefix of a literal and by the number of a tag.
ghost use Rattle.std.specs.String.{string_bytes};
ghost use Rattle.cbor_edn_core.specs.visit.Sought.{sought_answer};
ghost use Rattle.cbor_edn_core.specs.tree.View.{item_tree};
ghost use Rattle.cbor_edn_model.specs.visit.Seeking.{number, prefix_and_text};
ghost use Rattle.cbor_edn_conversions.specs.All.{resolve_all, pretty_all};
ghost use Rattle.cbor_edn_application.specs.Acts.{ActsBy};

use crate::address::{ip_aol_to_item, ip_tag_to_aol};
use crate::bignum::tag23_to_edn_integer;
use crate::time::{dt_aol_to_item, dt_tag_to_aol};
use cbor_edn_core::tree::Item;
use cbor_edn_parts::base::error::CallbackError;
use std::alloc::Global;

/// Puts what they stand for in the place of the time and address literals `dt'..'`, `DT'..'`, `ip'..'` and `IP'..'`. Literals of other
/// prefixes stay. Answers a comment where the text is no time or no address; where memory runs out the item is as before.
pub fn all_aol_to_item<'a>(
    alloc: Global,
    prefix: String,
    text: String,
    item: &mut Item<'a>,
) -> Result<(), CallbackError>
    ensures { ActsBy resolve_all (prefix_and_text (string_bytes prefix) (string_bytes text)) (item_tree item.old) (sought_answer result) (item_tree item.new) }
{
    match prefix.as_str() {
        "dt" | "DT" => dt_aol_to_item(alloc, prefix, text, item),
        _ => ip_aol_to_item(alloc, prefix, text, item),
    }
}

/// Puts time and address literals in the place of tags 1, 52 and 54, and integers in that of bignums, tags 2 and 3. Other tags stay.
/// Answers a comment where there is no literal for a tag 1, 52 or 54; where memory runs out the item is as before.
pub fn all_tag_prettify<'a>(
    alloc: Global,
    tag: u64,
    item: &mut Item<'a>,
) -> Result<(), CallbackError>
    ensures { ActsBy pretty_all (number tag) (item_tree item.old) (sought_answer result) (item_tree item.new) }
{
    match tag {
        1 => dt_tag_to_aol(alloc, tag, item),
        52 | 54 => ip_tag_to_aol(alloc, tag, item),
        _ => tag23_to_edn_integer(alloc, tag, item),
    }
}
