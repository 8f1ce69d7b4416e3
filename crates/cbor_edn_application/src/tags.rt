//! The parts of tags that callbacks are called with.
ghost use Rattle.std.specs.Prelude.{◌≡◌, option_map};
ghost use Rattle.cbor_edn_model.specs.visit.Seeking.{number};
ghost use Rattle.cbor_edn_core.specs.tree.View.{item_tree};
ghost use Rattle.cbor_edn_conversions.specs.Conversions.{called_tag};

use cbor_edn_core::tree::{Indicator, Item};

/// The encoding indicator and the content of the tag of this number, or none where the item is no such tag.
pub(crate) fn tag_indicator_and_content<'t, 'a>(
    tag: u64,
    item: &'t Item<'a>,
) -> Option<(Option<Indicator>, &'t Item<'a>)>
    ensures { option_map (λ p. (tag, p.0, item_tree p.1.now)) result ≡ called_tag (number tag) (item_tree item.now) }
{
    let (number, indicator) = item.get_tag_head()?;
    if number != tag {
        return None;
    }
    match item.get_tagged() {
        Ok(content) => Some((indicator, content.item())),
        Err(_) => None,
    }
}
