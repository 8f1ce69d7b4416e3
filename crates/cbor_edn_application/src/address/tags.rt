//! Address literals in the place of tags.
ghost use Rattle.std.specs.Prelude.{◌≡◌, true, Option, Some, None, Ok, Err, IfOk, IfSome, IfNone};
ghost use Rattle.cbor_edn_parts.specs.declared.base.indicator.Indicator.{Indicator};
ghost use Rattle.cbor_edn_parts.specs.base.Refusals.{IfTold};
ghost use Rattle.cbor_edn_model.specs.visit.Seeking.{number};
ghost use Rattle.cbor_edn_model.specs.tree.Trees.{Tree, OneItem};
ghost use Rattle.cbor_edn_core.specs.visit.Sought.{sought_answer};
ghost use Rattle.cbor_edn_core.specs.tree.View.{item_tree};
ghost use Rattle.cbor_edn_conversions.specs.Conversions.{without_tag};
ghost use Rattle.cbor_edn_conversions.specs.Addresses.{address_tag, address_literal, address_of_tag, pretty_address};
ghost use Rattle.cbor_edn_application.specs.Acts.{ActsBy};
ghost use Rattle.cbor_edn_application.specs.Placing.{with_placed};

use super::literals::placed_literal;
use super::placing::{CHANGED_ENCODING, Placed, put};
use crate::reply::refusal;
use crate::tags::tag_indicator_and_content;
use cbor_edn_conversions::addresses::address_tag;
use cbor_edn_conversions::indicators::is_shortest;
use cbor_edn_core::tree::{Indicator, Item};
use cbor_edn_parts::base::error::{CallbackError, Fault};
use cbor_edn_times_and_addresses::address::IpVersion;
use std::alloc::Global;

/// Puts `IP'192.0.2.1'` in the place of `52(h'c0000201')`, and so on for tags 52 and 54 (RFC 9164), as `ip_item_to_aol` gives it for the
/// content. Other tags stay. Answers a comment where there is no literal, and where the tag's indicator would be lost; where memory runs
/// out the item is as before.
pub fn ip_tag_to_aol<'a>(alloc: Global, tag: u64, item: &mut Item<'a>) -> Result<(), CallbackError>
    ensures { ActsBy pretty_address (number tag) (item_tree item.old) (sought_answer result) (item_tree item.new) }
{
    match version_of_tag(tag) {
        Some(version) => version_tag_to_aol(alloc, version, item),
        None => Ok(()),
    }
}

/// Puts a literal in the place of the tag of a version's addresses. Other items stay.
fn version_tag_to_aol<'a>(
    alloc: Global,
    version: IpVersion,
    item: &mut Item<'a>,
) -> Result<(), CallbackError>
    ensures { ActsBy pretty_address (number (address_tag version)) (item_tree item.old) (sought_answer result) (item_tree item.new) }
{
    let Some((indicator, content)) = tag_indicator_and_content(address_tag(version), item) else {
        return Ok(());
    };
    match content_literal(alloc, content, version, indicator) {
        Ok(placed) => Ok(put(alloc, version, item, placed)?),
        Err(fault) => Err(refusal(alloc, fault)),
    }
}

/// The version whose addresses have the tag of this number.
fn version_of_tag(tag: u64) -> Option<IpVersion>
    ensures version { IfSome result (λ v. tag ≡ address_tag v) }
    ensures other { IfNone result ((i : Option Indicator) (w : Tree OneItem) → address_of_tag (Some (tag, i, w)) ≡ None) }
{
    match tag {
        52 => Some(IpVersion::V4),
        54 => Some(IpVersion::V6),
        _ => None,
    }
}

/// The literal for a tag with this content, where its indicator may go with the tag.
fn content_literal<'a>(
    alloc: Global,
    content: &Item<'_>,
    version: IpVersion,
    indicator: Option<Indicator>,
) -> Result<Placed<'a>, Fault<&'static str>>
    ensures converted { IfOk result (λ p. without_tag indicator (address_tag version) (address_literal (item_tree content.now) version true) ≡ Ok (with_placed version true (item_tree content.now) p)) }
    ensures refused { IfTold result (λ e. without_tag indicator (address_tag version) (address_literal (item_tree content.now) version true) ≡ Err e.now) }
{
    let literal = placed_literal(alloc, content, version, true)?;
    if !is_shortest(indicator, address_tag(version)) {
        return Err(Fault::Told(CHANGED_ENCODING));
    }
    Ok(literal)
}
