//! Claims sets that are payloads of COSE messages.
ghost use Rattle.std.specs.Prelude.{◌≡◌, OnOk, OnErr, slice_get};
ghost use Rattle.cbor_edn_core.specs.visit.Sought.{sought_answer};
ghost use Rattle.cbor_edn_core.specs.tree.View.{item_tree, standalone_tree};
ghost use Rattle.cbor_edn_model.specs.visit.Seeking.{number as tag_arguments};
ghost use Rattle.cbor_edn_conversions.specs.Cose.{in_item, in_string};
ghost use Rattle.cbor_edn_conversions.specs.CoseTables.{parts};
ghost use Rattle.cbor_edn_conversions.specs.MessageClaims.{claims_and_keys, in_payload, is_payload, message_claims};
ghost use Rattle.cbor_edn_application.specs.Acts.{ActsBy};
ghost use Rattle.cbor_edn_application.specs.Comments.{inside};

use super::called_message;
use super::keys::comment_keys;
use super::parts::{any_item, exchange};
use crate::embedded::{is_array, is_structure};
use crate::visits::annotate_claims;
use cbor_edn_conversions::tables::{Part, Structure, parts};
use cbor_edn_core::tree::{Item, StandaloneItem};
use cbor_edn_parts::base::error::CallbackError;
use std::alloc::{AllocError, Global};

/// Puts the comments of a claims set (RFC 8392) into the payload of a COSE message, and literals in the place of its times, as
/// [`crate::visits::annotate_claims`] does, and the names of COSE keys into its claim `cnf`. The payload is one where it is shown as an
/// embedded sequence that begins with a map, as [`crate::show_embedded`] shows it. Other tags stay, and so does the item where memory runs
/// out. Nothing is answered.
pub fn annotate_message(alloc: Global, tag: u64, item: &mut Item<'_>) -> Result<(), CallbackError>
    ensures { ActsBy message_claims (tag_arguments tag) (item_tree item.old) (sought_answer result) (item_tree item.new) }
{
    let Some((_name, structure)) = called_message(tag, item) else {
        return Ok(());
    };
    if !has_payload(structure) {
        return Ok(());
    }
    match item.get_tagged_mut() {
        Ok(content) => Ok(annotate_content(alloc, content)?),
        Err(_) => Ok(()),
    }
}

/// Whether the third part of a structure is its payload.
fn has_payload(structure: Structure) -> bool
    ensures { result ≡ is_payload (slice_get (parts structure) 2) }
{
    match parts(structure).get(2) {
        Some(part) => *part == Part::Payload,
        None => false,
    }
}

/// The comments in the payload of what stands between the parentheses: the third element, where that is an array.
fn annotate_content(alloc: Global, content: &mut StandaloneItem<'_>) -> Result<(), AllocError>
    ensures claims { OnOk result (standalone_tree content.new ≡ inside (in_payload claims_and_keys) (standalone_tree content.old)) }
    ensures out_of_memory { OnErr result (standalone_tree content.new ≡ standalone_tree content.old) }
{
    if !is_array(content.item()) {
        return Ok(());
    }
    match content.at_mut(&[2]) {
        Some(payload) => annotate_embedded(alloc, payload),
        None => Ok(()),
    }
}

/// The comments in the map that is embedded in a string first. A number stands in for the string meanwhile.
fn annotate_embedded(alloc: Global, payload: &mut Item<'_>) -> Result<(), AllocError>
    ensures claims { OnOk result (item_tree payload.new ≡ in_string claims_and_keys (item_tree payload.old)) }
    ensures out_of_memory { OnErr result (item_tree payload.new ≡ item_tree payload.old) }
{
    if is_structure(payload) {
        return Ok(());
    }
    let mut string = StandaloneItem::from(Item::new_integer_decimal(alloc, 0)?);
    exchange(&mut string, payload);
    let answer = annotate_first(alloc, &mut string);
    exchange(&mut string, payload);
    answer
}

/// The comments in the map that is embedded first in a string, or stands first in anything else.
fn annotate_first(alloc: Global, string: &mut StandaloneItem<'_>) -> Result<(), AllocError>
    ensures claims { OnOk result (standalone_tree string.new ≡ inside (in_item 0 claims_and_keys) (standalone_tree string.old)) }
    ensures out_of_memory { OnErr result (standalone_tree string.new ≡ standalone_tree string.old) }
{
    match string.at_mut(&[0]) {
        Some(claims) => annotate_copy(alloc, claims),
        None => Ok(()),
    }
}

/// The comments of a claims set in a map, and the names of its keys. An item that is no map stays, and so does the map where memory runs
/// out: the copy is put in its place that was annotated.
fn annotate_copy(alloc: Global, claims: &mut Item<'_>) -> Result<(), AllocError>
    ensures claims { OnOk result (item_tree claims.new ≡ claims_and_keys (item_tree claims.old)) }
    ensures out_of_memory { OnErr result (item_tree claims.new ≡ item_tree claims.old) }
{
    let mut copy = claims.clone()?;
    annotate_map(alloc, &mut copy)?;
    *claims = copy;
    Ok(())
}

fn annotate_map(alloc: Global, claims: &mut Item<'_>) -> Result<(), AllocError>
    ensures { OnOk result (item_tree claims.new ≡ claims_and_keys (item_tree claims.old)) }
{
    any_item(annotate_claims(alloc, claims))?;
    comment_keys(alloc, claims)
}
