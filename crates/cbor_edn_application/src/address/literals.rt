//! The texts of items that are addresses, and the literals of these texts.
ghost use Rattle.std.specs.Prelude.{◌≡◌, ℕ, Bool, List, map, option_map, Option, Some, Ok, Err, Result, IfOk, string_bytes};
ghost use Rattle.cbor_edn_parts.specs.base.Refusals.{IfTold};
ghost use Rattle.cbor_edn_model.specs.access.Accessed.{item_bytes, array_items};
ghost use Rattle.cbor_edn_model.specs.tree.Trees.{Tree, OneItem};
ghost use Rattle.cbor_edn_core.specs.access.Iterated.{items_left};
ghost use Rattle.cbor_edn_core.specs.tree.View.{item_tree};
ghost use Rattle.cbor_edn_conversions.specs.Conversions.{Message};
ghost use Rattle.cbor_edn_application.specs.Placing.{with_placed};
ghost use Rattle.cbor_edn_conversions.specs.Integers.{item_integer};
ghost use Rattle.cbor_edn_conversions.specs.Addresses.{refusal_message, whole_text, prefix_text, as_literal, by_length, by_others, by_elements, address_literal};

use super::placing::{Placed, first_literal, whole_literal, with_first};
use crate::integers::integer_of;
use cbor_edn_conversions::addresses::{NoAddress, prefix_text, whole_text};
use cbor_edn_core::access::ArrayItems;
use cbor_edn_core::tree::Item;
use cbor_edn_parts::base::error::Fault;
use cbor_edn_times_and_addresses::address::IpVersion;
use std::alloc::{AllocError, Global};

/// The address literal for bytes, or for an array of a prefix length and bytes: `ip'192.0.2.0/24'` for `[24, h'c00002']`. Of an array
/// whose first element is bytes, the array with the literal of these in its place. With `wrap` the item is the content of the version's
/// tag, and what is given stands for the tag. Fails with a message where there is no literal or it would mean other bytes, and where memory
/// runs out.
pub fn ip_item_to_aol<'a>(
    alloc: Global,
    item: &Item<'a>,
    version: IpVersion,
    wrap: bool,
) -> Result<Item<'a>, Fault<&'static str>>
    ensures converted { IfOk result (λ t. address_literal (item_tree item.now) version wrap ≡ Ok (item_tree t)) }
    ensures refused { IfTold result (λ e. address_literal (item_tree item.now) version wrap ≡ Err e.now) }
{
    match placed_literal(alloc, item, version, wrap)? {
        Placed::Whole(literal) => Ok(literal),
        Placed::First(literal) => Ok(with_first(alloc, item, version, wrap, literal)?),
    }
}

/// The literal that is to stand in the place of an item, or in that of its first element.
#[tactic(auto, unfolding(cbor_edn_conversions::specs::Addresses::address_literal))]
pub(super) fn placed_literal<'a>(
    alloc: Global,
    item: &Item<'_>,
    version: IpVersion,
    wrap: bool,
) -> Result<Placed<'a>, Fault<&'static str>>
    ensures converted { IfOk result (λ p. address_literal (item_tree item.now) version wrap ≡ Ok (with_placed version wrap (item_tree item.now) p)) }
    ensures refused { IfTold result (λ e. address_literal (item_tree item.now) version wrap ≡ Err e.now) }
{
    match bytes_text(alloc, version, item)? {
        Some(text) => {
            let literal = whole_literal(alloc, item, version, wrap, text.as_str())?;
            Ok(Placed::Whole(literal))
        }
        None => array_literal(alloc, item, version, wrap),
    }
}

/// The literal that is to stand in the place of an array, or in that of its first element.
fn array_literal<'a>(
    alloc: Global,
    array: &Item<'_>,
    version: IpVersion,
    wrap: bool,
) -> Result<Placed<'a>, Fault<&'static str>>
    ensures converted { IfOk result (λ p. by_elements version wrap (item_tree array.now) (array_items (item_tree array.now)) ≡ Ok (with_placed version wrap (item_tree array.now) p)) }
    ensures refused { IfTold result (λ e. by_elements version wrap (item_tree array.now) (array_items (item_tree array.now)) ≡ Err e.now) }
{
    let Ok(mut elements) = array.get_array_items() else {
        return Err(Fault::Told("Unexpected type for this tag"));
    };
    let Some(first) = elements.next() else {
        return Err(Fault::Told("Array too short for IP tag"));
    };
    match bytes_text(alloc, version, first)? {
        Some(text) => {
            let literal = first_literal(alloc, array, first, version, text.as_str())?;
            Ok(Placed::First(literal))
        }
        None => {
            let literal = others_literal(alloc, array, version, wrap, first, elements)?;
            Ok(Placed::Whole(literal))
        }
    }
}

/// The literal of an array whose first element is no bytes, and that has these others.
fn others_literal<'a>(
    alloc: Global,
    array: &Item<'_>,
    version: IpVersion,
    wrap: bool,
    first: &Item<'_>,
    others: ArrayItems<'_, '_>,
) -> Result<Item<'a>, Fault<&'static str>>
    ensures converted { IfOk result (λ t. by_others version wrap (item_tree array.now) (item_tree first.now) (map item_tree (items_left others.entry)) ≡ Ok (item_tree t)) }
    ensures refused { IfTold result (λ e. by_others version wrap (item_tree array.now) (item_tree first.now) (map item_tree (items_left others.entry)) ≡ Err e.now) }
{
    let text = elements_text(alloc, version, first, others)?;
    whole_literal(alloc, array, version, wrap, text.as_str())
}

/// The text of a whole address, or none where the item is no bytes.
fn bytes_text(
    alloc: Global,
    version: IpVersion,
    item: &Item<'_>,
) -> Result<Option<String>, Fault<&'static str>>
    ensures text { IfOk result (λ o. option_map (whole_text version) (item_bytes (item_tree item.now)) ≡ option_map (λ s. Ok (string_bytes s)) o) }
    ensures refused { IfTold result (λ e. option_map (whole_text version) (item_bytes (item_tree item.now)) ≡ Some (Err e.now)) }
{
    let Some(bytes) = bytes_of(alloc, item)? else {
        return Ok(None);
    };
    let text = address_text(alloc, version, &bytes)?;
    Ok(Some(text))
}

/// The text of an address with a prefix length, of an array whose first element is no bytes.
fn elements_text(
    alloc: Global,
    version: IpVersion,
    first: &Item<'_>,
    mut others: ArrayItems<'_, '_>,
) -> Result<String, Fault<&'static str>>
    ensures text { IfOk result (λ s. (wrap : Bool) (w : Tree OneItem) → by_others version wrap w (item_tree first.now) (map item_tree (items_left others.entry)) ≡ as_literal version wrap w (Ok (string_bytes s))) }
    ensures refused { IfTold result (λ e. (wrap : Bool) (w : Tree OneItem) → by_others version wrap w (item_tree first.now) (map item_tree (items_left others.entry)) ≡ Err e.now) }
{
    let Some(second) = others.next() else {
        return Err(Fault::Told("Array too short for IP tag"));
    };
    if others.next().is_some() {
        return Err(Fault::Told(
            "Address with prefix and zone identifier is inexpressible in IP'' literal",
        ));
    }
    pair_text(alloc, version, first, second)
}

/// The text of an address, of a prefix length and bytes.
fn pair_text(
    alloc: Global,
    version: IpVersion,
    first: &Item<'_>,
    second: &Item<'_>,
) -> Result<String, Fault<&'static str>>
    ensures text { IfOk result (λ s. (wrap : Bool) (w : Tree OneItem) → by_length version wrap w (item_integer (item_tree first.now)) (item_bytes (item_tree second.now)) ≡ as_literal version wrap w (Ok (string_bytes s))) }
    ensures refused { IfTold result (λ e. (wrap : Bool) (w : Tree OneItem) → by_length version wrap w (item_integer (item_tree first.now)) (item_bytes (item_tree second.now)) ≡ Err e.now) }
{
    let Some(prefix_length) = integer_of(first) else {
        return Err(Fault::Told("Address with prefix is inexpressible in IP'' literal"));
    };
    let Some(bytes) = bytes_of(alloc, second)? else {
        return Err(Fault::Told("Second element after an integer must be a byte string"));
    };
    address_prefix_text(alloc, version, prefix_length, &bytes)
}

fn address_text(
    alloc: Global,
    version: IpVersion,
    bytes: &[u8],
) -> Result<String, Fault<&'static str>>
    ensures text { IfOk result (λ s. whole_text version bytes.now ≡ Ok (string_bytes s)) }
    ensures refused { IfTold result (λ e. whole_text version bytes.now ≡ Err e.now) }
{
    with_message(whole_text(alloc, version, bytes))
}

fn address_prefix_text(
    alloc: Global,
    version: IpVersion,
    prefix_length: i128,
    bytes: &[u8],
) -> Result<String, Fault<&'static str>>
    ensures text { IfOk result (λ s. prefix_text version prefix_length bytes.now ≡ Ok (string_bytes s)) }
    ensures refused { IfTold result (λ e. prefix_text version prefix_length bytes.now ≡ Err e.now) }
{
    with_message(prefix_text(alloc, version, prefix_length, bytes))
}

/// The bytes of a string, or none where the item is no string or means no bytes.
fn bytes_of(alloc: Global, item: &Item<'_>) -> Result<Option<Vec<u8>>, AllocError>
    ensures { IfOk result (λ o. option_map (λ v. v.items) o ≡ item_bytes (item_tree item.now)) }
{
    match item.get_bytes(alloc) {
        Ok(bytes) => Ok(Some(bytes)),
        Err(Fault::Told(_)) => Ok(None),
        Err(Fault::Memory(refused)) => Err(refused),
    }
}

/// A text, or the message of its refusal.
fn with_message(text: Result<String, Fault<NoAddress>>) -> Result<String, Fault<&'static str>>
    ensures text { (t : Result (List ℕ) Message) → IfOk text (λ s. t ≡ Ok (string_bytes s)) → IfOk result (λ s. t ≡ Ok (string_bytes s)) }
    ensures refused { (t : Result (List ℕ) Message) → IfTold text (λ e. t ≡ Err (refusal_message e)) → IfTold result (λ e. t ≡ Err e.now) }
{
    match text {
        Ok(text) => Ok(text),
        Err(Fault::Told(error)) => Err(Fault::Told(error.as_str())),
        Err(Fault::Memory(refused)) => Err(Fault::Memory(refused)),
    }
}
