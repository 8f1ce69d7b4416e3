//! The items that address literals stand for.
ghost use Rattle.std.specs.Prelude.{◌≡◌, ◌∷◌, [], ℕ, false, pos, map, List, Ok, Err, Some, None, IfOk, IfSome, IfNone, string_bytes};
ghost use Rattle.cbor_edn_parts.specs.base.Refusals.{IfTold};
ghost use Rattle.cbor_edn_model.specs.visit.Seeking.{prefix_and_text};
ghost use Rattle.cbor_edn_times_and_addresses.specs.Address.{version_of};
ghost use Rattle.cbor_edn_model.specs.tree.Constructed.{comma_inside};
ghost use Rattle.cbor_edn_core.specs.tree.Constructed.{element_tree};
ghost use Rattle.cbor_edn_core.specs.visit.Sought.{sought_answer};
ghost use Rattle.cbor_edn_core.specs.tree.View.{item_tree};
ghost use Rattle.cbor_edn_model.specs.tree.Items.{Array};
ghost use Rattle.cbor_edn_model.specs.tree.Trees.{ListTree, ElementTree};
ghost use Rattle.cbor_edn_conversions.specs.Conversions.{in_tag, pair_tree, integer_tree, bytes_tree};
ghost use Rattle.cbor_edn_conversions.specs.Addresses.{address_item, address_of_literal, address_tag, bytes_behind, read_item, resolve_address};
ghost use Rattle.cbor_edn_application.specs.Acts.{ActsBy};

use crate::reply::reply;
use cbor_edn_conversions::addresses::address_tag;
use cbor_edn_core::tree::Item;
use cbor_edn_parts::base::error::{CallbackError, Fault};
use cbor_edn_parts::space::policy::DelimiterPolicy;
use cbor_edn_times_and_addresses::address::{IpVersion, read_address, shown_bytes};
use std::alloc::{AllocError, Global};
use std::net::IpAddr;

/// Puts the item that an address literal stands for in its place: the bytes of the address, behind their prefix length if there is one,
/// and for `IP` in the tag of the version (RFC 9164). Literals of other prefixes stay. Answers a comment where the text is no address;
/// where memory runs out the item is as before.
pub fn ip_aol_to_item<'a>(
    alloc: Global,
    prefix: String,
    text: String,
    item: &mut Item<'a>,
) -> Result<(), CallbackError>
    ensures { ActsBy resolve_address (prefix_and_text (string_bytes prefix) (string_bytes text)) (item_tree item.old) (sought_answer result) (item_tree item.new) }
{
    let Some(wrap) = is_tag_wanted(prefix.as_str()) else {
        return Ok(());
    };
    let conversion = address_item(alloc, wrap, text.as_str());
    reply(alloc, item, conversion)
}

/// Whether literals of a prefix stand for addresses in a tag, or none where they stand for no address.
fn is_tag_wanted(prefix: &str) -> Option<bool>
    ensures address { IfSome result (λ wrap. (t : List ℕ) → address_of_literal prefix.now t ≡ Some (address_item wrap t)) }
    ensures other { IfNone result ((t : List ℕ) → address_of_literal prefix.now t ≡ None) }
{
    match prefix {
        "ip" => Some(false),
        "IP" => Some(true),
        _ => None,
    }
}

/// Whether literals of a prefix stand for addresses.
pub(crate) fn is_address(prefix: &str) -> bool
    ensures { result ≡ false → (t : List ℕ) → address_of_literal prefix.now t ≡ None }
{
    is_tag_wanted(prefix).is_some()
}

/// The item that the literal of a text stands for, with `wrap` in the tag of its version.
pub(super) fn address_item<'a>(
    alloc: Global,
    wrap: bool,
    text: &str,
) -> Result<Item<'a>, Fault<&'static str>>
    ensures converted { IfOk result (λ t. address_item wrap text.now ≡ Ok (item_tree t)) }
    ensures refused { IfTold result (λ e. address_item wrap text.now ≡ Err e.now) }
{
    match read_address(text) {
        Ok((address, prefix_length)) => Ok(item_of(alloc, wrap, &address, prefix_length)?),
        Err(error) => Err(Fault::Told(error.as_str())),
    }
}

/// The item of an address.
fn item_of<'a>(
    alloc: Global,
    wrap: bool,
    address: &IpAddr,
    prefix_length: Option<u8>,
) -> Result<Item<'a>, AllocError>
    ensures { IfOk result (λ t. read_item wrap (Ok (address.now, prefix_length)) ≡ Ok (item_tree t)) }
{
    let bytes = shown_bytes(alloc, address, prefix_length)?;
    let item = bytes_behind(alloc, prefix_length, &bytes)?;
    in_tag(alloc, wrap, version_of(address), item)
}

fn version_of(address: &IpAddr) -> IpVersion
    ensures { result ≡ version_of address.now }
{
    match address {
        IpAddr::V4(_) => IpVersion::V4,
        IpAddr::V6(_) => IpVersion::V6,
    }
}

/// The item, with `wrap` in the tag of a version.
pub(super) fn in_tag<'a>(
    alloc: Global,
    wrap: bool,
    version: IpVersion,
    item: Item<'a>,
) -> Result<Item<'a>, AllocError>
    ensures { IfOk result (λ t. item_tree t ≡ in_tag wrap (address_tag version) (item_tree item.entry)) }
{
    if wrap {
        item.tagged(alloc, address_tag(version))
    } else {
        Ok(item)
    }
}

/// The bytes, as `h'c00002'`, behind their prefix length if there is one.
fn bytes_behind<'a>(
    alloc: Global,
    prefix_length: Option<u8>,
    bytes: &[u8],
) -> Result<Item<'a>, AllocError>
    ensures { IfOk result (λ t. item_tree t ≡ bytes_behind prefix_length bytes.now) }
{
    match prefix_length {
        None => Item::new_bytes_hex(alloc, bytes),
        Some(prefix_length) => length_and_bytes(alloc, prefix_length, bytes),
    }
}

/// `[24, h'c00002']`
fn length_and_bytes<'a>(
    alloc: Global,
    prefix_length: u8,
    bytes: &[u8],
) -> Result<Item<'a>, AllocError>
    ensures { IfOk result (λ t. item_tree t ≡ pair_tree (integer_tree (pos prefix_length)) (bytes_tree bytes.now)) }
{
    let items = length_and_bytes_items(alloc, prefix_length, bytes)?;
    let mut array = array_of(alloc, items)?;
    array.set_delimiters(alloc, DelimiterPolicy::SingleLineRegularSpacing)?;
    Ok(array)
}

/// The two items of an array of a prefix length and bytes.
fn length_and_bytes_items<'a>(
    alloc: Global,
    prefix_length: u8,
    bytes: &[u8],
) -> Result<Vec<Item<'a>>, AllocError>
    ensures { IfOk result (λ v. map element_tree v.items ≡ ElementTree (integer_tree (pos prefix_length)) ∷ ElementTree (bytes_tree bytes.now) ∷ []) }
{
    let mut items: Vec<Item<'a>> = Vec::new(alloc);
    items.push(Item::new_integer_decimal(alloc, i128::from(prefix_length))?)?;
    items.push(Item::new_bytes_hex(alloc, bytes)?)?;
    Ok(items)
}

/// An array of these items.
fn array_of<'a>(alloc: Global, items: Vec<Item<'a>>) -> Result<Item<'a>, AllocError>
    ensures { IfOk result (λ t. item_tree t ≡ ListTree Array (comma_inside (map element_tree items.entry.items))) }
{
    Item::new_array(alloc, items)
}
