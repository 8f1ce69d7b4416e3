//! Literals in the place of items, where what they stand for means the same bytes.
ghost use Rattle.std.specs.Prelude.{◌≡◌, ℕ, ◌∷◌, true, false, List, Bool, Option, Some, Ok, Err, IfOk, IfErr, OnOk, unwrap_or};
ghost use Rattle.cbor_edn_parts.specs.declared.base.indicator.Indicator.{Indicator};
ghost use Rattle.cbor_edn_parts.specs.base.Refusals.{IfTold};
ghost use Rattle.cbor_edn_model.specs.access.Accessed.{array_items};
ghost use Rattle.cbor_edn_model.specs.access.Paths.{at, with_at, with_item, at_standalone, with_at_standalone};
ghost use Rattle.cbor_edn_model.specs.visit.Seeking.{number};
ghost use Rattle.cbor_edn_model.specs.tree.Trees.{Tree, OneItem};
ghost use Rattle.cbor_edn_core.specs.tree.View.{item_tree, standalone_tree};
ghost use Rattle.cbor_edn_conversions.specs.Conversions.{Conversion, literal_tree, called_tag, in_tag, tag_tree, mean_the_same};
ghost use Rattle.cbor_edn_conversions.specs.Addresses.{address_prefix, address_tag, if_same, as_literal, as_first, with_first};
ghost use Rattle.cbor_edn_application.specs.Placing.{with_placed};

use super::items::{address_item, in_tag};
use crate::same::{encoding, mean_the_same};
use cbor_edn_conversions::addresses::address_tag;
use cbor_edn_core::tree::{Item, StandaloneItem};
use cbor_edn_parts::base::error::Fault;
use cbor_edn_times_and_addresses::address::IpVersion;
use std::alloc::{AllocError, Global};
use std::mem;

/// The message where a literal would not stand for the bytes that an item means.
pub(super) const CHANGED_ENCODING: &str = "Conversion would change the encoding";

/// A literal for an item.
#[derive(Drop)]
pub(super) enum Placed<'a> {
    /// in the place of all of it
    Whole(Item<'a>),
    /// in that of its first element
    First(Item<'a>),
}

/// The literal of a text in the place of an item.
pub(super) fn whole_literal<'a>(
    alloc: Global,
    item: &Item<'_>,
    version: IpVersion,
    wrap: bool,
    text: &str,
) -> Result<Item<'a>, Fault<&'static str>>
    ensures converted { IfOk result (λ t. as_literal version wrap (item_tree item.now) (Ok text.now) ≡ Ok (item_tree t)) }
    ensures refused { IfTold result (λ e. as_literal version wrap (item_tree item.now) (Ok text.now) ≡ Err e.now) }
{
    keep_encoding(alloc, item, version, wrap, address_item(alloc, wrap, text))?;
    Ok(literal(alloc, wrap, text)?)
}

/// The literal of a text in the place of the first element of an array.
pub(super) fn first_literal<'a>(
    alloc: Global,
    array: &Item<'_>,
    first: &Item<'_>,
    version: IpVersion,
    text: &str,
) -> Result<Item<'a>, Fault<&'static str>>
    ensures converted { (wrap : Bool) (es : List (Tree OneItem)) → array_items (item_tree array.now) ≡ Some (item_tree first.now ∷ es)
        → IfOk result (λ t. as_first version wrap (item_tree array.now) (Ok text.now) ≡ Ok (with_first version wrap (item_tree array.now) (item_tree t))) }
    ensures refused { (wrap : Bool) (es : List (Tree OneItem)) → array_items (item_tree array.now) ≡ Some (item_tree first.now ∷ es)
        → IfTold result (λ e. as_first version wrap (item_tree array.now) (Ok text.now) ≡ Err e.now) }
{
    let literal = whole_literal(alloc, first, version, false, text)?;
    // The other bytes stay, where the array means some.
    match encoding(alloc, array)? {
        Some(_) => Ok(literal),
        None => Err(Fault::Told(CHANGED_ENCODING)),
    }
}

/// Fails where the item that is given means other bytes than this one, with `wrap` in the tag of the version.
fn keep_encoding(
    alloc: Global,
    item: &Item<'_>,
    version: IpVersion,
    wrap: bool,
    back: Result<Item<'_>, Fault<&'static str>>,
) -> Result<(), Fault<&'static str>>
    ensures same { (new : Tree OneItem) (c : Conversion) → IfOk back.entry (λ t. c ≡ Ok (item_tree t)) → IfTold back.entry (λ e. c ≡ Err e.now)
        → OnOk result (if_same version wrap (item_tree item.now) new c ≡ Ok new) }
    ensures changed { (new : Tree OneItem) (c : Conversion) → IfOk back.entry (λ t. c ≡ Ok (item_tree t)) → IfTold back.entry (λ e. c ≡ Err e.now)
        → IfTold result (λ e. if_same version wrap (item_tree item.now) new c ≡ Err e.now) }
{
    let is_same = match back {
        Ok(back) => is_same(alloc, item, version, wrap, &back)?,
        Err(Fault::Told(_)) => false,
        Err(Fault::Memory(refused)) => return Err(Fault::Memory(refused)),
    };
    if is_same {
        Ok(())
    } else {
        Err(Fault::Told(CHANGED_ENCODING))
    }
}

/// Whether another item means the same bytes as this one, with `wrap` in the tag of the version.
fn is_same(
    alloc: Global,
    item: &Item<'_>,
    version: IpVersion,
    wrap: bool,
    back: &Item<'_>,
) -> Result<bool, AllocError>
    ensures { IfOk result (λ b. b ≡ mean_the_same (in_tag wrap (address_tag version) (item_tree item.now)) (item_tree back.now)) }
{
    let item = in_tag(alloc, wrap, version, item.clone()?)?;
    mean_the_same(alloc, &item, back)
}

/// `ip'192.0.2.1'`, or with `wrap` `IP'192.0.2.1'`.
fn literal<'a>(alloc: Global, wrap: bool, text: &str) -> Result<Item<'a>, AllocError>
    ensures { IfOk result (λ t. item_tree t ≡ literal_tree (address_prefix wrap) text.now) }
{
    match Item::new_application_literal(alloc, prefix_of(wrap), text) {
        Ok(item) => Ok(item),
        Err(Fault::Memory(refused)) => Err(refused),
        Err(Fault::Told(_)) => unreachable!(),
    }
}

fn prefix_of(wrap: bool) -> &'static str
    ensures { result.now ≡ address_prefix wrap }
{
    if wrap { "IP" } else { "ip" }
}

/// A copy of the array with another first element, with `wrap` in the tag of the version.
pub(super) fn with_first<'a>(
    alloc: Global,
    array: &Item<'a>,
    version: IpVersion,
    wrap: bool,
    first: Item<'a>,
) -> Result<Item<'a>, AllocError>
    ensures { IfOk result (λ t. item_tree t ≡ with_first version wrap (item_tree array.now) (item_tree first.entry)) }
{
    let copy = first_replaced(array, first)?;
    in_tag(alloc, wrap, version, copy)
}

/// A copy of the item with another first item below it, where there is one.
fn first_replaced<'a>(item: &Item<'a>, first: Item<'a>) -> Result<Item<'a>, AllocError>
    ensures { IfOk result (λ t. item_tree t ≡ with_item 0 (item_tree first.entry) (item_tree item.now)) }
{
    let mut copy = StandaloneItem::from(item.clone()?);
    let replaced = replace(&mut copy, &[0], first);
    // It takes the place of the copy in turn.
    Ok(replace(&mut copy, &[], replaced))
}

/// Puts a literal in the place of a tag of the version, or of the first element in it. Where memory is refused the tag stays.
pub(super) fn put<'a>(
    alloc: Global,
    version: IpVersion,
    tag: &mut Item<'a>,
    placed: Placed<'a>,
) -> Result<(), AllocError>
    ensures put { (i : Option Indicator) (w : Tree OneItem) → called_tag (number (address_tag version)) (item_tree tag.old) ≡ Some (address_tag version, i, w)
        → OnOk result (item_tree tag.new ≡ with_placed version true w placed.entry) }
    ensures out_of_memory { IfErr result (λ _. item_tree tag.new ≡ item_tree tag.old) }
{
    match placed {
        Placed::Whole(literal) => {
            *tag = literal;
            Ok(())
        }
        Placed::First(literal) => put_first(alloc, version, tag, literal),
    }
}

/// Puts a literal in the place of the first element in a tag of the version, and makes the tag anew: without indicator and inner space.
fn put_first<'a>(
    alloc: Global,
    version: IpVersion,
    tag: &mut Item<'a>,
    literal: Item<'a>,
) -> Result<(), AllocError>
    ensures put { (i : Option Indicator) (w : Tree OneItem) → called_tag (number (address_tag version)) (item_tree tag.old) ≡ Some (address_tag version, i, w)
        → OnOk result (item_tree tag.new ≡ with_first version true w (item_tree literal.entry)) }
    ensures out_of_memory { IfErr result (λ _. item_tree tag.new ≡ item_tree tag.old) }
{
    tag.put_into_tag(alloc, address_tag(version))?;
    // Nothing is refused from here on. The old tag is left with the element, and dropped.
    let first = replace_inside(tag, &[0, 0], literal);
    let content = replace_inside(tag, &[0], first);
    replace_inside(tag, &[], content);
    Ok(())
}

/// Puts an item where the path leads from the content of a tag, as [`replace`] does.
fn replace_inside<'a>(tag: &mut Item<'a>, path: &[usize], item: Item<'a>) -> Item<'a>
    ensures put { (n : ℕ) (w : Tree OneItem) → item_tree tag.old ≡ tag_tree n w → item_tree tag.new ≡ tag_tree n (with_at path.now (item_tree item.entry) w) }
    ensures before { (n : ℕ) (w : Tree OneItem) → item_tree tag.old ≡ tag_tree n w → item_tree result ≡ unwrap_or (at path.now w) (item_tree item.entry) }
{
    match tag.get_tagged_mut() {
        Ok(content) => replace(content, path, item),
        Err(_) => item,
    }
}

/// Puts an item where the path leads, and gives the one that stood there, or the same item where it leads nowhere.
fn replace<'a>(tree: &mut StandaloneItem<'a>, path: &[usize], item: Item<'a>) -> Item<'a>
    ensures put { standalone_tree tree.new ≡ with_at_standalone path.now (item_tree item.entry) (standalone_tree tree.old) }
    ensures before { item_tree result ≡ unwrap_or (at_standalone path.now (standalone_tree tree.old)) (item_tree item.entry) }
{
    match tree.at_mut(path) {
        Some(place) => mem::replace(place, item),
        None => item,
    }
}
