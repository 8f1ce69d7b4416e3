//! Comments in the arrays that structures of COSE are.
ghost use Rattle.std.specs.Prelude.{◌≡◌, ⊤, [], OnOk, Some, drop, slice_get};
ghost use Rattle.cbor_edn_core.specs.visit.Callbacks.{answer_of};
ghost use Rattle.cbor_edn_core.specs.tree.View.{item_tree, standalone_tree};
ghost use Rattle.cbor_edn_model.specs.access.Paths.{at_standalone, with_at_standalone};
ghost use Rattle.cbor_edn_model.specs.tree.Trees.{items};
ghost use Rattle.cbor_edn_model.specs.visit.Visits.{fine};
ghost use Rattle.cbor_edn_conversions.specs.Cose.{in_item, in_part, in_string, part_reply, with_elements, with_headers, with_parts};
ghost use Rattle.cbor_edn_application.specs.Comments.{inside};
ghost use Rattle.cbor_edn_application.specs.Handlers.{ValueAnswers};
ghost use Rattle.cbor_edn_application.specs.Passed.{IsPassed};

use super::labels::comment_header;
use crate::answers::noted;
use crate::embedded::is_structure;
use cbor_edn_conversions::tables::{Part, Structure, part_name, parts};
use cbor_edn_core::access::TypeMismatch;
use cbor_edn_core::tree::{Item, StandaloneItem};
use cbor_edn_parts::base::error::{CallbackError, Fault};
use std::alloc::{AllocError, Global};
use std::mem;

/// Puts the names of its parts behind the elements of a structure, and the names that stand in them, to so many levels of signers and
/// recipients. An item that is no array stays.
#[cycle(parts)]
pub(super) fn comment_parts(
    alloc: Global,
    levels: usize,
    structure: Structure,
    item: &mut Item<'_>,
) -> Result<(), AllocError>
    ensures parts { OnOk result (item_tree item.new ≡ with_parts levels structure (item_tree item.old)) }
    ensures items { items (item_tree item.new) ≡ items (item_tree item.old) }
{
    if levels == 0 {
        return Ok(());
    }
    let below = levels - 1;
    let mut rest = parts(structure);
    let answer = item.visit_array_elements(
        alloc,
        &mut |element|
            requires { ⊤ }
            ensures next { rest.exit.now ≡ drop 1 rest.entry.now }
            ensures answer { ValueAnswers (part_reply (in_part (with_parts below)) (slice_get rest.entry.now 0)) (item_tree element.old) (answer_of result) (item_tree element.new) }
        { comment_element(alloc, below, &mut rest, element) },
    );
    any_item(answer)
}

/// The comment of an element by the first part of those that are left, and those in it.
#[cycle(parts)]
fn comment_element(
    alloc: Global,
    levels: usize,
    rest: &mut &[Part],
    element: &mut Item<'_>,
) -> Result<Option<String>, CallbackError>
    ensures next { rest.new.now ≡ drop 1 rest.old.now }
    ensures answer { ValueAnswers (part_reply (in_part (with_parts levels)) (slice_get rest.old.now 0)) (item_tree element.old) (answer_of result) (item_tree element.new) }
{
    let Some((part, behind)) = rest.split_first() else {
        return Ok(None);
    };
    *rest = behind;
    comment_part(alloc, levels, *part, element)?;
    noted(alloc, Some(part_name(*part)))
}

/// The comments in a part.
#[cycle(parts)]
fn comment_part(
    alloc: Global,
    levels: usize,
    part: Part,
    item: &mut Item<'_>,
) -> Result<(), AllocError>
    ensures part { OnOk result (item_tree item.new ≡ in_part (with_parts levels) part (item_tree item.old)) }
    ensures items { items (item_tree item.new) ≡ items (item_tree item.old) }
{
    match part {
        Part::Protected => comment_embedded_headers(alloc, item),
        Part::Unprotected => comment_headers(alloc, item),
        Part::Signatures => comment_each(alloc, levels, Structure::Signer, item),
        Part::Recipients => comment_each(alloc, levels, Structure::Recipient, item),
        Part::Payload | Part::Ciphertext | Part::Tag | Part::Signature => Ok(()),
    }
}

/// The comments in each structure of an array.
#[cycle(parts)]
fn comment_each(
    alloc: Global,
    levels: usize,
    structure: Structure,
    item: &mut Item<'_>,
) -> Result<(), AllocError>
    ensures each { OnOk result (item_tree item.new ≡ with_elements (λ i x. (fine, with_parts levels structure x)) (item_tree item.old)) }
    ensures items { items (item_tree item.new) ≡ items (item_tree item.old) }
{
    let answer = item.visit_array_elements(
        alloc,
        &mut |element|
            requires { ⊤ }
            ensures { ValueAnswers (λ x. (fine, with_parts levels structure x)) (item_tree element.old) (answer_of result) (item_tree element.new) }
        { comment_structure(alloc, levels, structure, element) },
    );
    any_item(answer)
}

/// The comments in one of them.
#[cycle(parts)]
fn comment_structure(
    alloc: Global,
    levels: usize,
    structure: Structure,
    item: &mut Item<'_>,
) -> Result<Option<String>, CallbackError>
    ensures { ValueAnswers (λ x. (fine, with_parts levels structure x)) (item_tree item.old) (answer_of result) (item_tree item.new) }
{
    comment_parts(alloc, levels, structure, item)?;
    Ok(None)
}

/// The names of header parameters in the map that is embedded in a string first. A number stands in for the string meanwhile, since the
/// clause of a loan by a path speaks of an item between spaces.
fn comment_embedded_headers(alloc: Global, item: &mut Item<'_>) -> Result<(), AllocError>
    ensures headers { OnOk result (item_tree item.new ≡ in_string with_headers (item_tree item.old)) }
    ensures items { items (item_tree item.new) ≡ items (item_tree item.old) }
{
    if is_structure(item) {
        return Ok(());
    }
    let mut string = StandaloneItem::from(Item::new_integer_decimal(alloc, 0)?);
    exchange(&mut string, item);
    let answer = comment_first_headers(alloc, &mut string);
    exchange(&mut string, item);
    answer
}

/// The names of header parameters in the map that is embedded first in a string, or stands first in anything else.
fn comment_first_headers(alloc: Global, string: &mut StandaloneItem<'_>) -> Result<(), AllocError>
    ensures headers { OnOk result (standalone_tree string.new ≡ inside (in_item 0 with_headers) (standalone_tree string.old)) }
    ensures items { items (standalone_tree string.new) ≡ items (standalone_tree string.old) }
{
    match string.at_mut(&[0]) {
        Some(header) => comment_headers(alloc, header),
        None => Ok(()),
    }
}

/// Puts an item between the spaces of another, and the one that stood there in its place.
pub(super) fn exchange<'a>(alone: &mut StandaloneItem<'a>, item: &mut Item<'a>)
    ensures alone { standalone_tree alone.new ≡ with_at_standalone [] (item_tree item.old) (standalone_tree alone.old) }
    ensures item { Some (item_tree item.new) ≡ at_standalone [] (standalone_tree alone.old) }
{
    match alone.at_mut(&[]) {
        Some(place) => mem::swap(place, item),
        None => {}
    }
}

/// The names of header parameters in a map. Another item stays.
fn comment_headers(alloc: Global, item: &mut Item<'_>) -> Result<(), AllocError>
    ensures headers { OnOk result (item_tree item.new ≡ with_headers (item_tree item.old)) }
    ensures items { items (item_tree item.new) ≡ items (item_tree item.old) }
{
    let answer = item.visit_map_elements(alloc, &mut |key| comment_header(alloc, key));
    any_item(answer)
}

/// An item of another type is no error.
pub(super) fn any_item(answer: Result<(), Fault<TypeMismatch>>) -> Result<(), AllocError>
    ensures { OnOk result (IsPassed answer) }
{
    match answer {
        Ok(()) | Err(Fault::Told(_)) => Ok(()),
        Err(Fault::Memory(refused)) => Err(refused),
    }
}
