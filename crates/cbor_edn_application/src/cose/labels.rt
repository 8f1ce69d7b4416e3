//! Comments at the labels of maps of COSE, and behind the numbers that their values are.
ghost use Rattle.std.specs.Prelude.{◌≡◌, option_map, option_and_then};
ghost use Rattle.cbor_edn_core.specs.visit.Callbacks.{key_answer, handler_of};
ghost use Rattle.cbor_edn_core.specs.tree.View.{item_tree};
ghost use Rattle.cbor_edn_conversions.specs.Claims.{named};
ghost use Rattle.cbor_edn_conversions.specs.Cose.{header_key};
ghost use Rattle.cbor_edn_conversions.specs.CoseKeys.{number_name, with_name};
ghost use Rattle.cbor_edn_conversions.specs.CoseTables.{key_types};
ghost use Rattle.cbor_edn_conversions.specs.Integers.{item_integer};
ghost use Rattle.cbor_edn_conversions.specs.Tables.{found};
ghost use Rattle.cbor_edn_application.specs.Handlers.{at_number, KeyAnswers};

use crate::answers::noted;
use crate::integers::integer_of;
use cbor_edn_conversions::tables::{NamedNumber, cose_algorithm, curve, header, key_type};
use cbor_edn_core::tree::Item;
use cbor_edn_core::visit::MapValueHandler;
use cbor_edn_parts::base::error::CallbackError;
use std::alloc::Global;

/// What is done with the value of a label: a number of this kind gets its name as a comment, as `ES256` of the algorithm -7.
#[derive(Clone, Copy, Debug, PartialEq, Eq)]
pub(crate) struct NameHandler {
    number: NamedNumber,
}

/// The comment at a label of a COSE header (RFC 9052, section 3.1; RFC 9360), as `alg` of 1, and what is done with its value. None at
/// other labels.
pub(crate) fn comment_header(
    alloc: Global,
    key: &mut Item<'_>,
) -> Result<(Option<String>, Option<NameHandler>), CallbackError>
    ensures same { item_tree key.new ≡ item_tree key.old }
    ensures answer { KeyAnswers (header_key (item_tree key.old)) (key_answer result) (option_map at_number (handler_of result)) }
{
    let Some(number) = integer_of(key) else {
        return Ok((None, None));
    };
    labelled(alloc, header(number))
}

/// The comment of a label's row, and what is done with its value.
pub(super) fn labelled(
    alloc: Global,
    row: Option<(&'static str, Option<NamedNumber>)>,
) -> Result<(Option<String>, Option<NameHandler>), CallbackError>
    ensures { KeyAnswers (named with_name (option_map (λ p. (p.0.now, p.1)) row.entry)) (key_answer result) (option_map at_number (handler_of result)) }
{
    let Some((name, number)) = row else {
        return Ok((None, None));
    };
    let name = String::from_str(alloc, name)?;
    Ok((Some(name), handler(number)))
}

/// What is done with a value, by what number it is.
fn handler(number: Option<NamedNumber>) -> Option<NameHandler>
    ensures { option_map at_number result ≡ option_map with_name number }
{
    match number {
        Some(number) => Some(NameHandler { number }),
        None => None,
    }
}

impl<'a> MapValueHandler<'a> for NameHandler {
    ghost use Rattle.cbor_edn_core.specs.visit.Callbacks.{answer_of};
    ghost use Rattle.cbor_edn_core.specs.tree.View.{item_tree};
    ghost use Rattle.cbor_edn_application.specs.Handlers.{at_number, ValueAnswers};

    ghost handles = { λ h x r y. ValueAnswers (at_number h) (item_tree x) (answer_of r) (item_tree y) };

    fn handle(self, alloc: Global, value: &mut Item<'a>) -> Result<Option<String>, CallbackError> {
        noted(alloc, name_in(self.number, value))
    }
}

/// The name of the number that an item is.
fn name_in(number: NamedNumber, item: &Item<'_>) -> Option<&'static str>
    ensures { option_map (λ name. name.now) result ≡ option_and_then (number_name number) (item_integer (item_tree item.now)) }
{
    match integer_of(item) {
        Some(integer) => name_of(number, integer),
        None => None,
    }
}

fn name_of(number: NamedNumber, integer: i128) -> Option<&'static str>
    ensures { option_map (λ name. name.now) result ≡ number_name number integer }
{
    match number {
        NamedNumber::Algorithm => cose_algorithm(integer),
        NamedNumber::KeyType => key_type_name(integer),
        NamedNumber::Curve => curve(integer),
    }
}

fn key_type_name(integer: i128) -> Option<&'static str>
    ensures { option_map (λ name. name.now) result ≡ option_map (λ r. r.0) (found key_types integer) }
{
    match key_type(integer) {
        Some((name, _)) => Some(name),
        None => None,
    }
}
