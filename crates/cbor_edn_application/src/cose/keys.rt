//! Comments in the keys of COSE that claims sets hold.
ghost use Rattle.std.specs.Prelude.{◌≡◌, OnOk, Some, option_map, option_and_then, pos};
ghost use Rattle.cbor_edn_core.specs.visit.Callbacks.{key_answer, handler_of};
ghost use Rattle.cbor_edn_core.specs.tree.View.{item_tree};
ghost use Rattle.cbor_edn_model.specs.access.Accessed.{map_items};
ghost use Rattle.cbor_edn_model.specs.tree.Trees.{items};
ghost use Rattle.cbor_edn_conversions.specs.CoseKeys.{cnf_key, key_label, method_key, type_of_key, value_of, with_key_names, with_names, with_parameters};
ghost use Rattle.cbor_edn_application.specs.Handlers.{at_cnf, at_method, at_number, KeyAnswers};

use super::labels::{NameHandler, labelled};
use super::parts::any_item;
use crate::integers::integer_of;
use cbor_edn_conversions::tables::{KeyType, key_confirmation, key_parameter, key_type};
use cbor_edn_core::tree::Item;
use cbor_edn_core::visit::MapValueHandler;
use cbor_edn_parts::base::error::CallbackError;
use std::alloc::{AllocError, Global};

/// What is done with the value of the claim `cnf`: confirmation methods that have a key get their names, and the key its own.
#[derive(Clone, Copy, Debug, PartialEq, Eq)]
pub(crate) struct MethodsHandler;

/// What is done with a COSE key: its labels, and the numbers that their values are, get their names.
#[derive(Clone, Copy, Debug, PartialEq, Eq)]
pub(crate) struct KeyHandler;

/// Puts the names of confirmation methods that have a key, `COSE_Key` and `Encrypted_COSE_Key` (RFC 8747, section 3.1), into the claim
/// `cnf` of a claims set, and those of its parameters into a COSE key (RFC 9052, section 7.1; RFC 9053, section 7). An item that is no map
/// stays.
pub(crate) fn comment_keys(alloc: Global, claims: &mut Item<'_>) -> Result<(), AllocError>
    ensures keys { OnOk result (item_tree claims.new ≡ with_key_names (item_tree claims.old)) }
    ensures items { items (item_tree claims.new) ≡ items (item_tree claims.old) }
{
    let answer = claims.visit_map_elements(alloc, &mut |key| claim_value(key));
    any_item(answer)
}

/// What is done with the value of a claim.
fn claim_value(
    key: &mut Item<'_>,
) -> Result<(Option<String>, Option<MethodsHandler>), CallbackError>
    ensures same { item_tree key.new ≡ item_tree key.old }
    ensures answer { KeyAnswers (cnf_key (item_tree key.old)) (key_answer result) (option_map at_cnf (handler_of result)) }
{
    match integer_of(key) {
        Some(8) => Ok((None, Some(MethodsHandler))),
        _ => Ok((None, None)),
    }
}

impl<'a> MapValueHandler<'a> for MethodsHandler {
    ghost use Rattle.cbor_edn_core.specs.visit.Callbacks.{answer_of};
    ghost use Rattle.cbor_edn_core.specs.tree.View.{item_tree};
    ghost use Rattle.cbor_edn_application.specs.Handlers.{at_cnf, ValueAnswers};

    ghost handles = { λ h x r y. ValueAnswers (at_cnf h) (item_tree x) (answer_of r) (item_tree y) };

    fn handle(self, alloc: Global, value: &mut Item<'a>) -> Result<Option<String>, CallbackError> {
        comment_methods(alloc, value)?;
        Ok(None)
    }
}

/// The comments in the value of the claim.
fn comment_methods(alloc: Global, methods: &mut Item<'_>) -> Result<(), AllocError>
    ensures methods { OnOk result (item_tree methods.new ≡ with_names method_key (item_tree methods.old)) }
    ensures items { items (item_tree methods.new) ≡ items (item_tree methods.old) }
{
    let answer = methods.visit_map_elements(alloc, &mut |key| comment_method(alloc, key));
    any_item(answer)
}

/// The comment at a confirmation method that has a key, and what is done with the key.
fn comment_method(
    alloc: Global,
    key: &mut Item<'_>,
) -> Result<(Option<String>, Option<KeyHandler>), CallbackError>
    ensures same { item_tree key.new ≡ item_tree key.old }
    ensures answer { KeyAnswers (method_key (item_tree key.old)) (key_answer result) (option_map at_method (handler_of result)) }
{
    let Some(number) = integer_of(key) else {
        return Ok((None, None));
    };
    let Some((name, is_key)) = key_confirmation(number) else {
        return Ok((None, None));
    };
    let name = String::from_str(alloc, name)?;
    let handler = if is_key { Some(KeyHandler) } else { None };
    Ok((Some(name), handler))
}

impl<'a> MapValueHandler<'a> for KeyHandler {
    ghost use Rattle.cbor_edn_core.specs.visit.Callbacks.{answer_of};
    ghost use Rattle.cbor_edn_core.specs.tree.View.{item_tree};
    ghost use Rattle.cbor_edn_application.specs.Handlers.{at_method, ValueAnswers};

    ghost handles = { λ h x r y. ValueAnswers (at_method h) (item_tree x) (answer_of r) (item_tree y) };

    fn handle(self, alloc: Global, value: &mut Item<'a>) -> Result<Option<String>, CallbackError> {
        comment_parameters(alloc, value)?;
        Ok(None)
    }
}

/// The comments in a key, by its type.
fn comment_parameters(alloc: Global, key: &mut Item<'_>) -> Result<(), AllocError>
    ensures parameters { OnOk result (item_tree key.new ≡ with_parameters (item_tree key.old)) }
    ensures items { items (item_tree key.new) ≡ items (item_tree key.old) }
{
    let key_type = type_of(key);
    let answer = key.visit_map_elements(
        alloc,
        &mut |opener| comment_parameter(alloc, key_type, opener),
    );
    any_item(answer)
}

/// The comment at a label of a key of this type, and what is done with its value.
fn comment_parameter(
    alloc: Global,
    key_type: Option<KeyType>,
    opener: &mut Item<'_>,
) -> Result<(Option<String>, Option<NameHandler>), CallbackError>
    ensures same { item_tree opener.new ≡ item_tree opener.old }
    ensures answer { KeyAnswers (key_label key_type (item_tree opener.old)) (key_answer result) (option_map at_number (handler_of result)) }
{
    let Some(number) = integer_of(opener) else {
        return Ok((None, None));
    };
    labelled(alloc, key_parameter(key_type, number))
}

/// The type of a key, where its number is the value of the first label 1.
fn type_of(key: &Item<'_>) -> Option<KeyType>
    ensures { result ≡ type_of_key (item_tree key.now) }
{
    let number = integer_of(type_item(key)?)?;
    let (_, key_type) = key_type(number)?;
    Some(key_type)
}

/// The value of the first label 1.
fn type_item<'t, 'a>(key: &'t Item<'a>) -> Option<&'t Item<'a>>
    ensures { option_map (λ v. item_tree v.now) result ≡ option_and_then (value_of (pos 1)) (map_items (item_tree key.now)) }
{
    let Ok(pairs) = key.get_map_items() else {
        return None;
    };
    for (opener, value) in pairs {
        if integer_of(opener) == Some(1) {
            return Some(value);
        }
    }
    None
}
