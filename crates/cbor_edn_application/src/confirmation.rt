//! Comments at confirmation methods, and what is done with their values.
ghost use Rattle.std.specs.Prelude.{◌≡◌, option_map};
ghost use Rattle.cbor_edn_core.specs.visit.Callbacks.{key_answer, handler_of, answer_of};
ghost use Rattle.cbor_edn_core.specs.tree.View.{item_tree};
ghost use Rattle.cbor_edn_conversions.specs.Claims.{confirmation_key, confirmation_value, parameter_key, with_keys};
ghost use Rattle.cbor_edn_application.specs.Handlers.{at_confirmation, KeyAnswers, ValueAnswers, SaysAsErrors, AnyWords};

use crate::answers::refusal;
use crate::integers::integer_of;
use crate::oscore::comment_parameter;
use cbor_edn_conversions::tables::{ConfirmationValue, confirmation};
use cbor_edn_core::tree::Item;
use cbor_edn_core::visit::MapValueHandler;
use cbor_edn_parts::base::error::CallbackError;
use std::alloc::Global;

/// What is done with the value of a confirmation method (RFC 8747).
#[derive(Clone, Copy, Debug, PartialEq, Eq)]
pub enum CnfHandler {
    /// The keys of a map get the names of OSCORE parameters (RFC 9203) as comments. A value that is no map is an error.
    Osc,
}

/// The comment at a confirmation method, and what is done with its value.
pub(crate) fn comment_confirmation<'a>(
    alloc: Global,
    key: &mut Item<'a>,
) -> Result<(Option<String>, Option<CnfHandler>), CallbackError>
    ensures same { item_tree key.new ≡ item_tree key.old }
    ensures answer { KeyAnswers (confirmation_key (item_tree key.old)) (key_answer result) (option_map at_confirmation (handler_of result)) }
{
    let Some(number) = integer_of(key) else {
        return Ok((None, None));
    };
    let Some((name, value)) = confirmation(number) else {
        return Ok((None, None));
    };
    let name = String::from_str(alloc, name)?;
    Ok((Some(name), handler(value)))
}

/// What is done with a value, by what it is.
fn handler(value: Option<ConfirmationValue>) -> Option<CnfHandler>
    ensures { option_map at_confirmation result ≡ option_map confirmation_value value }
{
    match value {
        Some(ConfirmationValue::Oscore) => Some(CnfHandler::Osc),
        None => None,
    }
}

impl<'a> MapValueHandler<'a> for CnfHandler {
    ghost use Rattle.cbor_edn_core.specs.visit.Callbacks.{answer_of};
    ghost use Rattle.cbor_edn_core.specs.tree.View.{item_tree};
    ghost use Rattle.cbor_edn_application.specs.Handlers.{at_confirmation, ValueAnswers, SaysAsErrors, AnyWords};

    ghost handles = { λ h x r y. ValueAnswers (at_confirmation h) (item_tree x) (answer_of r) (item_tree y) × SaysAsErrors AnyWords r };

    fn handle(self, alloc: Global, value: &mut Item<'a>) -> Result<Option<String>, CallbackError> {
        match self {
            CnfHandler::Osc => comment_parameters(alloc, value),
        }
    }
}

/// The comments in the value of a confirmation method `osc`.
fn comment_parameters(alloc: Global, value: &mut Item<'_>) -> Result<Option<String>, CallbackError>
    ensures value { ValueAnswers (with_keys parameter_key) (item_tree value.old) (answer_of result) (item_tree value.new) }
    ensures errors { SaysAsErrors AnyWords result }
{
    let answer = value.visit_map_elements(alloc, &mut |key| comment_parameter(alloc, key));
    match answer {
        Ok(()) => Ok(None),
        Err(fault) => Err(refusal(alloc, fault, "Expected map")),
    }
}
