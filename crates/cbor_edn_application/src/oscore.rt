//! Comments at the parameters of OSCORE security contexts, and the names of algorithms.
ghost use Rattle.std.specs.Prelude.{◌≡◌, Some, option_map, option_and_then};
ghost use Rattle.cbor_edn_model.specs.visit.Visits.{comment as comment_answer};
ghost use Rattle.cbor_edn_core.specs.visit.Callbacks.{key_answer, handler_of, answer_of};
ghost use Rattle.cbor_edn_core.specs.tree.View.{item_tree};
ghost use Rattle.cbor_edn_conversions.specs.declared.tables.ParameterValue.TheVariants.{Algorithm};
ghost use Rattle.cbor_edn_conversions.specs.Claims.{parameter_key, parameter_value, fitting_parameter};
ghost use Rattle.cbor_edn_conversions.specs.Integers.{item_integer};
ghost use Rattle.cbor_edn_conversions.specs.Tables.{found, algorithms};
ghost use Rattle.cbor_edn_application.specs.Acts.{AnswersSo};
ghost use Rattle.cbor_edn_application.specs.Handlers.{at_parameter, integer_message, KeyAnswers, SaysAsErrors, IsReserved};

use crate::integers::integer_of;
use crate::reply::comment;
use cbor_edn_conversions::tables::{ParameterValue, algorithm, parameter};
use cbor_edn_core::access::TypeMismatch;
use cbor_edn_core::tree::Item;
use cbor_edn_core::visit::MapValueHandler;
use cbor_edn_parts::base::error::CallbackError;
use std::alloc::Global;

/// What is done with the value of an OSCORE parameter (RFC 9203).
#[derive(Clone, Copy, Debug, PartialEq, Eq)]
pub enum OscHandler {
    /// It gets the name of a COSE algorithm as a comment, as `AES-CCM-16-64-128` of 10. A number without a name gets none, and 0, which is
    /// reserved, is an error.
    Algorithm,
}

/// The comment at an OSCORE parameter, and what is done with its value.
pub(crate) fn comment_parameter<'a>(
    alloc: Global,
    key: &mut Item<'a>,
) -> Result<(Option<String>, Option<OscHandler>), CallbackError>
    ensures same { item_tree key.new ≡ item_tree key.old }
    ensures answer { KeyAnswers (parameter_key (item_tree key.old)) (key_answer result) (option_map at_parameter (handler_of result)) }
{
    match key.get_integer() {
        Ok(number) => comment_number(alloc, number),
        Err(mismatch) => Err(comment(alloc, message(mismatch))),
    }
}

/// The name of a parameter, and what is done with its value.
fn comment_number(
    alloc: Global,
    number: i128,
) -> Result<(Option<String>, Option<OscHandler>), CallbackError>
    ensures { KeyAnswers (fitting_parameter (Some number)) (key_answer result) (option_map at_parameter (handler_of result)) }
{
    let Some((name, value)) = parameter(number) else {
        return Ok((None, None));
    };
    let name = String::from_str(alloc, name)?;
    Ok((Some(name), handler(value)))
}

/// What is done with a value, by what it is.
fn handler(value: Option<ParameterValue>) -> Option<OscHandler>
    ensures { option_map at_parameter result ≡ option_map parameter_value value }
{
    match value {
        Some(ParameterValue::Algorithm) => Some(OscHandler::Algorithm),
        None => None,
    }
}

/// The message of a key that is no integer of `i128`.
fn message(mismatch: TypeMismatch) -> &'static str
    ensures { result.now ≡ integer_message mismatch }
{
    match mismatch {
        TypeMismatch::IntegerInRange => "Expected integer in i128 range",
        _ => "Expected integer",
    }
}

impl<'a> MapValueHandler<'a> for OscHandler {
    ghost use Rattle.cbor_edn_core.specs.visit.Callbacks.{answer_of};
    ghost use Rattle.cbor_edn_core.specs.tree.View.{item_tree};
    ghost use Rattle.cbor_edn_application.specs.Handlers.{at_parameter, ValueAnswers, SaysAsErrors, IsReserved};

    ghost handles = { λ h x r y. ValueAnswers (at_parameter h) (item_tree x) (answer_of r) (item_tree y) × SaysAsErrors IsReserved r };

    fn handle(self, alloc: Global, value: &mut Item<'a>) -> Result<Option<String>, CallbackError> {
        match self {
            OscHandler::Algorithm => comment_algorithm(alloc, value),
        }
    }
}

/// The comment of an algorithm's name, if it has one.
fn comment_algorithm(alloc: Global, value: &Item<'_>) -> Result<Option<String>, CallbackError>
    ensures answer { AnswersSo (parameter_value Algorithm (item_tree value.now)).0 (answer_of result) }
    ensures errors { SaysAsErrors IsReserved result }
{
    match algorithm_name(value) {
        Some(name) => named(alloc, name),
        None => Ok(None),
    }
}

/// A name as a comment, or as an error where it names no algorithm.
fn named(alloc: Global, name: &'static str) -> Result<Option<String>, CallbackError>
    ensures answer { AnswersSo (comment_answer name.now) (answer_of result) }
    ensures errors { SaysAsErrors IsReserved result }
{
    if name == "Reserved" {
        return Err(comment(alloc, name));
    }
    let name = String::from_str(alloc, name)?;
    Ok(Some(name))
}

/// The name of an algorithm, by its number.
fn algorithm_name(value: &Item<'_>) -> Option<&'static str>
    ensures { option_map (λ name. name.now) result ≡ option_and_then (found algorithms) (item_integer (item_tree value.now)) }
{
    match integer_of(value) {
        Some(number) => algorithm(number),
        None => None,
    }
}
