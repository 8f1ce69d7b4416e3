//! Comments at the keys of claims sets, and what is done with their values.
ghost use Rattle.std.specs.Prelude.{◌≡◌, option_map};
ghost use Rattle.cbor_edn_core.specs.visit.Callbacks.{key_answer, handler_of, answer_of};
ghost use Rattle.cbor_edn_core.specs.tree.View.{item_tree};
ghost use Rattle.cbor_edn_conversions.specs.declared.tables.ClaimValue.TheVariants as claim_kind;
ghost use Rattle.cbor_edn_conversions.specs.Claims.{claim_key, claim_value, confirmation_key, with_keys};
ghost use Rattle.cbor_edn_application.specs.Handlers.{at_claim, KeyAnswers, ValueAnswers, FailsForMemory, SaysAsErrors, AnyWords};

use crate::answers::refusal;
use crate::confirmation::comment_confirmation;
use crate::integers::integer_of;
use crate::reply::reply;
use crate::time::dt_item_to_aol;
use cbor_edn_conversions::tables::{ClaimValue, claim};
use cbor_edn_core::tree::Item;
use cbor_edn_core::visit::MapValueHandler;
use cbor_edn_parts::base::error::CallbackError;
use std::alloc::Global;

/// What is done with the value of a claim, as [`comment_ccs`] answers it.
#[derive(Clone, Copy, Debug, PartialEq, Eq)]
pub enum CcsHandler {
    /// A number that is a time becomes a time literal `dt'..'`. Else the value stays, and an error says why.
    Timestamp,
    /// The keys of a map get the names of confirmation methods (RFC 8747) as comments. A value that is no map is an error.
    Cnf,
}

/// The comment at a key of a claims set (RFC 8392): the name of its claim, as `exp` of 4, and what is done with its value. None at other
/// keys. It fails only where memory runs out.
pub fn comment_ccs<'a>(
    alloc: Global,
    key: &mut Item<'a>,
) -> Result<(Option<String>, Option<CcsHandler>), CallbackError>
    ensures same { item_tree key.new ≡ item_tree key.old }
    ensures answer { KeyAnswers (claim_key (item_tree key.old)) (key_answer result) (option_map at_claim (handler_of result)) }
    ensures errors { FailsForMemory result }
{
    let Some(number) = integer_of(key) else {
        return Ok((None, None));
    };
    let Some((name, value)) = claim(number) else {
        return Ok((None, None));
    };
    let name = String::from_str(alloc, name)?;
    Ok((Some(name), handler(value)))
}

/// What is done with a value, by what it is.
fn handler(value: Option<ClaimValue>) -> Option<CcsHandler>
    ensures { option_map at_claim result ≡ option_map claim_value value }
{
    match value {
        Some(ClaimValue::Timestamp) => Some(CcsHandler::Timestamp),
        Some(ClaimValue::Confirmation) => Some(CcsHandler::Cnf),
        None => None,
    }
}

impl<'a> MapValueHandler<'a> for CcsHandler {
    ghost use Rattle.cbor_edn_core.specs.visit.Callbacks.{answer_of};
    ghost use Rattle.cbor_edn_core.specs.tree.View.{item_tree};
    ghost use Rattle.cbor_edn_application.specs.Handlers.{at_claim, ValueAnswers, SaysAsErrors, AnyWords};

    ghost handles = { λ h x r y. ValueAnswers (at_claim h) (item_tree x) (answer_of r) (item_tree y) × SaysAsErrors AnyWords r };

    fn handle(self, alloc: Global, value: &mut Item<'a>) -> Result<Option<String>, CallbackError> {
        match self {
            CcsHandler::Timestamp => put_time(alloc, value),
            CcsHandler::Cnf => comment_confirmations(alloc, value),
        }
    }
}

/// Puts the literal of a time in its place.
fn put_time(alloc: Global, value: &mut Item<'_>) -> Result<Option<String>, CallbackError>
    ensures value { ValueAnswers (claim_value claim_kind.Timestamp) (item_tree value.old) (answer_of result) (item_tree value.new) }
    ensures errors { SaysAsErrors AnyWords result }
{
    let literal = dt_item_to_aol(alloc, value, false);
    match reply(alloc, value, literal) {
        Ok(()) => Ok(None),
        Err(error) => Err(error),
    }
}

/// The comments in the value of a claim `cnf`.
fn comment_confirmations(
    alloc: Global,
    value: &mut Item<'_>,
) -> Result<Option<String>, CallbackError>
    ensures value { ValueAnswers (with_keys confirmation_key) (item_tree value.old) (answer_of result) (item_tree value.new) }
    ensures errors { SaysAsErrors AnyWords result }
{
    let answer = value.visit_map_elements(alloc, &mut |key| comment_confirmation(alloc, key));
    match answer {
        Ok(()) => Ok(None),
        Err(fault) => Err(refusal(alloc, fault, "Expected map")),
    }
}
