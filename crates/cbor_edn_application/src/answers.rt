//! What callbacks answer: names as comments, and messages for items of another type.
ghost use Rattle.std.specs.Prelude.{option_map};
ghost use Rattle.cbor_edn_core.specs.visit.Callbacks.{answer_of, error_answer};
ghost use Rattle.cbor_edn_conversions.specs.Claims.{name_answer};
ghost use Rattle.cbor_edn_application.specs.Acts.{AnswersSo};
ghost use Rattle.cbor_edn_application.specs.Refused.{AnswersFault};

use crate::reply::comment;
use cbor_edn_core::access::TypeMismatch;
use cbor_edn_parts::base::error::{CallbackError, Fault};
use std::alloc::Global;

/// The comment of a name, if there is one.
pub(crate) fn noted(
    alloc: Global,
    name: Option<&'static str>,
) -> Result<Option<String>, CallbackError>
    ensures { AnswersSo (name_answer (option_map (λ name. name.now) name.entry)) (answer_of result) }
{
    match name {
        Some(name) => {
            let name = String::from_str(alloc, name)?;
            Ok(Some(name))
        }
        None => Ok(None),
    }
}

/// What is answered after a visit that was refused: the message where the item was of another type.
pub(crate) fn refusal(
    alloc: Global,
    fault: Fault<TypeMismatch>,
    message: &'static str,
) -> CallbackError
    ensures { AnswersFault fault (λ _. message.now) (error_answer result) }
{
    match fault {
        Fault::Memory(refused) => CallbackError::Memory(refused),
        Fault::Told(_) => comment(alloc, message),
    }
}
