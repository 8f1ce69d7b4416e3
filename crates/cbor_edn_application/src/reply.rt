//! What callbacks answer where an item is to become another.
ghost use Rattle.std.specs.Prelude.{◌≡◌, Some, Ok, Err, IfOk};
ghost use Rattle.cbor_edn_parts.specs.base.Refusals.{IfTold};
ghost use Rattle.cbor_edn_model.specs.visit.Visits.{comment as comment_answer};
ghost use Rattle.cbor_edn_core.specs.visit.Callbacks.{error_answer};
ghost use Rattle.cbor_edn_core.specs.visit.Sought.{sought_answer};
ghost use Rattle.cbor_edn_core.specs.tree.View.{item_tree};
ghost use Rattle.cbor_edn_conversions.specs.Conversions.{Conversion, reply};
ghost use Rattle.cbor_edn_application.specs.Acts.{ActsSo, AnswersSo};
ghost use Rattle.cbor_edn_application.specs.Refused.{AnswersFault};

use cbor_edn_core::tree::Item;
use cbor_edn_parts::base::error::{CallbackError, Fault};
use std::alloc::Global;

/// Puts the new item in the place of the old one, or answers the message of a refusal as a comment.
pub(crate) fn reply<'a>(
    alloc: Global,
    item: &mut Item<'a>,
    conversion: Result<Item<'a>, Fault<&'static str>>,
) -> Result<(), CallbackError>
    ensures { (c : Conversion) → IfOk conversion.entry (λ t. c ≡ Ok (item_tree t)) → IfTold conversion.entry (λ e. c ≡ Err e.now)
        → ActsSo (λ w. reply w (Some c)) (item_tree item.old) (sought_answer result) (item_tree item.new) }
{
    match conversion {
        Ok(new) => {
            *item = new;
            Ok(())
        }
        Err(fault) => Err(refusal(alloc, fault)),
    }
}

/// The message of a refusal as a comment, or want of memory.
pub(crate) fn refusal(alloc: Global, fault: Fault<&'static str>) -> CallbackError
    ensures { AnswersFault fault.entry (λ e. e.now) (error_answer result) }
{
    match fault {
        Fault::Memory(refused) => CallbackError::Memory(refused),
        Fault::Told(message) => comment(alloc, message),
    }
}

/// A comment of this message, or want of memory.
pub(crate) fn comment(alloc: Global, message: &str) -> CallbackError
    ensures { AnswersSo (comment_answer message.now) (error_answer result) }
{
    match String::from_str(alloc, message) {
        Ok(message) => CallbackError::Comment(message),
        Err(refused) => CallbackError::Memory(refused),
    }
}
