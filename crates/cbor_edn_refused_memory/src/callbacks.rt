//! Visits whose callbacks take memory for their answers.
ghost use Rattle.std.specs.Prelude.{⊤, ◌≡◌};
ghost use Rattle.cbor_edn_core.specs.tree.View.{item_tree};

use cbor_edn_application::comment_ccs;
use cbor_edn_core::access::TypeMismatch;
use cbor_edn_core::tree::{Item, Sequence, StandaloneItem};
use cbor_edn_core::visit::MapValueHandler;
use cbor_edn_parts::base::error::{CallbackError, Fault};
use std::alloc::{AllocError, Global};

/// Puts 5 with a comment.
#[derive(Drop)]
struct PutFive;

impl<'a> MapValueHandler<'a> for PutFive {
    ghost handles = { λ _ _ _ _. ⊤ };

    fn handle(self, alloc: Global, value: &mut Item<'a>) -> Result<Option<String>, CallbackError> {
        *value = Item::new_integer_decimal(alloc, 5)?;
        Ok(Some(String::from_str(alloc, "v")?))
    }
}

/// A comment that stands behind a pointer, as a short one does not.
const LONG: &str = "a comment of some length";

pub(crate) fn comment_elements(
    alloc: Global,
    item: &mut Item<'_>,
) -> Result<(), Fault<TypeMismatch>> {
    item.visit_array_elements(alloc, &mut |_| Ok(Some(String::from_str(alloc, LONG)?)))
}

pub(crate) fn comment_keys(alloc: Global, item: &mut Item<'_>) -> Result<(), Fault<TypeMismatch>> {
    item.visit_map_elements(
        alloc,
        &mut |_| Ok((Some(String::from_str(alloc, "k")?), Some(PutFive))),
    )
}

pub(crate) fn comment_claims(
    alloc: Global,
    item: &mut Item<'_>,
) -> Result<(), Fault<TypeMismatch>> {
    item.visit_map_elements(alloc, &mut |key| comment_ccs(alloc, key))
}

pub(crate) fn comment_tags(alloc: Global, item: &mut StandaloneItem<'_>) -> Result<(), AllocError> {
    item.visit_tag(
        alloc,
        &mut |_, _| Err(CallbackError::Comment(String::from_str(alloc, LONG)?)),
    )
}

pub(crate) fn comment_sequence_tags(
    alloc: Global,
    sequence: &mut Sequence<'_>,
) -> Result<(), AllocError> {
    sequence.visit_tag(
        alloc,
        &mut |_, _| Err(CallbackError::Comment(String::from_str(alloc, "t")?)),
    )
}

pub(crate) fn comment_tags_that_stay(
    alloc: Global,
    sequence: &mut Sequence<'_>,
) -> Result<(), AllocError> {
    sequence.visit_tag_no_deeper(alloc, &mut |_, item| note(alloc, item))
}

/// Answers a comment; the item stays.
fn note(alloc: Global, item: &mut Item<'_>) -> Result<(), CallbackError>
    ensures { item_tree item.new ≡ item_tree item.old }
{
    Err(CallbackError::Comment(String::from_str(alloc, LONG)?))
}

pub(crate) fn comment_literals(
    alloc: Global,
    item: &mut StandaloneItem<'_>,
) -> Result<(), AllocError> {
    item.visit_application_literals(
        alloc,
        &mut |_, _, _| Err(CallbackError::Comment(String::from_str(alloc, "c")?)),
    )
}

pub(crate) fn comment_sequence_items(
    alloc: Global,
    sequence: &mut Sequence<'_>,
) -> Result<(), AllocError> {
    sequence.visit_application_items(
        alloc,
        &mut |_| Err(CallbackError::Comment(String::from_str(alloc, LONG)?)),
    )
}

pub(crate) fn comment_sequence_literals(
    alloc: Global,
    sequence: &mut Sequence<'_>,
) -> Result<(), AllocError> {
    sequence.visit_application_literals(
        alloc,
        &mut |_, _, _| Err(CallbackError::Comment(String::from_str(alloc, LONG)?)),
    )
}
