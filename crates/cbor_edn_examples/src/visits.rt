//! Visits by callbacks of a caller: each callback may be called wherever the visit asks it.
ghost use Rattle.std.specs.Prelude.{◌≡◌, OnOk, codes, option_map};
ghost use Rattle.cbor_edn.specs.Seeking.{IsTag, IsApplication};
ghost use Rattle.cbor_edn.specs.Visits.{comment};
ghost use Rattle.cbor_edn.specs.Callbacks.{answer_of, key_answer, handler_of, ending};
ghost use Rattle.cbor_edn.specs.View.{item_tree, sequence_tree};
ghost use Rattle.cbor_edn.specs.Bignums.{pretty_bignum};
ghost use Rattle.cbor_edn.specs.Claims.{with_keys};
ghost use Rattle.cbor_edn.specs.Cose.{with_elements};
ghost use Rattle.cbor_edn.specs.EmbeddedItems.{show_embedded as embedded_shown};
ghost use Rattle.cbor_edn.specs.Times.{pretty_time, resolve_time};
ghost use Rattle.cbor_edn.specs.Acts.{IsVisited};
ghost use Rattle.cbor_edn.specs.Handlers.{KeyAnswers, ValueAnswers};
ghost use Rattle.cbor_edn_examples.specs.Times.{as_time, at_any_key};

use cbor_edn::application::{dt_aol_to_item, dt_tag_to_aol, show_embedded, tag23_to_edn_integer};
use cbor_edn::{CallbackError, Fault, Item, MapValueHandler, Sequence, TypeMismatch};
use std::alloc::{AllocError, Global};

/// Shows the times of all items as literals. Fails where memory runs out; the calls up to there are made then.
pub fn with_times(alloc: Global, sequence: &mut Sequence<'_>) -> Result<(), AllocError>
    ensures { IsVisited IsTag pretty_time (sequence_tree sequence.old) (ending result) (sequence_tree sequence.new) }
{
    sequence.visit_tag(alloc, &mut |tag, item| dt_tag_to_aol(alloc, tag, item))
}

/// Shows the bignums of all items as integers, which nest no deeper than the tags. Fails where memory runs out; the calls up to there are
/// made then.
pub fn with_integers(alloc: Global, sequence: &mut Sequence<'_>) -> Result<(), AllocError>
    ensures { IsVisited IsTag pretty_bignum (sequence_tree sequence.old) (ending result) (sequence_tree sequence.new) }
{
    sequence.visit_tag_no_deeper(
        alloc,
        &mut |tag, item| tag23_to_edn_integer(alloc, tag, item),
    )
}

/// Puts back what the time literals of all items stand for. Fails where memory runs out; the calls up to there are made then.
pub fn without_times(alloc: Global, sequence: &mut Sequence<'_>) -> Result<(), AllocError>
    ensures { IsVisited IsApplication resolve_time (sequence_tree sequence.old) (ending result) (sequence_tree sequence.new) }
{
    sequence.visit_application_literals(
        alloc,
        &mut |prefix, text, item| dt_aol_to_item(alloc, prefix, text, item),
    )
}

/// Shows what the byte strings of all items hold, one level deep, where it nests no deeper than a limit. Fails where memory runs out; the
/// calls up to there are made then.
pub fn opened(alloc: Global, limit: usize, sequence: &mut Sequence<'_>) -> Result<(), AllocError>
    ensures { IsVisited IsApplication (embedded_shown 1 limit) (sequence_tree sequence.old) (ending result) (sequence_tree sequence.new) }
{
    sequence.visit_application_items(alloc, &mut |item| show_embedded(alloc, 1, limit, item))
}

/// Puts the comment `seconds` behind each element of an array. Fails where the item is no array; it stays then. Fails where memory runs out
/// too: some elements have the comment then.
pub fn in_seconds(alloc: Global, item: &mut Item<'_>) -> Result<(), Fault<TypeMismatch>>
    ensures { OnOk result (item_tree item.new ≡ with_elements (λ _ w. (comment (codes "seconds"), w)) (item_tree item.old)) }
{
    item.visit_array_elements(alloc, &mut |element| seconds(alloc, element))
}

/// The comment at an element, which stays.
fn seconds(alloc: Global, element: &mut Item<'_>) -> Result<Option<String>, CallbackError>
    ensures { ValueAnswers (λ w. (comment (codes "seconds"), w)) (item_tree element.old) (answer_of result) (item_tree element.new) }
{
    Ok(Some(String::from_str(alloc, "seconds")?))
}

/// What is done with the value of a key: it is put into a tag 1.
#[derive(Drop)]
pub struct AsTime;

impl<'a> MapValueHandler<'a> for AsTime {
    ghost use Rattle.cbor_edn.specs.Callbacks.{answer_of};
    ghost use Rattle.cbor_edn.specs.View.{item_tree};
    ghost use Rattle.cbor_edn.specs.Handlers.{ValueAnswers};
    ghost use Rattle.cbor_edn_examples.specs.Times.{as_time};

    ghost handles = { λ h x r y. ValueAnswers as_time (item_tree x) (answer_of r) (item_tree y) };

    fn handle(self, alloc: Global, value: &mut Item<'a>) -> Result<Option<String>, CallbackError> {
        value.put_into_tag(alloc, 1)?;
        Ok(None)
    }
}

/// Puts each value of a map into a tag 1, as of numbers that are times. Fails where the item is no map; it stays then. Fails where memory
/// runs out too: some values are in the tag then.
pub fn with_times_tagged(alloc: Global, item: &mut Item<'_>) -> Result<(), Fault<TypeMismatch>>
    ensures { OnOk result (item_tree item.new ≡ (with_keys at_any_key (item_tree item.old)).1) }
{
    item.visit_map_elements(alloc, &mut |key| value_as_time(key))
}

/// What is done with the value of a key, which stays.
fn value_as_time(key: &mut Item<'_>) -> Result<(Option<String>, Option<AsTime>), CallbackError>
    ensures same { item_tree key.new ≡ item_tree key.old }
    ensures answer { KeyAnswers (at_any_key (item_tree key.old)) (key_answer result) (option_map (λ _. as_time) (handler_of result)) }
{
    Ok((None, Some(AsTime)))
}
