//! Comments in tags 38: the direction of a text.
ghost use Rattle.std.specs.Prelude.{◌≡◌, ◌≢◌, option_map};
ghost use Rattle.cbor_edn_core.specs.visit.Callbacks.{answer_of};
ghost use Rattle.cbor_edn_core.specs.visit.Sought.{sought_answer};
ghost use Rattle.cbor_edn_core.specs.tree.View.{item_tree, standalone_tree};
ghost use Rattle.cbor_edn_model.specs.visit.Seeking.{number as tag_arguments};
ghost use Rattle.cbor_edn_model.specs.tree.Trees.{NamedTree};
ghost use Rattle.cbor_edn_model.specs.visit.Visits.{fine};
ghost use Rattle.cbor_edn_conversions.specs.Annotations.{comment_lang, is_called_tag, with_direction, direction as direction_answer};
ghost use Rattle.cbor_edn_conversions.specs.Claims.{name_answer};
ghost use Rattle.cbor_edn_application.specs.Acts.{ActsBy, ActsSo, ActsInside, AnswersSo};
ghost use Rattle.cbor_edn_application.specs.Ordinals.{next_ordinal, direction_in};

use crate::answers::{noted, refusal};
use cbor_edn_core::tree::{Item, StandaloneItem};
use cbor_edn_model::text::keyword::NamedSimple;
use cbor_edn_parts::base::error::CallbackError;
use std::alloc::Global;

/// Which element of an array one is.
#[derive(Clone, Copy)]
pub(crate) enum Ordinal {
    First,
    Second,
    Third,
    Later,
}

impl Ordinal {
    fn next(self) -> Ordinal
        ensures { result ≡ next_ordinal self }
    {
        match self {
            Ordinal::First => Ordinal::Second,
            Ordinal::Second => Ordinal::Third,
            Ordinal::Third | Ordinal::Later => Ordinal::Later,
        }
    }
}

/// Puts a comment behind the third element of the array in a tag 38 (RFC 9290, appendix A): the direction of its text, as `Right-to-left`
/// of `true`. Other tags stay. Answers a comment where the tag holds no array; where memory runs out the item is as before.
pub fn comment_lang_tag(alloc: Global, tag: u64, item: &mut Item<'_>) -> Result<(), CallbackError>
    ensures { ActsBy comment_lang (tag_arguments tag) (item_tree item.old) (sought_answer result) (item_tree item.new) }
{
    if !is_language_tag(item, tag) {
        return Ok(());
    }
    match item.get_tagged_mut() {
        Ok(content) => comment_content(alloc, content),
        Err(_) => Ok(()),
    }
}

/// Whether the item is the tag of the call, and this is 38.
fn is_language_tag(item: &Item<'_>, number: u64) -> bool
    ensures { result ≡ is_called_tag (tag_arguments number) 38 (item_tree item.now) }
{
    match item.get_tag_head() {
        Some((tag, _)) => number == tag && tag == 38,
        None => false,
    }
}

/// The comment in what stands between the parentheses.
fn comment_content(alloc: Global, content: &mut StandaloneItem<'_>) -> Result<(), CallbackError>
    ensures { ActsInside with_direction (standalone_tree content.old) (sought_answer result) (standalone_tree content.new) }
{
    match content.at_mut(&[]) {
        Some(array) => comment_array(alloc, array),
        None => Ok(()),
    }
}

/// The comment at the third element.
fn comment_array(alloc: Global, array: &mut Item<'_>) -> Result<(), CallbackError>
    ensures { ActsSo with_direction (item_tree array.old) (sought_answer result) (item_tree array.new) }
{
    let mut ordinal = Ordinal::First;
    let answer = array.visit_array_elements(
        alloc,
        &mut |element| comment_element(alloc, &mut ordinal, element),
    );
    match answer {
        Ok(()) => Ok(()),
        Err(fault) => Err(refusal(alloc, fault, "Expected array")),
    }
}

/// The comment of an element, by which one it is.
fn comment_element(
    alloc: Global,
    ordinal: &mut Ordinal,
    element: &mut Item<'_>,
) -> Result<Option<String>, CallbackError>
    ensures next { ordinal.new ≡ next_ordinal ordinal.old }
    ensures same { item_tree element.new ≡ item_tree element.old }
    ensures answer { AnswersSo (direction_in ordinal.old (item_tree element.old)) (answer_of result) }
    ensures elsewhere { ordinal.old ≢ Ordinal.Third → answer_of result ≡ fine }
{
    let here = *ordinal;
    *ordinal = here.next();
    match here {
        Ordinal::Third => noted(alloc, direction(element)),
        Ordinal::First | Ordinal::Second | Ordinal::Later => Ok(None),
    }
}

/// The name of a direction of text, by its keyword.
fn direction(element: &Item<'_>) -> Option<&'static str>
    ensures { name_answer (option_map (λ name. name.now) result) ≡ direction_answer (item_tree element.now) }
{
    match element.get_named() {
        Some(keyword) => direction_name(keyword),
        None => None,
    }
}

fn direction_name(keyword: NamedSimple) -> Option<&'static str>
    ensures { name_answer (option_map (λ name. name.now) result) ≡ direction_answer (NamedTree keyword) }
{
    match keyword {
        NamedSimple::True => Some("Right-to-left"),
        NamedSimple::False => Some("Left-to-right"),
        NamedSimple::Null => Some("Automatic direction"),
        NamedSimple::Undefined => None,
    }
}
