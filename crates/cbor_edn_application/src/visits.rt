//! Whole visits with the functions of the crate.
ghost use Rattle.std.specs.Prelude.{◌≡◌, ◌-◌, ℕ, List, false, None, OnOk};
ghost use Rattle.std.specs.String.{string_bytes};
ghost use Rattle.cbor_edn_parts.specs.base.Refusals.{IfTold};
ghost use Rattle.cbor_edn_core.specs.declared.access.TypeMismatch.TheVariants.{Map};
ghost use Rattle.cbor_edn_core.specs.visit.Callbacks.{ending, IfVisited};
ghost use Rattle.cbor_edn_core.specs.visit.Sought.{sought_answer};
ghost use Rattle.cbor_edn_core.specs.tree.View.{item_tree, sequence_tree};
ghost use Rattle.cbor_edn_model.specs.access.Accessed.{map_items};
ghost use Rattle.cbor_edn_model.specs.visit.Seeking.{CallArguments, IsTag, IsApplication, number as tag_arguments, prefix_and_text};
ghost use Rattle.cbor_edn_model.specs.tree.Items.{nesting};
ghost use Rattle.cbor_edn_model.specs.visit.Visits.{fine, whole};
ghost use Rattle.cbor_edn_model.specs.tree.Trees.{Tree, OneItem, items};
ghost use Rattle.cbor_edn_conversions.specs.Addresses.{resolve_address, pretty_address};
ghost use Rattle.cbor_edn_conversions.specs.All.{resolve_all, pretty_all};
ghost use Rattle.cbor_edn_conversions.specs.Annotations.{commenting, comment_lang};
ghost use Rattle.cbor_edn_conversions.specs.Bignums.{pretty_bignum};
ghost use Rattle.cbor_edn_conversions.specs.Claims.{claim_key, with_claims};
ghost use Rattle.cbor_edn_conversions.specs.Cose.{comment_cose};
ghost use Rattle.cbor_edn_conversions.specs.EmbeddedItems.{show_embedded};
ghost use Rattle.cbor_edn_conversions.specs.MessageClaims.{message_claims};
ghost use Rattle.cbor_edn_conversions.specs.Tag999.{to_tag999};
ghost use Rattle.cbor_edn_conversions.specs.Times.{resolve_time, pretty_time};
ghost use Rattle.cbor_edn_application.specs.Acts.{ActsBy, IsVisited};
ghost use Rattle.cbor_edn_application.specs.Handlers.{AreKeysVisited};
ghost use Rattle.cbor_edn_application.specs.VisitActs.{tag_act, literal_act};

use crate::address::{ip_aol_to_item, ip_tag_to_aol, is_address};
use crate::all::{all_aol_to_item, all_tag_prettify};
use crate::bignum::tag23_to_edn_integer;
use crate::claims::comment_ccs;
pub use crate::claims_sets::annotate_claims_sets;
use crate::cose;
use crate::cose::annotate_message;
use crate::embedded::{room_beside, show_inside};
pub use crate::key_names::comment_claims_keys;
use crate::language::comment_lang_tag;
use crate::tag999::{any_aol_to_tag999, is_built_in};
use crate::time::{dt_aol_to_item, dt_tag_to_aol, is_time};
use cbor_edn_core::access::TypeMismatch;
use cbor_edn_core::tree::{Item, Sequence};
use cbor_edn_parts::base::error::{CallbackError, Fault};
use std::alloc::{AllocError, Global};

/// What is called at each tag. A visit has one closure for all of these: a proof of one more costs half a minute.
#[derive(Clone, Copy)]
pub(crate) enum TagAct<'c> {
    Prettify,
    Addresses,
    Times,
    Bignums,
    Languages,
    Messages,
    Comment(&'c str),
}

/// What is called at each literal.
#[derive(Clone, Copy)]
pub(crate) enum LiteralAct {
    Resolve,
    Addresses,
    Times,
    To999,
}

fn visit_tags(alloc: Global, sequence: &mut Sequence<'_>, act: TagAct<'_>) -> Result<(), AllocError>
    ensures { IsVisited IsTag (tag_act act.entry) (sequence_tree sequence.old) (ending result) (sequence_tree sequence.new) }
{
    sequence.visit_tag_no_deeper(alloc, &mut |tag, item| at_tag(alloc, act, tag, item))
}

fn visit_literals(
    alloc: Global,
    sequence: &mut Sequence<'_>,
    act: LiteralAct,
) -> Result<(), AllocError>
    ensures { IsVisited IsApplication (literal_act act) (sequence_tree sequence.old) (ending result) (sequence_tree sequence.new) }
{
    sequence.visit_application_items(alloc, &mut |item| at_literal(alloc, act, item))
}

fn at_tag(
    alloc: Global,
    act: TagAct<'_>,
    tag: u64,
    item: &mut Item<'_>,
) -> Result<(), CallbackError>
    ensures { ActsBy (tag_act act.entry) (tag_arguments tag) (item_tree item.old) (sought_answer result) (item_tree item.new) }
{
    match act {
        TagAct::Prettify => all_tag_prettify(alloc, tag, item),
        TagAct::Addresses => ip_tag_to_aol(alloc, tag, item),
        TagAct::Times => dt_tag_to_aol(alloc, tag, item),
        TagAct::Bignums => tag23_to_edn_integer(alloc, tag, item),
        TagAct::Languages => comment_lang_tag(alloc, tag, item),
        TagAct::Messages => annotate_message(alloc, tag, item),
        TagAct::Comment(comment) => comment_tag(alloc, comment, tag, item),
    }
}

/// What is called at a literal. Where nothing is done at its prefix, as `h`, it answers at once, without memory.
fn at_literal(alloc: Global, act: LiteralAct, item: &mut Item<'_>) -> Result<(), CallbackError>
    ensures { (a : CallArguments) → IsApplication (item_tree item.old) a → ActsBy (literal_act act) a (item_tree item.old) (sought_answer result) (item_tree item.new) }
{
    let Some(prefix) = item.application_prefix() else {
        return Ok(());
    };
    if !is_sought(act, prefix) {
        return Ok(());
    }
    let (prefix, text) = match item.get_application_literal(alloc) {
        Ok(literal) => literal,
        Err(Fault::Told(_)) => return Ok(()),
        Err(Fault::Memory(refused)) => return Err(CallbackError::Memory(refused)),
    };
    act_at(alloc, act, prefix, text, item)
}

/// Whether anything is done at literals of a prefix.
fn is_sought(act: LiteralAct, prefix: &str) -> bool
    ensures { result ≡ false → (t : List ℕ) (w : Tree OneItem) → literal_act act (prefix_and_text prefix.now t) w ≡ (fine, w) }
{
    match act {
        LiteralAct::Resolve => is_time(prefix) || is_address(prefix),
        LiteralAct::Addresses => is_address(prefix),
        LiteralAct::Times => is_time(prefix),
        LiteralAct::To999 => !is_built_in(prefix),
    }
}

fn act_at(
    alloc: Global,
    act: LiteralAct,
    prefix: String,
    text: String,
    item: &mut Item<'_>,
) -> Result<(), CallbackError>
    ensures { ActsBy (literal_act act) (prefix_and_text (string_bytes prefix) (string_bytes text)) (item_tree item.old) (sought_answer result) (item_tree item.new) }
{
    match act {
        LiteralAct::Resolve => all_aol_to_item(alloc, prefix, text, item),
        LiteralAct::Addresses => ip_aol_to_item(alloc, prefix, text, item),
        LiteralAct::Times => dt_aol_to_item(alloc, prefix, text, item),
        LiteralAct::To999 => any_aol_to_tag999(alloc, prefix, text, item),
    }
}

/// Calls [`all_tag_prettify`] at each tag: times, addresses and bignums become what people read. Fails where memory runs out; the calls
/// up to there are made then.
pub fn prettify(alloc: Global, sequence: &mut Sequence<'_>) -> Result<(), AllocError>
    ensures { IsVisited IsTag pretty_all (sequence_tree sequence.old) (ending result) (sequence_tree sequence.new) }
{
    visit_tags(alloc, sequence, TagAct::Prettify)
}

/// Calls [`all_aol_to_item`] at each literal with a prefix: times and addresses become what they stand for. Fails where memory runs out;
/// the calls up to there are made then.
pub fn resolve(alloc: Global, sequence: &mut Sequence<'_>) -> Result<(), AllocError>
    ensures { IsVisited IsApplication resolve_all (sequence_tree sequence.old) (ending result) (sequence_tree sequence.new) }
{
    visit_literals(alloc, sequence, LiteralAct::Resolve)
}

/// Calls [`ip_tag_to_aol`] at each tag: tags 52 and 54 become address literals. Fails where memory runs out; the calls up to there are
/// made then.
pub fn prettify_addresses(alloc: Global, sequence: &mut Sequence<'_>) -> Result<(), AllocError>
    ensures { IsVisited IsTag pretty_address (sequence_tree sequence.old) (ending result) (sequence_tree sequence.new) }
{
    visit_tags(alloc, sequence, TagAct::Addresses)
}

/// Calls [`dt_tag_to_aol`] at each tag: tags 1 become time literals. Fails where memory runs out; the calls up to there are made then.
pub fn prettify_times(alloc: Global, sequence: &mut Sequence<'_>) -> Result<(), AllocError>
    ensures { IsVisited IsTag pretty_time (sequence_tree sequence.old) (ending result) (sequence_tree sequence.new) }
{
    visit_tags(alloc, sequence, TagAct::Times)
}

/// Calls [`tag23_to_edn_integer`] at each tag: bignums become integers. Fails where memory runs out; the calls up to there are made then.
pub fn prettify_bignums(alloc: Global, sequence: &mut Sequence<'_>) -> Result<(), AllocError>
    ensures { IsVisited IsTag pretty_bignum (sequence_tree sequence.old) (ending result) (sequence_tree sequence.new) }
{
    visit_tags(alloc, sequence, TagAct::Bignums)
}

/// Calls [`ip_aol_to_item`] at each literal with a prefix: address literals become what they stand for. Fails where memory runs out; the
/// calls up to there are made then.
pub fn resolve_addresses(alloc: Global, sequence: &mut Sequence<'_>) -> Result<(), AllocError>
    ensures { IsVisited IsApplication resolve_address (sequence_tree sequence.old) (ending result) (sequence_tree sequence.new) }
{
    visit_literals(alloc, sequence, LiteralAct::Addresses)
}

/// Calls [`dt_aol_to_item`] at each literal with a prefix: time literals become numbers. Fails where memory runs out; the calls up to
/// there are made then.
pub fn resolve_times(alloc: Global, sequence: &mut Sequence<'_>) -> Result<(), AllocError>
    ensures { IsVisited IsApplication resolve_time (sequence_tree sequence.old) (ending result) (sequence_tree sequence.new) }
{
    visit_literals(alloc, sequence, LiteralAct::Times)
}

/// Calls [`any_aol_to_tag999`] at each literal with a prefix: `foo'bar'` becomes `999(["foo", "bar"])`. Fails where memory runs out; the
/// calls up to there are made then.
pub fn to_999(alloc: Global, sequence: &mut Sequence<'_>) -> Result<(), AllocError>
    ensures { IsVisited IsApplication to_tag999 (sequence_tree sequence.old) (ending result) (sequence_tree sequence.new) }
{
    visit_literals(alloc, sequence, LiteralAct::To999)
}

/// Shows byte strings that hold CBOR as embedded sequences, as [`crate::show_embedded`] does: each literal with a prefix whose bytes encode
/// exactly one array, map or tag, and the literals in what is shown, to `levels` levels. What nested within `limit` does so then: a literal
/// is shown where its `<<..>>` nests no deeper than what the deepest item leaves of the limit. Fails where memory runs out; the literals up
/// to there are shown then.
pub fn show_embedded(
    alloc: Global,
    levels: usize,
    limit: usize,
    sequence: &mut Sequence<'_>,
) -> Result<(), AllocError>
    ensures { IsVisited IsApplication (show_embedded levels (limit - nesting (items (sequence_tree sequence.old)))) (sequence_tree sequence.old) (ending result) (sequence_tree sequence.new) }
{
    let room = room_beside(limit, sequence.nesting());
    show_inside(alloc, levels, room, sequence)
}

/// Puts a comment behind each tag: of `1(2)` and `c` it makes `1(2)/ c /`. Fails where memory runs out; the tags before that one have the
/// comment then.
pub fn comment_tags(
    alloc: Global,
    sequence: &mut Sequence<'_>,
    comment: &str,
) -> Result<(), AllocError>
    ensures visited { IsVisited IsTag (commenting comment.now) (sequence_tree sequence.old) (ending result) (sequence_tree sequence.new) }
    ensures items { items (sequence_tree sequence.new) ≡ items (sequence_tree sequence.old) }
{
    visit_tags(alloc, sequence, TagAct::Comment(comment))
}

/// Answers the comment, whatever the tag.
fn comment_tag(
    alloc: Global,
    comment: &str,
    tag: u64,
    item: &mut Item<'_>,
) -> Result<(), CallbackError>
    ensures { ActsBy (commenting comment.now) (tag_arguments tag) (item_tree item.old) (sought_answer result) (item_tree item.new) }
{
    let comment = String::from_str(alloc, comment)?;
    Err(CallbackError::Comment(comment))
}

/// Calls [`comment_lang_tag`] at each tag: the texts of tags 38 get their direction as a comment. Fails where memory runs out; the calls
/// up to there are made then.
pub fn comment_languages(alloc: Global, sequence: &mut Sequence<'_>) -> Result<(), AllocError>
    ensures visited { IsVisited IsTag comment_lang (sequence_tree sequence.old) (ending result) (sequence_tree sequence.new) }
    ensures items { items (sequence_tree sequence.new) ≡ items (sequence_tree sequence.old) }
{
    visit_tags(alloc, sequence, TagAct::Languages)
}

/// Calls [`crate::comment_cose`] at each tag: COSE messages get their names, and those of their parts and header parameters. Fails where
/// memory runs out; some of the comments are there then.
pub fn comment_cose(alloc: Global, sequence: &mut Sequence<'_>) -> Result<(), AllocError>
    ensures visited { OnOk result (IsVisited IsTag comment_cose (sequence_tree sequence.old) whole (sequence_tree sequence.new)) }
    ensures items { items (sequence_tree sequence.new) ≡ items (sequence_tree sequence.old) }
{
    sequence.visit_tag_no_deeper(alloc, &mut |tag, item| cose::comment_cose(alloc, tag, item))
}

/// Calls [`annotate_message`] at each tag: claims sets that are payloads of COSE messages get the names of their claims, and their times
/// become literals. Fails where memory runs out; the calls up to there are made then.
pub fn annotate_messages(alloc: Global, sequence: &mut Sequence<'_>) -> Result<(), AllocError>
    ensures { IsVisited IsTag message_claims (sequence_tree sequence.old) (ending result) (sequence_tree sequence.new) }
{
    visit_tags(alloc, sequence, TagAct::Messages)
}

/// Puts the comments of a claims set (RFC 8392) into a map: `{4: 1700000000}` becomes `{4/ exp /: dt'2023-11-14T22:13:20+00:00'}`. Fails
/// with `Map` where the item is none, and where memory runs out; the keys up to there are done then.
pub fn annotate_claims(alloc: Global, item: &mut Item<'_>) -> Result<(), Fault<TypeMismatch>>
    ensures claims { OnOk result (item_tree item.new ≡ (with_claims (item_tree item.old)).1) }
    ensures visited { IfVisited result (λ r. AreKeysVisited claim_key (item_tree item.old) r (item_tree item.new)) }
    ensures no_map { IfTold result (λ e. (e ≡ Map) × (map_items (item_tree item.old) ≡ None) × (item_tree item.new ≡ item_tree item.old)) }
{
    item.visit_map_elements(alloc, &mut |key| comment_ccs(alloc, key))
}
