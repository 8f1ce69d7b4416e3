//! Public calls of literals and annotations, under their own clauses. Bodies that these clauses refuse stand in
//! `wrong/`: a check here is that of a small crate, and what a clause refuses here it refuses where the call is written.
#![tactic(auto)]

ghost use Rattle.std.specs.Prelude.{◌≡◌, ◌-◌, None, Ok, Err, IfOk, IfErr, OnOk, option_map};
ghost use Rattle.std.specs.String.{string_bytes};
ghost use Rattle.cbor_edn_parts.specs.base.Refusals.{IfTold};
ghost use Rattle.cbor_edn_model.specs.access.Accessed.{map_items};
ghost use Rattle.cbor_edn_model.specs.tree.Items.{nesting};
ghost use Rattle.cbor_edn_model.specs.tree.Trees.{items};
ghost use Rattle.cbor_edn_model.specs.visit.Seeking.{CallArguments, IsApplication, IsTag, number, prefix_and_text};
ghost use Rattle.cbor_edn_model.specs.visit.Visits.{whole};
ghost use Rattle.cbor_edn_core.specs.declared.access.TypeMismatch.TheVariants.{Map};
ghost use Rattle.cbor_edn_core.specs.visit.Callbacks.{answer_of, ending, handler_of, key_answer, IfVisited};
ghost use Rattle.cbor_edn_core.specs.visit.Sought.{sought_answer};
ghost use Rattle.cbor_edn_core.specs.tree.View.{item_tree, sequence_tree};
ghost use Rattle.cbor_edn_conversions.specs.Addresses.{address_literal, pretty_address, resolve_address};
ghost use Rattle.cbor_edn_conversions.specs.All.{pretty_all, resolve_all};
ghost use Rattle.cbor_edn_conversions.specs.Annotations.{comment_lang};
ghost use Rattle.cbor_edn_conversions.specs.Bignums.{pretty_bignum};
ghost use Rattle.cbor_edn_conversions.specs.Claims.{claim_key, with_claims};
ghost use Rattle.cbor_edn_conversions.specs.Cose.{comment_cose};
ghost use Rattle.cbor_edn_conversions.specs.CoseKeys.{with_key_names};
ghost use Rattle.cbor_edn_conversions.specs.EmbeddedItems.{show_embedded};
ghost use Rattle.cbor_edn_conversions.specs.MessageClaims.{message_claims};
ghost use Rattle.cbor_edn_conversions.specs.Tag999.{to_tag999};
ghost use Rattle.cbor_edn_conversions.specs.Times.{pretty_time, resolve_time, time_literal};
ghost use Rattle.cbor_edn_application.specs.Acts.{ActsBy, IsVisited};
ghost use Rattle.cbor_edn_application.specs.Comments.{CommentsBy};
ghost use Rattle.cbor_edn_application.specs.Handlers.{at_claim, at_confirmation, at_parameter, AnyWords, AreKeysVisited, FailsForMemory, IsReserved, KeyAnswers, SaysAsErrors, ValueAnswers};
ghost use Rattle.cbor_edn_application.specs.Sequences.{with_claims_sets, with_each, AreClaimsBegun};

use cbor_edn_application::{CcsHandler, CnfHandler, IpVersion, OscHandler};
use cbor_edn_core::access::TypeMismatch;
use cbor_edn_core::tree::{Item, Sequence};
use cbor_edn_core::visit::MapValueHandler;
use cbor_edn_parts::base::error::{CallbackError, Fault};
use std::alloc::{AllocError, Global};

/// `ip_aol_to_item`.
pub fn ip_aol_to_item<'a>(
    alloc: Global,
    prefix: String,
    text: String,
    item: &mut Item<'a>,
) -> Result<(), CallbackError>
    ensures { ActsBy resolve_address (prefix_and_text (string_bytes prefix) (string_bytes text)) (item_tree item.old) (sought_answer result) (item_tree item.new) }
{
    cbor_edn_application::ip_aol_to_item(alloc, prefix, text, item)
}

/// `ip_item_to_aol`.
pub fn ip_item_to_aol<'a>(
    alloc: Global,
    item: &Item<'a>,
    version: IpVersion,
    wrap: bool,
) -> Result<Item<'a>, Fault<&'static str>>
    ensures converted { IfOk result (λ t. address_literal (item_tree item.now) version wrap ≡ Ok (item_tree t)) }
    ensures refused { IfTold result (λ e. address_literal (item_tree item.now) version wrap ≡ Err e.now) }
{
    cbor_edn_application::ip_item_to_aol(alloc, item, version, wrap)
}

/// `ip_tag_to_aol`.
pub fn ip_tag_to_aol<'a>(alloc: Global, tag: u64, item: &mut Item<'a>) -> Result<(), CallbackError>
    ensures { ActsBy pretty_address (number tag) (item_tree item.old) (sought_answer result) (item_tree item.new) }
{
    cbor_edn_application::ip_tag_to_aol(alloc, tag, item)
}

/// `dt_aol_to_item`.
pub fn dt_aol_to_item(
    alloc: Global,
    prefix: String,
    text: String,
    item: &mut Item<'_>,
) -> Result<(), CallbackError>
    ensures { ActsBy resolve_time (prefix_and_text (string_bytes prefix) (string_bytes text)) (item_tree item.old) (sought_answer result) (item_tree item.new) }
{
    cbor_edn_application::dt_aol_to_item(alloc, prefix, text, item)
}

/// `dt_item_to_aol`.
pub fn dt_item_to_aol<'a>(
    alloc: Global,
    item: &Item<'_>,
    wrap: bool,
) -> Result<Item<'a>, Fault<&'static str>>
    ensures converted { IfOk result (λ t. time_literal (item_tree item.now) wrap ≡ Ok (item_tree t)) }
    ensures refused { IfTold result (λ e. time_literal (item_tree item.now) wrap ≡ Err e.now) }
{
    cbor_edn_application::dt_item_to_aol(alloc, item, wrap)
}

/// `dt_tag_to_aol`.
pub fn dt_tag_to_aol(alloc: Global, tag: u64, item: &mut Item<'_>) -> Result<(), CallbackError>
    ensures { ActsBy pretty_time (number tag) (item_tree item.old) (sought_answer result) (item_tree item.new) }
{
    cbor_edn_application::dt_tag_to_aol(alloc, tag, item)
}

/// `tag23_to_edn_integer`.
pub fn tag23_to_edn_integer<'a>(
    alloc: Global,
    tag: u64,
    item: &mut Item<'a>,
) -> Result<(), CallbackError>
    ensures { ActsBy pretty_bignum (number tag) (item_tree item.old) (sought_answer result) (item_tree item.new) }
{
    cbor_edn_application::tag23_to_edn_integer(alloc, tag, item)
}

/// `all_aol_to_item`.
pub fn all_aol_to_item<'a>(
    alloc: Global,
    prefix: String,
    text: String,
    item: &mut Item<'a>,
) -> Result<(), CallbackError>
    ensures { ActsBy resolve_all (prefix_and_text (string_bytes prefix) (string_bytes text)) (item_tree item.old) (sought_answer result) (item_tree item.new) }
{
    cbor_edn_application::all_aol_to_item(alloc, prefix, text, item)
}

/// `any_aol_to_tag999`.
pub fn any_aol_to_tag999<'a>(
    alloc: Global,
    prefix: String,
    text: String,
    item: &mut Item<'a>,
) -> Result<(), CallbackError>
    ensures { ActsBy to_tag999 (prefix_and_text (string_bytes prefix) (string_bytes text)) (item_tree item.old) (sought_answer result) (item_tree item.new) }
{
    cbor_edn_application::any_aol_to_tag999(alloc, prefix, text, item)
}

/// `all_tag_prettify`.
pub fn all_tag_prettify<'a>(
    alloc: Global,
    tag: u64,
    item: &mut Item<'a>,
) -> Result<(), CallbackError>
    ensures { ActsBy pretty_all (number tag) (item_tree item.old) (sought_answer result) (item_tree item.new) }
{
    cbor_edn_application::all_tag_prettify(alloc, tag, item)
}

/// `comment_lang_tag`.
pub fn comment_lang_tag(alloc: Global, tag: u64, item: &mut Item<'_>) -> Result<(), CallbackError>
    ensures { ActsBy comment_lang (number tag) (item_tree item.old) (sought_answer result) (item_tree item.new) }
{
    cbor_edn_application::comment_lang_tag(alloc, tag, item)
}

/// `comment_ccs`.
pub fn comment_ccs<'a>(
    alloc: Global,
    key: &mut Item<'a>,
) -> Result<(Option<String>, Option<CcsHandler>), CallbackError>
    ensures same { item_tree key.new ≡ item_tree key.old }
    ensures answer { KeyAnswers (claim_key (item_tree key.old)) (key_answer result) (option_map at_claim (handler_of result)) }
    ensures errors { FailsForMemory result }
{
    cbor_edn_application::comment_ccs(alloc, key)
}

/// `CcsHandler::handle`.
pub fn handle<'a>(
    alloc: Global,
    handler: CcsHandler,
    value: &mut Item<'a>,
) -> Result<Option<String>, CallbackError>
    ensures value { ValueAnswers (at_claim handler) (item_tree value.old) (answer_of result) (item_tree value.new) }
    ensures errors { SaysAsErrors AnyWords result }
{
    handler.handle(alloc, value)
}

/// `CnfHandler::handle`.
pub fn handle_confirmation<'a>(
    alloc: Global,
    handler: CnfHandler,
    map: &mut Item<'a>,
) -> Result<Option<String>, CallbackError>
    ensures value { ValueAnswers (at_confirmation handler) (item_tree map.old) (answer_of result) (item_tree map.new) }
    ensures errors { SaysAsErrors AnyWords result }
{
    handler.handle(alloc, map)
}

/// `OscHandler::handle`.
pub fn handle_parameter<'a>(
    alloc: Global,
    handler: OscHandler,
    algorithm: &mut Item<'a>,
) -> Result<Option<String>, CallbackError>
    ensures value { ValueAnswers (at_parameter handler) (item_tree algorithm.old) (answer_of result) (item_tree algorithm.new) }
    ensures errors { SaysAsErrors IsReserved result }
{
    handler.handle(alloc, algorithm)
}

/// `annotate_claims`.
pub fn annotate_claims(alloc: Global, item: &mut Item<'_>) -> Result<(), Fault<TypeMismatch>>
    ensures claims { OnOk result (item_tree item.new ≡ (with_claims (item_tree item.old)).1) }
    ensures visited { IfVisited result (λ r. AreKeysVisited claim_key (item_tree item.old) r (item_tree item.new)) }
    ensures no_map { IfTold result (λ e. (e ≡ Map) × (map_items (item_tree item.old) ≡ None) × (item_tree item.new ≡ item_tree item.old)) }
{
    cbor_edn_application::visits::annotate_claims(alloc, item)
}

/// `annotate_claims_sets`.
pub fn annotate_claims_sets(alloc: Global, sequence: &mut Sequence<'_>) -> Result<(), AllocError>
    ensures annotated { OnOk result (sequence_tree sequence.new ≡ with_claims_sets (sequence_tree sequence.old)) }
    ensures out_of_memory { IfErr result (λ _. AreClaimsBegun (sequence_tree sequence.old) (sequence_tree sequence.new)) }
{
    cbor_edn_application::visits::annotate_claims_sets(alloc, sequence)
}

/// `visits::resolve`.
pub fn resolve(alloc: Global, sequence: &mut Sequence<'_>) -> Result<(), AllocError>
    ensures { IsVisited IsApplication resolve_all (sequence_tree sequence.old) (ending result) (sequence_tree sequence.new) }
{
    cbor_edn_application::visits::resolve(alloc, sequence)
}

/// `show_embedded`.
pub fn show_embedded(
    alloc: Global,
    levels: usize,
    limit: usize,
    item: &mut Item<'_>,
) -> Result<(), CallbackError>
    ensures { (a : CallArguments) → IsApplication (item_tree item.old) a → ActsBy (show_embedded levels limit) a (item_tree item.old) (sought_answer result) (item_tree item.new) }
{
    cbor_edn_application::show_embedded(alloc, levels, limit, item)
}

/// `visits::show_embedded`.
pub fn show_all_embedded(
    alloc: Global,
    levels: usize,
    limit: usize,
    sequence: &mut Sequence<'_>,
) -> Result<(), AllocError>
    ensures { IsVisited IsApplication (show_embedded levels (limit - nesting (items (sequence_tree sequence.old)))) (sequence_tree sequence.old) (ending result) (sequence_tree sequence.new) }
{
    cbor_edn_application::visits::show_embedded(alloc, levels, limit, sequence)
}

/// `comment_cose`.
pub fn comment_cose(alloc: Global, tag: u64, item: &mut Item<'_>) -> Result<(), CallbackError>
    ensures { CommentsBy comment_cose (number tag) (item_tree item.old) (sought_answer result) (item_tree item.new) }
{
    cbor_edn_application::comment_cose(alloc, tag, item)
}

/// `visits::comment_cose`.
pub fn comment_messages(alloc: Global, sequence: &mut Sequence<'_>) -> Result<(), AllocError>
    ensures visited { OnOk result (IsVisited IsTag comment_cose (sequence_tree sequence.old) whole (sequence_tree sequence.new)) }
    ensures items { items (sequence_tree sequence.new) ≡ items (sequence_tree sequence.old) }
{
    cbor_edn_application::visits::comment_cose(alloc, sequence)
}

/// `comment_claims_keys`.
pub fn comment_claims_keys(alloc: Global, sequence: &mut Sequence<'_>) -> Result<(), AllocError>
    ensures keys { OnOk result (sequence_tree sequence.new ≡ with_each with_key_names (sequence_tree sequence.old)) }
    ensures items { items (sequence_tree sequence.new) ≡ items (sequence_tree sequence.old) }
{
    cbor_edn_application::visits::comment_claims_keys(alloc, sequence)
}

/// `annotate_message`.
pub fn annotate_message(alloc: Global, tag: u64, item: &mut Item<'_>) -> Result<(), CallbackError>
    ensures { ActsBy message_claims (number tag) (item_tree item.old) (sought_answer result) (item_tree item.new) }
{
    cbor_edn_application::annotate_message(alloc, tag, item)
}

/// `annotate_messages`.
pub fn annotate_messages(alloc: Global, sequence: &mut Sequence<'_>) -> Result<(), AllocError>
    ensures { IsVisited IsTag message_claims (sequence_tree sequence.old) (ending result) (sequence_tree sequence.new) }
{
    cbor_edn_application::visits::annotate_messages(alloc, sequence)
}
