//! The calls that change a tree in its place.
use crate::acts::{Act, acted};
use crate::callbacks::{
    comment_claims, comment_elements, comment_keys, comment_literals, comment_sequence_items,
    comment_sequence_literals, comment_sequence_tags, comment_tags, comment_tags_that_stay,
};
use cbor_edn_application::visits;
use cbor_edn_core::tree::{Item, NESTING_LIMIT, Sequence, StandaloneItem};
use cbor_edn_expect::memory::Failure;
use cbor_edn_parts::space::policy::DelimiterPolicy;
use std::alloc::Global;

#[derive(Clone, Copy)]
pub(crate) enum Change {
    Delimit(Kind, DelimiterPolicy),
    Item(OfItem),
    Standalone(OfStandalone),
    Sequence(OfSequence),
}

#[derive(Clone, Copy)]
pub(crate) enum Kind {
    Item,
    Standalone,
    Sequence,
}

#[derive(Clone, Copy)]
pub(crate) enum OfItem {
    DiscardIndicators,
    /// Indented first, since more than a space behind an indicator comes by this alone.
    IndentAndDiscardIndicators,
    PutIntoTag(u64),
    /// Calls that answer comments.
    Elements,
    Keys,
    Claims,
    AnnotateClaims,
}

#[derive(Clone, Copy)]
pub(crate) enum OfStandalone {
    SetComment(&'static str),
    Tags,
    Literals,
    Act(Act),
}

#[derive(Clone, Copy)]
pub(crate) enum OfSequence {
    DiscardIndicators,
    IndentAndDiscardIndicators,
    Tags,
    TagsThatStay,
    Literals,
    LiteralItems,
    Prettify,
    PrettifyAddresses,
    PrettifyTimes,
    PrettifyBignums,
    Resolve,
    ResolveAddresses,
    ResolveTimes,
    To999,
    CommentTags(&'static str),
    CommentLanguages,
    AnnotateClaimsSets,
    AnnotateMessages,
    CommentClaimsKeys,
    CommentCose,
    ShowEmbedded,
}

/// Every list and its parts on lines of their own.
pub(crate) const LINES: DelimiterPolicy = DelimiterPolicy::IndentedRegularSpacing {
    base_indent: 0,
    indent_level: 1,
    max_width: 0,
};

impl Change {
    pub(crate) fn is_of_sequence(self) -> bool {
        matches!(
            self,
            Change::Delimit(Kind::Sequence, _) | Change::Sequence(_)
        )
    }
}

pub(crate) fn change_sequence(
    alloc: Global,
    sequence: &mut Sequence<'_>,
    change: Change,
) -> Result<(), Failure> {
    match change {
        Change::Delimit(_, policy) => Ok(sequence.set_delimiters(alloc, policy)?),
        Change::Sequence(call) => call_sequence(alloc, sequence, call),
        Change::Item(_) | Change::Standalone(_) => Err(Failure::Wrong),
    }
}

fn call_sequence(
    alloc: Global,
    sequence: &mut Sequence<'_>,
    call: OfSequence,
) -> Result<(), Failure> {
    let answer = match call {
        OfSequence::DiscardIndicators => sequence.discard_encoding_indicators(alloc),
        OfSequence::IndentAndDiscardIndicators => {
            sequence.set_delimiters(alloc, LINES)?;
            sequence.discard_encoding_indicators(alloc)
        }
        OfSequence::Tags => comment_sequence_tags(alloc, sequence),
        OfSequence::TagsThatStay => comment_tags_that_stay(alloc, sequence),
        OfSequence::Literals => comment_sequence_literals(alloc, sequence),
        OfSequence::LiteralItems => comment_sequence_items(alloc, sequence),
        OfSequence::Prettify => visits::prettify(alloc, sequence),
        OfSequence::PrettifyAddresses => visits::prettify_addresses(alloc, sequence),
        OfSequence::PrettifyTimes => visits::prettify_times(alloc, sequence),
        OfSequence::PrettifyBignums => visits::prettify_bignums(alloc, sequence),
        OfSequence::Resolve => visits::resolve(alloc, sequence),
        OfSequence::ResolveAddresses => visits::resolve_addresses(alloc, sequence),
        OfSequence::ResolveTimes => visits::resolve_times(alloc, sequence),
        OfSequence::To999 => visits::to_999(alloc, sequence),
        OfSequence::CommentTags(comment) => visits::comment_tags(alloc, sequence, comment),
        OfSequence::CommentLanguages => visits::comment_languages(alloc, sequence),
        OfSequence::AnnotateClaimsSets => visits::annotate_claims_sets(alloc, sequence),
        OfSequence::AnnotateMessages => visits::annotate_messages(alloc, sequence),
        OfSequence::CommentClaimsKeys => visits::comment_claims_keys(alloc, sequence),
        OfSequence::CommentCose => visits::comment_cose(alloc, sequence),
        OfSequence::ShowEmbedded => visits::show_embedded(alloc, 8, NESTING_LIMIT, sequence),
    };
    Ok(answer?)
}

pub(crate) fn change_standalone(
    alloc: Global,
    item: &mut StandaloneItem<'_>,
    change: Change,
) -> Result<(), Failure> {
    match change {
        Change::Delimit(Kind::Standalone, policy) => Ok(item.set_delimiters(alloc, policy)?),
        Change::Standalone(call) => call_standalone(alloc, item, call),
        Change::Delimit(_, _) | Change::Item(_) => change_inner(alloc, item.at_mut(&[]), change),
        Change::Sequence(_) => Err(Failure::Wrong),
    }
}

fn call_standalone(
    alloc: Global,
    item: &mut StandaloneItem<'_>,
    call: OfStandalone,
) -> Result<(), Failure> {
    let answer = match call {
        OfStandalone::SetComment(comment) => item.set_comment(alloc, comment),
        OfStandalone::Tags => comment_tags(alloc, item),
        OfStandalone::Literals => comment_literals(alloc, item),
        OfStandalone::Act(which) => return acted(alloc, item, which),
    };
    Ok(answer?)
}

fn change_inner(alloc: Global, item: Option<&mut Item<'_>>, change: Change) -> Result<(), Failure> {
    match (item, change) {
        (Some(item), Change::Delimit(_, policy)) => Ok(item.set_delimiters(alloc, policy)?),
        (Some(item), Change::Item(call)) => call_item(alloc, item, call),
        _ => Err(Failure::Wrong),
    }
}

fn call_item(alloc: Global, item: &mut Item<'_>, call: OfItem) -> Result<(), Failure> {
    match call {
        OfItem::DiscardIndicators => Ok(item.discard_encoding_indicators(alloc)?),
        OfItem::IndentAndDiscardIndicators => {
            item.set_delimiters(alloc, LINES)?;
            Ok(item.discard_encoding_indicators(alloc)?)
        }
        OfItem::PutIntoTag(number) => Ok(item.put_into_tag(alloc, number)?),
        OfItem::Elements => Ok(comment_elements(alloc, item)?),
        OfItem::Keys => Ok(comment_keys(alloc, item)?),
        OfItem::Claims => Ok(comment_claims(alloc, item)?),
        OfItem::AnnotateClaims => Ok(visits::annotate_claims(alloc, item)?),
    }
}
