//! The functions that visits call at literals, tags and values of claims, each called on one item.
use cbor_edn_application::{
    CcsHandler, CnfHandler, OscHandler, all_aol_to_item, all_tag_prettify, annotate_message,
    any_aol_to_tag999, comment_cose, comment_lang_tag, dt_aol_to_item, dt_tag_to_aol,
    ip_aol_to_item, ip_tag_to_aol, show_embedded, tag23_to_edn_integer,
};
use cbor_edn_core::tree::{Item, NESTING_LIMIT, StandaloneItem};
use cbor_edn_core::visit::MapValueHandler;
use cbor_edn_expect::memory::Failure;
use cbor_edn_parts::base::error::{CallbackError, Fault};
use std::alloc::Global;

#[derive(Clone, Copy)]
pub(crate) enum Act {
    Literal(OfLiteral),
    Tag(OfTag),
    Claim(CcsHandler),
    Confirmation(CnfHandler),
    Parameter(OscHandler),
    Embedded,
}

#[derive(Clone, Copy)]
pub(crate) enum OfLiteral {
    Time,
    Address,
    All,
    To999,
}

#[derive(Clone, Copy)]
pub(crate) enum OfTag {
    Time,
    Address,
    Bignum,
    All,
    Language,
    Message,
    Claims,
}

/// Calls the function with what the item is, and puts the comment that it answers in front of the item.
pub(crate) fn acted(
    alloc: Global,
    item: &mut StandaloneItem<'_>,
    which: Act,
) -> Result<(), Failure> {
    let answer = match item.at_mut(&[]) {
        Some(inner) => act_on(alloc, inner, which),
        None => Ok(None),
    };
    match answer {
        Ok(Some(comment)) | Err(CallbackError::Comment(comment)) => {
            Ok(item.set_comment(alloc, comment.as_str())?)
        }
        Ok(None) => Ok(()),
        Err(CallbackError::Memory(_)) => Err(Failure::Refused),
    }
}

fn act_on(alloc: Global, item: &mut Item<'_>, which: Act) -> Result<Option<String>, CallbackError> {
    match which {
        Act::Literal(call) => without_comment(act_on_literal(alloc, item, call)),
        Act::Tag(call) => without_comment(act_on_tag(alloc, item, call)),
        Act::Claim(handler) => handler.handle(alloc, item),
        Act::Confirmation(handler) => handler.handle(alloc, item),
        Act::Parameter(handler) => handler.handle(alloc, item),
        Act::Embedded => without_comment(show_embedded(alloc, 8, NESTING_LIMIT, item)),
    }
}

fn without_comment(answer: Result<(), CallbackError>) -> Result<Option<String>, CallbackError> {
    match answer {
        Ok(()) => Ok(None),
        Err(error) => Err(error),
    }
}

fn act_on_literal(
    alloc: Global,
    item: &mut Item<'_>,
    call: OfLiteral,
) -> Result<(), CallbackError> {
    let (prefix, text) = match item.get_application_literal(alloc) {
        Ok(parts) => parts,
        Err(Fault::Memory(refused)) => return Err(CallbackError::Memory(refused)),
        Err(Fault::Told(_)) => return Ok(()),
    };
    match call {
        OfLiteral::Time => dt_aol_to_item(alloc, prefix, text, item),
        OfLiteral::Address => ip_aol_to_item(alloc, prefix, text, item),
        OfLiteral::All => all_aol_to_item(alloc, prefix, text, item),
        OfLiteral::To999 => any_aol_to_tag999(alloc, prefix, text, item),
    }
}

fn act_on_tag(alloc: Global, item: &mut Item<'_>, call: OfTag) -> Result<(), CallbackError> {
    let Ok(tag) = item.get_tag() else {
        return Ok(());
    };
    match call {
        OfTag::Time => dt_tag_to_aol(alloc, tag, item),
        OfTag::Address => ip_tag_to_aol(alloc, tag, item),
        OfTag::Bignum => tag23_to_edn_integer(alloc, tag, item),
        OfTag::All => all_tag_prettify(alloc, tag, item),
        OfTag::Language => comment_lang_tag(alloc, tag, item),
        OfTag::Message => comment_cose(alloc, tag, item),
        OfTag::Claims => annotate_message(alloc, tag, item),
    }
}
