//! Calls that take no memory: each is done while every request for memory is refused.
use crate::callbacks::{comment_elements, comment_keys};
use crate::ready::{Compared, Ready};
use cbor_edn_core::access::TypeMismatch;
use cbor_edn_core::cbor::decode::CborError;
use cbor_edn_core::tree::{Indicator, Item, Sequence, StandaloneItem};
use cbor_edn_expect::memory::{Failure, boxed};
use cbor_edn_model::text::keyword::NamedSimple;
use cbor_edn_parts::base::buffer::TextBuffer;
use cbor_edn_parts::base::error::{
    CallbackError, Fault, InconsistentEdn, ParseError, ParseErrorKind,
};
use cbor_edn_parts::base::looks::Looks;
use cbor_edn_parts::space::policy::DelimiterPolicy;
use std::alloc::{AllocError, AllocFailed, Global};

#[derive(Clone, Copy)]
pub(crate) enum Group {
    Parts,
    Loans,
    Comparisons,
    Discarding,
    Mismatches,
    FromItem,
    Refusals,
    Made,
    Buffers,
    Conversions,
    /// A call that takes memory, by which it is seen that requests are refused.
    Control,
}

/// A name, and a group of calls.
pub(crate) type Row = (&'static str, Group);

/// What must be answered stands in the functions of the groups: parts by the forms of `docs/SUPPORTED.md`, a place by the words of
/// `ParseError`.
pub(crate) const FREE: &[Row] = &[
    ("accessors, get_literal_indicator, nesting", Group::Parts),
    ("at_mut, iterators that lend, has_tag", Group::Loans),
    ("==, is_same", Group::Comparisons),
    ("set_delimiters with DiscardAll", Group::Discarding),
    ("visits of items of another type", Group::Mismatches),
    ("From<Item>, Sequence::of_item", Group::FromItem),
    ("line, column, offset, too_deep", Group::Refusals),
    ("indented, Looks, as_str", Group::Made),
    ("into_bytes, into_string", Group::Buffers),
    ("From<AllocError> and the like", Group::Conversions),
    ("a call that takes memory", Group::Control),
];

/// Makes the calls of a row.
pub(crate) fn called(alloc: Global, ready: Ready<'_>) -> Result<bool, Failure> {
    match ready {
        Ready::Parts(alone) => Ok(are_parts_answered(alone.item())),
        Ready::Loans(mut sequence) => Ok(are_parts_lent(&mut sequence)),
        Ready::Comparisons(compared) => Ok(are_compared(&compared)),
        Ready::Discarding(mut alone, mut sequence) => {
            Ok(is_discarded(alloc, &mut alone) && is_sequence_discarded(alloc, &mut sequence))
        }
        Ready::Mismatches(mut alone) => Ok(is_mismatch(alloc, alone.at_mut(&[]))),
        Ready::FromItem(item, other) => Ok(
            is_five_alone(Box::into_inner(item))
                && is_five_in_sequence(alloc, Box::into_inner(other)),
        ),
        Ready::Refusals(refused) => Ok(is_told(&refused)),
        Ready::Made => Ok(is_made()),
        Ready::Buffers(bytes, text) => Ok(are_taken(bytes, text)),
        Ready::Conversions => Ok(is_converted()),
        Ready::Control => control(alloc),
    }
}

fn are_parts_answered(array: &Item<'_>) -> bool {
    let Ok(mut items) = array.get_array_items() else {
        return false;
    };
    is_number(items.next())
        && is_word(items.next())
        && is_string(items.next())
        && is_tag(items.next())
        && is_map(items.next())
        && is_array(items.next())
        && items.next().is_none()
        && array.nesting() == 2
        && array.get_literal_indicator().is_none()
}

fn is_number(item: Option<&Item<'_>>) -> bool {
    match item {
        Some(item) => {
            item.get_integer() == Ok(-8)
                && item.get_number() == Some(("-8", Some(Indicator::Two)))
                && item.get_tag() == Err(TypeMismatch::TaggedItem)
        }
        None => false,
    }
}

fn is_word(item: Option<&Item<'_>>) -> bool {
    match item {
        Some(item) => {
            item.get_named() == Some(NamedSimple::True)
                && item.get_integer() == Err(TypeMismatch::Integer)
        }
        None => false,
    }
}

fn is_string(item: Option<&Item<'_>>) -> bool {
    match item {
        Some(item) => {
            item.is_plain_string()
                && item.get_literal_indicator() == Some(None)
                && item.get_number().is_none()
                && item.application_prefix().is_none()
        }
        None => false,
    }
}

fn is_tag(item: Option<&Item<'_>>) -> bool {
    match item {
        Some(item) => {
            item.get_tag() == Ok(4)
                && item.get_tag_head() == Some((4, Some(Indicator::One)))
                && is_five(item.get_tagged())
        }
        None => false,
    }
}

fn is_five(content: Result<&StandaloneItem<'_>, TypeMismatch>) -> bool {
    match content {
        Ok(content) => content.item().get_integer() == Ok(5),
        Err(_) => false,
    }
}

fn is_map(item: Option<&Item<'_>>) -> bool {
    let Some(item) = item else {
        return false;
    };
    let mut is_found = false;
    if let Ok(pairs) = item.get_map_items() {
        for (key, value) in pairs {
            is_found = key.get_integer() == Ok(2) && value.get_integer() == Ok(3);
        }
    }
    is_found
}

fn is_array(item: Option<&Item<'_>>) -> bool {
    let Some(item) = item else {
        return false;
    };
    let mut is_found = false;
    if let Ok(items) = item.get_array_items() {
        for item in items {
            is_found = item.get_integer() == Ok(31);
        }
    }
    is_found
}

fn are_parts_lent(sequence: &mut Sequence<'_>) -> bool {
    are_items_lent(sequence)
        && are_elements_lent(sequence.at_mut(&[0]))
        && are_pairs_lent(sequence.at_mut(&[0, 0]))
        && is_content_lent(sequence.at_mut(&[0, 1]))
        && sequence.at_mut(&[0, 2]).is_none()
        && sequence.has_tag()
}

fn are_items_lent(sequence: &mut Sequence<'_>) -> bool {
    let mut is_lent = false;
    for item in sequence.get_items_mut() {
        is_lent = item.get_array_items().is_ok();
    }
    is_lent
}

fn are_elements_lent(array: Option<&mut Item<'_>>) -> bool {
    let Some(array) = array else {
        return false;
    };
    let mut is_lent = false;
    if let Ok(items) = array.get_array_items_mut() {
        for item in items {
            is_lent = item.get_tagged_mut().is_ok();
        }
    }
    is_lent
}

fn are_pairs_lent(map: Option<&mut Item<'_>>) -> bool {
    let Some(map) = map else {
        return false;
    };
    let mut is_lent = false;
    if let Ok(pairs) = map.get_map_items_mut() {
        for (key, value) in pairs {
            is_lent = key.get_integer() == Ok(2) && value.get_integer() == Ok(3);
        }
    }
    is_lent
}

fn is_content_lent(tag: Option<&mut Item<'_>>) -> bool {
    let Some(tag) = tag else {
        return false;
    };
    match tag.get_tagged_mut() {
        Ok(content) => is_lent_five(content.at_mut(&[])),
        Err(_) => false,
    }
}

fn is_lent_five(item: Option<&mut Item<'_>>) -> bool {
    match item {
        Some(item) => item.get_integer() == Ok(5) && item.at_mut(&[0]).is_none(),
        None => false,
    }
}

fn are_compared(trees: &Compared<'_>) -> bool {
    are_same(&trees.alone, &trees.same_alone)
        && are_other(&trees.alone, &trees.other_alone)
        && are_same_sequences(&trees.sequence, &trees.same_sequence)
        && are_other_sequences(&trees.sequence, &trees.other_sequence)
}

fn are_same<'a>(alone: &StandaloneItem<'a>, copy: &StandaloneItem<'a>) -> bool {
    alone.is_same(copy)
        && *alone == *copy
        && alone.item().is_same(copy.item())
        && *alone.item() == *copy.item()
}

fn are_other<'a>(alone: &StandaloneItem<'a>, other: &StandaloneItem<'a>) -> bool {
    !alone.is_same(other)
        && *alone != *other
        && !alone.item().is_same(other.item())
        && *alone.item() != *other.item()
}

fn are_same_sequences<'a>(sequence: &Sequence<'a>, copy: &Sequence<'a>) -> bool {
    sequence.is_same(copy) && *sequence == *copy
}

fn are_other_sequences<'a>(sequence: &Sequence<'a>, other: &Sequence<'a>) -> bool {
    !sequence.is_same(other) && *sequence != *other
}

fn is_discarded(alloc: Global, alone: &mut StandaloneItem<'_>) -> bool {
    is_inside_discarded(alloc, alone.at_mut(&[]))
        && alone
            .set_delimiters(alloc, DelimiterPolicy::DiscardAll)
            .is_ok()
}

fn is_sequence_discarded(alloc: Global, sequence: &mut Sequence<'_>) -> bool {
    sequence
        .set_delimiters(alloc, DelimiterPolicy::DiscardAll)
        .is_ok()
}

fn is_inside_discarded(alloc: Global, item: Option<&mut Item<'_>>) -> bool {
    match item {
        Some(item) => item
            .set_delimiters(alloc, DelimiterPolicy::DiscardAll)
            .is_ok(),
        None => false,
    }
}

fn is_mismatch(alloc: Global, item: Option<&mut Item<'_>>) -> bool {
    match item {
        Some(item) => {
            matches!(
                comment_elements(alloc, item),
                Err(Fault::Told(TypeMismatch::Array))
            ) && matches!(
                comment_keys(alloc, item),
                Err(Fault::Told(TypeMismatch::Map))
            )
        }
        None => false,
    }
}

fn is_five_alone(item: Item<'_>) -> bool {
    let alone = StandaloneItem::from(item);
    alone.item().get_integer() == Ok(5)
}

fn is_five_in_sequence(alloc: Global, item: Item<'_>) -> bool {
    let mut sequence = Sequence::of_item(alloc, item);
    sequence.nesting() == 0 && is_lent_five(sequence.at_mut(&[0]))
}

fn is_told(refused: &ParseError) -> bool {
    (refused.line(), refused.column(), refused.offset()) == (2, 2, 3)
        && !refused.too_deep()
        && *refused == ParseError::new(ParseErrorKind::Invalid, 3, 2, 2)
        && CborError::TooDeep.too_deep()
}

fn is_made() -> bool {
    let mut looks = Looks::new();
    looks.look();
    let indicator = Indicator::Two;
    let named = NamedSimple::Undefined;
    indicator.as_str() == "_1"
        && named.as_str() == "undefined"
        && DelimiterPolicy::indented()
            == DelimiterPolicy::IndentedRegularSpacing {
                base_indent: 0,
                indent_level: 4,
                max_width: 80,
            }
}

fn are_taken(bytes: TextBuffer, text: TextBuffer) -> bool {
    bytes.into_bytes().as_slice() == b"0,".as_slice() && text.into_string().as_str() == "0,"
}

fn is_converted() -> bool {
    let fault: Fault<ParseError> = Fault::from(AllocError);
    let of_block: Fault<ParseError> = Fault::from(AllocFailed { value: true });
    let error = CallbackError::from(AllocError);
    matches!(&fault, Fault::Memory(_))
        && matches!(&of_block, Fault::Memory(_))
        && matches!(&error, CallbackError::Memory(_))
        && is_out_of_range()
}

fn is_out_of_range() -> bool {
    match u8::try_from(256_u16) {
        Ok(_) => false,
        Err(error) => InconsistentEdn::from(error) == InconsistentEdn::NumericRangeExceeded,
    }
}

fn control(alloc: Global) -> Result<bool, Failure> {
    let item = boxed(alloc, Item::new_text(alloc, "a text of some length"))?;
    Ok(item.is_plain_string())
}
