//! The reader of bytes: each function reads what stands at the front, and answers it with the bytes behind it.
ghost use Rattle.std.specs.Prelude.{◌≡◌, ◌<◌, ◌≤◌, suc, length, map, option_map, Ok, IfOk};
ghost use Rattle.std.specs.Fmt.{signed_decimal};
ghost use Rattle.cbor_edn_parts.specs.Leaves as leaves;
ghost use Rattle.cbor_edn_model.specs.tree.Trees.{NumberTree};
ghost use Rattle.cbor_edn_core.specs.tree.View.{view_list, view_pair_list, view_items, view_pairs, view_pair, item_tree};
ghost use Rattle.cbor_edn_model.specs.tree.TreeLeaves.{texts};
ghost use Rattle.cbor_edn_model.specs.internal.Regular.{list_inside};
ghost use Rattle.cbor_edn_model.specs.internal.CborReading as reading;
ghost use Rattle.cbor_edn_model.specs.internal.CborReading.{DecoderGives, trees, many, until, several, pair_at, number_by, array_by, map_by, tag_by, item_by, item_at, inner, argument_indicator};
ghost use Rattle.cbor_edn_core.specs.internal.RowBuilder.{grown};

use super::CborError;
use super::finish::{finish_items, finish_pairs};
use super::row_builder::RowBuilder;
use super::special::{enclosed_item, special_item};
use super::strings::decode_string;
use crate::tree::{InnerItem, Item, ItemList, Items, Opener, Pair, PairList, Pairs};
use cbor_edn_model::cbor::decode::head::{Argument, Head, Stop, head_of, indicator_of, past_stop};
use cbor_edn_model::text::list_head::ListHead;
use cbor_edn_parts::base::error::Fault;
use cbor_edn_parts::base::indicator::Indicator;
use cbor_edn_parts::base::row::drop_out_of_line;
use cbor_edn_parts::number::{Number, SmallInteger};
use cbor_edn_parts::space::Space;
use cbor_edn_parts::string::StringKind;
use std::alloc::{AllocError, Global};

/// What stands between the brackets of a decoded array.
fn array_inside<'a>(argument: Argument, items: Option<Items<'a>>) -> ItemList<'a>
    ensures { view_list texts result ≡ list_inside (argument_indicator argument) (option_map (view_items texts) items.entry) }
{
    let indicator = indicator_of(argument);
    let space = Space::empty();
    match items {
        None => ItemList::Absent { indicator, space },
        Some(items) => ItemList::Present {
            head: ListHead::spaced(indicator),
            space,
            items,
        },
    }
}

/// What stands between the braces of a decoded map.
fn map_inside<'a>(argument: Argument, pairs: Option<Pairs<'a>>) -> PairList<'a>
    ensures { view_pair_list texts result ≡ list_inside (argument_indicator argument) (option_map (view_pairs texts) pairs.entry) }
{
    let indicator = indicator_of(argument);
    let space = Space::empty();
    match pairs {
        None => PairList::Absent { indicator, space },
        Some(pairs) => PairList::Present {
            head: ListHead::spaced(indicator),
            space,
            pairs,
        },
    }
}

/// A decoded array of the items that were read.
#[inline(never)]
fn array_item<'a>(
    alloc: Global,
    argument: Argument,
    found: RowBuilder<'a, Item<'a>>,
) -> Result<Item<'a>, AllocError>
    ensures { IfOk result (λ t. item_tree t ≡ trees.array argument (map item_tree (grown found.entry))) }
{
    Item::array(alloc, array_inside(argument, finish_items(found)))
}

/// A decoded map of the pairs that were read.
#[inline(never)]
fn map_item<'a>(
    alloc: Global,
    argument: Argument,
    found: RowBuilder<'a, Pair<'a>>,
) -> Result<Item<'a>, AllocError>
    ensures { IfOk result (λ t. item_tree t ≡ trees.cbor_map argument (map (view_pair texts) (grown found.entry))) }
{
    Item::map(alloc, map_inside(argument, finish_pairs(found)))
}

/// The integer of a head without a sign, and the bytes behind it.
#[inline(never)]
fn decode_unsigned<'a, 'b>(
    argument: Argument,
    bytes: &'b [u8],
) -> Result<(Item<'a>, &'b [u8]), Fault<CborError>>
    ensures value { DecoderGives (λ x. (item_tree x.0, x.1.now)) result (number_by trees.unsigned argument bytes.now) }
    ensures shorter { IfOk result (λ x. length x.1.now ≤ length bytes.now) }
{
    let Some((_, n)) = argument else {
        return Err(Fault::Told(CborError::OpenNumber));
    };
    let item = integer_item(SmallInteger::Positive(n), argument);
    Ok((item, bytes))
}

/// The integer of a head with a sign, and the bytes behind it.
#[inline(never)]
fn decode_negative<'a, 'b>(
    argument: Argument,
    bytes: &'b [u8],
) -> Result<(Item<'a>, &'b [u8]), Fault<CborError>>
    ensures value { DecoderGives (λ x. (item_tree x.0, x.1.now)) result (number_by trees.negative argument bytes.now) }
    ensures shorter { IfOk result (λ x. length x.1.now ≤ length bytes.now) }
{
    let Some((_, n)) = argument else {
        return Err(Fault::Told(CborError::OpenNumber));
    };
    let item = integer_item(SmallInteger::Negative(n), argument);
    Ok((item, bytes))
}

/// The simple value or the floating-point number of a head, and the bytes behind it.
#[inline(never)]
#[tactic(auto, unfolding(cbor_edn_model::specs::internal::CborReading::item_by))]
fn decode_special<'a, 'b>(
    alloc: Global,
    argument: Argument,
    bytes: &'b [u8],
    limit: usize,
) -> Result<(Item<'a>, &'b [u8]), Fault<CborError>>
    ensures value { DecoderGives (λ x. (item_tree x.0, x.1.now)) result (item_by trees (inner trees limit) 7 argument bytes.now) }
    ensures shorter { IfOk result (λ x. length x.1.now ≤ length bytes.now) }
{
    let item = special_item(alloc, argument, limit)?;
    Ok((item, bytes))
}

fn integer_item<'a>(integer: SmallInteger, argument: Argument) -> Item<'a>
    ensures { item_tree result ≡ NumberTree (signed_decimal (leaves.small_integer integer)) (argument_indicator argument) }
{
    Item {
        inner: InnerItem::Number(indicator_of(argument), Number::small(integer)),
    }
}

#[cycle(item)]
#[inline(never)]
fn decode_items<'a, 'b>(
    alloc: Global,
    count: u64,
    bytes: &'b [u8],
    limit: usize,
) -> Result<(RowBuilder<'a, Item<'a>>, &'b [u8]), Fault<CborError>>
    ensures value { DecoderGives (λ x. (map item_tree (grown x.0), x.1.now)) result (many (item_at trees limit) count bytes.now) }
    ensures shorter { IfOk result (λ x. length x.1.now ≤ length bytes.now) }
{
    let mut found: RowBuilder<'a, Item<'a>> = RowBuilder::new(alloc);
    let mut rest = bytes;
    for _ in 0..count {
        let (item, after) = decode_item(alloc, rest, limit)?;
        found.push(item)?;
        rest = after;
    }
    Ok((found, rest))
}

#[cycle(item)]
#[inline(never)]
pub(super) fn decode_items_until<'a, 'b>(
    alloc: Global,
    bytes: &'b [u8],
    limit: usize,
    stop: Stop,
) -> Result<(RowBuilder<'a, Item<'a>>, &'b [u8]), Fault<CborError>>
    ensures value { DecoderGives (λ x. (map item_tree (grown x.0), x.1.now)) result (until stop (item_at trees limit) (suc (length bytes.now)) bytes.now) }
    ensures shorter { IfOk result (λ x. length x.1.now ≤ length bytes.now) }
{
    let mut found: RowBuilder<'a, Item<'a>> = RowBuilder::new(alloc);
    let mut rest = bytes;
    'turns: loop {
        match past_stop(stop, rest) {
            Some(after) => return Ok((found, after)),
            None => {
                let (item, after) = decode_item(alloc, rest, limit)?;
                found.push(item)?;
                rest = after;
            }
        }
    }
}

#[cycle(item)]
#[tactic(auto, unfolding(cbor_edn_model::specs::internal::CborReading::pair_at))]
#[inline(never)]
fn decode_pair<'a, 'b>(
    alloc: Global,
    bytes: &'b [u8],
    limit: usize,
) -> Result<(Pair<'a>, &'b [u8]), Fault<CborError>>
    ensures value { DecoderGives (λ x. (view_pair texts x.0, x.1.now)) result (pair_at trees (item_at trees limit) bytes.now) }
    ensures shorter { IfOk result (λ x. length x.1.now < length bytes.now) }
{
    let (key, rest) = decode_item(alloc, bytes, limit)?;
    let (value, rest) = match decode_item(alloc, rest, limit) {
        Ok(read) => read,
        Err(fault) => {
            drop_out_of_line(key);
            return Err(fault);
        }
    };
    let pair = Pair {
        key,
        before_colon: Space::empty(),
        after_colon: Space::single(),
        value,
    };
    Ok((pair, rest))
}

#[cycle(item)]
#[inline(never)]
fn decode_pairs<'a, 'b>(
    alloc: Global,
    count: u64,
    bytes: &'b [u8],
    limit: usize,
) -> Result<(RowBuilder<'a, Pair<'a>>, &'b [u8]), Fault<CborError>>
    ensures value { DecoderGives (λ x. (map (view_pair texts) (grown x.0), x.1.now)) result (many (pair_at trees (item_at trees limit)) count bytes.now) }
    ensures shorter { IfOk result (λ x. length x.1.now ≤ length bytes.now) }
{
    let mut found: RowBuilder<'a, Pair<'a>> = RowBuilder::new(alloc);
    let mut rest = bytes;
    for _ in 0..count {
        let (pair, after) = match decode_pair(alloc, rest, limit) {
            Ok(read) => read,
            Err(fault) => {
                drop_out_of_line(found);
                return Err(fault);
            }
        };
        if let Err(error) = found.push(pair) {
            drop_out_of_line(found);
            return Err(Fault::Memory(error));
        }
        rest = after;
    }
    Ok((found, rest))
}

#[cycle(item)]
#[inline(never)]
fn decode_pairs_until<'a, 'b>(
    alloc: Global,
    bytes: &'b [u8],
    limit: usize,
) -> Result<(RowBuilder<'a, Pair<'a>>, &'b [u8]), Fault<CborError>>
    ensures value { DecoderGives (λ x. (map (view_pair texts) (grown x.0), x.1.now)) result (until Stop.Break (pair_at trees (item_at trees limit)) (suc (length bytes.now)) bytes.now) }
    ensures shorter { IfOk result (λ x. length x.1.now ≤ length bytes.now) }
{
    let mut found: RowBuilder<'a, Pair<'a>> = RowBuilder::new(alloc);
    let mut rest = bytes;
    'turns: loop {
        match past_stop(Stop::Break, rest) {
            Some(after) => return Ok((found, after)),
            None => {
                let (pair, after) = match decode_pair(alloc, rest, limit) {
                    Ok(read) => read,
                    Err(fault) => {
                        drop_out_of_line(found);
                        return Err(fault);
                    }
                };
                if let Err(error) = found.push(pair) {
                    drop_out_of_line(found);
                    return Err(Fault::Memory(error));
                }
                rest = after;
            }
        }
    }
}

#[cycle(item)]
#[tactic(auto, unfolding(cbor_edn_model::specs::internal::CborReading::several))]
#[inline(never)]
fn decode_array<'a, 'b>(
    alloc: Global,
    argument: Argument,
    bytes: &'b [u8],
    limit: usize,
) -> Result<(Item<'a>, &'b [u8]), Fault<CborError>>
    ensures value { DecoderGives (λ x. (item_tree x.0, x.1.now)) result (array_by trees (inner trees limit) argument bytes.now) }
    ensures shorter { IfOk result (λ x. length x.1.now ≤ length bytes.now) }
{
    if limit == 0 {
        return Err(Fault::Told(CborError::TooDeep));
    }
    let read = match argument {
        Some((_, n)) => decode_items(alloc, n, bytes, limit - 1),
        None => decode_items_until(alloc, bytes, limit - 1, Stop::Break),
    };
    let (found, rest) = read?;
    let item = array_item(alloc, argument, found)?;
    Ok((item, rest))
}

#[cycle(item)]
#[tactic(auto, unfolding(cbor_edn_model::specs::internal::CborReading::several))]
#[inline(never)]
fn decode_map<'a, 'b>(
    alloc: Global,
    argument: Argument,
    bytes: &'b [u8],
    limit: usize,
) -> Result<(Item<'a>, &'b [u8]), Fault<CborError>>
    ensures value { DecoderGives (λ x. (item_tree x.0, x.1.now)) result (map_by trees (inner trees limit) argument bytes.now) }
    ensures shorter { IfOk result (λ x. length x.1.now ≤ length bytes.now) }
{
    if limit == 0 {
        return Err(Fault::Told(CborError::TooDeep));
    }
    let read = match argument {
        Some((_, n)) => decode_pairs(alloc, n, bytes, limit - 1),
        None => decode_pairs_until(alloc, bytes, limit - 1),
    };
    let (found, rest) = read?;
    let item = map_item(alloc, argument, found)?;
    Ok((item, rest))
}

/// A tag and the item that it holds.
#[cycle(item)]
#[inline(never)]
fn decode_tag<'a, 'b>(
    alloc: Global,
    argument: Argument,
    bytes: &'b [u8],
    limit: usize,
) -> Result<(Item<'a>, &'b [u8]), Fault<CborError>>
    ensures value { DecoderGives (λ x. (item_tree x.0, x.1.now)) result (tag_by trees (inner trees limit) argument bytes.now) }
    ensures shorter { IfOk result (λ x. length x.1.now ≤ length bytes.now) }
{
    let Some((_, number)) = argument else {
        return Err(Fault::Told(CborError::OpenNumber));
    };
    if limit == 0 {
        return Err(Fault::Told(CborError::TooDeep));
    }
    let (content, rest) = decode_item(alloc, bytes, limit - 1)?;
    let opener = Opener::tag(number, indicator_of(argument));
    Ok((enclosed_item(alloc, opener, content)?, rest))
}

/// The item behind a head.
#[cycle(item)]
#[tactic(auto, unfolding(cbor_edn_model::specs::internal::CborReading::item_by))]
fn decode_behind_head<'a, 'b>(
    alloc: Global,
    head: Head,
    bytes: &'b [u8],
    limit: usize,
) -> Result<(Item<'a>, &'b [u8]), Fault<CborError>>
    ensures value { DecoderGives (λ x. (item_tree x.0, x.1.now)) result (item_by trees (inner trees limit) head.0 head.1 bytes.now) }
    ensures shorter { IfOk result (λ x. length x.1.now ≤ length bytes.now) }
{
    let (major, argument) = head;
    match major {
        0 => decode_unsigned(argument, bytes),
        1 => decode_negative(argument, bytes),
        2 => decode_string(alloc, StringKind::Bytes, argument, bytes),
        3 => decode_string(alloc, StringKind::Text, argument, bytes),
        4 => decode_array(alloc, argument, bytes, limit),
        5 => decode_map(alloc, argument, bytes, limit),
        6 => decode_tag(alloc, argument, bytes, limit),
        _ => decode_special(alloc, argument, bytes, limit),
    }
}

/// The item at the front, nested no deeper than the limit.
#[cycle(item)]
pub fn decode_item<'a, 'b>(
    alloc: Global,
    bytes: &'b [u8],
    limit: usize,
) -> Result<(Item<'a>, &'b [u8]), Fault<CborError>>
    ensures value { DecoderGives (λ x. (item_tree x.0, x.1.now)) result (item_at trees limit bytes.now) }
    ensures shorter { IfOk result (λ x. length x.1.now < length bytes.now) }
{
    let (head, rest) = head_of(bytes)?;
    decode_behind_head(alloc, head, rest, limit)
}
