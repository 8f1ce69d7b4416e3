//! Simple values and floating-point numbers from their encoding.
ghost use Rattle.std.specs.Prelude.{◌≡◌, IfOk, None};
ghost use Rattle.cbor_edn_model.specs.internal.CborReading as reading;
ghost use Rattle.cbor_edn_model.specs.internal.CborReading.{DecoderGives, trees, inner};
ghost use Rattle.cbor_edn_model.specs.cbor.Decoded as decoded;
ghost use Rattle.cbor_edn_model.specs.cbor.Decoded.{alone};
ghost use Rattle.cbor_edn_model.specs.tree.Trees.{EnclosedTree, NumberTree};
ghost use Rattle.std.specs.Fmt.{decimal};
ghost use Rattle.cbor_edn_core.specs.tree.View.{item_tree};

use super::CborError;
use crate::tree::{InnerItem, Item, Opener, StandaloneItem};
use cbor_edn_model::cbor::decode::float::{float_indicator, non_finite};
use cbor_edn_model::cbor::decode::head::Argument;
use cbor_edn_model::cbor::heads::Width;
use cbor_edn_model::text::keyword::{NamedSimple, NonFinite};
use cbor_edn_parts::base::error::Fault;
use cbor_edn_parts::number::{Number, SmallInteger};
use std::alloc::{AllocError, Global};

/// The simple value or the floating-point number of a head of major type 7.
pub(super) fn special_item<'a>(
    alloc: Global,
    argument: Argument,
    limit: usize,
) -> Result<Item<'a>, Fault<CborError>>
    ensures { DecoderGives item_tree result (reading.special_by trees (inner trees limit) argument) }
{
    match argument {
        None => Err(Fault::Told(CborError::MisplacedBreak)),
        Some((Width::Immediate, n)) => simple_item(alloc, n, limit),
        Some((Width::One, n)) if n < 32 => Err(Fault::Told(CborError::InvalidSimple)),
        Some((Width::One, n)) => simple_item(alloc, n, limit),
        Some((width, bits)) => float_item(width, bits),
    }
}

/// A simple value by its name, or in `simple(..)`, which nests.
#[tactic(auto, unfolding(cbor_edn_model::specs::internal::Regular::regular))]
fn simple_item<'a>(alloc: Global, number: u64, limit: usize) -> Result<Item<'a>, Fault<CborError>>
    ensures { DecoderGives item_tree result (reading.simple_by trees (inner trees limit) number) }
{
    let inner = match number {
        20 => InnerItem::Named(NamedSimple::False),
        21 => InnerItem::Named(NamedSimple::True),
        22 => InnerItem::Named(NamedSimple::Null),
        23 => InnerItem::Named(NamedSimple::Undefined),
        _ if limit == 0 => return Err(Fault::Told(CborError::TooDeep)),
        _ => return Ok(enclosed_item(alloc, Opener::simple(), numeral(number))?),
    };
    Ok(Item { inner })
}

fn numeral<'a>(number: u64) -> Item<'a>
    ensures { item_tree result ≡ NumberTree (decimal number) None }
{
    let number = Number::small(SmallInteger::Positive(number));
    Item {
        inner: InnerItem::Number(None, number),
    }
}

/// The item between parentheses, with no space round it, behind a label.
pub(super) fn enclosed_item<'a>(
    alloc: Global,
    opener: Opener,
    item: Item<'a>,
) -> Result<Item<'a>, AllocError>
    ensures { IfOk result (λ t. item_tree t ≡ EnclosedTree opener.kind (alone (item_tree item.entry))) }
{
    Item::enclosed(alloc, opener, StandaloneItem::from(item))
}

/// The floating-point number of so many bytes with these bits: finite ones are refused.
fn float_item<'a>(width: Width, bits: u64) -> Result<Item<'a>, Fault<CborError>>
    ensures { DecoderGives item_tree result (reading.float_by trees width (reading.float_of width bits)) }
{
    let Some(float) = non_finite(width, bits) else {
        return Err(Fault::Told(CborError::FloatOutOfScope));
    };
    Ok(Item {
        inner: InnerItem::NonFinite(float_indicator(width), float),
    })
}
