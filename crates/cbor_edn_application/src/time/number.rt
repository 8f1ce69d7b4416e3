//! The numbers that time literals stand for.
ghost use Rattle.std.specs.Prelude.{◌≡◌, Ok, Err, IfOk, None};
ghost use Rattle.cbor_edn_parts.specs.base.Refusals.{IfTold};
ghost use Rattle.cbor_edn_model.specs.tree.Trees.{NumberTree};
ghost use Rattle.cbor_edn_core.specs.tree.View.{item_tree};
ghost use Rattle.cbor_edn_times_and_addresses.specs.internal.TimeComputing.{instant_number};
ghost use Rattle.cbor_edn_conversions.specs.Conversions.{in_tag};
ghost use Rattle.cbor_edn_conversions.specs.Times.{time_item};

use cbor_edn_core::tree::Item;
use cbor_edn_parts::base::error::Fault;
use cbor_edn_times_and_addresses::time::{Instant, number_text, read_time};
use std::alloc::{AllocError, Global};

/// The number of a time, in tag 1 where it is to be wrapped.
pub(crate) fn time_item<'a>(
    alloc: Global,
    text: &str,
    wrap: bool,
) -> Result<Item<'a>, Fault<&'static str>>
    ensures converted { IfOk result (λ t. time_item wrap text.now ≡ Ok (item_tree t)) }
    ensures refused { IfTold result (λ e. time_item wrap text.now ≡ Err e.now) }
{
    match read_time(text.as_bytes()) {
        Some(instant) => Ok(instant_item(alloc, instant, wrap)?),
        None => Err(Fault::Told("DateTime parsing failed")),
    }
}

fn instant_item<'a>(alloc: Global, instant: Instant, wrap: bool) -> Result<Item<'a>, AllocError>
    ensures { IfOk result (λ t. item_tree t ≡ in_tag wrap 1 (NumberTree (instant_number instant.seconds instant.nanoseconds) None)) }
{
    let number = number(alloc, instant)?;
    if wrap {
        number.tagged(alloc, 1)
    } else {
        Ok(number)
    }
}

fn number<'a>(alloc: Global, instant: Instant) -> Result<Item<'a>, AllocError>
    ensures { IfOk result (λ t. item_tree t ≡ NumberTree (instant_number instant.seconds instant.nanoseconds) None) }
{
    let text = number_text(alloc, instant)?;
    let number = Item::new_number(alloc, text.as_str())?;
    Ok(number.unwrap())
}
