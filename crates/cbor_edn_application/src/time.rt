//! Times: literals as `dt'1970-01-01T00:00:42+00:00'`, and the numbers that they stand for.
ghost use Rattle.std.specs.Prelude.{◌≡◌, true, false, ℕ, List, Some, None, Ok, Err, IfOk, IfSome, IfNone, string_bytes};
ghost use Rattle.cbor_edn_parts.specs.base.Refusals.{IfTold};
ghost use Rattle.cbor_edn_model.specs.visit.Seeking.{number, prefix_and_text};
ghost use Rattle.cbor_edn_core.specs.visit.Sought.{sought_answer};
ghost use Rattle.cbor_edn_core.specs.tree.View.{item_tree};
ghost use Rattle.cbor_edn_conversions.specs.Conversions.{without_tag};
ghost use Rattle.cbor_edn_conversions.specs.Times.{time_item, time_of_literal, time_literal, resolve_time, pretty_time};
ghost use Rattle.cbor_edn_application.specs.Acts.{ActsBy};

use crate::reply::reply;
use crate::tags::tag_indicator_and_content;
use cbor_edn_conversions::indicators::is_shortest;
use cbor_edn_core::tree::{Indicator, Item};
use cbor_edn_parts::base::error::{CallbackError, Fault};
use std::alloc::Global;

mod literal;
mod number;

/// Puts the number that a time literal stands for in its place, for `DT'..'` in tag 1: `1(23)` for `DT'1970-01-01T00:00:23Z'`. Literals
/// of other prefixes stay. Answers a comment where the text is no time; where memory runs out the item is as before.
pub fn dt_aol_to_item(
    alloc: Global,
    prefix: String,
    text: String,
    item: &mut Item<'_>,
) -> Result<(), CallbackError>
    ensures { ActsBy resolve_time (prefix_and_text (string_bytes prefix) (string_bytes text)) (item_tree item.old) (sought_answer result) (item_tree item.new) }
{
    let Some(wrap) = is_tag_wanted(prefix.as_str()) else {
        return Ok(());
    };
    let conversion = number::time_item(alloc, text.as_str(), wrap);
    reply(alloc, item, conversion)
}

/// Whether literals of a prefix stand for times in tag 1, or none where they stand for no times.
fn is_tag_wanted(prefix: &str) -> Option<bool>
    ensures time { IfSome result (λ wrap. (t : List ℕ) → time_of_literal prefix.now t ≡ Some (time_item wrap t)) }
    ensures other { IfNone result ((t : List ℕ) → time_of_literal prefix.now t ≡ None) }
{
    match prefix {
        "dt" => Some(false),
        "DT" => Some(true),
        _ => None,
    }
}

/// Whether literals of a prefix stand for times.
pub(crate) fn is_time(prefix: &str) -> bool
    ensures { result ≡ false → (t : List ℕ) → time_of_literal prefix.now t ≡ None }
{
    is_tag_wanted(prefix).is_some()
}

/// The literal of the time that a number of seconds stands for: `dt'..'`, or with `wrap` `DT'..'`, which stands for the number in tag 1.
/// Fails with a message where the item is no number, no time of the years 0000 to 9999, or has an indicator by which its
/// encoding would change, and where memory runs out.
pub fn dt_item_to_aol<'a>(
    alloc: Global,
    item: &Item<'_>,
    wrap: bool,
) -> Result<Item<'a>, Fault<&'static str>>
    ensures converted { IfOk result (λ t. time_literal (item_tree item.now) wrap ≡ Ok (item_tree t)) }
    ensures refused { IfTold result (λ e. time_literal (item_tree item.now) wrap ≡ Err e.now) }
{
    match literal::instant_of(item) {
        Ok(instant) => Ok(literal::time_literal(alloc, instant, wrap)?),
        Err(message) => Err(Fault::Told(message)),
    }
}

/// Puts `DT'1970-01-01T00:00:42+00:00'` in the place of `1(42)` (RFC 8949, section 3.4.2). Other tags stay. Answers a comment where
/// [`dt_item_to_aol`] refuses the content, or the tag's indicator would be lost; where memory runs out the item is as before.
pub fn dt_tag_to_aol(alloc: Global, tag: u64, item: &mut Item<'_>) -> Result<(), CallbackError>
    ensures { ActsBy pretty_time (number tag) (item_tree item.old) (sought_answer result) (item_tree item.new) }
{
    if tag != 1 {
        return Ok(());
    }
    let Some((indicator, content)) = tag_indicator_and_content(tag, item) else {
        return Ok(());
    };
    let conversion = tag_literal(alloc, indicator, content);
    reply(alloc, item, conversion)
}

/// The literal of what tag 1 holds, where the tag's own indicator may go with it.
fn tag_literal<'a>(
    alloc: Global,
    indicator: Option<Indicator>,
    content: &Item<'_>,
) -> Result<Item<'a>, Fault<&'static str>>
    ensures converted { IfOk result (λ t. without_tag indicator 1 (time_literal (item_tree content.now) true) ≡ Ok (item_tree t)) }
    ensures refused { IfTold result (λ e. without_tag indicator 1 (time_literal (item_tree content.now) true) ≡ Err e.now) }
{
    let literal = dt_item_to_aol(alloc, content, true)?;
    if !is_shortest(indicator, 1) {
        return Err(Fault::Told("Conversion would change the encoding"));
    }
    Ok(literal)
}
