//! The literals of the times that numbers stand for.
ghost use Rattle.std.specs.Prelude.{◌≡◌, IfOk, IfErr};
ghost use Rattle.cbor_edn_parts.specs.string.Literal.{IsPrefix};
ghost use Rattle.cbor_edn_core.specs.tree.View.{item_tree};
ghost use Rattle.cbor_edn_times_and_addresses.specs.Time.{IsTimeStamp};
ghost use Rattle.cbor_edn_times_and_addresses.specs.internal.TimeComputing.{time_text};
ghost use Rattle.cbor_edn_conversions.specs.Conversions.{argument, literal_tree};
ghost use Rattle.cbor_edn_conversions.specs.Times.{time_prefix, time_literal};
ghost use Rattle.cbor_edn_application.specs.TimeSteps.{BecomesTime, StaysFor, integer_literal, decimal_literal, not_time_message};

use cbor_edn_conversions::indicators::is_shortest;
use cbor_edn_core::access::TypeMismatch;
use cbor_edn_core::tree::{Indicator, Item};
use cbor_edn_parts::base::error::Fault;
use cbor_edn_times_and_addresses::time::{
    Instant, NotTime, printed_time, read_decimal, read_integer,
};
use std::alloc::{AllocError, Global};

/// The instant of a number, or why no literal stands for it.
pub(crate) fn instant_of(item: &Item<'_>) -> Result<Instant, &'static str>
    ensures instant { IfOk result (λ i. BecomesTime (time_literal (item_tree item.now)) i.seconds i.nanoseconds) }
    ensures refused { IfErr result (λ e. StaysFor (time_literal (item_tree item.now)) e.now) }
{
    let Some((text, indicator)) = item.get_number() else {
        return Err("Numeric value expected for dt'' literal");
    };
    match item.get_integer() {
        Ok(integer) => instant_of_integer(integer, indicator),
        Err(mismatch) => {
            if mismatch == TypeMismatch::IntegerInRange {
                return Err("Value out of range for time stamps");
            }
            instant_of_decimal(text, indicator)
        }
    }
}

fn instant_of_integer(integer: i128, indicator: Option<Indicator>) -> Result<Instant, &'static str>
    ensures instant { IfOk result (λ i. BecomesTime (integer_literal integer indicator) i.seconds i.nanoseconds) }
    ensures refused { IfErr result (λ e. StaysFor (integer_literal integer indicator) e.now) }
{
    let Some(instant) = read_integer(integer) else {
        return Err("Value out of range for time stamps");
    };
    if !is_shortest(indicator, argument(instant.seconds)) {
        return Err("Conversion would change the encoding");
    }
    Ok(instant)
}

/// The argument of the head of an integer's encoding.
fn argument(integer: i64) -> u64
    ensures { result ≡ argument integer }
{
    if integer < 0 {
        (integer + 1).unsigned_abs()
    } else {
        integer.unsigned_abs()
    }
}

fn instant_of_decimal(text: &str, indicator: Option<Indicator>) -> Result<Instant, &'static str>
    ensures instant { IfOk result (λ i. BecomesTime (decimal_literal text.now indicator) i.seconds i.nanoseconds) }
    ensures refused { IfErr result (λ e. StaysFor (decimal_literal text.now indicator) e.now) }
{
    if indicator.is_some() {
        return Err("Number not readable as a time");
    }
    match read_decimal(text.as_bytes()) {
        Ok(instant) => Ok(instant),
        Err(refusal) => Err(message_of(refusal)),
    }
}

fn message_of(refusal: NotTime) -> &'static str
    ensures { result.now ≡ not_time_message refusal }
{
    match refusal {
        NotTime::Unreadable => "Number not readable as a time",
        NotTime::OutOfRange => "Value out of range for time stamps",
    }
}

/// The literal of an instant.
pub(crate) fn time_literal<'a>(
    alloc: Global,
    instant: Instant,
    wrap: bool,
) -> Result<Item<'a>, AllocError>
    requires { IsTimeStamp instant.seconds }
    ensures { IfOk result (λ t. item_tree t ≡ literal_tree (time_prefix wrap) (time_text instant.seconds instant.nanoseconds)) }
{
    let text = printed_time(alloc, instant)?;
    literal(alloc, time_prefix(wrap), text.as_str())
}

fn time_prefix(wrap: bool) -> &'static str
    ensures text { result.now ≡ time_prefix wrap }
    ensures prefix { IsPrefix result.now }
{
    if wrap { "DT" } else { "dt" }
}

/// A literal of a prefix of the grammar.
fn literal<'a>(alloc: Global, prefix: &str, text: &str) -> Result<Item<'a>, AllocError>
    requires { IsPrefix prefix.now }
    ensures { IfOk result (λ t. item_tree t ≡ literal_tree prefix.now text.now) }
{
    match Item::new_application_literal(alloc, prefix, text) {
        Ok(literal) => Ok(literal),
        Err(Fault::Memory(refused)) => Err(refused),
        Err(Fault::Told(_)) => unreachable!(),
    }
}
