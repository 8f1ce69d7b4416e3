//! The text of items that are changed before they are printed, some elements of their sequence at a time.
//!
//! A step does to elements of a sequence what it does to them by themselves. So some are decoded, changed, printed and dropped, and then
//! the next. What stands between the last of these and the next is printed with an integer in the place of that one, which no step changes.
ghost use Rattle.std.specs.Prelude.{◌≡◌, ◌≢◌, ◌<◌, ◌≤◌, ◌++◌, ◌∷◌, [], true, length, map, All, IfOk, IfErr, OnOk};
ghost use Rattle.cbor_edn_parts.specs.base.Refusals.{IfTold};
ghost use Rattle.cbor_edn_parts.specs.declared.base.error.Fault.TheVariants.{Told};
ghost use Rattle.cbor_edn_parts.specs.declared.space.policy.DelimiterPolicy.TheVariants.{SingleLineRegularSpacing};
ghost use Rattle.cbor_edn_core.specs.tree.Constructed.{element_tree};
ghost use Rattle.cbor_edn_core.specs.tree.View.{item_tree, sequence_tree};
ghost use Rattle.cbor_edn_model.specs.cbor.Decoded.{NoSequence, IsTooDeepSequence};
ghost use Rattle.cbor_edn_model.specs.tree.Constructed.{comma_sequence};
ghost use Rattle.cbor_edn.specs.RunSteps.{Where, IsLaidOut};
ghost use Rattle.cbor_edn.specs.Elements.{IsLine, AreRead, IsFault, IsFaultAmong, zero_item, zero_text, IsTextInFront, IsTextOf};
ghost use Rattle.cbor_edn.specs.LongArrays.{IsFrontText, behind_array};
ghost use Rattle.cbor_edn.specs.OptionSteps.{IsDiagnosed};

use crate::engine::printed;
use crate::long_arrays::{array_text, long_array};
use cbor_edn_command::options::Options;
use cbor_edn_core::cbor::decode::{CborError, decode_item};
use cbor_edn_core::tree::{Item, Sequence};
use cbor_edn_parts::base::error::Fault;
use cbor_edn_parts::space::policy::DelimiterPolicy;
use std::alloc::{AllocError, Global};

/// How many bytes the elements that are changed together have: all but the last of them have fewer.
const TOGETHER: usize = 4096;

/// The text after the steps of the items that bytes encode. Beside the text it takes memory for the trees of some elements.
pub(crate) fn changed(
    alloc: Global,
    options: &Options,
    bytes: &[u8],
) -> Result<Vec<u8>, Fault<CborError>>
    ensures accepted { IfOk result (λ out. IsDiagnosed options.now bytes.now out.items) }
    ensures refused { IfTold result (λ e. e ≢ CborError.TooDeep → NoSequence bytes.now) }
    ensures too_deep { IfTold result (λ e. e ≡ CborError.TooDeep → IsTooDeepSequence options.now.limit bytes.now) }
{
    let (text, rest) = front_text(alloc, options, bytes)?;
    if rest.is_empty() {
        return Ok(text);
    }
    let mut out = text;
    let mut rest = rest;
    'turns: loop {
        let (text, behind) = front_text(alloc, options, rest)?;
        out.extend_from_slice(&text)?;
        if behind.is_empty() {
            return Ok(out);
        }
        rest = behind;
    }
}

/// The text of what stands at the front and is changed together: of some elements, one at least where there are bytes; and the bytes behind.
fn front_text<'b>(
    alloc: Global,
    options: &Options,
    bytes: &'b [u8],
) -> Result<(Vec<u8>, &'b [u8]), Fault<CborError>>
    ensures text { IfOk result (λ x. IsFrontText options.now bytes.now x.0.items x.1.now) }
    ensures refused { IfTold result (λ e. IsFault options.now.limit bytes.now (Told e)) }
    ensures shorter { IfOk result (λ x. 0 < length bytes.now → length x.1.now < length bytes.now) }
{
    if let Some((width, count, elements)) = long_array(options, bytes) {
        let (text, behind) = array_text(alloc, options, width, count, elements)?;
        return Ok((with_line(text, behind.is_empty())?, behind));
    }
    let (items, behind) = front_items(alloc, options, bytes, options.limit, u64::MAX)?;
    let text = if behind.is_empty() {
        text_of(alloc, options, items)?
    } else {
        text_in_front(alloc, options, items)?
    };
    Ok((text, behind))
}

/// A text with the end of its line, and a comma in front of that where others follow.
fn with_line(text: Vec<u8>, is_last: bool) -> Result<Vec<u8>, AllocError>
    ensures { IfOk result (λ out. out.items ≡ text.items ++ behind_array is_last) }
{
    let mut out = text;
    if !is_last {
        out.push(b',')?;
    }
    out.push(b'\n')?;
    Ok(out)
}

/// The items at the front of bytes that are changed together, `most` at most, and one at least where there are bytes; and the bytes behind
/// them. None but the first is a long array.
pub(crate) fn front_items<'a, 'b>(
    alloc: Global,
    options: &Options,
    bytes: &'b [u8],
    limit: usize,
    most: u64,
) -> Result<(Vec<Item<'a>>, &'b [u8]), Fault<CborError>>
    ensures read { IfOk result (λ x. AreRead limit bytes.now (map item_tree x.0.items) x.1.now) }
    ensures most { IfOk result (λ x. length x.0.items ≤ most) }
    ensures refused { IfErr result (λ e. IsFaultAmong limit most bytes.now e) }
    ensures shorter { IfOk result (λ x. 0 < most → 0 < length bytes.now → length x.1.now < length bytes.now) }
{
    let mut items: Vec<Item<'a>> = Vec::new(alloc);
    let mut rest = bytes;
    'items: while goes_on(
        options,
        items.len() as u64,
        most,
        bytes.len() - rest.len(),
        rest,
    ) {
        let (item, behind) = decode_item(alloc, rest, limit)?;
        items.push(item)?;
        rest = behind;
    }
    Ok((items, rest))
}

/// Whether the item at the front goes with so many that were read from so many bytes.
fn goes_on(options: &Options, items: u64, most: u64, read: usize, bytes: &[u8]) -> bool
    ensures some { result ≡ true → (0 < length bytes.now) × (items < most) }
    ensures first { items ≡ 0 → 0 < most → 0 < length bytes.now → result ≡ true }
{
    if bytes.is_empty() || items >= most {
        return false;
    }
    items == 0 || read < TOGETHER && long_array(options, bytes).is_none()
}

/// The text after the steps of items that others follow, with what stands behind the last of them.
fn text_in_front(
    alloc: Global,
    options: &Options,
    items: Vec<Item<'_>>,
) -> Result<Vec<u8>, AllocError>
    requires { All IsLine (map item_tree items.items) }
    ensures { IfOk result (λ out. IsTextInFront options.now (map item_tree items.entry.items) out.items) }
{
    let items = with_zero(alloc, items)?;
    let mut text = text_of(alloc, options, items)?;
    text.truncate(text.len().saturating_sub(zero_len(options)));
    Ok(text)
}

/// The items and the integer 0 behind them.
pub(crate) fn with_zero<'a>(
    alloc: Global,
    items: Vec<Item<'a>>,
) -> Result<Vec<Item<'a>>, AllocError>
    ensures { IfOk result (λ v. map item_tree v.items ≡ map item_tree items.entry.items ++ (zero_item ∷ [])) }
{
    let mut items = items;
    items.push(Item::new_integer_decimal(alloc, 0)?)?;
    Ok(items)
}

/// How long the text of a sequence of 0 is after the steps: with a line feed where it is laid out.
fn zero_len(options: &Options) -> usize
    ensures { result ≡ length (zero_text options.now.preserve_space) }
{
    if options.preserve_space { 1 } else { 2 }
}

/// The text after the steps of all items of a sequence.
fn text_of(alloc: Global, options: &Options, items: Vec<Item<'_>>) -> Result<Vec<u8>, AllocError>
    requires { All IsLine (map item_tree items.items) }
    ensures { IfOk result (λ out. IsTextOf options.now (map item_tree items.entry.items) out.items) }
{
    let several = items.len() > 1;
    let mut sequence = Box::new(alloc, sequence_of(alloc, items)?)?;
    lay_separators(alloc, several, &mut sequence)?;
    printed(alloc, options, &mut sequence)
}

/// Gives a sequence the spaces of a single line, if asked: its items have them, and what stands between two of them may not.
fn lay_separators(alloc: Global, asked: bool, sequence: &mut Sequence<'_>) -> Result<(), AllocError>
    ensures { OnOk result (Where asked (IsLaidOut SingleLineRegularSpacing) (sequence_tree sequence.old) (sequence_tree sequence.new)) }
{
    if asked {
        sequence.set_delimiters(alloc, DelimiterPolicy::SingleLineRegularSpacing)
    } else {
        Ok(())
    }
}

/// A sequence of these items, with commas between them.
fn sequence_of<'a>(alloc: Global, items: Vec<Item<'a>>) -> Result<Sequence<'a>, AllocError>
    ensures { IfOk result (λ s. sequence_tree s ≡ comma_sequence (map element_tree items.entry.items)) }
{
    let mut items = items;
    match items.pop() {
        Some(item) if items.is_empty() => Ok(Sequence::of_item(alloc, item)),
        Some(item) => {
            items.push(item)?;
            Sequence::new(alloc, items)
        }
        None => Sequence::new(alloc, items),
    }
}
