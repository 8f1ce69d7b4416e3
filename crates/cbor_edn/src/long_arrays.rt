//! The text of long arrays, whose elements are changed before they are printed, some at a time.
//!
//! An array of as many elements as a line has columns has lines of its own, whatever the steps make of its elements. What they make of these
//! is what they make of them in another array. So some are decoded, changed and printed in an array of their own, behind so many integers
//! that this one has lines too. Their text is cut out of its text, and they are dropped.
ghost use Rattle.std.specs.Prelude.{◌≡◌, ◌++◌, ◌+◌, ◌-◌, ◌≤◌, ◌<◌, [], length, map, replicate, All, Err, IfOk, IfSome, OnOk};
ghost use Rattle.cbor_edn_core.specs.tree.Constructed.{element_tree};
ghost use Rattle.cbor_edn_core.specs.tree.View.{item_tree, sequence_tree};
ghost use Rattle.cbor_edn_model.specs.tree.Constructed.{comma_inside};
ghost use Rattle.cbor_edn_model.specs.tree.Items.{Array};
ghost use Rattle.cbor_edn_model.specs.tree.Trees.{ElementTree, LastTree, ListTree};
ghost use Rattle.cbor_edn_model.specs.internal.CborReading.{item_at, many, trees};
ghost use Rattle.cbor_edn_parts.specs.base.Refusals.{IfTold};
ghost use Rattle.cbor_edn.specs.Elements.{IsLine, elements, zero_item};
ghost use Rattle.cbor_edn.specs.LongArrays.{ChangesTags, IsLongArray, IsFront, IsArrayRead, IsTextBehindZeros, IsTextWithin, IsTextAtEnd, Puts, in_lines};
ghost use Rattle.cbor_edn.specs.LongArrays as arrays;

use crate::elements::{front_items, with_zero};
use crate::engine::printed;
use crate::option_steps::change_untagged;
use cbor_edn_command::options::Options;
use cbor_edn_core::cbor::decode::CborError;
use cbor_edn_core::tree::{Item, Sequence};
use cbor_edn_model::cbor::decode::head::{head_of, indicator_of};
use cbor_edn_model::cbor::heads::Width;
use cbor_edn_model::text::list_head::ListHead;
use cbor_edn_parts::base::buffer::TextBuffer;
use cbor_edn_parts::base::error::Fault;
use cbor_edn_parts::space::Space;
use cbor_edn_parts::space::layout::{Layout, Slot, print_space};
use cbor_edn_parts::space::policy::DelimiterPolicy;
use std::alloc::{AllocError, Global};

/// How many columns a line has, and so how many elements an array of which it is known that it has lines of its own.
const COLUMNS: usize = 80;

/// How many bytes stand in front of the elements behind the integers: a bracket and a line, and an integer, a comma and a line for each.
const FRONT: usize = 6 + 7 * COLUMNS;

/// How many bytes stand behind the last elements and their bracket: a line feed.
const BEHIND_LAST: usize = 1;

/// How many bytes stand behind the others: an integer on its line, the bracket on its own, and a line feed.
const BEHIND_OTHERS: usize = 4;

/// The head of a long array at the front, how it encodes its length and which, and the bytes behind it. None where a step is asked for that may
/// change other items than tags, or keep other spaces than those of the indented policy.
pub(crate) fn long_array<'b>(options: &Options, bytes: &'b [u8]) -> Option<(Width, u64, &'b [u8])>
    ensures { IfSome result (λ a. IsLongArray options.now bytes.now a.0 a.1 a.2.now) }
{
    if change_untagged(options) || options.limit == 0 {
        return None;
    }
    match head_of(bytes) {
        Ok(((4, Some((width, count))), behind)) if count >= COLUMNS as u64 => {
            Some((width, count, behind))
        }
        _ => None,
    }
}

/// The text of a long array behind its head, without what stands behind it, and the bytes behind the array.
pub(crate) fn array_text<'b>(
    alloc: Global,
    options: &Options,
    width: Width,
    count: u64,
    bytes: &'b [u8],
) -> Result<(Vec<u8>, &'b [u8]), Fault<CborError>>
    requires tags { ChangesTags options.now }
    requires long { 80 ≤ count }
    requires room { 0 < options.now.limit }
    ensures text { IfOk result (λ x. IsArrayRead options.now width count bytes.now x.0.items x.1.now) }
    ensures refused { IfTold result (λ e. many (item_at trees (options.now.limit - 1)) count bytes.now ≡ Err e) }
    ensures shorter { IfOk result (λ x. length x.1.now ≤ length bytes.now) }
{
    let mut out = array_front(alloc, width, count)?;
    let mut left = count;
    let mut rest = bytes;
    'turns: loop {
        let (elements, behind) = front_items(alloc, options, rest, options.limit - 1, left)?;
        let read = elements.len() as u64;
        if read == left {
            push_last(alloc, options, elements, &mut out)?;
            return Ok((out, behind));
        }
        if read == 0 {
            return Err(Fault::Told(CborError::OutOfData));
        }
        push_others(alloc, options, elements, &mut out)?;
        left -= read;
        rest = behind;
    }
}

/// What stands in front of the first element.
fn array_front(alloc: Global, width: Width, count: u64) -> Result<Vec<u8>, AllocError>
    ensures { IfOk result (λ out. IsFront width count out.items) }
{
    let mut out = TextBuffer::new(alloc);
    let layout = layout_in_lines();
    out.push_str("[")?;
    ListHead::spaced(indicator_of(Some((width, count)))).print(&mut out, layout)?;
    print_space(&mut out, &Space::empty(), layout, Slot::First)?;
    Ok(out.into_bytes())
}

/// How the elements are laid out.
fn layout_in_lines() -> Layout
    ensures { result ≡ in_lines }
{
    Layout::of(DelimiterPolicy::indented()).of_parts(usize::MAX)
}

/// Puts the text of elements that others follow behind another, with what stands between.
fn push_others(
    alloc: Global,
    options: &Options,
    elements: Vec<Item<'_>>,
    out: &mut Vec<u8>,
) -> Result<(), AllocError>
    requires tags { ChangesTags options.now }
    requires lines { All IsLine (map item_tree elements.items) }
    ensures { OnOk result (Puts (IsTextWithin options.now (map item_tree elements.entry.items)) out.old.items out.new.items) }
{
    let text = text_behind_zeros(alloc, options, with_zero(alloc, elements)?)?;
    Ok(out.extend_from_slice(cut(&text, BEHIND_OTHERS))?)
}

/// Puts the text of the last elements, and the end of their array, behind another.
fn push_last(
    alloc: Global,
    options: &Options,
    elements: Vec<Item<'_>>,
    out: &mut Vec<u8>,
) -> Result<(), AllocError>
    requires tags { ChangesTags options.now }
    requires some { 0 < length elements.items }
    requires lines { All IsLine (map item_tree elements.items) }
    ensures { OnOk result (Puts (IsTextAtEnd options.now (map item_tree elements.entry.items)) out.old.items out.new.items) }
{
    let text = text_behind_zeros(alloc, options, elements)?;
    Ok(out.extend_from_slice(cut(&text, BEHIND_LAST))?)
}

/// The text of elements and what follows them, without so many bytes at the end.
fn cut(text: &[u8], behind: usize) -> &[u8]
    requires { 566 + behind ≤ length text.now }
    ensures { result.now ≡ arrays.cut behind text.now }
{
    &text[FRONT..text.len() - behind]
}

/// The text after the steps of an array of so many integers as make it long, and these elements.
fn text_behind_zeros(
    alloc: Global,
    options: &Options,
    elements: Vec<Item<'_>>,
) -> Result<Vec<u8>, AllocError>
    requires tags { ChangesTags options.now }
    requires some { 0 < length elements.items }
    requires lines { All IsLine (map item_tree elements.items) }
    ensures { IfOk result (λ out. IsTextBehindZeros options.now (map item_tree elements.entry.items) out.items) }
{
    let items = joined(zeros(alloc)?, elements)?;
    let mut sequence = Box::new(alloc, array_sequence(alloc, items)?)?;
    sequence.set_delimiters(alloc, DelimiterPolicy::SingleLineRegularSpacing)?;
    printed(alloc, options, &mut sequence)
}

/// A sequence of an array of these items.
fn array_sequence<'a>(alloc: Global, items: Vec<Item<'a>>) -> Result<Sequence<'a>, AllocError>
    ensures { IfOk result (λ s. sequence_tree s ≡ elements (LastTree (ElementTree (ListTree Array (comma_inside (map element_tree items.entry.items)))) [])) }
{
    let array = Item::new_array(alloc, items)?;
    Ok(Sequence::of_item(alloc, array))
}

/// So many integers as make an array long.
fn zeros<'a>(alloc: Global) -> Result<Vec<Item<'a>>, AllocError>
    ensures { IfOk result (λ v. map item_tree v.items ≡ replicate 80 zero_item) }
{
    let mut items: Vec<Item<'a>> = Vec::new(alloc);
    for _ in 0..COLUMNS {
        items.push(Item::new_integer_decimal(alloc, 0)?)?;
    }
    Ok(items)
}

/// The items of one list, and then those of another.
fn joined<T: Drop>(front: Vec<T>, behind: Vec<T>) -> Result<Vec<T>, AllocError>
    ensures { IfOk result (λ v. v.items ≡ front.items ++ behind.items) }
{
    let mut all = front;
    for item in behind {
        all.push(item)?;
    }
    Ok(all)
}
