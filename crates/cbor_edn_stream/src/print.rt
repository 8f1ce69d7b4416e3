//! Printing from bytes.
//!
//! Where the heads of an item tell whether it fits on its line, its parts are printed one by one. Else it is decoded: an item that takes more
//! than `9 * n` bytes is wider than `n` columns, since a head has nine bytes at most and shows one column at least, so from no more bytes
//! than these. Where they hold it whole, it is a small tree, which the printer lays out. Where they don't, it has lines of its own, and its
//! parts are printed one by one.
//!
//! Of an item that begins in bytes that were decoded in vain the heads are counted first, so that few of these are decoded again.
ghost use Rattle.std.specs.Prelude.{◌≡◌, ◌≢◌, ◌++◌, ◌<◌, ◌≤◌, ◌*◌, ◌-◌, ◌^◌, ◌∷◌, [], ℕ, suc, true, false, length, map, IfOk, IfSome, IfNone, OnOk, None};
ghost use Rattle.cbor_edn_parts.specs.base.Buffer.{buffer_bytes};
ghost use Rattle.cbor_edn_parts.specs.base.Indicator.{indicator_text};
ghost use Rattle.cbor_edn_parts.specs.base.Refusals.{IfTold};
ghost use Rattle.cbor_edn_parts.specs.space.Spacing as spacing;
ghost use Rattle.cbor_edn_parts.specs.space.Spacing.{indented};
ghost use Rattle.cbor_edn_model.specs.layout.Layout as slots;
ghost use Rattle.cbor_edn_parts.specs.space.LayoutColumns.{respaced};
ghost use Rattle.cbor_edn_model.specs.text.Spelling as spelling;
ghost use Rattle.cbor_edn_model.specs.cbor.Decoded.{IsDecodedSequence, NoSequence, IsTooDeepSequence};
ghost use Rattle.cbor_edn_model.specs.layout.Layout.{laid, laid_out, laid_list_head};
ghost use Rattle.cbor_edn_parts.specs.Leaves.{small_integer};
ghost use Rattle.cbor_edn_model.specs.tree.Trees.{Tree, OneItem, Seq, text, list_head_text};
ghost use Rattle.cbor_edn_model.specs.internal.CborReading as reading;
ghost use Rattle.cbor_edn_model.specs.internal.CborReading.{trees, inner, head_at, item_at, pair_at, tag_by, number_tree, many, until, several, argument_indicator, row_of};
ghost use Rattle.cbor_edn_model.specs.internal.Regular.{list_inside, spaced_list_head};
ghost use Rattle.cbor_edn_stream.specs.Printed.{Prints, Writes, WritesParts, WritesRow, bracketed, entry_at, list_by, nested_major, nested_by};

use crate::columns::{known_parts, room};
use crate::strings::{print_stream, print_string};
use cbor_edn_core::cbor::decode::{CborError, decode_item};
use cbor_edn_core::layout::print_item as print_tree;
use cbor_edn_model::cbor::decode::head::{Argument, Stop, head_of, indicator_of, past_stop};
use cbor_edn_model::cbor::heads::Width;
use cbor_edn_model::text::list_head::ListHead;
use cbor_edn_model::text::opener::OpenerKind;
use cbor_edn_model::text::write::{print_indicator, print_opener};
use cbor_edn_parts::base::buffer::TextBuffer;
use cbor_edn_parts::base::error::Fault;
use cbor_edn_parts::number::{Number, SmallInteger};
use cbor_edn_parts::space::layout::{Layout, Slot, print_end, print_separator, print_space};
use cbor_edn_parts::space::policy::DelimiterPolicy;
use cbor_edn_parts::space::{ListEnd, Separator, Space};
use cbor_edn_parts::string::StringKind;
use std::alloc::{AllocError, Global};

/// The lists.
#[derive(Clone, Copy)]
pub enum Brackets {
    Array,
    Map,
}

/// The items in which others nest.
#[derive(Clone, Copy)]
pub enum Nested {
    Array,
    Map,
    Tag,
}

/// Writes the text of the items that bytes encode, as the indented policy lays them out, at the end of another.
///
/// Fails with the refusal of the first fault of the bytes, as [`Sequence::from_cbor_within`] does, or for want of memory. A part of the
/// text may be written then. Beside the text it takes memory for an item that fits on a line, and for a string that doesn't.
///
/// [`Sequence::from_cbor_within`]: cbor_edn_core::tree::Sequence::from_cbor_within
pub fn print_cbor(
    alloc: Global,
    out: &mut TextBuffer,
    bytes: &[u8],
    limit: usize,
) -> Result<(), Fault<CborError>>
    ensures accepted { OnOk result ((v : Tree Seq) × IsDecodedSequence limit bytes.now v × (buffer_bytes out.new ≡ buffer_bytes out.old ++ text (laid_out indented v))) }
    ensures refused { IfTold result (λ e. e ≢ CborError.TooDeep → NoSequence bytes.now) }
    ensures too_deep { IfTold result (λ e. e ≡ CborError.TooDeep → IsTooDeepSequence limit bytes.now) }
{
    if bytes.is_empty() {
        return Ok(());
    }
    let layout = Layout::of(DelimiterPolicy::indented());
    print_until(
        alloc,
        out,
        layout,
        Brackets::Array,
        Stop::EndOfData,
        bytes,
        limit,
        bytes.len(),
    )?;
    Ok(())
}

/// Writes the item at the front, and answers the bytes behind it.
#[cycle(print)]
fn print_item<'b>(
    alloc: Global,
    out: &mut TextBuffer,
    layout: Layout,
    bytes: &'b [u8],
    limit: usize,
    untried: usize,
) -> Result<&'b [u8], Fault<CborError>>
    ensures value { Prints (λ t. Writes layout t) (λ r. r.now) (buffer_bytes out.old) (buffer_bytes out.new) result (item_at trees limit bytes.now) }
    ensures shorter { IfOk result (λ r. length r.now < length bytes.now) }
{
    match bytes {
        // arrays, maps and tags
        [0x80..=0xdf, ..] => print_nested(alloc, out, layout, bytes, limit, untried),
        // simple values and floating-point numbers
        [0xe0..=0xff, ..] => print_decoded(alloc, out, layout, bytes, limit),
        _ => print_leaf(alloc, out, layout, bytes, limit),
    }
}

/// Writes an integer or a string.
#[inline(never)]
fn print_leaf<'b>(
    alloc: Global,
    out: &mut TextBuffer,
    layout: Layout,
    bytes: &'b [u8],
    limit: usize,
) -> Result<&'b [u8], Fault<CborError>>
    ensures value { Prints (λ t. Writes layout t) (λ r. r.now) (buffer_bytes out.old) (buffer_bytes out.new) result (item_at trees limit bytes.now) }
    ensures shorter { IfOk result (λ r. length r.now < length bytes.now) }
{
    let ((major, argument), behind) = head_of(bytes)?;
    match (major, argument) {
        (0, Some((width, number))) => {
            print_integer(out, SmallInteger::Positive(number), width, number)?;
            Ok(behind)
        }
        (1, Some((width, number))) => {
            print_integer(out, SmallInteger::Negative(number), width, number)?;
            Ok(behind)
        }
        (2, Some((width, count))) => {
            print_string(alloc, out, StringKind::Bytes, width, count, behind)
        }
        (3, Some((width, count))) => {
            print_string(alloc, out, StringKind::Text, width, count, behind)
        }
        (2, None) => print_stream(alloc, out, layout, StringKind::Bytes, behind),
        (3, None) => print_stream(alloc, out, layout, StringKind::Text, behind),
        _ => print_decoded(alloc, out, layout, bytes, limit),
    }
}

/// Writes an integer with the indicator of its head.
#[tactic(auto, using(cbor_edn_model::proofs::lemmas::text::Texts::text_number, std::proofs::Common::append_assoc))]
#[inline(never)]
fn print_integer(
    out: &mut TextBuffer,
    integer: SmallInteger,
    width: Width,
    argument: u64,
) -> Result<(), AllocError>
    ensures { OnOk result (buffer_bytes out.new ≡ buffer_bytes out.old ++ text (number_tree (small_integer integer) width argument)) }
{
    Number::small(integer).print(out)?;
    print_indicator(out, indicator_of(Some((width, argument))))
}

/// Writes an item of which a tree is made.
#[inline(never)]
fn print_decoded<'b>(
    alloc: Global,
    out: &mut TextBuffer,
    layout: Layout,
    bytes: &'b [u8],
    limit: usize,
) -> Result<&'b [u8], Fault<CborError>>
    ensures value { Prints (λ t. Writes layout t) (λ r. r.now) (buffer_bytes out.old) (buffer_bytes out.new) result (item_at trees limit bytes.now) }
    ensures shorter { IfOk result (λ r. length r.now < length bytes.now) }
{
    let (item, rest) = decode_item(alloc, bytes, limit)?;
    print_tree(out, &item, &layout)?;
    Ok(rest)
}

/// Writes an item in which others nest, and answers the bytes behind it.
#[cycle(print)]
#[inline(never)]
fn print_nested<'b>(
    alloc: Global,
    out: &mut TextBuffer,
    layout: Layout,
    bytes: &'b [u8],
    limit: usize,
    untried: usize,
) -> Result<&'b [u8], Fault<CborError>>
    ensures value { Prints (λ t. Writes layout t) (λ r. r.now) (buffer_bytes out.old) (buffer_bytes out.new) result (item_at trees limit bytes.now) }
    ensures shorter { IfOk result (λ r. length r.now < length bytes.now) }
{
    let ((major, argument), behind) = head_of(bytes)?;
    let Some(nested) = nested_of(major) else {
        return print_decoded(alloc, out, layout, bytes, limit);
    };
    if let Some(parts) = known_parts(layout, bytes, untried) {
        return print_parts(alloc, out, parts, nested, argument, behind, limit, untried);
    }
    let (front, _) = bytes.split_at(room(layout).min(bytes.len()));
    match decode_item(alloc, front, limit) {
        Ok((item, after)) => {
            print_tree(out, &item, &layout)?;
            let (_, rest) = bytes.split_at(front.len() - after.len());
            Ok(rest)
        }
        Err(Fault::Memory(e)) => Err(Fault::Memory(e)),
        Err(Fault::Told(_)) => {
            let parts = layout.of_parts(usize::MAX);
            let untried = untried.min(bytes.len() - front.len());
            print_parts(alloc, out, parts, nested, argument, behind, limit, untried)
        }
    }
}

/// The items of a major type, where others nest in them.
fn nested_of(major: u8) -> Option<Nested>
    ensures { IfSome result (λ nested. nested_major nested ≡ major) }
{
    match major {
        4 => Some(Nested::Array),
        5 => Some(Nested::Map),
        6 => Some(Nested::Tag),
        _ => None,
    }
}

/// Writes an item in which others nest, behind its head, by the layout of what is in it.
#[cycle(print)]
fn print_parts<'b>(
    alloc: Global,
    out: &mut TextBuffer,
    parts: Layout,
    nested: Nested,
    argument: Argument,
    bytes: &'b [u8],
    limit: usize,
    untried: usize,
) -> Result<&'b [u8], Fault<CborError>>
    ensures value { Prints (λ t. WritesParts parts t) (λ r. r.now) (buffer_bytes out.old) (buffer_bytes out.new) result (nested_by nested limit argument bytes.now) }
    ensures shorter { IfOk result (λ r. length r.now ≤ length bytes.now) }
{
    match nested {
        Nested::Array => print_list(
            alloc,
            out,
            parts,
            Brackets::Array,
            argument,
            bytes,
            limit,
            untried,
        ),
        Nested::Map => print_list(
            alloc,
            out,
            parts,
            Brackets::Map,
            argument,
            bytes,
            limit,
            untried,
        ),
        Nested::Tag => print_tag(alloc, out, parts, argument, bytes, limit, untried),
    }
}

/// Writes a list behind its head.
#[cycle(print)]
fn print_list<'b>(
    alloc: Global,
    out: &mut TextBuffer,
    parts: Layout,
    list: Brackets,
    argument: Argument,
    bytes: &'b [u8],
    limit: usize,
    untried: usize,
) -> Result<&'b [u8], Fault<CborError>>
    ensures value { Prints (λ t. WritesParts parts t) (λ r. r.now) (buffer_bytes out.old) (buffer_bytes out.new) result (list_by (bracketed list) limit argument bytes.now) }
    ensures shorter { IfOk result (λ r. length r.now ≤ length bytes.now) }
{
    if limit == 0 {
        return Err(Fault::Told(CborError::TooDeep));
    }
    out.push_str(open_bracket(list))?;
    let rest = print_inside(alloc, out, parts, list, argument, bytes, limit - 1, untried)?;
    out.push_str(close_bracket(list))?;
    Ok(rest)
}

/// Writes a tag behind its head.
#[cycle(print)]
fn print_tag<'b>(
    alloc: Global,
    out: &mut TextBuffer,
    parts: Layout,
    argument: Argument,
    bytes: &'b [u8],
    limit: usize,
    untried: usize,
) -> Result<&'b [u8], Fault<CborError>>
    ensures value { Prints (λ t. WritesParts parts t) (λ r. r.now) (buffer_bytes out.old) (buffer_bytes out.new) result (tag_by trees (inner trees limit) argument bytes.now) }
    ensures shorter { IfOk result (λ r. length r.now ≤ length bytes.now) }
{
    let Some((_, number)) = argument else {
        return Err(Fault::Told(CborError::OpenNumber));
    };
    if limit == 0 {
        return Err(Fault::Told(CborError::TooDeep));
    }
    print_opener(out, OpenerKind::Tag(indicator_of(argument), number))?;
    out.push_str("(")?;
    print_space(out, &Space::empty(), parts, Slot::Elsewhere)?;
    let rest = print_item(alloc, out, parts, bytes, limit - 1, untried)?;
    print_space(out, &Space::empty(), parts, Slot::Elsewhere)?;
    out.push_str(")")?;
    Ok(rest)
}

/// The bracket in front of a list.
fn open_bracket(list: Brackets) -> &'static str
    ensures { result.now ≡ spelling.open_byte (bracketed list) ∷ [] }
{
    match list {
        Brackets::Array => "[",
        Brackets::Map => "{",
    }
}

/// The bracket behind a list.
fn close_bracket(list: Brackets) -> &'static str
    ensures { result.now ≡ spelling.close_byte (bracketed list) ∷ [] }
{
    match list {
        Brackets::Array => "]",
        Brackets::Map => "}",
    }
}

/// Writes what stands between the brackets of a list.
#[cycle(print)]
fn print_inside<'b>(
    alloc: Global,
    out: &mut TextBuffer,
    layout: Layout,
    list: Brackets,
    argument: Argument,
    bytes: &'b [u8],
    limit: usize,
    untried: usize,
) -> Result<&'b [u8], Fault<CborError>>
    ensures value { Prints (λ es. Writes layout (list_inside {k = bracketed list} (argument_indicator argument) (row_of es))) (λ r. r.now) (buffer_bytes out.old) (buffer_bytes out.new) result (several (entry_at (bracketed list) limit) argument bytes.now) }
    ensures shorter { IfOk result (λ r. length r.now ≤ length bytes.now) }
{
    match argument {
        Some((_, 0)) => {
            print_empty(out, layout, argument)?;
            Ok(bytes)
        }
        Some((_, count)) => {
            print_front(out, layout, argument)?;
            print_many(alloc, out, layout, list, count, bytes, limit, untried)
        }
        None => match past_stop(Stop::Break, bytes) {
            Some(after) => {
                print_empty(out, layout, argument)?;
                Ok(after)
            }
            None => {
                print_front(out, layout, argument)?;
                print_until(alloc, out, layout, list, Stop::Break, bytes, limit, untried)
            }
        },
    }
}

/// Writes what stands between the brackets of a list without entries.
fn print_empty(out: &mut TextBuffer, layout: Layout, argument: Argument) -> Result<(), AllocError>
    ensures { OnOk result (buffer_bytes out.new ≡ buffer_bytes out.old ++ (indicator_text (argument_indicator argument) ++ respaced spacing.Optional slots.Elsewhere layout [])) }
{
    print_indicator(out, indicator_of(argument))?;
    print_space(out, &Space::empty(), layout, Slot::Elsewhere)
}

/// Writes what stands in front of the first entry of a list.
fn print_front(out: &mut TextBuffer, layout: Layout, argument: Argument) -> Result<(), AllocError>
    ensures { OnOk result (buffer_bytes out.new ≡ buffer_bytes out.old ++ (list_head_text (laid_list_head layout (spaced_list_head (argument_indicator argument))) ++ respaced spacing.Optional slots.First layout [])) }
{
    ListHead::spaced(indicator_of(argument)).print(out, layout)?;
    print_space(out, &Space::empty(), layout, Slot::First)
}

/// Writes so many entries, the separators between them, and the end of their list.
#[cycle(print)]
fn print_many<'b>(
    alloc: Global,
    out: &mut TextBuffer,
    layout: Layout,
    list: Brackets,
    count: u64,
    bytes: &'b [u8],
    limit: usize,
    untried: usize,
) -> Result<&'b [u8], Fault<CborError>>
    requires { 0 < count }
    ensures value { Prints (λ es. WritesRow layout (row_of es)) (λ r. r.now) (buffer_bytes out.old) (buffer_bytes out.new) result (many (entry_at (bracketed list) limit) count bytes.now) }
    ensures shorter { IfOk result (λ r. length r.now ≤ length bytes.now) }
{
    let mut rest = bytes;
    for _ in 0..count - 1 {
        let after = print_entry(alloc, out, layout, list, rest, limit, untried)?;
        print_separator(out, &Separator::comma_space(), layout)?;
        rest = after;
    }
    let after = print_entry(alloc, out, layout, list, rest, limit, untried)?;
    print_end(out, &ListEnd::empty(), layout)?;
    Ok(after)
}

/// Writes all entries up to an end, which does not stand at the front, the separators between them, and the end of their list.
#[cycle(print)]
fn print_until<'b>(
    alloc: Global,
    out: &mut TextBuffer,
    layout: Layout,
    list: Brackets,
    stop: Stop,
    bytes: &'b [u8],
    limit: usize,
    untried: usize,
) -> Result<&'b [u8], Fault<CborError>>
    requires { reading.past_stop stop bytes.now ≡ None }
    ensures value { Prints (λ es. WritesRow layout (row_of es)) (λ r. r.now) (buffer_bytes out.old) (buffer_bytes out.new) result (until stop (entry_at (bracketed list) limit) (suc (length bytes.now)) bytes.now) }
    ensures shorter { IfOk result (λ r. length r.now ≤ length bytes.now) }
{
    let mut rest = bytes;
    'turns: loop {
        let after = print_entry(alloc, out, layout, list, rest, limit, untried)?;
        match past_stop(stop, after) {
            Some(behind) => {
                print_end(out, &ListEnd::empty(), layout)?;
                return Ok(behind);
            }
            None => {
                print_separator(out, &Separator::comma_space(), layout)?;
                rest = after;
            }
        }
    }
}

/// Writes an entry of a list.
#[cycle(print)]
fn print_entry<'b>(
    alloc: Global,
    out: &mut TextBuffer,
    layout: Layout,
    list: Brackets,
    bytes: &'b [u8],
    limit: usize,
    untried: usize,
) -> Result<&'b [u8], Fault<CborError>>
    ensures value { Prints (λ e. Writes layout e) (λ r. r.now) (buffer_bytes out.old) (buffer_bytes out.new) result (entry_at (bracketed list) limit bytes.now) }
    ensures shorter { IfOk result (λ r. length r.now < length bytes.now) }
{
    match list {
        Brackets::Array => print_item(alloc, out, layout, bytes, limit, untried),
        Brackets::Map => print_pair(alloc, out, layout, bytes, limit, untried),
    }
}

/// Writes a key with its value.
#[cycle(print)]
fn print_pair<'b>(
    alloc: Global,
    out: &mut TextBuffer,
    layout: Layout,
    bytes: &'b [u8],
    limit: usize,
    untried: usize,
) -> Result<&'b [u8], Fault<CborError>>
    ensures value { Prints (λ e. Writes layout e) (λ r. r.now) (buffer_bytes out.old) (buffer_bytes out.new) result (pair_at trees (item_at trees limit) bytes.now) }
    ensures shorter { IfOk result (λ r. length r.now < length bytes.now) }
{
    let rest = print_item(alloc, out, layout, bytes, limit, untried)?;
    print_space(out, &Space::empty(), layout, Slot::Elsewhere)?;
    out.push_str(":")?;
    print_space(out, &Space::single(), layout, Slot::AfterColon)?;
    print_item(alloc, out, layout, rest, limit, untried)
}
