//! How items are laid out on lines: how much of a line is left, and how wide items are, told from their heads and, of strings of indefinite
//! length, from their texts.
ghost use Rattle.std.specs.Prelude.{◌≡◌, ◌∷◌, [], ◌+◌, ◌-◌, ◌^◌, ◌<◌, ◌≤◌, true, false, min, length, take, All, IfSome, IfOk, None};
ghost use Rattle.cbor_edn_parts.specs.string.Contents.{escaped, all_escaped, kind_literal};
ghost use Rattle.cbor_edn_model.specs.internal.CborReading as reading;
ghost use Rattle.cbor_edn_stream.specs.Heads as heads;
ghost use Rattle.cbor_edn_stream.specs.Wide.{IsWider, IsNarrower, IsOfParts, IsNarrowStream, IsWideStream, IsOfChunks, front_columns, front_room, greatest};

use crate::tags::behind_content;
use cbor_edn_model::cbor::decode::head::{Argument, Stop, head_of, indicator_of, past_stop};
use cbor_edn_model::layout::width::{decimal_len, indicator_len};
use cbor_edn_parts::base::error::Fault;
use cbor_edn_parts::space::layout::Layout;
use cbor_edn_parts::space::policy::Spacing;
use cbor_edn_parts::string::StringKind;
use std::alloc::AllocError;

/// How many columns an item on a line has at the most.
fn columns(layout: Layout) -> usize
    ensures { result ≡ front_columns layout }
{
    match layout {
        Layout::Kept | Layout::Inline(_) => 0,
        Layout::Lines { base, width, .. } => width.saturating_sub(base),
    }
}

/// How many bytes an item on a line has at the most.
pub fn room(layout: Layout) -> usize
    ensures { result ≡ front_room layout }
{
    columns(layout).saturating_mul(9)
}

/// The layout of the parts of the item at the front, where it is known before the item is decoded. `untried` is how many bytes stand behind
/// the last that were decoded in vain.
#[inline(always)]
pub fn known_parts(layout: Layout, bytes: &[u8], untried: usize) -> Option<Layout>
    ensures { IfSome result (λ parts. IsOfParts layout parts bytes.now) }
{
    match layout {
        Layout::Kept | Layout::Inline(_) => Some(layout),
        Layout::Lines { .. } => {
            if is_known_wide(columns(layout), bytes, untried) {
                Some(layout.of_parts(usize::MAX))
            } else if is_narrower(columns(layout), bytes) {
                Some(Layout::Inline(Spacing::OneLine))
            } else {
                None
            }
        }
    }
}

/// The layout of the strings behind the head of a string of indefinite length, of which one stands at the front.
pub fn layout_of_chunks(
    layout: Layout,
    kind: StringKind,
    bytes: &[u8],
) -> Result<Layout, AllocError>
    requires { reading.past_stop Stop.Break bytes.now ≡ None }
    ensures { IfOk result (λ parts. IsOfChunks layout parts kind bytes.now) }
{
    match layout {
        Layout::Kept | Layout::Inline(_) => Ok(layout),
        Layout::Lines { .. } => {
            if do_chunks_fit(columns(layout), kind, bytes)? {
                Ok(Layout::Inline(Spacing::OneLine))
            } else {
                Ok(layout.of_parts(usize::MAX))
            }
        }
    }
}

/// Whether the strings of a string of indefinite length are narrower than so many columns with their brackets. It reads no more of them
/// than have room.
#[inline(never)]
fn do_chunks_fit(columns: usize, kind: StringKind, bytes: &[u8]) -> Result<bool, AllocError>
    requires { reading.past_stop Stop.Break bytes.now ≡ None }
    ensures narrow { IfOk result (λ fit. fit ≡ true → IsNarrowStream columns kind bytes.now) }
    ensures wide { IfOk result (λ fit. fit ≡ false → IsWideStream columns kind bytes.now) }
{
    // four for `(_ ` and `)`, without the two of a separator behind the last string
    let mut left = columns.saturating_sub(2);
    let mut rest = bytes;
    'chunks: loop {
        if past_stop(Stop::Break, rest).is_some() {
            return Ok(left > 0);
        }
        let ((_, argument), behind) = match head_of(rest) {
            Ok(head) => head,
            Err(Fault::Memory(e)) => return Err(e),
            Err(Fault::Told(_)) => return Ok(false),
        };
        let Some((_, count)) = argument else {
            return Ok(false);
        };
        if (left as u64) < count || (behind.len() as u64) < count {
            return Ok(false);
        }
        let (content, after) = behind.split_at(count as usize);
        let separated = indicator_len(indicator_of(argument)) + 2;
        let shown = literal_len(kind, content).saturating_add(separated);
        if left < shown {
            return Ok(false);
        }
        left -= shown;
        rest = after;
    }
}

/// How many bytes the literal of a string has, or the greatest number.
fn literal_len(kind: StringKind, content: &[u8]) -> usize
    ensures { result ≡ min (length (kind_literal kind content.now)) greatest }
{
    match kind {
        StringKind::Bytes => content.len().saturating_mul(2).saturating_add(3),
        StringKind::Text => escaped_len(content).saturating_add(2),
    }
}

/// How many bytes a text takes between double quotes, or the greatest number.
fn escaped_len(text: &[u8]) -> usize
    ensures { result ≡ min (length (all_escaped text.now)) greatest }
{
    let mut len: usize = 0;
    for byte in text {
        len = len.saturating_add(escape_len(*byte));
    }
    len
}

/// How many bytes a byte takes between double quotes: those of an escape, or one.
#[inline(always)]
fn escape_len(byte: u8) -> usize
    ensures { result ≡ length (escaped byte) }
{
    match byte {
        b'"' | b'\\' | b'\r' | b'\t' | 8 | 12 => 2,
        b'\n' => 1,
        b'\'' => 6,
        0..=15 => 5,
        16..=31 => 6,
        _ => 1,
    }
}

/// Whether the heads of an item tell that it is wider than so many columns. They are asked where it begins in bytes that were decoded in
/// vain, and where it has many parts.
#[inline(always)]
fn is_known_wide(columns: usize, bytes: &[u8], untried: usize) -> bool
    ensures { result ≡ true → IsWider columns bytes.now }
{
    if bytes.len() > untried || has_many_parts(columns, bytes) {
        is_wider(columns, bytes)
    } else {
        false
    }
}

/// Whether a list has as many parts as there are columns, as far as two bytes tell. It says what is asked, and not what is written.
#[inline(always)]
fn has_many_parts(columns: usize, bytes: &[u8]) -> bool {
    match bytes {
        [0x98 | 0xb8, count, ..] => usize::from(*count) >= columns,
        [0x99..=0x9b | 0xb9..=0xbb, ..] => true,
        _ => false,
    }
}

/// Whether the item at the front is wider than so many columns, as far as the number of its heads tells. Of bytes that begin with no item
/// it says nothing.
///
/// It goes from head to head, each of which shows one column at least, and reads no more of them than there are columns.
#[inline(never)]
fn is_wider(columns: usize, bytes: &[u8]) -> bool
    ensures { result ≡ true → IsWider columns bytes.now }
{
    let mut left = columns;
    let mut due: usize = 1;
    let mut depth: usize = 0;
    let mut rest = bytes;
    'heads: loop {
        let Ok(((major, argument), behind)) = head_of(rest) else {
            return false;
        };
        if is_break(major, argument) {
            if depth == 0 {
                return false;
            }
            depth -= 1;
        } else {
            due = due_behind(depth, due, major, argument);
            if left <= due {
                return true;
            }
            left -= 1;
            depth = depth_behind(depth, argument);
        }
        if depth == 0 && due == 0 {
            return false;
        }
        rest = behind_content(major, argument, behind);
    }
}

/// Whether the item at the front is narrower than so many columns, as far as its heads tell: those of integers, arrays, maps and tags of
/// definite length do, and those of strings without escapes. Of bytes that begin with no item it says nothing.
///
/// It goes from head to head, each of which shows three columns at least with its separator, and reads no more of them than have room.
#[inline(never)]
fn is_narrower(columns: usize, bytes: &[u8]) -> bool
    ensures { result ≡ true → IsNarrower columns bytes.now }
{
    let mut left = columns;
    let mut due: usize = 1;
    let mut rest = bytes;
    'heads: loop {
        let Ok(((major, argument), behind)) = head_of(rest) else {
            return false;
        };
        let Some(most) = most_columns(major, argument, behind) else {
            return false;
        };
        if left < most {
            return false;
        }
        left -= most;
        due = parts_of(major, argument).saturating_add(due - 1);
        if due == 0 {
            return true;
        }
        if left / 3 < due {
            return false;
        }
        rest = behind_content(major, argument, behind);
    }
}

/// How many columns a head shows at the most, with what it holds but items, with brackets and with the separator behind it.
#[inline(always)]
fn most_columns(major: u8, argument: Argument, behind: &[u8]) -> Option<usize>
    ensures { IfSome result (λ columns. heads.ShowsWithin major argument behind.now columns) }
{
    let (_, count) = argument?;
    let columns = match major {
        0 | 6 => decimal_len(count),
        1 => decimal_len(count.checked_add(1)?) + 1,
        2 if count < 0x100 => 2 * (count as usize) + 3,
        3 if count < 0x100 && begins_plain(count as usize, behind) => count as usize + 2,
        4 | 5 => 3,
        _ => return None,
    };
    Some(columns + indicator_len(indicator_of(argument)) + 2)
}

/// Whether so many bytes stand in front, each of which stands for itself between double quotes.
fn begins_plain(count: usize, bytes: &[u8]) -> bool
    ensures { result ≡ true → length (all_escaped (take count bytes.now)) ≤ count }
{
    if bytes.len() < count {
        return false;
    }
    let (text, _) = bytes.split_at(count);
    is_plain(text)
}

/// Whether each byte stands for itself between double quotes.
fn is_plain(text: &[u8]) -> bool
    ensures { result ≡ true → All (λ c. escaped c ≡ c ∷ []) text.now }
{
    for byte in text {
        if !stands_for_itself(*byte) {
            return false;
        }
    }
    true
}

/// Whether a byte stands for itself between double quotes. A line feed does too, and is not asked for.
#[inline(always)]
fn stands_for_itself(byte: u8) -> bool
    ensures { result ≡ true → escaped byte ≡ byte ∷ [] }
{
    byte > b'\\' || byte >= b' ' && byte != b'"' && byte != b'\'' && byte != b'\\'
}

/// Whether a head ends what has indefinite length.
#[inline(always)]
fn is_break(major: u8, argument: Argument) -> bool
    ensures { result ≡ heads.is_break major argument }
{
    major == 7 && argument.is_none()
}

/// How many items a head announces, or the greatest number.
#[inline(always)]
fn parts_of(major: u8, argument: Argument) -> usize
    ensures { result ≡ min (heads.parts_of major argument) (2 ^ 64 - 1) }
{
    match (major, argument) {
        (4, Some((_, count))) => count as usize,
        (5, Some((_, count))) => (count as usize).saturating_mul(2),
        (6, Some(_)) => 1,
        _ => 0,
    }
}

/// How many items are due behind a head, or the greatest number. Where a list or a string of indefinite length is open, its own don't
/// count.
#[inline(always)]
fn due_behind(depth: usize, due: usize, major: u8, argument: Argument) -> usize
    requires { 0 < depth + due }
    ensures { result ≡ min (heads.owed depth due (heads.parts_of major argument)) (2 ^ 64 - 1) }
{
    if depth == 0 {
        parts_of(major, argument).saturating_add(due - 1)
    } else {
        due
    }
}

/// How many lists and strings of indefinite length are open behind a head.
#[inline(always)]
fn depth_behind(depth: usize, argument: Argument) -> usize
    requires { depth < 2 ^ 64 - 1 }
    ensures { result ≡ heads.opened argument depth }
{
    match argument {
        None => depth + 1,
        Some(_) => depth,
    }
}
