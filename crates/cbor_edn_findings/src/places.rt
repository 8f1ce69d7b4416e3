//! Where in a text an item has no encoding.
ghost use Rattle.std.specs.Prelude.{◌≡◌, IfNone, IfOk, IfSome};
ghost use Rattle.std.specs.Str.{IsCharBoundary};
ghost use Rattle.cbor_edn_parts.specs.base.Errors.{error_offset, error_line, error_column};
ghost use Rattle.cbor_edn_parts.specs.base.Location.{IsLocation};
ghost use Rattle.cbor_edn_core.specs.tree.View.{sequence_tree};
ghost use Rattle.cbor_edn_findings.specs.WithoutEncoding.{IsFirstOffset, IsFirstWithout, NoneWithout};
ghost use Rattle.cbor_edn_findings.specs.internal.Left.{HasMeaning, IsFoundLeft, IsLeft};

use crate::location::location_behind;
use cbor_edn::engine::Options;
use cbor_edn::option_steps;
use cbor_edn_core::tree::Sequence;
use cbor_edn_parts::base::error::{Fault, InconsistentEdn, ParseError, ParseErrorKind};
use cbor_edn_places::offset::offset_of;
use cbor_edn_places::path::{cut_to_item, first_valueless};
use std::alloc::{AllocError, Global};

/// The line and the column of an offset in a text, as a refusal has them; none where no character begins there.
pub fn located(text: &str, offset: usize) -> Option<ParseError>
    ensures offset { IfSome result (λ place. error_offset place ≡ offset) }
    ensures place { IfSome result (λ place. IsLocation text.now offset (error_line place) (error_column place)) }
    ensures none { IfNone result (IsCharBoundary text.now offset → ⊥) }
{
    if !text.is_char_boundary(offset) {
        return None;
    }
    let (line, column) = location_behind(&text.as_bytes()[..offset]);
    Some(ParseError::new(ParseErrorKind::Invalid, offset, line, column))
}

/// What the steps of a run leave of items, but for the spaces that the last one sets.
fn left_of<'a>(
    alloc: Global,
    options: &Options,
    sequence: &Sequence<'a>,
) -> Result<Box<Sequence<'a>>, AllocError>
    ensures { IfOk result (λ left. IsLeft options.now (sequence_tree sequence.now) (sequence_tree left.value)) }
{
    let mut copy = Box::new(alloc, sequence.clone()?)?;
    option_steps::take(alloc, options, &mut copy)?;
    Ok(copy)
}

/// The path in that of what has no encoding, and why it has none.
fn first_left(
    alloc: Global,
    options: &Options,
    sequence: &Sequence<'_>,
) -> Result<Option<(Vec<usize>, InconsistentEdn)>, AllocError>
    ensures { IfOk result (IsFoundLeft options.now (sequence_tree sequence.now)) }
{
    let mut left = left_of(alloc, options, sequence)?;
    first_valueless(alloc, &mut left)
}

/// Where that begins in the text of the items as they stand.
fn first_offset(
    alloc: Global,
    options: &Options,
    sequence: &mut Sequence<'_>,
) -> Result<Option<(usize, InconsistentEdn)>, AllocError>
    ensures some { IfOk result (λ found. IfSome found (λ p. IsFirstOffset options.now (sequence_tree sequence.old) p.0)) }
    ensures none { IfOk result (λ found. IfNone found (HasMeaning options.now (sequence_tree sequence.old))) }
{
    let Some((mut path, reason)) = first_left(alloc, options, sequence)? else {
        return Ok(None);
    };
    // The steps leave as many items in a sequence as there were, so the first number of the path leads to one.
    if !cut_to_item(sequence, &mut path) {
        return Ok(None);
    }
    let offset = offset_of(alloc, sequence, &path)?;
    Ok(Some((offset, reason)))
}

/// Where the first item begins in a text that has no encoding, in bytes, and why it has none: literals stand for what a run of these
/// options takes them for. None where each has one, or the text is no EDN.
pub fn first_in_text(
    alloc: Global,
    options: &Options,
    text: &str,
) -> Result<Option<(usize, InconsistentEdn)>, AllocError>
    ensures some { IfOk result (λ found. IfSome found (λ p. IsFirstWithout options.now text.now p.0)) }
    ensures none { IfOk result (λ found. IfNone found (NoneWithout options.now text.now)) }
{
    match Sequence::parse_within(alloc, text, options.limit) {
        Ok(mut sequence) => first_offset(alloc, options, &mut sequence),
        Err(Fault::Told(_)) => Ok(None),
        Err(Fault::Memory(refused)) => Err(refused),
    }
}
