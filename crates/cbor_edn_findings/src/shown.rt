//! The lines that tell of what is found, for people: nothing of an input acts on a terminal.
ghost use Rattle.std.specs.Prelude.{◌≡◌, IfOk, OnOk, replicate, string_bytes};
ghost use Rattle.std.specs.Str.{chars};
ghost use Rattle.cbor_edn_findings.specs.Findings.{IsValidPart};
ghost use Rattle.cbor_edn_findings.specs.Shown.{AreShown, IsMarked, IsTold};
ghost use Rattle.cbor_edn_terminal.specs.Terminal.{shown_text, IsHarmlessInLines};

use crate::finding::Finding;
use cbor_edn_terminal::{push_shown, shown};
use std::alloc::{AllocError, Global};
use std::str::from_utf8;

/// How many characters of a line are shown in front of a place and behind it.
const BEFORE: usize = 50;

const BEHIND: usize = 30;

/// What stands for characters that are left out.
const CUT: &str = "...";

/// The beginning of an input that is a text: all of it, or what stands before the first byte that is of no character.
pub(crate) fn valid_part(input: &[u8]) -> &str
    ensures { IsValidPart input.now result.now }
{
    let fault = match from_utf8(input) {
        Ok(text) => return text,
        Err(fault) => fault,
    };
    match from_utf8(&input[..fault.valid_up_to()]) {
        Ok(text) => text,
        Err(_) => "",
    }
}

/// A line by its number from 1, without what ends it.
fn line_of(text: &str, number: usize) -> &str {
    let line = text.split('\n').nth(number.saturating_sub(1)).unwrap_or("");
    line.strip_suffix('\r').unwrap_or(line)
}

/// A character of a line, where it is near the place.
fn push_near(out: &mut String, is_near: bool, character: char) -> Result<(), AllocError>
    ensures { OnOk result (AreShown (string_bytes out.old) → AreShown (string_bytes out.new)) }
{
    if is_near {
        push_shown(out, character)
    } else {
        Ok(())
    }
}

/// What stands for characters that are left out, where some are.
fn cut_mark(alloc: Global, is_cut: bool) -> Result<String, AllocError>
    ensures { IfOk result (λ s. AreShown (string_bytes s)) }
{
    shown(alloc, if is_cut { CUT } else { "" })
}

/// The characters of a line near a column, and the column's place among what is shown.
fn cut_line(alloc: Global, line: &str, column: usize) -> Result<(String, usize), AllocError>
    ensures { IfOk result (λ cut. AreShown (string_bytes cut.0)) }
{
    let first = column.saturating_sub(BEFORE);
    let last = column.saturating_add(BEHIND);
    let mut out = cut_mark(alloc, first > 1)?;
    let mut at: usize = 0;
    let mut place = None;
    for character in line.chars() {
        at = at.saturating_add(1);
        if at == column {
            place = Some(out.chars().count());
        }
        push_near(&mut out, at >= first && at <= last, character)?;
    }
    let place = place.unwrap_or(out.chars().count());
    out.push_str(&cut_mark(alloc, at > last)?)?;
    Ok((out, place))
}

/// So many spaces.
fn spaces(alloc: Global, count: usize) -> Result<String, AllocError>
    ensures { IfOk result (λ s. string_bytes s ≡ replicate count 32) }
{
    let mut out = String::new(alloc);
    for _ in 0..count {
        out.push(' ')?;
    }
    Ok(out)
}

/// The line of a place, cut to what stands near it, and a caret below the place.
fn marked_line(alloc: Global, text: &str, line: usize, column: usize) -> Result<String, AllocError>
    ensures { IfOk result (λ s. IsMarked (string_bytes s)) }
{
    let (near, place) = cut_line(alloc, line_of(text, line), column)?;
    let spaces = spaces(alloc, place)?;
    format!(in alloc; "{near}\n{spaces}^\n")
}

/// The lines that tell of a finding in an input of this name, each ended: `NAME:LINE:COLUMN: WORDS`, the line of the text and a caret below
/// it; `NAME: WORDS (byte OFFSET)`; or `NAME: WORDS`.
pub fn lines(
    alloc: Global,
    name: &str,
    input: &[u8],
    finding: &Finding,
) -> Result<String, AllocError>
    ensures told { IfOk result (λ s. IsTold (shown_text (chars name.now)) finding.now (string_bytes s)) }
    ensures acts_on_nothing { IfOk result (λ s. IsHarmlessInLines (string_bytes s)) }
{
    let name = shown(alloc, name)?;
    match finding {
        Finding::InText {
            words,
            line,
            column,
            ..
        } => {
            let words = shown(alloc, words)?;
            let marked = marked_line(alloc, valid_part(input), *line, *column)?;
            format!(in alloc; "{name}:{line}:{column}: {words}\n{marked}")
        }
        Finding::InBytes { words, offset } => {
            let words = shown(alloc, words)?;
            format!(in alloc; "{name}: {words} (byte {offset})\n")
        }
        Finding::Nowhere { words } => {
            let words = shown(alloc, words)?;
            format!(in alloc; "{name}: {words}\n")
        }
    }
}
