//! From the offset at which a reader refused a text to what is told of it.
ghost use Rattle.std.specs.Prelude.{◌≡◌, IfOk};
ghost use Rattle.cbor_edn_explain.specs.Findings.{IsFinding};
ghost use Rattle.cbor_edn_explain.specs.Findings as findings;

use crate::advice::{fix_of, hint_of};
use crate::finding::{Finding, Kind, Note, Role, Span};
use crate::state::{Lines, Pair, innermost, read};
use crate::table::fault_at;
use crate::token::{byte_at, span_of};
use std::alloc::{AllocError, Global};

/// What the lines say of a fault: a string over several lines that ends in its line, else brackets that are indented otherwise.
fn layout_of(bytes: &[u8], at: usize, lines: Lines, kind: Kind) -> Option<Note>
    ensures { result ≡ findings.layout_of bytes.now at lines kind }
{
    match lines.spanning {
        Some(begin) => Some(Note {
            role: Role::TextBegins,
            span: span_of(bytes, begin, 1),
            at,
        }),
        None => match kind {
            Kind::Unopened => pair_note(Role::IndentedMore, lines.more),
            Kind::Unclosed(_) | Kind::Crossed(_) => pair_note(Role::IndentedLess, lines.less),
            Kind::Expected(_) if is_mark_of_list(byte_at(bytes, at)) => {
                pair_note(Role::IndentedLess, lines.less)
            }
            _ => None,
        },
    }
}

fn pair_note(role: Role, pair: Option<Pair>) -> Option<Note>
    ensures { result ≡ findings.pair_note role pair }
{
    let pair = pair?;
    Some(Note {
        role,
        span: pair.opener,
        at: pair.closer,
    })
}

fn is_mark_of_list(byte: Option<u8>) -> bool
    ensures { result ≡ findings.is_mark_of_list byte }
{
    matches!(byte, Some(b':' | b',' | b')' | b']' | b'}'))
}

/// The second place beside what the lines say: none where both begin at one place.
fn beside(layout: Option<Note>, context: Option<Note>) -> Option<Note>
    ensures { result ≡ findings.beside layout context }
{
    match (layout, context) {
        (Some(layout), Some(context)) if layout.span.from == context.span.from => None,
        _ => context,
    }
}

/// The characters of which a span has bytes.
fn whole(text: &str, span: Span) -> Span
    ensures { findings.IsWhole text.now span result }
{
    Span {
        from: text.floor_char_boundary(span.from),
        to: text.ceil_char_boundary(span.to),
    }
}

fn whole_option(text: &str, span: Option<Span>) -> Option<Span>
    ensures { findings.IsWholeOption text.now span result }
{
    Some(whole(text, span?))
}

fn whole_note(text: &str, note: Option<Note>) -> Option<Note>
    ensures { findings.IsWholeNote text.now note result }
{
    let note = note?;
    Some(Note {
        span: whole(text, note.span),
        ..note
    })
}

/// What is told of a text that a reader refused, by the offset that its refusal names: in bytes from 0, where a character begins or the
/// text ends. All in front of it has to be the beginning of some EDN text. Each span of the answer is one of whole characters.
pub fn explain(alloc: Global, text: &str, offset: usize) -> Result<Finding, AllocError>
    ensures { IfOk result (IsFinding text.now offset) }
{
    let bytes = text.as_bytes();
    let at = offset.min(bytes.len());
    let (reading, opened) = read(alloc, &bytes[..at])?;
    let found = fault_at(bytes, at, reading.place, opened.as_slice());
    let layout = layout_of(bytes, at, reading.lines, found.kind);
    let top = innermost(opened.as_slice());
    let told = Finding {
        kind: found.kind,
        span: whole(text, found.span),
        subject: whole_option(text, found.subject),
        context: whole_note(text, beside(layout, found.context)),
        outer: whole_note(text, found.outer),
        layout: whole_note(text, layout),
        hint: hint_of(bytes, at, reading, top, found),
        fix: None,
    };
    Ok(Finding {
        fix: fix_of(bytes, at, reading, top, told),
        ..told
    })
}
