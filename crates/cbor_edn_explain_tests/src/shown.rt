//! Findings as one line, with what their words quote.
use cbor_edn_explain::explain::explain;
use cbor_edn_explain::finding::{Finding, Fix, Note, Span};
use cbor_edn_explain::told::{hint_words, note_words, words};
use std::alloc::{AllocError, Global};
use std::test::Fail;

/// The text of a span, which is one of whole characters.
fn text_of(text: &str, span: Span) -> &str {
    if span.from <= span.to && text.is_char_boundary(span.from) && text.is_char_boundary(span.to) {
        &text[span.from..span.to]
    } else {
        "(no text)"
    }
}

/// What stands at a span, in words.
fn found(alloc: Global, text: &str, span: Span) -> Result<String, AllocError> {
    match text_of(text, span) {
        "" => String::from_str(alloc, "the end of the text"),
        " " => String::from_str(alloc, "a space"),
        token => format!(in alloc; "`{token}`"),
    }
}

/// The number of the first character.
fn number(alloc: Global, text: &str, span: Span) -> Result<String, AllocError> {
    match text_of(text, span).chars().next() {
        Some(character) => {
            let number = u32::from(character);
            format!(in alloc; "U+{number:04X}")
        }
        None => String::from_str(alloc, "no character"),
    }
}

/// What stands for the name between braces.
fn stands_for(
    alloc: Global,
    name: &str,
    text: &str,
    span: Span,
    subject: Span,
) -> Result<String, AllocError> {
    match name {
        "span" => {
            let token = text_of(text, span);
            format!(in alloc; "`{token}`")
        }
        "subject" => {
            let token = text_of(text, subject);
            format!(in alloc; "`{token}`")
        }
        "word" => String::from_str(alloc, text_of(text, span)),
        "found" => found(alloc, text, span),
        "number" => number(alloc, text, span),
        "line" => {
            let line = 1 + text_of(text, subject).matches('\n').count();
            format!(in alloc; "{line}")
        }
        other => format!(in alloc; "{{{other}}}"),
    }
}

/// Words with the text that they name.
fn filled(
    alloc: Global,
    words: &str,
    text: &str,
    span: Span,
    subject: Span,
) -> Result<String, AllocError> {
    let mut out = String::new(alloc);
    let mut pieces = words.split('{');
    if let Some(front) = pieces.next() {
        out.push_str(front)?;
    }
    for piece in pieces {
        match piece.split_once('}') {
            Some((name, behind))
                if name.chars().all(|c| c.is_ascii_lowercase()) && !name.is_empty() => {
                let value = stands_for(alloc, name, text, span, subject)?;
                out.push_str(value.as_str())?;
                out.push_str(behind)?;
            }
            _ => {
                out.push('{')?;
                out.push_str(piece)?;
            }
        }
    }
    Ok(out)
}

fn push_note(
    out: &mut String,
    alloc: Global,
    text: &str,
    note: Option<Note>,
) -> Result<(), AllocError> {
    if let Some(note) = note {
        let front = Span {
            from: 0,
            to: note.at,
        };
        let words = filled(alloc, note_words(note.role), text, note.span, front)?;
        let from = note.span.from;
        let line = format!(in alloc; "; {from} {words}")?;
        out.push_str(line.as_str())?;
    }
    Ok(())
}

/// The finding of a text as `FROM..TO WORDS`, each second place behind it as `; FROM WORDS`, and the hint as `; hint: WORDS`.
pub fn told(alloc: Global, text: &str, offset: usize) -> Result<String, Fail> {
    let finding = explain(alloc, text, offset)?;
    let Finding { span, .. } = finding;
    let subject = finding.subject.unwrap_or(span);
    let words = filled(alloc, words(finding.kind), text, span, subject)?;
    let (from, to) = (span.from, span.to);
    let mut out = format!(in alloc; "{from}..{to} {words}")?;
    push_note(&mut out, alloc, text, finding.context)?;
    push_note(&mut out, alloc, text, finding.outer)?;
    push_note(&mut out, alloc, text, finding.layout)?;
    if let Some(hint) = finding.hint {
        let words = filled(alloc, hint_words(hint), text, span, subject)?;
        out.push_str("; hint: ")?;
        out.push_str(words.as_str())?;
    }
    Ok(out)
}

/// The text with its fix, or none.
pub fn fixed(alloc: Global, text: &str, offset: usize) -> Result<Option<String>, Fail> {
    let finding = explain(alloc, text, offset)?;
    let Some(fix) = finding.fix else {
        return Ok(None);
    };
    let end = text.len();
    let (span, quote, middle) = match fix {
        Fix::Replace(span, middle) => (span, "", middle),
        Fix::Quote(span) => (span, "\"", text_of(text, span)),
    };
    let front = text_of(
        text,
        Span {
            from: 0,
            to: span.from,
        },
    );
    let behind = text_of(
        text,
        Span {
            from: span.to,
            to: end,
        },
    );
    Ok(Some(format!(in alloc; "{front}{quote}{middle}{quote}{behind}")?))
}
