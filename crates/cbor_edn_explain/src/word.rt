//! Faults of words.
ghost use Rattle.std.specs.Prelude.{◌≡◌, nat_eq, reverse};
ghost use Rattle.std.specs.Cmp.Lexicographic.{pointwise};
ghost use Rattle.std.specs.List.{list_any};
ghost use Rattle.cbor_edn_explain.specs.WordFaults as words;

use crate::finding::{Bracket, Finding, IndicatorFault, Kind, QuoteFault, Span, Wanted};
use crate::gap::{in_gap, plain};
use crate::state::{Gap, Open, Place, ended, innermost};
use crate::token::{between, byte_at, is_at, run_span, span_of, token_span};

/// Whether a word is one of these.
pub(crate) fn is_one_of(word: &[u8], names: &[&[u8]]) -> bool
    ensures { result ≡ list_any (λ name. pointwise nat_eq name.now word.now) names.now }
{
    names.iter().any(|name| *name == word)
}

/// The words of EDN that take no indicator.
const KEYWORDS: &[&[u8]] = &[b"true", b"false", b"null", b"undefined"];

/// The words of EDN that are numbers.
const NUMBERS: &[&[u8]] = &[b"NaN", b"Infinity"];

const SIMPLE: &[&[u8]] = &[b"simple"];

/// The prefixes that stand for something.
const PREFIXES: &[&[u8]] = &[
    b"h", b"H", b"b64", b"B64", b"b32", b"B32", b"h32", b"H32", b"dt", b"DT", b"ip", b"IP",
];

/// Whether a string alone may stand there.
fn is_text_wanted(place: Place, top: Option<Open>) -> bool
    ensures { result ≡ words.is_text_wanted place top }
{
    match place.gap {
        Gap::Plus => true,
        _ => match top {
            Some(open) => matches!(open.bracket, Bracket::Stream),
            None => false,
        },
    }
}

/// Whether EDN has this word.
fn is_name(word: &[u8]) -> bool
    ensures { result ≡ words.is_name word.now }
{
    is_keyword(word) || is_number(word) || is_simple(word)
}

#[tactic(auto, unfolding(crate::specs::WordFaults::is_keyword))]
fn is_keyword(word: &[u8]) -> bool
    ensures { result ≡ words.is_keyword word.now }
{
    is_one_of(word, KEYWORDS)
}

#[tactic(auto, unfolding(crate::specs::WordFaults::is_number))]
fn is_number(word: &[u8]) -> bool
    ensures { result ≡ words.is_number word.now }
{
    is_one_of(word, NUMBERS)
}

#[tactic(auto, unfolding(crate::specs::WordFaults::is_simple))]
fn is_simple(word: &[u8]) -> bool
    ensures { result ≡ words.is_simple word.now }
{
    is_one_of(word, SIMPLE)
}

#[tactic(auto, unfolding(crate::specs::WordFaults::is_prefix))]
fn is_prefix(word: &[u8]) -> bool
    ensures { result ≡ words.is_prefix word.now }
{
    is_one_of(word, PREFIXES)
}

/// What is told of a word that begins at `place.begin`: `at` is in it or at its end.
#[tactic(auto, unfolding(crate::specs::WordFaults::in_word))]
pub(crate) fn in_word(bytes: &[u8], at: usize, place: Place, opened: &[Open]) -> Finding
    ensures { result ≡ words.in_word bytes.now at place (reverse opened.now) }
{
    let span = run_span(bytes, place.begin, at);
    let word = between(bytes, span.from, span.to);
    if is_text_wanted(place, innermost(opened)) && is_name(word) {
        return plain(Kind::Expected(Wanted::Text), span);
    }
    if is_keyword(between(bytes, place.begin, at)) && is_at(bytes, at, b'_') {
        return not_taken(place.begin, at, span.to);
    }
    in_whole(bytes, place, opened, span, word)
}

/// Of a word without an indicator, where any item may stand.
fn in_whole(bytes: &[u8], place: Place, opened: &[Open], span: Span, word: &[u8]) -> Finding
    ensures { result ≡ words.in_whole bytes.now place (reverse opened.now) span word.now }
{
    if is_keyword(word) || is_number(word) {
        return in_gap(bytes, span.to, ended(place, span.to), opened);
    }
    if is_simple(word) {
        return plain(Kind::Expected(Wanted::Argument), token_span(bytes, span.to));
    }
    in_other(bytes, word, span)
}

/// Of a keyword with an indicator, which begins at `at`.
fn not_taken(begin: usize, at: usize, to: usize) -> Finding
    ensures { result ≡ words.not_taken begin at to }
{
    Finding {
        subject: Some(Span {
            from: begin,
            to: at,
        }),
        ..plain(
            Kind::Indicator(IndicatorFault::NotTaken),
            Span { from: at, to },
        )
    }
}

/// Of a word that EDN does not have, by the byte behind it.
fn in_other(bytes: &[u8], word: &[u8], span: Span) -> Finding
    ensures { result ≡ words.in_other bytes.now word.now span }
{
    match byte_at(bytes, span.to) {
        Some(b'"' | b'`') if is_prefix(word) => Finding {
            subject: Some(span),
            ..plain(
                Kind::Quote(QuoteFault::NotSingle),
                span_of(bytes, span.to, 1),
            )
        },
        Some(b'\'') if is_plain_word(word) => plain(Kind::Quote(QuoteFault::Mixed), span),
        _ => plain(Kind::Word, span),
    }
}

fn is_letter_or_digit(byte: u8) -> bool
    ensures { result ≡ words.is_letter_or_digit_byte byte }
{
    matches!(byte, b'a'..=b'z' | b'A'..=b'Z' | b'0'..=b'9')
}

/// Whether a word has letters and digits alone.
fn is_plain_word(word: &[u8]) -> bool
    ensures { result ≡ words.is_plain_word word.now }
{
    word.iter().all(|byte| is_letter_or_digit(*byte))
}
