//! What stands at a place of a text, as people see it: words, numbers, strings up to the end of their line, marks.
ghost use Rattle.std.specs.Prelude.{◌≡◌, ◌≤◌, ◌<◌, ◌==◌, ◌∷◌, ◌||◌, IfSome, drop, length, not, position};
ghost use Rattle.cbor_edn_explain.specs.Tokens as tokens;

use crate::finding::{EscapeFault, Span};

/// The bytes from a place on.
#[tactic(auto, using(std::proofs::lemmas::List::drop_all))]
pub(crate) fn behind(bytes: &[u8], at: usize) -> &[u8]
    ensures { result.now ≡ drop at bytes.now }
{
    if at <= bytes.len() { &bytes[at..] } else { &[] }
}

/// The byte at a place, or none at the end.
pub(crate) fn byte_at(bytes: &[u8], at: usize) -> Option<u8>
    ensures { result ≡ tokens.byte_at bytes.now at }
{
    bytes.get(at).copied()
}

/// Whether a byte is one of a word or a number, for people: letters, digits, `_`, `-`, `.`, and the bytes of characters beyond ASCII but
/// for those of U+0080 to U+00BF, U+2000 to U+2FFF and above U+F000, which are mostly signs.
pub(crate) fn is_in_word(byte: u8) -> bool
    ensures { result ≡ tokens.is_in_word byte }
{
    matches!(
        byte,
        b'a'..=b'z' | b'A'..=b'Z' | b'0'..=b'9' | b'_' | b'-' | b'.' | 0x80..=0xbf | 0xc3..=0xe1 | 0xe3..=0xee
    )
}

pub(crate) fn is_digit(byte: u8) -> bool
    ensures { result ≡ tokens.is_digit byte }
{
    matches!(byte, b'0'..=b'9')
}

/// The place of a byte that is found in front of others, or their length.
pub(crate) fn up_to(found: Option<usize>, rest: &[u8]) -> usize
    requires { IfSome found (λ n. n < length rest.now) }
    ensures is { result ≡ tokens.up_to found (length rest.now) }
    ensures within { result ≤ length rest.now }
{
    match found {
        Some(length) => length,
        None => rest.len(),
    }
}

/// How many bytes of a word or a number stand in front.
pub(crate) fn word_length(rest: &[u8]) -> usize
    ensures is { result ≡ tokens.word_length rest.now }
    ensures within { result ≤ length rest.now }
{
    up_to(first_outside_word(rest), rest)
}

fn first_outside_word(rest: &[u8]) -> Option<usize>
    ensures is { result ≡ position (λ c. not (tokens.is_in_word c)) rest.now }
    ensures within { IfSome result (λ n. n < length rest.now) }
{
    rest.iter().position(|byte| !is_in_word(*byte))
}

/// How many bytes a string has behind its opening quote: up to the next quote in its line, or none.
fn text_length(quote: u8, rest: &[u8]) -> usize
    ensures is { result ≡ tokens.text_length quote rest.now }
    ensures within { result ≤ length rest.now }
{
    match first_end(quote, rest) {
        Some(inner) if is_at(rest, inner, quote) => inner + 1,
        _ => 0,
    }
}

fn first_end(quote: u8, rest: &[u8]) -> Option<usize>
    ensures is { result ≡ position (λ c. c == quote || c == 10) rest.now }
    ensures within { IfSome result (λ n. n < length rest.now) }
{
    rest.iter()
        .position(|byte| *byte == quote || *byte == b'\n')
}

/// Whether this byte stands at a place.
pub(crate) fn is_at(bytes: &[u8], at: usize, byte: u8) -> bool
    ensures { result ≡ tokens.is_at bytes.now at byte }
{
    match byte_at(bytes, at) {
        Some(found) => found == byte,
        None => false,
    }
}

/// Whether two bytes are one mark together.
fn is_mark(first: u8, second: u8) -> bool
    ensures { result ≡ tokens.is_mark first second }
{
    match first {
        b'<' => second == b'<',
        b'>' => second == b'>',
        b'(' => second == b'_',
        b'/' => second == b'/',
        b'=' => second == b'>',
        b'-' => second == b'-',
        _ => false,
    }
}

/// How many bytes a word or a number in front has, with the string of which it is the prefix.
fn run_length(rest: &[u8]) -> usize
    ensures is { result ≡ tokens.run_length rest.now }
    ensures within { result ≤ length rest.now }
{
    let word = word_length(rest);
    if is_at(rest, word, b'\'') {
        let behind_quote = behind(rest, word + 1);
        word + 1 + text_length(b'\'', behind_quote)
    } else {
        word
    }
}

/// How many bytes the token in front has, for people: 0 at the end of the text, else one at least.
pub(crate) fn token_length(rest: &[u8]) -> usize
    ensures is { result ≡ tokens.token_length rest.now }
    ensures within { result ≤ length rest.now }
{
    let Some((first, others)) = rest.split_first() else {
        return 0;
    };
    match others.first() {
        Some(second) if is_mark(*first, *second) => 2,
        Some(second) if *first == b'+' && is_digit(*second) => 1 + run_length(others),
        _ => plain_length(*first, others, rest),
    }
}

/// The same of a string, a word, a number or one byte.
fn plain_length(first: u8, others: &[u8], rest: &[u8]) -> usize
    requires { rest.now ≡ first ∷ others.now }
    ensures is { result ≡ tokens.plain_length first others.now }
    ensures within { result ≤ length rest.now }
{
    match first {
        b'"' | b'\'' | b'`' => 1 + text_length(first, others),
        _ => run_length(rest).max(1),
    }
}

pub(crate) fn is_hexadecimal(byte: u8) -> bool
    ensures { result ≡ tokens.is_hexadecimal byte }
{
    matches!(byte, b'0'..=b'9' | b'a'..=b'f' | b'A'..=b'F')
}

/// How many hexadecimal digits stand in front.
fn digits_length(rest: &[u8]) -> usize
    ensures is { result ≡ tokens.digits_length rest.now }
    ensures within { result ≤ length rest.now }
{
    up_to(first_other_digit(rest), rest)
}

fn first_other_digit(rest: &[u8]) -> Option<usize>
    ensures is { result ≡ position (λ c. not (tokens.is_hexadecimal c)) rest.now }
    ensures within { IfSome result (λ n. n < length rest.now) }
{
    rest.iter().position(|byte| !is_hexadecimal(*byte))
}

/// How many zeros stand in front.
fn zeros_length(rest: &[u8]) -> usize
    ensures is { result ≡ tokens.zeros_length rest.now }
    ensures within { result ≤ length rest.now }
{
    up_to(first_but_zero(rest), rest)
}

fn first_but_zero(rest: &[u8]) -> Option<usize>
    ensures is { result ≡ position (λ c. not (c == 48)) rest.now }
    ensures within { IfSome result (λ n. n < length rest.now) }
{
    rest.iter().position(|byte| *byte != b'0')
}

/// Whether digits begin as those of a surrogate, a low one or a high one (RFC 8259, section 7).
fn is_surrogate(digits: &[u8]) -> bool
    ensures { result ≡ tokens.is_surrogate digits.now }
{
    is_low(digits) || is_high(digits)
}

fn is_low(digits: &[u8]) -> bool
    ensures { result ≡ tokens.is_low digits.now }
{
    match (byte_at(digits, 0), byte_at(digits, 1)) {
        (Some(b'd' | b'D'), Some(second)) => matches!(second, b'c'..=b'f' | b'C'..=b'F'),
        _ => false,
    }
}

fn is_high(digits: &[u8]) -> bool
    ensures { result ≡ tokens.is_high digits.now }
{
    match (byte_at(digits, 0), byte_at(digits, 1)) {
        (Some(b'd' | b'D'), Some(second)) => {
            matches!(second, b'8' | b'9' | b'a' | b'b' | b'A' | b'B')
        }
        _ => false,
    }
}

/// Whether an escape of four digits stands in front.
fn is_of_four(rest: &[u8]) -> bool
    ensures { result ≡ tokens.is_of_four rest.now }
{
    is_at(rest, 0, b'\\') && is_at(rest, 1, b'u') && digits_length(behind(rest, 2)) >= 4
}

/// Whether the escape of a high surrogate stands in front, and none of a low one behind it.
pub(crate) fn is_high_alone(rest: &[u8]) -> bool
    ensures { result ≡ tokens.is_high_alone rest.now }
{
    let second = behind(rest, 6);
    is_of_four(rest)
        && is_high(behind(rest, 2))
        && !(is_of_four(second) && is_low(behind(second, 2)))
}

/// What is wrong with the escape in front, and how many bytes show it: nothing where it goes on behind the end of the text.
pub(crate) fn escape_fault(rest: &[u8], quote: u8) -> Option<(EscapeFault, usize)>
    ensures { result ≡ tokens.escape_fault rest.now quote }
{
    if !is_at(rest, 0, b'\\') {
        return None;
    }
    match byte_at(rest, 1)? {
        b'u' if is_at(rest, 2, b'{') => braces_fault(behind(rest, 3)),
        b'u' => four_fault(behind(rest, 2)),
        b'\n' | b'\r' => Some((EscapeFault::LineEnd, 1)),
        b'b' | b'f' | b'n' | b'r' | b't' | b'/' | b'\\' => None,
        b'x' if digits_length(behind(rest, 2)) >= 2 => Some((EscapeFault::Unknown, 4)),
        other if other == quote => None,
        _ => Some((EscapeFault::Unknown, 2)),
    }
}

/// Of `\u{`, from the digits on.
fn braces_fault(digits: &[u8]) -> Option<(EscapeFault, usize)>
    ensures { result ≡ tokens.braces_fault digits.now }
{
    let length = digits_length(digits);
    let significant = behind(digits, zeros_length(digits));
    let end = byte_at(digits, length);
    if is_past_last(significant) {
        let brace = if is_at(digits, length, b'}') { 1 } else { 0 };
        return Some((EscapeFault::TooLarge, 3 + length + brace));
    }
    if end? != b'}' {
        return Some((EscapeFault::Braces, 3 + length));
    }
    if length == 0 {
        return Some((EscapeFault::NoDigit, 4));
    }
    if digits_length(significant) == 4 && is_surrogate(significant) {
        return Some((EscapeFault::Surrogate, 4 + length));
    }
    None
}

/// Whether digits without leading zeros are those of a number past U+10FFFF.
fn is_past_last(digits: &[u8]) -> bool
    ensures { result ≡ tokens.is_past_last digits.now }
{
    let length = digits_length(digits);
    length > 6 || (length == 6 && !(is_at(digits, 0, b'1') && is_at(digits, 1, b'0')))
}

/// Of `\u` without a brace, from the digits on.
fn four_fault(digits: &[u8]) -> Option<(EscapeFault, usize)>
    ensures { result ≡ tokens.four_fault digits.now }
{
    let length = digits_length(digits).min(4);
    if length >= 2 && is_low(digits) {
        return Some((EscapeFault::LowAlone, 2 + length));
    }
    if length < 4 && byte_at(digits, length).is_some() {
        return Some((EscapeFault::FourDigits, 2 + length));
    }
    None
}

/// The bytes between two places.
pub(crate) fn between(bytes: &[u8], from: usize, to: usize) -> &[u8]
    ensures { result.now ≡ tokens.between bytes.now from to }
{
    if from <= to && to <= bytes.len() {
        &bytes[from..to]
    } else {
        &[]
    }
}

/// So many bytes from a place on, as far as the text goes.
pub(crate) fn span_of(bytes: &[u8], from: usize, length: usize) -> Span
    ensures { result ≡ tokens.span_of bytes.now from length }
{
    Span {
        from,
        to: bytes.len().min(from.saturating_add(length)),
    }
}

/// The token at a place.
pub(crate) fn token_span(bytes: &[u8], at: usize) -> Span
    ensures { result ≡ tokens.token_span bytes.now at }
{
    span_of(bytes, at, token_length(behind(bytes, at)))
}

/// The word or number that goes on at a place, and began at another.
pub(crate) fn run_span(bytes: &[u8], from: usize, at: usize) -> Span
    ensures { result ≡ tokens.run_span bytes.now from at }
{
    Span {
        from,
        ..span_of(bytes, at, word_length(behind(bytes, at)))
    }
}
