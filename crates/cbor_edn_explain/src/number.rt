//! Faults of numbers.
ghost use Rattle.std.specs.Prelude.{◌≡◌, ◌≤◌, ◌<◌, ◌==◌, IfSome, length, position, reverse};
ghost use Rattle.cbor_edn_explain.specs.NumberFaults as numbers;

use crate::finding::{Base, Finding, Front, IndicatorFault, Kind, Role, Span, TagFault, Wanted};
use crate::gap::{in_gap, note, plain};
use crate::state::{Open, Place, ended};
use crate::token::{
    behind, between, byte_at, is_at, is_digit, is_in_word, run_span, span_of, token_span, up_to,
    word_length,
};
use crate::word::is_one_of;

const NEGATIVE_INFINITY: &[&[u8]] = &[b"-Infinity"];

/// What is told of a number that begins at `place.begin` and goes on in front of `at`.
#[tactic(auto, unfolding(crate::specs::NumberFaults::in_number))]
pub(crate) fn in_number(bytes: &[u8], at: usize, place: Place, opened: &[Open]) -> Finding
    ensures { result ≡ numbers.in_number bytes.now at place (reverse opened.now) }
{
    let front = between(bytes, place.begin, at);
    if is_sign(front) || is_signed_word(front) {
        return in_signed(bytes, at, place, opened);
    }
    if let Some(wanted) = digit_wanted(front) {
        return in_digits(bytes, at, place.begin, wanted);
    }
    match byte_at(bytes, at) {
        Some(b'(') => in_tag(bytes, place.begin),
        Some(next) if is_in_word(next) => in_run(bytes, at, place.begin, front),
        _ => in_gap(bytes, at, ended(place, at), opened),
    }
}

/// Whether this is a plus sign or a minus sign alone.
fn is_sign(front: &[u8]) -> bool
    ensures { result ≡ numbers.is_sign front.now }
{
    front.len() == 1 && (is_at(front, 0, b'+') || is_at(front, 0, b'-'))
}

fn is_letter_at(bytes: &[u8], at: usize) -> bool
    ensures { result ≡ numbers.is_letter_at bytes.now at }
{
    matches!(byte_at(bytes, at), Some(b'a'..=b'z' | b'A'..=b'Z'))
}

fn is_digit_at(bytes: &[u8], at: usize) -> bool
    ensures { result ≡ numbers.is_digit_at bytes.now at }
{
    match byte_at(bytes, at) {
        Some(byte) => is_digit(byte),
        None => false,
    }
}

/// Whether this is a sign and letters, as `-Infinity` begins.
fn is_signed_word(front: &[u8]) -> bool
    ensures { result ≡ numbers.is_signed_word front.now }
{
    (is_at(front, 0, b'+') || is_at(front, 0, b'-')) && is_letter_at(front, 1)
}

/// Of a sign, and of a word behind it.
fn in_signed(bytes: &[u8], at: usize, place: Place, opened: &[Open]) -> Finding
    ensures { result ≡ numbers.in_signed bytes.now at place (reverse opened.now) }
{
    let span = run_span(bytes, place.begin, at);
    if is_one_of(between(bytes, span.from, span.to), NEGATIVE_INFINITY) {
        return in_gap(bytes, span.to, ended(place, span.to), opened);
    }
    if is_letter_at(behind(bytes, place.begin), 1) {
        return plain(Kind::Word, span);
    }
    let sign = Span {
        from: place.begin,
        to: at,
    };
    Finding {
        subject: Some(sign),
        ..plain(Kind::Expected(Wanted::Digit), behind_sign(bytes, at))
    }
}

/// What stands behind a sign: of two minus signs the second one alone.
fn behind_sign(bytes: &[u8], at: usize) -> Span
    ensures { result ≡ numbers.behind_sign bytes.now at }
{
    if is_at(bytes, at, b'-') {
        span_of(bytes, at, 1)
    } else {
        token_span(bytes, at)
    }
}

/// How many bytes a number in front has, with its sign and its indicator.
fn number_length(rest: &[u8]) -> usize
    ensures is { result ≡ numbers.number_length rest.now }
    ensures within { result ≤ length rest.now }
{
    if is_at(rest, 0, b'+') {
        1 + word_length(behind(rest, 1))
    } else {
        word_length(rest)
    }
}

/// Whether a number at a place stands in front of `(`.
pub(crate) fn is_of_tag(bytes: &[u8], begin: usize) -> bool
    ensures { result ≡ numbers.is_of_tag bytes.now begin }
{
    let rest = behind(bytes, begin);
    is_at(rest, number_length(rest), b'(')
}

/// Of a number in front of `(`, but for its indicator.
pub(crate) fn in_tag(bytes: &[u8], begin: usize) -> Finding
    ensures { result ≡ numbers.in_tag bytes.now begin }
{
    let rest = behind(bytes, begin);
    let number = between(rest, 0, number_length(rest));
    let length = mantissa_length(number);
    plain(
        Kind::Tag(tag_fault(between(number, 0, length))),
        span_of(bytes, begin, length),
    )
}

/// How many bytes a number has in front of its indicator.
fn mantissa_length(number: &[u8]) -> usize
    ensures { result ≡ numbers.mantissa_length number.now }
{
    up_to(first_underscore(number), number)
}

fn first_underscore(number: &[u8]) -> Option<usize>
    ensures is { result ≡ position (λ c. c == 95) number.now }
    ensures within { IfSome result (λ n. n < length number.now) }
{
    number.iter().position(|byte| *byte == b'_')
}

/// Why a number without an indicator is none of a tag (RFC 8610, appendix G).
fn tag_fault(number: &[u8]) -> TagFault
    ensures { result ≡ numbers.tag_fault number.now }
{
    if is_at(number, 0, b'+') || is_at(number, 0, b'-') {
        return TagFault::Sign;
    }
    if !is_decimal(number) {
        return TagFault::NotDecimal;
    }
    if is_at(number, 0, b'0') && number.len() > 1 {
        return TagFault::LeadingZero;
    }
    TagFault::TooLarge
}

fn is_decimal(number: &[u8]) -> bool
    ensures { result ≡ numbers.is_decimal number.now }
{
    number.iter().all(|byte| is_digit(*byte))
}

/// A number behind its sign.
fn unsigned(front: &[u8]) -> &[u8]
    ensures { result.now ≡ numbers.unsigned front.now }
{
    let is_signed = is_at(front, 0, b'+') || is_at(front, 0, b'-');
    behind(front, usize::from(is_signed))
}

/// The base that the mark of a number says, if it has one.
fn base_of(number: &[u8]) -> Option<Base>
    ensures { result ≡ numbers.base_of number.now }
{
    if !is_at(number, 0, b'0') {
        return None;
    }
    match byte_at(number, 1)? {
        b'x' | b'X' => Some(Base::Hexadecimal),
        b'o' | b'O' => Some(Base::Octal),
        b'b' | b'B' => Some(Base::Binary),
        _ => None,
    }
}

/// What has to follow a number that is not whole.
fn digit_wanted(front: &[u8]) -> Option<Wanted>
    ensures { result ≡ numbers.digit_wanted front.now }
{
    let number = unsigned(front);
    match base_of(number) {
        Some(base) => digit_wanted_of(base, behind(number, 2)),
        None => decimal_wanted(number),
    }
}

/// The same of a number without a base, behind its sign.
fn decimal_wanted(number: &[u8]) -> Option<Wanted>
    ensures { result ≡ numbers.decimal_wanted number.now }
{
    if is_at(number, 0, b'.') && number.len() == 1 {
        return Some(Wanted::Digit);
    }
    if ends_in_exponent(number, b'e', b'E') {
        return Some(Wanted::DigitOfExponent);
    }
    None
}

/// The same of the digits behind the mark of a base.
fn digit_wanted_of(base: Base, digits: &[u8]) -> Option<Wanted>
    ensures { result ≡ numbers.digit_wanted_of base digits.now }
{
    if digits.is_empty() || (is_at(digits, 0, b'.') && digits.len() == 1) {
        return Some(Wanted::DigitOf(base));
    }
    if ends_in_exponent(digits, b'p', b'P') {
        return Some(Wanted::DigitOfExponent);
    }
    if digits.contains(&b'.') && !digits.contains(&b'p') && !digits.contains(&b'P') {
        return Some(Wanted::Exponent);
    }
    None
}

/// Whether a number ends in the letter of an exponent, or in that and a sign.
fn ends_in_exponent(number: &[u8], small: u8, capital: u8) -> bool
    ensures { result ≡ numbers.ends_in_exponent number.now small capital }
{
    let last = number.len().saturating_sub(1);
    let letter = if is_at(number, last, b'+') || is_at(number, last, b'-') {
        last.saturating_sub(1)
    } else {
        last
    };
    is_at(number, letter, small) || is_at(number, letter, capital)
}

/// Of a number that is not whole: a letter or a digit that is none of its base, or what is missing.
fn in_digits(bytes: &[u8], at: usize, begin: usize, wanted: Wanted) -> Finding
    ensures { result ≡ numbers.in_digits bytes.now at begin wanted }
{
    let front = Span {
        from: begin,
        to: at,
    };
    let is_other = is_letter_at(bytes, at) || is_digit_at(bytes, at);
    match wanted {
        Wanted::DigitOf(base) if is_other => not_of_base(bytes, base, front),
        Wanted::Exponent if is_other => not_of_base(bytes, Base::Hexadecimal, front),
        Wanted::DigitOfExponent => Finding {
            context: note(Role::NumberBegins, front),
            ..plain(Kind::Expected(wanted), token_span(bytes, at))
        },
        _ => Finding {
            subject: Some(front),
            ..plain(Kind::Expected(wanted), token_span(bytes, at))
        },
    }
}

/// That the byte behind the front of a number is no digit of it.
fn not_of_base(bytes: &[u8], base: Base, front: Span) -> Finding
    ensures { result ≡ numbers.not_of_base bytes.now base front }
{
    Finding {
        context: note(Role::InNumber, front),
        ..plain(Kind::Digit(base), span_of(bytes, front.to, 1))
    }
}

/// Of a whole number that runs into more: an indicator that is none, a digit of another base, or anything.
fn in_run(bytes: &[u8], at: usize, begin: usize, front: &[u8]) -> Finding
    ensures { result ≡ numbers.in_run bytes.now at begin front.now }
{
    let digits = mantissa_length(front);
    if digits < front.len() {
        let span = Span {
            from: span_of(bytes, begin, digits).to,
            to: run_span(bytes, begin, at).to,
        };
        let fault = indicator_fault(
            between(front, 0, digits),
            between(bytes, span.from, span.to),
        );
        return plain(Kind::Indicator(fault), span);
    }
    let span = Span {
        from: begin,
        to: at,
    };
    match base_of(unsigned(front)) {
        Some(base) if is_letter_at(bytes, at) || is_digit_at(bytes, at) => {
            not_of_base(bytes, base, span)
        }
        _ => Finding {
            subject: Some(span),
            ..plain(Kind::RunsOn(Front::Number), run_span(bytes, at, at))
        },
    }
}

/// Whether what begins with `_` behind a number groups its digits, in threes or more than once.
fn indicator_fault(number: &[u8], groups: &[u8]) -> IndicatorFault
    ensures { result ≡ numbers.indicator_fault number.now groups.now }
{
    if is_decimal(number) && are_grouped(groups) && are_apart(groups) {
        IndicatorFault::Groups
    } else {
        IndicatorFault::Unknown
    }
}

/// Whether these are digits and marks between them.
fn are_grouped(groups: &[u8]) -> bool
    ensures { result ≡ numbers.are_grouped groups.now }
{
    groups.iter().all(|byte| is_digit(*byte) || *byte == b'_')
}

/// Whether more than two bytes follow `_`, of which the first and the last are no other one.
fn are_apart(groups: &[u8]) -> bool
    ensures { result ≡ numbers.are_apart groups.now }
{
    let last = groups.len().saturating_sub(1);
    last >= 3 && !is_at(groups, 1, b'_') && !is_at(groups, last, b'_')
}
