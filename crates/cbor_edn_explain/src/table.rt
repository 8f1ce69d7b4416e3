//! What is told of a fault, by what the text leaves open there and by the token there.
ghost use Rattle.std.specs.Prelude.{◌≡◌, reverse};
ghost use Rattle.cbor_edn_explain.specs.Table as table;

use crate::finding::{
    Bracket, Control, EscapeFault, Finding, IndicatorFault, Kind, Role, Span, Unclosed, Wanted,
};
use crate::gap::{in_gap, is_list, note, open_note, plain};
use crate::number::{in_number, in_tag, is_of_tag};
use crate::state::{Class, Gap, Hand, Open, Place, class_of, ended, innermost};
use crate::token::{
    behind, byte_at, escape_fault, is_high_alone, is_in_word, run_span, span_of, token_span,
};
use crate::word::in_word;

/// What is told of the end of the text, or of a character, in a string.
fn in_text(bytes: &[u8], at: usize, place: Place, quote: u8) -> Finding
    ensures { result ≡ table.in_text bytes.now at place quote }
{
    let Some(first) = byte_at(bytes, at) else {
        let mark = Span {
            from: place.begin,
            to: span_of(bytes, place.quote, 1).to,
        };
        return plain(Kind::Unclosed(Unclosed::Text), mark);
    };
    match fault_of_escapes(bytes, place, quote) {
        Some((fault, from, length)) => { plain(Kind::Escape(fault), span_of(bytes, from, length)) }
        None => in_control(bytes, at, first, control_in_text(first)),
    }
}

/// A control character in a string or a comment.
fn in_control(bytes: &[u8], at: usize, first: u8, control: Control) -> Finding
    ensures { result ≡ table.in_control bytes.now at first control }
{
    let span = span_of(bytes, at, 1);
    match first {
        0..=0x1f | 0x7f => plain(Kind::Control(control), span),
        _ => plain(Kind::Other, span),
    }
}

fn control_in_text(first: u8) -> Control
    ensures { result ≡ table.control_in_text first }
{
    match first {
        b'\t' => Control::TabInText,
        _ => Control::InText,
    }
}

/// What is wrong with the last two escapes of a string, where it begins, and how many bytes show it.
fn fault_of_escapes(bytes: &[u8], place: Place, quote: u8) -> Option<(EscapeFault, usize, usize)>
    ensures { result ≡ table.fault_of_escapes bytes.now place quote }
{
    let apart = place.escape.saturating_sub(place.escape_before);
    if apart == 6 && is_high_alone(behind(bytes, place.escape_before)) {
        return Some((EscapeFault::HighAlone, place.escape_before, 6));
    }
    let last = behind(bytes, place.escape);
    if is_high_alone(last) {
        return Some((EscapeFault::HighAlone, place.escape, 6));
    }
    let (fault, length) = escape_fault(last, quote)?;
    Some((fault, place.escape, length))
}

/// What is told in a comment, of which the mark is `begin`.
fn in_comment(bytes: &[u8], at: usize, begin: usize, is_line: bool) -> Finding
    ensures { result ≡ table.in_comment bytes.now at begin is_line }
{
    let mark = span_of(bytes, begin, 1);
    match byte_at(bytes, at) {
        Some(first) => in_control(bytes, at, first, Control::InComment),
        None if is_line => Finding {
            context: note(Role::CommentBegins, mark),
            ..plain(Kind::Expected(Wanted::LineFeed), Span { from: at, to: at })
        },
        None => plain(Kind::Unclosed(Unclosed::Comment), mark),
    }
}

/// What is told of an indicator of a list or a string.
fn in_indicator(bytes: &[u8], at: usize, place: Place, opened: &[Open]) -> Finding
    ensures { result ≡ table.in_indicator bytes.now at place (reverse opened.now) }
{
    let next = byte_at(bytes, at);
    let is_of_list = !matches!(place.gap, Gap::Tight);
    let is_whole = is_of_list && at.saturating_sub(place.begin) == 2;
    if !is_whole && next.is_some_and(is_in_word) {
        return plain(
            Kind::Indicator(IndicatorFault::Unknown),
            run_span(bytes, place.begin, at),
        );
    }
    if is_of_list && next.is_some_and(|byte| !ends_indicator(class_of(byte))) {
        let front = Span {
            from: place.begin,
            to: at,
        };
        return space_wanted(front, token_span(bytes, at), innermost(opened));
    }
    in_gap(bytes, at, ended(place, at), opened)
}

/// That a space has to stand behind the mark of a list or a string of indefinite length.
fn space_wanted(front: Span, span: Span, top: Option<Open>) -> Finding
    ensures { result ≡ table.space_wanted front span top }
{
    Finding {
        subject: Some(front),
        context: open_note(top),
        ..plain(Kind::Expected(Wanted::Space), span)
    }
}

/// Whether a byte may stand behind the indicator of a list, as far as can be told without what is open.
fn ends_indicator(class: Class) -> bool
    ensures { result ≡ table.ends_indicator class }
{
    matches!(
        class,
        Class::Blank
            | Class::LineFeed
            | Class::SquareEnd
            | Class::CurlyEnd
            | Class::RoundEnd
            | Class::Greater
    )
}

/// Whether an item may begin between tokens, and more than a string.
fn may_begin_item(place: Place, top: Option<Open>) -> bool
    ensures { result ≡ table.may_begin_item place top }
{
    match place.gap {
        Gap::Colon => true,
        Gap::Plus | Gap::Tight => false,
        Gap::Loose => is_list(top, place.item.is_value) && !is_stream(top),
        Gap::First | Gap::Must | Gap::Comma => !is_stream(top),
    }
}

fn is_stream(top: Option<Open>) -> bool
    ensures { result ≡ table.is_stream top }
{
    match top {
        Some(open) => matches!(open.bracket, Bracket::Stream),
        None => false,
    }
}

/// What is told between tokens: of a word or a number that is refused as a whole, or of what stands there.
fn in_nothing(bytes: &[u8], at: usize, place: Place, opened: &[Open]) -> Finding
    ensures { result ≡ table.in_nothing bytes.now at place (reverse opened.now) }
{
    let Some(first) = byte_at(bytes, at) else {
        return in_gap(bytes, at, place, opened);
    };
    let top = innermost(opened);
    match top {
        Some(open) if is_right_behind_mark(place, at, open) => {
            space_wanted(open.span, token_span(bytes, at), top)
        }
        _ if may_begin_item(place, top) => in_first(class_of(first), bytes, at, place, opened),
        _ => in_gap(bytes, at, place, opened),
    }
}

/// Right behind `(_`.
fn is_right_behind_mark(place: Place, at: usize, top: Open) -> bool
    ensures { result ≡ table.is_right_behind_mark place at top }
{
    matches!(top.bracket, Bracket::Stream) && matches!(place.gap, Gap::Must) && top.span.to == at
}

/// What is told of a byte where an item may begin.
fn in_first(class: Class, bytes: &[u8], at: usize, place: Place, opened: &[Open]) -> Finding
    ensures { result ≡ table.in_first class bytes.now at place (reverse opened.now) }
{
    match class {
        Class::Letter | Class::Exponent => in_word(bytes, at, begun_at(place, at), opened),
        Class::Digit => {
            if is_of_tag(bytes, at) {
                in_tag(bytes, at)
            } else {
                in_gap(bytes, at, place, opened)
            }
        }
        Class::Plus | Class::Minus => in_sign(bytes, at, place, opened),
        _ => in_gap(bytes, at, place, opened),
    }
}

fn in_sign(bytes: &[u8], at: usize, place: Place, opened: &[Open]) -> Finding
    ensures { result ≡ table.in_sign bytes.now at place (reverse opened.now) }
{
    if is_of_tag(bytes, at) {
        in_tag(bytes, at)
    } else {
        in_number(bytes, span_of(bytes, at, 1).to, begun_at(place, at), opened)
    }
}

/// The place with a token in hand that begins there.
fn begun_at(place: Place, at: usize) -> Place
    ensures { result ≡ table.begun_at place at }
{
    Place { begin: at, ..place }
}

/// What is told of a fault at a place, but for what the lines say.
#[tactic(auto, unfolding(crate::specs::Table::fault_at))]
pub(crate) fn fault_at(bytes: &[u8], at: usize, place: Place, opened: &[Open]) -> Finding
    ensures { result ≡ table.fault_at bytes.now at place (reverse opened.now) }
{
    let token = Span {
        from: place.begin,
        to: at,
    };
    match place.hand {
        Hand::Double | Hand::DoubleEscape => in_text(bytes, at, place, b'"'),
        Hand::Single | Hand::SingleEscape => in_text(bytes, at, place, b'\''),
        Hand::Slash => in_comment(bytes, at, place.begin, false),
        Hand::Hash => in_comment(bytes, at, place.begin, true),
        Hand::Word => in_word(bytes, at, place, opened),
        Hand::Number | Hand::Exponent | Hand::Dot => in_number(bytes, at, place, opened),
        Hand::Indicator => in_indicator(bytes, at, place, opened),
        Hand::Less => plain(Kind::Expected(Wanted::SecondLess), token),
        Hand::Greater => Finding {
            context: open_note(innermost(opened)),
            ..plain(Kind::Expected(Wanted::SecondGreater), token)
        },
        Hand::Round => plain(Kind::Expected(Wanted::StreamMark), token_span(bytes, at)),
        Hand::Dots if at.saturating_sub(place.begin) == 2 => plain(
            Kind::Expected(Wanted::ThirdDot),
            token,
        ),
        Hand::Dots | Hand::Plus | Hand::PlusDot => in_gap(bytes, at, ended(place, at), opened),
        Hand::Nothing => in_nothing(bytes, at, place, opened),
    }
}
