//! Faults between tokens.
ghost use Rattle.std.specs.Prelude.{◌≡◌, option_copied, reverse};
ghost use Rattle.cbor_edn_explain.specs.Gaps as gaps;

use crate::finding::{Bracket, Finding, Front, Kind, Note, Role, Span, Strange, Unclosed, Wanted};
use crate::state::{Class, Gap, Open, Place, class_of, innermost, is_behind};
use crate::token::{behind, byte_at, is_at, span_of, token_span};

/// A fault of which nothing else is told.
pub(crate) fn plain(kind: Kind, span: Span) -> Finding
    ensures { result ≡ gaps.plain kind span }
{
    Finding {
        kind,
        span,
        subject: None,
        context: None,
        outer: None,
        layout: None,
        hint: None,
        fix: None,
    }
}

/// A second place whose words name no other line.
pub(crate) fn note(role: Role, span: Span) -> Option<Note>
    ensures { result ≡ gaps.note role span }
{
    Some(Note {
        role,
        span,
        at: span.from,
    })
}

/// That a bracket is open, if one is.
pub(crate) fn open_note(top: Option<Open>) -> Option<Note>
    ensures { result ≡ gaps.open_note top }
{
    let open = top?;
    note(Role::Open(open.bracket), open.span)
}

/// What closes a bracket at a place, if anything does: the bracket that it is of, and its length.
fn closer_at(rest: &[u8]) -> Option<Bracket>
    ensures { result ≡ gaps.closer_at rest.now }
{
    match byte_at(rest, 0)? {
        b']' => Some(Bracket::Square),
        b'}' => Some(Bracket::Curly),
        b')' => Some(Bracket::Round),
        b'>' if is_at(rest, 1, b'>') => Some(Bracket::Embedded),
        _ => None,
    }
}

/// Whether what closes one bracket closes the other.
fn closes(closer: Bracket, bracket: Bracket) -> bool
    ensures { result ≡ gaps.closes closer bracket }
{
    match bracket {
        Bracket::Square => matches!(closer, Bracket::Square),
        Bracket::Curly => matches!(closer, Bracket::Curly),
        Bracket::Round | Bracket::Stream => matches!(closer, Bracket::Round),
        Bracket::Embedded => matches!(closer, Bracket::Embedded),
    }
}

/// The innermost bracket that this closes.
fn closed_by(opened: &[Open], closer: Bracket) -> Option<Open>
    ensures { result ≡ gaps.closed_by closer (reverse opened.now) }
{
    last_closed(opened, closer).copied()
}

fn last_closed(opened: &[Open], closer: Bracket) -> Option<&Open>
    ensures { option_copied result ≡ gaps.closed_by closer (reverse opened.now) }
{
    opened
        .iter()
        .rev()
        .find(|open| closes(closer, open.bracket))
}

/// Whether an item or a comma may follow behind an item: not behind a key, nor in `(..)`.
pub(crate) fn is_list(top: Option<Open>, is_value: bool) -> bool
    ensures { result ≡ gaps.is_list top is_value }
{
    match top {
        None => true,
        Some(open) => match open.bracket {
            Bracket::Curly => is_value,
            Bracket::Round => false,
            _ => true,
        },
    }
}

/// Whether a key without its colon is in front.
fn is_key(top: Option<Open>, place: Place) -> bool
    ensures { result ≡ gaps.is_key top place }
{
    match top {
        Some(open) => matches!(open.bracket, Bracket::Curly) && !place.item.is_value,
        None => false,
    }
}

/// What had to stand between tokens.
fn wanted(place: Place, top: Option<Open>) -> Wanted
    ensures { result ≡ gaps.wanted_at place top }
{
    match place.gap {
        Gap::Colon => Wanted::Value,
        Gap::Plus => Wanted::Text,
        Gap::First | Gap::Comma => wanted_first(top),
        Gap::Must => match top {
            Some(open) if matches!(open.bracket, Bracket::Stream) => Wanted::Text,
            _ => Wanted::Item,
        },
        Gap::Tight | Gap::Loose => wanted_behind(place, top),
    }
}

fn wanted_first(top: Option<Open>) -> Wanted
    ensures { result ≡ gaps.wanted_first top }
{
    match top {
        Some(open) => Wanted::ItemOrEnd(open.bracket),
        None => Wanted::Item,
    }
}

fn wanted_behind(place: Place, top: Option<Open>) -> Wanted
    ensures { result ≡ gaps.wanted_behind place top }
{
    let Some(open) = top else {
        return match place.gap {
            Gap::Tight => Wanted::CommaOrSpace,
            _ => Wanted::Item,
        };
    };
    match open.bracket {
        Bracket::Curly if !place.item.is_value => Wanted::Colon,
        Bracket::Round => Wanted::End(Bracket::Round),
        bracket => Wanted::CommaOrEnd(bracket),
    }
}

/// Whether what closes the innermost bracket may stand there.
fn may_close(wanted: Wanted) -> bool
    ensures { result ≡ gaps.may_close wanted }
{
    matches!(
        wanted,
        Wanted::ItemOrEnd(_) | Wanted::End(_) | Wanted::CommaOrEnd(_)
    )
}

/// What is told of the end of the text.
fn at_end(place: Place, top: Option<Open>, at: usize) -> Finding
    ensures { result ≡ gaps.at_end place top at }
{
    let wanted = wanted(place, top);
    match top {
        Some(open) if may_close(wanted) => {
            plain(Kind::Unclosed(Unclosed::Never(open.bracket)), open.span)
        }
        _ => Finding {
            context: open_note(top),
            ..plain(Kind::Expected(wanted), Span { from: at, to: at })
        },
    }
}

/// What is told of what closes another bracket than the innermost.
fn at_closer(opened: &[Open], top: Option<Open>, closer: Bracket, span: Span) -> Finding
    ensures { result ≡ gaps.at_closer (reverse opened.now) top closer span }
{
    let Some(open) = top else {
        return plain(Kind::Unopened, span);
    };
    match closed_by(opened, closer) {
        Some(outer) => Finding {
            context: note(Role::Open(open.bracket), open.span),
            outer: note(Role::ToBeClosed(outer.bracket), outer.span),
            ..plain(Kind::Unclosed(Unclosed::Before(open.bracket)), span)
        },
        None => Finding {
            context: note(Role::Open(open.bracket), open.span),
            ..plain(Kind::Crossed(open.bracket), span)
        },
    }
}

/// Whether a byte begins an item, or looks so.
fn begins_item(class: Class) -> bool
    ensures { result ≡ gaps.begins_item class }
{
    matches!(
        class,
        Class::Square
            | Class::Curly
            | Class::Round
            | Class::DoubleQuote
            | Class::SingleQuote
            | Class::Less
            | Class::Digit
            | Class::Letter
            | Class::Exponent
            | Class::Dot
            | Class::Plus
            | Class::Minus
    )
}

/// The character in front, if it is none of a token.
fn strange_at(rest: &[u8]) -> Option<Strange>
    ensures { result ≡ gaps.strange_at rest.now }
{
    let first = byte_at(rest, 0)?;
    match first {
        0..=0x1f | 0x7f => Some(Strange::Control),
        0xc2 => Some(strange_latin(byte_at(rest, 1)?)),
        0xe2 => Some(strange_mark(byte_at(rest, 1)?, byte_at(rest, 2)?)),
        0xe3 if is_at(rest, 1, 0x80) => Some(strange_wide(byte_at(rest, 2)?)),
        0xef => Some(strange_form(byte_at(rest, 1)?, byte_at(rest, 2)?)),
        0xf0..=0xf4 => Some(Strange::Other),
        _ => None,
    }
}

/// Of U+0080 to U+00BF.
fn strange_latin(second: u8) -> Strange
    ensures { result ≡ gaps.strange_latin second }
{
    match second {
        0x80..=0x9f => Strange::Control,
        0xa0 => Strange::NoBreakSpace,
        _ => Strange::Other,
    }
}

/// Of U+2000 to U+2FFF.
fn strange_mark(second: u8, third: u8) -> Strange
    ensures { result ≡ gaps.strange_mark second third }
{
    match (second, third) {
        (0x80, 0x8b) => Strange::ZeroWidthSpace,
        (0x80, 0x93 | 0x94) => Strange::Dash,
        (0x80, 0x98 | 0x99) => Strange::CurlySingle,
        (0x80, 0x9c | 0x9d) => Strange::CurlyDouble,
        (0x88, 0x92) => Strange::MinusSign,
        _ => Strange::Other,
    }
}

/// Of U+3000 to U+303F.
fn strange_wide(third: u8) -> Strange
    ensures { result ≡ gaps.strange_wide third }
{
    match third {
        0x80 => Strange::WideSpace,
        _ => Strange::Other,
    }
}

/// Of U+F000 to U+FFFF.
fn strange_form(second: u8, third: u8) -> Strange
    ensures { result ≡ gaps.strange_form second third }
{
    match (second, third) {
        (0xbb, 0xbf) => Strange::ByteOrderMark,
        (0xbc, 0x8c) => Strange::WideComma,
        (0xbc, 0x9a) => Strange::WideColon,
        _ => Strange::Other,
    }
}

/// What the fault of a missing token stands in: the key of its pair, or the bracket that is open.
fn context_of(place: Place, top: Option<Open>) -> Option<Note>
    ensures { result ≡ gaps.context_of place top }
{
    let key = Span {
        from: place.item.from,
        to: place.to,
    };
    match place.gap {
        Gap::Plus => None,
        Gap::Colon => note(Role::Key, key),
        Gap::Tight | Gap::Loose if is_key(top, place) => note(Role::Key, key),
        _ => open_note(top),
    }
}

/// What is told where another token was wanted.
fn at_other(place: Place, top: Option<Open>, span: Span) -> Finding
    ensures { result ≡ gaps.at_other place top span }
{
    Finding {
        context: context_of(place, top),
        ..plain(Kind::Expected(wanted(place, top)), span)
    }
}

/// What is told of a place between tokens, where no token is in hand.
#[tactic(auto, unfolding(crate::specs::Gaps::in_gap))]
pub(crate) fn in_gap(bytes: &[u8], at: usize, place: Place, opened: &[Open]) -> Finding
    ensures { result ≡ gaps.in_gap bytes.now at place (reverse opened.now) }
{
    let top = innermost(opened);
    let rest = behind(bytes, at);
    let Some(first) = byte_at(rest, 0) else {
        return at_end(place, top, at);
    };
    match closer_at(rest) {
        Some(closer) if !closes_top(closer, top) => at_closer(
            opened,
            top,
            closer,
            token_span(bytes, at),
        ),
        _ => at_token(bytes, at, place, top, first),
    }
}

/// Whether this closes the innermost bracket.
fn closes_top(closer: Bracket, top: Option<Open>) -> bool
    ensures { result ≡ gaps.closes_top closer top }
{
    match top {
        Some(open) => closes(closer, open.bracket),
        None => false,
    }
}

/// What is told of a token that closes no bracket, or the innermost one.
fn at_token(bytes: &[u8], at: usize, place: Place, top: Option<Open>, first: u8) -> Finding
    ensures { result ≡ gaps.at_token bytes.now at place top first }
{
    let rest = behind(bytes, at);
    let span = token_span(bytes, at);
    if joins_number(place, first, rest) {
        return plain(
            Kind::Expected(Wanted::TextBehindPlus),
            token_span(bytes, span_of(bytes, at, 1).to),
        );
    }
    if is_right_behind(place, top) && begins_item(class_of(first)) {
        return plain(Kind::RunsOn(Front::Item), span);
    }
    match strange_at(rest) {
        Some(strange) => plain(Kind::Character(strange), span),
        None => at_other(place, top, span),
    }
}

/// Whether a plus sign is in front that may not begin a number, and a digit behind it.
fn joins_number(place: Place, first: u8, rest: &[u8]) -> bool
    ensures { result ≡ gaps.joins_number place first rest.now }
{
    first == b'+'
        && place.is_text
        && is_behind(place.gap)
        && matches!(byte_at(rest, 1), Some(b'0'..=b'9'))
}

/// Right behind an item of a list.
fn is_right_behind(place: Place, top: Option<Open>) -> bool
    ensures { result ≡ gaps.is_right_behind place top }
{
    matches!(place.gap, Gap::Tight) && is_list(top, place.item.is_value)
}
