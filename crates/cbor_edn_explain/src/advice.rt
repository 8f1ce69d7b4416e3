//! What people may do about a fault: hints, and fixes where it is sure what to write. Tests show these, and no contract.
use crate::finding::{
    Bracket, Control, EscapeFault, Finding, Fix, Front, Hint, IndicatorFault, Kind, Name,
    QuoteFault, Span, Strange, Unclosed, Wanted,
};
use crate::state::{Class, Gap, Open, Place, Reading, class_of, ended, is_behind};
use crate::token::{behind, between, byte_at, is_at, span_of};
use crate::word::is_one_of;

const NULLS: &[&[u8]] = &[
    b"nil", b"NULL", b"Null", b"None", b"none", b"NONE", b"Nil", b"NIL", b"nul",
];

const TRUES: &[&[u8]] = &[
    b"True", b"TRUE", b"yes", b"Yes", b"YES", b"on", b"On", b"ON", b"T", b"t", b"tru", b"ture",
];

const FALSES: &[&[u8]] = &[
    b"False", b"FALSE", b"no", b"No", b"NO", b"off", b"Off", b"OFF", b"F", b"f", b"fals", b"flase",
    b"fasle",
];

const UNDEFINEDS: &[&[u8]] = &[b"Undefined", b"UNDEFINED", b"undef"];

const NANS: &[&[u8]] = &[b"nan", b"NAN", b"Nan", b"-nan", b"-NaN"];

const INFINITIES: &[&[u8]] = &[
    b"inf",
    b"Inf",
    b"INF",
    b"infinity",
    b"INFINITY",
    b"+Infinity",
    b"+inf",
];

const NEGATIVE_INFINITIES: &[&[u8]] = &[b"-inf", b"-Inf", b"-INF", b"-infinity"];

/// The word of EDN that is meant by one of other languages.
fn name_of(word: &[u8]) -> Option<Name> {
    if is_one_of(word, NULLS) {
        return Some(Name::Null);
    }
    if is_one_of(word, TRUES) {
        return Some(Name::True);
    }
    if is_one_of(word, FALSES) {
        return Some(Name::False);
    }
    if is_one_of(word, UNDEFINEDS) {
        return Some(Name::Undefined);
    }
    if is_one_of(word, NANS) {
        return Some(Name::NotANumber);
    }
    if is_one_of(word, INFINITIES) {
        return Some(Name::Infinity);
    }
    if is_one_of(word, NEGATIVE_INFINITIES) {
        return Some(Name::NegativeInfinity);
    }
    None
}

/// What may help with a fault.
pub(crate) fn hint_of(
    bytes: &[u8],
    at: usize,
    reading: Reading,
    top: Option<Open>,
    found: Finding,
) -> Option<Hint> {
    let place = ended(reading.place, at);
    match found.kind {
        Kind::Word => Some(hint_of_word(bytes, reading, top, found.span)),
        Kind::Expected(wanted) => hint_of_expected(bytes, place, top, wanted, found.span),
        Kind::Unclosed(Unclosed::Comment) => Some(Hint::CommentEnds),
        Kind::RunsOn(Front::Item) => hint_of_item(bytes, found.span.from),
        Kind::RunsOn(Front::Number) => Some(hint_of_run(between(
            bytes,
            reading.place.begin,
            found.span.to,
        ))),
        Kind::Quote(QuoteFault::NotSingle) => Some(Hint::SingleQuotes),
        Kind::Quote(QuoteFault::Mixed) => Some(Hint::OneCase),
        Kind::Indicator(IndicatorFault::Unknown) => Some(Hint::Indicators),
        Kind::Escape(fault) => hint_of_escape(fault, bytes, found.span.from),
        Kind::Control(Control::TabInText) => Some(Hint::Tab),
        Kind::Control(Control::InText) => Some(Hint::ByNumber),
        Kind::Character(strange) => hint_of_strange(strange),
        _ => None,
    }
}

/// The first byte from a place on that is no space and no tab.
fn behind_blanks(bytes: &[u8], at: usize) -> Option<u8> {
    let rest = behind(bytes, at);
    let length = rest
        .iter()
        .position(|byte| *byte != b' ' && *byte != b'\t')?;
    byte_at(rest, length)
}

fn is_in_map(top: Option<Open>) -> bool {
    match top {
        Some(open) => matches!(open.bracket, Bracket::Curly),
        None => false,
    }
}

fn hint_of_word(bytes: &[u8], reading: Reading, top: Option<Open>, span: Span) -> Hint {
    if let Some(name) = name_of(between(bytes, span.from, span.to)) {
        return Hint::Write(name);
    }
    if reading.lines.slashes.is_some() {
        return Hint::EmptyComment;
    }
    match byte_at(bytes, span.to) {
        Some(b'"' | b'`') => Hint::QuoteMissing,
        Some(b'(') => Hint::TagsAreNumbers,
        _
            if is_in_map(top)
                && !reading.place.item.is_value
                && matches!(behind_blanks(bytes, span.to), Some(b':' | b'=')) => {
            Hint::KeysAreQuoted
        }
        _ => Hint::TextsAreQuoted,
    }
}

fn hint_of_expected(
    bytes: &[u8],
    place: Place,
    top: Option<Open>,
    wanted: Wanted,
    span: Span,
) -> Option<Hint> {
    match wanted {
        Wanted::Argument if matches!(behind_blanks(bytes, span.from), Some(b'(')) => {
            Some(Hint::NoSpaceBeforeRound)
        }
        Wanted::Argument => Some(Hint::SimpleValue),
        Wanted::Digit => hint_of_digit(bytes, span.from),
        Wanted::StreamMark => Some(hint_of_round(bytes, place.begin)),
        Wanted::SecondLess => Some(Hint::EmbeddedItems),
        Wanted::TextBehindPlus => Some(Hint::SpaceBeforePlus),
        _ => hint_between(bytes, place, top, wanted, span.from),
    }
}

/// Behind a sign or a point: `at` is behind it.
fn hint_of_digit(bytes: &[u8], at: usize) -> Option<Hint> {
    let next = byte_at(bytes, at);
    match byte_at(bytes, at.saturating_sub(1))? {
        b'-' if next == Some(b'-') => Some(Hint::Comments),
        b'.' => Some(if next == Some(b' ') {
            Hint::PlusJoins
        } else {
            Hint::Ellipsis
        }),
        b'+' if matches!(next, Some(b' ' | b'\t' | b'"' | b'\'' | b'<')) => Some(Hint::PlusJoins),
        _
            if matches!(next, Some(b' ' | b'\t'))
                && matches!(behind_blanks(bytes, at), Some(b'0'..=b'9')) => {
            Some(Hint::SignAndDigits)
        }
        _ => None,
    }
}

/// Of `(` at a place, behind a number and a space or elsewhere.
fn hint_of_round(bytes: &[u8], at: usize) -> Hint {
    let front = between(bytes, 0, at);
    let blanks = front.iter().rev().position(|byte| *byte != b' ');
    match blanks {
        Some(blanks) if blanks > 0 => {
            let last = front.len().saturating_sub(blanks).saturating_sub(1);
            if matches!(byte_at(bytes, last), Some(b'0'..=b'9')) {
                Hint::NoSpaceBeforeRound
            } else {
                Hint::StreamOrTag
            }
        }
        _ => Hint::StreamOrTag,
    }
}

/// Where another token was wanted between tokens.
fn hint_between(
    bytes: &[u8],
    place: Place,
    top: Option<Open>,
    wanted: Wanted,
    at: usize,
) -> Option<Hint> {
    match byte_at(bytes, at)? {
        b'=' if matches!(wanted, Wanted::Colon) => Some(Hint::ColonNotEqual),
        b',' | b'}' if matches!(wanted, Wanted::Colon) => Some(Hint::KeyAndValue),
        b',' => hint_of_comma(place.gap),
        b':' if !is_in_map(top) => Some(Hint::PairsInMap),
        b':' if is_behind(place.gap) => Some(Hint::SpaceBetweenPairs),
        b';' => Some(Hint::Comments),
        b'`' => Some(Hint::Strings),
        _ => None,
    }
}

fn hint_of_comma(gap: Gap) -> Option<Hint> {
    match gap {
        Gap::Comma => Some(Hint::OneComma),
        Gap::First | Gap::Must => Some(Hint::NoFirstComma),
        _ => None,
    }
}

/// Right behind an item, by its last byte and the first one of the next.
fn hint_of_item(bytes: &[u8], at: usize) -> Option<Hint> {
    let first = byte_at(bytes, at)?;
    if first == b'+' {
        return Some(Hint::PlusJoins);
    }
    let is_of_text = matches!(
        class_of(first),
        Class::Letter | Class::Exponent | Class::Digit | Class::DoubleQuote | Class::SingleQuote
    );
    match byte_at(bytes, at.saturating_sub(1))? {
        b'"' if is_of_text => Some(Hint::QuoteInText),
        b'\'' if is_of_text => Some(Hint::QuoteInBytes),
        _ => None,
    }
}

/// What a number is meant as that runs into more.
fn hint_of_run(run: &[u8]) -> Hint {
    let points = run.iter().filter(|byte| **byte == b'.').count();
    let is_address = points == 3
        && run
            .iter()
            .all(|byte| byte.is_ascii_digit() || *byte == b'.');
    if is_address {
        Hint::AddressLiteral
    } else if run.len() >= 10 && is_at(run, 4, b'-') && is_at(run, 7, b'-') {
        Hint::TimeLiteral
    } else {
        Hint::NumbersEnd
    }
}

fn hint_of_escape(fault: EscapeFault, bytes: &[u8], at: usize) -> Option<Hint> {
    match fault {
        EscapeFault::Unknown
            if matches!(
                byte_at(behind(bytes, at), 1),
                Some(b'x' | b'U' | b'0' | b'a' | b'v')
            ) => { Some(Hint::ByNumber) }
        EscapeFault::Unknown => Some(Hint::Backslash),
        EscapeFault::LineEnd => Some(Hint::LinesGoOn),
        EscapeFault::FourDigits => Some(Hint::BracesOfEscape),
        EscapeFault::HighAlone => Some(Hint::Pair),
        _ => None,
    }
}

fn hint_of_strange(strange: Strange) -> Option<Hint> {
    match strange {
        Strange::NoBreakSpace | Strange::WideSpace => Some(Hint::WriteSpace),
        Strange::ByteOrderMark => Some(Hint::WithoutMark),
        Strange::ZeroWidthSpace => Some(Hint::Remove),
        Strange::CurlyDouble => Some(Hint::WriteDouble),
        Strange::CurlySingle => Some(Hint::WriteSingle),
        Strange::Dash | Strange::MinusSign => Some(Hint::WriteMinus),
        Strange::WideComma => Some(Hint::WriteComma),
        Strange::WideColon => Some(Hint::WriteColon),
        Strange::Control | Strange::Other => None,
    }
}

/// What closes a bracket.
fn closer_of(bracket: Bracket) -> &'static str {
    match bracket {
        Bracket::Square => "]",
        Bracket::Curly => "}",
        Bracket::Round | Bracket::Stream => ")",
        Bracket::Embedded => ">>",
    }
}

fn word_of(name: Name) -> &'static str {
    match name {
        Name::Null => "null",
        Name::True => "true",
        Name::False => "false",
        Name::Undefined => "undefined",
        Name::NotANumber => "NaN",
        Name::Infinity => "Infinity",
        Name::NegativeInfinity => "-Infinity",
    }
}

/// In front of a place.
fn before(at: usize) -> Span {
    Span { from: at, to: at }
}

/// Whether a token may end in front of a byte.
fn ends_token(next: Option<u8>) -> bool {
    match next {
        Some(byte) => matches!(
            class_of(byte),
            Class::Blank
                | Class::LineFeed
                | Class::Comma
                | Class::Colon
                | Class::SquareEnd
                | Class::CurlyEnd
                | Class::RoundEnd
        ),
        None => true,
    }
}

/// Whether a byte begins an item that has no mark of two bytes.
fn begins_plain_item(next: Option<u8>) -> bool {
    match next {
        Some(byte) => matches!(
            class_of(byte),
            Class::Digit | Class::DoubleQuote | Class::SingleQuote | Class::Square | Class::Curly
        ),
        None => false,
    }
}

/// Whether what closes the innermost bracket may stand behind the item in front.
fn may_close(place: Place, top: Option<Open>) -> bool {
    is_behind(place.gap) && (place.item.is_value || !is_in_map(top))
}

/// What to write, where that is sure: then the fault goes away, or another one is told behind it. The spans of the finding are of whole
/// characters.
pub(crate) fn fix_of(
    bytes: &[u8],
    at: usize,
    reading: Reading,
    top: Option<Open>,
    found: Finding,
) -> Option<Fix> {
    let span = found.span;
    match found.kind {
        Kind::Unopened => Some(Fix::Replace(span, "")),
        Kind::Unclosed(Unclosed::Never(bracket)) => {
            Some(Fix::Replace(before(bytes.len()), closer_of(bracket)))
        }
        Kind::Unclosed(Unclosed::Before(bracket)) if may_close(ended(reading.place, at), top) => {
            Some(Fix::Replace(before(span.from), closer_of(bracket)))
        }
        Kind::RunsOn(Front::Item) => Some(Fix::Replace(before(span.from), " ")),
        Kind::Indicator(IndicatorFault::NotTaken) => Some(Fix::Replace(span, "")),
        Kind::Expected(Wanted::Space) if begins_plain_item(byte_at(bytes, span.from)) => {
            Some(Fix::Replace(before(span.from), " "))
        }
        Kind::Expected(Wanted::LineFeed) => Some(Fix::Replace(before(span.from), "\n")),
        Kind::Expected(Wanted::ThirdDot) if ends_token(byte_at(bytes, span.to)) => {
            Some(Fix::Replace(before(span.to), "."))
        }
        Kind::Expected(Wanted::SecondGreater) if ends_token(byte_at(bytes, span.to)) => {
            Some(Fix::Replace(span, ">>"))
        }
        _ => fix_by_hint(bytes, span, reading.lines.slashes, found.hint?),
    }
}

/// What a hint says to write.
fn fix_by_hint(bytes: &[u8], span: Span, slashes: Option<usize>, hint: Hint) -> Option<Fix> {
    let next = byte_at(bytes, span.to);
    match hint {
        Hint::Write(name) if ends_token(next) => Some(Fix::Replace(span, word_of(name))),
        Hint::KeysAreQuoted | Hint::TextsAreQuoted if ends_token(next) => Some(Fix::Quote(span)),
        Hint::QuoteMissing => Some(Fix::Replace(before(span.from), "\"")),
        Hint::WriteMinus if matches!(next, Some(b'0'..=b'9')) => Some(Fix::Replace(span, "-")),
        Hint::ColonNotEqual => Some(Fix::Replace(span, ":")),
        Hint::EmptyComment => {
            let from = slashes?;
            Some(Fix::Replace(span_of(bytes, from, 2), "#"))
        }
        _ => fix_of_character(span, hint),
    }
}

/// What to write in place of one character.
fn fix_of_character(span: Span, hint: Hint) -> Option<Fix> {
    match hint {
        Hint::OneComma | Hint::NoFirstComma | Hint::Remove | Hint::WithoutMark => {
            Some(Fix::Replace(span, ""))
        }
        Hint::Tab => Some(Fix::Replace(span, "\\t")),
        Hint::WriteSpace => Some(Fix::Replace(span, " ")),
        Hint::WriteComma => Some(Fix::Replace(span, ",")),
        Hint::WriteColon => Some(Fix::Replace(span, ":")),
        _ => None,
    }
}
