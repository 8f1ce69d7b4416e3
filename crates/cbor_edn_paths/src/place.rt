//! Where a reader of a path stands, byte by byte.
ghost use Rattle.std.specs.Prelude.{◌≡◌, ◌+◌, ◌-◌, ◌<◌, ◌≤◌, ◌^◌, ℕ, List, length, option_map, IfSome, Some};
ghost use Rattle.std.specs.Str.{IsCharBoundary};
ghost use Rattle.cbor_edn_paths.specs.internal.Places as places;
ghost use Rattle.cbor_edn_paths.specs.internal.Moves.{place_at, outcome_of, IsMove, IsHere, WillBeHere};
ghost use Rattle.cbor_edn_paths.specs.internal.Moves as moves;
ghost use Rattle.cbor_edn_paths.specs.Spelling as spelling;

use crate::step::{Key, Step};

/// What stands open between the braces of a key.
#[derive(Clone, Copy)]
pub(crate) enum Inside {
    Plain,
    /// A quoted text that this quote ends.
    Quoted(u8),
    /// The same, behind a backslash in it.
    Escaped(u8),
    /// A comment that this byte ends.
    Comment(u8),
}

/// What an index stands in.
#[derive(Clone, Copy)]
pub(crate) enum Bracket {
    Square,
    Round,
    Angle,
}

/// What of a step is read. What stands in quotes, braces or a name begins at a place of the text.
#[derive(Clone, Copy)]
pub(crate) enum Place<'a> {
    /// In front of everything.
    Start,
    /// Behind a dot in front of everything.
    Root,
    /// Behind another dot.
    Dot,
    InName(usize),
    InQuotes(usize),
    /// Behind a backslash between quotes.
    Escaped(usize),
    /// With so many braces open in it.
    InBraces(usize, Inside, usize),
    /// Behind a key that is closed.
    BehindKey(Key<'a>),
    Tilde(Key<'a>),
    Occurrence(Key<'a>, u64),
    StartSign,
    StartNumber(u64),
    Opened(Bracket),
    Digits(Bracket, u64),
    Plus,
    /// Behind a bracket that closes a step.
    Closed,
}

/// What a byte ends.
#[derive(Clone, Copy)]
pub(crate) enum Outcome<'a> {
    Nothing,
    Begun(u64),
    Ended(Step<'a>),
}

impl<'a> Place<'a> {
    /// What one more byte ends, and the place behind it: none where no path goes on so.
    #[tactic(auto, using(crate::proofs::Slices::piece_more))]
    pub(crate) fn next(self, text: &'a str, at: usize, byte: u8) -> Option<(Outcome<'a>, Place<'a>)>
        requires here { IsHere text.now at self }
        requires stands { moves.Stands text.now at byte }
        ensures value { IsMove text.now (at + 1) result (places.next byte (place_at text.now at self.entry)) }
        ensures here { WillBeHere text.now (at + 1) result }
    {
        match self {
            Place::Start => match byte {
                b'.' => on(Place::Root),
                b'@' => on(Place::StartSign),
                _ => ending(Outcome::Nothing, byte, at + 1),
            },
            Place::Root | Place::Dot => key_begun(byte, at),
            Place::InName(from) => name_next(text, from, at, byte),
            Place::InQuotes(from) => quotes_next(text, from, at, byte),
            Place::Escaped(from) => on(Place::InQuotes(from)),
            Place::InBraces(from, inside, depth) => {
                braces_next(text, from, inside, depth, at, byte)
            }
            Place::BehindKey(key) => behind_key(key, byte, at + 1),
            Place::Tilde(key) => on(Place::Occurrence(key, first_digit(byte)?)),
            Place::Occurrence(key, number) => match more_digits(number, byte) {
                Some(number) => on(Place::Occurrence(key, number)),
                None => ending(Outcome::Ended(Step::Value(key, Some(number))), byte, at + 1),
            },
            Place::StartSign => on(Place::StartNumber(first_digit(byte)?)),
            Place::StartNumber(number) => match more_digits(number, byte) {
                Some(number) => on(Place::StartNumber(number)),
                None => ending(Outcome::Begun(number), byte, at + 1),
            },
            Place::Opened(bracket) => match first_digit(byte) {
                Some(number) => on(Place::Digits(bracket, number)),
                None => bracket.unnumbered(byte),
            },
            Place::Digits(bracket, number) => {
                if byte == bracket.close() {
                    return Some((Outcome::Ended(bracket.step(number)), Place::Closed));
                }
                on(Place::Digits(bracket, more_digits(number, byte)?))
            }
            Place::Plus => match byte {
                b']' => Some((Outcome::Ended(Step::PastLast), Place::Closed)),
                _ => None,
            },
            Place::Closed => ending(Outcome::Nothing, byte, at + 1),
        }
    }
}

impl<'a> Place<'a> {
    /// What ends where the text does: none where it ends too early.
    pub(crate) fn end(self, text: &'a str) -> Option<Outcome<'a>>
        requires here { IsHere text.now (length text.now) self }
        ensures { option_map outcome_of result ≡ places.end (place_at text.now (length text.now) self.entry) }
    {
        match self {
            Place::Root | Place::Closed => Some(Outcome::Nothing),
            Place::InName(from) => {
                let key = Key::Name(&text[from..]);
                Some(Outcome::Ended(Step::Value(key, None)))
            }
            Place::BehindKey(key) => Some(Outcome::Ended(Step::Value(key, None))),
            Place::Occurrence(key, number) => {
                Some(Outcome::Ended(Step::Value(key, Some(number))))
            }
            Place::StartNumber(number) => Some(Outcome::Begun(number)),
            _ => None,
        }
    }
}

#[tactic(auto, using(crate::proofs::Slices::piece_more, crate::proofs::Slices::other_is_ascii))]
fn name_next<'a>(
    text: &'a str,
    from: usize,
    at: usize,
    byte: u8,
) -> Option<(Outcome<'a>, Place<'a>)>
    requires here { IsHere text.now at (Place.InName from) }
    requires stands { moves.Stands text.now at byte }
    ensures value { IsMove text.now (at + 1) result (places.next byte (place_at text.now at (Place.InName from))) }
    ensures here { WillBeHere text.now (at + 1) result }
{
    if is_name_byte(byte) {
        return on(Place::InName(from));
    }
    behind_key(Key::Name(&text[from..at]), byte, at + 1)
}

#[tactic(auto, using(crate::proofs::Slices::piece_more, crate::proofs::Slices::other_is_ascii))]
fn quotes_next<'a>(
    text: &'a str,
    from: usize,
    at: usize,
    byte: u8,
) -> Option<(Outcome<'a>, Place<'a>)>
    requires here { IsHere text.now at (Place.InQuotes from) }
    requires stands { moves.Stands text.now at byte }
    ensures value { IsMove text.now (at + 1) result (places.next byte (place_at text.now at (Place.InQuotes from))) }
    ensures here { WillBeHere text.now (at + 1) result }
{
    match byte {
        b'"' => on(Place::BehindKey(Key::Quoted(&text[from..at]))),
        b'\\' => on(Place::Escaped(from)),
        _ => on(Place::InQuotes(from)),
    }
}

#[tactic(auto, using(crate::proofs::Slices::piece_more, crate::proofs::Slices::other_is_ascii))]
fn braces_next<'a>(
    text: &'a str,
    from: usize,
    inside: Inside,
    depth: usize,
    at: usize,
    byte: u8,
) -> Option<(Outcome<'a>, Place<'a>)>
    requires here { IsHere text.now at (Place.InBraces from inside depth) }
    requires stands { moves.Stands text.now at byte }
    ensures value { IsMove text.now (at + 1) result (places.next byte (place_at text.now at (Place.InBraces from inside depth))) }
    ensures here { WillBeHere text.now (at + 1) result }
{
    match inside {
        Inside::Plain if byte == b'}' && depth == 0 => {
            on(Place::BehindKey(Key::Braced(&text[from..at])))
        }
        _ => {
            let (inside, depth) = inside.next(byte, depth);
            on(Place::InBraces(from, inside, depth))
        }
    }
}

impl Inside {
    /// What stands open behind one more byte, and how many braces.
    fn next(self, byte: u8, depth: usize) -> (Inside, usize)
        requires { depth < 2 ^ 64 - 1 }
        ensures value { (result.0, result.1) ≡ places.inside_next byte self depth }
        ensures depth { result.1 ≤ depth + 1 }
    {
        match self {
            Inside::Plain => plain_next(byte, depth),
            Inside::Quoted(quote) if byte == quote => (Inside::Plain, depth),
            Inside::Quoted(quote) if byte == b'\\' => (Inside::Escaped(quote), depth),
            Inside::Quoted(quote) | Inside::Escaped(quote) => (Inside::Quoted(quote), depth),
            Inside::Comment(end) if byte == end => (Inside::Plain, depth),
            Inside::Comment(end) => (Inside::Comment(end), depth),
        }
    }
}

fn plain_next(byte: u8, depth: usize) -> (Inside, usize)
    requires { depth < 2 ^ 64 - 1 }
    ensures value { (result.0, result.1) ≡ places.plain_next byte depth }
    ensures depth { result.1 ≤ depth + 1 }
{
    match byte {
        b'"' | b'\'' => (Inside::Quoted(byte), depth),
        b'/' => (Inside::Comment(b'/'), depth),
        b'#' => (Inside::Comment(b'\n'), depth),
        b'{' => (Inside::Plain, depth + 1),
        b'}' => (Inside::Plain, depth.saturating_sub(1)),
        _ => (Inside::Plain, depth),
    }
}

impl Bracket {
    /// The byte that closes it.
    fn close(self) -> u8
        ensures { result ≡ places.close_byte self }
    {
        match self {
            Bracket::Square => b']',
            Bracket::Round => b')',
            Bracket::Angle => b'>',
        }
    }

    /// The step with a number in it.
    fn step<'a>(self, number: u64) -> Step<'a>
        ensures { moves.step_of result ≡ places.numbered_step self number }
    {
        match self {
            Bracket::Square => Step::Element(number),
            Bracket::Round => Step::Content(Some(number)),
            Bracket::Angle => Step::Embedded(number),
        }
    }

    /// What may stand in it in place of a number.
    fn unnumbered<'a>(self, byte: u8) -> Option<(Outcome<'a>, Place<'a>)>
        ensures value { (text : List ℕ) (at : ℕ) → IsMove text at result (places.unnumbered self byte) }
        ensures here { (text : List ℕ) (at : ℕ) → WillBeHere text at result }
    {
        match (self, byte) {
            (Bracket::Square, b'+') => on(Place::Plus),
            (Bracket::Round, b')') => Some((Outcome::Ended(Step::Content(None)), Place::Closed)),
            _ => None,
        }
    }
}

/// A byte that ends nothing.
fn on<'a>(place: Place<'a>) -> Option<(Outcome<'a>, Place<'a>)>
    ensures { result ≡ Some (Outcome.Nothing, place.entry) }
{
    Some((Outcome::Nothing, place))
}

/// A byte that ends this, where it begins a step.
fn ending<'a>(outcome: Outcome<'a>, byte: u8, behind: usize) -> Option<(Outcome<'a>, Place<'a>)>
    ensures value { (text : List ℕ) → IsMove text behind result (places.ending (outcome_of outcome.entry) (places.opened byte)) }
    ensures here { (text : List ℕ) → (byte < 128 → IsCharBoundary text behind) → WillBeHere text behind result }
{
    let place = opened(byte, behind)?;
    Some((outcome, place))
}

/// The place behind a byte that begins a step.
fn opened<'a>(byte: u8, behind: usize) -> Option<Place<'a>>
    ensures value { (text : List ℕ) → option_map (place_at text behind) result ≡ places.opened byte }
    ensures here { (text : List ℕ) → (byte < 128 → IsCharBoundary text behind) → IfSome result (IsHere text behind) }
{
    match byte {
        b'.' => Some(Place::Dot),
        b'{' => Some(Place::InBraces(behind, Inside::Plain, 0)),
        b'[' => Some(Place::Opened(Bracket::Square)),
        b'(' => Some(Place::Opened(Bracket::Round)),
        b'<' => Some(Place::Opened(Bracket::Angle)),
        _ => None,
    }
}

/// A byte behind a dot that begins a key.
#[tactic(auto, using(crate::proofs::Slices::one_byte, crate::proofs::Slices::no_piece))]
fn key_begun<'a>(byte: u8, at: usize) -> Option<(Outcome<'a>, Place<'a>)>
    requires { at < 2 ^ 63 }
    ensures value { (text : List ℕ) → moves.Stands text at byte → IsMove text (at + 1) result (places.key_begun byte) }
    ensures here { (text : List ℕ) → moves.Stands text at byte → IsCharBoundary text at → WillBeHere text (at + 1) result }
{
    match byte {
        b'"' => on(Place::InQuotes(at + 1)),
        _ if is_name_byte(byte) => on(Place::InName(at)),
        _ => None,
    }
}

/// A byte behind a key.
fn behind_key<'a>(key: Key<'a>, byte: u8, behind: usize) -> Option<(Outcome<'a>, Place<'a>)>
    ensures value { (text : List ℕ) → IsMove text behind result (places.behind_key (moves.key_of key.entry) byte) }
    ensures here { (text : List ℕ) → (byte < 128 → IsCharBoundary text behind) → WillBeHere text behind result }
{
    match byte {
        b'~' => on(Place::Tilde(key)),
        _ => ending(Outcome::Ended(Step::Value(key, None)), byte, behind),
    }
}

fn is_name_byte(byte: u8) -> bool
    ensures { result ≡ spelling.is_name_byte byte }
{
    matches!(byte, b'a'..=b'z' | b'A'..=b'Z' | b'0'..=b'9' | b'_' | b'-' | 128..=255)
}

fn first_digit(byte: u8) -> Option<u64>
    ensures { result ≡ places.first_digit byte }
{
    match byte {
        b'0'..=b'9' => Some(u64::from(byte - b'0')),
        _ => None,
    }
}

/// The number with one digit more: none behind 0, and where it would not be below 2^64.
fn more_digits(number: u64, byte: u8) -> Option<u64>
    ensures { result ≡ places.more_digits number byte }
{
    let digit = first_digit(byte)?;
    if number == 0 {
        return None;
    }
    number.checked_mul(10)?.checked_add(digit)
}
