//! What a text leaves open and unfinished at a place: a fold over its bytes, for texts that are the beginning of some EDN text.
ghost use Rattle.std.specs.Prelude.{◌≡◌, ◌^◌, ◌<◌, ◌∷◌, IfOk, OnOk, reverse};
ghost use Rattle.cbor_edn_explain.specs.State as states;

use crate::finding::{Bracket, Span};
use crate::lines::lines_behind;
use std::alloc::{AllocError, Global};

/// What a byte is, for all that counts brackets.
#[derive(Clone, Copy)]
pub enum Class {
    LineFeed,
    /// A space, a tab, a carriage return.
    Blank,
    Slash,
    Hash,
    Square,
    Curly,
    Round,
    SquareEnd,
    CurlyEnd,
    RoundEnd,
    Less,
    Greater,
    Comma,
    Colon,
    Plus,
    Minus,
    DoubleQuote,
    SingleQuote,
    Backslash,
    Underscore,
    Dot,
    Digit,
    /// `e`, `E`, `p`, `P`: a sign may follow it in a number.
    Exponent,
    /// Another letter of ASCII.
    Letter,
    /// All else, the bytes of characters beyond ASCII among them.
    Other,
}

/// The token that is not ended.
#[derive(Clone, Copy)]
pub enum Hand {
    Nothing,
    Word,
    Number,
    /// A number, right behind the letter of an exponent.
    Exponent,
    /// One dot.
    Dot,
    /// Two dots or more.
    Dots,
    /// A plus sign behind a string: it joins, or begins a number.
    Plus,
    /// The same, and a dot.
    PlusDot,
    /// The indicator of a list or a string.
    Indicator,
    Less,
    Greater,
    Round,
    /// A string in double quotes.
    Double,
    DoubleEscape,
    /// A string in single quotes, with its prefix.
    Single,
    SingleEscape,
    /// A comment up to the next slash.
    Slash,
    /// A comment up to the end of the line.
    Hash,
}

/// What stands between two tokens.
#[derive(Clone, Copy)]
pub enum Gap {
    /// Behind an opening bracket, or in front of all.
    First,
    /// Behind an opening bracket that does not close at once.
    Must,
    Comma,
    Colon,
    Plus,
    /// Right behind an item.
    Tight,
    /// Behind an item, with space.
    Loose,
}

/// Where an item begins, and whether it is the value of a pair.
#[derive(Clone, Copy)]
pub struct Item {
    pub from: usize,
    pub is_value: bool,
}

/// What is open, and what it was opened in: the item that its closing ends, and its line with the line's indentation.
#[derive(Clone, Copy)]
pub struct Open {
    pub bracket: Bracket,
    pub span: Span,
    pub item: Item,
    pub line: usize,
    pub indent: usize,
}

/// Among which tokens a place is.
#[derive(Clone, Copy)]
pub struct Place {
    pub hand: Hand,
    /// Where the token in hand begins.
    pub begin: usize,
    pub gap: Gap,
    /// The item in front or in hand.
    pub item: Item,
    /// Where the item in front ends.
    pub to: usize,
    /// Whether the item in front is a string.
    pub is_text: bool,
    /// Where the last string's quote is, and its last two backslashes, or the quote again.
    pub quote: usize,
    pub escape: usize,
    pub escape_before: usize,
}

/// A bracket, and where it is closed.
#[derive(Clone, Copy)]
pub struct Pair {
    pub opener: Span,
    pub closer: usize,
}

/// What the lines in front of a place say.
#[derive(Clone, Copy)]
pub struct Lines {
    /// Where the line begins.
    pub line: usize,
    /// Where its blanks end.
    pub margin: usize,
    /// Where the last string begins that ends in this line, and began in an earlier one.
    pub spanning: Option<usize>,
    /// The last comment `//` of this line.
    pub slashes: Option<usize>,
    /// The first pair of brackets whose second one begins a line that is indented less than the first one's, and more.
    pub less: Option<Pair>,
    pub more: Option<Pair>,
}

/// Where a text stands at a place, beside what is open.
#[derive(Clone, Copy)]
pub struct Reading {
    pub place: Place,
    pub lines: Lines,
}

/// What a byte does to what is open.
#[derive(Clone, Copy)]
pub enum Change {
    Stay,
    Push(Bracket),
    Pop,
}

pub fn class_of(byte: u8) -> Class
    ensures { result ≡ states.class_of byte }
{
    match byte {
        b'\n' => Class::LineFeed,
        b' ' | b'\t' | b'\r' => Class::Blank,
        b'/' => Class::Slash,
        b'#' => Class::Hash,
        b'[' => Class::Square,
        b'{' => Class::Curly,
        b'(' => Class::Round,
        _ => class_of_end(byte),
    }
}

fn class_of_end(byte: u8) -> Class
    ensures { result ≡ states.class_of_end byte }
{
    match byte {
        b']' => Class::SquareEnd,
        b'}' => Class::CurlyEnd,
        b')' => Class::RoundEnd,
        b'<' => Class::Less,
        b'>' => Class::Greater,
        b',' => Class::Comma,
        b':' => Class::Colon,
        _ => class_of_mark(byte),
    }
}

fn class_of_mark(byte: u8) -> Class
    ensures { result ≡ states.class_of_mark byte }
{
    match byte {
        b'+' => Class::Plus,
        b'-' => Class::Minus,
        b'"' => Class::DoubleQuote,
        b'\'' => Class::SingleQuote,
        b'\\' => Class::Backslash,
        b'_' => Class::Underscore,
        b'.' => Class::Dot,
        _ => class_of_letter(byte),
    }
}

fn class_of_letter(byte: u8) -> Class
    ensures { result ≡ states.class_of_letter byte }
{
    match byte {
        b'e' | b'E' | b'p' | b'P' => Class::Exponent,
        b'0'..=b'9' => Class::Digit,
        b'a'..=b'z' | b'A'..=b'Z' => Class::Letter,
        _ => Class::Other,
    }
}

/// Whether a byte goes on with the token in hand.
fn goes_on(hand: Hand, class: Class) -> bool
    ensures { result ≡ states.goes_on hand class }
{
    match hand {
        Hand::Word => is_of_word(class),
        Hand::Number => is_of_number(class),
        Hand::Exponent => is_of_number(class) || matches!(class, Class::Plus | Class::Minus),
        Hand::Dots => matches!(class, Class::Dot),
        Hand::Dot | Hand::Plus | Hand::PlusDot => matches!(class, Class::Dot | Class::Digit),
        Hand::Indicator => matches!(class, Class::Letter | Class::Exponent | Class::Digit),
        Hand::Less => matches!(class, Class::Less),
        Hand::Greater => matches!(class, Class::Greater),
        Hand::Round => matches!(class, Class::Underscore),
        _ => true,
    }
}

/// A quote behind a word begins the string of which it is the prefix, a bracket what `simple` or a tag holds.
fn is_of_word(class: Class) -> bool
    ensures { result ≡ states.is_of_word class }
{
    matches!(
        class,
        Class::Letter
            | Class::Exponent
            | Class::Digit
            | Class::Underscore
            | Class::SingleQuote
            | Class::Round
    )
}

fn is_of_number(class: Class) -> bool
    ensures { result ≡ states.is_of_number class }
{
    matches!(
        class,
        Class::Letter
            | Class::Exponent
            | Class::Digit
            | Class::Underscore
            | Class::Dot
            | Class::Round
    )
}

/// Right behind an item, which ends at a place.
fn behind_item(place: Place, is_text: bool, to: usize) -> Place
    ensures { result ≡ states.behind_item place is_text to }
{
    Place {
        hand: Hand::Nothing,
        gap: Gap::Tight,
        is_text,
        to,
        ..place
    }
}

/// Where the token in hand has ended in front of `at`.
pub(crate) fn ended(place: Place, at: usize) -> Place
    ensures { result ≡ states.ended place at }
{
    match place.hand {
        Hand::Word | Hand::Number | Hand::Exponent | Hand::Dot => behind_item(place, false, at),
        Hand::Dots => behind_item(place, true, at),
        Hand::Plus | Hand::PlusDot => Place {
            hand: Hand::Nothing,
            gap: Gap::Plus,
            ..place
        },
        _ => Place {
            hand: Hand::Nothing,
            ..place
        },
    }
}

fn settled(place: Place, at: usize, class: Class) -> Place
    ensures { result ≡ states.settled place at class }
{
    if goes_on(place.hand, class) {
        place
    } else {
        ended(place, at)
    }
}

/// What a byte that the token in hand takes, or that begins one, does to what is open.
pub(crate) fn change_of(hand: Hand, class: Class) -> Change
    ensures { result ≡ states.change_of hand class }
{
    match hand {
        Hand::Nothing => change_of_gap(class),
        Hand::Word | Hand::Number | Hand::Exponent => match class {
            Class::Round => Change::Push(Bracket::Round),
            _ => Change::Stay,
        },
        Hand::Less => match class {
            Class::Less => Change::Push(Bracket::Embedded),
            _ => Change::Stay,
        },
        Hand::Greater => match class {
            Class::Greater => Change::Pop,
            _ => Change::Stay,
        },
        Hand::Round => match class {
            Class::Underscore => Change::Push(Bracket::Stream),
            _ => Change::Stay,
        },
        _ => Change::Stay,
    }
}

fn change_of_gap(class: Class) -> Change
    ensures { result ≡ states.change_of_gap class }
{
    match class {
        Class::Square => Change::Push(Bracket::Square),
        Class::Curly => Change::Push(Bracket::Curly),
        Class::SquareEnd | Class::CurlyEnd | Class::RoundEnd => Change::Pop,
        _ => Change::Stay,
    }
}

/// Behind a gap in front of an item of which `from` is the begin: a string behind a plus sign is part of the item in front.
fn begun(place: Place, from: usize) -> Place
    ensures { result ≡ states.begun place from }
{
    match place.gap {
        Gap::Plus => place,
        Gap::Colon => Place {
            item: Item {
                from,
                is_value: true,
            },
            ..place
        },
        _ => Place {
            item: Item {
                from,
                is_value: false,
            },
            ..place
        },
    }
}

/// Behind the first byte of a token.
fn taken(place: Place, hand: Hand, begin: usize) -> Place
    ensures { result ≡ states.taken place hand begin }
{
    Place {
        hand,
        begin,
        ..place
    }
}

/// Behind the opening quote of a string.
fn quoted(place: Place, hand: Hand, begin: usize, quote: usize) -> Place
    ensures { result ≡ states.quoted place hand begin quote }
{
    Place {
        hand,
        begin,
        quote,
        escape: quote,
        escape_before: quote,
        ..place
    }
}

/// Behind a backslash in a string.
fn escaped(place: Place, hand: Hand, at: usize) -> Place
    ensures { result ≡ states.escaped place hand at }
{
    Place {
        hand,
        escape: at,
        escape_before: place.escape,
        ..place
    }
}

/// Behind space.
fn loosened(place: Place) -> Place
    ensures { result ≡ states.loosened place }
{
    match place.gap {
        Gap::Tight => Place {
            hand: Hand::Nothing,
            gap: Gap::Loose,
            ..place
        },
        _ => Place {
            hand: Hand::Nothing,
            ..place
        },
    }
}

/// Whether an item is in front, and no mark behind it.
pub(crate) fn is_behind(gap: Gap) -> bool
    ensures { result ≡ states.is_behind gap }
{
    matches!(gap, Gap::Tight | Gap::Loose)
}

/// Behind a byte between tokens that opens and closes nothing.
fn from_gap(place: Place, at: usize, class: Class) -> Place
    ensures { result ≡ states.from_gap place at class }
{
    match class {
        Class::LineFeed | Class::Blank => loosened(place),
        Class::Slash => taken(place, Hand::Slash, at),
        Class::Hash => taken(place, Hand::Hash, at),
        Class::Less => taken(begun(place, at), Hand::Less, at),
        Class::Greater => taken(place, Hand::Greater, at),
        Class::Round => taken(begun(place, at), Hand::Round, at),
        Class::Comma => Place {
            gap: Gap::Comma,
            ..place
        },
        Class::Colon => Place {
            gap: Gap::Colon,
            ..place
        },
        Class::Plus if place.is_text && is_behind(place.gap) => taken(place, Hand::Plus, at),
        Class::DoubleQuote => quoted(begun(place, at), Hand::Double, at, at),
        Class::SingleQuote => quoted(begun(place, at), Hand::Single, at, at),
        Class::Underscore => taken(place, Hand::Indicator, at),
        Class::Dot => taken(begun(place, at), Hand::Dot, at),
        Class::Plus | Class::Minus | Class::Digit => taken(begun(place, at), Hand::Number, at),
        _ => taken(begun(place, at), Hand::Word, at),
    }
}

/// Behind a byte that the token in hand takes, and that opens and closes nothing.
fn from_token(place: Place, at: usize, class: Class, next: usize) -> Place
    ensures { result ≡ states.from_token place at class next }
{
    match place.hand {
        Hand::Word => from_word(place, at, class),
        Hand::Number => match class {
            Class::Exponent => in_hand(place, Hand::Exponent),
            _ => place,
        },
        Hand::Exponent => match class {
            Class::Exponent => place,
            _ => in_hand(place, Hand::Number),
        },
        Hand::Dot => match class {
            Class::Dot => in_hand(place, Hand::Dots),
            _ => in_hand(place, Hand::Number),
        },
        Hand::Plus => match class {
            Class::Dot => in_hand(place, Hand::PlusDot),
            _ => taken(begun(place, place.begin), Hand::Number, place.begin),
        },
        Hand::PlusDot => match class {
            Class::Dot => in_hand(place, Hand::Dots),
            _ => taken(begun(place, place.begin), Hand::Number, place.begin),
        },
        Hand::Slash => match class {
            Class::Slash => loosened(place),
            _ => place,
        },
        Hand::Hash => match class {
            Class::LineFeed => loosened(place),
            _ => place,
        },
        _ => from_text(place, at, class, next),
    }
}

/// The same of a string in hand.
fn from_text(place: Place, at: usize, class: Class, next: usize) -> Place
    ensures { result ≡ states.from_text place at class next }
{
    match place.hand {
        Hand::Double => match class {
            Class::DoubleQuote => behind_item(place, true, next),
            Class::Backslash => escaped(place, Hand::DoubleEscape, at),
            _ => place,
        },
        Hand::Single => match class {
            Class::SingleQuote => behind_item(place, true, next),
            Class::Backslash => escaped(place, Hand::SingleEscape, at),
            _ => place,
        },
        Hand::DoubleEscape => in_hand(place, Hand::Double),
        Hand::SingleEscape => in_hand(place, Hand::Single),
        _ => place,
    }
}

fn from_word(place: Place, at: usize, class: Class) -> Place
    ensures { result ≡ states.from_word place at class }
{
    match class {
        Class::SingleQuote => quoted(place, Hand::Single, place.begin, at),
        _ => place,
    }
}

/// The same place with another token in hand.
fn in_hand(place: Place, hand: Hand) -> Place
    ensures { result ≡ states.in_hand place hand }
{
    Place { hand, ..place }
}

/// Behind an opening bracket that ends at `next`.
fn entered(place: Place, bracket: Bracket, next: usize) -> Place
    ensures { result ≡ states.entered place bracket next }
{
    Place {
        hand: Hand::Nothing,
        gap: match bracket {
            Bracket::Round | Bracket::Stream => Gap::Must,
            _ => Gap::First,
        },
        item: Item {
            from: next,
            is_value: false,
        },
        to: next,
        is_text: false,
        ..place
    }
}

/// Behind what closes a bracket: the item of the bracket has ended. Embedded items are a string.
fn left(place: Place, top: Option<Open>, next: usize) -> Place
    ensures { result ≡ states.left place top next }
{
    let Some(open) = top else {
        return behind_item(place, false, next);
    };
    let inside = behind_item(place, matches!(open.bracket, Bracket::Embedded), next);
    Place {
        item: open.item,
        ..inside
    }
}

/// What is opened at a place whose token in hand, if any, begins the bracket.
fn opened_at(reading: Reading, bracket: Bracket, at: usize, next: usize) -> Open
    ensures { result ≡ states.opened_at reading bracket at next }
{
    let place = match reading.place.hand {
        Hand::Nothing => taken(begun(reading.place, at), Hand::Nothing, at),
        _ => reading.place,
    };
    Open {
        bracket,
        span: Span {
            from: place.begin,
            to: next,
        },
        item: place.item,
        line: reading.lines.line,
        indent: reading.lines.margin.saturating_sub(reading.lines.line),
    }
}

/// The place behind a byte.
fn place_behind(place: Place, top: Option<Open>, at: usize, class: Class, next: usize) -> Place
    ensures { result ≡ states.place_behind place top at class next }
{
    match change_of(place.hand, class) {
        Change::Push(bracket) => entered(place, bracket, next),
        Change::Pop => left(place, top, next),
        Change::Stay => match place.hand {
            Hand::Nothing => from_gap(place, at, class),
            _ => from_token(place, at, class, next),
        },
    }
}

/// The innermost bracket that is open.
#[tactic(auto, using(crate::proofs::Innermost::innermost_is_last))]
pub(crate) fn innermost(opened: &[Open]) -> Option<Open>
    ensures { result ≡ states.innermost (reverse opened.now) }
{
    opened.last().copied()
}

#[tactic(auto, using(crate::proofs::Innermost::pushed))]
fn push_open(opened: &mut Vec<Open>, top: Open) -> Result<(), AllocError>
    ensures { OnOk result (reverse opened.new.items ≡ top ∷ reverse opened.old.items) }
{
    opened.push(top)?;
    Ok(())
}

#[tactic(auto, using(crate::proofs::Innermost::popped))]
fn pop_open(opened: &mut Vec<Open>)
    ensures { reverse opened.new.items ≡ states.rest_of (reverse opened.old.items) }
{
    let _closed = opened.pop();
}

/// Opens or closes a bracket.
fn turn(
    opened: &mut Vec<Open>,
    reading: Reading,
    change: Change,
    at: usize,
    next: usize,
) -> Result<(), AllocError>
    ensures { OnOk result (reverse opened.new.items ≡ states.turned (reverse opened.old.items) reading change at next) }
{
    match change {
        Change::Stay => Ok(()),
        Change::Push(bracket) => push_open(opened, opened_at(reading, bracket, at, next)),
        Change::Pop => {
            pop_open(opened);
            Ok(())
        }
    }
}

/// Goes behind the byte at a place.
#[tactic(auto, unfolding(crate::specs::State::step))]
fn step(
    reading: Reading,
    opened: &mut Vec<Open>,
    at: usize,
    byte: u8,
) -> Result<Reading, AllocError>
    requires { at < 2 ^ 63 }
    ensures { IfOk result (λ r. (r, reverse opened.new.items) ≡ states.step at (reading, reverse opened.old.items) byte) }
{
    let class = class_of(byte);
    let next = at + 1;
    let top = innermost(opened.as_slice());
    let reading = Reading {
        place: settled(reading.place, at, class),
        ..reading
    };
    turn(
        opened,
        reading,
        change_of(reading.place.hand, class),
        at,
        next,
    )?;
    Ok(Reading {
        place: place_behind(reading.place, top, at, class, next),
        lines: lines_behind(reading, top, at, class, next),
    })
}

/// In front of a text.
fn at_start() -> Reading
    ensures { result ≡ states.at_start }
{
    Reading {
        place: Place {
            hand: Hand::Nothing,
            begin: 0,
            gap: Gap::First,
            item: Item {
                from: 0,
                is_value: false,
            },
            to: 0,
            is_text: false,
            quote: 0,
            escape: 0,
            escape_before: 0,
        },
        lines: Lines {
            line: 0,
            margin: 0,
            spanning: None,
            slashes: None,
            less: None,
            more: None,
        },
    }
}

/// Where a text stands behind its first bytes, with what is open there, the innermost last.
#[tactic(auto, using(crate::proofs::Folding::reads_first, crate::proofs::Folding::reads_on, crate::proofs::Folding::reads_all))]
pub(crate) fn read(alloc: Global, front: &[u8]) -> Result<(Reading, Vec<Open>), AllocError>
    ensures { IfOk result (λ r. (r.0, reverse r.1.items) ≡ states.behind front.now) }
{
    let mut opened = Vec::new(alloc);
    let mut reading = at_start();
    'bytes: for at in 0..front.len() {
        reading = step(reading, &mut opened, at, front[at])?;
    }
    Ok((reading, opened))
}
