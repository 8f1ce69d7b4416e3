//! What the lines of a text say, byte by byte.
ghost use Rattle.std.specs.Prelude.{◌≡◌};
ghost use Rattle.cbor_edn_explain.specs.State as states;

use crate::state::{Change, Class, Hand, Lines, Open, Pair, Place, Reading, change_of};

/// Behind a bracket that is closed: whether its line is indented otherwise than that of the opening one.
fn lines_closed(lines: Lines, top: Option<Open>, at: usize) -> Lines
    ensures { result ≡ states.lines_closed lines top at }
{
    match top {
        Some(open) if open.line < lines.line && lines.margin == at => {
            lines_paired(lines, open, at, at.saturating_sub(lines.line))
        }
        _ => lines,
    }
}

fn lines_paired(lines: Lines, opener: Open, at: usize, indent: usize) -> Lines
    ensures { result ≡ states.lines_paired lines opener at indent }
{
    let pair = Some(Pair {
        opener: opener.span,
        closer: at,
    });
    if indent < opener.indent {
        Lines {
            less: lines.less.or(pair),
            ..lines
        }
    } else if opener.indent < indent {
        Lines {
            more: lines.more.or(pair),
            ..lines
        }
    } else {
        lines
    }
}

/// Behind the end of a token: whether it is a string over several lines, or an empty comment.
fn lines_of_token(lines: Lines, place: Place, at: usize, class: Class) -> Lines
    ensures { result ≡ states.lines_of_token lines place at class }
{
    match place.hand {
        Hand::Double => match class {
            Class::DoubleQuote => lines_of_text(lines, place),
            _ => lines,
        },
        Hand::Single => match class {
            Class::SingleQuote => lines_of_text(lines, place),
            _ => lines,
        },
        Hand::Slash => match class {
            Class::Slash => lines_of_slash(lines, place, at),
            _ => lines,
        },
        _ => lines,
    }
}

fn lines_of_text(lines: Lines, place: Place) -> Lines
    ensures { result ≡ states.lines_of_text lines place }
{
    if place.begin < lines.line {
        Lines {
            spanning: Some(place.begin),
            ..lines
        }
    } else {
        lines
    }
}

fn lines_of_slash(lines: Lines, place: Place, at: usize) -> Lines
    ensures { result ≡ states.lines_of_slash lines place at }
{
    if at.saturating_sub(place.begin) == 1 {
        Lines {
            slashes: Some(place.begin),
            ..lines
        }
    } else {
        lines
    }
}

/// Behind a byte of a line.
fn lines_of_byte(lines: Lines, at: usize, class: Class, next: usize) -> Lines
    ensures { result ≡ states.lines_of_byte lines at class next }
{
    match class {
        Class::LineFeed => Lines {
            line: next,
            margin: next,
            spanning: None,
            slashes: None,
            ..lines
        },
        Class::Blank if lines.margin == at => Lines {
            margin: next,
            ..lines
        },
        _ => lines,
    }
}

pub(crate) fn lines_behind(
    reading: Reading,
    top: Option<Open>,
    at: usize,
    class: Class,
    next: usize,
) -> Lines
    ensures { result ≡ states.lines_behind reading top at class next }
{
    let lines = match change_of(reading.place.hand, class) {
        Change::Pop => lines_closed(reading.lines, top, at),
        _ => lines_of_token(reading.lines, reading.place, at, class),
    };
    lines_of_byte(lines, at, class, next)
}
