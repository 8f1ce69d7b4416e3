//! The parts of a path.

/// A key as it is written. Its parts are lent from a text.
#[derive(Clone, Copy)]
pub enum Key<'a> {
    /// `.port`: a text of letters, digits, `_`, `-` and characters from U+0080 on.
    Name(&'a str),
    /// `."a b"`: what stands between the quotes, with its escapes.
    Quoted(&'a str),
    /// `{4}`: what stands between the braces, one item with spaces and comments.
    Braced(&'a str),
}

/// A step from an item to one right below it. Numbers count from 0.
#[derive(Clone, Copy)]
pub enum Step<'a> {
    /// `.port`: to the value of a key; `.port~1`: of its second occurrence.
    Value(Key<'a>, Option<u64>),
    /// `[2]`: to an element of an array.
    Element(u64),
    /// `[+]`: behind the last element of an array, where none stands yet.
    PastLast,
    /// `()`: to the content of a tag; `(18)`: of a tag with that number.
    Content(Option<u64>),
    /// `<0>`: to an item that is embedded in a string, over all its pieces and chunks.
    Embedded(u64),
}

/// A path to one item.
#[derive(Drop)]
pub struct Path<'a> {
    /// `@1`: where it begins in a sequence; none: at the one item that there is.
    pub start: Option<u64>,
    /// The steps from there.
    pub steps: Vec<Step<'a>>,
}

/// Why a step leads to no item.
#[derive(Clone, Copy)]
pub enum Miss {
    /// A path without a start, in a sequence of no item or of several.
    NotLone,
    /// A start behind the last item.
    NoItem,
    /// An element of what is no array.
    NotArray,
    /// An element behind the last one.
    NoElement,
    /// A key of what is no map.
    NotMap,
    /// A key that doesn't stand there, or not so often.
    NoKey,
    /// A key that stands there more than once, and no occurrence is named.
    SeveralKeys,
    /// The content of what is no tag.
    NotTag,
    /// The content of a tag with another number.
    OtherTag,
    /// An embedded item of what is no string.
    NotString,
    /// An embedded item behind the last one.
    NoEmbedded,
}
