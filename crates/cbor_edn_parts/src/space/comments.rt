//! The comments of a space text, and its comma.
ghost use Rattle.std.specs.Prelude.{◌≡◌, ◌&&◌, [], IsTrue};
ghost use Rattle.cbor_edn_parts.specs.space.Spacing.{comments_before, comments_after};
ghost use Rattle.cbor_edn_parts.specs.internal.CommentReading as definition;
ghost use Rattle.cbor_edn_parts.specs.internal.CommentReading.{before_comma, after_comma, comments_of};

use super::SpaceState;

/// The part of a text from its first comment to the end of its last. Most texts are nothing, or one space.
#[inline(always)]
pub(super) fn comments(text: &str) -> &str
    ensures { result.now ≡ comments_of text.now }
{
    match text.as_bytes() {
        [] => "",
        [b' '] => "",
        _ => to_last(from_first(text)),
    }
}

/// The comments in front of the comma of a text, and those behind it.
#[inline(always)]
pub(super) fn comments_round_comma(text: &str) -> (&str, &str)
    ensures before { result.0.now ≡ comments_before text.now }
    ensures after { result.1.now ≡ comments_after text.now }
{
    if is_bare_separator(text) {
        return ("", "");
    }
    comments_in_parts(text)
}

/// Whether a text is empty, a comma, a blank, or the one behind the other, as most are. Then it has no comment.
#[inline(always)]
pub(super) fn is_bare_separator(text: &str) -> bool
    ensures before { IsTrue result → comments_before text.now ≡ [] }
    ensures after { IsTrue result → comments_after text.now ≡ [] }
{
    match text.as_bytes() {
        [] => true,
        [b','] => true,
        [b' '] => true,
        [b',', b' '] => true,
        _ => false,
    }
}

/// As [`comments_round_comma`], of any text. Most others are blanks round a comma too.
pub(super) fn comments_in_parts(text: &str) -> (&str, &str)
    ensures before { result.0.now ≡ comments_before text.now }
    ensures after { result.1.now ≡ comments_after text.now }
{
    let rest = from_first(text);
    match rest.as_bytes() {
        [] => ("", ""),
        [b',', ..] => ("", comments(&rest[1..])),
        _ => {
            let (before, after) = cut_at_comma(rest);
            (to_last(before), comments(after))
        }
    }
}

/// What stands in front of the comma of a text, all of it where it has none, and what stands behind it.
fn cut_at_comma(text: &str) -> (&str, &str)
    ensures before { result.0.now ≡ before_comma text.now }
    ensures after { result.1.now ≡ after_comma text.now }
{
    let mut within = SpaceState::Between;
    'bytes: for (at, &byte) in text.as_bytes().iter().enumerate() {
        if within.is_comma(byte) {
            return (&text[..at], &text[at + 1..]);
        }
        within = within.past(byte);
    }
    (text, "")
}

/// The text without the blanks that it begins with.
fn from_first(text: &str) -> &str
    ensures { result.now ≡ definition.from_first text.now }
{
    'bytes: for (at, &byte) in text.as_bytes().iter().enumerate() {
        if !is_blank(byte) {
            return &text[at..];
        }
    }
    ""
}

/// The text without the blanks behind its last comment.
fn to_last(text: &str) -> &str
    ensures { result.now ≡ definition.to_last SpaceState.Between text.now }
{
    let mut within = SpaceState::Between;
    let mut end = 0;
    'bytes: for (at, &byte) in text.as_bytes().iter().enumerate() {
        if !within.is_blank(byte) {
            end = at + 1;
        }
        within = within.past(byte);
    }
    &text[..end]
}

pub(super) fn is_blank(byte: u8) -> bool
    ensures { result ≡ definition.is_blank byte }
{
    matches!(byte, b'\t' | b'\n' | b'\r' | b' ')
}

impl SpaceState {
    /// Whether a byte is a blank that stands in no comment.
    fn is_blank(self, byte: u8) -> bool
        ensures { result ≡ (definition.is_between self && definition.is_blank byte) }
    {
        matches!(self, SpaceState::Between) && is_blank(byte)
    }

    /// Whether a byte is a comma that stands in no comment.
    fn is_comma(self, byte: u8) -> bool
        ensures { result ≡ definition.is_comma self byte }
    {
        matches!((self, byte), (SpaceState::Between, b','))
    }

    /// Where a byte leads: into a comment, on in it, or behind it.
    fn past(self, byte: u8) -> SpaceState
        ensures { result ≡ definition.past self byte }
    {
        match (self, byte) {
            (SpaceState::Between, b'/') => SpaceState::InSlashes,
            (SpaceState::Between, b'#') => SpaceState::InHash,
            (SpaceState::InSlashes, b'/') | (SpaceState::InHash, b'\n') => SpaceState::Between,
            _ => self,
        }
    }
}
