//! What stands at a place of a text.
ghost use Rattle.std.specs.Prelude.{◌≡◌, ◌≢◌, ◌+◌, ◌-◌, ◌<◌, ◌≤◌, ◌∷◌, [], true, false, length, take, drop, All, OnOk, IfErr, IfSome, IfNone, Ok, Err, Some, None};
ghost use Rattle.std.specs.Str.{IsCharBoundary};
ghost use Rattle.cbor_edn_parts.specs.base.Bytes.{is_closed, closing, kind};
ghost use Rattle.cbor_edn_parts.specs.internal.Input.{text_bytes};
ghost use Rattle.cbor_edn_parts.specs.Leaves.{space_bytes, BorrowsSpace};
ghost use Rattle.cbor_edn_model.specs.text.ListHeads.{BorrowsListHead};
ghost use Rattle.cbor_edn_model.specs.internal.BytesAt.{IsNotAt, IsByteAt, ahead};
ghost use Rattle.cbor_edn_model.specs.internal.Lookahead.{Opens, OpensWith, Looked, digit_in_front};
ghost use Rattle.cbor_edn_model.specs.internal.Reading as reading;
ghost use Rattle.cbor_edn_model.specs.internal.Reading.{list_head_of};
ghost use Rattle.cbor_edn_model.specs.tree.Trees as trees;
ghost use Rattle.cbor_edn_model.specs.text.ListHeads.{view_list_head};
ghost use Rattle.cbor_edn_model.specs.tree.TreeLeaves.{texts};
ghost use Rattle.cbor_edn_parts.specs.declared.base.error.ParseErrorKind.TheVariants.{Invalid};

use crate::text::keyword::{Keyword, NamedSimple, NonFinite};
use crate::text::list_head::ListHead;
use cbor_edn_parts::base::bytes::Kind;
use cbor_edn_parts::base::error::{Fault, ParseErrorKind, Refusal};
use cbor_edn_parts::base::indicator::Indicator;
use cbor_edn_parts::base::input::Input;
use cbor_edn_parts::base::looks::Looks;
use cbor_edn_parts::space::Space;

/// Whether an ASCII byte stands at a place, for one read.
pub fn is_at(text: &Input<'_>, at: usize, byte: u8, looks: &mut Looks) -> bool
    requires { byte < 128 }
    ensures yes { result ≡ true → (drop at (text_bytes text.now) ≡ byte ∷ drop (at + 1) (text_bytes text.now)) × IsCharBoundary (text_bytes text.now) (at + 1) }
    ensures no { result ≡ false → IsNotAt byte (drop at (text_bytes text.now)) }
    ensures count { looks.new.count ≡ looks.old.count + 1 }
{
    match text.byte(at, looks) {
        Some(found) => found == byte,
        None => false,
    }
}

/// What an item begins with, as the parser looks for it.
#[derive(Clone, Copy, Debug, PartialEq)]
pub enum FormStart {
    /// An array: `[`.
    Array,
    /// A map: `{`.
    Map,
    /// A string of indefinite length: `(`.
    Stream,
    /// A keyword, and the place behind it.
    Keyword(Keyword, usize),
    /// A string: a quote, a prefix, dots or `<`.
    String,
    /// A number or a tag, and anything that begins no item.
    Number,
}

/// What an item at a place is, by its first byte, by two where it begins with a dot, and by more where it begins as a keyword.
pub fn form_start_at(text: &Input<'_>, at: usize, looks: &mut Looks) -> FormStart
    requires { IsCharBoundary (text_bytes text.now) at }
    ensures opens { Opens (text_bytes text.now) at result }
    ensures count { (looks.old.count < looks.new.count) × Looked (text_bytes text.now) at looks.old.count looks.new.count result }
{
    let Some(byte) = text.byte(at, looks) else {
        return FormStart::Number;
    };
    // the first byte of most numbers
    if byte.is_ascii_digit() {
        return FormStart::Number;
    }
    if byte == b'.' {
        if is_at(text, at + 1, b'.', looks) {
            return FormStart::String;
        }
        return FormStart::Number;
    }
    if let Some(keyword) = keyword_of(byte) {
        if let Some(to) = keyword_at(text, at, keyword, looks) {
            return FormStart::Keyword(keyword, to);
        }
    }
    form_start_of(byte)
}

/// The keyword that a byte begins: each begins with another one.
fn keyword_of(byte: u8) -> Option<Keyword>
    ensures { result ≡ reading.keyword_of byte }
{
    match byte {
        b'f' => Some(Keyword::Named(NamedSimple::False)),
        b't' => Some(Keyword::Named(NamedSimple::True)),
        b'n' => Some(Keyword::Named(NamedSimple::Null)),
        b'u' => Some(Keyword::Named(NamedSimple::Undefined)),
        b's' => Some(Keyword::Simple),
        b'I' => Some(Keyword::NonFinite(NonFinite::Infinity)),
        b'-' => Some(Keyword::NonFinite(NonFinite::NegativeInfinity)),
        b'N' => Some(Keyword::NonFinite(NonFinite::NaN)),
        _ => None,
    }
}

/// The place behind a keyword, where it stands at a place and is no prefix of a literal: those are read first.
fn keyword_at(text: &Input<'_>, at: usize, keyword: Keyword, looks: &mut Looks) -> Option<usize>
    requires { IsCharBoundary (text_bytes text.now) at }
    ensures some { IfSome result (λ to. (reading.if_keyword (Some keyword) (drop at (text_bytes text.now)) ≡ Some (keyword, drop to (text_bytes text.now))) × IsCharBoundary (text_bytes text.now) to) }
    ensures none { IfNone result (reading.if_keyword (Some keyword) (drop at (text_bytes text.now)) ≡ None) }
    ensures found { IfSome result (λ to. (at < to) × (looks.new.count + at ≡ looks.old.count + to + 1)) }
    ensures missed { IfNone result ((looks.old.count ≤ looks.new.count) × (looks.new.count ≤ looks.old.count + ahead (text_bytes text.now) at + 1)) }
{
    let to = behind_bytes(text, at, keyword.as_str().as_bytes(), looks)?;
    if prefix_goes_on(text, to, looks) {
        None
    } else {
        Some(to)
    }
}

/// The place behind ASCII bytes, where they stand at a place.
fn behind_bytes(text: &Input<'_>, at: usize, bytes: &[u8], looks: &mut Looks) -> Option<usize>
    requires begins { IsCharBoundary (text_bytes text.now) at }
    requires ascii { All (λ b. b < 128) bytes.now }
    ensures some { IfSome result (λ to. (reading.behind_bytes bytes.now (drop at (text_bytes text.now)) ≡ Some (drop to (text_bytes text.now))) × IsCharBoundary (text_bytes text.now) to) }
    ensures none { IfNone result (reading.behind_bytes bytes.now (drop at (text_bytes text.now)) ≡ None) }
    ensures found { IfSome result (λ to. (to ≡ at + length bytes.now) × (looks.new.count ≡ looks.old.count + length bytes.now)) }
    ensures missed { IfNone result ((looks.old.count ≤ looks.new.count) × (looks.new.count ≤ looks.old.count + length bytes.now) × (looks.new.count + at ≤ looks.old.count + length (text_bytes text.now) + 1)) }
{
    match bytes {
        [] => Some(at),
        [first, rest @ ..] if is_at(text, at, *first, looks) => behind_bytes(
            text,
            at + 1,
            rest,
            looks,
        ),
        _ => None,
    }
}

/// Whether the prefix of a literal goes on at a place, or ends there.
fn prefix_goes_on(text: &Input<'_>, at: usize, looks: &mut Looks) -> bool
    ensures value { result ≡ reading.prefix_goes_on (drop at (text_bytes text.now)) }
    ensures count { looks.new.count ≡ looks.old.count + 1 }
{
    matches!(text.byte(at, looks), Some(b'a'..=b'z' | b'0'..=b'9' | b'\''))
}

/// The value of the decimal digit at a place.
fn digit_at(text: &Input<'_>, at: usize, looks: &mut Looks) -> Option<u8>
    ensures value { result ≡ digit_in_front (drop at (text_bytes text.now)) }
    ensures count { looks.new.count ≡ looks.old.count + 1 }
{
    match text.byte(at, looks) {
        Some(digit @ b'0'..=b'9') => Some(digit - b'0'),
        _ => None,
    }
}

/// The number of a tag, whose digits stand between two places: decimal, without a leading zero, and below 2^64.
pub fn tag_number(text: &Input<'_>, from: usize, to: usize, looks: &mut Looks) -> Option<u64>
    requires { (from < to) × (to ≤ length (text_bytes text.now)) }
    ensures value { result ≡ reading.tag_number (take (to - from) (drop from (text_bytes text.now))) }
    ensures count { (looks.old.count ≤ looks.new.count) × (looks.new.count + from ≤ looks.old.count + to) }
{
    let mut number = u64::from(digit_at(text, from, looks)?);
    if number == 0 && from + 1 < to {
        return None;
    }
    for at in from + 1..to {
        let digit = digit_at(text, at, looks)?;
        number = number.checked_mul(10)?.checked_add(u64::from(digit))?;
    }
    Some(number)
}

/// What begins with a byte that is no dot.
fn form_start_of(byte: u8) -> FormStart
    requires { byte ≢ 46 }
    ensures { OpensWith byte result }
{
    match byte {
        b'[' => FormStart::Array,
        b'{' => FormStart::Map,
        b'(' => FormStart::Stream,
        b'"' | b'\'' | b'<' | b'a'..=b'z' | b'A'..=b'Z' => FormStart::String,
        _ => FormStart::Number,
    }
}

/// Whether a plus sign at a place joins two pieces: one that begins a number does not.
pub fn joins(text: &Input<'_>, at: usize, looks: &mut Looks) -> bool
    ensures value { result ≡ trees.joins (drop at (text_bytes text.now)) }
    ensures yes { result ≡ true → IsByteAt (text_bytes text.now) at 43 }
    ensures count { (looks.old.count < looks.new.count) × (looks.new.count ≤ looks.old.count + 3) }
{
    is_at(text, at, b'+', looks) && !starts_number(text, at + 1, looks)
}

/// Whether a digit, or a point and a digit, stands at a place.
fn starts_number(text: &Input<'_>, at: usize, looks: &mut Looks) -> bool
    ensures value { result ≡ trees.starts_number (drop at (text_bytes text.now)) }
    ensures count { (looks.old.count < looks.new.count) × (looks.new.count ≤ looks.old.count + 2) }
{
    match text.byte(at, looks) {
        Some(b'.') => matches!(text.byte(at + 1, looks), Some(b'0'..=b'9')),
        Some(byte) => byte.is_ascii_digit(),
        None => false,
    }
}

/// The first spaces of a list that has entries: behind an indicator the space is its own, and may not be missing. None where it is.
pub fn list_head_and_space<'a>(
    indicator: Option<Indicator>,
    space: Space<'a>,
) -> Option<(ListHead<'a>, Space<'a>)>
    ensures some { IfSome result (λ p. list_head_of indicator (space_bytes space.entry) ≡ Ok (view_list_head texts p.0, space_bytes p.1)) }
    ensures none { IfNone result (list_head_of indicator (space_bytes space.entry) ≡ Err Invalid) }
    ensures borrowed { BorrowsSpace space.entry → IfSome result (λ p. BorrowsListHead p.0 × BorrowsSpace p.1) }
{
    match indicator {
        None => Some((ListHead { indicated: None }, space)),
        Some(indicator) => match space.into_mandatory() {
            None => None,
            Some(space) => {
                let indicated = Some((indicator, space));
                Some((ListHead { indicated }, Space::empty()))
            }
        },
    }
}

/// Whether a list is at its end: the end of the text, or a closing byte, whichever list that closes.
pub fn closes(text: &Input<'_>, at: usize, looks: &mut Looks) -> bool
    ensures closed { result ≡ is_closed (drop at (text_bytes text.now)) }
    ensures count { looks.new.count ≡ looks.old.count + 1 }
{
    match text.byte(at, looks) {
        None => true,
        Some(byte) => is_closing(byte),
    }
}

fn is_closing(byte: u8) -> bool
    ensures { result ≡ closing (kind byte) }
{
    matches!(Kind::of(byte), Kind::Close)
}

/// Refuses what stands behind a place, as invalid at that place: a text must end there.
pub fn ends(text: &Input<'_>, at: usize) -> Result<(), Fault<Refusal>>
    requires { IsCharBoundary (text_bytes text.now) at }
    ensures end { OnOk result (drop at (text_bytes text.now) ≡ []) }
    ensures more { IfErr result (λ e. (0 < length (drop at (text_bytes text.now))) × (e ≡ Fault.Told (record { kind = ParseErrorKind.Invalid; offset = at }))) }
{
    if at < text.len() {
        return Err(Fault::Told(Refusal::invalid(at)));
    }
    Ok(())
}
