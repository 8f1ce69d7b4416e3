//! Texts of items without what acts on a terminal, of which the items mean the same.
#![tactic(auto)]

ghost use Rattle.std.specs.Prelude.{◌≡◌, ◌++◌, false, IfOk, OnOk, string_bytes};
ghost use Rattle.std.specs.Str.{chars, NonePass};
ghost use Rattle.cbor_edn_terminal.specs.Terminal.{acts_in_lines, IsHarmlessInLines};
ghost use Rattle.cbor_edn_harmless.specs.Harmless as definitions;
ghost use Rattle.cbor_edn_harmless.specs.HarmlessLaws.{IsHarmlessText, LiteralsStay, HarmlessKeeps};
ghost use Rattle.cbor_edn_harmless.specs.internal.Rewriting as rewriting;
ghost use Rattle.cbor_edn_harmless.specs.declared.Place.TheVariants as places;

use cbor_edn_terminal::acts_on_terminal;
use std::alloc::{AllocError, Global};

/// Where a character stands in a text of items.
#[derive(Clone, Copy)]
enum Place {
    Outside,
    /// in a comment between slashes
    InSlashes,
    /// in a comment behind `#`
    InHash,
    /// in a text with these quotes
    InQuotes(char),
    /// behind a backslash in such a text
    Escaped(char),
}

/// Where the next character stands.
fn after(place: Place, character: char) -> Place
    ensures { result ≡ rewriting.after place character }
{
    match (place, character) {
        (Place::Outside, '/') => Place::InSlashes,
        (Place::Outside, '#') => Place::InHash,
        (Place::Outside, '"' | '\'') => Place::InQuotes(character),
        (Place::InSlashes, '/') => Place::Outside,
        (Place::InHash, '\n') => Place::Outside,
        (Place::InQuotes(quote), _) if character == quote => Place::Outside,
        (Place::InQuotes(quote), '\\') => Place::Escaped(quote),
        (Place::Escaped(quote), _) => Place::InQuotes(quote),
        (place, _) => place,
    }
}

/// Whether a character acts in the lines of a text: a line feed ends one.
fn acts(character: char) -> bool
    ensures { result ≡ acts_in_lines character }
{
    character != '\n' && acts_on_terminal(character)
}

/// What acts stands as `\u{202e}`.
fn push_escaped(out: &mut String, character: char) -> Result<(), AllocError>
    ensures { OnOk result (string_bytes out.new ≡ string_bytes out.old ++ definitions.escaped_character character) }
{
    if acts(character) {
        let number = u32::from(character);
        let escape = format!(in *out.allocator(); "\\u{{{number:x}}}")?;
        return out.push_str(&escape);
    }
    out.push(character)
}

fn push_at(out: &mut String, place: Place, character: char) -> Result<(), AllocError>
    ensures { OnOk result (string_bytes out.new ≡ string_bytes out.old ++ rewriting.written place character) }
{
    match (place, character) {
        (Place::InQuotes(_) | Place::Escaped(_), '\r') => Ok(()),
        (Place::InQuotes(_) | Place::Escaped(_), _) => push_escaped(out, character),
        (_, '\t' | '\r') => out.push(' '),
        _ => push_escaped(out, character),
    }
}

/// A text of items as it is written where a terminal may show it: in quoted texts what acts stands as `\u{202e}`, and so in comments, where
/// a tab or a CR is a space. What acts on nothing is handed back, and not copied.
pub fn harmless(alloc: Global, text: String) -> Result<String, AllocError>
    ensures text { IfOk result (λ s. IsHarmlessText (string_bytes text) (string_bytes s)) }
    ensures acts_on_nothing { IfOk result (λ s. IsHarmlessInLines (string_bytes s)) }
{
    if acts_somewhere(&text) {
        rewritten(alloc, &text)
    } else {
        Ok(text)
    }
}

fn acts_somewhere(text: &str) -> bool
    ensures { result ≡ false → NonePass acts_in_lines (chars text.now) }
{
    for character in text.chars() {
        if acts(character) {
            return true;
        }
    }
    false
}

fn rewritten(alloc: Global, text: &str) -> Result<String, AllocError>
    ensures { IfOk result (λ s. string_bytes s ≡ rewriting.rewritten places.Outside (chars text.now)) }
{
    let mut out = String::new(alloc);
    let mut place = Place::Outside;
    for character in text.chars() {
        push_at(&mut out, place, character)?;
        place = after(place, character);
    }
    Ok(out)
}

/// Quoted texts stand for what they stood for. The body does nothing.
pub fn literals_stay()
    ensures { LiteralsStay }
{}

/// Items mean the same, nest the same, and their text acts on nothing. The body does nothing.
pub fn harmless_keeps()
    ensures { HarmlessKeeps }
{}
