//! Comments as space texts.
ghost use Rattle.std.specs.Prelude.{◌≡◌, ◌∷◌, ◌++◌, [], IfOk, OnOk, OnErr, List, ℕ, map, encode_utf8, string_bytes};
ghost use Rattle.cbor_edn_parts.specs.base.LeafTexts.{leaf_bytes};
ghost use Rattle.cbor_edn_parts.specs.Leaves.{space_bytes, separator_bytes, list_end_bytes};
ghost use Rattle.cbor_edn_parts.specs.space.Notes as definition;
ghost use Rattle.cbor_edn_parts.specs.space.Notes.{noted, hash_lines};

use super::{ListEnd, Separator, Space};
use crate::base::leaf_text::LeafText;
use std::alloc::{AllocError, Global};

impl<'a> Space<'a> {
    /// A comment as space: `/ comment /`, or each line behind `# ` where it has a slash. Control characters other than HT, LF
    /// and CR become spaces. Fails where memory runs out.
    pub fn note(alloc: Global, comment: &str) -> Result<Space<'a>, AllocError>
        ensures { IfOk result (λ t. space_bytes t ≡ noted comment.now) }
    {
        let text = if comment.as_bytes().contains(&b'/') {
            behind_hashes(alloc, comment)?
        } else {
            between_slashes(alloc, comment)?
        };
        let text = LeafText::own(alloc, text)?;
        Ok(Space { text })
    }
}

/// A space text that stands behind an item, and takes comments in front.
pub trait TakesComment {
    ghost bytes: { Self → List ℕ };

    /// Puts a comment in front of the text, as [`Space::note`] writes it. Fails where memory runs out, and leaves the text then.
    fn put_comment(&mut self, alloc: Global, comment: &str) -> Result<(), AllocError>
        ensures put { OnOk result (bytes self.new ≡ noted comment.now ++ bytes self.old) }
        ensures out_of_memory { OnErr result (bytes self.new ≡ bytes self.old) };
}

impl<'a> TakesComment for Space<'a> {
    ghost bytes = { space_bytes };

    fn put_comment(&mut self, alloc: Global, comment: &str) -> Result<(), AllocError> {
        let text = note_before(alloc, comment, self.as_str())?;
        self.text = text;
        Ok(())
    }
}

impl<'a> TakesComment for Separator<'a> {
    ghost bytes = { separator_bytes };

    fn put_comment(&mut self, alloc: Global, comment: &str) -> Result<(), AllocError> {
        let text = note_before(alloc, comment, self.as_str())?;
        self.text = text;
        Ok(())
    }
}

impl<'a> TakesComment for ListEnd<'a> {
    ghost bytes = { list_end_bytes };

    fn put_comment(&mut self, alloc: Global, comment: &str) -> Result<(), AllocError> {
        let text = note_before(alloc, comment, self.as_str())?;
        self.text = text;
        Ok(())
    }
}

/// The comment as space, and the text behind it.
fn note_before<'a>(alloc: Global, comment: &str, text: &str) -> Result<LeafText<'a>, AllocError>
    ensures { IfOk result (λ t. leaf_bytes t ≡ noted comment.now ++ text.now) }
{
    let note = Space::note(alloc, comment)?;
    LeafText::joined(alloc, note.as_str(), text)
}

fn between_slashes(alloc: Global, comment: &str) -> Result<String, AllocError>
    ensures { IfOk result (λ t. string_bytes t ≡ 47 ∷ 32 ∷ (map definition.cleaned comment.now ++ (32 ∷ 47 ∷ []))) }
{
    let mut text = String::from_str(alloc, "/ ")?;
    for character in comment.chars() {
        text.push(cleaned(character))?;
    }
    text.push_str(" /")?;
    Ok(text)
}

fn behind_hashes(alloc: Global, comment: &str) -> Result<String, AllocError>
    ensures { IfOk result (λ t. string_bytes t ≡ 35 ∷ 32 ∷ (hash_lines (map definition.cleaned comment.now) ++ (10 ∷ []))) }
{
    let mut text = String::from_str(alloc, "# ")?;
    for character in comment.chars() {
        print_behind_hash(&mut text, character)?;
    }
    text.push('\n')?;
    Ok(text)
}

/// Appends a character of a comment behind `#`.
fn print_behind_hash(text: &mut String, character: char) -> Result<(), AllocError>
    ensures { OnOk result (string_bytes text.new ≡ string_bytes text.old ++ hash_lines (map definition.cleaned (encode_utf8 character))) }
{
    match character {
        '\n' => text.push_str("\n# "),
        _ => text.push(cleaned(character)),
    }
}

/// The character, or a space in place of a control character that a comment may not hold.
fn cleaned(character: char) -> char
    ensures { result ≡ definition.cleaned character }
{
    match character {
        '\t' | '\n' | '\r' => character,
        _ if character < ' ' => ' ',
        _ => character,
    }
}
