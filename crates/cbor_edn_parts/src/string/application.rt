//! Literals of a prefix and a text.
ghost use Rattle.std.specs.Prelude.{◌≡◌, ◌++◌, IfOk, IfSome, IfNone, OnOk, OnErr, None, List, ℕ, encode_utf8, string_bytes};
ghost use Rattle.cbor_edn_parts.specs.Leaves.{literal_bytes};
ghost use Rattle.cbor_edn_parts.specs.string.Literal.{IsPrefix, IsLiteral, Prefixed};
ghost use Rattle.cbor_edn_parts.specs.internal.Prefixes as prefixes;
ghost use Rattle.cbor_edn_parts.specs.base.Refusals.{IfTold};
ghost use Rattle.cbor_edn_parts.specs.Written.{application_literal, all_single_escaped};

use super::write::{is_plain, print_escaped};
use super::{Literal, Quote};
use crate::base::error::{Fault, InconsistentEdn};
use crate::base::leaf_text::LeafText;
use std::alloc::{AllocError, Global};

impl<'a> Literal<'a> {
    /// The literal of a prefix, and of a text between single quotes: line feeds and what is from U+0020 upward as they are, but for `'`,
    /// `\` and `"`. Fails with `InvalidIdentifier` where the prefix is none of the grammar, and where memory runs out.
    pub fn application(
        alloc: Global,
        prefix: &str,
        text: &str,
    ) -> Result<Literal<'a>, Fault<InconsistentEdn>>
        ensures written { IfOk result (λ t. literal_bytes t ≡ application_literal prefix.now text.now) }
        ensures prefix { IfOk result (λ _. IsPrefix prefix.now) }
        ensures refused { IfTold result (λ _. IsPrefix prefix.now → ⊥) }
    {
        if !is_prefix(prefix) {
            return Err(Fault::Told(InconsistentEdn::InvalidIdentifier));
        }
        let size = prefix.len().saturating_add(text.len()).saturating_add(2);
        let mut literal = String::with_capacity(alloc, size)?;
        literal.push_str(prefix)?;
        literal.push_str("'")?;
        print_single_quoted(&mut literal, text)?;
        literal.push_str("'")?;
        let text = LeafText::own(alloc, literal)?;
        Ok(Literal { text })
    }
}

impl Literal<'_> {
    /// The prefix of a literal with a prefix, as `b64` of `b64'Yg'`: none of any other. It is lent, and takes no memory.
    pub fn application_prefix(&self) -> Option<&str>
        ensures found { IfSome result (λ p. (v : List ℕ) × IsLiteral (Prefixed p.now) v (literal_bytes self.now)) }
        ensures none { IfNone result ((p v : List ℕ) → IsLiteral (Prefixed p) v (literal_bytes self.now) → ⊥) }
    {
        let prefix = self.prefix();
        if prefix.is_empty() {
            return None;
        }
        Some(prefix)
    }

    /// The prefix and the text of a literal with a prefix, as `b64` and `a'b` of `b64'a\'b'`: none where it has no prefix. Fails
    /// where memory runs out, which only a literal with a prefix takes.
    pub fn application_parts(&self, alloc: Global) -> Result<Option<(String, String)>, AllocError>
        ensures found { IfOk result (λ o. IfSome o (λ p. IsLiteral (Prefixed (string_bytes p.0)) (string_bytes p.1) (literal_bytes self.now))) }
        ensures none { IfOk result (λ o. o ≡ None → (p v : List ℕ) → IsLiteral (Prefixed p) v (literal_bytes self.now) → ⊥) }
        ensures prefixed { OnErr result ((p v : List ℕ) × IsLiteral (Prefixed p) v (literal_bytes self.now)) }
    {
        let prefix = self.prefix();
        if prefix.is_empty() {
            return Ok(None);
        }
        let _whole = self.as_str();
        let text = Quote::Single.decode(alloc, self.quoted())?;
        let text = String::from_utf8(text).unwrap();
        let prefix = String::from_str(alloc, prefix)?;
        Ok(Some((prefix, text)))
    }
}

/// Whether the text is a prefix of the grammar: a letter, and letters of its case and digits.
fn is_prefix(text: &str) -> bool
    ensures { result ≡ prefixes.is_prefix text.now }
{
    match text.as_bytes() {
        [b'a'..=b'z', rest @ ..] => are_small(rest),
        [b'A'..=b'Z', rest @ ..] => are_large(rest),
        _ => false,
    }
}

fn are_small(text: &[u8]) -> bool
    ensures { result ≡ prefixes.are_small text.now }
{
    text.iter()
        .all(|byte| matches!(*byte, b'a'..=b'z' | b'0'..=b'9'))
}

fn are_large(text: &[u8]) -> bool
    ensures { result ≡ prefixes.are_large text.now }
{
    text.iter()
        .all(|byte| matches!(*byte, b'A'..=b'Z' | b'0'..=b'9'))
}

/// Appends a text as it stands between single quotes: at once where each byte stands for itself, as in times and addresses.
fn print_single_quoted(literal: &mut String, text: &str) -> Result<(), AllocError>
    ensures { OnOk result (string_bytes literal.new ≡ string_bytes literal.old ++ all_single_escaped text.now) }
{
    if is_plain(text) {
        return literal.push_str(text);
    }
    for character in text.chars() {
        print_single_escaped(literal, character)?;
    }
    Ok(())
}

/// Appends a character as it stands between single quotes.
fn print_single_escaped(text: &mut String, character: char) -> Result<(), AllocError>
    ensures { OnOk result (string_bytes text.new ≡ string_bytes text.old ++ all_single_escaped (encode_utf8 character)) }
{
    match character {
        '\'' => text.push_str("\\'"),
        '"' => text.push_str("\\u{22}"),
        _ => print_escaped(text, character),
    }
}
