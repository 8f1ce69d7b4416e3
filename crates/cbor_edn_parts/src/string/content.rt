//! What literals contribute to a string.
ghost use Rattle.std.specs.Prelude.{◌≡◌, ◌≤◌, ◌∷◌, ◌++◌, ℕ, List, [], true, length, drop, ◌↔◌, All, IsTrue, IfOk, IfSome, IsNone, OnOk, Some, None, not, position};
ghost use Rattle.std.specs.List.{position_or_len};
ghost use Rattle.cbor_edn_parts.specs.string.Contents.{HasContent, NoContent, IsSupported, IsRefusal};
ghost use Rattle.cbor_edn_parts.specs.internal.ContentReading as reading;
ghost use Rattle.cbor_edn_parts.specs.internal.Ended.{ended_bytes};
ghost use Rattle.cbor_edn_parts.specs.Leaves.{literal_bytes};
ghost use Rattle.cbor_edn_parts.specs.internal.LiteralTokens as tokens;
ghost use Rattle.cbor_edn_parts.specs.base.Refusals.{IfTold};
ghost use Rattle.cbor_edn_parts.specs.declared.string.Quote.{Quote};

use super::base::Alphabet;
use super::{Ended, Literal, Quote, QuotedState, StringKind, hexadecimal};
use crate::base::error::{Fault, InconsistentEdn};
use std::alloc::{AllocError, Global};

impl Literal<'_> {
    /// The kind and the bytes of the string that the literal stands for: those of `b64`, `b32` and `h32` by RFC 4648. Fails with
    /// `UnsupportedLiteral` for any prefix but these and `h`, with `UndecodableContent` where the text is not one of its prefix, and
    /// where memory runs out.
    pub fn content(&self, alloc: Global) -> Result<(StringKind, Vec<u8>), Fault<InconsistentEdn>>
        ensures content { IfOk result (λ p. HasContent (literal_bytes self.now) p.0 p.1.items) }
        ensures none { IfTold result (λ e. NoContent (literal_bytes self.now)) }
        ensures told { IfTold result (λ e. IsRefusal (literal_bytes self.now) e) }
    {
        let kind = self.kind();
        let prefix = self.prefix();
        let quote = kind.quote();
        if prefix.is_empty() {
            Ok((kind, quote.decode(alloc, self.quoted())?))
        } else {
            Ok((kind, prefixed_quoted(alloc, prefix, quote, self.quoted())?))
        }
    }

    /// The kind and the content of a string as most are, whose text between the quotes stands for itself: of a literal without prefix and
    /// escapes, where it stands. Takes no memory.
    pub fn plain_content(&self) -> Option<(StringKind, &str)>
        ensures content { IfSome result (λ p. HasContent (literal_bytes self.now) p.0 p.1.now) }
        ensures plain { IsNone result → (quote : Quote) (text : List ℕ) → literal_bytes self.now ≡ tokens.quote_byte quote ∷ (text ++ (tokens.quote_byte quote ∷ [])) → All (λ c. tokens.is_plain quote c ≡ true) text → ⊥ }
    {
        let (kind, quoted) = self.unprefixed()?;
        let plain = kind.quote().plain(quoted)?;
        Some((kind, &self.as_str()[1..1 + plain.len()]))
    }

    /// The kind of a literal without prefix, and what stands behind its first quote.
    #[inline(always)]
    fn unprefixed(&self) -> Option<(StringKind, &[u8])>
        ensures prefix { IfSome result (λ _. tokens.prefix_of (literal_bytes self.now) ≡ []) }
        ensures kind { IfSome result (λ p. p.0 ≡ reading.literal_kind (literal_bytes self.now)) }
        ensures quoted { IfSome result (λ p. p.1.now ≡ reading.behind_quote (literal_bytes self.now)) }
        ensures none { IsNone result → (quote : Quote) (text : List ℕ) → literal_bytes self.now ≡ tokens.quote_byte quote ∷ text → ⊥ }
    {
        match self.as_str().as_bytes() {
            [b'"', quoted @ ..] => Some((StringKind::Text, quoted)),
            [b'\'', quoted @ ..] => Some((StringKind::Bytes, quoted)),
            _ => None,
        }
    }

    /// What stands before the first quote.
    pub(super) fn prefix(&self) -> &str
        ensures { result.now ≡ tokens.prefix_of (literal_bytes self.now) }
    {
        let text = self.as_str();
        match first_quote(text.as_bytes()) {
            Some(at) => &text[..at],
            None => text,
        }
    }

    /// What stands behind the first quote.
    pub(super) fn quoted(&self) -> &[u8]
        ensures { result.now ≡ reading.behind_quote (literal_bytes self.now) }
    {
        let at = self.prefix().len() + 1;
        &self.as_str().as_bytes()[at..]
    }

    /// Whether the literal has no prefix, or one of `h`, `b64`, `b32` and `h32`: only such a literal has a content.
    pub fn is_supported(&self) -> bool
        ensures { IsTrue result ↔ IsSupported (literal_bytes self.now) }
    {
        is_supported_prefix(self.prefix())
    }

    /// The kind of the string that the literal stands for: text between double quotes, else bytes.
    pub fn kind(&self) -> StringKind
        ensures { result ≡ reading.literal_kind (literal_bytes self.now) }
    {
        match self.as_str().as_bytes() {
            [b'"', ..] => StringKind::Text,
            _ => StringKind::Bytes,
        }
    }
}

/// Whether this is no prefix, or one of `h`, `b64`, `b32` and `h32`.
fn is_supported_prefix(prefix: &str) -> bool
    ensures { result ≡ reading.is_supported_prefix prefix.now }
{
    matches!(prefix, "" | "h" | "b64" | "b32" | "h32")
}

/// The bytes of a quoted text behind a prefix. A text that stands for itself is not copied.
fn prefixed_quoted(
    alloc: Global,
    prefix: &str,
    quote: Quote,
    quoted: &[u8],
) -> Result<Vec<u8>, Fault<InconsistentEdn>>
    ensures bytes { IfOk result (λ v. reading.prefixed_bytes prefix.now (tokens.decoded quote QuotedState.Between quoted.now) ≡ Some v.items) }
    ensures none { IfTold result (λ e. reading.prefixed_bytes prefix.now (tokens.decoded quote QuotedState.Between quoted.now) ≡ None) }
    ensures told { IfTold result (λ e. e ≡ reading.refusal (reading.is_decoded prefix.now)) }
{
    match quote.plain(quoted) {
        Some(text) => prefixed(alloc, prefix, text),
        None => prefixed(alloc, prefix, &quote.decode(alloc, quoted)?),
    }
}

/// The bytes of a text behind a prefix.
fn prefixed(alloc: Global, prefix: &str, text: &[u8]) -> Result<Vec<u8>, Fault<InconsistentEdn>>
    ensures bytes { IfOk result (λ v. reading.prefixed_bytes prefix.now text.now ≡ Some v.items) }
    ensures none { IfTold result (λ e. reading.prefixed_bytes prefix.now text.now ≡ None) }
    ensures told { IfTold result (λ e. e ≡ reading.refusal (reading.is_decoded prefix.now)) }
{
    match prefix {
        "h" => hexadecimal::decode(alloc, text),
        "b64" => Alphabet::Base64.decode(alloc, text),
        "b32" => Alphabet::Base32.decode(alloc, text),
        "h32" => Alphabet::Base32Hex.decode(alloc, text),
        _ => Err(Fault::Told(InconsistentEdn::UnsupportedLiteral)),
    }
}

fn first_quote(text: &[u8]) -> Option<usize>
    ensures { result ≡ position tokens.is_quote text.now }
{
    text.iter().position(|byte| matches!(*byte, b'\'' | b'"'))
}

impl StringKind {
    /// What a literal of this kind is quoted with.
    fn quote(self) -> Quote
        ensures { result ≡ reading.quote_of self }
    {
        match self {
            StringKind::Bytes => Quote::Single,
            StringKind::Text => Quote::Double,
        }
    }
}

impl Quote {
    /// The bytes that the text behind an opening quote stands for, up to the quote that ends it.
    pub(super) fn decode(self, alloc: Global, text: &[u8]) -> Result<Vec<u8>, AllocError>
        ensures { IfOk result (λ v. v.items ≡ tokens.decoded self QuotedState.Between text.now) }
    {
        let mut bytes = Vec::with_capacity(alloc, text.len())?;
        let mut part = QuotedState::Between;
        let mut rest = text;
        'parts: loop {
            rest = self.append_plain(part, rest, &mut bytes)?;
            let [byte, behind @ ..] = rest else {
                break;
            };
            if self.ends(part, *byte) {
                break;
            }
            let Some((next, ended)) = part.step(self.byte(), *byte) else {
                break;
            };
            ended.append_to(&mut bytes)?;
            part = next;
            rest = behind;
        }
        Ok(bytes)
    }

    /// Appends the plain bytes that stand between two characters, and answers what stands behind them.
    fn append_plain<'t>(
        self,
        part: QuotedState,
        text: &'t [u8],
        bytes: &mut Vec<u8>,
    ) -> Result<&'t [u8], AllocError>
        ensures bytes { IfOk result (λ r. bytes.old.items ++ tokens.decoded self part text.now ≡ bytes.new.items ++ tokens.decoded self part r.now) }
        ensures behind { IfOk result (λ r. length r.now ≤ length text.now) }
    {
        if !matches!(part, QuotedState::Between) {
            return Ok(text);
        }
        let (plain, rest) = self.split_plain(text);
        bytes.extend_from_slice(plain)?;
        Ok(rest)
    }

    /// The text behind an opening quote, up to the quote that ends it, where all of it is plain: it stands for itself.
    fn plain(self, text: &[u8]) -> Option<&[u8]>
        ensures some { IfSome result (λ p. tokens.decoded self QuotedState.Between text.now ≡ p.now) }
        ensures whole { IfSome result (λ p. text.now ≡ p.now ++ (tokens.quote_byte self ∷ [])) }
        ensures none { IsNone result → (plain : List ℕ) → text.now ≡ plain ++ (tokens.quote_byte self ∷ []) → All (λ c. tokens.is_plain self c ≡ true) plain → ⊥ }
    {
        let (plain, rest) = self.split_plain(text);
        if self.is_end(rest) { Some(plain) } else { None }
    }

    /// Whether nothing but the quote that ends the text stands there.
    fn is_end(self, rest: &[u8]) -> bool
        ensures end { IsTrue result → rest.now ≡ tokens.quote_byte self ∷ [] }
        ensures other { rest.now ≡ tokens.quote_byte self ∷ [] → IsTrue result }
    {
        match rest {
            [last] => *last == self.byte(),
            _ => false,
        }
    }

    /// Plain bytes that the text behind an opening quote begins with, mostly all but the quote that ends it, and the rest.
    fn split_plain(self, text: &[u8]) -> (&[u8], &[u8])
        ensures bytes { tokens.decoded self QuotedState.Between text.now ≡ result.0.now ++ tokens.decoded self QuotedState.Between result.1.now }
        ensures whole { text.now ≡ result.0.now ++ result.1.now }
        ensures rest { result.1.now ≡ drop (position_or_len (λ c. not (tokens.is_plain self c)) text.now) text.now }
    {
        match self.first_other(text) {
            Some(at) => text.split_at(at),
            None => text.split_at(text.len()),
        }
    }

    /// The place of the first byte that is not plain, mostly that of the quote that ends the text, or of a backslash.
    fn first_other(self, text: &[u8]) -> Option<usize>
        ensures { result ≡ position (λ c. not (tokens.is_plain self c)) text.now }
    {
        text.iter().position(|byte| !self.is_plain(*byte))
    }

    /// Whether the byte is the quote that ends the text.
    fn ends(self, part: QuotedState, byte: u8) -> bool
        ensures { result ≡ tokens.ends self byte part }
    {
        matches!(part, QuotedState::Between) && byte == self.byte()
    }
}

impl Ended {
    fn append_to(self, bytes: &mut Vec<u8>) -> Result<(), AllocError>
        ensures { OnOk result (bytes.new.items ≡ bytes.old.items ++ ended_bytes self) }
    {
        match self {
            Ended::Nothing => Ok(()),
            Ended::Byte(byte) => Ok(bytes.push(byte)?),
            Ended::Character(character) => {
                bytes.extend_from_slice(character.encode_utf8(&mut [0; 4]).as_bytes())
            }
        }
    }
}
