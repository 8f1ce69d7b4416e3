//! The texts of leaves.
ghost use Rattle.std.specs.Prelude.{◌≡◌, ◌≤◌, ◌+◌, ◌++◌, length, nat_eq, take, if◌then◌else◌, is_ok, IfOk, IsOk, string_bytes};
ghost use Rattle.std.specs.Str.{IsUtf8};
ghost use Rattle.std.specs.Cmp.{on_per, partial_equiv_from_equiv};
ghost use Rattle.std.specs.Cmp.Lexicographic.{pointwise, nat_list_eq_equiv};

use std::alloc::{AllocError, Global};
use std::{fmt, str};

/// How many bytes of a text of its own stand in the leaf itself: so many that a leaf takes three words.
const ROOM: usize = 22;

/// The text of a leaf: a part of what was read, or one of its own. A short one of its own takes no memory, as that of most numbers.
#[derive(Drop)]
pub enum LeafText<'a> {
    /// A part of the text that was read, of which nothing is copied.
    Borrowed(&'a str),
    /// A text of its own that stands in the leaf.
    Short(ShortText),
    /// A text of its own behind a pointer.
    Long(Box<String>),
}

/// A text of at most [`ROOM`] bytes.
#[derive(Clone, Copy)]
pub struct ShortText {
    length: u8,
    bytes: [u8; ROOM],
    ghost fits: { length ≤ 22 },
    ghost utf8: { ∥ IsUtf8 (take length bytes) ∥₁ },
}

impl ShortText {
    ghost use Rattle.cbor_edn_parts.specs.base.LeafTexts.{short_bytes};

    /// A text between two others.
    fn enclosed(first: &str, text: &str, last: &str) -> ShortText
        requires { length first.now + (length text.now + length last.now) ≤ 22 }
        ensures { short_bytes result ≡ first.now ++ (text.now ++ last.now) }
    {
        let front = first.len() + text.len();
        let mut bytes = [0; ROOM];
        put(&mut bytes, 0, first);
        put(&mut bytes, first.len(), text);
        put(&mut bytes, front, last);
        ShortText {
            length: (front + last.len()) as u8,
            bytes,
        }
    }

    #[inline]
    fn len(&self) -> usize
        ensures { result ≡ length (short_bytes self.now) }
    {
        self.length as usize
    }

    #[inline(never)]
    fn as_str(&self) -> &str
        ensures { result.now ≡ short_bytes self.now }
    {
        str::from_utf8(self.as_bytes()).unwrap()
    }

    #[inline(always)]
    fn as_bytes(&self) -> &[u8]
        ensures { result.now ≡ short_bytes self.now }
    {
        &self.bytes[..self.length as usize]
    }

    /// Appends the text to bytes. All the room is copied and what is behind the text cut off, since a copy of a fixed length takes no call.
    #[inline(always)]
    pub(crate) fn append_to(&self, out: &mut Vec<u8>) -> Result<(), AllocError>
        ensures { out.new.items ≡ (if is_ok result then out.old.items ++ short_bytes self.now else out.old.items) }
    {
        let front = out.len();
        out.extend_from_slice(&self.bytes)?;
        out.truncate(front + self.length as usize);
        Ok(())
    }
}

/// Writes a text over the bytes from a place on.
fn put(bytes: &mut [u8; ROOM], at: usize, text: &str)
    requires { at + length text.now ≤ 22 }
    ensures { take (at + length text.now) bytes.new ≡ take at bytes.old ++ text.now }
{
    bytes[at..at + text.len()].copy_from_slice(text.as_bytes());
}

impl<'a> LeafText<'a> {
    ghost use Rattle.cbor_edn_parts.specs.base.LeafTexts.{leaf_bytes};

    /// The text as one of its own. Fails where memory runs out, which at most 22 bytes don't need.
    pub fn own(alloc: Global, text: String) -> Result<LeafText<'a>, AllocError>
        ensures { IfOk result (λ t. leaf_bytes t ≡ string_bytes text) }
    {
        if text.len() <= ROOM {
            return Ok(LeafText::short("", text.as_str()));
        }
        Ok(LeafText::Long(Box::new(alloc, text)?))
    }

    /// Two short texts, one behind the other, as a text of its own, which takes no memory.
    pub fn short(first: &str, second: &str) -> LeafText<'a>
        requires { length first.now + length second.now ≤ 22 }
        ensures { leaf_bytes result ≡ first.now ++ second.now }
    {
        LeafText::Short(ShortText::enclosed("", first, second))
    }

    /// Two texts, one behind the other, as a text of its own. Fails where memory runs out, which at most 22 bytes don't need.
    pub fn joined(alloc: Global, first: &str, second: &str) -> Result<LeafText<'a>, AllocError>
        ensures bytes { IfOk result (λ t. leaf_bytes t ≡ first.now ++ second.now) }
        ensures free { length first.now + length second.now ≤ 22 → IsOk result }
    {
        LeafText::enclosed(alloc, "", first, second)
    }

    /// A text between two others, as a text of its own. Fails where memory runs out, which at most 22 bytes don't need.
    #[inline(always)]
    pub fn enclosed(
        alloc: Global,
        first: &str,
        text: &str,
        last: &str,
    ) -> Result<LeafText<'a>, AllocError>
        ensures bytes { IfOk result (λ t. leaf_bytes t ≡ first.now ++ (text.now ++ last.now)) }
        ensures free { length first.now + (length text.now + length last.now) ≤ 22 → IsOk result }
    {
        let size = (first.len() + text.len()).saturating_add(last.len());
        if size <= ROOM {
            return Ok(LeafText::Short(ShortText::enclosed(first, text, last)));
        }
        let mut whole = String::with_capacity(alloc, size)?;
        whole.push_str(first)?;
        whole.push_str(text)?;
        whole.push_str(last)?;
        Ok(LeafText::Long(Box::new(alloc, whole)?))
    }

    /// The text, wherever it stands.
    #[inline(always)]
    pub fn as_str(&self) -> &str
        ensures { result.now ≡ leaf_bytes self.now }
    {
        match self {
            LeafText::Borrowed(text) => text,
            LeafText::Short(text) => text.as_str(),
            LeafText::Long(text) => text.as_str(),
        }
    }

    /// The bytes of the text, wherever they stand.
    #[inline(always)]
    pub fn as_bytes(&self) -> &[u8]
        ensures bytes { result.now ≡ leaf_bytes self.now }
        ensures utf8 { ∥ IsUtf8 result.now ∥₁ }
    {
        match self {
            LeafText::Borrowed(text) => text.as_bytes(),
            LeafText::Short(text) => text.as_bytes(),
            LeafText::Long(text) => text.as_str().as_bytes(),
        }
    }

    /// Its length in bytes.
    pub fn len(&self) -> usize
        ensures { result ≡ length (leaf_bytes self.now) }
    {
        match self {
            LeafText::Borrowed(text) => text.len(),
            LeafText::Short(text) => text.len(),
            LeafText::Long(text) => text.len(),
        }
    }

    /// A copy of the text. Fails where memory runs out, which a text that is borrowed or of at most 22 bytes doesn't need.
    pub fn clone(&self) -> Result<LeafText<'a>, AllocError>
        ensures { IfOk result (λ t. leaf_bytes t ≡ leaf_bytes self.now) }
    {
        match self {
            LeafText::Borrowed(text) => Ok(LeafText::Borrowed(text)),
            LeafText::Short(text) => Ok(LeafText::Short(*text)),
            LeafText::Long(text) => Ok(LeafText::Long(text.clone()?)),
        }
    }
}

impl PartialEq for LeafText<'_> {
    ghost use Rattle.cbor_edn_parts.specs.base.LeafTexts.{leaf_bytes};

    ghost eq = { λ x y. pointwise nat_eq (leaf_bytes x) (leaf_bytes y) };

    ghost laws = { on_per leaf_bytes (partial_equiv_from_equiv nat_list_eq_equiv) };

    fn eq(&self, other: &Self) -> bool {
        self.as_str() == other.as_str()
    }
}

impl fmt::Debug for LeafText<'_> {
    fn fmt<W: fmt::Write>(&self, f: &mut fmt::Formatter<W>) -> fmt::Result {
        fmt::Debug::fmt(&self.as_str(), f)
    }
}
