//! A text that is written piece by piece.
ghost use Rattle.std.specs.Prelude.{◌≡◌, ◌++◌, [], OnOk, OnErr, string_bytes};
ghost use Rattle.std.specs.Str.{IsUtf8};

use crate::base::leaf_text::LeafText;
use std::alloc::{AllocError, Global};

/// A text that grows at its end. Unlike a `String` it takes the short text of a leaf without a test that it is UTF-8.
#[derive(Drop)]
pub struct TextBuffer {
    bytes: Vec<u8>,
    ghost utf8: { ∥ IsUtf8 bytes.items ∥₁ },
}

impl TextBuffer {
    ghost use Rattle.cbor_edn_parts.specs.base.Buffer.{buffer_bytes};
    ghost use Rattle.cbor_edn_parts.specs.base.LeafTexts.{leaf_bytes};

    /// An empty text, which takes no memory.
    pub fn new(alloc: Global) -> TextBuffer
        ensures { buffer_bytes result ≡ [] }
    {
        TextBuffer {
            bytes: Vec::new(alloc),
        }
    }

    /// Appends a text. Fails where memory runs out, and leaves the text as it was then.
    #[inline(always)]
    pub fn push_str(&mut self, text: &str) -> Result<(), AllocError>
        ensures pushed { OnOk result (buffer_bytes self.new ≡ buffer_bytes self.old ++ text.now) }
        ensures out_of_memory { OnErr result (buffer_bytes self.new ≡ buffer_bytes self.old) }
    {
        self.bytes.extend_from_slice(text.as_bytes())
    }

    /// Appends a text that mostly is empty: without a call then. Fails as [`TextBuffer::push_str`] does.
    #[inline(always)]
    pub(crate) fn push_if_any(&mut self, text: &str) -> Result<(), AllocError>
        ensures pushed { OnOk result (buffer_bytes self.new ≡ buffer_bytes self.old ++ text.now) }
        ensures out_of_memory { OnErr result (buffer_bytes self.new ≡ buffer_bytes self.old) }
    {
        if text.is_empty() {
            return Ok(());
        }
        self.push_str(text)
    }

    /// Appends the text of a leaf. Fails where memory runs out, and leaves the text as it was then.
    #[inline(always)]
    pub(crate) fn push_leaf(&mut self, text: &LeafText<'_>) -> Result<(), AllocError>
        ensures pushed { OnOk result (buffer_bytes self.new ≡ buffer_bytes self.old ++ leaf_bytes text.now) }
        ensures out_of_memory { OnErr result (buffer_bytes self.new ≡ buffer_bytes self.old) }
    {
        match text {
            LeafText::Short(text) => text.append_to(&mut self.bytes),
            _ => self.bytes.extend_from_slice(text.as_bytes()),
        }
    }

    /// Makes room for so many more bytes. Fails where memory runs out.
    pub(crate) fn reserve(&mut self, additional: usize) -> Result<(), AllocError>
        ensures { buffer_bytes self.new ≡ buffer_bytes self.old }
    {
        self.bytes.reserve(additional)
    }

    /// The bytes of the text.
    pub fn into_bytes(self) -> Vec<u8>
        ensures bytes { result.items ≡ buffer_bytes self }
        ensures utf8 { IsUtf8 result.items }
    {
        self.bytes
    }

    /// The text as a `String`, for which it is tested as a whole: `into_bytes` is quicker.
    pub fn into_string(self) -> String
        ensures { string_bytes result ≡ buffer_bytes self }
    {
        String::from_utf8(self.bytes).unwrap()
    }
}
