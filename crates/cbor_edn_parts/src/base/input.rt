//! The text that is parsed.
ghost use Rattle.std.specs.Prelude.{◌≡◌, ◌+◌, ◌-◌, ◌≤◌, length, slice_range, ◌<◌, IfSome, ◌^◌};
ghost use Rattle.std.specs.Str.{IsCharBoundary};
ghost use Rattle.cbor_edn_parts.specs.internal.Scans.{IsAt};
ghost use Rattle.cbor_edn_parts.specs.internal.Input.{text_bytes};

use crate::base::looks::Looks;

/// A text whose bytes are read one at a time, and each read is counted.
#[derive(Clone, Copy)]
pub struct Input<'a> {
    all: &'a str,
}

impl<'a> Input<'a> {
    /// A text that is to be read. The leaves that are read from it borrow from it.
    pub fn new(all: &'a str) -> Input<'a>
        ensures { text_bytes result ≡ all.now }
    {
        Input { all }
    }

    /// The length of the text in bytes, for no read.
    pub fn len(&self) -> usize
        ensures len { result ≡ length (text_bytes self.now) }
        ensures small { result < 2 ^ 63 }
    {
        self.as_str().as_bytes().len()
    }

    /// The place in front of the text, where reading begins.
    pub fn start(&self) -> usize
        ensures zero { result ≡ 0 }
        ensures place { IsCharBoundary (text_bytes self.now) result }
    {
        let _text = self.as_str();
        0
    }

    fn as_str(&self) -> &'a str
        ensures { result.now ≡ text_bytes self.now }
    {
        self.all
    }

    /// The byte at a place, for one read, or none behind the end of the text.
    pub fn byte(&self, at: usize, looks: &mut Looks) -> Option<u8>
        ensures value { IsAt (text_bytes self.now) at result }
        ensures behind { IfSome result (λ c. c < 128 → IsCharBoundary (text_bytes self.now) (at + 1)) }
        ensures count { looks.new.count ≡ looks.old.count + 1 }
    {
        looks.look();
        byte_of(self.as_str(), at)
    }

    /// The piece between two places, for no read. Each place is where a character begins, or the end.
    pub fn slice(&self, from: usize, to: usize) -> &'a str
        requires order { from ≤ to }
        requires starts { IsCharBoundary (text_bytes self.now) from }
        requires ends { IsCharBoundary (text_bytes self.now) to }
        ensures { result.now ≡ slice_range (text_bytes self.now) from to }
    {
        &self.all[from..to]
    }
}

fn byte_of(text: &str, at: usize) -> Option<u8>
    ensures { IsAt text.now at result }
{
    text.as_bytes().get(at).copied()
}
