//! A count of the reads of a text that only proofs see.
//!
//! It takes no bytes, and its methods do nothing at run time. What `new` and `next` make is proved by hand, and such
//! a proof could set the count to anything: so this file has these functions alone.
ghost use Rattle.std.specs.Prelude.{◌≡◌, ℕ, ◌+◌};
ghost use Rattle.std.specs.Borrow.{ftrue};

use std::marker::Model;

/// A count of the reads of a text, byte by byte. Only proofs see it, and it takes no bytes.
#[derive(Drop)]
pub struct Looks {
    pub ghost count: { ℕ },
    /// Without bytes, and private: no other module writes a `Looks`.
    sealed: (),
}

impl Model for Looks {
    ghost also_owns = { λ _. ftrue };
}

impl Looks {
    /// A count of no reads.
    pub fn new() -> Looks
        ensures { result.count ≡ 0 }
    {
        Looks { sealed: () }
    }

    /// Counts one read more. At run time it does nothing.
    pub fn look(&mut self)
        ensures { self.new.count ≡ self.old.count + 1 }
    {
        *self = self.next();
    }

    #[inline(always)]
    fn next(&self) -> Looks
        ensures { result.count ≡ self.now.count + 1 }
    {
        Looks { sealed: () }
    }
}
