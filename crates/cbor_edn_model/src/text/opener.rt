//! What stands in front of an item between parentheses.
ghost use Rattle.std.specs.Prelude.{◌≡◌};
ghost use Rattle.cbor_edn_model.specs.layout.Bare.{bare_opener};
ghost use Rattle.cbor_edn_model.specs.text.Openers.{IsOpener, IsOpener-prop};

use cbor_edn_parts::base::indicator::Indicator;

/// What stands in front of an item between parentheses.
#[derive(Clone, Copy, Debug, PartialEq, Eq)]
pub enum OpenerKind {
    /// The encoding indicator and the number of a tag.
    Tag(Option<Indicator>, u64),
    /// The keyword `simple`.
    Simple,
}

/// A label whose number is below 2^64, which proofs of the text know.
#[derive(Clone, Copy, Debug)]
pub struct Opener {
    /// The number and the indicator of a tag, or the keyword `simple`.
    pub kind: OpenerKind,
    ghost fits: { IsOpener kind } by { IsOpener-prop kind },
}

impl Opener {
    ghost use Rattle.cbor_edn_model.specs.declared.text.opener.OpenerKind.TheVariants.{Tag, Simple};

    /// The label of a tag, with its encoding indicator if there is one: `1_0` of `1_0(2)`.
    pub fn tag(number: u64, indicator: Option<Indicator>) -> Opener
        ensures { result.kind ≡ Tag indicator number }
    {
        Opener {
            kind: OpenerKind::Tag(indicator, number),
        }
    }

    /// The label of a simple value without a name, the keyword `simple`.
    pub fn simple() -> Opener
        ensures { result.kind ≡ Simple }
    {
        Opener {
            kind: OpenerKind::Simple,
        }
    }

    /// The label without an encoding indicator: `1` of `1_0`.
    pub fn without_indicator(self) -> Opener
        ensures { result.kind ≡ bare_opener self.kind }
    {
        match self.kind {
            OpenerKind::Tag(_, number) => Opener::tag(number, None),
            OpenerKind::Simple => self,
        }
    }
}
