//! The keywords of the grammar.
ghost use Rattle.std.specs.Prelude.{◌≡◌};
ghost use Rattle.cbor_edn_model.specs.text.Keywords as keywords;

/// The simple values that have names (RFC 8949, section 3.3).
#[derive(Clone, Copy, Debug, PartialEq, Eq)]
pub enum NamedSimple {
    /// `false`, the simple value 20.
    False,
    /// `true`, the simple value 21.
    True,
    /// `null`, the simple value 22.
    Null,
    /// `undefined`, the simple value 23.
    Undefined,
}

/// The floating-point numbers that are not finite, in any width.
#[derive(Clone, Copy, Debug, PartialEq, Eq)]
pub enum NonFinite {
    /// `Infinity`, above all numbers.
    Infinity,
    /// `-Infinity`, below all numbers.
    NegativeInfinity,
    /// `NaN`, the one without sign and payload.
    NaN,
}

/// A keyword that an item begins with.
#[derive(Clone, Copy, Debug, PartialEq)]
pub enum Keyword {
    /// The name of a simple value.
    Named(NamedSimple),
    /// `simple`, behind which an item stands between parentheses.
    Simple,
    /// The keyword of a floating-point number.
    NonFinite(NonFinite),
}

impl NamedSimple {
    /// The keyword as it is written, as `true`.
    pub fn as_str(self) -> &'static str
        ensures { result.now ≡ keywords.named_text self }
    {
        match self {
            NamedSimple::False => "false",
            NamedSimple::True => "true",
            NamedSimple::Null => "null",
            NamedSimple::Undefined => "undefined",
        }
    }
}

impl NonFinite {
    /// The keyword as it is written, as `-Infinity`.
    pub fn as_str(self) -> &'static str
        ensures { result.now ≡ keywords.non_finite_text self }
    {
        match self {
            NonFinite::Infinity => "Infinity",
            NonFinite::NegativeInfinity => "-Infinity",
            NonFinite::NaN => "NaN",
        }
    }
}

impl Keyword {
    /// The keyword as it is written, as `simple`.
    pub fn as_str(self) -> &'static str
        ensures { result.now ≡ keywords.keyword_text self }
    {
        match self {
            Keyword::Named(name) => name.as_str(),
            Keyword::Simple => "simple",
            Keyword::NonFinite(float) => float.as_str(),
        }
    }
}
