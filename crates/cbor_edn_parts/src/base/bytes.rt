//! The kinds of bytes that the grammar tells apart.
ghost use Rattle.std.specs.Prelude.{◌≡◌};

use kinds::KINDS;

mod kinds;

/// A kind of byte of a text.
#[derive(Clone, Copy, Debug, PartialEq)]
pub enum Kind {
    /// A space or CR.
    Blank,
    Tab,
    Lf,
    /// Another byte below 32.
    Control,
    Slash,
    Hash,
    Comma,
    Colon,
    /// `[`, `{` or `(`
    Open,
    /// `]`, `}`, `)` or `>`
    Close,
    /// `<`
    Less,
    /// `'` or `"`
    Quote,
    Plus,
    Minus,
    Zero,
    One,
    /// 2 to 7
    TwoToSeven,
    /// 8 or 9
    EightOrNine,
    Dot,
    /// b, in either case, and so the next three
    B,
    E,
    /// a, c, d or f
    HexLetter,
    O,
    P,
    X,
    /// another letter
    Letter,
    Underscore,
    Other,
}

impl Kind {
    ghost use Rattle.cbor_edn_parts.specs.base.Bytes.{kind};

    /// The kind of a byte, looked up.
    pub fn of(byte: u8) -> Kind
        ensures { result ≡ kind byte }
    {
        KINDS[byte as usize]
    }
}
