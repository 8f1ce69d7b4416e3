//! Encoding indicators.
ghost use Rattle.std.specs.Prelude.{◌≡◌, Some};
ghost use Rattle.cbor_edn_parts.specs.base.Indicator.{indicator_text};

pub use read::indicator_at;

mod read;

/// An encoding indicator: how the head of an item is encoded, by a suffix behind an underscore (RFC 8949, section 8.1, and `_i` by the EDN
/// draft, draft-ietf-cbor-edn-literals).
#[derive(Clone, Copy, Debug, PartialEq, Eq)]
pub enum Indicator {
    /// `_`: indefinite length.
    Indefinite,
    /// `_i`: the argument stands in the head byte.
    Immediate,
    /// `_0`: an argument of one byte.
    One,
    /// `_1`: an argument of two bytes.
    Two,
    /// `_2`: an argument of four bytes.
    Four,
    /// `_3`: an argument of eight bytes.
    Eight,
}

impl Indicator {
    /// The text with its underscore, as `_1`.
    pub fn as_str(self) -> &'static str
        ensures { result.now ≡ indicator_text (Some self) }
    {
        match self {
            Indicator::Indefinite => "_",
            Indicator::Immediate => "_i",
            Indicator::One => "_0",
            Indicator::Two => "_1",
            Indicator::Four => "_2",
            Indicator::Eight => "_3",
        }
    }
}
