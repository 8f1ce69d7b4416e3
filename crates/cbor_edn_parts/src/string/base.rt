//! Bytes by symbols of 6 or 5 bits.
ghost use Rattle.std.specs.Prelude.{◌≡◌, IfOk, Some, None};
ghost use Rattle.cbor_edn_parts.specs.internal.Alphabets.{alphabet};
ghost use Rattle.cbor_edn_parts.specs.string.Contents.{base64_symbol, base32_symbol};
ghost use Rattle.cbor_edn_parts.specs.internal.ContentReading.{base_bytes};
ghost use Rattle.cbor_edn_parts.specs.base.Refusals.{IfTold};

use crate::base::error::{Fault, InconsistentEdn};
use std::alloc::Global;

/// The symbols of a prefix.
#[derive(Clone, Copy)]
pub(crate) enum Alphabet {
    /// `A` to `Z`, `a` to `z`, `0` to `9`, `+` or `-`, `/` or `_`.
    Base64,
    /// `A` to `Z` in either case, `2` to `7`.
    Base32,
    /// `0` to `9`, `A` to `V` in either case.
    Base32Hex,
}

impl Alphabet {
    /// The bytes of a text's symbols. `=` is ignored. Fails where another byte is no symbol, where the bits left over are a
    /// whole symbol or not all zero, and where memory runs out.
    pub(super) fn decode(
        self,
        alloc: Global,
        text: &[u8],
    ) -> Result<Vec<u8>, Fault<InconsistentEdn>>
        ensures bytes { IfOk result (λ v. base_bytes (alphabet self) 0 0 text.now ≡ Some v.items) }
        ensures none { IfTold result (λ e. base_bytes (alphabet self) 0 0 text.now ≡ None) }
        ensures told { IfTold result (λ e. e ≡ InconsistentEdn.UndecodableContent) }
    {
        let undecodable = Fault::Told(InconsistentEdn::UndecodableContent);
        let width = self.width();
        let mut bytes = Vec::new(alloc);
        // The bits that wait for a whole byte: how many, and their number.
        let mut count = 0;
        let mut number = 0;
        for byte in text {
            if *byte == b'=' {
                continue;
            }
            let Some(symbol) = self.symbol(*byte) else {
                return Err(undecodable);
            };
            count += width;
            number = (number << width) | symbol;
            if count >= 8 {
                count -= 8;
                bytes.push((number >> count) as u8)?;
                number %= 1 << count;
            }
        }
        if count < width && number == 0 {
            Ok(bytes)
        } else {
            Err(undecodable)
        }
    }

    /// How many bits a symbol has.
    fn width(self) -> u32
        ensures { result ≡ (alphabet self).bits }
    {
        match self {
            Alphabet::Base64 => 6,
            Alphabet::Base32 | Alphabet::Base32Hex => 5,
        }
    }

    fn symbol(self, byte: u8) -> Option<u32>
        ensures { result ≡ (alphabet self).symbol byte }
    {
        match self {
            Alphabet::Base64 => base64_symbol(byte),
            Alphabet::Base32 => base32_symbol(byte),
            Alphabet::Base32Hex => char::from(byte).to_digit(32),
        }
    }
}

fn base64_symbol(byte: u8) -> Option<u32>
    ensures { result ≡ base64_symbol byte }
{
    let symbol = match byte {
        b'A'..=b'Z' => byte - b'A',
        b'a'..=b'z' => byte - b'a' + 26,
        b'0'..=b'9' => byte - b'0' + 52,
        b'+' | b'-' => 62,
        b'/' | b'_' => 63,
        _ => return None,
    };
    Some(u32::from(symbol))
}

fn base32_symbol(byte: u8) -> Option<u32>
    ensures { result ≡ base32_symbol byte }
{
    let symbol = match byte {
        b'A'..=b'Z' => byte - b'A',
        b'a'..=b'z' => byte - b'a',
        b'2'..=b'7' => byte - b'2' + 26,
        _ => return None,
    };
    Some(u32::from(symbol))
}
