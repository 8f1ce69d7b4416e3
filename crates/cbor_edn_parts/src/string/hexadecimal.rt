//! Bytes by pairs of hexadecimal digits.
ghost use Rattle.std.specs.Prelude.{◌≡◌, IfOk, Some, None};
ghost use Rattle.cbor_edn_parts.specs.internal.ContentReading.{hex_bytes, hex_digit_at};
ghost use Rattle.cbor_edn_parts.specs.base.Refusals.{IfTold};

use crate::base::bytes::Kind;
use crate::base::error::{Fault, InconsistentEdn};
use crate::space::SpaceState;
use std::alloc::Global;

/// The bytes of pairs of digits, with space in front of each digit and at the end. A last comment may end with the text.
/// Fails where the text is not of this form, and where memory runs out.
pub(super) fn decode(alloc: Global, text: &[u8]) -> Result<Vec<u8>, Fault<InconsistentEdn>>
    ensures bytes { IfOk result (λ v. hex_bytes SpaceState.Between None text.now ≡ Some v.items) }
    ensures none { IfTold result (λ e. hex_bytes SpaceState.Between None text.now ≡ None) }
    ensures told { IfTold result (λ e. e ≡ InconsistentEdn.UndecodableContent) }
{
    let undecodable = Fault::Told(InconsistentEdn::UndecodableContent);
    let mut bytes = Vec::new(alloc);
    let mut within = SpaceState::Between;
    // The first digit of a pair, where its second is still to come.
    let mut waiting = None;
    for byte in text {
        match (hex_digit_at(within, *byte), waiting) {
            (Some(digit), None) => waiting = Some(digit),
            (Some(digit), Some(first)) => {
                bytes.push((16 * first + digit) as u8)?;
                waiting = None;
            }
            (None, _) => match within.behind(Kind::of(*byte)) {
                Some(next) => within = next,
                None => return Err(undecodable),
            },
        }
    }
    if waiting.is_some() {
        return Err(undecodable);
    }
    match within {
        SpaceState::InSlashes => Err(undecodable),
        SpaceState::Between | SpaceState::InHash => Ok(bytes),
    }
}

/// The digit at a byte, if it is one and not inside a comment.
fn hex_digit_at(within: SpaceState, byte: u8) -> Option<u32>
    ensures { result ≡ hex_digit_at within byte }
{
    match within {
        SpaceState::Between => char::from(byte).to_digit(16),
        SpaceState::InSlashes | SpaceState::InHash => None,
    }
}
