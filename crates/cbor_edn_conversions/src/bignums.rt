//! The texts of bignums.
ghost use Rattle.std.specs.Prelude.{◌≡◌, ◌<◌, ◌^◌, ◌+◌, IfOk, string_bytes, option_map};
ghost use Rattle.std.specs.Fmt.{signed_decimal};
ghost use Rattle.cbor_edn_conversions.specs.Bignums.{bignum_integer};

use std::alloc::{AllocError, Global};

/// The integer of a bignum in decimal (RFC 8949, section 3.4.3): of tag 2 its number, and of tag 3 the integer that lies one further
/// below zero, as `-1` of 0. None of other tags. Fails where memory runs out.
pub fn bignum_text(alloc: Global, tag: u64, number: u128) -> Result<Option<String>, AllocError>
    requires { tag ≡ 3 → number + 1 < 2 ^ 128 }
    ensures { IfOk result (λ o. option_map string_bytes o ≡ option_map signed_decimal (bignum_integer tag number)) }
{
    match tag {
        2 => Ok(Some(format!(in alloc; "{number}")?)),
        3 => {
            let below = number + 1;
            Ok(Some(format!(in alloc; "-{below}")?))
        }
        _ => Ok(None),
    }
}
