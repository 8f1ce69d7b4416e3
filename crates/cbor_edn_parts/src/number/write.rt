//! Numbers that are made from integers and from texts.
ghost use Rattle.std.specs.Prelude.{◌≡◌, IfOk, IfSome, None};
ghost use Rattle.std.specs.Fmt.{signed_decimal};
ghost use Rattle.cbor_edn_parts.specs.number.Number.{IsNumber};
ghost use Rattle.cbor_edn_parts.specs.internal.NumberTokens as tokens;
ghost use Rattle.cbor_edn_parts.specs.Leaves.{number_bytes, small_integer};
ghost use Rattle.cbor_edn_parts.specs.Written.{hexadecimal_text};

use super::{Number, NumberState, SmallInteger};
use crate::base::leaf_text::LeafText;
use crate::base::scan::State;
use std::alloc::{AllocError, Global};

impl<'a> Number<'a> {
    /// The integer in decimal, as `-16`. Fails where memory runs out.
    pub fn signed(alloc: Global, integer: i128) -> Result<Number<'a>, AllocError>
        ensures { IfOk result (λ t. number_bytes t ≡ signed_decimal integer) }
    {
        let text = LeafText::joined(alloc, "", itoa::Buffer::new().format(integer))?;
        Ok(Number { text })
    }

    /// An integer that a head of CBOR holds in decimal, which takes no memory.
    pub fn small(integer: SmallInteger) -> Number<'a>
        ensures { number_bytes result ≡ signed_decimal (small_integer integer) }
    {
        let text = integer.decimal();
        Number { text }
    }

    /// The integer behind `0x`, in lower case without leading zeros, as `0x1f`. Fails where memory runs out.
    pub fn hexadecimal(alloc: Global, integer: u64) -> Result<Number<'a>, AllocError>
        ensures { IfOk result (λ t. number_bytes t ≡ hexadecimal_text integer) }
    {
        let text = format!(in alloc; "0x{integer:x}")?;
        let text = LeafText::own(alloc, text)?;
        Ok(Number { text })
    }

    /// The number that is written so, or none where the text is no number of the grammar. Fails where memory runs out, which a
    /// text of at most 22 bytes doesn't need.
    pub fn written(alloc: Global, text: &str) -> Result<Option<Number<'a>>, AllocError>
        ensures some { IfOk result (λ o. IfSome o (λ n. number_bytes n ≡ text.now)) }
        ensures none { IfOk result (λ o. o ≡ None → IsNumber text.now → ⊥) }
    {
        if !is_number(text) {
            return Ok(None);
        }
        let text = LeafText::joined(alloc, "", text)?;
        Ok(Some(Number { text }))
    }
}

/// Whether the text is a number of the grammar.
fn is_number(text: &str) -> bool
    ensures { result ≡ tokens.is_number text.now }
{
    let mut state = NumberState::Start;
    for byte in text.as_bytes() {
        match state.step(*byte) {
            Some(next) => state = next,
            None => return false,
        }
    }
    state.is_final()
}
