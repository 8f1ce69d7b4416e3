//! Bignums as integers.
ghost use Rattle.std.specs.Prelude.{◌≡◌, ◌≤◌, ℕ, length, option_map, None, Some, Ok, IfOk, IfSome, IfNone};
ghost use Rattle.cbor_edn_core.specs.visit.Sought.{sought_answer};
ghost use Rattle.cbor_edn_core.specs.tree.View.{item_tree};
ghost use Rattle.cbor_edn_model.specs.visit.Seeking.{number as tag_arguments};
ghost use Rattle.cbor_edn_model.specs.tree.Trees.{Tree, OneItem};
ghost use Rattle.cbor_edn_conversions.specs.Conversions.{called_tag, integer_tree};
ghost use Rattle.cbor_edn_conversions.specs.Bignums.{quoted_item_bytes, magnitude, bignum_integer, if_same_integer, integer_of_tag, bignum_of_tag, pretty_bignum};
ghost use Rattle.cbor_edn_application.specs.Acts.{ActsBy};

use crate::same::mean_the_same;
use crate::tags::tag_indicator_and_content;
use cbor_edn_conversions::bignums::bignum_text;
use cbor_edn_core::tree::Item;
use cbor_edn_parts::base::error::{CallbackError, Fault};
use std::alloc::{AllocError, Global};

/// Puts the integer in the place of a bignum, tag 2 or 3 (RFC 8949, section 3.4.3), where both mean the same bytes:
/// `18446744073709551616` for `2(h'010000000000000000')`. Anything else stays, without a comment, and so does the item where memory runs
/// out.
pub fn tag23_to_edn_integer<'a>(
    alloc: Global,
    tag: u64,
    item: &mut Item<'a>,
) -> Result<(), CallbackError>
    ensures { ActsBy pretty_bignum (tag_arguments tag) (item_tree item.old) (sought_answer result) (item_tree item.new) }
{
    let Some(integer) = same_integer(alloc, tag, item)? else {
        return Ok(());
    };
    *item = integer;
    Ok(())
}

/// The integer that means the same bytes as a bignum of this tag.
fn same_integer<'a>(
    alloc: Global,
    tag: u64,
    item: &Item<'a>,
) -> Result<Option<Item<'a>>, AllocError>
    ensures { IfOk result (λ o. bignum_of_tag (called_tag (tag_arguments tag) (item_tree item.now)) ≡ option_map (λ t. Ok (item_tree t)) o) }
{
    let Some(content) = bignum_content(tag, item) else {
        return Ok(None);
    };
    let Some(number) = content_number(alloc, content)? else {
        return Ok(None);
    };
    let Some(integer) = integer_literal(alloc, tag, number)? else {
        return Ok(None);
    };
    if mean_the_same(alloc, item, &integer)? {
        Ok(Some(integer))
    } else {
        Ok(None)
    }
}

/// The content of a tag 2 or 3 of this number, where the tag has no encoding indicator.
fn bignum_content<'t, 'a>(tag: u64, item: &'t Item<'a>) -> Option<&'t Item<'a>>
    ensures some { IfSome result (λ c. called_tag (tag_arguments tag) (item_tree item.now) ≡ Some (tag, None, item_tree c.now)) }
    ensures none { IfNone result (bignum_of_tag (called_tag (tag_arguments tag) (item_tree item.now)) ≡ None) }
{
    if tag != 2 && tag != 3 {
        return None;
    }
    let (indicator, content) = tag_indicator_and_content(tag, item)?;
    if indicator.is_some() {
        return None;
    }
    Some(content)
}

/// The number that the bytes of a content write. There is none of more than 16 bytes: no integer means so many.
fn content_number(alloc: Global, content: &Item<'_>) -> Result<Option<u128>, AllocError>
    ensures some { IfOk result (λ o. IfSome o (λ n. option_map magnitude (quoted_item_bytes (item_tree content.now)) ≡ Some n)) }
    ensures none { IfOk result (λ o. IfNone o ((n : ℕ) → integer_of_tag n (item_tree content.now) (quoted_item_bytes (item_tree content.now)) ≡ None)) }
{
    if !content.is_plain_string() {
        return Ok(None);
    }
    let bytes = match content.get_bytes(alloc) {
        Ok(bytes) => bytes,
        Err(Fault::Told(_)) => return Ok(None),
        Err(Fault::Memory(refused)) => return Err(refused),
    };
    if bytes.len() > 16 {
        return Ok(None);
    }
    Ok(Some(magnitude(&bytes)))
}

/// The number that bytes write, the high byte first.
fn magnitude(bytes: &[u8]) -> u128
    requires { length bytes.now ≤ 16 }
    ensures { result ≡ magnitude bytes.now }
{
    let mut number = 0;
    for byte in bytes {
        number = number * 256 + u128::from(*byte);
    }
    number
}

/// The literal of a bignum's integer. There is none of -2^128, which means nothing.
fn integer_literal<'a>(
    alloc: Global,
    tag: u64,
    number: u128,
) -> Result<Option<Item<'a>>, AllocError>
    ensures some { IfOk result (λ o. IfSome o (λ t. option_map integer_tree (bignum_integer tag number) ≡ Some (item_tree t))) }
    ensures none { IfOk result (λ o. IfNone o ((w : Tree OneItem) → if_same_integer w (bignum_integer tag number) ≡ None)) }
{
    if tag == 3 && number == u128::MAX {
        return Ok(None);
    }
    match bignum_text(alloc, tag, number)? {
        Some(text) => Item::new_number(alloc, &text),
        None => Ok(None),
    }
}
