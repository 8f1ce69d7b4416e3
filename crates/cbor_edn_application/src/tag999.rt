//! Literals as tags of their prefix and their text.
ghost use Rattle.std.specs.Prelude.{◌≡◌, ◌∷◌, [], map, IfOk};
ghost use Rattle.std.specs.String.{string_bytes};
ghost use Rattle.cbor_edn_model.specs.tree.Constructed.{comma_inside};
ghost use Rattle.cbor_edn_core.specs.tree.Constructed.{element_tree};
ghost use Rattle.cbor_edn_core.specs.visit.Sought.{sought_answer};
ghost use Rattle.cbor_edn_core.specs.tree.View.{item_tree};
ghost use Rattle.cbor_edn_model.specs.tree.Items.{Array};
ghost use Rattle.cbor_edn_model.specs.visit.Seeking.{prefix_and_text};
ghost use Rattle.cbor_edn_model.specs.tree.Trees.{ListTree, ElementTree};
ghost use Rattle.cbor_edn_conversions.specs.Tag999.{to_tag999, tag999_tree, text_tree, is_built_in as is_built_in_text};
ghost use Rattle.cbor_edn_application.specs.Acts.{ActsBy};

use cbor_edn_core::tree::{Item, StandaloneItem};
use cbor_edn_parts::base::error::CallbackError;
use cbor_edn_parts::space::policy::DelimiterPolicy;
use std::alloc::{AllocError, Global};

/// Puts `999(["foo", "bar"])` in the place of the literal `foo'bar'`, whose encoding indicator is dropped (tag 999 of
/// draft-ietf-cbor-edn-literals). Literals of the prefixes `h`, `b64`, `b32` and `h32` stay. It fails only where memory runs out, and the
/// item is as before then.
pub fn any_aol_to_tag999<'a>(
    alloc: Global,
    prefix: String,
    text: String,
    item: &mut Item<'a>,
) -> Result<(), CallbackError>
    ensures { ActsBy to_tag999 (prefix_and_text (string_bytes prefix) (string_bytes text)) (item_tree item.old) (sought_answer result) (item_tree item.new) }
{
    if is_built_in(prefix.as_str()) {
        return Ok(());
    }
    *item = tag999(alloc, prefix.as_str(), text.as_str())?;
    Ok(())
}

/// Whether literals mean bytes with this prefix.
pub(crate) fn is_built_in(prefix: &str) -> bool
    ensures { result ≡ is_built_in_text prefix.now }
{
    matches!(prefix, "h" | "b64" | "b32" | "h32")
}

/// `999(["prefix", "text"])`
fn tag999<'a>(alloc: Global, prefix: &str, text: &str) -> Result<Item<'a>, AllocError>
    ensures { IfOk result (λ t. item_tree t ≡ tag999_tree prefix.now text.now) }
{
    let mut content = StandaloneItem::from(text_pair(alloc, prefix, text)?);
    content.set_delimiters(alloc, DelimiterPolicy::SingleLineRegularSpacing)?;
    content.tagged(alloc, 999)
}

/// `["prefix","text"]`
fn text_pair<'a>(alloc: Global, prefix: &str, text: &str) -> Result<Item<'a>, AllocError>
    ensures { IfOk result (λ t. item_tree t ≡ ListTree Array (comma_inside (ElementTree (text_tree prefix.now) ∷ ElementTree (text_tree text.now) ∷ []))) }
{
    let items = texts(alloc, prefix, text)?;
    array_of(alloc, items)
}

/// `"prefix"` and `"text"`
fn texts<'a>(alloc: Global, prefix: &str, text: &str) -> Result<Vec<Item<'a>>, AllocError>
    ensures { IfOk result (λ v. map element_tree v.items ≡ ElementTree (text_tree prefix.now) ∷ ElementTree (text_tree text.now) ∷ []) }
{
    let mut items: Vec<Item<'a>> = Vec::new(alloc);
    items.push(Item::new_text(alloc, prefix)?)?;
    items.push(Item::new_text(alloc, text)?)?;
    Ok(items)
}

/// An array of these items.
fn array_of<'a>(alloc: Global, items: Vec<Item<'a>>) -> Result<Item<'a>, AllocError>
    ensures { IfOk result (λ t. item_tree t ≡ ListTree Array (comma_inside (map element_tree items.entry.items))) }
{
    Item::new_array(alloc, items)
}
