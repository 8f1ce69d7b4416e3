//! The names of COSE messages, of their parts and of their header parameters as comments.
ghost use Rattle.std.specs.Prelude.{◌≡◌, option_map};
ghost use Rattle.cbor_edn_core.specs.visit.Sought.{sought_answer};
ghost use Rattle.cbor_edn_core.specs.tree.View.{item_tree, standalone_tree};
ghost use Rattle.cbor_edn_model.specs.visit.Seeking.{number as tag_arguments};
ghost use Rattle.cbor_edn_conversions.specs.Cose.{called_message, comment_cose};
ghost use Rattle.cbor_edn_application.specs.Comments.{CommentsBy, CommentsInside, CommentsSo, message_reply};

use crate::reply::comment;
use cbor_edn_conversions::tables::{Structure, message};
use cbor_edn_core::tree::{Item, StandaloneItem};
use cbor_edn_parts::base::error::CallbackError;
use parts::comment_parts;
use std::alloc::Global;

mod claims;
mod keys;
mod labels;
mod parts;

pub use claims::annotate_message;
pub(crate) use keys::comment_keys;

/// Answers the name of a COSE message at its tag, 16, 17, 18, 96, 97 or 98, as `COSE_Sign1` of 18 (RFC 9052, section 2), and puts the
/// names of its parts behind them, as `payload`. In both its headers, and in those of each signer and recipient, labels get the names of
/// header parameters (RFC 9052, section 3.1; RFC 8152, section 3.1, for label 7; RFC 9360, section 2), and algorithms theirs (RFC 9053). A
/// protected header has its comments where it is shown as an embedded sequence, as [`crate::show_embedded`] shows it. Other tags stay,
/// without a comment. Where memory runs out some of the comments are there, and the items are as before.
pub fn comment_cose(alloc: Global, tag: u64, item: &mut Item<'_>) -> Result<(), CallbackError>
    ensures { CommentsBy comment_cose (tag_arguments tag) (item_tree item.old) (sought_answer result) (item_tree item.new) }
{
    let Some((name, structure)) = called_message(tag, item) else {
        return Ok(());
    };
    match item.get_tagged_mut() {
        Ok(content) => comment_content(alloc, name, structure, content),
        Err(_) => Ok(()),
    }
}

/// The name and the structure of the message whose tag is the tag of the call.
pub(super) fn called_message(tag: u64, item: &Item<'_>) -> Option<(&'static str, Structure)>
    ensures { option_map (λ p. (p.0.now, p.1)) result ≡ called_message (tag_arguments tag) (item_tree item.now) }
{
    let (number, _) = item.get_tag_head()?;
    if number != tag {
        return None;
    }
    message(i128::from(tag))
}

/// The comments in what stands between the parentheses.
fn comment_content(
    alloc: Global,
    name: &'static str,
    structure: Structure,
    content: &mut StandaloneItem<'_>,
) -> Result<(), CallbackError>
    ensures { CommentsInside (message_reply name.now structure) (standalone_tree content.old) (sought_answer result) (standalone_tree content.new) }
{
    match content.at_mut(&[]) {
        Some(array) => comment_array(alloc, name, structure, array),
        None => Ok(()),
    }
}

/// The comments in the array that the message is. They are followed by the answer, its name.
fn comment_array(
    alloc: Global,
    name: &'static str,
    structure: Structure,
    array: &mut Item<'_>,
) -> Result<(), CallbackError>
    ensures { CommentsSo (message_reply name.now structure) (item_tree array.old) (sought_answer result) (item_tree array.new) }
{
    comment_parts(alloc, usize::MAX, structure, array)?;
    Err(comment(alloc, name))
}
