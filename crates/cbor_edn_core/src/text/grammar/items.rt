//! Items: by what begins them, numbers, keywords, and what stands between parentheses.
ghost use Rattle.std.specs.Prelude.{◌≡◌, ◌+◌, ℕ, None, drop, IfOk};
ghost use Rattle.std.specs.Str.{IsCharBoundary};
ghost use Rattle.cbor_edn_parts.specs.internal.NumberStarts.{IsStart};
ghost use Rattle.cbor_edn_parts.specs.internal.Input.{text_bytes};
ghost use Rattle.cbor_edn_core.specs.tree.Borrowed.{BorrowsItem};
ghost use Rattle.cbor_edn_model.specs.internal.LookCosts.{a_byte, extra, refused_extra, keyword_extra, enclosed_extra, refused_enclosed_extra};
ghost use Rattle.cbor_edn_core.specs.internal.ParserResults.{ReadsEnd, LandsEnd, CostsEnd, CostsEndAhead};
ghost use Rattle.cbor_edn_model.specs.internal.Reading.{reads, number_item, keyword_item, enclosed_item};
ghost use Rattle.cbor_edn_model.specs.tree.Trees.{OneItem};
ghost use Rattle.cbor_edn_core.specs.tree.View.{item_tree};

use super::lists::array_item;
use super::maps::map_item;
use super::sequences::standalone;
use super::strings::{stream_item, string_item};
use crate::tree::{InnerItem, Item, Opener};
use cbor_edn_model::text::keyword::Keyword;
use cbor_edn_model::text::lookahead::{FormStart, form_start_at, is_at, tag_number};
use cbor_edn_parts::base::error::{Fault, Refusal};
use cbor_edn_parts::base::indicator::indicator_at;
use cbor_edn_parts::base::input::Input;
use cbor_edn_parts::base::looks::Looks;
use cbor_edn_parts::number::{NumberStart, number_start};
use cbor_edn_parts::space::ItemEnd;
use std::alloc::Global;

/// An item with what nests at most `limit` deep, and its end.
#[cycle(item)]
pub(super) fn item<'a>(
    alloc: Global,
    text: &Input<'a>,
    from: usize,
    limit: usize,
    looks: &mut Looks,
) -> Result<(Item<'a>, ItemEnd), Fault<Refusal>>
    requires { IsCharBoundary (text_bytes text.now) from }
    ensures value { ReadsEnd item_tree (text_bytes text.now) result (reads limit OneItem (drop from (text_bytes text.now))) }
    ensures borrowed { IfOk result (λ p. BorrowsItem p.0) }
    ensures place { LandsEnd (text_bytes text.now) from result }
    ensures cost { CostsEnd a_byte (extra OneItem) (refused_extra OneItem) (text_bytes text.now) from looks.old.count looks.new.count result }
{
    match form_start_at(text, from, looks) {
        FormStart::Array => array_item(alloc, text, from, limit, looks),
        FormStart::Map => map_item(alloc, text, from, limit, looks),
        FormStart::Stream => stream_item(alloc, text, from, limit, looks),
        FormStart::String => string_item(alloc, text, from, limit, looks),
        FormStart::Keyword(keyword, to) => keyword_item(alloc, text, keyword, to, limit, looks),
        FormStart::Number => {
            let start = number_start(text, from, looks);
            if let Some(number) = start.plain(text, from) {
                return Ok((
                    Item {
                        inner: InnerItem::Number(None, number),
                    },
                    ItemEnd::bare(start.at),
                ));
            }
            number_item(alloc, text, from, start, limit, looks)
        }
    }
}

/// A number with its indicator, where no other item begins; or the tag whose number it is. The beginning of the number is read.
#[cycle(item)]
#[inline(never)]
fn number_item<'a>(
    alloc: Global,
    text: &Input<'a>,
    from: usize,
    start: NumberStart,
    limit: usize,
    looks: &mut Looks,
) -> Result<(Item<'a>, ItemEnd), Fault<Refusal>>
    requires begins { IsCharBoundary (text_bytes text.now) from }
    requires start { IsStart (text_bytes text.now) from start }
    ensures value { ReadsEnd item_tree (text_bytes text.now) result (number_item reads limit (drop from (text_bytes text.now))) }
    ensures borrowed { IfOk result (λ p. BorrowsItem p.0) }
    ensures place { LandsEnd (text_bytes text.now) from result }
    ensures cost { (before : ℕ) → looks.old.count + from ≡ before + start.at + 1 → CostsEndAhead a_byte keyword_extra keyword_extra (text_bytes text.now) from before looks.new.count result }
{
    let (number, at) = start.number(text, from, looks)?;
    let (indicator, to) = indicator_at(text, at, looks);
    if is_at(text, to, b'(', looks) {
        let Some(number) = tag_number(text, from, at, looks) else {
            return Err(Fault::Told(Refusal::invalid(from)));
        };
        return enclosed_item(
            alloc,
            text,
            Opener::tag(number, indicator),
            to,
            limit,
            looks,
        );
    }
    Ok((
        Item {
            inner: InnerItem::Number(indicator, number),
        },
        ItemEnd::bare(to),
    ))
}

/// What stands behind a keyword.
#[cycle(item)]
#[inline(never)]
fn keyword_item<'a>(
    alloc: Global,
    text: &Input<'a>,
    keyword: Keyword,
    from: usize,
    limit: usize,
    looks: &mut Looks,
) -> Result<(Item<'a>, ItemEnd), Fault<Refusal>>
    requires { IsCharBoundary (text_bytes text.now) from }
    ensures value { ReadsEnd item_tree (text_bytes text.now) result (keyword_item reads limit keyword (drop from (text_bytes text.now))) }
    ensures borrowed { IfOk result (λ p. BorrowsItem p.0) }
    ensures place { LandsEnd (text_bytes text.now) from result }
    ensures cost { CostsEnd a_byte keyword_extra keyword_extra (text_bytes text.now) from looks.old.count looks.new.count result }
{
    match keyword {
        Keyword::Named(name) => Ok((
            Item {
                inner: InnerItem::Named(name),
            },
            ItemEnd::bare(from),
        )),
        Keyword::NonFinite(float) => {
            let (indicator, to) = indicator_at(text, from, looks);
            Ok((
                Item {
                    inner: InnerItem::NonFinite(indicator, float),
                },
                ItemEnd::bare(to),
            ))
        }
        Keyword::Simple => enclosed_item(alloc, text, Opener::simple(), from, limit, looks),
    }
}

/// An item between parentheses, behind a label.
#[cycle(item)]
#[inline(never)]
fn enclosed_item<'a>(
    alloc: Global,
    text: &Input<'a>,
    opener: Opener,
    from: usize,
    limit: usize,
    looks: &mut Looks,
) -> Result<(Item<'a>, ItemEnd), Fault<Refusal>>
    requires { IsCharBoundary (text_bytes text.now) from }
    ensures value { ReadsEnd item_tree (text_bytes text.now) result (enclosed_item reads limit opener.kind (drop from (text_bytes text.now))) }
    ensures borrowed { IfOk result (λ p. BorrowsItem p.0) }
    ensures place { LandsEnd (text_bytes text.now) from result }
    ensures cost { CostsEnd a_byte enclosed_extra refused_enclosed_extra (text_bytes text.now) from looks.old.count looks.new.count result }
{
    if !is_at(text, from, b'(', looks) {
        return Err(Fault::Told(Refusal::invalid(from)));
    }
    if limit == 0 {
        return Err(Fault::Told(Refusal::too_deep(from)));
    }
    let (content, to) = standalone(alloc, text, from + 1, limit - 1, looks)?;
    if !is_at(text, to, b')', looks) {
        return Err(Fault::Told(Refusal::invalid(to)));
    }
    let item = Item::enclosed(alloc, opener, content)?;
    Ok((item, ItemEnd::bare(to + 1)))
}
