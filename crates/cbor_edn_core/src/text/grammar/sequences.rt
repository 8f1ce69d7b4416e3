//! Items between spaces, alone or several, or none.
ghost use Rattle.std.specs.Prelude.{drop, IfOk};
ghost use Rattle.std.specs.Str.{IsCharBoundary};
ghost use Rattle.cbor_edn_parts.specs.internal.Scans.{Costs};
ghost use Rattle.cbor_edn_parts.specs.internal.Input.{text_bytes};
ghost use Rattle.cbor_edn_core.specs.tree.Borrowed.{BorrowsSequence, BorrowsStandalone};
ghost use Rattle.cbor_edn_model.specs.internal.LookCosts.{a_byte, extra, refused_extra};
ghost use Rattle.cbor_edn_core.specs.internal.ParserResults.{Reads, Lands};
ghost use Rattle.cbor_edn_model.specs.internal.Reading.{reads};
ghost use Rattle.cbor_edn_model.specs.tree.Trees.{Seq, Standalone};
ghost use Rattle.cbor_edn_core.specs.tree.View.{sequence_tree, standalone_tree};

use super::items::item;
use super::lists::items;
use crate::tree::{Sequence, StandaloneItem};
use cbor_edn_model::text::lookahead::closes;
use cbor_edn_parts::base::error::{Fault, Refusal};
use cbor_edn_parts::base::input::Input;
use cbor_edn_parts::base::looks::Looks;
use cbor_edn_parts::space::{space_at, space_behind};
use std::alloc::Global;

/// Items, or none, and the spaces round them.
#[cycle(item)]
#[inline(always)]
pub(crate) fn sequence<'a>(
    alloc: Global,
    text: &Input<'a>,
    from: usize,
    limit: usize,
    looks: &mut Looks,
) -> Result<(Sequence<'a>, usize), Fault<Refusal>>
    requires { IsCharBoundary (text_bytes text.now) from }
    ensures value { Reads sequence_tree (text_bytes text.now) result (reads limit Seq (drop from (text_bytes text.now))) }
    ensures borrowed { IfOk result (λ p. BorrowsSequence p.0) }
    ensures place { Lands (text_bytes text.now) from result }
    ensures cost { Costs a_byte (extra Seq) (refused_extra Seq) (text_bytes text.now) from looks.old.count looks.new.count result }
{
    let (before, at) = space_at(text, from, looks)?;
    if closes(text, at, looks) {
        return Ok((
            Sequence {
                before,
                items: None,
            },
            at,
        ));
    }
    let (items, to) = items(alloc, text, at, limit, looks)?;
    Ok((
        Sequence {
            before,
            items: Some(items),
        },
        to,
    ))
}

/// An item between spaces.
#[cycle(item)]
pub(crate) fn standalone<'a>(
    alloc: Global,
    text: &Input<'a>,
    from: usize,
    limit: usize,
    looks: &mut Looks,
) -> Result<(StandaloneItem<'a>, usize), Fault<Refusal>>
    requires { IsCharBoundary (text_bytes text.now) from }
    ensures value { Reads standalone_tree (text_bytes text.now) result (reads limit Standalone (drop from (text_bytes text.now))) }
    ensures borrowed { IfOk result (λ p. BorrowsStandalone p.0) }
    ensures place { Lands (text_bytes text.now) from result }
    ensures cost { Costs a_byte (extra Standalone) (refused_extra Standalone) (text_bytes text.now) from looks.old.count looks.new.count result }
{
    let (before, at) = space_at(text, from, looks)?;
    let (item, end) = item(alloc, text, at, limit, looks)?;
    let (after, to) = space_behind(text, end, looks)?;
    Ok((
        StandaloneItem {
            before,
            item,
            after,
        },
        to,
    ))
}
