//! The walk of the visits of tags and of application literals: parts in text order, parents before children.
ghost use Rattle.std.specs.Prelude.{List, [], IsTrue, map};
ghost use Rattle.cbor_edn_model.specs.visit.Seeking.{SoughtCall, VisitEntry, VisitParts};
ghost use Rattle.cbor_edn_model.specs.visit.Visits.{Chain, whole};
ghost use Rattle.cbor_edn_model.specs.internal.Reaching.{SoughtFront, SoughtPieces, VisitIf, VisitKey};
ghost use Rattle.cbor_edn_core.specs.visit.Callbacks.{ending};
ghost use Rattle.cbor_edn_core.specs.tree.View.{seen, seen_pair, seen_piece, seen_string, view_inner, view_item, view_items, view_list, view_pair, view_pair_list, view_pairs, view_piece, view_sequence, view_standalone, view_string, view_strings};

use super::seek::Seek;
use crate::tree::{
    CborStringOf, InnerItemOf, ItemListOf, ItemOf, ItemsOf, OpenerKind, PairListOf, PairOf,
    PairsOf, PieceOf, SequenceOf, StandaloneItemOf, StringsOf,
};
use std::alloc::{AllocError, Global};
use std::marker::PhantomData;

/// A walk over trees of these leaves, which calls `F` at what `K` seeks. No value of it is made: it has the parameters that its
/// functions share.
pub(super) struct Walk<O, M, C, E, N, L, D, F, K> {
    over: PhantomData<(O, M, C, E, N, L, D, F, K)>,
}

impl<
    O: Drop,
    M: Drop,
    C: Drop,
    E: Drop,
    N: Drop,
    L: Drop,
    D: Drop,
    F,
    K: Seek<F, O, M, C, E, N, L, D>,
> Walk<O, M, C, E, N, L, D, F, K> {
    /// What stands in an item.
    #[cycle(visit)]
    fn visit_inner(
        inner: &mut InnerItemOf<O, M, C, E, N, L, D>,
        alloc: Global,
        f: &mut F,
    ) -> Result<(), AllocError>
        requires callable { K.ready f.old }
        ensures callable_after { K.ready f.new }
        ensures visited { (cs : List SoughtCall) × Chain K.calls f.old cs f.new × VisitParts K.sought _ (view_inner K.leaves inner.old) cs (view_inner K.leaves inner.new) (ending result) }
    {
        match inner {
            InnerItemOf::Number(..) => Ok(()),
            InnerItemOf::NonFinite(..) => Ok(()),
            InnerItemOf::Named(_) => Ok(()),
            InnerItemOf::Enclosed(opener, content) => match opener.kind {
                OpenerKind::Tag(..) => Self::visit_standalone(content, alloc, f),
                OpenerKind::Simple => Ok(()),
            },
            InnerItemOf::Array(list) => Self::visit_list(list, alloc, f),
            InnerItemOf::Map(list) => Self::visit_pair_list(list, alloc, f),
            InnerItemOf::Literal(..) => Ok(()),
            InnerItemOf::String(string) => Self::visit_string(string, alloc, f),
            InnerItemOf::Stream(stream) => Self::visit_strings(&mut stream.strings, alloc, f),
        }
    }

    /// What stands in an item that is to be entered. For a leaf, as most items are, no function is called.
    #[cycle(visit)]
    #[inline(always)]
    fn visit_if(
        enters: bool,
        item: &mut ItemOf<O, M, C, E, N, L, D>,
        alloc: Global,
        f: &mut F,
    ) -> Result<(), AllocError>
        requires callable { K.ready f.old }
        ensures callable_after { K.ready f.new }
        ensures visited { (cs : List SoughtCall) × Chain K.calls f.old cs f.new × VisitIf K.sought enters (view_item K.leaves item.old) cs (view_item K.leaves item.new) (ending result) }
    {
        if !enters {
            return Ok(());
        }
        if Self::is_leaf(&item.inner) {
            return Ok(());
        }
        Self::visit_inner(&mut item.inner, alloc, f)
    }

    /// Whether an item is a number, a word or a literal, in which nothing stands.
    #[inline(always)]
    fn is_leaf(inner: &InnerItemOf<O, M, C, E, N, L, D>) -> bool
        ensures { IsTrue result → VisitParts K.sought _ (view_inner K.leaves inner.now) [] (view_inner K.leaves inner.now) whole }
    {
        match inner {
            InnerItemOf::Number(..) => true,
            InnerItemOf::NonFinite(..) => true,
            InnerItemOf::Named(_) => true,
            InnerItemOf::Literal(..) => true,
            _ => false,
        }
    }

    /// An item between spaces.
    #[cycle(visit)]
    pub(super) fn visit_standalone(
        content: &mut StandaloneItemOf<O, M, C, E, N, L, D>,
        alloc: Global,
        f: &mut F,
    ) -> Result<(), AllocError>
        requires callable { K.ready f.old }
        ensures callable_after { K.ready f.new }
        ensures visited { (cs : List SoughtCall) × Chain K.calls f.old cs f.new × VisitParts K.sought _ (view_standalone K.leaves content.old) cs (view_standalone K.leaves content.new) (ending result) }
    {
        let enters = K::call_at_spaced(&mut content.item, &mut content.after, alloc, f)?;
        Self::visit_if(enters, &mut content.item, alloc, f)
    }

    /// The items of a sequence.
    #[cycle(visit)]
    pub(super) fn visit_sequence(
        sequence: &mut SequenceOf<O, M, C, E, N, L, D>,
        alloc: Global,
        f: &mut F,
    ) -> Result<(), AllocError>
        requires callable { K.ready f.old }
        ensures callable_after { K.ready f.new }
        ensures visited { (cs : List SoughtCall) × Chain K.calls f.old cs f.new × VisitParts K.sought _ (view_sequence K.leaves sequence.old) cs (view_sequence K.leaves sequence.new) (ending result) }
    {
        match &mut sequence.items {
            None => Ok(()),
            Some(items) => Self::visit_items(items, alloc, f),
        }
    }

    /// The elements of an array.
    #[cycle(visit)]
    fn visit_list(
        list: &mut ItemListOf<O, M, C, E, N, L, D>,
        alloc: Global,
        f: &mut F,
    ) -> Result<(), AllocError>
        requires callable { K.ready f.old }
        ensures callable_after { K.ready f.new }
        ensures visited { (cs : List SoughtCall) × Chain K.calls f.old cs f.new × VisitParts K.sought _ (view_list K.leaves list.old) cs (view_list K.leaves list.new) (ending result) }
    {
        match list {
            ItemListOf::Present { items, .. } => Self::visit_items(items, alloc, f),
            ItemListOf::Absent { .. } => Ok(()),
        }
    }

    /// Items, the last one with the end of its list.
    #[cycle(visit)]
    fn visit_items(
        items: &mut ItemsOf<O, M, C, E, N, L, D>,
        alloc: Global,
        f: &mut F,
    ) -> Result<(), AllocError>
        requires callable { K.ready f.old }
        ensures callable_after { K.ready f.new }
        ensures visited { (cs : List SoughtCall) × Chain K.calls f.old cs f.new × VisitParts K.sought _ (view_items K.leaves items.old) cs (view_items K.leaves items.new) (ending result) }
    {
        Self::visit_row(&mut items.row, alloc, f)?;
        let enters = K::call_at_last(&mut items.last, &mut items.end, alloc, f)?;
        Self::visit_if(enters, &mut items.last, alloc, f)
    }

    /// Items, each with the separator that follows it.
    #[cycle(visit)]
    fn visit_row(
        row: &mut Vec<(ItemOf<O, M, C, E, N, L, D>, C)>,
        alloc: Global,
        f: &mut F,
    ) -> Result<(), AllocError>
        requires callable { K.ready f.old }
        ensures callable_after { K.ready f.new }
        ensures visited { (cs : List SoughtCall) × Chain K.calls f.old cs f.new × SoughtFront K.sought (map (seen K.leaves) row.old.items) cs (map (seen K.leaves) row.new.items) (ending result) }
    {
        for (item, separator) in row.iter_mut() {
            let enters = K::call_at_separated(item, separator, alloc, f)?;
            Self::visit_if(enters, item, alloc, f)?;
        }
        Ok(())
    }

    /// The pairs of a map.
    #[cycle(visit)]
    fn visit_pair_list(
        list: &mut PairListOf<O, M, C, E, N, L, D>,
        alloc: Global,
        f: &mut F,
    ) -> Result<(), AllocError>
        requires callable { K.ready f.old }
        ensures callable_after { K.ready f.new }
        ensures visited { (cs : List SoughtCall) × Chain K.calls f.old cs f.new × VisitParts K.sought _ (view_pair_list K.leaves list.old) cs (view_pair_list K.leaves list.new) (ending result) }
    {
        match list {
            PairListOf::Present { pairs, .. } => Self::visit_pairs(pairs, alloc, f),
            PairListOf::Absent { .. } => Ok(()),
        }
    }

    /// Pairs, the last one with the end of its list.
    #[cycle(visit)]
    fn visit_pairs(
        pairs: &mut PairsOf<O, M, C, E, N, L, D>,
        alloc: Global,
        f: &mut F,
    ) -> Result<(), AllocError>
        requires callable { K.ready f.old }
        ensures callable_after { K.ready f.new }
        ensures visited { (cs : List SoughtCall) × Chain K.calls f.old cs f.new × VisitParts K.sought _ (view_pairs K.leaves pairs.old) cs (view_pairs K.leaves pairs.new) (ending result) }
    {
        Self::visit_pair_row(&mut pairs.row, alloc, f)?;
        Self::visit_last_pair(&mut pairs.last, &mut pairs.end, alloc, f)
    }

    /// The last pair, with the end of its list.
    #[cycle(visit)]
    fn visit_last_pair(
        pair: &mut PairOf<O, M, C, E, N, L, D>,
        end: &mut E,
        alloc: Global,
        f: &mut F,
    ) -> Result<(), AllocError>
        requires callable { K.ready f.old }
        ensures callable_after { K.ready f.new }
        ensures visited { (cs : List SoughtCall) × Chain K.calls f.old cs f.new × VisitEntry K.sought _ (view_pair K.leaves pair.old) (K.leaves.end end.old) cs (view_pair K.leaves pair.new) (K.leaves.end end.new) (ending result) }
    {
        Self::visit_key(pair, alloc, f)?;
        let enters = K::call_at_last(&mut pair.value, end, alloc, f)?;
        Self::visit_if(enters, &mut pair.value, alloc, f)
    }

    /// The key of a pair, with the space that follows it.
    #[cycle(visit)]
    fn visit_key(
        pair: &mut PairOf<O, M, C, E, N, L, D>,
        alloc: Global,
        f: &mut F,
    ) -> Result<(), AllocError>
        requires callable { K.ready f.old }
        ensures callable_after { K.ready f.new }
        ensures visited { (cs : List SoughtCall) × Chain K.calls f.old cs f.new × VisitKey K.sought (view_pair K.leaves pair.old) cs (view_pair K.leaves pair.new) (ending result) }
    {
        let enters = K::call_at_spaced(&mut pair.key, &mut pair.before_colon, alloc, f)?;
        Self::visit_if(enters, &mut pair.key, alloc, f)
    }

    /// Pairs, each with the separator that follows it.
    #[cycle(visit)]
    fn visit_pair_row(
        row: &mut Vec<(PairOf<O, M, C, E, N, L, D>, C)>,
        alloc: Global,
        f: &mut F,
    ) -> Result<(), AllocError>
        requires callable { K.ready f.old }
        ensures callable_after { K.ready f.new }
        ensures visited { (cs : List SoughtCall) × Chain K.calls f.old cs f.new × SoughtFront K.sought (map (seen_pair K.leaves) row.old.items) cs (map (seen_pair K.leaves) row.new.items) (ending result) }
    {
        for (pair, separator) in row.iter_mut() {
            Self::visit_key(pair, alloc, f)?;
            let enters = K::call_at_separated(&mut pair.value, separator, alloc, f)?;
            Self::visit_if(enters, &mut pair.value, alloc, f)?;
        }
        Ok(())
    }

    /// The pieces of a string.
    #[cycle(visit)]
    fn visit_string(
        string: &mut CborStringOf<O, M, C, E, N, L, D>,
        alloc: Global,
        f: &mut F,
    ) -> Result<(), AllocError>
        requires callable { K.ready f.old }
        ensures callable_after { K.ready f.new }
        ensures visited { (cs : List SoughtCall) × Chain K.calls f.old cs f.new × VisitParts K.sought _ (view_string K.leaves string.old) cs (view_string K.leaves string.new) (ending result) }
    {
        Self::visit_piece_row(&mut string.row, alloc, f)?;
        Self::visit_piece(&mut string.last, alloc, f)
    }

    /// Pieces, each with the plus sign that follows it.
    #[cycle(visit)]
    fn visit_piece_row(
        row: &mut Vec<(PieceOf<O, M, C, E, N, L, D>, O, O)>,
        alloc: Global,
        f: &mut F,
    ) -> Result<(), AllocError>
        requires callable { K.ready f.old }
        ensures callable_after { K.ready f.new }
        ensures visited { (cs : List SoughtCall) × Chain K.calls f.old cs f.new × SoughtPieces K.sought (map (seen_piece K.leaves) row.old.items) cs (map (seen_piece K.leaves) row.new.items) (ending result) }
    {
        for (piece, _, _) in row.iter_mut() {
            Self::visit_piece(piece, alloc, f)?;
        }
        Ok(())
    }

    /// A piece: the items of an embedded sequence.
    #[cycle(visit)]
    fn visit_piece(
        piece: &mut PieceOf<O, M, C, E, N, L, D>,
        alloc: Global,
        f: &mut F,
    ) -> Result<(), AllocError>
        requires callable { K.ready f.old }
        ensures callable_after { K.ready f.new }
        ensures visited { (cs : List SoughtCall) × Chain K.calls f.old cs f.new × VisitParts K.sought _ (view_piece K.leaves piece.old) cs (view_piece K.leaves piece.new) (ending result) }
    {
        match piece {
            PieceOf::Literal(..) => Ok(()),
            PieceOf::Ellipsis(_) => Ok(()),
            PieceOf::Embedded(_, sequence) => Self::visit_sequence(sequence, alloc, f),
        }
    }

    /// The chunks of a stream.
    #[cycle(visit)]
    fn visit_strings(
        strings: &mut StringsOf<O, M, C, E, N, L, D>,
        alloc: Global,
        f: &mut F,
    ) -> Result<(), AllocError>
        requires callable { K.ready f.old }
        ensures callable_after { K.ready f.new }
        ensures visited { (cs : List SoughtCall) × Chain K.calls f.old cs f.new × VisitParts K.sought _ (view_strings K.leaves strings.old) cs (view_strings K.leaves strings.new) (ending result) }
    {
        Self::visit_string_row(&mut strings.row, alloc, f)?;
        Self::visit_string(&mut strings.last, alloc, f)
    }

    /// Chunks, each with the separator that follows it.
    #[cycle(visit)]
    fn visit_string_row(
        row: &mut Vec<(CborStringOf<O, M, C, E, N, L, D>, C)>,
        alloc: Global,
        f: &mut F,
    ) -> Result<(), AllocError>
        requires callable { K.ready f.old }
        ensures callable_after { K.ready f.new }
        ensures visited { (cs : List SoughtCall) × Chain K.calls f.old cs f.new × SoughtFront K.sought (map (seen_string K.leaves) row.old.items) cs (map (seen_string K.leaves) row.new.items) (ending result) }
    {
        for (string, _) in row.iter_mut() {
            Self::visit_string(string, alloc, f)?;
        }
        Ok(())
    }
}
