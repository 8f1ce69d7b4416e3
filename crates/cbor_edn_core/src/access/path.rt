//! Items by paths, over any leaves: the items below an item are counted as they stand in the text.
//!
//! Each function lends one part and hands that on. The checker proves no body that lends by a call of itself, so those that put the steps
//! together, `descend` and `at_mut`, are proved by hand, and every other step stands in a function of its own.
ghost use Rattle.std.specs.Prelude.{◌≡◌, ◌↔◌, ◌<◌, true, Some, suc, drop, map, option_map, length, slice_get};
ghost use Rattle.std.specs.List.{slice_index};
ghost use Rattle.std.specs.Option.{IsSome, is_some};
ghost use Rattle.cbor_edn_model.specs.tree.TreeLeaves.{Ghosts};
ghost use Rattle.cbor_edn_model.specs.access.Paths.{items_in, at as at_path, at_standalone, at_sequence};
ghost use Rattle.cbor_edn_model.specs.internal.Counted.{past_of, is_simple_item, IsCounted};
ghost use Rattle.cbor_edn_core.specs.tree.View.{view_item, view_inner, view_items, view_list, view_pairs, view_pair_list, view_piece, view_string, view_strings, view_stream, view_sequence, view_standalone};
ghost use Rattle.std.specs.Borrow.{sem};
ghost use Rattle.cbor_edn_core.specs.access.Lent.{LendsInner, LendsOfItems, LendsOfPairs, LendsOfList, LendsOfPairList, LendsOfSequence, LendsOfPiece, LendsOfString, LendsOfStrings, LendsOfStream, LendsOfStandalone, LendsOfInner, LendsBelow, LendsAt, LendsAtStandalone, LendsAtSequence};

use crate::tree::{
    CborStringOf, InnerItemOf, ItemListOf, ItemOf, ItemsOf, OpenerKind, PairListOf, PairsOf,
    PieceOf, SequenceOf, StandaloneItemOf, StreamOf, StringsOf,
};

impl<O: Drop, M: Drop, C: Drop, E: Drop, N: Drop, L: Drop, D: Drop> ItemOf<O, M, C, E, N, L, D> {
    /// The item where a path leads, itself where the path is empty: of `[1, {2: 3}]` the path `[1, 1]` leads to 3. A number, from 0, goes
    /// to an element of an array, and 0 to the content of a tag. `2k` and `2k + 1` go to the k-th key of a map and its value, k to the
    /// k-th item of the sequences that are embedded in a string, counted over all its pieces and chunks.
    pub fn at_mut(&mut self, path: &[usize]) -> Option<&mut ItemOf<O, M, C, E, N, L, D>>
        ensures* lent { sem 𝓛 (LendsAt O.row M.row C.row E.row N.row L.row D.row self.entry path.now result) }
        ensures value { (leaves : Ghosts O M C E N L D) → option_map (λ w. view_item leaves w.now) result ≡ at_path path.now (view_item leaves self.old) }
    {
        if is_empty(path) {
            return Some(self);
        }
        let inner = self.inner_mut();
        inner.below_mut(path, 0)
    }

    fn inner_mut(&mut self) -> &mut InnerItemOf<O, M, C, E, N, L, D>
        ensures* lent { sem 𝓛 (LendsInner O.row M.row C.row E.row N.row L.row D.row self.entry result) }
        ensures value { result.now ≡ self.old.inner }
    {
        &mut self.inner
    }
}

impl<O: Drop, M: Drop, C: Drop, E: Drop, N: Drop, L: Drop, D: Drop> StandaloneItemOf<
    O,
    M,
    C,
    E,
    N,
    L,
    D,
> {
    /// The item where a path leads from the item between the spaces, as by [`ItemOf::at_mut`].
    pub fn at_mut(&mut self, path: &[usize]) -> Option<&mut ItemOf<O, M, C, E, N, L, D>>
        ensures* lent { sem 𝓛 (LendsAtStandalone O.row M.row C.row E.row N.row L.row D.row self.entry path.now result) }
        ensures value { (leaves : Ghosts O M C E N L D) → option_map (λ w. view_item leaves w.now) result ≡ at_standalone path.now (view_standalone leaves self.old) }
    {
        let item = &mut self.item;
        if is_empty(path) {
            return Some(item);
        }
        item.inner.below_mut(path, 0)
    }
}

impl<O: Drop, M: Drop, C: Drop, E: Drop, N: Drop, L: Drop, D: Drop> SequenceOf<
    O,
    M,
    C,
    E,
    N,
    L,
    D,
> {
    /// The item where a path leads, of which the first number picks the item, and the others lead on as by [`ItemOf::at_mut`]. An
    /// empty path leads nowhere.
    pub fn at_mut(&mut self, path: &[usize]) -> Option<&mut ItemOf<O, M, C, E, N, L, D>>
        ensures* lent { sem 𝓛 (LendsAtSequence O.row M.row C.row E.row N.row L.row D.row self.entry path.now result) }
        ensures value { (leaves : Ghosts O M C E N L D) → option_map (λ w. view_item leaves w.now) result ≡ at_sequence path.now (view_sequence leaves self.old) }
    {
        if is_empty(path) {
            return None;
        }
        let Some(item) = self.item_mut(path[0]) else {
            return None;
        };
        if is_last(path, 0) {
            return Some(item);
        }
        item.inner.below_mut(path, 1)
    }

    fn item_mut(&mut self, i: usize) -> Option<&mut ItemOf<O, M, C, E, N, L, D>>
        ensures* lent { sem 𝓛 (LendsOfSequence O.row M.row C.row E.row N.row L.row D.row self.entry i result) }
        ensures value { (leaves : Ghosts O M C E N L D) → option_map (λ w. view_item leaves w.now) result ≡ slice_get (items_in (view_sequence leaves self.old)) i }
    {
        match &mut self.items {
            Some(items) => items.item_mut(i),
            None => None,
        }
    }

    /// The number behind these items, unless it is one of theirs.
    fn past(&self, i: usize) -> Option<usize>
        ensures { (leaves : Ghosts O M C E N L D) → result ≡ past_of (length (items_in (view_sequence leaves self.now))) i }
    {
        match &self.items {
            Some(items) => items.past(i),
            None => Some(i),
        }
    }
}

impl<O: Drop, M: Drop, C: Drop, E: Drop, N: Drop, L: Drop, D: Drop> InnerItemOf<
    O,
    M,
    C,
    E,
    N,
    L,
    D,
> {
    /// The item where the path leads from the number at `at` on.
    fn below_mut(&mut self, path: &[usize], at: usize) -> Option<&mut ItemOf<O, M, C, E, N, L, D>>
        requires { at < length path.now }
        ensures* lent { sem 𝓛 (LendsBelow O.row M.row C.row E.row N.row L.row D.row self.entry (drop at path.now) result) }
        ensures value { (leaves : Ghosts O M C E N L D) → option_map (λ w. view_item leaves w.now) result ≡ at_path (drop at path.now) (view_inner leaves self.old) }
    {
        if self.leads(path, at) {
            self.descend(path, at)
        } else {
            None
        }
    }

    /// Whether it leads to an item. The items on the way are lent and change nothing.
    fn leads(&mut self, path: &[usize], at: usize) -> bool
        requires { at < length path.now }
        ensures there { (leaves : Ghosts O M C E N L D) → result ≡ is_some (at_path (drop at path.now) (view_inner leaves self.old)) }
        ensures same { (leaves : Ghosts O M C E N L D) → view_inner leaves self.new ≡ view_inner leaves self.old }
    {
        let Some(item) = self.item_mut(path[at]) else {
            return false;
        };
        if is_last(path, at) {
            return true;
        }
        item.inner.leads(path, at + 1)
    }

    /// The item where it leads, once it is known that it leads to one.
    fn descend(&mut self, path: &[usize], at: usize) -> Option<&mut ItemOf<O, M, C, E, N, L, D>>
        requires { ((leaves : Ghosts O M C E N L D) → IsSome (at_path (drop at path.now) (view_inner leaves self.old))) × (at < length path.now) }
        ensures* lent { sem 𝓛 (LendsBelow O.row M.row C.row E.row N.row L.row D.row self.entry (drop at path.now) result) }
        ensures value { (leaves : Ghosts O M C E N L D) → option_map (λ w. view_item leaves w.now) result ≡ at_path (drop at path.now) (view_inner leaves self.old) }
    {
        let part = self.child_at(path, at);
        let part = there(part);
        if is_last(path, at) {
            return Some(part);
        }
        let inner = part.inner_mut();
        inner.descend(path, at + 1)
    }

    fn child_at(&mut self, path: &[usize], at: usize) -> Option<&mut ItemOf<O, M, C, E, N, L, D>>
        requires { at < length path.now }
        ensures* lent { sem 𝓛 (LendsOfInner O.row M.row C.row E.row N.row L.row D.row self.entry (slice_index path.now at) result) }
        ensures value { (leaves : Ghosts O M C E N L D) → option_map (λ w. view_item leaves w.now) result ≡ slice_get (items_in (view_inner leaves self.old)) (slice_index path.now at) }
    {
        self.item_mut(path[at])
    }

    /// The item below at a number.
    fn item_mut(&mut self, i: usize) -> Option<&mut ItemOf<O, M, C, E, N, L, D>>
        ensures* lent { sem 𝓛 (LendsOfInner O.row M.row C.row E.row N.row L.row D.row self.entry i result) }
        ensures value { (leaves : Ghosts O M C E N L D) → option_map (λ w. view_item leaves w.now) result ≡ slice_get (items_in (view_inner leaves self.old)) i }
    {
        if self.is_simple_item() {
            return None;
        }
        match self {
            InnerItemOf::Number(..)
            | InnerItemOf::NonFinite(..)
            | InnerItemOf::Named(_)
            | InnerItemOf::Literal(..) => None,
            InnerItemOf::Enclosed(_, content) => content.item_mut(i),
            InnerItemOf::Array(list) => list.item_mut(i),
            InnerItemOf::Map(list) => list.item_mut(i),
            InnerItemOf::String(string) => string.item_mut(i),
            InnerItemOf::Stream(stream) => stream.item_mut(i),
        }
    }

    fn is_simple_item(&self) -> bool
        ensures { (leaves : Ghosts O M C E N L D) → result ≡ is_simple_item (view_inner leaves self.now) }
    {
        match self {
            InnerItemOf::Enclosed(opener, _) => match opener.kind {
                OpenerKind::Tag(..) => false,
                OpenerKind::Simple => true,
            },
            _ => false,
        }
    }
}

impl<O: Drop, M: Drop, C: Drop, E: Drop, N: Drop, L: Drop, D: Drop> StandaloneItemOf<
    O,
    M,
    C,
    E,
    N,
    L,
    D,
> {
    fn item_mut(&mut self, i: usize) -> Option<&mut ItemOf<O, M, C, E, N, L, D>>
        ensures* lent { sem 𝓛 (LendsOfStandalone O.row M.row C.row E.row N.row L.row D.row self.entry i result) }
        ensures value { (leaves : Ghosts O M C E N L D) → option_map (λ w. view_item leaves w.now) result ≡ slice_get (items_in (view_standalone leaves self.old)) i }
    {
        if i == 0 { Some(&mut self.item) } else { None }
    }
}

impl<O: Drop, M: Drop, C: Drop, E: Drop, N: Drop, L: Drop, D: Drop> ItemListOf<
    O,
    M,
    C,
    E,
    N,
    L,
    D,
> {
    fn item_mut(&mut self, i: usize) -> Option<&mut ItemOf<O, M, C, E, N, L, D>>
        ensures* lent { sem 𝓛 (LendsOfList O.row M.row C.row E.row N.row L.row D.row self.entry i result) }
        ensures value { (leaves : Ghosts O M C E N L D) → option_map (λ w. view_item leaves w.now) result ≡ slice_get (items_in (view_list leaves self.old)) i }
    {
        match self {
            ItemListOf::Present { items, .. } => items.item_mut(i),
            ItemListOf::Absent { .. } => None,
        }
    }
}

impl<O: Drop, M: Drop, C: Drop, E: Drop, N: Drop, L: Drop, D: Drop> PairListOf<
    O,
    M,
    C,
    E,
    N,
    L,
    D,
> {
    fn item_mut(&mut self, i: usize) -> Option<&mut ItemOf<O, M, C, E, N, L, D>>
        ensures* lent { sem 𝓛 (LendsOfPairList O.row M.row C.row E.row N.row L.row D.row self.entry i result) }
        ensures value { (leaves : Ghosts O M C E N L D) → option_map (λ w. view_item leaves w.now) result ≡ slice_get (items_in (view_pair_list leaves self.old)) i }
    {
        match self {
            PairListOf::Present { pairs, .. } => pairs.item_mut(i),
            PairListOf::Absent { .. } => None,
        }
    }
}

impl<O: Drop, M: Drop, C: Drop, E: Drop, N: Drop, L: Drop, D: Drop> ItemsOf<O, M, C, E, N, L, D> {
    fn item_mut(&mut self, i: usize) -> Option<&mut ItemOf<O, M, C, E, N, L, D>>
        ensures* lent { sem 𝓛 (LendsOfItems O.row M.row C.row E.row N.row L.row D.row self.entry i result) }
        ensures value { (leaves : Ghosts O M C E N L D) → option_map (λ w. view_item leaves w.now) result ≡ slice_get (items_in (view_items leaves self.old)) i }
    {
        if i < self.row.len() {
            let entry = &mut self.row[i];
            return Some(&mut entry.0);
        }
        if i == self.row.len() {
            return Some(&mut self.last);
        }
        None
    }

    fn past(&self, i: usize) -> Option<usize>
        ensures { (leaves : Ghosts O M C E N L D) → result ≡ past_of (length (items_in (view_items leaves self.now))) i }
    {
        if i > self.row.len() {
            Some(i - self.row.len() - 1)
        } else {
            None
        }
    }
}

impl<O: Drop, M: Drop, C: Drop, E: Drop, N: Drop, L: Drop, D: Drop> PairsOf<O, M, C, E, N, L, D> {
    fn item_mut(&mut self, i: usize) -> Option<&mut ItemOf<O, M, C, E, N, L, D>>
        ensures* lent { sem 𝓛 (LendsOfPairs O.row M.row C.row E.row N.row L.row D.row self.entry i result) }
        ensures value { (leaves : Ghosts O M C E N L D) → option_map (λ w. view_item leaves w.now) result ≡ slice_get (items_in (view_pairs leaves self.old)) i }
    {
        let place = i / 2;
        if place < self.row.len() {
            let entry = &mut self.row[place];
            let pair = &mut entry.0;
            if i % 2 == 0 {
                return Some(&mut pair.key);
            }
            return Some(&mut pair.value);
        }
        if place == self.row.len() {
            let pair = &mut self.last;
            if i % 2 == 0 {
                return Some(&mut pair.key);
            }
            return Some(&mut pair.value);
        }
        None
    }
}

impl<O: Drop, M: Drop, C: Drop, E: Drop, N: Drop, L: Drop, D: Drop> PieceOf<O, M, C, E, N, L, D> {
    fn item_mut(&mut self, i: usize) -> Option<&mut ItemOf<O, M, C, E, N, L, D>>
        ensures* lent { sem 𝓛 (LendsOfPiece O.row M.row C.row E.row N.row L.row D.row self.entry i result) }
        ensures value { (leaves : Ghosts O M C E N L D) → option_map (λ w. view_item leaves w.now) result ≡ slice_get (items_in (view_piece leaves self.old)) i }
    {
        match self {
            PieceOf::Literal(..) | PieceOf::Ellipsis(_) => None,
            PieceOf::Embedded(_, sequence) => sequence.item_mut(i),
        }
    }

    fn past(&self, i: usize) -> Option<usize>
        ensures { (leaves : Ghosts O M C E N L D) → result ≡ past_of (length (items_in (view_piece leaves self.now))) i }
    {
        match self {
            PieceOf::Literal(..) | PieceOf::Ellipsis(_) => Some(i),
            PieceOf::Embedded(_, sequence) => sequence.past(i),
        }
    }
}

impl<O: Drop, M: Drop, C: Drop, E: Drop, N: Drop, L: Drop, D: Drop> CborStringOf<
    O,
    M,
    C,
    E,
    N,
    L,
    D,
> {
    fn item_mut(&mut self, i: usize) -> Option<&mut ItemOf<O, M, C, E, N, L, D>>
        ensures* lent { sem 𝓛 (LendsOfString O.row M.row C.row E.row N.row L.row D.row self.entry i result) }
        ensures value { (leaves : Ghosts O M C E N L D) → option_map (λ w. view_item leaves w.now) result ≡ slice_get (items_in (view_string leaves self.old)) i }
    {
        let (place, left) = piece_at(&self.row, i);
        if place < self.row.len() {
            let entry = &mut self.row[place];
            return entry.0.item_mut(left);
        }
        self.last.item_mut(left)
    }

    fn past(&self, i: usize) -> Option<usize>
        ensures { (leaves : Ghosts O M C E N L D) → result ≡ past_of (length (items_in (view_string leaves self.now))) i }
    {
        let (place, left) = piece_at(&self.row, i);
        if place < self.row.len() {
            return None;
        }
        self.last.past(left)
    }
}

impl<O: Drop, M: Drop, C: Drop, E: Drop, N: Drop, L: Drop, D: Drop> StringsOf<O, M, C, E, N, L, D> {
    fn item_mut(&mut self, i: usize) -> Option<&mut ItemOf<O, M, C, E, N, L, D>>
        ensures* lent { sem 𝓛 (LendsOfStrings O.row M.row C.row E.row N.row L.row D.row self.entry i result) }
        ensures value { (leaves : Ghosts O M C E N L D) → option_map (λ w. view_item leaves w.now) result ≡ slice_get (items_in (view_strings leaves self.old)) i }
    {
        let (place, left) = string_at(&self.row, i);
        if place < self.row.len() {
            let entry = &mut self.row[place];
            return entry.0.item_mut(left);
        }
        self.last.item_mut(left)
    }
}

impl<O: Drop, M: Drop, C: Drop, E: Drop, N: Drop, L: Drop, D: Drop> StreamOf<O, M, C, E, N, L, D> {
    fn item_mut(&mut self, i: usize) -> Option<&mut ItemOf<O, M, C, E, N, L, D>>
        ensures* lent { sem 𝓛 (LendsOfStream O.row M.row C.row E.row N.row L.row D.row self.entry i result) }
        ensures value { (leaves : Ghosts O M C E N L D) → option_map (λ w. view_item leaves w.now) result ≡ slice_get (items_in (view_stream leaves self.old)) i }
    {
        self.strings.item_mut(i)
    }
}

/// Where an item's number leads in pieces: the number of the piece, or how many there are, and the item's number from there on.
fn piece_at<O: Drop, M: Drop, C: Drop, E: Drop, N: Drop, L: Drop, D: Drop>(
    row: &[(PieceOf<O, M, C, E, N, L, D>, O, O)],
    i: usize,
) -> (usize, usize)
    ensures { (leaves : Ghosts O M C E N L D) → IsCounted (map (λ p. length (items_in (view_piece leaves p.0))) row.now) i result }
{
    let mut left = i;
    let mut place = 0;
    'pieces: while place < row.len() {
        match row[place].0.past(left) {
            Some(rest) => left = rest,
            None => return (place, left),
        }
        place += 1;
    }
    (place, left)
}

/// Where an item's number leads in strings: the number of the string, or how many there are, and the item's number from there on.
fn string_at<O: Drop, M: Drop, C: Drop, E: Drop, N: Drop, L: Drop, D: Drop>(
    row: &[(CborStringOf<O, M, C, E, N, L, D>, C)],
    i: usize,
) -> (usize, usize)
    ensures { (leaves : Ghosts O M C E N L D) → IsCounted (map (λ p. length (items_in (view_string leaves p.0))) row.now) i result }
{
    let mut left = i;
    let mut place = 0;
    'strings: while place < row.len() {
        match row[place].0.past(left) {
            Some(rest) => left = rest,
            None => return (place, left),
        }
        place += 1;
    }
    (place, left)
}

fn is_empty(path: &[usize]) -> bool
    ensures { (result ≡ true) ↔ (length path.now ≡ 0) }
{
    path.len() == 0
}

/// Whether a number of a path is its last.
fn is_last(path: &[usize], at: usize) -> bool
    requires { at < length path.now }
    ensures { (result ≡ true) ↔ (suc at ≡ length path.now) }
{
    at + 1 == path.len()
}

/// The item that is lent, where one is.
fn there<O: Drop, M: Drop, C: Drop, E: Drop, N: Drop, L: Drop, D: Drop>(
    part: Option<&mut ItemOf<O, M, C, E, N, L, D>>,
) -> &mut ItemOf<O, M, C, E, N, L, D>
    requires { IsSome part }
    ensures { part.entry ≡ Some result }
{
    part.unwrap()
}
