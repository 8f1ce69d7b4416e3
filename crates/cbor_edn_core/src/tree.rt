//! Items of a text with the spaces between their tokens.
//!
//! The types are generic in their leaves: optional space `O`, mandatory space `M`, what stands between two entries (a comma,
//! space or both) `C`, the end of a list `E`, numbers `N`, literals `L` and dots `D`. Nearly all of the crate speaks of
//! them at the leaves of a text, as `Item`, `Items` and so on.

mod clone;
mod construct;
mod convert;
mod debug;
mod embed;
mod equal;
pub(crate) mod nesting;

use cbor_edn_model::text::keyword::{NamedSimple, NonFinite};
use cbor_edn_model::text::list_head::ListHeadOf;
pub use cbor_edn_model::text::opener::{Opener, OpenerKind};
pub use cbor_edn_parts::base::indicator::Indicator;
pub use cbor_edn_parts::base::nesting::NESTING_LIMIT;
use cbor_edn_parts::number::Number;
use cbor_edn_parts::space::{ListEnd, MandatorySpace, Separator, Space};
use cbor_edn_parts::string::{Ellipsis, Literal};

/// An item of a text, with the spaces in it and none round it: a number, a keyword, a string, an array, a map, a tag or `simple(..)`.
pub type Item<'a> = ItemOf<
    Space<'a>,
    MandatorySpace<'a>,
    Separator<'a>,
    ListEnd<'a>,
    Number<'a>,
    Literal<'a>,
    Ellipsis<'a>,
>;

/// An item with the spaces and comments round it, as ` [1] # a`: a whole text of one item, or what stands between the parentheses of a
/// tag.
pub type StandaloneItem<'a> = StandaloneItemOf<
    Space<'a>,
    MandatorySpace<'a>,
    Separator<'a>,
    ListEnd<'a>,
    Number<'a>,
    Literal<'a>,
    Ellipsis<'a>,
>;

/// A CBOR sequence (RFC 8742): any number of items, also none, with the spaces round them, as `1, 2 3`.
pub type Sequence<'a> = SequenceOf<
    Space<'a>,
    MandatorySpace<'a>,
    Separator<'a>,
    ListEnd<'a>,
    Number<'a>,
    Literal<'a>,
    Ellipsis<'a>,
>;

/// The forms of items, at the leaves of a text.
pub type InnerItem<'a> = InnerItemOf<
    Space<'a>,
    MandatorySpace<'a>,
    Separator<'a>,
    ListEnd<'a>,
    Number<'a>,
    Literal<'a>,
    Ellipsis<'a>,
>;

/// A string, at the leaves of a text: one piece, or more that plus signs join.
pub type CborString<'a> = CborStringOf<
    Space<'a>,
    MandatorySpace<'a>,
    Separator<'a>,
    ListEnd<'a>,
    Number<'a>,
    Literal<'a>,
    Ellipsis<'a>,
>;

/// A piece of a string, at the leaves of a text, as `'a'` of `'a' + h'62'`.
pub type Piece<'a> = PieceOf<
    Space<'a>,
    MandatorySpace<'a>,
    Separator<'a>,
    ListEnd<'a>,
    Number<'a>,
    Literal<'a>,
    Ellipsis<'a>,
>;

/// A string of indefinite length, at the leaves of a text: what stands between its parentheses, behind the underscore.
pub type Stream<'a> = StreamOf<
    Space<'a>,
    MandatorySpace<'a>,
    Separator<'a>,
    ListEnd<'a>,
    Number<'a>,
    Literal<'a>,
    Ellipsis<'a>,
>;

/// The strings of a stream, at the leaves of a text, with the separators behind them.
pub type Strings<'a> = StringsOf<
    Space<'a>,
    MandatorySpace<'a>,
    Separator<'a>,
    ListEnd<'a>,
    Number<'a>,
    Literal<'a>,
    Ellipsis<'a>,
>;

/// What stands between the brackets of an array, at the leaves of a text.
pub type ItemList<'a> = ItemListOf<
    Space<'a>,
    MandatorySpace<'a>,
    Separator<'a>,
    ListEnd<'a>,
    Number<'a>,
    Literal<'a>,
    Ellipsis<'a>,
>;

/// The items of an array or a sequence, one or more, at the leaves of a text, with the separators behind them.
pub type Items<'a> = ItemsOf<
    Space<'a>,
    MandatorySpace<'a>,
    Separator<'a>,
    ListEnd<'a>,
    Number<'a>,
    Literal<'a>,
    Ellipsis<'a>,
>;

/// A key of a map with its value, at the leaves of a text, and the spaces round the colon.
pub type Pair<'a> = PairOf<
    Space<'a>,
    MandatorySpace<'a>,
    Separator<'a>,
    ListEnd<'a>,
    Number<'a>,
    Literal<'a>,
    Ellipsis<'a>,
>;

/// What stands between the braces of a map, at the leaves of a text.
pub type PairList<'a> = PairListOf<
    Space<'a>,
    MandatorySpace<'a>,
    Separator<'a>,
    ListEnd<'a>,
    Number<'a>,
    Literal<'a>,
    Ellipsis<'a>,
>;

/// The keys of a map with their values, one pair or more, at the leaves of a text, with the separators behind them.
pub type Pairs<'a> = PairsOf<
    Space<'a>,
    MandatorySpace<'a>,
    Separator<'a>,
    ListEnd<'a>,
    Number<'a>,
    Literal<'a>,
    Ellipsis<'a>,
>;

/// An item over any leaves.
#[cycle(tree)]
#[derive(Drop)]
pub struct ItemOf<O: Drop, M: Drop, C: Drop, E: Drop, N: Drop, L: Drop, D: Drop> {
    pub(crate) inner: InnerItemOf<O, M, C, E, N, L, D>,
}

/// The forms of items. Numbers, keywords and strings of one literal stand in the item itself, the parts of any other form behind a pointer.
/// An encoding indicator stands first: there it takes no room of its own.
#[cycle(tree)]
#[derive(Drop)]
pub enum InnerItemOf<O: Drop, M: Drop, C: Drop, E: Drop, N: Drop, L: Drop, D: Drop> {
    /// A number with its encoding indicator.
    Number(Option<Indicator>, N),
    /// A floating-point number that is not finite, with its encoding indicator.
    NonFinite(Option<Indicator>, NonFinite),
    /// A simple value by its name.
    Named(NamedSimple),
    /// An item between parentheses, and what stands in front of them.
    Enclosed(Opener, Box<StandaloneItemOf<O, M, C, E, N, L, D>>),
    /// An array, by what stands between its brackets.
    Array(Box<ItemListOf<O, M, C, E, N, L, D>>),
    /// A map, by what stands between its braces.
    Map(Box<PairListOf<O, M, C, E, N, L, D>>),
    /// A string that is one literal, with its encoding indicator.
    Literal(Option<Indicator>, L),
    /// Any other string that is no stream. One that is a literal alone may stand so too, and is the same string.
    String(Box<CborStringOf<O, M, C, E, N, L, D>>),
    /// A string of indefinite length.
    Stream(Box<StreamOf<O, M, C, E, N, L, D>>),
}

/// A string: one piece or more, all but the last with the space before and the space behind the plus sign that follows.
#[cycle(tree)]
#[derive(Drop)]
pub struct CborStringOf<O: Drop, M: Drop, C: Drop, E: Drop, N: Drop, L: Drop, D: Drop> {
    pub(crate) row: Vec<(PieceOf<O, M, C, E, N, L, D>, O, O)>,
    pub(crate) last: PieceOf<O, M, C, E, N, L, D>,
}

/// A piece of a string.
#[cycle(tree)]
#[derive(Drop)]
pub enum PieceOf<O: Drop, M: Drop, C: Drop, E: Drop, N: Drop, L: Drop, D: Drop> {
    /// A literal with its encoding indicator.
    Literal(Option<Indicator>, L),
    /// What stands in place of a piece that is left out.
    Ellipsis(D),
    /// A sequence, whose encoding is the piece, with the piece's encoding indicator.
    Embedded(Option<Indicator>, Box<SequenceOf<O, M, C, E, N, L, D>>),
}

/// What stands between the parentheses of a string of indefinite length, behind the underscore.
#[cycle(tree)]
#[derive(Drop)]
pub struct StreamOf<O: Drop, M: Drop, C: Drop, E: Drop, N: Drop, L: Drop, D: Drop> {
    pub(crate) space: M,
    pub(crate) strings: StringsOf<O, M, C, E, N, L, D>,
}

/// One string or more: each but the last with the separator behind it, the last with the end of the list.
#[cycle(tree)]
#[derive(Drop)]
pub struct StringsOf<O: Drop, M: Drop, C: Drop, E: Drop, N: Drop, L: Drop, D: Drop> {
    pub(crate) row: Vec<(CborStringOf<O, M, C, E, N, L, D>, C)>,
    pub(crate) last: CborStringOf<O, M, C, E, N, L, D>,
    pub(crate) end: E,
}

/// What stands between the brackets of an array.
#[cycle(tree)]
#[derive(Drop)]
pub enum ItemListOf<O: Drop, M: Drop, C: Drop, E: Drop, N: Drop, L: Drop, D: Drop> {
    /// One item or more, behind the space `space`.
    Present {
        /// The array's encoding indicator and the space behind it.
        head: ListHeadOf<M>,
        space: O,
        items: ItemsOf<O, M, C, E, N, L, D>,
    },
    /// No item: an indicator, if there is one, and space.
    Absent {
        indicator: Option<Indicator>,
        space: O,
    },
}

/// One item or more: each but the last with the separator behind it, the last with the end of the list.
#[cycle(tree)]
#[derive(Drop)]
pub struct ItemsOf<O: Drop, M: Drop, C: Drop, E: Drop, N: Drop, L: Drop, D: Drop> {
    pub(crate) row: Vec<(ItemOf<O, M, C, E, N, L, D>, C)>,
    pub(crate) last: ItemOf<O, M, C, E, N, L, D>,
    pub(crate) end: E,
}

/// A key of a map with its value, and the spaces round the colon between them.
#[cycle(tree)]
#[derive(Drop)]
pub struct PairOf<O: Drop, M: Drop, C: Drop, E: Drop, N: Drop, L: Drop, D: Drop> {
    pub(crate) key: ItemOf<O, M, C, E, N, L, D>,
    pub(crate) before_colon: O,
    pub(crate) after_colon: O,
    pub(crate) value: ItemOf<O, M, C, E, N, L, D>,
}

/// What stands between the braces of a map.
#[cycle(tree)]
#[derive(Drop)]
pub enum PairListOf<O: Drop, M: Drop, C: Drop, E: Drop, N: Drop, L: Drop, D: Drop> {
    /// One pair or more, behind the space `space`.
    Present {
        /// The map's encoding indicator and the space behind it.
        head: ListHeadOf<M>,
        space: O,
        pairs: PairsOf<O, M, C, E, N, L, D>,
    },
    /// No pair: an indicator, if there is one, and space.
    Absent {
        indicator: Option<Indicator>,
        space: O,
    },
}

/// One pair or more: each but the last with the separator behind it, the last with the end of the map.
#[cycle(tree)]
#[derive(Drop)]
pub struct PairsOf<O: Drop, M: Drop, C: Drop, E: Drop, N: Drop, L: Drop, D: Drop> {
    pub(crate) row: Vec<(PairOf<O, M, C, E, N, L, D>, C)>,
    pub(crate) last: PairOf<O, M, C, E, N, L, D>,
    pub(crate) end: E,
}

/// An item with the spaces round it, over any leaves.
#[cycle(tree)]
#[derive(Drop)]
pub struct StandaloneItemOf<O: Drop, M: Drop, C: Drop, E: Drop, N: Drop, L: Drop, D: Drop> {
    pub(crate) before: O,
    pub(crate) item: ItemOf<O, M, C, E, N, L, D>,
    pub(crate) after: O,
}

/// A sequence over any leaves.
#[cycle(tree)]
#[derive(Drop)]
pub struct SequenceOf<O: Drop, M: Drop, C: Drop, E: Drop, N: Drop, L: Drop, D: Drop> {
    pub(crate) before: O,
    pub(crate) items: Option<ItemsOf<O, M, C, E, N, L, D>>,
}
