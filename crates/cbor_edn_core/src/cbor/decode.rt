//! Items from their CBOR encoding.
ghost use Rattle.std.specs.Prelude.{◌≡◌, ◌≢◌, ℕ, List, IfOk};
ghost use Rattle.cbor_edn_model.specs.tree.Trees.{Tree, OneItem};
ghost use Rattle.cbor_edn_core.specs.tree.View.{item_tree, standalone_tree, sequence_tree};
ghost use Rattle.cbor_edn_model.specs.cbor.Value.{Enc};
ghost use Rattle.cbor_edn_parts.specs.base.Refusals.{IfTold};
ghost use Rattle.cbor_edn_model.specs.cbor.Decoded.{BeginsWith, IsDecoded, IsDecodedSequence, NoneIs, IsTooDeepEncoding, NoSequence, IsTooDeepSequence, alone};

use crate::tree::{Item, NESTING_LIMIT, Sequence, StandaloneItem};
pub use cbor_edn_model::cbor::decode::CborError;
use cbor_edn_model::cbor::decode::head::Stop;
use cbor_edn_parts::base::error::Fault;
use cbor_edn_parts::space::Space;
use finish::finish_items;
pub use reader::decode_item;
use reader::decode_items_until;
use std::alloc::Global;

mod finish;
mod reader;
mod row_builder;
mod special;
mod strings;

impl<'a> Item<'a> {
    /// The item that the bytes encode, with the spaces of a single line: nested at most [`NESTING_LIMIT`] deep. Fails where the bytes are
    /// not one such item, and where memory runs out.
    pub fn from_cbor(alloc: Global, bytes: &[u8]) -> Result<Item<'a>, Fault<CborError>>
        ensures accepted { IfOk result (λ t. IsDecoded NESTING_LIMIT (Enc bytes.now) (item_tree t)) }
        ensures refused { IfTold result (λ e. e ≢ CborError.TooDeep → NoneIs (Enc bytes.now)) }
        ensures too_deep { IfTold result (λ e. e ≡ CborError.TooDeep → IsTooDeepEncoding NESTING_LIMIT bytes.now (Enc bytes.now)) }
    {
        Item::from_cbor_within(alloc, bytes, NESTING_LIMIT)
    }

    /// The item that the bytes encode, with the spaces of a single line: arrays, maps, tags and `simple(..)` may nest `limit` deep. Fails
    /// as [`Item::from_cbor`] does. The stack has to hold that many levels.
    pub fn from_cbor_within(
        alloc: Global,
        bytes: &[u8],
        limit: usize,
    ) -> Result<Item<'a>, Fault<CborError>>
        ensures accepted { IfOk result (λ t. IsDecoded limit (Enc bytes.now) (item_tree t)) }
        ensures refused { IfTold result (λ e. e ≢ CborError.TooDeep → NoneIs (Enc bytes.now)) }
        ensures too_deep { IfTold result (λ e. e ≡ CborError.TooDeep → IsTooDeepEncoding limit bytes.now (Enc bytes.now)) }
    {
        let (item, rest) = decode_item(alloc, bytes, limit)?;
        if rest.is_empty() {
            Ok(item)
        } else {
            Err(Fault::Told(CborError::DataAfter))
        }
    }

    /// The item that the bytes begin with, nested at most [`NESTING_LIMIT`] deep, and the bytes behind it. Fails where they begin with no
    /// such item, and where memory runs out.
    pub fn from_cbor_with_rest(
        alloc: Global,
        bytes: &[u8],
    ) -> Result<(Item<'a>, &[u8]), Fault<CborError>>
        ensures accepted { IfOk result (λ x. IsDecoded NESTING_LIMIT (BeginsWith bytes.now x.1.now) (item_tree x.0)) }
        ensures refused { IfTold result (λ e. e ≢ CborError.TooDeep → NoneIs (λ v. (rest : List ℕ) × BeginsWith bytes.now rest v)) }
        ensures too_deep { IfTold result (λ e. e ≡ CborError.TooDeep → IsTooDeepEncoding NESTING_LIMIT bytes.now (λ v. (rest : List ℕ) × BeginsWith bytes.now rest v)) }
    {
        Item::from_cbor_with_rest_within(alloc, bytes, NESTING_LIMIT)
    }

    /// The item that the bytes begin with, and the bytes behind it: arrays, maps, tags and `simple(..)` may nest `limit` deep. Fails as
    /// [`Item::from_cbor_with_rest`] does. The stack has to hold that many levels.
    pub fn from_cbor_with_rest_within(
        alloc: Global,
        bytes: &[u8],
        limit: usize,
    ) -> Result<(Item<'a>, &[u8]), Fault<CborError>>
        ensures accepted { IfOk result (λ x. IsDecoded limit (BeginsWith bytes.now x.1.now) (item_tree x.0)) }
        ensures refused { IfTold result (λ e. e ≢ CborError.TooDeep → NoneIs (λ v. (rest : List ℕ) × BeginsWith bytes.now rest v)) }
        ensures too_deep { IfTold result (λ e. e ≡ CborError.TooDeep → IsTooDeepEncoding limit bytes.now (λ v. (rest : List ℕ) × BeginsWith bytes.now rest v)) }
    {
        decode_item(alloc, bytes, limit)
    }
}

impl<'a> StandaloneItem<'a> {
    /// The item that the bytes encode, with the spaces of a single line and none round it: nested at most [`NESTING_LIMIT`] deep. Fails
    /// where the bytes are not one such item, and where memory runs out.
    pub fn from_cbor(alloc: Global, bytes: &[u8]) -> Result<StandaloneItem<'a>, Fault<CborError>>
        ensures accepted { IfOk result (λ t. (w : Tree OneItem) × IsDecoded NESTING_LIMIT (Enc bytes.now) w × (standalone_tree t ≡ alone w)) }
        ensures refused { IfTold result (λ e. e ≢ CborError.TooDeep → NoneIs (Enc bytes.now)) }
        ensures too_deep { IfTold result (λ e. e ≡ CborError.TooDeep → IsTooDeepEncoding NESTING_LIMIT bytes.now (Enc bytes.now)) }
    {
        StandaloneItem::from_cbor_within(alloc, bytes, NESTING_LIMIT)
    }

    /// The item that the bytes encode, with no space round it: arrays, maps, tags and `simple(..)` may nest `limit` deep. Fails as
    /// [`StandaloneItem::from_cbor`] does. The stack has to hold that many levels.
    pub fn from_cbor_within(
        alloc: Global,
        bytes: &[u8],
        limit: usize,
    ) -> Result<StandaloneItem<'a>, Fault<CborError>>
        ensures accepted { IfOk result (λ t. (w : Tree OneItem) × IsDecoded limit (Enc bytes.now) w × (standalone_tree t ≡ alone w)) }
        ensures refused { IfTold result (λ e. e ≢ CborError.TooDeep → NoneIs (Enc bytes.now)) }
        ensures too_deep { IfTold result (λ e. e ≡ CborError.TooDeep → IsTooDeepEncoding limit bytes.now (Enc bytes.now)) }
    {
        let item = Item::from_cbor_within(alloc, bytes, limit)?;
        Ok(StandaloneItem::from(item))
    }

    /// The item that the bytes begin with, with no space round it and nested at most [`NESTING_LIMIT`] deep, and the bytes behind it.
    /// Fails where they begin with no such item, and where memory runs out.
    pub fn from_cbor_with_rest(
        alloc: Global,
        bytes: &[u8],
    ) -> Result<(StandaloneItem<'a>, &[u8]), Fault<CborError>>
        ensures accepted { IfOk result (λ x. (w : Tree OneItem) × IsDecoded NESTING_LIMIT (BeginsWith bytes.now x.1.now) w × (standalone_tree x.0 ≡ alone w)) }
        ensures refused { IfTold result (λ e. e ≢ CborError.TooDeep → NoneIs (λ v. (rest : List ℕ) × BeginsWith bytes.now rest v)) }
        ensures too_deep { IfTold result (λ e. e ≡ CborError.TooDeep → IsTooDeepEncoding NESTING_LIMIT bytes.now (λ v. (rest : List ℕ) × BeginsWith bytes.now rest v)) }
    {
        StandaloneItem::from_cbor_with_rest_within(alloc, bytes, NESTING_LIMIT)
    }

    /// The item that the bytes begin with, with no space round it, and the bytes behind it: arrays, maps, tags and `simple(..)` may nest
    /// `limit` deep. Fails as [`StandaloneItem::from_cbor_with_rest`] does. The stack has to hold that many levels.
    pub fn from_cbor_with_rest_within(
        alloc: Global,
        bytes: &[u8],
        limit: usize,
    ) -> Result<(StandaloneItem<'a>, &[u8]), Fault<CborError>>
        ensures accepted { IfOk result (λ x. (w : Tree OneItem) × IsDecoded limit (BeginsWith bytes.now x.1.now) w × (standalone_tree x.0 ≡ alone w)) }
        ensures refused { IfTold result (λ e. e ≢ CborError.TooDeep → NoneIs (λ v. (rest : List ℕ) × BeginsWith bytes.now rest v)) }
        ensures too_deep { IfTold result (λ e. e ≡ CborError.TooDeep → IsTooDeepEncoding limit bytes.now (λ v. (rest : List ℕ) × BeginsWith bytes.now rest v)) }
    {
        let (item, rest) = Item::from_cbor_with_rest_within(alloc, bytes, limit)?;
        Ok((StandaloneItem::from(item), rest))
    }
}

impl<'a> Sequence<'a> {
    /// The items whose encodings the bytes are, one behind the other (RFC 8742), with the spaces of a single line: each nested at most
    /// [`NESTING_LIMIT`] deep. Without bytes there are none. Fails where the bytes are no such items, and where memory runs out.
    pub fn from_cbor(alloc: Global, bytes: &[u8]) -> Result<Sequence<'a>, Fault<CborError>>
        ensures accepted { IfOk result (λ t. IsDecodedSequence NESTING_LIMIT bytes.now (sequence_tree t)) }
        ensures refused { IfTold result (λ e. e ≢ CborError.TooDeep → NoSequence bytes.now) }
        ensures too_deep { IfTold result (λ e. e ≡ CborError.TooDeep → IsTooDeepSequence NESTING_LIMIT bytes.now) }
    {
        Sequence::from_cbor_within(alloc, bytes, NESTING_LIMIT)
    }

    /// The items whose encodings the bytes are, with the spaces of a single line: arrays, maps, tags and `simple(..)` may nest `limit`
    /// deep. Fails as [`Sequence::from_cbor`] does. The stack has to hold that many levels.
    pub fn from_cbor_within(
        alloc: Global,
        bytes: &[u8],
        limit: usize,
    ) -> Result<Sequence<'a>, Fault<CborError>>
        ensures accepted { IfOk result (λ t. IsDecodedSequence limit bytes.now (sequence_tree t)) }
        ensures refused { IfTold result (λ e. e ≢ CborError.TooDeep → NoSequence bytes.now) }
        ensures too_deep { IfTold result (λ e. e ≡ CborError.TooDeep → IsTooDeepSequence limit bytes.now) }
    {
        let (found, _) = decode_items_until(alloc, bytes, limit, Stop::EndOfData)?;
        Ok(Sequence {
            before: Space::empty(),
            items: finish_items(found),
        })
    }
}
