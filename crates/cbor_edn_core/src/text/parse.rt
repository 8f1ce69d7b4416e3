//! The public calls that read a text.
ghost use Rattle.std.specs.Prelude.{◌≤◌, ◌+◌, ◌*◌, length, IfOk, IfErr, OnOk};
ghost use Rattle.cbor_edn_core.specs.tree.Borrowed.{BorrowsSequence, BorrowsStandalone};
ghost use Rattle.cbor_edn_parts.specs.internal.Input.{text_bytes};
ghost use Rattle.cbor_edn_model.specs.internal.LookCosts.{a_byte, text_extra};
ghost use Rattle.cbor_edn_core.specs.internal.ParserResults.{Gives, IsPlaced};
ghost use Rattle.cbor_edn_model.specs.internal.Reading.{reads_all};
ghost use Rattle.cbor_edn_model.specs.text.Parsing.{Unparsed};
ghost use Rattle.cbor_edn_core.specs.text.Parsing.{ParsedSequence, ParsedStandalone};
ghost use Rattle.cbor_edn_parts.specs.base.Refusals.{IfTold};
ghost use Rattle.cbor_edn_model.specs.text.Spelling.{SpellsOne, SpellsSequence};
ghost use Rattle.cbor_edn_model.specs.tree.Trees.{Seq, Standalone};
ghost use Rattle.cbor_edn_core.specs.tree.View.{sequence_tree, standalone_tree};

use crate::text::grammar::{sequence, standalone};
use crate::tree::{NESTING_LIMIT, Sequence, StandaloneItem};
use cbor_edn_model::text::lookahead::ends;
use cbor_edn_parts::base::error::{Fault, ParseError, Refusal};
use cbor_edn_parts::base::input::Input;
use cbor_edn_parts::base::location::with_location;
use cbor_edn_parts::base::looks::Looks;
use std::alloc::Global;

impl<'a> Sequence<'a> {
    /// The items of a text, with their spaces: what nests may do so [`NESTING_LIMIT`] deep. Nothing of the text is copied. Fails where it
    /// is no sequence of the grammar or nests deeper, and where memory runs out.
    pub fn parse(alloc: Global, input: &'a str) -> Result<Sequence<'a>, Fault<ParseError>>
        ensures parsed { IfOk result (ParsedSequence NESTING_LIMIT input.now) }
        ensures refused { IfTold result (Unparsed SpellsSequence NESTING_LIMIT input.now) }
    {
        Sequence::parse_within(alloc, input, NESTING_LIMIT)
    }

    /// The items of a text, with their spaces: what nests may do so `limit` deep. The stack has to hold that many levels, of about 2 KB
    /// each. Fails as [`Sequence::parse`] does.
    pub fn parse_within(
        alloc: Global,
        input: &'a str,
        limit: usize,
    ) -> Result<Sequence<'a>, Fault<ParseError>>
        ensures parsed { IfOk result (ParsedSequence limit input.now) }
        ensures refused { IfTold result (Unparsed SpellsSequence limit input.now) }
    {
        Sequence::parse_looking(alloc, input, limit, &mut Looks::new())
    }

    /// The items of a text, as [`Sequence::parse`] reads them, and the reads of its bytes counted: at most 16 for each byte of the text
    /// and 16 more. Only proofs see the count.
    pub fn parse_counted(
        alloc: Global,
        input: &'a str,
        looks: &mut Looks,
    ) -> Result<Sequence<'a>, Fault<ParseError>>
        ensures parsed { IfOk result (ParsedSequence NESTING_LIMIT input.now) }
        ensures refused { IfTold result (Unparsed SpellsSequence NESTING_LIMIT input.now) }
        ensures most { looks.new.count ≤ looks.old.count + 16 * length input.now + 16 }
        ensures least { OnOk result (looks.old.count + length input.now ≤ looks.new.count) }
        ensures no_fewer { looks.old.count ≤ looks.new.count }
    {
        Sequence::parse_looking(alloc, input, NESTING_LIMIT, looks)
    }

    fn parse_looking(
        alloc: Global,
        input: &'a str,
        limit: usize,
        looks: &mut Looks,
    ) -> Result<Sequence<'a>, Fault<ParseError>>
        ensures parsed { IfOk result (ParsedSequence limit input.now) }
        ensures refused { IfTold result (Unparsed SpellsSequence limit input.now) }
        ensures most { looks.new.count ≤ looks.old.count + 16 * length input.now + 16 }
        ensures least { OnOk result (looks.old.count + length input.now ≤ looks.new.count) }
        ensures no_fewer { looks.old.count ≤ looks.new.count }
    {
        let text = Input::new(input);
        match whole_sequence(alloc, &text, limit, looks) {
            Ok(sequence) => Ok(sequence),
            Err(Fault::Memory(refused)) => Err(Fault::Memory(refused)),
            Err(Fault::Told(refusal)) => Err(Fault::Told(with_location(&text, refusal, looks))),
        }
    }
}

impl<'a> StandaloneItem<'a> {
    /// The one item of a text, with its spaces: what nests may do so [`NESTING_LIMIT`] deep. Nothing of the text is copied. Fails where
    /// it is not one item of the grammar or nests deeper, and where memory runs out.
    pub fn parse(alloc: Global, input: &'a str) -> Result<StandaloneItem<'a>, Fault<ParseError>>
        ensures parsed { IfOk result (ParsedStandalone NESTING_LIMIT input.now) }
        ensures refused { IfTold result (Unparsed SpellsOne NESTING_LIMIT input.now) }
    {
        StandaloneItem::parse_within(alloc, input, NESTING_LIMIT)
    }

    /// The one item of a text, with its spaces: what nests may do so `limit` deep. The stack has to hold that many levels, of about 2 KB
    /// each. Fails as [`StandaloneItem::parse`] does.
    pub fn parse_within(
        alloc: Global,
        input: &'a str,
        limit: usize,
    ) -> Result<StandaloneItem<'a>, Fault<ParseError>>
        ensures parsed { IfOk result (ParsedStandalone limit input.now) }
        ensures refused { IfTold result (Unparsed SpellsOne limit input.now) }
    {
        StandaloneItem::parse_looking(alloc, input, limit, &mut Looks::new())
    }

    /// The one item of a text, as [`StandaloneItem::parse`] reads it, and the reads of its bytes counted: at most 16 for each byte of
    /// the text and 16 more. Only proofs see the count.
    pub fn parse_counted(
        alloc: Global,
        input: &'a str,
        looks: &mut Looks,
    ) -> Result<StandaloneItem<'a>, Fault<ParseError>>
        ensures parsed { IfOk result (ParsedStandalone NESTING_LIMIT input.now) }
        ensures refused { IfTold result (Unparsed SpellsOne NESTING_LIMIT input.now) }
        ensures most { looks.new.count ≤ looks.old.count + 16 * length input.now + 16 }
        ensures least { OnOk result (looks.old.count + length input.now ≤ looks.new.count) }
        ensures no_fewer { looks.old.count ≤ looks.new.count }
    {
        StandaloneItem::parse_looking(alloc, input, NESTING_LIMIT, looks)
    }

    fn parse_looking(
        alloc: Global,
        input: &'a str,
        limit: usize,
        looks: &mut Looks,
    ) -> Result<StandaloneItem<'a>, Fault<ParseError>>
        ensures parsed { IfOk result (ParsedStandalone limit input.now) }
        ensures refused { IfTold result (Unparsed SpellsOne limit input.now) }
        ensures most { looks.new.count ≤ looks.old.count + 16 * length input.now + 16 }
        ensures least { OnOk result (looks.old.count + length input.now ≤ looks.new.count) }
        ensures no_fewer { looks.old.count ≤ looks.new.count }
    {
        let text = Input::new(input);
        match whole_standalone(alloc, &text, limit, looks) {
            Ok(item) => Ok(item),
            Err(Fault::Memory(refused)) => Err(Fault::Memory(refused)),
            Err(Fault::Told(refusal)) => Err(Fault::Told(with_location(&text, refusal, looks))),
        }
    }
}

/// All of the text as a sequence.
fn whole_sequence<'a>(
    alloc: Global,
    text: &Input<'a>,
    limit: usize,
    looks: &mut Looks,
) -> Result<Sequence<'a>, Fault<Refusal>>
    ensures value { Gives sequence_tree result (reads_all limit Seq (text_bytes text.now)) }
    ensures borrowed { IfOk result BorrowsSequence }
    ensures place { IfErr result (IsPlaced (text_bytes text.now)) }
    ensures most { looks.new.count ≤ looks.old.count + a_byte * length (text_bytes text.now) + text_extra }
    ensures least { OnOk result (looks.old.count + length (text_bytes text.now) ≤ looks.new.count) }
    ensures no_fewer { looks.old.count ≤ looks.new.count }
{
    let (sequence, to) = sequence(alloc, text, text.start(), limit, looks)?;
    ends(text, to)?;
    Ok(sequence)
}

/// All of the text as an item between spaces.
fn whole_standalone<'a>(
    alloc: Global,
    text: &Input<'a>,
    limit: usize,
    looks: &mut Looks,
) -> Result<StandaloneItem<'a>, Fault<Refusal>>
    ensures value { Gives standalone_tree result (reads_all limit Standalone (text_bytes text.now)) }
    ensures borrowed { IfOk result BorrowsStandalone }
    ensures place { IfErr result (IsPlaced (text_bytes text.now)) }
    ensures most { looks.new.count ≤ looks.old.count + a_byte * length (text_bytes text.now) + text_extra }
    ensures least { OnOk result (looks.old.count + length (text_bytes text.now) ≤ looks.new.count) }
    ensures no_fewer { looks.old.count ≤ looks.new.count }
{
    let (item, to) = standalone(alloc, text, text.start(), limit, looks)?;
    ends(text, to)?;
    Ok(item)
}
