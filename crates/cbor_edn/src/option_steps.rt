//! What the options of a run make of the items that it reads, step by step.
ghost use Rattle.std.specs.Prelude.{◌≡◌, ◌++◌, ◌&&◌, ◌||◌, not, OnOk, IfOk};
ghost use Rattle.std.specs.Str.{IsUtf8};
ghost use Rattle.cbor_edn_parts.specs.base.Buffer.{buffer_bytes};
ghost use Rattle.cbor_edn_core.specs.tree.View.{sequence_tree};
ghost use Rattle.cbor_edn_model.specs.tree.Trees.{Tree, Seq, text};
ghost use Rattle.cbor_edn_model.specs.visit.Tagged.{has_tag};
ghost use Rattle.cbor_edn_parts.specs.space.Spacing.{indented};
ghost use Rattle.cbor_edn_parts.specs.declared.space.policy.DelimiterPolicy.TheVariants.{DiscardAll};
ghost use Rattle.cbor_edn_conversions.specs.Addresses.{resolve_address, pretty_address};
ghost use Rattle.cbor_edn_conversions.specs.Annotations.{comment_lang};
ghost use Rattle.cbor_edn_conversions.specs.Bignums.{pretty_bignum};
ghost use Rattle.cbor_edn_conversions.specs.Tag999.{to_tag999};
ghost use Rattle.cbor_edn_conversions.specs.Times.{resolve_time, pretty_time};
ghost use Rattle.cbor_edn.specs.ChangedTags.{tags_changed};
ghost use Rattle.cbor_edn.specs.RunSteps.{Where, InTurn, IsLaidOut, TagsVisited, LiteralsVisited, HasClaims, StepsGive};

use cbor_edn_application::visits::{
    annotate_claims_sets, comment_languages, prettify_addresses, prettify_bignums, prettify_times,
    resolve_addresses, resolve_times, to_999,
};
use cbor_edn_command::options::Options;
use cbor_edn_core::tree::Sequence;
use cbor_edn_parts::base::buffer::TextBuffer;
use cbor_edn_parts::space::policy::DelimiterPolicy;
use std::alloc::{AllocError, Global};

/// Takes all steps of a run but the last, which sets the spaces of what is printed. The command and the limit have no part in it. Fails
/// where memory runs out: some steps are taken then, and one may be begun.
pub fn take(alloc: Global, options: &Options, sequence: &mut Sequence<'_>) -> Result<(), AllocError>
    ensures { OnOk result ((v : Tree Seq) → Where (not options.now.preserve_space) (IsLaidOut indented) (sequence_tree sequence.new) v → StepsGive options.now (sequence_tree sequence.old) v) }
{
    let tagged = has_tag_for(options, sequence);
    annotate_tags(alloc, options.annotate_tags, tagged, sequence)?;
    remove_comments(alloc, options.remove_comments, sequence)?;
    resolve_literals(alloc, options.aol_to_item, sequence)?;
    annotate_claims(alloc, options.annotate_ccs, sequence)?;
    let tagged = may_have_tag(options, tagged);
    show_bignums(alloc, options.bignum_from_tags, tagged, sequence)?;
    tag_literals(alloc, options.apply_999, sequence)
}

/// The text after the last step, whose spaces the tree itself does not get.
pub(crate) fn spaced_text(
    alloc: Global,
    options: &Options,
    sequence: &Sequence<'_>,
) -> Result<Vec<u8>, AllocError>
    ensures spaced { IfOk result (λ out. (v : Tree Seq) × Where (not options.now.preserve_space) (IsLaidOut indented) (sequence_tree sequence.now) v × (out.items ≡ text v)) }
    ensures utf8 { IfOk result (λ out. IsUtf8 out.items) }
{
    let mut out = TextBuffer::new(alloc);
    print_spaced(&mut out, options, sequence)?;
    Ok(out.into_bytes())
}

fn print_spaced(
    out: &mut TextBuffer,
    options: &Options,
    sequence: &Sequence<'_>,
) -> Result<(), AllocError>
    ensures { OnOk result ((v : Tree Seq) × Where (not options.now.preserve_space) (IsLaidOut indented) (sequence_tree sequence.now) v × (buffer_bytes out.new ≡ buffer_bytes out.old ++ text v)) }
{
    if options.preserve_space {
        sequence.print(out)
    } else {
        sequence.print_laid_out(out, DelimiterPolicy::indented())
    }
}

/// Whether a step is asked for that may change items in which no tag stands, or keep other spaces than those of the indented policy.
pub(crate) fn change_untagged(options: &Options) -> bool
    ensures { result ≡ (options.now.remove_comments || (options.now.aol_to_item || (options.now.annotate_ccs || (options.now.apply_999 || options.now.preserve_space)))) }
{
    options.remove_comments
        || options.aol_to_item
        || options.annotate_ccs
        || options.apply_999
        || options.preserve_space
}

/// The numbers of the tags that the steps that are asked for may change.
pub(crate) fn changed_tags(options: &Options) -> &'static [u64]
    ensures { result.now ≡ tags_changed options.now.annotate_tags options.now.bignum_from_tags }
{
    match (options.annotate_tags, options.bignum_from_tags) {
        (false, false) => &[],
        (false, true) => &[2, 3],
        (true, false) => &[1, 38, 52, 54],
        (true, true) => &[1, 38, 52, 54, 2, 3],
    }
}

/// Whether a step that visits tags is asked for, and there are any: where none stands, no visit of tags does anything.
fn has_tag_for(options: &Options, sequence: &Sequence<'_>) -> bool
    ensures { result ≡ (options.now.annotate_tags || options.now.bignum_from_tags) && has_tag (sequence_tree sequence.now) }
{
    (options.annotate_tags || options.bignum_from_tags) && sequence.has_tag()
}

/// Whether a tag may stand behind the steps between those two kinds of visits: each of them may put one where none stood.
fn may_have_tag(options: &Options, tagged: bool) -> bool
    ensures { result ≡ tagged || (options.now.remove_comments || (options.now.aol_to_item || options.now.annotate_ccs)) }
{
    tagged || options.remove_comments || options.aol_to_item || options.annotate_ccs
}

pub(crate) fn annotate_tags(
    alloc: Global,
    asked: bool,
    tagged: bool,
    sequence: &mut Sequence<'_>,
) -> Result<(), AllocError>
    ensures { OnOk result (Where (asked && tagged) (InTurn (TagsVisited pretty_address) (InTurn (TagsVisited pretty_time) (TagsVisited comment_lang))) (sequence_tree sequence.old) (sequence_tree sequence.new)) }
{
    if !asked || !tagged {
        return Ok(());
    }
    prettify_addresses(alloc, sequence)?;
    prettify_times(alloc, sequence)?;
    comment_languages(alloc, sequence)
}

fn remove_comments(
    alloc: Global,
    asked: bool,
    sequence: &mut Sequence<'_>,
) -> Result<(), AllocError>
    ensures { OnOk result (Where asked (IsLaidOut DiscardAll) (sequence_tree sequence.old) (sequence_tree sequence.new)) }
{
    if asked {
        sequence.set_delimiters(alloc, DelimiterPolicy::DiscardAll)
    } else {
        Ok(())
    }
}

fn resolve_literals(
    alloc: Global,
    asked: bool,
    sequence: &mut Sequence<'_>,
) -> Result<(), AllocError>
    ensures { OnOk result (Where asked (InTurn (LiteralsVisited resolve_address) (LiteralsVisited resolve_time)) (sequence_tree sequence.old) (sequence_tree sequence.new)) }
{
    if !asked {
        return Ok(());
    }
    resolve_addresses(alloc, sequence)?;
    resolve_times(alloc, sequence)
}

fn annotate_claims(
    alloc: Global,
    asked: bool,
    sequence: &mut Sequence<'_>,
) -> Result<(), AllocError>
    ensures { OnOk result (Where asked HasClaims (sequence_tree sequence.old) (sequence_tree sequence.new)) }
{
    if asked {
        annotate_claims_sets(alloc, sequence)
    } else {
        Ok(())
    }
}

pub(crate) fn show_bignums(
    alloc: Global,
    asked: bool,
    tagged: bool,
    sequence: &mut Sequence<'_>,
) -> Result<(), AllocError>
    ensures { OnOk result (Where (asked && tagged) (TagsVisited pretty_bignum) (sequence_tree sequence.old) (sequence_tree sequence.new)) }
{
    if asked && tagged {
        prettify_bignums(alloc, sequence)
    } else {
        Ok(())
    }
}

fn tag_literals(alloc: Global, asked: bool, sequence: &mut Sequence<'_>) -> Result<(), AllocError>
    ensures { OnOk result (Where asked (LiteralsVisited to_tag999) (sequence_tree sequence.old) (sequence_tree sequence.new)) }
{
    if asked {
        to_999(alloc, sequence)
    } else {
        Ok(())
    }
}
