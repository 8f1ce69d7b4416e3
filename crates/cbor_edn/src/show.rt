//! CBOR as it is shown, with the CBOR in its byte strings and with the names of COSE.
ghost use Rattle.std.specs.Prelude.{◌≡◌, ◌++◌, ◌&&◌, ◌||◌, IfOk, IfErr, OnOk};
ghost use Rattle.std.specs.Str.{chars};
ghost use Rattle.cbor_edn_parts.specs.space.Notes.{noted};
ghost use Rattle.cbor_edn_terminal.specs.Terminal.{shown_text as told_text};
ghost use Rattle.cbor_edn_parts.specs.space.Spacing.{indented};
ghost use Rattle.cbor_edn_core.specs.tree.View.{sequence_tree};
ghost use Rattle.cbor_edn_model.specs.tree.Trees.{Tree, Seq};
ghost use Rattle.cbor_edn_conversions.specs.Cose.{comment_cose};
ghost use Rattle.cbor_edn_command.specs.FileOptions.{show_steps};
ghost use Rattle.cbor_edn.specs.Format.{ended};
ghost use Rattle.cbor_edn.specs.RunSteps.{Where, IsLaidOut, TagsVisited};
ghost use Rattle.cbor_edn.specs.Runs.{IsPrintedAs};
ghost use Rattle.cbor_edn.specs.Show.{AreShown, ClaimsAnnotated, EmbeddedShown, IsHarmlessOf, IsShown, IsUnshown, IsWritten, ShowGives};
ghost use Rattle.cbor_edn.specs.OptionSteps.{IsUndiagnosed};

use crate::boxed::boxed;
use crate::engine::RunError;
use crate::line_feed::end_line;
use crate::option_steps::{annotate_tags, show_bignums, spaced_text};
use cbor_edn_application::visits::{
    annotate_claims_sets, annotate_messages, comment_claims_keys, comment_cose, show_embedded,
};
pub use cbor_edn_command::file_options::ShowOptions;
use cbor_edn_command::hexadecimal;
use cbor_edn_core::tree::Sequence;
use cbor_edn_harmless::harmless;
use cbor_edn_parts::space::Space;
use cbor_edn_terminal::shown as told;
use std::alloc::{AllocError, Global};

/// All that `show` writes for an input, which is CBOR, or digits of CBOR where `hex` is set. It ends in a line feed, and acts on a terminal
/// by no other character. Fails with `Cbor`, with `Hex` and with `Memory`, where a run of `Cbor2Diag` does; no other error comes.
pub fn shown(alloc: Global, options: &ShowOptions, input: &[u8]) -> Result<Vec<u8>, RunError>
    ensures ok { IfOk result (λ out. IsShown options.now input.now out.items) }
    ensures err { IfErr result (IsUnshown options.now input.now) }
{
    if options.hex {
        let bytes = hexadecimal::decoded(alloc, input)?;
        shown_bytes(alloc, options, &bytes)
    } else {
        shown_bytes(alloc, options, input)
    }
}

fn shown_bytes(alloc: Global, options: &ShowOptions, bytes: &[u8]) -> Result<Vec<u8>, RunError>
    ensures ok { IfOk result (λ out. AreShown options.now bytes.now out.items) }
    ensures err { IfErr result (IsUndiagnosed (show_steps options.now) bytes.now) }
{
    let mut sequence = boxed(
        alloc,
        Sequence::from_cbor_within(alloc, bytes, options.limit),
    )?;
    Ok(shown_text(alloc, options, &mut sequence)?)
}

/// The text of items that were decoded.
fn shown_text(
    alloc: Global,
    options: &ShowOptions,
    sequence: &mut Sequence<'_>,
) -> Result<Vec<u8>, AllocError>
    ensures { IfOk result (λ out. (v : Tree Seq) × ShowGives options.now (sequence_tree sequence.old) v × IsWritten v out.items) }
{
    let plain = printed(alloc, options, sequence)?;
    let mut text = harmless_text(alloc, plain)?;
    end_line(&mut text)?;
    Ok(text)
}

/// A text of items without what acts on a terminal.
fn harmless_text(alloc: Global, text: Vec<u8>) -> Result<Vec<u8>, AllocError>
    ensures { IfOk result (λ out. (v : Tree Seq) → IsPrintedAs v text.items → IsHarmlessOf v out.items) }
{
    match String::from_utf8(text) {
        Ok(text) => Ok(harmless(alloc, text)?.into_bytes()),
        Err(fault) => Ok(fault.into_bytes()),
    }
}

/// The text of items that were decoded, without a line feed at its end, where it ends in a comment.
fn printed(
    alloc: Global,
    options: &ShowOptions,
    sequence: &mut Sequence<'_>,
) -> Result<Vec<u8>, AllocError>
    ensures { IfOk result (λ out. (v : Tree Seq) × ShowGives options.now (sequence_tree sequence.old) v × IsPrintedAs v out.items) }
{
    take(alloc, options, sequence)?;
    spaced_text(alloc, &options.steps(), sequence)
}

/// Takes all steps but the last, which sets the spaces of what is printed.
fn take(alloc: Global, options: &ShowOptions, sequence: &mut Sequence<'_>) -> Result<(), AllocError>
    ensures { OnOk result ((v : Tree Seq) → IsLaidOut indented (sequence_tree sequence.new) v → ShowGives options.now (sequence_tree sequence.old) v) }
{
    embedded_shown(alloc, options, sequence)?;
    let tagged = sequence.has_tag();
    annotate_tags(alloc, true, tagged, sequence)?;
    annotate_claims(alloc, options.annotate_ccs, sequence)?;
    let tagged = may_have_tag(options, tagged);
    name_messages(alloc, options.names, tagged, sequence)?;
    show_bignums(alloc, options.bignum_from_tags, tagged, sequence)
}

fn embedded_shown(
    alloc: Global,
    options: &ShowOptions,
    sequence: &mut Sequence<'_>,
) -> Result<(), AllocError>
    ensures { OnOk result (EmbeddedShown options.now.levels options.now.limit (sequence_tree sequence.old) (sequence_tree sequence.new)) }
{
    show_embedded(alloc, options.levels, options.limit, sequence)
}

/// Whether there may be a tag behind the claims: annotating them counts as what may put one where none stood.
fn may_have_tag(options: &ShowOptions, tagged: bool) -> bool
    ensures { result ≡ tagged || options.now.annotate_ccs }
{
    tagged || options.annotate_ccs
}

/// Claims sets among the items and in messages, and the keys in both.
fn annotate_claims(
    alloc: Global,
    asked: bool,
    sequence: &mut Sequence<'_>,
) -> Result<(), AllocError>
    ensures { OnOk result (Where asked ClaimsAnnotated (sequence_tree sequence.old) (sequence_tree sequence.new)) }
{
    if !asked {
        return Ok(());
    }
    annotate_claims_sets(alloc, sequence)?;
    comment_claims_keys(alloc, sequence)?;
    annotate_messages(alloc, sequence)
}

fn name_messages(
    alloc: Global,
    asked: bool,
    tagged: bool,
    sequence: &mut Sequence<'_>,
) -> Result<(), AllocError>
    ensures { OnOk result (Where (asked && tagged) (TagsVisited comment_cose) (sequence_tree sequence.old) (sequence_tree sequence.new)) }
{
    if asked && tagged {
        comment_cose(alloc, sequence)
    } else {
        Ok(())
    }
}

/// What is written of one file among several: a comment line with its name, as it is told, and what is shown of it. So what is written of
/// all of them is one sequence.
pub fn behind_name(alloc: Global, name: &str, text: &[u8]) -> Result<Vec<u8>, AllocError>
    ensures { IfOk result (λ out. out.items ≡ ended (ended (noted (told_text (chars name.now))) ++ text.now)) }
{
    let note = Space::note(alloc, &told(alloc, name)?)?;
    let mut out = Vec::new(alloc);
    out.extend_from_slice(note.as_str().as_bytes())?;
    end_line(&mut out)?;
    out.extend_from_slice(text)?;
    end_line(&mut out)?;
    Ok(out)
}
