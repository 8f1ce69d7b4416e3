//! Calls of `cbor_edn_model`, `cbor_edn_parts` and `cbor_edn_conversions` that know no tree, under their own clauses. Bodies that these
//! clauses refuse stand in `wrong/`: a check here is that of a small crate, and what a clause refuses here it refuses where the call is
//! written.
#![tactic(auto)]

ghost use Rattle.std.specs.Prelude.{◌≡◌, ◌+◌, ◌<◌, ◌++◌, IfOk, IfSome, IfNone, OnOk, IsOk, Ok, Err, string_bytes};
ghost use Rattle.std.specs.Str.{IsCharBoundary};
ghost use Rattle.cbor_edn_conversions.specs.Addresses as addresses;
ghost use Rattle.cbor_edn_conversions.specs.Addresses.{refusal_message};
ghost use Rattle.cbor_edn_parts.specs.base.Buffer.{buffer_bytes};
ghost use Rattle.cbor_edn_parts.specs.base.Errors.{error_kind, error_offset, error_line, error_column};
ghost use Rattle.cbor_edn_parts.specs.base.Indicator.{indicator_text};
ghost use Rattle.cbor_edn_parts.specs.space.LayoutColumns.{least, respaced};
ghost use Rattle.cbor_edn_parts.specs.Leaves as leaves;
ghost use Rattle.cbor_edn_parts.specs.Leaves.{space_bytes, separator_bytes};
ghost use Rattle.cbor_edn_parts.specs.base.Location.{IsLocation};
ghost use Rattle.cbor_edn_parts.specs.space.Notes.{noted};
ghost use Rattle.cbor_edn_parts.specs.base.Refusals.{IfTold};
ghost use Rattle.cbor_edn_parts.specs.space.Spacing as kind;
ghost use Rattle.cbor_edn_parts.specs.declared.base.error.ParseErrorKind.TheVariants.{Invalid};
ghost use Rattle.cbor_edn_parts.specs.declared.space.layout.Slot.TheVariants.{Between};
ghost use Rattle.cbor_edn_parts.specs.internal.Scans.{IsAt};
ghost use Rattle.cbor_edn_parts.specs.internal.Input.{text_bytes};
ghost use Rattle.cbor_edn_model.specs.cbor.Meaning as meaning;
ghost use Rattle.cbor_edn_model.specs.cbor.Meaning.{means_integer};
ghost use Rattle.cbor_edn_model.specs.cbor.Value.{encoding};
ghost use Rattle.cbor_edn_model.specs.internal.CborReading.{argument_indicator};
ghost use Rattle.cbor_edn_model.specs.internal.Encoding.{Encodes, Finds};
ghost use Rattle.cbor_edn_model.specs.internal.Lookahead.{Opens};
ghost use Rattle.cbor_edn_model.specs.internal.Moved.{space_or};
ghost use Rattle.cbor_edn_model.specs.internal.Reading.{list_head_of};
ghost use Rattle.cbor_edn_model.specs.internal.Same.{same_head};
ghost use Rattle.cbor_edn_model.specs.internal.Widths.{capped};
ghost use Rattle.cbor_edn_model.specs.layout.Bare.{first_space};
ghost use Rattle.cbor_edn_model.specs.text.ListHeads.{view_list_head};
ghost use Rattle.cbor_edn_model.specs.tree.TreeLeaves.{texts};
ghost use Rattle.cbor_edn_model.specs.visit.Depth.{embedded_depth};

use cbor_edn_conversions::addresses::NoAddress;
use cbor_edn_model::cbor::decode::head::Argument;
use cbor_edn_model::cbor::heads::Width;
use cbor_edn_model::text::list_head::ListHead;
use cbor_edn_model::text::lookahead::FormStart;
use cbor_edn_parts::base::buffer::TextBuffer;
use cbor_edn_parts::base::error::{Fault, InconsistentEdn, ParseError, Refusal};
use cbor_edn_parts::base::indicator::Indicator;
use cbor_edn_parts::base::input::Input;
use cbor_edn_parts::base::looks::Looks;
use cbor_edn_parts::number::Integer;
use cbor_edn_parts::space::layout::{Layout, Slot};
use cbor_edn_parts::space::policy::Spacing;
use cbor_edn_parts::space::{Separator, Space};
use cbor_edn_parts::string::StringKind;
use cbor_edn_times_and_addresses::address::IpVersion;
use std::alloc::{AllocError, Global};

/// `space::copy::clone_spaces` of `cbor_edn_parts`.
pub fn clone_spaces<'a>(
    before: &Space<'a>,
    after: &Space<'a>,
) -> Result<(Space<'a>, Space<'a>), AllocError>
    ensures { IfOk result (λ p. (space_bytes p.0 ≡ space_bytes before.now) × (space_bytes p.1 ≡ space_bytes after.now)) }
{
    cbor_edn_parts::space::copy::clone_spaces(before, after)
}

/// `visit::depth::depth_of_embedded`.
pub fn depth_of_embedded(items: usize) -> usize
    ensures { result ≡ capped (embedded_depth items) }
{
    cbor_edn_model::visit::depth::depth_of_embedded(items)
}

/// `text::list_head::ListHead::is_same`.
pub fn have_same_head(a: &ListHead<'_>, b: &ListHead<'_>) -> bool
    ensures { result ≡ same_head (view_list_head texts a.now) (view_list_head texts b.now) }
{
    a.is_same(b)
}

/// `text::lookahead::list_head_and_space`.
pub fn list_head_and_space<'a>(
    indicator: Option<Indicator>,
    s: Space<'a>,
) -> Option<(ListHead<'a>, Space<'a>)>
    ensures some { IfSome result (λ p. list_head_of indicator (space_bytes s.entry) ≡ Ok (view_list_head texts p.0, space_bytes p.1)) }
    ensures none { IfNone result (list_head_of indicator (space_bytes s.entry) ≡ Err Invalid) }
{
    cbor_edn_model::text::lookahead::list_head_and_space(indicator, s)
}

/// `text::lookahead::form_start_at`, where the text begins.
pub fn form_start_of(input: &str, looks: &mut Looks) -> FormStart
    ensures { Opens input.now 0 result }
{
    let text = Input::new(input);
    cbor_edn_model::text::lookahead::form_start_at(&text, text.start(), looks)
}

/// `text::write::print_indicator`.
pub fn print_indicator(out: &mut TextBuffer, indicator: Option<Indicator>) -> Result<(), AllocError>
    ensures { OnOk result (buffer_bytes out.new ≡ buffer_bytes out.old ++ indicator_text indicator) }
{
    cbor_edn_model::text::write::print_indicator(out, indicator)
}

/// `text::list_head::ListHead::moved_space`.
pub fn moved_space<'a>(
    head: &ListHead<'a>,
    first: &Space<'a>,
    alloc: Global,
) -> Result<Option<Space<'a>>, AllocError>
    ensures { IfOk result (λ moved. space_or moved (space_bytes first.now) ≡ first_space (view_list_head texts head.now) (space_bytes first.now)) }
{
    head.moved_space(first, alloc)
}

/// `cbor::decode::head::indicator_of`.
pub fn indicator_of(argument: Argument) -> Option<Indicator>
    ensures { result ≡ argument_indicator argument }
{
    cbor_edn_model::cbor::decode::head::indicator_of(argument)
}

/// `cbor::heads::width_of`.
pub fn width_of(
    indicator: Option<Indicator>,
    argument: u64,
) -> Result<Width, Fault<InconsistentEdn>>
    ensures { Finds (meaning.width_of indicator argument) result }
{
    cbor_edn_model::cbor::heads::width_of(indicator, argument)
}

/// `cbor::heads::encode_integer`.
pub fn encode_integer(
    out: &mut Vec<u8>,
    number: Integer,
    indicator: Option<Indicator>,
) -> Result<(), Fault<InconsistentEdn>>
    ensures { Encodes encoding (means_integer indicator (leaves.integer number)) out.old.items out.new.items result }
{
    cbor_edn_model::cbor::heads::encode_integer(out, number, indicator)
}

/// `cbor::heads::encode_text`.
pub fn encode_text(
    out: &mut Vec<u8>,
    kind: StringKind,
    indicator: Option<Indicator>,
    content: &str,
) -> Result<(), Fault<InconsistentEdn>>
    ensures { Encodes encoding (meaning.string_of (kind, content.now) indicator) out.old.items out.new.items result }
{
    cbor_edn_model::cbor::heads::encode_text(out, kind, indicator, content)
}

/// `Input::byte`.
pub fn byte(text: &Input<'_>, at: usize, looks: &mut Looks) -> Option<u8>
    ensures value { IsAt (text_bytes text.now) at result }
    ensures count { looks.new.count ≡ looks.old.count + 1 }
{
    text.byte(at, looks)
}

/// `location::with_location`.
pub fn with_location(text: &Input<'_>, refusal: Refusal, looks: &mut Looks) -> ParseError
    requires { IsCharBoundary (text_bytes text.now) refusal.offset }
    ensures kind { error_kind result ≡ refusal.kind }
    ensures place { IsLocation (text_bytes text.now) (error_offset result) (error_line result) (error_column result) }
    ensures cost { looks.new.count ≡ looks.old.count + refusal.offset }
{
    cbor_edn_parts::base::location::with_location(text, refusal, looks)
}

/// The text of `Space::note`.
pub fn note(alloc: Global, comment: &str) -> Result<String, AllocError>
    ensures { IfOk result (λ t. string_bytes t ≡ noted comment.now) }
{
    let space = Space::note(alloc, comment)?;
    String::from_str(alloc, space.as_str())
}

/// `layout::print_space`.
pub fn print_space(
    out: &mut TextBuffer,
    space: &Space<'_>,
    layout: Layout,
    slot: Slot,
) -> Result<(), AllocError>
    ensures { OnOk result (buffer_bytes out.new ≡ buffer_bytes out.old ++ respaced kind.Optional slot layout (space_bytes space.now)) }
{
    cbor_edn_parts::space::layout::print_space(out, space, layout, slot)
}

/// `layout::lay_separator`.
pub fn lay_separator<'a>(
    separator: &mut Separator<'a>,
    alloc: Global,
    layout: Layout,
) -> Result<(), AllocError>
    ensures laid { OnOk result (separator_bytes separator.new ≡ respaced kind.Separating Between layout (separator_bytes separator.old)) }
    ensures least { layout ≡ least → IsOk result }
{
    cbor_edn_parts::space::layout::lay_separator(separator, alloc, layout)
}

/// `addresses::whole_text` of `cbor_edn_conversions`.
pub fn whole_text(
    alloc: Global,
    version: IpVersion,
    bytes: &[u8],
) -> Result<String, Fault<NoAddress>>
    ensures text { IfOk result (λ s. addresses.whole_text version bytes.now ≡ Ok (string_bytes s)) }
    ensures refused { IfTold result (λ e. addresses.whole_text version bytes.now ≡ Err (refusal_message e)) }
{
    cbor_edn_conversions::addresses::whole_text(alloc, version, bytes)
}
