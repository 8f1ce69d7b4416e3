//! How the spaces of each part of a tree are changed.
ghost use Rattle.std.specs.Prelude.{◌≡◌, ◌++◌, IsOk, OnOk};
ghost use Rattle.cbor_edn_parts.specs.base.Buffer.{buffer_bytes};
ghost use Rattle.cbor_edn_parts.specs.space.LayoutColumns as spec;
ghost use Rattle.cbor_edn_parts.specs.space.LayoutColumns.{least, respaced};
ghost use Rattle.cbor_edn_parts.specs.Leaves.{space_bytes, mandatory_bytes, separator_bytes, list_end_bytes};
ghost use Rattle.cbor_edn_parts.specs.space.Spacing as kind;

use crate::base::buffer::TextBuffer;
use crate::space::policy::{DelimiterPolicy, Spacing};
use crate::space::{ListEnd, MandatorySpace, Separator, Space};
use std::alloc::{AllocError, Global};

/// How the spaces of a part of a tree are changed.
#[derive(Clone, Copy)]
pub enum Layout {
    /// Not at all: each space stays as it stands. No policy asks for this.
    Kept,
    /// On a single line, or without regard to lines: one column of the table for all.
    Inline(Spacing),
    /// On lines of their own. A line begins with `base` spaces, the one behind the last entry with `end` spaces. An item in it whose
    /// single line is too long for `width` has lines that begin with `level` more spaces than `base`.
    Lines {
        base: usize,
        end: usize,
        level: usize,
        width: usize,
    },
}

/// The slots of space texts.
#[derive(Clone, Copy)]
pub enum Slot {
    /// In front of the first entry of a list, and behind `(_` in front of the first string.
    First,
    /// Behind an entry, in front of the next.
    Between,
    /// Behind the last entry.
    Last,
    /// In front of a plus sign that joins two pieces of a string.
    BeforePlus,
    /// Behind a plus sign that joins two pieces of a string.
    AfterPlus,
    /// Behind the colon between a key and its value.
    AfterColon,
    /// Before a colon, behind the indicator of a list that has entries, in a list that has none, round an item that stands
    /// alone or between parentheses, and in front of a sequence.
    Elsewhere,
}

impl Layout {
    /// The layout that a policy begins with: of the whole that is laid out. Indented text begins with lines at `base_indent`.
    pub fn of(policy: DelimiterPolicy) -> Layout
        ensures { result ≡ spec.layout policy }
    {
        match policy {
            DelimiterPolicy::DiscardAll => Layout::Inline(Spacing::Least),
            DelimiterPolicy::DiscardAllButComments => Layout::Inline(Spacing::Comments),
            DelimiterPolicy::SingleLineRegularSpacing => Layout::Inline(Spacing::OneLine),
            DelimiterPolicy::IndentedRegularSpacing {
                base_indent,
                indent_level,
                max_width,
            } => Layout::Lines {
                base: base_indent,
                end: base_indent,
                level: indent_level,
                width: max_width,
            },
            DelimiterPolicy::SingleSpace => Layout::Inline(Spacing::OneSpace),
        }
    }

    /// What is done with the space text at a slot: the column of the table of spaces, or none where the text is kept.
    #[inline(always)]
    pub fn spacing(self, slot: Slot) -> Option<Spacing>
        ensures { result ≡ spec.spacing self slot }
    {
        let column = match self {
            Layout::Kept => return None,
            Layout::Inline(Spacing::OneLine) => match slot {
                Slot::BeforePlus | Slot::AfterPlus | Slot::AfterColon => Spacing::OneSpace,
                _ => Spacing::OneLine,
            },
            Layout::Inline(column) => column,
            Layout::Lines { base, end, .. } => match slot {
                Slot::First | Slot::Between | Slot::BeforePlus => Spacing::NewLine(base),
                Slot::Last => Spacing::NewLine(end),
                _ => Spacing::Comments,
            },
        };
        Some(column)
    }

    /// The layout of the parts of an item that is so many bytes wide on a single line: one line where it fits, else lines one level
    /// further in.
    pub fn of_parts(self, measured: usize) -> Layout
        ensures { result ≡ spec.of_parts self measured }
    {
        match self {
            Layout::Kept | Layout::Inline(_) => self,
            Layout::Lines {
                base,
                level,
                width,
                ..
            } => {
                if measured.saturating_add(base) < width {
                    Layout::Inline(Spacing::OneLine)
                } else {
                    Layout::Lines {
                        base: base.saturating_add(level),
                        end: base,
                        level,
                        width,
                    }
                }
            }
        }
    }

    /// The layout of the strings of a stream: on a single line no space stands round the plus signs in them.
    pub fn in_chunk(self) -> Layout
        ensures { result ≡ spec.in_chunk self }
    {
        match self {
            Layout::Inline(Spacing::OneLine) => Layout::Inline(Spacing::Comments),
            _ => self,
        }
    }
}

/// Lays out an optional space at its slot. Fails where memory runs out, and leaves the text then; the layout of `DiscardAll` takes none.
pub fn lay_space<'a>(
    space: &mut Space<'a>,
    alloc: Global,
    layout: Layout,
    slot: Slot,
) -> Result<(), AllocError>
    ensures laid { OnOk result (space_bytes space.new ≡ respaced kind.Optional slot layout (space_bytes space.old)) }
    ensures least { layout ≡ least → IsOk result }
{
    if let Some(column) = layout.spacing(slot) {
        *space = space.spaced(alloc, column)?;
    }
    Ok(())
}

/// Lays out a mandatory space at its slot; it does not become empty. Fails where memory runs out, and leaves the text then; the layout
/// of `DiscardAll` takes none.
pub fn lay_mandatory<'a>(
    space: &mut MandatorySpace<'a>,
    alloc: Global,
    layout: Layout,
    slot: Slot,
) -> Result<(), AllocError>
    ensures laid { OnOk result (mandatory_bytes space.new ≡ respaced kind.Mandatory slot layout (mandatory_bytes space.old)) }
    ensures least { layout ≡ least → IsOk result }
{
    if let Some(column) = layout.spacing(slot) {
        *space = space.spaced(alloc, column)?;
    }
    Ok(())
}

/// Lays out the separator between two entries. Fails where memory runs out, and leaves the text then; the layout of `DiscardAll` takes
/// none.
pub fn lay_separator<'a>(
    separator: &mut Separator<'a>,
    alloc: Global,
    layout: Layout,
) -> Result<(), AllocError>
    ensures laid { OnOk result (separator_bytes separator.new ≡ respaced kind.Separating spec.Between layout (separator_bytes separator.old)) }
    ensures least { layout ≡ least → IsOk result }
{
    if let Some(column) = layout.spacing(Slot::Between) {
        *separator = separator.spaced(alloc, column)?;
    }
    Ok(())
}

/// Lays out the end of a list, behind its last entry. Fails where memory runs out, and leaves the text then; the layout of `DiscardAll`
/// takes none.
pub fn lay_end<'a>(end: &mut ListEnd<'a>, alloc: Global, layout: Layout) -> Result<(), AllocError>
    ensures laid { OnOk result (list_end_bytes end.new ≡ respaced kind.AtEnd spec.Last layout (list_end_bytes end.old)) }
    ensures least { layout ≡ least → IsOk result }
{
    if let Some(column) = layout.spacing(Slot::Last) {
        *end = end.spaced(alloc, column)?;
    }
    Ok(())
}

/// Writes an optional space as it is laid out at its slot at the end of a text. Fails where memory runs out.
#[inline(always)]
pub fn print_space(
    out: &mut TextBuffer,
    space: &Space<'_>,
    layout: Layout,
    slot: Slot,
) -> Result<(), AllocError>
    ensures { OnOk result (buffer_bytes out.new ≡ buffer_bytes out.old ++ respaced kind.Optional slot layout (space_bytes space.now)) }
{
    match layout.spacing(slot) {
        None => out.push_if_any(space.as_str()),
        Some(column) => space.print_spaced(out, column),
    }
}

/// Writes a mandatory space as it is laid out at its slot at the end of a text. Fails where memory runs out.
#[inline(always)]
pub fn print_mandatory(
    out: &mut TextBuffer,
    space: &MandatorySpace<'_>,
    layout: Layout,
    slot: Slot,
) -> Result<(), AllocError>
    ensures { OnOk result (buffer_bytes out.new ≡ buffer_bytes out.old ++ respaced kind.Mandatory slot layout (mandatory_bytes space.now)) }
{
    match layout.spacing(slot) {
        None => out.push_if_any(space.as_str()),
        Some(column) => space.print_spaced(out, column),
    }
}

/// Writes the separator between two entries as it is laid out at the end of a text. Fails where memory runs out.
#[inline(always)]
pub fn print_separator(
    out: &mut TextBuffer,
    separator: &Separator<'_>,
    layout: Layout,
) -> Result<(), AllocError>
    ensures { OnOk result (buffer_bytes out.new ≡ buffer_bytes out.old ++ respaced kind.Separating spec.Between layout (separator_bytes separator.now)) }
{
    match layout.spacing(Slot::Between) {
        None => out.push_if_any(separator.as_str()),
        Some(column) => separator.print_spaced(out, column),
    }
}

/// Writes the end of a list as it is laid out at the end of a text. Fails where memory runs out.
#[inline(always)]
pub fn print_end(out: &mut TextBuffer, end: &ListEnd<'_>, layout: Layout) -> Result<(), AllocError>
    ensures { OnOk result (buffer_bytes out.new ≡ buffer_bytes out.old ++ respaced kind.AtEnd spec.Last layout (list_end_bytes end.now)) }
{
    match layout.spacing(Slot::Last) {
        None => out.push_if_any(end.as_str()),
        Some(column) => end.print_spaced(out, column),
    }
}
