//! Space texts by a column of the table of spaces.
ghost use Rattle.std.specs.Prelude.{◌≡◌, ◌≤◌, [], ◌∷◌, ◌++◌, IfOk, IsOk, OnOk};
ghost use Rattle.cbor_edn_parts.specs.base.Buffer.{buffer_bytes};
ghost use Rattle.cbor_edn_parts.specs.base.LeafTexts.{leaf_bytes};
ghost use Rattle.cbor_edn_parts.specs.internal.CommentReading.{comments_of};
ghost use Rattle.cbor_edn_parts.specs.Leaves.{space_bytes, mandatory_bytes, separator_bytes, list_end_bytes};
ghost use Rattle.cbor_edn_parts.specs.space.Spacing as table;
ghost use Rattle.cbor_edn_parts.specs.space.Spacing.{line};
ghost use Rattle.cbor_edn_parts.specs.internal.Columns.{in_column, comma_in_column};

use super::comments::{comments, comments_in_parts, comments_round_comma, is_bare_separator};
use super::{ListEnd, MandatorySpace, Separator, Space};
use crate::base::buffer::TextBuffer;
use crate::base::leaf_text::LeafText;
use crate::space::policy::Spacing;
use std::alloc::{AllocError, Global};

/// The most spaces of a line that takes no memory.
const SHORT: usize = 64;

/// A comma, a line feed and so many spaces.
const COMMA_LINE: &str = ",\n                                                                ";

impl<'a> Space<'a> {
    /// The text by a column of the table. Fails where memory runs out; no memory is taken for no space, for one space and for a
    /// short line, nor for the comments alone of a text that is borrowed.
    pub fn spaced(&self, alloc: Global, spacing: Spacing) -> Result<Space<'a>, AllocError>
        ensures bytes { IfOk result (λ t. space_bytes t ≡ table.spaced table.Optional spacing (space_bytes self.now)) }
        ensures least { spacing ≡ table.Least → IsOk result }
        ensures free { table.IsShortSpacing spacing → comments_of (space_bytes self.now) ≡ [] → IsOk result }
    {
        let text = comments_in_column(alloc, spacing, &self.text)?;
        Ok(Space { text })
    }

    /// Appends the text by a column of the table. Fails where memory runs out.
    pub(crate) fn print_spaced(
        &self,
        out: &mut TextBuffer,
        spacing: Spacing,
    ) -> Result<(), AllocError>
        ensures { OnOk result (buffer_bytes out.new ≡ buffer_bytes out.old ++ table.spaced table.Optional spacing (space_bytes self.now)) }
    {
        let comments = comments(self.as_str());
        if comments.is_empty() {
            return print_blanks(out, spacing);
        }
        print_in_column(out, spacing, comments, "")
    }
}

impl<'a> MandatorySpace<'a> {
    /// The text by a column of the table. Fails where memory runs out; no memory is taken for one space and for a short line, nor
    /// for the comments alone of a text that is borrowed.
    pub fn spaced(&self, alloc: Global, spacing: Spacing) -> Result<MandatorySpace<'a>, AllocError>
        ensures bytes { IfOk result (λ t. mandatory_bytes t ≡ table.spaced table.Mandatory spacing (mandatory_bytes self.now)) }
        ensures least { spacing ≡ table.Least → IsOk result }
        ensures free { table.IsShortSpacing spacing → comments_of (mandatory_bytes self.now) ≡ [] → IsOk result }
    {
        let text = or_space(comments_in_column(alloc, spacing, &self.text)?);
        Ok(MandatorySpace { text })
    }

    /// Appends the text by a column of the table. Fails where memory runs out.
    pub(crate) fn print_spaced(
        &self,
        out: &mut TextBuffer,
        spacing: Spacing,
    ) -> Result<(), AllocError>
        ensures { OnOk result (buffer_bytes out.new ≡ buffer_bytes out.old ++ table.spaced table.Mandatory spacing (mandatory_bytes self.now)) }
    {
        let comments = comments(self.as_str());
        match spacing {
            Spacing::Least => out.push_str(" "),
            Spacing::Comments | Spacing::OneLine if comments.is_empty() => out.push_str(" "),
            _ => print_in_column(out, spacing, comments, ""),
        }
    }
}

impl<'a> Separator<'a> {
    /// The text by a column of the table. Fails where memory runs out; no memory is taken for a comma, nor for a comma with
    /// one space or a short line.
    pub fn spaced(&self, alloc: Global, spacing: Spacing) -> Result<Separator<'a>, AllocError>
        ensures bytes { IfOk result (λ t. separator_bytes t ≡ table.spaced table.Separating spacing (separator_bytes self.now)) }
        ensures least { spacing ≡ table.Least → IsOk result }
        ensures free { table.IsShortSpacing spacing → table.comments_before (separator_bytes self.now) ≡ [] → table.comments_after (separator_bytes self.now) ≡ [] → IsOk result }
    {
        let text = with_comma(alloc, spacing, self.as_str())?;
        Ok(Separator { text })
    }

    /// Appends the text by a column of the table. Fails where memory runs out.
    #[inline(always)]
    pub(crate) fn print_spaced(
        &self,
        out: &mut TextBuffer,
        spacing: Spacing,
    ) -> Result<(), AllocError>
        ensures { OnOk result (buffer_bytes out.new ≡ buffer_bytes out.old ++ table.spaced table.Separating spacing (separator_bytes self.now)) }
    {
        print_with_comma(out, spacing, self.as_str())
    }
}

impl<'a> ListEnd<'a> {
    /// The text by a column of the table. Fails where memory runs out; no memory is taken for no space, for one space and for a
    /// short line.
    pub fn spaced(&self, alloc: Global, spacing: Spacing) -> Result<ListEnd<'a>, AllocError>
        ensures bytes { IfOk result (λ t. list_end_bytes t ≡ table.spaced table.AtEnd spacing (list_end_bytes self.now)) }
        ensures least { spacing ≡ table.Least → IsOk result }
        ensures free { table.IsShortSpacing spacing → table.comments_before (list_end_bytes self.now) ≡ [] → table.comments_after (list_end_bytes self.now) ≡ [] → IsOk result }
    {
        let (before, after) = comments_round_comma(self.as_str());
        let text = in_column(alloc, spacing, before, after)?;
        Ok(ListEnd { text })
    }

    /// Appends the text by a column of the table. Fails where memory runs out.
    pub(crate) fn print_spaced(
        &self,
        out: &mut TextBuffer,
        spacing: Spacing,
    ) -> Result<(), AllocError>
        ensures { OnOk result (buffer_bytes out.new ≡ buffer_bytes out.old ++ table.spaced table.AtEnd spacing (list_end_bytes self.now)) }
    {
        let (before, after) = comments_round_comma(self.as_str());
        print_in_column(out, spacing, before, after)
    }
}

/// The comments of a text behind the blanks of a column: a part of the text where it is borrowed and the column adds nothing.
fn comments_in_column<'a>(
    alloc: Global,
    spacing: Spacing,
    text: &LeafText<'a>,
) -> Result<LeafText<'a>, AllocError>
    ensures bytes { IfOk result (λ t. leaf_bytes t ≡ in_column spacing (comments_of (leaf_bytes text.now))) }
    ensures least { spacing ≡ table.Least → IsOk result }
    ensures free { table.IsShortSpacing spacing → comments_of (leaf_bytes text.now) ≡ [] → IsOk result }
{
    match (text, spacing) {
        (LeafText::Borrowed(text), Spacing::Comments | Spacing::OneLine) => {
            Ok(LeafText::Borrowed(comments(text)))
        }
        _ => in_column(alloc, spacing, comments(text.as_str()), ""),
    }
}

/// Comments, one behind the other, behind the blanks of a column.
fn in_column<'a>(
    alloc: Global,
    spacing: Spacing,
    before: &str,
    after: &str,
) -> Result<LeafText<'a>, AllocError>
    ensures bytes { IfOk result (λ t. leaf_bytes t ≡ in_column spacing (before.now ++ after.now)) }
    ensures least { spacing ≡ table.Least → IsOk result }
    ensures free { table.IsShortSpacing spacing → before.now ≡ [] → after.now ≡ [] → IsOk result }
{
    let is_bare = before.is_empty() && after.is_empty();
    match spacing {
        Spacing::Least => return Ok(LeafText::Borrowed("")),
        Spacing::Comments | Spacing::OneLine if is_bare => return Ok(LeafText::Borrowed("")),
        Spacing::OneSpace if is_bare => return Ok(LeafText::Borrowed(" ")),
        Spacing::NewLine(indent) if is_bare && indent <= SHORT => {
            return Ok(LeafText::Borrowed(short_line(indent)));
        }
        _ => {}
    }
    let mut out = TextBuffer::new(alloc);
    print_in_column(&mut out, spacing, before, after)?;
    LeafText::own(alloc, out.into_string())
}

/// Appends comments, one behind the other, behind the blanks of a column. Fails where memory runs out.
fn print_in_column(
    out: &mut TextBuffer,
    spacing: Spacing,
    before: &str,
    after: &str,
) -> Result<(), AllocError>
    ensures { OnOk result (buffer_bytes out.new ≡ buffer_bytes out.old ++ in_column spacing (before.now ++ after.now)) }
{
    if matches!(spacing, Spacing::Least) {
        return Ok(());
    }
    print_blanks(out, spacing)?;
    out.push_if_any(before)?;
    out.push_if_any(after)
}

/// Appends the blanks of a column.
#[inline(always)]
fn print_blanks(out: &mut TextBuffer, spacing: Spacing) -> Result<(), AllocError>
    ensures { OnOk result (buffer_bytes out.new ≡ buffer_bytes out.old ++ in_column spacing []) }
{
    match spacing {
        Spacing::Least | Spacing::Comments | Spacing::OneLine => Ok(()),
        Spacing::OneSpace => out.push_str(" "),
        Spacing::NewLine(indent) => print_line(out, indent),
    }
}

/// One space in place of nothing.
fn or_space<'a>(text: LeafText<'a>) -> LeafText<'a>
    ensures { leaf_bytes result ≡ table.or_space (leaf_bytes text.entry) }
{
    if text.as_str().is_empty() {
        LeafText::Borrowed(" ")
    } else {
        text
    }
}

/// A separator by a column: its comments with a comma between those in front of it and those behind it.
fn with_comma<'a>(alloc: Global, spacing: Spacing, text: &str) -> Result<LeafText<'a>, AllocError>
    ensures bytes { IfOk result (λ t. leaf_bytes t ≡ table.spaced table.Separating spacing text.now) }
    ensures least { spacing ≡ table.Least → IsOk result }
    ensures free { table.IsShortSpacing spacing → table.comments_before text.now ≡ [] → table.comments_after text.now ≡ [] → IsOk result }
{
    let (before, after) = comments_round_comma(text);
    let is_empty = before.is_empty() && after.is_empty();
    match spacing {
        Spacing::Least => return Ok(LeafText::Borrowed(",")),
        Spacing::Comments if is_empty => return Ok(LeafText::Borrowed(",")),
        Spacing::OneLine if is_empty => return Ok(LeafText::Borrowed(", ")),
        Spacing::OneSpace if is_empty => return Ok(LeafText::Borrowed(" ,")),
        Spacing::NewLine(indent) if is_empty && indent <= SHORT => {
            return Ok(LeafText::Borrowed(comma_line(indent)));
        }
        _ => {}
    }
    let mut out = TextBuffer::new(alloc);
    print_with_comma(&mut out, spacing, text)?;
    LeafText::own(alloc, out.into_string())
}

/// Appends a separator by a column: its comments with a comma between those in front of it and those behind it. Fails where memory
/// runs out.
#[inline(always)]
fn print_with_comma(out: &mut TextBuffer, spacing: Spacing, text: &str) -> Result<(), AllocError>
    ensures { OnOk result (buffer_bytes out.new ≡ buffer_bytes out.old ++ table.spaced table.Separating spacing text.now) }
{
    if is_bare_separator(text) {
        return print_comma(out, spacing);
    }
    print_round_comma(out, spacing, text)
}

/// Appends the comma of a separator without comments.
#[inline(always)]
fn print_comma(out: &mut TextBuffer, spacing: Spacing) -> Result<(), AllocError>
    ensures { OnOk result (buffer_bytes out.new ≡ buffer_bytes out.old ++ comma_in_column spacing) }
{
    match spacing {
        Spacing::Least | Spacing::Comments => out.push_str(","),
        Spacing::OneLine => out.push_str(", "),
        Spacing::OneSpace => out.push_str(" ,"),
        Spacing::NewLine(indent) => print_comma_line(out, indent),
    }
}

/// As [`print_with_comma`], of a text that may have comments.
#[inline(never)]
fn print_round_comma(out: &mut TextBuffer, spacing: Spacing, text: &str) -> Result<(), AllocError>
    ensures { OnOk result (buffer_bytes out.new ≡ buffer_bytes out.old ++ table.spaced table.Separating spacing text.now) }
{
    let (ahead, behind) = comments_in_parts(text);
    match spacing {
        Spacing::Least => return out.push_str(","),
        Spacing::OneSpace => out.push_str(" ")?,
        Spacing::Comments | Spacing::OneLine | Spacing::NewLine(_) => {}
    }
    out.push_if_any(ahead)?;
    match spacing {
        Spacing::OneLine => out.push_str(", ")?,
        Spacing::NewLine(indent) => print_comma_line(out, indent)?,
        Spacing::Least | Spacing::Comments | Spacing::OneSpace => out.push_str(",")?,
    }
    out.push_if_any(behind)
}

/// A comma, a line feed and so many spaces.
fn comma_line(indent: usize) -> &'static str
    requires { indent ≤ 64 }
    ensures { result.now ≡ 44 ∷ line indent }
{
    &COMMA_LINE[..indent + 2]
}

/// A line feed and so many spaces.
fn short_line(indent: usize) -> &'static str
    requires { indent ≤ 64 }
    ensures { result.now ≡ line indent }
{
    &comma_line(indent)[1..]
}

/// Appends a comma, a line feed and so many spaces.
#[inline(always)]
fn print_comma_line(out: &mut TextBuffer, indent: usize) -> Result<(), AllocError>
    ensures { OnOk result (buffer_bytes out.new ≡ buffer_bytes out.old ++ 44 ∷ line indent) }
{
    if indent <= SHORT {
        return out.push_str(comma_line(indent));
    }
    print_long_comma_line(out, indent)
}

#[inline(never)]
fn print_long_comma_line(out: &mut TextBuffer, indent: usize) -> Result<(), AllocError>
    ensures { OnOk result (buffer_bytes out.new ≡ buffer_bytes out.old ++ 44 ∷ line indent) }
{
    out.push_str(",")?;
    print_long_line(out, indent)
}

/// Appends a line feed and so many spaces.
fn print_line(out: &mut TextBuffer, indent: usize) -> Result<(), AllocError>
    ensures { OnOk result (buffer_bytes out.new ≡ buffer_bytes out.old ++ line indent) }
{
    if indent <= SHORT {
        return out.push_str(short_line(indent));
    }
    print_long_line(out, indent)
}

/// Appends a line feed and so many spaces. Where there is no memory for these it fails before it writes them.
fn print_long_line(out: &mut TextBuffer, indent: usize) -> Result<(), AllocError>
    ensures { OnOk result (buffer_bytes out.new ≡ buffer_bytes out.old ++ line indent) }
{
    out.push_str("\n")?;
    out.reserve(indent)?;
    'spaces: for _ in 0..indent {
        out.push_str(" ")?;
    }
    Ok(())
}
