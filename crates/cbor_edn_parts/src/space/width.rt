//! How long space texts are by a column of the table, told without memory.
ghost use Rattle.std.specs.Prelude.{◌≡◌, ◌-◌, ◌^◌, min, length};
ghost use Rattle.cbor_edn_parts.specs.Leaves.{space_bytes, mandatory_bytes, separator_bytes, list_end_bytes};
ghost use Rattle.cbor_edn_parts.specs.space.Spacing as table;
ghost use Rattle.cbor_edn_parts.specs.internal.Columns.{column_length, separator_length};

use super::comments::{comments, comments_round_comma};
use super::{ListEnd, MandatorySpace, Separator, Space};
use crate::space::policy::Spacing;

impl Space<'_> {
    /// How long the text is by a column of the table, or the greatest number where it is longer.
    #[inline(always)]
    pub fn spaced_len(&self, spacing: Spacing) -> usize
        ensures { result ≡ min (length (table.spaced table.Optional spacing (space_bytes self.now))) (2 ^ 64 - 1) }
    {
        let comments = comments(self.as_str());
        column_len(spacing, comments.len())
    }
}

impl MandatorySpace<'_> {
    /// How long the text is by a column of the table, or the greatest number where it is longer.
    pub fn spaced_len(&self, spacing: Spacing) -> usize
        ensures { result ≡ min (length (table.spaced table.Mandatory spacing (mandatory_bytes self.now))) (2 ^ 64 - 1) }
    {
        let comments = comments(self.as_str());
        column_len(spacing, comments.len()).max(1)
    }
}

impl Separator<'_> {
    /// How long the text is by a column of the table, or the greatest number where it is longer.
    pub fn spaced_len(&self, spacing: Spacing) -> usize
        ensures { result ≡ min (length (table.spaced table.Separating spacing (separator_bytes self.now))) (2 ^ 64 - 1) }
    {
        let (before, after) = comments_round_comma(self.as_str());
        separator_len(spacing, before.len().saturating_add(after.len()))
    }
}

impl ListEnd<'_> {
    /// How long the text is by a column of the table, or the greatest number where it is longer.
    pub fn spaced_len(&self, spacing: Spacing) -> usize
        ensures { result ≡ min (length (table.spaced table.AtEnd spacing (list_end_bytes self.now))) (2 ^ 64 - 1) }
    {
        let (before, after) = comments_round_comma(self.as_str());
        column_len(spacing, before.len().saturating_add(after.len()))
    }
}

/// How long comments are behind the blanks of a column.
fn column_len(spacing: Spacing, comments: usize) -> usize
    ensures { result ≡ min (column_length spacing comments) (2 ^ 64 - 1) }
{
    match spacing {
        Spacing::Least => 0,
        Spacing::Comments | Spacing::OneLine => comments,
        Spacing::NewLine(indent) => comments.saturating_add(indent).saturating_add(1),
        Spacing::OneSpace => comments.saturating_add(1),
    }
}

/// How long a separator with such comments is.
fn separator_len(spacing: Spacing, comments: usize) -> usize
    ensures { result ≡ min (separator_length spacing comments) (2 ^ 64 - 1) }
{
    match spacing {
        Spacing::Least => 1,
        Spacing::Comments => comments.saturating_add(1),
        Spacing::OneLine | Spacing::OneSpace => comments.saturating_add(2),
        Spacing::NewLine(indent) => comments.saturating_add(indent).saturating_add(2),
    }
}
