//! The widths of what stands in a text beside its items.
ghost use Rattle.std.specs.Fmt.{decimal};
ghost use Rattle.std.specs.Prelude.{◌≡◌, length};
ghost use Rattle.cbor_edn_parts.specs.base.Indicator.{indicator_text};
ghost use Rattle.cbor_edn_parts.specs.Leaves.{space_bytes, mandatory_bytes, separator_bytes, list_end_bytes};
ghost use Rattle.cbor_edn_parts.specs.space.Spacing as kind;
ghost use Rattle.cbor_edn_model.specs.tree.Trees.{opener_text};
ghost use Rattle.cbor_edn_model.specs.internal.Widths as widths;
ghost use Rattle.cbor_edn_model.specs.internal.Widths.{Leaves, space_width, capped};

use crate::text::opener::OpenerKind;
use cbor_edn_parts::base::indicator::Indicator;
use cbor_edn_parts::space::policy::Spacing;
use cbor_edn_parts::space::{ListEnd, MandatorySpace, Separator, Space};

/// Which spaces a width counts.
#[derive(Clone, Copy)]
pub enum Spaces {
    /// Those that stand there.
    Kept,
    /// Those by a column of the table.
    By(Spacing),
}

impl Spaces {
    /// The spaces to count round a plus sign and behind a colon.
    pub fn wide(self) -> Spaces
        ensures { result ≡ widths.wide self }
    {
        match self {
            Spaces::By(Spacing::OneLine) => Spaces::By(Spacing::OneSpace),
            spaces => spaces,
        }
    }

    /// The spaces to count in the strings of a stream.
    pub fn in_stream(self) -> Spaces
        ensures { result ≡ widths.in_stream self }
    {
        match self {
            Spaces::By(Spacing::OneLine) => Spaces::By(Spacing::Comments),
            spaces => spaces,
        }
    }
}

/// How many bytes an optional space counts. The greatest number stands for any that is more.
#[inline(always)]
pub fn space_len(spaces: Spaces, space: &Space<'_>) -> usize
    ensures { result ≡ capped (space_width kind.Optional spaces (space_bytes space.now)) }
{
    match spaces {
        Spaces::Kept => space.as_str().len(),
        Spaces::By(spacing) => space.spaced_len(spacing),
    }
}

/// How many bytes a mandatory space counts. The greatest number stands for any that is more.
pub fn mandatory_len(spaces: Spaces, space: &MandatorySpace<'_>) -> usize
    ensures { result ≡ capped (space_width kind.Mandatory spaces (mandatory_bytes space.now)) }
{
    match spaces {
        Spaces::Kept => space.as_str().len(),
        Spaces::By(spacing) => space.spaced_len(spacing),
    }
}

/// How many bytes a separator counts. The greatest number stands for any that is more.
pub fn separator_len(spaces: Spaces, space: &Separator<'_>) -> usize
    ensures { result ≡ capped (space_width kind.Separating spaces (separator_bytes space.now)) }
{
    match spaces {
        Spaces::Kept => space.as_str().len(),
        Spaces::By(spacing) => space.spaced_len(spacing),
    }
}

/// How many bytes the end of a list counts. The greatest number stands for any that is more.
pub fn list_end_len(spaces: Spaces, space: &ListEnd<'_>) -> usize
    ensures { result ≡ capped (space_width kind.AtEnd spaces (list_end_bytes space.now)) }
{
    match spaces {
        Spaces::Kept => space.as_str().len(),
        Spaces::By(spacing) => space.spaced_len(spacing),
    }
}

/// How many bytes an encoding indicator has, with its underscore: 2 for `_1`, and 0 for none.
pub fn indicator_len(indicator: Option<Indicator>) -> usize
    ensures { result ≡ length (indicator_text indicator) }
{
    match indicator {
        None => 0,
        Some(indicator) => indicator.as_str().len(),
    }
}

/// How many bytes a label has: 3 for `1_0`, and 6 for `simple`.
pub fn opener_len(opener: OpenerKind) -> usize
    ensures { result ≡ capped (length (opener_text opener)) }
{
    match opener {
        OpenerKind::Tag(indicator, number) => {
            decimal_len(number).saturating_add(indicator_len(indicator))
        }
        OpenerKind::Simple => "simple".len(),
    }
}

/// The room that is left behind so many bytes, or none where they are more than the room.
#[inline]
pub fn room_behind(room: usize, width: usize) -> Option<usize>
    ensures { Leaves room width result }
{
    room.checked_sub(width)
}

/// How many decimal digits a number has: 1 for 0.
#[tactic(auto, using(crate::proofs::lemmas::layout::Digits::one_digit, crate::proofs::lemmas::layout::Digits::more_digits, crate::proofs::lemmas::layout::Digits::few_digits))]
pub fn decimal_len(number: u64) -> usize
    ensures { result ≡ length (decimal number) }
{
    if number < 10 {
        1
    } else {
        decimal_len(number / 10) + 1
    }
}
