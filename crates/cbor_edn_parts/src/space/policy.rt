//! Delimiter policies: what becomes of the spaces between tokens.
ghost use Rattle.std.specs.Prelude.{◌≡◌};
ghost use Rattle.cbor_edn_parts.specs.space.Spacing as spacing;

/// What is to become of the spaces between the tokens of items.
#[derive(Clone, Copy, Debug, PartialEq, Eq)]
pub enum DelimiterPolicy {
    /// No comments, and no space but where the grammar wants one.
    DiscardAll,
    /// The comments, and no space but where the grammar wants one.
    DiscardAllButComments,
    /// The spaces of a single line, as in `[1, {2: 3}]`.
    SingleLineRegularSpacing,
    /// What is less than `max_width` bytes wide stands on a single line, all else on lines of its own. Such a line begins with
    /// `base_indent` spaces, and with `indent_level` more of them at each level.
    IndentedRegularSpacing {
        base_indent: usize,
        indent_level: usize,
        max_width: usize,
    },
    /// One space, and the comments, wherever space may be.
    SingleSpace,
}

impl DelimiterPolicy {
    /// No indentation at first, then by four spaces, on lines of less than 80 bytes.
    pub fn indented() -> DelimiterPolicy
        ensures { result ≡ spacing.indented }
    {
        DelimiterPolicy::IndentedRegularSpacing {
            base_indent: 0,
            indent_level: 4,
            max_width: 80,
        }
    }
}

/// What is done with one space text: a column of the table of spaces.
#[derive(Clone, Copy, Debug, PartialEq, Eq)]
pub enum Spacing {
    /// As little as the grammar lets stand.
    Least,
    /// The comments alone.
    Comments,
    /// The comments, and a space behind each comma.
    OneLine,
    /// The comments, on a line of their own that begins with so many spaces.
    NewLine(usize),
    /// One space, and the comments.
    OneSpace,
}
