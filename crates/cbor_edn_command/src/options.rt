//! What a run is to do.

/// What a run turns into what.
#[derive(Clone, Copy, Debug, PartialEq, Eq)]
pub enum Command {
    /// A sequence of items in EDN into their encodings in CBOR.
    Diag2Cbor,
    /// Encodings in CBOR into the items in EDN.
    Cbor2Diag,
    /// A sequence of items in EDN into the same with other spaces.
    Diag2Diag,
}

/// What a run is to do. Each option holds for every command, but `hex` says nothing to `Diag2Diag`.
///
/// The items are changed in this order: `annotate_tags`, `remove_comments`, `aol_to_item`, `annotate_ccs`, `bignum_from_tags`,
/// `apply_999`, and then their spaces. What can't be changed stays, some of it with a comment that says why.
#[derive(Clone, Copy, Debug, PartialEq, Eq)]
pub struct Options {
    /// What is turned into what.
    pub command: Command,
    /// CBOR stands in hexadecimal digits, in the output of `Diag2Cbor` and in the input of `Cbor2Diag`.
    pub hex: bool,
    /// Tags of addresses and times become literals, as `IP'192.0.2.1'` in the place of `52(h'c0000201')`. The direction of the
    /// text in a tag 38 gets a comment.
    pub annotate_tags: bool,
    /// Literals with a prefix become tags, as `999(["foo", "bar"])` in the place of `foo'bar'`. Those of the prefixes `h`, `b64`,
    /// `b32` and `h32` stay.
    pub apply_999: bool,
    /// Literals of addresses and times become what they stand for, as `23` in the place of `dt'1970-01-01T00:00:23Z'`.
    pub aol_to_item: bool,
    /// Bignums become integers, as `18446744073709551616` in the place of `2(h'010000000000000000')`.
    pub bignum_from_tags: bool,
    /// Each item of the sequence that is a map is taken for the claims set of a CWT: its keys get the names of their claims as
    /// comments, and numbers that are times become literals.
    pub annotate_ccs: bool,
    /// Comments are left out.
    pub remove_comments: bool,
    /// Spaces stay as they are, where else items are indented.
    pub preserve_space: bool,
    /// How deep items may nest, in levels: each takes stack.
    pub limit: usize,
}
