//! Space texts: optional space (S), mandatory space (MS), separators (MSC) and the ends of lists (SOC).
ghost use Rattle.std.specs.Prelude.{◌≡◌, ◌↔◌, IsTrue, [], ◌∷◌, IfOk, IfSome, IsNone};
ghost use Rattle.cbor_edn_parts.specs.base.LeafTexts.{leaf_bytes};
ghost use Rattle.cbor_edn_parts.specs.internal.SpaceTokens as tokens;
ghost use Rattle.cbor_edn_parts.specs.internal.SpaceTokens.{is_space, is_mandatory_space, is_separator, is_list_end};
ghost use Rattle.cbor_edn_parts.specs.internal.StateLaws.{space_stays, space_inside};

use crate::base::bytes::Kind;
use crate::base::leaf_text::LeafText;
use crate::base::scan::State;
pub use note::TakesComment;
pub use read::{ItemEnd, separator_behind, space_at, space_behind};
use std::alloc::AllocError;

mod comments;
pub mod copy;
mod joined;
pub mod layout;
mod note;
pub mod policy;
mod read;
mod spaced;
mod width;

/// Optional space: blanks and comments, `S` of the grammar.
#[derive(Debug, PartialEq, Drop)]
pub struct Space<'a> {
    text: LeafText<'a>,
    pub ghost spelled: { IsTrue (is_space (leaf_bytes text)) },
}

/// Mandatory space, which is not empty: `MS` of the grammar.
#[derive(Debug, PartialEq, Drop)]
pub struct MandatorySpace<'a> {
    text: LeafText<'a>,
    pub ghost spelled: { IsTrue (is_mandatory_space (leaf_bytes text)) },
}

/// A separator: a comma, space, or both, `MSC` of the grammar.
#[derive(Debug, PartialEq, Drop)]
pub struct Separator<'a> {
    text: LeafText<'a>,
    pub ghost spelled: { IsTrue (is_separator (leaf_bytes text)) },
}

/// The end of a list: space with at most one comma, `SOC` of the grammar.
#[derive(Debug, PartialEq, Drop)]
pub struct ListEnd<'a> {
    text: LeafText<'a>,
    pub ghost spelled: { IsTrue (is_list_end (leaf_bytes text)) },
}

impl<'a> Space<'a> {
    ghost use Rattle.cbor_edn_parts.specs.Leaves.{space_bytes, mandatory_bytes, BorrowsSpace, BorrowsMandatory};

    /// No space.
    pub fn empty() -> Space<'a>
        ensures bytes { space_bytes result ≡ [] }
        ensures borrowed { BorrowsSpace result }
    {
        let text = LeafText::Borrowed("");
        Space { text }
    }

    /// One space.
    pub fn single() -> Space<'a>
        ensures bytes { space_bytes result ≡ 32 ∷ [] }
        ensures borrowed { BorrowsSpace result }
    {
        let text = LeafText::Borrowed(" ");
        Space { text }
    }

    /// The text as it is written, comments and all.
    #[inline]
    pub fn as_str(&self) -> &str
        ensures { result.now ≡ space_bytes self.now }
    {
        self.text.as_str()
    }

    /// A copy of the text. Fails where memory runs out, which a text that is borrowed or of at most 22 bytes doesn't need.
    pub fn clone(&self) -> Result<Space<'a>, AllocError>
        ensures { IfOk result (λ t. space_bytes t ≡ space_bytes self.now) }
    {
        let text = self.text.clone()?;
        Ok(Space { text })
    }

    /// The text as mandatory space, or none where it is empty.
    pub fn into_mandatory(self) -> Option<MandatorySpace<'a>>
        ensures none { IsNone result ↔ (space_bytes self.entry ≡ []) }
        ensures same { IfSome result (λ s. mandatory_bytes s ≡ space_bytes self.entry) }
        ensures borrowed { BorrowsSpace self.entry → IfSome result (λ s. BorrowsMandatory s) }
    {
        let text = self.text;
        if text.as_str().is_empty() {
            None
        } else {
            Some(MandatorySpace { text })
        }
    }
}

impl<'a> MandatorySpace<'a> {
    ghost use Rattle.cbor_edn_parts.specs.Leaves.{mandatory_bytes, BorrowsMandatory};

    /// One space.
    pub fn single() -> MandatorySpace<'a>
        ensures bytes { mandatory_bytes result ≡ 32 ∷ [] }
        ensures borrowed { BorrowsMandatory result }
    {
        let text = Space::single().text;
        MandatorySpace { text }
    }

    /// The text as it is written, comments and all.
    #[inline]
    pub fn as_str(&self) -> &str
        ensures { result.now ≡ mandatory_bytes self.now }
    {
        self.text.as_str()
    }

    /// A copy of the text. Fails where memory runs out, which a text that is borrowed or of at most 22 bytes doesn't need.
    pub fn clone(&self) -> Result<MandatorySpace<'a>, AllocError>
        ensures { IfOk result (λ t. mandatory_bytes t ≡ mandatory_bytes self.now) }
    {
        let text = self.text.clone()?;
        Ok(MandatorySpace { text })
    }
}

impl<'a> Separator<'a> {
    ghost use Rattle.cbor_edn_parts.specs.Leaves.{separator_bytes, BorrowsSeparator};

    /// A comma.
    pub fn comma() -> Separator<'a>
        ensures bytes { separator_bytes result ≡ 44 ∷ [] }
        ensures borrowed { BorrowsSeparator result }
    {
        let text = LeafText::Borrowed(",");
        Separator { text }
    }

    /// A comma and one space.
    pub fn comma_space() -> Separator<'a>
        ensures bytes { separator_bytes result ≡ 44 ∷ 32 ∷ [] }
        ensures borrowed { BorrowsSeparator result }
    {
        let text = LeafText::Borrowed(", ");
        Separator { text }
    }

    /// The text as it is written, comments and all.
    #[inline]
    pub fn as_str(&self) -> &str
        ensures { result.now ≡ separator_bytes self.now }
    {
        self.text.as_str()
    }

    /// A copy of the text. Fails where memory runs out, which a text that is borrowed or of at most 22 bytes doesn't need.
    pub fn clone(&self) -> Result<Separator<'a>, AllocError>
        ensures { IfOk result (λ t. separator_bytes t ≡ separator_bytes self.now) }
    {
        let text = self.text.clone()?;
        Ok(Separator { text })
    }
}

impl<'a> ListEnd<'a> {
    ghost use Rattle.cbor_edn_parts.specs.Leaves.{separator_bytes, list_end_bytes, BorrowsSeparator, BorrowsListEnd};

    /// No space and no comma.
    pub fn empty() -> ListEnd<'a>
        ensures { list_end_bytes result ≡ [] }
    {
        let text = LeafText::Borrowed("");
        ListEnd { text }
    }

    /// The text as it is written, comments and all.
    #[inline]
    pub fn as_str(&self) -> &str
        ensures { result.now ≡ list_end_bytes self.now }
    {
        self.text.as_str()
    }

    /// A copy of the text. Fails where memory runs out, which a text that is borrowed or of at most 22 bytes doesn't need.
    pub fn clone(&self) -> Result<ListEnd<'a>, AllocError>
        ensures { IfOk result (λ t. list_end_bytes t ≡ list_end_bytes self.now) }
    {
        let text = self.text.clone()?;
        Ok(ListEnd { text })
    }

    /// The text as a separator, or none where it is empty.
    pub fn into_separator(self) -> Option<Separator<'a>>
        ensures none { IsNone result ↔ (list_end_bytes self.entry ≡ []) }
        ensures same { IfSome result (λ s. separator_bytes s ≡ list_end_bytes self.entry) }
        ensures borrowed { BorrowsListEnd self.entry → IfSome result (λ s. BorrowsSeparator s) }
    {
        let text = self.text;
        if text.as_str().is_empty() {
            None
        } else {
            Some(Separator { text })
        }
    }
}

/// Where a scan of space stands: between comments or inside one.
#[derive(Clone, Copy, Debug, PartialEq)]
pub enum SpaceState {
    Between,
    InSlashes,
    InHash,
}

impl State for SpaceState {
    ghost automaton = { tokens.space };

    fn step(self, byte: u8) -> Option<SpaceState> {
        self.behind(Kind::of(byte))
    }

    fn is_final(self) -> bool {
        matches!(self, SpaceState::Between)
    }

    ghost stays = { space_stays };

    ghost inside = { space_inside };
}

impl SpaceState {
    /// The state behind one more byte of this kind.
    pub(crate) fn behind(self, kind: Kind) -> Option<SpaceState>
        ensures { result ≡ tokens.space_step kind self }
    {
        match (kind, self) {
            (Kind::Blank | Kind::Tab, _) => Some(self),
            (Kind::Lf, SpaceState::InHash) => Some(SpaceState::Between),
            (Kind::Lf, _) => Some(self),
            (Kind::Control, _) => None,
            (Kind::Slash, SpaceState::Between) => Some(SpaceState::InSlashes),
            (Kind::Slash, SpaceState::InSlashes) => Some(SpaceState::Between),
            (Kind::Hash, SpaceState::Between) => Some(SpaceState::InHash),
            (_, SpaceState::Between) => None,
            _ => Some(self),
        }
    }
}
