//! What stands in front of the entries of a list: an indicator and the space behind it, if they are there.
ghost use Rattle.std.specs.Prelude.{◌≡◌, ◌++◌, IfOk, IsOk, OnOk};
ghost use Rattle.cbor_edn_parts.specs.base.Buffer.{buffer_bytes};
ghost use Rattle.cbor_edn_parts.specs.space.LayoutColumns.{least};
ghost use Rattle.cbor_edn_parts.specs.Leaves.{space_bytes, mandatory_bytes};
ghost use Rattle.cbor_edn_model.specs.layout.Bare as bare;
ghost use Rattle.cbor_edn_model.specs.layout.Bare.{first_space};
ghost use Rattle.cbor_edn_model.specs.layout.Layout.{laid_list_head};
ghost use Rattle.cbor_edn_model.specs.tree.TreeLeaves.{texts};
ghost use Rattle.cbor_edn_model.specs.text.ListHeads.{view_list_head};
ghost use Rattle.cbor_edn_model.specs.tree.Trees as trees;
ghost use Rattle.cbor_edn_model.specs.tree.Trees.{NoIndicator, list_head_text, head_indicator};
ghost use Rattle.cbor_edn_model.specs.internal.Same.{same_head};
ghost use Rattle.cbor_edn_model.specs.internal.Moved.{space_or};
ghost use Rattle.cbor_edn_model.specs.internal.Regular.{spaced_list_head};
ghost use Rattle.cbor_edn_model.specs.internal.Widths.{capped, head_width};

use crate::layout::width::{Spaces, mandatory_len};
use cbor_edn_parts::base::buffer::TextBuffer;
use cbor_edn_parts::base::indicator::Indicator;
use cbor_edn_parts::space::layout::{Layout, Slot, lay_mandatory, print_mandatory};
use cbor_edn_parts::space::{MandatorySpace, Space};
use std::alloc::{AllocError, Global};

/// What stands in front of the entries of a list, over any space: its encoding indicator and the space behind that, or nothing.
#[derive(Drop)]
pub struct ListHeadOf<M: Drop> {
    pub(crate) indicated: Option<(Indicator, M)>,
}

/// What stands in front of the entries of a list of a text: `specms` of the grammar, or nothing.
pub type ListHead<'a> = ListHeadOf<MandatorySpace<'a>>;

impl<'a> ListHead<'a> {
    /// Nothing.
    pub fn none() -> ListHead<'a>
        ensures { view_list_head texts result ≡ NoIndicator }
    {
        let indicated = None;
        ListHead { indicated }
    }

    /// An indicator with one space behind it, as in front of the entries of a decoded list, or nothing without one.
    pub fn spaced(indicator: Option<Indicator>) -> ListHead<'a>
        ensures { view_list_head texts result ≡ spaced_list_head indicator }
    {
        let indicated = match indicator {
            None => None,
            Some(indicator) => Some((indicator, MandatorySpace::single())),
        };
        ListHead { indicated }
    }

    /// The indicator, if there is one.
    pub fn indicator(&self) -> Option<Indicator>
        ensures { result ≡ trees.head_indicator (view_list_head texts self.now) }
    {
        match &self.indicated {
            None => None,
            Some((indicator, _)) => Some(*indicator),
        }
    }

    /// A copy. Fails where memory runs out.
    pub fn clone(&self) -> Result<ListHead<'a>, AllocError>
        ensures { IfOk result (λ t. view_list_head texts t ≡ view_list_head texts self.now) }
    {
        match &self.indicated {
            None => Ok(ListHead { indicated: None }),
            Some((indicator, space)) => {
                let space = space.clone()?;
                let indicated = Some((*indicator, space));
                Ok(ListHead { indicated })
            }
        }
    }

    /// Whether both have the same indicator and the same space behind it, or both have none.
    pub fn is_same(&self, other: &ListHead<'_>) -> bool
        ensures { result ≡ same_head (view_list_head texts self.now) (view_list_head texts other.now) }
    {
        match (&self.indicated, &other.indicated) {
            (None, None) => true,
            (Some((i, s)), Some((j, t))) => *i == *j && *s == *t,
            _ => false,
        }
    }

    /// How many bytes the indicator and the space behind it count, 0 without one. The greatest number stands for any that is more.
    pub fn len(&self, spaces: Spaces) -> usize
        ensures { result ≡ capped (head_width spaces (view_list_head texts self.now)) }
    {
        match &self.indicated {
            None => 0,
            Some((indicator, space)) => {
                mandatory_len(spaces, space).saturating_add(indicator.as_str().len())
            }
        }
    }

    /// Lays out the space behind the indicator. Fails where memory runs out, and leaves the space then.
    pub fn lay(&mut self, alloc: Global, layout: Layout) -> Result<(), AllocError>
        ensures laid { OnOk result (view_list_head texts self.new ≡ laid_list_head layout (view_list_head texts self.old)) }
        ensures items { head_indicator (view_list_head texts self.new) ≡ head_indicator (view_list_head texts self.old) }
        ensures least { layout ≡ least → IsOk result }
    {
        match &mut self.indicated {
            None => Ok(()),
            Some((_, space)) => lay_mandatory(space, alloc, layout, Slot::Elsewhere),
        }
    }

    /// Writes the indicator and the space behind it as it is laid out at the end of a text. Fails where memory runs out.
    #[inline(always)]
    pub fn print(&self, out: &mut TextBuffer, layout: Layout) -> Result<(), AllocError>
        ensures { OnOk result (buffer_bytes out.new ≡ buffer_bytes out.old ++ list_head_text (laid_list_head layout (view_list_head texts self.now))) }
    {
        match &self.indicated {
            None => Ok(()),
            Some((indicator, space)) => {
                out.push_str(indicator.as_str())?;
                print_mandatory(out, space, layout, Slot::Elsewhere)
            }
        }
    }

    /// The first space of a list without its indicator, where it is another than before: the space behind the indicator, if it is
    /// more than one space, stands in front of it.
    pub fn moved_space(
        &self,
        first: &Space<'a>,
        alloc: Global,
    ) -> Result<Option<Space<'a>>, AllocError>
        ensures { IfOk result (λ moved. space_or moved (space_bytes first.now) ≡ first_space (view_list_head texts self.now) (space_bytes first.now)) }
    {
        if let Some((_, space)) = &self.indicated {
            if !is_one_space(space) {
                return Ok(Some(space.with_space(alloc, first)?));
            }
        }
        Ok(None)
    }
}

fn is_one_space(space: &MandatorySpace<'_>) -> bool
    ensures { result ≡ bare.is_one_space (mandatory_bytes space.now) }
{
    matches!(space.as_str().as_bytes(), [b' '])
}
