//! Loans of parts of items.
ghost use Rattle.std.specs.Prelude.{◌≡◌, option_map, IfErr, None};
ghost use Rattle.std.specs.Option.{is_some};
ghost use Rattle.std.specs.Result.{result_ok};
ghost use Rattle.std.specs.Borrow.{sem};
ghost use Rattle.cbor_edn_model.specs.tree.TreeLeaves.{Ghosts};
ghost use Rattle.cbor_edn_model.specs.access.Accessed.{tag_content};
ghost use Rattle.cbor_edn_core.specs.access.Lent.{LendsTagged, LendsTaggedInner};
ghost use Rattle.cbor_edn_core.specs.tree.View.{view_item, view_inner, view_standalone};

use crate::access::TypeMismatch;
use crate::tree::{InnerItemOf, ItemOf, OpenerKind, StandaloneItemOf};

impl<O: Drop, M: Drop, C: Drop, E: Drop, N: Drop, L: Drop, D: Drop> ItemOf<O, M, C, E, N, L, D> {
    /// What stands between the parentheses of a tag, the spaces there included, lent to be changed. Fails with `TaggedItem` where the
    /// item is none.
    pub fn get_tagged_mut(
        &mut self,
    ) -> Result<&mut StandaloneItemOf<O, M, C, E, N, L, D>, TypeMismatch>
        ensures* lent { sem 𝓛 (LendsTagged O.row M.row C.row E.row N.row L.row D.row self.entry result) }
        ensures found { (leaves : Ghosts O M C E N L D) → option_map (λ w. view_standalone leaves w.now) (result_ok result) ≡ tag_content (view_item leaves self.old) }
        ensures refused { IfErr result (λ e. (e ≡ TypeMismatch.TaggedItem) × ((leaves : Ghosts O M C E N L D) → tag_content (view_item leaves self.old) ≡ None)) }
    {
        self.inner.tagged_mut()
    }
}

impl<O: Drop, M: Drop, C: Drop, E: Drop, N: Drop, L: Drop, D: Drop> InnerItemOf<
    O,
    M,
    C,
    E,
    N,
    L,
    D,
> {
    fn tagged_mut(&mut self) -> Result<&mut StandaloneItemOf<O, M, C, E, N, L, D>, TypeMismatch>
        ensures* lent { sem 𝓛 (LendsTaggedInner O.row M.row C.row E.row N.row L.row D.row self.entry result) }
        ensures found { (leaves : Ghosts O M C E N L D) → option_map (λ w. view_standalone leaves w.now) (result_ok result) ≡ tag_content (view_inner leaves self.old) }
        ensures refused { IfErr result (λ e. (e ≡ TypeMismatch.TaggedItem) × ((leaves : Ghosts O M C E N L D) → tag_content (view_inner leaves self.old) ≡ None)) }
    {
        if !self.is_tag() {
            return Err(TypeMismatch::TaggedItem);
        }
        match self {
            InnerItemOf::Enclosed(_, content) => Ok(content),
            _ => Err(TypeMismatch::TaggedItem),
        }
    }

    fn is_tag(&self) -> bool
        ensures { (leaves : Ghosts O M C E N L D) → result ≡ is_some (tag_content (view_inner leaves self.now)) }
    {
        match self {
            InnerItemOf::Enclosed(opener, _) => match opener.kind {
                OpenerKind::Tag(..) => true,
                OpenerKind::Simple => false,
            },
            _ => false,
        }
    }
}
