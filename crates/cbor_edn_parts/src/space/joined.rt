//! Space texts one behind the other.
ghost use Rattle.std.specs.Prelude.{◌≡◌, ◌++◌, IfOk};
ghost use Rattle.cbor_edn_parts.specs.Leaves.{space_bytes, mandatory_bytes};

use super::{MandatorySpace, Space};
use crate::base::leaf_text::LeafText;
use std::alloc::{AllocError, Global};

impl<'a> MandatorySpace<'a> {
    /// The text with the optional space behind it. Fails where memory runs out; no memory is taken where nothing stands
    /// behind a text that is borrowed.
    pub fn with_space(&self, alloc: Global, space: &Space<'a>) -> Result<Space<'a>, AllocError>
        ensures { IfOk result (λ t. space_bytes t ≡ mandatory_bytes self.now ++ space_bytes space.now) }
    {
        if space.as_str().is_empty() {
            let text = self.text.clone()?;
            return Ok(Space { text });
        }
        let text = LeafText::joined(alloc, self.as_str(), space.as_str())?;
        Ok(Space { text })
    }
}
