//! Laws over the definitions: functions that do nothing, whose contracts are the laws.
ghost use Rattle.std.specs.Prelude.{◌≡◌, ℕ, List, Some};
ghost use Rattle.cbor_edn_model.specs.tree.Trees.{Tree, OneItem, Seq};
ghost use Rattle.cbor_edn_model.specs.access.Paths.{at_sequence};
ghost use Rattle.cbor_edn_places.specs.Between.{IsBetween};
ghost use Rattle.cbor_edn_places.specs.Refusals.{FrontsSuffice, FrontsAreRefusedSo};

/// Another item where a path leads changes the text there alone.
pub fn edits_stay_in_place()
    ensures { (w : Tree Seq) (path : List ℕ) (x : Tree OneItem) → at_sequence path w ≡ Some x → (before behind : List ℕ) × IsBetween w path before behind }
{}

/// Where a front of bytes is refused, but for want of bytes, all that begins so is refused with the same fault, and is no CBOR.
pub fn fronts_suffice()
    ensures { FrontsSuffice }
{}

/// A front of bytes that are refused is read, or ends too early, or is refused with the same fault.
pub fn fronts_are_refused_so()
    ensures { FrontsAreRefusedSo }
{}
