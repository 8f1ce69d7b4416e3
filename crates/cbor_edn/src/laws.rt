//! Laws: each function's contract is one. The calls of `recode` promise what several calls do in turn.
pub mod formatted;
pub mod recode;
pub mod runs;
pub mod shown;

pub use cbor_edn_conversions::laws::{answers_given, pretty_resolved_again, visits_exist};
pub use cbor_edn_core::laws::{item_spells, sequence_spells, standalone_spells};
pub use cbor_edn_model::laws::{
    bare_items, decoded_layout, item_means, items_and_spaces, layouts_forget, layouts_keep_items,
    literal_is_answered, one_encoding, spelled_by_trees, spelled_means, unique_reading,
};
