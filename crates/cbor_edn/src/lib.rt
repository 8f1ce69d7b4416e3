//! The Extended Diagnostic Notation (EDN) of CBOR: read, printed, encoded and decoded without loss.
#![tactic(auto)]

pub mod application;
mod boxed;
mod elements;
pub mod engine;
pub mod format;
pub mod laws;
mod line_feed;
mod long_arrays;
pub mod option_steps;
pub mod script;
pub mod show;

pub use cbor_edn_command::{file_options, file_words, words};
pub use cbor_edn_core::access::{
    ArrayItems, ArrayItemsMut, MapItems, MapItemsMut, SequenceItemsMut, TypeMismatch,
};
pub use cbor_edn_core::cbor::decode::CborError;
pub use cbor_edn_core::tree::{Item, NESTING_LIMIT, Sequence, StandaloneItem};
pub use cbor_edn_core::visit::MapValueHandler;
pub use cbor_edn_model::text::keyword::NamedSimple;
pub use cbor_edn_parts::base::buffer::TextBuffer;
pub use cbor_edn_parts::base::error::{CallbackError, Fault, InconsistentEdn, ParseError};
pub use cbor_edn_parts::base::indicator::Indicator;
pub use cbor_edn_parts::base::looks::Looks;
pub use cbor_edn_parts::space::policy::DelimiterPolicy;
