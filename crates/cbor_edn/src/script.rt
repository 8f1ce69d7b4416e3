//! Lists of edits of a sequence, and the laws of what they leave.

pub use cbor_edn_script::{Edit, ScriptError, laws, run};
