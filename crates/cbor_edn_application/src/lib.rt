//! Literals and annotations: functions that visits call, and the visits with them.
#![tactic(auto)]

mod address;
mod all;
mod answers;
mod bignum;
mod claims;
mod claims_sets;
mod confirmation;
mod cose;
mod embedded;
mod integers;
mod key_names;
mod language;
pub mod laws;
mod oscore;
mod reply;
mod same;
mod tag999;
mod tags;
mod time;
pub mod visits;

pub use address::{ip_aol_to_item, ip_item_to_aol, ip_tag_to_aol};
pub use all::{all_aol_to_item, all_tag_prettify};
pub use bignum::tag23_to_edn_integer;
pub use cbor_edn_times_and_addresses::address::IpVersion;
pub use claims::{CcsHandler, comment_ccs};
pub use confirmation::CnfHandler;
pub use cose::{annotate_message, comment_cose};
pub use embedded::show_embedded;
pub use language::comment_lang_tag;
pub use oscore::OscHandler;
pub use tag999::any_aol_to_tag999;
pub use time::{dt_aol_to_item, dt_item_to_aol, dt_tag_to_aol};
