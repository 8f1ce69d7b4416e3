//! Literals and annotations: what visits call at tags, literals and claims, whole visits with these calls, and their laws.

pub use cbor_edn_application::{
    CcsHandler, CnfHandler, IpVersion, OscHandler, all_aol_to_item, all_tag_prettify,
    annotate_message, any_aol_to_tag999, comment_ccs, comment_cose, comment_lang_tag,
    dt_aol_to_item, dt_item_to_aol, dt_tag_to_aol, ip_aol_to_item, ip_item_to_aol, ip_tag_to_aol,
    laws, show_embedded, tag23_to_edn_integer, visits,
};
