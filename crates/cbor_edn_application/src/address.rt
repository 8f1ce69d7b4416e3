//! Literals of IP addresses, and the items that they stand for: `ip'192.0.2.1'` and `h'c0000201'`, `IP'192.0.2.0/24'` and
//! `52([24, h'c00002'])`.

mod items;
mod literals;
mod placing;
mod tags;

pub use items::ip_aol_to_item;
pub(crate) use items::is_address;
pub use literals::ip_item_to_aol;
pub use tags::ip_tag_to_aol;
