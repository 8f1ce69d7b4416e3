//! The tags and the texts of addresses.
ghost use Rattle.std.specs.Prelude.{◌≡◌, Ok, Err, IfOk, string_bytes};
ghost use Rattle.cbor_edn_parts.specs.base.Refusals.{IfTold};
ghost use Rattle.cbor_edn_conversions.specs.Addresses.{address_tag, refusal_message, whole_text, prefix_text};
ghost use Rattle.cbor_edn_times_and_addresses.specs.Address.{size_of};

use cbor_edn_parts::base::error::Fault;
use cbor_edn_times_and_addresses::address::{IpVersion, filled_address, print_address};
use std::alloc::Global;

/// The number of the tag of addresses of this version: 52 or 54 (RFC 9164).
pub fn address_tag(version: IpVersion) -> u64
    ensures { result ≡ address_tag version }
{
    match version {
        IpVersion::V4 => 52,
        IpVersion::V6 => 54,
    }
}

/// Why bytes, or bytes behind a prefix length, are no address of a version.
#[derive(Clone, Copy, Debug, PartialEq, Eq)]
pub enum NoAddress {
    /// More bytes than an address has.
    TooLong,
    /// Fewer, and no prefix length.
    TooShort,
    /// A prefix length below 0, or past the bits of an address.
    LengthTooLarge,
}

impl NoAddress {
    /// The message of the reason, as a comment has it.
    pub fn as_str(self) -> &'static str
        ensures { result.now ≡ refusal_message self }
    {
        match self {
            NoAddress::TooLong => "Data too long for address type",
            NoAddress::TooShort => "Data too short for address type",
            NoAddress::LengthTooLarge => "Prefix exceeds address size",
        }
    }
}

/// The text of a whole address of 4 or 16 bytes, as `192.0.2.1`. Fails with `TooLong` or `TooShort` for other numbers of bytes, and where
/// memory runs out.
pub fn whole_text(
    alloc: Global,
    version: IpVersion,
    bytes: &[u8],
) -> Result<String, Fault<NoAddress>>
    ensures text { IfOk result (λ s. whole_text version bytes.now ≡ Ok (string_bytes s)) }
    ensures refused { IfTold result (λ e. whole_text version bytes.now ≡ Err (refusal_message e)) }
{
    let size = size_of(version);
    if bytes.len() > size {
        return Err(Fault::Told(NoAddress::TooLong));
    }
    if bytes.len() < size {
        return Err(Fault::Told(NoAddress::TooShort));
    }
    let text = print_address(alloc, &filled_address(version, bytes), None)?;
    Ok(text)
}

/// The text of an address with a prefix length in bits, as `192.0.2.0/24` of 24 and 3 bytes, which are filled with zeros. Fails with
/// `TooLong`, with `LengthTooLarge`, and where memory runs out.
pub fn prefix_text(
    alloc: Global,
    version: IpVersion,
    prefix_length: i128,
    bytes: &[u8],
) -> Result<String, Fault<NoAddress>>
    ensures text { IfOk result (λ s. prefix_text version prefix_length bytes.now ≡ Ok (string_bytes s)) }
    ensures refused { IfTold result (λ e. prefix_text version prefix_length bytes.now ≡ Err (refusal_message e)) }
{
    let size = size_of(version);
    if bytes.len() > size {
        return Err(Fault::Told(NoAddress::TooLong));
    }
    let Ok(prefix_length) = u8::try_from(prefix_length) else {
        return Err(Fault::Told(NoAddress::LengthTooLarge));
    };
    if usize::from(prefix_length) > 8 * size {
        return Err(Fault::Told(NoAddress::LengthTooLarge));
    }
    let text = print_address(alloc, &filled_address(version, bytes), Some(prefix_length))?;
    Ok(text)
}

fn size_of(version: IpVersion) -> usize
    ensures { result ≡ size_of version }
{
    match version {
        IpVersion::V4 => 4,
        IpVersion::V6 => 16,
    }
}
