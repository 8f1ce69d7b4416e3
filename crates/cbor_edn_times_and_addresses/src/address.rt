//! IP addresses and address prefixes: `192.0.2.1`, `2001:db8::/32`.
ghost use Rattle.std.specs.Prelude.{◌≡◌, ◌≤◌, ◌↔◌, IsTrue, length, ℕ, Option, MatchOption, MatchResult, IfOk, string_bytes};
ghost use Rattle.std.specs.Option.{option_copied};
ghost use Rattle.std.specs.declared.net.ip_addr.IpAddr.{IpAddr};
ghost use Rattle.std.specs.Net.Grammar.{IsIpText};
ghost use Rattle.cbor_edn_times_and_addresses.specs.AddressLaws.{AreBytes, IsByte};
ghost use Rattle.cbor_edn_times_and_addresses.specs.internal.AddressReading.{Misfits};
ghost use Rattle.cbor_edn_times_and_addresses.specs.Address.{address_bytes, size_of, filled_address, without_end_zeros, shown, IsCut, IsLength, HasLength, IsZeroBehind, FitsLength, Reads, message_of, address_text};

use std::alloc::{AllocError, Global};
use std::net::{IpAddr, Ipv4Addr, Ipv6Addr};

/// The versions of IP addresses: of 4 and of 16 bytes.
#[derive(Clone, Copy, Debug, PartialEq, Eq)]
pub enum IpVersion {
    /// IPv4, of 4 bytes: tag 52 (RFC 9164).
    V4,
    /// IPv6, of 16 bytes: tag 54 (RFC 9164).
    V6,
}

/// Why a text is no address: the first reason that holds.
#[derive(Clone, Copy, Debug, PartialEq, Eq)]
pub enum AddressError {
    /// Behind the first slash there is no number of 1 to 3 digits up to 255.
    NoLength,
    /// What stands before the slash is no address.
    UnknownFormat,
    /// The prefix length is past the 32 or 128 bits of the address.
    LengthTooLarge,
    /// Bits are set behind the prefix.
    BitsOutside,
}

impl AddressError {
    /// The message of the reason, as a comment has it.
    pub fn as_str(self) -> &'static str
        ensures { result.now ≡ message_of self }
    {
        match self {
            AddressError::NoLength => "Prefix is not a (short) number",
            AddressError::UnknownFormat => "No recognized address format",
            AddressError::LengthTooLarge => "Prefix exceeds address size",
            AddressError::BitsOutside => {
                "No bits must be set in the address outside the prefix length"
            }
        }
    }
}

/// The address of a text, and its prefix length in bits, where the text has one: `192.0.2.0/24`. IPv4 is four decimals without leading
/// zeros, and IPv6 is by RFC 4291, section 2.2. The error is the first reason that holds.
pub fn read_address(text: &str) -> Result<(IpAddr, Option<u8>), AddressError>
    ensures { Reads text.now result }
{
    let (front, back) = cut(text);
    let prefix_length = read_length(back)?;
    let address = read_ip(front)?;
    fit(&address, prefix_length)?;
    Ok((address, prefix_length))
}

/// What stands before the first slash, and what stands behind it, if there is one.
fn cut(text: &str) -> (&str, Option<&str>)
    ensures { IsCut text.now result.0.now (option_copied result.1) }
{
    match text.split_once('/') {
        None => (text, None),
        Some((front, back)) => (front, Some(back)),
    }
}

fn read_length(back: Option<&str>) -> Result<Option<u8>, AddressError>
    ensures { MatchResult result (HasLength (option_copied back.entry))
        (λ e. (e ≡ AddressError.NoLength) × ((n : Option ℕ) → ¬ (HasLength (option_copied back.entry) n))) }
{
    match back {
        None => Ok(None),
        Some(digits) => match read_short(digits) {
            None => Err(AddressError::NoLength),
            Some(prefix_length) => Ok(Some(prefix_length)),
        },
    }
}

/// A number of 1 to 3 digits up to 255.
fn read_short(digits: &str) -> Option<u8>
    ensures { MatchOption result ((n : ℕ) → ¬ (IsLength digits.now n)) (IsLength digits.now) }
{
    if digits.len() > 3 || digits.starts_with('+') {
        return None;
    }
    digits.parse().ok()
}

fn read_ip(text: &str) -> Result<IpAddr, AddressError>
    ensures { MatchResult result (IsIpText text.now)
        (λ e. (e ≡ AddressError.UnknownFormat) × ((a : IpAddr) → ¬ (IsIpText text.now a))) }
{
    text.parse().map_err(|_| AddressError::UnknownFormat)
}

/// Whether the address has as many bits as the prefix, and zeros alone behind them.
fn fit(address: &IpAddr, prefix_length: Option<u8>) -> Result<(), AddressError>
    ensures { MatchResult result (λ _. FitsLength address.now prefix_length) (Misfits address.now prefix_length) }
{
    let Some(prefix_length) = prefix_length else {
        return Ok(());
    };
    let (bits, fits) = match address {
        IpAddr::V4(address) => (32, is_zero_behind(prefix_length, &address.octets())),
        IpAddr::V6(address) => (128, is_zero_behind(prefix_length, &address.octets())),
    };
    if prefix_length > bits {
        return Err(AddressError::LengthTooLarge);
    }
    if !fits {
        return Err(AddressError::BitsOutside);
    }
    Ok(())
}

/// Whether the bytes have zeros alone behind their first bits, so many.
fn is_zero_behind(prefix_length: u8, bytes: &[u8]) -> bool
    ensures { IsTrue result ↔ IsZeroBehind prefix_length bytes.now }
{
    let mut left = prefix_length;
    for byte in bytes {
        if u32::from(*byte) % (1 << (8 - left.min(8))) != 0 {
            return false;
        }
        left = left.saturating_sub(8);
    }
    true
}

/// The text of an address by RFC 5952, and of a prefix length behind it, as `2001:db8::/32`. Fails where memory runs out.
pub fn print_address(
    alloc: Global,
    address: &IpAddr,
    prefix_length: Option<u8>,
) -> Result<String, AllocError>
    ensures value { IfOk result (λ s. string_bytes s ≡ address_text address.now prefix_length) }
    // What the type of the length says, as the laws ask for it.
    ensures byte { IsByte prefix_length }
{
    match prefix_length {
        None => format!(in alloc; "{address}"),
        Some(prefix_length) => format!(in alloc; "{address}/{prefix_length}"),
    }
}

/// The address of these bytes, and of zeros behind them up to the version's 4 or 16.
pub fn filled_address(version: IpVersion, bytes: &[u8]) -> IpAddr
    requires { length bytes.now ≤ size_of version }
    ensures value { result ≡ filled_address version bytes.now }
    // What the type of the bytes says, as the laws ask for it.
    ensures bytes { AreBytes bytes.now }
{
    match version {
        IpVersion::V4 => {
            let mut octets = [0; 4];
            octets[..bytes.len()].copy_from_slice(bytes);
            IpAddr::V4(Ipv4Addr::from_octets(octets))
        }
        IpVersion::V6 => {
            let mut octets = [0; 16];
            octets[..bytes.len()].copy_from_slice(bytes);
            IpAddr::V6(Ipv6Addr::from_octets(octets))
        }
    }
}

/// The bytes of an address as they stand in an item: all of them, or behind a prefix length those before the zeros at the end (RFC 9164).
/// Fails where memory runs out.
pub fn shown_bytes(
    alloc: Global,
    address: &IpAddr,
    prefix_length: Option<u8>,
) -> Result<Vec<u8>, AllocError>
    ensures { IfOk result (λ v. v.items ≡ shown prefix_length (address_bytes address.now)) }
{
    match address {
        IpAddr::V4(address) => shown(alloc, &address.octets(), prefix_length),
        IpAddr::V6(address) => shown(alloc, &address.octets(), prefix_length),
    }
}

fn shown(alloc: Global, bytes: &[u8], prefix_length: Option<u8>) -> Result<Vec<u8>, AllocError>
    ensures { IfOk result (λ v. v.items ≡ shown prefix_length bytes.now) }
{
    match prefix_length {
        None => bytes.to_vec(alloc),
        Some(_) => without_end_zeros(bytes).to_vec(alloc),
    }
}

/// The bytes without the zeros at their end.
fn without_end_zeros(bytes: &[u8]) -> &[u8]
    ensures { result.now ≡ without_end_zeros bytes.now }
{
    let mut kept = bytes;
    while let [front @ .., 0] = kept {
        kept = front;
    }
    kept
}
