//! What holds of the definitions that the contracts cite. These functions do nothing.
ghost use Rattle.std.specs.Prelude.{List, Option, ℕ, ℤ, ◌≡◌, length};
ghost use Rattle.std.specs.declared.net.ip_addr.IpAddr.{IpAddr};
ghost use Rattle.cbor_edn_times_and_addresses.specs.declared.address.IpVersion.{IpVersion};
ghost use Rattle.cbor_edn_times_and_addresses.specs.Address.{address_bytes, address_from, address_text, size_of, version_of, SpellsAddress};
ghost use Rattle.cbor_edn_times_and_addresses.specs.AddressLaws.{AddressTexts, AreOfItem, PrintedBytes, LongestZeroRun, IsAddress, IsByte, AreBytes, AddressBytes, EndZeros};
ghost use Rattle.cbor_edn_times_and_addresses.specs.TimeLaws.{OneInstant, OneDecimal, DecimalIsNumber, ReadsBack, PrintedAs, WrittenAs, InstantComputed, DecimalComputed, InstantAnswered, DecimalAnswered, PrintedComputed, WrittenComputed};

/// An address text has one answer, an address or a reason, and the reader that computes gives it.
pub fn address_texts()
    ensures { (text : List ℕ) → AddressTexts text }
{}

/// What is printed spells the address and the length that it was printed from, and by `address_texts` nothing else.
pub fn printed_addresses()
    ensures addresses { (a : IpAddr) (n : Option ℕ) → IsAddress a → IsByte n → SpellsAddress (address_text a n) a n }
    ensures bytes { (v : IpVersion) (bytes : List ℕ) (n : Option ℕ) → AreOfItem v bytes n → PrintedBytes v bytes n }
    ensures runs { (segments : List ℕ) → LongestZeroRun segments }
{}

/// Addresses and their bytes, and the zeros at the end of these.
pub fn address_bytes()
    ensures bytes { (v : IpVersion) (bytes : List ℕ) → AreBytes bytes → length bytes ≡ size_of v → AddressBytes v bytes }
    ensures addresses { (a : IpAddr) → IsAddress a → address_from (version_of a) (address_bytes a) ≡ a }
    ensures zeros { (bytes : List ℕ) → EndZeros bytes }
{}

/// A time text has one instant.
pub fn one_instant()
    ensures { (text : List ℕ) → OneInstant text }
{}

/// A decimal stands for one instant, and is a number text.
pub fn one_decimal()
    ensures one { (text : List ℕ) → OneDecimal text }
    ensures number { (text : List ℕ) → DecimalIsNumber text }
{}

/// The text that an instant is printed as has that instant.
pub fn printed_reads_back()
    ensures { (text : List ℕ) → ReadsBack text }
{}

/// The instants of the years 0000 to 9999, and no others, are printed as a text, and as one alone.
pub fn printed_as()
    ensures { (seconds : ℤ) (nanoseconds : ℕ) → PrintedAs seconds nanoseconds }
{}

/// An instant is written as one number, and that number stands for it.
pub fn written_as()
    ensures { (seconds : ℤ) (nanoseconds : ℕ) → WrittenAs seconds nanoseconds }
{}

/// The readers that compute give the instants of texts and of decimals.
pub fn readers_compute()
    ensures instants { (text : List ℕ) → InstantComputed text }
    ensures decimals { (text : List ℕ) → DecimalComputed text }
    ensures instant_answers { (text : List ℕ) → InstantAnswered text }
    ensures decimal_answers { (text : List ℕ) → DecimalAnswered text }
{}

/// The writers that compute give the text and the number of an instant.
pub fn writers_compute()
    ensures texts { (seconds : ℤ) (nanoseconds : ℕ) → PrintedComputed seconds nanoseconds }
    ensures numbers { (seconds : ℤ) (nanoseconds : ℕ) → WrittenComputed seconds nanoseconds }
{}
