//! The tables of annotations: integers that are keys or values of maps, and their names.
ghost use Rattle.std.specs.Prelude.{◌≡◌, ◌++◌, Some, option_map};
ghost use Rattle.cbor_edn_conversions.specs.Tables.{found, rows, names, claims, confirmations, parameters, algorithms};
ghost use Rattle.cbor_edn_conversions.specs.CoseTables.{further_algorithms, cose_algorithms, headers, messages, parts, part_name, key_types, curves, key_parameters, typed_parameters, key_confirmations};

/// What the value of a claim is, where something is done with it.
#[derive(Clone, Copy, Debug, PartialEq, Eq)]
pub enum ClaimValue {
    /// A time, in seconds.
    Timestamp,
    /// A map of confirmation methods.
    Confirmation,
}

/// What the value of a confirmation method is, where something is done with it.
#[derive(Clone, Copy, Debug, PartialEq, Eq)]
pub enum ConfirmationValue {
    /// A map of OSCORE parameters.
    Oscore,
}

/// What the value of an OSCORE parameter is, where something is done with it.
#[derive(Clone, Copy, Debug, PartialEq, Eq)]
pub enum ParameterValue {
    /// The number of an algorithm.
    Algorithm,
}

/// The claims of a CBOR Web Token that are named (RFC 8392; IANA "CBOR Web Token (CWT) Claims"): the key, the name, and what the value
/// is.
pub const CLAIMS: [(i128, &str, Option<ClaimValue>); 12] = [
    (1, "iss", None),
    (2, "sub", None),
    (3, "aud", None),
    (4, "exp", Some(ClaimValue::Timestamp)),
    (5, "nbf", Some(ClaimValue::Timestamp)),
    (6, "iat", Some(ClaimValue::Timestamp)),
    (7, "jti", None),
    (8, "cnf", Some(ClaimValue::Confirmation)),
    (9, "scope", None),
    (38, "ace_profile", None),
    (39, "cnonce", None),
    (40, "exi", None),
];

/// Methods that confirm a key (RFC 8747; IANA "CWT Confirmation Methods"): the key, the name, and what the value is.
pub const CONFIRMATIONS: [(i128, &str, Option<ConfirmationValue>); 2] = [
    (3, "kid", None),
    (4, "osc", Some(ConfirmationValue::Oscore)),
];

/// The parameters of an OSCORE security context (RFC 9203; IANA "OSCORE Security Context Parameters"): the key, the name, and what the
/// value is.
pub const PARAMETERS: [(i128, &str, Option<ParameterValue>); 7] = [
    (0, "id", None),
    (1, "version", None),
    (2, "ms", None),
    (3, "hkdf", Some(ParameterValue::Algorithm)),
    (4, "alg", Some(ParameterValue::Algorithm)),
    (5, "salt", None),
    (6, "contextId", None),
];

/// Algorithms (IANA "COSE Algorithms"): the number and the name.
pub const ALGORITHMS: [(i128, &str); 31] = [
    (-18, "SHAKE128"),
    (-17, "SHA-512/256"),
    (-16, "SHA-256"),
    (-15, "SHA-256/64"),
    (-14, "SHA-1"),
    (-13, "direct+HKDF-AES-256"),
    (-12, "direct+HKDF-AES-128"),
    (-11, "direct+HKDF-SHA-512"),
    (-10, "direct+HKDF-SHA-256"),
    (-9, "Unassigned"),
    (-8, "EdDSA"),
    (-7, "ES256"),
    (-6, "direct"),
    (-5, "A256KW"),
    (-4, "A192KW"),
    (-3, "A128KW"),
    (0, "Reserved"),
    (1, "A128GCM"),
    (2, "A192GCM"),
    (3, "A256GCM"),
    (4, "HMAC 256/64"),
    (5, "HMAC 256/256"),
    (6, "HMAC 384/384"),
    (7, "HMAC 512/512"),
    (10, "AES-CCM-16-64-128"),
    (11, "AES-CCM-16-64-256"),
    (12, "AES-CCM-64-64-128"),
    (13, "AES-CCM-64-64-256"),
    (14, "AES-MAC 128/64"),
    (15, "AES-MAC 256/64"),
    (24, "ChaCha20/Poly1305"),
];

/// What the number in a map of COSE is, where it has a name.
#[derive(Clone, Copy, Debug, PartialEq, Eq)]
pub enum NamedNumber {
    /// An algorithm.
    Algorithm,
    /// The type of a key.
    KeyType,
    /// An elliptic curve.
    Curve,
}

/// The header parameters of COSE that are named (RFC 9052, section 3.1; RFC 9360; IANA "COSE Header Parameters"): the label, the name, and
/// what the value is.
pub const HEADERS: [(i128, &str, Option<NamedNumber>); 11] = [
    (1, "alg", Some(NamedNumber::Algorithm)),
    (2, "crit", None),
    (3, "content type", None),
    (4, "kid", None),
    (5, "IV", None),
    (6, "Partial IV", None),
    (7, "counter signature", None),
    (32, "x5bag", None),
    (33, "x5chain", None),
    (34, "x5t", None),
    (35, "x5u", None),
];

/// A structure of COSE (RFC 9052): a message, or what stands in one.
#[derive(Clone, Copy, Debug, PartialEq, Eq)]
pub enum Structure {
    /// A message that one recipient decrypts (section 5.2).
    Encrypt0,
    /// A message with an authentication code for one recipient (section 6.2).
    Mac0,
    /// A message that one signer signed (section 4.2).
    Sign1,
    /// A message that several recipients decrypt (section 5.1).
    Encrypt,
    /// A message with an authentication code for several recipients (section 6.1).
    Mac,
    /// A message that several signers signed (section 4.1).
    Sign,
    /// One signature of several (section 4.1).
    Signer,
    /// One recipient of several (section 5.1).
    Recipient,
}

/// An element of the array that such a structure is.
#[derive(Clone, Copy, Debug, PartialEq, Eq)]
pub enum Part {
    /// The header that is protected, as a byte string.
    Protected,
    /// The header that is not.
    Unprotected,
    /// What is signed or authenticated.
    Payload,
    /// What is encrypted.
    Ciphertext,
    /// The authentication code.
    Tag,
    /// The one signature.
    Signature,
    /// An array of signers.
    Signatures,
    /// An array of recipients.
    Recipients,
}

/// The messages of COSE (RFC 9052, section 2): the number of the tag, the name and the structure.
pub const MESSAGES: [(i128, &str, Structure); 6] = [
    (16, "COSE_Encrypt0", Structure::Encrypt0),
    (17, "COSE_Mac0", Structure::Mac0),
    (18, "COSE_Sign1", Structure::Sign1),
    (96, "COSE_Encrypt", Structure::Encrypt),
    (97, "COSE_Mac", Structure::Mac),
    (98, "COSE_Sign", Structure::Sign),
];

/// Algorithms of RFC 9053 that [`ALGORITHMS`] doesn't have: the number and the name.
pub const FURTHER_ALGORITHMS: [(i128, &str); 18] = [
    (-36, "ES512"),
    (-35, "ES384"),
    (-34, "ECDH-SS + A256KW"),
    (-33, "ECDH-SS + A192KW"),
    (-32, "ECDH-SS + A128KW"),
    (-31, "ECDH-ES + A256KW"),
    (-30, "ECDH-ES + A192KW"),
    (-29, "ECDH-ES + A128KW"),
    (-28, "ECDH-SS + HKDF-512"),
    (-27, "ECDH-SS + HKDF-256"),
    (-26, "ECDH-ES + HKDF-512"),
    (-25, "ECDH-ES + HKDF-256"),
    (25, "AES-MAC 128/128"),
    (26, "AES-MAC 256/128"),
    (30, "AES-CCM-16-128-128"),
    (31, "AES-CCM-16-128-256"),
    (32, "AES-CCM-64-128-128"),
    (33, "AES-CCM-64-128-256"),
];

/// What type a COSE key is of.
#[derive(Clone, Copy, Debug, PartialEq, Eq)]
pub enum KeyType {
    /// An octet key pair.
    Okp,
    /// A point of an elliptic curve, by its coordinates.
    Ec2,
    /// A symmetric key.
    Symmetric,
}

/// The types of COSE keys (RFC 9053, section 7): the number, the name and the type.
pub const KEY_TYPES: [(i128, &str, KeyType); 3] = [
    (1, "OKP", KeyType::Okp),
    (2, "EC2", KeyType::Ec2),
    (4, "Symmetric", KeyType::Symmetric),
];

/// Elliptic curves of COSE (RFC 9053, section 7.1): the number and the name.
pub const CURVES: [(i128, &str); 7] = [
    (1, "P-256"),
    (2, "P-384"),
    (3, "P-521"),
    (4, "X25519"),
    (5, "X448"),
    (6, "Ed25519"),
    (7, "Ed448"),
];

/// The parameters of COSE keys of any type (RFC 9052, section 7.1): the label, the name, and what the value is.
pub const KEY_PARAMETERS: [(i128, &str, Option<NamedNumber>); 5] = [
    (1, "kty", Some(NamedNumber::KeyType)),
    (2, "kid", None),
    (3, "alg", Some(NamedNumber::Algorithm)),
    (4, "key_ops", None),
    (5, "Base IV", None),
];

/// Those of octet key pairs (RFC 9053, section 7.2).
pub const OKP_PARAMETERS: [(i128, &str, Option<NamedNumber>); 3] = [
    (-1, "crv", Some(NamedNumber::Curve)),
    (-2, "x", None),
    (-4, "d", None),
];

/// Those of points by their coordinates (RFC 9053, section 7.1.1).
pub const EC2_PARAMETERS: [(i128, &str, Option<NamedNumber>); 4] = [
    (-1, "crv", Some(NamedNumber::Curve)),
    (-2, "x", None),
    (-3, "y", None),
    (-4, "d", None),
];

/// Those of symmetric keys (RFC 9053, section 7.3).
pub const SYMMETRIC_PARAMETERS: [(i128, &str, Option<NamedNumber>); 1] = [(-1, "k", None)];

/// Methods that confirm a key by the key itself (RFC 8747, section 3.1): the key of the method, the name, and whether a COSE key follows.
pub const KEY_CONFIRMATIONS: [(i128, &str, bool); 2] = [
    (1, "COSE_Key", true),
    (2, "Encrypted_COSE_Key", false),
];

/// The row of a number.
fn find<'t, V>(
    table: &'t [(i128, &'static str, V)],
    number: i128,
) -> Option<&'t (i128, &'static str, V)>
    ensures { option_map (λ r. (r.now.1.now, r.now.2)) result ≡ found (rows table.now) number }
{
    for row in table {
        if row.0 == number {
            return Some(row);
        }
    }
    None
}

/// The name in the row of a number.
fn find_name(table: &[(i128, &'static str)], number: i128) -> Option<&'static str>
    ensures { option_map (λ name. name.now) result ≡ found (names table.now) number }
{
    for row in table {
        if row.0 == number {
            return Some(row.1);
        }
    }
    None
}

/// The name of a claim by its key, as `exp` by 4, and what its value is. None of a key that is not in [`CLAIMS`].
pub fn claim(number: i128) -> Option<(&'static str, Option<ClaimValue>)>
    ensures { option_map (λ p. (p.0.now, p.1)) result ≡ found claims number }
{
    match find(&CLAIMS, number) {
        Some(row) => Some((row.1, row.2)),
        None => None,
    }
}

/// The name of a confirmation method by its key, as `kid` by 3, and what its value is. None of a key that is not in [`CONFIRMATIONS`].
pub fn confirmation(number: i128) -> Option<(&'static str, Option<ConfirmationValue>)>
    ensures { option_map (λ p. (p.0.now, p.1)) result ≡ found confirmations number }
{
    match find(&CONFIRMATIONS, number) {
        Some(row) => Some((row.1, row.2)),
        None => None,
    }
}

/// The name of an OSCORE parameter by its key, as `salt` by 5, and what its value is. None of a key that is not in [`PARAMETERS`].
pub fn parameter(number: i128) -> Option<(&'static str, Option<ParameterValue>)>
    ensures { option_map (λ p. (p.0.now, p.1)) result ≡ found parameters number }
{
    match find(&PARAMETERS, number) {
        Some(row) => Some((row.1, row.2)),
        None => None,
    }
}

/// The name of an algorithm by its number, as `ES256` by -7. None of a number that is not in [`ALGORITHMS`].
pub fn algorithm(number: i128) -> Option<&'static str>
    ensures { option_map (λ name. name.now) result ≡ found algorithms number }
{
    find_name(&ALGORITHMS, number)
}

/// The name of an algorithm by its number, of those too that are in [`FURTHER_ALGORITHMS`].
pub fn cose_algorithm(number: i128) -> Option<&'static str>
    ensures { option_map (λ name. name.now) result ≡ found cose_algorithms number }
{
    match algorithm(number) {
        Some(name) => Some(name),
        None => further_algorithm(number),
    }
}

fn further_algorithm(number: i128) -> Option<&'static str>
    ensures { option_map (λ name. name.now) result ≡ found further_algorithms number }
{
    find_name(&FURTHER_ALGORITHMS, number)
}

/// The name of a COSE header parameter by its label, as `kid` by 4, and what its value is. None of a label that is not in [`HEADERS`].
pub fn header(number: i128) -> Option<(&'static str, Option<NamedNumber>)>
    ensures { option_map (λ p. (p.0.now, p.1)) result ≡ found headers number }
{
    match find(&HEADERS, number) {
        Some(row) => Some((row.1, row.2)),
        None => None,
    }
}

/// The name of a COSE message by the number of its tag, as `COSE_Sign1` by 18, and its structure. None of a tag that is not in
/// [`MESSAGES`].
pub fn message(number: i128) -> Option<(&'static str, Structure)>
    ensures { option_map (λ p. (p.0.now, p.1)) result ≡ found messages number }
{
    match find(&MESSAGES, number) {
        Some(row) => Some((row.1, row.2)),
        None => None,
    }
}

const ENCRYPTED: [Part; 3] = [Part::Protected, Part::Unprotected, Part::Ciphertext];

const AUTHENTICATED: [Part; 4] = [Part::Protected, Part::Unprotected, Part::Payload, Part::Tag];

const SIGNED: [Part; 4] = [
    Part::Protected,
    Part::Unprotected,
    Part::Payload,
    Part::Signature,
];

const ENCRYPTED_FOR_ALL: [Part; 4] = [
    Part::Protected,
    Part::Unprotected,
    Part::Ciphertext,
    Part::Recipients,
];

const AUTHENTICATED_FOR_ALL: [Part; 5] = [
    Part::Protected,
    Part::Unprotected,
    Part::Payload,
    Part::Tag,
    Part::Recipients,
];

const SIGNED_BY_ALL: [Part; 4] = [
    Part::Protected,
    Part::Unprotected,
    Part::Payload,
    Part::Signatures,
];

const SIGNER: [Part; 3] = [Part::Protected, Part::Unprotected, Part::Signature];

/// The elements of the array that a structure is (RFC 9052, sections 4.1, 4.2, 5.1, 5.2, 6.1 and 6.2), in order.
pub fn parts(structure: Structure) -> &'static [Part]
    ensures { result.now ≡ parts structure }
{
    match structure {
        Structure::Encrypt0 => &ENCRYPTED,
        Structure::Mac0 => &AUTHENTICATED,
        Structure::Sign1 => &SIGNED,
        Structure::Encrypt | Structure::Recipient => &ENCRYPTED_FOR_ALL,
        Structure::Mac => &AUTHENTICATED_FOR_ALL,
        Structure::Sign => &SIGNED_BY_ALL,
        Structure::Signer => &SIGNER,
    }
}

/// The name of a part, as RFC 9052 has it.
pub fn part_name(part: Part) -> &'static str
    ensures { result.now ≡ part_name part }
{
    match part {
        Part::Protected => "protected",
        Part::Unprotected => "unprotected",
        Part::Payload => "payload",
        Part::Ciphertext => "ciphertext",
        Part::Tag => "tag",
        Part::Signature => "signature",
        Part::Signatures => "signatures",
        Part::Recipients => "recipients",
    }
}

/// The name of a type of COSE keys by its number, as `EC2` by 2, and the type. None of a number that is not in [`KEY_TYPES`].
pub fn key_type(number: i128) -> Option<(&'static str, KeyType)>
    ensures { option_map (λ p. (p.0.now, p.1)) result ≡ found key_types number }
{
    match find(&KEY_TYPES, number) {
        Some(row) => Some((row.1, row.2)),
        None => None,
    }
}

/// The name of an elliptic curve by its number, as `P-256` by 1. None of a number that is not in [`CURVES`].
pub fn curve(number: i128) -> Option<&'static str>
    ensures { option_map (λ name. name.now) result ≡ found curves number }
{
    find_name(&CURVES, number)
}

/// The name of a parameter of COSE keys by its label, as `x` by -2 in an elliptic curve's key, and what its value is. None of a label that
/// no key of this type has; where the type is not known, no key of any type.
pub fn key_parameter(
    key_type: Option<KeyType>,
    number: i128,
) -> Option<(&'static str, Option<NamedNumber>)>
    ensures { option_map (λ p. (p.0.now, p.1)) result ≡ found (key_parameters ++ typed_parameters key_type) number }
{
    match find(&KEY_PARAMETERS, number) {
        Some(row) => Some((row.1, row.2)),
        None => typed_parameter(key_type, number),
    }
}

fn typed_parameter(
    key_type: Option<KeyType>,
    number: i128,
) -> Option<(&'static str, Option<NamedNumber>)>
    ensures { option_map (λ p. (p.0.now, p.1)) result ≡ found (typed_parameters key_type) number }
{
    match find(typed_table(key_type), number) {
        Some(row) => Some((row.1, row.2)),
        None => None,
    }
}

fn typed_table(key_type: Option<KeyType>) -> &'static [(i128, &'static str, Option<NamedNumber>)]
    ensures { rows result.now ≡ typed_parameters key_type }
{
    match key_type {
        Some(KeyType::Okp) => &OKP_PARAMETERS,
        Some(KeyType::Ec2) => &EC2_PARAMETERS,
        Some(KeyType::Symmetric) => &SYMMETRIC_PARAMETERS,
        None => &[],
    }
}

/// The name of a confirmation method that has a key, by the method's key, and whether it is a COSE key. None of a key that is not in
/// [`KEY_CONFIRMATIONS`].
pub fn key_confirmation(number: i128) -> Option<(&'static str, bool)>
    ensures { option_map (λ p. (p.0.now, p.1)) result ≡ found key_confirmations number }
{
    match find(&KEY_CONFIRMATIONS, number) {
        Some(row) => Some((row.1, row.2)),
        None => None,
    }
}
