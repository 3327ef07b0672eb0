//! Decoding to UUIDs, whose sixteen bytes are one number.

ghost use Rattle.std.specs.Prelude.{◌≡◌, ℕ, List};
ghost use Rattle.base62.specs.Alphabet.{IsAlphabet, standard};
ghost use Rattle.base62.specs.Decoding.{decoding, DecodesCanonical};
ghost use Rattle.base62.specs.Uuid.{DecodesUuid, DecodesUuidCanonical};

use crate::alphabet::Alphabet;
use crate::canonical::{decode_canonical, decode_canonical_with};
use crate::codec::{decode, decode_with};
use crate::fault::{CanonicalError, DecodeError};
use crate::laws::letters_are_distinct;

/// Decodes `input` in the standard alphabet, and returns the number as the sixteen bytes of a UUID.
///
/// It is the number that [`decode`] returns, as big-endian bytes. Each number below 2^128 is that
/// of one UUID: the version and the variant are not examined. Does not allocate.
///
/// ```rust
/// let uuid = base62::decode_uuid(b"LZ").unwrap();
/// assert_eq!(rt; uuid, [0, 0, 0, 0, 0, 0, 0, 0, 0, 0, 0, 0, 0, 0, 5, 57]);
/// ```
///
/// [`decode`]: crate::decode
///
/// # Errors
///
/// Returns the errors of [`decode`].
#[tactic(auto, using(crate::proofs::AlphabetLemmas::standard_is_alphabet))]
pub fn decode_uuid(input: &[u8]) -> Result<[u8; 16], DecodeError>
    ensures { DecodesUuid standard input.now result }
{
    bytes_of(decode(input))
}

/// Like [`decode_uuid`], but uses a custom alphabet.
///
/// ```rust
/// let characters = *b"23456789ABCDEFGHJKLMNPQRSTUVWXYZabcdefghijkmnpqrstuvwxyz-_.~!*";
/// let own = base62::Alphabet::from_static(characters);
/// let uuid = base62::decode_uuid_with(&own, b"Pd").unwrap();
/// assert_eq!(rt; uuid, [0, 0, 0, 0, 0, 0, 0, 0, 0, 0, 0, 0, 0, 0, 5, 57]);
/// ```
///
/// # Errors
///
/// Returns the errors of [`decode`](crate::decode).
pub fn decode_uuid_with(alphabet: &Alphabet, input: &[u8]) -> Result<[u8; 16], DecodeError>
    ensures { DecodesUuid alphabet.now input.now result }
{
    letters_are_distinct(alphabet);
    bytes_of(decode_with(alphabet, input))
}

/// Decodes `input` in the standard alphabet if it is canonical, and returns the UUID.
///
/// It is the number that [`decode_canonical`] returns, as big-endian bytes. The result is a UUID
/// exactly for the string that [`encode_bytes`] writes for its number, so only one string decodes to
/// it. Does not allocate.
///
/// ```rust
/// use base62::CanonicalError;
///
/// let uuid = base62::decode_uuid_canonical(b"LZ").unwrap();
/// assert_eq!(rt; uuid, [0, 0, 0, 0, 0, 0, 0, 0, 0, 0, 0, 0, 0, 0, 5, 57]);
/// assert_eq!(rt; base62::decode_uuid_canonical(b"0LZ"), Err(CanonicalError::LeadingZero));
/// ```
///
/// [`decode_canonical`]: crate::decode_canonical
/// [`encode_bytes`]: crate::encode_bytes
///
/// # Errors
///
/// Returns the errors of [`decode_canonical`].
pub fn decode_uuid_canonical(input: &[u8]) -> Result<[u8; 16], CanonicalError>
    ensures { DecodesUuidCanonical standard input.now result }
{
    bytes_of_canonical(decode_canonical(input))
}

/// Like [`decode_uuid_canonical`], but uses a custom alphabet.
///
/// ```rust
/// let characters = *b"23456789ABCDEFGHJKLMNPQRSTUVWXYZabcdefghijkmnpqrstuvwxyz-_.~!*";
/// let own = base62::Alphabet::from_static(characters);
/// let uuid = base62::decode_uuid_canonical_with(&own, b"Pd").unwrap();
/// assert_eq!(rt; uuid, [0, 0, 0, 0, 0, 0, 0, 0, 0, 0, 0, 0, 0, 0, 5, 57]);
/// ```
///
/// # Errors
///
/// Returns the errors of [`decode_canonical`](crate::decode_canonical).
pub fn decode_uuid_canonical_with(
    alphabet: &Alphabet,
    input: &[u8],
) -> Result<[u8; 16], CanonicalError>
    ensures { DecodesUuidCanonical alphabet.now input.now result }
{
    bytes_of_canonical(decode_canonical_with(alphabet, input))
}

// Returns the decoded number as big-endian bytes.
#[tactic(auto, using(crate::proofs::UuidLemmas::number_decoded, crate::proofs::UuidLemmas::fault_decoded))]
fn bytes_of(decoded: Result<u128, DecodeError>) -> Result<[u8; 16], DecodeError>
    ensures { (B text : List ℕ) → IsAlphabet B → decoded ≡ decoding B text
        → DecodesUuid B text result }
{
    match decoded {
        Ok(number) => Ok(number.to_be_bytes()),
        Err(error) => Err(error),
    }
}

// Returns the number of a canonical text as big-endian bytes.
#[tactic(auto, using(crate::proofs::UuidLemmas::canonical_refused))]
fn bytes_of_canonical(decoded: Result<u128, CanonicalError>) -> Result<[u8; 16], CanonicalError>
    ensures { (B text : List ℕ) → DecodesCanonical B text decoded
        → DecodesUuidCanonical B text result }
{
    match decoded {
        Ok(value) => Ok(value.to_be_bytes()),
        Err(error) => Err(error),
    }
}
