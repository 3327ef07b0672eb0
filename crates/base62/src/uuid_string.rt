//! The strings of UUIDs: hexadecimal digits and hyphens.

ghost use Rattle.std.specs.Prelude.{◌≡◌, ◌≢◌, ◌<◌, ◌≤◌, ◌+◌, ◌++◌, ◌↔◌, ℕ, List, IsTrue, Ok, Err, Some, None, length, map, take, drop};
ghost use Rattle.std.specs.Char.{digit_char, to_ascii_lowercase};
ghost use Rattle.base62.specs.Uuid.{IsUuid};
ghost use Rattle.base62.specs.UuidString.{AreDigitsOf, HasUrn, IsInBraces, IsUuidString, digits, hyphenated};
ghost use Rattle.base62.specs.declared.fault.UuidError.TheVariants.{InvalidUuid};

use crate::fault::{UuidError, hex_digit};
use std::str;

/// Decodes the hexadecimal string of a UUID, and returns its sixteen bytes.
///
/// The string has 32 digits, in lowercase or uppercase, with hyphens after the digits 8, 12, 16 and
/// 20, or without hyphens. It may be in braces, or after `urn:uuid:` in lowercase or uppercase. The
/// version and the variant are not examined. Does not allocate.
///
/// ```rust
/// use base62::UuidError;
///
/// let uuid = base62::uuid_from_string(b"550e8400-e29b-41d4-a716-446655440000").unwrap();
/// assert_eq!(rt; base62::uuid_from_string(b"{550E8400E29B41D4A716446655440000}"), Ok(uuid));
/// assert_eq!(rt; base62::uuid_from_string(b"550e8400"), Err(UuidError::InvalidUuid));
/// ```
///
/// # Errors
///
/// Returns [`InvalidUuid`](UuidError::InvalidUuid) for every other string.
pub fn uuid_from_string(input: &[u8]) -> Result<[u8; 16], UuidError>
    ensures accepted { (uuid : List ℕ) → IsUuidString input.now uuid → result ≡ Ok uuid }
    ensures stored { (uuid : List ℕ) → result ≡ Ok uuid → IsUuidString input.now uuid }
    ensures refused { (uuid : List ℕ) → result ≡ Err InvalidUuid → IsUuidString input.now uuid → ⊥ }
{
    read_uuid_string(input).ok_or(UuidError::InvalidUuid)
}

/// Encodes a UUID as 36 characters: 32 lowercase hexadecimal digits, with hyphens after the digits
/// 8, 12, 16 and 20.
///
/// [`uuid_from_string`] decodes the string. Never fails, and does not allocate.
///
/// ```rust
/// let uuid = [0, 0, 0, 0, 0, 0, 0, 0, 0, 0, 0, 0, 0, 0, 5, 57];
/// assert_eq!(rt; &base62::uuid_to_string(uuid), b"00000000-0000-0000-0000-000000000539");
/// ```
pub fn uuid_to_string(uuid: [u8; 16]) -> [u8; 36]
    ensures written { result ≡ hyphenated (digits uuid) }
    ensures back { IsUuidString result uuid }
{
    with_hyphens(digits_of(uuid))
}

/// Like [`uuid_to_string`], but writes the string to `string`, and returns it as a `str`.
///
/// ```rust
/// let uuid = [0, 0, 0, 0, 0, 0, 0, 0, 0, 0, 0, 0, 0, 0, 5, 57];
/// let mut string = [0u8; 36];
/// let text = base62::uuid_to_str(uuid, &mut string);
/// assert_eq!(rt; text, "00000000-0000-0000-0000-000000000539");
/// ```
pub fn uuid_to_str(uuid: [u8; 16], string: &mut [u8; 36]) -> &str
    ensures written { result.now ≡ hyphenated (digits uuid) }
    ensures back { IsUuidString result.now uuid }
{
    *string = uuid_to_string(uuid);
    // SAFETY: the digits and the hyphens are ASCII.
    unsafe { str::from_utf8_unchecked(string) }
}

// Returns the UUID that a string stands for.
fn read_uuid_string(string: &[u8]) -> Option<[u8; 16]>
    ensures stored { (uuid : List ℕ) → result ≡ Some uuid → IsUuidString string.now uuid }
    ensures accepted { (uuid : List ℕ) → IsUuidString string.now uuid → result ≡ Some uuid }
{
    if is_in_braces(string) {
        read_uuid(&string[1..string.len() - 1])
    } else if has_urn(string) {
        read_uuid(&string[9..])
    } else {
        read_uuid(string)
    }
}

fn is_in_braces(string: &[u8]) -> bool
    ensures { IsTrue result ↔ IsInBraces string.now }
{
    string.len() > 1 && string[0] == b'{' && string[string.len() - 1] == b'}'
}

fn has_urn(string: &[u8]) -> bool
    ensures { IsTrue result ↔ HasUrn string.now }
{
    string.len() > 8 && string[..9].eq_ignore_ascii_case(b"urn:uuid:")
}

// Returns the UUID of 32 digits in either case, with hyphens or without.
fn read_uuid(text: &[u8]) -> Option<[u8; 16]>
    ensures stored { (uuid : List ℕ) → result ≡ Some uuid → AreDigitsOf uuid text.now }
    ensures accepted { (uuid : List ℕ) → AreDigitsOf uuid text.now → result ≡ Some uuid }
{
    match without_hyphens(text) {
        Some(digits) => read_pairs(&digits),
        None => read_pairs(text),
    }
}

// Removes the hyphens after the digits 8, 12, 16 and 20, if the text has all four.
fn without_hyphens(text: &[u8]) -> Option<[u8; 32]>
    ensures found { (digits : List ℕ) → result ≡ Some digits → text.now ≡ hyphenated digits }
    ensures none { (digits : List ℕ) → result ≡ None → length digits ≡ 32
        → map to_ascii_lowercase text.now ≢ hyphenated digits }
{
    if text.len() != 36 {
        return None;
    }
    if [text[8], text[13], text[18], text[23]] != [b'-'; 4] {
        return None;
    }
    let mut digits = [0u8; 32];
    copy_at(&mut digits, 0, &text[..8]);
    copy_at(&mut digits, 8, &text[9..13]);
    copy_at(&mut digits, 12, &text[14..18]);
    copy_at(&mut digits, 16, &text[19..23]);
    copy_at(&mut digits, 20, &text[24..36]);
    Some(digits)
}

// Returns the bytes of 32 digits in either case.
fn read_pairs(text: &[u8]) -> Option<[u8; 16]>
    ensures stored { (uuid : List ℕ) → result ≡ Some uuid → IsUuid uuid }
    ensures digits { (uuid : List ℕ) → result ≡ Some uuid
        → map to_ascii_lowercase text.now ≡ digits uuid }
    ensures accepted { (uuid : List ℕ) → IsUuid uuid
        → map to_ascii_lowercase text.now ≡ digits uuid → result ≡ Some uuid }
{
    if text.len() != 32 {
        return None;
    }
    let mut uuid = [0u8; 16];
    for index in 0..16 {
        let high = hex_value(text[2 * index])?;
        let low = hex_value(text[2 * index + 1])?;
        uuid[index] = high * 16 + low;
    }
    Some(uuid)
}

// Returns the value of a hexadecimal digit in either case.
fn hex_value(digit: u8) -> Option<u8>
    ensures stored { (value : ℕ) → result ≡ Some value
        → (value < 16) × (to_ascii_lowercase digit ≡ digit_char value) }
    ensures other { (value : ℕ) → result ≡ None → value < 16
        → to_ascii_lowercase digit ≢ digit_char value }
{
    match digit {
        b'0'..=b'9' => Some(digit - b'0'),
        b'a'..=b'f' => Some(digit - b'a' + 10),
        b'A'..=b'F' => Some(digit - b'A' + 10),
        _ => None,
    }
}

fn with_hyphens(digits: [u8; 32]) -> [u8; 36]
    ensures { result ≡ hyphenated digits }
{
    let mut text = [b'-'; 36];
    copy_at(&mut text, 0, &digits[..8]);
    copy_at(&mut text, 9, &digits[8..12]);
    copy_at(&mut text, 14, &digits[12..16]);
    copy_at(&mut text, 19, &digits[16..20]);
    copy_at(&mut text, 24, &digits[20..32]);
    text
}

fn copy_at(to: &mut [u8], index: usize, bytes: &[u8])
    requires { index + length bytes.now ≤ length to.old }
    ensures { to.new ≡ take index to.old ++ bytes.now ++ drop (index + length bytes.now) to.old }
{
    to[index..index + bytes.len()].copy_from_slice(bytes);
}

fn digits_of(uuid: [u8; 16]) -> [u8; 32]
    ensures { result ≡ digits uuid }
{
    let mut text = [0u8; 32];
    for index in 0..16 {
        text[2 * index] = hex_digit(uuid[index] / 16);
        text[2 * index + 1] = hex_digit(uuid[index] % 16);
    }
    text
}
