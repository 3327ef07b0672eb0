//! Encoding to strings and writers.

ghost use Rattle.std.specs.Prelude.{◌≡◌, OnOk};
ghost use Rattle.std.specs.Str.{IsAscii};
ghost use Rattle.base62.specs.Alphabet.{standard, alternative};
ghost use Rattle.base62.specs.Encoding.{AnswersCanonical, AppendsTo, WritesCanonical};
ghost use Rattle.base62.specs.Tables.{AreTables};
ghost use Rattle.base62.specs.Uuid.{uuid_number};

use crate::alphabet::{Alphabet, Tables, Work, alternative_tables, standard_tables};
use crate::codec::encoder::write_number;
use crate::count::digit_count;
use crate::number::Number;
use crate::text::Text;
use std::alloc::{AllocError, Global};
use std::io::{self, Write};

/// Encodes `num` as a `String` of 1 to 22 characters, in the standard alphabet.
///
/// It is the string that [`encode_bytes`] writes. Allocates once, for exactly its length.
///
/// ```rust
/// let text = base62::encode(rt.alloc(), 1234567890_u64)?;
/// assert_eq!(rt; text.as_str(), "1LY7VK");
/// ```
///
/// [`encode_bytes`]: crate::encode_bytes
#[tactic(auto, using(crate::proofs::CanonicalLemmas::ascii_texts))]
pub fn encode<T: Number>(alloc: Global, num: T) -> Result<String, AllocError>
    ensures { AnswersCanonical standard (T.meaning num) result }
{
    string_over(alloc, standard_tables(), num)
}

/// Like [`encode`], but uses the alternative alphabet.
///
/// ```rust
/// let text = base62::encode_alternative(rt.alloc(), 1234567890_u64)?;
/// assert_eq!(rt; text.as_str(), "1ly7vk");
/// ```
#[tactic(auto, using(crate::proofs::CanonicalLemmas::ascii_texts))]
pub fn encode_alternative<T: Number>(alloc: Global, num: T) -> Result<String, AllocError>
    ensures { AnswersCanonical alternative (T.meaning num) result }
{
    string_over(alloc, alternative_tables(), num)
}

/// Like [`encode`], but uses a custom alphabet, which has to be ASCII.
///
/// [`Alphabet::is_ascii`] checks this.
///
/// ```rust
/// let characters = *b"23456789ABCDEFGHJKLMNPQRSTUVWXYZabcdefghijkmnpqrstuvwxyz-_.~!*";
/// let own = base62::Alphabet::from_static(characters);
/// let text = base62::encode_with(rt.alloc(), &own, 1234567890_u64)?;
/// assert_eq!(rt; text.as_str(), "3Pc9ZN");
/// ```
#[tactic(auto, using(crate::proofs::CanonicalLemmas::ascii_texts))]
pub fn encode_with<T: Number>(
    alloc: Global,
    alphabet: &Alphabet,
    num: T,
) -> Result<String, AllocError>
    requires { IsAscii alphabet.now }
    ensures { AnswersCanonical alphabet.now (T.meaning num) result }
{
    string_over(alloc, alphabet.as_tables(), num)
}

/// Encodes the sixteen bytes of a UUID as a `String` of 1 to 22 characters, in the standard
/// alphabet.
///
/// The bytes are a big-endian integer. The version and the variant are not examined.
/// [`decode_uuid`] decodes the string. Allocates once, for exactly its length. For a UUID as a
/// `u128`, such as `as_u128` of the crate `uuid` returns, use [`encode`].
///
/// ```rust
/// let uuid = [0, 0, 0, 0, 0, 0, 0, 0, 0, 0, 0, 0, 0, 0, 5, 57];
/// let text = base62::encode_uuid(rt.alloc(), uuid)?;
/// assert_eq!(rt; text.as_str(), "LZ");
/// ```
///
/// [`decode_uuid`]: crate::decode_uuid
#[inline]
#[tactic(auto, using(crate::proofs::CanonicalLemmas::ascii_texts))]
pub fn encode_uuid(alloc: Global, uuid: [u8; 16]) -> Result<String, AllocError>
    ensures { AnswersCanonical standard (uuid_number uuid) result }
{
    string_over(alloc, standard_tables(), number_of_uuid(uuid))
}

/// Like [`encode_uuid`], but uses a custom alphabet, which has to be ASCII.
///
/// [`Alphabet::is_ascii`] checks this.
///
/// ```rust
/// let characters = *b"23456789ABCDEFGHJKLMNPQRSTUVWXYZabcdefghijkmnpqrstuvwxyz-_.~!*";
/// let own = base62::Alphabet::from_static(characters);
/// let uuid = [0, 0, 0, 0, 0, 0, 0, 0, 0, 0, 0, 0, 0, 0, 5, 57];
/// let text = base62::encode_uuid_with(rt.alloc(), &own, uuid)?;
/// assert_eq!(rt; text.as_str(), "Pd");
/// ```
#[inline]
#[tactic(auto, using(crate::proofs::CanonicalLemmas::ascii_texts))]
pub fn encode_uuid_with(
    alloc: Global,
    alphabet: &Alphabet,
    uuid: [u8; 16],
) -> Result<String, AllocError>
    requires { IsAscii alphabet.now }
    ensures { AnswersCanonical alphabet.now (uuid_number uuid) result }
{
    string_over(alloc, alphabet.as_tables(), number_of_uuid(uuid))
}

/// Appends the encoded string of `num`, 1 to 22 characters in the standard alphabet, to `buf`.
///
/// Allocates at most once, before it appends, if the spare capacity of `buf` is less than the
/// length of the string. 22 spare bytes are always enough. The capacity never shrinks.
/// If the allocation fails, `buf` is left unchanged.
///
/// ```rust
/// let mut link = String::from_str(rt.alloc(), "https://example.org/")?;
/// base62::encode_buf(1337_u64, &mut link)?;
/// assert_eq!(rt; link.as_str(), "https://example.org/LZ");
/// ```
#[tactic(auto, using(crate::proofs::CanonicalLemmas::ascii_texts))]
pub fn encode_buf<T: Number>(num: T, buf: &mut String) -> Result<(), AllocError>
    ensures { AppendsTo standard (T.meaning num) buf.old buf.new result }
{
    append_over(standard_tables(), num, buf)
}

/// Like [`encode_buf`], but uses the alternative alphabet.
///
/// ```rust
/// let mut link = String::from_str(rt.alloc(), "https://example.org/")?;
/// base62::encode_alternative_buf(1337_u64, &mut link)?;
/// assert_eq!(rt; link.as_str(), "https://example.org/lz");
/// ```
#[tactic(auto, using(crate::proofs::CanonicalLemmas::ascii_texts))]
pub fn encode_alternative_buf<T: Number>(num: T, buf: &mut String) -> Result<(), AllocError>
    ensures { AppendsTo alternative (T.meaning num) buf.old buf.new result }
{
    append_over(alternative_tables(), num, buf)
}

/// Like [`encode_buf`], but uses a custom alphabet, which has to be ASCII.
///
/// [`Alphabet::is_ascii`] checks this.
///
/// ```rust
/// let characters = *b"23456789ABCDEFGHJKLMNPQRSTUVWXYZabcdefghijkmnpqrstuvwxyz-_.~!*";
/// let own = base62::Alphabet::from_static(characters);
/// let mut link = String::from_str(rt.alloc(), "https://example.org/")?;
/// base62::encode_buf_with(&own, 1337_u64, &mut link)?;
/// assert_eq!(rt; link.as_str(), "https://example.org/Pd");
/// ```
#[tactic(auto, using(crate::proofs::CanonicalLemmas::ascii_texts))]
pub fn encode_buf_with<T: Number>(
    alphabet: &Alphabet,
    num: T,
    buf: &mut String,
) -> Result<(), AllocError>
    requires { IsAscii alphabet.now }
    ensures { AppendsTo alphabet.now (T.meaning num) buf.old buf.new result }
{
    append_over(alphabet.as_tables(), num, buf)
}

// Returns the number of sixteen bytes, the most significant first.
#[tactic(auto, using(crate::proofs::UuidLemmas::number_from_bytes))]
fn number_of_uuid(uuid: [u8; 16]) -> u128
    ensures { result ≡ uuid_number uuid }
{
    u128::from_be_bytes(uuid)
}

// Returns the text over the alphabet of the tables as a string. It is written in place, not copied.
#[inline]
#[tactic(auto, using(crate::proofs::CanonicalLemmas::ascii_texts))]
fn string_over<T: Number>(alloc: Global, tables: &Tables, num: T) -> Result<String, AllocError>
    requires tables { AreTables tables.now }
    requires ascii { IsAscii tables.now.letters }
    ensures { AnswersCanonical tables.now.letters (T.meaning num) result }
{
    let n = num.number();
    let len = digit_count(n);
    let mut bytes = Vec::with_capacity(alloc, len)?;
    // The capacity is enough now.
    bytes.resize_with(len, || 0).unwrap();
    write_number(tables, n, len, bytes.as_mut_slice(), &mut Work::new());
    // SAFETY: the letters are ASCII.
    Ok(unsafe { String::from_utf8_unchecked(bytes) })
}

// Appends the text over the alphabet of the tables. In Rattle the bytes of a `String` cannot be
// borrowed mutably, so the text is copied. In Rust the hand-written `return_if_written_in_place!`
// writes it in place if the spare capacity is enough for any text.
#[inline]
fn append_over<T: Number>(tables: &Tables, num: T, buf: &mut String) -> Result<(), AllocError>
    requires tables { AreTables tables.now }
    requires ascii { IsAscii tables.now.letters }
    ensures { AppendsTo tables.now.letters (T.meaning num) buf.old buf.new result }
{
    append_copy(tables, num.number(), buf)
}

// Appends a copy of the text.
#[tactic(auto, using(crate::proofs::CanonicalLemmas::ascii_texts, crate::proofs::CanonicalLemmas::canonical_fits))]
fn append_copy(tables: &Tables, n: u128, buf: &mut String) -> Result<(), AllocError>
    requires tables { AreTables tables.now }
    requires ascii { IsAscii tables.now.letters }
    ensures { AppendsTo tables.now.letters n buf.old buf.new result }
{
    let mut text = Text::new();
    text.set(tables, n);
    let letters = text.as_str();
    buf.reserve(letters.len())?;
    // The capacity is enough now.
    buf.push_str(letters).unwrap();
    Ok(())
}

/// Writes the encoded string of `num`, 1 to 22 characters in the standard alphabet, to `w`.
///
/// Calls `write_all` once, with the whole string, and does not flush the writer. Does not allocate,
/// unless the writer does.
///
/// ```rust
/// let mut out = Vec::new(rt.alloc());
/// base62::encode_io(1337_u64, &mut out)?;
/// assert_eq!(rt; out.as_slice(), b"LZ".as_slice());
/// ```
///
/// # Errors
///
/// Returns the error of `write_all`. How much was written before it is not specified.
pub fn encode_io<T: Number, W: Write>(num: T, w: &mut W) -> io::Result<()>
    ensures { OnOk result
        (WritesCanonical standard (T.meaning num) (W.contents w.old) (W.contents w.new)) }
{
    write_over(standard_tables(), num, w)
}

/// Like [`encode_io`], but uses the alternative alphabet.
///
/// ```rust
/// let mut out = Vec::new(rt.alloc());
/// base62::encode_alternative_io(1337_u64, &mut out)?;
/// assert_eq!(rt; out.as_slice(), b"lz".as_slice());
/// ```
///
/// # Errors
///
/// Returns the error of `write_all`, like [`encode_io`].
pub fn encode_alternative_io<T: Number, W: Write>(num: T, w: &mut W) -> io::Result<()>
    ensures { OnOk result
        (WritesCanonical alternative (T.meaning num) (W.contents w.old) (W.contents w.new)) }
{
    write_over(alternative_tables(), num, w)
}

/// Like [`encode_io`], but uses a custom alphabet, which may be non-ASCII.
///
/// ```rust
/// let characters = *b"23456789ABCDEFGHJKLMNPQRSTUVWXYZabcdefghijkmnpqrstuvwxyz-_.~!*";
/// let own = base62::Alphabet::from_static(characters);
/// let mut out = Vec::new(rt.alloc());
/// base62::encode_io_with(&own, 1337_u64, &mut out)?;
/// assert_eq!(rt; out.as_slice(), b"Pd".as_slice());
/// ```
///
/// # Errors
///
/// Returns the error of `write_all`, like [`encode_io`].
pub fn encode_io_with<T: Number, W: Write>(alphabet: &Alphabet, num: T, w: &mut W) -> io::Result<()>
    ensures { OnOk result
        (WritesCanonical alphabet.now (T.meaning num) (W.contents w.old) (W.contents w.new)) }
{
    write_over(alphabet.as_tables(), num, w)
}

// Writes the text over the alphabet of the tables.
fn write_over<T: Number, W: Write>(tables: &Tables, num: T, w: &mut W) -> io::Result<()>
    requires { AreTables tables.now }
    ensures { OnOk result
        (WritesCanonical tables.now.letters (T.meaning num) (W.contents w.old) (W.contents w.new)) }
{
    let mut text = Text::new();
    text.set(tables, num);
    w.write_all(text.as_bytes())
}
