//! The errors of decoding, encoding, and creating an alphabet.

ghost use Rattle.std.specs.Prelude.{◌≡◌, ◌+◌, ◌<◌, ◌≤◌, ◌++◌, Some, decimal, length};
ghost use Rattle.std.specs.Char.{digit_char};
ghost use Rattle.std.specs.Str.{IsAscii};
ghost use Rattle.std.specs.Fmt.{WritesOnOk, WritesStyledOnOk};
ghost use Rattle.std.specs.Fmt.InlineText.{inline_text};
ghost use Rattle.base62.specs.declared.fault.CanonicalError.TheVariants.{Decode};
ghost use Rattle.base62.specs.declared.fault.FixedError.TheVariants.{Decode as FixedDecode};
ghost use Rattle.base62.specs.declared.fault.TheConstants.{MAX_FAULT_TEXT};
ghost use Rattle.base62.specs.Fault.{alphabet_error_text, byte_at_index, canonical_error_text, decode_error_text, encode_error_text, escaped, fixed_error_text, uuid_error_text};

use std::fmt::InlineText;
use std::{error, fmt, str};

/// An error that can be returned when decoding a string.
#[derive(Clone, Copy, Debug, PartialEq, Eq, PartialOrd, Ord, Hash)]
pub enum DecodeError {
    /// The string represents 2^128 or more, or more than 22 bytes follow its leading zeros. It is also
    /// returned if 22 bytes follow, and the first ten of them, followed by twelve zeros, represent
    /// 2^128 or more, even if a later byte is invalid.
    ArithmeticOverflow,
    /// The string is empty.
    EmptyInput,
    /// A byte is not in the alphabet: the first such byte, and its index in the string, leading
    /// zeros included.
    InvalidBase62Byte(u8, usize),
}

/// An error that can be returned when decoding a string that has to be canonical.
#[derive(Clone, Copy, Debug, PartialEq, Eq, PartialOrd, Ord, Hash)]
pub enum CanonicalError {
    /// The string decodes to a number, but begins with a zero that other characters follow.
    LeadingZero,
    /// The string does not decode to a number.
    Decode(DecodeError),
}

/// An error that can be returned when decoding a string of a fixed width.
#[derive(Clone, Copy, Debug, PartialEq, Eq, PartialOrd, Ord, Hash)]
pub enum FixedError {
    /// The length of the string is not the width.
    WrongLength,
    /// The string has this length, but does not decode to a number.
    Decode(DecodeError),
}

/// An error that can be returned when encoding to a buffer.
#[derive(Clone, Copy, Debug, PartialEq, Eq, PartialOrd, Ord, Hash)]
pub enum EncodeError {
    /// The buffer is shorter than the encoded string.
    BufferTooSmall,
}

/// An error that can be returned when creating an alphabet from 62 bytes.
#[derive(Clone, Copy, Debug, PartialEq, Eq, PartialOrd, Ord, Hash)]
pub enum AlphabetError {
    /// A byte is repeated: the first byte that is also at an earlier index, and its index, 1 to 61.
    Repeated(u8, usize),
}

/// An error that can be returned when decoding the hexadecimal string of a UUID.
#[derive(Clone, Copy, Debug, PartialEq, Eq, PartialOrd, Ord, Hash)]
pub enum UuidError {
    /// The string has none of the forms of a UUID.
    InvalidUuid,
}

/// The maximum length of an error's message: a byte has up to four characters, its index up to
/// twenty.
pub const MAX_FAULT_TEXT: usize = 77;

impl DecodeError {
    /// Returns the error's message, at most 77 ASCII characters.
    ///
    /// A byte is escaped as by `std::ascii::escape_default`: `\t`, `\n`, `\r`, `\"`, `\'` or `\\`,
    /// any other byte from 32 to 126 as itself, and the others as `\x` and two lowercase
    /// hexadecimal digits. Never fails, and does not allocate.
    ///
    /// ```rust
    /// let error = base62::decode(b"LZ-").unwrap_err();
    /// let text = "Encoded input contains the invalid byte b'-' at index 2";
    /// assert_eq!(rt; error.text().as_str(), text);
    /// ```
    #[tactic(auto, unfolding(crate::specs::Fault::decode_error_text))]
    pub fn text(&self) -> InlineText<MAX_FAULT_TEXT>
        ensures { inline_text result ≡ decode_error_text self.now }
    {
        match *self {
            DecodeError::ArithmeticOverflow => {
                append(InlineText::new(), "Decoded number cannot fit into a `u128`")
            }
            DecodeError::EmptyInput => {
                append(InlineText::new(), "Encoded input is an empty string")
            }
            DecodeError::InvalidBase62Byte(byte, index) => append_byte_at_index(
                append(InlineText::new(), "Encoded input contains the invalid "),
                byte,
                index,
            ),
        }
    }
}

/// Writes the error's message, and ignores the formatter's options.
impl fmt::Display for DecodeError {
    ghost output = { λ e. Some (decode_error_text e) };

    ghost styled_output = { λ e _. Some (decode_error_text e) };

    fn fmt<W: fmt::Write>(&self, f: &mut fmt::Formatter<W>) -> fmt::Result {
        write_unpadded(self.text(), f)
    }
}

impl error::Error for DecodeError {}

impl From<DecodeError> for CanonicalError {
    ghost from_gives = { λ fault error. error ≡ Decode fault };

    fn from(error: DecodeError) -> CanonicalError {
        CanonicalError::Decode(error)
    }
}

impl CanonicalError {
    /// Returns the error's message, at most 77 ASCII characters: of an error of decoding its own.
    ///
    /// Never fails, and does not allocate.
    ///
    /// ```rust
    /// let error = base62::decode_canonical(b"0LZ").unwrap_err();
    /// assert_eq!(rt; error.text().as_str(), "Encoded input has a leading zero");
    /// ```
    #[tactic(auto, unfolding(crate::specs::Fault::canonical_error_text))]
    pub fn text(&self) -> InlineText<MAX_FAULT_TEXT>
        ensures { inline_text result ≡ canonical_error_text self.now }
    {
        match *self {
            CanonicalError::LeadingZero => {
                append(InlineText::new(), "Encoded input has a leading zero")
            }
            CanonicalError::Decode(error) => error.text(),
        }
    }
}

/// Writes the error's message, and ignores the formatter's options.
impl fmt::Display for CanonicalError {
    ghost output = { λ e. Some (canonical_error_text e) };

    ghost styled_output = { λ e _. Some (canonical_error_text e) };

    fn fmt<W: fmt::Write>(&self, f: &mut fmt::Formatter<W>) -> fmt::Result {
        write_unpadded(self.text(), f)
    }
}

impl error::Error for CanonicalError {}

impl From<DecodeError> for FixedError {
    ghost from_gives = { λ fault error. error ≡ FixedDecode fault };

    fn from(error: DecodeError) -> FixedError {
        FixedError::Decode(error)
    }
}

impl FixedError {
    /// Returns the error's message, at most 77 ASCII characters: of an error of decoding its own.
    ///
    /// Never fails, and does not allocate.
    ///
    /// ```rust
    /// let error = base62::decode_fixed(b"0LZ", 5).unwrap_err();
    /// let text = "Encoded input does not have the given width";
    /// assert_eq!(rt; error.text().as_str(), text);
    /// ```
    #[tactic(auto, unfolding(crate::specs::Fault::fixed_error_text))]
    pub fn text(&self) -> InlineText<MAX_FAULT_TEXT>
        ensures { inline_text result ≡ fixed_error_text self.now }
    {
        match *self {
            FixedError::WrongLength => append(
                InlineText::new(),
                "Encoded input does not have the given width",
            ),
            FixedError::Decode(error) => error.text(),
        }
    }
}

/// Writes the error's message, and ignores the formatter's options.
impl fmt::Display for FixedError {
    ghost output = { λ e. Some (fixed_error_text e) };

    ghost styled_output = { λ e _. Some (fixed_error_text e) };

    fn fmt<W: fmt::Write>(&self, f: &mut fmt::Formatter<W>) -> fmt::Result {
        write_unpadded(self.text(), f)
    }
}

impl error::Error for FixedError {}

impl EncodeError {
    /// Returns the error's message, 37 ASCII characters. Never fails, and does not allocate.
    ///
    /// ```rust
    /// let error = base62::encode_bytes(1337_u64, &mut [0u8; 1]).unwrap_err();
    /// assert!(rt; error.text().as_str().starts_with("Buffer too small"));
    /// ```
    #[tactic(auto, unfolding(crate::specs::Fault::encode_error_text))]
    pub fn text(&self) -> InlineText<MAX_FAULT_TEXT>
        ensures { inline_text result ≡ encode_error_text self.now }
    {
        match *self {
            EncodeError::BufferTooSmall => {
                append(InlineText::new(), "Buffer too small to encode the number")
            }
        }
    }
}

/// Writes the error's message, and ignores the formatter's options.
impl fmt::Display for EncodeError {
    ghost output = { λ e. Some (encode_error_text e) };

    ghost styled_output = { λ e _. Some (encode_error_text e) };

    fn fmt<W: fmt::Write>(&self, f: &mut fmt::Formatter<W>) -> fmt::Result {
        write_unpadded(self.text(), f)
    }
}

impl error::Error for EncodeError {}

impl AlphabetError {
    /// Returns the error's message, at most 63 ASCII characters for any index.
    ///
    /// The byte is escaped as in [`DecodeError::text`]. Never fails, and does not allocate.
    ///
    /// ```rust
    /// let error = base62::Alphabet::new([b'a'; 62]).unwrap_err();
    /// assert_eq!(rt; error.text().as_str(), "Alphabet repeats the byte b'a' at index 1");
    /// ```
    #[tactic(auto, unfolding(crate::specs::Fault::alphabet_error_text))]
    pub fn text(&self) -> InlineText<MAX_FAULT_TEXT>
        ensures { inline_text result ≡ alphabet_error_text self.now }
    {
        let AlphabetError::Repeated(byte, index) = *self;
        append_byte_at_index(
            append(InlineText::new(), "Alphabet repeats the "),
            byte,
            index,
        )
    }
}

/// Writes the error's message, and ignores the formatter's options.
impl fmt::Display for AlphabetError {
    ghost output = { λ e. Some (alphabet_error_text e) };

    ghost styled_output = { λ e _. Some (alphabet_error_text e) };

    fn fmt<W: fmt::Write>(&self, f: &mut fmt::Formatter<W>) -> fmt::Result {
        write_unpadded(self.text(), f)
    }
}

impl error::Error for AlphabetError {}

impl UuidError {
    /// Returns the error's message, 10 ASCII characters. Never fails, and does not allocate.
    ///
    /// ```rust
    /// let error = base62::uuid_from_string(b"550e8400").unwrap_err();
    /// assert_eq!(rt; error.text().as_str(), "Not a UUID");
    /// ```
    #[tactic(auto, unfolding(crate::specs::Fault::uuid_error_text))]
    pub fn text(&self) -> InlineText<MAX_FAULT_TEXT>
        ensures { inline_text result ≡ uuid_error_text self.now }
    {
        match *self {
            UuidError::InvalidUuid => append(InlineText::new(), "Not a UUID"),
        }
    }
}

/// Writes the error's message, and ignores the formatter's options.
impl fmt::Display for UuidError {
    ghost output = { λ e. Some (uuid_error_text e) };

    ghost styled_output = { λ e _. Some (uuid_error_text e) };

    fn fmt<W: fmt::Write>(&self, f: &mut fmt::Formatter<W>) -> fmt::Result {
        write_unpadded(self.text(), f)
    }
}

impl error::Error for UuidError {}

// Writes the text unpadded, whatever options the formatter has.
fn write_unpadded<W: fmt::Write>(
    text: InlineText<MAX_FAULT_TEXT>,
    f: &mut fmt::Formatter<W>,
) -> fmt::Result
    ensures writes { WritesOnOk W.write_str_gives f.old result (inline_text text) f.new }
    ensures styled { WritesStyledOnOk W.write_str_gives f.old result (inline_text text) f.new }
{
    f.write_str(text.as_str())
}

// Appends a byte, escaped, and its index.
#[tactic(auto, using(crate::proofs::AppendLemmas::appends), unfolding(crate::specs::Fault::byte_at_index))]
fn append_byte_at_index(
    text: InlineText<MAX_FAULT_TEXT>,
    byte: u8,
    index: usize,
) -> InlineText<MAX_FAULT_TEXT>
    requires { length (inline_text text) ≤ 35 }
    ensures { inline_text result ≡ inline_text text ++ byte_at_index byte index }
{
    let named = append_escaped(append(text, "byte b'"), byte);
    append_decimal(append(named, "' at index "), index)
}

#[tactic(auto, using(crate::proofs::AppendLemmas::appends), unfolding(crate::specs::Fault::escaped))]
fn append_escaped(text: InlineText<MAX_FAULT_TEXT>, byte: u8) -> InlineText<MAX_FAULT_TEXT>
    requires { length (inline_text text) ≤ 42 }
    ensures text { inline_text result ≡ inline_text text ++ escaped byte }
    ensures short { length (inline_text result) ≤ length (inline_text text) + 4 }
{
    match byte {
        b'\t' => append(text, "\\t"),
        b'\n' => append(text, "\\n"),
        b'\r' => append(text, "\\r"),
        b'\"' => append(text, "\\\""),
        b'\'' => append(text, "\\'"),
        b'\\' => append(text, "\\\\"),
        32..=126 => append_bytes(text, &[byte]),
        _ => {
            let escape = [b'\\', b'x', hex_digit(byte / 16), hex_digit(byte % 16)];
            append_bytes(text, &escape)
        }
    }
}

// Returns the character of a hexadecimal digit, in lowercase.
pub(crate) fn hex_digit(digit: u8) -> u8
    requires { digit < 16 }
    ensures value { result ≡ digit_char digit }
    ensures ascii { result < 128 }
{
    if digit < 10 {
        b'0' + digit
    } else {
        b'a' + (digit - 10)
    }
}

#[tactic(auto, using(crate::proofs::AppendLemmas::appends))]
fn append_decimal(text: InlineText<MAX_FAULT_TEXT>, number: usize) -> InlineText<MAX_FAULT_TEXT>
    requires { length (inline_text text) + length (decimal number) ≤ MAX_FAULT_TEXT }
    ensures { inline_text result ≡ inline_text text ++ decimal number }
{
    // Written from the last digit to the first.
    let mut digits = [0u8; 20];
    let mut start = 19;
    let mut left = number;
    while left >= 10 {
        digits[start] = b'0' + (left % 10) as u8;
        left /= 10;
        start -= 1;
    }
    digits[start] = b'0' + left as u8;
    append_bytes(text, &digits[start..])
}

fn append_bytes(text: InlineText<MAX_FAULT_TEXT>, bytes: &[u8]) -> InlineText<MAX_FAULT_TEXT>
    requires fits { length (inline_text text) + length bytes.now ≤ MAX_FAULT_TEXT }
    requires ascii { IsAscii bytes.now }
    ensures { inline_text result ≡ inline_text text ++ bytes.now }
{
    // SAFETY: the bytes are ASCII.
    append(text, unsafe { str::from_utf8_unchecked(bytes) })
}

#[tactic(auto, using(crate::proofs::AppendLemmas::appends))]
fn append(text: InlineText<MAX_FAULT_TEXT>, part: &str) -> InlineText<MAX_FAULT_TEXT>
    requires { length (inline_text text) + length part.now ≤ MAX_FAULT_TEXT }
    ensures { inline_text result ≡ inline_text text ++ part.now }
{
    text.and_str(part, MAX_FAULT_TEXT)
}
