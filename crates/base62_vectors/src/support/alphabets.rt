//! Alphabets with the calls for them, and numbers with their texts.

ghost use Rattle.std.specs.Str.{IsAscii};

use base62::laws::texts_of_ascii;
use base62::{
    Alphabet, DecodeError, EncodeError, Number, decode, decode_alternative, decode_with, encode,
    encode_alternative, encode_alternative_buf, encode_alternative_bytes, encode_alternative_io,
    encode_buf, encode_buf_with, encode_bytes, encode_bytes_with, encode_io, encode_io_with,
    encode_uuid, encode_uuid_with, encode_with,
};
use std::alloc::{AllocError, Global};
use std::io::{self, Write};

// Both begin with the digits. In one uppercase letters come first, in the other lowercase ones.
pub(crate) static STANDARD_LETTERS: [u8; 62] =
    *b"0123456789ABCDEFGHIJKLMNOPQRSTUVWXYZabcdefghijklmnopqrstuvwxyz";

pub(crate) static ALTERNATIVE_LETTERS: [u8; 62] =
    *b"0123456789abcdefghijklmnopqrstuvwxyzABCDEFGHIJKLMNOPQRSTUVWXYZ";

// The bytes from 33 to 94.
pub(crate) fn symbols() -> Alphabet
    ensures { IsAscii result }
{
    Alphabet::from_static(*b"!\"#$%&'()*+,-./0123456789:;<=>?@ABCDEFGHIJKLMNOPQRSTUVWXYZ[\\]^")
}

// An alphabet with the calls for it: the built-in ones, and a custom one.
#[derive(Clone, Copy, Debug)]
pub(crate) enum Letters {
    Standard,
    Alternative,
    Symbols,
}

pub(crate) const BOTH: [Letters; 2] = [Letters::Standard, Letters::Alternative];

pub(crate) const ALL: [Letters; 3] = [Letters::Standard, Letters::Alternative, Letters::Symbols];

impl Letters {
    pub(crate) fn letters(self) -> [u8; 62] {
        match self {
            Letters::Standard => STANDARD_LETTERS,
            Letters::Alternative => ALTERNATIVE_LETTERS,
            Letters::Symbols => *symbols().characters(),
        }
    }

    // Converts a standard text to these letters. A byte that is not a letter is left unchanged.
    pub(crate) fn of_standard(self, alloc: Global, text: &[u8]) -> Result<Vec<u8>, AllocError> {
        let letters = self.letters();
        text.iter()
            .map(|byte| letter_for(&letters, *byte))
            .collect(alloc)
    }

    pub(crate) fn encode<T: Number>(
        self,
        number: T,
        buffer: &mut [u8],
    ) -> Result<usize, EncodeError> {
        match self {
            Letters::Standard => encode_bytes(number, buffer),
            Letters::Alternative => encode_alternative_bytes(number, buffer),
            Letters::Symbols => encode_bytes_with(&symbols(), number, buffer),
        }
    }

    pub(crate) fn decode(self, text: &[u8]) -> Result<u128, DecodeError> {
        match self {
            Letters::Standard => decode(text),
            Letters::Alternative => decode_alternative(text),
            Letters::Symbols => decode_with(&symbols(), text),
        }
    }

    pub(crate) fn text<T: Number + Drop>(
        self,
        alloc: Global,
        number: T,
    ) -> Result<String, AllocError> {
        match self {
            Letters::Standard => encode(alloc, number),
            Letters::Alternative => encode_alternative(alloc, number),
            Letters::Symbols => encode_with(alloc, &symbols(), number),
        }
    }

    pub(crate) fn uuid_text(self, alloc: Global, uuid: [u8; 16]) -> Result<String, AllocError> {
        match self {
            Letters::Standard => encode_uuid(alloc, uuid),
            Letters::Alternative => {
                texts_of_ascii();
                encode_uuid_with(alloc, &Alphabet::alternative(), uuid)
            }
            Letters::Symbols => encode_uuid_with(alloc, &symbols(), uuid),
        }
    }

    pub(crate) fn append<T: Number + Drop>(
        self,
        number: T,
        text: &mut String,
    ) -> Result<(), AllocError> {
        match self {
            Letters::Standard => encode_buf(number, text),
            Letters::Alternative => encode_alternative_buf(number, text),
            Letters::Symbols => encode_buf_with(&symbols(), number, text),
        }
    }

    pub(crate) fn write<T: Number, W: Write>(self, number: T, writer: &mut W) -> io::Result<()> {
        match self {
            Letters::Standard => encode_io(number, writer),
            Letters::Alternative => encode_alternative_io(number, writer),
            Letters::Symbols => encode_io_with(&symbols(), number, writer),
        }
    }
}

// Returns the letter with the digit of a standard letter.
fn letter_for(letters: &[u8; 62], byte: u8) -> u8 {
    for digit in 0..62_usize {
        if STANDARD_LETTERS[digit] == byte {
            return letters[digit];
        }
    }
    byte
}

// Each number with its standard text.
const NUMBERS: [(u128, &str); 10] = [
    (0, "0"),
    (1337, "LZ"),
    (1234567890, "1LY7VK"),
    (691337691337, "CAcoUun"),
    // The largest of u64, and the number after it.
    (18446744073709551615, "LygHa16AHYF"),
    (18446744073709551616, "LygHa16AHYG"),
    // The lower digits are all zero: below 2^64, above it, and in the longest texts.
    (17625286683235144704, "L0000000000"),
    (18464586049103484928, "M0000000000"),
    (
        92202686130861137968548313400401640448,
        "26tF05fvSIgh0000000000",
    ),
    (u128::MAX, "7n42DGM5Tflk9n8mt7Fhc7"),
];

// Those, and the numbers 62^k and 62^k - 1, with their texts in an alphabet. The text of 62^k is a `1` and k zeros, and
// that of 62^k - 1 is k times the last letter.
pub(crate) fn texts(alloc: Global, alphabet: Letters) -> Result<Vec<(u128, Vec<u8>)>, AllocError> {
    let mut texts = Vec::new(alloc);
    for (number, text) in NUMBERS {
        texts.push((number, alphabet.of_standard(alloc, text.as_bytes())?))?;
    }
    let mut power: u128 = 1;
    let mut least = [b'0'; 22];
    least[0] = b'1';
    for length in 1..=21_usize {
        power = power.wrapping_mul(62);
        texts.push((power, alphabet.of_standard(alloc, &least[..=length])?))?;
        let greatest = alphabet.of_standard(alloc, &[b'z'; 21][..length])?;
        texts.push((power.wrapping_sub(1), greatest))?;
    }
    Ok(texts)
}
