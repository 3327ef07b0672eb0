//! Lookup tables of an alphabet: the letters of digits, and the digits of bytes.

ghost use Rattle.std.specs.Prelude.{◌≡◌, ◌+◌, ◌/◌, ◌%◌, ◌<◌, ◌==◌, slice_index};
ghost use Rattle.base62.specs.Alphabet.{standard, alternative, zero_letter};
ghost use Rattle.base62.specs.Tables.{AreTables, digit_or_255};

use super::Work;

// The letters of an alphabet by their digits, and the digit of each byte, 255 if it has none.
#[derive(Clone, Copy)]
pub(crate) struct Tables {
    pub(super) letters: [u8; 62],
    pub(super) digits: [u8; 256],
}

impl Tables {
    // Returns the digit of a byte, or 255 if it has none. Like `is_zero`, it is only hinted to be
    // inlined: if compilers have to inline it, they stop inlining the decoder.
    #[inline]
    pub(crate) fn digit(&self, byte: u8, work: &mut Work) -> u8
        requires { AreTables self.now }
        ensures digit { result ≡ digit_or_255 self.now.letters byte }
        ensures step { work.new ≡ work.old + 1 }
    {
        work.tick();
        self.digits[byte as usize]
    }

    // Returns whether a byte is the zero letter.
    #[inline]
    pub(crate) fn is_zero(&self, byte: u8) -> bool
        ensures { result ≡ (byte == zero_letter self.now.letters) }
    {
        byte == self.letters[0]
    }

    // Returns the letters of the two digits of a number.
    #[inline(always)]
    pub(crate) fn pair(&self, number: u32, work: &mut Work) -> (u8, u8)
        requires { number < 3844 }
        ensures first { result.0 ≡ slice_index self.now.letters (number / 62) }
        ensures second { result.1 ≡ slice_index self.now.letters (number % 62) }
        ensures step { work.new ≡ work.old + 1 }
    {
        // The quotient by 62, exact below 3844.
        let quotient = (number * 4229) >> 18;
        self.pair_of_digits(quotient as u64, (number - quotient * 62) as u64, work)
    }

    // Returns the letters of two digits, in one step.
    #[inline(always)]
    pub(crate) fn pair_of_digits(
        &self,
        first_digit: u64,
        second_digit: u64,
        work: &mut Work,
    ) -> (u8, u8)
        requires first { first_digit < 62 }
        requires second { second_digit < 62 }
        ensures first { result.0 ≡ slice_index self.now.letters first_digit }
        ensures second { result.1 ≡ slice_index self.now.letters second_digit }
        ensures step { work.new ≡ work.old + 1 }
    {
        work.tick();
        let first = self.letters[first_digit as usize];
        let second = self.letters[second_digit as usize];
        (first, second)
    }

    // Returns the letter of a digit.
    #[inline(always)]
    pub(crate) fn letter(&self, digit: u64, work: &mut Work) -> u8
        requires { digit < 62 }
        ensures letter { result ≡ slice_index self.now.letters digit }
        ensures step { work.new ≡ work.old + 1 }
    {
        work.tick();
        self.letters[digit as usize]
    }
}

const STANDARD: Tables = Tables {
    letters: *b"0123456789ABCDEFGHIJKLMNOPQRSTUVWXYZabcdefghijklmnopqrstuvwxyz",
    digits: [
        255, 255, 255, 255, 255, 255, 255, 255, 255, 255, 255, 255, 255, 255, 255, 255, 255, 255,
        255, 255, 255, 255, 255, 255, 255, 255, 255, 255, 255, 255, 255, 255, 255, 255, 255, 255,
        255, 255, 255, 255, 255, 255, 255, 255, 255, 255, 255, 255, 0, 1, 2, 3, 4, 5, 6, 7, 8, 9,
        255, 255, 255, 255, 255, 255, 255, 10, 11, 12, 13, 14, 15, 16, 17, 18, 19, 20, 21, 22, 23,
        24, 25, 26, 27, 28, 29, 30, 31, 32, 33, 34, 35, 255, 255, 255, 255, 255, 255, 36, 37, 38,
        39, 40, 41, 42, 43, 44, 45, 46, 47, 48, 49, 50, 51, 52, 53, 54, 55, 56, 57, 58, 59, 60, 61,
        255, 255, 255, 255, 255, 255, 255, 255, 255, 255, 255, 255, 255, 255, 255, 255, 255, 255,
        255, 255, 255, 255, 255, 255, 255, 255, 255, 255, 255, 255, 255, 255, 255, 255, 255, 255,
        255, 255, 255, 255, 255, 255, 255, 255, 255, 255, 255, 255, 255, 255, 255, 255, 255, 255,
        255, 255, 255, 255, 255, 255, 255, 255, 255, 255, 255, 255, 255, 255, 255, 255, 255, 255,
        255, 255, 255, 255, 255, 255, 255, 255, 255, 255, 255, 255, 255, 255, 255, 255, 255, 255,
        255, 255, 255, 255, 255, 255, 255, 255, 255, 255, 255, 255, 255, 255, 255, 255, 255, 255,
        255, 255, 255, 255, 255, 255, 255, 255, 255, 255, 255, 255, 255, 255, 255, 255, 255, 255,
        255, 255, 255, 255, 255, 255, 255,
    ],
};

const ALTERNATIVE: Tables = Tables {
    letters: *b"0123456789abcdefghijklmnopqrstuvwxyzABCDEFGHIJKLMNOPQRSTUVWXYZ",
    digits: [
        255, 255, 255, 255, 255, 255, 255, 255, 255, 255, 255, 255, 255, 255, 255, 255, 255, 255,
        255, 255, 255, 255, 255, 255, 255, 255, 255, 255, 255, 255, 255, 255, 255, 255, 255, 255,
        255, 255, 255, 255, 255, 255, 255, 255, 255, 255, 255, 255, 0, 1, 2, 3, 4, 5, 6, 7, 8, 9,
        255, 255, 255, 255, 255, 255, 255, 36, 37, 38, 39, 40, 41, 42, 43, 44, 45, 46, 47, 48, 49,
        50, 51, 52, 53, 54, 55, 56, 57, 58, 59, 60, 61, 255, 255, 255, 255, 255, 255, 10, 11, 12,
        13, 14, 15, 16, 17, 18, 19, 20, 21, 22, 23, 24, 25, 26, 27, 28, 29, 30, 31, 32, 33, 34, 35,
        255, 255, 255, 255, 255, 255, 255, 255, 255, 255, 255, 255, 255, 255, 255, 255, 255, 255,
        255, 255, 255, 255, 255, 255, 255, 255, 255, 255, 255, 255, 255, 255, 255, 255, 255, 255,
        255, 255, 255, 255, 255, 255, 255, 255, 255, 255, 255, 255, 255, 255, 255, 255, 255, 255,
        255, 255, 255, 255, 255, 255, 255, 255, 255, 255, 255, 255, 255, 255, 255, 255, 255, 255,
        255, 255, 255, 255, 255, 255, 255, 255, 255, 255, 255, 255, 255, 255, 255, 255, 255, 255,
        255, 255, 255, 255, 255, 255, 255, 255, 255, 255, 255, 255, 255, 255, 255, 255, 255, 255,
        255, 255, 255, 255, 255, 255, 255, 255, 255, 255, 255, 255, 255, 255, 255, 255, 255, 255,
        255, 255, 255, 255, 255, 255, 255,
    ],
};

// Returns the tables of the standard alphabet.
#[inline(always)]
pub(crate) const fn standard_tables() -> &'static Tables
    ensures tables { AreTables result.now }
    ensures letters { result.now.letters ≡ standard }
{
    &STANDARD
}

// Returns the tables of the alternative alphabet.
#[inline(always)]
pub(crate) const fn alternative_tables() -> &'static Tables
    ensures tables { AreTables result.now }
    ensures letters { result.now.letters ≡ alternative }
{
    &ALTERNATIVE
}
