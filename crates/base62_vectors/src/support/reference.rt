//! A reference encoder, one digit at a time, and a reference decoder, by the table of cases and one byte at a time,
//! over any list of 62 letters.

ghost use Rattle.std.specs.Prelude.{◌≤◌};

use base62::DecodeError;
use base62::DecodeError::{ArithmeticOverflow, EmptyInput, InvalidBase62Byte};

// Returns a number in 22 letters, and the index at which its text starts.
pub(crate) fn reference_text(letters: &[u8; 62], number: u128) -> ([u8; 22], usize)
    ensures { result.1 ≤ 21 }
{
    let mut text = [letters[0]; 22];
    let mut left = number;
    for place in (1..22_usize).rev() {
        text[place] = letters[(left % 62) as usize];
        left /= 62;
        if left == 0 {
            return (text, place);
        }
    }
    text[0] = letters[(left % 62) as usize];
    (text, 0)
}

// Returns how many zero letters the text begins with.
fn count_zeros(letters: &[u8; 62], text: &[u8]) -> usize {
    for (place, byte) in text.iter().enumerate() {
        if *byte != letters[0] {
            return place;
        }
    }
    text.len()
}

fn digit_of(letters: &[u8; 62], byte: u8) -> Option<u128> {
    for digit in 0..62_u8 {
        if letters[usize::from(digit)] == byte {
            return Some(u128::from(digit));
        }
    }
    None
}

// Returns the number that a text denotes, or the error of the first case that applies.
pub(crate) fn reference_decode(letters: &[u8; 62], text: &[u8]) -> Result<u128, DecodeError> {
    if text.is_empty() {
        return Err(EmptyInput);
    }
    let zeros = count_zeros(letters, text);
    let count = text.len().saturating_sub(zeros);
    if count > 22 {
        return Err(ArithmeticOverflow);
    }
    let mut value: Option<u128> = Some(0);
    for place in zeros..text.len() {
        if count == 22 && place - zeros == 10 && with_twelve_zeros(value).is_none() {
            return Err(ArithmeticOverflow);
        }
        let byte = text[place];
        let Some(digit) = digit_of(letters, byte) else {
            return Err(InvalidBase62Byte(byte, place));
        };
        value = with_digit(value, digit);
    }
    value.ok_or(ArithmeticOverflow)
}

// Returns the value with a digit appended, or `None` if it is 2^128 or more.
fn with_digit(value: Option<u128>, digit: u128) -> Option<u128> {
    value?.checked_mul(62)?.checked_add(digit)
}

fn with_twelve_zeros(value: Option<u128>) -> Option<u128> {
    let mut longer = value;
    for _ in 0..12 {
        longer = with_digit(longer, 0);
    }
    longer
}
