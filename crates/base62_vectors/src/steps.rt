//! Tests of counted calls, whose contracts state the results and the steps.
#![tactic(auto, unfolding(base62::proofs::OnLiterals::base62_on_literals))]

ghost use Rattle.std.specs.Prelude.{◌≡◌, Ok, Err};
ghost use Rattle.base62.specs.declared.fault.DecodeError.TheVariants.{InvalidBase62Byte};
ghost use Rattle.base62.specs.declared.fault.EncodeError.TheVariants.{BufferTooSmall};

use base62::laws::text_of_number;
use base62::{Alphabet, DecodeError, EncodeError, Work, decode_counted, encode_bytes_counted};

/// Decodes `0!` with a new counter. It takes one step: the leading zero takes none.
pub fn bad_byte_after_a_zero() -> (Result<u128, DecodeError>, Work)
    ensures answer { result.0 ≡ Err (InvalidBase62Byte 33 1) }
    ensures steps { result.1 ≡ 1 }
{
    let mut work = Work::default();
    let answer = decode_counted(b"0!", &mut work);
    (answer, work)
}

/// Decodes `000` with the counter of [`bad_byte_after_a_zero`], and takes no step.
pub fn zeros_on_the_same_counter() -> (Result<u128, DecodeError>, Work)
    ensures answer { result.0 ≡ Ok 0 }
    ensures steps { result.1 ≡ 1 }
{
    let (_, mut work) = bad_byte_after_a_zero();
    let answer = decode_counted(b"000", &mut work);
    (answer, work)
}

/// Rejects 1337, whose string has two characters, for a buffer of one byte, with a new counter. It takes no step.
pub fn two_characters_in_one_byte() -> (Result<usize, EncodeError>, Work)
    ensures answer { result.0 ≡ Err BufferTooSmall }
    ensures steps { result.1 ≡ 0 }
{
    text_of_number(&Alphabet::standard(), b"LZ", 1337);
    let mut work = Work::new();
    let answer = encode_bytes_counted(1337_u32, &mut [0; 1], &mut work);
    (answer, work)
}

/// Encodes 0 with a new counter, in one step, and returns the length.
pub fn zero_in_22_bytes() -> (Result<usize, EncodeError>, Work)
    ensures answer { result.0 ≡ Ok 1 }
    ensures steps { result.1 ≡ 1 }
{
    text_of_number(&Alphabet::standard(), b"0", 0);
    let mut work = Work::new();
    let answer = encode_bytes_counted(0_u8, &mut [0; 22], &mut work);
    (answer, work)
}

/// Encodes 62^9, the least number of ten characters, with a new counter, in seven steps, and returns the length.
pub fn ten_characters_in_22_bytes() -> (Result<usize, EncodeError>, Work)
    ensures answer { result.0 ≡ Ok 10 }
    ensures steps { result.1 ≡ 7 }
{
    text_of_number(&Alphabet::standard(), b"1000000000", 13537086546263552);
    let mut work = Work::new();
    let answer = encode_bytes_counted(13537086546263552_u64, &mut [0; 22], &mut work);
    (answer, work)
}
