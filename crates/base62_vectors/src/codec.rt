//! Tests of numbers and their texts over both alphabets, encoded and decoded, and of inputs that are rejected.

use crate::support::alphabets::{ALL, BOTH, Letters, texts};
use crate::support::checks::{assert_decodes, assert_encodes};
use crate::support::reference::reference_text;
use base62::DecodeError;
use base62::DecodeError::{ArithmeticOverflow, EmptyInput, InvalidBase62Byte};
use std::process::Abort;
use std::test::Fail;

// A number below 2^64 is encoded as each of the two types.
fn assert_texts(rt: &(impl Abort + AllocGlobal), alphabet: Letters) -> Result<(), Fail> {
    assert_encodes(rt, alphabet, 0_u8, b"0");
    for (number, text) in &texts(rt.alloc(), alphabet)? {
        assert_encodes(rt, alphabet, *number, text.as_slice());
        if let Ok(small) = u64::try_from(*number) {
            assert_encodes(rt, alphabet, small, text.as_slice());
        }
    }
    Ok(())
}

#[test]
fn test_encode_bytes(rt: HostRuntime) -> Result<(), Fail> {
    assert_texts(&rt, Letters::Standard)
}

#[test]
fn test_encode_alternative_bytes(rt: HostRuntime) -> Result<(), Fail> {
    assert_texts(&rt, Letters::Alternative)
}

// The numbers around each limit: of a length, of a type, and of all numbers.
#[test]
fn test_encode_exact_and_short_buffers(rt: HostRuntime) {
    let mut centers = [18446744073709551615; 25];
    let mut power: u128 = 1;
    for center in &mut centers[..22] {
        *center = power;
        power = power.wrapping_mul(62);
    }
    centers[23] = 18446744073709551616;
    centers[24] = u128::MAX - 1;
    for center in centers {
        for number in [center.wrapping_sub(1), center, center.wrapping_add(1)] {
            assert_like_reference(&rt, number);
        }
    }
}

fn assert_like_reference(rt: &impl Abort, number: u128) {
    for alphabet in ALL {
        let (letters, start) = reference_text(&alphabet.letters(), number);
        assert_encodes(rt, alphabet, number, &letters[start..]);
    }
}

// Each standard text with the number that it denotes. The text of the same digits over the alternative alphabet
// denotes the same.
const DECODED: [(&str, u128); 13] = [
    ("000", 0),
    ("00000000000000000000001", 1),
    (
        "00001000000000000000000000",
        43674252383913877424036476406214950912,
    ),
    ("1", 1),
    ("LZ", 1337),
    ("lz", 2975),
    // Each letter appended multiplies the value of the first by 62.
    ("100", 3844),
    ("1LZ", 5181),
    (
        "111111111111111111111",
        715971350555965203672729121413359851,
    ),
    (
        "1111111111111111111111",
        44390223734469842627709205527628310763,
    ),
    (
        "zzzzzzzzzzzzzzzzzzzzz",
        43674252383913877424036476406214950911,
    ),
    ("rustlang", 189876682536016),
    ("RUSTLANG", 96813686712946),
];

fn assert_numbers(rt: &(impl Abort + AllocGlobal), alphabet: Letters) -> Result<(), Fail> {
    for (number, text) in &texts(rt.alloc(), alphabet)? {
        assert_decodes(rt, alphabet, text.as_slice(), Ok(*number));
    }
    for (text, number) in DECODED {
        let text = alphabet.of_standard(rt.alloc(), text.as_bytes())?;
        assert_decodes(rt, alphabet, text.as_slice(), Ok(number));
    }
    Ok(())
}

#[test]
fn test_decode(rt: HostRuntime) -> Result<(), Fail> {
    assert_numbers(&rt, Letters::Standard)
}

#[test]
fn test_decode_alternative(rt: HostRuntime) -> Result<(), Fail> {
    assert_numbers(&rt, Letters::Alternative)
}

#[test]
fn test_decode_empty_input(rt: HostRuntime) {
    assert_decodes(&rt, Letters::Standard, b"", Err(EmptyInput));
}

#[test]
fn test_decode_alternative_empty_input(rt: HostRuntime) {
    assert_decodes(&rt, Letters::Alternative, b"", Err(EmptyInput));
}

#[test]
fn test_decode_overflow(rt: HostRuntime) {
    assert_decodes(&rt, Letters::Standard, &[b'1'; 23], Err(ArithmeticOverflow));
}

#[test]
fn test_decode_alternative_overflow(rt: HostRuntime) {
    let overflow = Err(ArithmeticOverflow);
    assert_decodes(&rt, Letters::Alternative, &[b'1'; 23], overflow);
}

#[test]
fn test_decode_invalid_char(rt: HostRuntime) {
    assert_decodes(&rt, Letters::Standard, b"!", Err(InvalidBase62Byte(33, 0)));
}

#[test]
fn test_decode_alternative_invalid_char(rt: HostRuntime) {
    let bad_byte = Err(InvalidBase62Byte(33, 0));
    assert_decodes(&rt, Letters::Alternative, b"!", bad_byte);
}

// Which error is reported for a standard text that has more than one, and for the text of the same digits over the
// alternative alphabet.
const REFUSED: [(&str, DecodeError); 12] = [
    ("0!", InvalidBase62Byte(b'!', 1)),
    // A text of more than 22 bytes after its leading zeros is rejected before any of them is read.
    ("!0000000000000000000000", ArithmeticOverflow),
    ("7n42DGM5Tflk9n8mt7Fhc70", ArithmeticOverflow),
    ("!000000000000000000000", InvalidBase62Byte(b'!', 0)),
    ("0!000000000000000000000", InvalidBase62Byte(b'!', 1)),
    // A bad byte among the first ten is reported, and a later one only if those ten do not overflow.
    ("zzzzzzzzz!000000000000", InvalidBase62Byte(b'!', 9)),
    ("zzzzzzzzzz!00000000000", ArithmeticOverflow),
    ("7n42DGM5Tf!00000000000", InvalidBase62Byte(b'!', 10)),
    ("7n42DGM5Tg!00000000000", ArithmeticOverflow),
    // A bad byte is reported rather than an overflow that depends on the last letters.
    ("7n42DGM5Tflk9n8mt7Fhc!", InvalidBase62Byte(b'!', 21)),
    ("7n42DGM5Tflk9n8mt7Fhc8", ArithmeticOverflow),
    ("zzzzzzzzzzzzzzzzzzzzzz", ArithmeticOverflow),
];

// A bad byte at either end of a part in which 22 letters are read is reported with its index.
fn assert_names(rt: &impl Abort, byte: u8) {
    for place in [2, 3, 11, 12, 21, 22, 23_usize] {
        let mut text = [b'0'; 24];
        text[2] = b'1';
        text[place] = byte;
        for alphabet in BOTH {
            assert_decodes(rt, alphabet, &text, Err(InvalidBase62Byte(byte, place)));
        }
    }
}

#[test]
fn test_decode_invalid_bytes_and_overflow_precedence(rt: HostRuntime) -> Result<(), Fail> {
    for byte in 0..=255_u8 {
        if !byte.is_ascii_alphanumeric() {
            assert_names(&rt, byte);
        }
    }
    for (text, fault) in REFUSED {
        for alphabet in BOTH {
            let text = alphabet.of_standard(rt.alloc(), text.as_bytes())?;
            assert_decodes(&rt, alphabet, text.as_slice(), Err(fault));
        }
    }
    Ok(())
}
