//! Tests of custom alphabets.

use crate::support::alphabets::{ALTERNATIVE_LETTERS, STANDARD_LETTERS, symbols};
use base62::{
    Alphabet, AlphabetError, DecodeError, decode_with, encode_buf_with, encode_bytes_with,
    encode_io_with, encode_with,
};
use std::process::Abort;
use std::test::Fail;

// Returns the 62 bytes from this one on.
fn bytes_from(first: u8) -> [u8; 62] {
    let mut letters = [first; 62];
    for (place, letter) in letters.iter_mut().enumerate() {
        *letter = letter.wrapping_add(place as u8);
    }
    letters
}

fn new_alphabet(rt: &impl Abort, letters: [u8; 62]) -> Alphabet {
    Alphabet::new(letters).expect(rt, "no byte is repeated")
}

// The standard letters from the last to the first.
fn descending(rt: &impl Abort) -> Alphabet {
    let mut letters = STANDARD_LETTERS;
    letters.reverse();
    new_alphabet(rt, letters)
}

#[test]
fn properties_of_alphabets(rt: HostRuntime) {
    let (standard, alternative) = (Alphabet::standard(), Alphabet::alternative());
    let have_letters = *standard.characters() == STANDARD_LETTERS
        && *alternative.characters() == ALTERNATIVE_LETTERS;
    assert!(rt; have_letters, "the built-in alphabets");
    for (alphabet, is_ascii, is_ascending) in [
        (standard, true, true),
        (alternative, true, false),
        (descending(&rt), true, false),
        (new_alphabet(&rt, bytes_from(194)), false, true),
    ] {
        let is_as_expected = alphabet.is_ascii() == is_ascii
            && alphabet.is_ascending() == is_ascending;
        assert!(rt; is_as_expected, "{alphabet:?}");
    }
}

// No clause covers this text. Non-printable and non-ASCII bytes are escaped.
#[test]
fn debug_shows_the_letters(rt: HostRuntime) -> Result<(), Fail> {
    let rows = [
        (
            33,
            "Alphabet(b\"!\\\"#$%&\\'()*+,-./0123456789:;<=>?@ABCDEFGHIJKLMNOPQRSTUVWXYZ[\\\\]^\")",
        ),
        // Only the last letter is non-ASCII.
        (
            67,
            "Alphabet(b\"CDEFGHIJKLMNOPQRSTUVWXYZ[\\\\]^_`abcdefghijklmnopqrstuvwxyz{|}~\\x7f\\x80\")",
        ),
    ];
    for (first, text) in rows {
        let output = format!(in rt.alloc(); "{:?}", new_alphabet(&rt, bytes_from(first)))?;
        assert!(rt; output.as_str() == text, "the bytes from {first}");
    }
    Ok(())
}

#[test]
fn repeated_bytes(rt: HostRuntime) {
    let mut early = STANDARD_LETTERS;
    early[3] = b'1';
    early[5] = b'0';
    let mut last = STANDARD_LETTERS;
    last[61] = b'0';
    for (letters, byte, index) in [([b'a'; 62], b'a', 1), (early, b'1', 3), (last, b'0', 61)] {
        let fault = Alphabet::new(letters).err();
        let is_named = fault == Some(AlphabetError::Repeated(byte, index));
        assert!(rt; is_named, "the byte {byte} at {index}");
    }
}

// The text is encoded, and decoded to the number.
fn is_text(alphabet: &Alphabet, number: u128, text: &[u8]) -> bool {
    let mut room = [0; 22];
    match encode_bytes_with(alphabet, number, &mut room) {
        Ok(len) => &room[..len] == text && decode_with(alphabet, text) == Ok(number),
        Err(_) => false,
    }
}

// The zero letter is `z`. In the alternative alphabet the order of the numbers is not that of the bytes.
#[test]
fn texts_over_letters_that_do_not_ascend(rt: HostRuntime) {
    let descending = descending(&rt);
    let are_texts = is_text(&descending, 0, b"z")
        && is_text(&descending, 62, b"yz")
        && is_text(&descending, 1337, b"eQ")
        && decode_with(&descending, b"zzzz") == Ok(0);
    assert!(rt; are_texts, "the descending letters");
    let alternative = Alphabet::alternative();
    let are_unsorted = is_text(&alternative, 35, b"z") && is_text(&alternative, 36, b"A");
    assert!(rt; are_unsorted, "the alternative letters");
}

#[test]
fn texts_above_ascii(rt: HostRuntime) -> Result<(), Fail> {
    let above_ascii = new_alphabet(&rt, bytes_from(194));
    let are_texts = is_text(&above_ascii, 1337, &[215, 229])
        && decode_with(&above_ascii, &[194, 194]) == Ok(0)
        && decode_with(&above_ascii, b"0") == Err(DecodeError::InvalidBase62Byte(b'0', 0));
    assert!(rt; are_texts, "the bytes from 194");
    let mut written = Vec::new(rt.alloc());
    encode_io_with(&above_ascii, 1337_u32, &mut written)?;
    assert_eq!(rt; written.as_slice(), [215_u8, 229].as_slice());
    Ok(())
}

#[test]
fn texts_over_ascii(rt: HostRuntime) -> Result<(), Fail> {
    for (number, text) in [(0_u32, "!"), (62, "\"!"), (1337, "6D")] {
        let alone = encode_with(rt.alloc(), &symbols(), number)?;
        assert_eq!(rt; alone.as_str(), text);
    }
    let mut id = String::from_str(rt.alloc(), "id=")?;
    encode_buf_with(&symbols(), 1337_u32, &mut id)?;
    assert_eq!(rt; id.as_str(), "id=6D");
    assert!(rt; decode_with(&symbols(), b"!!6D") == Ok(1337), "decoded");
    Ok(())
}
