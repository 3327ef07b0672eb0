//! Checks of an encoder and a decoder for one number or text.

use super::alphabets::Letters;
use super::reference::reference_decode;
use base62::EncodeError::BufferTooSmall;
use base62::{DecodeError, Number};
use std::process::Abort;

// Encodes to buffers of each length, from the second of 24 bytes on. The text is at the start and no other byte is
// written, or the buffer is too short and no byte is written. Before, no byte is a letter.
pub(crate) fn assert_encodes<T: Number + Copy>(
    rt: &impl Abort,
    alphabet: Letters,
    number: T,
    text: &[u8],
) {
    assert!(rt; text.len() <= 22, "the text {text:?} is longer than any");
    let untouched = [0xa5; 24];
    let mut written = untouched;
    written[1..][..text.len()].copy_from_slice(text);
    for length in 0..=23_usize {
        let (expected, wanted) = if length < text.len() {
            (Err(BufferTooSmall), untouched)
        } else {
            (Ok(text.len()), written)
        };
        let mut bytes = untouched;
        let outcome = alphabet.encode(number, &mut bytes[1..][..length]);
        assert!(rt;
            outcome == expected && bytes == wanted,
            "encoding to {text:?} in {length} bytes, {alphabet:?}"
        );
    }
}

// Both the decoder and the reference decoder return the result.
pub(crate) fn assert_decodes(
    rt: &impl Abort,
    alphabet: Letters,
    text: &[u8],
    expected: Result<u128, DecodeError>,
) {
    let by_reference = reference_decode(&alphabet.letters(), text);
    assert!(rt;
        alphabet.decode(text) == expected && by_reference == expected,
        "decoding {text:?}, {alphabet:?}"
    );
}
