//! Tests of the decoders with malformed texts, by the table of cases.

use crate::support::alphabets::{ALL, BOTH};
use crate::support::checks::assert_decodes;
use crate::support::reference::reference_decode;
use base62::DecodeError::{ArithmeticOverflow, InvalidBase62Byte};
use std::process::Abort;

fn assert_by_cases(rt: &impl Abort, text: &[u8]) {
    for alphabet in ALL {
        let expected = reference_decode(&alphabet.letters(), text);
        assert!(rt;
            alphabet.decode(text) == expected,
            "decoding {text:?}, {alphabet:?}"
        );
    }
}

#[test]
fn each_length(rt: HostRuntime) {
    for byte in [b'0', b'1', b'z', b'!'] {
        for length in 0..=24_usize {
            assert_by_cases(&rt, &[byte; 24][..length]);
        }
    }
}

// 24 bytes, two zeros, a `1` and more zeros, with any byte in place of each.
#[test]
fn each_byte(rt: HostRuntime) {
    for byte in 0..=255_u8 {
        for place in 0..24_usize {
            let mut text = [b'0'; 24];
            text[2] = b'1';
            text[place] = byte;
            assert_by_cases(&rt, &text);
        }
    }
}

#[test]
fn long_texts(rt: HostRuntime) {
    for alphabet in BOTH {
        assert_decodes(&rt, alphabet, &[b'0'; 10_000], Ok(0));
        assert_decodes(&rt, alphabet, &[b'z'; 10_000], Err(ArithmeticOverflow));
        let mut text = [b'0'; 10_001];
        for (byte, answer) in [(b'1', Ok(1)), (b'!', Err(InvalidBase62Byte(b'!', 10_000)))] {
            text[10_000] = byte;
            assert_decodes(&rt, alphabet, &text, answer);
        }
    }
}
