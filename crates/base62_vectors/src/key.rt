//! Tests of keys, which sort as their numbers, of strings of other widths, and of the ranges of prefixes.

use crate::support::alphabets::symbols;
use base62::DecodeError::{ArithmeticOverflow, InvalidBase62Byte};
use base62::FixedError::{Decode, WrongLength};
use base62::UuidError::InvalidUuid;
use base62::{
    decode_fixed, decode_fixed_with, decode_key, encode_key, key_range, uuid_from_string,
    uuid_to_str, uuid_to_string,
};
use std::process::Abort;

#[test]
fn keys_of_numbers(rt: HostRuntime) {
    let are_keys = encode_key(1337_u32) == *b"00000000000000000000LZ"
        && encode_key(0_u8) == *b"0000000000000000000000"
        && encode_key(u128::MAX) == *b"7n42DGM5Tflk9n8mt7Fhc7";
    assert!(rt; are_keys, "the keys of 1337, 0 and the largest number");

    // As texts `10` comes before `z`, and as keys it comes after it.
    let (before, after) = (encode_key(61_u8), encode_key(62_u8));
    let are_sorted = before == *b"000000000000000000000z"
        && after == *b"0000000000000000000010"
        && before < after;
    assert!(rt; are_sorted, "the keys of 61 and 62");
}

#[test]
fn numbers_of_keys(rt: HostRuntime) {
    let are_numbers = decode_key(b"00000000000000000000LZ") == Ok(1337)
        && decode_key(b"7n42DGM5Tflk9n8mt7Fhc7") == Ok(u128::MAX)
        && decode_key(b"7n42DGM5Tflk9n8mt7Fhc8") == Err(Decode(ArithmeticOverflow))
        && decode_key(b"0000000000000000000LZ") == Err(WrongLength)
        && decode_key(b"000000000000000000000LZ") == Err(WrongLength);
    assert!(rt; are_numbers, "the numbers of keys, and of other strings");
}

#[test]
fn keys_of_uuids(rt: HostRuntime) {
    let uuid = *b"\x55\x0e\x84\x00\xe2\x9b\x41\xd4\xa7\x16\x44\x66\x55\x44\x00\x00";
    let key = encode_key(uuid);
    assert!(rt; key == *b"2aUyqjCzEIiEcYMKj7TZtw", "the key of a UUID");
    let number = decode_key(&key);
    assert!(rt;
        number == Ok(113059749145936325402354257176981405696),
        "the number of the key"
    );
    assert!(rt;
        number.unwrap_or(0).to_be_bytes() == uuid,
        "the UUID of the key"
    );
}

// The UUID of an example in RFC 4122, in each form.
#[test]
fn strings_of_uuids(rt: HostRuntime) {
    let uuid = *b"\xf8\x1d\x4f\xae\x7d\xec\x11\xd0\xa7\x65\x00\xa0\xc9\x1e\x6b\xf6";
    let is_written = uuid_to_string(uuid) == *b"f81d4fae-7dec-11d0-a765-00a0c91e6bf6";
    assert!(rt; is_written, "the string of a UUID");
    let mut string = [0u8; 36];
    let is_returned = uuid_to_str(uuid, &mut string) == "f81d4fae-7dec-11d0-a765-00a0c91e6bf6";
    assert!(rt; is_returned, "the string of a UUID as a `str`");
    let strings = [
        ("f81d4fae-7dec-11d0-a765-00a0c91e6bf6", Ok(uuid)),
        ("F81D4FAE7DEC11D0A76500A0C91E6BF6", Ok(uuid)),
        ("{f81d4fae-7dec-11d0-a765-00a0c91e6bf6}", Ok(uuid)),
        ("URN:uuid:f81d4fae7dec11d0a76500a0c91e6bf6", Ok(uuid)),
        ("", Err(InvalidUuid)),
        ("f81d4fae-7dec11d0-a765-00a0c91e6bf6", Err(InvalidUuid)),
        ("g81d4fae-7dec-11d0-a765-00a0c91e6bf6", Err(InvalidUuid)),
    ];
    for (string, answer) in strings {
        let is_answer = uuid_from_string(string.as_bytes()) == answer;
        assert!(rt; is_answer, "the UUID of {string}");
    }
}

#[test]
fn numbers_of_widths(rt: HostRuntime) {
    let are_numbers = decode_fixed(b"000LZ", 5) == Ok(1337)
        && decode_fixed_with(&symbols(), b"!!!6D", 5) == Ok(1337)
        && decode_fixed(b"LZ", 5) == Err(WrongLength)
        && decode_fixed(b"!LZ", 5) == Err(WrongLength)
        && decode_fixed(b"00!LZ", 5) == Err(Decode(InvalidBase62Byte(b'!', 2)));
    assert!(rt; are_numbers, "the numbers of strings of five characters");
}

#[test]
fn ranges_of_prefixes(rt: HostRuntime) {
    let rows = [
        ("", Ok(Some((0, u128::MAX)))),
        // 62^21 - 1 is the last number whose key begins with a zero.
        ("0", Ok(Some((0, 43674252383913877424036476406214950911)))),
        (
            "7",
            Ok(Some((305719766687397141968255334843504656384, u128::MAX))),
        ),
        (
            "7n",
            Ok(Some((340236514539200045093703517809706795008, u128::MAX))),
        ),
        ("7o", Ok(None)),
        ("8", Ok(None)),
        ("z", Ok(None)),
        ("00000000000000000000L", Ok(Some((1302, 1363)))),
        ("00000000000000000000LZ", Ok(Some((1337, 1337)))),
        ("7n42DGM5Tflk9n8mt7Fhc7", Ok(Some((u128::MAX, u128::MAX)))),
        ("7n42DGM5Tflk9n8mt7Fhc8", Ok(None)),
        // No key has 23 letters.
        ("00000000000000000000000", Ok(None)),
        ("!", Err(InvalidBase62Byte(b'!', 0))),
        // A bad byte is also reported if no key begins with the letters before it.
        ("7o!", Err(InvalidBase62Byte(b'!', 2))),
        ("00000000000000000000000!", Err(InvalidBase62Byte(b'!', 23))),
    ];
    for (prefix, answer) in rows {
        let is_answer = key_range(prefix.as_bytes()) == answer;
        assert!(rt; is_answer, "the range of {prefix}");
    }
}
