//! Tests of the messages of errors, and of their order.

use base62::AlphabetError::Repeated;
use base62::DecodeError::{ArithmeticOverflow, EmptyInput, InvalidBase62Byte};
use base62::EncodeError::BufferTooSmall;
use base62::{CanonicalError, FixedError, UuidError};
use std::alloc::{AllocError, Global};
use std::error::Error;
use std::process::Abort;
use std::test::Fail;

// The message is written, and no width, fill or alignment adds to it.
fn assert_prints<E: Error>(
    rt: &(impl Abort + AllocGlobal),
    fault: &E,
    text: &str,
) -> Result<(), Fail> {
    let printed = [
        format!(in rt.alloc(); "{fault}")?,
        format!(in rt.alloc(); "{fault:80}")?,
        format!(in rt.alloc(); "{fault:>60}")?,
        format!(in rt.alloc(); "{fault:*^60}")?,
    ];
    for it in &printed {
        assert!(rt; it.as_str() == text, "{it}, and not {text}");
    }
    Ok(())
}

#[test]
fn texts(rt: HostRuntime) -> Result<(), Fail> {
    let cases = [
        (
            ArithmeticOverflow,
            "Decoded number cannot fit into a `u128`",
        ),
        (EmptyInput, "Encoded input is an empty string"),
        // A line feed is escaped as two characters.
        (
            InvalidBase62Byte(10, 3),
            "Encoded input contains the invalid byte b'\\n' at index 3",
        ),
        (
            InvalidBase62Byte(255, 0),
            "Encoded input contains the invalid byte b'\\xff' at index 0",
        ),
        (
            InvalidBase62Byte(b'!', usize::MAX),
            "Encoded input contains the invalid byte b'!' at index 18446744073709551615",
        ),
    ];
    for (fault, text) in cases {
        assert_prints(&rt, &fault, text)?;
    }
    assert_prints(
        &rt,
        &BufferTooSmall,
        "Buffer too small to encode the number",
    )?;
    assert_prints(&rt, &UuidError::InvalidUuid, "Not a UUID")?;
    let leading_zero = CanonicalError::LeadingZero;
    assert_prints(&rt, &leading_zero, "Encoded input has a leading zero")?;
    let wrong_length = FixedError::WrongLength;
    assert_prints(
        &rt,
        &wrong_length,
        "Encoded input does not have the given width",
    )?;
    let empty = "Encoded input is an empty string";
    assert_prints(&rt, &CanonicalError::Decode(EmptyInput), empty)?;
    assert_prints(&rt, &FixedError::Decode(EmptyInput), empty)?;
    let repeated = Repeated(b'0', 61);
    assert_prints(&rt, &repeated, "Alphabet repeats the byte b'0' at index 61")
}

// Six bytes are escaped by a backslash and a character, other printable ones are not, and the others by two digits.
fn escape_of(alloc: Global, byte: u8) -> Result<String, AllocError> {
    match byte {
        9 => String::from_str(alloc, "\\t"),
        10 => String::from_str(alloc, "\\n"),
        13 => String::from_str(alloc, "\\r"),
        34 | 39 | 92 => format!(in alloc; "\\{}", char::from(byte)),
        32..=126 => format!(in alloc; "{}", char::from(byte)),
        _ => format!(in alloc; "\\x{byte:02x}"),
    }
}

#[test]
fn escaped_bytes(rt: HostRuntime) -> Result<(), Fail> {
    for byte in 0..=255_u8 {
        let escape = escape_of(rt.alloc(), byte)?;
        let text = format!(in rt.alloc();
            "Encoded input contains the invalid byte b'{escape}' at index 7"
        )?;
        assert_prints(&rt, &InvalidBase62Byte(byte, 7), text.as_str())?;
    }
    Ok(())
}

#[test]
fn order_of_errors(rt: HostRuntime) {
    let mut errors = [
        InvalidBase62Byte(1, 0),
        EmptyInput,
        InvalidBase62Byte(0, 1),
        ArithmeticOverflow,
        InvalidBase62Byte(0, 0),
    ];
    errors.sort_unstable();
    let sorted = [
        ArithmeticOverflow,
        EmptyInput,
        InvalidBase62Byte(0, 0),
        InvalidBase62Byte(0, 1),
        InvalidBase62Byte(1, 0),
    ];
    assert_eq!(rt; errors, sorted);
}
