//! Tests of the calls that allocate if an allocation fails, and of some that do not allocate.

use crate::support::alphabets::{ALL, Letters};
use base62::{decode, decode_key, encode_bytes, encode_key, key_range};
use std::alloc::AllocError;
use std::process::Abort;
use std::test::Fail;

// The calls that return a string, by their alphabets.
const TEXT_CALLS: [&str; 3] = ["encode", "encode_alternative", "encode_with"];

const UUID_CALLS: [&str; 3] = ["encode_uuid", "encode_uuid_with", "encode_uuid_with"];

// Numbers with their texts over each alphabet.
const TEXTS: [(u128, [&str; 3]); 2] = [
    (1337, ["LZ", "lz", "6D"]),
    (
        u128::MAX,
        [
            "7n42DGM5Tflk9n8mt7Fhc7",
            "7N42dgm5tFLK9N8MT7fHC7",
            "(R%#.17&>JPO*R)QX(0LG(",
        ],
    ),
];

const BASE62: &str = "Base62: Base62";

// Returns whether the allocation fails. It is one, for exactly the text: to shrink a string would be another.
fn text_allocation_fails(
    rt: &impl Abort,
    call: &str,
    made: Result<String, AllocError>,
    wanted: &str,
) -> bool {
    let Ok(text) = made else {
        return true;
    };
    assert!(rt;
        text.as_str() == wanted && text.capacity() == wanted.len(),
        "{call}"
    );
    false
}

// Returns whether the allocation fails for a text without spare capacity. The text is then left unchanged, and can be
// appended to again. What is appended determines the new capacity. It is shorter than 22 letters, but the capacity
// may double.
fn append_allocation_fails(
    rt: &impl Abort,
    alphabet: Letters,
    number: u64,
    text: &mut String,
    joined: &str,
) -> bool {
    let earlier = text.len();
    assert!(rt;
        text.capacity() == earlier,
        "there is spare capacity, {alphabet:?}"
    );
    let is_refused = alphabet.append(number, text).is_err();
    if is_refused {
        let is_as_before = text.capacity() == earlier
            && joined.as_bytes().get(..earlier) == Some(text.as_bytes());
        assert!(rt;
            is_as_before && alphabet.append(number, text).is_ok(),
            "refused, {alphabet:?}"
        );
    }
    assert!(rt;
        text.as_str() == joined && text.capacity() < earlier.saturating_add(22),
        "{alphabet:?}"
    );
    is_refused
}

// These calls do not allocate, so they never fail. The text has spare capacity.
fn are_texts_appended(text: &mut String) -> bool {
    for alphabet in ALL {
        if alphabet.append(1337_u32, text).is_err() {
            return false;
        }
    }
    text.as_str() == "LZlz6D"
}

fn are_buffers_filled() -> bool {
    let mut bytes = [0xa5; 5];
    encode_bytes(1337_u32, &mut bytes) == Ok(2)
        && bytes == *b"LZ\xa5\xa5\xa5"
        && encode_key(1337_u32) == *b"00000000000000000000LZ"
        && encode_key(0_u8) == *b"0000000000000000000000"
}

fn are_texts_decoded() -> bool {
    decode(b"1LY7VK") == Ok(1234567890)
        && decode_key(b"00000000000000000000LZ") == Ok(1337)
        && key_range(b"7n") == Ok(Some((340236514539200045093703517809706795008, u128::MAX)))
}

// Prints in which step an allocation failed, for `.ci/failed-allocations`, which makes each allocation fail in turn.
// The last step shows that the calls make no other allocation.
#[test]
fn refused_memory(rt: HostRuntime) -> Result<(), Fail> {
    let (Ok(mut standard), Ok(mut alternative), Ok(mut own), Ok(mut roomy)) = (
        String::from_str(rt.alloc(), "Base62: "),
        String::from_str(rt.alloc(), "Base62: "),
        String::from_str(rt.alloc(), "id="),
        String::with_capacity(rt.alloc(), 64),
    ) else {
        println!(rt; "refused: set-up")?;
        return Ok(());
    };
    assert!(rt; are_texts_appended(&mut roomy), "texts in spare capacity");
    assert!(rt;
        are_buffers_filled() && are_texts_decoded(),
        "calls that do not allocate"
    );
    for (number, texts) in TEXTS {
        for place in 0..3_usize {
            let (alphabet, uuid) = (ALL[place], number.to_be_bytes());
            let made = alphabet.text(rt.alloc(), number);
            if text_allocation_fails(&rt, TEXT_CALLS[place], made, texts[place]) {
                println!(rt; "refused: {}", TEXT_CALLS[place])?;
            }
            let made = alphabet.uuid_text(rt.alloc(), uuid);
            if text_allocation_fails(&rt, UUID_CALLS[place], made, texts[place]) {
                println!(rt; "refused: {}", UUID_CALLS[place])?;
            }
        }
    }
    let steps = [
        (
            "encode_buf",
            append_allocation_fails(&rt, Letters::Standard, 10622433094, &mut standard, BASE62),
        ),
        (
            "encode_alternative_buf",
            append_allocation_fails(
                &rt,
                Letters::Alternative,
                34051405518,
                &mut alternative,
                BASE62,
            ),
        ),
        (
            "encode_buf_with",
            append_allocation_fails(&rt, Letters::Symbols, 1337, &mut own, "id=6D"),
        ),
        ("after", Vec::<u8>::with_capacity(rt.alloc(), 1).is_err()),
    ];
    for (step, is_refused) in steps {
        if is_refused {
            println!(rt; "refused: {step}")?;
        }
    }
    Ok(())
}
