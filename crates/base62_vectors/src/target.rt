//! Tests of encoding to strings and writers.

use crate::support::alphabets::{Letters, texts};
use crate::support::writers::TestWriter;
use base62::{Number, encode_alternative_io, encode_io};
use std::alloc::{AllocError, Global};
use std::process::Abort;
use std::test::Fail;

fn assert_alone(rt: &(impl Abort + AllocGlobal), alphabet: Letters) -> Result<(), Fail> {
    let zero = alphabet.text(rt.alloc(), 0_u8)?;
    assert!(rt; zero.as_str() == "0", "the text of a u8");
    for (number, text) in &texts(rt.alloc(), alphabet)? {
        let alone = alphabet.text(rt.alloc(), *number)?;
        assert!(rt; alone.as_bytes() == text.as_slice(), "the text of {number}");
    }
    Ok(())
}

#[test]
fn test_encode(rt: HostRuntime) -> Result<(), Fail> {
    assert_alone(&rt, Letters::Standard)
}

#[test]
fn test_encode_alternative(rt: HostRuntime) -> Result<(), Fail> {
    assert_alone(&rt, Letters::Alternative)
}

// The text is appended to an empty string, and to another.
fn is_appended(
    alloc: Global,
    alphabet: Letters,
    number: u128,
    text: &[u8],
) -> Result<bool, AllocError> {
    let mut alone = String::new(alloc);
    alphabet.append(number, &mut alone)?;
    let mut joined = String::from_str(alloc, "é=")?;
    alphabet.append(number, &mut joined)?;
    Ok(alone.as_bytes() == text && joined.as_bytes().strip_prefix("é=".as_bytes()) == Some(text))
}

fn assert_appends(
    rt: &(impl Abort + AllocGlobal),
    alphabet: Letters,
    number: u64,
) -> Result<(), Fail> {
    let mut base62 = String::from_str(rt.alloc(), "Base62: ")?;
    alphabet.append(number, &mut base62)?;
    assert_eq!(rt; base62.as_str(), "Base62: Base62");
    for (number, text) in &texts(rt.alloc(), alphabet)? {
        let is_text = is_appended(rt.alloc(), alphabet, *number, text.as_slice())?;
        assert!(rt; is_text, "the text of {number}");
    }
    Ok(())
}

#[test]
fn test_encode_buf(rt: HostRuntime) -> Result<(), Fail> {
    assert_appends(&rt, Letters::Standard, 10622433094)
}

#[test]
fn test_encode_alternative_buf(rt: HostRuntime) -> Result<(), Fail> {
    assert_appends(&rt, Letters::Alternative, 34051405518)
}

// The text is passed to the writer in one call, and the writer is not flushed.
fn assert_written<T: Number + Drop>(
    rt: &(impl Abort + AllocGlobal),
    alphabet: Letters,
    number: T,
    text: &[u8],
) -> Result<(), Fail> {
    let mut writer = TestWriter::accepting(rt.alloc(), usize::MAX);
    alphabet.write(number, &mut writer)?;
    let is_at_once = writer.handed.as_slice() == [text.len()].as_slice() && writer.flushes == 0;
    assert!(rt; is_at_once && writer.written.as_slice() == text, "{text:?}");
    Ok(())
}

fn assert_writes(rt: &(impl Abort + AllocGlobal), alphabet: Letters) -> Result<(), Fail> {
    assert_written(
        rt,
        alphabet,
        1337_u32,
        alphabet.of_standard(rt.alloc(), b"LZ")?.as_slice(),
    )?;
    assert_written(rt, alphabet, 0_u8, b"0")?;
    for (number, text) in &texts(rt.alloc(), alphabet)? {
        assert_written(rt, alphabet, *number, text.as_slice())?;
    }
    Ok(())
}

#[test]
fn test_encode_io(rt: HostRuntime) -> Result<(), Fail> {
    assert_writes(&rt, Letters::Standard)
}

#[test]
fn test_encode_alternative_io(rt: HostRuntime) -> Result<(), Fail> {
    assert_writes(&rt, Letters::Alternative)
}

#[test]
fn one_writer_for_two_texts(rt: HostRuntime) -> Result<(), Fail> {
    let mut written = Vec::from_slice(rt.alloc(), b"x=")?;
    encode_io(1337_u32, &mut written)?;
    encode_alternative_io(0_u8, &mut written)?;
    assert_eq!(rt; written.as_slice(), b"x=LZ0".as_slice());
    Ok(())
}
