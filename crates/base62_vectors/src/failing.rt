//! Tests with writers that accept one byte per call, that fail, and that accept nothing.

use crate::support::alphabets::{ALL, Letters};
use crate::support::writers::TestWriter;
use std::alloc::Global;
use std::io::ErrorKind;
use std::process::Abort;
use std::test::Fail;

// Numbers of 1, 2, 10 and 22 letters, with their standard texts.
const NUMBERS: [(u128, &str); 4] = [
    (7, "7"),
    (1337, "LZ"),
    (241240808781287027, "Hostile123"),
    (u128::MAX, "7n42DGM5Tflk9n8mt7Fhc7"),
];

// Checks that the writer was called so often, first with the whole text, and was not flushed.
fn is_called(writer: &TestWriter, text: &[u8], calls: usize) -> bool {
    let is_whole = writer.handed.first() == Some(&text.len());
    is_whole && writer.handed.len() == calls && writer.flushes == 0
}

// Checks that the writer receives the text in so many calls.
fn writes(
    alphabet: Letters,
    number: u128,
    writer: &mut TestWriter,
    text: &[u8],
    calls: usize,
) -> bool {
    alphabet.write(number, writer).is_ok()
        && writer.written.as_slice() == text
        && is_called(writer, text, calls)
}

// A writer that accepts one byte per call fails after so many bytes, and contains these. The next text follows them.
fn fails(alloc: Global, alphabet: Letters, number: u128, text: &[u8], before: usize) -> bool {
    let call = before.saturating_add(1);
    let mut writer = TestWriter::failing_at(alloc, 1, call, ErrorKind::Other);
    let Err(fault) = alphabet.write(number, &mut writer) else {
        return false;
    };
    fault.kind() == ErrorKind::Other
        && is_called(&writer, text, call)
        && text.get(..before) == Some(writer.written.as_slice())
        && alphabet.write(number, &mut writer).is_ok()
        && writer.written.get(before..) == Some(text)
}

// An interrupted call is repeated.
fn is_retried(alloc: Global, alphabet: Letters, number: u128, text: &[u8], before: usize) -> bool {
    let call = before.saturating_add(1);
    let calls = text.len().saturating_add(1);
    let mut writer = TestWriter::failing_at(alloc, 1, call, ErrorKind::Interrupted);
    writes(alphabet, number, &mut writer, text, calls)
}

fn is_full(alloc: Global, alphabet: Letters, number: u128, text: &[u8]) -> bool {
    let mut writer = TestWriter::accepting(alloc, 0);
    match alphabet.write(number, &mut writer) {
        Ok(()) => false,
        Err(fault) => fault.kind() == ErrorKind::WriteZero && is_called(&writer, text, 1),
    }
}

fn assert_writers(rt: &(impl Abort + AllocGlobal), alphabet: Letters, number: u128, text: &[u8]) {
    for before in 0..text.len() {
        let is_so = fails(rt.alloc(), alphabet, number, text, before)
            && is_retried(rt.alloc(), alphabet, number, text, before);
        assert!(rt;
            is_so,
            "{number}, of which {before} bytes were taken, {alphabet:?}"
        );
    }
    let mut writer = TestWriter::accepting(rt.alloc(), 1);
    let is_so = writes(alphabet, number, &mut writer, text, text.len())
        && is_full(rt.alloc(), alphabet, number, text);
    assert!(rt; is_so, "{number}, {alphabet:?}");
}

#[test]
fn writers(rt: HostRuntime) -> Result<(), Fail> {
    for (number, text) in NUMBERS {
        for alphabet in ALL {
            let text = alphabet.of_standard(rt.alloc(), text.as_bytes())?;
            assert_writers(&rt, alphabet, number, text.as_slice());
        }
    }
    Ok(())
}
