//! The replies to lines, alone and in order.

use super::{STORED_INPUT, STORED_OUTPUT};
use crate::tool::run;
use std::alloc::{AllocError, Global};
use std::test::Fail;

const REPLY_COUNT: usize = 31;

static REPLIES: [(&[u8], &str); REPLY_COUNT] = [
    (b"enc 62", "10"),
    (b"enc 000", "0"),
    (b"enc 00000000000000000000000000000000000000005", "5"),
    // The largest number, and the number after it.
    (
        b"enc 340282366920938463463374607431768211455",
        "7n42DGM5Tflk9n8mt7Fhc7",
    ),
    (
        b"enc 340282366920938463463374607431768211456",
        "fault: not a number",
    ),
    (b"enc ", "fault: not a number"),
    (b"enc  1", "fault: not a number"),
    (b"enc +1", "fault: not a number"),
    (b"enc 1\r", "fault: not a number"),
    (b"enc x", "fault: not a number"),
    (b"dec rustlang", "189876682536016"),
    (b"dec ", "fault: Encoded input is an empty string"),
    (
        b"dec ab c",
        "fault: Encoded input contains the invalid byte b' ' at index 2",
    ),
    (
        b"dec LZ\r",
        "fault: Encoded input contains the invalid byte b'\\r' at index 2",
    ),
    (
        b"dec \xff",
        "fault: Encoded input contains the invalid byte b'\\xff' at index 0",
    ),
    (b"enc 1\0", "fault: not a number"),
    (
        b"dec L\0Z",
        "fault: Encoded input contains the invalid byte b'\\x00' at index 1",
    ),
    (b"", "fault: unknown command"),
    (b"\0", "fault: unknown command"),
    (b"\xff", "fault: unknown command"),
    (b"enc\xff1", "fault: unknown command"),
    (b"enc", "fault: unknown command"),
    (b"ENC 1", "fault: unknown command"),
    (b"alt 1337", "lz"),
    (b"alt 000", "0"),
    (b"alt x", "fault: not a number"),
    (b"alt", "fault: unknown command"),
    (b"adc rustlang", "96813686712946"),
    (b"adc ", "fault: Encoded input is an empty string"),
    (
        b"adc l-",
        "fault: Encoded input contains the invalid byte b'-' at index 1",
    ),
    (b"ADC lz", "fault: unknown command"),
];

// The line and its reply at a place in the table, which begins again behind its end.
pub(super) fn exchange(place: usize) -> (&'static [u8], &'static str) {
    REPLIES[place % REPLY_COUNT]
}

// Whether the input has the output if a read takes all that there is room for.
pub(super) fn is_answered(alloc: Global, input: &[u8], output: &[u8]) -> Result<bool, Fail> {
    let mut reader = input;
    let mut written = Vec::new(alloc);
    run(alloc, &mut reader, &mut written)?;
    Ok(written.as_slice() == output)
}

pub(super) fn push_line(text: &mut Vec<u8>, line: &[u8]) -> Result<(), AllocError> {
    text.extend_from_slice(line)?;
    text.push(b'\n')?;
    Ok(())
}

#[test]
fn whole_inputs(rt: HostRuntime) -> Result<(), Fail> {
    let cases = [
        ("", ""),
        (STORED_INPUT, STORED_OUTPUT),
        ("\n", "fault: unknown command\n"),
        ("enc 62\n\nenc 62", "10\nfault: unknown command\n10\n"),
    ];
    for (input, output) in cases {
        let is_so = is_answered(rt.alloc(), input.as_bytes(), output.as_bytes())?;
        assert!(rt; is_so, "answering {input:?}");
    }
    Ok(())
}

// Whether a line has the reply with its line end and without it.
fn is_line_answered(alloc: Global, line: &[u8], reply: &str) -> Result<bool, Fail> {
    let mut input = Vec::new(alloc);
    let mut output = Vec::new(alloc);
    push_line(&mut input, line)?;
    push_line(&mut output, reply.as_bytes())?;
    let is_so = is_answered(alloc, input.as_slice(), output.as_slice())?;
    // An empty line without its end is not a line.
    Ok(is_so && (line.is_empty() || is_answered(alloc, line, output.as_slice())?))
}

// Each line alone, and then all of them in one input.
#[test]
fn each_line(rt: HostRuntime) -> Result<(), Fail> {
    let mut all_lines = Vec::new(rt.alloc());
    let mut all_replies = Vec::new(rt.alloc());
    for place in 0..REPLY_COUNT {
        let (line, reply) = exchange(place);
        let is_so = is_line_answered(rt.alloc(), line, reply)?;
        assert!(rt; is_so, "answering {line:?}");
        push_line(&mut all_lines, line)?;
        push_line(&mut all_replies, reply.as_bytes())?;
    }
    let is_so = is_answered(rt.alloc(), all_lines.as_slice(), all_replies.as_slice())?;
    assert!(rt; is_so, "answering all lines");
    Ok(())
}
