//! Lines across the borders of reads.

use super::replies::{exchange, is_answered, push_line};
use super::streams::{ByteReader, Calls};
use crate::tool::{CHUNK_LEN, run};
use std::alloc::{AllocError, Global};
use std::test::Fail;

// Whether the input has the output if a read takes one byte.
fn is_answered_by_byte(alloc: Global, input: &[u8], output: &[u8]) -> Result<bool, Fail> {
    let mut reader = ByteReader::new(input, Calls::default());
    let mut written = Vec::new(alloc);
    run(alloc, &mut reader, &mut written)?;
    Ok(written.as_slice() == output)
}

// Whether the input has the output if a read takes all that there is room for, and if it
// takes one byte.
fn is_answered_both_ways(alloc: Global, input: &[u8], output: &[u8]) -> Result<bool, Fail> {
    Ok(is_answered(alloc, input, output)? && is_answered_by_byte(alloc, input, output)?)
}

// The command, and the digit so many times.
fn line_of(alloc: Global, command: &str, digit: &str, count: usize) -> Result<String, AllocError> {
    let digits = digit.repeat(alloc, count)?;
    format!(in alloc; "{command} {digits}")
}

fn fault_at(alloc: Global, index: usize) -> Result<String, AllocError> {
    format!(in alloc; "fault: Encoded input contains the invalid byte b'!' at index {index}\n")
}

// Whether the line has the reply with that behind it, after which the last reply comes.
fn is_answered_before(
    alloc: Global,
    (line, reply): (&str, &str),
    (behind, last): (&str, &str),
) -> Result<bool, Fail> {
    let input = format!(in alloc; "{line}{behind}")?;
    let output = format!(in alloc; "{reply}{last}")?;
    is_answered_both_ways(alloc, input.as_bytes(), output.as_bytes())
}

// Whether a line of so many bytes has its reply: alone, with its end, and before another line. The
// reply depends on each byte.
fn is_long_answered(alloc: Global, length: usize) -> Result<bool, Fail> {
    let index = length.saturating_sub(5);
    let mut line = line_of(alloc, "dec", "0", index)?;
    line.push('!')?;
    let reply = fault_at(alloc, index)?;
    let exchange = (line.as_str(), reply.as_str());
    let mut is_so = line.len() == length;
    for behind in [("", ""), ("\n", ""), ("\nenc 1337\n", "LZ\n")] {
        is_so = is_so && is_answered_before(alloc, exchange, behind)?;
    }
    Ok(is_so)
}

// From seven bytes below what a read takes to eight above it, so that the line, its end and the
// next line's first bytes come in one read or in two.
#[test]
fn line_of_each_length(rt: HostRuntime) -> Result<(), Fail> {
    for length in CHUNK_LEN - 7..=CHUNK_LEN + 8 {
        assert!(rt; is_long_answered(rt.alloc(), length)?, "{length} bytes");
    }
    Ok(())
}

// Whether a line of that digit, so many times, has the output.
fn are_digits_answered(
    alloc: Global,
    (command, digit, count): (&str, &str, usize),
    output: &str,
) -> Result<bool, Fail> {
    let line = line_of(alloc, command, digit, count)?;
    is_answered_both_ways(alloc, line.as_bytes(), output.as_bytes())
}

// Of more than 4 MiB.
fn is_longest_answered(alloc: Global) -> Result<bool, Fail> {
    let line = line_of(alloc, "dec", "0", 4_300_000)?;
    is_answered(alloc, line.as_bytes(), b"0\n")
}

#[test]
fn long_lines(rt: HostRuntime) -> Result<(), Fail> {
    let cases = [
        ("enc", "9", 200, "fault: not a number\n"),
        ("dec", "0", 10_000, "0\n"),
        ("dec", "0", 120_000, "0\n"),
    ];
    for (command, digit, count, output) in cases {
        let is_so = are_digits_answered(rt.alloc(), (command, digit, count), output)?;
        assert!(rt; is_so, "{count} digits");
    }
    assert!(rt; is_longest_answered(rt.alloc())?);
    Ok(())
}

// The lines come in an order that no shift repeats.
fn push_lines(input: &mut Vec<u8>, output: &mut Vec<u8>) -> Result<(), AllocError> {
    for place in 0..10_000u32 {
        let (line, reply) = exchange(place.count_ones() as usize);
        push_line(input, line)?;
        push_line(output, reply.as_bytes())?;
    }
    Ok(())
}

#[test]
fn lines_across_reads(rt: HostRuntime) -> Result<(), Fail> {
    let mut input = Vec::new(rt.alloc());
    let mut output = Vec::new(rt.alloc());
    push_lines(&mut input, &mut output)?;
    let last = input.get(CHUNK_LEN - 1);
    assert!(rt;
        last.is_some_and(|byte| *byte != b'\n'),
        "a line ends with the first read"
    );
    let is_so = is_answered(rt.alloc(), input.as_slice(), output.as_slice())?;
    assert!(rt; is_so, "answering all lines");
    Ok(())
}

#[test]
fn empty_lines(rt: HostRuntime) -> Result<(), Fail> {
    let input = "\n".repeat(rt.alloc(), 1_000_000)?;
    let output = "fault: unknown command\n".repeat(rt.alloc(), 1_000_000)?;
    let is_so = is_answered(rt.alloc(), input.as_bytes(), output.as_bytes())?;
    assert!(rt; is_so, "answering all lines");
    Ok(())
}
