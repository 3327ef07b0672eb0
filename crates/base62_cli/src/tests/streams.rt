//! Readers and writers that move one byte a call, that fail, and that watch when they are called.

ghost use Rattle.std.specs.Prelude.{◌≤◌, length};

use super::{STORED_INPUT, STORED_OUTPUT, stored_inputs};
use crate::fault::ToolFault;
use crate::tool::run;
use std::alloc::Global;
use std::cell::Cell;
use std::io;
use std::io::{ErrorKind, Read, Write};
use std::slice::Iter;
use std::test::Fail;

// Counts calls from 1, and fails one of them if it is told to.
#[derive(Clone, Copy, Default)]
pub(super) struct Calls {
    made: usize,
    failing: Option<usize>,
}

impl Calls {
    fn failing_at(call: usize) -> Self {
        Calls {
            made: 0,
            failing: Some(call),
        }
    }

    fn make(&mut self) -> io::Result<()> {
        self.made = self.made.saturating_add(1);
        if self.failing == Some(self.made) {
            return Err(io::Error::from(ErrorKind::Other));
        }
        Ok(())
    }
}

#[derive(Drop)]
pub(super) struct ByteReader<'a> {
    rest: &'a [u8],
    reads: Calls,
}

impl<'a> ByteReader<'a> {
    pub(super) fn new(rest: &'a [u8], reads: Calls) -> Self {
        ByteReader { rest, reads }
    }
}

impl Read for ByteReader<'_> {
    fn read(&mut self, buf: &mut [u8]) -> io::Result<usize> {
        self.reads.make()?;
        let (Some((byte, rest)), Some(place)) = (self.rest.split_first(), buf.first_mut()) else {
            return Ok(0);
        };
        *place = *byte;
        self.rest = rest;
        Ok(1)
    }
}

#[derive(Drop)]
struct ByteWriter {
    written: Vec<u8>,
    // How many bytes were written at each flush.
    flushed_at: Vec<usize>,
    writes: Calls,
    flushes: Calls,
}

impl ByteWriter {
    fn new(alloc: Global, writes: Calls, flushes: Calls) -> Self {
        ByteWriter {
            written: Vec::new(alloc),
            flushed_at: Vec::new(alloc),
            writes,
            flushes,
        }
    }
}

impl Write for ByteWriter {
    fn write(&mut self, buf: &[u8]) -> io::Result<usize> {
        self.writes.make()?;
        let Some(byte) = buf.first() else {
            return Ok(0);
        };
        self.written.push(*byte)?;
        Ok(1)
    }

    fn flush(&mut self) -> io::Result<()> {
        self.flushes.make()?;
        self.flushed_at.push(self.written.len())?;
        Ok(())
    }
}

// Whether the input has the output if a read and a write take one byte. The one flush is at the
// end.
fn is_answered_by_byte(alloc: Global, input: &[u8], output: &[u8]) -> Result<bool, Fail> {
    let mut reader = ByteReader::new(input, Calls::default());
    let mut writer = ByteWriter::new(alloc, Calls::default(), Calls::default());
    run(alloc, &mut reader, &mut writer)?;
    let end = [output.len()];
    Ok(writer.written.as_slice() == output && writer.flushed_at.as_slice() == end.as_slice())
}

// An empty output is flushed too.
#[test]
fn one_byte_a_call(rt: HostRuntime) -> Result<(), Fail> {
    let [ended, unended] = stored_inputs();
    for (input, output) in [(ended, STORED_OUTPUT), (unended, STORED_OUTPUT), ("", "")] {
        let is_so = is_answered_by_byte(rt.alloc(), input.as_bytes(), output.as_bytes())?;
        assert!(rt; is_so, "answering {input:?}");
    }
    Ok(())
}

fn count_lines(text: &[u8]) -> usize {
    let mut count: usize = 0;
    for byte in text {
        if *byte == b'\n' {
            count = count.saturating_add(1);
        }
    }
    count
}

// Whether each line that was read is answered, and no part of a reply follows.
fn are_lines_answered(read: &[u8], written: &[u8]) -> bool {
    count_lines(written) == count_lines(read)
        && STORED_OUTPUT.as_bytes().starts_with(written)
        && (written.is_empty() || written.ends_with(b"\n"))
}

// Whether the run ends at the read that fails, and what was read before is answered.
fn is_read_fault(alloc: Global, input: &[u8], call: usize) -> bool {
    let Some(read) = input.get(..call.saturating_sub(1)) else {
        return false;
    };
    let mut reader = ByteReader::new(input, Calls::failing_at(call));
    let mut writer = ByteWriter::new(alloc, Calls::default(), Calls::default());
    let outcome = run(alloc, &mut reader, &mut writer);
    outcome == Err(ToolFault::Read)
        && reader.reads.made == call
        && are_lines_answered(read, writer.written.as_slice())
        && writer.flushes.made == 0
}

#[test]
fn failed_reads(rt: HostRuntime) {
    for input in stored_inputs() {
        // The last read is the one that meets the end.
        for call in 1..=input.len().saturating_add(1) {
            let is_so = is_read_fault(rt.alloc(), input.as_bytes(), call);
            assert!(rt; is_so, "at read {call}");
        }
    }
}

// How many reads of a byte come before the reply to a line. If the input ends without a line
// end, it is one more.
fn reads_for(input: &[u8], line: usize) -> usize {
    let mut ends: usize = 0;
    let mut reads: usize = 0;
    for byte in input {
        reads = reads.saturating_add(1);
        if *byte == b'\n' {
            ends = ends.saturating_add(1);
            if ends == line {
                return reads;
            }
        }
    }
    reads.saturating_add(1)
}

// Whether the writer has made that write, the bytes before it are written, and none is flushed.
fn is_written_before(writer: &ByteWriter, call: usize) -> bool {
    let before = STORED_OUTPUT.as_bytes().get(..call.saturating_sub(1));
    before == Some(writer.written.as_slice())
        && writer.writes.made == call
        && writer.flushes.made == 0
}

// Whether the run ends at the write that fails: nothing is read after it, nor is anything written
// or flushed.
fn is_write_fault(alloc: Global, input: &[u8], call: usize) -> bool {
    let mut reader = ByteReader::new(input, Calls::default());
    let mut writer = ByteWriter::new(alloc, Calls::failing_at(call), Calls::default());
    let outcome = run(alloc, &mut reader, &mut writer);
    let line = count_lines(writer.written.as_slice()).saturating_add(1);
    outcome == Err(ToolFault::Write)
        && reader.reads.made == reads_for(input, line)
        && is_written_before(&writer, call)
}

#[test]
fn failed_writes(rt: HostRuntime) {
    for input in stored_inputs() {
        for call in 1..=STORED_OUTPUT.len() {
            let is_so = is_write_fault(rt.alloc(), input.as_bytes(), call);
            assert!(rt; is_so, "at write {call}");
        }
    }
}

#[test]
fn full_writer(rt: HostRuntime) {
    let mut room = [0u8; 2];
    for len in 0..=2 {
        let mut writer = &mut room[..len];
        let outcome = run(rt.alloc(), &mut STORED_INPUT.as_bytes(), &mut writer);
        let is_so = outcome == Err(ToolFault::Write);
        assert!(rt; is_so, "with room for {len} bytes");
    }
}

#[test]
fn failed_flush(rt: HostRuntime) {
    let mut writer = ByteWriter::new(rt.alloc(), Calls::default(), Calls::failing_at(1));
    let outcome = run(rt.alloc(), &mut STORED_INPUT.as_bytes(), &mut writer);
    let is_so = outcome == Err(ToolFault::Write)
        && writer.written.as_slice() == STORED_OUTPUT.as_bytes()
        && writer.flushes.made == 1;
    assert!(rt; is_so, "at the flush");
}

// Puts as much of a part into the buffer as there is room for.
fn read_part(part: &str, buf: &mut [u8]) -> usize
    ensures { result ≤ length buf.new }
{
    let count = part.len().min(buf.len());
    buf[..count].copy_from_slice(&part.as_bytes()[..count]);
    count
}

// Gives one part a read, and still has parts to give behind an empty one, which is an end.
#[derive(Drop)]
pub(super) struct PartReader<'a> {
    parts: Iter<'a, &'static str>,
}

impl<'a> PartReader<'a> {
    pub(super) fn new(parts: &'a [&'static str]) -> Self {
        PartReader {
            parts: parts.iter(),
        }
    }
}

impl Read for PartReader<'_> {
    fn read(&mut self, buf: &mut [u8]) -> io::Result<usize> {
        let Some(part) = self.parts.next() else {
            return Ok(0);
        };
        Ok(read_part(part, buf))
    }
}

// Whether the parts have the output, and so many are left.
fn is_read_to_its_end(
    alloc: Global,
    parts: &[&'static str],
    behind: usize,
    output: &str,
) -> Result<bool, Fail> {
    let mut reader = PartReader::new(parts);
    let mut written = Vec::new(alloc);
    run(alloc, &mut reader, &mut written)?;
    Ok(reader.parts.len() == behind && written.as_slice() == output.as_bytes())
}

// Each row has the parts of an input, how many are behind its end, and the output.
#[test]
fn no_read_after_the_end(rt: HostRuntime) -> Result<(), Fail> {
    let rows = [
        (["", "foo\n", "foo\n", "foo\n"], 3, ""),
        (["enc 1337\n", "", "foo\n", "foo\n"], 2, "LZ\n"),
        // The end is met within a line.
        (["enc 13", "37", "", "0\n"], 1, "LZ\n"),
        // A line end comes alone, and then an empty line.
        (
            ["enc 1337", "\n", "\n", "enc 62"],
            0,
            "LZ\nfault: unknown command\n10\n",
        ),
    ];
    for (parts, behind, output) in rows {
        let is_so = is_read_to_its_end(rt.alloc(), &parts, behind, output)?;
        assert!(rt; is_so, "with {behind} parts behind the end");
    }
    Ok(())
}

// Gives one line a read, and fails if the replies to those before it have not gone out.
#[derive(Drop)]
struct Asker<'a> {
    exchanges: Iter<'a, (&'static str, &'static str)>,
    owed: usize,
    taken: &'a Cell<usize>,
}

impl Read for Asker<'_> {
    fn read(&mut self, buf: &mut [u8]) -> io::Result<usize> {
        if self.taken.get() != self.owed {
            return Err(io::Error::from(ErrorKind::Other));
        }
        let Some((line, reply)) = self.exchanges.next() else {
            return Ok(0);
        };
        self.owed = self.owed.saturating_add(reply.len());
        Ok(read_part(line, buf))
    }
}

#[derive(Drop)]
struct Taker<'a> {
    taken: &'a Cell<usize>,
}

impl Write for Taker<'_> {
    fn write(&mut self, buf: &[u8]) -> io::Result<usize> {
        self.taken.set(self.taken.get().saturating_add(buf.len()));
        Ok(buf.len())
    }

    fn flush(&mut self) -> io::Result<()> {
        Ok(())
    }
}

#[test]
fn replies_before_the_next_read(rt: HostRuntime) {
    let exchanges = [
        ("enc 1337\n", "LZ\n"),
        ("dec rustlang\n", "189876682536016\n"),
        ("foo\n", "fault: unknown command\n"),
    ];
    let taken = Cell::new(0);
    let mut reader = Asker {
        exchanges: exchanges.iter(),
        owed: 0,
        taken: &taken,
    };
    let mut writer = Taker { taken: &taken };
    let outcome = run(rt.alloc(), &mut reader, &mut writer);
    assert!(rt; outcome == Ok(()), "a reply came late");
}
