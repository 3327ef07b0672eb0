//! Runs in which an allocation fails.

use super::streams::PartReader;
use super::{STORED_INPUT, STORED_OUTPUT};
use crate::fault::ToolFault;
use crate::tool::{CHUNK_LEN, run};
use std::io::{self, Read, Write};
use std::process::Abort;
use std::test::Fail;

const ROOM: usize = 128;

// Takes no memory, and counts how often it is flushed.
#[derive(Drop)]
struct RoomWriter<'a> {
    room: &'a mut [u8],
    flushes: usize,
}

impl Write for RoomWriter<'_> {
    fn write(&mut self, buf: &[u8]) -> io::Result<usize> {
        self.room.write(buf)
    }

    fn flush(&mut self) -> io::Result<()> {
        self.flushes = self.flushes.saturating_add(1);
        Ok(())
    }
}

// Whether a run did so. A refused one writes no part of a reply, and does not flush.
fn is_outcome(
    outcome: Result<(), ToolFault>,
    written: &[u8],
    output: &[u8],
    flushes: usize,
) -> bool {
    match outcome {
        Ok(()) => written == output && flushes == 1,
        Err(fault) => {
            fault == ToolFault::Memory
                && output.starts_with(written)
                && (written.is_empty() || written.ends_with(b"\n"))
                && flushes == 0
        }
    }
}

// The input and the output stand in fixed arrays, so that the run makes each request for memory.
fn is_refused<R: Read>(
    rt: &(impl Abort + AllocGlobal),
    name: &str,
    reader: &mut R,
    output: &str,
) -> bool {
    let mut room = [0u8; ROOM];
    let mut writer = RoomWriter {
        room: room.as_mut_slice(),
        flushes: 0,
    };
    let outcome = run(rt.alloc(), reader, &mut writer);
    let (left, flushes) = (writer.room.len(), writer.flushes);
    assert!(rt; left <= ROOM);
    let written = &room[..ROOM - left];
    let is_so = is_outcome(outcome, written, output.as_bytes(), flushes);
    assert!(rt; is_so, "the run {name}");
    outcome.is_err()
}

fn tell(rt: &HostRuntime, name: &str, is_told: bool) -> Result<(), Fail> {
    if is_told {
        println!(rt; "refused: {name}")?;
    }
    Ok(())
}

// Says in which run an allocation failed. `.ci/failed-allocations` reads this, has each request fail
// in turn, and wants as many requests of each run as are told here. The last step shows it that the
// runs made no further request.
#[test]
fn refused_memory(rt: HostRuntime) -> Result<(), Fail> {
    let mut long_line = [b'0'; CHUNK_LEN + 8];
    long_line[..4].copy_from_slice(b"dec ");
    let cases: [(&str, &[u8], &str); 6] = [
        // None: there is not a line.
        ("empty", b"", ""),
        // One for the gathered replies. The gathered line is empty.
        ("empty_line", b"\n", "fault: unknown command\n"),
        // One for the line and one for the replies.
        ("line", b"enc 1337\n", "LZ\n"),
        // One for the line, one for the number and one for its line end.
        ("open_line", b"dec rustlang", "189876682536016\n"),
        // One for what each of two reads gives of the line, and one for the replies.
        ("long_line", &long_line, "0\n"),
        // One for the first line, and five for the replies, which grow to 120 bytes: room is for 8
        // bytes first, and at least doubles then.
        ("stored_run", STORED_INPUT.as_bytes(), STORED_OUTPUT),
    ];
    for (name, input, output) in cases {
        let mut reader = input;
        tell(&rt, name, is_refused(&rt, name, &mut reader, output))?;
    }
    // One for the line and one for the replies, in which the second read finds room.
    let parts = ["enc 1337\n", "alt 1337\n"];
    let two_reads = is_refused(&rt, "two_reads", &mut PartReader::new(&parts), "LZ\nlz\n");
    tell(&rt, "two_reads", two_reads)?;
    let after = Vec::<u8>::with_capacity(rt.alloc(), 1).is_err();
    tell(&rt, "after", after)
}
