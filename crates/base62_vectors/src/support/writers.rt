//! A writer to memory that records its calls, and fails at a given one.

use std::alloc::Global;
use std::io::{self, ErrorKind, Write};

#[derive(Drop)]
pub(crate) struct TestWriter {
    pub(crate) written: Vec<u8>,
    // The number of bytes that each call of `write` received.
    pub(crate) handed: Vec<usize>,
    pub(crate) flushes: usize,
    // The maximum that it accepts in one call.
    most: usize,
    // The call of `write`, counted from 1, that fails, and its error.
    failing: Option<(usize, ErrorKind)>,
}

impl TestWriter {
    pub(crate) fn accepting(alloc: Global, most: usize) -> Self {
        TestWriter {
            written: Vec::new(alloc),
            handed: Vec::new(alloc),
            flushes: 0,
            most,
            failing: None,
        }
    }

    pub(crate) fn failing_at(alloc: Global, most: usize, call: usize, kind: ErrorKind) -> Self {
        TestWriter {
            failing: Some((call, kind)),
            ..TestWriter::accepting(alloc, most)
        }
    }
}

impl Write for TestWriter {
    fn write(&mut self, buf: &[u8]) -> io::Result<usize> {
        self.handed.push(buf.len())?;
        if let Some((call, kind)) = self.failing {
            if call == self.handed.len() {
                return Err(io::Error::from(kind));
            }
        }
        let taken = self.most.min(buf.len());
        self.written.extend_from_slice(&buf[..taken])?;
        Ok(taken)
    }

    fn flush(&mut self) -> io::Result<()> {
        self.flushes = self.flushes.saturating_add(1);
        Ok(())
    }
}
