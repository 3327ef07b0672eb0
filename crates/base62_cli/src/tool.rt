//! Runs the program over a reader and a writer.

ghost use Rattle.std.specs.Prelude.{◌≡◌, ◌≢◌, List, [], ◌∷◌, ◌++◌, ℕ, Some, OnOk, IfSome, MatchOption};
ghost use Rattle.std.specs.List.{All};
ghost use Rattle.std.specs.Io.KnownBytes.{Appends};
ghost use Rattle.base62_cli.specs.Output.{IsOutput, Leaves};

use crate::fault::ToolFault;
use crate::line_end::line_end;
use crate::reply::{append, push_reply};
use std::alloc::Global;
use std::io::{Read, Write};

/// The length of the buffer for a read.
pub(crate) const CHUNK_LEN: usize = 32768;

/// Writes the reply to each line of the reader, in order, and nothing else.
///
/// A line ends with `\n`, but a last nonempty line needs none. A `\r` is part of its line. A line is
/// a command, one space and a text. The text extends to the end of the line and may be empty.
///
/// - `enc` with a decimal number below 2^128, with any count of leading zeros, encodes it in the
///   standard alphabet, and `alt` in the alternative one. For any other text the reply is
///   `fault: not a number`.
/// - `dec` decodes a text by [`base62::decode`], and `adc` by [`base62::decode_alternative`]. The
///   reply is the number in decimal, or `fault: ` and the text of the error.
/// - For any other line the reply is `fault: unknown command`.
///
/// Each reply is followed by `\n`. The replies to the lines of a read are written before the next
/// read. The writer is flushed once, at the end.
///
/// # Errors
///
/// - `Read` if a read fails, or the input does not end within 2^64 - 1 reads.
/// - `Write` if a write or the flush fails, or a write accepts no bytes.
/// - `Memory` if an allocation for a line, or for the replies to a read, fails. A run allocates
///   nothing else.
///
/// On an error some replies may have been written.
///
/// # Examples
///
/// ```rust
/// let mut input = b"enc 1337\ndec LZ".as_slice();
/// let mut output = [0u8; 8];
/// let mut writer = output.as_mut_slice();
/// assert!(rt; run(rt.alloc(), &mut input, &mut writer).is_ok());
/// assert_eq!(rt; &output, b"LZ\n1337\n");
/// ```
pub fn run<R: Read, W: Write>(
    alloc: Global,
    reader: &mut R,
    writer: &mut W,
) -> Result<(), ToolFault>
    ensures { OnOk result (IfSome (R.remaining reader.old) (λ input.
        (R.remaining reader.new ≡ Some []) × (output : List ℕ) × IsOutput input output
        × Appends (W.contents writer.old) (W.contents writer.new) output)) }
{
    let mut chunk = [0u8; CHUNK_LEN];
    let mut line = Vec::new(alloc);
    let mut out = Vec::new(alloc);
    // In Rattle a loop needs a bound. No run makes 2^64 - 1 reads.
    for _ in 0..u64::MAX {
        let Ok(count) = reader.read(&mut chunk) else {
            return Err(ToolFault::Read);
        };
        if count == 0 {
            return finish(line.as_slice(), &mut out, writer);
        }
        answer(&chunk[..count], &mut line, &mut out)?;
        let Ok(()) = writer.write_all(out.as_slice()) else {
            return Err(ToolFault::Write);
        };
        out.clear();
    }
    Err(ToolFault::Read)
}

// Appends the replies to the lines that end in the chunk. The first of them began with `line`. Then
// `line` has the start of the next one.
fn answer(chunk: &[u8], line: &mut Vec<u8>, out: &mut Vec<u8>) -> Result<(), ToolFault>
    requires { All (λ b. b ≢ 10) line.old.items }
    ensures unended { OnOk result (All (λ b. b ≢ 10) line.new.items) }
    ensures answered { OnOk result ((replies : List ℕ) × (out.new.items ≡ out.old.items ++ replies)
        × ((more : List ℕ)
        → Leaves (line.old.items ++ (chunk.now ++ more)) replies (line.new.items ++ more))) }
{
    let Some((end, mut rest)) = split_line(chunk) else {
        return append(chunk, line);
    };
    append(end, line)?;
    push_reply(line.as_slice(), out)?;
    line.clear();
    // The chunk has the others whole.
    while let Some((whole, after)) = split_line(rest) {
        push_reply(whole, out)?;
        rest = after;
    }
    append(rest, line)
}

// Splits at the first byte 10, which is in neither part.
fn split_line(bytes: &[u8]) -> Option<(&[u8], &[u8])>
    ensures { MatchOption result (All (λ b. b ≢ 10) bytes.now)
        (λ parts. All (λ b. b ≢ 10) parts.0.now × (bytes.now ≡ parts.0.now ++ 10 ∷ parts.1.now)) }
{
    let end = line_end(bytes)?;
    Some((&bytes[..end], &bytes[end + 1..]))
}

// Writes the replies, with that to a last line that no byte 10 ends, and flushes.
fn finish<W: Write>(line: &[u8], out: &mut Vec<u8>, writer: &mut W) -> Result<(), ToolFault>
    requires unended { All (λ b. b ≢ 10) line.now }
    requires empty { out.old.items ≡ [] }
    ensures { OnOk result ((output : List ℕ) × IsOutput line.now output
        × Appends (W.contents writer.old) (W.contents writer.new) output) }
{
    answer_last(line, out)?;
    let Ok(()) = writer.write_all(out.as_slice()) else {
        return Err(ToolFault::Write);
    };
    let Ok(()) = writer.flush() else {
        return Err(ToolFault::Write);
    };
    Ok(())
}

fn answer_last(line: &[u8], out: &mut Vec<u8>) -> Result<(), ToolFault>
    requires unended { All (λ b. b ≢ 10) line.now }
    requires empty { out.old.items ≡ [] }
    ensures { OnOk result (IsOutput line.now out.new.items) }
{
    if line.is_empty() {
        return Ok(());
    }
    push_reply(line, out)
}
