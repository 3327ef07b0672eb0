//! Tests of a run over readers and writers in memory, against values from outside.

// What a row claims is gathered in one `bool`, and asserted once: the proof of each assert costs much.

mod borders;
mod fault;
mod memory;
mod replies;
mod streams;

// The stored run.
const STORED_INPUT: &str = "enc 1337\nalt 1337\ndec rustlang\nadc rustlang\ndec \nenc x\nfoo\n";

const STORED_OUTPUT: &str = "LZ\n\
    lz\n\
    189876682536016\n\
    96813686712946\n\
    fault: Encoded input is an empty string\n\
    fault: not a number\n\
    fault: unknown command\n";

// The stored run, and the same if no line end follows the last line.
fn stored_inputs() -> [&'static str; 2] {
    [STORED_INPUT, STORED_INPUT.trim_end_matches('\n')]
}
