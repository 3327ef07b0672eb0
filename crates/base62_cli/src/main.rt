//! Encodes and decodes the lines of standard input, such as `enc 1337` and `dec LZ`. Prints for each
//! the encoded string, the number or an error.
#![tactic(auto)]

mod fault;
mod laws;
mod line_end;
mod reply;
#[cfg(test)]
mod tests;
mod tool;

use fault::ToolFault;
use std::process::ExitCode;
use tool::run;

fn main(rt: HostRuntime) -> ExitCode {
    match run(rt.alloc(), &mut rt.stdin(), &mut rt.stdout()) {
        Ok(()) => ExitCode::SUCCESS,
        Err(fault) => fail(&rt, fault),
    }
}

// If standard error cannot be written, only the exit status reports the error.
fn fail(rt: &impl Eprint, fault: ToolFault) -> ExitCode {
    let _ = eprintln!(rt; "{fault}");
    ExitCode::FAILURE
}
