//! The error that ends a run.

ghost use Rattle.std.specs.Prelude.{◌≡◌, Some};
ghost use Rattle.base62_cli.specs.Fault.{tool_fault_text};

use std::{error, fmt};

/// An error that ends a run before all lines have their replies.
#[derive(Clone, Copy, Debug, PartialEq, Eq)]
pub enum ToolFault {
    /// A read failed, or the input did not end within 2^64 - 1 reads.
    Read,
    /// A write or the flush failed, or a write accepted no bytes.
    Write,
    /// An allocation for a line or its reply failed.
    Memory,
}

impl ToolFault {
    #[tactic(auto, unfolding(crate::specs::Fault::tool_fault_text))]
    fn text(self) -> &'static str
        ensures { result.now ≡ tool_fault_text self }
    {
        match self {
            ToolFault::Read => "base62_cli: read failed",
            ToolFault::Write => "base62_cli: write failed",
            ToolFault::Memory => "base62_cli: out of memory",
        }
    }
}

/// Writes the program's name and what failed. Width, precision, fill and alignment are ignored.
impl fmt::Display for ToolFault {
    ghost output = { λ fault. Some (tool_fault_text fault) };

    ghost styled_output = { λ fault _. Some (tool_fault_text fault) };

    fn fmt<W: fmt::Write>(&self, f: &mut fmt::Formatter<W>) -> fmt::Result {
        f.write_str(self.text())
    }
}

impl error::Error for ToolFault {}
