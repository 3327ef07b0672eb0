//! The messages of errors, and the traits that the type derives.

ghost use Rattle.std.specs.Prelude.{◌≡◌, ◌++◌, codes, IfOk};
ghost use Rattle.std.specs.String.{string_bytes};
ghost use Rattle.base62_cli.specs.Fault.{tool_fault_text};

use crate::fault::ToolFault;
use std::alloc::{AllocError, Global};
use std::test::Fail;

// A fault in two cells of a table, of 40 and of 3 characters. It is neither padded nor cut.
fn cells(alloc: Global, fault: ToolFault) -> Result<String, AllocError>
    ensures { IfOk result (λ cells. string_bytes cells
        ≡ tool_fault_text fault ++ (codes "|" ++ (tool_fault_text fault ++ codes "|"))) }
{
    format!(in alloc; "{fault:>40}|{fault:.3}|")
}

// Whether a fault is shown so, alone and in cells.
fn is_shown(
    alloc: Global,
    fault: ToolFault,
    text: &str,
    in_cells: &str,
) -> Result<bool, AllocError> {
    let shown = format!(in alloc; "{fault}")?;
    Ok(shown.as_str() == text && cells(alloc, fault)?.as_str() == in_cells)
}

#[test]
fn fault_texts(rt: HostRuntime) -> Result<(), Fail> {
    let cases = [
        (
            ToolFault::Read,
            "base62_cli: read failed",
            "base62_cli: read failed|base62_cli: read failed|",
        ),
        (
            ToolFault::Write,
            "base62_cli: write failed",
            "base62_cli: write failed|base62_cli: write failed|",
        ),
        (
            ToolFault::Memory,
            "base62_cli: out of memory",
            "base62_cli: out of memory|base62_cli: out of memory|",
        ),
    ];
    for (fault, text, in_cells) in cases {
        assert!(rt; is_shown(rt.alloc(), fault, text, in_cells)?, "{text}");
    }
    Ok(())
}

#[test]
fn fault_copies(rt: HostRuntime) -> Result<(), Fail> {
    let fault = ToolFault::Read;
    let copy = fault;
    assert_eq!(rt; fault.clone()?, copy);
    assert_ne!(rt; fault, ToolFault::Write);
    Ok(())
}
