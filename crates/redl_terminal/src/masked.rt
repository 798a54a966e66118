//! Masked texts, added to a line or put into a sink.

ghost use Rattle.std.specs.Prelude.{◌≡◌, ◌++◌, OnOk};
ghost use Rattle.redl_io.specs.Sink.{Puts};
ghost use Rattle.redl_terminal.specs.Masks.{masked};

use crate::extent::Extent;
use crate::steps::next_masked;
use redl_io::{Failed, Sink, put_piece};
use std::alloc::AllocError;

/// Adds the bytes, with a question mark for each hidden character. `Err` means out of memory.
pub fn push_masked(line: &mut Vec<u8>, extent: Extent, bytes: &[u8]) -> Result<(), AllocError>
    ensures { OnOk result (line.new.items ≡ line.old.items ++ masked extent bytes.now) }
{
    let mut left = bytes;
    while let Some(step) = next_masked(extent, left) {
        line.extend_from_slice(step.piece)?;
        left = step.rest;
    }
    Ok(())
}

/// Puts the bytes, with a question mark for each hidden character. It takes no memory. `Failed` comes only where the sink failed,
/// and then it has only a prefix of the masked text.
pub fn put_masked<K: Sink>(extent: Extent, bytes: &[u8], out: &mut K) -> Result<(), Failed>
    ensures { Puts K.told K.faults K.settled K.lenders out.old out.new (masked extent bytes.now) result }
{
    let mut left = bytes;
    while let Some(step) = next_masked(extent, left) {
        put_piece(step.piece, out)?;
        left = step.rest;
    }
    Ok(())
}
