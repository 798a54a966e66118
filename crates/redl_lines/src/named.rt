//! Names that stand in a line.

ghost use Rattle.redl_io.specs.Sink.{Puts};
ghost use Rattle.redl_lines.specs.Lines.{named};

use redl_io::{Failed, Sink, put_piece};
use redl_terminal::{Extent, put_masked};

/// Puts a name between two texts, with a question mark for each character that a terminal is not given.
pub(crate) fn write_named<K: Sink>(
    before: &[u8],
    name: &[u8],
    after: &[u8],
    err: &mut K,
) -> Result<(), Failed>
    ensures { Puts K.told K.faults K.settled K.lenders err.old err.new (named before.now name.now after.now) result }
{
    put_piece(before, err)?;
    put_masked(Extent::Field, name, err)?;
    put_piece(after, err)
}
