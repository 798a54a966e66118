//! One hint, as a line.

ghost use Rattle.std.specs.Prelude.{◌≡◌, ◌++◌, codes, OnOk};
ghost use Rattle.redl_terminal.specs.Masks.{masked};
ghost use Rattle.redl_terminal.specs.declared.extent.Extent.TheVariants.{Field};

use redl_terminal::{Extent, push_masked};
use std::alloc::AllocError;

/// Adds the line of a hint with this text. `Err` means out of memory.
pub(crate) fn add_hint(hints: &mut Vec<u8>, text: &str) -> Result<(), AllocError>
    ensures { OnOk result (hints.new.items ≡ ((hints.old.items ++ codes "redline: hint: ") ++ text.now) ++ codes "\n") }
{
    hints.extend_from_slice(b"redline: hint: ")?;
    hints.extend_from_slice(text.as_bytes())?;
    hints.extend_from_slice(b"\n")
}

/// Adds the line of a hint with this text and, after it, a name, which is masked for a terminal. `Err` means out of memory.
pub(crate) fn add_hint_before_name(
    hints: &mut Vec<u8>,
    text: &str,
    name: &str,
) -> Result<(), AllocError>
    ensures { OnOk result (hints.new.items ≡ (((hints.old.items ++ codes "redline: hint: ") ++ text.now) ++ masked Field name.now) ++ codes "\n") }
{
    hints.extend_from_slice(b"redline: hint: ")?;
    hints.extend_from_slice(text.as_bytes())?;
    push_masked(hints, Extent::Field, name.as_bytes())?;
    hints.extend_from_slice(b"\n")
}

/// The same with a name between two texts. `Err` means out of memory.
pub(crate) fn add_hint_around_name(
    hints: &mut Vec<u8>,
    before: &str,
    name: &str,
    after: &str,
) -> Result<(), AllocError>
    ensures { OnOk result (hints.new.items ≡ ((((hints.old.items ++ codes "redline: hint: ") ++ before.now) ++ masked Field name.now) ++ after.now) ++ codes "\n") }
{
    hints.extend_from_slice(b"redline: hint: ")?;
    hints.extend_from_slice(before.as_bytes())?;
    push_masked(hints, Extent::Field, name.as_bytes())?;
    hints.extend_from_slice(after.as_bytes())?;
    hints.extend_from_slice(b"\n")
}
