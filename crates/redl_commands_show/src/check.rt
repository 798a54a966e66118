//! `check P`: whether a package is sound, and how many revisions it has.

ghost use Rattle.std.specs.Prelude.{◌≡◌, IfOk};
ghost use Rattle.redl_commands.specs.Check.{checked, counted};
ghost use Rattle.redl_inputs.specs.Reading.{Reads};
ghost use Rattle.redl_commands.specs.Views.{writing_view};
ghost use Rattle.redl_inputs.specs.Views.{result_view};

use redl_commands::{Output, Writing, note_marks};
use redl_index::Surveyed;
use redl_inputs::read_package;
use redl_lines::{Failure, Remarks};
use std::alloc::{AllocError, Global};
use std::mem;

/// That the package with this text is sound, how many revisions it has, and a note of the marks in it that are never decided.
pub fn check_package<'a, 'b>(alloc: Global, bytes: &'b [u8]) -> Result<Writing<'b>, Failure<'a>>
    ensures { Reads (result_view writing_view result) (λ reader. checked reader bytes.now) }
{
    let package = read_package(alloc, bytes)?;
    Ok(count_revisions(alloc, package)?)
}

fn count_revisions(alloc: Global, pkg: Surveyed) -> Result<Writing, AllocError>
    ensures { IfOk result (λ writing. writing_view writing ≡ counted pkg.entry) }
{
    let counted = pkg.into_counted();
    let mut remarks = Remarks::none(alloc);
    note_marks(&mut remarks, counted.pkg.nodes())?;
    let count = counted.count;
    // a call ends after this, and the system takes all memory back at once
    mem::forget(counted);
    Ok(Writing {
        output: Output::Count(count),
        remarks,
    })
}
