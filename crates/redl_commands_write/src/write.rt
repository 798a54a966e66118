//! `write P` with journals and locks.

ghost use Rattle.std.specs.Prelude.{◌≡◌, All, IsUtf8, IfOk};
ghost use Rattle.redl_commands.specs.Write.{written, resolved};
ghost use Rattle.redl_inputs.specs.Asking.{files_within};
ghost use Rattle.redl_inputs.specs.Reading.{ReadsFiles};
ghost use Rattle.redl_commands.specs.Views.{writing_view};
ghost use Rattle.redl_inputs.specs.Views.{admission_view, result_view};
ghost use Rattle.redl_io.specs.Limits.{journal_bytes};

use crate::gone::{locked_numbers, note_gone};
use redl_commands::Writing;
use redl_inputs::{Admitted, open};
use redl_io::{Shelf, Text};
use redl_kinds::Lock;
use redl_lines::Failure;
use std::alloc::{AllocError, Global};

/// The package with this text under the joined verdicts of the journals of these names, with these locks.
pub fn write_package<'a, 'b, F: Shelf>(
    alloc: Global,
    locks: &[Lock],
    journals: &'a [Text],
    bytes: &'b [u8],
    shelf: &mut F,
) -> Result<Writing<'b>, Failure<'a>>
    requires { All IsUtf8 journals.now }
    ensures { ReadsFiles F.told F.faults F.asked shelf.old shelf.new (files_within journal_bytes journals.now)
        (result_view writing_view result) (λ reader files. written reader files locks.now journals.now bytes.now) }
{
    let admitted = open(alloc, locks, journals, bytes, shelf)?;
    Ok(resolve(alloc, locks, admitted)?)
}

// The package under the verdicts of the session, which has these locks.
fn resolve<'b>(
    alloc: Global,
    locks: &[Lock],
    admitted: Admitted<'b>,
) -> Result<Writing<'b>, AllocError>
    ensures { IfOk result (λ writing. writing_view writing ≡ resolved locks.now (admission_view admitted.entry)) }
{
    let Admitted {
        session,
        remarks,
        ..
    } = admitted;
    let locked = locked_numbers(alloc, locks, session.index().revisions())?;
    let nodes = session.into_passed()?;
    let mut remarks = remarks;
    note_gone(alloc, &locked, &nodes, &mut remarks)?;
    Writing::package(nodes, remarks)
}
