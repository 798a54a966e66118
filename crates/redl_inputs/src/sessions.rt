//! A session over a package, with the entries of journals.

ghost use Rattle.std.specs.Prelude.{◌≡◌, ◌<◌, ◌≤◌, ◌^◌, None, All, IsUtf8, IfOk};
ghost use Rattle.redl_inputs.specs.Admission.{no_admission, opened, opened_over, sitting_over};
ghost use Rattle.redl_inputs.specs.Asking.{files_within};
ghost use Rattle.redl_inputs.specs.Reading.{ReadsFiles};
ghost use Rattle.redl_inputs.specs.Views.{admission_view, result_view};
ghost use Rattle.redl_index.specs.Numbers.{numbered_package};
ghost use Rattle.redl_index.specs.Revisions.{revisions_of};
ghost use Rattle.redl_io.specs.Limits.{journal_bytes};
ghost use Rattle.redl_rules.specs.Attributes.{broken_rule};

use crate::admitted::Admitted;
use crate::document::{Document, LazyDigest};
use crate::idle::idle_locks;
use crate::journals::{JOURNALS_LIMIT, admit_journals};
use crate::package::read_package;
use redl_index::Surveyed;
use redl_io::{Shelf, Text};
use redl_kinds::Lock;
use redl_lines::{Failure, RefusedEntries, Remarks};
use redl_session::{Locks, Session};
use std::alloc::{AllocError, Global};

/// A session over the package with this text, with the entries of the journals of these names and with these locks.
pub fn open<'a, 'b, F: Shelf>(
    alloc: Global,
    locks: &[Lock],
    journals: &'a [Text],
    bytes: &'b [u8],
    shelf: &mut F,
) -> Result<Admitted<'b>, Failure<'a>>
    requires { All IsUtf8 journals.now }
    ensures { ReadsFiles F.told F.faults F.asked shelf.old shelf.new (files_within journal_bytes journals.now)
        (result_view admission_view result) (λ reader files. opened reader files locks.now journals.now bytes.now) }
{
    let package = read_package(alloc, bytes)?;
    open_package(alloc, package, locks, journals, bytes, shelf)
}

/// A session over this package, which has this text, with the entries of the journals of these names and with these
/// locks.
pub fn open_package<'a, 'b, F: Shelf>(
    alloc: Global,
    pkg: Surveyed<'b>,
    locks: &[Lock],
    journals: &'a [Text],
    bytes: &'b [u8],
    shelf: &mut F,
) -> Result<Admitted<'b>, Failure<'a>>
    requires utf8 { All IsUtf8 journals.now }
    requires sound { broken_rule pkg ≡ None }
    ensures read { ReadsFiles F.told F.faults F.asked shelf.old shelf.new (files_within journal_bytes journals.now)
        (result_view admission_view result) (λ reader files. opened_over reader files locks.now journals.now bytes.now pkg.entry) }
    ensures nodes { IfOk result (λ admitted. admitted.session.nodes ≡ numbered_package pkg.entry) }
    ensures revisions { IfOk result (λ admitted. admitted.session.revisions ≡ revisions_of pkg.entry) }
{
    let mut started = start(alloc, pkg, locks, bytes)?;
    if journals.is_empty() {
        return Ok(started);
    }
    let document = started.document.id();
    let (admitted, _) = admit_journals(alloc, document, journals, JOURNALS_LIMIT, started, shelf)?;
    Ok(admitted)
}

/// A session over this package, which has this text, with the entries of the journals of these names, which have at most `limit`
/// bytes together, and without locks. Also how many bytes may still come of other journals.
pub fn sit<'a, 'b, F: Shelf>(
    alloc: Global,
    pkg: Surveyed<'b>,
    limit: usize,
    journals: &'a [Text],
    bytes: &'b [u8],
    shelf: &mut F,
) -> Result<(Admitted<'b>, usize), Failure<'a>>
    requires utf8 { All IsUtf8 journals.now }
    requires limit { limit < 2 ^ 32 }
    requires sound { broken_rule pkg ≡ None }
    ensures read { ReadsFiles F.told F.faults F.asked shelf.old shelf.new (files_within limit journals.now)
        (result_view (λ x. (admission_view x.0, x.1)) result) (λ reader files. sitting_over reader files limit journals.now bytes.now pkg.entry) }
    ensures within { IfOk result (λ x. x.1 ≤ limit) }
    ensures nodes { IfOk result (λ x. x.0.session.nodes ≡ numbered_package pkg.entry) }
    ensures revisions { IfOk result (λ x. x.0.session.revisions ≡ revisions_of pkg.entry) }
{
    let mut started = start(alloc, pkg, &[], bytes)?;
    let document = started.document.id();
    admit_journals(alloc, document, journals, limit, started, shelf)
}

/// A session over this package, which has this text, before any entry.
pub fn start<'b>(
    alloc: Global,
    pkg: Surveyed<'b>,
    locks: &[Lock],
    bytes: &'b [u8],
) -> Result<Admitted<'b>, AllocError>
    requires { broken_rule pkg ≡ None }
    ensures { IfOk result (λ started. admission_view started ≡ no_admission bytes.now pkg.entry locks.now) }
{
    let numbered = pkg.into_numbered(alloc)?;
    let count = numbered.index.count();
    let idle = idle_locks(alloc, &numbered.index, locks)?;
    let locks = Locks::new(copy_locks(alloc, locks)?);
    Ok(Admitted {
        document: Document {
            digest: LazyDigest::Of(bytes),
            count,
        },
        session: Session::start(alloc, numbered.pkg, numbered.index, locks),
        remarks: Remarks {
            refused: RefusedEntries::new(alloc),
            second: RefusedEntries::new(alloc),
            idle,
            notes: Vec::new(alloc),
        },
    })
}

fn copy_locks(alloc: Global, locks: &[Lock]) -> Result<Vec<Lock>, AllocError>
    ensures { IfOk result (λ copies. copies.items ≡ locks.now) }
{
    let mut copies = Vec::with_capacity(alloc, locks.len())?;
    for lock in locks {
        copies.push(lock.copy(alloc)?)?;
    }
    Ok(copies)
}
