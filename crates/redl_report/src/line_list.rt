//! The lines of a report.

ghost use Rattle.std.specs.Prelude.{◌≡◌, All, IfOk};
ghost use Rattle.redl_report.specs.Counts.{IsLine};
ghost use Rattle.redl_report.specs.Reports.{report_lines, report_lines_by_kind};
ghost use Rattle.redl_report.specs.Sums.{KindsAddUp};

use crate::authors::{add_authors, add_authors_by_kind};
use crate::line::ReportLine;
use crate::reviewers::add_reviewers;
use redl_index::Index;
use redl_join::Book;
use std::alloc::{AllocError, Global};

/// Where each reviewer and each author stands.
///
/// First comes a line for each reviewer of the book, by the bytes of their names. It counts the revisions on which they have an
/// entry. On each of them their entries with their greatest seq count, without withdrawals, and of these the ones with the
/// highest rank: if none is left it is undecided. Then comes a line for each author of the index, by the bytes of their names,
/// which counts their revisions by the verdicts of the book. The names are UTF-8.
///
/// An entry on a revision that the index does not have counts nothing. `Err` means out of memory.
pub fn lines(alloc: Global, index: &Index, book: &Book) -> Result<Vec<ReportLine>, AllocError>
    ensures lines { IfOk result (λ lines. lines.items ≡ report_lines index.now book.now) }
    ensures names { IfOk result (λ lines. All IsLine lines.items) }
{
    let mut lines = Vec::new(alloc);
    add_reviewers(alloc, index.count(), book, &mut lines)?;
    add_authors(alloc, index.revisions(), book, &mut lines)?;
    Ok(lines)
}

/// Where each reviewer and each author stands, kind by kind.
///
/// The lines of `lines`, where each author's is followed by one for each kind of their revisions, in the order of the table of
/// kinds. The counts of these add up to the author's. `Err` means out of memory.
pub fn lines_by_kind(
    alloc: Global,
    index: &Index,
    book: &Book,
) -> Result<Vec<ReportLine>, AllocError>
    ensures lines { IfOk result (λ lines. lines.items ≡ report_lines_by_kind index.now book.now) }
    ensures add_up { IfOk result (λ lines. All (KindsAddUp lines.items) lines.items) }
    ensures names { IfOk result (λ lines. All IsLine lines.items) }
{
    let mut lines = Vec::new(alloc);
    add_reviewers(alloc, index.count(), book, &mut lines)?;
    add_authors_by_kind(alloc, index.revisions(), book, &mut lines)?;
    Ok(lines)
}
