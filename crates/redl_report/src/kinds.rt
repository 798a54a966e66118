//! The lines of the kinds of an author's revisions.

ghost use Rattle.std.specs.Prelude.{◌≡◌, ◌≤◌, ◌++◌, length, map, IfOk, OnOk};
ghost use Rattle.std.specs.Map.Iter.{deref};
ghost use Rattle.redl_kinds.specs.Kinds.{is_same_kind};
ghost use Rattle.redl_report.specs.Groups.{group_with};
ghost use Rattle.redl_report.specs.Reports.{kind_line, kind_lines};

use crate::line::{ReportLine, Role};
use redl_index::Revision;
use redl_join::Book;
use redl_kinds::RevKind;
use std::alloc::{AllocError, Global};

/// Adds a line for each of these kinds of which an author has revisions. `Err` means out of memory.
pub(crate) fn add_kinds(
    alloc: Global,
    kinds: &[RevKind],
    name: &[u8],
    own: &[&Revision],
    book: &Book,
    lines: &mut Vec<ReportLine>,
) -> Result<(), AllocError>
    requires { length own.now ≤ u32.MAX }
    ensures { OnOk result (lines.new.items ≡ lines.old.items ++ kind_lines kinds.now book.now (group_with name.now (map deref own.now))) }
{
    for kind in kinds {
        let line = kind_line(alloc, *kind, name, own, book)?;
        if line.counts_any() {
            lines.push(line)?;
        }
    }
    Ok(())
}

// The line of an author with these revisions for those of one kind. `Err` means out of memory.
fn kind_line(
    alloc: Global,
    kind: RevKind,
    name: &[u8],
    own: &[&Revision],
    book: &Book,
) -> Result<ReportLine, AllocError>
    requires { length own.now ≤ u32.MAX }
    ensures { IfOk result (λ line. line ≡ kind_line book.now (group_with name.now (map deref own.now)) kind) }
{
    let mut line = ReportLine::blank(alloc, Role::Kind(kind), name)?;
    for revision in own {
        if is_same_kind(revision.kind, kind) {
            line.count(book.verdict(revision.number));
        }
    }
    Ok(line)
}

// Whether two kinds are the same.
fn is_same_kind(one: RevKind, other: RevKind) -> bool
    ensures { result ≡ is_same_kind one other }
{
    one == other
}
