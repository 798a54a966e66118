//! The lines of the authors.

ghost use Rattle.std.specs.Prelude.{◌≡◌, ◌≤◌, ◌++◌, length, map, IfOk, OnOk};
ghost use Rattle.std.specs.List.{flat_map};
ghost use Rattle.std.specs.Map.Iter.{deref};
ghost use Rattle.redl_report.specs.Groups.{grouped, group_with};
ghost use Rattle.redl_report.specs.Reports.{author_line, author_lines, author_of};

use crate::groups::by_author;
use crate::kinds::add_kinds;
use crate::line::{ReportLine, Role};
use redl_index::Revision;
use redl_join::Book;
use redl_kinds::KINDS;
use std::alloc::{AllocError, Global};

/// Adds a line for each author of the revisions, by their names. `Err` means out of memory.
pub(crate) fn add_authors(
    alloc: Global,
    revisions: &[Revision],
    book: &Book,
    lines: &mut Vec<ReportLine>,
) -> Result<(), AllocError>
    requires { length revisions.now ≤ u32.MAX }
    ensures { OnOk result (lines.new.items ≡ lines.old.items ++ map (author_line book.now) (grouped author_of revisions.now)) }
{
    let groups = by_author(alloc, revisions)?;
    for (name, own) in &groups {
        let line = author_line(alloc, name, own, book)?;
        lines.push(line)?;
    }
    Ok(())
}

/// The same with lines for each kind of an author's revisions after that author's line. `Err` means out of memory.
pub(crate) fn add_authors_by_kind(
    alloc: Global,
    revisions: &[Revision],
    book: &Book,
    lines: &mut Vec<ReportLine>,
) -> Result<(), AllocError>
    requires { length revisions.now ≤ u32.MAX }
    ensures { OnOk result (lines.new.items ≡ lines.old.items ++ flat_map (author_lines book.now) (grouped author_of revisions.now)) }
{
    let groups = by_author(alloc, revisions)?;
    for (name, own) in &groups {
        add_author(alloc, name, own, book, lines)?;
    }
    Ok(())
}

// Adds the line of an author with these revisions, and one for each kind of them. `Err` means out of memory.
fn add_author(
    alloc: Global,
    name: &[u8],
    own: &[&Revision],
    book: &Book,
    lines: &mut Vec<ReportLine>,
) -> Result<(), AllocError>
    requires { length own.now ≤ u32.MAX }
    ensures { OnOk result (lines.new.items ≡ lines.old.items ++ author_lines book.now (group_with name.now (map deref own.now))) }
{
    let line = author_line(alloc, name, own, book)?;
    lines.push(line)?;
    add_kinds(alloc, &KINDS, name, own, book, lines)
}

// The line of an author with these revisions. `Err` means out of memory.
fn author_line(
    alloc: Global,
    name: &[u8],
    own: &[&Revision],
    book: &Book,
) -> Result<ReportLine, AllocError>
    requires { length own.now ≤ u32.MAX }
    ensures { IfOk result (λ line. line ≡ author_line book.now (group_with name.now (map deref own.now))) }
{
    let mut line = ReportLine::blank(alloc, Role::Author, name)?;
    for revision in own {
        line.count(book.verdict(revision.number));
    }
    Ok(line)
}
