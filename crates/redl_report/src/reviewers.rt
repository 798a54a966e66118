//! The lines of the reviewers.

ghost use Rattle.std.specs.Prelude.{◌≡◌, ◌++◌, map, All, IfOk, OnOk};
ghost use Rattle.std.specs.Map.Iter.{deref};
ghost use Rattle.redl_join.specs.Books.{IsBook};
ghost use Rattle.redl_journal.specs.Journals.{IsAllowed};
ghost use Rattle.redl_report.specs.Groups.{grouped, group_with};
ghost use Rattle.redl_report.specs.Reports.{is_number, reviewer_line, reviewer_of, revisions_on};

use crate::groups::by_reviewer;
use crate::line::{ReportLine, Role};
use redl_join::Book;
use redl_journal::Entry;
use std::alloc::{AllocError, Global};
use std::collections::BTreeSet;

/// Adds a line for each reviewer of the book over so many revisions, by their names. `Err` means out of memory.
pub(crate) fn add_reviewers(
    alloc: Global,
    count: u32,
    book: &Book,
    lines: &mut Vec<ReportLine>,
) -> Result<(), AllocError>
    ensures lines { OnOk result (lines.new.items ≡ lines.old.items ++ map (reviewer_line count) (grouped reviewer_of book.now)) }
    ensures allowed { All IsAllowed book.now }
{
    let groups = by_reviewer(alloc, book)?;
    for (name, own) in &groups {
        let line = reviewer_line(alloc, count, name, own)?;
        lines.push(line)?;
    }
    Ok(())
}

// The line of a reviewer with these entries, over so many revisions. `Err` means out of memory.
fn reviewer_line(
    alloc: Global,
    count: u32,
    name: &[u8],
    own: &[&Entry],
) -> Result<ReportLine, AllocError>
    requires book { IsBook (map deref own.now) }
    requires allowed { All IsAllowed (map deref own.now) }
    ensures { IfOk result (λ line. line ≡ reviewer_line count (group_with name.now (map deref own.now))) }
{
    let book = own_book(alloc, own)?;
    let revisions = own_revisions(alloc, count, own)?;
    let mut line = ReportLine::blank(alloc, Role::Reviewer, name)?;
    for revision in &revisions {
        line.count(book.verdict(*revision));
    }
    Ok(line)
}

// The book of these entries alone. `Err` means out of memory.
fn own_book(alloc: Global, own: &[&Entry]) -> Result<Book, AllocError>
    requires book { IsBook (map deref own.now) }
    requires allowed { All IsAllowed (map deref own.now) }
    ensures { IfOk result (λ book. book ≡ map deref own.now) }
{
    let mut book = Book::new(alloc);
    for entry in own {
        book.add(entry.copy(alloc)?)?;
    }
    Ok(book)
}

// The numbers of the revisions that the entries are on, of so many. `Err` means out of memory.
fn own_revisions(alloc: Global, count: u32, own: &[&Entry]) -> Result<BTreeSet<u32>, AllocError>
    ensures { IfOk result (λ numbers. numbers.keys ≡ revisions_on count (map deref own.now)) }
{
    let mut numbers = BTreeSet::new(alloc);
    for entry in own {
        if is_number(count, entry.rev) {
            numbers.insert(entry.rev)?;
        }
    }
    Ok(numbers)
}

// Whether one of so many revisions has this number.
fn is_number(count: u32, number: u32) -> bool
    ensures { result ≡ is_number count number }
{
    1 <= number && number <= count
}
