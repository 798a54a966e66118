//! All revisions, as a table counts them.

ghost use Rattle.std.specs.Prelude.{◌≡◌, ◌+◌, ◌++◌, IfOk, OnOk};
ghost use Rattle.redl_report.specs.Counts.{IsLine};
ghost use Rattle.redl_report.specs.Tables.{cell, cells, last_line, no_revisions, table_line, table_row, with_counts, with_line};

use crate::line::{ReportLine, Role};
use crate::text_lines::{label, role_name};
use itoa::Buffer;
use redl_formats::{push_left, push_right};
use redl_terminal::{Extent, push_masked};
use std::alloc::{AllocError, Global};

/// How many revisions are accepted, rejected, disputed and undecided.
#[derive(Clone, Copy)]
pub(crate) struct Totals {
    accept: u64,
    reject: u64,
    disputed: u64,
    undecided: u64,
}

impl Totals {
    /// No revisions.
    pub(crate) fn none() -> Totals
        ensures { result ≡ no_revisions }
    {
        Totals {
            accept: 0,
            reject: 0,
            disputed: 0,
            undecided: 0,
        }
    }

    // With the revisions of a line more. No memory holds so many lines that they do not fit.
    fn with_counts(self, line: &ReportLine) -> Result<Totals, AllocError>
        ensures { IfOk result (λ totals. totals ≡ with_counts self line.now) }
    {
        Ok(Totals {
            accept: sum(self.accept, line.accept)?,
            reject: sum(self.reject, line.reject)?,
            disputed: sum(self.disputed, line.disputed)?,
            undecided: sum(self.undecided, line.undecided)?,
        })
    }

    /// The same, where the line is an author's.
    pub(crate) fn with_line(self, line: &ReportLine) -> Result<Totals, AllocError>
        ensures { IfOk result (λ totals. totals ≡ with_line self line.now) }
    {
        match line.role {
            Role::Reviewer | Role::Kind(_) => Ok(self),
            Role::Author => self.with_counts(line),
        }
    }
}

fn sum(total: u64, count: u32) -> Result<u64, AllocError>
    ensures { IfOk result (λ sum. sum ≡ total + count) }
{
    match total.checked_add(count as u64) {
        Some(sum) => Ok(sum),
        None => Err(AllocError),
    }
}

/// The table's line of a line. `Err` means out of memory.
pub(crate) fn table_line(alloc: Global, line: &ReportLine) -> Result<Vec<u8>, AllocError>
    requires { IsLine line.now }
    ensures { IfOk result (λ text. text.items ≡ table_line line.now) }
{
    let mut name = Vec::new(alloc);
    push_masked(&mut name, Extent::Field, label(line))?;
    let counts = Totals::none().with_counts(line)?;
    table_row(alloc, role_name(line.role), counts, &name)
}

/// The last line, for all revisions. `Err` means out of memory.
pub(crate) fn last_line(alloc: Global, totals: Totals) -> Result<Vec<u8>, AllocError>
    ensures { IfOk result (λ text. text.items ≡ last_line totals) }
{
    table_row(alloc, "all", totals, b"revisions")
}

// Columns with whom a line is about, its counts and a name. `Err` means out of memory.
#[tactic(auto, unfolding(crate::specs::Tables::table_row))]
fn table_row(alloc: Global, first: &str, counts: Totals, last: &[u8]) -> Result<Vec<u8>, AllocError>
    ensures { IfOk result (λ text. text.items ≡ table_row first.now counts last.now) }
{
    let mut text = Vec::new(alloc);
    push_left(&mut text, first.as_bytes(), 8)?;
    text.push(b' ')?;
    push_cells(&mut text, counts)?;
    text.extend_from_slice(last)?;
    text.push(b'\n')?;
    Ok(text)
}

// Adds four counts, each with a space after it. `Err` means out of memory.
#[tactic(auto, unfolding(crate::specs::Tables::cells))]
fn push_cells(text: &mut Vec<u8>, counts: Totals) -> Result<(), AllocError>
    ensures { OnOk result (text.new.items ≡ text.old.items ++ cells counts) }
{
    push_cell(text, counts.accept)?;
    push_cell(text, counts.reject)?;
    push_cell(text, counts.disputed)?;
    push_cell(text, counts.undecided)?;
    Ok(())
}

// Adds a count, with a space after it. `Err` means out of memory.
fn push_cell(text: &mut Vec<u8>, count: u64) -> Result<(), AllocError>
    ensures { OnOk result (text.new.items ≡ text.old.items ++ cell count) }
{
    let mut buffer = Buffer::new();
    push_right(text, buffer.format(count).as_bytes(), 8)?;
    text.push(b' ')?;
    Ok(())
}
