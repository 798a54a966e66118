//! The format `table`: a report in columns, for a terminal.

ghost use Rattle.std.specs.Prelude.{◌≡◌, ◌++◌, ◌∷◌, IfOk, OnOk, OnErr, [], false, true};
ghost use Rattle.redl_report.specs.Counts.{IsLine};

use crate::format::{ReportError, ReportFormat};
use crate::line::ReportLine;
use crate::totals::{Totals, last_line, table_line};
use redl_formats::Item;
use std::alloc::{AllocError, Global};
use std::marker::Model;

const HEAD: &[u8] = b"role       accept   reject disputed     open name\n";

/// A table for a terminal: a head, a line for each line of the report, and when it is closed a last line for all revisions.
/// Contracts see the lines and whether it is closed.
#[derive(Drop)]
pub struct TableReport {
    alloc: Global,
    lines: Vec<ReportLine>,
    totals: Totals,
    text: Vec<u8>,
    // What closing adds.
    last: Vec<u8>,
    closed: bool,
}

impl Model for TableReport {
    ghost use Rattle.redl_formats.specs.Formats.{Given};
    ghost use Rattle.redl_report.specs.declared.line.ReportLine.{ReportLine};
    ghost use Rattle.redl_report.specs.Tables.{IsTableDraft};

    ghost Value = { Given ReportLine };

    ghost view = { λ table. record { items = table.lines.items; closed = table.closed } };

    ghost invariant = { λ table. IsTableDraft table.lines.items table.closed table.totals table.text table.last };
}

impl TableReport {
    /// The format without lines. `Err` means out of memory.
    pub fn new(alloc: Global) -> Result<TableReport, AllocError>
        ensures { IfOk result (λ table. table ≡ record { items = []; closed = false }) }
    {
        let totals = Totals::none();
        let last = last_line(alloc, totals)?;
        let mut text = Vec::from_slice(alloc, HEAD)?;
        text.reserve(last.len())?;
        Ok(TableReport {
            alloc,
            lines: Vec::new(alloc),
            totals,
            text,
            last,
            closed: false,
        })
    }

    // Adds a line. `Err` means out of memory, and then the format is as before.
    fn add(&mut self, line: &ReportLine) -> Result<(), AllocError>
        requires open { self.old.closed ≡ false }
        requires line { IsLine line.now }
        ensures taken { OnOk result (self.new ≡ record { items = self.old.items ++ line.now ∷ []; closed = false }) }
        ensures unchanged { OnErr result (self.new ≡ self.old) }
    {
        let totals = self.totals.with_line(line)?;
        let last = last_line(self.alloc, totals)?;
        let row = table_line(self.alloc, line)?;
        let line = line.copy(self.alloc)?;
        self.text.reserve(row.len() + last.len())?;
        self.lines.push(line)?;
        self.text.extend_from_slice(&row).unwrap();
        self.totals = totals;
        self.last = last;
        Ok(())
    }
}

impl ReportFormat for TableReport {
    ghost use Rattle.std.specs.Prelude.{codes};
    ghost use Rattle.redl_report.specs.Tables.{table_report};

    ghost report_name = { λ _. codes "table" };

    ghost lines_so_far = { λ table. table.items };

    ghost is_ended = { λ table. table.closed };

    ghost report_text = { λ _. table_report };

    fn name(&self) -> &str {
        "table"
    }

    fn line(&mut self, line: &ReportLine) -> Result<(), ReportError> {
        self.add(line)?;
        Ok(())
    }

    fn close(&mut self) {
        self.text.extend_from_slice(&self.last).unwrap();
        self.closed = true;
    }

    fn text(&self) -> &[u8] {
        &self.text
    }
}
