//! What a format of reports promises, whoever wrote it, and the names of two of those that the program brings.

ghost use Rattle.std.specs.Prelude.{◌≡◌, ◌++◌, ◌∷◌, [], List, ℕ, Bool, true, false, OnOk, OnErr};
ghost use Rattle.redl_formats.specs.Formats.{lines_of, array_of};
ghost use Rattle.redl_report.specs.Counts.{IsLine};
ghost use Rattle.redl_report.specs.declared.line.ReportLine.{ReportLine};

use crate::json_lines::JsonLines;
use crate::line::ReportLine;
use crate::text_lines::TextLines;
use redl_formats::{ArrayFormat, ItemText, LineFormat};
use std::alloc::AllocError;

/// The format `text`.
pub type TextReport = LineFormat<ReportLine, TextLines>;

/// The format `json`.
pub type JsonReport = ArrayFormat<ReportLine, JsonLines>;

/// A line was not taken, since an allocation failed.
#[derive(Clone, Copy, Debug, PartialEq, Eq, thiserror::Error)]
#[error("out of memory")]
pub struct ReportError;

impl From<AllocError> for ReportError {
    fn from(_: AllocError) -> ReportError {
        ReportError
    }
}

/// A report that is being made: lines come in one after another, then it is closed, and at each moment it has a text.
///
/// A format is a definition, which gives a text for every list of lines, closed or not. No call changes this definition or the
/// name.
pub trait ReportFormat: Drop {
    // Its name.
    ghost report_name: { Self → List ℕ };

    // The lines so far.
    ghost lines_so_far: { Self → List ReportLine };

    // It was closed, so it takes no more lines.
    ghost is_ended: { Self → Bool };

    // The text that the format gives for any lines, closed or not.
    ghost report_text: { Self → List ReportLine → Bool → List ℕ };

    /// Its name. It takes no memory.
    fn name(&self) -> &str
        ensures { result.now ≡ report_name self.now };

    /// Takes a line after the others. The line's name is UTF-8.
    ///
    /// `Err` means out of memory, and then the format is as before.
    fn line(&mut self, line: &ReportLine) -> Result<(), ReportError>
        requires open { is_ended self.old ≡ false }
        requires line { IsLine line.now }
        ensures taken { OnOk result (lines_so_far self.new ≡ lines_so_far self.old ++ line.now ∷ []) }
        ensures unchanged { OnErr result (lines_so_far self.new ≡ lines_so_far self.old) }
        ensures open { is_ended self.new ≡ false }
        ensures same_name { report_name self.new ≡ report_name self.old }
        ensures same_format { (lines : List ReportLine) (closed : Bool) → report_text self.new lines closed ≡ report_text self.old lines closed };

    /// Closes the report. It takes no memory and can't fail.
    fn close(&mut self)
        requires { is_ended self.old ≡ false }
        ensures closed { is_ended self.new ≡ true }
        ensures same_lines { lines_so_far self.new ≡ lines_so_far self.old }
        ensures same_name { report_name self.new ≡ report_name self.old }
        ensures same_format { (lines : List ReportLine) (closed : Bool) → report_text self.new lines closed ≡ report_text self.old lines closed };

    /// The text for the lines so far. It takes no memory.
    fn text(&self) -> &[u8]
        ensures { result.now ≡ report_text self.now (lines_so_far self.now) (is_ended self.now) };
}

impl<P: ItemText<ReportLine>> ReportFormat for LineFormat<ReportLine, P> {
    ghost report_name = { λ _. P.title };

    ghost lines_so_far = { λ format. format.items };

    ghost is_ended = { λ format. format.closed };

    ghost report_text = { λ _. lines_of P.piece_of };

    fn name(&self) -> &str {
        P::title()
    }

    fn line(&mut self, line: &ReportLine) -> Result<(), ReportError> {
        self.add(line)?;
        Ok(())
    }

    fn close(&mut self) {
        LineFormat::close(self);
    }

    fn text(&self) -> &[u8] {
        LineFormat::text(self)
    }
}

impl<P: ItemText<ReportLine>> ReportFormat for ArrayFormat<ReportLine, P> {
    ghost report_name = { λ _. P.title };

    ghost lines_so_far = { λ format. format.items };

    ghost is_ended = { λ format. format.closed };

    ghost report_text = { λ _. array_of P.piece_of };

    fn name(&self) -> &str {
        P::title()
    }

    fn line(&mut self, line: &ReportLine) -> Result<(), ReportError> {
        self.add(line)?;
        Ok(())
    }

    fn close(&mut self) {
        ArrayFormat::close(self);
    }

    fn text(&self) -> &[u8] {
        ArrayFormat::text(self)
    }
}
