//! Reports: where each reviewer and each author of a package's revisions stands, as the text of a format that is chosen by its name.
//!
//! Read `lines` first. It counts for each reviewer what their own words come to on the revisions that they spoke of, and for
//! each author what the book decides on the author's revisions; `lines_by_kind` counts these kind by kind too.
//! `report` puts such lines into a format of a list of boxed ones. It rests on what `ReportFormat` promises, whatever boxes the
//! caller made; `TextReport`, `JsonReport` and `TableReport` are three.
//! What a book decides on a revision is left to the crates below.
//! Its tests are whole calls, in the rows of `redl_rows`.
#![tactic(auto)]

mod authors;
mod format;
mod groups;
mod json_lines;
mod kinds;
mod line;
mod line_list;
mod making;
mod named;
mod reviewers;
mod table_report;
mod text_lines;
mod totals;

pub use format::{JsonReport, ReportError, ReportFormat, TextReport};
pub use json_lines::JsonLines;
pub use line::{ReportLine, Role};
pub use line_list::{lines, lines_by_kind};
pub use making::{add_report_format, report, report_in};
pub use named::has_report_name;
pub use table_report::TableReport;
pub use text_lines::TextLines;
