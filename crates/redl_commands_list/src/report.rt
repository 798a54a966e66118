//! `report P` with a format, journals and locks.

ghost use Rattle.std.specs.Prelude.{◌≡◌, ◌<◌, length, remove, slice_get, true, Some, All, IfOk, IsUtf8};
ghost use Rattle.redl_commands_shown.specs.Report.{report_named, reported, session_lines};
ghost use Rattle.redl_commands_shown.specs.Formats.{AreFresh, LeavesFormats, formats_by, place_named};
ghost use Rattle.redl_commands.specs.Views.{writing_view};
ghost use Rattle.redl_commands.specs.Writing.{outcome_of};
ghost use Rattle.redl_inputs.specs.Asking.{files_within};
ghost use Rattle.redl_inputs.specs.Reading.{Reads, ReadsFiles};
ghost use Rattle.redl_inputs.specs.Views.{admission_view, result_view};
ghost use Rattle.redl_io.specs.Limits.{journal_bytes};
ghost use Rattle.redl_formats.specs.Formats.{IsListed, without_named};
ghost use Rattle.redl_report.specs.Counts.{IsLine};

use redl_commands::{Output, Writing};
use redl_inputs::{Admitted, open};
use redl_io::Shelf;
use redl_lines::Failure;
use redl_report::{ReportFormat, ReportLine, lines, lines_by_kind, report_in};
use redl_session::Session;
use redl_words::ReportCommand;
use std::alloc::{AllocError, Global};

/// The report that the command asks for, on the package with this text, under its journals: in the format of reports at this
/// place, which is the first one that has the name. It takes that format out of the list.
pub fn report_package<'a, 'b, F: Shelf>(
    alloc: Global,
    command: &'a ReportCommand,
    bytes: &'b [u8],
    shelf: &mut F,
    reports: &mut Vec<Box<dyn ReportFormat>>,
    place: usize,
) -> Result<Writing<'b>, Failure<'a>>
    requires utf8 { All IsUtf8 command.now.journals.items }
    requires place { place_named report_name command.now.format reports.old.items ≡ Some place }
    requires fresh { AreFresh is_ended lines_so_far reports.old.items }
    ensures read { ReadsFiles F.told F.faults F.asked shelf.old shelf.new (files_within journal_bytes command.now.journals.items)
        (result_view writing_view result) (λ reader files. reported reader files (formats_by report_name report_text reports.old.items) command.now.format command.now.by_kind command.now.locks.items command.now.journals.items bytes.now) }
    ensures reports { LeavesFormats (outcome_of (result_view writing_view result)).status
        (without_named report_name command.now.format reports.old.items) reports.old.items reports.new.items }
{
    let admitted = open(alloc, &command.locks, &command.journals, bytes, shelf)?;
    report_session(alloc, command, admitted, reports, place)
}

// The report on a session.
fn report_session<'a, 'b>(
    alloc: Global,
    command: &'a ReportCommand,
    admitted: Admitted<'b>,
    reports: &mut Vec<Box<dyn ReportFormat>>,
    place: usize,
) -> Result<Writing<'b>, Failure<'a>>
    requires place { place_named report_name command.now.format reports.old.items ≡ Some place }
    requires fresh { AreFresh is_ended lines_so_far reports.old.items }
    ensures read { Reads (result_view writing_view result) (λ reader. report_named
        (formats_by report_name report_text reports.old.items) command.now.format command.now.by_kind (admission_view admitted.entry)) }
    ensures reports { LeavesFormats (outcome_of (result_view writing_view result)).status
        (without_named report_name command.now.format reports.old.items) reports.old.items reports.new.items }
{
    let Admitted {
        session,
        remarks,
        ..
    } = admitted;
    let lines = session_lines(alloc, command.by_kind, session)?;
    let made = make_report(alloc, &lines, reports, place)?;
    Ok(Writing {
        output: Output::Listing(made),
        remarks,
    })
}

// The report with these lines, in the format at this place, which it takes.
fn make_report(
    alloc: Global,
    lines: &[ReportLine],
    reports: &mut Vec<Box<dyn ReportFormat>>,
    place: usize,
) -> Result<Vec<u8>, AllocError>
    requires names { All IsLine lines.now }
    requires within { place < length reports.old.items }
    requires fresh { AreFresh is_ended lines_so_far reports.old.items }
    ensures made { IfOk result (λ made. IsListed (slice_get reports.old.items place) (λ format. report_text format lines.now true) true made.items) }
    ensures taken { reports.new.items ≡ remove reports.old.items place }
{
    let format = reports.remove(place);
    let mut made = Vec::new(alloc);
    report_in(format, lines, &mut made)?;
    Ok(made)
}

// The lines of a session, with those of kinds or without. The session goes.
fn session_lines(
    alloc: Global,
    by_kind: bool,
    session: Session,
) -> Result<Vec<ReportLine>, AllocError>
    ensures lines { IfOk result (λ lines. lines.items ≡ session_lines by_kind session.entry) }
    ensures names { IfOk result (λ lines. All IsLine lines.items) }
{
    if by_kind {
        lines_by_kind(alloc, session.index(), session.book())
    } else {
        lines(alloc, session.index(), session.book())
    }
}
