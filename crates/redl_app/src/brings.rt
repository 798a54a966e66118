//! What the program brings to a call, as one word: its formats of listings and of reports, and its skin of pages.

ghost use Rattle.std.specs.Prelude.{◌≡◌, List, ℕ, All, IfOk, IsUtf8, Some};
ghost use Rattle.redl_commands.specs.Views.{writing_view};
ghost use Rattle.redl_commands.specs.Writing.{outcome_of};
ghost use Rattle.redl_commands_shown.specs.Formats.{AreFresh, IsPlaceAsked, LeavesFormats, place_named};
ghost use Rattle.redl_commands_shown.specs.List.{listed};
ghost use Rattle.redl_commands_shown.specs.Report.{reported};
ghost use Rattle.redl_formats.specs.Formats.{without_named};
ghost use Rattle.redl_inputs.specs.Asking.{files_within};
ghost use Rattle.redl_inputs.specs.Reading.{ReadsFiles};
ghost use Rattle.redl_inputs.specs.Views.{result_view};
ghost use Rattle.redl_io.specs.Limits.{journal_bytes};
ghost use Rattle.redl_lines.specs.Failures.{asked_view};
ghost use Rattle.redl_outcome.specs.Brought.{Brought, brought_by};
ghost use Rattle.redl_outcome.specs.Plans.{has_asked, plan};
ghost use Rattle.redl_page.specs.PageViews.{skin_view};
ghost use Rattle.redl_words.specs.Commands.{HasUtf8};
ghost use Rattle.redl_words.specs.Views.{command_of, onlys_view};

use crate::formats::{find_format, find_report};
use crate::plan::{format, report};
use redl_commands::Writing;
use redl_commands_list::{list_package, report_package};
use redl_io::Shelf;
use redl_lines::{Failure, Misuse};
use redl_listing::RowFormat;
use redl_page::Skin;
use redl_report::ReportFormat;
use redl_words::{Command, ListCommand, ReportCommand};
use std::alloc::Global;

/// What is brought to a call. A clause says `brought` of it, where it would have to name each member of each box.
pub(crate) trait Brings {
    /// A format of listings, as it is kept.
    type Format;

    /// A format of reports, as it is kept.
    type Report;

    // What the outcome of a call sees of it.
    ghost brought: { Self → Brought };

    // The formats of listings, and the name of each.
    ghost formats: { Self → List Self.Format };

    ghost format_title: { Self.Format → List ℕ };

    // The formats of reports, and the name of each.
    ghost reports: { Self → List Self.Report };

    ghost report_title: { Self.Report → List ℕ };

    // No format is closed or has a row or a line.
    ghost is_fresh: { Self → Type 0 };

    /// The places of the formats that the command asks for, which are there.
    fn find<'a>(&self, command: &'a Command) -> Result<FormatPlaces, Misuse<'a>>
        requires { HasUtf8 (command_of command.now) }
        ensures asked { asked_view (λ _. tt) result ≡ has_asked (brought self.now) (plan (command_of command.now)) }
        ensures format { IfOk result (λ places. IsPlaceAsked format_title (plan (command_of command.now)).format (formats self.now) places.format) }
        ensures report { IfOk result (λ places. IsPlaceAsked report_title (plan (command_of command.now)).report (reports self.now) places.report) };

    /// The skin of pages.
    fn skin(&self) -> &Skin<'_>
        ensures { skin_view result.now ≡ (brought self.now).skin };

    /// Does `list`, and takes the format at this place, which it asks for.
    fn list<'a, 'b, F: Shelf>(
        &mut self,
        alloc: Global,
        command: &'a ListCommand,
        place: usize,
        bytes: &'b [u8],
        shelf: &mut F,
    ) -> Result<Writing<'b>, Failure<'a>>
        requires name { IsUtf8 command.now.format }
        requires utf8 { All IsUtf8 command.now.journals.items }
        requires place { place_named format_title command.now.format (formats self.old) ≡ Some place }
        requires fresh { is_fresh self.old }
        ensures read { ReadsFiles F.told F.faults F.asked shelf.old shelf.new (files_within journal_bytes command.now.journals.items)
            (result_view writing_view result) (λ reader files. listed reader files (brought self.old).formats command.now.format command.now.locks.items command.now.journals.items (onlys_view command.now.only.items) bytes.now) }
        ensures formats { LeavesFormats (outcome_of (result_view writing_view result)).status
            (without_named format_title command.now.format (formats self.old)) (formats self.old) (formats self.new) }
        ensures reports { reports self.new ≡ reports self.old };

    /// Does `report`, and takes the format at this place, which it asks for.
    fn report<'a, 'b, F: Shelf>(
        &mut self,
        alloc: Global,
        command: &'a ReportCommand,
        place: usize,
        bytes: &'b [u8],
        shelf: &mut F,
    ) -> Result<Writing<'b>, Failure<'a>>
        requires utf8 { All IsUtf8 command.now.journals.items }
        requires place { place_named report_title command.now.format (reports self.old) ≡ Some place }
        requires fresh { is_fresh self.old }
        ensures read { ReadsFiles F.told F.faults F.asked shelf.old shelf.new (files_within journal_bytes command.now.journals.items)
            (result_view writing_view result) (λ reader files. reported reader files (brought self.old).reports command.now.format command.now.by_kind command.now.locks.items command.now.journals.items bytes.now) }
        ensures reports { LeavesFormats (outcome_of (result_view writing_view result)).status
            (without_named report_title command.now.format (reports self.old)) (reports self.old) (reports self.new) }
        ensures formats { formats self.new ≡ formats self.old };
}

/// Where the formats stand that a command asks for, each among those of its kind.
#[derive(Clone, Copy)]
pub(crate) struct FormatPlaces {
    /// That of listings, if it asks for one.
    pub(crate) format: Option<usize>,
    /// That of reports, if it asks for one.
    pub(crate) report: Option<usize>,
}

/// Boxed formats and a skin.
#[derive(Drop)]
pub struct Bringing<'s> {
    /// The formats of listings.
    pub formats: Vec<Box<dyn RowFormat>>,
    /// The formats of reports.
    pub reports: Vec<Box<dyn ReportFormat>>,
    /// The skin of pages.
    pub skin: Skin<'s>,
}

impl Brings for Bringing<'_> {
    type Format = Box<dyn RowFormat>;

    type Report = Box<dyn ReportFormat>;

    ghost brought = { λ b. brought_by (λ format. (RowFormat-box format).format_name format.value) (λ format. (RowFormat-box format).text_for format.value) b.formats.items
        (λ format. (ReportFormat-box format).report_name format.value) (λ format. (ReportFormat-box format).report_text format.value) b.reports.items b.skin };

    ghost formats = { λ b. b.formats.items };

    ghost format_title = { λ format. (RowFormat-box format).format_name format.value };

    ghost reports = { λ b. b.reports.items };

    ghost report_title = { λ format. (ReportFormat-box format).report_name format.value };

    ghost is_fresh = { λ b. AreFresh (λ format. (RowFormat-box format).is_closed format.value) (λ format. (RowFormat-box format).rows_so_far format.value) b.formats.items
        × AreFresh (λ format. (ReportFormat-box format).is_ended format.value) (λ format. (ReportFormat-box format).lines_so_far format.value) b.reports.items };

    fn find<'a>(&self, command: &'a Command) -> Result<FormatPlaces, Misuse<'a>> {
        Ok(FormatPlaces {
            format: find_format(format(command), &self.formats)?,
            report: find_report(report(command), &self.reports)?,
        })
    }

    fn skin(&self) -> &Skin<'_> {
        &self.skin
    }

    fn list<'a, 'b, F: Shelf>(
        &mut self,
        alloc: Global,
        command: &'a ListCommand,
        place: usize,
        bytes: &'b [u8],
        shelf: &mut F,
    ) -> Result<Writing<'b>, Failure<'a>> {
        list_package(alloc, command, bytes, shelf, &mut self.formats, place)
    }

    fn report<'a, 'b, F: Shelf>(
        &mut self,
        alloc: Global,
        command: &'a ReportCommand,
        place: usize,
        bytes: &'b [u8],
        shelf: &mut F,
    ) -> Result<Writing<'b>, Failure<'a>> {
        report_package(alloc, command, bytes, shelf, &mut self.reports, place)
    }
}
