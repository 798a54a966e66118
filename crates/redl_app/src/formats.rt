//! The format that a command asks for, of listings or of reports. It is looked up here, before any file is read, and taken at its
//! place once all is known.

ghost use Rattle.std.specs.Prelude.{◌≡◌, IfOk};
ghost use Rattle.std.specs.Option.{option_copied};
ghost use Rattle.redl_commands_shown.specs.Formats.{IsPlaceAsked, formats_by, has_format, place_named};
ghost use Rattle.redl_lines.specs.Failures.{asked_view};

use redl_lines::Misuse;
use redl_listing::{RowFormat, has_name};
use redl_report::{ReportFormat, has_report_name};

/// The place of the format of this name, if one is asked for.
pub(crate) fn find_format<'a>(
    asked: Option<&'a str>,
    formats: &[Box<dyn RowFormat>],
) -> Result<Option<usize>, Misuse<'a>>
    ensures there { asked_view (λ _. tt) result ≡ has_format (formats_by format_name text_for formats.now) (option_copied asked.entry) }
    ensures place { IfOk result (λ place. IsPlaceAsked format_name (option_copied asked.entry) formats.now place) }
{
    let Some(name) = asked else {
        return Ok(None);
    };
    match place_of(name, formats) {
        Some(place) => Ok(Some(place)),
        None => Err(Misuse::NoFormat(name)),
    }
}

// The place of the first format with this name.
fn place_of(name: &str, formats: &[Box<dyn RowFormat>]) -> Option<usize>
    ensures { result ≡ place_named format_name name.now formats.now }
{
    for place in 0..formats.len() {
        if has_name(&formats[place], name) {
            return Some(place);
        }
    }
    None
}

/// The place of the format of reports of this name, if one is asked for.
pub(crate) fn find_report<'a>(
    asked: Option<&'a str>,
    reports: &[Box<dyn ReportFormat>],
) -> Result<Option<usize>, Misuse<'a>>
    ensures there { asked_view (λ _. tt) result ≡ has_format (formats_by report_name report_text reports.now) (option_copied asked.entry) }
    ensures place { IfOk result (λ place. IsPlaceAsked report_name (option_copied asked.entry) reports.now place) }
{
    let Some(name) = asked else {
        return Ok(None);
    };
    match place_of_report(name, reports) {
        Some(place) => Ok(Some(place)),
        None => Err(Misuse::NoFormat(name)),
    }
}

// The place of the first format of reports with this name.
fn place_of_report(name: &str, reports: &[Box<dyn ReportFormat>]) -> Option<usize>
    ensures { result ≡ place_named report_name name.now reports.now }
{
    for place in 0..reports.len() {
        if has_report_name(&reports[place], name) {
            return Some(place);
        }
    }
    None
}
