//! Formats of reports by their names. Boxes of this crate's trait can't have a trait of another crate, so the search is here.

ghost use Rattle.std.specs.Prelude.{◌≡◌};
ghost use Rattle.std.specs.Str.{bytes_eq};
ghost use Rattle.redl_formats.specs.Formats.{first_named, without_named};

use crate::format::ReportFormat;

/// Whether the format has this name.
pub fn has_report_name(format: &Box<dyn ReportFormat>, name: &str) -> bool
    ensures { result ≡ bytes_eq (report_name format.now) name.now }
{
    format.name() == name
}

/// Takes the first format with this name out of the list.
pub(crate) fn take_named(
    formats: &mut Vec<Box<dyn ReportFormat>>,
    name: &str,
) -> Option<Box<dyn ReportFormat>>
    ensures found { result ≡ first_named (λ format. report_name format) name.now formats.old.items }
    ensures left { formats.new.items ≡ without_named (λ format. report_name format) name.now formats.old.items }
{
    for place in 0..formats.len() {
        if has_report_name(&formats[place], name) {
            return Some(formats.remove(place));
        }
    }
    None
}
