//! Making a report in a format.

ghost use Rattle.std.specs.Prelude.{◌≡◌, ◌++◌, ◌∷◌, [], All, Bool, List, true, false, IfOk, OnOk, OnErr};
ghost use Rattle.redl_formats.specs.Formats.{first_named, without_named, IsListed};
ghost use Rattle.redl_report.specs.Counts.{IsLine};
ghost use Rattle.redl_report.specs.declared.line.ReportLine.{ReportLine};

use crate::format::{ReportError, ReportFormat};
use crate::line::ReportLine;
use crate::named::take_named;
use std::alloc::AllocError;

/// Adds a format after the others. None of them is closed or has a line. `Err` means out of memory.
pub fn add_report_format(
    formats: &mut Vec<Box<dyn ReportFormat>>,
    format: Box<dyn ReportFormat>,
) -> Result<(), AllocError>
    requires fresh { (is_ended format ≡ false) × (lines_so_far format ≡ []) }
    requires others { All (λ format. (is_ended format ≡ false) × (lines_so_far format ≡ [])) formats.old.items }
    ensures added { OnOk result (formats.new.items ≡ formats.old.items ++ format ∷ []) }
    ensures kept { OnErr result (formats.new.items ≡ formats.old.items) }
    ensures fresh { All (λ format. (is_ended format ≡ false) × (lines_so_far format ≡ [])) formats.new.items }
{
    formats.push(format)?;
    Ok(())
}

/// Makes the report with these lines in the format with this name, and says whether there is one.
///
/// It takes the first format with the name out of the list, gives it the lines in their order, closes it, sets `made` to its
/// text, and drops it. `Ok(false)` comes exactly where no format has the name, and then nothing changes. `Err` means out of
/// memory: the format is gone, and `made` is empty.
///
/// `made` is empty at the call, the name of each line is UTF-8, and no format in the list is closed or has a line.
pub fn report(
    formats: &mut Vec<Box<dyn ReportFormat>>,
    name: &str,
    lines: &[ReportLine],
    made: &mut Vec<u8>,
) -> Result<bool, AllocError>
    requires empty { made.old.items ≡ [] }
    requires names { All IsLine lines.now }
    requires fresh { All (λ format. (is_ended format ≡ false) × (lines_so_far format ≡ [])) formats.old.items }

    // The first format with the name made the text of all lines, or there is none.
    ensures made { IfOk result (λ found. IsListed
        (first_named (λ format. report_name format) name.now formats.old.items)
        (λ format. report_text format lines.now true)
        found made.new.items) }
    ensures unmade { OnErr result (made.new.items ≡ []) }

    // The list has lost that one format and no other.
    ensures taken { formats.new.items ≡ without_named (λ format. report_name format) name.now formats.old.items }
    ensures unchanged { IfOk result (λ found. found ≡ false → formats.new.items ≡ formats.old.items) }
{
    let Some(format) = take_named(formats, name) else {
        return Ok(false);
    };
    report_in(format, lines, made)?;
    Ok(true)
}

/// Makes the report with these lines in this format, which goes. `Err` means out of memory, and `made` is empty.
pub fn report_in(
    format: Box<dyn ReportFormat>,
    lines: &[ReportLine],
    made: &mut Vec<u8>,
) -> Result<(), AllocError>
    requires empty { made.old.items ≡ [] }
    requires names { All IsLine lines.now }
    requires fresh { (is_ended format ≡ false) × (lines_so_far format ≡ []) }
    ensures made { OnOk result (made.new.items ≡ report_text format lines.now true) }
    ensures unmade { OnErr result (made.new.items ≡ []) }
{
    let mut format = format;
    add_lines(&mut format, lines)?;
    finish(&mut format, made)?;
    Ok(())
}

// Gives the format the lines. `Err` means out of memory.
fn add_lines(format: &mut Box<dyn ReportFormat>, lines: &[ReportLine]) -> Result<(), AllocError>
    requires names { All IsLine lines.now }
    requires open { is_ended format.old ≡ false }
    ensures lines { OnOk result (lines_so_far format.new ≡ lines_so_far format.old ++ lines.now) }
    ensures open { OnOk result (is_ended format.new ≡ false) }
    ensures same_format { OnOk result ((lines : List ReportLine) → report_text format.new lines true ≡ report_text format.old lines true) }
{
    for line in lines {
        add_line(format, line)?;
    }
    Ok(())
}

fn add_line(format: &mut Box<dyn ReportFormat>, line: &ReportLine) -> Result<(), AllocError>
    requires open { is_ended format.old ≡ false }
    requires line { IsLine line.now }
    ensures taken { OnOk result (lines_so_far format.new ≡ lines_so_far format.old ++ line.now ∷ []) }
    ensures open { is_ended format.new ≡ false }
    ensures same_format { (lines : List ReportLine) (closed : Bool) → report_text format.new lines closed ≡ report_text format.old lines closed }
{
    match format.line(line) {
        Ok(()) => Ok(()),
        Err(ReportError) => Err(AllocError),
    }
}

// Closes the format, and adds its text to what was made. `Err` means out of memory.
fn finish(format: &mut Box<dyn ReportFormat>, made: &mut Vec<u8>) -> Result<(), AllocError>
    requires { is_ended format.old ≡ false }
    ensures text { OnOk result (made.new.items ≡ made.old.items ++ report_text format.old (lines_so_far format.old) true) }
    ensures unmade { OnErr result (made.new.items ≡ made.old.items) }
{
    format.close();
    made.extend_from_slice(format.text())
}
