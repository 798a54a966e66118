//! The lines of the format `text`.

ghost use Rattle.std.specs.Prelude.{◌≡◌, ◌++◌, OnOk};
ghost use Rattle.redl_report.specs.Counts.{IsLine};
ghost use Rattle.redl_report.specs.Texts.{count_column, count_columns, label_of, role_name, text_line};

use crate::line::{ReportLine, Role};
use redl_formats::{ItemText, push_left, push_number};
use redl_terminal::{Extent, push_masked};
use std::alloc::AllocError;

/// A line for each: role, counts and name in columns.
#[derive(Drop)]
pub struct TextLines;

impl ItemText<ReportLine> for TextLines {
    ghost use Rattle.std.specs.Prelude.{codes};
    ghost use Rattle.redl_report.specs.Texts.{text_line};

    ghost title = { codes "text" };

    ghost piece_of = { text_line };

    fn title() -> &'static str {
        "text"
    }

    fn put(front: Vec<u8>, line: &ReportLine) -> Result<Vec<u8>, AllocError> {
        let mut whole = front;
        push_text_line(&mut whole, line)?;
        Ok(whole)
    }
}

/// The name of a role.
pub(crate) fn role_name(role: Role) -> &'static str
    ensures { result.now ≡ role_name role }
{
    match role {
        Role::Reviewer => "reviewer",
        Role::Author => "author",
        Role::Kind(_) => "kind",
    }
}

/// What a line ends with for a reader.
pub(crate) fn label(line: &ReportLine) -> &[u8]
    requires { IsLine line.now }
    ensures { result.now ≡ label_of line.now.role line.now.who }
{
    match line.role {
        Role::Kind(kind) => kind.name().as_bytes(),
        Role::Reviewer | Role::Author => line.who.as_bytes(),
    }
}

// Adds the line's text. `Err` means out of memory.
#[tactic(auto, unfolding(crate::specs::Texts::text_line))]
fn push_text_line(text: &mut Vec<u8>, line: &ReportLine) -> Result<(), AllocError>
    requires { IsLine line.now }
    ensures { OnOk result (text.new.items ≡ text.old.items ++ text_line line.now) }
{
    push_left(text, role_name(line.role).as_bytes(), 8)?;
    text.push(b' ')?;
    push_counts(text, line)?;
    push_masked(text, Extent::Field, label(line))?;
    text.push(b'\n')?;
    Ok(())
}

// Adds the four counts, each with a space after it. `Err` means out of memory.
#[tactic(auto, unfolding(crate::specs::Texts::count_columns))]
fn push_counts(text: &mut Vec<u8>, line: &ReportLine) -> Result<(), AllocError>
    ensures { OnOk result (text.new.items ≡ text.old.items ++ count_columns line.now) }
{
    push_count(text, line.accept)?;
    push_count(text, line.reject)?;
    push_count(text, line.disputed)?;
    push_count(text, line.undecided)?;
    Ok(())
}

// Adds a count, with a space after it. `Err` means out of memory.
fn push_count(text: &mut Vec<u8>, count: u32) -> Result<(), AllocError>
    ensures { OnOk result (text.new.items ≡ text.old.items ++ count_column count) }
{
    push_number(text, count, 7)?;
    text.push(b' ')?;
    Ok(())
}
