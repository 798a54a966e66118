//! The lines of the format `text`.

ghost use Rattle.std.specs.Prelude.{◌≡◌, ◌++◌, OnOk};
ghost use Rattle.redl_listing.specs.Rows.{IsRow};
ghost use Rattle.redl_listing.specs.Texts.{decided_columns, text_row};

use crate::row::Row;
use redl_formats::{ItemText, push_date, push_left, push_number, verdict_name};
use redl_terminal::{Extent, push_masked};
use std::alloc::AllocError;

/// A line for each row: number, kind, verdict, date and author in columns.
#[derive(Drop)]
pub struct TextRows;

impl ItemText<Row> for TextRows {
    ghost use Rattle.std.specs.Prelude.{codes};
    ghost use Rattle.redl_listing.specs.Texts.{text_row};

    ghost title = { codes "text" };

    ghost piece_of = { text_row };

    fn title() -> &'static str {
        "text"
    }

    fn put(front: Vec<u8>, row: &Row) -> Result<Vec<u8>, AllocError> {
        let mut whole = front;
        push_text_row(&mut whole, row)?;
        Ok(whole)
    }
}

// Adds the line of a row. `Err` means out of memory.
#[tactic(auto, unfolding(crate::specs::Texts::text_row))]
fn push_text_row(line: &mut Vec<u8>, row: &Row) -> Result<(), AllocError>
    requires { IsRow row.now }
    ensures { OnOk result (line.new.items ≡ line.old.items ++ text_row row.now) }
{
    push_decided_columns(line, row)?;
    push_date(line, row.seconds, 20)?;
    line.push(b' ')?;
    push_masked(line, Extent::Field, row.author.as_bytes())?;
    line.push(b'\n')?;
    Ok(())
}

/// Adds the columns before the date, each with a space after it. `Err` means out of memory.
#[tactic(auto, unfolding(crate::specs::Texts::decided_columns))]
pub(crate) fn push_decided_columns(line: &mut Vec<u8>, row: &Row) -> Result<(), AllocError>
    requires { IsRow row.now }
    ensures { OnOk result (line.new.items ≡ line.old.items ++ decided_columns row.now) }
{
    push_number(line, row.number, 7)?;
    line.push(b' ')?;
    push_left(line, row.kind.name().as_bytes(), 12)?;
    line.push(b' ')?;
    push_left(line, verdict_name(row.verdict).as_bytes(), 8)?;
    line.push(b' ')?;
    Ok(())
}
