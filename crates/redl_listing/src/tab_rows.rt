//! The lines of the format `tab`.

ghost use Rattle.std.specs.Prelude.{◌≡◌, ◌++◌, OnOk};
ghost use Rattle.redl_listing.specs.Rows.{IsRow};
ghost use Rattle.redl_listing.specs.Texts.{decided_fields, named_fields, tab_row};

use crate::row::Row;
use redl_formats::{ItemText, push_date, push_escaped, push_number, verdict_name};
use std::alloc::AllocError;

/// A line for each row: number, kind, verdict, date, members, part and author with tabs between.
#[derive(Drop)]
pub struct TabRows;

impl ItemText<Row> for TabRows {
    ghost use Rattle.std.specs.Prelude.{codes};
    ghost use Rattle.redl_listing.specs.Texts.{tab_row};

    ghost title = { codes "tab" };

    ghost piece_of = { tab_row };

    fn title() -> &'static str {
        "tab"
    }

    fn put(front: Vec<u8>, row: &Row) -> Result<Vec<u8>, AllocError> {
        let mut whole = front;
        push_tab_row(&mut whole, row)?;
        Ok(whole)
    }
}

// Adds the line of a row. `Err` means out of memory.
#[tactic(auto, unfolding(crate::specs::Texts::tab_row))]
fn push_tab_row(line: &mut Vec<u8>, row: &Row) -> Result<(), AllocError>
    requires { IsRow row.now }
    ensures { OnOk result (line.new.items ≡ line.old.items ++ tab_row row.now) }
{
    push_decided_fields(line, row)?;
    push_number(line, row.members, 0)?;
    line.push(b'\t')?;
    push_escaped(line, row.part.as_bytes())?;
    line.push(b'\t')?;
    push_escaped(line, row.author.as_bytes())?;
    line.push(b'\n')?;
    Ok(())
}

// Adds the fields before the members, each with a tab after it. `Err` means out of memory.
#[tactic(auto, unfolding(crate::specs::Texts::decided_fields))]
fn push_decided_fields(line: &mut Vec<u8>, row: &Row) -> Result<(), AllocError>
    requires { IsRow row.now }
    ensures { OnOk result (line.new.items ≡ line.old.items ++ decided_fields row.now) }
{
    push_named_fields(line, row)?;
    line.extend_from_slice(verdict_name(row.verdict).as_bytes())?;
    line.push(b'\t')?;
    push_date(line, row.seconds, 0)?;
    line.push(b'\t')?;
    Ok(())
}

// Adds the number and the kind, each with a tab after it. `Err` means out of memory.
#[tactic(auto, unfolding(crate::specs::Texts::named_fields))]
fn push_named_fields(line: &mut Vec<u8>, row: &Row) -> Result<(), AllocError>
    requires { IsRow row.now }
    ensures { OnOk result (line.new.items ≡ line.old.items ++ named_fields row.now) }
{
    push_number(line, row.number, 0)?;
    line.push(b'\t')?;
    line.extend_from_slice(row.kind.name().as_bytes())?;
    line.push(b'\t')?;
    Ok(())
}
