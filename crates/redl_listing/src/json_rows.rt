//! The objects of the format `json`.

ghost use Rattle.std.specs.Prelude.{◌≡◌, ◌++◌, IfOk};
ghost use Rattle.redl_listing.specs.Rows.{IsRow};
ghost use Rattle.redl_listing.specs.Texts.{json_row};

use crate::row::Row;
use json::Writer;
use redl_formats::{ItemText, put_date, put_number, put_text, verdict_name};
use std::alloc::AllocError;

/// An object for each row, with its fields by their names.
#[derive(Drop)]
pub struct JsonRows;

impl ItemText<Row> for JsonRows {
    ghost use Rattle.std.specs.Prelude.{codes};
    ghost use Rattle.redl_listing.specs.Texts.{json_row};

    ghost title = { codes "json" };

    ghost piece_of = { json_row };

    fn title() -> &'static str {
        "json"
    }

    fn put(front: Vec<u8>, row: &Row) -> Result<Vec<u8>, AllocError> {
        json_row(front, row)
    }
}

// The bytes, and the object of a row after them.
fn json_row(piece: Vec<u8>, row: &Row) -> Result<Vec<u8>, AllocError>
    requires { IsRow row.now }
    ensures { IfOk result (λ more. more.items ≡ piece.items ++ json_row row.now) }
{
    let mut object = Writer::new(piece);
    object.begin_object()?;
    put_text(&mut object, "author", row.author.as_bytes())?;
    put_date(&mut object, row.seconds)?;
    put_text(&mut object, "kind", row.kind.name().as_bytes())?;
    put_number(&mut object, "members", row.members)?;
    put_number(&mut object, "number", row.number)?;
    put_text(&mut object, "part", row.part.as_bytes())?;
    put_text(&mut object, "verdict", verdict_name(row.verdict).as_bytes())?;
    object.end_object()?;
    Ok(object.into_inner())
}
