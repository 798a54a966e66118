//! The objects of the format `json`.

ghost use Rattle.std.specs.Prelude.{◌≡◌, ◌++◌, IfOk, OnOk};
ghost use Rattle.redl_report.specs.Counts.{HasKindName, IsLine};
ghost use Rattle.redl_report.specs.Texts.{json_line, kind_tokens};

use crate::line::{ReportLine, Role};
use crate::text_lines::role_name;
use json::Writer;
use redl_formats::{ItemText, put_number, put_text};
use std::alloc::AllocError;

/// An object for each line, with its fields by their names.
#[derive(Drop)]
pub struct JsonLines;

impl ItemText<ReportLine> for JsonLines {
    ghost use Rattle.std.specs.Prelude.{codes};
    ghost use Rattle.redl_report.specs.Texts.{json_line};

    ghost title = { codes "json" };

    ghost piece_of = { json_line };

    fn title() -> &'static str {
        "json"
    }

    fn put(front: Vec<u8>, line: &ReportLine) -> Result<Vec<u8>, AllocError> {
        json_line(front, line)
    }
}

// The bytes, and the object of a line after them.
fn json_line(piece: Vec<u8>, line: &ReportLine) -> Result<Vec<u8>, AllocError>
    requires { IsLine line.now }
    ensures { IfOk result (λ more. more.items ≡ piece.items ++ json_line line.now) }
{
    let mut object = Writer::new(piece);
    object.begin_object()?;
    put_number(&mut object, "accept", line.accept)?;
    put_number(&mut object, "disputed", line.disputed)?;
    put_kind(&mut object, line.role)?;
    put_number(&mut object, "open", line.undecided)?;
    put_number(&mut object, "reject", line.reject)?;
    put_text(&mut object, "role", role_name(line.role).as_bytes())?;
    put_text(&mut object, "who", line.who.as_bytes())?;
    object.end_object()?;
    Ok(object.into_inner())
}

// Writes the member that is the kind that a line is about, if it is about one. `Err` means out of memory.
fn put_kind(object: &mut Writer, role: Role) -> Result<(), AllocError>
    requires { HasKindName role }
    ensures written { OnOk result (object.new.tokens ≡ object.old.tokens ++ kind_tokens role) }
    ensures before { OnOk result (object.new.before ≡ object.old.before) }
{
    match role {
        Role::Kind(kind) => put_text(object, "kind", kind.name().as_bytes()),
        Role::Reviewer | Role::Author => Ok(()),
    }
}
