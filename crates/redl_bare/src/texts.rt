//! Characters and objects, but for results that are left out.

ghost use Rattle.std.specs.Prelude.{◌∷◌, [], map};
ghost use Rattle.redl_shown.specs.Pieces.{piece_text};
ghost use Rattle.redl_shown.specs.Shown.{shown};
ghost use Rattle.redl_bare.specs.Units.{byte, object, field_texts, in_marks};
ghost use Rattle.redl_bare.specs.Inside.Puts.{PutsUnits};
ghost use Rattle.redl_bare.specs.Inside.Texts.{short_of};
ghost use Rattle.redl_bare.specs.Inside.Views.{marks_view};

use crate::clean::are_clean;
use crate::escape::put_escaped;
use crate::line::{begin, put_named};
use crate::object::Object;
use crate::starts::Short;
use crate::writer::Writer;
use redl_io::{Failed, Sink};
use redl_shown::{ShownPiece, next_shown, start};

/// Puts what bytes of a document show. It takes no memory.
pub(crate) fn put_shown_texts<'a, K: Sink>(
    bytes: &[u8],
    writer: &mut Writer<'a, K>,
) -> Result<(), Failed>
    ensures { PutsUnits K.told K.faults K.settled K.lenders writer.old writer.new (in_marks (marks_view writer.old.marks) (map byte (shown bytes.now))) result }
{
    if are_clean(bytes) {
        return put_characters(bytes, writer);
    }
    let mut here = start();
    let mut left = bytes;
    while let Some(step) = next_shown(here, left) {
        put_step(step.piece, writer)?;
        here = step.here;
        left = step.rest;
    }
    Ok(())
}

fn put_step<'a, K: Sink>(piece: ShownPiece<'_>, writer: &mut Writer<'a, K>) -> Result<(), Failed>
    ensures { PutsUnits K.told K.faults K.settled K.lenders writer.old writer.new (in_marks (marks_view writer.old.marks) (map byte (piece_text piece.entry))) result }
{
    match piece {
        ShownPiece::Nothing => put_characters(b"", writer),
        ShownPiece::Bytes(bytes) => put_characters(bytes, writer),
        ShownPiece::Character(character) => put_characters(
            character.encode_utf8(&mut [0; 4]).as_bytes(),
            writer,
        ),
    }
}

// Puts characters.
fn put_characters<'a, K: Sink>(bytes: &[u8], writer: &mut Writer<'a, K>) -> Result<(), Failed>
    ensures { PutsUnits K.told K.faults K.settled K.lenders writer.old writer.new (in_marks (marks_view writer.old.marks) (map byte bytes.now)) result }
{
    writer.fields.read(bytes);
    if bytes.is_empty() {
        return Ok(());
    }
    if writer.fields.are_silent() {
        return Ok(());
    }
    begin(writer)?;
    put_escaped(bytes, &mut writer.sink)
}

// Puts an object.
fn put_object<'a, K: Sink>(what: Object, writer: &mut Writer<'a, K>) -> Result<(), Failed>
    ensures { PutsUnits K.told K.faults K.settled K.lenders writer.old writer.new (in_marks (marks_view writer.old.marks) (object what ∷ [])) result }
{
    if !writer.fields.pass(what) {
        return Ok(());
    }
    put_named(what.name(), writer)
}

/// Puts what an element shows.
pub(crate) fn put_short<'a, K: Sink>(short: Short, writer: &mut Writer<'a, K>) -> Result<(), Failed>
    ensures { PutsUnits K.told K.faults K.settled K.lenders writer.old writer.new (in_marks (marks_view writer.old.marks) (short_of short)) result }
{
    match short {
        Short::Nothing => Ok(()),
        Short::Characters(bytes) => put_characters(bytes, writer),
        Short::One(what) => put_object(what, writer),
    }
}

/// Puts the begin of a field with this code.
pub(crate) fn put_field<'a, K: Sink>(code: &[u8], writer: &mut Writer<'a, K>) -> Result<(), Failed>
    ensures { PutsUnits K.told K.faults K.settled K.lenders writer.old writer.new (in_marks (marks_view writer.old.marks) (field_texts code.now)) result }
{
    put_object(Object::FieldBegin, writer)?;
    put_shown_texts(code, writer)?;
    put_object(Object::FieldSeparate, writer)
}
