//! The objects of the format `full`.

ghost use Rattle.std.specs.Prelude.{◌≡◌, ◌++◌, ◌∷◌, All, IfOk, IfSome, OnOk, [], codes};
ghost use Rattle.std.specs.List.{flat_map};
ghost use Rattle.std.specs.Str.{IsUtf8};
ghost use Rattle.json.specs.Token.{begin_array as begin_array_token, end_array as end_array_token, key as key_token};
ghost use Rattle.redl_listing.specs.Rows.{IsRow};
ghost use Rattle.redl_listing.specs.Full.{behind_tokens, clause_tokens, fact_tokens, front_tokens, full_row, id_token, said_tokens};

use crate::changed_rows::{put_changed, put_more};
use crate::remark_rows::put_remarks;
use crate::row::Row;
use json::Writer;
use redl_excerpts::LastWord;
use redl_formats::{ItemText, put_date, put_number, put_text, verdict_name, word_name};
use redl_io::Text;
use redl_places::text_of;
use std::alloc::AllocError;

/// An object for each row, with its fields and its detail by their names.
#[derive(Drop)]
pub struct FullRows;

impl ItemText<Row> for FullRows {
    ghost use Rattle.std.specs.Prelude.{codes};
    ghost use Rattle.redl_listing.specs.Full.{full_row};

    ghost title = { codes "full" };

    ghost piece_of = { full_row };

    fn title() -> &'static str {
        "full"
    }

    fn put(front: Vec<u8>, row: &Row) -> Result<Vec<u8>, AllocError> {
        full_row(front, row)
    }
}

// The bytes, and the object of a row after them.
fn full_row(piece: Vec<u8>, row: &Row) -> Result<Vec<u8>, AllocError>
    requires { IsRow row.now }
    ensures { IfOk result (λ more. more.items ≡ piece.items ++ full_row row.now) }
{
    let place = text_of(*piece.allocator(), row.detail.place)?;
    let mut object = Writer::new(piece);
    object.begin_object()?;
    put_front(&mut object, row)?;
    put_text(&mut object, "place", place.as_bytes())?;
    put_says(&mut object, row.detail.says.words())?;
    put_text(&mut object, "verdict", verdict_name(row.verdict).as_bytes())?;
    put_text(&mut object, "words", row.detail.words.as_bytes())?;
    object.end_object()?;
    Ok(object.into_inner())
}

// Writes the members before the place. `Err` means out of memory.
fn put_front(object: &mut Writer, row: &Row) -> Result<(), AllocError>
    requires { IsRow row.now }
    ensures written { OnOk result (object.new.tokens ≡ object.old.tokens ++ front_tokens row.now) }
    ensures before { OnOk result (object.new.before ≡ object.old.before) }
{
    put_text(object, "after", row.detail.after.as_bytes())?;
    put_text(object, "author", row.author.as_bytes())?;
    put_text(object, "before", row.detail.before.as_bytes())?;
    put_changed(object, row.detail.changed.changes.list())?;
    put_clause(object, row)?;
    put_remarks(object, &row.detail.remarks)?;
    put_behind(object, row)?;
    Ok(())
}

// Writes the members between the changed properties and the comments. `Err` means out of memory.
fn put_clause(object: &mut Writer, row: &Row) -> Result<(), AllocError>
    requires { IsRow row.now }
    ensures written { OnOk result (object.new.tokens ≡ object.old.tokens ++ clause_tokens row.now) }
    ensures before { OnOk result (object.new.before ≡ object.old.before) }
{
    put_more(object, row.detail.changed.more)?;
    put_if_any(object, "clause", &row.detail.clause)
}

// Writes the members between the comments and the place. `Err` means out of memory.
fn put_behind(object: &mut Writer, row: &Row) -> Result<(), AllocError>
    requires { IsRow row.now }
    ensures written { OnOk result (object.new.tokens ≡ object.old.tokens ++ behind_tokens row.now) }
    ensures before { OnOk result (object.new.before ≡ object.old.before) }
{
    put_facts(object, row)?;
    put_if_any(object, "id", &row.detail.id)?;
    put_text(object, "kind", row.kind.name().as_bytes())?;
    put_number(object, "members", row.members)?;
    put_number(object, "number", row.number)?;
    put_text(object, "part", row.part.as_bytes())?;
    Ok(())
}

// Writes the date, the number of the edit, and whether the revision is hidden. `Err` means out of memory.
fn put_facts(object: &mut Writer, row: &Row) -> Result<(), AllocError>
    requires { IsRow row.now }
    ensures written { OnOk result (object.new.tokens ≡ object.old.tokens ++ fact_tokens row.now) }
    ensures before { OnOk result (object.new.before ≡ object.old.before) }
{
    put_date(object, row.seconds)?;
    put_number(object, "edit", row.detail.edit)?;
    object.key("hidden")?;
    object.boolean(row.detail.hidden)?;
    Ok(())
}

// Writes a member that is a text, or null without one. `Err` means out of memory.
fn put_if_any(object: &mut Writer, name: &str, text: &Option<Text>) -> Result<(), AllocError>
    requires { IfSome text.now IsUtf8 }
    ensures written { OnOk result (object.new.tokens ≡ object.old.tokens ++ key_token name.now ∷ id_token text.now ∷ []) }
    ensures before { OnOk result (object.new.before ≡ object.old.before) }
{
    match text {
        Some(text) => put_text(object, name, text.as_bytes()),
        None => {
            object.key(name)?;
            object.null()
        }
    }
}

// Writes the member that says who said what. `Err` means out of memory.
fn put_says(object: &mut Writer, says: &[LastWord]) -> Result<(), AllocError>
    requires { All (λ said. IsUtf8 said.reviewer) says.now }
    ensures written { OnOk result (object.new.tokens
        ≡ object.old.tokens ++ key_token (codes "says") ∷ begin_array_token ∷ (flat_map said_tokens says.now ++ end_array_token ∷ [])) }
    ensures before { OnOk result (object.new.before ≡ object.old.before) }
{
    object.key("says")?;
    object.begin_array()?;
    put_each(object, says)?;
    object.end_array()?;
    Ok(())
}

// Writes an object for each last word. `Err` means out of memory.
fn put_each(object: &mut Writer, says: &[LastWord]) -> Result<(), AllocError>
    requires { All (λ said. IsUtf8 said.reviewer) says.now }
    ensures written { OnOk result (object.new.tokens ≡ object.old.tokens ++ flat_map said_tokens says.now) }
    ensures before { OnOk result (object.new.before ≡ object.old.before) }
{
    for said in says {
        put_said(object, said)?;
    }
    Ok(())
}

// Writes the object of a last word. `Err` means out of memory.
fn put_said(object: &mut Writer, said: &LastWord) -> Result<(), AllocError>
    requires { IsUtf8 said.now.reviewer }
    ensures written { OnOk result (object.new.tokens ≡ object.old.tokens ++ said_tokens said.now) }
    ensures before { OnOk result (object.new.before ≡ object.old.before) }
{
    object.begin_object()?;
    put_text(object, "reviewer", said.reviewer.as_bytes())?;
    put_text(object, "word", word_name(said.word).as_bytes())?;
    object.end_object()?;
    Ok(())
}
