//! The text for programs.

ghost use Rattle.std.specs.Prelude.{◌≡◌, ◌++◌, IfOk, OnOk};
ghost use Rattle.std.specs.Str.{IsUtf8};
ghost use Rattle.redl_left_texts.specs.Texts.{comma_at, json_line, left_json, text_or_nothing};

use json::Writer;
use redl_formats::{put_number, put_text};
use redl_left::Line;
use std::alloc::{AllocError, Global};

/// An array with an object for each line. `Err` means out of memory.
pub fn json_of(alloc: Global, lines: &[Line]) -> Result<Vec<u8>, AllocError>
    ensures { IfOk result (λ text. text.items ≡ left_json lines.now) }
{
    let mut text = Vec::from_slice(alloc, b"[")?;
    for (place, line) in lines.iter().enumerate() {
        text = put_line(text, place, line)?;
    }
    text.extend_from_slice(b"]\n")?;
    Ok(text)
}

// The bytes, and the object of the line at this place, after a comma where it isn't the first. `Err` means out of memory.
fn put_line(text: Vec<u8>, place: usize, line: &Line) -> Result<Vec<u8>, AllocError>
    ensures { IfOk result (λ more. more.items ≡ text.items ++ (comma_at place ++ json_line line.now)) }
{
    let mut front = text;
    if place != 0 {
        front.push(b',')?;
    }
    json_line(front, line)
}

// The bytes, where they are UTF-8, and else nothing.
fn text_or_nothing(bytes: &[u8]) -> &[u8]
    ensures value { result.now ≡ text_or_nothing bytes.now }
    ensures utf8 { IsUtf8 result.now }
{
    match str::from_utf8(bytes) {
        Ok(_) => bytes,
        Err(_) => b"",
    }
}

// The bytes, and the object of a line after them. `Err` means out of memory.
fn json_line(front: Vec<u8>, line: &Line) -> Result<Vec<u8>, AllocError>
    ensures { IfOk result (λ more. more.items ≡ front.items ++ json_line line.now) }
{
    let mut object = Writer::new(front);
    object.begin_object()?;
    put_number(&mut object, "count", line.count)?;
    put_text(&mut object, "fact", line.fact.name().as_bytes())?;
    put_text(&mut object, "part", text_or_nothing(line.part.as_bytes()))?;
    put_text(&mut object, "value", text_or_nothing(line.value.as_bytes()))?;
    object.end_object()?;
    Ok(object.into_inner())
}
