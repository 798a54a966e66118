//! The text for a desk.

ghost use Rattle.std.specs.Prelude.{◌≡◌, ◌++◌, IfOk, OnOk};
ghost use Rattle.redl_left_texts.specs.Texts.{text_line, told, left_text};

use redl_formats::{push_left, push_number};
use redl_left::Line;
use redl_terminal::{Extent, push_masked};
use std::alloc::{AllocError, Global};

/// A line of text for each line: its fact, its count, its part, and what is told. `Err` means out of memory.
pub fn text_of(alloc: Global, lines: &[Line]) -> Result<Vec<u8>, AllocError>
    ensures { IfOk result (λ text. text.items ≡ left_text lines.now) }
{
    let mut text = Vec::new(alloc);
    for line in lines {
        push_line(&mut text, line)?;
    }
    Ok(text)
}

// Adds the text of a line. `Err` means out of memory.
#[tactic(auto, unfolding(crate::specs::Texts::text_line))]
fn push_line(text: &mut Vec<u8>, line: &Line) -> Result<(), AllocError>
    ensures { OnOk result (text.new.items ≡ text.old.items ++ text_line line.now) }
{
    push_left(text, line.fact.name().as_bytes(), 15)?;
    text.push(b' ')?;
    push_number(text, line.count, 7)?;
    text.push(b' ')?;
    push_masked(text, Extent::Field, line.part.as_bytes())?;
    push_told(text, line.value.as_bytes())?;
    text.push(b'\n')?;
    Ok(())
}

// Adds what is told, after a colon. `Err` means out of memory.
fn push_told(text: &mut Vec<u8>, value: &[u8]) -> Result<(), AllocError>
    ensures { OnOk result (text.new.items ≡ text.old.items ++ told value.now) }
{
    if value.is_empty() {
        return Ok(());
    }
    text.extend_from_slice(b": ")?;
    push_masked(text, Extent::Field, value)
}
