//! How a find becomes a line.

ghost use Rattle.std.specs.Prelude.{◌≡◌, IfOk, OnOk};
ghost use Rattle.redl_left.specs.declared.fact.Fact.{Fact};
ghost use Rattle.redl_left.specs.Lines.{line_of, is_same, ends_same, count_last, last_of, noted};

use crate::fact::Fact;
use crate::line::Line;
use redl_io::Text;
use std::alloc::{AllocError, Global};

// The line of one find. `Err` means out of memory.
fn line_of(alloc: Global, fact: Fact, part: &[u8], value: &[u8]) -> Result<Line, AllocError>
    ensures { IfOk result (λ line. line ≡ line_of (record { fact = fact; part = part.now; value = value.now })) }
{
    let part = Text::copy_of(alloc, part)?;
    let value = Text::copy_of(alloc, value)?;
    Ok(Line {
        fact,
        part,
        value,
        count: 1,
    })
}

// Whether a find belongs to a line of its fact.
fn is_same(line: &Line, part: &[u8], value: &[u8]) -> bool
    ensures { (fact : Fact) → result ≡ is_same line.now (record { fact = fact; part = part.now; value = value.now }) }
{
    line.part.as_bytes() == part && line.value.as_bytes() == value
}

// Whether a find belongs to the last of the lines of its fact.
fn ends_same(lines: &[Line], part: &[u8], value: &[u8]) -> bool
    ensures { (fact : Fact) → result ≡ ends_same (last_of lines.now) (record { fact = fact; part = part.now; value = value.now }) }
{
    match lines.last() {
        Some(last) => is_same(last, part, value),
        None => false,
    }
}

// Counts one find more in the last line.
fn count_last(lines: &mut Vec<Line>)
    ensures { lines.new.items ≡ count_last lines.old.items (last_of lines.old.items) }
{
    if lines.is_empty() {
        return;
    }
    let place = lines.len() - 1;
    let last = &mut lines[place];
    last.count = last.count.saturating_add(1);
}

/// Notes a find among the lines of its fact. `Err` means out of memory.
pub(crate) fn note(
    alloc: Global,
    lines: &mut Vec<Line>,
    fact: Fact,
    part: &[u8],
    value: &[u8],
) -> Result<(), AllocError>
    ensures { OnOk result (lines.new.items ≡ noted lines.old.items (record { fact = fact; part = part.now; value = value.now })) }
{
    if ends_same(lines, part, value) {
        count_last(lines);
        return Ok(());
    }
    lines.push(line_of(alloc, fact, part, value)?)?;
    Ok(())
}
