//! A level of a list.

ghost use Rattle.std.specs.Prelude.{◌≡◌, [], IfOk, codes, unwrap_or};
ghost use Rattle.redl_reading.specs.Steps.{Gives};
ghost use Rattle.redl_lists.specs.Levels.{format_element, format_said, level_of, short, text_said};
ghost use Rattle.redl_lists.specs.Named.{first_named};
ghost use Rattle.redl_lists.specs.Parts.{part_element};

use crate::part::Part;
use crate::value::{is_attribute_on, is_on, kid_number, kid_value, value_at};
use redl_io::Text;
use redl_numerals::{Format, Number, read_format};
use std::alloc::{AllocError, Global};

// How many bytes a level's text has at most, and the examples of a form.
const LONGEST: usize = 200;

const LONGEST_EXAMPLES: usize = 50;

/// What a level of a list says.
#[derive(Drop)]
pub struct Level {
    /// Where it begins.
    pub start: Option<Number>,
    /// After which level it begins again.
    pub restart: Option<Number>,
    /// The form of its numbers.
    pub format: Format,
    /// Whether all numbers in it are decimal.
    pub is_legal: bool,
    /// Its text, with places for numbers.
    pub text: Text,
    /// The style whose paragraphs it numbers.
    pub style: Option<Text>,
    /// Whether a picture stands in place of its text.
    pub has_picture: bool,
}

impl Level {
    /// What an element says. `Err` means out of memory.
    pub(crate) fn read(alloc: Global, part: &Part<'_, '_>) -> Result<Level, AllocError>
        ensures { IfOk result (λ level. level ≡ level_of (part_element part.now)) }
    {
        Ok(Level {
            start: kid_number(alloc, part, b"start")?,
            restart: kid_number(alloc, part, b"lvlRestart")?,
            format: format_in(alloc, part)?,
            is_legal: is_on(alloc, part, b"isLgl")?,
            text: text_in(alloc, part)?,
            style: kid_value(alloc, part, b"pStyle")?,
            has_picture: part.first_named(b"lvlPicBulletId").is_some(),
        })
    }
}

// The element that says the form: its own, or the first one below it.
fn format_part<'n, 'a>(part: &Part<'n, 'a>) -> Option<Part<'n, 'a>>
    ensures { Gives part_element result (format_element (part_element part.now).kids) }
{
    match part.first_named(b"numFmt") {
        Some(own) => Some(own),
        None => part.first_within(b"numFmt"),
    }
}

fn format_in(alloc: Global, part: &Part<'_, '_>) -> Result<Format, AllocError>
    ensures { IfOk result (λ format. format ≡ format_said (format_element (part_element part.now).kids)) }
{
    match format_part(part) {
        Some(said) => format_of(alloc, &said),
        None => Ok(Format::Decimal),
    }
}

fn format_of(alloc: Global, said: &Part<'_, '_>) -> Result<Format, AllocError>
    ensures { IfOk result (λ format. format ≡ format_said (Some (part_element said.now))) }
{
    let name = text_or_nothing(alloc, value_at(alloc, said, b"val")?)?;
    let examples = text_or_nothing(alloc, value_at(alloc, said, b"format")?)?;
    let examples = short(alloc, examples, LONGEST_EXAMPLES)?;
    Ok(read_format(name.as_bytes(), examples.as_bytes()))
}

fn text_or_nothing(alloc: Global, text: Option<Text>) -> Result<Text, AllocError>
    ensures { IfOk result (λ whole. whole ≡ unwrap_or text []) }
{
    match text {
        Some(text) => Ok(text),
        None => Text::copy_of(alloc, b""),
    }
}

fn text_in(alloc: Global, part: &Part<'_, '_>) -> Result<Text, AllocError>
    ensures { IfOk result (λ text. text ≡ text_said (first_named (codes "lvlText") (part_element part.now).kids)) }
{
    match part.first_named(b"lvlText") {
        Some(said) => text_of(alloc, &said),
        None => Text::copy_of(alloc, b""),
    }
}

fn text_of(alloc: Global, said: &Part<'_, '_>) -> Result<Text, AllocError>
    ensures { IfOk result (λ text. text ≡ text_said (Some (part_element said.now))) }
{
    if is_attribute_on(alloc, said, b"null")? {
        return Text::copy_of(alloc, b"");
    }
    let text = text_or_nothing(alloc, value_at(alloc, said, b"val")?)?;
    short(alloc, text, LONGEST)
}

// A text of `longest` bytes at most, which are more than any in use has.
fn short(alloc: Global, text: Text, longest: usize) -> Result<Text, AllocError>
    ensures { IfOk result (λ kept. kept ≡ short longest text) }
{
    if text.as_bytes().len() <= longest {
        return Ok(text);
    }
    Text::copy_of(alloc, b"")
}
