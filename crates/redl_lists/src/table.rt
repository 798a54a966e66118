//! What the numbering part and the styles part say, as tables.

ghost use Rattle.std.specs.Prelude.{◌≡◌, ◌&&◌, IfOk, codes, find, map};
ghost use Rattle.std.specs.Option.{option_map};
ghost use Rattle.redl_reading.specs.Steps.{Gives};
ghost use Rattle.redl_lists.specs.Levels.{level_of};
ghost use Rattle.redl_lists.specs.Named.{all_named, first_named};
ghost use Rattle.redl_lists.specs.Parts.{held_by, kids_of_part, part_element, part_elements};
ghost use Rattle.redl_lists.specs.Tables.{abstract_of, is_at, is_number, is_text, kid_id, kids_in, levelled, num_of, num_properties, override_of, style_of, tables_of, upto};
ghost use Rattle.redl_lists.specs.Values.{kid_number, on_if, value_at};

use crate::level::Level;
use crate::listed::Listed;
use crate::part::Part;
use crate::value::{
    id_at, is_attribute_on, is_text, kid_id, kid_number, kid_value, number_at, value_at,
};
use redl_io::Text;
use redl_numerals::Number;
use redl_tree::Elem;
use std::alloc::{AllocError, Global};

/// A list.
#[derive(Drop)]
pub struct AbstractNum {
    /// Its id.
    pub id: Option<Text>,
    /// The style whose list takes its place.
    pub link: Option<Text>,
    /// The style that it defines.
    pub style: Option<Text>,
    /// Its levels: none, or nine places.
    pub levels: Listed<Option<Level>>,
}

/// What a num says of a level.
#[derive(Drop)]
pub struct Override {
    /// Where it begins.
    pub start: Option<Number>,
    /// What takes its place.
    pub level: Option<Level>,
}

/// A use of a list.
#[derive(Drop)]
pub struct Num {
    /// Its id.
    pub id: Option<Text>,
    /// The id of the list.
    pub list: Option<Text>,
    /// What it says of levels: nothing, or nine places.
    pub overrides: Listed<Option<Override>>,
}

/// A style, and what it says of numbers.
#[derive(Drop)]
pub struct Style {
    /// Its id.
    pub id: Option<Text>,
    /// The id of the style that it is based on.
    pub based_on: Option<Text>,
    /// Whether it is that of paragraphs without a style.
    pub is_default: bool,
    /// The id of a num.
    pub num: Option<Text>,
    /// A level.
    pub level: Option<Number>,
}

/// Lists, nums and styles, each in the order of its part.
#[derive(Drop)]
pub struct Tables {
    /// The lists.
    pub lists: Listed<AbstractNum>,
    /// The nums.
    pub nums: Listed<Num>,
    /// The styles.
    pub styles: Listed<Style>,
}

/// What an element says.
pub(crate) trait Row: Drop {
    ghost use Rattle.redl_tree.specs.Model.View.{Element};

    ghost row: { Element → Self };

    /// What this one says. `Err` means out of memory.
    fn of(alloc: Global, part: &Part<'_, '_>) -> Result<Self, AllocError>
        ensures { IfOk result (λ said. said ≡ row (part_element part.now)) };
}

impl Row for Level {
    ghost row = { level_of };

    fn of(alloc: Global, part: &Part<'_, '_>) -> Result<Level, AllocError> {
        Level::read(alloc, part)
    }
}

impl Row for AbstractNum {
    ghost row = { abstract_of };

    fn of(alloc: Global, part: &Part<'_, '_>) -> Result<AbstractNum, AllocError> {
        Ok(AbstractNum {
            id: id_at(alloc, part, b"abstractNumId")?,
            link: kid_value(alloc, part, b"numStyleLink")?,
            style: kid_value(alloc, part, b"styleLink")?,
            levels: levelled(alloc, &part.all_named(alloc, b"lvl")?)?,
        })
    }
}

impl Row for Override {
    ghost row = { override_of };

    fn of(alloc: Global, part: &Part<'_, '_>) -> Result<Override, AllocError> {
        Ok(Override {
            start: kid_number(alloc, part, b"startOverride")?,
            level: level_in(alloc, part)?,
        })
    }
}

impl Row for Num {
    ghost row = { num_of };

    fn of(alloc: Global, part: &Part<'_, '_>) -> Result<Num, AllocError> {
        Ok(Num {
            id: id_at(alloc, part, b"numId")?,
            list: kid_id(alloc, part, b"abstractNumId")?,
            overrides: levelled(alloc, &part.all_named(alloc, b"lvlOverride")?)?,
        })
    }
}

impl Row for Style {
    ghost row = { style_of };

    fn of(alloc: Global, part: &Part<'_, '_>) -> Result<Style, AllocError> {
        let said = num_properties(part);
        Ok(Style {
            id: value_at(alloc, part, b"styleId")?,
            based_on: kid_value(alloc, part, b"basedOn")?,
            is_default: is_default(alloc, part)?,
            num: kid_id_in(alloc, &said)?,
            level: kid_level_in(alloc, &said)?,
        })
    }
}

impl Tables {
    /// What the first `numbering` among the kids of one element and the first `styles` among those of another say: these elements
    /// hold the roots of the two parts, where there are such parts. `Err` means out of memory.
    pub fn read(
        alloc: Global,
        numbering: Option<&Elem>,
        styles: Option<&Elem>,
    ) -> Result<Tables, AllocError>
        ensures { IfOk result (λ tables. tables ≡ tables_of (held_by numbering.entry) (held_by styles.entry)) }
    {
        Ok(Tables {
            lists: rows_in(alloc, numbering, b"numbering", b"abstractNum")?,
            nums: rows_in(alloc, numbering, b"numbering", b"num")?,
            styles: rows_in(alloc, styles, b"styles", b"style")?,
        })
    }
}

// What the elements with this name say in the first root with that name. `Err` means out of memory, here and below.
fn rows_in<T: Row>(
    alloc: Global,
    part: Option<&Elem>,
    root: &[u8],
    name: &[u8],
) -> Result<Listed<T>, AllocError>
    ensures { IfOk result (λ rows. rows ≡ map T.Row.row (all_named name.now (kids_in (first_named root.now (held_by part.entry))))) }
{
    match root_in(part, root) {
        Some(root) => rows(alloc, &root.all_named(alloc, name)?),
        None => Ok(Listed::of(Vec::new(alloc))),
    }
}

fn root_in<'n, 'a>(part: Option<&'n Elem<'a>>, root: &[u8]) -> Option<Part<'n, 'a>>
    ensures { Gives part_element result (first_named root.now (held_by part.entry)) }
{
    match part {
        Some(part) => Part::Tree(part).first_named(root),
        None => None,
    }
}

// What each of these says.
fn rows<T: Row>(alloc: Global, parts: &[Part<'_, '_>]) -> Result<Listed<T>, AllocError>
    ensures { IfOk result (λ rows. rows ≡ map T.Row.row (part_elements parts.now)) }
{
    let mut said = Vec::new(alloc);
    for part in parts {
        said.push(T::of(alloc, part)?)?;
    }
    Ok(Listed::of(said))
}

// What the first of these says that stands at each of nine levels, where there are any.
fn levelled<T: Row>(alloc: Global, parts: &[Part<'_, '_>]) -> Result<Listed<Option<T>>, AllocError>
    ensures { IfOk result (λ rows. rows ≡ levelled T.Row.row (part_elements parts.now)) }
{
    if parts.is_empty() {
        return Ok(Listed::of(Vec::new(alloc)));
    }
    let said = rows_at(alloc, parts)?;
    Ok(Listed::of(said))
}

// The same, where there are any.
fn rows_at<T: Row>(alloc: Global, parts: &[Part<'_, '_>]) -> Result<Vec<Option<T>>, AllocError>
    ensures { IfOk result (λ said. said.items ≡ upto (λ k. option_map T.Row.row (find (is_at k) (part_elements parts.now))) 9) }
{
    let mut said = Vec::new(alloc);
    for level in 0..9 {
        said.push(row_at(alloc, parts, level)?)?;
    }
    Ok(said)
}

fn row_at<T: Row>(
    alloc: Global,
    parts: &[Part<'_, '_>],
    level: u64,
) -> Result<Option<T>, AllocError>
    ensures { IfOk result (λ row. row ≡ option_map T.Row.row (find (is_at level) (part_elements parts.now))) }
{
    for part in parts {
        if is_at(alloc, part, level)? {
            return Ok(Some(T::of(alloc, part)?));
        }
    }
    Ok(None)
}

// Whether an element stands at this level.
fn is_at(alloc: Global, part: &Part<'_, '_>, level: u64) -> Result<bool, AllocError>
    ensures { IfOk result (λ at. at ≡ is_at level (part_element part.now)) }
{
    let number = number_at(alloc, part, b"ilvl")?;
    Ok(is_number(level, number))
}

fn is_number(level: u64, number: Option<Number>) -> bool
    ensures { result ≡ is_number level number }
{
    match number {
        Some(Number::Plus(own)) => own == level,
        Some(Number::Minus(_)) | None => false,
    }
}

// The level that takes the place of a list's.
fn level_in(alloc: Global, part: &Part<'_, '_>) -> Result<Option<Level>, AllocError>
    ensures { IfOk result (λ level. level ≡ option_map level_of (first_named (codes "lvl") (part_element part.now).kids)) }
{
    match part.first_named(b"lvl") {
        Some(own) => Ok(Some(Level::read(alloc, &own)?)),
        None => Ok(None),
    }
}

fn is_default(alloc: Global, part: &Part<'_, '_>) -> Result<bool, AllocError>
    ensures { IfOk result (λ default. default ≡ (is_text (codes "paragraph") (value_at (codes "type") (part_element part.now)) && on_if (value_at (codes "default") (part_element part.now)))) }
{
    let kind = value_at(alloc, part, b"type")?;
    let on = is_attribute_on(alloc, part, b"default")?;
    Ok(is_text(b"paragraph", &kind) && on)
}

// The properties that say a num and a level, in the properties of a paragraph or a style.
pub(crate) fn num_properties<'n, 'a>(part: &Part<'n, 'a>) -> Option<Part<'n, 'a>>
    ensures { kids_of_part result ≡ num_properties (part_element part.now).kids }
{
    part.first_named(b"pPr")?.first_named(b"numPr")
}

pub(crate) fn kid_id_in(
    alloc: Global,
    said: &Option<Part<'_, '_>>,
) -> Result<Option<Text>, AllocError>
    ensures { IfOk result (λ id. id ≡ kid_id (codes "numId") (kids_of_part said.now)) }
{
    match said {
        Some(said) => kid_id(alloc, said, b"numId"),
        None => Ok(None),
    }
}

pub(crate) fn kid_level_in(
    alloc: Global,
    said: &Option<Part<'_, '_>>,
) -> Result<Option<Number>, AllocError>
    ensures { IfOk result (λ level. level ≡ kid_number (codes "ilvl") (kids_of_part said.now)) }
{
    match said {
        Some(said) => kid_number(alloc, said, b"ilvl"),
        None => Ok(None),
    }
}
