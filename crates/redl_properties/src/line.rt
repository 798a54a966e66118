//! The changed properties of a change in one line of words.

ghost use Rattle.std.specs.Prelude.{◌≡◌, ◌++◌, IfOk, OnOk};
ghost use Rattle.std.specs.List.{list_any};
ghost use Rattle.redl_reading.specs.Steps.{Gives};
ghost use Rattle.redl_properties.specs.Lines.{and_more, are_of_language, first_four, is_of_language, is_other_font, is_other_language, is_repeated, line_of, same_change, told, told_line, told_of, twin_of};
ghost use Rattle.redl_properties.specs.declared.change.Changed.{Changed};

use crate::amount::push_decimal;
use crate::change::Changed;
use crate::said::{property_at, push_between};
use crate::utf8::Utf8Text;
use std::alloc::{AllocError, Global};

// How many of them are told.
const TOLD: usize = 4;

/// The changed properties in words, at most four. `Err` means out of memory.
pub fn line_of(alloc: Global, changes: &[Changed]) -> Result<Utf8Text, AllocError>
    ensures { IfOk result (λ line. line ≡ line_of changes.now) }
{
    if changes.is_empty() {
        return Utf8Text::of_str(alloc, "no property differs");
    }
    if are_of_language(changes) {
        return Utf8Text::of_str(alloc, "language only");
    }
    let told = told(alloc, changes)?;
    told_line(alloc, &told)
}

// Whether all are of language.
fn are_of_language(changes: &[Changed]) -> bool
    ensures { result ≡ are_of_language changes.now }
{
    changes
        .iter()
        .all(|change| is_of_language(change.property.as_bytes()))
}

fn is_of_language(property: &[u8]) -> bool
    ensures { result ≡ is_of_language property.now }
{
    match property_at(property) {
        Some(property) => property.is_of_language(),
        None => false,
    }
}

// The words of each change but for twins.
fn told(alloc: Global, changes: &[Changed]) -> Result<Vec<Utf8Text>, AllocError>
    ensures { IfOk result (λ made. made.items ≡ told changes.now) }
{
    let mut told = Vec::new(alloc);
    for change in changes {
        push_if_told(alloc, changes, change, &mut told)?;
    }
    Ok(told)
}

fn push_if_told(
    alloc: Global,
    changes: &[Changed],
    change: &Changed,
    told: &mut Vec<Utf8Text>,
) -> Result<(), AllocError>
    ensures { OnOk result (told.new.items ≡ told.old.items ++ told_of changes.now change.now) }
{
    if is_repeated(changes, change) {
        return Ok(());
    }
    let said = change.said.copy(alloc)?;
    told.push(said)?;
    Ok(())
}

// Whether a change says what that of the property says whose twin it is.
fn is_repeated(changes: &[Changed], change: &Changed) -> bool
    ensures { result ≡ is_repeated changes.now change.now }
{
    match twin_of(change.property.as_bytes()) {
        Some(first) => has_same_change(first, change, changes),
        None => false,
    }
}

fn has_same_change(first: &[u8], change: &Changed, changes: &[Changed]) -> bool
    ensures { result ≡ list_any (λ (other : Changed). same_change first.now change.now other) changes.now }
{
    changes
        .iter()
        .any(|other| same_change(first, change, other))
}

#[tactic(auto, unfolding(crate::specs::Lines::same_change))]
fn same_change(first: &[u8], change: &Changed, other: &Changed) -> bool
    ensures { result ≡ same_change first.now change.now other.now }
{
    other.property.as_bytes() == first
        && other.from.is_same(&change.from)
        && other.to.is_same(&change.to)
}

// The property that says the same in most documents.
fn twin_of(property: &[u8]) -> Option<&'static [u8]>
    ensures { Gives (λ first. first.now) result (twin_of property.now) }
{
    if property == b"bCs".as_slice() {
        Some(b"b")
    } else if property == b"iCs".as_slice() {
        Some(b"i")
    } else if property == b"szCs".as_slice() {
        Some(b"sz")
    } else if is_other_font(property) {
        Some(b"rFonts@ascii")
    } else if is_other_language(property) {
        Some(b"lang")
    } else {
        None
    }
}

fn is_other_font(property: &[u8]) -> bool
    ensures { result ≡ is_other_font property.now }
{
    property == b"rFonts@hAnsi".as_slice()
        || property == b"rFonts@cs".as_slice()
        || property == b"rFonts@eastAsia".as_slice()
}

fn is_other_language(property: &[u8]) -> bool
    ensures { result ≡ is_other_language property.now }
{
    property == b"lang@eastAsia".as_slice() || property == b"lang@bidi".as_slice()
}

fn told_line(alloc: Global, told: &[Utf8Text]) -> Result<Utf8Text, AllocError>
    ensures { IfOk result (λ line. line ≡ told_line told.now) }
{
    let mut line = Vec::new(alloc);
    push_first(&mut line, told)?;
    push_more(&mut line, told.len())?;
    Utf8Text::of(alloc, &line)
}

fn push_first(line: &mut Vec<u8>, told: &[Utf8Text]) -> Result<(), AllocError>
    ensures { OnOk result (line.new.items ≡ line.old.items ++ first_four told.now) }
{
    for place in 0..told.len().min(TOLD) {
        push_between(line, place, b"; ")?;
        line.extend_from_slice(told[place].as_bytes())?;
    }
    Ok(())
}

fn push_more(line: &mut Vec<u8>, count: usize) -> Result<(), AllocError>
    ensures { OnOk result (line.new.items ≡ line.old.items ++ and_more count) }
{
    if count <= TOLD {
        return Ok(());
    }
    line.extend_from_slice(b"; and ")?;
    push_decimal(line, (count - TOLD) as u64)?;
    line.extend_from_slice(b" more")
}
