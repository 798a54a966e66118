//! Where the name of an author stands as a text or as a value.

ghost use Rattle.std.specs.Prelude.{◌≡◌, [], ℕ, List, false, IfSome, IsTrue, OnOk};
ghost use Rattle.redl_markup.specs.Decoding.{decoded_value};
ghost use Rattle.redl_markup.specs.Views.{attribute_view};
ghost use Rattle.redl_shown.specs.Shown.{shown};
ghost use Rattle.redl_left.specs.Finds.{found_among, found_name, found_names, found_text, found_told, is_author};
ghost use Rattle.redl_left.specs.Fronts.{back, NamesAuthor, Passes, QuotesPass};
ghost use Rattle.redl_left.specs.Lines.{noted_all};
ghost use Rattle.redl_left.specs.Search.{table_of};
ghost use Rattle.redl_left.specs.Seen.{tables_of};

use crate::fact::Fact;
use crate::names_usual::{begins_none, is_usual};
use crate::quotes::until_quote;
use crate::search::Search;
use crate::seen::Seen;
use crate::told::shown;
use redl_markup::{Attribute, decode_value, is_literal, next_attribute};
use redl_reading::far_until;
use redl_shown::{ShownPiece, next_shown, start};
use std::alloc::AllocError;

fn is_author(search: &Search<'_>, text: &[u8]) -> bool
    ensures { result ≡ is_author (table_of search.now) text.now }
{
    !text.is_empty() && search.has(Fact::Name, text)
}

// Notes a text if it is the name of an author. `Err` means out of memory.
fn note_told(
    search: &Search<'_>,
    part: &[u8],
    text: &[u8],
    seen: &mut Seen,
) -> Result<(), AllocError>
    ensures { OnOk result (tables_of seen.new ≡ noted_all (tables_of seen.old) (found_told (table_of search.now) part.now text.now)) }
{
    if is_author(search, text) {
        return seen.note(Fact::Name, part, text);
    }
    Ok(())
}

// What bytes show, where all of them are shown as they are.
fn one_run(bytes: &[u8]) -> Option<&[u8]>
    ensures { IfSome result (λ run. shown bytes.now ≡ run.now) }
{
    let step = next_shown(start(), bytes)?;
    if !step.rest.is_empty() {
        return None;
    }
    match step.piece {
        ShownPiece::Bytes(run) => Some(run),
        _ => None,
    }
}

// Whether it is plain by their first byte that bytes show no name of an author.
fn shows_no_author(search: &Search<'_>, bytes: &[u8]) -> bool
    ensures { IsTrue result → is_author (table_of search.now) (shown bytes.now) ≡ false }
{
    match bytes.split_first() {
        Some((first, _)) => {
            *first != b'<' && *first != b'&' && search.none_begins(Fact::Name, *first)
        }
        None => true,
    }
}

// Notes what a stretch of bytes shows if it is the name of an author. `Err` means out of memory.
fn note_shown(
    search: &Search<'_>,
    part: &[u8],
    bytes: &[u8],
    seen: &mut Seen,
) -> Result<(), AllocError>
    ensures { OnOk result (tables_of seen.new ≡ noted_all (tables_of seen.old) (found_text (table_of search.now) part.now bytes.now)) }
{
    // Mostly its first byte is that of no name.
    if shows_no_author(search, bytes) {
        return Ok(());
    }
    if let Some(run) = one_run(bytes) {
        return note_told(search, part, run, seen);
    }
    let text = shown(seen.alloc, bytes)?;
    note_told(search, part, text.as_bytes(), seen)
}

/// The same; where no author is named, nothing is looked at.
pub(crate) fn note_text(
    search: &Search<'_>,
    part: &[u8],
    bytes: &[u8],
    seen: &mut Seen,
) -> Result<(), AllocError>
    ensures { OnOk result (tables_of seen.new ≡ noted_all (tables_of seen.old) (found_text (table_of search.now) part.now bytes.now)) }
{
    if search.names_nothing(Fact::Name) {
        return Ok(());
    }
    note_shown(search, part, bytes, seen)
}

// Whether bytes before a quote end as an `author` with a prefix and its `=`.
fn names_author(front: &[u8]) -> bool
    ensures { IsTrue result → (before : List ℕ) → NamesAuthor (back front.now before) }
{
    front.ends_with(b":author=")
}

// Whether it is plain that an author is named after a quote at most by an `author`, between these bytes.
fn passes(search: &Search<'_>, front: &[u8], rest: &[u8]) -> bool
    ensures { IsTrue result → (before : List ℕ) → Passes (table_of search.now) (back front.now before) rest.now }
{
    begins_none(search, rest) || names_author(front)
}

// The same of all values of a tail that has no `'`, by the bytes round each `"`.
fn quotes_pass(search: &Search<'_>, tail: &[u8]) -> bool
    ensures { IsTrue result → QuotesPass (table_of search.now) [] tail.now }
{
    let (mut front, mut left) = until_quote(tail);
    while let Some((_, rest)) = left.split_first() {
        if !passes(search, front, rest) {
            return false;
        }
        (front, left) = until_quote(rest);
    }
    true
}

// The same where authors are named.
fn names_none(search: &Search<'_>, tail: &[u8]) -> bool
    ensures { IsTrue result → (part : List ℕ) → found_names (table_of search.now) part tail.now ≡ [] }
{
    if tail.is_empty() {
        return true;
    }
    if is_usual(search, tail) {
        return true;
    }
    far_until(tail, b'\'').1.is_empty() && quotes_pass(search, tail)
}

// Notes a decoded value if it is the name of an author. `Err` means out of memory.
fn note_value(
    search: &Search<'_>,
    part: &[u8],
    value: &[u8],
    seen: &mut Seen,
) -> Result<(), AllocError>
    ensures { OnOk result (tables_of seen.new ≡ noted_all (tables_of seen.old) (found_told (table_of search.now) part.now (decoded_value value.now))) }
{
    if is_literal(value) {
        return note_told(search, part, value, seen);
    }
    let text = decode_value(seen.alloc, value)?;
    note_told(search, part, &text, seen)
}

// Notes the value of an attribute, other than an `author`, if it is the name of an author. `Err` means out of memory.
fn note_name(
    search: &Search<'_>,
    part: &[u8],
    attribute: &Attribute<'_>,
    seen: &mut Seen,
) -> Result<(), AllocError>
    ensures { OnOk result (tables_of seen.new ≡ noted_all (tables_of seen.old) (found_name (table_of search.now) part.now (attribute_view attribute.now))) }
{
    if attribute.name.local == b"author".as_slice() {
        return Ok(());
    }
    note_value(search, part, attribute.value, seen)
}

// Notes them attribute by attribute. `Err` means out of memory.
fn note_among(
    search: &Search<'_>,
    part: &[u8],
    tail: &[u8],
    seen: &mut Seen,
) -> Result<(), AllocError>
    ensures { OnOk result (tables_of seen.new ≡ noted_all (tables_of seen.old) (found_names (table_of search.now) part.now tail.now)) }
{
    let mut left = tail;
    while let Some((attribute, rest)) = next_attribute(left) {
        note_name(search, part, &attribute, seen)?;
        left = rest;
    }
    Ok(())
}

/// Whether it is plain that no value of a tail is the name of an author.
pub(crate) fn has_no_names(search: &Search<'_>, tail: &[u8]) -> bool
    ensures { IsTrue result → (part : List ℕ) → found_names (table_of search.now) part tail.now ≡ [] }
{
    search.names_nothing(Fact::Name) || names_none(search, tail)
}

/// Notes the values of a tail that are names of authors. `Err` means out of memory.
#[inline(always)]
pub(crate) fn note_names(
    search: &Search<'_>,
    part: &[u8],
    tail: &[u8],
    seen: &mut Seen,
) -> Result<(), AllocError>
    ensures { OnOk result (tables_of seen.new ≡ noted_all (tables_of seen.old) (found_names (table_of search.now) part.now tail.now)) }
{
    // Mostly there are no attributes, or they need not be read.
    if tail.is_empty() {
        return Ok(());
    }
    if has_no_names(search, tail) {
        return Ok(());
    }
    note_among(search, part, tail, seen)
}
