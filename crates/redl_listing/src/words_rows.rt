//! The lines of the format `words`.

ghost use Rattle.std.specs.Prelude.{◌≡◌, ◌++◌, OnOk};
ghost use Rattle.std.specs.List.{flat_map};
ghost use Rattle.redl_listing.specs.Rows.{IsRow};
ghost use Rattle.redl_terminal.specs.Masks.{masked};
ghost use Rattle.redl_terminal.specs.declared.extent.Extent.TheVariants.{Field};
ghost use Rattle.redl_listing.specs.Words.{clause_text, closing, closing_of, in_paragraph, in_places, inside, near_end, numbered_columns, opening, opening_of, outside, place_words, quoted, said_text, says_text, shortened, words_columns, words_row};

use crate::remark_rows::push_remarks;
use crate::row::Row;
use redl_excerpts::{Detail, LastWord, Says};
use redl_formats::{ItemText, push_left, push_number, push_spaces, verdict_name, word_name};
use redl_io::Text;
use redl_join::Verdict;
use redl_kinds::RevKind;
use redl_places::{StoryPlace, text_of};
use redl_said::{characters_in, shortened, without_characters};
use redl_terminal::{Extent, push_masked};
use redl_tree::Trace;
use std::alloc::{AllocError, Global};

// How many places the author has.
const AUTHOR: usize = 13;

// How many characters of what stands before are shown.
const BEFORE: usize = 11;

/// A line for each row: number, kind, verdict and author in columns, its words in their paragraph, and where it is outside the document.
#[derive(Drop)]
pub struct WordsRows;

impl ItemText<Row> for WordsRows {
    ghost use Rattle.std.specs.Prelude.{codes};
    ghost use Rattle.redl_terminal.specs.Masks.{masked};
    ghost use Rattle.redl_terminal.specs.declared.extent.Extent.TheVariants.{Field};
    ghost use Rattle.redl_listing.specs.Words.{words_row};

    ghost title = { codes "words" };

    ghost piece_of = { words_row };

    fn title() -> &'static str {
        "words"
    }

    fn put(front: Vec<u8>, row: &Row) -> Result<Vec<u8>, AllocError> {
        let mut whole = front;
        push_words_row(&mut whole, row)?;
        Ok(whole)
    }
}

// Adds the line of a row. `Err` means out of memory.
#[tactic(auto, unfolding(crate::specs::Words::words_row))]
fn push_words_row(line: &mut Vec<u8>, row: &Row) -> Result<(), AllocError>
    requires { IsRow row.now }
    ensures { OnOk result (line.new.items ≡ line.old.items ++ words_row row.now) }
{
    push_words_columns(line, row)?;
    push_quoted(line, row)?;
    push_remarks(line, row.detail.remarks.count())?;
    push_place(line, row.detail.place)?;
    push_says(line, row.verdict, &row.detail.says)?;
    line.push(b'\n')?;
    Ok(())
}

// Adds number, kind, verdict and author, with a space behind each. `Err` means out of memory.
#[tactic(auto, unfolding(crate::specs::Words::words_columns))]
fn push_words_columns(line: &mut Vec<u8>, row: &Row) -> Result<(), AllocError>
    requires { IsRow row.now }
    ensures { OnOk result (line.new.items ≡ line.old.items ++ words_columns row.now) }
{
    push_numbered_columns(line, row)?;
    push_left(line, verdict_name(row.verdict).as_bytes(), 8)?;
    line.push(b' ')?;
    push_author(line, row.author.as_bytes())?;
    line.push(b' ')?;
    Ok(())
}

// Adds number and kind, with a space behind each. `Err` means out of memory.
#[tactic(auto, unfolding(crate::specs::Words::numbered_columns))]
fn push_numbered_columns(line: &mut Vec<u8>, row: &Row) -> Result<(), AllocError>
    requires { IsRow row.now }
    ensures { OnOk result (line.new.items ≡ line.old.items ++ numbered_columns row.now) }
{
    push_number(line, row.number, 5)?;
    line.push(b' ')?;
    push_left(line, row.kind.name().as_bytes(), 12)?;
    line.push(b' ')?;
    Ok(())
}

// Adds an author in 13 places. `Err` means out of memory.
fn push_author(line: &mut Vec<u8>, author: &[u8]) -> Result<(), AllocError>
    ensures { OnOk result (line.new.items ≡ line.old.items ++ in_places 13 (shortened 12 (masked Field author.now))) }
{
    let alloc = *line.allocator();
    let mut name = Vec::new(alloc);
    push_masked(&mut name, Extent::Field, author)?;
    let short = shortened(alloc, &name, AUTHOR as u8 - 1)?;
    let count = characters_in(short.as_bytes());
    line.extend_from_slice(short.as_bytes())?;
    push_spaces(line, AUTHOR.saturating_sub(count))?;
    Ok(())
}

// Adds the clause, and the words in their paragraph. `Err` means out of memory.
#[tactic(auto, unfolding(crate::specs::Words::quoted))]
fn push_quoted(line: &mut Vec<u8>, row: &Row) -> Result<(), AllocError>
    ensures { OnOk result (line.new.items ≡ line.old.items ++ quoted row.now) }
{
    push_clause(line, &row.detail.clause)?;
    push_in_paragraph(line, row)?;
    Ok(())
}

// Adds the clause, if there is one, and a space behind it. `Err` means out of memory.
fn push_clause(line: &mut Vec<u8>, clause: &Option<Text>) -> Result<(), AllocError>
    ensures { OnOk result (line.new.items ≡ line.old.items ++ clause_text clause.now) }
{
    if let Some(clause) = clause {
        push_masked(line, Extent::Field, clause.as_bytes())?;
        line.push(b' ')?;
    }
    Ok(())
}

// Adds the words in their paragraph. `Err` means out of memory.
#[tactic(auto, unfolding(crate::specs::Words::in_paragraph))]
fn push_in_paragraph(line: &mut Vec<u8>, row: &Row) -> Result<(), AllocError>
    ensures { OnOk result (line.new.items ≡ line.old.items ++ in_paragraph row.now) }
{
    push_near_end(line, row.detail.before.as_bytes())?;
    line.extend_from_slice(opening(row.kind).as_bytes())?;
    push_inside(line, row.kind, &row.detail)?;
    line.extend_from_slice(closing(row.kind).as_bytes())?;
    push_outside(line, row.kind, &row.detail)?;
    push_shortened(line, row.detail.after.as_bytes(), 10)?;
    Ok(())
}

// Adds what stands between the signs: the words, and of a change of properties what it changes. `Err` means out of memory.
fn push_inside(line: &mut Vec<u8>, kind: RevKind, detail: &Detail) -> Result<(), AllocError>
    ensures { OnOk result (line.new.items ≡ line.old.items ++ inside kind detail.now) }
{
    match kind {
        RevKind::Change(_) => push_masked(line, Extent::Field, detail.changed.line.as_bytes()),
        _ => push_shortened(line, detail.words.as_bytes(), 30),
    }
}

// Adds the words of a change of properties, which stand behind the signs. `Err` means out of memory.
fn push_outside(line: &mut Vec<u8>, kind: RevKind, detail: &Detail) -> Result<(), AllocError>
    ensures { OnOk result (line.new.items ≡ line.old.items ++ outside kind detail.now) }
{
    match kind {
        RevKind::Change(_) => push_shortened(line, detail.words.as_bytes(), 30),
        _ => Ok(()),
    }
}

// Adds the last 11 characters, with dots for those before. `Err` means out of memory.
fn push_near_end(line: &mut Vec<u8>, text: &[u8]) -> Result<(), AllocError>
    ensures { OnOk result (line.new.items ≡ line.old.items ++ masked Field (near_end text.now)) }
{
    let count = characters_in(text);
    if count <= BEFORE {
        return push_masked(line, Extent::Field, text);
    }
    line.extend_from_slice("\u{2026}".as_bytes())?;
    push_masked(
        line,
        Extent::Field,
        without_characters(count - BEFORE, text),
    )?;
    Ok(())
}

// Adds the first characters, with dots for the rest. `Err` means out of memory.
fn push_shortened(line: &mut Vec<u8>, text: &[u8], room: u8) -> Result<(), AllocError>
    ensures { OnOk result (line.new.items ≡ line.old.items ++ masked Field (shortened room text.now)) }
{
    let short = shortened(*line.allocator(), text, room)?;
    push_masked(line, Extent::Field, short.as_bytes())?;
    Ok(())
}

// Adds where a revision is, unless it is in the document. `Err` means out of memory.
fn push_place(line: &mut Vec<u8>, place: StoryPlace) -> Result<(), AllocError>
    ensures { OnOk result (line.new.items ≡ line.old.items ++ place_words place) }
{
    if place.is_document() {
        return Ok(());
    }
    let text = text_of(*line.allocator(), place)?;
    line.extend_from_slice(b"  ")?;
    line.extend_from_slice(text.as_bytes())
}

// Adds who said what, where that is disputed. `Err` means out of memory.
fn push_says(line: &mut Vec<u8>, verdict: Verdict, says: &Says) -> Result<(), AllocError>
    ensures { OnOk result (line.new.items ≡ line.old.items ++ says_text verdict says.now) }
{
    match verdict {
        Verdict::Disputed => push_words(line, says.words()),
        Verdict::Undecided | Verdict::Accept | Verdict::Reject => Ok(()),
    }
}

fn push_words(line: &mut Vec<u8>, words: &[LastWord]) -> Result<(), AllocError>
    ensures { OnOk result (line.new.items ≡ line.old.items ++ flat_map said_text words.now) }
{
    for said in words {
        push_said(line, said)?;
    }
    Ok(())
}

fn push_said(line: &mut Vec<u8>, said: &LastWord) -> Result<(), AllocError>
    ensures { OnOk result (line.new.items ≡ line.old.items ++ said_text said.now) }
{
    line.extend_from_slice(b"  ")?;
    push_masked(line, Extent::Field, said.reviewer.as_bytes())?;
    line.extend_from_slice(b": ")?;
    line.extend_from_slice(word_name(said.word).as_bytes())?;
    Ok(())
}

// The sign before the words of a revision.
fn opening(kind: RevKind) -> &'static str
    ensures { result.now ≡ opening kind }
{
    match kind {
        RevKind::Content(trace) => opening_of(trace),
        RevKind::Mark(trace) => opening_of(trace),
        RevKind::Row(trace) => opening_of(trace),
        RevKind::Cell(trace) => opening_of(trace),
        RevKind::Move => "[~",
        RevKind::Change(_) => "{=",
    }
}

fn opening_of(trace: Trace) -> &'static str
    ensures { result.now ≡ opening_of trace }
{
    match trace {
        Trace::Ins => "{+",
        Trace::Del => "[-",
        Trace::From => "[~",
        Trace::To => "{~",
    }
}

// The sign behind the words of a revision.
fn closing(kind: RevKind) -> &'static str
    ensures { result.now ≡ closing kind }
{
    match kind {
        RevKind::Content(trace) => closing_of(trace),
        RevKind::Mark(trace) => closing_of(trace),
        RevKind::Row(trace) => closing_of(trace),
        RevKind::Cell(trace) => closing_of(trace),
        RevKind::Move => "~]",
        RevKind::Change(_) => "=}",
    }
}

fn closing_of(trace: Trace) -> &'static str
    ensures { result.now ≡ closing_of trace }
{
    match trace {
        Trace::Ins => "+}",
        Trace::Del => "-]",
        Trace::From => "~]",
        Trace::To => "~}",
    }
}
