//! What elements are that a list keeps as text, piece by piece.

ghost use Rattle.std.specs.Prelude.{◌≡◌, ◌≢◌, ◌<◌, ℕ, List, [], IfOk, IfSome, OnOk};
ghost use Rattle.std.specs.Option.{option_copied};
ghost use Rattle.redl_grammar.specs.declared.section.Section.TheVariants.{InElement};
ghost use Rattle.redl_grammar.specs.Pieces.{IsPiece, Stands, piece_then, stretch};
ghost use Rattle.redl_grammar.specs.Stretches.{begins_item};
ghost use Rattle.redl_markup.specs.PieceViews.{bare_view};
ghost use Rattle.redl_tree.specs.Model.Nodes.{no_nodes};
ghost use Rattle.redl_tree.specs.declared.kinds.Space.TheVariants.{W};
ghost use Rattle.redl_left.specs.Finds.{found_idle, found_member, found_row};
ghost use Rattle.redl_left.specs.Known.{AreKnown};
ghost use Rattle.redl_left.specs.Lines.{noted_all};
ghost use Rattle.redl_left.specs.Pieces.{BeginsElement, HasPieces, Took, piece_finds, pieces_finds};
ghost use Rattle.redl_left.specs.Search.{table_of};
ghost use Rattle.redl_left.specs.Seen.{tables_of};

use crate::element::{Below, note_idle};
use crate::fact::Fact;
use crate::find::Asked;
use crate::names_told::{has_no_names, note_text};
use crate::row::{Row, Value};
use crate::search::Search;
use crate::seen::Seen;
use crate::tags::{Known, KnownTag};
use redl_markup::{BarePiece, known_piece};
use redl_reading::{before, far_until, skip};
use redl_tree::Space;
use std::alloc::{AllocError, Global};

// The fact of an idle element by its row, where nothing more is told of it.
fn fact_alone(row: Option<&Row>) -> Option<Option<Fact>>
    ensures { IfSome result (λ fact. (part local tail : List ℕ) → found_row part W local tail no_nodes (option_copied row.entry) ≡ found_member part fact) }
{
    match row {
        None => Some(None),
        Some(row) => match row.value {
            Value::Nothing => Some(Some(row.fact)),
            _ => None,
        },
    }
}

// The fact of an idle element, where it is plain that nothing more is told of it and of its tail. `Err` means out of memory.
fn only_fact(
    alloc: Global,
    search: &Search<'_>,
    local: &[u8],
    tail: &[u8],
) -> Result<Option<Option<Fact>>, AllocError>
    ensures { IfOk result (λ told. IfSome told (λ fact. (part : List ℕ) → found_idle (table_of search.now) part local.now tail.now ≡ found_member part fact)) }
{
    if !has_no_names(search, tail) {
        return Ok(None);
    }
    let asked = Asked {
        parent: b"",
        space: Space::W,
        local,
        tail,
    };
    let row = search.first(alloc, &asked)?;
    Ok(fact_alone(row))
}

// Notes a find of which nothing more is told. `Err` means out of memory.
fn note_fact(part: &[u8], fact: Option<Fact>, seen: &mut Seen) -> Result<(), AllocError>
    ensures { OnOk result (tables_of seen.new ≡ noted_all (tables_of seen.old) (found_member part.now fact)) }
{
    match fact {
        Some(fact) => seen.note(fact, part, b""),
        None => Ok(()),
    }
}

// Notes what an idle element is, and keeps its tag, which has this text, if nothing more is told of it. `Err` means out of memory.
fn look_tag<'t>(
    known: &mut Known<'t>,
    below: Below<'_, '_, '_>,
    local: &[u8],
    tail: &[u8],
    text: &'t [u8],
    seen: &mut Seen,
) -> Result<(), AllocError>
    requires text { BeginsElement text.now local.now tail.now }
    requires known { AreKnown (table_of below.search.now) known.now }
    ensures noted { OnOk result (tables_of seen.new ≡ noted_all (tables_of seen.old) (found_idle (table_of below.entry.search.now) below.entry.part.now local.now tail.now)) }
    ensures known { AreKnown (table_of below.entry.search.now) known.new }
{
    match only_fact(seen.alloc, below.search, local, tail)? {
        Some(fact) => {
            known.keep(KnownTag { text, fact });
            note_fact(below.part, fact, seen)
        }
        None => note_idle(below, local, tail, seen),
    }
}

// Notes what a piece with this text is, and keeps its tag if nothing more is told of it. `Err` means out of memory.
fn look_new<'t>(
    known: &mut Known<'t>,
    below: Below<'_, '_, '_>,
    piece: BarePiece<'t>,
    text: &'t [u8],
    seen: &mut Seen,
) -> Result<(), AllocError>
    requires legal { IsPiece InElement (bare_view piece) }
    requires text { text.now ≡ piece_then (bare_view piece) [] }
    requires known { AreKnown (table_of below.search.now) known.now }
    ensures noted { OnOk result (tables_of seen.new ≡ noted_all (tables_of seen.old) (piece_finds (table_of below.entry.search.now) below.entry.part.now (bare_view piece.entry))) }
    ensures known { AreKnown (table_of below.entry.search.now) known.new }
{
    match piece {
        BarePiece::Start(tag) => look_tag(known, below, tag.name().local, tag.tail(), text, seen),
        BarePiece::Empty(tag) => look_tag(known, below, tag.name().local, tag.tail(), text, seen),
        BarePiece::Stretch(bytes) => note_text(below.search, below.part, bytes, seen),
        BarePiece::End(_, _) => {
            known.keep(KnownTag { text, fact: None });
            Ok(())
        }
    }
}

fn begins_item(bytes: &[u8]) -> bool
    ensures { result ≡ begins_item bytes.now }
{
    skip(bytes, b"<!").is_some() || skip(bytes, b"<?").is_some()
}

// The bytes before the next tag, and those from it on, where no comment, instruction or CDATA comes first.
fn run_before_tag(bytes: &[u8]) -> Option<(&[u8], &[u8])>
    ensures { IfSome result (λ x. HasPieces bytes.now → Stands InElement bytes.now (stretch x.0.now) x.1.now) }
{
    let (run, rest) = far_until(bytes, b'<');
    if run.is_empty() {
        return None;
    }
    if begins_item(rest) {
        return None;
    }
    Some((run, rest))
}

// Notes what the first piece of a text is, and gives the text behind it. `Err` means out of memory.
fn look_piece<'t>(
    known: &mut Known<'t>,
    below: Below<'_, '_, '_>,
    text: &'t [u8],
    seen: &mut Seen,
) -> Result<&'t [u8], AllocError>
    requires pieces { HasPieces text.now }
    requires some { text.now ≢ [] }
    requires known { AreKnown (table_of below.search.now) known.now }
    ensures took { (has : HasPieces text.now) → IfOk result (λ rest. Took (table_of below.entry.search.now) below.entry.part.now (tables_of seen.old) (tables_of seen.new) has.pieces rest.now) }
    ensures known { AreKnown (table_of below.entry.search.now) known.new }
{
    if let Some((fact, rest)) = known.find(text) {
        note_fact(below.part, fact, seen)?;
        return Ok(rest);
    }
    if let Some((run, rest)) = run_before_tag(text) {
        note_text(below.search, below.part, run, seen)?;
        return Ok(rest);
    }
    let (piece, rest) = known_piece(text).unwrap();
    look_new(known, below, piece, before(text, rest), seen)?;
    Ok(rest)
}

/// Notes what the pieces of a text are. `Err` means out of memory.
pub(crate) fn look_pieces<'t>(
    known: &mut Known<'t>,
    below: Below<'_, '_, '_>,
    text: &'t [u8],
    seen: &mut Seen,
) -> Result<(), AllocError>
    requires pieces { HasPieces text.now }
    requires known { AreKnown (table_of below.search.now) known.now }
    ensures noted { (has : HasPieces text.now) → OnOk result (tables_of seen.new ≡ noted_all (tables_of seen.old) (pieces_finds (table_of below.entry.search.now) below.entry.part.now has.pieces)) }
    ensures known { AreKnown (table_of below.entry.search.now) known.new }
{
    let mut left = text;
    while !left.is_empty() {
        left = look_piece(known, below, left, seen)?;
    }
    Ok(())
}
