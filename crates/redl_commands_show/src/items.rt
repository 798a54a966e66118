//! What a page says of each revision beside its row.

ghost use Rattle.std.specs.Prelude.{◌≡◌, [], IfOk, map, slice_get, unwrap_or};
ghost use Rattle.redl_clauses.specs.Clauses.{clause_at};
ghost use Rattle.redl_commands_show.specs.Known.{known_view};
ghost use Rattle.redl_commands_shown.specs.Page.{item_words, place_said, session_said};

use redl_clauses::{clause_at, clauses_of};
use redl_edits::edits_of;
use redl_excerpts::changed_lines;
use redl_index::Revision;
use redl_io::Text;
use redl_page::ItemWords;
use redl_places::{Places, StoryPlace, text_of};
use redl_remarks::remark_ids;
use redl_session::Session;
use std::alloc::{AllocError, Global};

// What is known of the revisions of a package.
#[derive(Drop)]
struct Known {
    clauses: Vec<Option<Text>>,
    places: Places,
    // The lines on what they change.
    lines: Vec<Text>,
    edits: Vec<u32>,
    // The ids of the comments on them.
    ids: Vec<Text>,
}

/// What a page says of each revision of a session, in the order of their numbers. `Err` means out of memory, here and below.
pub(crate) fn items_of(alloc: Global, session: &Session<'_>) -> Result<Vec<ItemWords>, AllocError>
    ensures { IfOk result (λ items. items.items ≡ session_said session.now) }
{
    let pkg = session.package();
    let index = session.index();
    let known = Known {
        clauses: clauses_of(alloc, pkg, index.count() as usize)?,
        places: Places::of(alloc, pkg)?,
        lines: changed_lines(alloc, pkg, index)?,
        edits: edits_of(alloc, pkg, index)?,
        ids: remark_ids(alloc, pkg, index.count() as usize)?,
    };
    let items = items_with(alloc, &known, index.revisions())?;
    Ok(items)
}

fn items_with(
    alloc: Global,
    known: &Known,
    revisions: &[Revision],
) -> Result<Vec<ItemWords>, AllocError>
    ensures { IfOk result (λ items. items.items ≡ map (item_words (known_view known.now)) revisions.now) }
{
    let mut items = Vec::with_capacity(alloc, revisions.len())?;
    for revision in revisions {
        items.push(item_with(alloc, known, revision)?)?;
    }
    Ok(items)
}

fn item_with(alloc: Global, known: &Known, revision: &Revision) -> Result<ItemWords, AllocError>
    ensures { IfOk result (λ item. item ≡ item_words (known_view known.now) revision.now) }
{
    let at = revision.number.saturating_sub(1) as usize;
    let clause = clause_words(alloc, &known.clauses, at)?;
    let place = place_words(alloc, known.places.on(revision.number))?;
    let changed = line_at(alloc, &known.lines, at)?;
    let remarks = line_at(alloc, &known.ids, at)?;
    Ok(ItemWords {
        clause,
        place,
        changed,
        edit: edit_at(&known.edits, at),
        remarks,
    })
}

fn clause_words(alloc: Global, clauses: &[Option<Text>], at: usize) -> Result<Text, AllocError>
    ensures { IfOk result (λ text. text ≡ unwrap_or (clause_at clauses.now at) []) }
{
    match clause_at(alloc, clauses, at)? {
        Some(clause) => Ok(clause),
        None => Text::copy_of(alloc, b""),
    }
}

fn place_words(alloc: Global, place: StoryPlace) -> Result<Text, AllocError>
    ensures { IfOk result (λ text. text ≡ place_said place) }
{
    if place.is_document() {
        return Text::copy_of(alloc, b"");
    }
    let text = text_of(alloc, place)?;
    Ok(text)
}

fn line_at(alloc: Global, lines: &[Text], at: usize) -> Result<Text, AllocError>
    ensures { IfOk result (λ text. text ≡ unwrap_or (slice_get lines.now at) []) }
{
    match lines.get(at) {
        Some(line) => line.copy(alloc),
        None => Text::copy_of(alloc, b""),
    }
}

fn edit_at(edits: &[u32], at: usize) -> u32
    ensures { result ≡ unwrap_or (slice_get edits.now at) 0 }
{
    match edits.get(at) {
        Some(edit) => *edit,
        None => 0,
    }
}
