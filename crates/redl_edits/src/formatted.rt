//! Changes of properties that gave one format to one stretch of text.

ghost use Rattle.std.specs.Prelude.{◌≡◌, ◌<◌, ◌≤◌, ◌+◌, ◌++◌, ◌&&◌, ℕ, drop, find, length, slice_get, slice_index, slice_index_or, OnOk};
ghost use Rattle.redl_kinds.specs.Kinds.{is_same_kind};
ghost use Rattle.redl_spans.specs.declared.span.Span.{Span};
ghost use Rattle.redl_tree.specs.Decisions.Packages.{stories};
ghost use Rattle.redl_edits.specs.Formats.{stories_formats};
ghost use Rattle.redl_edits.specs.Formatted.{formatted_pairs, is_next, pair_behind, pair_formatted, same_format};
ghost use Rattle.redl_edits.specs.Inside.Ends.{AreInOrder};
ghost use Rattle.redl_edits.specs.Inside.Known.{AreSeen, IsKnown, facts_with, pair_near};
ghost use Rattle.redl_edits.specs.Inside.Reaches.{AreDark, IsDark, Reach};
ghost use Rattle.redl_edits.specs.Passed.{stories_passed};

use crate::alike::{are_alike_at, revision_at};
use crate::beside::pair_of;
use crate::dark::{dark_behind, end_of};
use crate::formats::stories_formats;
use crate::loose::are_loose;
use crate::passed::stories_passed;
use crate::said::Said;
use crate::same::same_said;
use crate::seen::Seen;
use crate::seen_by::SeenBy;
use redl_classes::Pair;
use redl_index::Index;
use redl_opc::Package;
use redl_spans::Span;
use std::alloc::{AllocError, Global};

// What is known of a package.
#[derive(Clone, Copy)]
struct Known<'k> {
    index: &'k Index,
    spans: &'k [Span],
    passed: &'k [u8],
    loose: &'k [bool],
    said: &'k Said,
}

/// Adds the pair of each change with the next one of the same format, if nothing keeps them apart. `Err` means out of memory, here and
/// below.
pub(crate) fn add_formatted(
    alloc: Global,
    pkg: &Package,
    index: &Index,
    spans: &[Span],
    pairs: &mut Vec<Pair>,
) -> Result<(), AllocError>
    requires { AreInOrder spans.now }
    ensures { OnOk result (pairs.new.items ≡ pairs.old.items ++ formatted_pairs (facts_with index.now spans.now (stories_passed (stories pkg.now)) (stories_formats (stories pkg.now)))) }
{
    let passed = stories_passed(alloc, pkg)?;
    let loose = are_loose(alloc, index, spans)?;
    let formats = stories_formats(alloc, pkg)?;
    let said = Said::of(alloc, formats, index.count())?;
    let known = Known {
        index,
        spans,
        passed: &passed,
        loose: &loose,
        said: &said,
    };
    add_known(alloc, known, pairs)?;
    Ok(())
}

// It goes from the last span back, and keeps of each author how far what the author did reaches.
fn add_known(alloc: Global, known: Known<'_>, pairs: &mut Vec<Pair>) -> Result<(), AllocError>
    requires { IsKnown (facts_with known.index.now known.spans.now known.passed.now known.said.now.formats.items) known.loose.now known.said.now }
    ensures { OnOk result (pairs.new.items ≡ pairs.old.items ++ formatted_pairs (facts_with known.entry.index.now known.entry.spans.now known.entry.passed.now known.entry.said.now.formats.items)) }
{
    let dark = dark_behind(alloc, known.passed, known.spans)?;
    let mut seen = seen_at_end(alloc, known);
    for place in (0..known.spans.len()).rev() {
        add_place(known, place, dark[place], &mut seen, pairs)?;
    }
    Ok(())
}

// Behind the last span nobody did anything.
fn seen_at_end<'k>(alloc: Global, known: Known<'k>) -> SeenBy<'k>
    requires { AreInOrder known.spans.now }
    ensures { AreSeen (facts_with known.entry.index.now known.entry.spans.now known.entry.passed.now known.entry.said.now.formats.items) result (length known.entry.spans.now) }
{
    let end = end_of(known.passed, known.spans);
    SeenBy::all(
        alloc,
        Seen {
            low: end,
            at: end,
            apart: end,
        },
    )
}

// The span at a place, behind which this is the first unit that isn't blank.
fn add_place<'k>(
    known: Known<'k>,
    place: usize,
    dark: usize,
    seen: &mut SeenBy<'k>,
    pairs: &mut Vec<Pair>,
) -> Result<(), AllocError>
    requires known { IsKnown (facts_with known.index.now known.spans.now known.passed.now known.said.now.formats.items) known.loose.now known.said.now }
    requires bound { place < length known.spans.now }
    requires dark { (none : Span) → IsDark known.passed.now (slice_index_or known.spans.now place none).to dark }
    requires seen { AreSeen (facts_with known.index.now known.spans.now known.passed.now known.said.now.formats.items) seen.old (place + 1) }
    ensures seen { OnOk result (AreSeen (facts_with known.entry.index.now known.entry.spans.now known.entry.passed.now known.entry.said.now.formats.items) seen.new place) }
    ensures pairs { OnOk result (pairs.new.items ≡ pairs.old.items ++ pair_behind (facts_with known.entry.index.now known.entry.spans.now known.entry.passed.now known.entry.said.now.formats.items) place (slice_get known.entry.spans.now place)) }
{
    let span = known.spans[place];
    let Some(revision) = revision_at(known.index, span.revision) else {
        return Ok(());
    };
    let reach = seen.see(revision.author.as_bytes(), span, dark)?;
    add_behind(known, place, reach, pairs)?;
    Ok(())
}

// The change at a place, where what its author did is seen from there on.
fn add_behind(
    known: Known<'_>,
    place: usize,
    seen: Seen,
    pairs: &mut Vec<Pair>,
) -> Result<(), AllocError>
    requires known { IsKnown (facts_with known.index.now known.spans.now known.passed.now known.said.now.formats.items) known.loose.now known.said.now }
    requires bound { place < length known.spans.now }
    requires reach { (none : Span) → Reach (facts_with known.index.now known.spans.now known.passed.now known.said.now.formats.items) (slice_index_or known.spans.now place none) place seen }
    requires here { (none : Span) → seen.at ≡ (slice_index_or known.spans.now place none).to }
    ensures { OnOk result (pairs.new.items ≡ pairs.old.items ++ pair_behind (facts_with known.entry.index.now known.entry.spans.now known.entry.passed.now known.entry.said.now.formats.items) place (slice_get known.entry.spans.now place)) }
{
    if !known.loose[place] {
        return Ok(());
    }
    let next = next_of_format(known, place, seen);
    add_near(known.index, known.spans[place], next, seen.apart, pairs)?;
    Ok(())
}

// A change and another one that begins no later than this unit.
fn add_near(
    index: &Index,
    one: Span,
    two: Option<Span>,
    apart: usize,
    pairs: &mut Vec<Pair>,
) -> Result<(), AllocError>
    ensures { OnOk result (pairs.new.items ≡ pairs.old.items ++ pair_near index.now one two apart) }
{
    let Some(two) = two else {
        return Ok(());
    };
    if are_alike_at(index, one.revision, two.revision) && two.from <= apart {
        pairs.push(pair_of(one, two))?;
    }
    Ok(())
}

// The first loose change of the same format behind the one at a place. Where a span ends behind what keeps the author's changes apart, none
// from there on can be paired with it.
fn next_of_format(known: Known<'_>, place: usize, seen: Seen) -> Option<Span>
    requires known { IsKnown (facts_with known.index.now known.spans.now known.passed.now known.said.now.formats.items) known.loose.now known.said.now }
    requires bound { place < length known.spans.now }
    requires reach { (none : Span) → Reach (facts_with known.index.now known.spans.now known.passed.now known.said.now.formats.items) (slice_index_or known.spans.now place none) place seen }
    requires here { (none : Span) → seen.at ≡ (slice_index_or known.spans.now place none).to }
    ensures { (none : Span) → let facts = facts_with known.entry.index.now known.entry.spans.now known.entry.passed.now known.entry.said.now.formats.items in let one = slice_index_or known.entry.spans.now place none in pair_formatted facts one result ≡ pair_formatted facts one (find (is_next facts one) (drop (place + 1) known.entry.spans.now)) }
{
    let one = known.spans[place];
    for behind in place + 1..known.spans.len() {
        let two = known.spans[behind];
        if seen.apart < two.to {
            return None;
        }
        if known.loose[behind] && same_format(known, one, two) {
            return Some(two);
        }
    }
    None
}

// Whether one author gave one kind of elements one format by these.
fn same_format(known: Known<'_>, one: Span, two: Span) -> bool
    requires { IsKnown (facts_with known.index.now known.spans.now known.passed.now known.said.now.formats.items) known.loose.now known.said.now }
    ensures { result ≡ same_format (facts_with known.entry.index.now known.entry.spans.now known.entry.passed.now known.entry.said.now.formats.items) one two }
{
    let Some(first) = revision_at(known.index, one.revision) else {
        return false;
    };
    let Some(second) = revision_at(known.index, two.revision) else {
        return false;
    };
    first.author.as_bytes() == second.author.as_bytes()
        && first.kind == second.kind
        && same_said(known.said.get(one.revision), known.said.get(two.revision))
}
