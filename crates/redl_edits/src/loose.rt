//! Changes of properties that aren't inside what was inserted, deleted or moved.

ghost use Rattle.std.specs.Prelude.{◌≡◌, ◌<◌, ◌≤◌, ◌+◌, IfOk, length, slice_index_or};
ghost use Rattle.redl_spans.specs.declared.span.Span.{Span};
ghost use Rattle.redl_edits.specs.Formatted.{is_loose};
ghost use Rattle.redl_edits.specs.Inside.Ends.{AreInOrder};
ghost use Rattle.redl_edits.specs.Inside.Loose.{AreLoose};
ghost use Rattle.redl_edits.specs.Inside.Rounds.{IsStack};

use crate::alike::is_change_at;
use crate::enclosed::{enclosing, kept_count};
use redl_index::Index;
use redl_spans::Span;
use std::alloc::{AllocError, Global};

/// Whether each span is of a change that isn't inside others. `Err` means out of memory.
///
/// It goes from the last span back, and keeps those behind that may hold a unit of the spans before.
pub(crate) fn are_loose(
    alloc: Global,
    index: &Index,
    spans: &[Span],
) -> Result<Vec<bool>, AllocError>
    requires { AreInOrder spans.now }
    ensures { IfOk result (λ loose. AreLoose index.now spans.now loose.items) }
{
    let mut loose = vec![in alloc; false; spans.len()]?;
    let mut later: Vec<Span> = Vec::new(alloc);
    for place in (0..spans.len()).rev() {
        let span = spans[place];
        let count = kept_count(&later, span.to);
        later.truncate(count);
        loose[place] = is_loose(index, spans, place, &later);
        later.push(span)?;
    }
    Ok(loose)
}

fn is_loose(index: &Index, spans: &[Span], place: usize, later: &[Span]) -> bool
    requires order { AreInOrder spans.now }
    requires bound { place < length spans.now }
    requires stack { (none : Span) → IsStack index.now spans.now later.now (place + 1) (slice_index_or spans.now place none).to }
    ensures { (none : Span) → result ≡ is_loose index.now spans.now (slice_index_or spans.now place none) }
{
    is_change_at(index, spans[place].revision) && enclosing(index, spans, place, later).is_none()
}
