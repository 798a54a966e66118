//! Texts, ends of paragraphs, rows and cells that touch.

ghost use Rattle.std.specs.Prelude.{◌≡◌, ◌++◌, ◌<◌, Some, length, slice_get, OnOk};
ghost use Rattle.redl_edits.specs.Beside.{are_beside, beside_pairs, pair_beside, pair_of, pairs_at, touch};
ghost use Rattle.redl_edits.specs.Inside.Ends.{AreInOrder};

use crate::alike::{are_alike_at, is_change_at};
use redl_classes::Pair;
use redl_index::Index;
use redl_spans::Span;
use std::alloc::AllocError;

/// Adds the pairs of each span with those that end before it. `Err` means out of memory, here and below.
///
/// Behind the last one that ends before a span begins there is none that touches it: so each span is looked at once for each that it is in.
pub(crate) fn add_beside(
    index: &Index,
    spans: &[Span],
    pairs: &mut Vec<Pair>,
) -> Result<(), AllocError>
    requires { AreInOrder spans.now }
    ensures { OnOk result (pairs.new.items ≡ pairs.old.items ++ beside_pairs index.now spans.now) }
{
    for place in 0..spans.len() {
        add_before(index, spans, place, pairs)?;
    }
    Ok(())
}

fn add_before(
    index: &Index,
    spans: &[Span],
    place: usize,
    pairs: &mut Vec<Pair>,
) -> Result<(), AllocError>
    requires order { AreInOrder spans.now }
    requires bound { place < length spans.now }
    ensures { OnOk result (pairs.new.items ≡ pairs.old.items ++ pairs_at index.now spans.now place (slice_get spans.now place)) }
{
    let one = spans[place];
    for earlier in (0..place).rev() {
        let two = spans[earlier];
        if two.to < one.from {
            break;
        }
        add_pair(index, one, two, pairs)?;
    }
    Ok(())
}

fn add_pair(index: &Index, one: Span, two: Span, pairs: &mut Vec<Pair>) -> Result<(), AllocError>
    ensures { OnOk result (pairs.new.items ≡ pairs.old.items ++ pair_beside index.now one (Some two)) }
{
    if are_beside(index, one, two) {
        pairs.push(pair_of(one, two))?;
    }
    Ok(())
}

fn are_beside(index: &Index, one: Span, two: Span) -> bool
    ensures { result ≡ are_beside index.now one two }
{
    touch(one, two)
        && !is_change_at(index, one.revision)
        && !is_change_at(index, two.revision)
        && are_alike_at(index, one.revision, two.revision)
}

fn touch(one: Span, two: Span) -> bool
    ensures { result ≡ touch one two }
{
    one.from <= two.to && two.from <= one.to
}

pub(crate) fn pair_of(one: Span, two: Span) -> Pair
    ensures { result ≡ pair_of one two }
{
    Pair {
        one: one.revision,
        two: two.revision,
    }
}
