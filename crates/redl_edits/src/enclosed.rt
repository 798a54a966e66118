//! Changes of properties inside what was inserted, deleted or moved.

ghost use Rattle.std.specs.Prelude.{◌≡◌, ◌≤◌, ◌<◌, ◌++◌, ◌+◌, ℕ, true, length, slice_get, slice_index_or, find, OnOk, Some};
ghost use Rattle.redl_spans.specs.declared.span.Span.{Span};
ghost use Rattle.redl_edits.specs.Enclosed.{enclosed_pairs, is_round, may_enclose, pair_enclosed_if, round_upto};
ghost use Rattle.redl_edits.specs.Alike.{is_change_at};
ghost use Rattle.redl_edits.specs.Inside.Ends.{AreInOrder};
ghost use Rattle.redl_edits.specs.Inside.Rounds.{IsStack, LowersEarlier, LowersLater, sought};

use crate::alike::{are_alike_at, is_change_at};
use crate::beside::pair_of;
use redl_classes::Pair;
use redl_index::Index;
use redl_spans::Span;
use std::alloc::{AllocError, Global};

/// Adds the pair of each change that is inside others with the outermost one. `Err` means out of memory, here and below.
///
/// It goes from the last span back, and keeps those behind that may hold a unit of the spans before.
pub(crate) fn add_enclosed(
    alloc: Global,
    index: &Index,
    spans: &[Span],
    pairs: &mut Vec<Pair>,
) -> Result<(), AllocError>
    requires { AreInOrder spans.now }
    ensures { OnOk result (pairs.new.items ≡ pairs.old.items ++ enclosed_pairs index.now spans.now) }
{
    let mut later: Vec<Span> = Vec::new(alloc);
    for place in (0..spans.len()).rev() {
        let span = spans[place];
        let count = kept_count(&later, span.to);
        later.truncate(count);
        add_pair(index, spans, place, &later, pairs)?;
        later.push(span)?;
    }
    Ok(())
}

// How many of these may hold a unit before this one: without the last ones, which begin there or behind it.
pub(crate) fn kept_count(later: &[Span], end: usize) -> usize
    ensures bound { result ≤ length later.now }
    ensures past { (place : ℕ) (none : Span) → result ≤ place → place < length later.now → end ≤ (slice_index_or later.now place none).from }
{
    for place in (0..later.len()).rev() {
        if later[place].from < end {
            return place + 1;
        }
    }
    0
}

fn add_pair(
    index: &Index,
    spans: &[Span],
    place: usize,
    later: &[Span],
    pairs: &mut Vec<Pair>,
) -> Result<(), AllocError>
    requires order { AreInOrder spans.now }
    requires bound { place < length spans.now }
    requires stack { (none : Span) → IsStack index.now spans.now later.now (place + 1) (slice_index_or spans.now place none).to }
    ensures { OnOk result (pairs.new.items ≡ pairs.old.items ++ pair_enclosed_if index.now spans.now (slice_get spans.now place)) }
{
    let change = spans[place];
    if !is_change_at(index, change.revision) {
        return Ok(());
    }
    if let Some(outer) = enclosing(index, spans, place, later) {
        pairs.push(pair_of(change, outer))?;
    }
    Ok(())
}

// The outermost one round the first unit of a change, if each of its units has one.
pub(crate) fn enclosing(index: &Index, spans: &[Span], place: usize, later: &[Span]) -> Option<Span>
    requires order { AreInOrder spans.now }
    requires bound { place < length spans.now }
    requires stack { (none : Span) → IsStack index.now spans.now later.now (place + 1) (slice_index_or spans.now place none).to }
    requires change { (none : Span) → is_change_at index.now (slice_index_or spans.now place none).revision ≡ true }
    ensures { (change : Span) → slice_get spans.now place ≡ Some change → result ≡ sought index.now spans.now change }
{
    let change = spans[place];
    if change.to <= change.from {
        return None;
    }
    let need = lowered_by_later(index, change, later);
    let need = lowered_by_earlier(index, &spans[..place], change, need);
    if change.from < need {
        return None;
    }
    match first_round(index, change, later) {
        Some(span) => Some(span),
        None => last_round(index, &spans[..place], change),
    }
}

// The first of the last units of a change that all are held by spans that end with it or behind it.
fn lowered_by_later(index: &Index, change: Span, later: &[Span]) -> usize
    requires { (place : ℕ) (none : Span) → place < length later.now → change.to ≤ (slice_index_or later.now place none).to }
    ensures { LowersLater index.now change later.now result }
{
    let mut need = change.to;
    for span in later {
        if span.from < need && may_enclose(index, change, *span) {
            need = span.from;
        }
    }
    need
}

// The same from this unit down, by spans that end before the change.
fn lowered_by_earlier(index: &Index, spans: &[Span], change: Span, unit: usize) -> usize
    requires { AreInOrder spans.now }
    ensures { LowersEarlier index.now change spans.now unit result }
{
    let mut need = unit;
    for earlier in (0..spans.len()).rev() {
        let span = spans[earlier];
        if span.to < need || need <= change.from {
            break;
        }
        if span.from < need && may_enclose(index, change, span) {
            need = span.from;
        }
    }
    need
}

fn first_round(index: &Index, change: Span, later: &[Span]) -> Option<Span>
    ensures { result ≡ find (is_round index.now change change.from) later.now }
{
    later
        .iter()
        .copied()
        .find(|span| is_round(index, change, change.from, *span))
}

fn last_round(index: &Index, spans: &[Span], change: Span) -> Option<Span>
    ensures { result ≡ round_upto index.now spans.now change change.from (length spans.now) }
{
    for earlier in (0..spans.len()).rev() {
        let span = spans[earlier];
        if is_round(index, change, change.from, span) {
            return Some(span);
        }
    }
    None
}

fn is_round(index: &Index, change: Span, unit: usize, span: Span) -> bool
    ensures { result ≡ is_round index.now change unit span }
{
    span.from <= unit && unit < span.to && may_enclose(index, change, span)
}

fn may_enclose(index: &Index, change: Span, span: Span) -> bool
    ensures { result ≡ may_enclose index.now change span }
{
    !is_change_at(index, span.revision) && are_alike_at(index, change.revision, span.revision)
}
