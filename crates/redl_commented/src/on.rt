//! The comments on each revision.

ghost use Rattle.std.specs.Prelude.{◌≡◌, ◌+◌, ◌-◌, ◌<◌, ℕ, Some, IfOk, OnOk, filter, get_or, length, max, replicate, slice_get, if◌then◌else◌};
ghost use Rattle.std.specs.List.Sorted.{IsNonDecreasingBy};
ghost use Rattle.std.specs.Option.{option_map};
ghost use Rattle.redl_commented.specs.Inside.Fronts.{AreEnds, RemarksEach, is_by};
ghost use Rattle.redl_commented.specs.On.{end_of, is_of, joined, no_remarks, remarks_on, start_of};
ghost use Rattle.redl_commented.specs.Orders.{Rises, in_order};

use crate::ends::{number_by, sorted_ends};
use crate::front::Front;
use crate::range::Ranged;
use crate::remarks::Remarks;
use redl_spans::Span;
use std::alloc::{AllocError, Global};

/// The comments on the revisions from number 1 on, so many, where members hold these spans and comments have these ranges. `Err` means
/// out of memory, here and below.
pub(crate) fn remarks_on(
    alloc: Global,
    spans: &[Span],
    all: Vec<Ranged>,
    revisions: usize,
) -> Result<Vec<Remarks>, AllocError>
    ensures { IfOk result (λ on. (k : ℕ) → k < revisions → slice_get on.items k ≡ Some (remarks_on spans.now all.items (k + 1))) }
{
    let members = by_end(alloc, spans)?;
    let comments = by_start(all)?;
    let ends = sorted_ends(alloc, &comments)?;
    let mut on = nothing_on(alloc, revisions)?;
    remark_all(alloc, &comments, &ends, &members, &mut on)?;
    Ok(on)
}

fn by_end(alloc: Global, spans: &[Span]) -> Result<Vec<Span>, AllocError>
    ensures { IfOk result (λ sorted. sorted.items ≡ in_order end_of spans.now) }
{
    let mut sorted = Vec::from_slice(alloc, spans)?;
    sorted.sort_by_key(|span| span.to)?;
    Ok(sorted)
}

fn by_start(all: Vec<Ranged>) -> Result<Vec<Ranged>, AllocError>
    ensures { IfOk result (λ sorted. sorted.items ≡ in_order start_of all.items) }
{
    let mut sorted = all;
    sorted.sort_by_key(|ranged| ranged.range.from)?;
    Ok(sorted)
}

/// None on each of so many revisions.
pub(crate) fn nothing_on(alloc: Global, revisions: usize) -> Result<Vec<Remarks>, AllocError>
    ensures { IfOk result (λ on. on.items ≡ replicate revisions no_remarks) }
{
    let mut on = Vec::with_capacity(alloc, revisions)?;
    for _ in 0..revisions {
        on.push(Remarks::none(alloc))?;
    }
    Ok(on)
}

// Each revision has the comments on its members, where both lists are in order and the comments have these ends.
fn remark_all(
    alloc: Global,
    all: &[Ranged],
    ends: &[usize],
    spans: &[Span],
    on: &mut Vec<Remarks>,
) -> Result<(), AllocError>
    requires starts { Rises start_of all.now }
    requires order { IsNonDecreasingBy (λ end. end) ends.now }
    requires ends { AreEnds ends.now all.now }
    requires members { Rises end_of spans.now }
    ensures { OnOk result (RemarksEach on.old.items on.new.items all.now spans.now) }
{
    let mut front = Front {
        next: 0,
        top: Vec::new(alloc),
    };
    for at in 0..spans.len() {
        let span = span_at(spans, at);
        front.advance(all, span.to)?;
        let found = front.ending_after(alloc, span.from)?;
        let number = number_on(&front, ends, span.from);
        remark(span, &found, number, on)?;
    }
    Ok(())
}

fn span_at(spans: &[Span], at: usize) -> Span
    requires { at < length spans.now }
    ensures { result ≡ get_or spans.now at result }
{
    spans[at]
}

// How many comments are on a member that begins here.
fn number_on(front: &Front, ends: &[usize], from: usize) -> usize
    requires { IsNonDecreasingBy (λ end. end) ends.now }
    ensures { result ≡ front.now.next - length (filter (is_by from) ends.now) }
{
    front.next.saturating_sub(number_by(ends, from))
}

// A revision has the comments on a member of it, of which so many are on it.
fn remark(
    span: Span,
    found: &[Ranged],
    number: usize,
    on: &mut Vec<Remarks>,
) -> Result<(), AllocError>
    ensures { OnOk result ((k : ℕ) → slice_get on.new.items k ≡ option_map (λ remarks. if is_of (k + 1) span then record { kept = joined remarks.kept found.now; most = max remarks.most number } else remarks) (slice_get on.old.items k)) }
{
    if span.revision == 0 {
        return Ok(());
    }
    let place = span.revision as usize - 1;
    if place < on.len() {
        on[place].add(found, number)?;
    }
    Ok(())
}
