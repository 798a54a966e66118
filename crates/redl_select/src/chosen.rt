//! The numbers that a selection chooses.

ghost use Rattle.std.specs.Prelude.{◌≡◌, ◌↔◌, ◌-◌, ◌<◌, ◌≤◌, ℕ, Contains, IfOk, IsTrue, List, Some, length, slice_get};
ghost use Rattle.std.specs.List.{list_any};
ghost use Rattle.std.specs.List.Sorted.{IsStrictlyIncreasing};
ghost use Rattle.redl_index.specs.declared.revision.Revision.{Revision};
ghost use Rattle.redl_kinds.specs.Selections.{has_number};
ghost use Rattle.redl_select.specs.Selections.{IsChosen, asks_edits, chooses, chosen, edit_at, is_of, is_within, numbers_from, revision_at, selects};
ghost use Rattle.redl_kinds.specs.Views.{selection_of};

use crate::in_order::in_order;
use redl_index::{Index, Revision};
use redl_kinds::{Listed, Selection};
use std::alloc::{AllocError, Global};

/// The numbers that the selection chooses in the package with this index, ascending, each once. `edits` has the edit of each
/// revision, in the order of the numbers; only a selection that lists edits looks at it.
///
/// A number that stands alone in a list is chosen also where the index does not have it. `Err` means out of memory.
pub fn choose(
    alloc: Global,
    index: &Index,
    edits: &[u32],
    sel: &Selection,
) -> Result<Vec<u32>, AllocError>
    ensures value { IfOk result (λ numbers. numbers.items ≡ chosen index.now edits.now (selection_of sel.now)) }
    ensures ascending { IfOk result (λ numbers. IsStrictlyIncreasing numbers.items) }
    ensures chosen { IfOk result (λ numbers. (number : ℕ) → Contains numbers.items number ↔ IsChosen index.now edits.now (selection_of sel.now) number) }
{
    match sel {
        Selection::Numbers(listed) => in_order(alloc, index.count(), listed),
        _ => numbers_of_selected(alloc, index, edits, sel),
    }
}

// The numbers of the revisions that the selection means.
fn numbers_of_selected(
    alloc: Global,
    index: &Index,
    edits: &[u32],
    sel: &Selection,
) -> Result<Vec<u32>, AllocError>
    ensures { IfOk result (λ numbers. numbers.items ≡ numbers_from (selection_of sel.now) edits.now 1 index.now) }
{
    let mut numbers = Vec::new(alloc);
    for place in 0..index.count() {
        let number = place + 1;
        if selects_number(index, edits, sel, number) {
            numbers.push(number)?;
        }
    }
    Ok(numbers)
}

// Whether the selection means the revision with this number.
fn selects_number(index: &Index, edits: &[u32], sel: &Selection, number: u32) -> bool
    requires { number ≤ length index.now }
    ensures { (revision : Revision) → slice_get index.now (number - 1) ≡ Some revision → 0 < number → result ≡ selects (selection_of sel.now) edits.now revision }
{
    match index.get(number) {
        Some(revision) => selects(sel, edits, revision),
        None => false,
    }
}

/// Whether the selection chooses this revision, which has its number in some package. `edits` has the edit of each revision of the
/// package, in the order of the numbers; only a selection that lists edits looks at it.
pub fn chooses(sel: &Selection, edits: &[u32], revision: &Revision) -> bool
    ensures value { result ≡ chooses (selection_of sel.now) edits.now revision.now }
    ensures chosen { (revisions : List Revision) → revision_at revisions revision.now.number ≡ Some revision.now
        → IsTrue result ↔ IsChosen revisions edits.now (selection_of sel.now) revision.now.number }
{
    match sel {
        Selection::Numbers(listed) => is_among(listed, revision.number),
        _ => selects(sel, edits, revision),
    }
}

// Whether an item of a list has the number.
fn is_among(listed: &[Listed], number: u32) -> bool
    ensures { result ≡ list_any (has_number number) listed.now }
{
    listed.iter().any(|item| item.has(number))
}

// Whether the selection means this revision. A list of numbers is no test of revisions.
fn selects(sel: &Selection, edits: &[u32], revision: &Revision) -> bool
    ensures { result ≡ selects (selection_of sel.now) edits.now revision.now }
{
    match sel {
        Selection::All => true,
        Selection::Numbers(_) => false,
        Selection::Author(name) => revision.author.as_bytes() == name.as_bytes(),
        Selection::Span(start, end) => is_within(*start, *end, revision.seconds),
        Selection::Kind(kind) => revision.kind == *kind,
        Selection::Group(group) => group.has(revision.kind),
        Selection::Edits(listed) => is_of(listed, edit_at(edits, revision.number)),
    }
}

// The edit of the revision with this number.
fn edit_at(edits: &[u32], number: u32) -> Option<u32>
    ensures { result ≡ edit_at edits.now number }
{
    let place = number.checked_sub(1)?;
    edits.get(place as usize).copied()
}

// Whether an item of a list has the number of this edit.
fn is_of(listed: &[Listed], edit: Option<u32>) -> bool
    ensures { result ≡ is_of listed.now edit }
{
    edit.is_some_and(|edit| is_among(listed, edit))
}

/// Whether the selection depends on the edits of revisions. Where it doesn't, it chooses the same by any edits.
pub fn asks_edits(sel: &Selection) -> bool
    ensures { result ≡ asks_edits (selection_of sel.now) }
{
    matches!(sel, Selection::Edits(_))
}

/// Whether the moment is from the first on and before the second. Without a moment it isn't.
pub(crate) fn is_within(start: i64, end: i64, moment: Option<i64>) -> bool
    ensures { result ≡ is_within start end moment }
{
    moment.is_some_and(|moment| start <= moment && moment < end)
}
