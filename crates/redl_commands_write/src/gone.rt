//! The note of locked revisions of which nothing is left.

ghost use Rattle.std.specs.Prelude.{◌≡◌, ℕ, true, IfOk, OnOk, if◌then◌else◌};
ghost use Rattle.std.specs.BTreeSet.{contains};
ghost use Rattle.std.specs.Ordering.{nat_cmp};
ghost use Rattle.redl_commands.specs.Choices.{is_among};
ghost use Rattle.redl_commands.specs.Notes.{locked_numbers, noting_gone, stands};
ghost use Rattle.redl_lines.specs.Remarks.{remarks_view};
ghost use Rattle.redl_tree.specs.Model.Nodes.{Nodes};
ghost use Rattle.redl_tree.specs.Model.View.{nodes_of};

use redl_index::Revision;
use redl_kinds::Lock;
use redl_lines::{Note, Remarks};
use redl_select::any_holds;
use redl_sittings::numbers_by_part;
use redl_tree::Node;
use std::alloc::{AllocError, Global};
use std::collections::BTreeSet;

/// The numbers of the revisions that one of these locks holds. `Err` means out of memory.
pub(crate) fn locked_numbers(
    alloc: Global,
    locks: &[Lock],
    revisions: &[Revision],
) -> Result<Vec<u32>, AllocError>
    ensures { IfOk result (λ numbers. numbers.items ≡ locked_numbers locks.now revisions.now) }
{
    let mut numbers = Vec::new(alloc);
    for revision in revisions {
        if any_holds(locks, revision) {
            numbers.push(revision.number)?;
        }
    }
    Ok(numbers)
}

/// Adds a note of each of these revisions of which no element stands among the nodes. `Err` means out of memory, and some notes may be
/// there.
///
/// Without revisions it takes no time.
pub(crate) fn note_gone(
    alloc: Global,
    numbers: &[u32],
    nodes: &[Node],
    remarks: &mut Remarks,
) -> Result<(), AllocError>
    ensures { OnOk result (remarks_view remarks.new ≡ noting_gone (nodes_of nodes.now) numbers.now (remarks_view remarks.old)) }
{
    if numbers.is_empty() {
        return Ok(());
    }
    let standing = standing_in(alloc, nodes)?;
    add_notes(numbers, &standing, remarks)
}

// The numbers of the revisions of which an element stands among the nodes, and 0.
fn standing_in(alloc: Global, nodes: &[Node]) -> Result<BTreeSet<u32>, AllocError>
    ensures { IfOk result (λ standing. (number : ℕ) → contains nat_cmp standing number ≡ stands (nodes_of nodes.now) number) }
{
    let parts = numbers_by_part(alloc, nodes)?;
    let mut standing = BTreeSet::new(alloc);
    for part in &parts {
        add_numbers(&mut standing, part)?;
    }
    Ok(standing)
}

fn add_numbers(standing: &mut BTreeSet<u32>, numbers: &[u32]) -> Result<(), AllocError>
    ensures { OnOk result ((number : ℕ) → contains nat_cmp standing.new number
        ≡ (if is_among numbers.now number then true else contains nat_cmp standing.old number)) }
{
    for number in numbers {
        standing.insert(*number)?;
    }
    Ok(())
}

// Adds a note of each number that isn't among those that stand.
fn add_notes(
    numbers: &[u32],
    standing: &BTreeSet<u32>,
    remarks: &mut Remarks,
) -> Result<(), AllocError>
    ensures { OnOk result ((nodes : Nodes) → ((number : ℕ) → contains nat_cmp standing.now number ≡ stands nodes number)
        → remarks_view remarks.new ≡ noting_gone nodes numbers.now (remarks_view remarks.old)) }
{
    for number in numbers {
        if !standing.contains(number) {
            remarks.notes.push(Note::Gone(*number))?;
        }
    }
    Ok(())
}
