//! The leaf at the end of a way, and its pass.

ghost use Rattle.std.specs.Prelude.{◌≡◌, ◌≤◌, ◌+◌, None, Some, IfOk, IsOk};
ghost use Rattle.redl_leaves.specs.Finds.{found_leaf, leaf_in, size_at};
ghost use Rattle.redl_leaves.specs.View.{states_of, view_of, container_of};
ghost use Rattle.redl_tree.specs.Leaves.Present.{pass_leaf};
ghost use Rattle.redl_tree.specs.Leaves.Slots.{Leaf as LeafModel};
ghost use Rattle.redl_tree.specs.Leaves.States.{slots_of};
ghost use Rattle.redl_tree.specs.Leaves.Ways.{leaf_at};
ghost use Rattle.redl_tree.specs.Model.Count.{count};
ghost use Rattle.redl_tree.specs.Model.View.{nodes_of};

use crate::slots::{Container, Leaf, Slot};
use redl_resolve::{Steps, pass_leaf};
use redl_tree::{Node, Say};
use std::alloc::{AllocError, Global};
use std::sync::ledger::Ledger;

/// The leaf at the end of a way. `None` if none is there.
#[cycle(find)]
pub(crate) fn find_leaf<'s, 'a>(slots: &'s [Slot<'a>], way: &[u32]) -> Option<&'s Leaf<'a>>
    ensures { found_leaf result ≡ leaf_at way.now (slots_of (states_of slots.now)) }
{
    match way {
        [at, rest @ ..] => match slots.get(*at as usize) {
            Some(slot) => find_in(slot, rest),
            None => None,
        },
        [] => None,
    }
}

#[cycle(find)]
fn find_in<'s, 'a>(slot: &'s Slot<'a>, way: &[u32]) -> Option<&'s Leaf<'a>>
    ensures { found_leaf result ≡ leaf_in way.now (view_of slot.now) }
{
    match slot {
        Slot::Leaf(leaf) => Some(leaf),
        Slot::Container(container) => find_below(container, way),
    }
}

#[cycle(find)]
fn find_below<'s, 'a>(container: &'s Container<'a>, way: &[u32]) -> Option<&'s Leaf<'a>>
    ensures { found_leaf result ≡ leaf_in way.now (container_of container.now) }
{
    find_leaf(&container.slots, way)
}

/// The pass of the leaf at the end of a way, under these says. It counts at most a step for each of its nodes, also with an
/// error, and at least one for each node of the result. `Err` means out of memory, and comes only where a leaf is there.
pub fn make_leaf<'a, L: Ledger>(
    alloc: Global,
    slots: &[Slot<'a>],
    way: &[u32],
    says: &[Say],
    steps: &mut Steps<L>,
) -> Result<Vec<Node<'a>>, AllocError>
    ensures made { IfOk result (λ made. (leaf : LeafModel) → leaf_at way.now (slots_of (states_of slots.now)) ≡ Some leaf
        → nodes_of made.items ≡ pass_leaf says.now leaf) }
    ensures steps { steps.new ≤ steps.old + size_at (leaf_at way.now (slots_of (states_of slots.now))) }
    ensures counted { IfOk result (λ made. steps.old + count (nodes_of made.items) ≤ steps.new) }
    ensures succeeds { leaf_at way.now (slots_of (states_of slots.now)) ≡ None → IsOk result }
{
    match find_leaf(slots, way) {
        Some(leaf) => {
            let made = pass_leaf(
                alloc,
                &leaf.original,
                leaf.among_blocks,
                leaf.next,
                says,
                steps,
            )?;
            Ok(made)
        }
        None => Ok(Vec::new(alloc)),
    }
}
