//! Which leaves hold members and markers of which revisions.

ghost use Rattle.std.specs.Prelude.{◌≡◌, ◌+◌, ◌<◌, ◌≤◌, ◌^◌, ◌||◌, ℕ, nat_lt, vec_len, vec_capacity, OnOk, OnErr, IfOk, IsOk};
ghost use Rattle.std.specs.List.Sorted.{IsNonDecreasingBy};
ghost use Rattle.redl_editor.specs.Holdings.{HoldsOf, Notes, is_held, is_touched, nodes_hold, item_holds, slots_hold, view_holds, view_count, member_count, item_members, slots_members, view_members};
ghost use Rattle.redl_leaves.specs.View.{leaf_view, leaf_model, present_of, states_of, view_of, container_of};
ghost use Rattle.redl_tree.specs.Leaves.Leaf.{leaf_count};
ghost use Rattle.redl_tree.specs.Leaves.States.{slots_of};
ghost use Rattle.redl_tree.specs.Model.View.{nodes_of, item_of, tag_of, kids_of};
ghost use Rattle.redl_tree.specs.Model.Nodes.{element_item};

use redl_leaves::{Container, Leaf, Slot};
use redl_tree::{Elem, Node};
use std::alloc::{AllocError, Global};

/// A leaf that holds a member or a marker of a revision.
#[derive(Clone, Copy)]
pub(crate) struct Held {
    /// The number of the revision.
    pub rev: u32,
    /// The number of the leaf, from 0 in the order of the text.
    pub leaf: u32,
}

/// What the leaves of a story hold, in the order of revisions. `Err` means out of memory.
pub(crate) fn held_by_story(alloc: Global, slots: &[Slot]) -> Result<Vec<Held>, AllocError>
    ensures held { IfOk result (λ held. HoldsOf held.items (slots_of (states_of slots.now))) }

    // A story without a member or a marker takes no memory.
    ensures succeeds { slots_members (slots_of (states_of slots.now)) ≡ 0 → leaf_count (slots_of (states_of slots.now)) < 2 ^ 32 → IsOk result }
{
    let mut held = Vec::new(alloc);
    note_slots(slots, 0, &mut held)?;
    held.sort_unstable_by_key(
        |one: &Held| -> u32
            ensures { result ≡ one.now.rev }
        { one.rev },
    );
    Ok(held)
}

/// Adds the leaves that hold a member or a marker of this revision. `Err` means out of memory.
pub(crate) fn add_touched(held: &[Held], rev: u32, leaves: &mut Vec<u32>) -> Result<(), AllocError>
    requires rises { IsNonDecreasingBy (λ one. one.rev) held.now }
    ensures { OnOk result ((leaf : ℕ) → is_touched leaves.new.items leaf ≡ (is_touched leaves.old.items leaf || is_held held.now rev leaf)) }
{
    let start = held.partition_point(
        |one: &Held| -> bool
            ensures { result ≡ nat_lt one.now.rev rev }
        { one.rev < rev },
    );
    for at in start..held.len() {
        if held[at].rev != rev {
            return Ok(());
        }
        leaves.push(held[at].leaf)?;
    }
    Ok(())
}

/// Notes what the leaves hold, where the first of them has this number, and gives the number of the next one. `Err` means out of
/// memory, and comes only where the list had no room for all notes.
#[cycle(hold)]
pub(crate) fn note_slots(
    slots: &[Slot],
    first: u32,
    held: &mut Vec<Held>,
) -> Result<u32, AllocError>
    ensures next { IfOk result (λ next. next ≡ first + leaf_count (slots_of (states_of slots.now))) }
    ensures held { OnOk result (Notes (slots_hold first (slots_of (states_of slots.now))) held.old.items held.new.items) }
    ensures len { OnOk result (vec_len held.new ≡ vec_len held.old + slots_members (slots_of (states_of slots.now))) }
    ensures capacity { vec_capacity held.old ≤ vec_capacity held.new }
    ensures full { first + leaf_count (slots_of (states_of slots.now)) < 2 ^ 32 → OnErr result (vec_capacity held.old < vec_len held.old + slots_members (slots_of (states_of slots.now))) }
{
    let mut next = first;
    for slot in slots {
        next = note_slot(slot, next, held)?;
    }
    Ok(next)
}

#[cycle(hold)]
fn note_slot(slot: &Slot, first: u32, held: &mut Vec<Held>) -> Result<u32, AllocError>
    ensures next { IfOk result (λ next. next ≡ first + view_count (view_of slot.now)) }
    ensures held { OnOk result (Notes (view_holds first (view_of slot.now)) held.old.items held.new.items) }
    ensures len { OnOk result (vec_len held.new ≡ vec_len held.old + view_members (view_of slot.now)) }
    ensures capacity { vec_capacity held.old ≤ vec_capacity held.new }
    ensures full { first + view_count (view_of slot.now) < 2 ^ 32 → OnErr result (vec_capacity held.old < vec_len held.old + view_members (view_of slot.now)) }
{
    match slot {
        Slot::Leaf(leaf) => note_leaf(leaf, first, held),
        Slot::Container(container) => note_container(container, first, held),
    }
}

#[cycle(hold)]
fn note_container(
    container: &Container,
    first: u32,
    held: &mut Vec<Held>,
) -> Result<u32, AllocError>
    ensures next { IfOk result (λ next. next ≡ first + view_count (container_of container.now)) }
    ensures held { OnOk result (Notes (view_holds first (container_of container.now)) held.old.items held.new.items) }
    ensures len { OnOk result (vec_len held.new ≡ vec_len held.old + view_members (container_of container.now)) }
    ensures capacity { vec_capacity held.old ≤ vec_capacity held.new }
    ensures full { first + view_count (container_of container.now) < 2 ^ 32 → OnErr result (vec_capacity held.old < vec_len held.old + view_members (container_of container.now)) }
{
    let next = note_slots(&container.slots, first, held)?;
    Ok(next)
}

// Notes what a leaf holds. Where the list has room for it, that takes no memory.
fn note_leaf(leaf: &Leaf, number: u32, held: &mut Vec<Held>) -> Result<u32, AllocError>
    ensures next { IfOk result (λ next. next ≡ number + view_count (leaf_view (leaf_model leaf.now) (present_of leaf.now))) }
    ensures held { OnOk result (Notes (view_holds number (leaf_view (leaf_model leaf.now) (present_of leaf.now))) held.old.items held.new.items) }
    ensures len { OnOk result (vec_len held.new ≡ vec_len held.old + member_count (nodes_of leaf.now.original.items)) }
    ensures capacity { vec_capacity held.old ≤ vec_capacity held.new }
    ensures full { number + 1 < 2 ^ 32 → OnErr result (vec_capacity held.old < vec_len held.old + member_count (nodes_of leaf.now.original.items)) }
{
    note_nodes(&leaf.original, number, held)?;
    number_after(number)
}

// The number of the next leaf. A package has fewer nodes than there are numbers.
fn number_after(number: u32) -> Result<u32, AllocError>
    ensures next { IfOk result (λ next. next ≡ number + 1) }
    ensures fits { number + 1 < 2 ^ 32 → IsOk result }
{
    number.checked_add(1).ok_or(AllocError)
}

#[cycle(nodes)]
fn note_nodes(nodes: &[Node], leaf: u32, held: &mut Vec<Held>) -> Result<(), AllocError>
    ensures held { OnOk result (Notes (nodes_hold leaf (nodes_of nodes.now)) held.old.items held.new.items) }
    ensures len { OnOk result (vec_len held.new ≡ vec_len held.old + member_count (nodes_of nodes.now)) }
    ensures capacity { vec_capacity held.old ≤ vec_capacity held.new }
    ensures full { OnErr result (vec_capacity held.old < vec_len held.old + member_count (nodes_of nodes.now)) }
{
    for node in nodes {
        note_node(node, leaf, held)?;
    }
    Ok(())
}

#[cycle(nodes)]
fn note_node(node: &Node, leaf: u32, held: &mut Vec<Held>) -> Result<(), AllocError>
    ensures held { OnOk result (Notes (item_holds leaf (item_of node.now)) held.old.items held.new.items) }
    ensures len { OnOk result (vec_len held.new ≡ vec_len held.old + item_members (item_of node.now)) }
    ensures capacity { vec_capacity held.old ≤ vec_capacity held.new }
    ensures full { OnErr result (vec_capacity held.old < vec_len held.old + item_members (item_of node.now)) }
{
    match node {
        Node::Elem(elem) => note_elem(elem, leaf, held),
        Node::Bytes(_) => Ok(()),
        Node::Plain(_) => Ok(()),
    }
}

#[cycle(nodes)]
fn note_elem(elem: &Elem, leaf: u32, held: &mut Vec<Held>) -> Result<(), AllocError>
    ensures held { OnOk result (Notes (item_holds leaf (element_item (tag_of elem.now) (kids_of elem.now))) held.old.items held.new.items) }
    ensures len { OnOk result (vec_len held.new ≡ vec_len held.old + item_members (element_item (tag_of elem.now) (kids_of elem.now))) }
    ensures capacity { vec_capacity held.old ≤ vec_capacity held.new }
    ensures full { OnErr result (vec_capacity held.old < vec_len held.old + item_members (element_item (tag_of elem.now) (kids_of elem.now))) }
{
    let rev = elem.rev();
    if rev != 0 {
        held.push(Held { rev, leaf })?;
    }
    note_nodes(elem.kids(), leaf, held)
}
