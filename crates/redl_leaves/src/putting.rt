//! A new pass of the leaf at the end of a way.

ghost use Rattle.std.specs.Prelude.{◌≡◌};
ghost use Rattle.redl_leaves.specs.Puts.{IsMade, IsMadeIn, remade, remade_in};
ghost use Rattle.redl_leaves.specs.View.{leaf_view, leaf_model, present_of, states_of, view_of, container_of};
ghost use Rattle.redl_tree.specs.Leaves.States.{slots_of};
ghost use Rattle.redl_tree.specs.Model.View.{nodes_of};

use crate::setting::put_leaf;
use crate::slots::{Container, Leaf, Slot};
use redl_tree::{Node, Say};

/// Gives the leaf at the end of a way its pass under these says. The tallies of the containers on the way stay.
#[cycle(put)]
pub(crate) fn put_at<'a>(slots: &mut [Slot<'a>], way: &[u32], made: Vec<Node<'a>>, says: &[Say])
    ensures { IsMade says.now way.now (nodes_of made.entry.items) (states_of slots.old) → states_of slots.new ≡ remade says.now way.now (states_of slots.old) }
{
    match way {
        [at, rest @ ..] => {
            let at = *at as usize;
            if at < slots.len() {
                put_in(&mut slots[at], rest, made, says);
            }
        }
        [] => {}
    }
}

#[cycle(put)]
fn put_in<'a>(slot: &mut Slot<'a>, way: &[u32], made: Vec<Node<'a>>, says: &[Say])
    ensures { IsMadeIn says.now way.now (nodes_of made.entry.items) (view_of slot.old) → view_of slot.new ≡ remade_in says.now way.now (view_of slot.old) }
{
    match slot {
        Slot::Leaf(leaf) => put_there(leaf, way, made, says),
        Slot::Container(container) => put_below(container, way, made, says),
    }
}

// Apart from `put_in`, since a write through a box in a variant is proved in two steps.
#[cycle(put)]
fn put_below<'a>(container: &mut Box<Container<'a>>, way: &[u32], made: Vec<Node<'a>>, says: &[Say])
    ensures { IsMadeIn says.now way.now (nodes_of made.entry.items) (container_of container.old.value)
        → container_of container.new.value ≡ remade_in says.now way.now (container_of container.old.value) }
{
    put_at(&mut container.slots, way, made, says);
}

// A leaf at the end of its way.
fn put_there<'a>(leaf: &mut Leaf<'a>, _way: &[u32], made: Vec<Node<'a>>, says: &[Say])
    ensures { IsMadeIn says.now _way.now (nodes_of made.entry.items) (leaf_view (leaf_model leaf.old) (present_of leaf.old))
        → leaf_view (leaf_model leaf.new) (present_of leaf.new) ≡ remade_in says.now _way.now (leaf_view (leaf_model leaf.old) (present_of leaf.old)) }
{
    put_leaf(leaf, made, says);
}
