//! The leaf at the end of a way.

ghost use Rattle.std.specs.Prelude.{◌≡◌, ◌||◌};
ghost use Rattle.redl_leaves.specs.Lends.{lent_nodes, lent_in, lent_leaf};
ghost use Rattle.redl_leaves.specs.View.{states_of, view_of, container_of};
ghost use Rattle.redl_tree.specs.Leaves.Ways.{lent_at};
ghost use Rattle.redl_tree.specs.Model.View.{nodes_of};

use crate::slots::{Container, Leaf, Slot};
use crate::writing::present;
use redl_tree::Node;

/// The present nodes of the leaf at the end of a way: none of them where a container on the way goes. `None` if no leaf is
/// there. `gone`: a container round all of the slots goes.
#[cycle(lend)]
pub fn lend<'s, 'a>(slots: &'s [Slot<'a>], way: &[u32], gone: bool) -> Option<&'s [Node<'a>]>
    ensures { lent_nodes result ≡ lent_at gone way.now (states_of slots.now) }
{
    match way {
        [at, rest @ ..] => match slots.get(*at as usize) {
            Some(slot) => lend_in(slot, rest, gone),
            None => None,
        },
        [] => None,
    }
}

#[cycle(lend)]
fn lend_in<'s, 'a>(slot: &'s Slot<'a>, way: &[u32], gone: bool) -> Option<&'s [Node<'a>]>
    ensures { lent_nodes result ≡ lent_in gone way.now (view_of slot.now) }
{
    match slot {
        Slot::Leaf(leaf) => Some(lend_leaf(leaf, gone)),
        Slot::Container(container) => lend_below(container, way, gone),
    }
}

#[cycle(lend)]
fn lend_below<'s, 'a>(
    container: &'s Container<'a>,
    way: &[u32],
    gone: bool,
) -> Option<&'s [Node<'a>]>
    ensures { lent_nodes result ≡ lent_in gone way.now (container_of container.now) }
{
    lend(&container.slots, way, container.tally.gone || gone)
}

fn lend_leaf<'s, 'a>(leaf: &'s Leaf<'a>, gone: bool) -> &'s [Node<'a>]
    ensures { nodes_of result.now ≡ lent_leaf gone leaf.now }
{
    if gone {
        return &leaf.original[..0];
    }
    present(leaf)
}
