//! A leaf under new says.

ghost use Rattle.std.specs.Prelude.{◌≡◌};
ghost use Rattle.redl_leaves.specs.Members.{item_member};
ghost use Rattle.redl_leaves.specs.View.{leaf_model, present_of};
ghost use Rattle.redl_tree.specs.Leaves.Present.{pass_leaf};
ghost use Rattle.redl_tree.specs.Leaves.Settings.{has_member, is_decided};
ghost use Rattle.redl_tree.specs.Model.View.{nodes_of, item_of};

use crate::slots::Leaf;
use redl_tables::say_at;
use redl_tree::{Node, Say};

/// Gives a leaf its pass under these says. Where nothing in it is decided it keeps no second list.
pub(crate) fn put_leaf<'a>(leaf: &mut Leaf<'a>, passed: Vec<Node<'a>>, says: &[Say])
    ensures present { nodes_of passed.entry.items ≡ pass_leaf says.now (leaf_model leaf.old) → present_of leaf.new ≡ pass_leaf says.now (leaf_model leaf.old) }
    ensures same { leaf_model leaf.new ≡ leaf_model leaf.old }
{
    if has_decided(&leaf.original, says) {
        leaf.present = Some(passed);
    } else {
        leaf.present = None;
    }
}

// Whether a revision is decided of which a member or marker is among these nodes, at every depth.
#[cycle(decided)]
fn has_decided(nodes: &[Node], says: &[Say]) -> bool
    ensures { result ≡ has_member (is_decided says.now) (nodes_of nodes.now) }
{
    for kid in nodes {
        if is_decided_in(kid, says) {
            return true;
        }
    }
    false
}

#[cycle(decided)]
fn is_decided_in(node: &Node, says: &[Say]) -> bool
    ensures { result ≡ item_member (is_decided says.now) (item_of node.now) }
{
    match node {
        Node::Elem(elem) => is_decided_rev(says, elem.rev()) || has_decided(elem.kids(), says),
        Node::Bytes(_) => false,
        Node::Plain(_) => false,
    }
}

fn is_decided_rev(says: &[Say], rev: u32) -> bool
    ensures { result ≡ is_decided says.now rev }
{
    say_at(says, rev) != Say::Keep
}
