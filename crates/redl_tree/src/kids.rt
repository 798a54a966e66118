//! Questions about the kids of an element.

ghost use Rattle.std.specs.Prelude.{◌≡◌};
ghost use Rattle.redl_tree.specs.Model.Kids.{has_element};
ghost use Rattle.redl_tree.specs.Model.Nodes.{no_nodes, in_front};
ghost use Rattle.redl_tree.specs.Model.View.{nodes_of, item_of};

use crate::Node;

/// Whether there is an element among these.
pub fn has_elements(nodes: &[Node]) -> bool
    ensures { result ≡ has_element (nodes_of nodes.now) }
{
    for node in nodes {
        if is_element(node) {
            return true;
        }
    }
    false
}

// Whether a node is an element, or idle elements that are kept as their text.
#[inline(always)]
fn is_element(node: &Node) -> bool
    ensures { result ≡ has_element (in_front (item_of node.now) no_nodes) }
{
    match node {
        Node::Elem(_) => true,
        Node::Plain(_) => true,
        Node::Bytes(_) => false,
    }
}
