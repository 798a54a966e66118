//! Whether a row or a cell has a member.

ghost use Rattle.std.specs.Prelude.{◌≡◌, ◌||◌};
ghost use Rattle.std.specs.List.{list_any};
ghost use Rattle.redl_spans.specs.Inside.Items.{item_members, item_property_members};
ghost use Rattle.redl_spans.specs.Members.{has_edge, has_own_edge, is_row_or_cell, members, own_member};
ghost use Rattle.redl_tree.specs.Model.View.{item_of, kids_of, nodes_of, tag_of};

use redl_tree::{Elem, Kind, Node, is_quiet};

/// Whether the properties among the kids of an element have a member of a row or a cell.
pub(crate) fn has_edge(kids: &[Node]) -> bool
    ensures { result ≡ has_edge (nodes_of kids.now) }
{
    for node in kids {
        if has_edge_in(node) {
            return true;
        }
    }
    false
}

fn has_edge_in(node: &Node) -> bool
    ensures { result ≡ list_any has_own_edge (item_property_members (item_of node.now)) }
{
    match node {
        Node::Elem(elem) if is_quiet(elem) => have_edge(elem.kids()),
        Node::Elem(_) | Node::Plain(_) | Node::Bytes(_) => false,
    }
}

#[cycle(edge)]
fn have_edge(nodes: &[Node]) -> bool
    ensures { result ≡ list_any has_own_edge (members (nodes_of nodes.now)) }
{
    for node in nodes {
        if is_edge(node) {
            return true;
        }
    }
    false
}

#[cycle(edge)]
fn is_edge(node: &Node) -> bool
    ensures { result ≡ list_any has_own_edge (item_members (item_of node.now)) }
{
    match node {
        Node::Elem(elem) => is_edge_elem(elem),
        Node::Plain(_) | Node::Bytes(_) => false,
    }
}

#[cycle(edge)]
fn is_edge_elem(elem: &Elem) -> bool
    ensures { result ≡ (list_any has_own_edge (own_member (tag_of elem.now)) || list_any has_own_edge (members (kids_of elem.now))) }
{
    is_row_or_cell(elem.kind()) || have_edge(elem.kids())
}

fn is_row_or_cell(kind: Kind) -> bool
    ensures { result ≡ is_row_or_cell kind }
{
    match kind {
        Kind::Row(_) | Kind::Cell(_) => true,
        Kind::Plain | Kind::Content(_) | Kind::Mark(_) | Kind::Change(_) | Kind::Marker => false,
    }
}
