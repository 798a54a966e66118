//! The elements among nodes.

ghost use Rattle.std.specs.Prelude.{◌≡◌, ◌+◌, [], true, length, map, slice_get, is_some, IsNone, IfSome};
ghost use Rattle.std.specs.List.{list_all};
ghost use Rattle.redl_reading.specs.Steps.{Gives};
ghost use Rattle.redl_tree.specs.declared.kinds.Space.TheVariants.{W};
ghost use Rattle.redl_tree.specs.Model.Folds.{nodes_in};
ghost use Rattle.redl_tree.specs.Model.IdleTexts.{idle_nodes};
ghost use Rattle.redl_tree.specs.Model.Kids.{has_element};
ghost use Rattle.redl_tree.specs.Model.Nodes.{no_nodes, in_front, items_of};
ghost use Rattle.redl_tree.specs.Model.View.{item_of, nodes_of};
ghost use Rattle.redl_opc.specs.Elements.{element_of, elements_of, only_element, element_in};
ghost use Rattle.redl_opc.specs.Shape.{is_part};
ghost use Rattle.redl_opc.specs.Inside.Unnamed.{IsUnnamed};

use redl_laid::{First, Laid};
use redl_tree::{Elem, Node, Plain, has_elements};

// The first node that is an element or some of them, and the nodes after it.
fn first_with_element<'n, 'a>(nodes: &'n [Node<'a>]) -> Option<(&'n Node<'a>, &'n [Node<'a>])>
    ensures found { IfSome result (λ x. elements_of (nodes_of nodes.now) ≡ elements_of (in_front (item_of x.0.now) (nodes_of x.1.now))) }
    ensures some { IfSome result (λ x. has_element (in_front (item_of x.0.now) no_nodes) ≡ true) }
    ensures none { IsNone result → elements_of (nodes_of nodes.now) ≡ [] }
{
    for place in 0..nodes.len() {
        let node = &nodes[place];
        match node {
            Node::Elem(_) => return Some((node, &nodes[place + 1..])),
            Node::Plain(_) => return Some((node, &nodes[place + 1..])),
            Node::Bytes(_) => {}
        }
    }
    None
}

/// The only element of nodes. `None` if they have no element, or several, or one that is kept as its text, which has none of the
/// names that this crate asks for.
pub(crate) fn only_element<'n, 'a>(nodes: &'n [Node<'a>]) -> Option<&'n Elem<'a>>
    ensures one { IfSome result (λ elem. only_element (nodes_of nodes.now) ≡ Some (element_of elem.now)) }
    ensures none { IsNone result → IsUnnamed (only_element (nodes_of nodes.now)) }
{
    let (node, rest) = first_with_element(nodes)?;
    if has_elements(rest) {
        return None;
    }
    as_element(node)
}

/// Whether nodes have one element alone.
pub(crate) fn has_one(nodes: &[Node]) -> bool
    ensures { result ≡ is_some (only_element (nodes_of nodes.now)) }
{
    match first_with_element(nodes) {
        Some((node, rest)) => is_one(node) && !has_elements(rest),
        None => false,
    }
}

// Whether a node is one element.
fn is_one(node: &Node) -> bool
    ensures { result ≡ is_some (only_element (in_front (item_of node.now) no_nodes)) }
{
    match node {
        Node::Elem(_) => true,
        Node::Bytes(_) => false,
        Node::Plain(plain) => is_one_kept(plain),
    }
}

// Whether nodes that are kept as text are one element.
fn is_one_kept(plain: &Plain) -> bool
    ensures { result ≡ is_some (only_element (idle_nodes plain.now)) }
{
    match after_element(Laid::of(plain)) {
        Some(rest) => after_element(rest).is_none(),
        None => false,
    }
}

// The nodes after the first element of a text. `None` if it has no element.
fn after_element(laid: Laid<'_>) -> Option<Laid<'_>>
    ensures found { IfSome result (λ rest. length (elements_of (nodes_in W laid.entry)) ≡ length (elements_of (nodes_in W rest)) + 1) }
    ensures none { IsNone result → elements_of (nodes_in W laid.entry) ≡ [] }
{
    let mut left = laid;
    loop {
        let (first, rest) = left.first()?;
        match first {
            First::Elem(_) => return Some(rest),
            First::Bytes(_) => left = rest,
        }
    }
}

// A node as an element. `None` if it is kept as text.
fn as_element<'n, 'a>(node: &'n Node<'a>) -> Option<&'n Elem<'a>>
    ensures { Gives (λ elem. element_of elem.now) result (element_in (Some (item_of node.now))) }
{
    match node {
        Node::Elem(elem) => Some(elem),
        Node::Bytes(_) | Node::Plain(_) => None,
    }
}

fn node_at<'n, 'a>(nodes: &'n [Node<'a>], place: usize) -> Option<&'n Node<'a>>
    ensures { Gives (λ node. item_of node.now) result (slice_get (map item_of nodes.now) place) }
{
    nodes.get(place)
}

/// The element at a place among nodes that have no elements but parts. `None` if there is no element at it.
pub(crate) fn element_at<'n, 'a>(nodes: &'n [Node<'a>], place: usize) -> Option<&'n Elem<'a>>
    requires { list_all is_part (elements_of (nodes_of nodes.now)) ≡ true }
    ensures { Gives (λ elem. element_of elem.now) result (element_in (slice_get (items_of (nodes_of nodes.now)) place)) }
{
    as_element(node_at(nodes, place)?)
}
