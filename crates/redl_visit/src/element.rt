//! An element as a walk sees it.

ghost use Rattle.std.specs.Prelude.{◌≡◌, ◌<◌, ◌≤◌, ℕ, List, map};
ghost use Rattle.redl_tree.specs.Model.Elements.{elements};
ghost use Rattle.redl_tree.specs.Model.IdleTexts.{idle_nodes};
ghost use Rattle.redl_tree.specs.Model.Nodes.{Tag, Nodes, Item, from_items};
ghost use Rattle.redl_tree.specs.Model.View.{item_of, tag_of, kids_of};
ghost use Rattle.redl_tree.specs.declared.node.Body.TheViews.{size-Node};
ghost use Rattle.redl_tree.specs.declared.node.Elem.{size-Elem};
ghost use Rattle.redl_visit.specs.Elements.{IsFound, IsKept};
ghost use denote.Param.Weighed.{most};

use redl_tree::{Elem, Node, Plain};

/// An element with its kids. Only `Elem<'a>` is one: functions that call each other can't name `'a` in a bound, so they name this.
pub trait Element {
    /// What its kids are: elements, and bytes between them.
    type Node;

    /// Idle elements among its kids that are kept as their text.
    type Plain;

    ghost tag: { Self → Tag };

    ghost kids: { Self → Nodes };

    ghost item: { Self.Node → Item };

    ghost text: { Self.Plain → List ℕ };

    // What grows from a kid to its element, by which the walk ends: of an element, and of a node.
    ghost depth: { Self → ℕ };

    ghost node_depth: { Self.Node → ℕ };

    /// Its kids.
    fn nodes(&self) -> &[Self::Node]
        ensures kids { from_items (map item result.now) ≡ kids self.now }
        ensures below { most node_depth result.now < depth self.now };

    /// The element that a node is, if it is one.
    fn element(node: &Self::Node) -> Option<&Self>
        ensures { IsFound tag kids depth (item node.now) (node_depth node.now) result };

    /// The idle elements that a node is, if it is their text.
    fn plain(node: &Self::Node) -> Option<&Self::Plain>
        ensures { IsKept text (item node.now) result };

    /// The number of these elements, at every depth.
    fn elems(plain: &Self::Plain) -> u32
        ensures { result ≡ elements (idle_nodes (text plain.now)) };
}

impl<'a> Element for Elem<'a> {
    type Node = Node<'a>;

    type Plain = Plain<'a>;

    ghost tag = { tag_of };

    ghost kids = { kids_of };

    ghost item = { item_of };

    ghost text = { λ t. t };

    ghost depth = { size-Elem };

    ghost node_depth = { size-Node };

    #[inline(always)]
    fn nodes(&self) -> &[Node<'a>] {
        self.kids()
    }

    #[inline(always)]
    fn element<'b>(node: &'b Node<'a>) -> Option<&'b Elem<'a>> {
        match node {
            Node::Elem(elem) => Some(elem),
            Node::Bytes(_) => None,
            Node::Plain(_) => None,
        }
    }

    #[inline(always)]
    fn plain<'b>(node: &'b Node<'a>) -> Option<&'b Plain<'a>> {
        match node {
            Node::Plain(plain) => Some(plain),
            Node::Elem(_) | Node::Bytes(_) => None,
        }
    }

    #[inline(always)]
    fn elems(plain: &Plain<'a>) -> u32 {
        plain.elems()
    }
}
