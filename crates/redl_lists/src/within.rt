//! Elements at any depth, found by their names.

ghost use Rattle.std.specs.Prelude.{◌≡◌};
ghost use Rattle.redl_reading.specs.Steps.{Gives};
ghost use Rattle.redl_tree.specs.declared.kinds.Space.TheVariants.{W};
ghost use Rattle.redl_tree.specs.Model.Folds.{nodes_in};
ghost use Rattle.redl_tree.specs.Model.View.{item_of, nodes_of};
ghost use Rattle.redl_laid.specs.Firsts.{first_item};
ghost use Rattle.redl_opc.specs.Elements.{element_of};
ghost use Rattle.redl_lists.specs.Named.{first_within};
ghost use Rattle.redl_lists.specs.Parts.{laid_element, part_element};
ghost use Rattle.redl_lists.specs.Inside.Items.{element_within, item_within};

use crate::part::{Part, is_tag_named};
use redl_laid::{First, Laid, LaidElem};
use redl_tree::{Elem, Node, is_named};

impl<'n, 'a> Part<'n, 'a> {
    /// The first with this name below it, in the order of start tags.
    pub fn first_within(&self, name: &[u8]) -> Option<Part<'n, 'a>>
        ensures { Gives part_element result (first_within name.now (part_element self.now).kids) }
    {
        match self {
            Part::Tree(elem) => within_nodes(elem.kids(), name),
            Part::Laid(elem) => within_laid(&elem.kids, name),
        }
    }
}

#[cycle(within)]
fn within_nodes<'n, 'a>(nodes: &'n [Node<'a>], name: &[u8]) -> Option<Part<'n, 'a>>
    ensures { Gives part_element result (first_within name.now (nodes_of nodes.now)) }
{
    for node in nodes {
        if let Some(found) = within_node(node, name) {
            return Some(found);
        }
    }
    None
}

#[cycle(within)]
fn within_node<'n, 'a>(node: &'n Node<'a>, name: &[u8]) -> Option<Part<'n, 'a>>
    ensures { Gives part_element result (item_within name.now (item_of node.now)) }
{
    match node {
        Node::Elem(elem) => within_elem(elem, name),
        Node::Plain(plain) => within_laid(&Laid::of(plain), name),
        Node::Bytes(_) => None,
    }
}

#[cycle(within)]
fn within_elem<'n, 'a>(elem: &'n Elem<'a>, name: &[u8]) -> Option<Part<'n, 'a>>
    ensures { Gives part_element result (element_within name.now (element_of elem.now)) }
{
    if is_named(elem, name) {
        return Some(Part::Tree(elem));
    }
    within_nodes(elem.kids(), name)
}

#[cycle(within_laid)]
fn within_laid<'n, 'a>(laid: &Laid<'a>, name: &[u8]) -> Option<Part<'n, 'a>>
    ensures { Gives part_element result (first_within name.now (nodes_in W laid.now)) }
{
    let (first, rest) = laid.first()?;
    match within_first(first, name) {
        Some(found) => Some(found),
        None => within_rest(rest, name),
    }
}

#[cycle(within_laid)]
fn within_rest<'n, 'a>(laid: Laid<'a>, name: &[u8]) -> Option<Part<'n, 'a>>
    ensures { Gives part_element result (first_within name.now (nodes_in W laid.entry)) }
{
    let mut left = laid;
    while let Some((first, rest)) = left.first() {
        if let Some(found) = within_first(first, name) {
            return Some(found);
        }
        left = rest;
    }
    None
}

#[cycle(within_laid)]
fn within_first<'n, 'a>(first: First<'a>, name: &[u8]) -> Option<Part<'n, 'a>>
    ensures { Gives part_element result (item_within name.now (first_item first.entry)) }
{
    match first {
        First::Elem(elem) => within_laid_elem(elem, name),
        First::Bytes(_) => None,
    }
}

#[cycle(within_laid)]
fn within_laid_elem<'n, 'a>(elem: LaidElem<'a>, name: &[u8]) -> Option<Part<'n, 'a>>
    ensures { Gives part_element result (element_within name.now (laid_element elem.entry)) }
{
    if is_tag_named(&elem.tag, name) {
        return Some(Part::Laid(elem));
    }
    within_laid(&elem.kids, name)
}
