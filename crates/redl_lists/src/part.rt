//! Elements of the tree and of kept text, found by their names.

ghost use Rattle.std.specs.Prelude.{◌≡◌, ◌++◌, IfOk, OnOk};
ghost use Rattle.redl_reading.specs.Steps.{Gives};
ghost use Rattle.redl_tree.specs.declared.kinds.Space.TheVariants.{W};
ghost use Rattle.redl_tree.specs.Model.Folds.{nodes_in};
ghost use Rattle.redl_laid.specs.Firsts.{first_item};
ghost use Rattle.redl_tree.specs.Model.View.{item_of, nodes_of, tagged};
ghost use Rattle.redl_tree.specs.Model.Nodes.{Close};
ghost use Rattle.redl_tree.specs.Roles.Names.{named};
ghost use Rattle.redl_lists.specs.Named.{all_named, first_named, if_named};
ghost use Rattle.redl_lists.specs.Parts.{item_all, item_first, laid_element, part_element, part_elements};

use redl_laid::{First, Laid, LaidElem};
use redl_tree::{Elem, Node, Space, Tag, is_named};
use std::alloc::{AllocError, Global};

/// An element, of the tree or of text that is kept.
#[derive(Drop)]
pub enum Part<'n, 'a> {
    /// Of the tree.
    Tree(&'n Elem<'a>),
    /// Of kept text.
    Laid(LaidElem<'a>),
}

impl<'n, 'a> Part<'n, 'a> {
    /// All of its start tag between the name and `>` or `/>`.
    pub fn tail(&self) -> &'a [u8]
        ensures { result.now ≡ (part_element self.now).tag.tail }
    {
        match self {
            Part::Tree(elem) => elem.tail(),
            Part::Laid(elem) => elem.tag.tail(),
        }
    }

    /// The first of its kids with this name.
    pub fn first_named(&self, name: &[u8]) -> Option<Part<'n, 'a>>
        ensures { Gives part_element result (first_named name.now (part_element self.now).kids) }
    {
        match self {
            Part::Tree(elem) => first_in_nodes(elem.kids(), name),
            Part::Laid(elem) => first_in_laid(&elem.kids, name),
        }
    }

    /// All of its kids with this name. `Err` means out of memory.
    pub fn all_named(&self, alloc: Global, name: &[u8]) -> Result<Vec<Part<'n, 'a>>, AllocError>
        ensures { IfOk result (λ parts. part_elements parts.items ≡ all_named name.now (part_element self.now).kids) }
    {
        let mut parts = Vec::new(alloc);
        match self {
            Part::Tree(elem) => add_from_nodes(elem.kids(), name, &mut parts)?,
            Part::Laid(elem) => add_from_laid(&elem.kids, name, &mut parts)?,
        }
        Ok(parts)
    }
}

// Whether a start tag has this name.
pub(crate) fn is_tag_named(tag: &Tag<'_>, name: &[u8]) -> bool
    ensures { (close : Close) → result ≡ named name.now (tagged tag.now close) }
{
    match tag.space() {
        Space::W => tag.local() == name,
        _ => false,
    }
}

pub(crate) fn first_in_nodes<'n, 'a>(nodes: &'n [Node<'a>], name: &[u8]) -> Option<Part<'n, 'a>>
    ensures { Gives part_element result (first_named name.now (nodes_of nodes.now)) }
{
    for node in nodes {
        if let Some(found) = first_in_node(node, name) {
            return Some(found);
        }
    }
    None
}

fn first_in_node<'n, 'a>(node: &'n Node<'a>, name: &[u8]) -> Option<Part<'n, 'a>>
    ensures { Gives part_element result (item_first name.now (item_of node.now)) }
{
    match node {
        Node::Elem(elem) if is_named(elem, name) => Some(Part::Tree(elem)),
        Node::Plain(plain) => first_in_laid(&Laid::of(plain), name),
        Node::Elem(_) | Node::Bytes(_) => None,
    }
}

pub(crate) fn first_in_laid<'n, 'a>(laid: &Laid<'a>, name: &[u8]) -> Option<Part<'n, 'a>>
    ensures { Gives part_element result (first_named name.now (nodes_in W laid.now)) }
{
    let (first, rest) = laid.first()?;
    match first_if_named(first, name) {
        Some(found) => Some(found),
        None => first_in_rest(rest, name),
    }
}

fn first_in_rest<'n, 'a>(laid: Laid<'a>, name: &[u8]) -> Option<Part<'n, 'a>>
    ensures { Gives part_element result (first_named name.now (nodes_in W laid.entry)) }
{
    let mut left = laid;
    while let Some((first, rest)) = left.first() {
        if let Some(found) = first_if_named(first, name) {
            return Some(found);
        }
        left = rest;
    }
    None
}

// The first of some nodes, if it is an element with this name.
fn first_if_named<'n, 'a>(first: First<'a>, name: &[u8]) -> Option<Part<'n, 'a>>
    ensures { Gives part_element result (item_first name.now (first_item first.entry)) }
{
    match first {
        First::Elem(elem) => elem_if_named(elem, name),
        First::Bytes(_) => None,
    }
}

fn elem_if_named<'n, 'a>(elem: LaidElem<'a>, name: &[u8]) -> Option<Part<'n, 'a>>
    ensures { Gives part_element result (if_named name.now (laid_element elem.entry).tag (laid_element elem.entry).kids) }
{
    if is_tag_named(&elem.tag, name) {
        return Some(Part::Laid(elem));
    }
    None
}

fn add_from_nodes<'n, 'a>(
    nodes: &'n [Node<'a>],
    name: &[u8],
    parts: &mut Vec<Part<'n, 'a>>,
) -> Result<(), AllocError>
    ensures { OnOk result (part_elements parts.new.items ≡ part_elements parts.old.items ++ all_named name.now (nodes_of nodes.now)) }
{
    for node in nodes {
        add_from_node(node, name, parts)?;
    }
    Ok(())
}

fn add_from_node<'n, 'a>(
    node: &'n Node<'a>,
    name: &[u8],
    parts: &mut Vec<Part<'n, 'a>>,
) -> Result<(), AllocError>
    ensures { OnOk result (part_elements parts.new.items ≡ part_elements parts.old.items ++ item_all name.now (item_of node.now)) }
{
    match node {
        Node::Elem(elem) if is_named(elem, name) => {
            parts.push(Part::Tree(elem))?;
            Ok(())
        }
        Node::Plain(plain) => add_from_laid(&Laid::of(plain), name, parts),
        Node::Elem(_) | Node::Bytes(_) => Ok(()),
    }
}

fn add_from_laid<'n, 'a>(
    laid: &Laid<'a>,
    name: &[u8],
    parts: &mut Vec<Part<'n, 'a>>,
) -> Result<(), AllocError>
    ensures { OnOk result (part_elements parts.new.items ≡ part_elements parts.old.items ++ all_named name.now (nodes_in W laid.now)) }
{
    let Some((first, rest)) = laid.first() else {
        return Ok(());
    };
    add_if_named(first, name, parts)?;
    add_from_rest(rest, name, parts)
}

fn add_from_rest<'n, 'a>(
    laid: Laid<'a>,
    name: &[u8],
    parts: &mut Vec<Part<'n, 'a>>,
) -> Result<(), AllocError>
    ensures { OnOk result (part_elements parts.new.items ≡ part_elements parts.old.items ++ all_named name.now (nodes_in W laid.entry)) }
{
    let mut left = laid;
    while let Some((first, rest)) = left.first() {
        add_if_named(first, name, parts)?;
        left = rest;
    }
    Ok(())
}

fn add_if_named<'n, 'a>(
    first: First<'a>,
    name: &[u8],
    parts: &mut Vec<Part<'n, 'a>>,
) -> Result<(), AllocError>
    ensures { OnOk result (part_elements parts.new.items ≡ part_elements parts.old.items ++ item_all name.now (first_item first.entry)) }
{
    if let Some(part) = first_if_named(first, name) {
        parts.push(part)?;
    }
    Ok(())
}
