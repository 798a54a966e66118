//! What becomes of one paragraph, and what the next one takes up.

ghost use Rattle.std.specs.Prelude.{◌≡◌, ◌∷◌, [], ◌&&◌, not, IfOk, OnOk, Some};
ghost use Rattle.redl_paras.specs.Pieces.{held_nodes};
ghost use Rattle.redl_tree.specs.Decisions.Groups.{taken, joined_tag, joined_kids, unjoined_para};
ghost use Rattle.redl_tree.specs.Model.Kids.{only, without, has_element, item_is};
ghost use Rattle.redl_tree.specs.Roles.Names.{is};
ghost use Rattle.redl_tree.specs.Model.Nodes.{◌⊕◌};
ghost use Rattle.redl_tree.specs.Model.View.{nodes_of, item_of, tag_of, kids_of};

use redl_tree::{Elem, Node, Word, is_word};
use std::alloc::{AllocError, Global};

// Whether a node is the properties of a paragraph.
fn is_props(node: &Node) -> bool
    ensures { result ≡ item_is (is "pPr") (item_of node.now) }
{
    match node {
        Node::Elem(elem) => is_word(elem, Word::PPr),
        Node::Bytes(_) => false,
        Node::Plain(_) => false,
    }
}

// Adds those of the nodes that are no properties of a paragraph.
fn add_bare<'a>(all: &mut Vec<Node<'a>>, nodes: Vec<Node<'a>>) -> Result<(), AllocError>
    ensures { OnOk result (nodes_of all.new.items ≡ nodes_of all.old.items ⊕ without (is "pPr") (nodes_of nodes.entry.items)) }
{
    let mut bare = nodes;
    bare.retain(|node| !is_props(node));
    all.append(&mut bare)?;
    Ok(())
}

/// What the next paragraph is to take up: what is held for it already, and then these nodes without properties.
pub(crate) fn take_up<'a>(
    alloc: Global,
    held: Option<Vec<Node<'a>>>,
    nodes: Vec<Node<'a>>,
) -> Result<Vec<Node<'a>>, AllocError>
    ensures { IfOk result (λ all. nodes_of all.items ≡ taken (held_nodes held.entry) (nodes_of nodes.entry.items)) }
{
    let mut all = match held {
        Some(all) => all,
        None => Vec::new(alloc),
    };
    add_bare(&mut all, nodes)?;
    Ok(all)
}

// Adds the properties among a paragraph's kids to the first list, and the other kids to the second.
fn part<'a>(
    kids: Vec<Node<'a>>,
    props: &mut Vec<Node<'a>>,
    others: &mut Vec<Node<'a>>,
) -> Result<(), AllocError>
    ensures props { OnOk result (nodes_of props.new.items ≡ nodes_of props.old.items ⊕ only (is "pPr") (nodes_of kids.entry.items)) }
    ensures others { OnOk result (nodes_of others.new.items ≡ nodes_of others.old.items ⊕ without (is "pPr") (nodes_of kids.entry.items)) }
{
    for kid in kids {
        put(kid, props, others)?;
    }
    Ok(())
}

// Adds a kid of a paragraph to the first list where it is properties, else to the second.
fn put<'a>(
    kid: Node<'a>,
    props: &mut Vec<Node<'a>>,
    others: &mut Vec<Node<'a>>,
) -> Result<(), AllocError>
    ensures props { OnOk result (nodes_of props.new.items ≡ nodes_of props.old.items ⊕ only (is "pPr") (nodes_of (kid.entry ∷ []))) }
    ensures others { OnOk result (nodes_of others.new.items ≡ nodes_of others.old.items ⊕ without (is "pPr") (nodes_of (kid.entry ∷ []))) }
{
    if is_props(&kid) {
        props.push(kid)?;
    } else {
        others.push(kid)?;
    }
    Ok(())
}

// The kids of a paragraph that takes up what is held for it.
fn kids_with<'a>(
    alloc: Global,
    held: Vec<Node<'a>>,
    kids: Vec<Node<'a>>,
) -> Result<Vec<Node<'a>>, AllocError>
    ensures { IfOk result (λ all. nodes_of all.items ≡ joined_kids (Some (nodes_of held.entry.items)) (nodes_of kids.entry.items)) }
{
    let mut all = Vec::new(alloc);
    let mut others = held;
    part(kids, &mut all, &mut others)?;
    all.append(&mut others)?;
    Ok(all)
}

/// The paragraph with what is held for it: its properties first, then what is held, then its other kids.
pub(crate) fn joined<'a>(
    alloc: Global,
    held: Option<Vec<Node<'a>>>,
    elem: Elem<'a>,
) -> Result<Elem<'a>, AllocError>
    ensures tag { IfOk result (λ para. tag_of para ≡ joined_tag (held_nodes held.entry) (tag_of elem.entry)) }
    ensures kids { IfOk result (λ para. kids_of para ≡ joined_kids (held_nodes held.entry) (kids_of elem.entry)) }
{
    match held {
        None => Ok(elem),
        Some(held) => {
            let mut elem = elem;
            let kids = elem.take_kids(alloc);
            elem.put_kids(kids_with(alloc, held, kids)?);
            Ok(elem)
        }
    }
}

// Whether an element that is no properties is among these nodes.
fn holds_element(nodes: &[Node]) -> bool
    ensures { result ≡ has_element (without (is "pPr") (nodes_of nodes.now)) }
{
    for node in nodes {
        if is_held(node) {
            return true;
        }
    }
    false
}

// Whether a node is an element that is no properties.
fn is_held(node: &Node) -> bool
    ensures { result ≡ item_is (λ tag. not (is "pPr" tag)) (item_of node.now) }
{
    match node {
        Node::Elem(elem) => !is_word(elem, Word::PPr),
        Node::Bytes(_) => false,
        Node::Plain(_) => true,
    }
}

// Whether a paragraph goes but for its bytes.
fn is_emptied(elem: &Elem, ends: bool) -> bool
    ensures { result ≡ ends && not (has_element (without (is "pPr") (kids_of elem.now))) }
{
    ends && !holds_element(elem.kids())
}

/// Adds a paragraph that is joined with no later one. `ends`: it is cut, and another block comes next.
pub(crate) fn settle<'a>(
    alloc: Global,
    made: &mut Vec<Node<'a>>,
    elem: Elem<'a>,
    ends: bool,
) -> Result<(), AllocError>
    ensures { OnOk result (nodes_of made.new.items ≡ nodes_of made.old.items ⊕ unjoined_para ends (tag_of elem.entry) (kids_of elem.entry)) }
{
    if is_emptied(&elem, ends) {
        return add_bare(made, elem.into_kids(alloc));
    }
    made.push(Node::Elem(elem))?;
    Ok(())
}
