//! Copies of nodes, which share the text that they borrow.

ghost use Rattle.std.specs.Prelude.{◌≡◌, IfOk};
ghost use Rattle.redl_tree.specs.Model.View.{nodes_of, item_of, tag_of, kids_of, held_of, spaced_of};

use redl_tree::{Body, Elem, Node, Spaced};
use std::alloc::{AllocError, Global};

/// Nodes equal to these. No text is copied. `Err` means out of memory.
#[cycle(copy)]
pub fn copy_nodes<'a>(alloc: Global, nodes: &[Node<'a>]) -> Result<Vec<Node<'a>>, AllocError>
    ensures { IfOk result (λ v. nodes_of v.items ≡ nodes_of nodes.now) }
{
    let mut copies = Vec::with_capacity(alloc, nodes.len())?;
    for node in nodes {
        copies.push(copy_node(alloc, node)?)?;
    }
    Ok(copies)
}

/// A node equal to this one. `Err` means out of memory.
#[cycle(copy)]
pub fn copy_node<'a>(alloc: Global, node: &Node<'a>) -> Result<Node<'a>, AllocError>
    ensures { IfOk result (λ n. item_of n ≡ item_of node.now) }
{
    match node {
        Node::Elem(elem) => Ok(Node::Elem(copy_elem(alloc, elem)?)),
        Node::Bytes(text) => Ok(Node::Bytes(text)),
        Node::Plain(plain) => Ok(Node::Plain(plain.copy())),
    }
}

#[cycle(copy)]
fn copy_elem<'a>(alloc: Global, elem: &Elem<'a>) -> Result<Elem<'a>, AllocError>
    ensures tag { IfOk result (λ e. tag_of e ≡ tag_of elem.now) }
    ensures kids { IfOk result (λ e. kids_of e ≡ kids_of elem.now) }
{
    Ok(Elem {
        tag: elem.tag.copy(),
        body: copy_body(alloc, &elem.body)?,
    })
}

#[cycle(copy)]
fn copy_body<'a>(alloc: Global, body: &Body<'a>) -> Result<Body<'a>, AllocError>
    ensures { IfOk result (λ b. held_of b ≡ held_of body.now) }
{
    match body {
        Body::Empty => Ok(Body::Empty),
        Body::Kids(kids) => Ok(Body::Kids(copy_nodes(alloc, kids)?)),
        Body::Spaced(spaced) => Ok(Body::Spaced(copy_spaced(alloc, spaced)?)),
    }
}

#[cycle(copy)]
fn copy_spaced<'a>(alloc: Global, spaced: &Spaced<'a>) -> Result<Box<Spaced<'a>>, AllocError>
    ensures { IfOk result (λ copy. spaced_of copy.value ≡ spaced_of spaced.now) }
{
    let kids = copy_nodes(alloc, &spaced.kids)?;
    let copy = Spaced {
        kids,
        white: spaced.white,
    };
    Ok(Box::new(alloc, copy)?)
}
