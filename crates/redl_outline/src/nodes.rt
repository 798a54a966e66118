//! The nodes of an outline, which are made from the left with a stack of open elements.

use crate::words::Start;
use redl_tree::{Around, Elem, Kind, Node, Space, Tag};
use std::alloc::{AllocError, Global};

// An element whose kids are still to come, with those that came, and what it and its ancestors are to them.
#[derive(Drop)]
struct Open<'a> {
    elem: Elem<'a>,
    kids: Vec<Node<'a>>,
    around: Around,
}

/// The open elements, the outermost first, and the nodes that stand in none.
#[derive(Drop)]
pub(crate) struct Stack<'a> {
    open: Vec<Open<'a>>,
    nodes: Vec<Node<'a>>,
}

impl<'a> Stack<'a> {
    pub(crate) fn new(alloc: Global) -> Stack<'a> {
        Stack {
            open: Vec::new(alloc),
            nodes: Vec::new(alloc),
        }
    }

    /// Closes elements until only so many are open.
    pub(crate) fn close_to(&mut self, depth: usize) -> Result<(), AllocError> {
        for _ in depth..self.open.len() {
            self.close()?;
        }
        Ok(())
    }

    fn close(&mut self) -> Result<(), AllocError> {
        let Some(Open { elem, kids, .. }) = self.open.pop() else {
            return Ok(());
        };
        let mut elem = elem;
        if !kids.is_empty() {
            elem.put_kids(kids);
        }
        self.put(Node::Elem(elem))
    }

    /// Puts a node in the innermost open element.
    pub(crate) fn put(&mut self, node: Node<'a>) -> Result<(), AllocError> {
        match self.open.last_mut() {
            Some(open) => open.kids.push(node)?,
            None => self.nodes.push(node)?,
        }
        Ok(())
    }

    /// Opens an element.
    pub(crate) fn start(&mut self, alloc: Global, start: &'a Start) -> Result<(), AllocError> {
        let Some(tag) = tag_of(start) else {
            return Ok(());
        };
        let around = self.around();
        let elem = labelled(Elem::empty(tag), around);
        let around = around.inside(&elem);
        let kids = Vec::new(alloc);
        self.open.push(Open { elem, kids, around })?;
        Ok(())
    }

    // What the open elements are to a node that comes next.
    fn around(&self) -> Around {
        match self.open.last() {
            Some(open) => open.around,
            None => Around::top(),
        }
    }

    /// The nodes, once all elements are closed.
    pub(crate) fn into_nodes(self) -> Vec<Node<'a>> {
        let Stack { nodes, .. } = self;
        nodes
    }
}

fn tag_of(start: &Start) -> Option<Tag<'_>> {
    let text = start.text.as_bytes();
    let (prefix, name) = (start.prefix, start.name);
    if name > text.len() || prefix >= name || text[prefix] != b':' {
        return None;
    }
    let space = space_of(&text[..prefix]);
    let (prefix, name) = (u32::try_from(prefix).ok()?, u32::try_from(name).ok()?);
    Some(Tag::new(text, prefix, name, space))
}

fn space_of(prefix: &[u8]) -> Space {
    match prefix {
        b"w" => Space::W,
        b"m" => Space::M,
        b"pkg" => Space::Pkg,
        _ => Space::Other,
    }
}

// The element with its role as its kind. A member belongs to revision 1.
fn labelled<'a>(elem: Elem<'a>, around: Around) -> Elem<'a> {
    let mut elem = elem;
    let kind = around.role(&elem);
    if kind != Kind::Plain {
        elem.set_label(kind, 1);
    }
    elem
}
