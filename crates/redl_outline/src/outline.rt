//! Outlines, with their nodes and their text.

use crate::nodes::Stack;
use crate::words::{Item, item_of};
use redl_io::MemSink;
use redl_output::write_nodes;
use redl_tree::Node;
use std::alloc::{AllocError, Global};
use std::str::from_utf8;

/// An outline that was read. It has the text that its nodes borrow.
#[derive(Drop)]
pub struct Outline {
    words: Vec<(usize, Item)>,
}

// How many bytes the text of an outline may have.
const ROOM: usize = 4_096;

impl Outline {
    /// The outline of these words, among which a test may have words of its own, each with the text that it means.
    pub fn read(alloc: Global, words: &str, own: &[(&str, &str)]) -> Result<Outline, AllocError> {
        let mut read = Vec::new(alloc);
        for word in words.split_whitespace() {
            let item = word.trim_start_matches('.');
            let depth = word.len().saturating_sub(item.len());
            read.push((depth, item_of(alloc, item, own)?))?;
        }
        Ok(Outline { words: read })
    }

    /// Its nodes, with their labels.
    pub fn nodes(&self, alloc: Global) -> Result<Vec<Node<'_>>, AllocError> {
        let mut stack = Stack::new(alloc);
        for (depth, item) in &self.words {
            stack.close_to(*depth)?;
            match item {
                Item::Start(start) => stack.start(alloc, start)?,
                Item::Bytes(text) => stack.put(Node::Bytes(text.as_bytes()))?,
            }
        }
        stack.close_to(0)?;
        Ok(stack.into_nodes())
    }
}

/// The text of the outline of these words. `Err` means out of memory, or that the text has more than 4,096 bytes.
pub fn outline_text(
    alloc: Global,
    words: &str,
    own: &[(&str, &str)],
) -> Result<String, AllocError> {
    let outline = Outline::read(alloc, words, own)?;
    let nodes = outline.nodes(alloc)?;
    nodes_text(alloc, &nodes)
}

/// The text of nodes, under the same limit.
pub fn nodes_text(alloc: Global, nodes: &[Node]) -> Result<String, AllocError> {
    let mut out = MemSink::new(alloc, ROOM, Vec::new(alloc))?;
    if write_nodes(nodes, &mut out).is_err() {
        return Err(AllocError);
    }
    match from_utf8(out.bytes()) {
        Ok(text) => String::from_str(alloc, text),
        Err(_) => Err(AllocError),
    }
}
