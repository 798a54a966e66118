//! What a chain consists of, and what comes after it.

use redl_tree::{Elem, Node};

/// What comes after a chain among the nodes that count as blocks.
#[derive(Clone, Copy, Debug, PartialEq, Eq)]
pub enum Next {
    /// No such node.
    End,
    /// One that is no paragraph.
    Other,
}

/// A piece of a chain, already passed.
#[derive(Drop)]
pub enum ChainPiece<'a> {
    /// A paragraph; `cut` where its mark goes.
    Para { elem: Elem<'a>, cut: bool },
    /// A node that counts as no block.
    Thin(Node<'a>),
}
