//! What an editor keeps of a story.

use redl_resolve::Next;
use redl_tree::{Elem, Node};

/// A leaf or a container of a story.
#[derive(Drop)]
#[cycle(slot)]
pub enum Slot<'a> {
    /// A leaf.
    Leaf(Leaf<'a>),
    /// A container.
    Container(Box<Container<'a>>),
}

/// A leaf.
#[derive(Drop)]
pub struct Leaf<'a> {
    /// Its nodes in the original.
    pub original: Vec<Node<'a>>,
    /// Its present nodes, where they are others.
    pub present: Option<Vec<Node<'a>>>,
    /// Whether it stands in a list of blocks.
    pub among_blocks: bool,
    /// What comes after it there.
    pub next: Next,
}

/// A container.
#[derive(Drop)]
#[cycle(slot)]
pub struct Container<'a> {
    /// The element, without its kids.
    pub elem: Elem<'a>,
    /// Which of its rows or cells stay, and whether it goes itself.
    pub tally: Tally,
    /// What its kids are.
    pub slots: Vec<Slot<'a>>,
}

/// What is known of a container's rows or cells.
#[derive(Clone, Copy)]
pub struct Tally {
    /// It is cut by a member of its own.
    pub cut: bool,
    /// How many own rows or cells it has.
    pub owned: u32,
    /// How many of them stay.
    pub living: u32,
    /// It goes.
    pub gone: bool,
}
