//! A counter of steps that is there for the contracts alone.

use redl_tree::Node;
use std::marker::Model;
use std::sync::ledger::{Blank, Book, Ledger, Share};

/// How many steps were taken. It takes no bytes and no time.
#[derive(Drop)]
pub struct Steps<L: Ledger> {
    book: Book<L>,
    share: Share<L>,
}

impl<L: Ledger> Model for Steps<L> {
    ghost use Rattle.std.specs.Prelude.{ℕ, ◌<◌};

    ghost Value = { ℕ };

    ghost view = { λ s. s.book.total };

    ghost invariant = { λ s. 0 < s.share.parts };
}

impl<L: Ledger> Steps<L> {
    ghost use Rattle.std.specs.Prelude.{◌≡◌, ◌+◌, ◌<◌};
    ghost use Rattle.redl_tree.specs.Model.Count.{count, item_count};
    ghost use Rattle.redl_tree.specs.Model.View.{nodes_of, item_of};

    /// A counter of no steps, by the ledger that this blank is for.
    pub fn new(blank: Blank) -> Steps<L>
        requires name { blank.name ≡ L.name }
        requires parts { blank.parts ≡ L.parts }
        requires some { 0 < L.parts }
        ensures { result ≡ 0 }
    {
        let (book, share) = blank.open::<L>();
        Steps { book, share }
    }

    /// Counts one step.
    pub fn tick(&mut self)
        ensures { self.new ≡ self.old + 1 }
    {
        self.tick_by(1);
    }

    /// Counts so many steps.
    pub(crate) fn tick_by(&mut self, steps: u32)
        ensures { self.new ≡ self.old + steps }
    {
        self.book.add(&mut self.share, steps as u64);
    }

    /// Counts one step for each of these nodes, at every depth.
    #[cycle(tick)]
    pub(crate) fn tick_each(&mut self, nodes: &[Node])
        ensures { self.new ≡ self.old + count (nodes_of nodes.now) }
    {
        for node in nodes {
            self.tick_node(node);
        }
    }

    #[cycle(tick)]
    fn tick_node(&mut self, node: &Node)
        ensures { self.new ≡ self.old + item_count (item_of node.now) }
    {
        match node {
            Node::Elem(elem) => {
                self.tick();
                self.tick_each(elem.kids());
            }
            Node::Bytes(_) => self.tick(),
            Node::Plain(plain) => self.tick_by(plain.nodes()),
        }
    }
}
