//! How deep an element goes and how many nodes it has, so far.

ghost use Rattle.std.specs.Prelude.{◌≡◌, ◌≤◌, ◌<◌, ◌+◌, ◌^◌, ◌↔◌, max, true};
ghost use Rattle.redl_markup.specs.PieceViews.{piece_view};
ghost use Rattle.redl_xml.specs.Inside.Sizes.{capped, one_more, deepest_with, nodes_with};

use redl_markup::Piece;

/// How much a text may have.
#[derive(Clone, Copy)]
pub(crate) struct Limits {
    /// The greatest depth of an element.
    pub(crate) depth: usize,
    /// The greatest number of nodes.
    pub(crate) nodes: u32,
}

/// How much a text has so far.
#[derive(Clone, Copy)]
pub(crate) struct Sizes {
    /// The greatest depth.
    pub(crate) deepest: usize,
    /// The number of nodes, up to one above a limit.
    pub(crate) nodes: u64,
}

// A count plus one, up to one above the limit.
fn one_more(limit: u32, nodes: u64) -> u64
    ensures { result ≡ one_more limit nodes }
{
    if nodes <= u64::from(limit) {
        nodes + 1
    } else {
        nodes
    }
}

impl Sizes {
    /// Adds a node that is not an element.
    pub(crate) fn add_bytes(&mut self, limit: u32)
        ensures deepest { self.new.deepest ≡ self.old.deepest }
        ensures nodes { self.new.nodes ≡ one_more limit self.old.nodes }
    {
        self.nodes = one_more(limit, self.nodes);
    }

    /// Adds an element at a depth.
    pub(crate) fn add_element(&mut self, limit: u32, depth: usize)
        ensures deepest { self.new.deepest ≡ max self.old.deepest depth }
        ensures nodes { self.new.nodes ≡ one_more limit self.old.nodes }
    {
        self.deepest = self.deepest.max(depth);
        self.nodes = one_more(limit, self.nodes);
    }

    /// Adds nodes in an element at this depth. The deepest element among them is so deep there.
    pub(crate) fn add_nodes(&mut self, limit: u32, nodes: usize, depth: usize, deepest: usize)
        requires { depth + deepest < 2 ^ 64 }
        ensures deepest { self.new.deepest ≡ max self.old.deepest (depth + deepest) }
        ensures nodes { self.new.nodes ≡ capped limit (self.old.nodes + nodes) }
    {
        self.deepest = self.deepest.max(depth + deepest);
        self.nodes = self
            .nodes
            .saturating_add(nodes as u64)
            .min(u64::from(limit) + 1);
    }

    /// Adds a piece. An element that begins with it is at this depth.
    pub(crate) fn add_piece(&mut self, limit: u32, piece: &Piece<'_>, depth: usize)
        ensures deepest { self.new.deepest ≡ deepest_with (piece_view piece.now) depth self.old.deepest }
        ensures nodes { self.new.nodes ≡ nodes_with limit (piece_view piece.now) self.old.nodes }
    {
        match piece {
            Piece::Start(_) | Piece::Empty(_) => self.add_element(limit, depth),
            Piece::Stretch(_) => self.add_bytes(limit),
            Piece::End(_, _) => {}
        }
    }

    /// Whether the sizes are within the limits.
    pub(crate) fn are_within(self, limits: Limits) -> bool
        ensures { (result ≡ true) ↔ ((self.deepest ≤ limits.depth) × (self.nodes ≤ limits.nodes)) }
    {
        self.deepest <= limits.depth && self.nodes <= u64::from(limits.nodes)
    }
}
