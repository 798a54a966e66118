//! What keeps the text of nodes from being read again.

ghost use Rattle.std.specs.Prelude.{◌≡◌, ◌<◌, ◌+◌, ◌-◌, ◌^◌, ◌||◌, ◌&&◌, [], min, not, nat_lt, length};
ghost use Rattle.redl_again.specs.Inside.Depth.{passes};
ghost use Rattle.redl_again.specs.Inside.Meeting.{brackets, brackets_of, closes, join_well};
ghost use Rattle.redl_reread_sound.specs.Together.{meet_well};
ghost use Rattle.redl_tree.specs.Model.Nodes.{Nodes, Empty, End, element, in_front, no_nodes};
ghost use Rattle.redl_tree.specs.Model.Shapes.{depth_of};
ghost use Rattle.redl_tree.specs.Model.Text.{element_text, item_text, name_text, text};
ghost use Rattle.redl_tree.specs.Model.View.{nodes_of, item_of, kids_of, tag_of, tagged};

use crate::depth::goes_deeper;
use crate::stretch::Before;
use redl_tree::{Body, Elem, Node, Tag};

/// What keeps the text of nodes from being read again.
#[derive(Drop)]
pub struct Obstacles {
    /// An element is too deep.
    pub too_deep: bool,
    /// The text is too long.
    pub too_long: bool,
    /// Stretches that meet form `]]>`.
    pub meets_badly: bool,
}

impl Obstacles {
    /// What keeps the text of these nodes from being read again, where elements may be so deep, with the root at depth 1, and the text may
    /// have so many bytes. It takes no memory.
    pub fn of(nodes: &[Node], depth: usize, bytes: u64) -> Obstacles
        requires { bytes < 2 ^ 64 - 1 }
        ensures too_deep { result.too_deep ≡ nat_lt depth (depth_of (nodes_of nodes.now)) }
        ensures too_long { result.too_long ≡ nat_lt bytes (length (text (nodes_of nodes.now))) }
        ensures meets_badly { result.meets_badly ≡ not (meet_well (nodes_of nodes.now)) }
    {
        let mut seen = Seen {
            deeper: false,
            bytes: 0,
            well: true,
        };
        see_nodes(nodes, depth, &mut seen);
        Obstacles {
            too_deep: seen.deeper,
            too_long: bytes < seen.bytes,
            meets_badly: !seen.well,
        }
    }
}

// What was seen so far.
#[derive(Drop)]
struct Seen {
    // An element is too deep.
    deeper: bool,
    // How many bytes the text has, or 18446744073709551615 where it has more.
    bytes: u64,
    // No stretches that meet form `]]>`.
    well: bool,
}

impl Seen {
    // Adds whether an element is too deep.
    fn add_depth(&mut self, deeper: bool)
        ensures deeper { self.new.deeper ≡ (self.old.deeper || deeper) }
        ensures bytes { self.new.bytes ≡ self.old.bytes }
        ensures well { self.new.well ≡ self.old.well }
    {
        if deeper {
            self.deeper = true;
        }
    }

    // Adds bytes of the text.
    #[inline(always)]
    fn add(&mut self, bytes: usize)
        ensures deeper { self.new.deeper ≡ self.old.deeper }
        ensures bytes { min self.new.bytes (2 ^ 64 - 1) ≡ min (self.old.bytes + bytes) (2 ^ 64 - 1) }
        ensures well { self.new.well ≡ self.old.well }
    {
        self.bytes = self.bytes.saturating_add(bytes as u64);
    }

    // Adds a stretch, or kept text, which follows these stretches. Gives it with those.
    #[inline(always)]
    fn add_text<'a>(&mut self, before: Before<'a>, text: &'a [u8]) -> Before<'a>
        ensures deeper { self.new.deeper ≡ self.old.deeper }
        ensures bytes { min self.new.bytes (2 ^ 64 - 1) ≡ min (self.old.bytes + length text.entry.now) (2 ^ 64 - 1) }
        ensures well { self.new.well ≡ (self.old.well && not (closes (brackets_of before.entry) text.entry.now)) }
        ensures before { brackets_of result ≡ brackets (brackets_of before.entry) text.entry.now }
    {
        self.add(text.len());
        let (with, closes) = before.with(text);
        if closes {
            self.well = false;
        }
        with
    }
}

// Sees nodes of one list, where elements may be so many levels deep.
#[cycle(see)]
fn see_nodes(nodes: &[Node], levels: usize, seen: &mut Seen)
    ensures deeper { seen.new.deeper ≡ (seen.old.deeper || passes levels (nodes_of nodes.now)) }
    ensures bytes { min seen.new.bytes (2 ^ 64 - 1) ≡ min (seen.old.bytes + length (text (nodes_of nodes.now))) (2 ^ 64 - 1) }
    ensures well { seen.new.well ≡ (seen.old.well && join_well 0 (nodes_of nodes.now)) }
{
    let mut before = Before::none();
    for node in nodes {
        before = see_node(node, levels, before, seen);
    }
}

// Sees a node that follows these stretches. Gives the stretches before the next node.
#[cycle(see)]
fn see_node<'a>(node: &Node<'a>, levels: usize, before: Before<'a>, seen: &mut Seen) -> Before<'a>
    ensures deeper { seen.new.deeper ≡ (seen.old.deeper || passes levels (in_front (item_of node.now) no_nodes)) }
    ensures bytes { min seen.new.bytes (2 ^ 64 - 1) ≡ min (seen.old.bytes + length (item_text (item_of node.now))) (2 ^ 64 - 1) }
    ensures well { (rest : Nodes) → (seen.new.well && join_well (brackets_of result) rest)
        ≡ (seen.old.well && join_well (brackets_of before.entry) (in_front (item_of node.now) rest)) }
{
    match node {
        Node::Elem(elem) => {
            see_elem(elem, levels, seen);
            Before::none()
        }
        Node::Bytes(text) => seen.add_text(before, text),
        Node::Plain(plain) => {
            seen.add_depth(goes_deeper(plain, levels));
            seen.add_text(before, plain.text())
        }
    }
}

#[cycle(see)]
fn see_elem(elem: &Elem, levels: usize, seen: &mut Seen)
    ensures deeper { seen.new.deeper ≡ (seen.old.deeper || passes levels (element (tag_of elem.now) (kids_of elem.now) no_nodes)) }
    ensures bytes { min seen.new.bytes (2 ^ 64 - 1) ≡ min (seen.old.bytes + length (element_text (tag_of elem.now) (text (kids_of elem.now)))) (2 ^ 64 - 1) }
    ensures well { seen.new.well ≡ (seen.old.well && join_well 0 (kids_of elem.now)) }
{
    if levels == 0 {
        seen.deeper = true;
    }
    let below = levels.saturating_sub(1);
    match &elem.body {
        Body::Empty => add_start(&elem.tag, seen),
        Body::Kids(kids) => see_kids(&elem.tag, kids, b"", below, seen),
        Body::Spaced(spaced) => see_kids(&elem.tag, &spaced.kids, spaced.white, below, seen),
    }
}

// Sees the kids of an element, and its tags, with this white space in the end tag.
#[cycle(see)]
fn see_kids(tag: &Tag, kids: &[Node], white: &[u8], levels: usize, seen: &mut Seen)
    ensures deeper { seen.new.deeper ≡ (seen.old.deeper || passes levels (nodes_of kids.now)) }
    ensures bytes { min seen.new.bytes (2 ^ 64 - 1) ≡ min (seen.old.bytes + length (element_text (tagged tag.now (End white.now)) (text (nodes_of kids.now)))) (2 ^ 64 - 1) }
    ensures well { seen.new.well ≡ (seen.old.well && join_well 0 (nodes_of kids.now)) }
{
    see_nodes(kids, levels, seen);
    let name = name_bytes(tag);
    seen.add(name);
    seen.add(name);
    seen.add(tag.tail().len());
    seen.add(white.len());
    seen.add(5);
}

// Adds the start tag of an element that is closed in it.
fn add_start(tag: &Tag, seen: &mut Seen)
    ensures deeper { seen.new.deeper ≡ seen.old.deeper }
    ensures bytes { min seen.new.bytes (2 ^ 64 - 1) ≡ min (seen.old.bytes + length (element_text (tagged tag.now Empty) [])) (2 ^ 64 - 1) }
    ensures well { seen.new.well ≡ seen.old.well }
{
    seen.add(name_bytes(tag));
    seen.add(tag.tail().len());
    seen.add(3);
}

// How many bytes the name of an element has, with its prefix.
#[inline(always)]
fn name_bytes(tag: &Tag) -> usize
    ensures { min result (2 ^ 64 - 1) ≡ min (length (name_text tag.now.prefix tag.now.local)) (2 ^ 64 - 1) }
{
    match tag.name_in_input() {
        Some(name) => name.len(),
        None => tag
            .prefix_with_colon()
            .len()
            .saturating_add(tag.local().len()),
    }
}
