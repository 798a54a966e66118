//! The nodes of a story in the page.

ghost use Rattle.std.specs.Prelude.{◌≡◌, if◌then◌else◌, [], codes};
ghost use Rattle.redl_io.specs.Sink.{Puts};
ghost use Rattle.redl_tree.specs.Model.View.{nodes_of, item_of, tag_of, kids_of};
ghost use Rattle.redl_shown.specs.Shown.{shown};
ghost use Rattle.redl_page_stories.specs.Document.{element_pieces, end_as, inside, marks_in, nodes_pieces, shape_end, shape_start, start_as};
ghost use Rattle.redl_html.specs.Pieces.{pieces_text};
ghost use Rattle.redl_page_stories.specs.Shapes.{is_paragraph};
ghost use Rattle.redl_page_stories.specs.Views.{facts_of};
ghost use Rattle.redl_places.specs.Views.{signs_of};
ghost use Rattle.redl_page_stories.specs.declared.marks.Depth.TheVariants.{Kids};
ghost use Rattle.redl_page_stories.specs.Inside.Items.{item_pieces};

use crate::behind::{put_before_closing, put_behind_opening};
use crate::facts::StoryFacts;
use crate::idle::put_idle;
use crate::marks::{Depth, put_marks};
use crate::place::PageSummary;
use crate::shape::Shape;
use crate::shown::put_bytes;
use crate::sign::{content_end, put_edge, put_member};
use redl_index::Index;
use redl_io::{Failed, Sink, put_piece};
use redl_places::NoteSigns;
use redl_tree::{Elem, Kind, Node};

/// Puts nodes of a story that have this place. It takes no memory.
#[cycle(nodes)]
pub(crate) fn put_nodes<K: Sink>(
    facts: &StoryFacts<'_, '_>,
    place: PageSummary,
    nodes: &[Node],
    out: &mut K,
) -> Result<(), Failed>
    ensures { Puts K.told K.faults K.settled K.lenders out.old out.new (pieces_text (nodes_pieces shown (facts_of facts.now) place (nodes_of nodes.now))) result }
{
    for node in nodes {
        put_node(facts, place, node, out)?;
    }
    Ok(())
}

#[cycle(nodes)]
fn put_node<K: Sink>(
    facts: &StoryFacts<'_, '_>,
    place: PageSummary,
    node: &Node,
    out: &mut K,
) -> Result<(), Failed>
    ensures { Puts K.told K.faults K.settled K.lenders out.old out.new (pieces_text (item_pieces shown (facts_of facts.now) place (item_of node.now))) result }
{
    match node {
        Node::Elem(elem) => put_elem(facts, place, elem, out),
        Node::Bytes(bytes) => put_bytes(place, bytes, out),
        Node::Plain(plain) => put_idle(facts, place, plain, out),
    }
}

#[cycle(nodes)]
fn put_elem<K: Sink>(
    facts: &StoryFacts<'_, '_>,
    place: PageSummary,
    elem: &Elem,
    out: &mut K,
) -> Result<(), Failed>
    ensures { Puts K.told K.faults K.settled K.lenders out.old out.new
        (pieces_text (element_pieces (facts_of facts.now) place (tag_of elem.now) (kids_of elem.now)
        (nodes_pieces shown (facts_of facts.now) (inside facts.now.hidden.now (tag_of elem.now) (kids_of elem.now) place) (kids_of elem.now)))) result }
{
    let shape = Shape::of(facts.hidden, place, elem);
    put_start(facts, shape, elem, out)?;
    put_nodes(facts, place.inside(facts.hidden, elem), elem.kids(), out)?;
    put_end(facts.index, shape, elem, out)
}

// Puts what comes before the kids of an element.
fn put_start<K: Sink>(
    facts: &StoryFacts<'_, '_>,
    shape: Shape,
    elem: &Elem,
    out: &mut K,
) -> Result<(), Failed>
    ensures { Puts K.told K.faults K.settled K.lenders out.old out.new (pieces_text (start_as (facts_of facts.now) shape (tag_of elem.now) (kids_of elem.now) (tag_of elem.now).kind)) result }
{
    match elem.kind() {
        Kind::Plain => put_opening(facts.signs, shape, elem, out),
        Kind::Mark(_) => Ok(()),
        Kind::Marker => put_edge(facts.index, elem, out),
        Kind::Content(trace) => put_member(facts.index, Kind::Content(trace), elem.rev(), out),
        Kind::Row(trace) => put_member(facts.index, Kind::Row(trace), elem.rev(), out),
        Kind::Cell(trace) => put_member(facts.index, Kind::Cell(trace), elem.rev(), out),
        Kind::Change(prop) => put_member(facts.index, Kind::Change(prop), elem.rev(), out),
    }
}

// Puts what comes before the kids of an element that is in no revision.
fn put_opening<K: Sink>(
    signs: &NoteSigns,
    shape: Shape,
    elem: &Elem,
    out: &mut K,
) -> Result<(), Failed>
    ensures { Puts K.told K.faults K.settled K.lenders out.old out.new (pieces_text (shape_start (signs_of signs.now) shape (tag_of elem.now) (kids_of elem.now))) result }
{
    put_piece(shape.opening(), out)?;
    put_behind_opening(signs, shape, elem, out)
}

// Puts what comes after them.
fn put_end<K: Sink>(index: &Index, shape: Shape, elem: &Elem, out: &mut K) -> Result<(), Failed>
    ensures { Puts K.told K.faults K.settled K.lenders out.old out.new (pieces_text (end_as index.now shape (kids_of elem.now) (tag_of elem.now).kind)) result }
{
    match elem.kind() {
        Kind::Plain => put_closing(index, shape, elem, out),
        Kind::Content(trace) => put_piece(content_end(trace), out),
        Kind::Mark(_) | Kind::Row(_) | Kind::Cell(_) | Kind::Change(_) | Kind::Marker => Ok(()),
    }
}

fn put_closing<K: Sink>(index: &Index, shape: Shape, elem: &Elem, out: &mut K) -> Result<(), Failed>
    ensures { Puts K.told K.faults K.settled K.lenders out.old out.new (pieces_text (shape_end index.now shape (kids_of elem.now))) result }
{
    put_marks_of(index, shape, elem, out)?;
    put_before_closing(shape, elem, out)?;
    put_piece(shape.closing(), out)
}

// Puts the members of the mark of a paragraph.
fn put_marks_of<K: Sink>(
    index: &Index,
    shape: Shape,
    elem: &Elem,
    out: &mut K,
) -> Result<(), Failed>
    ensures { Puts K.told K.faults K.settled K.lenders out.old out.new (pieces_text (if is_paragraph shape then marks_in index.now Kids (kids_of elem.now) else [])) result }
{
    if shape.is_paragraph() {
        return put_marks(index, Depth::Kids, elem.kids(), out);
    }
    Ok(())
}
