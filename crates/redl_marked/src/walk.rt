//! The walk over the nodes of a story, which puts their marked text.

ghost use Rattle.std.specs.Prelude.{◌≡◌, ◌++◌, ◌∷◌, [], not, if◌then◌else◌};
ghost use Rattle.redl_io.specs.Sink.{Puts};
ghost use Rattle.redl_tree.specs.Model.View.{nodes_of, item_of, tag_of, kids_of};
ghost use Rattle.redl_shown.specs.Shown.{shown};
ghost use Rattle.redl_marked.specs.MarkedText.{open_start, open_end};
ghost use Rattle.redl_marked.specs.Inside.Walks.{marked, item_marked, inside, start_of, end_of};

use crate::idle::put_idle;
use crate::signs::{put_end_sign, put_para_signs, put_start_sign};
use crate::summary::{MarkedSummary, inside};
use redl_io::{Failed, Sink, put_piece};
use redl_shown::put_shown;
use redl_tree::{Elem, Node, Word, is_named, is_word};
use redl_views::put_start;

/// Puts the marked text of nodes with this summary of their ancestors.
#[cycle(marked)]
pub(crate) fn put_nodes<K: Sink>(
    nodes: &[Node],
    above: MarkedSummary,
    out: &mut K,
) -> Result<(), Failed>
    ensures { Puts K.told K.faults K.settled K.lenders out.old out.new (marked above (nodes_of nodes.now)) result }
{
    for node in nodes {
        put_node(node, above, out)?;
    }
    Ok(())
}

#[cycle(marked)]
fn put_node<K: Sink>(node: &Node, above: MarkedSummary, out: &mut K) -> Result<(), Failed>
    ensures { Puts K.told K.faults K.settled K.lenders out.old out.new (item_marked above (item_of node.now)) result }
{
    match node {
        Node::Elem(elem) => put_elem(elem, above, out),
        Node::Bytes(text) => put_bytes(text, above, out),
        Node::Plain(plain) => put_idle(plain, above, out),
    }
}

/// Puts the marked text of bytes.
pub(crate) fn put_bytes<K: Sink>(
    text: &[u8],
    above: MarkedSummary,
    out: &mut K,
) -> Result<(), Failed>
    ensures { Puts K.told K.faults K.settled K.lenders out.old out.new (if above.text then shown text.now else []) result }
{
    if above.text {
        return put_shown(text, out);
    }
    Ok(())
}

#[cycle(marked)]
fn put_elem<K: Sink>(elem: &Elem, above: MarkedSummary, out: &mut K) -> Result<(), Failed>
    ensures { Puts K.told K.faults K.settled K.lenders out.old out.new
        (start_of above (tag_of elem.now) ++ (marked (inside (tag_of elem.now) above) (kids_of elem.now) ++ end_of above (tag_of elem.now) (kids_of elem.now))) result }
{
    put_elem_start(elem, above, out)?;
    put_nodes(elem.kids(), inside(elem, above), out)?;
    put_elem_end(elem, above, out)
}

// Puts what an element shows at its start tag.
fn put_elem_start<K: Sink>(elem: &Elem, above: MarkedSummary, out: &mut K) -> Result<(), Failed>
    ensures { Puts K.told K.faults K.settled K.lenders out.old out.new (start_of above (tag_of elem.now)) result }
{
    put_start_sign(elem, out)?;
    put_start_text(elem, above, out)
}

fn put_start_text<K: Sink>(elem: &Elem, above: MarkedSummary, out: &mut K) -> Result<(), Failed>
    ensures { Puts K.told K.faults K.settled K.lenders out.old out.new (if not above.quiet then open_start (tag_of elem.now) else []) result }
{
    if above.quiet {
        return Ok(());
    }
    put_open_start(elem, out)
}

fn put_open_start<K: Sink>(elem: &Elem, out: &mut K) -> Result<(), Failed>
    ensures { Puts K.told K.faults K.settled K.lenders out.old out.new (open_start (tag_of elem.now)) result }
{
    if is_named(elem, b"noBreakHyphen") {
        return put_piece("\u{2011}".as_bytes(), out);
    }
    put_start(elem, out)
}

// Puts what an element shows at its end tag.
fn put_elem_end<K: Sink>(elem: &Elem, above: MarkedSummary, out: &mut K) -> Result<(), Failed>
    ensures { Puts K.told K.faults K.settled K.lenders out.old out.new (end_of above (tag_of elem.now) (kids_of elem.now)) result }
{
    put_end_text(elem, above, out)?;
    put_end_sign(elem, out)
}

fn put_end_text<K: Sink>(elem: &Elem, above: MarkedSummary, out: &mut K) -> Result<(), Failed>
    ensures { Puts K.told K.faults K.settled K.lenders out.old out.new (if not above.quiet then open_end (tag_of elem.now) (kids_of elem.now) else []) result }
{
    if above.quiet {
        return Ok(());
    }
    put_open_end(elem, out)
}

fn put_open_end<K: Sink>(elem: &Elem, out: &mut K) -> Result<(), Failed>
    ensures { Puts K.told K.faults K.settled K.lenders out.old out.new (open_end (tag_of elem.now) (kids_of elem.now)) result }
{
    if !is_word(elem, Word::P) {
        return Ok(());
    }
    put_para_signs(elem.kids(), out)?;
    put_piece(b"\n", out)
}
