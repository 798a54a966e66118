//! The members of a paragraph's mark.

ghost use Rattle.std.specs.Prelude.{◌≡◌};
ghost use Rattle.redl_io.specs.Sink.{Puts};
ghost use Rattle.redl_tree.specs.Model.View.{nodes_of, item_of, tag_of, kids_of};
ghost use Rattle.redl_tree.specs.Roles.Kinds.{is_mark};
ghost use Rattle.redl_page_stories.specs.Document.{marks_in};
ghost use Rattle.redl_html.specs.Pieces.{pieces_text};
ghost use Rattle.redl_page_stories.specs.Inside.Items.{element_marks, item_marks};

use crate::sign::put_member;
use redl_index::Index;
use redl_io::{Failed, Sink};
use redl_tree::{Elem, Kind, Node, Word, is_word};

/// Where nodes are in a paragraph.
#[derive(Clone, Copy, Debug, PartialEq, Eq)]
pub(crate) enum Depth {
    /// Its kids.
    Kids,
    /// Those in its properties.
    Properties,
    /// Those in the run properties of its mark.
    RunProperties,
}

/// Puts the elements of the members of a paragraph's mark among these nodes. It takes no memory.
#[cycle(marks)]
pub(crate) fn put_marks<K: Sink>(
    index: &Index,
    depth: Depth,
    nodes: &[Node],
    out: &mut K,
) -> Result<(), Failed>
    ensures { Puts K.told K.faults K.settled K.lenders out.old out.new (pieces_text (marks_in index.now depth (nodes_of nodes.now))) result }
{
    for node in nodes {
        put_node_marks(index, depth, node, out)?;
    }
    Ok(())
}

#[cycle(marks)]
fn put_node_marks<K: Sink>(
    index: &Index,
    depth: Depth,
    node: &Node,
    out: &mut K,
) -> Result<(), Failed>
    ensures { Puts K.told K.faults K.settled K.lenders out.old out.new (pieces_text (item_marks index.now depth (item_of node.now))) result }
{
    match node {
        Node::Elem(elem) => put_elem_marks(index, depth, elem, out),
        Node::Bytes(_) => Ok(()),
        Node::Plain(_) => Ok(()),
    }
}

#[cycle(marks)]
fn put_elem_marks<K: Sink>(
    index: &Index,
    depth: Depth,
    elem: &Elem,
    out: &mut K,
) -> Result<(), Failed>
    ensures { Puts K.told K.faults K.settled K.lenders out.old out.new (pieces_text (element_marks index.now depth (tag_of elem.now) (kids_of elem.now))) result }
{
    match depth {
        Depth::Kids if is_word(elem, Word::PPr) => put_marks(
            index,
            Depth::Properties,
            elem.kids(),
            out,
        ),
        Depth::Properties if is_word(elem, Word::RPr) => put_marks(
            index,
            Depth::RunProperties,
            elem.kids(),
            out,
        ),
        Depth::RunProperties if is_mark(elem.kind()) => put_member(
            index,
            elem.kind(),
            elem.rev(),
            out,
        ),
        _ => Ok(()),
    }
}

fn is_mark(kind: Kind) -> bool
    ensures { result ≡ is_mark kind }
{
    matches!(kind, Kind::Mark(_))
}
