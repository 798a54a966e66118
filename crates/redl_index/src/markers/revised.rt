//! Elements that are revisions themselves: content revisions, rows and cells (ECMA-376 Part 1, 17.13.5).

ghost use Rattle.std.specs.Prelude.{◌≡◌, is_some};
ghost use Rattle.redl_tree.specs.Model.Kids.{some_element, item_is};
ghost use Rattle.redl_tree.specs.Revisions.Markers.{is_row_revision as row_revision, is_cell_revision as cell_revision};
ghost use Rattle.redl_tree.specs.Roles.Places.{row_trace_of as row_trace_of_tag, cell_trace_of as cell_trace_of_tag};
ghost use Rattle.redl_tree.specs.Model.View.{nodes_of, item_of, tag_of, kids_of};
ghost use Rattle.redl_index.specs.Inside.Markers.Trails.{is_revised_by, makes_revised};

use redl_tree::{Elem, Node, Word, cell_trace_of, is_word, row_trace_of, trace_of};

/// Whether an open element is a content revision, a row with a row revision, or a cell with a cell revision.
pub(crate) fn is_revised(elem: &Elem) -> bool
    ensures { result ≡ is_revised_by (tag_of elem.now) (kids_of elem.now) }
{
    trace_of(elem).is_some()
        || (is_word(elem, Word::Tr) && is_row_revision(elem.kids()))
        || (is_word(elem, Word::Tc) && is_cell_revision(elem.kids()))
}

// Whether a row with these kids is a revision itself.
fn is_row_revision(kids: &[Node]) -> bool
    ensures { result ≡ row_revision (nodes_of kids.now) }
{
    kids.iter().any(|node| makes_row_revision(node))
}

// Whether one of these marks its row as inserted or deleted.
fn has_row_trace(nodes: &[Node]) -> bool
    ensures { result ≡ some_element (λ tag. is_some (row_trace_of_tag tag)) (nodes_of nodes.now) }
{
    nodes.iter().any(|node| marks_row(node))
}

// Whether a cell with these kids is a revision itself.
fn is_cell_revision(kids: &[Node]) -> bool
    ensures { result ≡ cell_revision (nodes_of kids.now) }
{
    kids.iter().any(|node| makes_cell_revision(node))
}

// Whether one of these marks its cell as inserted or deleted.
fn has_cell_trace(nodes: &[Node]) -> bool
    ensures { result ≡ some_element (λ tag. is_some (cell_trace_of_tag tag)) (nodes_of nodes.now) }
{
    nodes.iter().any(|node| marks_cell(node))
}

// Whether a node is the properties of a row, and they make the row a revision.
fn makes_row_revision(node: &Node) -> bool
    ensures { result ≡ makes_revised "trPr" (λ tag. is_some (row_trace_of_tag tag)) (item_of node.now) }
{
    match node {
        Node::Elem(elem) => is_word(elem, Word::TrPr) && has_row_trace(elem.kids()),
        Node::Bytes(_) | Node::Plain(_) => false,
    }
}

// Whether a node is the properties of a cell, and they make the cell a revision.
fn makes_cell_revision(node: &Node) -> bool
    ensures { result ≡ makes_revised "tcPr" (λ tag. is_some (cell_trace_of_tag tag)) (item_of node.now) }
{
    match node {
        Node::Elem(elem) => is_word(elem, Word::TcPr) && has_cell_trace(elem.kids()),
        Node::Bytes(_) | Node::Plain(_) => false,
    }
}

// Whether a node marks its row as inserted or deleted.
#[inline(always)]
fn marks_row(node: &Node) -> bool
    ensures { result ≡ item_is (λ tag. is_some (row_trace_of_tag tag)) (item_of node.now) }
{
    match node {
        Node::Elem(elem) => row_trace_of(elem).is_some(),
        Node::Bytes(_) => false,
        Node::Plain(_) => false,
    }
}

// Whether a node marks its cell as inserted or deleted.
#[inline(always)]
fn marks_cell(node: &Node) -> bool
    ensures { result ≡ item_is (λ tag. is_some (cell_trace_of_tag tag)) (item_of node.now) }
{
    match node {
        Node::Elem(elem) => cell_trace_of(elem).is_some(),
        Node::Bytes(_) => false,
        Node::Plain(_) => false,
    }
}
