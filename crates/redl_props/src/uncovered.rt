//! Elements that no change of properties covers.

ghost use Rattle.std.specs.Prelude.{◌≡◌, IfOk};
ghost use Rattle.redl_tree.specs.Model.Kids.{only, without, item_is};
ghost use Rattle.redl_tree.specs.Decisions.Restored.{is_uncovered as is_uncovered_tag};
ghost use Rattle.redl_tree.specs.Model.View.{nodes_of, item_of, tag_of};

use redl_output::copy_node;
use redl_tree::{Elem, Node, Prop, Word, is_word};
use std::alloc::{AllocError, Global};

/// The kids of run properties without the revisions of a paragraph's mark (ECMA-376 Part 1, 17.13.5).
///
/// All other kids stay, in their order. It takes no memory.
pub fn without_marks(kids: Vec<Node>) -> Vec<Node>
    ensures { nodes_of result.items ≡ without (is_uncovered_tag Prop.Run) (nodes_of kids.entry.items) }
{
    let mut kids = kids;
    kids.retain(|node| !is_uncovered_node(node, Prop::Run));
    kids
}

/// The present kids that no change of these properties covers.
pub(crate) fn retained(current: Vec<Node>, what: Prop) -> Vec<Node>
    ensures { nodes_of result.items ≡ only (is_uncovered_tag what) (nodes_of current.entry.items) }
{
    let mut kids = current;
    kids.retain(|node| is_uncovered_node(node, what));
    kids
}

/// A copy of the former kids, without those that no change of these properties covers.
pub(crate) fn copied<'a>(
    alloc: Global,
    former: &[Node<'a>],
    what: Prop,
) -> Result<Vec<Node<'a>>, AllocError>
    ensures { IfOk result (λ kids. nodes_of kids.items ≡ without (is_uncovered_tag what) (nodes_of former.now)) }
{
    let mut copied = Vec::with_capacity(alloc, former.len())?;
    for node in former {
        if !is_uncovered_node(node, what) {
            copied.push(copy_node(alloc, node)?)?;
        }
    }
    Ok(copied)
}

fn is_uncovered_node(node: &Node, what: Prop) -> bool
    ensures { result ≡ item_is (is_uncovered_tag what) (item_of node.now) }
{
    match node {
        Node::Elem(elem) => is_uncovered(elem, what),
        Node::Bytes(_) => false,
        Node::Plain(_) => false,
    }
}

// No change of these properties covers the element, so it stays when one is rejected.
fn is_uncovered(elem: &Elem, what: Prop) -> bool
    ensures { result ≡ is_uncovered_tag what (tag_of elem.now) }
{
    match what {
        Prop::Run => {
            is_word(elem, Word::Ins)
                || is_word(elem, Word::Del)
                || is_word(elem, Word::MoveFrom)
                || is_word(elem, Word::MoveTo)
        }
        Prop::Para => is_word(elem, Word::RPr) || is_word(elem, Word::SectPr),
        Prop::Sect => is_word(elem, Word::HeaderReference) || is_word(elem, Word::FooterReference),
        Prop::Table | Prop::Except => false,
        Prop::Row => is_word(elem, Word::Ins) || is_word(elem, Word::Del),
        Prop::Cell => {
            is_word(elem, Word::CellIns)
                || is_word(elem, Word::CellDel)
                || is_word(elem, Word::CellMerge)
        }
    }
}
