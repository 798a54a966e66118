//! Nodes that tell nothing of a revision of which an excerpt is made.

ghost use Rattle.std.specs.Prelude.{◌≡◌, ◌<◌, ◌≤◌, ℕ, Bool, IsTrue, length, take, true};
ghost use Rattle.redl_tree.specs.Model.View.{nodes_of, item_of};
ghost use Rattle.redl_excerpts.specs.Excerpts.{is_made};
ghost use Rattle.redl_excerpts.specs.Inside.Flat.{are_flat, is_flat};
ghost use Rattle.redl_excerpts.specs.Mentions.{Where, mentions};

use crate::excerpt::Excerpt;
use redl_said::is_paragraph;
use redl_tree::Node;

/// The number of nodes up to the last one that may tell something.
pub(crate) fn count_telling(excerpts: &[Option<Excerpt>], nodes: &[Node]) -> usize
    ensures within { result ≤ length nodes.now }
    ensures same { (moved : Bool) (v : ℕ) (here : Where) → is_made excerpts.now v ≡ true → mentions moved v here (nodes_of (take result nodes.now)) ≡ mentions moved v here (nodes_of nodes.now) }
{
    let mut end = nodes.len();
    while end > 0 && is_flat(excerpts, &nodes[end - 1]) {
        end -= 1;
    }
    end
}

/// Whether no member of a revision of which an excerpt is made and no paragraph is among nodes, at any depth.
#[cycle(flat)]
pub(crate) fn are_flat(excerpts: &[Option<Excerpt>], nodes: &[Node]) -> bool
    ensures { result ≡ are_flat excerpts.now (nodes_of nodes.now) }
{
    for node in nodes {
        if !is_flat(excerpts, node) {
            return false;
        }
    }
    true
}

#[cycle(flat)]
fn is_flat(excerpts: &[Option<Excerpt>], node: &Node) -> bool
    ensures { result ≡ is_flat excerpts.now (item_of node.now) }
{
    match node {
        Node::Elem(elem) => {
            !is_made(excerpts, elem.rev() as usize)
                && !is_paragraph(elem)
                && are_flat(excerpts, elem.kids())
        }
        Node::Bytes(_) | Node::Plain(_) => true,
    }
}

/// Whether an excerpt of the revision with this number is made.
pub(crate) fn is_made(excerpts: &[Option<Excerpt>], number: usize) -> bool
    ensures value { result ≡ is_made excerpts.now number }
    ensures numbered { IsTrue result → 0 < number }
    ensures within { IsTrue result → number ≤ length excerpts.now }
{
    if number == 0 {
        return false;
    }
    match excerpts.get(number - 1) {
        Some(excerpt) => excerpt.is_some(),
        None => false,
    }
}
