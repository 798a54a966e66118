//! How cells end, and whether rows have cells.

ghost use Rattle.std.specs.Prelude.{◌≡◌, ◌&&◌};
ghost use Rattle.redl_tree.specs.Roles.Names.{is};
ghost use Rattle.redl_tree.specs.Roles.Lists.{into, is_direct};
ghost use Rattle.redl_tree.specs.Rules.CellEnds.{end_of, end_of_one, end_of_two as end_of_two_of, or_before, is_so};
ghost use Rattle.redl_tree.specs.Decisions.Tables.{has_own};
ghost use Rattle.redl_tree.specs.Model.View.{nodes_of, item_of, tag_of, kids_of};
ghost use Rattle.redl_rules.specs.Inside.Ends.{item_end, item_has_own, element_has_own};

use redl_tree::{Elem, Node, Reach, Word, is_thick, is_word, is_wrapper};

/// Whether the last block of these ends in a paragraph, if there is a block. Of the contents of a control one that ends so
/// is enough.
#[cycle(ends)]
pub fn end_of_nodes(nodes: &[Node], reach: Reach) -> Option<bool>
    ensures { result ≡ end_of reach (nodes_of nodes.now) }
{
    let mut end = None;
    for node in nodes {
        end = end_of_two(reach, end, end_of_node(node, reach));
    }
    end
}

#[cycle(ends)]
fn end_of_node(node: &Node, reach: Reach) -> Option<bool>
    ensures { result ≡ item_end reach (item_of node.now) }
{
    match node {
        Node::Elem(elem) => end_of_elem(elem, reach),
        Node::Bytes(_) | Node::Plain(_) => None,
    }
}

#[cycle(ends)]
fn end_of_elem(elem: &Elem, reach: Reach) -> Option<bool>
    ensures { result ≡ end_of_one reach (tag_of elem.now) (end_of (into reach (tag_of elem.now)) (kids_of elem.now)) }
{
    match reach {
        Reach::Direct => {
            if is_word(elem, Word::P) {
                Some(true)
            } else if is_wrapper(elem) {
                Some(is_so_end(end_of_nodes(elem.kids(), reach.into(elem))))
            } else if is_thick(elem) {
                Some(false)
            } else {
                None
            }
        }
        Reach::Control => {
            if is_word(elem, Word::SdtContent) {
                end_of_nodes(elem.kids(), Reach::Direct)
            } else {
                None
            }
        }
        Reach::Beyond => None,
    }
}

// The end of two lists, one after the other.
fn end_of_two(reach: Reach, before: Option<bool>, last: Option<bool>) -> Option<bool>
    ensures { result ≡ end_of_two_of reach before last }
{
    match (reach, before) {
        (Reach::Control, Some(true)) => Some(true),
        _ => later_end(before, last),
    }
}

// What the last of two says, or else the one before.
fn later_end(before: Option<bool>, last: Option<bool>) -> Option<bool>
    ensures { result ≡ or_before before last }
{
    match last {
        Some(end) => Some(end),
        None => before,
    }
}

/// Whether there is a last block, and it ends in a paragraph.
pub fn is_so_end(end: Option<bool>) -> bool
    ensures { result ≡ is_so end }
{
    match end {
        Some(ends) => ends,
        None => false,
    }
}

/// Whether these have a cell for their row, directly or through content controls and custom XML.
#[cycle(cells)]
pub fn has_own_cell(nodes: &[Node], reach: Reach) -> bool
    ensures { result ≡ has_own "tc" reach (nodes_of nodes.now) }
{
    for node in nodes {
        if holds_cell(node, reach) {
            return true;
        }
    }
    false
}

#[cycle(cells)]
fn holds_cell(node: &Node, reach: Reach) -> bool
    ensures { result ≡ item_has_own "tc" reach (item_of node.now) }
{
    match node {
        Node::Elem(elem) => elem_holds_cell(elem, reach),
        Node::Bytes(_) | Node::Plain(_) => false,
    }
}

#[cycle(cells)]
#[tactic(auto, using(crate::proofs::EndLaws::has_own_beyond))]
fn elem_holds_cell(elem: &Elem, reach: Reach) -> bool
    ensures { result ≡ element_has_own "tc" reach (tag_of elem.now) (kids_of elem.now) }
{
    if is_cell_here(elem, reach) {
        return true;
    }
    match reach.into(elem) {
        Reach::Beyond => false,
        inner => has_own_cell(elem.kids(), inner),
    }
}

fn is_cell_here(elem: &Elem, reach: Reach) -> bool
    ensures { result ≡ (is_direct reach && is "tc" (tag_of elem.now)) }
{
    match reach {
        Reach::Direct => is_word(elem, Word::Tc),
        _ => false,
    }
}
