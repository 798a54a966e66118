//! The search for an own row or cell that stays, which notes the way to it.

ghost use Rattle.std.specs.Prelude.{◌≡◌, ℕ, List, drop, length, false};
ghost use Rattle.redl_tables.specs.Asked.{answer, asked_inside};
ghost use Rattle.redl_tree.specs.Model.View.{nodes_of, item_of, tag_of, kids_of};
ghost use Rattle.redl_views.specs.Ways.{answers_itself, found_of_elem, found_of_item, put_first, tail, Leads, LeadsIn};

use crate::known::{is_step, passed_node};
use redl_tables::{Finding, Question};
use redl_tree::{Elem, Node, Say};

/// What these nodes hold of what is asked. Where one stays, `way` has from `level` on the way to it, as far as there is room.
#[cycle(ways)]
pub(crate) fn find_way(
    nodes: &[Node],
    asked: Question,
    says: &[Say],
    way: &mut [usize],
    level: usize,
) -> Finding
    ensures found { result ≡ answer says.now asked (nodes_of nodes.now) }
    ensures way { result ≡ Finding.Living → Leads says.now asked 0 (drop level way.new) (nodes_of nodes.now) }
    ensures room { length way.new ≡ length way.old }
{
    let mut all = Finding::Nothing;
    let mut passed = 0;
    for node in nodes {
        let found = find_in_node(node, asked, says, way, level);
        if let Finding::Living = found {
            put_step(passed, way, level);
            return Finding::Living;
        }
        all = all.and(found);
        passed = passed_node(node, passed);
    }
    all
}

#[cycle(ways)]
fn find_in_node(
    node: &Node,
    asked: Question,
    says: &[Say],
    way: &mut [usize],
    level: usize,
) -> Finding
    ensures found { result ≡ found_of_item says.now asked (item_of node.now) }
    ensures way { result ≡ Finding.Living → LeadsIn says.now asked (tail (drop level way.new)) (item_of node.now) }
    ensures room { length way.new ≡ length way.old }
{
    match node {
        Node::Elem(elem) => find_in_elem(elem, asked, says, way, level),
        Node::Bytes(_) | Node::Plain(_) => Finding::Nothing,
    }
}

#[cycle(ways)]
fn find_in_elem(
    elem: &Elem,
    asked: Question,
    says: &[Say],
    way: &mut [usize],
    level: usize,
) -> Finding
    ensures found { result ≡ found_of_elem says.now asked (tag_of elem.now) (kids_of elem.now) }
    ensures way { result ≡ Finding.Living → answers_itself asked (tag_of elem.now) ≡ false
        → Leads says.now (asked_inside (tag_of elem.now) asked) 0 (tail (drop level way.new)) (kids_of elem.now) }
    ensures room { length way.new ≡ length way.old }
{
    if asked.is_answered_by(elem) {
        return asked.answer_of(elem, says);
    }
    if !is_step(elem) {
        return Finding::Nothing;
    }
    let deeper = level_below(level, way);
    find_way(elem.kids(), asked.inside(elem), says, way, deeper)
}

// The level below, where there is room for it.
fn level_below(level: usize, way: &[usize]) -> usize
    ensures { (later : List ℕ) → length later ≡ length way.now → drop result later ≡ tail (drop level later) }
{
    if level < way.len() { level + 1 } else { level }
}

// Notes a step of the way, where there is room for it.
fn put_step(step: usize, way: &mut [usize], level: usize)
    ensures way { drop level way.new ≡ put_first step (drop level way.old) }
    ensures room { length way.new ≡ length way.old }
{
    if level < way.len() {
        way[level] = step;
    }
}
