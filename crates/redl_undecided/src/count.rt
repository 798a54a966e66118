//! The number of marks that no revision holds.

ghost use Rattle.std.specs.Prelude.{◌≡◌, ◌+◌, ◌-◌, ◌^◌, min};
ghost use Rattle.redl_tree.specs.Model.IdleTexts.{idle_nodes};
ghost use Rattle.redl_tree.specs.Model.Nodes.{in_front, no_nodes};
ghost use Rattle.redl_tree.specs.Model.View.{nodes_of, item_of, tag_of};
ghost use Rattle.redl_undecided.specs.Undecided.{is_undecided, one_if, undecided_marks};

use crate::middles::lacks_middles;
use crate::names::is_mark_name;
use redl_idle::{Shows, show};
use redl_tree::{Elem, Kind, Node, Plain, Space};
use std::convert::Infallible;

/// How many marks of changes among nodes, at every depth, are in no revision, or 18446744073709551615 where there are more. The
/// members of revisions have their kinds. It takes no memory.
pub fn count_undecided(nodes: &[Node]) -> u64
    ensures { result ≡ min (undecided_marks (nodes_of nodes.now)) (2 ^ 64 - 1) }
{
    add_nodes(0, nodes)
}

// A number, and how many marks are among nodes, at every depth.
#[cycle(count)]
fn add_nodes(count: u64, nodes: &[Node]) -> u64
    ensures { result ≡ min (count + undecided_marks (nodes_of nodes.now)) (2 ^ 64 - 1) }
{
    let mut total = count;
    for node in nodes {
        total = add_node(total, node);
    }
    total
}

#[cycle(count)]
fn add_node(count: u64, node: &Node) -> u64
    ensures { result ≡ min (count + undecided_marks (in_front (item_of node.now) no_nodes)) (2 ^ 64 - 1) }
{
    match node {
        Node::Elem(elem) => add_nodes(add_own(count, elem), elem.kids()),
        Node::Bytes(_) => count,
        Node::Plain(plain) => add_plain(count, plain),
    }
}

// A number, and 1 more where the element itself is such a mark.
fn add_own(count: u64, elem: &Elem) -> u64
    ensures { result ≡ min (count + one_if (is_undecided (tag_of elem.now))) (2 ^ 64 - 1) }
{
    if is_undecided(elem) {
        count.saturating_add(1)
    } else {
        count
    }
}

fn is_undecided(elem: &Elem) -> bool
    ensures { result ≡ is_undecided (tag_of elem.now) }
{
    match (elem.kind(), elem.space()) {
        (Kind::Plain, Space::W) => is_mark_name(elem.local()),
        _ => false,
    }
}

// A number, and how many of the idle elements are such marks that a list keeps as text. (In a function of its own, so that the walk
// keeps little at each element.)
#[inline(never)]
fn add_plain(count: u64, plain: &Plain) -> u64
    ensures { result ≡ min (count + undecided_marks (idle_nodes plain.now)) (2 ^ 64 - 1) }
{
    // Mostly there is none, and a search is quicker than a walk.
    if lacks_middles(plain.text()) {
        return count;
    }
    let mut marks = Marks { count: 0 };
    match show(plain, &Idle, &mut marks) {
        Ok(()) => count.saturating_add(marks.count),
        Err(never) => match never {},
    }
}

// The number of marks so far.
#[derive(Drop)]
struct Marks {
    count: u64,
}

// Hands down nothing.
#[derive(Clone, Copy)]
struct Idle;

impl Shows<Marks> for Idle {
    ghost use Rattle.redl_undecided.specs.Idle.{by_count, idle_rule};

    type Error = Infallible;

    ghost rule = { idle_rule };

    ghost taking = { by_count };

    fn put_bytes(&self, _bytes: &[u8], _marks: &mut Marks) -> Result<(), Infallible> {
        Ok(())
    }

    fn enter(
        &self,
        local: &[u8],
        _tail: &[u8],
        _ahead: &[u8],
        marks: &mut Marks,
    ) -> Result<Self, Infallible> {
        if is_mark_name(local) {
            marks.count = marks.count.saturating_add(1);
        }
        Ok(Idle)
    }

    fn leave(&self, _marks: &mut Marks) -> Result<(), Infallible> {
        Ok(())
    }
}
