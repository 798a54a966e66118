//! The walk over the nodes of a story.

ghost use Rattle.std.specs.Prelude.{◌≡◌, IfOk, OnOk};
ghost use Rattle.redl_tree.specs.Model.View.{item_of, kids_of, nodes_of, tag_of};
ghost use Rattle.redl_spans.specs.Members.{property_members};
ghost use Rattle.redl_spans.specs.Units.{holds_text};
ghost use Rattle.redl_spans.specs.Walks.{begun, closed_at, element_walked, left, opened_at, walked};
ghost use Rattle.redl_spans.specs.Inside.Items.{item_walked};

use crate::idle::walk_plain;
use crate::member::{Member, add_spans, have_edge};
use crate::members::property_members;
use crate::place::Position;
use crate::start::start_elem;
use crate::walked::{Walk, parted};
use redl_tree::{Elem, Node, Word, is_named, is_quiet, is_word};
use std::alloc::AllocError;

/// Walks over nodes, whose bytes are text or not. `Err` means out of memory, here and below.
#[cycle(walk)]
pub(crate) fn walk_nodes(nodes: &[Node], in_text: bool, walk: &mut Walk) -> Result<(), AllocError>
    ensures { OnOk result (walk.new ≡ walked in_text (nodes_of nodes.now) walk.old) }
{
    for node in nodes {
        walk_node(node, in_text, walk)?;
    }
    Ok(())
}

#[cycle(walk)]
fn walk_node(node: &Node, in_text: bool, walk: &mut Walk) -> Result<(), AllocError>
    ensures { OnOk result (walk.new ≡ item_walked in_text (item_of node.now) walk.old) }
{
    match node {
        Node::Elem(elem) => walk_elem(elem, walk),
        Node::Bytes(text) => walk.pass_bytes(text, in_text),
        Node::Plain(plain) => walk_plain(plain, in_text, walk),
    }
}

#[cycle(walk)]
fn walk_elem(elem: &Elem, walk: &mut Walk) -> Result<(), AllocError>
    ensures { OnOk result (walk.new ≡ element_walked (tag_of elem.now) (kids_of elem.now) walk.old) }
{
    if is_quiet(elem) {
        return Ok(());
    }
    let members = property_members(walk.alloc, elem.kids())?;
    let from = walk.here.count;
    begin(elem, &members, walk)?;
    walk_nodes(elem.kids(), holds_text(elem), walk)?;
    leave(elem, &members, from, walk)
}

// An element begins with these members in its properties. It isn't inlined, nor are the others here, so that each depth takes little stack.
#[inline(never)]
fn begin(elem: &Elem, members: &[Member], walk: &mut Walk) -> Result<(), AllocError>
    requires { members.now ≡ property_members (kids_of elem.now) }
    ensures { OnOk result (walk.new ≡ begun (tag_of elem.now) (kids_of elem.now) walk.old) }
{
    walk.here = opened_at(elem, members, walk.here)?;
    start_elem(elem, walk)
}

fn opened_at(elem: &Elem, members: &[Member], here: Position) -> Result<Position, AllocError>
    requires { members.now ≡ property_members (kids_of elem.now) }
    ensures { IfOk result (λ begin. begin ≡ opened_at (tag_of elem.now) (kids_of elem.now) here) }
{
    if is_word(elem, Word::P) {
        return Ok(Position {
            count: here.count,
            near: false,
        });
    }
    if have_edge(members) {
        return parted(here);
    }
    Ok(here)
}

// It ends, where so many units came before it.
#[inline(never)]
fn leave(elem: &Elem, members: &[Member], from: usize, walk: &mut Walk) -> Result<(), AllocError>
    requires { members.now ≡ property_members (kids_of elem.now) }
    ensures { OnOk result (walk.new ≡ left (tag_of elem.now) (kids_of elem.now) from walk.old) }
{
    walk.here = closed_at(elem, walk.here)?;
    add_spans(elem, members, from, walk.here.count, &mut walk.spans)
}

fn closed_at(elem: &Elem, here: Position) -> Result<Position, AllocError>
    ensures { IfOk result (λ behind. behind ≡ closed_at (tag_of elem.now) here) }
{
    if is_word(elem, Word::P) {
        return parted(here);
    }
    Ok(here)
}

fn holds_text(elem: &Elem) -> bool
    ensures { result ≡ holds_text (tag_of elem.now) }
{
    is_named(elem, b"t") || is_word(elem, Word::DelText)
}
