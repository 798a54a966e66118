//! The walk over a story.

ghost use Rattle.std.specs.Prelude.{◌≡◌, OnOk, true};
ghost use Rattle.redl_tree.specs.Model.IdleTexts.{idle_nodes};
ghost use Rattle.redl_tree.specs.Model.Nodes.{Nodes};
ghost use Rattle.redl_tree.specs.Model.View.{item_of, kids_of, tag_of};
ghost use Rattle.redl_hidden_members.specs.Inside.Items.{item_walked};
ghost use Rattle.redl_hidden_members.specs.Walks.{element_walked, end_is_hidden, is_owner, walked};

use crate::around::Around;
use crate::idle::{Within, note_idle};
use crate::walked::Walk;
use redl_tree::{Elem, Node, Plain, Word, is_word};
use std::alloc::{AllocError, Global};
use std::mem;

/// Walks over the kids of an element. `Err` means out of memory, here and below.
#[cycle(walk)]
pub(crate) fn walk_kids(
    alloc: Global,
    within: Within<'_, '_>,
    parent: &Elem,
    walk: &mut Walk,
) -> Result<(), AllocError>
    ensures { OnOk result (walk.new ≡ walked within.entry.styles.now within.entry.at (kids_of parent.now) (kids_of parent.now) walk.old) }
{
    for node in parent.kids() {
        walk_node(alloc, within, node, parent, walk)?;
    }
    Ok(())
}

#[cycle(walk)]
fn walk_node(
    alloc: Global,
    within: Within<'_, '_>,
    node: &Node,
    parent: &Elem,
    walk: &mut Walk,
) -> Result<(), AllocError>
    ensures { OnOk result (walk.new ≡ item_walked within.entry.styles.now within.entry.at (kids_of parent.now) (item_of node.now) walk.old) }
{
    match node {
        Node::Elem(elem) => walk_elem(alloc, within, elem, parent, walk),
        Node::Bytes(bytes) => within.note_bytes(bytes, &mut walk.heard),
        Node::Plain(plain) => walk_plain(within, plain, walk),
    }
}

#[cycle(walk)]
fn walk_elem(
    alloc: Global,
    within: Within<'_, '_>,
    elem: &Elem,
    parent: &Elem,
    walk: &mut Walk,
) -> Result<(), AllocError>
    ensures { OnOk result (walk.new ≡ element_walked within.entry.styles.now within.entry.at (kids_of parent.now) (tag_of elem.now) (kids_of elem.now) walk.old) }
{
    if is_owner(elem) {
        return walk_owner(alloc, within, elem, walk);
    }
    walk.note(within.at, parent, elem)?;
    let before = mem::replace(&mut walk.heard.any, within.hides(elem));
    walk_kids(alloc, within.inside(elem), elem, walk)?;
    walk.end(before, elem);
    Ok(())
}

// Walks over a row, a cell, a table, a run or a paragraph. It isn't inlined, so that each depth takes little stack.
#[cycle(walk)]
#[inline(never)]
fn walk_owner(
    alloc: Global,
    within: Within<'_, '_>,
    elem: &Elem,
    walk: &mut Walk,
) -> Result<(), AllocError>
    requires { is_owner (tag_of elem.now) ≡ true }
    ensures { (properties : Nodes) → OnOk result (walk.new ≡ element_walked within.entry.styles.now within.entry.at properties (tag_of elem.now) (kids_of elem.now) walk.old) }
{
    let before = mem::replace(&mut walk.heard.any, within.hides(elem));
    let waiting = mem::replace(&mut walk.waiting, Vec::new(alloc));
    let inside = within.inside(elem);
    walk_kids(alloc, inside, elem, walk)?;
    walk.end_owner(is_end_hidden(elem, inside.at), before, waiting);
    Ok(())
}

// Walks over idle elements that a list keeps as text.
fn walk_plain(within: Within<'_, '_>, plain: &Plain<'_>, walk: &mut Walk) -> Result<(), AllocError>
    ensures { (properties : Nodes) → OnOk result (walk.new ≡ walked within.entry.styles.now within.entry.at properties (idle_nodes plain.now) walk.old) }
{
    note_idle(within, plain, &mut walk.heard)?;
    Ok(())
}

fn is_owner(elem: &Elem) -> bool
    ensures { result ≡ is_owner (tag_of elem.now) }
{
    is_word(elem, Word::R)
        || is_word(elem, Word::P)
        || is_word(elem, Word::Tr)
        || is_word(elem, Word::Tc)
        || is_word(elem, Word::Tbl)
}

// Whether an element ends a paragraph, and that end is hidden, where its kids stand there.
fn is_end_hidden(elem: &Elem, below: Around) -> bool
    ensures { result ≡ end_is_hidden (tag_of elem.now) below }
{
    is_word(elem, Word::P) && below.loud && below.mark
}
