//! The walk over a story.

ghost use Rattle.std.specs.Prelude.{◌≡◌, OnOk, false, true};
ghost use Rattle.redl_tree.specs.Model.View.{item_of, kids_of, nodes_of, tag_of};
ghost use Rattle.redl_tree.specs.Roles.Names.{is};
ghost use Rattle.redl_numbering.specs.Counts.{Counts};
ghost use Rattle.redl_numbering.specs.Known.{IsKnown};
ghost use Rattle.redl_clauses.specs.Walks.{element_walked, left, paragraph_begun, walked};
ghost use Rattle.redl_clauses.specs.Inside.Items.{item_walked};

use crate::paragraph::count_paragraph;
use crate::walked::Walk;
use redl_lists::Own;
use redl_numbering::{Counting, Lists};
use redl_tree::{Elem, Node, Word, is_word};
use std::alloc::{AllocError, Global};
use std::mem;

/// Walks over nodes. `Err` means out of memory, here and below.
#[cycle(walk)]
pub(crate) fn walk_nodes(
    alloc: Global,
    lists: &Lists<'_>,
    nodes: &[Node],
    walk: &mut Walk,
) -> Result<(), AllocError>
    requires { IsKnown lists.now }
    ensures { OnOk result (walk.new ≡ walked lists.now.tables.now (nodes_of nodes.now) walk.old) }
{
    for node in nodes {
        walk_node(alloc, lists, node, walk)?;
    }
    Ok(())
}

#[cycle(walk)]
fn walk_node(
    alloc: Global,
    lists: &Lists<'_>,
    node: &Node,
    walk: &mut Walk,
) -> Result<(), AllocError>
    requires { IsKnown lists.now }
    ensures { OnOk result (walk.new ≡ item_walked lists.now.tables.now (item_of node.now) walk.old) }
{
    match node {
        Node::Elem(elem) => walk_elem(alloc, lists, elem, walk),
        Node::Bytes(_) | Node::Plain(_) => Ok(()),
    }
}

#[cycle(walk)]
fn walk_elem(
    alloc: Global,
    lists: &Lists<'_>,
    elem: &Elem,
    walk: &mut Walk,
) -> Result<(), AllocError>
    requires { IsKnown lists.now }
    ensures { OnOk result (walk.new ≡ element_walked lists.now.tables.now (tag_of elem.now) (kids_of elem.now) walk.old) }
{
    if is_word(elem, Word::TxbxContent) {
        return walk_box(alloc, lists, elem, walk);
    }
    walk.note(alloc, elem.kind(), elem.rev())?;
    if is_word(elem, Word::P) {
        begin_paragraph(alloc, lists, elem, walk)?;
    }
    walk_nodes(alloc, lists, elem.kids(), walk)?;
    leave(alloc, elem, walk)
}

// Walks over a text box, which counts by itself. It isn't inlined, nor are the others here, so that each depth takes little stack.
#[cycle(walk)]
#[inline(never)]
fn walk_box(
    alloc: Global,
    lists: &Lists<'_>,
    elem: &Elem,
    walk: &mut Walk,
) -> Result<(), AllocError>
    requires known { IsKnown lists.now }
    requires is_box { is "txbxContent" (tag_of elem.now) ≡ true }
    ensures { OnOk result (walk.new ≡ element_walked lists.now.tables.now (tag_of elem.now) (kids_of elem.now) walk.old) }
{
    walk.note(alloc, elem.kind(), elem.rev())?;
    let outer = mem::replace(&mut walk.counting, Counting::new(alloc)?);
    walk_nodes(alloc, lists, elem.kids(), walk)?;
    walk.counting = outer;
    Ok(())
}

// What an element ends.
#[inline(never)]
fn leave(alloc: Global, elem: &Elem, walk: &mut Walk) -> Result<(), AllocError>
    requires { is "txbxContent" (tag_of elem.now) ≡ false }
    ensures { (outer : Counts) → OnOk result (walk.new ≡ left (tag_of elem.now) outer walk.old) }
{
    if is_word(elem, Word::P) {
        return walk.counting.pass(alloc);
    }
    if is_word(elem, Word::Tbl) {
        let clause = walk.counting.before(alloc)?;
        return walk.settle(alloc, &clause);
    }
    Ok(())
}

#[inline(never)]
fn begin_paragraph(
    alloc: Global,
    lists: &Lists<'_>,
    elem: &Elem,
    walk: &mut Walk,
) -> Result<(), AllocError>
    requires { IsKnown lists.now }
    ensures { OnOk result (walk.new ≡ paragraph_begun lists.now.tables.now (kids_of elem.now) walk.old) }
{
    let own = Own::of(alloc, elem)?;
    count_paragraph(alloc, lists, &own, elem, &mut walk.counting)?;
    let clause = walk.counting.here().copy(alloc)?;
    walk.settle(alloc, &clause)
}
