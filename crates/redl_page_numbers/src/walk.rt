//! The walk over a story.

ghost use Rattle.std.specs.Prelude.{◌≡◌, OnOk, false, true};
ghost use Rattle.redl_tree.specs.Model.View.{item_of, kids_of, nodes_of, tag_of};
ghost use Rattle.redl_numbering.specs.Known.{IsKnown};
ghost use Rattle.redl_page_numbers.specs.Walks.{element_walked, loud_inside, paragraph_begun, walked};
ghost use Rattle.redl_page_numbers.specs.Inside.Items.{item_walked};
ghost use Rattle.redl_tree.specs.Roles.Names.{is};

use crate::walked::Walk;
use redl_clauses::count_paragraph;
use redl_lists::Own;
use redl_numbering::{Counting, Lists};
use redl_tree::{Elem, Node, Word, is_quiet, is_word};
use std::alloc::{AllocError, Global};
use std::mem;

/// Walks over nodes, where no ancestor holds properties (`loud`), or one does. `Err` means out of memory, here and below.
#[cycle(walk)]
pub(crate) fn walk_nodes(
    alloc: Global,
    lists: &Lists<'_>,
    loud: bool,
    nodes: &[Node],
    walk: &mut Walk,
) -> Result<(), AllocError>
    requires { IsKnown lists.now }
    ensures { OnOk result (walk.new ≡ walked lists.now.tables.now loud (nodes_of nodes.now) walk.old) }
{
    for node in nodes {
        walk_node(alloc, lists, loud, node, walk)?;
    }
    Ok(())
}

#[cycle(walk)]
fn walk_node(
    alloc: Global,
    lists: &Lists<'_>,
    loud: bool,
    node: &Node,
    walk: &mut Walk,
) -> Result<(), AllocError>
    requires { IsKnown lists.now }
    ensures { OnOk result (walk.new ≡ item_walked lists.now.tables.now loud (item_of node.now) walk.old) }
{
    match node {
        Node::Elem(elem) => walk_elem(alloc, lists, loud, elem, walk),
        Node::Bytes(_) | Node::Plain(_) => Ok(()),
    }
}

#[cycle(walk)]
fn walk_elem(
    alloc: Global,
    lists: &Lists<'_>,
    loud: bool,
    elem: &Elem,
    walk: &mut Walk,
) -> Result<(), AllocError>
    requires { IsKnown lists.now }
    ensures { OnOk result (walk.new ≡ element_walked lists.now.tables.now loud (tag_of elem.now) (kids_of elem.now) walk.old) }
{
    if is_word(elem, Word::TxbxContent) {
        return walk_box(alloc, lists, loud, elem, walk);
    }
    if is_word(elem, Word::P) {
        begin_paragraph(alloc, lists, loud, elem, walk)?;
    }
    walk_nodes(alloc, lists, loud_inside(loud, elem), elem.kids(), walk)
}

// Walks over a text box, which counts by itself. It isn't inlined, nor are the others here, so that each depth takes little stack.
#[cycle(walk)]
#[inline(never)]
fn walk_box(
    alloc: Global,
    lists: &Lists<'_>,
    loud: bool,
    elem: &Elem,
    walk: &mut Walk,
) -> Result<(), AllocError>
    requires known { IsKnown lists.now }
    requires is_box { is "txbxContent" (tag_of elem.now) ≡ true }
    ensures { OnOk result (walk.new ≡ element_walked lists.now.tables.now loud (tag_of elem.now) (kids_of elem.now) walk.old) }
{
    let outer = mem::replace(&mut walk.counting, Counting::new(alloc)?);
    walk_nodes(alloc, lists, loud_inside(loud, elem), elem.kids(), walk)?;
    walk.counting = outer;
    Ok(())
}

// Whether no ancestor of an element's kids holds properties.
fn loud_inside(loud: bool, elem: &Elem) -> bool
    ensures { result ≡ loud_inside loud (tag_of elem.now) }
{
    loud && !is_quiet(elem)
}

#[inline(never)]
fn begin_paragraph(
    alloc: Global,
    lists: &Lists<'_>,
    loud: bool,
    elem: &Elem,
    walk: &mut Walk,
) -> Result<(), AllocError>
    requires { IsKnown lists.now }
    ensures { OnOk result (walk.new ≡ paragraph_begun lists.now.tables.now loud (kids_of elem.now) walk.old) }
{
    let own = Own::of(alloc, elem)?;
    let found = count_paragraph(alloc, lists, &own, elem, &mut walk.counting)?;
    if !loud {
        return Ok(());
    }
    walk.show()?;
    match found {
        Some(found) => walk.note(alloc, &own, found),
        None => Ok(()),
    }
}
