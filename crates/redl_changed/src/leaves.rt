//! The leaves of nodes.

ghost use Rattle.std.specs.Prelude.{◌≡◌, OnOk};
ghost use Rattle.redl_tree.specs.Model.View.{nodes_of, item_of, tag_of, kids_of};
ghost use Rattle.redl_changed.specs.Kept.{kept_after};
ghost use Rattle.redl_changed.specs.Leaves.{element_leaves, item_leaves, leaves_in};

use crate::kept::Kept;
use crate::laid::push_laid_leaves;
use crate::leaf::push_leaf;
use crate::names::{is_left_out, path_below};
use redl_laid::Laid;
use redl_tree::{Elem, Node, Prop, has_elements};
use std::alloc::{AllocError, Global};

/// Adds the leaves of nodes in an element with this path, in a list of such properties. `Err` means out of memory.
#[cycle(leaves)]
pub(crate) fn push_leaves(
    alloc: Global,
    what: Prop,
    path: &[u8],
    nodes: &[Node],
    kept: &mut Kept,
) -> Result<(), AllocError>
    ensures { OnOk result (kept.new ≡ kept_after kept.old (leaves_in what path.now (nodes_of nodes.now))) }
{
    for node in nodes {
        push_node_leaves(alloc, what, path, node, kept)?;
    }
    Ok(())
}

#[cycle(leaves)]
fn push_node_leaves(
    alloc: Global,
    what: Prop,
    path: &[u8],
    node: &Node,
    kept: &mut Kept,
) -> Result<(), AllocError>
    ensures { OnOk result (kept.new ≡ kept_after kept.old (item_leaves what path.now (item_of node.now))) }
{
    match node {
        Node::Elem(elem) => push_elem_leaves(alloc, what, path, elem, kept),
        Node::Bytes(_) => Ok(()),
        Node::Plain(plain) => push_laid_leaves(alloc, what, path, Laid::of(plain), kept),
    }
}

#[cycle(leaves)]
fn push_elem_leaves(
    alloc: Global,
    what: Prop,
    path: &[u8],
    elem: &Elem,
    kept: &mut Kept,
) -> Result<(), AllocError>
    ensures { OnOk result (kept.new ≡ kept_after kept.old (element_leaves what path.now (tag_of elem.now) (kids_of elem.now))) }
{
    if is_left_out(what, elem.space(), elem.local()) {
        return Ok(());
    }
    let inside = path_below(alloc, path, elem.space(), elem.prefix(), elem.local())?;
    if has_elements(elem.kids()) {
        return push_leaves(alloc, what, &inside, elem.kids(), kept);
    }
    push_leaf(alloc, &inside, elem.tail(), kept)
}
