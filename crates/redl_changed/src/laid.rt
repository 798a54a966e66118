//! The leaves of nodes that are kept as text.

ghost use Rattle.std.specs.Prelude.{◌≡◌, OnOk};
ghost use Rattle.redl_laid.specs.Firsts.{first_item};
ghost use Rattle.redl_tree.specs.Model.Folds.{nodes_in};
ghost use Rattle.redl_tree.specs.Model.Kids.{has_element};
ghost use Rattle.redl_tree.specs.Model.Nodes.{in_front, no_nodes};
ghost use Rattle.redl_tree.specs.Model.View.{tagged, close_of};
ghost use Rattle.redl_tree.specs.declared.kinds.Space.TheVariants.{W};
ghost use Rattle.redl_changed.specs.Kept.{kept_after};
ghost use Rattle.redl_changed.specs.Leaves.{element_leaves, item_leaves, leaves_in};

use crate::kept::Kept;
use crate::leaf::push_leaf;
use crate::names::{is_left_out, path_below};
use redl_laid::{First, Laid, LaidElem};
use redl_tree::Prop;
use std::alloc::{AllocError, Global};

/// Adds the leaves of nodes in an element with this path, in a list of such properties. `Err` means out of memory.
#[cycle(laid)]
pub(crate) fn push_laid_leaves(
    alloc: Global,
    what: Prop,
    path: &[u8],
    laid: Laid<'_>,
    kept: &mut Kept,
) -> Result<(), AllocError>
    ensures { OnOk result (kept.new ≡ kept_after kept.old (leaves_in what path.now (nodes_in W laid.entry))) }
{
    let mut left = laid;
    while let Some((first, rest)) = left.first() {
        push_first_leaves(alloc, what, path, first, kept)?;
        left = rest;
    }
    Ok(())
}

#[cycle(laid)]
fn push_first_leaves(
    alloc: Global,
    what: Prop,
    path: &[u8],
    first: First<'_>,
    kept: &mut Kept,
) -> Result<(), AllocError>
    ensures { OnOk result (kept.new ≡ kept_after kept.old (item_leaves what path.now (first_item first.entry))) }
{
    match first {
        First::Bytes(_) => Ok(()),
        First::Elem(elem) => push_laid_elem_leaves(alloc, what, path, elem, kept),
    }
}

#[cycle(laid)]
fn push_laid_elem_leaves(
    alloc: Global,
    what: Prop,
    path: &[u8],
    elem: LaidElem<'_>,
    kept: &mut Kept,
) -> Result<(), AllocError>
    ensures { OnOk result (kept.new ≡ kept_after kept.old (element_leaves what path.now (tagged elem.entry.tag (close_of elem.entry.close)) (nodes_in W elem.entry.kids))) }
{
    let LaidElem { tag, kids, .. } = elem;
    if is_left_out(what, tag.space(), tag.local()) {
        return Ok(());
    }
    let inside = path_below(alloc, path, tag.space(), tag.prefix(), tag.local())?;
    if has_laid_elements(&kids) {
        return push_laid_leaves(alloc, what, &inside, kids, kept);
    }
    push_leaf(alloc, &inside, tag.tail(), kept)
}

// Whether there is an element among these nodes.
fn has_laid_elements(laid: &Laid<'_>) -> bool
    ensures { result ≡ has_element (nodes_in W laid.now) }
{
    match laid.first() {
        Some((first, rest)) => {
            if is_element(&first) {
                return true;
            }
            has_elements_in(rest)
        }
        None => false,
    }
}

fn has_elements_in(laid: Laid<'_>) -> bool
    ensures { result ≡ has_element (nodes_in W laid.entry) }
{
    let mut left = laid;
    while let Some((first, rest)) = left.first() {
        if is_element(&first) {
            return true;
        }
        left = rest;
    }
    false
}

fn is_element(first: &First<'_>) -> bool
    ensures { result ≡ has_element (in_front (first_item first.now) no_nodes) }
{
    match first {
        First::Elem(_) => true,
        First::Bytes(_) => false,
    }
}
