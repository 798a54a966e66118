//! Makes the nodes of a text.

ghost use Rattle.std.specs.Prelude.{◌≡◌, None, IfOk};
ghost use Rattle.redl_laid.specs.Firsts.{first_item};
ghost use Rattle.redl_tree.specs.Model.Folds.{nodes_in};
ghost use Rattle.redl_tree.specs.Model.Nodes.{no_nodes};
ghost use Rattle.redl_tree.specs.Model.View.{nodes_of, item_of, tag_of, kids_of, tagged, close_of};
ghost use Rattle.redl_tree.specs.declared.kinds.Space.TheVariants.{W};
ghost use Rattle.redl_leaves.specs.Inside.Opens.{IsClosed};

use redl_laid::{First, Laid, LaidElem};
use redl_tree::{Elem, Node};
use std::alloc::{AllocError, Global};

/// The node that was read first from a text, with all that it holds. `Err` means out of memory.
#[cycle(open)]
pub(crate) fn open_first<'a>(alloc: Global, first: First<'a>) -> Result<Node<'a>, AllocError>
    requires { IsClosed first }
    ensures { IfOk result (λ node. item_of node ≡ first_item first.entry) }
{
    match first {
        First::Bytes(bytes) => Ok(Node::Bytes(bytes)),
        First::Elem(elem) => Ok(Node::Elem(open_elem(alloc, elem)?)),
    }
}

#[cycle(open)]
fn open_elem<'a>(alloc: Global, elem: LaidElem<'a>) -> Result<Elem<'a>, AllocError>
    requires { elem.close ≡ None → nodes_in W elem.kids ≡ no_nodes }
    ensures tag { IfOk result (λ made. tag_of made ≡ tagged elem.entry.tag (close_of elem.entry.close)) }
    ensures kids { IfOk result (λ made. kids_of made ≡ nodes_in W elem.entry.kids) }
{
    match elem.close {
        None => Ok(Elem::empty(elem.tag)),
        Some(space) => {
            let kids = open_nodes(alloc, elem.kids)?;
            Elem::with_space(alloc, elem.tag, kids, space)
        }
    }
}

#[cycle(open)]
fn open_nodes<'a>(alloc: Global, laid: Laid<'a>) -> Result<Vec<Node<'a>>, AllocError>
    ensures { IfOk result (λ nodes. nodes_of nodes.items ≡ nodes_in W laid.entry) }
{
    let mut nodes = Vec::new(alloc);
    let mut left = laid;
    while let Some((first, rest)) = left.first() {
        nodes.push(open_first(alloc, first)?)?;
        left = rest;
    }
    Ok(nodes)
}
