//! The list of a package's parts.

ghost use Rattle.std.specs.Prelude.{◌≡◌, true, IfOk, map};
ghost use Rattle.std.specs.List.{list_all};
ghost use Rattle.std.specs.Str.{IsUtf8};
ghost use Rattle.redl_tree.specs.Model.View.{nodes_of, tag_of};
ghost use Rattle.redl_opc.specs.Elements.{elements_of};
ghost use Rattle.redl_opc.specs.Parts.{name_in, places_from};
ghost use Rattle.redl_opc.specs.Shape.{is_part};
ghost use Rattle.redl_opc.specs.Inside.PartView.{part_view};
ghost use Rattle.redl_tree.specs.Model.Tree.{HasUtf8Tails};

use crate::part::Part;
use redl_io::Text;
use redl_stamp::attribute;
use redl_tree::{Elem, Node};
use std::alloc::{AllocError, Global};

// The decoded name in a part's tag. Without a name it is the empty text.
fn name_of(alloc: Global, elem: &Elem) -> Result<Text, AllocError>
    ensures value { IfOk result (λ name. name ≡ name_in (tag_of elem.now)) }
    ensures utf8 { IsUtf8 (tag_of elem.now).tail → IfOk result IsUtf8 }
{
    match attribute(alloc, elem.tail(), b"name")? {
        Some(name) => Ok(name),
        None => Text::copy_of(alloc, b""),
    }
}

/// The elements of nodes, all of which are parts, each with its place and its name. `Err` means out of memory.
pub(crate) fn list_parts(alloc: Global, nodes: &[Node]) -> Result<Vec<Part>, AllocError>
    requires tails { HasUtf8Tails (nodes_of nodes.now) }
    requires all { list_all is_part (elements_of (nodes_of nodes.now)) ≡ true }
    ensures parts { IfOk result (λ parts. map part_view parts.items ≡ places_from 0 (nodes_of nodes.now)) }
{
    let mut parts = Vec::new(alloc);
    for place in 0..nodes.len() {
        match &nodes[place] {
            Node::Elem(elem) => {
                let name = name_of(alloc, elem)?;
                parts.push(Part { place, name })?;
            }
            Node::Plain(_) => {}
            Node::Bytes(_) => {}
        }
    }
    Ok(parts)
}
