//! The members in properties.

ghost use Rattle.std.specs.Prelude.{◌≡◌, ◌++◌, IfOk, OnOk};
ghost use Rattle.redl_tree.specs.Model.View.{item_of, kids_of, nodes_of, tag_of};
ghost use Rattle.redl_spans.specs.Members.{members, own_member, property_members};
ghost use Rattle.redl_spans.specs.Inside.Items.{item_members, item_property_members};

use crate::member::Member;
use redl_tree::{Elem, Kind, Node, is_quiet};
use std::alloc::{AllocError, Global};

/// The members in the properties of an element with these kids. `Err` means out of memory, here and below.
#[inline(never)]
pub(crate) fn property_members(alloc: Global, kids: &[Node]) -> Result<Vec<Member>, AllocError>
    ensures { IfOk result (λ found. found.items ≡ property_members (nodes_of kids.now)) }
{
    let mut found = Vec::new(alloc);
    for node in kids {
        add_properties(node, &mut found)?;
    }
    Ok(found)
}

fn add_properties(node: &Node, found: &mut Vec<Member>) -> Result<(), AllocError>
    ensures { OnOk result (found.new.items ≡ found.old.items ++ item_property_members (item_of node.now)) }
{
    match node {
        Node::Elem(elem) if is_quiet(elem) => add_members(elem.kids(), found),
        Node::Elem(_) | Node::Plain(_) | Node::Bytes(_) => Ok(()),
    }
}

// Adds the members among nodes.
#[cycle(members)]
fn add_members(nodes: &[Node], found: &mut Vec<Member>) -> Result<(), AllocError>
    ensures { OnOk result (found.new.items ≡ found.old.items ++ members (nodes_of nodes.now)) }
{
    for node in nodes {
        add_node(node, found)?;
    }
    Ok(())
}

#[cycle(members)]
fn add_node(node: &Node, found: &mut Vec<Member>) -> Result<(), AllocError>
    ensures { OnOk result (found.new.items ≡ found.old.items ++ item_members (item_of node.now)) }
{
    match node {
        Node::Elem(elem) => add_elem(elem, found),
        Node::Plain(_) | Node::Bytes(_) => Ok(()),
    }
}

#[cycle(members)]
fn add_elem(elem: &Elem, found: &mut Vec<Member>) -> Result<(), AllocError>
    ensures { OnOk result (found.new.items ≡ found.old.items ++ (own_member (tag_of elem.now) ++ members (kids_of elem.now))) }
{
    add_own(elem, found)?;
    add_members(elem.kids(), found)
}

fn add_own(elem: &Elem, found: &mut Vec<Member>) -> Result<(), AllocError>
    ensures { OnOk result (found.new.items ≡ found.old.items ++ own_member (tag_of elem.now)) }
{
    match elem.kind() {
        Kind::Plain => Ok(()),
        kind => {
            found.push(Member {
                kind,
                revision: elem.rev(),
            })?;
            Ok(())
        }
    }
}
