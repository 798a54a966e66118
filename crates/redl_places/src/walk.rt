//! The walk that finds the members of revisions, and where they are.

ghost use Rattle.std.specs.Prelude.{◌≡◌, ◌++◌, OnOk};
ghost use Rattle.redl_tree.specs.Model.View.{nodes_of, item_of, tag_of, kids_of};
ghost use Rattle.redl_places.specs.Places.{is_member, member_places, own_place, place_in};
ghost use Rattle.redl_places.specs.Items.{element_places, item_places};
ghost use Rattle.redl_places.specs.Views.{signs_of};

use crate::place::{MemberPlace, StoryPlace};
use crate::sign::NoteSigns;
use redl_order::value_in;
use redl_tree::{Elem, Kind, Node, Word, is_word};
use std::alloc::AllocError;

/// Adds the members among nodes at this place, each with its own. `Err` means out of memory, here and below.
#[cycle(walk)]
pub(crate) fn add_nodes(
    nodes: &[Node],
    signs: &NoteSigns,
    here: StoryPlace,
    members: &mut Vec<MemberPlace>,
) -> Result<(), AllocError>
    ensures { OnOk result (members.new.items ≡ members.old.items ++ member_places (signs_of signs.now) here (nodes_of nodes.now)) }
{
    for node in nodes {
        add_node(node, signs, here, members)?;
    }
    Ok(())
}

#[cycle(walk)]
fn add_node(
    node: &Node,
    signs: &NoteSigns,
    here: StoryPlace,
    members: &mut Vec<MemberPlace>,
) -> Result<(), AllocError>
    ensures { OnOk result (members.new.items ≡ members.old.items ++ item_places (signs_of signs.now) here (item_of node.now)) }
{
    match node {
        Node::Elem(elem) => add_elem(elem, signs, here, members),
        Node::Plain(_) | Node::Bytes(_) => Ok(()),
    }
}

#[cycle(walk)]
fn add_elem(
    elem: &Elem,
    signs: &NoteSigns,
    here: StoryPlace,
    members: &mut Vec<MemberPlace>,
) -> Result<(), AllocError>
    ensures { OnOk result (members.new.items ≡ members.old.items ++ element_places (signs_of signs.now) here (tag_of elem.now) (kids_of elem.now)) }
{
    add_own(elem, here, members)?;
    add_nodes(elem.kids(), signs, place_in(elem, signs, here), members)
}

// Adds an element that is a member.
fn add_own(elem: &Elem, here: StoryPlace, members: &mut Vec<MemberPlace>) -> Result<(), AllocError>
    ensures { OnOk result (members.new.items ≡ members.old.items ++ own_place here (tag_of elem.now)) }
{
    if is_member(elem.kind()) {
        members.push(MemberPlace {
            revision: elem.rev(),
            place: here,
        })?;
    }
    Ok(())
}

fn is_member(kind: Kind) -> bool
    ensures { result ≡ is_member kind }
{
    !matches!(kind, Kind::Plain | Kind::Marker)
}

/// The place of an element's kids, from its own.
pub(crate) fn place_in(elem: &Elem, signs: &NoteSigns, here: StoryPlace) -> StoryPlace
    ensures { result ≡ place_in (signs_of signs.now) here (tag_of elem.now) }
{
    if is_word(elem, Word::TxbxContent) {
        return StoryPlace::TextBox;
    }
    if is_word(elem, Word::Hdr) {
        return StoryPlace::Header;
    }
    if is_word(elem, Word::Ftr) {
        return StoryPlace::Footer;
    }
    if is_word(elem, Word::Comment) {
        return StoryPlace::Comment;
    }
    if is_word(elem, Word::Footnote) {
        return StoryPlace::Footnote(signs.footnote(value_in(elem.tail(), b"id")));
    }
    if is_word(elem, Word::Endnote) {
        return StoryPlace::Endnote(signs.endnote(value_in(elem.tail(), b"id")));
    }
    here
}
