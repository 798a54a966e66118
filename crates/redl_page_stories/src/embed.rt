//! The relationship that leads to a picture.

ghost use Rattle.std.specs.Prelude.{◌≡◌};
ghost use Rattle.redl_reading.specs.Steps.{Gives};
ghost use Rattle.redl_tree.specs.Model.View.{nodes_of, item_of, tag_of, kids_of};
ghost use Rattle.std.specs.Option.{option_or};
ghost use Rattle.redl_page_stories.specs.Values.{embed_by, embed_in};
ghost use Rattle.redl_page_stories.specs.Inside.Items.{item_embed};

use crate::values::written_value;
use redl_tree::{Elem, Node, Space};

/// The first relationship to a picture that is given among nodes, at every depth, as its id is written. It takes no memory.
#[cycle(embed)]
pub(crate) fn embed_in<'a>(nodes: &'a [Node]) -> Option<&'a [u8]>
    ensures { Gives (λ id. id.now) result (embed_in (nodes_of nodes.now)) }
{
    for node in nodes {
        if let Some(id) = node_embed(node) {
            return Some(id);
        }
    }
    None
}

#[cycle(embed)]
fn node_embed<'a>(node: &'a Node) -> Option<&'a [u8]>
    ensures { Gives (λ id. id.now) result (item_embed (item_of node.now)) }
{
    match node {
        Node::Elem(elem) => elem_embed(elem),
        Node::Bytes(_) => None,
        Node::Plain(_) => None,
    }
}

#[cycle(embed)]
fn elem_embed<'a>(elem: &'a Elem) -> Option<&'a [u8]>
    ensures { Gives (λ id. id.now) result (option_or (embed_by (tag_of elem.now)) (embed_in (kids_of elem.now))) }
{
    if let Some(id) = own_embed(elem) {
        return Some(id);
    }
    embed_in(elem.kids())
}

// The one that an element gives itself.
fn own_embed<'a>(elem: &'a Elem) -> Option<&'a [u8]>
    ensures { Gives (λ id. id.now) result (embed_by (tag_of elem.now)) }
{
    if elem.space() == Space::Other && elem.local() == b"blip".as_slice() {
        return written_value(elem.tail(), b"embed");
    }
    if elem.space() == Space::Other && elem.local() == b"imagedata".as_slice() {
        return written_value(elem.tail(), b"id");
    }
    None
}
