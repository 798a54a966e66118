//! The first element that is so.

ghost use Rattle.std.specs.Prelude.{◌≡◌};
ghost use Rattle.redl_reading.specs.Steps.{Gives};
ghost use Rattle.redl_tree.specs.Model.View.{nodes_of, tag_of};
ghost use Rattle.redl_opc.specs.Elements.{element_of};
ghost use Rattle.redl_relations.specs.Relations.{has_local, leads_inside, is_lead, has_type, has_id, first_with};
ghost use Rattle.redl_relations.specs.Inside.Sought.{is_sought};

use crate::values::value_in;
use redl_tree::{Elem, Node, Space, is_named_pkg};

/// What is sought among elements.
#[derive(Clone, Copy)]
pub(crate) enum Sought<'q> {
    /// The data of a part, if it is XML.
    Data,
    /// The root of a part that has relationships.
    Relations,
    /// A relationship in the package whose type has this ending.
    OfType(&'q [u8]),
    /// One with this id.
    WithId(&'q [u8]),
}

/// The first of these elements that is sought.
pub(crate) fn first<'n, 'a>(nodes: &'n [Node<'a>], sought: Sought<'_>) -> Option<&'n Elem<'a>>
    ensures { Gives (λ elem. element_of elem.now) result (first_with (is_sought sought.entry) (nodes_of nodes.now)) }
{
    for node in nodes {
        match node {
            Node::Elem(elem) => {
                if is_sought(sought, elem) {
                    return Some(elem);
                }
            }
            Node::Plain(_) => {}
            Node::Bytes(_) => {}
        }
    }
    None
}

fn is_sought(sought: Sought<'_>, elem: &Elem) -> bool
    ensures { result ≡ is_sought sought.entry (tag_of elem.now) }
{
    match sought {
        Sought::Data => is_named_pkg(elem, b"xmlData"),
        Sought::Relations => has_local(elem, b"Relationships"),
        Sought::OfType(ending) => has_type(elem, ending),
        Sought::WithId(id) => has_id(elem, id),
    }
}

// Whether an element of no namespace that is known here has this local name.
fn has_local(elem: &Elem, name: &[u8]) -> bool
    ensures { result ≡ has_local name.now (tag_of elem.now) }
{
    elem.space() == Space::Other && elem.local() == name
}

/// Whether an element is a relationship in the package.
pub(crate) fn is_lead(elem: &Elem) -> bool
    ensures { result ≡ is_lead (tag_of elem.now) }
{
    has_local(elem, b"Relationship") && leads_inside(elem)
}

fn leads_inside(elem: &Elem) -> bool
    ensures { result ≡ leads_inside (tag_of elem.now) }
{
    value_in(elem.tail(), b"TargetMode") != b"External".as_slice()
}

fn has_type(elem: &Elem, ending: &[u8]) -> bool
    ensures { result ≡ has_type ending.now (tag_of elem.now) }
{
    is_lead(elem) && value_in(elem.tail(), b"Type").ends_with(ending)
}

fn has_id(elem: &Elem, id: &[u8]) -> bool
    ensures { result ≡ has_id id.now (tag_of elem.now) }
{
    is_lead(elem) && value_in(elem.tail(), b"Id") == id
}
