//! The shape of a package and of its parts.

ghost use Rattle.std.specs.Prelude.{◌≡◌};
ghost use Rattle.std.specs.List.{list_all, list_any};
ghost use Rattle.redl_reading.specs.Steps.{Gives};
ghost use Rattle.redl_tree.specs.Model.View.{nodes_of, kids_of};
ghost use Rattle.redl_opc.specs.Elements.{element_of, elements_of, only_element};
ghost use Rattle.redl_opc.specs.Shape.{is_data, is_data_alone, is_part, story_of, is_document, package_of};

use crate::elements::{has_one, only_element};
use redl_stamp::has_attribute;
use redl_tree::{Elem, Node, Word, is_named_pkg, is_story_root, is_word};

fn is_data(elem: &Elem) -> bool
    ensures { result ≡ is_data (element_of elem.now) }
{
    is_named_pkg(elem, b"binaryData") || is_named_pkg(elem, b"xmlData") && has_one(elem.kids())
}

// Whether the only element in an element is data.
fn holds_data(elem: &Elem) -> bool
    ensures { result ≡ is_data_alone (only_element (kids_of elem.now)) }
{
    match only_element(elem.kids()) {
        Some(data) => is_data(data),
        None => false,
    }
}

// Whether an element is a part, with a name, a content type and one element of data.
fn is_part(elem: &Elem) -> bool
    ensures { result ≡ is_part (element_of elem.now) }
{
    let tail = elem.tail();
    is_named_pkg(elem, b"part")
        && has_attribute(tail, b"name")
        && has_attribute(tail, b"contentType")
        && holds_data(elem)
}

/// The root of a part's data, where that is one element and the root of a story: `None` says that the part is no story.
pub fn story_of<'n, 'a>(part: &'n Elem<'a>) -> Option<&'n Elem<'a>>
    ensures { Gives (λ root. element_of root.now) result (story_of (element_of part.now)) }
{
    let data = only_element(part.kids())?;
    if !is_named_pkg(data, b"xmlData") {
        return None;
    }
    let root = only_element(data.kids())?;
    if is_story_root(root) {
        Some(root)
    } else {
        None
    }
}

fn is_document(part: &Elem) -> bool
    ensures { result ≡ is_document (element_of part.now) }
{
    match story_of(part) {
        Some(root) => is_word(root, Word::Document),
        None => false,
    }
}

/// The root of these nodes, where they have one element alone and that is a `package` of Flat OPC.
pub fn package_of<'n, 'a>(nodes: &'n [Node<'a>]) -> Option<&'n Elem<'a>>
    ensures { Gives (λ root. element_of root.now) result (package_of (nodes_of nodes.now)) }
{
    let root = only_element(nodes)?;
    if is_named_pkg(root, b"package") {
        Some(root)
    } else {
        None
    }
}

/// Whether all elements of nodes are well-shaped parts.
pub(crate) fn are_parts(nodes: &[Node]) -> bool
    ensures { result ≡ list_all is_part (elements_of (nodes_of nodes.now)) }
{
    for node in nodes {
        match node {
            Node::Elem(part) => {
                if !is_part(part) {
                    return false;
                }
            }
            Node::Plain(_) => return false,
            Node::Bytes(_) => {}
        }
    }
    true
}

/// Whether some element of nodes is a part with the root `document`.
pub(crate) fn have_document(nodes: &[Node]) -> bool
    ensures { result ≡ list_any is_document (elements_of (nodes_of nodes.now)) }
{
    for node in nodes {
        match node {
            Node::Elem(part) => {
                if is_document(part) {
                    return true;
                }
            }
            Node::Plain(_) => {}
            Node::Bytes(_) => {}
        }
    }
    false
}
