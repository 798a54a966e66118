//! The parts of a package by their names, and what they hold.

ghost use Rattle.std.specs.Prelude.{◌≡◌, slice_get, true};
ghost use Rattle.std.specs.List.{list_all};
ghost use Rattle.redl_reading.specs.Steps.{Gives};
ghost use Rattle.redl_tree.specs.Model.View.{nodes_of};
ghost use Rattle.redl_opc.specs.Elements.{element_of, elements_of};
ghost use Rattle.redl_opc.specs.Shape.{is_document, is_part, parts_of};
ghost use Rattle.redl_relations.specs.Relations.{has_part_name, part_named, document_part, xml_data};
ghost use Rattle.redl_relations.specs.Inside.Parts.{is_at};

use crate::sought::{Sought, first};
use redl_opc::{Package, package_of};
use redl_tree::{Elem, Node, Word, is_word};

/// The first part with this name. `None` exactly if no part has it.
pub fn part_named(pkg: &Package, name: &[u8]) -> Option<u32>
    ensures { result ≡ part_named pkg.now name.now }
{
    for part in 0..pkg.parts() {
        if has_name(pkg, part, name) {
            return Some(part);
        }
    }
    None
}

fn has_name(pkg: &Package, part: u32, name: &[u8]) -> bool
    ensures { result ≡ is_at (has_part_name name.now) pkg.now part }
{
    match pkg.part_name(part) {
        Some(own) => own == name,
        None => false,
    }
}

/// The first part that is a document. Each package has one.
pub fn document_part(pkg: &Package) -> Option<u32>
    ensures { result ≡ document_part pkg.now }
{
    for part in 0..pkg.parts() {
        if is_document(pkg, part) {
            return Some(part);
        }
    }
    None
}

fn is_document(pkg: &Package, part: u32) -> bool
    ensures { result ≡ is_at is_document pkg.now part }
{
    match pkg.story(part) {
        Some(root) => is_word(root, Word::Document),
        None => false,
    }
}

/// The element that holds what is in a part, if that is XML. `None` exactly if no part has this number, or its data is not XML.
pub fn xml_data<'n, 'a>(pkg: &'n Package<'a>, part: u32) -> Option<&'n Elem<'a>>
    ensures { Gives (λ elem. element_of elem.now) result (xml_data pkg.now part) }
{
    let elem = part_at(pkg, part)?;
    first(elem.kids(), Sought::Data)
}

fn part_at<'n, 'a>(pkg: &'n Package<'a>, part: u32) -> Option<&'n Elem<'a>>
    ensures { Gives (λ elem. element_of elem.now) result (slice_get (parts_of pkg.now) part) }
{
    let root = package_of(pkg.nodes())?;
    element_at(root.kids(), part)
}

// The element with this number, from 0, among nodes that have no elements but parts.
fn element_at<'n, 'a>(nodes: &'n [Node<'a>], number: u32) -> Option<&'n Elem<'a>>
    requires { list_all is_part (elements_of (nodes_of nodes.now)) ≡ true }
    ensures { Gives (λ elem. element_of elem.now) result (slice_get (elements_of (nodes_of nodes.now)) number) }
{
    let mut left = number;
    for node in nodes {
        match node {
            Node::Elem(elem) => {
                if left == 0 {
                    return Some(elem);
                }
                left -= 1;
            }
            Node::Plain(_) => return None,
            Node::Bytes(_) => {}
        }
    }
    None
}
