//! What the documents of several modules are made of. In a document that is read, from the fifth level on and so in each body,
//! neighbouring elements in which no walk finds anything are one node, which is their text.

use redl_index::Index;
use redl_opc::Package;
use redl_outline::{document_package, outline_text};
use redl_tree::{Node, Say};
use std::alloc::{AllocError, Global};
use std::test::Fail;

/// The text of a package whose document has this body, which is an outline with words of its own.
pub(crate) fn package_text(
    alloc: Global,
    body: &str,
    own: &[(&str, &str)],
) -> Result<String, AllocError> {
    document_package(alloc, "/a", outline_text(alloc, body, own)?.as_str())
}

/// The package with this text.
pub(crate) fn read_package<'t>(alloc: Global, text: &'t [u8]) -> Result<Package<'t>, Fail> {
    Ok(Package::make(alloc, redl_xml::read(alloc, text)?)?)
}

/// Sets the labels of a package, and gives the same say for each of its revisions.
pub(crate) fn says_for(
    alloc: Global,
    package: &mut Package,
    say: Say,
) -> Result<Vec<Say>, AllocError> {
    let index = Index::build(alloc, package)?;
    let mut says = Vec::new(alloc);
    for _ in 0..index.count() {
        says.push(say)?;
    }
    Ok(says)
}

// The package, a part, its data, the document and its body.
const BODY_LEVEL: u32 = 5;

/// The nodes in the body of the document in a package.
pub(crate) fn body_nodes<'a>(alloc: Global, package: Vec<Node<'a>>) -> Vec<Node<'a>> {
    let mut nodes = package;
    for _ in 0..BODY_LEVEL {
        nodes = first_kids(alloc, nodes);
    }
    nodes
}

// The kids of the first element among these.
fn first_kids<'a>(alloc: Global, nodes: Vec<Node<'a>>) -> Vec<Node<'a>> {
    for node in nodes {
        if let Node::Elem(elem) = node {
            return elem.into_kids(alloc);
        }
    }
    Vec::new(alloc)
}
