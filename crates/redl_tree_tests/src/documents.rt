//! What the documents of several modules are made of.

use redl_opc::Package;
use redl_tree::Node;
use std::alloc::Global;
use std::test::Fail;

/// Words of outlines with moves: markers, their ids and names, and an author.
pub(crate) const WORDS: &[(&str, &str)] = &[
    ("fs", "moveFromRangeStart"),
    ("fe", "moveFromRangeEnd"),
    ("ts", "moveToRangeStart"),
    ("te", "moveToRangeEnd"),
    ("1", " w:id='1'"),
    ("2", " w:id='2'"),
    ("3", " w:id='3'"),
    ("4", " w:id='4'"),
    ("a", " w:name='a'"),
    ("b", " w:name='b'"),
    ("empty", " w:name=''"),
    ("QA", " w:author='Q &amp; &#x41;'"),
];

/// The package with this text.
pub(crate) fn read_package<'t>(alloc: Global, text: &'t [u8]) -> Result<Package<'t>, Fail> {
    Ok(Package::make(alloc, redl_xml::read(alloc, text)?)?)
}

/// Whether these nodes keep idle elements as text, at any depth.
#[cycle(texts)]
pub(crate) fn keep_text(nodes: &[Node]) -> bool {
    for node in nodes {
        if keeps_text(node) {
            return true;
        }
    }
    false
}

#[cycle(texts)]
fn keeps_text(node: &Node) -> bool {
    match node {
        Node::Elem(elem) => keep_text(elem.kids()),
        Node::Plain(_) => true,
        Node::Bytes(_) => false,
    }
}
