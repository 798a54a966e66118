//! What no clause of `redl_paras` says: that calls succeed with ample memory, and that the text is the one that a document
//! has.
//!
//! Chains and wanted texts are outlines. A paragraph and its properties have a number, and `cut` says that the paragraph is
//! cut. Each chain is also read as the body of a document. The wanted texts follow from ECMA-376 Part 1, 17.13.5 and
//! 17.3.1.26: a paragraph whose mark goes is joined with the next one, of which the properties stay.
use crate::documents::{body_nodes, package_text};
use redl_outline::{Outline, nodes_text, outline_text};
use redl_paras::{ChainPiece, Next, group};
use redl_tree::{Elem, Node, is_named};
use std::alloc::{AllocError, Global};
use std::test::Fail;

const OWN: &[(&str, &str)] = &[
    ("1", " w:id='1'"),
    ("2", " w:id='2'"),
    ("3", " w:id='3'"),
    ("cut", " w:cut='yes'"),
];

fn is_cut(elem: &Elem) -> bool {
    elem.tail().ends_with(b" w:cut='yes'")
}

// The piece with this node.
fn piece(node: Node<'_>) -> ChainPiece<'_> {
    match node {
        Node::Elem(elem) => {
            if is_named(&elem, b"p") {
                let cut = is_cut(&elem);
                return ChainPiece::Para { elem, cut };
            }
            ChainPiece::Thin(Node::Elem(elem))
        }
        Node::Bytes(text) => ChainPiece::Thin(Node::Bytes(text)),
        Node::Plain(plain) => ChainPiece::Thin(Node::Plain(plain)),
    }
}

fn chain<'a>(alloc: Global, nodes: Vec<Node<'a>>) -> Result<Vec<ChainPiece<'a>>, AllocError> {
    let mut chain = Vec::new(alloc);
    for node in nodes {
        chain.push(piece(node))?;
    }
    Ok(chain)
}

// What these nodes give together, as text.
fn grouped(alloc: Global, nodes: Vec<Node<'_>>, next: Next) -> Result<String, AllocError> {
    let nodes = group(alloc, chain(alloc, nodes)?, next)?;
    nodes_text(alloc, &nodes)
}

// The same of the nodes of this outline.
fn grouped_words(alloc: Global, words: &str, next: Next) -> Result<String, AllocError> {
    let outline = Outline::read(alloc, words, OWN)?;
    grouped(alloc, outline.nodes(alloc)?, next)
}

// The same of the nodes that are read of its text.
fn grouped_text(alloc: Global, words: &str, next: Next) -> Result<String, Fail> {
    let text = package_text(alloc, words, OWN)?;
    let nodes = redl_xml::read(alloc, text.as_bytes())?;
    Ok(grouped(alloc, body_nodes(alloc, nodes), next)?)
}

// Chains whose last paragraph stays, what follows each, and what it gives.
const JOINED: &[(&str, Next, &str)] = &[
    ("", Next::Other, ""),
    ("p/1", Next::End, "p/1"),
    ("p/1 .pPr/1 .a", Next::Other, "p/1 .pPr/1 .a"),
    // the last properties, and what is between
    (
        "p/1/cut .pPr/1 .a k p/2 .pPr/2 .b",
        Next::End,
        "p/2 .pPr/2 .a .k .b",
    ),
    ("p/1/cut .a p/2 .b .pPr/2", Next::End, "p/2 .pPr/2 .a .b"),
    (
        "p/1/cut .pPr/1 .a .(x) p/2/cut .pPr/2 .b p/3 .pPr/3 .c",
        Next::End,
        "p/3 .pPr/3 .a .(x) .b .c",
    ),
    // properties between go, and what was closed by `/>` gets an end tag
    ("p/1/cut pPr/1 p/2", Next::End, "p/2 .()"),
    (
        "p/1 .a k p/2/cut .b p/3 .c m",
        Next::End,
        "p/1 .a k p/3 .b .c m",
    ),
    // neighbours in paragraphs and between them
    (
        "p/1/cut .pPr/1 .a .(x) .b k .d (y) m p/2 .c .(z) .d k",
        Next::End,
        "p/2 .a .(x) .b .k ..d .(y) .m .c .(z) .d k",
    ),
];

// The same where the last paragraph is cut, at the end of a cell and before something else, as a table.
const LAST: &[(&str, Next, &str)] = &[
    ("p/1/cut .pPr/1 .(x)", Next::End, "p/1/cut .pPr/1 .(x)"),
    ("p/1/cut .pPr/1 .(x) k", Next::Other, "(x) k"),
    ("p/1/cut .pPr/1 .a k", Next::Other, "p/1/cut .pPr/1 .a k"),
    ("p/1 p/2/cut", Next::Other, "p/1"),
    // several of them
    (
        "p/1/cut .pPr/1 .(x) p/2/cut .pPr/2 .(y)",
        Next::Other,
        "(x) (y)",
    ),
    (
        "p/1/cut .pPr/1 .(x) k p/2/cut .pPr/2 .(y)",
        Next::Other,
        "p/2/cut .pPr/2 .(x) .k .(y)",
    ),
    (
        "p/1/cut .pPr/1 .(x) p/2/cut .pPr/2 .(y)",
        Next::End,
        "p/2/cut .pPr/2 .(x) .(y)",
    ),
    // neighbours in it, and after it
    ("p/1/cut .pPr/1 .(x) k (y) m", Next::Other, "(x) k (y) m"),
    (
        "p/1/cut .pPr/1 .(x) .a .b k m",
        Next::Other,
        "p/1/cut .pPr/1 .(x) .a .b k m",
    ),
];

// Whether a chain gives this, by its outline and as it is read.
fn gives(alloc: Global, words: &str, next: Next, want: &str) -> Result<(bool, bool), Fail> {
    let want = outline_text(alloc, want, OWN)?;
    let by_words = grouped_words(alloc, words, next)? == want;
    let by_text = grouped_text(alloc, words, next)? == want;
    Ok((by_words, by_text))
}

#[test]
fn a_cut_paragraph_is_joined_with_the_next_one(rt: HostRuntime) -> Result<(), Fail> {
    for (words, next, want) in JOINED {
        let got = gives(rt.alloc(), words, *next, want)?;
        assert!(rt; got == (true, true), "{words} before {next:?}: {got:?}");
    }
    Ok(())
}

#[test]
fn a_cut_last_paragraph_goes_where_it_holds_no_element(rt: HostRuntime) -> Result<(), Fail> {
    for (words, next, want) in LAST {
        let got = gives(rt.alloc(), words, *next, want)?;
        assert!(rt; got == (true, true), "{words} before {next:?}: {got:?}");
    }
    Ok(())
}
