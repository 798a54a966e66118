//! Outlines with their texts, among them those of the head of `redl_outline`, and the labels of their nodes.

use redl_outline::{Outline, outline_text};
use redl_tree::{Elem, Kind, Node, Trace};
use std::alloc::{AllocError, Global};
use std::test::Fail;

const OWN: &[(&str, &str)] = &[
    ("fs", "moveFromRangeStart"),
    ("1", " w:id='1'"),
    ("and", "a &amp; b"),
];

#[test]
fn outlines_have_their_texts(rt: HostRuntime) -> Result<(), Fail> {
    for (words, want) in [
        ("", ""),
        (
            "p .pPr ..rPr ...del .r ..t ...(gone)",
            "<w:p><w:pPr><w:rPr><w:del/></w:rPr></w:pPr><w:r><w:t>gone</w:t></w:r></w:p>",
        ),
        ("o-ins p", "<o:ins/><w:p/>"),
        (
            "ins/id=1/xml-space=preserve",
            "<w:ins w:id='1' xml:space='preserve'/>",
        ),
        ("p .()", "<w:p></w:p>"),
        (
            "ins .fs/1 .r ..t ...(and)",
            "<w:ins><w:moveFromRangeStart w:id='1'/><w:r><w:t>a &amp; b</w:t></w:r></w:ins>",
        ),
    ] {
        let got = outline_text(rt.alloc(), words, OWN)?;
        assert!(rt; got.as_str() == want, "{words}: {got}");
    }
    Ok(())
}

// The last element on the way down from the last of these nodes, at most nine deep.
fn deepest<'n, 'a>(nodes: &'n [Node<'a>]) -> Option<&'n Elem<'a>> {
    let mut deepest = None;
    let mut nodes = nodes;
    for _ in 0..9 {
        if let Some(Node::Elem(elem)) = nodes.last() {
            deepest = Some(elem);
            nodes = elem.kids();
        }
    }
    deepest
}

fn label_of(alloc: Global, words: &str) -> Result<Option<(Kind, u32)>, AllocError> {
    let outline = Outline::read(alloc, words, &[])?;
    let nodes = outline.nodes(alloc)?;
    Ok(deepest(&nodes).map(|elem| (elem.kind(), elem.rev())))
}

#[test]
fn elements_of_outlines_are_labelled(rt: HostRuntime) -> Result<(), Fail> {
    for (words, want) in [
        ("p .ins", (Kind::Content(Trace::Ins), 1)),
        ("p .r .pPr ..rPr ...del", (Kind::Mark(Trace::Del), 1)),
        ("tr .tc .trPr ..ins", (Kind::Row(Trace::Ins), 1)),
        ("p .pPr ..del", (Kind::Plain, 0)),
        ("p .o-ins", (Kind::Plain, 0)),
    ] {
        let got = label_of(rt.alloc(), words)?;
        assert!(rt; got == Some(want), "{words}: {got:?}");
    }
    Ok(())
}
