//! Tables of what the reader keeps as text, where memory is ample: from the fifth level on, neighbouring elements of
//! WordprocessingML that declare nothing and for whose names no definition asks, if all elements in them are such ones too.
//! Documents and their texts are outlines.

use redl_outline::{document_package, outline_text};
use redl_tree::Node;
use redl_xml::{XmlError, read};
use std::alloc::{AllocError, Global};
use std::str::from_utf8;
use std::test::Fail;

// Attributes and bytes of outlines.
const OWN: &[(&str, &str)] = &[
    (
        "W",
        " xmlns:w='http://schemas.openxmlformats.org/wordprocessingml/2006/main'",
    ),
    (
        "V",
        " xmlns:v='http://schemas.openxmlformats.org/wordprocessingml/2006/main'",
    ),
    ("spaced", "\n w:a = \"'/>&#10;\" "),
    ("blanks", "\n  "),
    ("comment", "<!-- <w:p> -->"),
    ("target", "<?w:p?>"),
    ("section", "<![CDATA[<w:p>]]>"),
];

// Adds the texts that these nodes hold, in their order, each with a bar after it.
#[cycle(texts)]
fn add_texts(nodes: &[Node], texts: &mut String) -> Result<(), AllocError> {
    for node in nodes {
        add_texts_of(node, texts)?;
    }
    Ok(())
}

#[cycle(texts)]
fn add_texts_of(node: &Node, texts: &mut String) -> Result<(), AllocError> {
    match node {
        Node::Elem(elem) => add_texts(elem.kids(), texts),
        Node::Plain(plain) => add_text(from_utf8(plain.text()).unwrap_or(""), texts),
        Node::Bytes(_) => Ok(()),
    }
}

fn add_text(text: &str, texts: &mut String) -> Result<(), AllocError> {
    texts.push_str(text)?;
    texts.push('|')
}

// The texts that are kept where this one is read.
fn kept(alloc: Global, text: &str) -> Result<String, Fail> {
    let nodes = read(alloc, text.as_bytes())?;
    let mut texts = String::new(alloc);
    add_texts(&nodes, &mut texts)?;
    Ok(texts)
}

// The texts of these outlines, in the same form.
fn wanted(alloc: Global, outlines: &[&str]) -> Result<String, AllocError> {
    let mut texts = String::new(alloc);
    for words in outlines {
        add_text(outline_text(alloc, words, OWN)?.as_str(), &mut texts)?;
    }
    Ok(texts)
}

// Whole texts, and what is kept of each.
const LEVELS: [(&str, &[&str]); 4] = [
    ("a/W .b ..c ...d ...d", &[]),
    ("a/W .b ..c ...d ....e .....f ...d", &["e .f"]),
    ("a/W .b ..c ...p ....e .....f ......g ...d", &["e .f ..g"]),
    ("a/W .b ..c ...d ....p .....e ......f .....e", &["e .f e"]),
];

#[test]
fn the_upper_levels_are_elements(rt: HostRuntime) -> Result<(), Fail> {
    for (words, want) in LEVELS {
        let text = outline_text(rt.alloc(), words, OWN)?;
        let got = kept(rt.alloc(), text.as_str())?;
        let want = wanted(rt.alloc(), want)?;
        assert!(rt; got == want, "{words}: {got}");
    }
    Ok(())
}

// The texts that are kept of a package whose document has this body.
fn kept_of(alloc: Global, words: &str) -> Result<String, Fail> {
    let body = outline_text(alloc, words, OWN)?;
    let text = document_package(alloc, "/a", body.as_str())?;
    kept(alloc, text.as_str())
}

// Bodies, and what is kept of each.
const BODIES: &[(&str, &[&str])] = &[
    (
        "p .r ..t/xml-space=preserve ...(a)",
        &["r .t/xml-space=preserve ..(a)"],
    ),
    ("p .r/spaced .r/o-id=1 ..()", &["r/spaced r/o-id=1 .()"]),
    // neighbours are one text
    (
        "bookmarkStart bookmarkEnd p",
        &["bookmarkStart bookmarkEnd"],
    ),
    ("p .r .hyperlink ..r ...tab .r", &["r hyperlink .r ..tab r"]),
    ("p .r p .r", &["r", "r"]),
    // bytes between them and after them are in it, bytes before them are not
    ("p .(a) .r .(b) .r .(c)", &["r (b) r (c)"]),
    (
        "p .r .(blanks) .r .(comment) .r",
        &["r (blanks) r (comment) r"],
    ),
    ("p .r .(target) .(section) .r", &["r (target) (section) r"]),
    ("(blanks) p .(a) (comment) p .(comment)", &[]),
    // elements of another namespace
    ("p .r .o-r .r .m-r", &["r", "r"]),
    ("p .r ..o-a ..tab", &["tab"]),
    ("p .o-a ..r ...tab", &["r .tab"]),
    // a prefix says nothing, and what declares one is an element
    ("p .ind/V ..v-r ...v-tab ..r", &["v-r .v-tab r"]),
    ("p .r .r/W ..tab .r", &["r", "tab", "r"]),
    ("p .r/xmlns-o=urn:z ..tab", &["tab"]),
    ("p .ind/xmlns-w=urn:w ..r", &[]),
    // names that are asked for
    ("p .r ..delText ...(a)", &[]),
    (
        "p .pPr ..jc ..sectPr ...headerReference ...pgSz",
        &["jc", "pgSz"],
    ),
    ("p .r ..pict ...txbxContent ....p .....r", &["r"]),
    (
        "tbl .tblGrid ..gridCol .tr ..tc ...tcPr ....tcW ...p",
        &["gridCol", "tcW"],
    ),
    ("sdt .sdtPr ..alias .sdtContent ..r", &["alias", "r"]),
    // revisions
    ("p .r .ins ..r ...tab .r", &["r", "r .tab", "r"]),
    (
        "p .r ..rPr ...rPrChange ....rPr .....i ..tab",
        &["i", "tab"],
    ),
    ("p .moveFromRangeStart .r .moveFromRangeEnd", &["r"]),
    ("tbl .tr ..trPr ...cantSplit ...del", &["cantSplit"]),
    // properties of a run, and those of something else
    ("p .r ..rPr ...b ..tab", &["r .rPr ..b .tab"]),
    ("p .pPr ..rPr ...b", &["b"]),
    ("p .hyperlink ..rPr ...b", &["b"]),
    ("p .r ..ruby ...rPr ....b", &["b"]),
    ("p .r ..rPr ...rPr", &[]),
    ("p .m-r ..rPr ...b", &["b"]),
];

#[test]
fn neighbours_in_which_nothing_is_asked_for_are_one_text(rt: HostRuntime) -> Result<(), Fail> {
    for (words, want) in BODIES {
        let got = kept_of(rt.alloc(), words)?;
        let want = wanted(rt.alloc(), want)?;
        assert!(rt; got == want, "{words}: {got}");
    }
    Ok(())
}

// What may not stand after a run.
const WRONG: &[&str] = &[
    "<w:r>",
    "</w:r>",
    "<w:r></w:t>",
    "<w:r></w:R>",
    "<w:r></o:r>",
    "<w:r><w:t></w:r></w:t>",
    "<w:r",
    "<w:r a=''b=''/>",
    "<w:r a='<'/>",
    "<w:r w:a='' w:a=''/>",
    "<w:r y:a=''/>",
    "<y:r/>",
    "<w:r>&a;</w:r>",
    "<w:r>]]></w:r>",
    "<w:r><!-- -- --></w:r>",
    "<w:r/><?xml version='1.0'?>",
    "<w:r>\u{1}</w:r>",
];

// Why a package is refused in which this comes after a run.
fn refused_after_a_run(alloc: Global, wrong: &str) -> Result<Option<XmlError>, AllocError> {
    let body = format!(in alloc; "<w:p><w:r/>{wrong}</w:p>")?;
    let text = document_package(alloc, "/a", body.as_str())?;
    Ok(read(alloc, text.as_bytes()).err())
}

#[test]
fn a_text_is_read_as_elements_are(rt: HostRuntime) -> Result<(), Fail> {
    for wrong in WRONG {
        let got = refused_after_a_run(rt.alloc(), wrong)?;
        assert!(rt; got == Some(XmlError::Unreadable), "{wrong}: {got:?}");
    }
    Ok(())
}
