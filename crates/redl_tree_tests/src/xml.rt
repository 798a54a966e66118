//! Tables of what no clause of `redl_xml` says: that its definitions of nesting, scopes and whole texts are those of
//! XML 1.0 and Namespaces in XML 1.0, that names of namespaces are those of the standards, and that reading succeeds with
//! ample memory. Tags, items and references have their tables in `redl_text_tests`.
use redl_tree::{Elem, Node, Space};
use redl_xml::{XmlError, read};
use std::alloc::{AllocError, Global};
use std::test::Fail;

const WORD: &str = "http://schemas.openxmlformats.org/wordprocessingml/2006/main";

const STRICT: &str = "http://purl.oclc.org/ooxml/wordprocessingml/main";

const MATH: &str = "http://schemas.openxmlformats.org/officeDocument/2006/math";

const PACKAGE: &str = "http://schemas.microsoft.com/office/2006/xmlPackage";

// The last element of these nodes.
fn last_element<'n, 'a>(nodes: &'n [Node<'a>]) -> Option<&'n Elem<'a>> {
    let mut last = None;
    for node in nodes {
        if let Node::Elem(elem) = node {
            last = Some(elem);
        }
    }
    last
}

// How many nodes are at the top, and how many in the root.
fn sizes(alloc: Global, text: &str) -> Option<(usize, usize)> {
    let nodes = read(alloc, text.as_bytes()).ok()?;
    let kids = last_element(&nodes).map(|root| root.kids().len());
    Some((nodes.len(), kids?))
}

// Whole texts, with how many nodes are at the top and in the root.
const READABLE: &[(&str, usize, usize)] = &[
    // elements in elements
    ("<a/>", 1, 0),
    ("<a></a\t\r\n >", 1, 0),
    ("<a><b/><b/></a>", 1, 2),
    ("<a>x<b/>y<b></b>z</a>", 1, 5),
    ("<a><b>&#10;</b>\n</a>", 1, 2),
    ("<a><a><a></a></a><a/></a>", 1, 2),
    // a stretch without a tag is one node
    ("<a>x<!--<c/>-->y<?p?>z<![CDATA[<b>]]>&amp;</a>", 1, 1),
    ("<a>x<!--<c/>-->y<b/>&amp;</a>", 1, 3),
    // before and after the root
    ("\u{FEFF}<a/>", 2, 0),
    ("<?xml version='1.0'?><a/>", 2, 0),
    ("\t\r\n <a/> ", 3, 0),
    ("<a/>\n<!--c-->\n<?p q?>\n", 2, 0),
    (
        "\u{FEFF}<?xml version='1.0'?> <!--c--><?p q?><a> </a><!--c--> ",
        3,
        1,
    ),
    // prefixes and their declarations
    ("<p:a xmlns:p='u' p:x='1' x='2'/>", 1, 0),
    ("<p:a p:x='' xmlns:p=\"u\"></p:a>", 1, 0),
    ("<p:a xmlns:p='u'><p:b p:c=''/></p:a>", 1, 1),
    ("<a><p:b xmlns:p='u'/><p:c xmlns:p='v'></p:c></a>", 1, 2),
    ("<p:a xmlns:p='u'><p:b xmlns:p='v'/><p:c/></p:a>", 1, 2),
    ("<a xmlns:p='u' xmlns:q='u' p:x='' q:x=''/>", 1, 0),
    ("<a xmlns='u'><b xmlns=''/></a>", 1, 1),
    ("<a xmlns=''/>", 1, 0),
    ("<xml:a xml:lang='en'/>", 1, 0),
    (
        "<a xmlns:xml='http://www.w3.org/XML/1998/namespace'/>",
        1,
        0,
    ),
    (
        "<a xmlns:xml='http://www.w3.org/XML/1998/&#x6e;amespace'/>",
        1,
        0,
    ),
    ("<a xmlnsp='u'/>", 1, 0),
];

#[test]
fn whole_texts_are_read(rt: HostRuntime) {
    for (text, nodes, kids) in READABLE {
        let got = sizes(rt.alloc(), text);
        assert!(rt; got == Some((*nodes, *kids)), "{text}: {got:?}");
    }
}

// The space of the root, and that of the last element in it.
fn spaces(
    alloc: Global,
    before: &str,
    namespace: &str,
    after: &str,
) -> Result<(Option<Space>, Option<Space>), AllocError> {
    let text = format!(in alloc; "{before}{namespace}{after}")?;
    let Ok(nodes) = read(alloc, text.as_bytes()) else {
        return Ok((None, None));
    };
    let Some(root) = last_element(&nodes) else {
        return Ok((None, None));
    };
    let inner = last_element(root.kids()).map(|elem| elem.space());
    Ok((Some(root.space()), inner))
}

// A namespace with the text before and after it, whether the last element in the root is meant, and its space.
const SPACES: &[(&str, &str, &str, bool, Space)] = &[
    ("<w:p xmlns:w='", WORD, "'/>", false, Space::W),
    ("<p xmlns='", STRICT, "'/>", false, Space::W),
    ("<m:r xmlns:m=\"", MATH, "\"></m:r>", false, Space::M),
    ("<a xmlns='", PACKAGE, "'/>", false, Space::Pkg),
    ("<a xmlns='", "", "'/>", false, Space::Other),
    ("<a x='", WORD, "'/>", false, Space::Other),
    ("<xml:p xmlns='", WORD, "'/>", false, Space::Other),
    ("<p xmlns:w='", WORD, "'/>", false, Space::Other),
    ("<w:p xmlns='", WORD, "' xmlns:w='u'/>", false, Space::Other),
    ("<w:p xmlns:w='", WORD, " '/>", false, Space::Other),
    ("<w:p xmlns:w=' ", WORD, "'/>", false, Space::Other),
    ("<w:p xmlns:w='", WORD, "/'/>", false, Space::Other),
    ("<w:p xmlns:w='\t", WORD, "'/>", false, Space::Other),
    ("<w:p xmlns:w='", WORD, "\r\n'/>", false, Space::Other),
    ("<w:p xmlns:w='", WORD, "&#32;'/>", false, Space::Other),
    (
        "<w:p xmlns:w='",
        "&#x68;ttp://schemas.openxmlformats.org/wordprocessingml/2006/mai&#110;",
        "'/>",
        false,
        Space::W,
    ),
    (
        "<w:p xmlns:w='",
        "http://schemas.openxmlformats.org/wordprocessingml/2006/Main",
        "'/>",
        false,
        Space::Other,
    ),
    ("<w:a xmlns:w='", WORD, "'><w:b/></w:a>", true, Space::W),
    ("<a xmlns='", WORD, "'>x<b></b></a>", true, Space::W),
    (
        "<a xmlns='",
        WORD,
        "'><b xmlns=''/></a>",
        true,
        Space::Other,
    ),
    (
        "<w:a xmlns:w='",
        WORD,
        "'><w:b xmlns:w='u'/></w:a>",
        true,
        Space::Other,
    ),
    (
        "<w:a xmlns:w='u'><w:b xmlns:w='",
        WORD,
        "'/></w:a>",
        true,
        Space::W,
    ),
    (
        "<w:a xmlns:w='u'><w:b xmlns:w='",
        WORD,
        "'/></w:a>",
        false,
        Space::Other,
    ),
    (
        "<w:a xmlns:w='",
        MATH,
        "'><w:b xmlns:w='u'/><w:c/></w:a>",
        true,
        Space::M,
    ),
    (
        "<w:a xmlns:w='",
        MATH,
        "'><b xmlns:w='u'></b><w:c/></w:a>",
        true,
        Space::M,
    ),
    (
        "<a xmlns:w='u'><b xmlns='",
        WORD,
        "'/><c/></a>",
        true,
        Space::Other,
    ),
    (
        "<a xmlns='",
        PACKAGE,
        "'><b xmlns:w='u' xmlns='v'/><c/></a>",
        true,
        Space::Pkg,
    ),
];

#[test]
fn a_space_is_that_of_the_nearest_declaration(rt: HostRuntime) -> Result<(), Fail> {
    for (before, namespace, after, inner, want) in SPACES {
        let (root, kid) = spaces(rt.alloc(), before, namespace, after)?;
        let got = if *inner { kid } else { root };
        assert!(rt; got == Some(*want), "{before}{namespace}{after}: {got:?}");
    }
    Ok(())
}

const WRONG_NESTING: &[&str] = &[
    "<a>",
    "<a></a",
    "</a>",
    "<a></b>",
    "<a></A>",
    "<a><b></a></b>",
    "<a><b></a>",
    "<a><b></b>",
    "<a/></a>",
    "<a></a></a>",
    "</a><a>",
    "<p:a xmlns:p='u'></a>",
    "<a xmlns='u' xmlns:p='u'></p:a>",
    "<p:a xmlns:p='u' xmlns:q='u'></q:a>",
    "<a/><b/>",
    "<a></a><a></a>",
    "<a/>\n<!--c--><a/>",
];

const WRONG_PREFIXES: &[&str] = &[
    "<q:a/>",
    "<q:a></q:a>",
    "<a q:x=''/>",
    "<q:a xmlns:p='u'/>",
    "<q:a xmlns='u'/>",
    "<P:a xmlns:p='u'/>",
    "<XML:a/>",
    "<a><p:b xmlns:p='u'/><p:c/></a>",
    "<a><b xmlns:p='u'></b><c p:x=''/></a>",
    "<a><b xmlns:p='u'><c/></b><p:c/></a>",
    "<p:a><b xmlns:p='u'/></p:a>",
    "<a xmlns:p=\"\"/>",
    "<p:a xmlns:p=''/>",
    "<a xmlns:p='u'><b xmlns:p=''/></a>",
    "<a xmlns:xmlns='u'/>",
    "<a xmlns:xmlns='http://www.w3.org/2000/xmlns/'/>",
    "<xmlns:a/>",
    "<xmlns:a xmlns:xmlns='u'/>",
    "<a xmlns:xml='u'/>",
    "<a xmlns:xml=''/>",
    "<a xmlns:xml='http://www.w3.org/XML/1998/namespace '/>",
];

// Texts without a root, and texts with a piece that is not allowed where it is.
const WRONG_TEXTS: &[&str] = &[
    "",
    " ",
    "\u{FEFF}",
    "<!--c-->",
    "<?xml version='1.0'?>",
    "x<a/>",
    "<a/>x",
    "<a/>\u{FEFF}",
    "<![CDATA[x]]><a/>",
    "<a/><![CDATA[x]]>",
    "<a/><?xml version='1.0'?>",
    "<a><?xml version='1.0'?></a>",
    "<a>\0</a>",
    "<a x='\u{1}'/>",
    "<a><!--\u{1}--></a>",
    "<a/>\0",
];

fn is_unreadable(alloc: Global, text: &[u8]) -> bool {
    read(alloc, text).err() == Some(XmlError::Unreadable)
}

#[test]
fn other_texts_are_unreadable(rt: HostRuntime) {
    for texts in [WRONG_NESTING, WRONG_PREFIXES, WRONG_TEXTS] {
        for text in texts {
            assert!(rt; is_unreadable(rt.alloc(), text.as_bytes()), "{text}");
        }
    }
}

#[test]
fn a_text_cut_short_is_unreadable(rt: HostRuntime) {
    let text =
        "\u{FEFF}<?xml version='1.0' encoding='UTF-8'?>\n<!--c--><p:a\txmlns:p = \"u&amp;v\" p:x='\u{20AC}'><b/>x<?p q?>&#x20AC;<![CDATA[<]]>\u{10000}<b y='' ></b></p:a >";
    let bytes = text.as_bytes();
    for n in 0..=bytes.len() {
        assert!(rt;
            is_unreadable(rt.alloc(), &bytes[..n]) == (n < bytes.len()),
            "{n}"
        );
    }
}

fn push_times(text: &mut Vec<u8>, part: &str, times: u32) -> Result<(), AllocError> {
    for _ in 0..times {
        text.extend_from_slice(part.as_bytes())?;
    }
    Ok(())
}

// The root of the rows on limits, and one in which all is of WordprocessingML, so that neighbours are one text from the
// fifth level on.
const ROOT: &str = "<a>";

const WORD_ROOT: &str = "<a xmlns='http://schemas.openxmlformats.org/wordprocessingml/2006/main'>";

// Why a text is refused with this root among so many start tags, then so many times `inner`, and then so many end tags.
fn refused(
    alloc: Global,
    root: &str,
    starts: u32,
    (inner, times): (&str, u32),
    ends: u32,
) -> Result<Option<XmlError>, AllocError> {
    let mut text = Vec::new(alloc);
    push_times(&mut text, root, 1)?;
    push_times(&mut text, "<a>", starts.saturating_sub(1))?;
    push_times(&mut text, inner, times)?;
    push_times(&mut text, "</a>", ends)?;
    Ok(read(alloc, &text).err())
}

const LIMITS: &[(&str, u32, (&str, u32), u32, Option<XmlError>)] = &[
    (ROOT, 512, ("", 0), 512, None),
    (ROOT, 513, ("", 0), 513, Some(XmlError::Depth)),
    (ROOT, 511, ("<b/>", 2), 511, None),
    (ROOT, 512, ("x", 1), 512, None),
    (ROOT, 512, ("<b/>", 1), 512, Some(XmlError::Depth)),
    (ROOT, 513, ("", 0), 512, Some(XmlError::Unreadable)),
    (ROOT, 1, ("<b/>", 2_097_151), 1, None),
    (ROOT, 1, ("<b/>", 2_097_152), 1, Some(XmlError::Nodes)),
    (ROOT, 1, ("x<b></b>", 1_048_576), 1, Some(XmlError::Nodes)),
    (ROOT, 512, ("<b/>", 2_097_152), 512, Some(XmlError::Depth)),
    (ROOT, 1, ("<b/>", 2_097_152), 0, Some(XmlError::Unreadable)),
    // the elements and bytes of a text count too
    (WORD_ROOT, 512, ("", 0), 512, None),
    (WORD_ROOT, 513, ("", 0), 513, Some(XmlError::Depth)),
    (WORD_ROOT, 512, ("<b/>", 1), 512, Some(XmlError::Depth)),
    (WORD_ROOT, 4, ("<b></b>x", 1_048_574), 4, None),
    (
        WORD_ROOT,
        5,
        ("<b></b>x", 1_048_574),
        5,
        Some(XmlError::Nodes),
    ),
    (
        WORD_ROOT,
        4,
        ("<b/>", 2_097_149),
        3,
        Some(XmlError::Unreadable),
    ),
];

#[test]
fn depth_and_nodes_have_limits(rt: HostRuntime) -> Result<(), Fail> {
    for (root, starts, inner, ends, want) in LIMITS {
        let got = refused(rt.alloc(), root, *starts, *inner, *ends)?;
        assert!(rt; got == *want, "{root} {starts} {inner:?} {ends}: {got:?}");
    }
    Ok(())
}
