//! Tables of packages: whether the shape is the one meant, the order of causes, and that calls succeed with ample memory.

use crate::documents::read_package;
use redl_opc::{OpcError, Package};
use std::alloc::{AllocError, Global};
use std::test::Fail;

const NAMESPACES: &str =
    " xmlns:pkg='http://schemas.microsoft.com/office/2006/xmlPackage' xmlns:w='http://schemas.openxmlformats.org/wordprocessingml/2006/main'>";

// A text whose root has this name and holds these elements.
fn text_of(alloc: Global, root: &str, inside: &str) -> Result<Vec<u8>, AllocError> {
    let mut text = Vec::new(alloc);
    for piece in ["<", root, NAMESPACES, inside, "</", root, ">\n"] {
        text.extend_from_slice(piece.as_bytes())?;
    }
    Ok(text)
}

// Why a text with this root is refused.
fn refused(alloc: Global, root: &str, inside: &str) -> Result<Option<OpcError>, Fail> {
    let text = text_of(alloc, root, inside)?;
    let nodes = redl_xml::read(alloc, &text)?;
    Ok(Package::make(alloc, nodes).err())
}

const PART: &str =
    "<pkg:part pkg:name='/a' pkg:contentType='x/y'><pkg:xmlData> <w:document/> </pkg:xmlData></pkg:part>";

#[test]
fn another_root_is_no_package(rt: HostRuntime) -> Result<(), Fail> {
    for (root, inside, want) in [
        ("pkg:package", PART, None),
        ("pkg:a", "<pkg:b/>", Some(OpcError::NotPackage)),
        ("w:package", PART, Some(OpcError::NotPackage)),
    ] {
        let got = refused(rt.alloc(), root, inside)?;
        assert!(rt; got == want, "{root} {inside}: {got:?}");
    }
    Ok(())
}

// What a package may not hold.
const OTHER_SHAPES: &[&str] = &[
    "<pkg:b pkg:name='/a' pkg:contentType='x/y'><pkg:xmlData><w:document/></pkg:xmlData></pkg:b>",
    "<pkg:part pkg:name='/a'><pkg:binaryData/></pkg:part>",
    "<pkg:part pkg:contentType='x/y'><pkg:binaryData/></pkg:part>",
    "<pkg:part pkg:name='/a' pkg:contentType='x/y'><pkg:data/></pkg:part>",
    "<pkg:part pkg:name='/a' pkg:contentType='x/y'><pkg:xmlData/></pkg:part>",
    "<pkg:part pkg:name='/a' pkg:contentType='x/y'><pkg:xmlData><w:document/><w:hdr/></pkg:xmlData></pkg:part>",
    "<pkg:part pkg:name='/a' pkg:contentType='x/y'><pkg:binaryData/><pkg:binaryData/></pkg:part>",
];

// Parts without a document.
const OTHER_PARTS: &[&str] = &[
    "",
    "<pkg:part pkg:name='/a' pkg:contentType='x/y'><pkg:binaryData><w:document/></pkg:binaryData></pkg:part>",
    "<pkg:part pkg:name='/a' pkg:contentType='x/y'><pkg:xmlData><w:hdr/></pkg:xmlData></pkg:part>",
];

#[test]
fn another_shape_is_refused_for_its_first_cause(rt: HostRuntime) -> Result<(), Fail> {
    for (rows, want) in [
        (OTHER_SHAPES, OpcError::PartShape),
        (OTHER_PARTS, OpcError::NoDocument),
    ] {
        for inside in rows {
            let got = refused(rt.alloc(), "pkg:package", inside)?;
            assert!(rt; got == Some(want), "{inside}: {got:?}");
        }
    }
    Ok(())
}

// Whether the first part has this name, and the root of its story this local name.
fn first_is(made: &Package, name: &[u8], story: &[u8]) -> bool {
    let Some(root) = made.story(0) else {
        return false;
    };
    made.part_name(0) == Some(name) && root.local() == story
}

const NAMED: &str =
    "\n<pkg:part pkg:name='/a&amp;b' pkg:contentType='x/y'><pkg:xmlData><w:document/></pkg:xmlData></pkg:part>\n";

#[test]
fn parts_have_names_and_stories(rt: HostRuntime) -> Result<(), Fail> {
    let text = text_of(rt.alloc(), "pkg:package", NAMED)?;
    let made = read_package(rt.alloc(), &text)?;
    let sizes = (made.nodes().len(), made.parts());
    let named = first_is(&made, b"/a&b", b"document");
    assert!(rt; sizes == (2, 1) && named, "{sizes:?} {named}");
    Ok(())
}
