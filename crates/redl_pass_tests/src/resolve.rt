//! What no clause of `redl_resolve` says: that both calls succeed where memory is ample. One package takes each way
//! through the pass; it is an outline, and so are the wanted ones. Other outlines are read as the body of a document. What is
//! wanted follows from ECMA-376 Part 1, 17.13.5.
use crate::documents::{package_text, read_package, says_for};
use redl_outline::{Outline, nodes_text, outline_text};
use redl_resolve::{into_passed, pass};
use redl_tree::Say;
use std::alloc::{AllocError, Global};
use std::test::Fail;

// A package with content that was inserted and deleted, changed properties, and a deleted paragraph mark and row.
const PACKAGE: &str = "pkg-package .pkg-part ..pkg-xmlData ...document ....body
    .....p ......ins .......t ........(a)
    .....p ......del .......delText ........(b)
    .....p ......r .......rPr ........rPrChange .........rPr ..........i
    .....p ......pPr .......rPr ........del
    .....bookmarkStart
    .....p ......r .......(c)
    .....tbl ......sdt .......sdtContent ........tr .........trPr ..........del";

const ACCEPTED: &str = "pkg-package .pkg-part ..pkg-xmlData ...document ....body
    .....p ......t .......(a)
    .....p ......()
    .....p ......r .......rPr ........()
    .....p ......bookmarkStart ......r .......(c)";

const REJECTED: &str = "pkg-package .pkg-part ..pkg-xmlData ...document ....body
    .....p ......()
    .....p ......t .......(b)
    .....p ......r .......rPr ........i
    .....p ......pPr .......rPr ........()
    .....bookmarkStart
    .....p ......r .......(c)
    .....tbl ......sdt .......sdtContent ........tr .........trPr ..........()";

// The text of the package under one say, passed itself or as a copy.
fn passed_text(alloc: Global, say: Say, is_copied: bool) -> Result<String, AllocError> {
    let outline = Outline::read(alloc, PACKAGE, &[])?;
    let nodes = outline.nodes(alloc)?;
    if is_copied {
        return nodes_text(alloc, &pass(alloc, &nodes, &[say])?);
    }
    nodes_text(alloc, &into_passed(alloc, nodes, &[say])?)
}

#[test]
fn a_package_is_resolved(rt: HostRuntime) -> Result<(), Fail> {
    let alloc = rt.alloc();
    for (say, is_copied, want) in [
        (Say::Keep, false, PACKAGE),
        (Say::Accept, true, ACCEPTED),
        (Say::Reject, false, REJECTED),
    ] {
        let got = passed_text(alloc, say, is_copied)?;
        let want = outline_text(alloc, want, &[])?;
        assert!(rt; got == want, "{say:?}: {got}");
    }
    Ok(())
}

// The text of the package with this body, read and then passed under the same say for each revision.
fn passed_body(alloc: Global, body: &str, say: Say) -> Result<String, Fail> {
    let text = package_text(alloc, body, &[])?;
    let mut package = read_package(alloc, text.as_bytes())?;
    let says = says_for(alloc, &mut package, say)?;
    let nodes = pass(alloc, package.nodes(), &says)?;
    Ok(nodes_text(alloc, &nodes)?)
}

// Bodies, and what they are accepted and rejected.
const BODIES: &[(&str, &str, &str)] = &[
    // a chain of paragraphs, with neighbours in them and between them
    (
        "p .pPr ..rPr ...del .r ..t ...(a) .r ..tab bookmarkStart (x) bookmarkEnd p .pPr ..jc .r ..t ...(b)",
        "p .pPr ..jc .r ..t ...(a) .r ..tab .bookmarkStart .(x) .bookmarkEnd .r ..t ...(b)",
        "p .pPr ..rPr ...() .r ..t ...(a) .r ..tab bookmarkStart (x) bookmarkEnd p .pPr ..jc .r ..t ...(b)",
    ),
    (
        "p .pPr ..rPr ...b ...ins .proofErr p .proofErr .r",
        "p .pPr ..rPr ...b .proofErr p .proofErr .r",
        "p .proofErr .proofErr .r",
    ),
    // insertions and deletions of neighbours, beside others
    (
        "p .r ..t ...(a) .ins ..bookmarkStart ..r ...rPr ....b ...t ....(b) .r ..t ...(c)",
        "p .r ..t ...(a) .bookmarkStart .r ..rPr ...b ..t ...(b) .r ..t ...(c)",
        "p .r ..t ...(a) .r ..t ...(c)",
    ),
    (
        "p .r ..t ...(a) .del ..bookmarkStart ..bookmarkEnd ..r ...sym ...tab ...delText ....(b) ...br .r",
        "p .r ..t ...(a) .r",
        "p .r ..t ...(a) .bookmarkStart .bookmarkEnd .r ..sym ..tab ..t ...(b) ..br .r",
    ),
    // former properties of a run, of a mark, of a paragraph and of a section
    (
        "p .r ..rPr ...b ...u ...rPrChange ....rPr .....i .....color ..t ...(a) .r ..rPr ...b",
        "p .r ..rPr ...b ...u ..t ...(a) .r ..rPr ...b",
        "p .r ..rPr ...i ...color ..t ...(a) .r ..rPr ...b",
    ),
    (
        "p .pPr ..rPr ...b ...rPrChange ....rPr .....i .....color",
        "p .pPr ..rPr ...b",
        "p .pPr ..rPr ...i ...color",
    ),
    (
        "p .pPr ..jc ..keepNext ..rPr ...b ...i ..pPrChange ...pPr ....ind ....spacing .r",
        "p .pPr ..jc ..keepNext ..rPr ...b ...i .r",
        "p .pPr ..ind ..spacing ..rPr ...b ...i .r",
    ),
    (
        "p sectPr .headerReference .pgSz .pgMar .sectPrChange ..sectPr ...pgSz ...cols",
        "p sectPr .headerReference .pgSz .pgMar",
        "p sectPr .headerReference .pgSz .cols",
    ),
    // rows, cells and tables with neighbours beside them
    (
        "tbl .tblPr ..tblW ..tblLook .bookmarkStart .tr ..trPr ...cantSplit ...del ..tc ...p .bookmarkEnd .tr ..tc ...p p",
        "tbl .tblPr ..tblW ..tblLook .bookmarkStart .bookmarkEnd .tr ..tc ...p p",
        "tbl .tblPr ..tblW ..tblLook .bookmarkStart .tr ..trPr ...cantSplit ..tc ...p .bookmarkEnd .tr ..tc ...p p",
    ),
    (
        "tbl .tr ..tc ...tcPr ....tcW ....vAlign ....cellDel ...p ..bookmarkStart ..tc ...p ....r p",
        "tbl .tr ..bookmarkStart ..tc ...p ....r p",
        "tbl .tr ..tc ...tcPr ....tcW ....vAlign ...p ..bookmarkStart ..tc ...p ....r p",
    ),
    (
        "bookmarkStart tbl .tblPr ..tblW .bookmarkStart .tr ..trPr ...del ..bookmarkEnd ..tc ...p bookmarkEnd p .r",
        "bookmarkStart bookmarkEnd p .r",
        "bookmarkStart tbl .tblPr ..tblW .bookmarkStart .tr ..trPr ...() ..bookmarkEnd ..tc ...p bookmarkEnd p .r",
    ),
];

// Whether the package with this body is passed so.
fn becomes(alloc: Global, body: &str, say: Say, want: &str) -> Result<bool, Fail> {
    let got = passed_body(alloc, body, say)?;
    let want = package_text(alloc, want, &[])?;
    Ok(got == want)
}

#[test]
fn a_body_that_is_read_is_resolved(rt: HostRuntime) -> Result<(), Fail> {
    for (body, accepted, rejected) in BODIES {
        let after = becomes(rt.alloc(), body, Say::Accept, accepted)?;
        let before = becomes(rt.alloc(), body, Say::Reject, rejected)?;
        assert!(rt; after && before, "{body}: {after} {before}");
    }
    Ok(())
}
