//! Leaves of bodies that are read. The reader keeps neighbours in which no walk finds anything as one text; each of them is a leaf all
//! the same, or is in that of a chain, and comes back as it was written.
//!
//! Bodies, leaves and what is wanted are outlines. The wanted ones follow from ECMA-376 Part 1, 17.13.5.

use crate::live_session::session_over;
use redl_editor::Editor;
use redl_io::MemSink;
use redl_live_session::LiveSession;
use redl_outline::{
    document, document_package, entries_of, nodes_text, outline_text, package, part,
};
use redl_session::Locks;
use std::alloc::{AllocError, Global};
use std::test::Fail;

// A member of revision 1, and an element whose tags have white space.
const OWN: &[(&str, &str)] = &[
    ("1", " w:id='1' w:author='Ann'"),
    ("blank", "<w:k ><w:m  w:a = '1'>x</w:m ></w:k\n>"),
];

const ACCEPT: &[u8] = b"1\t1\taccept\tAnn\n";

const REJECT: &[u8] = b"1\t1\treject\tAnn\n";

// A body, its leaves, an entry, the leaves then, and what is left of the body.
type Row<'t> = (&'t str, &'t [&'t str], &'t [u8], &'t [&'t str], &'t str);

const ROWS: [Row; 6] = [
    (
        "k m .a ..(x) .(y) (z) k p .r ..t ...(a) .k .ins/1 ..r ...t ....(b) .r .k",
        &[
            "k",
            "m .a ..(x) .(y)",
            "(z)",
            "k",
            "p .r ..t ...(a) .k .ins/1 ..r ...t ....(b) .r .k",
        ],
        ACCEPT,
        &[
            "k",
            "m .a ..(x) .(y)",
            "(z)",
            "k",
            "p .r ..t ...(a) .k .r ..t ...(b) .r .k",
        ],
        "k m .a ..(x) .(y) (z) k p .r ..t ...(a) .k .r ..t ...(b) .r .k",
    ),
    (
        "(blank) m p .ins/1 ..r",
        &["(blank)", "m", "p .ins/1 ..r"],
        REJECT,
        &["(blank)", "m", "p .()"],
        "(blank) m p .()",
    ),
    // a chain that goes on after them, and one that ends before them
    (
        "p .pPr ..rPr ...del/1 .r ..t ...(a) k m .a p .r ..t ...(b) k m",
        &[
            "p .pPr ..rPr ...del/1 .r ..t ...(a) k m .a p .r ..t ...(b)",
            "k",
            "m",
        ],
        ACCEPT,
        &["p .r ..t ...(a) .k .m ..a .r ..t ...(b)", "k", "m"],
        "p .r ..t ...(a) .k .m ..a .r ..t ...(b) k m",
    ),
    (
        "p .pPr ..rPr ...ins/1 .r k m .a tbl .tr ..tc ...p",
        &["p .pPr ..rPr ...ins/1 .r", "k", "m .a", "p"],
        ACCEPT,
        &["p .pPr ..rPr ...() .r", "k", "m .a", "p"],
        "p .pPr ..rPr ...() .r k m .a tbl .tr ..tc ...p",
    ),
    // in a table, and in a row that goes
    (
        "tbl .k .m .tr ..k ..tc ...p ....ins/1 .....r ...k ...m ....a .k .m",
        &["k", "m", "k", "p .ins/1 ..r", "k", "m .a", "k", "m"],
        ACCEPT,
        &["k", "m", "k", "p .r", "k", "m .a", "k", "m"],
        "tbl .k .m .tr ..k ..tc ...p ....r ...k ...m ....a .k .m",
    ),
    (
        "tbl .tr ..trPr ...del/1 ..k ..m ..tc ...p ...k ...m .k .tr ..tc ...p",
        &["trPr .del/1", "k", "m", "p", "k", "m", "k", "p"],
        ACCEPT,
        &["", "", "", "", "", "", "k", "p"],
        "tbl .k .tr ..tc ...p",
    ),
];

// The texts of leaves, each with a bar after it.
fn leaves_text(alloc: Global, editor: &Editor) -> Result<String, AllocError> {
    let mut text = String::new(alloc);
    for place in 0..editor.leaves(0) {
        if let Some(nodes) = editor.leaf(0, place) {
            text.push_str(nodes_text(alloc, nodes)?.as_str())?;
        }
        text.push('|')?;
    }
    Ok(text)
}

// The same of outlines.
fn outlines_text(alloc: Global, leaves: &[&str]) -> Result<String, AllocError> {
    let mut text = String::new(alloc);
    for leaf in leaves {
        text.push_str(outline_text(alloc, leaf, OWN)?.as_str())?;
        text.push('|')?;
    }
    Ok(text)
}

// The text of the package with this body.
fn body_text(alloc: Global, body: &str) -> Result<String, AllocError> {
    document_package(alloc, "/d", outline_text(alloc, body, OWN)?.as_str())
}

// Whether the leaves are these.
fn has_leaves(alloc: Global, editor: &Editor, leaves: &[&str]) -> Result<bool, AllocError> {
    let found = leaves_text(alloc, editor)?;
    let want = outlines_text(alloc, leaves)?;
    Ok(found == want)
}

// Whether the package with this body is written.
fn writes(alloc: Global, session: &LiveSession, body: &str) -> Result<bool, Fail> {
    let want = body_text(alloc, body)?;
    let mut out = MemSink::new(alloc, 2_000, Vec::new(alloc))?;
    session.write(&mut out)?;
    Ok(out.bytes() == want.as_bytes())
}

// Whether the leaves are those of a row, those then, and what is written then.
fn follows(alloc: Global, row: Row<'_>) -> Result<(bool, bool, bool), Fail> {
    let (body, leaves, lines, later, left) = row;
    let text = body_text(alloc, body)?;
    let mut session = session_over(alloc, text.as_bytes(), Locks::new(Vec::new(alloc)))?;
    let before = has_leaves(alloc, session.editor(), leaves)?;
    session.admit_many(entries_of(alloc, lines)?)?;
    let after = has_leaves(alloc, session.editor(), later)?;
    Ok((before, after, writes(alloc, &session, left)?))
}

#[test]
fn neighbours_that_are_kept_as_text_are_leaves(rt: HostRuntime) -> Result<(), Fail> {
    for row in ROWS {
        let got = follows(rt.alloc(), row)?;
        assert!(rt; got == (true, true, true), "{}: {got:?}", row.0);
    }
    Ok(())
}

// The package with two stories, and a part that is none before each of them.
fn two_stories(alloc: Global) -> Result<String, AllocError> {
    let mut parts = String::new(alloc);
    parts.push_str(part(alloc, "/a", "<a/>")?.as_str())?;
    parts.push_str(part(alloc, "/d", document(alloc, "<w:p/>")?.as_str())?.as_str())?;
    parts.push_str(part(alloc, "/b", "<b/>")?.as_str())?;
    parts.push_str(part(alloc, "/h", "<w:hdr><w:p/></w:hdr>")?.as_str())?;
    package(alloc, parts.as_str())
}

#[test]
fn stories_are_numbered_in_the_order_of_the_parts(rt: HostRuntime) -> Result<(), Fail> {
    let alloc = rt.alloc();
    let text = two_stories(alloc)?;
    let session = session_over(alloc, text.as_bytes(), Locks::new(Vec::new(alloc)))?;
    let editor = session.editor();
    for (part, number) in [(0, None), (1, Some(0)), (2, None), (3, Some(1)), (4, None)] {
        let got = editor.story_of(part);
        assert!(rt; got == number, "{part}: {got:?}");
    }
    for (story, number) in [(0, Some(1)), (1, Some(3)), (2, None)] {
        let got = editor.part_of(story);
        assert!(rt; got == number, "{story}: {got:?}");
    }
    Ok(())
}
