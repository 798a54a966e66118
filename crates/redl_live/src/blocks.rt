//! A block: a document, and the says that are set in it.

use crate::open::open;
use crate::setting::{changes_of, set};
use redl_editor::{Change, Editor};
use redl_io::MemSink;
use redl_output::write_nodes;
use std::alloc::{AllocError, Global};
use std::str;

// A package with one document, before and after the nodes of its body.
const FRONT: &str =
    "<pkg:package xmlns:pkg=\"http://schemas.microsoft.com/office/2006/xmlPackage\"><pkg:part pkg:name=\"/word/document.xml\" pkg:contentType=\"application/vnd.openxmlformats-officedocument.wordprocessingml.document.main+xml\"><pkg:xmlData><w:document xmlns:w=\"http://schemas.openxmlformats.org/wordprocessingml/2006/main\"><w:body>";

const BACK: &str = "</w:body></w:document></pkg:xmlData></pkg:part></pkg:package>";

// The most bytes that a text of a block has.
const ROOM: usize = 20_000;

/// What is printed of a block.
pub(crate) fn show_block(alloc: Global, block: &str) -> Result<String, AllocError> {
    let mut printed = String::new(alloc);
    for line in block.lines().filter(|line| line.starts_with('#')) {
        print_line(&mut printed, line)?;
    }
    if let Some(body) = block.lines().find_map(|line| line.strip_prefix("P: ")) {
        let text = format!(in alloc; "{FRONT}{body}{BACK}")?;
        match open(alloc, text.as_bytes())? {
            Some(mut editor) => show_editor(alloc, &mut editor, block, &mut printed)?,
            None => print_line(&mut printed, "no package")?,
        }
    }
    print_line(&mut printed, "")?;
    Ok(printed)
}

fn print_line(printed: &mut String, line: &str) -> Result<(), AllocError> {
    printed.push_str(line)?;
    printed.push('\n')
}

// Prints all leaves, and those that each line changes.
fn show_editor(
    alloc: Global,
    editor: &mut Editor,
    block: &str,
    printed: &mut String,
) -> Result<(), AllocError> {
    let mut shown = Vec::new(alloc);
    let counts = format!(in alloc;
        "stories {}, leaves {}, revisions {}",
        editor.stories(),
        editor.leaves(0),
        editor.says().len()
    )?;
    print_line(printed, counts.as_str())?;
    show_leaves(alloc, editor, &mut shown, printed)?;
    for line in block.lines() {
        let changes = changes_of(alloc, line)?;
        if !changes.is_empty() {
            print_line(printed, line)?;
            show_changes(alloc, editor, &changes, &mut shown, printed)?;
        }
    }
    show_body(alloc, editor, printed)
}

// Sets these says, and prints the leaves that change. Where memory runs out it prints that, with what has changed and the body, and
// sets them once more.
fn show_changes(
    alloc: Global,
    editor: &mut Editor,
    changes: &[Change],
    shown: &mut Vec<String>,
    printed: &mut String,
) -> Result<(), AllocError> {
    if set(editor, changes).is_err() {
        print_line(printed, "no memory")?;
        show_leaves(alloc, editor, shown, printed)?;
        show_body(alloc, editor, printed)?;
        set(editor, changes)?;
    }
    show_leaves(alloc, editor, shown, printed)
}

// Prints the leaves that are others than those that were shown last.
fn show_leaves(
    alloc: Global,
    editor: &Editor,
    shown: &mut Vec<String>,
    printed: &mut String,
) -> Result<(), AllocError> {
    for place in 0..editor.leaves(0) {
        let text = leaf_text(alloc, editor, place)?;
        if place >= shown.len() {
            print_line(printed, format!(in alloc; "{place} {text}")?.as_str())?;
            shown.push(text)?;
        } else if shown[place].as_str() != text.as_str() {
            print_line(printed, format!(in alloc; "{place} {text}")?.as_str())?;
            shown[place] = text;
        }
    }
    Ok(())
}

// The text of this leaf, which is empty where something round it goes.
fn leaf_text(alloc: Global, editor: &Editor, place: usize) -> Result<String, AllocError> {
    let mut text = MemSink::new(alloc, ROOM, Vec::new(alloc))?;
    if let Some(nodes) = editor.leaf(0, place) {
        let _ = write_nodes(nodes, &mut text);
    }
    String::from_str(alloc, str::from_utf8(text.bytes()).unwrap_or("no text"))
}

// Prints the body of the document as it is at present.
fn show_body(alloc: Global, editor: &Editor, printed: &mut String) -> Result<(), AllocError> {
    let mut text = MemSink::new(alloc, ROOM, Vec::new(alloc))?;
    let _ = editor.write(&mut text);
    let text = str::from_utf8(text.bytes()).unwrap_or("no text");
    let body = text
        .strip_prefix(FRONT)
        .and_then(|rest| rest.strip_suffix(BACK))
        .unwrap_or(text);
    print_line(printed, format!(in alloc; "body {body}")?.as_str())
}
