//! Names of people that were probably not meant so.

use crate::hint::add_hint;
use redl_io::Text;
use std::alloc::AllocError;

/// Adds a hint for the reviewer's name, and for each locked author's, that looks like a slip. `Err` means out of memory.
pub(crate) fn add_name_hints(words: &[Text], hints: &mut Vec<u8>) -> Result<(), AllocError> {
    if let [command, _, reviewer, ..] = words {
        if command.as_bytes() == b"decide".as_slice() {
            add_reviewer_hints(reviewer.as_bytes(), hints)?;
        }
    }
    for pair in words.windows(2) {
        if pair[0].as_bytes() == b"--lock".as_slice() {
            add_author_hints(pair[1].as_bytes(), hints)?;
        }
    }
    Ok(())
}

fn add_reviewer_hints(name: &[u8], hints: &mut Vec<u8>) -> Result<(), AllocError> {
    if has_odd_spaces(name) {
        add_hint(
            hints,
            "the reviewer's name begins or ends with a space, or has two in a row or a no-break space; with other spaces it is another reviewer",
        )?;
    }
    if name.starts_with(b"-") {
        add_hint(
            hints,
            "the reviewer's name begins with a dash; options come after the reviewer",
        )?;
    }
    if is_selection(name) {
        add_hint(
            hints,
            "the reviewer's name looks like a choice; the reviewer comes after the package, and choices after --accept or --reject",
        )?;
    }
    if is_file_name(name) {
        add_hint(
            hints,
            "the reviewer's name looks like a file's; the reviewer comes after the package, and a journal after --journal",
        )?;
    }
    Ok(())
}

fn add_author_hints(name: &[u8], hints: &mut Vec<u8>) -> Result<(), AllocError> {
    if has_odd_spaces(name) {
        add_hint(
            hints,
            "a locked author's name begins or ends with a space, or has two in a row or a no-break space; only exactly this author is locked",
        )?;
    }
    if is_file_name(name) {
        add_hint(
            hints,
            "a locked author's name looks like a file's; --lock takes the next word as the author",
        )?;
    }
    Ok(())
}

fn is_selection(name: &[u8]) -> bool {
    name.starts_with(b"author:")
        || name.starts_with(b"edit:")
        || name.starts_with(b"kind:")
        || name.starts_with(b"numbers:")
        || name.starts_with(b"span:")
}

// Whether a name begins or ends with a space, or has two in a row, or a no-break space (U+00A0).
fn has_odd_spaces(name: &[u8]) -> bool {
    name.first() == Some(&b' ')
        || name.last() == Some(&b' ')
        || name.windows(2).any(|pair| pair == b"  ".as_slice() || pair == b"\xc2\xa0".as_slice())
}

fn is_file_name(name: &[u8]) -> bool {
    name.ends_with(b".journal") || name.ends_with(b".xml") || name.ends_with(b".docx")
}
