//! What a file is that is no package.

use crate::fetched::Ends;
use bstr::ByteSlice;

// How much of a text is looked at.
const FRONT: usize = 4096;

/// What a text probably is that is no package, and what to do with it.
pub(crate) fn guess_of_package(text: &Ends) -> Option<&'static str> {
    if text.is_empty() {
        return Some(
            "the package is an empty file; a shell empties the file that it sends output to",
        );
    }
    let whole = text.front();
    let front = &whole[..FRONT.min(whole.len())];
    match guess_by_first_bytes(front) {
        Some(guess) => Some(guess),
        None => match guess_by_text(front) {
            Some(guess) => Some(guess),
            None if front.contains_str(b"<pkg:package") && !text.ends_a_tag() => {
                Some(
                    "the package does not end with a tag, so the file was cut off; copy or save it once more",
                )
            }
            None => None,
        },
    }
}

fn guess_by_first_bytes(front: &[u8]) -> Option<&'static str> {
    if front.starts_with(b"PK") {
        return Some(
            "the package is a ZIP file, perhaps a .docx: redline-docx takes one, and flatopc unpack makes a package of it",
        );
    }
    if front.starts_with(b"\xff\xfe") || front.starts_with(b"\xfe\xff") {
        return Some("the package is in UTF-16; save it as UTF-8");
    }
    if front.starts_with(b"\xd0\xcf\x11\xe0") {
        return Some(
            "the package is an old Word document (.doc), or has a password; open it in Word, and save it as \"Word XML Document (*.xml)\"",
        );
    }
    if front.starts_with(b"{\\rtf") {
        return Some(
            "the package is an RTF file; open it in Word, and save it as \"Word XML Document (*.xml)\"",
        );
    }
    if front.starts_with(b"%PDF") {
        return Some("the package is a PDF");
    }
    if front.starts_with(b"\x1f\x8b") {
        return Some("the package is compressed by gzip; unpack it first, as with gunzip");
    }
    if front.starts_with(b"UEsDB") {
        return Some(
            "the package is a ZIP file in base64, as mail carries it; save the attachment once more, or decode it with base64 -d",
        );
    }
    if front.starts_with(b"redline-journal") {
        return Some(
            "the package is a journal; the document comes first, and the journals after it",
        );
    }
    None
}

fn guess_by_text(front: &[u8]) -> Option<&'static str> {
    if front.contains_str(b"office/word/2003/wordml") {
        return Some(
            "the package is a Word 2003 document; save it in Word as \"Word XML Document (*.xml)\"",
        );
    }
    if front.contains_str(b"<html") || front.contains_str(b"<!DOCTYPE html") {
        return Some("the package is a web page");
    }
    if front.contains_str(b"<!DOCTYPE") {
        return Some("the package has a document type declaration, which is not read");
    }
    if names_other_encoding(front) {
        return Some("the package's first line names another encoding than UTF-8; save it as UTF-8");
    }
    if front.contains_str(b"<w:document") && !front.contains_str(b"<pkg:package") {
        return Some(
            "the package is the text part of a document without its package; redline-docx takes the whole .docx",
        );
    }
    None
}

// Whether an XML declaration names an encoding that isn't UTF-8.
fn names_other_encoding(front: &[u8]) -> bool {
    let Some((declaration, _)) = front.split_once_str(b"?>") else {
        return false;
    };
    match declaration.split_once_str(b"encoding=") {
        Some((_, name)) => !name
            .get(1..6)
            .is_some_and(|name| name.eq_ignore_ascii_case(b"utf-8")),
        None => false,
    }
}
