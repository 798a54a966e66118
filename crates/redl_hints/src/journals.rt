//! Why a file is no journal.

use crate::fetched::Ends;
use crate::hint::{add_hint, add_hint_around_name};
use crate::numbers::is_number;
use bstr::ByteSlice;
use itoa::Buffer;
use std::alloc::AllocError;

// The first line of a journal, without its version.
const NAME: &[u8] = b"redline-journal ";

/// Adds a hint on why a text is no journal. `Err` means out of memory.
pub(crate) fn add_journal_hint(text: &Ends, hints: &mut Vec<u8>) -> Result<(), AllocError> {
    let front = text.front();
    if let Some(guess) = guess_of_form(text) {
        return add_hint(hints, guess);
    }
    if let Some(version) = other_version(front) {
        return add_hint_around_name(
            hints,
            "the journal is of version ",
            version,
            ", and this program reads versions 1 and 2",
        );
    }
    if let Some(fault) = fault_of_head(front) {
        return add_hint(hints, fault);
    }
    let has_ranks = front.starts_with(b"redline-journal 2");
    if let Some(number) = first_bad_entry(whole_lines(text), has_ranks) {
        return add_entry_hint(number, has_ranks, hints);
    }
    if !text.ends_a_line() {
        return add_hint(hints, "the journal's last line has no newline at its end");
    }
    Ok(())
}

/// Whether a text is a journal that ends with its head.
pub(crate) fn has_no_entry(text: &Ends) -> bool {
    text.is_whole() && text.front().starts_with(NAME) && text.front().lines().count() == 3
}

// What the file is where it is no text of lines as a journal has them.
fn guess_of_form(text: &Ends) -> Option<&'static str> {
    let front = text.front();
    if text.is_empty() {
        return Some(
            "the journal is an empty file; a shell empties the file that it sends output to",
        );
    }
    if front.starts_with(b"\xef\xbb\xbf") {
        return Some(if front.contains_str(b"\r\n") {
            "the journal begins with a byte order mark and has Windows line ends; save it as UTF-8 without the mark, with a newline alone at the end of each line"
        } else {
            "the journal begins with a byte order mark; save it as UTF-8 without one"
        });
    }
    if front.starts_with(b"\xff\xfe") || front.starts_with(b"\xfe\xff") {
        return Some("the journal is in UTF-16; save it as UTF-8");
    }
    if front.starts_with(b"<") {
        return Some(
            "the journal is a document; the package comes first, and the journals after it",
        );
    }
    if front.starts_with(b"PK") {
        return Some(
            "the journal is a ZIP file, as a document of a word processor is; a journal is plain text, so take the file as it came, or save it as plain text",
        );
    }
    if is_mail(front) {
        return Some("the journal is a mail; save the file that is attached to it");
    }
    if front.contains_str(b"\r\n") {
        return Some(
            "the journal has Windows line ends; save it with a newline alone at the end of each line",
        );
    }
    None
}

// Whether a file begins as a saved mail does.
fn is_mail(front: &[u8]) -> bool {
    front.starts_with(b"From")
        || front.starts_with(b"Return-Path:")
        || front.starts_with(b"Received:")
        || front.starts_with(b"MIME-Version:")
}

// The version that the first line names, where it is another one.
fn other_version(front: &[u8]) -> Option<&str> {
    let version = front.lines().next()?.strip_prefix(NAME)?;
    if version == b"1".as_slice() || version == b"2".as_slice() || !is_number(version) {
        return None;
    }
    std::str::from_utf8(version).ok()
}

// What is wrong with the three lines of the head.
fn fault_of_head(front: &[u8]) -> Option<&'static str> {
    let mut lines = front.lines();
    let first = lines.next()?;
    if !first.strip_prefix(NAME).is_some_and(is_number) {
        return Some(
            "the first line of a journal is redline-journal 1 or redline-journal 2, and nothing more",
        );
    }
    if !lines.next().is_some_and(is_document) {
        return Some(
            "the second line of a journal is document, a space and the 64 digits of the package's SHA-256",
        );
    }
    if !lines.next().is_some_and(is_count) {
        return Some(
            "the third line of a journal is revisions, a space and how many the package has",
        );
    }
    None
}

fn is_document(line: &[u8]) -> bool {
    let digits = line.strip_prefix(b"document ");
    digits.is_some_and(|digits| digits.len() == 64 && digits.iter().all(is_digit))
}

// Whether a byte is a digit of a digest, in small letters.
fn is_digit(byte: &u8) -> bool {
    matches!(*byte, b'0'..=b'9' | b'a'..=b'f')
}

fn is_count(line: &[u8]) -> bool {
    line.strip_prefix(b"revisions ").is_some_and(is_number)
}

// What is remembered of a text, up to the end of its last whole line where that is not all of it.
fn whole_lines(text: &Ends) -> &[u8] {
    let front = text.front();
    if text.is_whole() {
        return front;
    }
    match front.rsplit_once_str(b"\n") {
        Some((lines, _)) => lines,
        None => b"",
    }
}

// The number of the first line after the head that is no entry, counted from 1.
fn first_bad_entry(lines: &[u8], has_ranks: bool) -> Option<u64> {
    let mut number = 0u64;
    for line in lines.lines() {
        number = number.saturating_add(1);
        if number > 3 && !is_entry(line, has_ranks) {
            return Some(number);
        }
    }
    None
}

// Whether a line has the fields of an entry: two numbers, a word, a rank in version 2, and a reviewer.
fn is_entry(line: &[u8], has_ranks: bool) -> bool {
    let count = line.split_str(b"\t").count();
    let mut fields = line.split_str(b"\t");
    let has_sequence = fields.next().is_some_and(is_number);
    let has_number = fields.next().is_some_and(is_number);
    let has_word = fields.next().is_some_and(is_word);
    let wanted = if has_ranks { 5 } else { 4 };
    count == wanted && has_sequence && has_number && has_word
}

fn is_word(word: &[u8]) -> bool {
    word == b"accept".as_slice() || word == b"reject".as_slice() || word == b"withdraw".as_slice()
}

fn add_entry_hint(number: u64, has_ranks: bool, hints: &mut Vec<u8>) -> Result<(), AllocError> {
    let mut buffer = Buffer::new();
    let text = if has_ranks {
        " of the journal is no entry; an entry of version 2 is a sequence number, a revision, a word in small letters, a rank and the reviewer, with one tab between two"
    } else {
        " of the journal is no entry; an entry is a sequence number, a revision, a word in small letters and the reviewer, with one tab between two"
    };
    add_hint_around_name(hints, "line ", buffer.format(number), text)
}
