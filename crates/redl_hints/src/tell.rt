//! The hints of a call.

use crate::authors::add_lock_hints;
use crate::choices::add_choice_hint;
use crate::fetched::{Ends, Remembered};
use crate::first_bytes::FirstBytes;
use crate::hint::add_hint;
use crate::journals::{add_journal_hint, has_no_entry};
use crate::names::add_name_hints;
use crate::packages::guess_of_package;
use crate::reviewers::{add_alike_hint, add_contradiction_hint};
use crate::rules::sentence_of_rule;
use crate::usage::add_usage_hints;
use bstr::ByteSlice;
use redl_io::{Sink, Text};
use std::alloc::{AllocError, Global};

/// Tells what probably went wrong with a call of these words, after the lines that it told on `err`. The program's help lists
/// its commands and options, `remembered` is of the files that were read, and `out` is what came out.
/// Where memory runs out there is no hint.
pub fn tell_hints<O: Sink, E: Sink>(
    alloc: Global,
    words: &[Text],
    help: &str,
    remembered: &Remembered,
    out: &FirstBytes<O>,
    err: &mut FirstBytes<E>,
) {
    if let Ok(hints) = hints_of(alloc, words, help, remembered, out.bytes(), err.bytes()) {
        if !hints.is_empty() {
            let _ = err.put(&hints);
        }
    }
}

/// Tells that a word of the command line could not be taken as text.
pub fn tell_word_hint<E: Sink>(err: &mut E) {
    let _ = err.put(b"redline: hint: a word of the command line is not UTF-8\n");
}

fn hints_of(
    alloc: Global,
    words: &[Text],
    help: &str,
    remembered: &Remembered,
    out: &[u8],
    lines: &[u8],
) -> Result<Vec<u8>, AllocError> {
    let mut hints = Vec::new(alloc);
    let text = &remembered.text;
    match first_line(lines) {
        Some(line) if line == b"redline: cannot read the command line".as_slice() => {
            add_usage_hints(alloc, words, help, &mut hints)?;
            return Ok(hints);
        }
        Some(line) => add_refusal_hint(line, text, &mut hints)?,
        None => {
            add_choice_hint(words, out, &mut hints)?;
            add_entry_hint(text, &mut hints)?;
        }
    }
    add_name_hints(words, &mut hints)?;
    if is_written(lines) {
        let reviewers = &remembered.reviewers;
        add_alike_hint(alloc, reviewers, reviewer_in(words), &mut hints)?;
        add_contradiction_hint(alloc, reviewers, &mut hints)?;
        add_lock_hints(alloc, words, &remembered.authors, &mut hints)?;
    }
    Ok(hints)
}

// The first line, but for the note of marks that are left, which says nothing of the words.
fn first_line(lines: &[u8]) -> Option<&[u8]> {
    lines
        .lines()
        .find(|line| !line.ends_with(b": see redline left"))
}

// Whether a call that told these lines wrote its output.
fn is_written(lines: &[u8]) -> bool {
    lines.lines().all(|line| line.starts_with(b"redline: note: ")
        || line.starts_with(b"redline: refused "))
}

// The reviewer whom the words name, if they do.
fn reviewer_in(words: &[Text]) -> Option<&Text> {
    match words {
        [command, _, reviewer, ..] if command.as_bytes() == b"decide".as_slice() => Some(reviewer),
        _ => None,
    }
}

// A hint where the last journal that was read decides nothing.
fn add_entry_hint(text: &Ends, hints: &mut Vec<u8>) -> Result<(), AllocError> {
    if has_no_entry(text) {
        return add_hint(
            hints,
            "the last journal has no entry, so it decides nothing",
        );
    }
    Ok(())
}

// A hint on the line of a refused package or journal, which is the file that was read last.
fn add_refusal_hint(line: &[u8], text: &Ends, hints: &mut Vec<u8>) -> Result<(), AllocError> {
    if let Some((_, digit)) = line.split_once_str(b"package: rule ") {
        return add_rule_hint(digit, hints);
    }
    if line.ends_with(b"package: not readable") || line.ends_with(b"package: not a package") {
        return match guess_of_package(text) {
            Some(guess) => add_hint(hints, guess),
            None => Ok(()),
        };
    }
    if line.starts_with(b"redline: no format ") {
        return add_hint(
            hints,
            "see redline --help for the formats; their names are in small letters",
        );
    }
    match line.strip_prefix(b"redline: journal ") {
        Some(rest) => add_hint_on_journal(rest, text, hints),
        None => Ok(()),
    }
}

fn add_rule_hint(digit: &[u8], hints: &mut Vec<u8>) -> Result<(), AllocError> {
    match digit.first() {
        Some(digit) => match sentence_of_rule(*digit) {
            Some(sentence) => add_hint(hints, sentence),
            None => Ok(()),
        },
        None => Ok(()),
    }
}

// A hint on what a call told of a journal: its name, and then why it was refused.
fn add_hint_on_journal(told: &[u8], text: &Ends, hints: &mut Vec<u8>) -> Result<(), AllocError> {
    if told.ends_with(b": malformed") {
        return add_journal_hint(text, hints);
    }
    if told.contains_str(b": document ") {
        return add_hint(
            hints,
            "the journal was made for another file; journals hold for exactly the bytes that list and decide were given",
        );
    }
    Ok(())
}
