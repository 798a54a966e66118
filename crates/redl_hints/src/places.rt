//! Words that stand where the command line has no such word.

use crate::hint::{add_hint, add_hint_around_name};
use redl_io::Text;
use std::alloc::AllocError;

/// Adds hints on words at the wrong place: an option before the file, a reviewer who cannot be one, and among the options of
/// `decide` a word that is none. `Err` means out of memory.
pub(crate) fn add_place_hints(words: &[Text], hints: &mut Vec<u8>) -> Result<(), AllocError> {
    match words {
        // (a dash or a quote of a word processor has a hint of its own)
        _ if words.iter().any(|word| has_long_letter(word.as_bytes())) => Ok(()),
        [_, first, ..] if first.as_bytes().starts_with(b"-") => {
            add_hint(
                hints,
                "files come right after the command, and options after them; a file whose name begins with a dash is written ./-name",
            )
        }
        [command, _, reviewer, items @ ..] if command.as_bytes() == b"decide".as_slice() => {
            if reviewer.as_bytes().starts_with(b"--") {
                return add_hint(hints, "the reviewer's name comes right after the package");
            }
            add_reviewer_hint(reviewer.as_bytes(), hints)?;
            add_item_hint(items, hints)
        }
        _ => Ok(()),
    }
}

// Whether a word has a dash or a quote of a word processor: U+2012 to U+201F, whose first two bytes are these.
fn has_long_letter(word: &[u8]) -> bool {
    word.windows(3).any(|bytes| bytes[0] == 0xe2
        && bytes[1] == 0x80
        && (0x92..=0x9f).contains(&bytes[2]))
}

fn add_reviewer_hint(name: &[u8], hints: &mut Vec<u8>) -> Result<(), AllocError> {
    if name.is_empty() || name.len() > 255 || name.iter().any(|byte| *byte < b' ') {
        return add_hint(
            hints,
            "a reviewer's name has 1 to 255 bytes, and no tab and no line end",
        );
    }
    Ok(())
}

// A hint on the first word that stands in the place of an option and is none.
fn add_item_hint(items: &[Text], hints: &mut Vec<u8>) -> Result<(), AllocError> {
    for item in items.chunks(2) {
        if let [option, ..] = item {
            let option = option.as_bytes();
            if option.ends_with(b".journal") {
                return add_hint(hints, "a journal of decide comes after --journal");
            }
            if !option.starts_with(b"-") {
                return add_hint_around_name(
                    hints,
                    "",
                    std::str::from_utf8(option).unwrap_or(""),
                    " is no option; a value with a space in it is put in quotes, as \"author:Ann Gray\"",
                );
            }
        }
    }
    Ok(())
}
