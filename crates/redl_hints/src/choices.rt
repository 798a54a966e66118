//! Choices that chose nothing, or not what was meant.

use crate::hint::add_hint;
use bstr::ByteSlice;
use redl_io::Text;
use std::alloc::AllocError;

/// Adds hints on a call that told nothing: `decide` that chose no change, or gave one choice two words, and `write` without a
/// journal. `Err` means out of memory.
pub(crate) fn add_choice_hint(
    words: &[Text],
    out: &[u8],
    hints: &mut Vec<u8>,
) -> Result<(), AllocError> {
    if is_command(words, b"write") && !has_journal(words) {
        return add_hint(
            hints,
            "no journal was given, so no change is decided; journals come after the package",
        );
    }
    if !is_command(words, b"decide") {
        return Ok(());
    }
    if out.lines().count() == 3 {
        add_hint(
            hints,
            "no change was chosen, so the journal has no entry; see redline list for the numbers, kinds, dates and authors, of which each letter and space counts",
        )?;
    }
    if words.windows(2).any(|pair| has_another_word(words, pair)) {
        add_hint(
            hints,
            "one choice has two words; the last one is in the journal",
        )?;
    }
    Ok(())
}

fn is_command(words: &[Text], name: &[u8]) -> bool {
    words
        .first()
        .is_some_and(|command| command.as_bytes() == name)
}

// Whether a word after the package is a journal: neither an option nor the value of one.
fn has_journal(words: &[Text]) -> bool {
    words
        .windows(2)
        .skip(1)
        .any(|pair| !is_option(&pair[0]) && !is_option(&pair[1]))
}

fn is_option(word: &Text) -> bool {
    word.as_bytes().starts_with(b"--")
}

// Whether the choice of an option is given after another one too.
fn has_another_word(words: &[Text], pair: &[Text]) -> bool {
    match pair {
        [option, choice] if is_word(option) => words
            .windows(2)
            .any(|other| is_other_word(other, option, choice)),
        _ => false,
    }
}

fn is_other_word(pair: &[Text], option: &Text, choice: &Text) -> bool {
    match pair {
        [other, chosen] => {
            is_word(other)
                && other.as_bytes() != option.as_bytes()
                && chosen.as_bytes() == choice.as_bytes()
        }
        _ => false,
    }
}

fn is_word(option: &Text) -> bool {
    let option = option.as_bytes();
    option == b"--accept".as_slice()
        || option == b"--reject".as_slice()
        || option == b"--withdraw".as_slice()
}
