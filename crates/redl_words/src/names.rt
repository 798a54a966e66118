//! Names of files among the words: which words can be one, and copies of them.

ghost use Rattle.std.specs.Prelude.{◌≡◌, ◌++◌, ◌∷◌, [], OnOk, IfOk};
ghost use Rattle.std.specs.List.{list_all};
ghost use Rattle.redl_words.specs.Items.{is_name};
ghost use Rattle.redl_words.specs.Reading.Answers.{Finds};
ghost use Rattle.redl_words.specs.Reading.Commands.{names_in};

use crate::error::WordsError;
use redl_io::Text;
use std::alloc::{AllocError, Global};

/// Whether the word can name a file: it isn't empty and doesn't begin with a dash.
pub(crate) fn is_file_name(word: &[u8]) -> bool
    ensures { result ≡ is_name word.now }
{
    match word {
        [] => false,
        [first, ..] => *first != b'-',
    }
}

/// Adds a copy of the word. `Err` means out of memory.
pub(crate) fn add_copy(alloc: Global, words: &mut Vec<Text>, word: &Text) -> Result<(), AllocError>
    ensures { OnOk result (words.new.items ≡ words.old.items ++ word.now ∷ []) }
{
    let word = word.copy(alloc)?;
    words.push(word)?;
    Ok(())
}

/// Copies of the words, where each can name a file.
pub(crate) fn read_names(alloc: Global, words: &[Text]) -> Result<Vec<Text>, WordsError>
    ensures { Finds (λ names. names.items) result (names_in words.now) }
{
    if !are_file_names(words) {
        return Err(WordsError::Usage);
    }
    let names = copies(alloc, words)?;
    Ok(names)
}

// Whether each word can name a file.
fn are_file_names(words: &[Text]) -> bool
    ensures { result ≡ list_all is_name words.now }
{
    words.iter().all(|word| is_file_name(word.as_bytes()))
}

// Copies of the words. `Err` means out of memory.
fn copies(alloc: Global, words: &[Text]) -> Result<Vec<Text>, AllocError>
    ensures { IfOk result (λ copies. copies.items ≡ words.now) }
{
    let mut copies = Vec::new(alloc);
    for word in words {
        add_copy(alloc, &mut copies, word)?;
    }
    Ok(copies)
}
