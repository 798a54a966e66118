//! What the reviewers say in the journals that a call read, names of theirs that are spelled alike, and words that contradict each
//! other.

use crate::alike::{is_among, key_of, text_of};
use crate::hint::add_hint_before_name;
use bstr::ByteSlice;
use redl_io::Text;
use std::alloc::{AllocError, Global};

// How many names are remembered, and how many words.
const MOST: usize = 64;

const MOST_WORDS: usize = 4096;

/// Names of reviewers, each once: the first 64 of them. And their first 4,096 words.
#[derive(Drop)]
pub struct Reviewers {
    names: Vec<Text>,
    words: Vec<Word>,
}

// A reviewer's word on a revision. Words are compared by the reviewer, the revision and the sequence number.
#[derive(Clone, Copy, PartialEq, Eq, PartialOrd, Ord)]
struct Word {
    // The place of the reviewer's name.
    reviewer: usize,
    revision: u32,
    sequence: u32,
    is_accept: bool,
}

impl Reviewers {
    /// No name. It takes no memory.
    pub fn new(alloc: Global) -> Reviewers {
        Reviewers {
            names: Vec::new(alloc),
            words: Vec::new(alloc),
        }
    }

    /// Remembers the reviewers and the words of the journal that begins with this text, if it is one. `Err` means out of memory, and
    /// then some of them may be remembered.
    pub(crate) fn note(&mut self, alloc: Global, text: &[u8]) -> Result<(), AllocError> {
        if !text.starts_with(b"redline-journal ") {
            return Ok(());
        }
        // The last line may be cut.
        let Some((lines, _)) = text.rsplit_once_str(b"\n") else {
            return Ok(());
        };
        for line in lines.lines().skip(3) {
            self.note_entry(alloc, line)?;
        }
        Ok(())
    }

    // Remembers the reviewer and the word of the entry with this line.
    fn note_entry(&mut self, alloc: Global, line: &[u8]) -> Result<(), AllocError> {
        let Some((rest, name)) = line.rsplit_once_str(b"\t") else {
            return Ok(());
        };
        let Some(reviewer) = self.place_of(alloc, name)? else {
            return Ok(());
        };
        if let Some(word) = word_in(reviewer, rest) {
            if self.words.len() < MOST_WORDS {
                self.words.push(word)?;
            }
        }
        Ok(())
    }

    // The place of a name, which is remembered if there is room.
    fn place_of(&mut self, alloc: Global, name: &[u8]) -> Result<Option<usize>, AllocError> {
        let place = self.names.iter().position(|known| known.as_bytes() == name);
        if place.is_some() || self.names.len() >= MOST {
            return Ok(place);
        }
        self.names.push(Text::copy_of(alloc, name)?)?;
        Ok(Some(self.names.len() - 1))
    }
}

// The word of an entry, of whose line this comes before the reviewer. A withdrawal is none.
fn word_in(reviewer: usize, line: &[u8]) -> Option<Word> {
    let (sequence, rest) = line.split_once_str(b"\t")?;
    let (revision, rest) = rest.split_once_str(b"\t")?;
    let is_accept = rest.starts_with(b"accept");
    if !is_accept && !rest.starts_with(b"reject") {
        return None;
    }
    Some(Word {
        reviewer,
        revision: number_in(revision)?,
        sequence: number_in(sequence)?,
        is_accept,
    })
}

fn number_in(digits: &[u8]) -> Option<u32> {
    std::str::from_utf8(digits).ok()?.parse().ok()
}

/// Adds a hint where the last words of a reviewer on some revision are two. `Err` means out of memory.
pub(crate) fn add_contradiction_hint(
    alloc: Global,
    reviewers: &Reviewers,
    hints: &mut Vec<u8>,
) -> Result<(), AllocError> {
    let mut words = reviewers.words.as_slice().to_vec(alloc)?;
    words.sort()?;
    for pair in words.windows(2) {
        if contradicts(&pair[0], &pair[1]) && is_last(&words, &pair[0]) {
            return match reviewers.names.get(pair[0].reviewer) {
                Some(name) => add_hint_before_name(
                    hints,
                    "a reviewer accepts and rejects one change with one sequence number, which is a dispute with oneself: ",
                    text_of(name),
                ),
                None => Ok(()),
            };
        }
    }
    Ok(())
}

// Whether two words are one reviewer's on one revision with one sequence number, and differ.
fn contradicts(word: &Word, next: &Word) -> bool {
    word.reviewer == next.reviewer
        && word.revision == next.revision
        && word.sequence == next.sequence
        && word.is_accept != next.is_accept
}

// Whether none of the words has the same reviewer and revision as this one, and a greater sequence number.
fn is_last(words: &[Word], word: &Word) -> bool {
    !words.iter().any(|other| word.reviewer == other.reviewer
        && word.revision == other.revision
        && word.sequence < other.sequence)
}

/// Adds a hint where two of the reviewers, one of whom may be this one, have names that differ only by case, spaces or Unicode
/// form. `Err` means out of memory.
pub(crate) fn add_alike_hint(
    alloc: Global,
    reviewers: &Reviewers,
    own: Option<&Text>,
    hints: &mut Vec<u8>,
) -> Result<(), AllocError> {
    let mut keys = Vec::new(alloc);
    if let Some(name) = own {
        keys.push(key_of(alloc, text_of(name))?)?;
    }
    for name in &reviewers.names {
        let key = key_of(alloc, text_of(name))?;
        let is_own = own.is_some_and(|own| own.as_bytes() == name.as_bytes());
        if !is_own && is_among(alloc, &keys, key.as_str())? {
            return add_hint_before_name(
                hints,
                "the name of a reviewer differs from another one's only by case, spaces or Unicode form, and counts as another reviewer: ",
                text_of(name),
            );
        }
        keys.push(key)?;
    }
    Ok(())
}
