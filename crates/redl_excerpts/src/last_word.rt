//! Who said what of a revision.

ghost use Rattle.std.specs.Prelude.{◌≡◌, ◌++◌, ◌∷◌, [], All, IfOk, OnOk, map};
ghost use Rattle.std.specs.Map.Iter.{deref};
ghost use Rattle.std.specs.Str.{IsUtf8};
ghost use Rattle.redl_excerpts.specs.Details.{last_word_of};

use crate::checked::checked_copy;
use redl_io::Text;
use redl_journal::{Entry, Word};
use std::alloc::{AllocError, Global};
use std::marker::Model;

/// The last word of a reviewer on a revision.
#[derive(Drop)]
pub struct LastWord {
    /// The reviewer's name.
    pub reviewer: Text,
    /// What the reviewer said.
    pub word: Word,
}

/// The last words on a revision. Contracts see the list of them.
#[derive(Drop)]
pub struct Says {
    words: Vec<LastWord>,
}

impl Model for Says {
    ghost use Rattle.std.specs.Prelude.{List};
    ghost use Rattle.redl_excerpts.specs.declared.last_word.LastWord.{LastWord};

    ghost Value = { List LastWord };

    ghost view = { λ says. says.words.items };
}

impl LastWord {
    // That of an entry. `Err` means out of memory.
    fn of(alloc: Global, entry: &Entry) -> Result<LastWord, AllocError>
        ensures value { IfOk result (λ said. said ≡ last_word_of entry.now) }
        ensures utf8 { IfOk result (λ said. IsUtf8 said.reviewer) }
    {
        let reviewer = checked_copy(alloc, entry.reviewer.as_bytes())?;
        Ok(LastWord {
            reviewer,
            word: entry.word,
        })
    }

    // An equal one. `Err` means out of memory.
    fn copy(&self, alloc: Global) -> Result<LastWord, AllocError>
        ensures { IfOk result (λ copy. copy ≡ self.now) }
    {
        let reviewer = self.reviewer.copy(alloc)?;
        Ok(LastWord {
            reviewer,
            word: self.word,
        })
    }
}

impl Says {
    /// Nobody said anything. It takes no memory.
    pub fn none(alloc: Global) -> Says
        ensures { result ≡ [] }
    {
        Says {
            words: Vec::new(alloc),
        }
    }

    /// The last words, in their order.
    pub fn words(&self) -> &[LastWord]
        ensures { result.now ≡ self.now }
    {
        &self.words
    }

    /// Those of entries. `Err` means out of memory.
    pub(crate) fn of(alloc: Global, entries: &[&Entry]) -> Result<Says, AllocError>
        ensures value { IfOk result (λ says. says ≡ map last_word_of (map deref entries.now)) }
        ensures utf8 { IfOk result (λ says. All (λ said. IsUtf8 said.reviewer) says) }
    {
        let mut words = Vec::new(alloc);
        for entry in entries {
            let said = LastWord::of(alloc, entry)?;
            words.push(said)?;
        }
        Ok(Says { words })
    }

    /// Equal ones. `Err` means out of memory.
    pub fn copy(&self, alloc: Global) -> Result<Says, AllocError>
        ensures { IfOk result (λ copy. copy ≡ self.now) }
    {
        let words = copies(alloc, &self.words)?;
        Ok(Says { words })
    }
}

fn copies(alloc: Global, words: &[LastWord]) -> Result<Vec<LastWord>, AllocError>
    ensures { IfOk result (λ copies. copies.items ≡ words.now) }
{
    let mut copies = Vec::new(alloc);
    for said in words {
        let copy = said.copy(alloc)?;
        copies.push(copy)?;
    }
    Ok(copies)
}
