//! The last words on each revision.
ghost use Rattle.std.specs.Prelude.{◌≡◌, ◌==◌, ◌++◌, ◌∷◌, ℕ, [], map, OnOk, if◌then◌else◌};
ghost use Rattle.std.specs.Map.Iter.{deref};
ghost use Rattle.redl_join.specs.Listed.{entries_at};

use redl_journal::Entry;
use std::alloc::{AllocError, Global};
use std::collections::BTreeMap;

// Entries by their revision.
type ByRevision<'a> = BTreeMap<u32, Vec<&'a Entry>>;

/// The last words on each revision, of the book that gave them. None of the entries is copied.
#[derive(Drop)]
pub struct LastWords<'a> {
    by_revision: ByRevision<'a>,
    // The words on a revision that has none.
    none: Vec<&'a Entry>,
    ghost no_words: { none.items ≡ [] },
}

impl<'a> LastWords<'a> {
    ghost use Rattle.redl_join.specs.LastWords.{words_on};

    /// No words.
    pub(crate) fn new(alloc: Global) -> LastWords<'a>
        ensures { (rev : ℕ) → words_on result rev ≡ [] }
    {
        LastWords {
            by_revision: BTreeMap::new(alloc),
            none: Vec::new(alloc),
        }
    }

    /// Adds the entry after all others on its revision. `Err` means out of memory.
    pub(crate) fn push(&mut self, alloc: Global, entry: &'a Entry) -> Result<(), AllocError>
        ensures { OnOk result ((rev : ℕ) → words_on self.new rev
            ≡ (if rev == entry.now.rev then words_on self.old rev ++ entry.now ∷ [] else words_on self.old rev)) }
    {
        push_word(alloc, &mut self.by_revision, entry)
    }

    /// The last words on the revision: of each reviewer the entries with their greatest seq on it, withdrawals too, in the order
    /// of entries.
    pub fn on(&self, rev: u32) -> &[&'a Entry]
        ensures { map deref result.now ≡ words_on self.now rev }
    {
        if let Some(words) = self.by_revision.get(&rev) {
            return words;
        }
        &self.none
    }
}

// Adds the entry after all others on its revision. `Err` means out of memory.
fn push_word<'a>(
    alloc: Global,
    by_revision: &mut ByRevision<'a>,
    entry: &'a Entry,
) -> Result<(), AllocError>
    ensures { OnOk result ((rev : ℕ) → entries_at by_revision.new rev
        ≡ (if rev == entry.now.rev then entries_at by_revision.old rev ++ entry.now ∷ [] else entries_at by_revision.old rev)) }
{
    if let Some(others) = by_revision.get_mut(&entry.rev) {
        others.push(entry)?;
        return Ok(());
    }
    let mut first = Vec::new(alloc);
    first.push(entry)?;
    by_revision.insert(entry.rev, first)?;
    Ok(())
}
