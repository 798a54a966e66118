//! Lists of entries in their order.
ghost use Rattle.std.specs.Prelude.{◌≡◌, ◌<◌, ◌^◌, [], length, not, IfOk, OnOk, OnErr};
ghost use Rattle.std.specs.Iterator.{YieldsFirstRef, item_count};
ghost use Rattle.redl_join.specs.Books.{IsBook, has_entry, with_entry, without_entry};

use crate::blocks::{Blocks, insert, remove};
use redl_journal::Entry;
use std::alloc::{AllocError, Global};
use std::marker::Model;

/// Entries in their order, each once. Contracts see them as that list.
#[derive(Drop)]
pub(crate) struct EntryList {
    alloc: Global,
    blocks: Blocks,
    count: usize,
}

impl Model for EntryList {
    ghost use Rattle.std.specs.Prelude.{List};
    ghost use Rattle.redl_journal.specs.declared.entry.Entry.{Entry};
    ghost use Rattle.redl_join.specs.Blocks.{AreCounted, entries_in_blocks};

    ghost Value = { List Entry };

    ghost view = { λ list. entries_in_blocks list.blocks.items };

    ghost invariant = { λ list. AreCounted list.blocks.items list.count };
}

impl EntryList {
    /// The list without entries.
    pub(crate) fn new(alloc: Global) -> EntryList
        ensures { result ≡ [] }
    {
        EntryList {
            alloc,
            blocks: Vec::new(alloc),
            count: 0,
        }
    }

    /// Puts the entry at its place, and says whether it is new. `Err` means out of memory: the list is as it was, and the
    /// entry is dropped.
    pub(crate) fn insert(&mut self, entry: Entry) -> Result<bool, AllocError>
        ensures added { OnOk result (self.new ≡ with_entry self.old entry) }
        ensures was_new { IfOk result (λ new. new ≡ not (has_entry self.old entry)) }
        ensures untouched { OnErr result (self.new ≡ self.old) }
    {
        if self.count == usize::MAX {
            return Err(AllocError);
        }
        let new = insert(self.alloc, &mut self.blocks, entry)?;
        if new {
            self.count += 1;
        }
        Ok(new)
    }

    /// Removes the entry, and says whether it was there.
    pub(crate) fn remove(&mut self, entry: &Entry) -> bool
        ensures removed { self.new ≡ without_entry self.old entry.now }
        ensures was_there { result ≡ has_entry self.old entry.now }
    {
        let was_there = remove(&mut self.blocks, entry);
        if was_there {
            self.count -= 1;
        }
        was_there
    }

    /// The number of entries.
    pub(crate) fn len(&self) -> usize
        ensures { result ≡ length self.now }
    {
        self.count
    }

    /// The entries, from the first to the last.
    pub(crate) fn iter(&self) -> Entries<'_>
        ensures entries { result ≡ self.now }
        ensures ordered { IsBook self.now }
        ensures fits { length self.now < 2 ^ 64 }
    {
        // A field that is read, so that the invariant is known.
        let _count = self.count;
        Entries {
            block: &[],
            rest: &self.blocks,
        }
    }
}

/// The entries of a book, in their order.
#[derive(Drop)]
pub struct Entries<'a> {
    block: &'a [Entry],
    rest: &'a [Vec<Entry>],
}

impl<'a> Model for Entries<'a> {
    ghost use Rattle.std.specs.Prelude.{List, ◌++◌};
    ghost use Rattle.redl_journal.specs.declared.entry.Entry.{Entry};
    ghost use Rattle.redl_join.specs.Blocks.{entries_in_blocks};

    ghost Value = { List Entry };

    ghost view = { λ entries. entries.block.now ++ entries_in_blocks entries.rest.now };
}

impl<'a> Iterator for Entries<'a> {
    type Item = &'a Entry;

    ghost next_gives = { YieldsFirstRef (λ entries. entries) };

    ghost remaining = { item_count (λ entries. entries) };

    fn next(&mut self) -> Option<&'a Entry> {
        while self.block.is_empty() {
            let (block, rest) = self.rest.split_first()?;
            self.block = block;
            self.rest = rest;
        }
        let (entry, others) = self.block.split_first()?;
        self.block = others;
        Some(entry)
    }
}
