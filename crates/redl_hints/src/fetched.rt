//! A shelf that remembers what hints go by: how the last text that it gave begins and ends, the reviewers of the journals among all
//! texts, and the authors of packages where a call locks some.

ghost use Rattle.std.specs.Prelude.{◌≡◌};

use crate::authors::{Authors, locks_an_author};
use crate::reviewers::Reviewers;
use redl_io::{Shelf, ShelfError, Text};
use std::alloc::{AllocError, Global};

// How many bytes of a text are remembered.
const MOST: usize = 1 << 16;

/// Fetches all texts from another shelf, and remembers of them what hints go by. So a hint on a file needs no second look at it, which
/// a pipe does not allow.
#[derive(Drop)]
pub struct Fetched<F> {
    shelf: F,
    remembered: Remembered,
}

/// What is remembered of the texts of a call: how the last one begins and ends, who the reviewers are of journals, as far as their first
/// 65,536 bytes name them, and where the call locks some, who the authors are of packages.
#[derive(Drop)]
pub struct Remembered {
    pub(crate) text: Ends,
    pub(crate) reviewers: Reviewers,
    pub(crate) authors: Authors,
    looks_for_authors: bool,
}

/// How a text begins and ends.
#[derive(Drop)]
pub(crate) struct Ends {
    front: Vec<u8>,
    length: usize,
    last: Option<u8>,
}

impl Ends {
    /// Its first 65,536 bytes, or fewer where memory ran out.
    pub fn front(&self) -> &[u8] {
        &self.front
    }

    /// Whether it is empty.
    pub fn is_empty(&self) -> bool {
        self.length == 0
    }

    /// Whether its front is all of it.
    pub fn is_whole(&self) -> bool {
        self.front.len() == self.length
    }

    /// Whether its last byte ends a line.
    pub fn ends_a_line(&self) -> bool {
        self.last == Some(b'\n')
    }

    /// Whether its last byte ends a tag or a line.
    pub fn ends_a_tag(&self) -> bool {
        self.last == Some(b'>') || self.ends_a_line()
    }

    fn note(&mut self, bytes: &[u8]) {
        self.front.clear();
        self.length = bytes.len();
        self.last = bytes.last().copied();
        // What is remembered serves hints alone, so it may be less where memory runs out.
        let _ = self
            .front
            .extend_from_slice(&bytes[..MOST.min(bytes.len())]);
    }
}

impl Remembered {
    fn new(alloc: Global) -> Remembered {
        let text = Ends {
            front: Vec::new(alloc),
            length: 0,
            last: None,
        };
        Remembered {
            text,
            reviewers: Reviewers::new(alloc),
            authors: Authors::new(alloc),
            looks_for_authors: false,
        }
    }

    // Remembers a text. `Err` means out of memory, and then less is remembered.
    fn note(&mut self, alloc: Global, bytes: &[u8]) -> Result<(), AllocError> {
        self.text.note(bytes);
        if self.looks_for_authors {
            self.authors.note(alloc, bytes)?;
        }
        self.reviewers.note(alloc, self.text.front())
    }
}

impl<F: Shelf> Fetched<F> {
    /// A shelf before this one, which remembers an empty text. It takes no memory.
    pub fn new(alloc: Global, shelf: F) -> Fetched<F> {
        Fetched {
            shelf,
            remembered: Remembered::new(alloc),
        }
    }

    /// Looks for authors too in what is fetched from now on, where these words of a call lock one.
    pub fn prepare(&mut self, words: &[Text]) {
        self.remembered.looks_for_authors = locks_an_author(words);
    }

    /// What is remembered of the texts that were fetched.
    pub fn remembered(&self) -> &Remembered {
        &self.remembered
    }
}

impl<F: Shelf> Shelf for Fetched<F> {
    ghost told = { λ fetched. F.told fetched.shelf };

    ghost faults = { λ fetched. F.faults fetched.shelf };

    ghost asked = { λ fetched. F.asked fetched.shelf };

    fn fetch(&mut self, alloc: Global, name: &str, cap: usize) -> Result<Vec<u8>, ShelfError> {
        let fetched = self.shelf.fetch(alloc, name, cap);
        if let Ok(bytes) = &fetched {
            // What is remembered serves hints alone, so it may be less where memory runs out.
            let _ = self.remembered.note(alloc, bytes);
        }
        fetched
    }
}
