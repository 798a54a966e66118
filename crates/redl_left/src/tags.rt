//! Tags that were read before in kept texts, and what each was found to be. Most tags of a document are like one before.

ghost use Rattle.std.specs.Prelude.{IfOk, IfSome};
ghost use Rattle.redl_left.specs.Finds.{Table};
ghost use Rattle.redl_left.specs.Known.{AreKnown};
ghost use Rattle.redl_left.specs.Pieces.{BeginsKnown, IsKnown};

use crate::fact::Fact;
use redl_reading::skip;
use std::alloc::{AllocError, Global};

// How many tags are kept.
const PLACES: usize = 256;

/// A tag, and what it is found to be.
#[derive(Clone, Copy)]
pub(crate) struct KnownTag<'t> {
    /// From its `<` to its `>`.
    pub(crate) text: &'t [u8],
    /// The fact, of which nothing more is told. `None`: no find.
    pub(crate) fact: Option<Fact>,
}

/// Some tags of which it is known what they are found to be.
#[derive(Drop)]
pub(crate) struct Known<'t> {
    /// Each at the place that its first letters give.
    pub(crate) tags: Vec<Option<KnownTag<'t>>>,
}

// The place of the tag with which bytes begin, by the letters where a name of W begins.
fn place(bytes: &[u8]) -> usize {
    match bytes {
        [_, _, _, a, b, c, ..] if *b >= b'A' => (*a ^ (*b << 1) ^ (*c << 2)) as usize,
        // (a name of one letter, and what ends it)
        [_, _, _, a, b, ..] => (*a ^ (*b << 1)) as usize,
        _ => 0,
    }
}

impl<'t> Known<'t> {
    /// No tags. `Err` means out of memory.
    pub(crate) fn none(alloc: Global) -> Result<Known<'t>, AllocError>
        ensures { (table : Table) → IfOk result (λ known. AreKnown table known) }
    {
        let mut tags = Vec::with_capacity(alloc, PLACES)?;
        while tags.len() < PLACES {
            tags.push(None)?;
        }
        Ok(Known { tags })
    }

    // The tag that is kept at a place.
    fn at(&self, place: usize) -> Option<KnownTag<'t>>
        ensures { (table : Table) → AreKnown table self.now → IfSome result (λ tag. IsKnown table tag.text.now tag.fact) }
    {
        match self.tags.get(place) {
            Some(kept) => *kept,
            None => None,
        }
    }

    /// What the tag is found to be with which bytes begin, and the bytes after it, if it is known.
    pub(crate) fn find<'b>(&self, bytes: &'b [u8]) -> Option<(Option<Fact>, &'b [u8])>
        ensures { (table : Table) → AreKnown table self.now → IfSome result (λ x. BeginsKnown table bytes.now x.0 x.1.now) }
    {
        let tag = self.at(place(bytes))?;
        let rest = skip(bytes, tag.text)?;
        Some((tag.fact, rest))
    }

    /// Keeps a tag, in place of one that is like it.
    pub(crate) fn keep(&mut self, tag: KnownTag<'t>)
        ensures { (table : Table) → AreKnown table self.old → IsKnown table tag.entry.text.now tag.entry.fact → AreKnown table self.new }
    {
        if let Some(kept) = self.tags.get_mut(place(tag.text)) {
            *kept = Some(tag);
        }
    }
}
