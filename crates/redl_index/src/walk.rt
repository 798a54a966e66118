//! How far a walk of a story is.

ghost use Rattle.std.specs.Prelude.{◌≡◌, ◌+◌, ◌^◌, ◌<◌};
ghost use Rattle.redl_tree.specs.Model.View.{tag_of};
ghost use Rattle.redl_index.specs.Inside.Sights.{next_end, ends_after};

use redl_tree::{Elem, Word, is_word};

/// How far a walk of a story is.
#[derive(Clone, Copy)]
pub(crate) struct Walk<'a> {
    /// The position of the next tag.
    pub(crate) at: u64,
    /// The positions at which the paragraphs end that start from there on, in the order of their start tags.
    pub(crate) ends: &'a [u64],
}

impl<'a> Walk<'a> {
    /// Behind the start tag of a story's root, whose paragraphs end there.
    pub(crate) fn begin(ends: &'a [u64]) -> Walk<'a>
        ensures at { result.at ≡ 1 }
        ensures ends { result.ends.now ≡ ends.now }
    {
        Walk { at: 1, ends }
    }

    /// Goes behind an element's start tag, and gives the end of the nearest paragraph for its kids, where `other` is that for
    /// the element itself.
    #[inline(always)]
    pub(crate) fn enter(&mut self, elem: &Elem, other: u64) -> u64
        requires fits { self.old.at + 1 < 2 ^ 64 }
        ensures end { result ≡ next_end (tag_of elem.now) self.old.ends.now other }
        ensures at { self.new.at ≡ self.old.at + 1 }
        ensures ends { self.new.ends.now ≡ ends_after (tag_of elem.now) self.old.ends.now }
    {
        self.at += 1;
        if !is_word(elem, Word::P) {
            return other;
        }
        match self.ends {
            [end, rest @ ..] => {
                let end = *end;
                self.ends = rest;
                end
            }
            [] => 0,
        }
    }

    /// Goes behind an element's end tag.
    #[inline(always)]
    pub(crate) fn leave(&mut self)
        requires fits { self.old.at + 1 < 2 ^ 64 }
        ensures at { self.new.at ≡ self.old.at + 1 }
        ensures ends { self.new.ends.now ≡ self.old.ends.now }
    {
        self.at += 1;
    }

    /// Goes behind this many elements, none of which is a paragraph.
    #[inline(always)]
    pub(crate) fn pass(&mut self, elems: u32)
        requires fits { self.old.at + (elems + elems) < 2 ^ 64 }
        ensures at { self.new.at ≡ self.old.at + (elems + elems) }
        ensures ends { self.new.ends.now ≡ self.old.ends.now }
    {
        self.at = behind(self.at, elems);
    }
}

/// The position of the next tag behind this many elements, each of which has two.
#[inline(always)]
pub(crate) fn behind(at: u64, elems: u32) -> u64
    requires fits { at + (elems + elems) < 2 ^ 64 }
    ensures { result ≡ at + (elems + elems) }
{
    at + 2 * u64::from(elems)
}
