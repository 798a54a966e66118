//! The places of each comment.

ghost use Rattle.std.specs.Prelude.{◌≡◌, ℕ, List, Some, bytes_eq, IfOk, OnOk, if◌then◌else◌};
ghost use Rattle.redl_commented.specs.Ranges.{found_in, noted, nothing_in, with_place};
ghost use Rattle.redl_commented.specs.Inside.Founds.{found_at};

use redl_spans::{Anchor, CommentPlace, Position};
use std::alloc::{AllocError, Global};
use std::collections::BTreeMap;

/// The places of a comment: the first of each, in the story of the first of all.
#[derive(Clone, Copy)]
pub(crate) struct Found {
    // How many units come before the story.
    pub(crate) story: usize,
    pub(crate) start: Option<Position>,
    pub(crate) end: Option<Position>,
    pub(crate) reference: Option<Position>,
}

impl Found {
    fn none(story: usize) -> Found
        ensures { result ≡ nothing_in story }
    {
        Found {
            story,
            start: None,
            end: None,
            reference: None,
        }
    }

    // With a place more in the same story.
    fn noted(self, anchor: Anchor, at: Position) -> Found
        ensures { result ≡ noted anchor at self }
    {
        match anchor {
            Anchor::Start => Found {
                start: self.start.or(Some(at)),
                ..self
            },
            Anchor::End => Found {
                end: self.end.or(Some(at)),
                ..self
            },
            Anchor::Reference => Found {
                reference: self.reference.or(Some(at)),
                ..self
            },
        }
    }
}

fn with_place(found: Option<Found>, place: &CommentPlace) -> Found
    ensures { result ≡ with_place found place.now }
{
    match found {
        None => Found::none(place.story).noted(place.anchor, place.at),
        Some(found) => {
            if place.story == found.story {
                return found.noted(place.anchor, place.at);
            }
            found
        }
    }
}

/// The places of the comments of a package, by their ids.
#[derive(Drop)]
pub(crate) struct Founds<'p> {
    pub(crate) by_id: BTreeMap<&'p [u8], Found>,
}

impl<'p> Founds<'p> {
    /// Those among these places. `Err` means out of memory, here and below.
    pub(crate) fn of(alloc: Global, places: &'p [CommentPlace]) -> Result<Founds<'p>, AllocError>
        ensures { IfOk result (λ founds. (id : List ℕ) → found_at founds id ≡ found_in places.now id) }
    {
        let mut founds = Founds {
            by_id: BTreeMap::new(alloc),
        };
        for place in places {
            founds.add(place)?;
        }
        Ok(founds)
    }

    fn add(&mut self, place: &'p CommentPlace) -> Result<(), AllocError>
        ensures { OnOk result ((id : List ℕ) → found_at self.new id ≡ (if bytes_eq place.now.id id then Some (with_place (found_at self.old id) place.now) else found_at self.old id)) }
    {
        let id = place.id.as_bytes();
        let found = with_place(self.at(id), place);
        self.by_id.insert(id, found)?;
        Ok(())
    }

    /// The places of the comment with this id.
    pub(crate) fn at(&self, id: &[u8]) -> Option<Found>
        ensures { result ≡ found_at self.now id.now }
    {
        self.by_id.get(id).copied()
    }
}
