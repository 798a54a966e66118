//! The markers of one kind by their ids or by their names.

ghost use Rattle.std.specs.Prelude.{◌≡◌, ◌^◌, ◌<◌, List, ℕ, length, IfOk, OnOk, Some, option_map};
ghost use Rattle.redl_moves.specs.Marks.{marking_of, markings, edge_of};
ghost use Rattle.redl_moves.specs.Keys.{key_of, has_key};
ghost use Rattle.redl_moves.specs.Places.{only_place};
ghost use Rattle.redl_moves.specs.Inside.MarkerIndexes.{at_key, noted, noted_key, one_place};

use crate::marker::{Edge, Marker};
use indexmap::IndexMap;
use std::alloc::{AllocError, Global};

/// What markers are looked up by.
#[derive(Clone, Copy, Debug, PartialEq, Eq)]
pub(crate) enum Key {
    /// The id, which a start and its end share.
    Id,
    /// The name, which the two ranges of a move share.
    Name,
}

/// For each key the place of the only marker that has it, or `None` where several have it.
#[derive(Drop)]
pub(crate) struct MarkerIndex<'a> {
    places: IndexMap<&'a [u8], Option<u32>>,
}

impl Key {
    // The key of a marker of this kind; of another kind it has none.
    fn of<'a>(self, edge: Edge, mark: &'a Marker) -> Option<&'a [u8]>
        ensures { option_map (λ key. key.now) result ≡ key_of self (edge_of edge) (marking_of mark.now) }
    {
        if mark.edge != edge {
            return None;
        }
        match (self, &mark.name) {
            (Key::Id, _) => Some(mark.id.as_bytes()),
            (Key::Name, Some(name)) => Some(name.as_bytes()),
            (Key::Name, None) => None,
        }
    }
}

impl<'a> MarkerIndex<'a> {
    /// The markers of this kind, by this key. `Err` means out of memory.
    pub(crate) fn of(
        alloc: Global,
        marks: &'a [Marker],
        edge: Edge,
        by: Key,
    ) -> Result<MarkerIndex<'a>, AllocError>
        requires few { length marks.now < 2 ^ 32 }
        ensures { IfOk result (λ index. (key : List ℕ) → one_place (at_key index key) ≡ only_place (has_key by (edge_of edge) key) (markings marks.now)) }
    {
        let mut index = MarkerIndex {
            places: IndexMap::new(alloc),
        };
        for place in 0..marks.len() {
            if let Some(key) = by.of(edge, &marks[place]) {
                index.note(key, place as u32)?;
            }
        }
        Ok(index)
    }

    // One more marker has this key. `Err` means out of memory.
    fn note(&mut self, key: &'a [u8], place: u32) -> Result<(), AllocError>
        ensures { OnOk result ((other : List ℕ) → at_key self.new other ≡ noted_key key.now other place (at_key self.old other)) }
    {
        let only = self.only_with(key, place);
        self.places.insert(key, only)?;
        Ok(())
    }

    // The place of the only marker with this key, once this place has it too.
    fn only_with(&self, key: &'a [u8], place: u32) -> Option<u32>
        ensures { Some result ≡ noted place (at_key self.now key.now) }
    {
        match self.places.get(key) {
            Some(_) => None,
            None => Some(place),
        }
    }

    /// The place of the only marker with this key.
    pub(crate) fn only(&self, key: &'a [u8]) -> Option<u32>
        ensures { result ≡ one_place (at_key self.now key.now) }
    {
        match self.places.get(key) {
            Some(place) => *place,
            None => None,
        }
    }
}
