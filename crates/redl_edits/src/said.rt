//! What changes of properties change, by the numbers of their revisions.

ghost use Rattle.std.specs.Prelude.{◌≡◌, ◌+◌, ◌<◌, IfOk, length};
ghost use Rattle.std.specs.Option.{option_copied};
ghost use Rattle.redl_edits.specs.Formats.{said_of};
ghost use Rattle.redl_edits.specs.Inside.Said.{IsFound, said_in};

use crate::formats::Format;
use redl_changed::ChangedSaid;
use std::alloc::{AllocError, Global};

/// What each change changes.
#[derive(Drop)]
pub(crate) struct Said {
    /// The changes.
    pub(crate) formats: Vec<Format>,
    /// The place of the first one with each number, and behind all where there is none.
    pub(crate) places: Vec<usize>,
}

impl Said {
    /// Of these changes, whose numbers are at most this one. `Err` means out of memory.
    pub(crate) fn of(alloc: Global, formats: Vec<Format>, last: u32) -> Result<Said, AllocError>
        ensures formats { IfOk result (λ said. said.formats.items ≡ formats.items) }
        ensures found { IfOk result (λ said. IsFound said (last + 1)) }
    {
        let count = last as usize + 1;
        let mut places = vec![in alloc; formats.len(); count]?;
        for place in (0..formats.len()).rev() {
            let number = formats[place].revision as usize;
            if number < count {
                places[number] = place;
            }
        }
        Ok(Said { formats, places })
    }

    /// What the revision with this number changes.
    pub(crate) fn get(&self, number: u32) -> Option<&ChangedSaid>
        requires found { IsFound self.now (length self.now.places.items) }
        requires bound { number < length self.now.places.items }
        ensures { said_in (option_copied result) ≡ said_of self.now.formats.items number }
    {
        let place = self.places[number as usize];
        let format = self.formats.get(place)?;
        Some(&format.said)
    }
}
