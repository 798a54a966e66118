//! Styles by their ids, of which the first counts.

ghost use Rattle.std.specs.Prelude.{◌≡◌, ℕ, List, Some, None, bytes_eq, IfOk, OnOk, if◌then◌else◌};
ghost use Rattle.std.specs.Option.{option_map};
ghost use Rattle.redl_reading.specs.Steps.{or_else};
ghost use Rattle.redl_hidden.specs.Styles.{place_of};
ghost use Rattle.redl_hidden.specs.Inside.Known.{place_in, pushed};

use crate::style::Style;
use std::alloc::{AllocError, Global};
use std::collections::BTreeMap;

/// The places of styles by their ids.
#[derive(Drop)]
pub(crate) struct Places<'a> {
    pub(crate) by_id: BTreeMap<&'a [u8], usize>,
}

impl<'a> Places<'a> {
    /// The place of the first of these styles that has each id. `Err` means out of memory, here and below.
    pub(crate) fn of(alloc: Global, styles: &[Style<'a>]) -> Result<Places<'a>, AllocError>
        ensures { IfOk result (λ places. (id : List ℕ) → place_in places id ≡ place_of styles.now id) }
    {
        let mut places = Places {
            by_id: BTreeMap::new(alloc),
        };
        for (place, style) in styles.iter().enumerate() {
            places.add(style.id(), place)?;
        }
        Ok(places)
    }

    // Adds a place, unless there is one with this id.
    fn add(&mut self, id: Option<&'a [u8]>, place: usize) -> Result<(), AllocError>
        ensures { OnOk result ((wanted : List ℕ) → place_in self.new wanted ≡ pushed (option_map (λ id. id.now) id.entry) place wanted (place_in self.old wanted)) }
    {
        match id {
            Some(id) => self.add_id(id, place),
            None => Ok(()),
        }
    }

    fn add_id(&mut self, id: &'a [u8], place: usize) -> Result<(), AllocError>
        ensures { OnOk result ((wanted : List ℕ) → place_in self.new wanted ≡ or_else (place_in self.old wanted) (if bytes_eq id.now wanted then Some place else None)) }
    {
        if self.by_id.get(id).is_some() {
            return Ok(());
        }
        self.by_id.insert(id, place)?;
        Ok(())
    }

    /// The place of the first style with this id.
    pub(crate) fn place(&self, id: &[u8]) -> Option<usize>
        ensures { result ≡ place_in self.now id.now }
    {
        self.by_id.get(id).copied()
    }
}
