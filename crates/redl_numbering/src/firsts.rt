//! Rows by their names, of which the first holds.

ghost use Rattle.std.specs.Prelude.{◌≡◌, ℕ, List, Some, None, bytes_eq, IfOk, OnOk, if◌then◌else◌};
ghost use Rattle.redl_reading.specs.Steps.{or_else};
ghost use Rattle.redl_numbering.specs.Nums.{place_of};
ghost use Rattle.redl_numbering.specs.Known.{place_in, pushed};

use redl_io::Text;
use std::alloc::{AllocError, Global};
use std::collections::BTreeMap;

/// The places of rows by their names.
#[derive(Drop)]
pub(crate) struct Firsts<'t> {
    pub(crate) places: BTreeMap<&'t [u8], usize>,
}

/// A name that rows have.
pub(crate) trait Name<T> {
    ghost use Rattle.std.specs.Prelude.{List, ℕ, Option};

    ghost name: { T → Option (List ℕ) };

    /// That of a row.
    fn of(row: &T) -> &Option<Text>
        ensures { result.now ≡ name row.now };
}

impl<'t> Firsts<'t> {
    /// The place of the first row that has each of these names. `Err` means out of memory.
    pub(crate) fn of<T, N: Name<T>>(alloc: Global, rows: &'t [T]) -> Result<Firsts<'t>, AllocError>
        ensures { IfOk result (λ firsts. (name : List ℕ) → place_in firsts name ≡ place_of N.Name.name rows.now name) }
    {
        let mut firsts = Firsts {
            places: BTreeMap::new(alloc),
        };
        for (place, row) in rows.iter().enumerate() {
            firsts.add(N::of(row), place)?;
        }
        Ok(firsts)
    }

    // Adds a place, unless there is one with this name.
    fn add(&mut self, name: &'t Option<Text>, place: usize) -> Result<(), AllocError>
        ensures { OnOk result ((wanted : List ℕ) → place_in self.new wanted ≡ pushed name.now place wanted (place_in self.old wanted)) }
    {
        match name {
            Some(name) => self.add_name(name.as_bytes(), place),
            None => Ok(()),
        }
    }

    fn add_name(&mut self, name: &'t [u8], place: usize) -> Result<(), AllocError>
        ensures { OnOk result ((wanted : List ℕ) → place_in self.new wanted ≡ or_else (place_in self.old wanted) (if bytes_eq name.now wanted then Some place else None)) }
    {
        if self.places.get(name).is_some() {
            return Ok(());
        }
        self.places.insert(name, place)?;
        Ok(())
    }

    /// The place of the first row with this name.
    pub(crate) fn place(&self, name: &[u8]) -> Option<usize>
        ensures { result ≡ place_in self.now name.now }
    {
        self.places.get(name).copied()
    }
}
