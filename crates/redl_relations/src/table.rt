//! The parts of a package by their names, as a table.

ghost use Rattle.std.specs.Prelude.{◌≡◌, ℕ, List, Some, None, bytes_eq, IfOk, OnOk, if◌then◌else◌};
ghost use Rattle.redl_reading.specs.Steps.{or_else};
ghost use Rattle.redl_relations.specs.Relations.{has_part_name, part_named};
ghost use Rattle.redl_relations.specs.Inside.Parts.{is_at};
ghost use Rattle.redl_relations.specs.Inside.Tables.{number_at};

use redl_opc::Package;
use std::alloc::{AllocError, Global};
use std::collections::BTreeMap;

/// Parts by their names. The first of those with one name counts.
#[derive(Drop)]
pub(crate) struct Names<'n> {
    pub(crate) places: BTreeMap<&'n [u8], u32>,
}

impl<'n> Names<'n> {
    /// Those of a package. `Err` means out of memory.
    pub(crate) fn of(alloc: Global, pkg: &'n Package<'_>) -> Result<Names<'n>, AllocError>
        ensures { IfOk result (λ names. (name : List ℕ) → number_at names name ≡ part_named pkg.now name) }
    {
        let mut names = Names {
            places: BTreeMap::new(alloc),
        };
        for part in 0..pkg.parts() {
            names.add(pkg, part)?;
        }
        Ok(names)
    }

    // Adds the name of a part, unless one before it has the same. `Err` means out of memory.
    fn add(&mut self, pkg: &'n Package<'_>, part: u32) -> Result<(), AllocError>
        ensures { OnOk result ((name : List ℕ) → number_at self.new name ≡ or_else (number_at self.old name) (if is_at (has_part_name name) pkg.now part then Some part else None)) }
    {
        match pkg.part_name(part) {
            Some(name) => self.add_name(name, part),
            None => Ok(()),
        }
    }

    fn add_name(&mut self, name: &'n [u8], part: u32) -> Result<(), AllocError>
        ensures { OnOk result ((other : List ℕ) → number_at self.new other ≡ or_else (number_at self.old other) (if bytes_eq name.now other then Some part else None)) }
    {
        if self.places.get(name).is_some() {
            return Ok(());
        }
        self.places.insert(name, part)?;
        Ok(())
    }

    /// The part with this name.
    pub(crate) fn part(&self, name: &[u8]) -> Option<u32>
        ensures { result ≡ number_at self.now name.now }
    {
        self.places.get(name).copied()
    }
}
