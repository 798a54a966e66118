//! The lines so far.

ghost use Rattle.std.specs.Prelude.{◌≡◌, true, IfOk, IsTrue, OnOk};
ghost use Rattle.std.specs.List.{list_any};
ghost use Rattle.redl_left.specs.declared.fact.Fact.TheVariants.{Name};
ghost use Rattle.redl_left.specs.Lines.{all_lines, no_lines, noted_in};
ghost use Rattle.redl_left.specs.Named.{is_value_of, named_in};
ghost use Rattle.redl_left.specs.Seen.{tables_of};

use crate::fact::{FACTS, Fact};
use crate::line::Line;
use crate::notes::note;
use std::alloc::{AllocError, Global};

// How many lines of names are looked at. Most documents have fewer authors.
const FEW: usize = 64;

// Whether one of the first lines tells a value.
fn tells(lines: &[Line], value: &[u8]) -> bool
    ensures { IsTrue result → list_any (is_value_of value.now) lines.now ≡ true }
{
    lines
        .iter()
        .take(FEW)
        .any(|line| line.value.as_bytes() == value)
}

/// What was found so far.
#[derive(Drop)]
pub(crate) struct Seen {
    /// The allocator of the lines.
    pub(crate) alloc: Global,
    /// The lines of each fact, in the order of the facts.
    pub(crate) tables: Vec<Vec<Line>>,
}

impl Seen {
    /// Of no find. `Err` means out of memory.
    pub(crate) fn none(alloc: Global) -> Result<Seen, AllocError>
        ensures { IfOk result (λ seen. tables_of seen ≡ no_lines) }
    {
        let mut tables = Vec::with_capacity(alloc, FACTS)?;
        while tables.len() < FACTS {
            tables.push(Vec::new(alloc))?;
        }
        Ok(Seen { alloc, tables })
    }

    /// Notes a find. `Err` means out of memory.
    pub(crate) fn note(&mut self, fact: Fact, part: &[u8], value: &[u8]) -> Result<(), AllocError>
        ensures { OnOk result (tables_of self.new ≡ noted_in (tables_of self.old) (record { fact = fact; part = part.now; value = value.now })) }
    {
        let alloc = self.alloc;
        match self.tables.get_mut(fact.number()) {
            Some(lines) => note(alloc, lines, fact, part, value),
            None => Ok(()),
        }
    }

    /// Whether one of the first lines of names tells this one.
    pub(crate) fn names(&self, value: &[u8]) -> bool
        ensures { IsTrue result → named_in (tables_of self.now) Name value.now ≡ true }
    {
        match self.tables.get(Fact::Name.number()) {
            Some(lines) => tells(lines, value),
            None => false,
        }
    }

    /// All lines. `Err` means out of memory.
    pub(crate) fn into_lines(self) -> Result<Vec<Line>, AllocError>
        ensures { IfOk result (λ lines. lines.items ≡ all_lines (tables_of self)) }
    {
        let mut all = Vec::new(self.alloc);
        for mut lines in self.tables {
            all.append(&mut lines)?;
        }
        Ok(all)
    }
}
