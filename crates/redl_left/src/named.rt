//! The values that elements name, as ids and authors.

ghost use Rattle.std.specs.Prelude.{◌≡◌, ◌∷◌, ℕ, List, false, length, map, IfOk, OnOk, IsTrue};
ghost use Rattle.std.specs.List.{list_any};
ghost use Rattle.redl_left.specs.declared.fact.Fact.{Fact};
ghost use Rattle.redl_left.specs.Named.{front_byte, has_in, has_value, is_value_of, added, named_in, named_of};

use crate::fact::Fact;
use crate::line::Line;
use std::alloc::{AllocError, Global};
use std::collections::BTreeMap;

/// What names comments, notes and authors.
#[derive(Drop)]
pub(crate) struct Named<'a> {
    /// The values that are named for each fact, in the order of the facts.
    pub(crate) tables: Vec<Values<'a>>,
}

/// Different values.
#[derive(Drop)]
pub(crate) struct Values<'a> {
    /// Those that begin with a byte are the keys of the map at its place; the empty one is in the first map. No map: no value.
    pub(crate) by_front: Vec<BTreeMap<&'a [u8], ()>>,
}

// How many maps there are where there is a value: one for each byte.
const FRONTS: usize = 256;

// The byte with which a value begins, or 0.
fn front_byte(value: &[u8]) -> u8
    ensures { result ≡ front_byte value.now }
{
    match value.split_first() {
        Some((first, _)) => *first,
        None => 0,
    }
}

// No keys.
fn no_keys<'a>(alloc: Global) -> BTreeMap<&'a [u8], ()>
    ensures { (other : List ℕ) → has_in other result ≡ false }
{
    BTreeMap::new(alloc)
}

// Whether a value is a key.
fn is_in(values: &BTreeMap<&[u8], ()>, value: &[u8]) -> bool
    ensures { result ≡ has_in value.now values.now }
{
    values.get(value).is_some()
}

// One more key. `Err` means out of memory.
fn put<'a>(values: &mut BTreeMap<&'a [u8], ()>, value: &'a [u8]) -> Result<(), AllocError>
    ensures { OnOk result ((other : List ℕ) → has_in other values.new ≡ added value.now other (has_in other values.old)) }
{
    values.insert(value, ())?;
    Ok(())
}

impl<'a> Values<'a> {
    // None. `Err` means out of memory.
    fn none(alloc: Global) -> Result<Values<'a>, AllocError>
        ensures maps { IfOk result (λ values. length values.by_front.items ≡ FRONTS) }
        ensures none { IfOk result (λ values. (other : List ℕ) → has_value values other ≡ false) }
    {
        let mut by_front = Vec::with_capacity(alloc, FRONTS)?;
        while by_front.len() < FRONTS {
            by_front.push(no_keys(alloc))?;
        }
        Ok(Values { by_front })
    }

    // One more value. `Err` means out of memory.
    fn add(&mut self, value: &'a [u8]) -> Result<(), AllocError>
        requires { length self.now.by_front.items ≡ FRONTS }
        ensures maps { length self.new.by_front.items ≡ length self.old.by_front.items }
        ensures added { OnOk result ((other : List ℕ) → has_value self.new other ≡ added value.now other (has_value self.old other)) }
    {
        match self.by_front.get_mut(front_byte(value) as usize) {
            Some(values) => put(values, value),
            None => Ok(()),
        }
    }

    // Those of lines. `Err` means out of memory.
    fn of(alloc: Global, lines: &'a [Line]) -> Result<Values<'a>, AllocError>
        ensures { IfOk result (λ values. (other : List ℕ) → has_value values other ≡ list_any (is_value_of other) lines.now) }
    {
        if lines.is_empty() {
            return Ok(Values {
                by_front: Vec::new(alloc),
            });
        }
        let mut values = Values::none(alloc)?;
        for line in lines {
            values.add(line.value.as_bytes())?;
        }
        Ok(values)
    }

    fn has(&self, value: &[u8]) -> bool
        ensures { result ≡ has_value self.now value.now }
    {
        match self.by_front.get(front_byte(value) as usize) {
            Some(values) => is_in(values, value),
            None => false,
        }
    }

    // Whether there are none.
    fn is_empty(&self) -> bool
        ensures { IsTrue result → (value : List ℕ) → has_value self.now value ≡ false }
    {
        self.by_front.is_empty()
    }

    // Whether it is plain that none begins with this byte.
    fn none_begins(&self, first: u8) -> bool
        ensures { IsTrue result → (rest : List ℕ) → has_value self.now (first ∷ rest) ≡ false }
    {
        match self.by_front.get(first as usize) {
            Some(values) => values.is_empty(),
            None => true,
        }
    }
}

impl<'a> Named<'a> {
    /// None.
    pub(crate) fn none(alloc: Global) -> Named<'a>
        ensures { (fact : Fact) (value : List ℕ) → named_of result fact value ≡ false }
    {
        Named {
            tables: Vec::new(alloc),
        }
    }

    /// Those of the lines of each fact. `Err` means out of memory.
    pub(crate) fn of(alloc: Global, tables: &'a [Vec<Line>]) -> Result<Named<'a>, AllocError>
        ensures { IfOk result (λ named. (fact : Fact) (value : List ℕ) → named_of named fact value ≡ named_in (map (λ lines. lines.items) tables.now) fact value) }
    {
        let mut all = Vec::new(alloc);
        for lines in tables {
            all.push(Values::of(alloc, lines)?)?;
        }
        Ok(Named { tables: all })
    }

    /// Whether no value is named for a fact.
    pub(crate) fn names_nothing(&self, fact: Fact) -> bool
        ensures { IsTrue result → (value : List ℕ) → named_of self.now fact value ≡ false }
    {
        match self.tables.get(fact.number()) {
            Some(values) => values.is_empty(),
            None => true,
        }
    }

    /// Whether it is plain that no value with this first byte is named for a fact.
    pub(crate) fn none_begins(&self, fact: Fact, first: u8) -> bool
        ensures { IsTrue result → (rest : List ℕ) → named_of self.now fact (first ∷ rest) ≡ false }
    {
        match self.tables.get(fact.number()) {
            Some(values) => values.none_begins(first),
            None => true,
        }
    }

    /// Whether a value is named for a fact.
    pub(crate) fn has(&self, fact: Fact, value: &[u8]) -> bool
        ensures { result ≡ named_of self.now fact value.now }
    {
        match self.tables.get(fact.number()) {
            Some(values) => values.has(value),
            None => false,
        }
    }
}
