//! The entries that a call refused, each with its cause.

ghost use Rattle.std.specs.Prelude.{◌≡◌, [], OnOk};
ghost use Rattle.redl_lines.specs.Refused.{is_empty as has_none, with_refusal, with_refusals};

use redl_journal::Entry;
use redl_session::{AdmitError, Refusal};
use std::alloc::{AllocError, Global};
use std::collections::BTreeMap;
use std::marker::Model;

/// Refused entries, each with its cause. Contracts see them as the list of both, in the order of the entries, each once.
#[derive(Drop)]
pub struct RefusedEntries {
    causes: BTreeMap<Entry, AdmitError>,
}

impl Model for RefusedEntries {
    ghost use Rattle.std.specs.Prelude.{List};
    ghost use Rattle.redl_journal.specs.declared.entry.Entry.{Entry};
    ghost use Rattle.redl_session.specs.declared.refusal.AdmitError.{AdmitError};

    ghost Value = { List (Entry × AdmitError) };

    ghost view = { λ refused. refused.causes.entries };
}

impl RefusedEntries {
    /// No entry.
    pub fn new(alloc: Global) -> RefusedEntries
        ensures { result ≡ [] }
    {
        RefusedEntries {
            causes: BTreeMap::new(alloc),
        }
    }

    /// Adds a refused entry. If it is there, it has the new cause. `Err` means out of memory.
    pub fn add(&mut self, refusal: Refusal) -> Result<(), AllocError>
        ensures { OnOk result (self.new ≡ with_refusal self.old refusal) }
    {
        self.causes.insert(refusal.entry, refusal.why)?;
        Ok(())
    }

    /// Adds all of these, one after another. `Err` means out of memory, and some of them may be there.
    pub fn add_all(&mut self, refusals: Vec<Refusal>) -> Result<(), AllocError>
        ensures { OnOk result (self.new ≡ with_refusals self.old refusals.items) }
    {
        for refusal in refusals {
            self.add(refusal)?;
        }
        Ok(())
    }

    /// Whether no entry was refused.
    pub fn is_empty(&self) -> bool
        ensures { result ≡ has_none self.now }
    {
        self.causes.is_empty()
    }

    /// The entries with their causes.
    pub(crate) fn causes(&self) -> &BTreeMap<Entry, AdmitError>
        ensures { result.now.entries ≡ self.now }
    {
        &self.causes
    }
}
