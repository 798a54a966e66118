//! What a walk has found.

ghost use Rattle.std.specs.Prelude.{◌≡◌, OnOk};
ghost use Rattle.redl_tree.specs.Model.View.{kids_of, tag_of};
ghost use Rattle.redl_hidden_members.specs.Members.{begin};
ghost use Rattle.redl_hidden_members.specs.Walks.{Walk as Walked, is_content, is_found, noted, other_ended, owner_ended, tell, tell_all, waits};

use crate::around::Around;
use crate::heard::Heard;
use redl_hidden::changes_vanish;
use redl_tree::{Elem, Kind, Prop};
use std::alloc::{AllocError, Global};
use std::marker::Model;

/// Which revisions were found, which of them wait, and whether a hidden unit was met.
#[derive(Drop)]
pub(crate) struct Walk {
    pub(crate) hidden: Vec<bool>,
    pub(crate) waiting: Vec<u32>,
    pub(crate) heard: Heard,
}

impl Model for Walk {
    ghost use Rattle.redl_hidden_members.specs.Walks.{Walk as Walked};

    ghost Value = { Walked };

    ghost view = { λ w. record { hidden = w.hidden.items; waiting = w.waiting.items; any = w.heard.any } };
}

impl Walk {
    /// These were found.
    pub(crate) fn new(alloc: Global, hidden: Vec<bool>) -> Walk
        ensures { result ≡ begin hidden.items }
    {
        Walk {
            hidden,
            waiting: Vec::new(alloc),
            heard: Heard { any: false },
        }
    }

    /// What was found.
    pub(crate) fn into_hidden(self) -> Vec<bool>
        ensures { result.items ≡ self.hidden }
    {
        self.hidden
    }

    /// A member stands here, among the properties that an element holds. `Err` means out of memory, here and below.
    pub(crate) fn note(
        &mut self,
        at: Around,
        properties: &Elem,
        elem: &Elem,
    ) -> Result<(), AllocError>
        ensures { OnOk result (self.new ≡ noted at (kids_of properties.now) (tag_of elem.now) (kids_of elem.now) self.old) }
    {
        if is_found(at, properties, elem) {
            tell(elem.rev(), &mut self.hidden);
            return Ok(());
        }
        if waits(at, elem.kind()) {
            self.waiting.push(elem.rev())?;
        }
        Ok(())
    }

    /// The end of an element that holds nothing that waits: what was met before it, and in it.
    pub(crate) fn end(&mut self, before: bool, elem: &Elem)
        ensures { (outer : Walked) → outer.any ≡ before → self.new ≡ other_ended (tag_of elem.now) outer self.old }
    {
        if is_content(elem.kind()) && self.heard.any {
            tell(elem.rev(), &mut self.hidden);
        }
        self.heard.any = before || self.heard.any;
    }

    /// The end of a row, a cell, a table, a run or a paragraph, whose own end is hidden or not: what waited before it waits again.
    pub(crate) fn end_owner(&mut self, end: bool, before: bool, waiting: Vec<u32>)
        ensures { (outer : Walked) → outer.any ≡ before → outer.waiting ≡ waiting.items → self.new ≡ owner_ended end outer self.old }
    {
        let any = self.heard.any || end;
        if any {
            tell_all(&self.waiting, &mut self.hidden);
        }
        self.waiting = waiting;
        self.heard.any = before || any;
    }
}

// Notes that this revision was found.
fn tell(revision: u32, hidden: &mut Vec<bool>)
    ensures { hidden.new.items ≡ tell revision hidden.old.items }
{
    if revision == 0 {
        return;
    }
    let place = revision as usize - 1;
    if place < hidden.len() {
        hidden[place] = true;
    }
}

fn tell_all(revisions: &[u32], hidden: &mut Vec<bool>)
    ensures { hidden.new.items ≡ tell_all revisions.now hidden.old.items }
{
    for revision in revisions {
        tell(*revision, hidden);
    }
}

// Whether a member is found where it begins.
fn is_found(at: Around, properties: &Elem, elem: &Elem) -> bool
    ensures { result ≡ is_found at (kids_of properties.now) (kids_of elem.now) (tag_of elem.now).kind }
{
    match elem.kind() {
        Kind::Plain | Kind::Marker => false,
        Kind::Content(_) | Kind::Row(_) | Kind::Cell(_) => at.run,
        Kind::Mark(_) => at.run || at.in_mark,
        Kind::Change(Prop::Run) => at.run || at.in_mark || changes_vanish(properties, elem),
        Kind::Change(_) => at.run,
    }
}

// Whether a member holds all of its row, cell, run, paragraph or table.
fn waits(at: Around, kind: Kind) -> bool
    ensures { result ≡ waits at kind }
{
    match kind {
        Kind::Plain | Kind::Marker | Kind::Content(_) | Kind::Mark(_) => false,
        Kind::Row(_) | Kind::Cell(_) => true,
        Kind::Change(Prop::Run) => at.of_run,
        Kind::Change(Prop::Sect) => false,
        Kind::Change(_) => true,
    }
}

fn is_content(kind: Kind) -> bool
    ensures { result ≡ is_content kind }
{
    match kind {
        Kind::Content(_) => true,
        _ => false,
    }
}
