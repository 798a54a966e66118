//! Says that are set in all stories: first all leaves are made anew, then they are put in their places.

ghost use Rattle.std.specs.Prelude.{◌≡◌, ◌≤◌, ◌+◌, ℕ, List, [], Bool, true, All, length, map, IfOk, OnOk, OnErr, IsOk};
ghost use Rattle.std.specs.List.Sorted.{IsNonDecreasingBy};
ghost use Rattle.redl_editor.specs.Changes.{setting_of, is_changed, former_of, differ};
ghost use Rattle.redl_editor.specs.Costs.{AreCounted, parts_cost};
ghost use Rattle.redl_editor.specs.Holdings.{is_touched};
ghost use Rattle.redl_editor.specs.Inside.Makes.{all_made_count};
ghost use Rattle.redl_editor.specs.Kept.{AreKept, AreReady, AreUnheld, AreChanges, AreMadeFor};
ghost use Rattle.redl_tree.specs.Leaves.Settings.{set_each};
ghost use Rattle.redl_tree.specs.Model.View.{Element};
ghost use Rattle.redl_editor.specs.declared.table.Table.{Table as TableModel};
ghost use Rattle.redl_tree.specs.declared.kinds.Say.{Say as SayModel};

use crate::changing::{Change, changed, former_says, put_says};
use crate::story::Story;
use crate::table::{Table, make_touched};
use redl_leaves::{Made, set_story};
use redl_resolve::Steps;
use redl_tree::Say;
use std::alloc::{AllocError, Global};
use std::sync::ledger::Ledger;

/// Sets these says, one after the other, and makes each leaf anew, once, that holds a member or a marker of a revision of which
/// something else is said then. `Err` means out of memory, and everything is as it was.
pub(crate) fn set_all<'a, L: Ledger>(
    alloc: Global,
    stories: &mut [Story<'a>],
    tables: &[Table],
    says: &mut [Say],
    changes: &[Change],
    steps: &mut Steps<L>,
) -> Result<(), AllocError>
    requires rises { All (λ table. IsNonDecreasingBy (λ one. one.rev) table.held.items) tables.now }
    requires as_many { length tables.now ≡ length stories.old }
    ensures says { OnOk result (says.new ≡ set_each says.old (map setting_of changes.now)) }
    ensures kept { OnOk result ((parts : List Element) → AreUnheld (is_changed says.old (set_each says.old (map setting_of changes.now))) parts
        → AreKept says.old parts stories.old tables.now → AreKept says.new parts stories.new tables.now) }
    ensures said { OnErr result (says.new ≡ says.old) }
    ensures untouched { OnErr result (stories.new ≡ stories.old) }
    ensures own { former_of says.old (map setting_of changes.now) ≡ [] → IsOk result }
    ensures steps { (parts : List Element) → AreKept says.old parts stories.old tables.now
        → steps.new ≤ steps.old + parts_cost (is_changed says.old (set_each says.old (map setting_of changes.now))) parts }
    ensures counted { OnOk result ((parts : List Element) → AreUnheld (is_changed says.old says.new) parts
        → AreKept says.old parts stories.old tables.now → AreCounted (is_changed says.old says.new) says.new steps.old steps.new parts) }
{
    let former = former_says(alloc, says, changes)?;
    if former.is_empty() {
        return Ok(());
    }
    put_says(says, changes);
    match make_changed(alloc, stories, tables, &former, says, steps) {
        Ok(all) => {
            set_stories(stories, says, all);
            Ok(())
        }
        Err(error) => {
            put_says(says, &former);
            Err(error)
        }
    }
}

// The passes of the leaves of all revisions of which something else is said now than these former says.
fn make_changed<'w, 'a, L: Ledger>(
    alloc: Global,
    stories: &[Story<'a>],
    tables: &'w [Table],
    former: &[Change],
    says: &[Say],
    steps: &mut Steps<L>,
) -> Result<Vec<Vec<Made<'w, 'a>>>, AllocError>
    requires rises { All (λ table. IsNonDecreasingBy (λ one. one.rev) table.held.items) tables.now }
    requires as_many { length tables.now ≡ length stories.now }
    ensures made { IfOk result (λ all. AreMadeFor (map setting_of former.now) says.now stories.now tables.now all.items) }
    ensures steps { (parts : List Element) → (before : List SayModel) → AreKept before parts stories.now tables.now
        → (is_set : ℕ → Bool) → ((rev : ℕ) → differ says.now (map setting_of former.now) rev ≡ true → is_set rev ≡ true)
        → steps.new ≤ steps.old + parts_cost is_set parts }
    ensures counted { IfOk result (λ all. steps.old + all_made_count all.items ≤ steps.new) }
{
    let revs = changed(alloc, says, former)?;
    make_stories(alloc, stories, tables, &revs, says, steps)
}

// The passes, under new says, of the leaves that hold a member or a marker of one of these revisions, story by story. The stories
// stay as they are. `Err` means out of memory.
fn make_stories<'w, 'a, L: Ledger>(
    alloc: Global,
    stories: &[Story<'a>],
    tables: &'w [Table],
    revs: &[u32],
    says: &[Say],
    steps: &mut Steps<L>,
) -> Result<Vec<Vec<Made<'w, 'a>>>, AllocError>
    requires rises { All (λ table. IsNonDecreasingBy (λ one. one.rev) table.held.items) tables.now }
    requires as_many { length tables.now ≡ length stories.now }
    ensures ready { IfOk result (λ all. AreReady revs.now says.now stories.now tables.now all.items) }
    ensures count { IfOk result (λ all. length all.items ≡ length stories.now) }
    ensures steps { (parts : List Element) → (before : List SayModel) → AreKept before parts stories.now tables.now
        → (is_set : ℕ → Bool) → ((rev : ℕ) → is_touched revs.now rev ≡ true → is_set rev ≡ true)
        → steps.new ≤ steps.old + parts_cost is_set parts }
    ensures counted { IfOk result (λ all. steps.old + all_made_count all.items ≤ steps.new) }
{
    let mut all = Vec::with_capacity(alloc, stories.len())?;
    for at in 0..stories.len() {
        let made = make_touched(alloc, &stories[at].slots, &tables[at], revs, says, steps)?;
        all.push(made)?;
    }
    Ok(all)
}

// Sets says in all stories, whose leaves are made anew.
fn set_stories<'w, 'a>(stories: &mut [Story<'a>], says: &[Say], all: Vec<Vec<Made<'w, 'a>>>)
    requires as_many { length all.items ≡ length stories.old }
    ensures { (parts : List Element) → (tables : List TableModel) → (is_set : ℕ → Bool) → (before : List SayModel) → (revs : List ℕ)
        → AreChanges is_set before says.now revs → AreUnheld is_set parts → AreReady revs says.now stories.old tables all.entry.items
        → AreKept before parts stories.old tables → AreKept says.now parts stories.new tables }
{
    let mut at = 0;
    for made in all {
        let spot = stories[at].spot;
        set_story(&mut stories[at].slots, spot, says, made);
        at += 1;
    }
}
