//! What an editor knows of the leaves of a story: the ways to them, and which revisions they hold.

ghost use Rattle.std.specs.Prelude.{◌≡◌, ◌≤◌, ◌+◌, ◌∷◌, [], ℕ, List, Bool, true, false, map, IfOk};
ghost use Rattle.std.specs.List.Sorted.{IsNonDecreasingBy};
ghost use Rattle.redl_editor.specs.Holdings.{is_touched};
ghost use Rattle.redl_editor.specs.Inside.Makes.{made_count};
ghost use Rattle.redl_leaves.specs.Steps.{AreMade, CanSet, way_of};
ghost use Rattle.redl_editor.specs.Kept.{AreTables};
ghost use Rattle.redl_editor.specs.Tables.{IsTable};
ghost use Rattle.redl_leaves.specs.View.{states_of};
ghost use Rattle.redl_tree.specs.Leaves.Containers.{opens};
ghost use Rattle.redl_tree.specs.Leaves.Settings.{SameBut, IsUnheld, slots_cost};
ghost use Rattle.redl_tree.specs.Leaves.Slots.{slots_in};
ghost use Rattle.redl_tree.specs.Leaves.States.{slots_of};
ghost use Rattle.redl_tree.specs.Model.View.{Element};
ghost use Rattle.redl_tree.specs.declared.kinds.Say.{Say as SayModel};

use crate::holding::{Held, held_by_story};
use crate::making::make_each;
use crate::places::Places;
use crate::story::Story;
use crate::touching::touched;
use crate::walking::ways_to_leaves;
use redl_leaves::{Made, Slot};
use redl_resolve::Steps;
use redl_tree::Say;
use std::alloc::{AllocError, Global};
use std::sync::ledger::Ledger;

/// The leaves of a story.
#[derive(Drop)]
pub(crate) struct Table {
    /// The way to each of them.
    pub places: Places,
    /// Which of them hold which revisions.
    pub held: Vec<Held>,
}

/// The table of these slots. `Err` means out of memory.
pub(crate) fn table_of(alloc: Global, slots: &[Slot]) -> Result<Table, AllocError>
    ensures { IfOk result (λ table. IsTable table (slots_of (states_of slots.now))) }
{
    let places = ways_to_leaves(alloc, slots)?;
    let held = held_by_story(alloc, slots)?;
    Ok(Table { places, held })
}

/// The tables of these stories. `Err` means out of memory.
pub(crate) fn tables_of(alloc: Global, stories: &[Story]) -> Result<Vec<Table>, AllocError>
    ensures { IfOk result (λ tables. AreTables stories.now tables.items) }
{
    let mut tables = Vec::with_capacity(alloc, stories.len())?;
    for story in stories {
        let table = table_of(alloc, &story.slots)?;
        tables.push(table)?;
    }
    Ok(tables)
}

/// The passes, under new says, of the leaves that hold a member or a marker of one of these revisions. The slots stay as they are.
/// `Err` means out of memory.
pub(crate) fn make_touched<'w, 'a, L: Ledger>(
    alloc: Global,
    slots: &[Slot<'a>],
    table: &'w Table,
    revs: &[u32],
    says: &[Say],
    steps: &mut Steps<L>,
) -> Result<Vec<Made<'w, 'a>>, AllocError>
    requires rises { IsNonDecreasingBy (λ one. one.rev) table.now.held.items }
    ensures made { IfOk result (λ all. AreMade says.now all.items (states_of slots.now)) }
    ensures steps { IsTable table.now (slots_of (states_of slots.now)) → (is_set : ℕ → Bool) → ((rev : ℕ) → is_touched revs.now rev ≡ true → is_set rev ≡ true)
        → (depth : ℕ) → steps.new ≤ steps.old + slots_cost is_set depth (slots_of (states_of slots.now)) }
    ensures ways { IfOk result (λ all. IsTable table.now (slots_of (states_of slots.now)) → (story : Element) → (is_set : ℕ → Bool) → (before : List SayModel)
        → SameBut is_set before says.now → is_set 0 ≡ false → ((rev : ℕ) → is_set rev ≡ true → is_touched revs.now rev ≡ true)
        → IsUnheld is_set (slots_in opens (story.tag ∷ []) story.kids)
        → CanSet is_set before says.now story (map way_of all.items) (states_of slots.now)) }
    ensures counted { IfOk result (λ all. steps.old + made_count all.items ≤ steps.new) }
{
    let leaves = touched(alloc, &table.held, revs)?;
    let all = make_each(alloc, slots, &table.places, &leaves, says, steps)?;
    Ok(all)
}
