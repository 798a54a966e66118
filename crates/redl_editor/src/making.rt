//! The passes of the leaves that are touched.

ghost use Rattle.std.specs.Prelude.{◌≡◌, ◌≤◌, ◌<◌, ◌+◌, ℕ, List, true, length, map, sum_by, IfOk};
ghost use Rattle.redl_editor.specs.Holdings.{is_touched};
ghost use Rattle.redl_editor.specs.Inside.Makes.{AreWithin, made_count, ways_of, sizes_of};
ghost use Rattle.redl_editor.specs.Places.{HasWays};
ghost use Rattle.redl_leaves.specs.Steps.{AreMade, way_of};
ghost use Rattle.redl_leaves.specs.View.{states_of};
ghost use Rattle.redl_tree.specs.Leaves.States.{slots_of};

use crate::places::Places;
use redl_leaves::{Made, Slot, make_leaf};
use redl_resolve::Steps;
use redl_tree::Say;
use std::alloc::{AllocError, Global};
use std::sync::ledger::Ledger;

/// The passes of these leaves under these says, with the ways to them. It counts at most a step for each of their nodes, also with
/// an error, and at least one for each node that is made. `Err` means out of memory.
pub(crate) fn make_each<'w, 'a, L: Ledger>(
    alloc: Global,
    slots: &[Slot<'a>],
    places: &'w Places,
    leaves: &[u32],
    says: &[Say],
    steps: &mut Steps<L>,
) -> Result<Vec<Made<'w, 'a>>, AllocError>
    ensures made { IfOk result (λ all. AreMade says.now all.items (states_of slots.now)) }
    ensures ways { IfOk result (λ all. (ways : List (List ℕ)) → HasWays places.now ways → AreWithin ways leaves.now → map way_of all.items ≡ ways_of ways leaves.now) }
    ensures steps { (ways : List (List ℕ)) → HasWays places.now ways → AreWithin ways leaves.now
        → steps.new ≤ steps.old + sizes_of ways (slots_of (states_of slots.now)) leaves.now }
    ensures counted { IfOk result (λ all. steps.old + made_count all.items ≤ steps.new) }
{
    let mut all = Vec::with_capacity(alloc, leaves.len())?;
    for leaf in leaves {
        let way = places.way(*leaf as usize);
        let nodes = make_leaf(alloc, slots, way, says, steps)?;
        all.push(Made { way, nodes })?;
    }
    Ok(all)
}
