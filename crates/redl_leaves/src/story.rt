//! One story: splits its kids into leaves, and sets says in it.

ghost use Rattle.std.specs.Prelude.{◌<◌, ◌^◌, ◌≡◌, ℕ, ◌∷◌, List, [], Bool, map, replicate, IfOk, OnOk};
ghost use Rattle.redl_leaves.specs.Spots.{spot_of};
ghost use Rattle.redl_leaves.specs.Steps.{AreMade, CanSet, way_of};
ghost use Rattle.redl_leaves.specs.View.{states_of};
ghost use Rattle.redl_tree.specs.Leaves.Containers.{opens};
ghost use Rattle.redl_tree.specs.Leaves.Shown.{AreStatesOf};
ghost use Rattle.redl_tree.specs.Model.Count.{count};
ghost use Rattle.redl_tree.specs.Model.Nodes.{no_nodes};
ghost use Rattle.redl_tree.specs.Model.View.{Element, tag_of, kids_of};
ghost use Rattle.redl_tree.specs.declared.kinds.Say.{Say as SayModel};
ghost use Rattle.redl_tree.specs.declared.kinds.Say.TheVariants.{Keep};

use crate::slots::Slot;
use crate::split::split_kids;
use crate::spot::Spot;
use crate::stepping::{Made, step_each};
use redl_tree::{Elem, Say};
use std::alloc::{AllocError, Global};

/// Takes the kids out of the root of a story, and gives their slots, where each revision is undecided. `Err` means out of
/// memory, and the kids are lost.
pub fn take_story<'a>(alloc: Global, root: &mut Elem<'a>) -> Result<Vec<Slot<'a>>, AllocError>
    ensures states { IfOk result (λ slots. count (kids_of root.old) < 2 ^ 32 → (revisions : ℕ)
        → AreStatesOf opens (replicate revisions Keep) (record { tag = tag_of root.old; kids = kids_of root.old }) (states_of slots.items)) }
    ensures tag { tag_of root.new ≡ tag_of root.old }
    ensures taken { kids_of root.new ≡ no_nodes }
{
    let spot = Spot::in_root(root);
    let kids = root.take_kids(alloc);
    let slots = split_kids(alloc, kids, spot)?;
    Ok(slots)
}

/// Sets says in a story: each of these leaves gets its pass under the new says, and the containers on the ways to them are told
/// whether they go.
pub fn set_story<'w, 'a>(slots: &mut [Slot<'a>], spot: Spot, says: &[Say], all: Vec<Made<'w, 'a>>)
    ensures { (story : Element) → spot ≡ spot_of (story.tag ∷ []) → (is_set : ℕ → Bool) → (before : List SayModel)
        → CanSet is_set before says.now story (map way_of all.entry.items) (states_of slots.old) → AreMade says.now all.entry.items (states_of slots.old)
        → AreStatesOf opens before story (states_of slots.old) → AreStatesOf opens says.now story (states_of slots.new) }
{
    step_each(slots, spot, says, all);
}
