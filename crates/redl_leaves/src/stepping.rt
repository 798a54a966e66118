//! One step of an editor.

ghost use Rattle.std.specs.Prelude.{◌≡◌, ◌∷◌, List, map};
ghost use Rattle.redl_leaves.specs.Steps.{AreMade, way_of};
ghost use Rattle.redl_leaves.specs.Puts.{IsMade};
ghost use Rattle.redl_leaves.specs.Spots.{spot_of};
ghost use Rattle.redl_leaves.specs.View.{states_of};
ghost use Rattle.redl_tree.specs.Leaves.States.{AreTallied};
ghost use Rattle.redl_tree.specs.Leaves.Ways.{made_at, made_each};
ghost use Rattle.redl_tree.specs.Model.Nodes.{Tag};
ghost use Rattle.redl_tree.specs.Model.View.{nodes_of};

use crate::cutting::recut_at;
use crate::mending::recount_along;
use crate::putting::put_at;
use crate::slots::Slot;
use crate::spot::Spot;
use redl_tree::{Node, Say};

/// Gives the leaf at the end of a way its pass under these says, `made`, and tells the containers on the way whether they go.
pub(crate) fn step_at<'a>(
    slots: &mut [Slot<'a>],
    way: &[u32],
    spot: Spot,
    says: &[Say],
    made: Vec<Node<'a>>,
)
    ensures { (parent : Tag) → (above : List Tag) → spot ≡ spot_of (parent ∷ above) → AreTallied (parent ∷ above) (states_of slots.old)
        → IsMade says.now way.now (nodes_of made.entry.items) (states_of slots.old)
        → states_of slots.new ≡ made_at says.now (parent ∷ above) way.now (states_of slots.old) }
{
    put_at(slots, way, made, says);
    recut_at(slots, way, says);
    recount_along(slots, way, spot);
}

/// A leaf that is made anew: the way to it, and its pass.
#[derive(Drop)]
pub struct Made<'w, 'a> {
    /// The way to it.
    pub way: &'w [u32],
    /// Its pass.
    pub nodes: Vec<Node<'a>>,
}

/// One step for each of these leaves.
pub(crate) fn step_each<'w, 'a>(
    slots: &mut [Slot<'a>],
    spot: Spot,
    says: &[Say],
    all: Vec<Made<'w, 'a>>,
)
    ensures { (parent : Tag) → (above : List Tag) → spot ≡ spot_of (parent ∷ above) → AreTallied (parent ∷ above) (states_of slots.old)
        → AreMade says.now all.entry.items (states_of slots.old)
        → states_of slots.new ≡ made_each says.now (parent ∷ above) (map way_of all.entry.items) (states_of slots.old) }
{
    for one in all {
        let Made { way, nodes } = one;
        step_at(slots, way, spot, says, nodes);
    }
}
