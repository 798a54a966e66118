//! The tallies of the containers on a way, mended from the inside out.

ghost use Rattle.std.specs.Prelude.{◌≡◌, ◌∷◌, List};
ghost use Rattle.redl_leaves.specs.Inside.Mends.{HasNumbers, HasNumbersIn, Mends, MendsIn, left_at, shifted, goes_at_counts};
ghost use Rattle.redl_leaves.specs.Spots.{spot_of};
ghost use Rattle.redl_leaves.specs.View.{states_of, view_of, container_of};
ghost use Rattle.redl_tree.specs.Model.Nodes.{Tag};
ghost use Rattle.redl_tree.specs.Model.View.{tag_of};

use crate::slots::{Container, Slot, Tally};
use crate::spot::Spot;
use redl_tree::{Elem, Word, is_word};

/// How many living rows or cells a slot adds to the container round it.
#[derive(Clone, Copy)]
pub(crate) struct Shift {
    /// Before a change.
    pub before: u32,
    /// After it.
    pub after: u32,
}

/// Counts anew which own rows or cells of the containers on a way stay, and so which containers go.
#[cycle(mend)]
pub(crate) fn recount_along(slots: &mut [Slot], way: &[u32], spot: Spot) -> Shift
    ensures { (parent : Tag) → (above : List Tag) → spot ≡ spot_of (parent ∷ above) → HasNumbers (parent ∷ above) (states_of slots.old)
        → Mends (parent ∷ above) way.now (states_of slots.old) (states_of slots.new) result }
{
    match way {
        [at, rest @ ..] => {
            let at = *at as usize;
            if at < slots.len() {
                return mend_in(&mut slots[at], rest, spot);
            }
            nothing()
        }
        [] => nothing(),
    }
}

fn nothing() -> Shift
    ensures before { result.before ≡ 0 }
    ensures after { result.after ≡ 0 }
{
    Shift {
        before: 0,
        after: 0,
    }
}

#[cycle(mend)]
fn mend_in(slot: &mut Slot, way: &[u32], spot: Spot) -> Shift
    ensures { (parent : Tag) → (above : List Tag) → spot ≡ spot_of (parent ∷ above) → HasNumbersIn (parent ∷ above) (view_of slot.old)
        → MendsIn (parent ∷ above) way.now (view_of slot.old) (view_of slot.new) result }
{
    match slot {
        Slot::Leaf(_) => nothing(),
        Slot::Container(container) => mend_below(container, way, spot),
    }
}

#[cycle(mend)]
fn mend_below(container: &mut Box<Container>, way: &[u32], spot: Spot) -> Shift
    ensures { (parent : Tag) → (above : List Tag) → spot ≡ spot_of (parent ∷ above) → HasNumbersIn (parent ∷ above) (container_of container.old.value)
        → MendsIn (parent ∷ above) way.now (container_of container.old.value) (container_of container.new.value) result }
{
    recount_container(container, way, spot)
}

#[cycle(mend)]
fn recount_container(container: &mut Container, way: &[u32], spot: Spot) -> Shift
    ensures { (parent : Tag) → (above : List Tag) → spot ≡ spot_of (parent ∷ above) → HasNumbersIn (parent ∷ above) (container_of container.old)
        → MendsIn (parent ∷ above) way.now (container_of container.old) (container_of container.new) result }
{
    let before = left(&container.elem, container.tally, spot);
    let inside = spot.inside(&container.elem);
    let shift = recount_along(&mut container.slots, way, inside);
    container.tally = counted(&container.elem, container.tally, shift, spot);
    let after = left(&container.elem, container.tally, spot);
    Shift { before, after }
}

// What a container adds to the one round it.
fn left(elem: &Elem, tally: Tally, spot: Spot) -> u32
    ensures { result ≡ left_at spot (tag_of elem.now) tally }
{
    if spot.is_own(elem) {
        return if tally.gone { 0 } else { 1 };
    }
    if spot.holds_own_of_ancestor(elem) {
        return tally.living;
    }
    0
}

// The tally of a container after a shift in it.
fn counted(elem: &Elem, tally: Tally, shift: Shift, spot: Spot) -> Tally
    ensures cut { result.cut ≡ tally.cut }
    ensures owned { result.owned ≡ tally.owned }
    ensures living { result.living ≡ shifted tally shift }
    ensures gone { result.gone ≡ goes_at_counts spot (tag_of elem.now) tally.cut tally.owned (shifted tally shift) }
{
    let living = tally
        .living
        .saturating_sub(shift.before)
        .saturating_add(shift.after);
    Tally {
        cut: tally.cut,
        owned: tally.owned,
        living,
        gone: goes(elem, tally.cut, tally.owned, living, spot),
    }
}

fn goes(elem: &Elem, cut: bool, owned: u32, living: u32, spot: Spot) -> bool
    ensures { result ≡ goes_at_counts spot (tag_of elem.now) cut owned living }
{
    let spent = owned != 0 && living == 0;
    if is_word(elem, Word::Tc) {
        return cut;
    }
    if is_word(elem, Word::Tr) {
        return cut || spent;
    }
    (is_word(elem, Word::Tbl) || spot.is_shell(elem)) && spent
}
