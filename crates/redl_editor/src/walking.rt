//! A walk that notes the ways to the leaves of slots.

ghost use Rattle.std.specs.Prelude.{◌≡◌, ◌<◌, ◌^◌, ◌∷◌, [], OnOk, IfOk, IsOk, map};
ghost use Rattle.redl_editor.specs.Places.{HasWays};
ghost use Rattle.redl_leaves.specs.View.{states_of, view_of, container_of};
ghost use Rattle.redl_editor.specs.Inside.Walks.{AddsWays, ways_in};
ghost use Rattle.redl_tree.specs.Leaves.States.{slots_of};
ghost use Rattle.redl_tree.specs.Leaves.Ways.{ways, ways_from};

use crate::places::Places;
use redl_leaves::{Container, Slot};
use std::alloc::{AllocError, Global};

/// The ways to all leaves. `Err` means out of memory.
pub(crate) fn ways_to_leaves(alloc: Global, slots: &[Slot]) -> Result<Places, AllocError>
    ensures { IfOk result (λ places. HasWays places (ways (slots_of (states_of slots.now)))) }
{
    let mut places = Places::new(alloc);
    let mut way = Vec::new(alloc);
    add_ways(slots, &mut way, &mut places)?;
    Ok(places)
}

/// Adds the ways to the leaves, each behind the way to the slots. `Err` means out of memory.
#[cycle(walk)]
pub(crate) fn add_ways(
    slots: &[Slot],
    way: &mut Vec<u32>,
    places: &mut Places,
) -> Result<(), AllocError>
    ensures { OnOk result (AddsWays (ways_from 0 (slots_of (states_of slots.now))) way.old.items way.new.items places.old places.new) }
{
    for at in 0..slots.len() {
        add_slot(&slots[at], at, way, places)?;
    }
    Ok(())
}

#[cycle(walk)]
fn add_slot(
    slot: &Slot,
    at: usize,
    way: &mut Vec<u32>,
    places: &mut Places,
) -> Result<(), AllocError>
    ensures { OnOk result (AddsWays (map (λ rest. at ∷ rest) (ways_in (view_of slot.now))) way.old.items way.new.items places.old places.new) }
{
    let number = slot_number(at)?;
    way.push(number)?;
    add_below(slot, way, places)?;
    let _ = way.pop();
    Ok(())
}

#[cycle(walk)]
fn add_below(slot: &Slot, way: &mut Vec<u32>, places: &mut Places) -> Result<(), AllocError>
    ensures { OnOk result (AddsWays (ways_in (view_of slot.now)) way.old.items way.new.items places.old places.new) }
{
    match slot {
        Slot::Leaf(_) => add_leaf(way, places),
        Slot::Container(container) => add_inside(container, way, places),
    }
}

#[cycle(walk)]
fn add_inside(
    container: &Container,
    way: &mut Vec<u32>,
    places: &mut Places,
) -> Result<(), AllocError>
    ensures { OnOk result (AddsWays (ways_in (container_of container.now)) way.old.items way.new.items places.old places.new) }
{
    add_ways(&container.slots, way, places)
}

fn add_leaf(way: &mut Vec<u32>, places: &mut Places) -> Result<(), AllocError>
    ensures { OnOk result (AddsWays ([] ∷ []) way.old.items way.new.items places.old places.new) }
{
    places.add(way)
}

/// A place in a list, as a number that ways and leaves are kept by.
pub(crate) fn slot_number(at: usize) -> Result<u32, AllocError>
    ensures number { IfOk result (λ number. number ≡ at) }
    ensures fits { at < 2 ^ 32 → IsOk result }
{
    // A package has fewer nodes than there are numbers.
    match u32::try_from(at) {
        Ok(number) => Ok(number),
        Err(_) => Err(AllocError),
    }
}
