//! Which rows and cells are cut by a member of their own.

ghost use Rattle.std.specs.Prelude.{◌≡◌, ◌&&◌};
ghost use Rattle.redl_leaves.specs.Inside.Cuts.{cut_slots, cut_in, member_slots, member_in};
ghost use Rattle.redl_leaves.specs.Inside.Mends.{recut, recut_in};
ghost use Rattle.redl_leaves.specs.View.{states_of, view_of, container_of};
ghost use Rattle.redl_tables.specs.Owners.{test_of, name_of};
ghost use Rattle.redl_tree.specs.Decisions.Fates.{fate_of as fate_by};
ghost use Rattle.redl_tree.specs.Leaves.Living.{cut_at};
ghost use Rattle.redl_tree.specs.Leaves.Rebuilt.{original};
ghost use Rattle.redl_tree.specs.Leaves.States.{slots_of};
ghost use Rattle.redl_tree.specs.Model.View.{tag_of};
ghost use Rattle.redl_tree.specs.Roles.Kinds.{is_cut as is_cut_fate};
ghost use Rattle.redl_tree.specs.Roles.Names.{is};

use crate::slots::{Container, Slot, Tally};
use redl_tables::{Owner, fate_of, has_cut_member, is_cut, is_member};
use redl_tree::{Elem, Fate, Say, Word, is_word};

// Whether a row or a cell with this element and these slots is cut by a member of its own.
fn is_cut_now(elem: &Elem, slots: &[Slot], says: &[Say]) -> bool
    ensures { result ≡ cut_at says.now (tag_of elem.now) (original (slots_of (states_of slots.now))) }
{
    if is_word(elem, Word::Tc) {
        return are_cut(slots, Owner::Cell, says);
    }
    if is_word(elem, Word::Tr) {
        return are_cut(slots, Owner::Row, says);
    }
    false
}

// Whether a member of this sort is cut in the properties among the slots.
fn are_cut(slots: &[Slot], owner: Owner, says: &[Say]) -> bool
    ensures { result ≡ cut_slots owner says.now (states_of slots.now) }
{
    for slot in slots {
        if cuts_in(slot, owner, says) {
            return true;
        }
    }
    false
}

fn cuts_in(slot: &Slot, owner: Owner, says: &[Say]) -> bool
    ensures { result ≡ cut_in owner says.now (view_of slot.now) }
{
    match slot {
        Slot::Leaf(leaf) => is_cut(&leaf.original, owner, says),
        Slot::Container(container) => cuts_below(container, owner, says),
    }
}

// No container is the properties of a row or a cell, so this looks at its name alone.
fn cuts_below(container: &Container, owner: Owner, says: &[Say]) -> bool
    ensures { result ≡ cut_in owner says.now (container_of container.now) }
{
    is_props(&container.elem, owner) && have_cut_member(&container.slots, owner, says)
}

fn is_props(elem: &Elem, owner: Owner) -> bool
    ensures { result ≡ is (name_of owner) (tag_of elem.now) }
{
    match owner {
        Owner::Mark => is_word(elem, Word::RPr),
        Owner::Row => is_word(elem, Word::TrPr),
        Owner::Cell => is_word(elem, Word::TcPr),
    }
}

fn have_cut_member(slots: &[Slot], owner: Owner, says: &[Say]) -> bool
    ensures { result ≡ member_slots owner says.now (states_of slots.now) }
{
    for slot in slots {
        if has_member_in(slot, owner, says) {
            return true;
        }
    }
    false
}

fn has_member_in(slot: &Slot, owner: Owner, says: &[Say]) -> bool
    ensures { result ≡ member_in owner says.now (view_of slot.now) }
{
    match slot {
        Slot::Leaf(leaf) => has_cut_member(&leaf.original, owner, says),
        Slot::Container(container) => is_cut_member_of(container, owner, says),
    }
}

fn is_cut_member_of(container: &Container, owner: Owner, says: &[Say]) -> bool
    ensures { result ≡ member_in owner says.now (container_of container.now) }
{
    is_cut_member(&container.elem, owner, says)
}

fn is_cut_member(elem: &Elem, owner: Owner, says: &[Say]) -> bool
    ensures { result ≡ test_of owner (tag_of elem.now).kind && is_cut_fate (fate_by says.now (tag_of elem.now)) }
{
    is_member(elem.kind(), owner) && fate_of(says, elem) == Fate::Cut
}

/// Says of each container on a way whether it is cut, under these says.
#[cycle(recut)]
pub(crate) fn recut_at(slots: &mut [Slot], way: &[u32], says: &[Say])
    ensures { states_of slots.new ≡ recut says.now way.now (states_of slots.old) }
{
    match way {
        [at, rest @ ..] => {
            let at = *at as usize;
            if at < slots.len() {
                recut_slot(&mut slots[at], rest, says);
            }
        }
        [] => {}
    }
}

#[cycle(recut)]
fn recut_slot(slot: &mut Slot, way: &[u32], says: &[Say])
    ensures { view_of slot.new ≡ recut_in says.now way.now (view_of slot.old) }
{
    match slot {
        Slot::Leaf(_) => {}
        Slot::Container(container) => recut_below(container, way, says),
    }
}

#[cycle(recut)]
fn recut_below(container: &mut Box<Container>, way: &[u32], says: &[Say])
    ensures { container_of container.new.value ≡ recut_in says.now way.now (container_of container.old.value) }
{
    recut_container(container, way, says);
}

#[cycle(recut)]
fn recut_container(container: &mut Container, way: &[u32], says: &[Say])
    ensures { container_of container.new ≡ recut_in says.now way.now (container_of container.old) }
{
    recut_at(&mut container.slots, way, says);
    container.tally = Tally {
        cut: is_cut_now(&container.elem, &container.slots, says),
        owned: container.tally.owned,
        living: container.tally.living,
        gone: container.tally.gone,
    };
}
