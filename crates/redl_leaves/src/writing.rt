//! The text of slots.

ghost use Rattle.std.specs.Prelude.{◌≡◌};
ghost use Rattle.redl_leaves.specs.View.{states_of, view_of, container_of, present_of};
ghost use Rattle.redl_leaves.specs.Inside.Texts.{shown_view};
ghost use Rattle.redl_io.specs.Sink.{Puts};
ghost use Rattle.redl_tree.specs.Leaves.States.{shown};
ghost use Rattle.redl_tree.specs.Model.Text.{text, element_text};
ghost use Rattle.redl_tree.specs.Model.View.{nodes_of, tag_of};

use crate::slots::{Container, Leaf, Slot};
use redl_io::{Failed, Sink};
use redl_output::{write_close, write_nodes, write_open};
use redl_tree::Node;

/// Puts the text of what the slots are at present, and takes no memory. `Failed` comes only where the sink failed.
#[cycle(write)]
pub fn write_slots<K: Sink>(slots: &[Slot], out: &mut K) -> Result<(), Failed>
    ensures { Puts K.told K.faults K.settled K.lenders out.old out.new (text (shown (states_of slots.now))) result }
{
    for slot in slots {
        write_slot(slot, out)?;
    }
    Ok(())
}

#[cycle(write)]
fn write_slot<K: Sink>(slot: &Slot, out: &mut K) -> Result<(), Failed>
    ensures { Puts K.told K.faults K.settled K.lenders out.old out.new (text (shown_view (view_of slot.now))) result }
{
    match slot {
        Slot::Leaf(leaf) => write_nodes(present(leaf), out),
        Slot::Container(container) => write_container(container, out),
    }
}

#[cycle(write)]
fn write_container<K: Sink>(container: &Container, out: &mut K) -> Result<(), Failed>
    ensures { Puts K.told K.faults K.settled K.lenders out.old out.new (text (shown_view (container_of container.now))) result }
{
    if container.tally.gone {
        return Ok(());
    }
    write_staying(container, out)
}

// A container that stays.
#[cycle(write)]
fn write_staying<K: Sink>(container: &Container, out: &mut K) -> Result<(), Failed>
    ensures { Puts K.told K.faults K.settled K.lenders out.old out.new (element_text (tag_of container.now.elem) (text (shown (states_of container.now.slots.items)))) result }
{
    write_open(&container.elem, out)?;
    match container.elem.close() {
        None => Ok(()),
        Some(space) => {
            write_slots(&container.slots, out)?;
            write_close(&container.elem, space, out)
        }
    }
}

/// The present nodes of a leaf, as long as no container round it goes.
pub(crate) fn present<'s, 'a>(leaf: &'s Leaf<'a>) -> &'s [Node<'a>]
    ensures { nodes_of result.now ≡ present_of leaf.now }
{
    match &leaf.present {
        Some(nodes) => nodes,
        None => &leaf.original,
    }
}
