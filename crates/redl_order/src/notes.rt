//! The notes of a package by their ids.

ghost use Rattle.std.specs.Prelude.{◌≡◌, ◌++◌, ℕ, List, filter, IfOk, OnOk};
ghost use Rattle.std.specs.List.{flat_map};
ghost use Rattle.redl_tree.specs.Model.View.{nodes_of, item_of, tag_of, kids_of};
ghost use Rattle.redl_opc.specs.Stories.{stories_of_part};
ghost use Rattle.redl_order.specs.Order.{has_id, notes, notes_of};
ghost use Rattle.redl_order.specs.Inside.Items.{element_notes, item_notes};
ghost use Rattle.redl_order.specs.Inside.Places.{notes_at};

use crate::places::Places;
use crate::reference::Named;
use redl_opc::Package;
use redl_tree::{Elem, Node, is_word};
use std::alloc::{AllocError, Global};

/// The notes of this kind, those with one id in the order of the package's parts. `Err` means out of memory.
pub(crate) fn notes<'n, 'a>(
    alloc: Global,
    pkg: &'n Package<'a>,
    note: Named,
) -> Result<Places<'n, 'a>, AllocError>
    ensures { IfOk result (λ found. (id : List ℕ) → notes_at found id ≡ filter (has_id id) (notes note pkg.now)) }
{
    let mut found = Places::none(alloc);
    for part in 0..pkg.parts() {
        add_part(pkg, part, note, &mut found)?;
    }
    Ok(found)
}

// Adds the notes of one part.
fn add_part<'n, 'a>(
    pkg: &'n Package<'a>,
    part: u32,
    note: Named,
    found: &mut Places<'n, 'a>,
) -> Result<(), AllocError>
    ensures { OnOk result ((id : List ℕ) → notes_at found.new id ≡ notes_at found.old id ++ filter (has_id id) (flat_map (λ root. notes_of note root.kids) (stories_of_part pkg.now part))) }
{
    match pkg.story(part) {
        Some(root) => add_notes(root.kids(), note, found),
        None => Ok(()),
    }
}

// Adds the notes among the kids of a root.
fn add_notes<'n, 'a>(
    kids: &'n [Node<'a>],
    note: Named,
    found: &mut Places<'n, 'a>,
) -> Result<(), AllocError>
    ensures { OnOk result ((id : List ℕ) → notes_at found.new id ≡ notes_at found.old id ++ filter (has_id id) (notes_of note (nodes_of kids.now))) }
{
    for node in kids {
        add_note(node, note, found)?;
    }
    Ok(())
}

fn add_note<'n, 'a>(
    node: &'n Node<'a>,
    note: Named,
    found: &mut Places<'n, 'a>,
) -> Result<(), AllocError>
    ensures { OnOk result ((id : List ℕ) → notes_at found.new id ≡ notes_at found.old id ++ filter (has_id id) (item_notes note (item_of node.now))) }
{
    match node {
        Node::Elem(elem) => add_elem(elem, note, found),
        Node::Bytes(_) | Node::Plain(_) => Ok(()),
    }
}

fn add_elem<'n, 'a>(
    elem: &'n Elem<'a>,
    note: Named,
    found: &mut Places<'n, 'a>,
) -> Result<(), AllocError>
    ensures { OnOk result ((id : List ℕ) → notes_at found.new id ≡ notes_at found.old id ++ filter (has_id id) (element_notes note (tag_of elem.now) (kids_of elem.now))) }
{
    if is_word(elem, note.word()) {
        return found.add(elem);
    }
    Ok(())
}
