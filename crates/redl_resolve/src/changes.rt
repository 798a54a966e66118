//! A rejected change of properties, and the former properties that it gives back.

ghost use Rattle.std.specs.Prelude.{◌≡◌, ◌+◌, IfOk};
ghost use Rattle.redl_resolve.specs.Inside.Changes.{former_of, elem_rejected, item_rejected, copies_of, item_former, present_in, after_in};
ghost use Rattle.redl_resolve.specs.Counts.{former_count};
ghost use Rattle.redl_tree.specs.Roles.Places.{props_name};
ghost use Rattle.redl_tree.specs.Decisions.Restored.{rejected as rejected_by, former_kids};
ghost use Rattle.redl_tree.specs.Model.View.{nodes_of, item_of, tag_of, kids_of};

use crate::rounds::Round;
use crate::steps::Steps;
use redl_output::copy_nodes;
use redl_props::{restore, without_marks};
use redl_tables::fate_of;
use redl_tree::{Elem, Fate, Kind, Node, Prop, Say, Word, is_word};
use std::alloc::{AllocError, Global};
use std::sync::ledger::Ledger;

/// A change of properties that is rejected.
#[derive(Drop)]
pub(crate) struct Former<'a> {
    /// Which properties were changed.
    pub prop: Prop,
    /// What they held before.
    pub kids: Vec<Node<'a>>,
}

/// The first rejected change among some kids, copied before the kids are passed.
pub(crate) fn rejected<'a>(
    alloc: Global,
    kids: &[Node<'a>],
    says: &[Say],
) -> Result<Option<Former<'a>>, AllocError>
    ensures { IfOk result (λ found. former_of found ≡ rejected_by says.now (nodes_of kids.now)) }
{
    for kid in kids {
        if let Some(former) = rejected_node(alloc, kid, says)? {
            return Ok(Some(former));
        }
    }
    Ok(None)
}

fn rejected_node<'a>(
    alloc: Global,
    node: &Node<'a>,
    says: &[Say],
) -> Result<Option<Former<'a>>, AllocError>
    ensures { IfOk result (λ found. former_of found ≡ item_rejected says.now (item_of node.now)) }
{
    match node {
        Node::Elem(elem) => rejected_elem(alloc, elem, says),
        Node::Bytes(_) | Node::Plain(_) => Ok(None),
    }
}

fn rejected_elem<'a>(
    alloc: Global,
    elem: &Elem<'a>,
    says: &[Say],
) -> Result<Option<Former<'a>>, AllocError>
    ensures { IfOk result (λ found. former_of found ≡ elem_rejected says.now (tag_of elem.now) (kids_of elem.now)) }
{
    if fate_of(says, elem) != Fate::Restore {
        return Ok(None);
    }
    match elem.kind() {
        Kind::Change(prop) => Ok(Some(Former {
            prop,
            kids: copy_former(alloc, elem.kids(), prop)?,
        })),
        _ => Ok(None),
    }
}

// Copies of what the former properties among the kids of a change hold.
fn copy_former<'a>(
    alloc: Global,
    kids: &[Node<'a>],
    prop: Prop,
) -> Result<Vec<Node<'a>>, AllocError>
    ensures { IfOk result (λ copies. nodes_of copies.items ≡ former_kids (props_name prop) (nodes_of kids.now)) }
{
    for kid in kids {
        if let Some(copies) = copy_if_former(alloc, kid, prop)? {
            return Ok(copies);
        }
    }
    Ok(Vec::new(alloc))
}

fn copy_if_former<'a>(
    alloc: Global,
    node: &Node<'a>,
    prop: Prop,
) -> Result<Option<Vec<Node<'a>>>, AllocError>
    ensures { IfOk result (λ copies. copies_of copies ≡ item_former (props_name prop) (item_of node.now)) }
{
    match node {
        Node::Elem(elem) => {
            if is_word(elem, prop.word()) {
                return Ok(Some(copy_nodes(alloc, elem.kids())?));
            }
            Ok(None)
        }
        Node::Bytes(_) | Node::Plain(_) => Ok(None),
    }
}

/// Counts a step for each node that a rejected change gives back.
pub(crate) fn count_former<L: Ledger>(former: &Option<Former>, steps: &mut Steps<L>)
    ensures { steps.new ≡ steps.old + former_count (former_of former.now) }
{
    if let Some(former) = former {
        steps.tick_each(&former.kids);
    }
}

/// The passed kids of an element, with the properties of a rejected change given back.
pub(crate) fn after_change<'a>(
    alloc: Global,
    former: Option<Former<'a>>,
    elem: &Elem,
    passed: Vec<Node<'a>>,
    round: Round,
) -> Result<Vec<Node<'a>>, AllocError>
    ensures { IfOk result (λ kids. nodes_of kids.items ≡ after_in round (tag_of elem.now) (former_of former.entry) (nodes_of passed.entry.items)) }
{
    match former {
        Some(former) => restore(
            alloc,
            present(elem, passed, round),
            &former.kids,
            former.prop,
        ),
        None => Ok(passed),
    }
}

// What a change may leave of the passed kids: of all `rPr` only that of a paragraph's mark has revisions to keep.
fn present<'a>(elem: &Elem, kids: Vec<Node<'a>>, round: Round) -> Vec<Node<'a>>
    ensures { nodes_of result.items ≡ present_in round (tag_of elem.now) (nodes_of kids.entry.items) }
{
    if is_word(elem, Word::RPr) && !round.para_props {
        return without_marks(kids);
    }
    kids
}
