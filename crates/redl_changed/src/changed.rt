//! What a change of properties changes.

ghost use Rattle.std.specs.Prelude.{◌≡◌, IfOk};
ghost use Rattle.redl_reading.specs.Steps.{Gives};
ghost use Rattle.redl_tree.specs.Model.View.{nodes_of, item_of};
ghost use Rattle.redl_tree.specs.Roles.Places.{props_name};
ghost use Rattle.redl_resolve.specs.Inside.Changes.{item_former};
ghost use Rattle.redl_changed.specs.Changed.{changed_between, changed_of, former_leaves, kept_leaves, not_compared, nothing_changed, said_of};

use crate::kept::Kept;
use crate::leaves::push_leaves;
use redl_properties::{Changed, Changes, Utf8Text, first_changes, line_of};
use redl_tree::{Node, Prop, is_word};
use std::alloc::{AllocError, Global};

// How many changed properties are kept.
const MOST: usize = 20;

/// The properties that a change changes, and one line of words about them.
#[derive(Drop)]
pub struct ChangedSaid {
    /// The properties that differ, at most 20.
    pub changes: Changes,
    /// How many more there are, if the lists were compared.
    pub more: Option<usize>,
    /// At most four of them in words, and how many more there are; or that the lists are too large to be compared.
    pub line: Utf8Text,
}

impl ChangedSaid {
    /// Of what is no change of properties: no property, and no words. `Err` means out of memory.
    pub fn none(alloc: Global) -> Result<ChangedSaid, AllocError>
        ensures { IfOk result (λ said. said ≡ nothing_changed) }
    {
        let line = Utf8Text::of_str(alloc, "")?;
        Ok(ChangedSaid {
            changes: Changes::none(alloc),
            more: Some(0),
            line,
        })
    }

    // Of lists that aren't compared. `Err` means out of memory.
    fn not_compared(alloc: Global) -> Result<ChangedSaid, AllocError>
        ensures { IfOk result (λ said. said ≡ not_compared) }
    {
        let line = Utf8Text::of_str(alloc, "too large to compare")?;
        Ok(ChangedSaid {
            changes: Changes::none(alloc),
            more: None,
            line,
        })
    }

    // Of lists whose properties differ so. `Err` means out of memory.
    fn of(alloc: Global, changed: Vec<Changed>) -> Result<ChangedSaid, AllocError>
        ensures { IfOk result (λ said. said ≡ said_of changed.items) }
    {
        let line = line_of(alloc, &changed)?;
        let more = changed.len().saturating_sub(MOST);
        Ok(ChangedSaid {
            changes: first_changes(changed),
            more: Some(more),
            line,
        })
    }

    /// An equal one. `Err` means out of memory.
    pub fn copy(&self, alloc: Global) -> Result<ChangedSaid, AllocError>
        ensures { IfOk result (λ copy. copy ≡ self.now) }
    {
        let changes = self.changes.copy(alloc)?;
        let more = self.more;
        let line = self.line.copy(alloc)?;
        Ok(ChangedSaid {
            changes,
            more,
            line,
        })
    }
}

/// What a change of such properties with these kids changes, which stands among `present`. `Err` means out of memory.
#[tactic(auto, unfolding(crate::specs::Changed::changed_of))]
pub fn changed_of(
    alloc: Global,
    what: Prop,
    present: &[Node],
    kids: &[Node],
) -> Result<ChangedSaid, AllocError>
    ensures { IfOk result (λ said. said ≡ changed_of what (nodes_of present.now) (nodes_of kids.now)) }
{
    let present = kept_leaves(alloc, what, present)?;
    let former = former_leaves(alloc, what, kids)?;
    changed_between(alloc, present, former)
}

fn changed_between(alloc: Global, present: Kept, former: Kept) -> Result<ChangedSaid, AllocError>
    ensures { IfOk result (λ said. said ≡ changed_between present former) }
{
    if present.is_cut() || former.is_cut() {
        return ChangedSaid::not_compared(alloc);
    }
    let changed = present.differences(alloc, former)?;
    ChangedSaid::of(alloc, changed)
}

// The leaves of a list of properties, as many as have room.
fn kept_leaves(alloc: Global, what: Prop, nodes: &[Node]) -> Result<Kept, AllocError>
    ensures { IfOk result (λ kept. kept ≡ kept_leaves what (nodes_of nodes.now)) }
{
    let mut kept = Kept::new(alloc);
    push_leaves(alloc, what, b"", nodes, &mut kept)?;
    Ok(kept)
}

// The leaves of the former list in a change with these kids, as many as have room.
fn former_leaves(alloc: Global, what: Prop, kids: &[Node]) -> Result<Kept, AllocError>
    ensures { IfOk result (λ kept. kept ≡ former_leaves what (nodes_of kids.now)) }
{
    for kid in kids {
        if let Some(former) = former_of(kid, what) {
            let kept = kept_leaves(alloc, what, former)?;
            return Ok(kept);
        }
    }
    Ok(Kept::new(alloc))
}

// What the former properties hold, where the node is these.
fn former_of<'a, 'n>(node: &'a Node<'n>, what: Prop) -> Option<&'a [Node<'n>]>
    ensures { Gives (λ nodes. nodes_of nodes.now) result (item_former (props_name what) (item_of node.now)) }
{
    match node {
        Node::Elem(elem) if is_word(elem, what.word()) => Some(elem.kids()),
        _ => None,
    }
}
