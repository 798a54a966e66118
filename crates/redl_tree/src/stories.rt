//! Changes of the stories of a package.

ghost use Rattle.std.specs.Prelude.{◌≡◌, ◌≤◌, ◌+◌, ℕ, List, Bool, true, OnOk};
ghost use Rattle.redl_tree.specs.Model.Count.{count, item_count};
ghost use Rattle.redl_tree.specs.Model.Nodes.{Tag, Nodes};
ghost use Rattle.redl_tree.specs.Decisions.Taken.{TakesAll, TakesAt};
ghost use Rattle.redl_tree.specs.Decisions.Packages.{level_of, stories, stories_in, element_stories, StoryRule, left_after, changed_stories, changed_in, changed_package};
ghost use Rattle.redl_tree.specs.Decisions.StoryWalk.{changed_kids, changed_item, item_stories};
ghost use Rattle.redl_tree.specs.Model.View.{nodes_of, item_of, tag_of, kids_of};

use crate::level::Level;
use crate::node::{Elem, Node};
use std::alloc::Global;

/// A change of stories, one after the other. What changes from story to story, as the labels that are left, is in an `S`.
pub trait StoryChange<S> {
    /// Why a change fails.
    type Error;

    // That by which a story is changed, as says or labels.
    ghost Given: { Type 0 };

    ghost given: { Self → S → Self.Given };

    // What becomes of a story by it, and what is left of it for the next one.
    ghost rule: { StoryRule Self.Given };

    // Which stories it takes, by what the stories before have left for it. Most changes take every story.
    ghost Takes: { Self.Given → Tag → Nodes → Type 0 };

    // Whether the nodes that are looked at are counted, and how many were.
    ghost is_counted: { Bool };

    ghost steps: { S → ℕ };

    /// Is called once for each node that is not below the root of a story, with the number of nodes that it counts as: as many as
    /// were kept as one text, else 1.
    fn meet(&self, state: &mut S, nodes: u32)
        ensures given { Self.given self.now state.new ≡ Self.given self.now state.old }
        ensures steps { Self.is_counted ≡ true → Self.steps state.new ≡ Self.steps state.old + nodes };

    /// Changes the kids of the root of a story.
    fn change(&self, root: &mut Elem, state: &mut S) -> Result<(), Self::Error>
        requires taken { Self.Takes (Self.given self.now state.old) (tag_of root.old) (kids_of root.old) }
        ensures tag { OnOk result (tag_of root.new ≡ tag_of root.old) }
        ensures kids { OnOk result (kids_of root.new ≡ (Self.rule).kids (Self.given self.now state.old) (tag_of root.old) (kids_of root.old)) }
        ensures left { OnOk result (Self.given self.now state.new ≡ (Self.rule).left (Self.given self.now state.old) (tag_of root.old) (kids_of root.old)) }

        // At most one step for each node that is given, also with an error, and at least one for each node that is made.
        ensures entered { Self.is_counted ≡ true → Self.steps state.new ≤ Self.steps state.old + count (kids_of root.old) }
        ensures made { OnOk result (Self.is_counted ≡ true → Self.steps state.old + count (kids_of root.new) ≤ Self.steps state.new) };
}

/// Changes the stories of a package, in their order, each in its place. All else stays as it is.
///
/// `Err` is that of the first story whose change fails. The stories before it are changed then. It takes no memory of its own:
/// `alloc` is for the empty lists that stand where kids were taken out.
pub fn change_stories<S, C: StoryChange<S>>(
    alloc: Global,
    nodes: &mut [Node],
    change: &C,
    state: &mut S,
) -> Result<(), C::Error>
    requires taken { TakesAll C.rule C.Takes (C.given change.now state.old) (stories (nodes_of nodes.old)) }
    ensures nodes { OnOk result (nodes_of nodes.new ≡ changed_package C.rule (C.given change.now state.old) (nodes_of nodes.old)) }
    ensures stories { OnOk result (stories (nodes_of nodes.new) ≡ changed_stories C.rule (C.given change.now state.old) (stories (nodes_of nodes.old))) }
    ensures left { OnOk result (C.given change.now state.new ≡ left_after C.rule (C.given change.now state.old) (stories (nodes_of nodes.old))) }

    // At most one step for each node that is given, also with an error, and at least one for each node that is made.
    ensures entered { C.is_counted ≡ true → C.steps state.new ≤ C.steps state.old + count (nodes_of nodes.old) }
    ensures made { OnOk result (C.is_counted ≡ true → C.steps state.old + count (nodes_of nodes.new) ≤ C.steps state.new) }
{
    change_among(alloc, nodes, Level::Top, change, state)
}

// The same for nodes at a level of their package.
#[cycle(stories)]
fn change_among<S, C: StoryChange<S>>(
    alloc: Global,
    nodes: &mut [Node],
    level: Level,
    change: &C,
    state: &mut S,
) -> Result<(), C::Error>
    requires taken { TakesAt C.rule C.Takes (C.given change.now state.old) level (λ ancestors. stories_in ancestors (nodes_of nodes.old)) }
    ensures nodes { OnOk result ((ancestors : List Tag) → level ≡ level_of ancestors
        → nodes_of nodes.new ≡ changed_in C.rule (C.given change.now state.old) ancestors (nodes_of nodes.old)) }
    ensures left { OnOk result ((ancestors : List Tag) → level ≡ level_of ancestors
        → C.given change.now state.new ≡ left_after C.rule (C.given change.now state.old) (stories_in ancestors (nodes_of nodes.old))) }
    ensures entered { C.is_counted ≡ true → C.steps state.new ≤ C.steps state.old + count (nodes_of nodes.old) }
    ensures made { OnOk result (C.is_counted ≡ true → C.steps state.old + count (nodes_of nodes.new) ≤ C.steps state.new) }
{
    for i in 0..nodes.len() {
        change_node(alloc, &mut nodes[i], level, change, state)?;
    }
    Ok(())
}

#[cycle(stories)]
fn change_node<S, C: StoryChange<S>>(
    alloc: Global,
    node: &mut Node,
    level: Level,
    change: &C,
    state: &mut S,
) -> Result<(), C::Error>
    requires taken { TakesAt C.rule C.Takes (C.given change.now state.old) level (λ ancestors. item_stories ancestors (item_of node.old)) }
    ensures node { OnOk result ((ancestors : List Tag) → level ≡ level_of ancestors
        → item_of node.new ≡ changed_item C.rule (C.given change.now state.old) ancestors (item_of node.old)) }
    ensures left { OnOk result ((ancestors : List Tag) → level ≡ level_of ancestors
        → C.given change.now state.new ≡ left_after C.rule (C.given change.now state.old) (item_stories ancestors (item_of node.old))) }
    ensures entered { C.is_counted ≡ true → C.steps state.new ≤ C.steps state.old + item_count (item_of node.old) }
    ensures made { OnOk result (C.is_counted ≡ true → C.steps state.old + item_count (item_of node.new) ≤ C.steps state.new) }
{
    match node {
        Node::Elem(elem) => {
            change.meet(state, 1);
            change_elem(alloc, elem, level, change, state)
        }
        Node::Bytes(_) => {
            change.meet(state, 1);
            Ok(())
        }
        Node::Plain(plain) => {
            change.meet(state, plain.nodes());
            Ok(())
        }
    }
}

// The step of the element itself was counted by the caller.
#[cycle(stories)]
fn change_elem<S, C: StoryChange<S>>(
    alloc: Global,
    elem: &mut Elem,
    level: Level,
    change: &C,
    state: &mut S,
) -> Result<(), C::Error>
    requires taken { TakesAt C.rule C.Takes (C.given change.now state.old) level (λ ancestors. element_stories ancestors (tag_of elem.old) (kids_of elem.old)) }
    ensures tag { OnOk result (tag_of elem.new ≡ tag_of elem.old) }
    ensures kids { OnOk result ((ancestors : List Tag) → level ≡ level_of ancestors
        → kids_of elem.new ≡ changed_kids C.rule (C.given change.now state.old) ancestors (tag_of elem.old) (kids_of elem.old)) }
    ensures left { OnOk result ((ancestors : List Tag) → level ≡ level_of ancestors
        → C.given change.now state.new ≡ left_after C.rule (C.given change.now state.old) (element_stories ancestors (tag_of elem.old) (kids_of elem.old))) }
    ensures entered { C.is_counted ≡ true → C.steps state.new ≤ C.steps state.old + count (kids_of elem.old) }
    ensures made { OnOk result (C.is_counted ≡ true → C.steps state.old + count (kids_of elem.new) ≤ C.steps state.new) }
{
    if level.is_root(elem) {
        return change.change(elem, state);
    }
    let mut kids = elem.take_kids(alloc);
    match change_among(alloc, &mut kids, level.below(elem), change, state) {
        Ok(()) => {
            elem.return_kids(kids);
            Ok(())
        }
        // Where a change fails there are kids, and so an end tag.
        Err(error) => {
            elem.put_kids(kids);
            Err(error)
        }
    }
}
