//! The stories of a package, taken out of its nodes.

ghost use Rattle.std.specs.Prelude.{◌≡◌, ◌<◌, ◌^◌, ◌∷◌, [], List, IfOk, OnOk};
ghost use Rattle.redl_editor.specs.Inside.Begun.{AreBegun, AddsBegun};
ghost use Rattle.redl_editor.specs.Stories.{empty_rule};
ghost use Rattle.redl_tree.specs.Decisions.Packages.{level_of, stories_in, stories as stories_of, element_stories, changed_in, changed_package};
ghost use Rattle.redl_tree.specs.Decisions.StoryWalk.{changed_kids, changed_item, item_stories};
ghost use Rattle.redl_tree.specs.Model.Count.{count, item_count};
ghost use Rattle.redl_tree.specs.Model.Nodes.{Tag, no_nodes};
ghost use Rattle.redl_tree.specs.Model.View.{nodes_of, item_of, tag_of, kids_of, held_of, spaced_of};

use crate::story::Story;
use redl_leaves::{Spot, take_story};
use redl_tree::{Body, Elem, Level, Node, Spaced};
use std::alloc::{AllocError, Global};

/// Takes the kids out of the roots of all stories, and gives the stories in their order, where each revision is undecided. `Err`
/// means out of memory.
pub(crate) fn take_stories<'a>(
    alloc: Global,
    nodes: &mut [Node<'a>],
) -> Result<Vec<Story<'a>>, AllocError>
    ensures nodes { OnOk result (nodes_of nodes.new ≡ changed_package empty_rule tt (nodes_of nodes.old)) }
    ensures stories { IfOk result (λ stories. count (nodes_of nodes.old) < 2 ^ 32 → AreBegun (stories_of (nodes_of nodes.old)) stories.items) }
{
    let mut stories = Vec::new(alloc);
    take_among(alloc, nodes, Level::Top, &mut stories)?;
    Ok(stories)
}

// The same for nodes at a level of their package.
#[cycle(take)]
fn take_among<'a>(
    alloc: Global,
    nodes: &mut [Node<'a>],
    level: Level,
    stories: &mut Vec<Story<'a>>,
) -> Result<(), AllocError>
    ensures nodes { OnOk result ((ancestors : List Tag) → level ≡ level_of ancestors → nodes_of nodes.new ≡ changed_in empty_rule tt ancestors (nodes_of nodes.old)) }
    ensures stories { OnOk result ((ancestors : List Tag) → level ≡ level_of ancestors → count (nodes_of nodes.old) < 2 ^ 32
        → AddsBegun (stories_in ancestors (nodes_of nodes.old)) stories.old.items stories.new.items) }
{
    for i in 0..nodes.len() {
        take_node(alloc, &mut nodes[i], level, stories)?;
    }
    Ok(())
}

#[cycle(take)]
fn take_node<'a>(
    alloc: Global,
    node: &mut Node<'a>,
    level: Level,
    stories: &mut Vec<Story<'a>>,
) -> Result<(), AllocError>
    ensures node { OnOk result ((ancestors : List Tag) → level ≡ level_of ancestors → item_of node.new ≡ changed_item empty_rule tt ancestors (item_of node.old)) }
    ensures stories { OnOk result ((ancestors : List Tag) → level ≡ level_of ancestors → item_count (item_of node.old) < 2 ^ 32
        → AddsBegun (item_stories ancestors (item_of node.old)) stories.old.items stories.new.items) }
{
    match node {
        Node::Elem(elem) => take_elem(alloc, elem, level, stories),
        Node::Bytes(_) => Ok(()),
        Node::Plain(_) => Ok(()),
    }
}

#[cycle(take)]
fn take_elem<'a>(
    alloc: Global,
    elem: &mut Elem<'a>,
    level: Level,
    stories: &mut Vec<Story<'a>>,
) -> Result<(), AllocError>
    ensures tag { OnOk result (tag_of elem.new ≡ tag_of elem.old) }
    ensures kids { OnOk result ((ancestors : List Tag) → level ≡ level_of ancestors
        → kids_of elem.new ≡ changed_kids empty_rule tt ancestors (tag_of elem.old) (kids_of elem.old)) }
    ensures stories { OnOk result ((ancestors : List Tag) → level ≡ level_of ancestors → count (kids_of elem.old) < 2 ^ 32
        → AddsBegun (element_stories ancestors (tag_of elem.old) (kids_of elem.old)) stories.old.items stories.new.items) }
{
    if level.is_root(elem) {
        return take_root(alloc, elem, stories);
    }
    let below = level.below(elem);
    take_body(alloc, &mut elem.body, below, stories)
}

// The story of this root.
fn take_root<'a>(
    alloc: Global,
    root: &mut Elem<'a>,
    stories: &mut Vec<Story<'a>>,
) -> Result<(), AllocError>
    ensures tag { OnOk result (tag_of root.new ≡ tag_of root.old) }
    ensures taken { OnOk result (kids_of root.new ≡ no_nodes) }
    ensures stories { OnOk result (count (kids_of root.old) < 2 ^ 32
        → AddsBegun (record { tag = tag_of root.old; kids = kids_of root.old } ∷ []) stories.old.items stories.new.items) }
{
    let spot = Spot::in_root(root);
    let slots = take_story(alloc, root)?;
    stories.push(Story { spot, slots })?;
    Ok(())
}

#[cycle(take)]
fn take_body<'a>(
    alloc: Global,
    body: &mut Body<'a>,
    level: Level,
    stories: &mut Vec<Story<'a>>,
) -> Result<(), AllocError>
    ensures close { OnOk result ((held_of body.new).close ≡ (held_of body.old).close) }
    ensures kids { OnOk result ((ancestors : List Tag) → level ≡ level_of ancestors
        → (held_of body.new).kids ≡ changed_in empty_rule tt ancestors (held_of body.old).kids) }
    ensures stories { OnOk result ((ancestors : List Tag) → level ≡ level_of ancestors → count (held_of body.old).kids < 2 ^ 32
        → AddsBegun (stories_in ancestors (held_of body.old).kids) stories.old.items stories.new.items) }
{
    match body {
        Body::Empty => Ok(()),
        Body::Kids(kids) => take_among(alloc, kids, level, stories),
        Body::Spaced(spaced) => take_spaced(alloc, spaced, level, stories),
    }
}

// Apart from `take_body`, since a write through a box in a variant is proved in two steps.
#[cycle(take)]
fn take_spaced<'a>(
    alloc: Global,
    spaced: &mut Box<Spaced<'a>>,
    level: Level,
    stories: &mut Vec<Story<'a>>,
) -> Result<(), AllocError>
    ensures close { OnOk result ((spaced_of spaced.new.value).close ≡ (spaced_of spaced.old.value).close) }
    ensures kids { OnOk result ((ancestors : List Tag) → level ≡ level_of ancestors
        → (spaced_of spaced.new.value).kids ≡ changed_in empty_rule tt ancestors (spaced_of spaced.old.value).kids) }
    ensures stories { OnOk result ((ancestors : List Tag) → level ≡ level_of ancestors → count (spaced_of spaced.old.value).kids < 2 ^ 32
        → AddsBegun (stories_in ancestors (spaced_of spaced.old.value).kids) stories.old.items stories.new.items) }
{
    take_among(alloc, &mut spaced.kids, level, stories)
}
