//! The text of a package whose stories are kept apart.

ghost use Rattle.std.specs.Prelude.{◌≡◌, ◌&&◌, List, map, drop, IfOk, if◌then◌else◌};
ghost use Rattle.redl_editor.specs.Stories.{states_kept};
ghost use Rattle.redl_io.specs.Sink.{Puts};
ghost use Rattle.redl_tree.specs.Decisions.Packages.{level_of, is_data_level, is_story_root, stories_in, element_stories, left_after, changed_in, changed_package};
ghost use Rattle.redl_tree.specs.Decisions.StoryWalk.{changed_kids, changed_item, item_stories};
ghost use Rattle.redl_tree.specs.Leaves.Shown.{shown_rule, next_states, later_states};
ghost use Rattle.redl_tree.specs.Leaves.States.{shown};
ghost use Rattle.redl_tree.specs.Model.Nodes.{Tag};
ghost use Rattle.redl_tree.specs.Model.Text.{text, item_text, element_text};
ghost use Rattle.redl_tree.specs.Model.View.{nodes_of, item_of, tag_of, kids_of};

use crate::story::Story;
use redl_io::{Failed, Sink, put_piece};
use redl_leaves::write_slots;
use redl_output::{write_close, write_open};
use redl_tree::{Elem, Level, Node};

/// Puts the text of these nodes, where each story is as it is kept, and takes no memory. `Failed` comes only where the sink failed.
pub(crate) fn write_package<K: Sink>(
    nodes: &[Node],
    stories: &[Story],
    out: &mut K,
) -> Result<(), Failed>
    ensures { Puts K.told K.faults K.settled K.lenders out.old out.new
        (text (changed_package shown_rule (map states_kept stories.now) (nodes_of nodes.now))) result }
{
    write_among(nodes, Level::Top, stories, 0, out)?;
    Ok(())
}

// The same for nodes at a level of their package, where this many stories come before them. It gives how many come before what is
// after them.
#[cycle(write)]
fn write_among<K: Sink>(
    nodes: &[Node],
    level: Level,
    stories: &[Story],
    first: usize,
    out: &mut K,
) -> Result<usize, Failed>
    ensures text { (ancestors : List Tag) → level ≡ level_of ancestors → Puts K.told K.faults K.settled K.lenders out.old out.new
        (text (changed_in shown_rule (drop first (map states_kept stories.now)) ancestors (nodes_of nodes.now))) result }
    ensures next { IfOk result (λ next. (ancestors : List Tag) → level ≡ level_of ancestors → drop next (map states_kept stories.now)
        ≡ left_after shown_rule (drop first (map states_kept stories.now)) (stories_in ancestors (nodes_of nodes.now))) }
{
    let mut next = first;
    for node in nodes {
        next = write_node(node, level, stories, next, out)?;
    }
    Ok(next)
}

#[cycle(write)]
fn write_node<K: Sink>(
    node: &Node,
    level: Level,
    stories: &[Story],
    first: usize,
    out: &mut K,
) -> Result<usize, Failed>
    ensures text { (ancestors : List Tag) → level ≡ level_of ancestors → Puts K.told K.faults K.settled K.lenders out.old out.new
        (item_text (changed_item shown_rule (drop first (map states_kept stories.now)) ancestors (item_of node.now))) result }
    ensures next { IfOk result (λ next. (ancestors : List Tag) → level ≡ level_of ancestors → drop next (map states_kept stories.now)
        ≡ left_after shown_rule (drop first (map states_kept stories.now)) (item_stories ancestors (item_of node.now))) }
{
    match node {
        Node::Elem(elem) => write_elem(elem, level, stories, first, out),
        Node::Bytes(text) => {
            put_piece(text, out)?;
            Ok(first)
        }
        Node::Plain(plain) => {
            put_piece(plain.text(), out)?;
            Ok(first)
        }
    }
}

#[cycle(write)]
fn write_elem<K: Sink>(
    elem: &Elem,
    level: Level,
    stories: &[Story],
    first: usize,
    out: &mut K,
) -> Result<usize, Failed>
    ensures text { (ancestors : List Tag) → level ≡ level_of ancestors → Puts K.told K.faults K.settled K.lenders out.old out.new
        (element_text (tag_of elem.now) (text (changed_kids shown_rule (drop first (map states_kept stories.now)) ancestors (tag_of elem.now) (kids_of elem.now)))) result }
    ensures next { IfOk result (λ next. (ancestors : List Tag) → level ≡ level_of ancestors → drop next (map states_kept stories.now)
        ≡ left_after shown_rule (drop first (map states_kept stories.now)) (element_stories ancestors (tag_of elem.now) (kids_of elem.now))) }
{
    write_open(elem, out)?;
    match elem.close() {
        None => Ok(after_empty(elem, level, stories, first)),
        Some(space) => {
            let next = write_kids(elem, level, stories, first, out)?;
            write_close(elem, space, out)?;
            Ok(next)
        }
    }
}

#[cycle(write)]
fn write_kids<K: Sink>(
    elem: &Elem,
    level: Level,
    stories: &[Story],
    first: usize,
    out: &mut K,
) -> Result<usize, Failed>
    ensures text { (ancestors : List Tag) → level ≡ level_of ancestors → Puts K.told K.faults K.settled K.lenders out.old out.new
        (text (changed_kids shown_rule (drop first (map states_kept stories.now)) ancestors (tag_of elem.now) (kids_of elem.now))) result }
    ensures next { IfOk result (λ next. (ancestors : List Tag) → level ≡ level_of ancestors → drop next (map states_kept stories.now)
        ≡ left_after shown_rule (drop first (map states_kept stories.now)) (element_stories ancestors (tag_of elem.now) (kids_of elem.now))) }
{
    if level.is_root(elem) {
        write_story(stories, first, out)?;
        return Ok(after_story(stories, first));
    }
    write_among(elem.kids(), level.below(elem), stories, first, out)
}

// How many stories come before what is after an element that holds nothing.
fn after_empty(elem: &Elem, level: Level, stories: &[Story], first: usize) -> usize
    ensures { drop result (map states_kept stories.now)
        ≡ (if is_data_level level && is_story_root (tag_of elem.now) then later_states (drop first (map states_kept stories.now)) else drop first (map states_kept stories.now)) }
{
    if level.is_root(elem) {
        after_story(stories, first)
    } else {
        first
    }
}

// How many stories come before what is after the story with this number.
fn after_story(stories: &[Story], number: usize) -> usize
    ensures { drop result (map states_kept stories.now) ≡ later_states (drop number (map states_kept stories.now)) }
{
    if number < stories.len() {
        number + 1
    } else {
        number
    }
}

// The story with this number, if it is there.
fn write_story<K: Sink>(stories: &[Story], number: usize, out: &mut K) -> Result<(), Failed>
    ensures { Puts K.told K.faults K.settled K.lenders out.old out.new (text (shown (next_states (drop number (map states_kept stories.now))))) result }
{
    match stories.get(number) {
        Some(story) => write_slots(&story.slots, out),
        None => Ok(()),
    }
}
