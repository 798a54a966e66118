//! Leaves by their numbers.

ghost use Rattle.std.specs.Prelude.{◌≡◌, List, false, slice_get};
ghost use Rattle.redl_editor.specs.Kept.{AreKept, lent_story, count_of};
ghost use Rattle.redl_editor.specs.Stories.{states_kept, slots_kept};
ghost use Rattle.redl_editor.specs.Tables.{IsTable};
ghost use Rattle.redl_editor.specs.declared.story.Story.{Story as StoryModel};
ghost use Rattle.redl_leaves.specs.Lends.{lent_nodes};
ghost use Rattle.redl_tree.specs.Leaves.States.{lent};
ghost use Rattle.redl_tree.specs.Model.View.{Element};
ghost use Rattle.redl_tree.specs.declared.kinds.Say.{Say};

use crate::story::Story;
use crate::table::Table;
use redl_leaves::lend;
use redl_tree::Node;

/// How many leaves the story with this number has, and 0 if it is not there.
pub(crate) fn count_leaves(tables: &[Table], story: usize) -> usize
    ensures { (says : List Say) → (parts : List Element) → (stories : List StoryModel) → AreKept says parts stories tables.now
        → result ≡ count_of (slice_get parts story) }
{
    match tables.get(story) {
        Some(table) => table.places.count(),
        None => 0,
    }
}

/// The present nodes of the leaf with this number in the story with this number. `None` if it is not there.
pub(crate) fn find_present<'s, 'a>(
    stories: &'s [Story<'a>],
    tables: &[Table],
    story: usize,
    place: usize,
) -> Option<&'s [Node<'a>]>
    ensures { (says : List Say) → (parts : List Element) → AreKept says parts stories.now tables.now
        → lent_nodes result ≡ lent_story (slice_get stories.now story) place }
{
    let kept = stories.get(story)?;
    let table = tables.get(story)?;
    find_in(kept, table, place)
}

fn find_in<'s, 'a>(story: &'s Story<'a>, table: &Table, place: usize) -> Option<&'s [Node<'a>]>
    ensures { IsTable table.now (slots_kept story.now) → lent_nodes result ≡ slice_get (lent false (states_kept story.now)) place }
{
    if place >= table.places.count() {
        return None;
    }
    lend(&story.slots, table.places.way(place), false)
}
