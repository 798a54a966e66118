//! The bare text of a package, story by story.

ghost use Rattle.std.specs.Prelude.{◌≡◌};
ghost use Rattle.std.specs.List.{flat_map};
ghost use Rattle.redl_io.specs.Sink.{Puts};
ghost use Rattle.redl_tree.specs.Model.View.{tag_of};
ghost use Rattle.redl_opc.specs.Elements.{element_of};
ghost use Rattle.redl_order.specs.Borrowed.{all_borrowed};
ghost use Rattle.redl_bare.specs.Marks.{no_marks};
ghost use Rattle.redl_bare.specs.Units.{root_units, story_units};
ghost use Rattle.redl_bare.specs.Package.{stories_units};
ghost use Rattle.redl_bare.specs.BareText.{units_text};
ghost use Rattle.redl_bare.specs.Inside.Puts.{PutsUnits};
ghost use Rattle.redl_bare.specs.Inside.Views.{marks_view};

use crate::line::{close, put_story};
use crate::place::BarePlace;
use crate::units::Story;
use crate::walk::put_elem;
use crate::writer::Writer;
use redl_io::{Failed, Sink};
use redl_tree::{Elem, Word, is_word};

/// Puts the bare text of these stories and notes: their units with their marks, and nothing of how their file is made.
///
/// It makes no tree and takes no memory. The members of the stories have the kinds that an index gives them. `Failed` comes only
/// where the sink failed, and then it has only a prefix of the text.
pub fn put_bare<'a, K: Sink>(
    stories: Vec<&Elem<'a>>,
    writer: &mut Writer<'a, K>,
) -> Result<(), Failed>
    ensures { Puts K.told K.faults K.settled K.lenders writer.old.sink writer.new.sink (units_text (stories_units (all_borrowed stories.entry.items))) result }
{
    writer.restart();
    put_stories(stories, writer)?;
    close(&writer.line, &mut writer.sink)
}

fn put_stories<'a, K: Sink>(
    stories: Vec<&Elem<'a>>,
    writer: &mut Writer<'a, K>,
) -> Result<(), Failed>
    requires { marks_view writer.old.marks ≡ no_marks }
    ensures { PutsUnits K.told K.faults K.settled K.lenders writer.old writer.new (flat_map story_units (all_borrowed stories.entry.items)) result }
{
    for root in stories {
        put_root(root, writer)?;
    }
    Ok(())
}

// Puts a story with the line with which it begins.
fn put_root<'a, K: Sink>(root: &Elem<'a>, writer: &mut Writer<'a, K>) -> Result<(), Failed>
    requires { marks_view writer.old.marks ≡ no_marks }
    ensures { PutsUnits K.told K.faults K.settled K.lenders writer.old writer.new (story_units (element_of root.now)) result }
{
    put_begin(root, writer)?;
    put_elem(root, BarePlace::Open, writer)
}

fn put_begin<'a, K: Sink>(root: &Elem<'a>, writer: &mut Writer<'a, K>) -> Result<(), Failed>
    ensures { PutsUnits K.told K.faults K.settled K.lenders writer.old writer.new (root_units (tag_of root.now)) result }
{
    if is_word(root, Word::Document) {
        put_story(Story::Document, writer)
    } else if is_word(root, Word::Hdr) {
        put_story(Story::Header, writer)
    } else if is_word(root, Word::Ftr) {
        put_story(Story::Footer, writer)
    } else {
        Ok(())
    }
}
