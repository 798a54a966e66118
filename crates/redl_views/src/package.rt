//! The plain text of the pass of a package.

ghost use Rattle.std.specs.Prelude.{◌≡◌, [], if◌then◌else◌};
ghost use Rattle.std.specs.List.{flat_map};
ghost use Rattle.redl_io.specs.Sink.{Puts};
ghost use Rattle.redl_tree.specs.Decisions.Packages.{stories, pass_package};
ghost use Rattle.redl_tree.specs.Model.View.{tag_of, kids_of};
ghost use Rattle.redl_tree.specs.Revisions.Markers.{Value};
ghost use Rattle.redl_tree.specs.Revisions.Numbers.{IsIndexed};
ghost use Rattle.redl_opc.specs.Elements.{element_of};
ghost use Rattle.redl_opc.specs.Stories.{stories_of_part};
ghost use Rattle.redl_views.specs.PlainText.{plain_text};
ghost use Rattle.redl_shown.specs.Shown.{shown};
ghost use Rattle.redl_views.specs.Walks.{story_walk, walk_text};

use crate::known::Known;
use crate::summary::in_root;
use crate::walk::view_nodes;
use redl_io::{Failed, Sink};
use redl_opc::Package;
use redl_tree::{Elem, Say, Word, is_word};

/// Puts the plain text of the package under a say for each revision: the text, tabs and line breaks of its main story, and a
/// newline at the end of each paragraph that the pass leaves. `says[v - 1]` belongs to revision v.
///
/// It goes over the original once, makes no tree and takes no memory. The members of the package have the kinds and numbers
/// that an index gives them. `Failed` comes only where the sink failed, and then it has only a prefix of the text.
pub fn view<K: Sink>(pkg: &Package, says: &[Say], out: &mut K) -> Result<(), Failed>
    ensures plain { (value : Value) → IsIndexed value pkg.now
        → Puts K.told K.faults K.settled K.lenders out.old out.new (plain_text shown (pass_package says.now pkg.now)) result }
    ensures walk { Puts K.told K.faults K.settled K.lenders out.old out.new (walk_text says.now pkg.now) result }
{
    view_stories(pkg, says, out)
}

fn view_stories<K: Sink>(pkg: &Package, says: &[Say], out: &mut K) -> Result<(), Failed>
    ensures { Puts K.told K.faults K.settled K.lenders out.old out.new (flat_map (story_walk says.now) (stories pkg.now)) result }
{
    for part in 0..pkg.parts() {
        view_part(pkg, part, says, out)?;
    }
    Ok(())
}

fn view_part<K: Sink>(pkg: &Package, part: u32, says: &[Say], out: &mut K) -> Result<(), Failed>
    ensures { Puts K.told K.faults K.settled K.lenders out.old out.new (flat_map (story_walk says.now) (stories_of_part pkg.now part)) result }
{
    match pkg.story(part) {
        Some(root) => view_story(root, says, out),
        None => Ok(()),
    }
}

fn view_story<K: Sink>(root: &Elem, says: &[Say], out: &mut K) -> Result<(), Failed>
    ensures { Puts K.told K.faults K.settled K.lenders out.old out.new (story_walk says.now (element_of root.now)) result }
{
    if is_word(root, Word::Document) {
        view_nodes(
            root.kids(),
            says,
            in_root(says, root),
            Known::nothing(),
            out,
        )?;
    }
    Ok(())
}
