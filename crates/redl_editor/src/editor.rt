//! The editor: a package whose stories are kept leaf by leaf, each as it is under the present says.

ghost use Rattle.std.specs.Prelude.{◌≡◌, ◌==◌, ◌<◌, ◌≤◌, ◌+◌, ◌∷◌, ◌↔◌, ℕ, [], length, map, replicate, true, is_some, nat_lt, Some, IfOk, IfSome, OnOk, OnErr, IsOk};
ghost use Rattle.redl_editor.specs.Changes.{setting_of, is_changed, former_of};
ghost use Rattle.redl_editor.specs.Costs.{AreCounted, parts_cost};
ghost use Rattle.redl_editor.specs.Documents.{IsNumbered, count_at, leaf_of, present_at};
ghost use Rattle.redl_editor.specs.Elsewhere.{StaysElsewhere};
ghost use Rattle.redl_editor.specs.Kept.{count_of};
ghost use Rattle.redl_editor.specs.Parts.{story_number};
ghost use Rattle.redl_io.specs.Sink.{Puts};
ghost use Rattle.redl_leaves.specs.Lends.{lent_nodes};
ghost use Rattle.redl_opc.specs.Parts.{story};
ghost use Rattle.redl_tree.specs.Decisions.Fates.{say_of};
ghost use Rattle.redl_tree.specs.Decisions.Packages.{roots_are_plain, pass_package, stories};
ghost use Rattle.redl_tree.specs.Leaves.Settings.{set_each, set_say};
ghost use Rattle.redl_tree.specs.Model.Text.{text};
ghost use Rattle.redl_tree.specs.declared.kinds.Say.TheVariants.{Keep};

use crate::bulk::set_all;
use crate::changing::Change;
use crate::finding::{count_leaves, find_present};
use crate::numbering::{find_part, part_at, story_parts};
use crate::story::Story;
use crate::table::{Table, tables_of};
use crate::taking::take_stories;
use crate::writing::write_package;
use redl_io::{Failed, Sink};
use redl_opc::Package;
use redl_resolve::Steps;
use redl_tree::{Node, Say};
use std::alloc::{AllocError, Global};
use std::marker::{Brand, Model};
use std::sync::ledger::{Blank, Ledger};

/// A package and a say for each of its revisions, which contracts see as its original nodes and these says. Its stories are kept leaf by
/// leaf, each as it is at present.
#[derive(Drop)]
pub struct Editor<'a> {
    alloc: Global,
    nodes: Vec<Node<'a>>,
    stories: Vec<Story<'a>>,
    tables: Vec<Table>,
    says: Vec<Say>,
    // The part of each story.
    parts: Vec<u32>,
}

impl<'a> Model for Editor<'a> {
    ghost use Rattle.std.specs.Coded.{codes};
    ghost use Rattle.redl_editor.specs.Documents.{Document, document_code, IsConsistent};
    ghost use Rattle.redl_editor.specs.Stories.{original_package};

    ghost Value = { Document };

    ghost coded = { document_code (Prim.hlevel codes) (Prim.hlevel codes) };

    ghost view = { λ editor. record { nodes = original_package editor.nodes.items editor.stories.items; says = editor.says.items } };

    ghost invariant = { λ editor. IsConsistent editor.nodes.items editor.stories.items editor.tables.items editor.says.items editor.parts.items };
}

impl<'a> Editor<'a> {
    /// An editor of this package, where each of so many revisions is undecided. `Err` means out of memory, and drops the package.
    ///
    /// The package has the kinds and numbers that an index gave it.
    pub fn new(alloc: Global, pkg: Package<'a>, revisions: u32) -> Result<Editor<'a>, AllocError>
        requires numbered { IsNumbered pkg }
        requires plain { roots_are_plain [] pkg ≡ true }
        ensures { IfOk result (λ editor. editor ≡ record { nodes = pkg.entry; says = replicate revisions Keep }) }
    {
        let parts = story_parts(alloc, &pkg)?;
        let mut nodes = pkg.into_nodes();
        let stories = take_stories(alloc, &mut nodes)?;
        let tables = tables_of(alloc, &stories)?;
        let says = vec![in alloc; Say::Keep; revisions as usize]?;
        Ok(Editor {
            alloc,
            nodes,
            stories,
            tables,
            says,
            parts,
        })
    }

    /// The say of each revision. The first is that of revision 1.
    pub fn says(&self) -> &[Say]
        ensures { result.now ≡ self.now.says }
    {
        &self.says
    }

    /// The number of stories of the package.
    pub fn stories(&self) -> usize
        ensures { result ≡ length (stories self.now.nodes) }
    {
        self.stories.len()
    }

    /// The number of the story of a part, by which `leaves` and `leaf` know it. `None` exactly where the part is no story, or no part
    /// has this number.
    pub fn story_of(&self, part: u32) -> Option<usize>
        ensures value { result ≡ story_number self.now.nodes part }

        // The leaves of this story are those of the part.
        ensures leaves { IfSome result (λ number. count_at self.now number ≡ count_of (story self.now.nodes part)) }
        ensures leaf { IfSome result (λ number. (place : ℕ) → present_at self.now number place ≡ leaf_of self.now.says (story self.now.nodes part) place) }
    {
        find_part(&self.parts, part)
    }

    /// The part that a story is of. `None` exactly where the package has no story with this number.
    pub fn part_of(&self, story: usize) -> Option<u32>
        ensures part { (part : ℕ) → (result ≡ Some part) ↔ (story_number self.now.nodes part ≡ Some story) }
        ensures some { is_some result ≡ nat_lt story (length (stories self.now.nodes)) }
    {
        part_at(&self.parts, story)
    }

    /// The number of leaves of a story, and 0 where the package has no story with this number. Stories are numbered from 0.
    pub fn leaves(&self, story: usize) -> usize
        ensures { result ≡ count_at self.now story }
    {
        count_leaves(&self.tables, story)
    }

    /// The nodes of a leaf as it is at present: none of them where a table, a row, a cell or a content control round it goes. It takes
    /// no memory. `None` exactly where the story has no leaf with this number. Leaves are numbered from 0 in each story.
    pub fn leaf(&self, story: usize, place: usize) -> Option<&[Node<'a>]>
        ensures { lent_nodes result ≡ present_at self.now story place }
    {
        find_present(&self.stories, &self.tables, story, place)
    }

    /// Sets what is said of a revision. See `set_many`.
    pub fn set(&mut self, rev: u32, say: Say) -> Result<(), AllocError>
        ensures says { OnOk result (self.new ≡ record self.old { says = set_say self.old.says rev say }) }
        ensures untouched { OnErr result (self.new ≡ self.old) }
        ensures own { say_of self.old.says rev ≡ say → IsOk result }

        // A leaf without a member or a marker of the revision stays as it was, unless something round it goes or lives again.
        ensures elsewhere { OnOk result (StaysElsewhere (λ n. n == rev) self.old self.new) }
    {
        self.set_many(&[Change { rev, say }])
    }

    /// Sets what is said of revisions, one after the other. Each leaf that holds a member or a marker of a revision of which something
    /// else is said then is made anew once. Revisions that the package does not have are passed over.
    ///
    /// `Err` means out of memory, and nothing is changed.
    pub fn set_many(&mut self, changes: &[Change]) -> Result<(), AllocError>
        ensures says { OnOk result (self.new ≡ record self.old { says = set_each self.old.says (map setting_of changes.now) }) }
        ensures untouched { OnErr result (self.new ≡ self.old) }

        // Where all of it is said already it takes no memory.
        ensures own { former_of self.old.says (map setting_of changes.now) ≡ [] → IsOk result }

        // So does a leaf without a member or a marker of a revision of which something else is said then.
        ensures elsewhere { OnOk result (StaysElsewhere (is_changed self.old.says self.new.says) self.old self.new) }
    {
        self.set_many_uncounted::<Brand>(changes, Blank::new(1))
    }

    /// The same as `set`, with the steps counted.
    pub fn set_counted<L: Ledger>(
        &mut self,
        rev: u32,
        say: Say,
        steps: &mut Steps<L>,
    ) -> Result<(), AllocError>
        ensures says { OnOk result (self.new ≡ record self.old { says = set_say self.old.says rev say }) }
        ensures untouched { OnErr result (self.new ≡ self.old) }
        ensures own { say_of self.old.says rev ≡ say → IsOk result }
        ensures steps { steps.new ≤ steps.old + parts_cost (is_changed self.old.says (set_say self.old.says rev say)) (stories self.old.nodes) }
        ensures counted { OnOk result (AreCounted (is_changed self.old.says self.new.says) self.new.says steps.old steps.new (stories self.old.nodes)) }
    {
        self.set_many_counted(&[Change { rev, say }], steps)
    }

    /// The same as `set_many`, with the steps counted: one for each node that is looked at in these leaves and on their paths.
    pub fn set_many_counted<L: Ledger>(
        &mut self,
        changes: &[Change],
        steps: &mut Steps<L>,
    ) -> Result<(), AllocError>
        ensures says { OnOk result (self.new ≡ record self.old { says = set_each self.old.says (map setting_of changes.now) }) }
        ensures untouched { OnErr result (self.new ≡ self.old) }
        ensures own { former_of self.old.says (map setting_of changes.now) ≡ [] → IsOk result }

        // At most the sizes of these leaves and the lengths of their paths, also with an error.
        ensures steps { steps.new ≤ steps.old
            + parts_cost (is_changed self.old.says (set_each self.old.says (map setting_of changes.now))) (stories self.old.nodes) }

        // At least as many as each of these leaves has nodes then.
        ensures counted { OnOk result (AreCounted (is_changed self.old.says self.new.says) self.new.says steps.old steps.new (stories self.old.nodes)) }
    {
        set_all(
            self.alloc,
            &mut self.stories,
            &self.tables,
            &mut self.says,
            changes,
            steps,
        )
    }

    /// Puts the text of the package as it is at present, and takes no memory. `Failed` comes only where the sink failed.
    pub fn write<K: Sink>(&self, out: &mut K) -> Result<(), Failed>
        ensures { Puts K.told K.faults K.settled K.lenders out.old out.new (text (pass_package self.now.says self.now.nodes)) result }
    {
        write_package(&self.nodes, &self.stories, out)
    }

    // The same as `set_many`, with a counter by this blank, which nobody reads.
    fn set_many_uncounted<L: Ledger>(
        &mut self,
        changes: &[Change],
        blank: Blank,
    ) -> Result<(), AllocError>
        requires name { blank.name ≡ L.name }
        requires parts { blank.parts ≡ L.parts }
        requires some { 0 < L.parts }
        ensures says { OnOk result (self.new ≡ record self.old { says = set_each self.old.says (map setting_of changes.now) }) }
        ensures untouched { OnErr result (self.new ≡ self.old) }
        ensures own { former_of self.old.says (map setting_of changes.now) ≡ [] → IsOk result }
    {
        self.set_many_counted(changes, &mut Steps::<L>::new(blank))
    }
}
