//! The stories of a package.

ghost use Rattle.std.specs.Prelude.{◌≡◌, [], IfOk, OnOk, false, replicate};
ghost use Rattle.redl_opc.specs.Elements.{element_of};
ghost use Rattle.redl_opc.specs.Parts.{story};
ghost use Rattle.redl_opc.specs.Shape.{parts_of};
ghost use Rattle.redl_numbering.specs.Known.{IsKnown};
ghost use Rattle.redl_page_numbers.specs.Walks.{name_at, nothing_known, part_walked, parts_walked, story_added, story_walked};

use crate::row::Row;
use crate::walk::walk_nodes;
use crate::walked::Walk;
use redl_io::Text;
use redl_lists::Tables;
use redl_numbering::Lists;
use redl_opc::Package;
use redl_tree::{Elem, Word, is_word};
use std::alloc::{AllocError, Global};
use std::marker::Model;
use std::mem;

/// The paragraphs of a story that have a number.
#[derive(Drop)]
pub(crate) struct StoryRows {
    pub(crate) name: Text,
    pub(crate) is_document: bool,
    pub(crate) rows: Vec<Row>,
}

impl Model for StoryRows {
    ghost use Rattle.redl_page_numbers.specs.Walks.{StoryRows as Listed};

    ghost Value = { Listed };

    ghost view = { λ s. record { name = s.name; is_document = s.is_document; rows = s.rows.items } };
}

/// The stories so far, and which nums are used in them.
#[derive(Drop)]
pub(crate) struct Stories {
    pub(crate) stories: Vec<StoryRows>,
    pub(crate) used: Vec<bool>,
}

impl Model for Stories {
    ghost use Rattle.redl_page_numbers.specs.Walks.{Stories as Known};

    ghost Value = { Known };

    ghost view = { λ s. record { stories = s.stories.items; used = s.used.items } };
}

/// The stories of a package, where the document's num and styles say this. `Err` means out of memory, here and below.
pub(crate) fn stories_of(
    alloc: Global,
    pkg: &Package,
    tables: &Tables,
    lists: &Lists<'_>,
) -> Result<Stories, AllocError>
    requires known { IsKnown lists.now }
    requires same { lists.now.tables.now ≡ tables.now }
    ensures { IfOk result (λ known. known ≡ parts_walked tables.now (parts_of pkg.now) (nothing_known tables.now)) }
{
    let mut known = Stories::new(alloc, tables.nums.rows().len())?;
    walk_parts(alloc, pkg, lists, &mut known)?;
    Ok(known)
}

fn walk_parts(
    alloc: Global,
    pkg: &Package,
    lists: &Lists<'_>,
    known: &mut Stories,
) -> Result<(), AllocError>
    requires { IsKnown lists.now }
    ensures { OnOk result (known.new ≡ parts_walked lists.now.tables.now (parts_of pkg.now) known.old) }
{
    for part in 0..pkg.parts() {
        walk_part(alloc, pkg, part, lists, known)?;
    }
    Ok(())
}

fn walk_part(
    alloc: Global,
    pkg: &Package,
    part: u32,
    lists: &Lists<'_>,
    known: &mut Stories,
) -> Result<(), AllocError>
    requires { IsKnown lists.now }
    ensures { OnOk result (known.new ≡ part_walked lists.now.tables.now (name_at pkg.now part) (story pkg.now part) known.old) }
{
    match pkg.story(part) {
        Some(root) => walk_story(alloc, lists, name_of(pkg, part), root, known),
        None => Ok(()),
    }
}

fn name_of<'n>(pkg: &'n Package, part: u32) -> &'n [u8]
    ensures { result.now ≡ name_at pkg.now part }
{
    match pkg.part_name(part) {
        Some(name) => name,
        None => b"",
    }
}

fn walk_story(
    alloc: Global,
    lists: &Lists<'_>,
    name: &[u8],
    root: &Elem,
    known: &mut Stories,
) -> Result<(), AllocError>
    requires { IsKnown lists.now }
    ensures { OnOk result (known.new ≡ story_walked lists.now.tables.now name.now (element_of root.now) known.old) }
{
    let used = mem::replace(&mut known.used, Vec::new(alloc));
    let mut walk = Walk::begin(alloc, used)?;
    walk_nodes(alloc, lists, true, root.kids(), &mut walk)?;
    known.add(alloc, name, root, walk)
}

impl Stories {
    // No story is known, and none of so many nums is used.
    fn new(alloc: Global, nums: usize) -> Result<Stories, AllocError>
        ensures { IfOk result (λ known. known ≡ record { stories = []; used = replicate nums false }) }
    {
        Ok(Stories {
            stories: Vec::new(alloc),
            used: vec![in alloc; false; nums]?,
        })
    }

    // A story was walked over.
    fn add(&mut self, alloc: Global, name: &[u8], root: &Elem, walk: Walk) -> Result<(), AllocError>
        ensures { OnOk result (self.new ≡ story_added name.now (element_of root.now) walk self.old) }
    {
        self.stories.push(StoryRows {
            name: Text::copy_of(alloc, name)?,
            is_document: is_word(root, Word::Document),
            rows: walk.rows,
        })?;
        self.used = walk.used;
        Ok(())
    }
}
