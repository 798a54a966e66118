//! The clauses of a package.

ghost use Rattle.std.specs.Prelude.{◌≡◌, [], IfOk, OnOk};
ghost use Rattle.redl_opc.specs.Elements.{element_of};
ghost use Rattle.redl_opc.specs.Stories.{stories_of_part};
ghost use Rattle.redl_tree.specs.Decisions.Packages.{stories};
ghost use Rattle.redl_numbering.specs.Known.{IsKnown};
ghost use Rattle.redl_clauses.specs.Clauses.{clauses_of, stories_walked, story_walked};

use crate::tables::package_tables;
use crate::walk::walk_nodes;
use crate::walked::Walk;
use redl_io::Text;
use redl_numbering::{Counting, Lists};
use redl_opc::Package;
use redl_tree::Elem;
use std::alloc::{AllocError, Global};

/// What is said of the places of so many revisions of a numbered package, in the order of their numbers, as `clause_at` reads it. `Err`
/// means out of memory, here and below.
pub fn clauses_of(
    alloc: Global,
    pkg: &Package,
    count: usize,
) -> Result<Vec<Option<Text>>, AllocError>
    ensures { IfOk result (λ told. told.items ≡ clauses_of pkg.now count) }
{
    let tables = package_tables(alloc, pkg)?;
    let lists = Lists::of(alloc, &tables)?;
    let mut walk = Walk::new(alloc, count)?;
    walk_stories(alloc, pkg, &lists, &mut walk)?;
    Ok(walk.into_told())
}

fn walk_stories(
    alloc: Global,
    pkg: &Package,
    lists: &Lists<'_>,
    walk: &mut Walk,
) -> Result<(), AllocError>
    requires { IsKnown lists.now }
    ensures { OnOk result (walk.new ≡ stories_walked lists.now.tables.now (stories pkg.now) walk.old) }
{
    for part in 0..pkg.parts() {
        walk_part(alloc, pkg, part, lists, walk)?;
    }
    Ok(())
}

fn walk_part(
    alloc: Global,
    pkg: &Package,
    part: u32,
    lists: &Lists<'_>,
    walk: &mut Walk,
) -> Result<(), AllocError>
    requires { IsKnown lists.now }
    ensures { OnOk result (walk.new ≡ stories_walked lists.now.tables.now (stories_of_part pkg.now part) walk.old) }
{
    match pkg.story(part) {
        Some(root) => walk_story(alloc, root, lists, walk),
        None => Ok(()),
    }
}

fn walk_story(
    alloc: Global,
    root: &Elem,
    lists: &Lists<'_>,
    walk: &mut Walk,
) -> Result<(), AllocError>
    requires { IsKnown lists.now }
    ensures { OnOk result (walk.new ≡ story_walked lists.now.tables.now (element_of root.now) walk.old) }
{
    walk.counting = Counting::new(alloc)?;
    walk_nodes(alloc, lists, root.kids(), walk)?;
    walk.settle(alloc, &Text::copy_of(alloc, b"")?)
}
