//! The walk over the stories of a package.

ghost use Rattle.std.specs.Prelude.{◌≡◌, IfOk, OnOk};
ghost use Rattle.redl_opc.specs.Elements.{element_of};
ghost use Rattle.redl_opc.specs.Stories.{stories_of_part};
ghost use Rattle.redl_tree.specs.Decisions.Packages.{stories};
ghost use Rattle.redl_spans.specs.Stories.{package_walked, stories_walked, story_walked};

use crate::walk::walk_nodes;
use crate::walked::Walk;
use redl_opc::Package;
use redl_tree::Elem;
use std::alloc::{AllocError, Global};

/// What the members in a numbered package hold, and where its comments are. `Err` means out of memory, here and below.
///
/// It goes over each story once, and keeps the spans and the places.
pub fn walk_package(alloc: Global, pkg: &Package) -> Result<Walk, AllocError>
    ensures { IfOk result (λ walk. walk ≡ package_walked pkg.now) }
{
    let mut walk = Walk::new(alloc);
    walk_stories(pkg, &mut walk)?;
    Ok(walk)
}

fn walk_stories(pkg: &Package, walk: &mut Walk) -> Result<(), AllocError>
    ensures { OnOk result (walk.new ≡ stories_walked (stories pkg.now) walk.old) }
{
    for part in 0..pkg.parts() {
        walk_part(pkg, part, walk)?;
    }
    Ok(())
}

fn walk_part(pkg: &Package, part: u32, walk: &mut Walk) -> Result<(), AllocError>
    ensures { OnOk result (walk.new ≡ stories_walked (stories_of_part pkg.now part) walk.old) }
{
    match pkg.story(part) {
        Some(root) => walk_story(root, walk),
        None => Ok(()),
    }
}

fn walk_story(root: &Elem, walk: &mut Walk) -> Result<(), AllocError>
    ensures { OnOk result (walk.new ≡ story_walked (element_of root.now) walk.old) }
{
    walk.begin_story()?;
    walk_nodes(root.kids(), false, walk)
}
