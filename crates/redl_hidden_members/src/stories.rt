//! The stories of a package.

ghost use Rattle.std.specs.Prelude.{◌≡◌, IfOk};
ghost use Rattle.redl_opc.specs.Elements.{element_of};
ghost use Rattle.redl_opc.specs.Stories.{stories_of_part};
ghost use Rattle.redl_tree.specs.Decisions.Packages.{stories};
ghost use Rattle.redl_hidden_members.specs.Members.{package_hidden_members, stories_members, story_members};

use crate::around::start;
use crate::idle::Within;
use crate::walk::walk_kids;
use crate::walked::Walk;
use redl_hidden::HiddenStyles;
use redl_opc::Package;
use redl_tree::Elem;
use std::alloc::{AllocError, Global};

/// Of so many revisions of a numbered package, whether each has to do with hidden text, in the order of their numbers. `Err` means out of
/// memory, here and below.
///
/// It goes over each story once, and takes memory for one answer for each revision and for the styles of the package.
#[tactic(auto, unfolding(crate::specs::Members::package_hidden_members))]
pub fn hidden_of(alloc: Global, pkg: &Package, count: usize) -> Result<Vec<bool>, AllocError>
    ensures { IfOk result (λ hidden. hidden.items ≡ package_hidden_members pkg.now count) }
{
    let styles = HiddenStyles::of(alloc, pkg)?;
    let none = vec![in alloc; false; count]?;
    walk_stories(alloc, pkg, &styles, none)
}

fn walk_stories(
    alloc: Global,
    pkg: &Package,
    styles: &HiddenStyles<'_>,
    none: Vec<bool>,
) -> Result<Vec<bool>, AllocError>
    ensures { IfOk result (λ hidden. hidden.items ≡ stories_members styles.now (stories pkg.now) none.items) }
{
    let mut hidden = none;
    for part in 0..pkg.parts() {
        hidden = walk_part(alloc, pkg, part, styles, hidden)?;
    }
    Ok(hidden)
}

fn walk_part(
    alloc: Global,
    pkg: &Package,
    part: u32,
    styles: &HiddenStyles<'_>,
    hidden: Vec<bool>,
) -> Result<Vec<bool>, AllocError>
    ensures { IfOk result (λ more. more.items ≡ stories_members styles.now (stories_of_part pkg.now part) hidden.items) }
{
    match pkg.story(part) {
        Some(root) => walk_story(alloc, root, styles, hidden),
        None => Ok(hidden),
    }
}

fn walk_story(
    alloc: Global,
    root: &Elem,
    styles: &HiddenStyles<'_>,
    hidden: Vec<bool>,
) -> Result<Vec<bool>, AllocError>
    ensures { IfOk result (λ more. more.items ≡ story_members styles.now (element_of root.now) hidden.items) }
{
    let mut walk = Walk::new(alloc, hidden);
    let within = Within {
        styles,
        at: start(),
    };
    walk_kids(alloc, within, root, &mut walk)?;
    Ok(walk.into_hidden())
}
