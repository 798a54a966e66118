//! The excerpts of the revisions of a package that are wanted.

ghost use Rattle.std.specs.Prelude.{◌≡◌, IfOk, OnOk, map};
ghost use Rattle.std.specs.List.{flat_map};
ghost use Rattle.redl_opc.specs.Stories.{stories_of_part};
ghost use Rattle.redl_tree.specs.Model.View.{kids_of};
ghost use Rattle.redl_excerpts.specs.Excerpts.{TellsEach, excerpts_of, is_moved, is_wanted, package_mentions, wanted_nothing};
ghost use Rattle.redl_excerpts.specs.Mentions.{mentions, outside};

use crate::excerpt::Excerpt;
use crate::members::{Here, tell_members};
use redl_index::{Index, Revision};
use redl_opc::Package;
use redl_said::LinePlace;
use redl_tree::Elem;
use std::alloc::{AllocError, Global};

/// For each revision of a numbered package, in the order of their numbers, its excerpt if it is wanted, and else none. `Err` means
/// out of memory.
///
/// `wanted` says of each revision whether it is wanted; one of which it says nothing is not. The index is that of the package. It goes
/// over each story once, keeps nothing but the excerpts and the line of the present paragraph, and makes no line of a paragraph in
/// which nothing is wanted.
pub fn excerpts(
    alloc: Global,
    pkg: &Package,
    index: &Index,
    wanted: &[bool],
) -> Result<Vec<Option<Excerpt>>, AllocError>
    ensures { IfOk result (λ excerpts. excerpts.items ≡ excerpts_of pkg.now index.now wanted.now) }
{
    let revisions = index.revisions();
    let mut excerpts = wanted_excerpts(alloc, revisions, wanted)?;
    tell_stories(alloc, pkg, revisions, &mut excerpts)?;
    Ok(excerpts)
}

// An excerpt for each revision that is wanted, to which nothing is told.
fn wanted_excerpts(
    alloc: Global,
    revisions: &[Revision],
    wanted: &[bool],
) -> Result<Vec<Option<Excerpt>>, AllocError>
    ensures { IfOk result (λ excerpts. excerpts.items ≡ map (wanted_nothing wanted.now) revisions.now) }
{
    let mut excerpts = Vec::with_capacity(alloc, revisions.len())?;
    for revision in revisions {
        excerpts.push(wanted_excerpt(alloc, revision, wanted)?)?;
    }
    Ok(excerpts)
}

fn wanted_excerpt(
    alloc: Global,
    revision: &Revision,
    wanted: &[bool],
) -> Result<Option<Excerpt>, AllocError>
    ensures { IfOk result (λ excerpt. excerpt ≡ wanted_nothing wanted.now revision.now) }
{
    if !is_wanted(wanted, revision.number) {
        return Ok(None);
    }
    let excerpt = Excerpt::new(alloc, revision.kind)?;
    Ok(Some(excerpt))
}

fn is_wanted(wanted: &[bool], number: u32) -> bool
    ensures { result ≡ is_wanted wanted.now number }
{
    if number == 0 {
        return false;
    }
    match wanted.get(number as usize - 1) {
        Some(wanted) => *wanted,
        None => false,
    }
}

fn tell_stories(
    alloc: Global,
    pkg: &Package,
    revisions: &[Revision],
    excerpts: &mut Vec<Option<Excerpt>>,
) -> Result<(), AllocError>
    ensures { OnOk result (TellsEach excerpts.old.items excerpts.new.items (λ v. package_mentions (is_moved revisions.now v) v pkg.now)) }
{
    for part in 0..pkg.parts() {
        tell_part(alloc, pkg, part, revisions, excerpts)?;
    }
    Ok(())
}

fn tell_part(
    alloc: Global,
    pkg: &Package,
    part: u32,
    revisions: &[Revision],
    excerpts: &mut Vec<Option<Excerpt>>,
) -> Result<(), AllocError>
    ensures { OnOk result (TellsEach excerpts.old.items excerpts.new.items (λ v. flat_map (λ story. mentions (is_moved revisions.now v) v outside story.kids) (stories_of_part pkg.now part))) }
{
    match pkg.story(part) {
        Some(root) => {
            tell_story(alloc, root, revisions, excerpts)?;
            Ok(())
        }
        None => Ok(()),
    }
}

fn tell_story(
    alloc: Global,
    root: &Elem,
    revisions: &[Revision],
    excerpts: &mut Vec<Option<Excerpt>>,
) -> Result<(), AllocError>
    ensures { OnOk result (TellsEach excerpts.old.items excerpts.new.items (λ v. mentions (is_moved revisions.now v) v outside (kids_of root.now))) }
{
    let here = Here {
        in_text: false,
        siblings: &[],
        owner: &[],
        owner_place: LinePlace::end(),
        whole: b"",
    };
    tell_members(
        alloc,
        revisions,
        root.kids(),
        here,
        LinePlace::end(),
        excerpts,
    )?;
    Ok(())
}
