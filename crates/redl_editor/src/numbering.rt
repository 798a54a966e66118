//! The stories of a package by its parts.

ghost use Rattle.std.specs.Prelude.{◌≡◌, slice_get, IfOk};
ghost use Rattle.redl_editor.specs.Parts.{story_number, story_parts};
ghost use Rattle.redl_tree.specs.Model.Nodes.{Nodes};

use redl_opc::Package;
use std::alloc::{AllocError, Global};

/// The numbers of the parts that are stories, in their order. `Err` means out of memory.
pub(crate) fn story_parts(alloc: Global, pkg: &Package) -> Result<Vec<u32>, AllocError>
    ensures { IfOk result (λ parts. parts.items ≡ story_parts pkg.now) }
{
    let mut parts = Vec::new(alloc);
    for part in 0..pkg.parts() {
        if pkg.story(part).is_some() {
            parts.push(part)?;
        }
    }
    Ok(parts)
}

/// The number of the story of a part. `None` if it is not among the parts that are stories.
pub(crate) fn find_part(parts: &[u32], part: u32) -> Option<usize>
    ensures { (nodes : Nodes) → parts.now ≡ story_parts nodes → result ≡ story_number nodes part }
{
    parts.binary_search(&part).ok()
}

/// The part of the story with this number. `None` if there is no such story.
pub(crate) fn part_at(parts: &[u32], story: usize) -> Option<u32>
    ensures { result ≡ slice_get parts.now story }
{
    parts.get(story).copied()
}
