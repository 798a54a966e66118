//! What is known of the stories of a package before their revisions are numbered.

ghost use Rattle.std.specs.Prelude.{◌≡◌, ◌<◌, ◌^◌, map, length, None, IfOk};
ghost use Rattle.redl_tree.specs.Model.Count.{count};
ghost use Rattle.redl_tree.specs.Model.View.{tag_of, kids_of};
ghost use Rattle.redl_tree.specs.Decisions.Packages.{stories};
ghost use Rattle.redl_opc.specs.Shape.{refusal};
ghost use Rattle.redl_moves.specs.Marks.{markings, RisesFrom};
ghost use Rattle.redl_index.specs.StoryFacts.{facts_of, facts_by, facts_in, element_by};

use crate::markers::{StoryMarkers, find_markers};
use crate::numbers::Numbers;
use redl_moves::Moves;
use redl_opc::Package;
use redl_tree::Elem;
use std::alloc::{AllocError, Global};

/// What is known of a story.
#[derive(Drop)]
pub(crate) struct StoryFacts<'a> {
    /// Its moves.
    pub(crate) moves: Moves,
    /// The attributes of its markers.
    pub(crate) tails: Vec<&'a [u8]>,
    /// Where its paragraphs end.
    pub(crate) ends: Vec<u64>,
    /// The numbers that its moves have so far.
    pub(crate) numbers: Numbers,
}

/// What is known of each story of a package, in their order. `Err` means out of memory.
///
/// A survey finds the same, and the rules in the same walk, which nobody asks for here.
pub(crate) fn known_stories<'a>(
    alloc: Global,
    pkg: &Package<'a>,
) -> Result<Vec<StoryFacts<'a>>, AllocError>
    ensures known { IfOk result (λ known. map facts_of known.items ≡ map facts_in (stories pkg.now)) }
    ensures shape { IfOk result (λ known. refusal pkg.now ≡ None) }
    ensures few { IfOk result (λ known. count pkg.now < 2 ^ 32) }
{
    let mut known = Vec::new(alloc);
    for part in 0..pkg.parts() {
        let Some(root) = pkg.story(part) else {
            continue;
        };
        known.push(StoryFacts::of(alloc, root)?)?;
    }
    Ok(known)
}

impl<'a> StoryFacts<'a> {
    // What is known of the story with this root. `Err` means out of memory.
    fn of(alloc: Global, root: &Elem<'a>) -> Result<StoryFacts<'a>, AllocError>
        requires few { count (kids_of root.now) < 2 ^ 32 }
        ensures { IfOk result (λ known. facts_of known ≡ facts_in (element_by (tag_of root.now) (kids_of root.now))) }
    {
        StoryFacts::of_markers(alloc, find_markers(alloc, root)?)
    }

    /// What is known of the story whose markers and ends these are. `Err` means out of memory.
    pub(crate) fn of_markers(
        alloc: Global,
        found: StoryMarkers<'a>,
    ) -> Result<StoryFacts<'a>, AllocError>
        requires few { length found.marks.items < 2 ^ 32 }
        requires rising { RisesFrom 0 (markings found.marks.items) }
        ensures { IfOk result (λ known. facts_of known ≡ facts_by found.entry) }
    {
        let numbers = vec![in alloc; 0; found.marks.len()]?;
        Ok(StoryFacts {
            moves: Moves::of(alloc, found.marks)?,
            tails: found.tails,
            ends: found.ends,
            numbers: Numbers {
                next: 0,
                moves: numbers,
            },
        })
    }
}
