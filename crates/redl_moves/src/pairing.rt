//! The paired moves of a story.

ghost use Rattle.std.specs.Prelude.{◌≡◌, ◌^◌, ◌<◌, ◌++◌, List, length, map, IfOk, OnOk, option_map, option_to_list};
ghost use Rattle.redl_tree.specs.Revisions.Moves.{Marking, paired_moves, from_start};
ghost use Rattle.redl_moves.specs.Marks.{marking_of, markings, edge_of, move_of, RisesFrom};
ghost use Rattle.redl_moves.specs.Places.{move_begun, move_with_name};
ghost use Rattle.redl_moves.specs.Inside.RangeIndexes.{AreRangeIndexes};

use crate::marker::{Edge, Marker, Move};
use crate::range_index::RangeIndexes;
use std::alloc::{AllocError, Global};

/// The paired moves of a story with these markers, in the order of their source starts.
///
/// The markers are given in the order of their positions. A name is paired where one source start and one target start alone
/// have it, each is the only start of its kind with its id, one end of its kind alone has that id and comes after the start, and
/// none of the four markers is loose. Its time grows with the number of markers. `Err` means out of memory.
///
/// For programs that want the list of moves alone; `Moves` pairs the same ones, and answers questions on them.
pub fn pair(alloc: Global, marks: &[Marker]) -> Result<Vec<Move>, AllocError>
    requires few { length marks.now < 2 ^ 32 }
    requires rising { RisesFrom 0 (markings marks.now) }
    ensures { IfOk result (λ moves. map move_of moves.items ≡ paired_moves (markings marks.now)) }
{
    let ranges = RangeIndexes::of(alloc, marks)?;
    let moves = paired(alloc, marks, &ranges);

    // The call has its proof once, and the end of a scope has one in each function.
    drop(ranges);
    moves
}

/// The paired moves of markers whose ranges are these. `Err` means out of memory.
pub(crate) fn paired<'a>(
    alloc: Global,
    marks: &'a [Marker],
    ranges: &RangeIndexes<'a>,
) -> Result<Vec<Move>, AllocError>
    requires rising { RisesFrom 0 (markings marks.now) }
    requires ranges { AreRangeIndexes (markings marks.now) ranges.now }
    ensures { IfOk result (λ moves. map move_of moves.items ≡ paired_moves (markings marks.now)) }
{
    let mut moves = Vec::new(alloc);
    for mark in marks {
        let begun = move_begun(mark, Edge::FromStart, ranges);
        add(&mut moves, begun)?;
    }
    Ok(moves)
}

/// Adds a move after the others, if there is one. `Err` means out of memory.
pub(crate) fn add(moves: &mut Vec<Move>, found: Option<Move>) -> Result<(), AllocError>
    ensures { OnOk result (moves.new.items ≡ moves.old.items ++ option_to_list found) }
{
    match found {
        Some(found) => {
            moves.push(found)?;
            Ok(())
        }
        None => Ok(()),
    }
}

/// The move of a marker's name, where the marker is a start of this kind.
pub(crate) fn move_begun<'a>(
    mark: &'a Marker,
    start: Edge,
    ranges: &RangeIndexes<'a>,
) -> Option<Move>
    ensures { (marks : List Marking) → AreRangeIndexes marks ranges.now → option_map move_of result ≡ move_begun (edge_of start) marks (marking_of mark.now) }
{
    if mark.edge != start {
        return None;
    }
    match &mark.name {
        Some(name) => move_with_name(name.as_bytes(), ranges),
        None => None,
    }
}

// The move of a name.
fn move_with_name<'a>(name: &'a [u8], ranges: &RangeIndexes<'a>) -> Option<Move>
    ensures { (marks : List Marking) → AreRangeIndexes marks ranges.now → option_map move_of result ≡ move_with_name marks name.now }
{
    let from = ranges.source.range(name)?;
    let to = ranges.target.range(name)?;
    Some(Move {
        from_start: from.start,
        from_end: from.end,
        to_start: to.start,
        to_end: to.end,
    })
}
