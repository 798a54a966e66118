//! Which move's range is open between two markers, and started last.

ghost use Rattle.std.specs.Prelude.{◌≡◌, ◌^◌, ◌<◌, [], length, map, IfOk, OnOk, option_map};
ghost use Rattle.redl_moves.specs.Marks.{markings, edge_of, move_of};
ghost use Rattle.redl_moves.specs.Opens.{start_of, is_open_at, find_last, opens_over, OpenAlike};
ghost use Rattle.redl_moves.specs.Inside.RangeIndexes.{AreRangeIndexes};

use crate::marker::{Edge, Marker, Move};
use crate::pairing::{add, move_begun};
use crate::range_index::RangeIndexes;
use std::alloc::{AllocError, Global};

/// A side of moves.
#[derive(Clone, Copy, Debug, PartialEq, Eq)]
pub enum Side {
    /// Where content moved from.
    Source,
    /// Where it moved to.
    Target,
}

impl Side {
    // Which edge the starts of its ranges are.
    fn start(self) -> Edge
        ensures { edge_of result ≡ start_of self }
    {
        match self {
            Side::Source => Edge::FromStart,
            Side::Target => Edge::ToStart,
        }
    }

    // Whether the range of a move that has begun is still open after so many markers.
    fn is_open(self, begun: Move, place: u32) -> bool
        ensures { result ≡ is_open_at self place (move_of begun) }
    {
        match self {
            Side::Source => begun.from_end >= place,
            Side::Target => begun.to_end >= place,
        }
    }
}

/// For each number of markers from none to all: the paired move whose range is open after so many of them and started last.
/// `Err` means out of memory.
pub(crate) fn open_moves<'a>(
    alloc: Global,
    marks: &'a [Marker],
    ranges: &RangeIndexes<'a>,
    side: Side,
) -> Result<Vec<Option<Move>>, AllocError>
    requires few { length marks.now < 2 ^ 32 }
    requires ranges { AreRangeIndexes (markings marks.now) ranges.now }
    ensures { IfOk result (λ opens. map (option_map move_of) opens.items ≡ opens_over side (markings marks.now) [] 0 (markings marks.now)) }
{
    let mut opens = Vec::new(alloc);
    let mut begun = Vec::new(alloc);
    for place in 0..marks.len() {
        let latest = last_open(&mut begun, side, place as u32)?;
        opens.push(latest)?;
        let more = move_begun(&marks[place], side.start(), ranges);
        add(&mut begun, more)?;
    }
    let latest = last_open(&mut begun, side, marks.len() as u32)?;
    opens.push(latest)?;
    Ok(opens)
}

// The last of the moves whose range is still open. Those after it are over, and are taken off. `Err` means out of memory.
fn last_open(begun: &mut Vec<Move>, side: Side, place: u32) -> Result<Option<Move>, AllocError>
    ensures last { IfOk result (λ found. option_map move_of found ≡ find_last (is_open_at side place) (map move_of begun.old.items)) }
    ensures alike { OnOk result (OpenAlike side place (map move_of begun.new.items) (map move_of begun.old.items)) }
{
    while let Some(last) = begun.pop() {
        if side.is_open(last, place) {
            begun.push(last)?;
            return Ok(Some(last));
        }
    }
    Ok(None)
}
