//! The moves of a story by position.

ghost use Rattle.std.specs.Prelude.{◌≡◌, ◌^◌, ◌<◌, [], length, nat_eq, slice_get, IfOk};
ghost use Rattle.indexmap.specs.IndexMap.{get};
ghost use Rattle.redl_moves.specs.Marks.{markings, RisesFrom};
ghost use Rattle.redl_moves.specs.Inside.RangeIndexes.{AreRangeIndexes};
ghost use Rattle.redl_moves.specs.Inside.Stories.{IsMoveIndex, open_in};

use crate::marker::{Marker, Move};
use crate::opens::{Side, open_moves};
use crate::owners::owners;
use crate::pairing::paired;
use crate::range_index::RangeIndexes;
use crate::start::Start;
use indexmap::IndexMap;
use std::alloc::{AllocError, Global};

/// Which move is open after each number of markers, on either side, and which move the marker at a position is of.
#[derive(Drop)]
pub(crate) struct MoveIndex {
    sources: Vec<Option<Move>>,
    targets: Vec<Option<Move>>,
    owners: IndexMap<u64, Start>,
}

impl MoveIndex {
    /// The index of the markers of a story. Without markers it takes no memory. `Err` means out of memory.
    pub(crate) fn of(alloc: Global, marks: &[Marker]) -> Result<MoveIndex, AllocError>
        requires few { length marks.now < 2 ^ 32 }
        requires rising { RisesFrom 0 (markings marks.now) }
        ensures { IfOk result (IsMoveIndex (markings marks.now)) }
    {
        if marks.is_empty() {
            return Ok(MoveIndex::empty(alloc));
        }
        let ranges = RangeIndexes::of(alloc, marks)?;
        let index = MoveIndex::by_ranges(alloc, marks, &ranges);

        // The call has its proof once, and the end of a scope has one in each function.
        drop(ranges);
        index
    }

    // The index of markers whose ranges are these. `Err` means out of memory.
    fn by_ranges<'a>(
        alloc: Global,
        marks: &'a [Marker],
        ranges: &RangeIndexes<'a>,
    ) -> Result<MoveIndex, AllocError>
        requires few { length marks.now < 2 ^ 32 }
        requires rising { RisesFrom 0 (markings marks.now) }
        requires ranges { AreRangeIndexes (markings marks.now) ranges.now }
        ensures { IfOk result (IsMoveIndex (markings marks.now)) }
    {
        let moves = paired(alloc, marks, ranges)?;
        Ok(MoveIndex {
            sources: open_moves(alloc, marks, ranges, Side::Source)?,
            targets: open_moves(alloc, marks, ranges, Side::Target)?,
            owners: owners(alloc, marks, &moves)?,
        })
    }

    // The index of a story without markers. It takes no memory.
    fn empty(alloc: Global) -> MoveIndex
        ensures { IsMoveIndex [] result }
    {
        MoveIndex {
            sources: Vec::new(alloc),
            targets: Vec::new(alloc),
            owners: IndexMap::new(alloc),
        }
    }

    /// The move that is open on a side after so many markers.
    pub(crate) fn open_after(&self, side: Side, place: usize) -> Option<Move>
        ensures { result ≡ open_in side self.now place }
    {
        let opens = match side {
            Side::Source => &self.sources,
            Side::Target => &self.targets,
        };
        match opens.get(place) {
            Some(open) => *open,
            None => None,
        }
    }

    /// The start of the move that the marker at a position is of.
    pub(crate) fn owner(&self, at: u64) -> Option<Start>
        ensures { result ≡ get nat_eq self.now.owners at }
    {
        match self.owners.get(&at) {
            Some(start) => Some(*start),
            None => None,
        }
    }
}
