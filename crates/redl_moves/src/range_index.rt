//! The ranges of moves by their ids and names: those that content moved from, and those that it moved to.

ghost use Rattle.std.specs.Prelude.{◌≡◌, ◌^◌, ◌<◌, List, length, IfOk};
ghost use Rattle.redl_tree.specs.Revisions.Moves as moves;
ghost use Rattle.redl_tree.specs.Revisions.Moves.{Marking};
ghost use Rattle.redl_moves.specs.Marks.{markings, edge_of};
ghost use Rattle.redl_moves.specs.Places.{span_with_id, span_with_name};
ghost use Rattle.redl_moves.specs.Inside.RangeIndexes.{IsRangeIndex, AreRangeIndexes};

use crate::marker::{Edge, Marker};
use crate::marker_index::{Key, MarkerIndex};
use std::alloc::{AllocError, Global};

/// A range, as the places of its markers.
#[derive(Clone, Copy, Debug, PartialEq, Eq)]
pub(crate) struct Span {
    /// The place of its start.
    pub(crate) start: u32,
    /// The place of its end.
    pub(crate) end: u32,
}

/// The ranges of moves in a story.
#[derive(Drop)]
pub(crate) struct RangeIndexes<'a> {
    /// Those that content moved from.
    pub(crate) source: RangeIndex<'a>,
    /// Those that content moved to.
    pub(crate) target: RangeIndex<'a>,
}

/// The ranges of one side of the moves of a story, by the ids and names of their markers.
#[derive(Drop)]
pub(crate) struct RangeIndex<'a> {
    marks: &'a [Marker],
    named: MarkerIndex<'a>,
    starts: MarkerIndex<'a>,
    ends: MarkerIndex<'a>,
}

impl<'a> RangeIndexes<'a> {
    /// The ranges of these markers: the sources, and the targets. `Err` means out of memory.
    pub(crate) fn of(alloc: Global, marks: &'a [Marker]) -> Result<RangeIndexes<'a>, AllocError>
        requires few { length marks.now < 2 ^ 32 }
        ensures { IfOk result (AreRangeIndexes (markings marks.now)) }
    {
        Ok(RangeIndexes {
            source: RangeIndex::of(alloc, marks, Edge::FromStart, Edge::FromEnd)?,
            target: RangeIndex::of(alloc, marks, Edge::ToStart, Edge::ToEnd)?,
        })
    }
}

impl<'a> RangeIndex<'a> {
    // The ranges of these starts and ends. `Err` means out of memory.
    fn of(
        alloc: Global,
        marks: &'a [Marker],
        start: Edge,
        end: Edge,
    ) -> Result<RangeIndex<'a>, AllocError>
        requires few { length marks.now < 2 ^ 32 }
        ensures { IfOk result (IsRangeIndex (edge_of start) (edge_of end) (markings marks.now)) }
    {
        Ok(RangeIndex {
            marks,
            named: MarkerIndex::of(alloc, marks, start, Key::Name)?,
            starts: MarkerIndex::of(alloc, marks, start, Key::Id)?,
            ends: MarkerIndex::of(alloc, marks, end, Key::Id)?,
        })
    }

    /// The range with this name.
    pub(crate) fn range(&self, name: &'a [u8]) -> Option<Span>
        ensures { (start end : moves.Edge) (marks : List Marking) → IsRangeIndex start end marks self.now → result ≡ span_with_name start end marks name.now }
    {
        let named = self.marks.get(self.named.only(name)? as usize)?;
        self.range_with_id(named.id.as_bytes())
    }

    // The range with this id.
    fn range_with_id(&self, id: &'a [u8]) -> Option<Span>
        ensures { (start end : moves.Edge) (marks : List Marking) → IsRangeIndex start end marks self.now → result ≡ span_with_id start end marks id.now }
    {
        let start = self.starts.only(id)?;
        let end = self.ends.only(id)?;
        let first = self.marks.get(start as usize)?;
        let last = self.marks.get(end as usize)?;
        if first.at < last.at && !first.loose && !last.loose {
            Some(Span { start, end })
        } else {
            None
        }
    }
}
