//! The markers of moves.

use redl_io::Text;

/// Which end of which range a marker is (ECMA-376 Part 1, 17.13.5.23 to 17.13.5.28).
#[derive(Clone, Copy, Debug, PartialEq, Eq)]
pub enum Edge {
    /// The start of a range that content moved from: `moveFromRangeStart`.
    FromStart,
    /// Its end: `moveFromRangeEnd`.
    FromEnd,
    /// The start of a range that content moved to: `moveToRangeStart`.
    ToStart,
    /// Its end: `moveToRangeEnd`.
    ToEnd,
}

/// A marker of a story. Its position is that of its start tag, where positions number the start tags and end tags of a story in
/// the order of its text, from 0 on. It is loose where what surrounds it may go without it; then it belongs to no paired move.
#[derive(Drop)]
pub struct Marker {
    /// Which end of which range it is.
    pub edge: Edge,
    /// Its id.
    pub id: Text,
    /// Its name, where it has one.
    pub name: Option<Text>,
    /// Its position.
    pub at: u64,
    /// Whether what surrounds it may go without it.
    pub loose: bool,
}

/// A paired move, by the places of its markers in the list of markers.
#[derive(Clone, Copy, Debug, PartialEq, Eq)]
pub struct Move {
    /// The start of its source.
    pub from_start: u32,
    /// The end of its source.
    pub from_end: u32,
    /// The start of its target.
    pub to_start: u32,
    /// The end of its target.
    pub to_end: u32,
}
