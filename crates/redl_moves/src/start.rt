//! Where a move begins.

ghost use Rattle.std.specs.Prelude.{◌≡◌, slice_get};
ghost use Rattle.redl_moves.specs.Marks.{markings};
ghost use Rattle.redl_moves.specs.Starts.{at_of, start_by};

use crate::marker::Marker;

/// The source start of a move: its position, which names the move in its story, and its place in the list of markers.
#[derive(Clone, Copy, Debug, PartialEq, Eq)]
pub struct Start {
    /// Its position.
    pub at: u64,
    /// Its place in the list of markers.
    pub place: u32,
}

impl Start {
    /// The start at a place in the list of markers.
    pub(crate) fn of(marks: &[Marker], place: u32) -> Start
        ensures { result ≡ start_by (markings marks.now) place }
    {
        Start {
            at: position(marks, place),
            place,
        }
    }
}

/// The position of the marker at a place, or 0 where there is none.
pub(crate) fn position(marks: &[Marker], place: u32) -> u64
    ensures { result ≡ at_of (slice_get (markings marks.now) place) }
{
    match marks.get(place as usize) {
        Some(mark) => mark.at,
        None => 0,
    }
}
