//! How many markers come before a position.

ghost use Rattle.std.specs.Prelude.{◌≡◌, nat_lt};
ghost use Rattle.redl_moves.specs.Marks.{markings, RisesFrom};
ghost use Rattle.redl_moves.specs.Standing.{before};

use crate::marker::Marker;

/// How many of the markers of a story come before a position. It halves the list.
pub(crate) fn markers_before(marks: &[Marker], at: u64) -> usize
    requires rising { RisesFrom 0 (markings marks.now) }
    ensures { result ≡ before at (markings marks.now) }
{
    marks.partition_point(
        |mark: &Marker| -> bool
            ensures { result ≡ nat_lt mark.now.at at }
        { mark.at < at },
    )
}
