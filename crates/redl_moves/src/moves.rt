//! The moves of a story.

ghost use Rattle.std.specs.Prelude.{◌≡◌, ◌^◌, ◌<◌, length, find, option_map, IfOk};
ghost use Rattle.redl_tree.specs.Revisions.Moves.{pairs, pair_at, is_of_pair};
ghost use Rattle.redl_moves.specs.Marks.{markings, RisesFrom};
ghost use Rattle.redl_moves.specs.Standing.{range_on, IsApart};
ghost use Rattle.redl_moves.specs.Starts.{start_in};

use crate::before::markers_before;
use crate::marker::Marker;
use crate::move_index::MoveIndex;
use crate::opens::Side;
use crate::start::Start;
use std::alloc::{AllocError, Global};
use std::marker::Model;

/// The paired moves of one story, ready to be asked. A contract sees the list of the story's markers.
#[derive(Drop)]
pub struct Moves {
    marks: Vec<Marker>,
    index: MoveIndex,
}

impl Model for Moves {
    ghost use Rattle.std.specs.Prelude.{List};
    ghost use Rattle.redl_tree.specs.Revisions.Moves.{Marking};
    ghost use Rattle.redl_moves.specs.Marks.{markings};
    ghost use Rattle.redl_moves.specs.Inside.Stories.{IsStory};

    ghost Value = { List Marking };

    ghost view = { λ moves. markings moves.marks.items };

    ghost invariant = { λ moves. IsStory (markings moves.marks.items) moves.index };
}

impl Moves {
    /// The moves of the story that has these markers, in the order of their positions. `Err` means out of memory.
    ///
    /// Its time grows with the number of markers. Where there are none it takes no memory.
    pub fn of(alloc: Global, marks: Vec<Marker>) -> Result<Moves, AllocError>
        requires few { length marks.items < 2 ^ 32 }
        requires rising { RisesFrom 0 (markings marks.items) }
        ensures { IfOk result (λ moves. moves ≡ markings marks.items) }
    {
        let index = MoveIndex::of(alloc, &marks)?;
        Ok(Moves { marks, index })
    }

    /// The source start of the paired move of which a marker is at this position.
    ///
    /// `None` exactly where no marker of a paired move is there.
    pub fn at_marker(&self, at: u64) -> Option<Start>
        ensures { result ≡ option_map (start_in self.now) (find (is_of_pair at) (pairs self.now)) }
    {
        self.index.owner(at)
    }

    /// The source start of the paired move whose source range or target range is open at this position and
    /// started last. No marker may be at the position itself.
    ///
    /// `None` exactly where no such range is open: a range is open after its start and before its end.
    pub fn open_at(&self, side: Side, at: u64) -> Option<Start>
        ensures { IsApart at self.now → result ≡ option_map (start_in self.now) (pair_at (range_on side) at (pairs self.now)) }
    {
        let open = self
            .index
            .open_after(side, markers_before(&self.marks, at))?;
        Some(Start::of(&self.marks, open.from_start))
    }
}
