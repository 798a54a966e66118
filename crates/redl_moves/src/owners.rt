//! Which move the marker at a position is of.

ghost use Rattle.std.specs.Prelude.{◌≡◌, ◌==◌, ◌^◌, ◌<◌, ℕ, None, nat_eq, length, map, IfOk, OnOk};
ghost use Rattle.indexmap.specs.IndexMap.{get};
ghost use Rattle.redl_moves.specs.Marks.{markings, move_of};
ghost use Rattle.redl_moves.specs.Inside.Owners.{first_owner, is_at, owner_over};
ghost use Rattle.redl_moves.specs.Starts.{start_by};

use crate::marker::{Marker, Move};
use crate::start::{Start, position};
use indexmap::IndexMap;
use std::alloc::{AllocError, Global};

/// For the position of each marker of a move, where the move begins. Of several moves with one marker the first counts.
/// `Err` means out of memory.
pub(crate) fn owners(
    alloc: Global,
    marks: &[Marker],
    moves: &[Move],
) -> Result<IndexMap<u64, Start>, AllocError>
    ensures { IfOk result (λ owners. (at : ℕ) → get nat_eq owners at ≡ owner_over (markings marks.now) at None (map move_of moves.now)) }
{
    let mut owners = IndexMap::new(alloc);
    for paired in moves {
        add_owner(&mut owners, marks, *paired)?;
    }
    Ok(owners)
}

// Adds the four markers of a move. `Err` means out of memory.
fn add_owner(
    owners: &mut IndexMap<u64, Start>,
    marks: &[Marker],
    paired: Move,
) -> Result<(), AllocError>
    ensures { OnOk result ((at : ℕ) → get nat_eq owners.new at
        ≡ first_owner (is_at (markings marks.now) at (move_of paired)) (start_by (markings marks.now) paired.from_start) (get nat_eq owners.old at)) }
{
    let start = Start::of(marks, paired.from_start);
    keep_first(owners, start.at, start)?;
    keep_first(owners, position(marks, paired.from_end), start)?;
    keep_first(owners, position(marks, paired.to_start), start)?;
    keep_first(owners, position(marks, paired.to_end), start)
}

// Notes a start at a position that has none yet. `Err` means out of memory.
fn keep_first(owners: &mut IndexMap<u64, Start>, at: u64, start: Start) -> Result<(), AllocError>
    ensures { OnOk result ((other : ℕ) → get nat_eq owners.new other ≡ first_owner (other == at) start (get nat_eq owners.old other)) }
{
    if owners.get(&at).is_none() {
        owners.insert(at, start)?;
    }
    Ok(())
}
