//! Where comments end.

ghost use Rattle.std.specs.Prelude.{◌≡◌, IfOk, filter, length, map};
ghost use Rattle.std.specs.List.Sorted.{IsNonDecreasingBy};
ghost use Rattle.redl_commented.specs.Inside.Fronts.{AreEnds, is_by};
ghost use Rattle.redl_commented.specs.On.{finish_of};
ghost use Rattle.redl_commented.specs.Orders.{in_order};

use crate::range::Ranged;
use std::alloc::{AllocError, Global};

/// Where comments end, in order. `Err` means out of memory, here and below.
pub(crate) fn sorted_ends(alloc: Global, all: &[Ranged]) -> Result<Vec<usize>, AllocError>
    ensures order { IfOk result (λ ends. IsNonDecreasingBy (λ end. end) ends.items) }
    ensures ends { IfOk result (λ ends. AreEnds ends.items all.now) }
{
    let mut ends = ends_of(alloc, all)?;
    ends.sort_by_key(|end| *end)?;
    Ok(ends)
}

fn ends_of(alloc: Global, all: &[Ranged]) -> Result<Vec<usize>, AllocError>
    ensures { IfOk result (λ ends. ends.items ≡ map finish_of all.now) }
{
    let mut ends = Vec::new(alloc);
    for ranged in all {
        ends.push(ranged.range.to)?;
    }
    Ok(ends)
}

/// How many of them are up to a place.
pub(crate) fn number_by(ends: &[usize], from: usize) -> usize
    requires { IsNonDecreasingBy (λ end. end) ends.now }
    ensures { result ≡ length (filter (is_by from) ends.now) }
{
    ends.partition_point(|end| *end <= from)
}
