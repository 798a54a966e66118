//! Numbers that lead to a lesser one of those that they belong to, or to themselves.

ghost use Rattle.std.specs.Prelude.{◌≡◌, ◌<◌, ℕ, List, IfOk, length, slice_index};
ghost use Rattle.std.specs.List.{range_with_len};
ghost use Rattle.redl_classes.specs.Inside.Parents.{IsForest, IsLabelled};
ghost use Rattle.redl_classes.specs.Least.{IsBelow, joined};

use crate::pair::Pair;
use std::alloc::{AllocError, Global};

/// Each of so many numbers is alone. `Err` means out of memory.
pub(crate) fn alone(alloc: Global, count: u32) -> Result<Vec<u32>, AllocError>
    ensures { IfOk result (λ parents. parents.items ≡ range_with_len 0 count) }
{
    let mut parents = Vec::with_capacity(alloc, count as usize)?;
    for number in 0..count {
        parents.push(number)?;
    }
    Ok(parents)
}

/// The numbers of a pair belong together, and all that belong to one of them.
pub(crate) fn join(parents: &mut [u32], pair: Pair)
    requires forest { IsForest parents.old }
    requires bounds { IsBelow (length parents.old) pair }
    ensures forest { IsForest parents.new }
    ensures labels { (labels : List ℕ) → IsLabelled parents.old labels → IsLabelled parents.new (joined labels pair) }
{
    let one = find(parents, pair.one);
    let two = find(parents, pair.two);
    if one < two {
        parents[two as usize] = one;
    } else {
        parents[one as usize] = two;
    }
}

// Where a number leads to in the end. On its way each second number gets the parent of its parent, so that later ways are shorter.
fn find(parents: &mut [u32], number: u32) -> u32
    requires forest { IsForest parents.old }
    requires bound { number < length parents.old }
    ensures forest { IsForest parents.new }
    ensures bound { result < length parents.new }
    ensures labels { (labels : List ℕ) → IsLabelled parents.old labels → IsLabelled parents.new labels }
    ensures label { (labels : List ℕ) → IsLabelled parents.old labels → slice_index labels number ≡ result }
    ensures end { (labels : List ℕ) → IsLabelled parents.old labels → slice_index labels result ≡ result }
{
    let mut at = number;
    while parents[at as usize] != at {
        let parent = parents[at as usize];
        let next = parents[parent as usize];
        parents[at as usize] = next;
        at = next;
    }
    at
}

/// Each number leads to the least one at once.
pub(crate) fn settle(parents: &mut [u32])
    requires { IsForest parents.old }
    ensures { (labels : List ℕ) → IsLabelled parents.old labels → parents.new ≡ labels }
{
    for number in 0..parents.len() {
        let parent = parents[number];
        parents[number] = parents[parent as usize];
    }
}
