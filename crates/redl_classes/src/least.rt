//! The least number of those that belong together.

ghost use Rattle.std.specs.Prelude.{◌≡◌, All, IfOk, length, vec_len};
ghost use Rattle.std.specs.List.{range_with_len};
ghost use Rattle.redl_classes.specs.Least.{AreLeast, IsBelow, least_numbers_of};

use crate::pair::Pair;
use crate::parents::{alone, join, settle};
use std::alloc::{AllocError, Global};

/// For each number from 0 on, of which there are so many, the least one of those that it belongs to by these pairs. `Err` means out of
/// memory.
pub fn least_numbers(alloc: Global, count: u32, pairs: &[Pair]) -> Result<Vec<u32>, AllocError>
    requires { All (IsBelow count) pairs.now }
    ensures value { IfOk result (λ numbers. numbers.items ≡ least_numbers_of count pairs.now) }
    ensures count { IfOk result (λ numbers. vec_len numbers ≡ count) }
    ensures least { IfOk result (λ numbers. AreLeast pairs.now numbers.items) }
{
    let mut numbers = alone(alloc, count)?;
    join_all(&mut numbers, pairs);
    Ok(numbers)
}

// Each number is alone, and then the least one of those that it belongs to.
fn join_all(numbers: &mut [u32], pairs: &[Pair])
    requires alone { numbers.old ≡ range_with_len 0 (length numbers.old) }
    requires bounds { All (IsBelow (length numbers.old)) pairs.now }
    ensures value { numbers.new ≡ least_numbers_of (length numbers.old) pairs.now }
    ensures least { AreLeast pairs.now numbers.new }
{
    for pair in pairs {
        join(numbers, *pair);
    }
    settle(numbers);
}
