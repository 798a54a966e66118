//! The numbers that the items of a list choose.

ghost use Rattle.std.specs.Prelude.{◌≡◌, ◌++◌, ◌-◌, ◌≤◌, IfOk, OnOk, flat_map, map};
ghost use Rattle.std.specs.List.{range_with_len};
ghost use Rattle.std.specs.List.Sorted.{IsStrictlySortedBy};
ghost use Rattle.std.specs.Ordering.{nat_cmp};
ghost use Rattle.redl_select.specs.Selections.{bounds_of, in_order, listed_by, numbers_within};

use redl_kinds::Listed;
use std::alloc::{AllocError, Global};

// The numbers from the first to the last, and none where the first is greater.
#[derive(Clone, Copy)]
struct Bounds {
    first: u32,
    last: u32,
}

/// What the items list in a package with so many revisions, in the order of the numbers, each once. `Err` means out of memory.
///
/// However many items list a number, it is looked at once.
pub(crate) fn in_order(alloc: Global, count: u32, listed: &[Listed]) -> Result<Vec<u32>, AllocError>
    ensures value { IfOk result (λ numbers. numbers.items ≡ in_order (flat_map (listed_by count) listed.now)) }
    ensures ascending { IfOk result (λ numbers. IsStrictlySortedBy nat_cmp numbers.items) }
{
    let mut all = all_bounds(alloc, count, listed)?;
    all.sort_unstable_by_key(|bounds| bounds.first);
    numbers_within(alloc, &all)
}

// The bounds of what each item lists in a package with so many revisions.
fn all_bounds(alloc: Global, count: u32, listed: &[Listed]) -> Result<Vec<Bounds>, AllocError>
    ensures { IfOk result (λ all. all.items ≡ map (bounds_of count) listed.now) }
{
    listed
        .iter()
        .map(|item| bounds_of(count, *item))
        .collect(alloc)
}

// The bounds of what an item lists in a package with so many revisions.
fn bounds_of(count: u32, item: Listed) -> Bounds
    ensures { result ≡ bounds_of count item }
{
    match item {
        Listed::One(number) => Bounds {
            first: number,
            last: number,
        },
        Listed::Range(first, last) => {
            Bounds {
                first,
                last: last.min(first.max(count.saturating_add(1))),
            }
        }
    }
}

// The numbers within these bounds, which are in the order of their first numbers.
fn numbers_within(alloc: Global, all: &[Bounds]) -> Result<Vec<u32>, AllocError>
    ensures { IfOk result (λ numbers. numbers.items ≡ numbers_within 0 all.now) }
{
    let mut numbers = Vec::new(alloc);
    let mut next: u64 = 0;
    for bounds in all {
        let end = u64::from(bounds.last) + 1;
        add_between(&mut numbers, next.max(u64::from(bounds.first)), end)?;
        next = next.max(end);
    }
    Ok(numbers)
}

// Adds the numbers from the first to the one before the end.
fn add_between(numbers: &mut Vec<u32>, first: u64, end: u64) -> Result<(), AllocError>
    requires { end ≤ 4294967296 }
    ensures { OnOk result (numbers.new.items ≡ numbers.old.items ++ range_with_len first (end - first)) }
{
    for number in first..end {
        numbers.push(number as u32)?;
    }
    Ok(())
}
