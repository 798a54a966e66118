//! The edit that each revision belongs to.

ghost use Rattle.std.specs.Prelude.{◌≡◌, ◌+◌, All, IfOk, drop};
ghost use Rattle.redl_classes.specs.Least.{IsBelow, least_numbers_of};
ghost use Rattle.redl_edits.specs.Edits.{package_edits, package_pairs};

use crate::beside::add_beside;
use crate::enclosed::add_enclosed;
use crate::formatted::add_formatted;
use crate::tabled::add_tabled;
use redl_classes::{Pair, least_numbers};
use redl_index::Index;
use redl_opc::Package;
use redl_spans::walk_package;
use std::alloc::{AllocError, Global};

/// The edit of each revision of a package with this index, in the order of their numbers: the least number of those that it belongs to.
/// `Err` means out of memory, here and below.
pub fn edits_of(alloc: Global, pkg: &Package, index: &Index) -> Result<Vec<u32>, AllocError>
    ensures { IfOk result (λ edits. edits.items ≡ package_edits pkg.now index.now) }
{
    let pairs = package_pairs(alloc, pkg, index)?;
    numbers(alloc, index.count(), &pairs)
}

// The revisions that belong together, two by two.
fn package_pairs(alloc: Global, pkg: &Package, index: &Index) -> Result<Vec<Pair>, AllocError>
    ensures { IfOk result (λ pairs. pairs.items ≡ package_pairs pkg.now index.now) }
{
    let walk = walk_package(alloc, pkg)?;
    let spans = walk.spans();
    let mut pairs = Vec::new(alloc);
    add_beside(index, spans, &mut pairs)?;
    add_enclosed(alloc, index, spans, &mut pairs)?;
    add_formatted(alloc, pkg, index, spans, &mut pairs)?;
    add_tabled(alloc, pkg, index, &mut pairs)?;
    Ok(pairs)
}

// The least number of those that each number belongs to, from 1 up to this one.
fn numbers(alloc: Global, last: u32, pairs: &[Pair]) -> Result<Vec<u32>, AllocError>
    requires { All (IsBelow (last + 1)) pairs.now }
    ensures { IfOk result (λ numbers. numbers.items ≡ drop 1 (least_numbers_of (last + 1) pairs.now)) }
{
    let Some(count) = last.checked_add(1) else {
        return Err(AllocError);
    };
    let mut numbers = least_numbers(alloc, count, pairs)?;
    numbers.remove(0);
    Ok(numbers)
}
