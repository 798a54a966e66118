//! The number in the first package of each revision of the second one.

ghost use Rattle.std.specs.Prelude.{◌≡◌, ◌<◌, [], IfOk, length, map, slice_index_or};
ghost use Rattle.redl_tree.specs.Decisions.Packages.{pass_package};
ghost use Rattle.redl_sittings.specs.Inside.Filling.{with_number, with_pairs};
ghost use Rattle.redl_sittings.specs.SecondNumbers.{beside, first_numbers, numbers_beside, parts_beside};

use crate::parts::numbers_by_part;
use redl_opc::Package;
use redl_resolve::pass;
use redl_tree::Say;
use std::alloc::{AllocError, Global};

/// The first number of each revision of the second package, by its second number: item `k - 1` is the number in `first` of the
/// revision k of `second`, or 0 if it had none.
///
/// `second` is what the says leave of `first`, and both have the numbers of their revisions; `count` is how many revisions
/// `second` has. The pass of `first` is made once, and goes before the numbers of `second` are taken. `Err` means out of
/// memory.
pub fn map_back(
    alloc: Global,
    first: &Package,
    says: &[Say],
    second: &Package,
    count: u32,
) -> Result<Vec<u32>, AllocError>
    ensures { IfOk result (λ back. back.items ≡ first_numbers (pass_package says.now first.now) second.now count) }
{
    let firsts = {
        let left = pass(alloc, first.nodes(), says)?;
        numbers_by_part(alloc, &left)?
    };
    let seconds = numbers_by_part(alloc, second.nodes())?;
    first_numbers(alloc, &firsts, &seconds, count)
}

/// The same by the numbers of both packages, part by part: `firsts` are those of what the first sitting left. `Err` means out of
/// memory.
pub fn first_numbers(
    alloc: Global,
    firsts: &[Vec<u32>],
    seconds: &[Vec<u32>],
    count: u32,
) -> Result<Vec<u32>, AllocError>
    ensures { IfOk result (λ back. back.items
        ≡ numbers_beside (parts_beside (map (λ part. part.items) seconds.now) (map (λ part. part.items) firsts.now)) count) }
{
    let mut back = vec![in alloc; 0; count as usize]?;
    fill(&mut back, firsts, seconds);
    Ok(back)
}

// Puts in the first numbers of all parts, those of the last part first.
fn fill(back: &mut [u32], firsts: &[Vec<u32>], seconds: &[Vec<u32>])
    ensures { back.new ≡ with_pairs (parts_beside (map (λ part. part.items) seconds.now) (map (λ part. part.items) firsts.now)) back.old }
{
    for done in 0..seconds.len() {
        fill_at(back, firsts, seconds, seconds.len() - 1 - done);
    }
}

// Puts in the first numbers of one part.
fn fill_at(back: &mut [u32], firsts: &[Vec<u32>], seconds: &[Vec<u32>], part: usize)
    ensures { back.new ≡ with_pairs (beside (slice_index_or (map (λ part. part.items) seconds.now) part []) (slice_index_or (map (λ part. part.items) firsts.now) part [])) back.old }
{
    fill_part(back, numbers_at(firsts, part), numbers_at(seconds, part));
}

// The numbers of a part, or none.
fn numbers_at(numbers: &[Vec<u32>], part: usize) -> &[u32]
    ensures { result.now ≡ slice_index_or (map (λ part. part.items) numbers.now) part [] }
{
    match numbers.get(part) {
        Some(found) => found,
        None => &[],
    }
}

// Puts in the first numbers of a part, those of its last element first.
fn fill_part(back: &mut [u32], firsts: &[u32], seconds: &[u32])
    ensures { back.new ≡ with_pairs (beside seconds.now firsts.now) back.old }
{
    for done in 0..seconds.len() {
        let place = seconds.len() - 1 - done;
        put_number(back, seconds[place], number_at(firsts, place));
    }
}

// The number at a place, or 0.
fn number_at(numbers: &[u32], place: usize) -> u32
    ensures { result ≡ slice_index_or numbers.now place 0 }
{
    match numbers.get(place) {
        Some(number) => *number,
        None => 0,
    }
}

// Puts in the first number of this second number.
fn put_number(back: &mut [u32], second: u32, first: u32)
    ensures { back.new ≡ with_number second first back.old }
{
    if second != 0 && second as usize <= back.len() {
        back[second as usize - 1] = first;
    }
}
