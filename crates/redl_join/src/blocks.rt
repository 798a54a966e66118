//! Lists of entries in their order, in blocks.
ghost use Rattle.std.specs.Prelude.{◌≡◌, ◌<◌, ◌++◌, ◌∷◌, [], not, IfOk, OnOk, OnErr};
ghost use Rattle.std.specs.List.{AllByRecursion, remove};
ghost use Rattle.std.specs.Vec.{vec_len};
ghost use Rattle.redl_join.specs.Blocks.{AreBlocks, IsFilled, IsPlace, ends_before, entries_in_blocks};
ghost use Rattle.redl_join.specs.Books.{IsBook, has_entry, with_entry, without_entry};

use redl_journal::Entry;
use std::alloc::{AllocError, Global};

/// The blocks of a list of entries, one after another. None is empty.
pub(crate) type Blocks = Vec<Vec<Entry>>;

// A longer block is halved. So an insertion moves few entries, and a list that grows at its end has full blocks.
const BLOCK: usize = 256;

/// Puts the entry at its place, and says whether it is new. `Err` means out of memory: the list is as it was, and the entry is
/// dropped.
pub(crate) fn insert(alloc: Global, blocks: &mut Blocks, entry: Entry) -> Result<bool, AllocError>
    requires { AreBlocks blocks.old.items }
    ensures blocks { AreBlocks blocks.new.items }
    ensures added { OnOk result (entries_in_blocks blocks.new.items ≡ with_entry (entries_in_blocks blocks.old.items) entry) }
    ensures was_new { IfOk result (λ new. new ≡ not (has_entry (entries_in_blocks blocks.old.items) entry)) }
    ensures untouched { OnErr result (entries_in_blocks blocks.new.items ≡ entries_in_blocks blocks.old.items) }
{
    let place = place_of(blocks, &entry);
    if place == blocks.len() {
        append(alloc, blocks, entry)?;
        return Ok(true);
    }
    let new = insert_into(&mut blocks[place], entry)?;
    halve_long(alloc, blocks, place);
    Ok(new)
}

/// Removes the entry, and says whether it was there.
pub(crate) fn remove(blocks: &mut Blocks, entry: &Entry) -> bool
    requires { AreBlocks blocks.old.items }
    ensures blocks { AreBlocks blocks.new.items }
    ensures removed { entries_in_blocks blocks.new.items ≡ without_entry (entries_in_blocks blocks.old.items) entry.now }
    ensures was_there { result ≡ has_entry (entries_in_blocks blocks.old.items) entry.now }
{
    let place = place_of(blocks, entry);
    if place == blocks.len() {
        return false;
    }
    let was_there = remove_from(&mut blocks[place], entry);
    drop_empty(blocks, place);
    was_there
}

// Whether the last entry of the block comes before this one.
fn ends_before(block: &[Entry], entry: &Entry) -> bool
    ensures { result ≡ ends_before entry.now block.now }
{
    match block.last() {
        Some(last) => last < entry,
        None => true,
    }
}

// The block into which the entry belongs, or the number of blocks if it comes after all entries.
fn place_of(blocks: &[Vec<Entry>], entry: &Entry) -> usize
    requires { AreBlocks blocks.now }
    ensures { IsPlace entry.now blocks.now result }
{
    let count = blocks.len();
    // Entries mostly come in rising order.
    if count > 0 && ends_before(&blocks[count - 1], entry) {
        return count;
    }
    blocks.partition_point(|block| ends_before(block, entry))
}

// Puts the entry after all others.
fn append(alloc: Global, blocks: &mut Blocks, entry: Entry) -> Result<(), AllocError>
    ensures appended { OnOk result (entries_in_blocks blocks.new.items ≡ entries_in_blocks blocks.old.items ++ entry ∷ []) }
    ensures untouched { OnErr result (entries_in_blocks blocks.new.items ≡ entries_in_blocks blocks.old.items) }
    ensures filled { AllByRecursion IsFilled blocks.old.items → AllByRecursion IsFilled blocks.new.items }
{
    let count = blocks.len();
    if count > 0 && blocks[count - 1].len() < BLOCK {
        blocks[count - 1].push(entry)?;
        return Ok(());
    }
    let mut block = Vec::new(alloc);
    block.push(entry)?;
    blocks.push(block)?;
    Ok(())
}

// Puts the entry at its place in the block, and says whether it is new.
fn insert_into(block: &mut Vec<Entry>, entry: Entry) -> Result<bool, AllocError>
    requires { IsBook block.old.items }
    ensures added { OnOk result (block.new.items ≡ with_entry block.old.items entry) }
    ensures was_new { IfOk result (λ new. new ≡ not (has_entry block.old.items entry)) }
    ensures untouched { OnErr result (block.new.items ≡ block.old.items) }
{
    match block.binary_search(&entry) {
        Ok(_) => Ok(false),
        Err(at) => {
            block.insert(at, entry)?;
            Ok(true)
        }
    }
}

// Removes the entry from the block, and says whether it was there.
fn remove_from(block: &mut Vec<Entry>, entry: &Entry) -> bool
    requires { IsBook block.old.items }
    ensures removed { block.new.items ≡ without_entry block.old.items entry.now }
    ensures was_there { result ≡ has_entry block.old.items entry.now }
{
    match block.binary_search(entry) {
        Ok(at) => {
            drop(block.remove(at));
            true
        }
        Err(_) => false,
    }
}

// Makes two blocks of this one if it is too long, where there is memory.
fn halve_long(alloc: Global, blocks: &mut Blocks, place: usize)
    requires { place < vec_len blocks.old }
    ensures same { entries_in_blocks blocks.new.items ≡ entries_in_blocks blocks.old.items }
    ensures filled { AllByRecursion IsFilled blocks.old.items → AllByRecursion IsFilled blocks.new.items }
{
    let count = blocks[place].len();
    if count <= BLOCK {
        return;
    }
    let Ok(()) = blocks.insert(place + 1, Vec::new(alloc)) else {
        return;
    };
    match blocks[place].split_off(count / 2) {
        Ok(upper) => blocks[place + 1] = upper,
        Err(_) => drop(blocks.remove(place + 1)),
    }
}

// Removes this block if it is empty.
fn drop_empty(blocks: &mut Blocks, place: usize)
    requires { place < vec_len blocks.old }
    ensures same { entries_in_blocks blocks.new.items ≡ entries_in_blocks blocks.old.items }
    ensures filled { AllByRecursion IsFilled (remove blocks.old.items place) → AllByRecursion IsFilled blocks.new.items }
{
    if blocks[place].is_empty() {
        drop(blocks.remove(place));
    }
}
