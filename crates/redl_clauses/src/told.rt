//! What revisions are told of their places.

ghost use Rattle.std.specs.Prelude.{◌≡◌, ◌<◌, IsTrue, OnOk, length, slice_get};
ghost use Rattle.redl_clauses.specs.Walks.{is_untold, tell, tell_all, told_at};

use redl_io::Text;
use std::alloc::{AllocError, Global};

/// Tells each of these revisions what is said of its place, if it wasn't told. `Err` means out of memory, here and below.
pub(crate) fn tell_all(
    alloc: Global,
    revisions: &[u32],
    clause: &Text,
    told: &mut Vec<Option<Text>>,
) -> Result<(), AllocError>
    ensures { OnOk result (told.new.items ≡ tell_all clause.now revisions.now told.old.items) }
{
    for revision in revisions {
        tell(alloc, *revision, clause, told)?;
    }
    Ok(())
}

/// Tells a revision what is said of its place, if it wasn't told.
pub(crate) fn tell(
    alloc: Global,
    revision: u32,
    clause: &Text,
    told: &mut Vec<Option<Text>>,
) -> Result<(), AllocError>
    ensures { OnOk result (told.new.items ≡ tell revision clause.now told.old.items) }
{
    if revision == 0 {
        return Ok(());
    }
    tell_at(alloc, revision as usize - 1, clause, told)
}

fn tell_at(
    alloc: Global,
    place: usize,
    clause: &Text,
    told: &mut Vec<Option<Text>>,
) -> Result<(), AllocError>
    ensures { OnOk result (told.new.items ≡ told_at place clause.now told.old.items) }
{
    if is_untold(told, place) {
        told[place] = Some(clause.copy(alloc)?);
    }
    Ok(())
}

fn is_untold(told: &[Option<Text>], place: usize) -> bool
    ensures untold { result ≡ is_untold (slice_get told.now place) }
    ensures within { IsTrue result → place < length told.now }
{
    match told.get(place) {
        Some(None) => true,
        Some(Some(_)) | None => false,
    }
}
