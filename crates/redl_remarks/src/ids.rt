//! The ids of the comments on revisions.

ghost use Rattle.std.specs.Prelude.{◌≡◌, ◌++◌, IfOk, OnOk, drop, slice_get};
ghost use Rattle.redl_remarks.specs.Ids.{ids_line, remark_ids, spaced_id};
ghost use Rattle.redl_remarks.specs.Inside.{ids_at};

use redl_commented::{Commented, package_comments};
use redl_comments::Comment;
use redl_io::Text;
use redl_opc::Package;
use std::alloc::{AllocError, Global};

/// The ids of the comments on each revision of a numbered package with so many, in the order of their numbers: those of one in one line,
/// at most 20, with a space between two. `Err` means out of memory, here and below.
pub fn remark_ids(alloc: Global, pkg: &Package, revisions: usize) -> Result<Vec<Text>, AllocError>
    ensures { IfOk result (λ ids. ids.items ≡ remark_ids pkg.now revisions) }
{
    let found = package_comments(alloc, pkg, revisions)?;
    let mut ids = Vec::new(alloc);
    for place in 0..revisions {
        let line = ids_at(alloc, &found, place)?;
        ids.push(line)?;
    }
    Ok(ids)
}

// Those of the comments on the revision at this place.
fn ids_at(alloc: Global, found: &Commented, place: usize) -> Result<Text, AllocError>
    ensures { IfOk result (λ line. line ≡ ids_at found.now place) }
{
    match found.on.get(place) {
        Some(on) => ids_line(alloc, &found.comments, on.kept()),
        None => Text::copy_of(alloc, b""),
    }
}

// The ids of the comments at these places.
fn ids_line(alloc: Global, comments: &[Comment], places: &[usize]) -> Result<Text, AllocError>
    ensures { IfOk result (λ line. line ≡ ids_line comments.now places.now) }
{
    let mut spaced = Vec::new(alloc);
    for place in places {
        add_id(comments, *place, &mut spaced)?;
    }
    Text::copy_of(alloc, without_first(&spaced))
}

// That of the one at this place is added, with a space before it.
fn add_id(comments: &[Comment], place: usize, spaced: &mut Vec<u8>) -> Result<(), AllocError>
    ensures { OnOk result (spaced.new.items ≡ spaced.old.items ++ spaced_id (slice_get comments.now place)) }
{
    if let Some(comment) = comments.get(place) {
        spaced.push(b' ')?;
        spaced.extend_from_slice(comment.id.as_bytes())?;
    }
    Ok(())
}

// These bytes without the first one.
fn without_first(bytes: &[u8]) -> &[u8]
    ensures { result.now ≡ drop 1 bytes.now }
{
    match bytes.split_first() {
        Some((_, rest)) => rest,
        None => bytes,
    }
}
