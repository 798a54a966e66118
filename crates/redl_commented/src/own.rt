//! The ranges of the comments of a package.

ghost use Rattle.std.specs.Prelude.{◌≡◌, ◌++◌, None, IfOk, OnOk, option_and_then, if◌then◌else◌};
ghost use Rattle.redl_commented.specs.Ranges.{is_at, own_at, own_ranges, range_along, range_at, range_found, ranged_if, ranged_of};

use crate::found::{Found, Founds};
use crate::range::{Range, Ranged, range_found};
use redl_comments::{Firsts, Threads};
use redl_io::Text;
use redl_spans::CommentPlace;
use std::alloc::{AllocError, Global};

/// How many comments of a thread are looked at.
const LONGEST_THREAD: usize = 100;

/// The ranges of comments with these ids that have places of their own among these. `Err` means out of memory, here and below.
pub(crate) fn own_ranges(
    alloc: Global,
    places: &[CommentPlace],
    ids: &[Text],
) -> Result<Vec<Option<Range>>, AllocError>
    ensures { IfOk result (λ own. own.items ≡ own_ranges places.now ids.now) }
{
    let founds = Founds::of(alloc, places)?;
    let firsts = Firsts::of(alloc, ids)?;
    let mut own = Vec::new(alloc);
    for id in ids {
        let first = is_at(own.len(), firsts.place(id.as_bytes()));
        own.push(own_range(first, founds.at(id.as_bytes()))?)?;
    }
    Ok(own)
}

fn is_at(place: usize, other: Option<usize>) -> bool
    ensures { result ≡ is_at place other }
{
    match other {
        Some(other) => place == other,
        None => false,
    }
}

// The range of a comment with these places, if it is the first with its id.
fn own_range(first: bool, found: Option<Found>) -> Result<Option<Range>, AllocError>
    ensures { IfOk result (λ range. range ≡ (if first then option_and_then range_found found else None)) }
{
    if first {
        return range_if(found);
    }
    Ok(None)
}

fn range_if(found: Option<Found>) -> Result<Option<Range>, AllocError>
    ensures { IfOk result (λ range. range ≡ option_and_then range_found found) }
{
    match found {
        Some(found) => range_found(&found),
        None => Ok(None),
    }
}

// The range of the comment at this place, where these are the comments' own ones: a reply without places has that of the comment to
// which it replies.
fn range_at(own: &[Option<Range>], threads: &Threads, place: usize) -> Option<Range>
    ensures { result ≡ range_at own.now threads.now place }
{
    range_along(LONGEST_THREAD, own, threads, Some(place))
}

/// The comments that have a range, in the order of their part, where these are the comments' own ranges. `Err` means out of memory.
pub(crate) fn ranged_of(
    alloc: Global,
    own: &[Option<Range>],
    threads: &Threads,
) -> Result<Vec<Ranged>, AllocError>
    ensures { IfOk result (λ ranged. ranged.items ≡ ranged_of own.now threads.now) }
{
    let mut ranged = Vec::new(alloc);
    for comment in 0..own.len() {
        add_ranged(comment, range_at(own, threads, comment), &mut ranged)?;
    }
    Ok(ranged)
}

fn add_ranged(
    comment: usize,
    range: Option<Range>,
    ranged: &mut Vec<Ranged>,
) -> Result<(), AllocError>
    ensures { OnOk result (ranged.new.items ≡ ranged.old.items ++ ranged_if comment range) }
{
    if let Some(range) = range {
        ranged.push(Ranged { comment, range })?;
    }
    Ok(())
}

// That of the first of the next comments of a thread, so many, that has one.
fn range_along(
    count: usize,
    own: &[Option<Range>],
    threads: &Threads,
    place: Option<usize>,
) -> Option<Range>
    ensures { result ≡ range_along count own.now threads.now place }
{
    let mut next = place;
    for _ in 0..count {
        let place = next?;
        let range = own_at(own, place);
        if range.is_some() {
            return range;
        }
        next = threads.parent(place);
    }
    None
}

fn own_at(own: &[Option<Range>], place: usize) -> Option<Range>
    ensures { result ≡ own_at own.now place }
{
    match own.get(place) {
        Some(range) => *range,
        None => None,
    }
}
