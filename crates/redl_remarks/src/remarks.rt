//! The comments on a revision, as a listing shows them.

ghost use Rattle.std.specs.Prelude.{◌≡◌, ◌++◌, All, IfOk, IfSome, OnOk, slice_get};
ghost use Rattle.std.specs.List.{filter_map};
ghost use Rattle.std.specs.Option.{option_map, option_to_list};
ghost use Rattle.std.specs.Str.{IsUtf8};
ghost use Rattle.redl_excerpts.specs.Remarks.{IsRemark};
ghost use Rattle.redl_remarks.specs.Remarked.{id_of, parent_id, remark_at, remark_of, remarks_of};
ghost use Rattle.redl_remarks.specs.Inside.{IsDated, remarks_at};

use redl_commented::{Commented, Remarks as Places};
use redl_comments::{Comment, Threads};
use redl_excerpts::{Remark, Remarks, checked_copy};
use redl_io::Text;
use std::alloc::{AllocError, Global};

/// The comments on the revision at this place, from 0. `Err` means out of memory, here and below.
pub(crate) fn remarks_at(
    alloc: Global,
    found: &Commented,
    place: usize,
) -> Result<Remarks, AllocError>
    requires { All IsDated found.now.comments.items }
    ensures value { IfOk result (λ remarks. remarks ≡ remarks_at found.now place) }
    ensures utf8 { IfOk result (λ remarks. All IsRemark remarks.first) }
{
    match found.on.get(place) {
        Some(places) => remarks_of(alloc, &found.comments, &found.threads, places),
        None => Ok(Remarks::none(alloc)),
    }
}

// Those of a revision among the comments of a package.
fn remarks_of(
    alloc: Global,
    comments: &[Comment],
    threads: &Threads,
    on: &Places,
) -> Result<Remarks, AllocError>
    requires { All IsDated comments.now }
    ensures value { IfOk result (λ remarks. remarks ≡ remarks_of comments.now threads.now on.now) }
    ensures utf8 { IfOk result (λ remarks. All IsRemark remarks.first) }
{
    let first = remarks_among(alloc, comments, threads, on.kept())?;
    Ok(Remarks::new(first, on.count()))
}

// The comments at these places.
fn remarks_among(
    alloc: Global,
    comments: &[Comment],
    threads: &Threads,
    places: &[usize],
) -> Result<Vec<Remark>, AllocError>
    requires { All IsDated comments.now }
    ensures value { IfOk result (λ remarks. remarks.items ≡ filter_map (remark_at comments.now threads.now) places.now) }
    ensures utf8 { IfOk result (λ remarks. All IsRemark remarks.items) }
{
    let mut remarks = Vec::new(alloc);
    for place in places {
        let remark = remark_at(alloc, comments, threads, *place)?;
        add(remark, &mut remarks)?;
    }
    Ok(remarks)
}

fn add(remark: Option<Remark>, remarks: &mut Vec<Remark>) -> Result<(), AllocError>
    requires utf8 { All IsRemark remarks.old.items }
    requires remark { IfSome remark IsRemark }
    ensures added { OnOk result (remarks.new.items ≡ remarks.old.items ++ option_to_list remark) }
    ensures utf8 { OnOk result (All IsRemark remarks.new.items) }
{
    if let Some(remark) = remark {
        remarks.push(remark)?;
    }
    Ok(())
}

// The comment at this place, if there is one.
fn remark_at(
    alloc: Global,
    comments: &[Comment],
    threads: &Threads,
    place: usize,
) -> Result<Option<Remark>, AllocError>
    requires { All IsDated comments.now }
    ensures value { IfOk result (λ remark. remark ≡ remark_at comments.now threads.now place) }
    ensures utf8 { IfOk result (λ remark. IfSome remark IsRemark) }
{
    match comments.get(place) {
        Some(comment) => {
            let remark = remark_of(alloc, comments, threads, place, comment)?;
            Ok(Some(remark))
        }
        None => Ok(None),
    }
}

fn remark_of(
    alloc: Global,
    comments: &[Comment],
    threads: &Threads,
    place: usize,
    comment: &Comment,
) -> Result<Remark, AllocError>
    requires { IsDated comment.now }
    ensures value { IfOk result (λ remark. remark ≡ remark_of comments.now threads.now place comment.now) }
    ensures utf8 { IfOk result IsRemark }
{
    let author = checked_copy(alloc, comment.author.as_bytes())?;
    let id = checked_copy(alloc, comment.id.as_bytes())?;
    let reply_to = parent_id(alloc, comments, threads, place)?;
    let text = checked_copy(alloc, comment.text.as_bytes())?;
    Ok(Remark {
        author,
        seconds: comment.seconds,
        is_done: threads.is_done(place),
        id,
        reply_to,
        text,
    })
}

// The id of the comment that the one at this place replies to.
fn parent_id(
    alloc: Global,
    comments: &[Comment],
    threads: &Threads,
    place: usize,
) -> Result<Option<Text>, AllocError>
    ensures value { IfOk result (λ id. id ≡ parent_id comments.now threads.now place) }
    ensures utf8 { IfOk result (λ id. IfSome id IsUtf8) }
{
    match threads.parent(place) {
        Some(parent) => id_at(alloc, comments, parent),
        None => Ok(None),
    }
}

fn id_at(alloc: Global, comments: &[Comment], place: usize) -> Result<Option<Text>, AllocError>
    ensures value { IfOk result (λ id. id ≡ option_map id_of (slice_get comments.now place)) }
    ensures utf8 { IfOk result (λ id. IfSome id IsUtf8) }
{
    match comments.get(place) {
        Some(comment) => {
            let id = checked_copy(alloc, comment.id.as_bytes())?;
            Ok(Some(id))
        }
        None => Ok(None),
    }
}
