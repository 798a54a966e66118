//! The comments of a package, and which revisions they are on.

ghost use Rattle.std.specs.Prelude.{◌≡◌, ◌+◌, ◌<◌, ℕ, Some, IfOk, slice_get};
ghost use Rattle.redl_comments.specs.Comments.{comments_of};
ghost use Rattle.redl_comments.specs.Threads.{package_threads};
ghost use Rattle.redl_commented.specs.Package.{ids_of, package_remarks, remarks_among};

use crate::on::{nothing_on, remarks_on};
use crate::own::{own_ranges, ranged_of};
use crate::remarks::Remarks;
use redl_comments::{Comment, Threads, comments_of, states_of, threads_of};
use redl_io::Text;
use redl_opc::Package;
use redl_spans::walk_package;
use std::alloc::{AllocError, Global};

/// The comments of a package.
#[derive(Drop)]
pub struct Commented {
    /// What they say, in the order of their part.
    pub comments: Vec<Comment>,
    /// Their threads.
    pub threads: Threads,
    /// Those on each revision, from number 1 on.
    pub on: Vec<Remarks>,
}

/// The comments of a numbered package with so many revisions. `Err` means out of memory, here and below.
pub fn package_comments(
    alloc: Global,
    pkg: &Package,
    revisions: usize,
) -> Result<Commented, AllocError>
    ensures comments { IfOk result (λ found. found.comments.items ≡ comments_of pkg.now) }
    ensures threads { IfOk result (λ found. found.threads ≡ package_threads pkg.now) }
    ensures on { IfOk result (λ found. (k : ℕ) → k < revisions → slice_get found.on.items k ≡ Some (package_remarks pkg.now (k + 1))) }
{
    let comments = comments_of(alloc, pkg)?;
    let states = states_of(alloc, pkg)?;
    let threads = threads_of(alloc, &comments, &states)?;
    let on = remarks_among(alloc, pkg, &comments, &threads, revisions)?;
    Ok(Commented {
        comments,
        threads,
        on,
    })
}

// Those on each revision of a numbered package that has these comments with these threads. It goes over no story where there are no
// comments.
fn remarks_among(
    alloc: Global,
    pkg: &Package,
    comments: &[Comment],
    threads: &Threads,
    revisions: usize,
) -> Result<Vec<Remarks>, AllocError>
    ensures { IfOk result (λ on. (k : ℕ) → k < revisions → slice_get on.items k ≡ Some (remarks_among pkg.now comments.now threads.now (k + 1))) }
{
    if comments.is_empty() {
        let none = nothing_on(alloc, revisions)?;
        return Ok(none);
    }
    let walk = walk_package(alloc, pkg)?;
    let ids = ids_of(alloc, comments)?;
    let own = own_ranges(alloc, walk.places(), &ids)?;
    let ranged = ranged_of(alloc, &own, threads)?;
    let on = remarks_on(alloc, walk.spans(), ranged, revisions)?;
    Ok(on)
}

fn ids_of(alloc: Global, comments: &[Comment]) -> Result<Vec<Text>, AllocError>
    ensures { IfOk result (λ ids. ids.items ≡ ids_of comments.now) }
{
    let mut ids = Vec::new(alloc);
    for comment in comments {
        ids.push(comment.id.copy(alloc)?)?;
    }
    Ok(ids)
}
