//! Details with the edits and the comments of their revisions.

ghost use Rattle.std.specs.Prelude.{◌≡◌, All, IfOk};
ghost use Rattle.redl_excerpts.specs.Details.{IsDetail};
ghost use Rattle.redl_remarks.specs.Remarked.{remarked_details};
ghost use Rattle.redl_remarks.specs.Inside.{IsDated, all_remarked, remarked};

use crate::edited::{edited_details, is_set};
use crate::remarks::remarks_at;
use redl_commented::{Commented, package_comments};
use redl_excerpts::Detail;
use redl_index::Index;
use redl_join::Book;
use redl_opc::Package;
use std::alloc::{AllocError, Global};

/// The details of the revisions of a numbered package that are wanted, in the order of their numbers, with the clauses and edits of all,
/// whether they are hidden, and the comments on them, on which the book has these entries. `Err` means out of memory, here and below.
///
/// `wanted` says of each revision whether it is wanted. The index is that of the package. It goes over each story five times, and once
/// more where there are comments.
pub fn remarked_details(
    alloc: Global,
    pkg: &Package,
    index: &Index,
    wanted: &[bool],
    book: &Book,
) -> Result<Vec<Detail>, AllocError>
    ensures value { IfOk result (λ details. details.items ≡ remarked_details pkg.now index.now wanted.now book.now) }
    ensures utf8 { IfOk result (λ details. All IsDetail details.items) }
{
    let details = edited_details(alloc, pkg, index, wanted, book)?;
    let found = package_comments(alloc, pkg, details.len())?;
    let remarked = all_remarked(alloc, details, wanted, &found)?;
    Ok(remarked)
}

fn all_remarked(
    alloc: Global,
    details: Vec<Detail>,
    wanted: &[bool],
    found: &Commented,
) -> Result<Vec<Detail>, AllocError>
    requires details { All IsDetail details.items }
    requires dated { All IsDated found.now.comments.items }
    ensures value { IfOk result (λ remarked. remarked.items ≡ all_remarked found.now wanted.now 0 details.items) }
    ensures utf8 { IfOk result (λ remarked. All IsDetail remarked.items) }
{
    let mut all = Vec::new(alloc);
    for detail in details {
        let remarked = remarked(alloc, detail, wanted, found, all.len())?;
        all.push(remarked)?;
    }
    Ok(all)
}

// The detail of the revision at this place, with the comments on it if it is wanted.
fn remarked(
    alloc: Global,
    detail: Detail,
    wanted: &[bool],
    found: &Commented,
    place: usize,
) -> Result<Detail, AllocError>
    requires detail { IsDetail detail }
    requires dated { All IsDated found.now.comments.items }
    ensures value { IfOk result (λ own. own ≡ remarked found.now wanted.now place detail) }
    ensures utf8 { IfOk result IsDetail }
{
    if !is_set(wanted, place) {
        return Ok(detail);
    }
    let remarks = remarks_at(alloc, found, place)?;
    Ok(detail.with_remarks(remarks))
}
