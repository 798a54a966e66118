//! The details of a package.

ghost use Rattle.std.specs.Prelude.{◌≡◌, ◌<◌, ◌^◌, All, IfOk, length};
ghost use Rattle.redl_excerpts.specs.Details.{IsDetail, package_details};

use crate::detail::{Detail, details};
use crate::excerpts;
use redl_index::Index;
use redl_join::Book;
use redl_opc::Package;
use redl_places::Places;
use std::alloc::{AllocError, Global};

/// The details of the revisions of a numbered package that are wanted, on which the book has these entries, and none of each other
/// one, in the order of their numbers. `Err` means out of memory.
///
/// `wanted` says of each revision whether it is wanted. The index is that of the package. It goes over each story twice.
pub fn package_details(
    alloc: Global,
    pkg: &Package,
    index: &Index,
    wanted: &[bool],
    book: &Book,
) -> Result<Vec<Detail>, AllocError>
    ensures value { IfOk result (λ details. details.items ≡ package_details pkg.now index.now wanted.now book.now) }
    ensures utf8 { IfOk result (λ details. All IsDetail details.items) }
{
    let _count = index.count();
    let excerpts = excerpts(alloc, pkg, index, wanted)?;
    let places = Places::of(alloc, pkg)?;
    let words = book.last_words()?;
    let details = details(alloc, excerpts, &places, &words)?;
    Ok(details)
}
