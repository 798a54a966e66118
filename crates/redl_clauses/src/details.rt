//! Details with clauses.

ghost use Rattle.std.specs.Prelude.{◌≡◌, All, IfOk, IfSome};
ghost use Rattle.std.specs.Str.{IsUtf8};
ghost use Rattle.redl_excerpts.specs.Details.{IsDetail};
ghost use Rattle.redl_clauses.specs.Clauses.{clause_at, clause_if_any, clauses_from, numbered_details, shown_clause};

use crate::stories::clauses_of;
use redl_excerpts::{Detail, package_details};
use redl_index::Index;
use redl_io::Text;
use redl_join::Book;
use redl_opc::Package;
use std::alloc::{AllocError, Global};

/// The details of the revisions of a numbered package that are wanted, with the clauses of all, in the order of their numbers, on which
/// the book has these entries. `Err` means out of memory.
///
/// `wanted` says of each revision whether it is wanted. The index is that of the package. It goes over each story three times.
#[tactic(auto, unfolding(crate::specs::Clauses::numbered_details))]
pub fn numbered_details(
    alloc: Global,
    pkg: &Package,
    index: &Index,
    wanted: &[bool],
    book: &Book,
) -> Result<Vec<Detail>, AllocError>
    ensures value { IfOk result (λ details. details.items ≡ numbered_details pkg.now index.now wanted.now book.now) }
    ensures utf8 { IfOk result (λ details. All IsDetail details.items) }
{
    let details = package_details(alloc, pkg, index, wanted, book)?;
    let told = clauses_of(alloc, pkg, index.count() as usize)?;
    with_clauses(alloc, details, &told)
}

fn with_clauses(
    alloc: Global,
    details: Vec<Detail>,
    told: &[Option<Text>],
) -> Result<Vec<Detail>, AllocError>
    requires { All IsDetail details.items }
    ensures value { IfOk result (λ numbered. numbered.items ≡ clauses_from 0 details.items told.now) }
    ensures utf8 { IfOk result (λ numbered. All IsDetail numbered.items) }
{
    let mut numbered = Vec::new(alloc);
    for detail in details {
        let clause = clause_at(alloc, told, numbered.len())?;
        numbered.push(detail.with_clause(clause))?;
    }
    Ok(numbered)
}

/// The clause that is said of a place, if there is one. `Err` means out of memory, here and below.
pub fn clause_at(
    alloc: Global,
    told: &[Option<Text>],
    place: usize,
) -> Result<Option<Text>, AllocError>
    ensures value { IfOk result (λ clause. clause ≡ clause_at told.now place) }
    ensures utf8 { IfOk result (λ clause. IfSome clause IsUtf8) }
{
    match told.get(place) {
        Some(Some(clause)) => shown_clause(alloc, clause),
        Some(None) | None => Ok(None),
    }
}

fn shown_clause(alloc: Global, clause: &Text) -> Result<Option<Text>, AllocError>
    ensures value { IfOk result (λ shown. shown ≡ shown_clause clause.now) }
    ensures utf8 { IfOk result (λ shown. IfSome shown IsUtf8) }
{
    match str::from_utf8(clause.as_bytes()) {
        Ok(text) => {
            let shown = clause_if_any(alloc, text)?;
            Ok(shown)
        }
        Err(_) => Ok(None),
    }
}

fn clause_if_any(alloc: Global, text: &str) -> Result<Option<Text>, AllocError>
    ensures value { IfOk result (λ shown. shown ≡ clause_if_any text.now) }
    ensures utf8 { IfOk result (λ shown. IfSome shown IsUtf8) }
{
    if text.is_empty() {
        return Ok(None);
    }
    let copy = Text::copy_of(alloc, text.as_bytes())?;
    Ok(Some(copy))
}
