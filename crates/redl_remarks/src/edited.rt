//! Details with the edits of their revisions, and whether these are hidden.

ghost use Rattle.std.specs.Prelude.{◌≡◌, All, IfOk};
ghost use Rattle.redl_excerpts.specs.Details.{IsDetail};
ghost use Rattle.redl_remarks.specs.Remarked.{edit_at, edited, edited_details, edited_from, is_set};

use redl_clauses::numbered_details;
use redl_edits::edits_of;
use redl_excerpts::Detail;
use redl_hidden_members::hidden_of;
use redl_index::Index;
use redl_join::Book;
use redl_opc::Package;
use std::alloc::{AllocError, Global};

/// The details of the revisions of a numbered package that are wanted, with the clauses and edits of all, and whether they are hidden, on
/// which the book has these entries. `Err` means out of memory, here and below.
pub(crate) fn edited_details(
    alloc: Global,
    pkg: &Package,
    index: &Index,
    wanted: &[bool],
    book: &Book,
) -> Result<Vec<Detail>, AllocError>
    ensures value { IfOk result (λ details. details.items ≡ edited_details pkg.now index.now wanted.now book.now) }
    ensures utf8 { IfOk result (λ details. All IsDetail details.items) }
{
    let details = numbered_details(alloc, pkg, index, wanted, book)?;
    let edits = edits_of(alloc, pkg, index)?;
    let hidden = hidden_of(alloc, pkg, index.count() as usize)?;
    with_edits(alloc, details, &edits, &hidden)
}

fn with_edits(
    alloc: Global,
    details: Vec<Detail>,
    edits: &[u32],
    hidden: &[bool],
) -> Result<Vec<Detail>, AllocError>
    requires { All IsDetail details.items }
    ensures value { IfOk result (λ all. all.items ≡ edited_from edits.now hidden.now 0 details.items) }
    ensures utf8 { IfOk result (λ all. All IsDetail all.items) }
{
    let mut all = Vec::new(alloc);
    for detail in details {
        let edited = edited(detail, edits, hidden, all.len());
        all.push(edited)?;
    }
    Ok(all)
}

// The detail of the revision at this place, with its edit, and where it is hidden or not.
fn edited(detail: Detail, edits: &[u32], hidden: &[bool], place: usize) -> Detail
    requires { IsDetail detail }
    ensures value { result ≡ edited edits.now hidden.now place detail }
    ensures utf8 { IsDetail result }
{
    let edit = edit_at(edits, place);
    let hides = is_set(hidden, place);
    detail.with_edit(edit).with_hidden(hides)
}

fn edit_at(edits: &[u32], place: usize) -> u32
    ensures { result ≡ edit_at edits.now place }
{
    match edits.get(place) {
        Some(edit) => *edit,
        None => 0,
    }
}

/// Whether the flag at this place is set.
pub(crate) fn is_set(flags: &[bool], place: usize) -> bool
    ensures { result ≡ is_set flags.now place }
{
    match flags.get(place) {
        Some(flag) => *flag,
        None => false,
    }
}
